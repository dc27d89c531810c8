// The providers.
ghost use Rattle.std.specs.Prelude.{◌≡◌};
ghost use Rattle.std.specs.List.{list_all};
ghost use Rattle.lrs_state.specs.Providers.{is_name, is_name_byte};

use crate::Counted;
use lrs_json::Text;
use lrs_register::{Change, Keyed};
use std::alloc::AllocError;

/// A provider as the history made it: the name that it was given, and the token by which it is known.
#[derive(Drop)]
pub struct HeldProvider {
    /// 1 to 64 letters, digits, `.`, `_`.
    pub name: Text,
    /// 32 hexadecimal digits, `-`, and the index of its entry.
    pub token: Text,
}

/// What an entry changes among the providers: one that it makes, and one that replaces the first with its token.
pub type ProvidersChange = Change<HeldProvider>;

impl Keyed<Text> for HeldProvider {
    ghost use Rattle.lrs_state.specs.Providers.{token_of};

    ghost key = { token_of };

    fn key(&self) -> &Text {
        &self.token
    }

    fn key_copy(&self) -> Result<Text, AllocError> {
        self.token.clone()
    }
}

/// The providers in the order in which they were made, found by token.
pub type Providers = Counted<Text, HeldProvider>;

/// The greatest length of a provider's name, in bytes.
const LONGEST_NAME: usize = 64;

/// Whether a text may be a provider's name: 1 to 64 letters, digits, `.` and `_`.
pub fn is_name(name: &Text) -> bool
    ensures { result ≡ is_name name.now }
{
    let bytes = name.as_bytes();
    !bytes.is_empty() && bytes.len() <= LONGEST_NAME && has_name_bytes(bytes)
}

fn has_name_bytes(name: &[u8]) -> bool
    ensures { result ≡ list_all is_name_byte name.now }
{
    name.iter()
        .all(|b| b.is_ascii_alphanumeric() || *b == b'.' || *b == b'_')
}

// The launches, the keys for which their tokens are given away, and these tokens.
ghost use Rattle.std.specs.Prelude.{◌≡◌};

use crate::Counted;
use cmi5_course::Launch;
use lrs_json::Text;
use lrs_names::Id;
use lrs_register::{Change, Keyed};
use std::alloc::AllocError;

/// A key for which the token of a session is given away, once (cmi5 Quartz, section 8.2, `fetch`).
#[derive(Drop)]
pub struct HeldKey {
    /// 32 hexadecimal digits, `-`, and the index of its entry.
    pub key: Text,
    /// The number of the launch that made it. Launches are counted from 0, in their order.
    pub launch: u32,
    /// Whether the token was given away.
    pub fetched: bool,
}

/// A token that was given away for a key: whoever presents it acts in the session of its launch.
#[derive(Drop)]
pub struct HeldToken {
    /// 32 hexadecimal digits, `-`, and the index of its entry.
    pub token: Text,
    /// The number of the launch.
    pub launch: u32,
}

/// What an entry changes among the launches: one that it makes.
pub type LaunchesChange = Change<Launch>;

/// What an entry changes among the keys: one that comes with a launch, and one that replaces the first with its text.
pub type KeysChange = Change<HeldKey>;

/// What an entry changes among the tokens: one that it gives away.
pub type TokensChange = Change<HeldToken>;

impl Keyed<Text> for HeldKey {
    ghost use Rattle.lrs_state.specs.Launches.{text_of_key};

    ghost key = { text_of_key };

    fn key(&self) -> &Text {
        &self.key
    }

    fn key_copy(&self) -> Result<Text, AllocError> {
        self.key.clone()
    }
}

impl Keyed<Text> for HeldToken {
    ghost use Rattle.lrs_state.specs.Launches.{text_of_token};

    ghost key = { text_of_token };

    fn key(&self) -> &Text {
        &self.token
    }

    fn key_copy(&self) -> Result<Text, AllocError> {
        self.token.clone()
    }
}

/// The launches in their order, found by session.
pub type Launches = Counted<Id, Launch>;

/// The keys in the order in which they were made, found by their text.
pub type Keys = Counted<Text, HeldKey>;

/// The tokens in the order in which they were given away, found by their text.
pub type Tokens = Counted<Text, HeldToken>;

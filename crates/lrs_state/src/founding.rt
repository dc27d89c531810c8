// What a store is founded with.
ghost use Rattle.std.specs.Prelude.{◌≡◌, IfOk};
ghost use Rattle.std.specs.List.{list_all};
ghost use Rattle.std.specs.Char.{is_ascii_alphanumeric};
ghost use Rattle.lrs_state.specs.Founding.{is_admin, is_token, is_base, has_base_form, is_of_the_web, is_no_separator};

use lrs_json::{Memory, Text};
use lrs_names::Iri;
use std::alloc::Global;
use url::{ParseError, Url};

/// What a store was founded with.
#[derive(Drop)]
pub struct Founding {
    /// The token of its first admin.
    pub admin: Text,
    /// The address under which it is reached, with which its own names begin.
    pub base: Iri,
}

/// Whether the token is the one that the store was founded with.
pub fn is_admin(founding: &Option<Founding>, token: &Text) -> bool
    ensures { result ≡ is_admin founding.now token.now }
{
    match founding {
        Some(founding) => founding.admin == *token,
        None => false,
    }
}

/// The least length of an admin's token, in bytes.
const SHORTEST_TOKEN: usize = 8;
/// The greatest length of an admin's token, in bytes.
const LONGEST_TOKEN: usize = 64;

/// Whether a text may be an admin's token: 8 to 64 letters and digits.
pub fn is_token(text: &Text) -> bool
    ensures { result ≡ is_token text.now }
{
    let bytes = text.as_bytes();
    if bytes.len() < SHORTEST_TOKEN || bytes.len() > LONGEST_TOKEN {
        return false;
    }
    has_letters_and_digits_alone(bytes)
}

fn has_letters_and_digits_alone(text: &[u8]) -> bool
    ensures { result ≡ list_all is_ascii_alphanumeric text.now }
{
    text.iter().all(|b| b.is_ascii_alphanumeric())
}

/// Whether a text may be the address under which a store is reached, with which its own names begin: `http://` or
/// `https://`, an IRI, without `?` and `#`, with a slash at its end.
pub fn is_base(alloc: Global, text: &Text) -> Result<bool, Memory>
    ensures { IfOk result (λ fits. fits ≡ is_base text.now) }
{
    if !has_base_form(text) {
        return Ok(false);
    }
    match Url::parse(alloc, text.as_str()) {
        Ok(_) => Ok(true),
        Err(ParseError::OutOfMemory) => Err(Memory),
        Err(ParseError::Overflow) => Err(Memory),
        Err(_) => Ok(false),
    }
}

// What can be seen of an address without reading it as one.
fn has_base_form(text: &Text) -> bool
    ensures { result ≡ has_base_form text.now }
{
    let bytes = text.as_bytes();
    is_of_the_web(bytes) && bytes.ends_with(b"/") && has_no_separator(bytes) && Iri::is(text)
}

fn is_of_the_web(text: &[u8]) -> bool
    ensures { result ≡ is_of_the_web text.now }
{
    text.starts_with(b"http://") || text.starts_with(b"https://")
}

fn has_no_separator(text: &[u8]) -> bool
    ensures { result ≡ list_all is_no_separator text.now }
{
    text.iter().all(|b| *b != b'?' && *b != b'#')
}

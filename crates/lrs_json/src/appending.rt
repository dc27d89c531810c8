//! Appending the parts of a JSON text, for the layers that write one around trees. Each call leaves what stood before
//! if memory runs out in the middle.
ghost use Rattle.std.specs.Prelude.{◌≡◌, [], ◌∷◌, ◌++◌, ◌<◌, ◌≤◌, length, IfOk, OnOk};
ghost use Rattle.std.specs.List.{flat_map, list_all, prefix_len};
ghost use Rattle.lrs_json.specs.Json.{string};
ghost use Rattle.lrs_json.specs.Texts.{name_text, member_text};
ghost use Rattle.lrs_json.specs.Written.{Extends, comma_if, escaped, hex_digit_of, is_plain, quoted};

use crate::Memory;
pub use crate::writing::put_tree;

/// The bytes as they are.
pub fn put(bytes: &[u8], into: &mut Vec<u8>) -> Result<(), Memory>
    ensures ok { OnOk result (into.new.items ≡ into.old.items ++ bytes.now) }
    ensures kept { Extends into.old.items into.new.items }
{
    into.extend_from_slice(bytes)?;
    Ok(())
}

/// A comma, if other items or members stand before.
pub fn put_comma(later: bool, into: &mut Vec<u8>) -> Result<(), Memory>
    ensures ok { OnOk result (into.new.items ≡ into.old.items ++ comma_if later) }
    ensures kept { Extends into.old.items into.new.items }
{
    if later {
        into.push(b',')?;
    }
    Ok(())
}

/// The text in its quotes, with what has to be escaped.
#[tactic(auto, using(crate::proofs::Extending::extends_trans))]
pub fn put_quoted(text: &str, into: &mut Vec<u8>) -> Result<(), Memory>
    ensures ok { OnOk result (into.new.items ≡ into.old.items ++ quoted text.now) }
    ensures kept { Extends into.old.items into.new.items }
{
    into.push(b'"')?;
    put_to_quote(text, into)
}

/// The text that the two make, one after the other.
#[tactic(auto, using(crate::proofs::Extending::extends_trans))]
pub fn put_quoted_parts(first: &str, second: &str, into: &mut Vec<u8>) -> Result<(), Memory>
    ensures ok { OnOk result (into.new.items ≡ into.old.items ++ quoted (first.now ++ second.now)) }
    ensures kept { Extends into.old.items into.new.items }
{
    into.push(b'"')?;
    put_escaped(first, into)?;
    put_to_quote(second, into)
}

// The rest of a text, and its closing quote.
#[tactic(auto, using(crate::proofs::Extending::extends_trans))]
fn put_to_quote(text: &str, into: &mut Vec<u8>) -> Result<(), Memory>
    ensures ok { OnOk result (into.new.items ≡ into.old.items ++ (flat_map escaped text.now ++ 34 ∷ [])) }
    ensures kept { Extends into.old.items into.new.items }
{
    put_escaped(text, into)?;
    into.push(b'"')?;
    Ok(())
}

/// The name of a member and its colon, and a comma before it if other members stand before.
#[tactic(auto, using(crate::proofs::Extending::extends_trans))]
pub fn put_name(later: bool, name: &str, into: &mut Vec<u8>) -> Result<(), Memory>
    ensures ok { OnOk result (into.new.items ≡ into.old.items ++ name_text later name.now) }
    ensures kept { Extends into.old.items into.new.items }
{
    put_comma(later, into)?;
    put_quoted(name, into)?;
    put(b":", into)
}

/// A member whose value is a text.
#[tactic(auto, using(crate::proofs::Extending::extends_trans))]
pub fn put_text(later: bool, name: &str, text: &str, into: &mut Vec<u8>) -> Result<(), Memory>
    ensures ok { OnOk result (into.new.items ≡ into.old.items ++ member_text later name.now (string text.now)) }
    ensures kept { Extends into.old.items into.new.items }
{
    put_name(later, name, into)?;
    put_quoted(text, into)
}

// A text as it stands between its quotes.
#[tactic(auto, using(crate::proofs::Extending::extends_trans))]
fn put_escaped(text: &str, into: &mut Vec<u8>) -> Result<(), Memory>
    ensures ok { OnOk result (into.new.items ≡ into.old.items ++ flat_map escaped text.now) }
    ensures kept { Extends into.old.items into.new.items }
{
    let mut left = text.as_bytes();
    while !left.is_empty() {
        left = put_run(left, into)?;
    }
    Ok(())
}

// So many bytes are looked at in one step, since a branch for each takes longer.
const BLOCK: usize = 8;

/// How many bytes at the beginning stand for themselves in a string.
pub fn plain_len(bytes: &[u8]) -> usize
    ensures bound { result ≤ length bytes.now }
    ensures value { result ≡ prefix_len is_plain bytes.now }
{
    let mut at = 0;
    while bytes.len() - at >= BLOCK && are_plain(&bytes[at..at + BLOCK]) {
        at += BLOCK;
    }
    at + plain_len_by_bytes(&bytes[at..])
}

fn are_plain(block: &[u8]) -> bool
    ensures { result ≡ list_all is_plain block.now }
{
    let mut plain = true;
    for byte in block {
        plain &= is_plain(*byte);
    }
    plain
}

fn plain_len_by_bytes(bytes: &[u8]) -> usize
    ensures bound { result ≤ length bytes.now }
    ensures value { result ≡ prefix_len is_plain bytes.now }
{
    for (i, byte) in bytes.iter().enumerate() {
        if !is_plain(*byte) {
            return i;
        }
    }
    bytes.len()
}

// Whether a byte stands for itself in a string.
fn is_plain(byte: u8) -> bool
    ensures { result ≡ is_plain byte }
{
    (byte >= 32) & (byte != b'"') & (byte != b'\\')
}

// The bytes at the beginning that stand for themselves, copied at once, and the escape of the byte after them. What is
// left is given back.
#[tactic(auto, using(crate::proofs::Extending::extends_trans))]
fn put_run<'a>(bytes: &'a [u8], into: &mut Vec<u8>) -> Result<&'a [u8], Memory>
    requires { 0 < length bytes.now }
    ensures ok { IfOk result
        (λ left. into.new.items ++ flat_map escaped left.now ≡ into.old.items ++ flat_map escaped bytes.now) }
    ensures shorter { IfOk result (λ left. length left.now < length bytes.now) }
    ensures kept { Extends into.old.items into.new.items }
{
    let (run, behind) = bytes.split_at(plain_len(bytes));
    put(run, into)?;
    match behind.split_first() {
        Some((byte, left)) => {
            put_byte(*byte, into)?;
            Ok(left)
        }
        None => Ok(behind),
    }
}

fn put_byte(byte: u8, into: &mut Vec<u8>) -> Result<(), Memory>
    ensures ok { OnOk result (into.new.items ≡ into.old.items ++ escaped byte) }
    ensures kept { Extends into.old.items into.new.items }
{
    put(written_byte(byte, &mut [0; 6]), into)
}

/// The byte as it stands in a written string. The buffer is room for it.
#[tactic(auto, unfolding(crate::specs::Written::escaped))]
pub(crate) fn written_byte<'a>(byte: u8, buffer: &'a mut [u8; 6]) -> &'a [u8]
    ensures { result.now ≡ escaped byte }
{
    match byte {
        b'"' => b"\\\"",
        b'\\' => b"\\\\",
        8 => b"\\b",
        b'\t' => b"\\t",
        b'\n' => b"\\n",
        12 => b"\\f",
        b'\r' => b"\\r",
        0..32 => {
            *buffer = [
                b'\\',
                b'u',
                b'0',
                b'0',
                hex_digit(byte / 16),
                hex_digit(byte % 16),
            ];
            buffer
        }
        _ => {
            *buffer = [byte; 6];
            &buffer[..1]
        }
    }
}

fn hex_digit(n: u8) -> u8
    requires { n < 16 }
    ensures { result ≡ hex_digit_of n }
{
    if n < 10 { b'0' + n } else { b'a' - 10 + n }
}

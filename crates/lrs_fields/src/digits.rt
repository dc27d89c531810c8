// The digits of draws, of words, of ids, of bytes and of numbers.
ghost use Rattle.std.specs.Prelude.{◌≡◌, ◌↔◌, length, IfOk, IsTrue};
ghost use Rattle.std.specs.Fmt.{decimal};
ghost use Rattle.hex.specs.Hex.{IsBytes, encode_lower};
ghost use Rattle.lrs_fields.specs.Digits.{HoldsDraw, draw_of, draw_text, word_of, word_text};
ghost use Rattle.lrs_fields.specs.Reading.{IsKeptValue, ReadsSpelling};
ghost use Rattle.lrs_fields.specs.Values.{number_value};
ghost use Rattle.lrs_names.specs.Ids.{IsId, id_text};

use hex::{FromHexError, decode, decode_to_slice, encode, encode_to_slice};
use itoa::Buffer;
use lrs_json::{Items, Memory};
use lrs_json_reader::Stop;
use lrs_names::{Draw, Id};
use std::alloc::Global;

/// The draw as 64 lower-case hexadecimal digits.
pub fn draw_digits(draw: Draw) -> [u8; 64]
    ensures text { result ≡ draw_text draw }
    ensures holds { HoldsDraw draw }
{
    let mut digits = [0; 64];
    let (name, secret) = digits.split_at_mut(32);
    put_word(draw.name, name);
    put_word(draw.secret, secret);
    digits
}

/// Writes a word as 32 lower-case hexadecimal digits.
#[tactic(auto, unfolding(crate::specs::Digits::word_text))]
pub fn put_word(word: u128, digits: &mut [u8])
    requires { length digits.old ≡ 32 }
    ensures { digits.new ≡ word_text word }
{
    match encode_to_slice(word.to_be_bytes(), digits) {
        Ok(()) => {}
        Err(_) => unreachable!(),
    }
}

/// The draw of 64 lower-case hexadecimal digits.
pub fn draw_of(digits: &[u8]) -> Result<Draw, Stop>
    ensures { ReadsSpelling draw_text HoldsDraw digits.now result }
{
    match decoded(digits) {
        Some(draw) => if are_same(digits, &draw_digits(draw)) {
            Ok(draw)
        } else {
            Err(Stop::Bad)
        },
        None => Err(Stop::Bad),
    }
}

// The draw of 64 hexadecimal digits, in either case.
fn decoded(digits: &[u8]) -> Option<Draw>
    ensures { result ≡ draw_of digits.now }
{
    if digits.len() != 64 {
        return None;
    }
    let (name, secret) = digits.split_at(32);
    Some(Draw {
        name: word_of(name)?,
        secret: word_of(secret)?,
    })
}

fn word_of(digits: &[u8]) -> Option<u128>
    ensures { result ≡ word_of digits.now }
{
    let mut bytes = [0; 16];
    match decode_to_slice(digits, &mut bytes) {
        Ok(()) => Some(u128::from_be_bytes(bytes)),
        Err(_) => None,
    }
}

/// The id of that text, in lower case.
pub fn id_of(text: &[u8]) -> Result<Id, Stop>
    ensures { ReadsSpelling id_text IsId text.now result }
{
    match Id::read(text) {
        Some(id) => if are_same(text, &id.text()) {
            Ok(id)
        } else {
            Err(Stop::Bad)
        },
        None => Err(Stop::Bad),
    }
}

/// The bytes of lower-case hexadecimal digits.
pub fn bytes_of(alloc: Global, digits: &[u8]) -> Result<Items<u8>, Stop>
    ensures { ReadsSpelling encode_lower IsBytes digits.now result }
{
    match decode(alloc, digits) {
        Ok(bytes) => match are_digits_of(alloc, bytes.as_slice(), digits) {
            Ok(true) => Ok(Items::from_vec(bytes)),
            Ok(false) => {
                drop(bytes);
                Err(Stop::Bad)
            }
            Err(refused) => {
                drop(bytes);
                Err(Stop::from(refused))
            }
        },
        Err(error) => Err(stop_of(error)),
    }
}

fn stop_of(error: FromHexError) -> Stop
    ensures { error ≡ FromHexError.OutOfMemory → result ≡ Stop.Memory }
{
    match error {
        FromHexError::OutOfMemory => Stop::Memory,
        _ => Stop::Bad,
    }
}

fn are_digits_of(alloc: Global, bytes: &[u8], digits: &[u8]) -> Result<bool, Memory>
    ensures { IfOk result (λ are. IsTrue are ↔ (digits.now ≡ encode_lower bytes.now)) }
{
    let own = encode(alloc, bytes)?;
    Ok(are_same(digits, own.as_bytes()))
}

fn are_same(one: &[u8], other: &[u8]) -> bool
    ensures { IsTrue result ↔ (one.now ≡ other.now) }
{
    one == other
}

/// The number whose decimal digits these are.
pub fn number_of(spelling: &str) -> Result<u32, Stop>
    ensures { ReadsSpelling decimal (IsKeptValue number_value) spelling.now result }
{
    match spelling.parse::<u32>() {
        Ok(number) => if is_printed(u64::from(number), spelling) {
            Ok(number)
        } else {
            Err(Stop::Bad)
        },
        Err(_) => Err(Stop::Bad),
    }
}

/// Whether these are the digits of the number, without zeros or a sign before them.
pub fn is_printed(number: u64, spelling: &str) -> bool
    ensures { IsTrue result ↔ (spelling.now ≡ decimal number) }
{
    let mut buffer = Buffer::new();
    spelling == buffer.format(number)
}

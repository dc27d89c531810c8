// The parts of a written form.
ghost use Rattle.std.specs.Prelude.{◌≡◌, ◌++◌, ◌∷◌, [], ℕ, List, true, false, drop};
ghost use Rattle.std.specs.Bool.{MatchBool};
ghost use Rattle.lrs_decimal.specs.Numbers.{without};
ghost use Rattle.lrs_json.specs.Json.{Json, Elements, Members, element, member};
ghost use Rattle.lrs_json.specs.Written.{elements_text, members_text, quoted, written};
ghost use Rattle.lrs_json_slices.specs.Scanning.{behind_front};
ghost use Rattle.lrs_json_slices.specs.Spelled.{IsSpelled};

use crate::scanning::{behind_first, behind_front};

/// A name, its value and what is left of the members, if the bytes are the text of members.
pub fn split_member(bytes: &[u8]) -> (&[u8], &[u8], &[u8])
    ensures { (k : List ℕ) (j : Json) (ms : Members) → IsSpelled j → bytes.now ≡ members_text false (member k j ms)
        → (result.0.now ≡ quoted k) × (result.1.now ≡ written j) × (result.2.now ≡ members_text false ms) }
{
    let (name, colon) = split(bytes);
    let (value, left) = split_item(behind_first(colon));
    (name, value, left)
}

/// A value and what is left of the items, if the bytes are the text of items, or what is left of the members.
pub fn split_item(bytes: &[u8]) -> (&[u8], &[u8])
    ensures item { (j : Json) (js : Elements) → IsSpelled j → bytes.now ≡ elements_text false (element j js)
        → (result.0.now ≡ written j) × (result.1.now ≡ elements_text false js) }
    ensures value { (j : Json) (ms : Members) → IsSpelled j → bytes.now ≡ written j ++ members_text true ms
        → (result.0.now ≡ written j) × (result.1.now ≡ members_text false ms) }
{
    let (value, behind) = split(bytes);
    (value, behind_comma(behind))
}

// What stands at the beginning of the bytes, and what is behind it.
fn split(bytes: &[u8]) -> (&[u8], &[u8])
    ensures { (front rest : List ℕ) → bytes.now ≡ front ++ rest → behind_front bytes.now ≡ rest
        → (result.0.now ≡ front) × (result.1.now ≡ rest) }
{
    let behind = behind_front(bytes);
    bytes.split_at(bytes.len() - behind.len())
}

// Behind the comma, if one comes first.
fn behind_comma(bytes: &[u8]) -> &[u8]
    ensures { result.now ≡ without 44 bytes.now }
{
    match bytes {
        [b',', behind @ ..] => behind,
        _ => bytes,
    }
}

/// Whether this byte comes first.
pub fn begins_with(byte: u8, bytes: &[u8]) -> bool
    ensures { MatchBool result ((rest : List ℕ) × (bytes.now ≡ byte ∷ rest))
        ((rest : List ℕ) → bytes.now ≡ byte ∷ rest → ⊥) }
{
    match bytes {
        [first, ..] => *first == byte,
        [] => false,
    }
}

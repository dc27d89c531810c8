ghost use Rattle.std.specs.Prelude.{◌≡◌, ◌⊎◌, [], ◌∷◌, ◌++◌, map, IfOk, IfErr, OnOk, IsUtf8, MatchResult};
ghost use Rattle.form_urlencoded.specs.Form.{decode, plus_to_space};
ghost use Rattle.xapi_parameters.specs.Pairs.{AreTexts, Decodes, IsText, pair_of, pairs_of};

use crate::QueryRefused;
use form_urlencoded::raw_pairs;
use lrs_json::{Memory, Text};
use percent_encoding::{DecodeError, percent_decode};
use std::alloc::Global;

/// A parameter of a request: its name and its value, decoded.
#[derive(Drop)]
pub struct Pair {
    /// Upper and lower case are told apart, in the value too.
    pub name: Text,
    pub value: Text,
}

/// The pairs of a query, which is what follows the first `?` of a request's target, in the form
/// `name=value&name=value` (URL Standard, section 5.1): `+` is a space, and `%41` stands for the byte 0x41.
pub fn pairs(alloc: Global, query: &Text) -> Result<Vec<Pair>, QueryRefused>
    ensures pairs { IfOk result (λ pairs. pairs.items ≡ pairs_of query.now) }

    // P1 exactly if a name or a value isn't UTF-8.
    ensures texts { IfOk result (λ pairs. AreTexts (pairs_of query.now)) }
    ensures bad { IfErr result (λ refused. (refused ≡ QueryRefused.Memory)
        ⊎ ((refused ≡ QueryRefused.BadParameter 1) × (¬ AreTexts (pairs_of query.now)))) }
{
    let mut pairs = Vec::new(alloc);
    for (name, value) in raw_pairs(query.as_bytes()) {
        push(&mut pairs, pair_of(alloc, name, value)?)?;
    }
    Ok(pairs)
}

fn push(pairs: &mut Vec<Pair>, pair: Pair) -> Result<(), Memory>
    ensures { OnOk result (pairs.new.items ≡ pairs.old.items ++ pair ∷ []) }
{
    pairs.push(pair)?;
    Ok(())
}

fn pair_of(alloc: Global, name: &[u8], value: &[u8]) -> Result<Pair, QueryRefused>
    ensures { let raw = pair_of (name.now, value.now) in MatchResult result (λ pair. (pair ≡ raw) × IsText raw)
        (λ refused. (refused ≡ QueryRefused.Memory) ⊎ ((refused ≡ QueryRefused.BadParameter 1) × (¬ IsText raw))) }
{
    Ok(Pair {
        name: decoded(alloc, name)?,
        value: decoded(alloc, value)?,
    })
}

fn decoded(alloc: Global, bytes: &[u8]) -> Result<Text, QueryRefused>
    ensures { Decodes bytes.now result }
{
    let spaced = spaced(alloc, bytes)?;
    match percent_decode(spaced.as_slice()).decode_utf8(alloc) {
        Ok(text) => Ok(Text::of(alloc, &text)?),
        Err(DecodeError::OutOfMemory) => Err(QueryRefused::Memory),
        Err(DecodeError::Utf8(_)) => Err(QueryRefused::BadParameter { number: 1 }),
    }
}

// With a space for each `+`.
fn spaced(alloc: Global, bytes: &[u8]) -> Result<Vec<u8>, Memory>
    ensures { IfOk result (λ spaced. spaced.items ≡ map plus_to_space bytes.now) }
{
    let spaced = bytes
        .iter()
        .map(|byte| if *byte == b'+' { b' ' } else { *byte });
    Ok(spaced.collect(alloc)?)
}

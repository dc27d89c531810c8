ghost use Rattle.std.specs.Prelude.{◌≡◌, ◌≤◌, ◌+◌, ℕ, ◌↔◌, IsTrue, IfOk, Err};
ghost use Rattle.lrs_json.specs.Json.{Json};
ghost use Rattle.lrs_json.specs.View.{view};
ghost use Rattle.lrs_json.specs.Written.{written};
ghost use Rattle.lrs_json.specs.Fits.{IsReadable};
ghost use Rattle.lrs_json.specs.declared.tree.Tree.{Tree as SpecTree};
ghost use Rattle.lrs_json_reader.specs.Refusals.{is_too_deep, Spells, IsBad, RepeatedAt, OutOfRangeAt, Gives, Refuses};
ghost use Rattle.lrs_json_reader.specs.Reading.{ReadsText, Judges};

use crate::cursor::{Cursor, Stop};
use crate::depth::{MOST_DEPTH, is_too_deep};
use crate::reader::{Flaws, Reader};
use lrs_json::{DEPTH, Memory, Tree};
use std::alloc::Global;

/// Why a text is refused, in the order in which the causes are looked for.
#[derive(Clone, Copy, Debug, PartialEq, Eq)]
pub enum ReadRefused {
    /// The brackets nest deeper than is allowed.
    TooDeep,
    /// The bytes are no JSON text.
    Bad,
    /// A name equals an earlier name of the same object, once both are decoded. The offset is that of the
    /// opening quote of the earliest such name.
    Repeated { offset: usize },
    /// A number is out of range. The offset is that of the earliest such number.
    NumberRange { offset: usize },
    /// Out of memory.
    Memory,
}

impl From<Memory> for ReadRefused {
    ghost use Rattle.std.specs.Prelude.{◌≡◌};
    ghost use Rattle.lrs_json_reader.specs.declared.reading.ReadRefused.TheVariants as Refused;

    ghost from_gives = { λ _ e. e ≡ Refused.Memory };

    fn from(_: Memory) -> ReadRefused {
        ReadRefused::Memory
    }
}

/// The tree that the bytes spell, nested at most `DEPTH` deep.
pub fn read(alloc: Global, bytes: &[u8]) -> Result<Tree, ReadRefused>
    ensures too_deep { (result ≡ Err ReadRefused.TooDeep) ↔ IsTrue (is_too_deep DEPTH bytes.now) }
    ensures bad { Refuses result ReadRefused.Bad (IsBad DEPTH bytes.now) }
    ensures repeated { (offset : ℕ) → Refuses result (ReadRefused.Repeated offset) (RepeatedAt DEPTH bytes.now offset) }
    ensures number_range { (offset : ℕ) →
        Refuses result (ReadRefused.NumberRange offset) (OutOfRangeAt DEPTH bytes.now offset) }
    ensures found { IfOk result (λ t. Spells DEPTH bytes.now (view t)) }
    ensures all { (j : Json) → Spells DEPTH bytes.now j → Gives result (λ t. view t ≡ j) }

    // A tree that is given can be read again, and what is written from it is read as the same tree.
    ensures readable { IfOk result (λ t. IsReadable DEPTH (view t)) }
    ensures again { (t : SpecTree) → IsReadable DEPTH (view t) → bytes.now ≡ written (view t) →
        Gives result (λ u. u ≡ t) }
{
    read_to(alloc, bytes, DEPTH)
}

/// The tree that the bytes spell, nested at most `depth` deep.
pub fn read_to(alloc: Global, bytes: &[u8], depth: u32) -> Result<Tree, ReadRefused>
    requires { depth ≤ MOST_DEPTH }
    ensures too_deep { (result ≡ Err ReadRefused.TooDeep) ↔ IsTrue (is_too_deep depth bytes.now) }
    ensures bad { Refuses result ReadRefused.Bad (IsBad depth bytes.now) }
    ensures repeated { (offset : ℕ) → Refuses result (ReadRefused.Repeated offset) (RepeatedAt depth bytes.now offset) }
    ensures number_range { (offset : ℕ) →
        Refuses result (ReadRefused.NumberRange offset) (OutOfRangeAt depth bytes.now offset) }
    ensures found { IfOk result (λ t. Spells depth bytes.now (view t)) }
    ensures all { (j : Json) → Spells depth bytes.now j → Gives result (λ t. view t ≡ j) }

    // A tree that is given can be read again, and what is written from it is read as the same tree.
    ensures readable { IfOk result (λ t. IsReadable depth (view t)) }
    ensures again { (t : SpecTree) → IsReadable depth (view t) → bytes.now ≡ written (view t) →
        Gives result (λ u. u ≡ t) }
{
    if is_too_deep(bytes, depth) {
        return Err(ReadRefused::TooDeep);
    }
    match read_text(alloc, bytes) {
        Ok((tree, flaws)) => judge(tree, flaws, bytes.len()),
        Err(Stop::Memory) => Err(ReadRefused::Memory),
        Err(Stop::Bad) => Err(ReadRefused::Bad),
    }
}

// The value of the whole text, and the flaws in it.
fn read_text(alloc: Global, bytes: &[u8]) -> Result<(Tree, Flaws), Stop>
    ensures { ReadsText bytes.now result }
{
    let mut reader = Reader::new(alloc, bytes);
    let mut lefts = Vec::new(alloc);
    reader.cursor.skip_spaces();
    let tree = reader.value(&mut lefts)?;
    reader.cursor.skip_spaces();
    if reader.cursor.is_empty() {
        Ok((tree, reader.flaws))
    } else {
        Err(Stop::Bad)
    }
}

// A repeated name goes before a number out of range.
fn judge(tree: Tree, flaws: Flaws, length: usize) -> Result<Tree, ReadRefused>
    ensures { Judges tree flaws length result }
{
    if let Some(left) = flaws.repeated {
        return Err(ReadRefused::Repeated {
            offset: length.saturating_sub(left),
        });
    }
    if let Some(left) = flaws.out_of_range {
        return Err(ReadRefused::NumberRange {
            offset: length.saturating_sub(left),
        });
    }
    Ok(tree)
}

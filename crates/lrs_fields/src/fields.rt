//! How the values of fields are read, each behind the bytes that stand before it. Bytes that aren't the text of a value
//! are refused at the first that differs.
ghost use Rattle.std.specs.Prelude.{IfNone, IfOk, IsTrue};
ghost use Rattle.lrs_fields.specs.Reading.{IsMissing, ReadsField, ReadsOptional, ReadsSpelling};
ghost use Rattle.lrs_fields.specs.Values.{actor_value, agent_value, bytes_value, id_value, iri_value, number_value, text_value, tree_value, trees_value};
ghost use Rattle.lrs_names.specs.Iris.{is_iri};

use crate::agents::{closed_identifier, read_actor};
use crate::digits::{bytes_of, id_of, number_of};
use lrs_agents::{Agent, Ifi};
use lrs_json::{DEPTH, Items, Text, Tree};
use lrs_json_reader::Stop;
use lrs_json_written::{Cursor, read_text, read_tree, read_trees};
use lrs_names::{Id, Iri};

/// A string of JSON, in the one spelling in which texts are written.
pub fn text_behind(front: &[u8], cursor: &mut Cursor<'_>) -> Result<Text, Stop>
    ensures { ReadsField front.now text_value cursor.old result cursor.new }
{
    cursor.word(front)?;
    read_text(cursor)
}

/// An id, in the lower-case form of RFC 4122.
pub fn id_behind(front: &[u8], cursor: &mut Cursor<'_>) -> Result<Id, Stop>
    ensures { ReadsField front.now id_value cursor.old result cursor.new }
{
    let text = text_behind(front, cursor)?;
    id_of(text.as_bytes())
}

/// An IRI with its scheme (RFC 3987).
pub fn iri_behind(front: &[u8], cursor: &mut Cursor<'_>) -> Result<Iri, Stop>
    ensures { ReadsField front.now iri_value cursor.old result cursor.new }
{
    let text = text_behind(front, cursor)?;
    iri_of(text)
}

/// Bytes, spelled in lower-case hexadecimal digits.
pub fn bytes_behind(front: &[u8], cursor: &mut Cursor<'_>) -> Result<Items<u8>, Stop>
    ensures { ReadsField front.now bytes_value cursor.old result cursor.new }
{
    let digits = text_behind(front, cursor)?;
    bytes_of(cursor.allocator(), digits.as_bytes())
}

/// A number below 2^32, spelled in decimal digits alone.
pub fn number_behind(front: &[u8], cursor: &mut Cursor<'_>) -> Result<u32, Stop>
    ensures { ReadsField front.now number_value cursor.old result cursor.new }
{
    cursor.word(front)?;
    let spelling = cursor.number()?;
    number_of(spelling.as_str())
}

/// A tree that nests at most `DEPTH` levels.
pub fn tree_behind(front: &[u8], cursor: &mut Cursor<'_>) -> Result<Tree, Stop>
    ensures { ReadsField front.now tree_value cursor.old result cursor.new }
{
    cursor.word(front)?;
    read_tree(cursor, DEPTH)
}

/// An array of trees, each of which nests at most `DEPTH` levels.
pub fn trees_behind(front: &[u8], cursor: &mut Cursor<'_>) -> Result<Items<Tree>, Stop>
    ensures { ReadsField front.now trees_value cursor.old result cursor.new }
{
    cursor.word(front)?;
    read_trees(cursor, DEPTH)
}

/// The identifier of an object with the identifier alone.
pub fn agent_behind(front: &[u8], cursor: &mut Cursor<'_>) -> Result<Ifi, Stop>
    ensures { ReadsField front.now agent_value cursor.old result cursor.new }
{
    cursor.word(front)?;
    closed_identifier(b"{", cursor)
}

/// An object with what an agent is, its name, if it has one, and its identifier, in this order.
pub fn actor_behind(front: &[u8], cursor: &mut Cursor<'_>) -> Result<Agent, Stop>
    ensures { ReadsField front.now actor_value cursor.old result cursor.new }
{
    cursor.word(front)?;
    read_actor(cursor)
}

/// The id, if the bytes before it come next.
pub fn optional_id_behind(front: &[u8], cursor: &mut Cursor<'_>) -> Result<Option<Id>, Stop>
    ensures read { ReadsOptional front.now id_value cursor.old result cursor.new }
    ensures none { IfOk result (λ o. IfNone o (IsMissing front.now cursor.old)) }
{
    if cursor.take(front) {
        return Ok(Some(id_behind(b"", cursor)?));
    }
    Ok(None)
}

/// The text, if the bytes before it come next.
pub fn optional_text_behind(front: &[u8], cursor: &mut Cursor<'_>) -> Result<Option<Text>, Stop>
    ensures read { ReadsOptional front.now text_value cursor.old result cursor.new }
    ensures none { IfOk result (λ o. IfNone o (IsMissing front.now cursor.old)) }
{
    if cursor.take(front) {
        return Ok(Some(text_behind(b"", cursor)?));
    }
    Ok(None)
}

/// The IRI, if the bytes before it come next.
pub fn optional_iri_behind(front: &[u8], cursor: &mut Cursor<'_>) -> Result<Option<Iri>, Stop>
    ensures read { ReadsOptional front.now iri_value cursor.old result cursor.new }
    ensures none { IfOk result (λ o. IfNone o (IsMissing front.now cursor.old)) }
{
    if cursor.take(front) {
        return Ok(Some(iri_behind(b"", cursor)?));
    }
    Ok(None)
}

/// The number, if the bytes before it come next.
pub fn optional_number_behind(front: &[u8], cursor: &mut Cursor<'_>) -> Result<Option<u32>, Stop>
    ensures read { ReadsOptional front.now number_value cursor.old result cursor.new }
    ensures none { IfOk result (λ o. IfNone o (IsMissing front.now cursor.old)) }
{
    if cursor.take(front) {
        return Ok(Some(number_behind(b"", cursor)?));
    }
    Ok(None)
}

fn iri_of(text: Text) -> Result<Iri, Stop>
    ensures { ReadsSpelling (λ iri. iri) (λ iri. IsTrue (is_iri iri)) text result }
{
    match Iri::read(text) {
        Ok(iri) => Ok(iri),
        Err(text) => {
            drop(text);
            Err(Stop::Bad)
        }
    }
}

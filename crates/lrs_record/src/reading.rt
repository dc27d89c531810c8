ghost use Rattle.std.specs.Prelude.{◌≡◌, ◌⊎◌, IfOk, MatchResult};
ghost use Rattle.lrs_fields.specs.LrsDecimalNumbers.{Ends};
ghost use Rattle.lrs_fields.specs.Reading.{Reads};
ghost use Rattle.lrs_record.specs.Entries.{IsEntryText, IsLawful, written_entry};
ghost use Rattle.lrs_record.specs.Reading.{IsKeptWrite, command_text};
ghost use Rattle.lrs_record.specs.declared.entry.Entry.{Entry as SpecEntry};

use crate::headings::{read_caller, read_draw, read_moment, read_opening};
use crate::{Entry, EntryRefused, Write};
use lrs_json_reader::Stop;
use lrs_json_written::Cursor;
use std::alloc::Global;

/// The entry whose text the bytes are, with nothing before, between or after its parts.
pub fn read_entry(alloc: Global, bytes: &[u8]) -> Result<Entry, EntryRefused>
    ensures lawful { IfOk result IsLawful }
    ensures read { IfOk result (λ entry. written_entry entry ≡ bytes.now) }
    ensures again { (entry : SpecEntry) → IsLawful entry → written_entry entry ≡ bytes.now → MatchResult result
        (λ read. read ≡ entry) (λ refused. refused ≡ EntryRefused.Memory) }

    // `BadEntry` exactly if the bytes are the text of no lawful entry.
    ensures bad { result ≡ Err EntryRefused.BadEntry → ¬ IsEntryText bytes.now }
    ensures always { ¬ IsEntryText bytes.now → (result ≡ Err EntryRefused.BadEntry)
        ⊎ (result ≡ Err EntryRefused.Memory) }
{
    read_lawful(alloc, bytes)
}

fn read_lawful(alloc: Global, bytes: &[u8]) -> Result<Entry, EntryRefused>
    ensures found { IfOk result (λ entry. IsLawful entry × (written_entry entry ≡ bytes.now)) }
    ensures again { (entry : SpecEntry) → IsLawful entry → written_entry entry ≡ bytes.now → MatchResult result
        (λ read. read ≡ entry) (λ refused. refused ≡ EntryRefused.Memory) }
{
    let mut cursor = Cursor::new(alloc, bytes);
    match read_next(&mut cursor) {
        Ok(entry) => if cursor.is_empty() {
            Ok(entry)
        } else {
            drop(entry);
            Err(EntryRefused::BadEntry)
        },
        Err(Stop::Memory) => Err(EntryRefused::Memory),
        Err(Stop::Bad) => Err(EntryRefused::BadEntry),
    }
}

// The entry whose text comes next.
fn read_next(cursor: &mut Cursor<'_>) -> Result<Entry, Stop>
    ensures { Reads written_entry IsLawful Ends cursor.old result cursor.new }
{
    let caller = read_caller(cursor)?;
    let moment = read_moment(cursor)?;
    let draw = read_draw(cursor)?;
    let write = read_command(cursor)?;
    Ok(Entry {
        caller,
        write,
        moment,
        draw,
    })
}

// The write of a command, and what closes its fields, the command and the entry.
fn read_command(cursor: &mut Cursor<'_>) -> Result<Write, Stop>
    ensures { Reads command_text IsKeptWrite Ends cursor.old result cursor.new }
{
    let name = read_opening(cursor)?;
    match Write::read(name.as_str(), cursor) {
        Ok(write) => match cursor.word(b"}}}") {
            Ok(()) => Ok(write),
            Err(stop) => {
                drop(write);
                Err(stop)
            }
        },
        Err(stop) => Err(stop),
    }
}

ghost use Rattle.std.specs.Prelude.{◌≡◌, ◌≤◌, ◌++◌, codes, true, false, OnOk, OnErr};
ghost use Rattle.std.specs.Fmt.{decimal};
ghost use Rattle.lrs_fields.specs.Values.{members_for};
ghost use Rattle.lrs_json.specs.Json.{number};
ghost use Rattle.lrs_json.specs.Texts.{member_text};
ghost use Rattle.lrs_json.specs.View.{members_of};
ghost use Rattle.lrs_json.specs.Written.{Extends, members_text};
ghost use Rattle.lrs_record.specs.Entries.{HasValues, HoldsHeading, HoldsWrite, IsLawful, IsLawfulCaller, IsLawfulWrite, closing_text, heading_text, opening_text, written_entry};
ghost use Rattle.lrs_record.specs.Writes.{trees_of, write_fields};
ghost use Rattle.lrs_time.specs.declared.moments.TheConstants.{LATEST};
ghost use Rattle.lrs_record.specs.declared.entry.Entry.{Entry as SpecEntry};

use crate::store_writes::{copy_statement, copy_statements};
use crate::{Entry, Moment, Write};
use itoa::Buffer;
use lrs_fields::{ReceivedText, draw_digits};
use lrs_json::appending::{put, put_name, put_text};
use lrs_json::{Items, Memory, utf8_text};

/// Appends the text of the entry, or nothing if memory runs out.
pub fn write_entry(entry: &Entry, into: &mut Vec<u8>) -> Result<(), Memory>
    requires caller { IsLawfulCaller entry.now.caller }
    requires write { IsLawfulWrite entry.now.write }
    ensures ok { OnOk result (into.new.items ≡ into.old.items ++ written_entry entry.now) }
    ensures err { OnErr result (into.new.items ≡ into.old.items) }
    ensures lawful { OnOk result (IsLawful entry.now) }

    // The text is that of this entry alone.
    ensures alone { OnOk result ((other : SpecEntry) → IsLawful other → written_entry other ≡ written_entry entry.now
        → other ≡ entry.now) }
{
    let length = into.len();
    match put_entry(entry, into) {
        Ok(()) => Ok(()),
        Err(error) => {
            into.truncate(length);
            Err(error)
        }
    }
}

/// Appends the end of an entry's text, from the fields of its write on. Its statements are copied from their texts. What
/// stood before stays if memory runs out in the middle.
pub fn write_closing(
    write: &Write,
    texts: &Items<ReceivedText>,
    into: &mut Vec<u8>,
) -> Result<(), Memory>
    requires { texts.now ≡ trees_of write.now }
    ensures ok { OnOk result (into.new.items ≡ into.old.items ++ closing_text write.now) }
    ensures kept { Extends into.old.items into.new.items }
    ensures holds { OnOk result (HoldsWrite write.now) }
{
    copy_fields(write, texts, into)?;
    put(b"}}", into)
}

// The fields as the members of an object and the closing brace. Statements are copied from their texts.
fn copy_fields(write: &Write, texts: &Items<ReceivedText>, into: &mut Vec<u8>) -> Result<(), Memory>
    requires { texts.now ≡ trees_of write.now }
    ensures ok { OnOk result (into.new.items ≡ into.old.items ++ members_text false
        (members_of (members_for (write_fields write.now)))) }
    ensures kept { Extends into.old.items into.new.items }
    ensures holds { OnOk result (HoldsWrite write.now) }
{
    match write {
        Write::Put { id, statement } => copy_statement(id, statement, texts, into),
        Write::Post { statements: _ } => copy_statements(texts, into),
        _ => write.put_fields(into),
    }
}

/// Appends the text of the entry, whose closing was written before. What stood before stays if memory runs out in the
/// middle.
pub fn write_headed(entry: &Entry, closing: &[u8], into: &mut Vec<u8>) -> Result<(), Memory>
    requires caller { IsLawfulCaller entry.now.caller }
    requires write { IsLawfulWrite entry.now.write }
    requires closing { closing.now ≡ closing_text entry.now.write }
    requires holds { HoldsWrite entry.now.write }
    ensures ok { OnOk result (into.new.items ≡ into.old.items ++ written_entry entry.now) }
    ensures kept { Extends into.old.items into.new.items }
    ensures lawful { OnOk result (IsLawful entry.now) }
{
    put_heading(entry, into)?;
    put(closing, into)
}

// Each of the following appends its part of the text. If memory runs out in the middle, what stood before stays.

fn put_entry(entry: &Entry, into: &mut Vec<u8>) -> Result<(), Memory>
    ensures ok { OnOk result (into.new.items ≡ into.old.items ++ written_entry entry.now) }
    ensures kept { Extends into.old.items into.new.items }
    ensures values { OnOk result (HasValues entry.now) }
{
    put_heading(entry, into)?;
    entry.write.put_fields(into)?;
    put(b"}}", into)
}

// What stands before the fields of the entry's write.
pub(crate) fn put_heading(entry: &Entry, into: &mut Vec<u8>) -> Result<(), Memory>
    ensures ok { OnOk result (into.new.items ≡ into.old.items ++ heading_text entry.now) }
    ensures kept { Extends into.old.items into.new.items }
    ensures holds { OnOk result (HoldsHeading entry.now) }
{
    put(b"{", into)?;
    put_text(false, "caller", entry.caller.text(), into)?;
    put_moment(entry.moment, into)?;
    let digits = draw_digits(entry.draw);
    put_text(true, "draw", utf8_text(&digits), into)?;
    put_opening(entry.write.name(), into)
}

fn put_moment(moment: Moment, into: &mut Vec<u8>) -> Result<(), Memory>
    ensures ok { OnOk result (into.new.items ≡ into.old.items
        ++ member_text true (codes "moment") (number (decimal moment))) }
    ensures kept { Extends into.old.items into.new.items }
    ensures holds { moment ≤ LATEST }
{
    let mut buffer = Buffer::new();
    let digits = buffer.format(moment.milliseconds());
    put_name(true, "moment", into)?;
    put(digits.as_bytes(), into)
}

// What opens the fields of a command of that name.
fn put_opening(name: &str, into: &mut Vec<u8>) -> Result<(), Memory>
    ensures ok { OnOk result (into.new.items ≡ into.old.items ++ opening_text name.now) }
    ensures kept { Extends into.old.items into.new.items }
{
    put_name(true, "command", into)?;
    put(b"{", into)?;
    put_name(false, name, into)?;
    put(b"{", into)
}

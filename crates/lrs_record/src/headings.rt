// What stands before the fields of an entry's write, read from the text.
ghost use Rattle.std.specs.Prelude.{◌≡◌, ◌≤◌, IsUtf8};
ghost use Rattle.std.specs.Fmt.{decimal};
ghost use Rattle.lrs_fields.specs.LrsDecimalNumbers.{Ends};
ghost use Rattle.lrs_fields.specs.Digits.{HoldsDraw};
ghost use Rattle.lrs_fields.specs.Reading.{Reads, ReadsSpelling};
ghost use Rattle.lrs_record.specs.Entries.{opening_text};
ghost use Rattle.lrs_record.specs.Reading.{Anything, IsKeptCaller, draw_member, moment_member, opened_caller};
ghost use Rattle.lrs_record.specs.Entries.{HoldsCaller, IsLawfulCaller, caller_text};
ghost use Rattle.lrs_record.specs.declared.entry.Caller.{Caller as SpecCaller};
ghost use Rattle.lrs_time.specs.declared.moments.TheConstants.{LATEST};

use crate::{Caller, Moment};
use lrs_fields::{draw_of, is_printed, text_behind};
use lrs_json::Text;
use lrs_json_reader::Stop;
use lrs_json_written::{Cursor, read_text};
use lrs_names::Draw;

/// The brace that opens the entry, and its caller: an empty text for nobody, `*` for the operator, else the token.
pub fn read_caller(cursor: &mut Cursor<'_>) -> Result<Caller, Stop>
    ensures { Reads opened_caller IsKeptCaller Ends cursor.old result cursor.new }
{
    let text = text_behind(b"{\"caller\":", cursor)?;
    Ok(caller_of(text))
}

fn caller_of(text: Text) -> Caller
    requires { IsUtf8 text }
    ensures lawful { IsLawfulCaller result }
    ensures holds { HoldsCaller result }
    ensures text { caller_text result ≡ text }
    ensures all { (caller : SpecCaller) → IsLawfulCaller caller → text ≡ caller_text caller → result ≡ caller }
{
    if text.as_str() == "" {
        Caller::Nobody
    } else if text.as_str() == "*" {
        Caller::Operator
    } else {
        Caller::Token(text)
    }
}

/// A moment, in milliseconds since 1970-01-01T00:00:00Z, of the year 9999 at the latest.
pub fn read_moment(cursor: &mut Cursor<'_>) -> Result<Moment, Stop>
    ensures { Reads moment_member (λ moment. moment ≤ LATEST) Ends cursor.old result cursor.new }
{
    cursor.word(b",\"moment\":")?;
    let spelling = cursor.number()?;
    moment_of(spelling.as_str())
}

fn moment_of(spelling: &str) -> Result<Moment, Stop>
    ensures { ReadsSpelling decimal (λ moment. moment ≤ LATEST) spelling.now result }
{
    match spelling.parse::<u64>() {
        Ok(milliseconds) => {
            let moment = Moment::clamp(milliseconds);
            if is_printed(moment.milliseconds(), spelling) {
                Ok(moment)
            } else {
                Err(Stop::Bad)
            }
        }
        Err(_) => Err(Stop::Bad),
    }
}

/// A draw, as 64 lower-case hexadecimal digits: its name, then its secret.
pub fn read_draw(cursor: &mut Cursor<'_>) -> Result<Draw, Stop>
    ensures { Reads draw_member HoldsDraw Ends cursor.old result cursor.new }
{
    let digits = text_behind(b",\"draw\":", cursor)?;
    draw_of(digits.as_bytes())
}

/// The name of a command, and what opens its fields.
pub fn read_opening(cursor: &mut Cursor<'_>) -> Result<Text, Stop>
    ensures { Reads opening_text IsUtf8 Anything cursor.old result cursor.new }
{
    let name = text_behind(b",\"command\":{", cursor)?;
    cursor.word(b":{")?;
    Ok(name)
}

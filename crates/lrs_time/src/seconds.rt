//! The seconds of a duration as a text.
ghost use Rattle.std.specs.Prelude.{◌≡◌, ◌/◌, ◌≤◌, ◌<◌, ◌++◌, Some, OnOk, OnErr, take, length};
ghost use Rattle.lrs_time.specs.Duration.{seconds_text, hundredths_text, IsDurationOf, span_of_hundredths};
ghost use Rattle.lrs_time.specs.Reading.{duration_at};

use crate::digits::in_two_digits;
use itoa::Buffer;
use std::alloc::AllocError;

/// The longest span that is told as a duration, in milliseconds: its seconds have nine digits.
pub const LONGEST_SPAN: u64 = 999_999_999_999;

/// Memory ran out.
#[derive(Clone, Copy, Debug, PartialEq, Eq)]
pub struct Memory;

/// Appends the duration of that many milliseconds in whole seconds and hundredths, as
/// `PT12.34S`; what is less than a hundredth is cut off. An `Err` appends nothing.
pub fn seconds_text(ms: u64, into: &mut Vec<u8>) -> Result<(), Memory>
    ensures ok { OnOk result (into.new.items ≡ into.old.items ++ seconds_text ms) }
    ensures err { OnErr result (into.new.items ≡ into.old.items) }

    // What is appended is a duration, and read as one: a number has up to nine digits there.
    ensures duration { ms ≤ LONGEST_SPAN →
        IsDurationOf (seconds_text ms) (span_of_hundredths (ms / 10)) }
    ensures reads_back { ms ≤ LONGEST_SPAN →
        duration_at (seconds_text ms) ≡ Some (span_of_hundredths (ms / 10)) }
{
    let length = into.len();
    match push_seconds(ms, into) {
        Ok(()) => Ok(()),
        Err(_) => {
            into.truncate(length);
            Err(Memory)
        }
    }
}

fn push_seconds(ms: u64, into: &mut Vec<u8>) -> Result<(), AllocError>
    ensures ok { OnOk result (into.new.items ≡ into.old.items ++ seconds_text ms) }
    ensures kept { take (length into.old.items) into.new.items ≡ into.old.items }
{
    let mut digits = Buffer::new();
    into.extend_from_slice(b"PT")?;
    into.extend_from_slice(digits.format(ms / 1000).as_bytes())?;
    push_hundredths((ms % 1000 / 10) as u8, into)?;
    into.extend_from_slice(b"S")
}

fn push_hundredths(hundredths: u8, into: &mut Vec<u8>) -> Result<(), AllocError>
    requires { hundredths < 100 }
    ensures ok { OnOk result (into.new.items ≡ into.old.items ++ hundredths_text hundredths) }
    ensures err { OnErr result (into.new.items ≡ into.old.items) }
{
    if hundredths == 0 {
        return Ok(());
    }
    let [tens, ones] = in_two_digits(hundredths);
    into.extend_from_slice(&[b'.', tens, ones])
}

ghost use Rattle.std.specs.Prelude.{◌≡◌, ◌<◌, ◌≤◌, ◌≤ℤ◌, pos, unsigned_abs, IsUtf8};
ghost use Rattle.jiff_core.specs.Date.{epoch_day};
ghost use Rattle.lrs_time.specs.Moments.{clamped, moment_text};
ghost use Rattle.lrs_time.specs.Timestamp.{instant_of_moment, stamp_text, utc_stamp, IsMomentText, IsTimestampOf};
ghost use Rattle.lrs_time.specs.Reading.{timestamp_at};

use crate::Instant;
use crate::digits::in_two_digits;
use jiff_core::civil::{Date, Time};
use std::marker::Model;

/// A point of time of the store's own clock, in milliseconds since 1970-01-01T00:00:00Z with no
/// leap seconds, up to the last one of the year 9999. Moments are ordered as their numbers are.
#[derive(Clone, Copy, Debug, PartialEq, Eq, PartialOrd, Ord)]
pub struct Moment {
    milliseconds: u64,
}

impl Model for Moment {
    ghost use Rattle.std.specs.Prelude.{ℕ, ◌≤◌};
    ghost use Rattle.lrs_time.specs.declared.moments.TheConstants.{LATEST};

    ghost Value = { ℕ };

    ghost view = { λ m. m.milliseconds };

    ghost invariant = { λ m. m.milliseconds ≤ LATEST };

    ghost inverse = { λ n. record { milliseconds = n } };
}

/// The number of the last moment, 9999-12-31T23:59:59.999Z.
pub const LATEST: u64 = 253_402_300_799_999;

impl Moment {
    /// The moment that many milliseconds after 1970-01-01T00:00:00Z, or the last moment if that
    /// is later.
    pub fn clamp(ms: u64) -> Moment
        ensures { result ≡ clamped ms }
    {
        Moment {
            milliseconds: ms.min(LATEST),
        }
    }

    /// The milliseconds since 1970-01-01T00:00:00Z.
    pub fn milliseconds(self) -> u64
        ensures value { result ≡ self }
        ensures bound { result ≤ LATEST }
    {
        self.milliseconds
    }

    /// The same point of time as an instant.
    pub fn instant(self) -> Instant
        ensures { result ≡ instant_of_moment self }
    {
        Instant::from_nanoseconds(self.milliseconds as i128 * 1_000_000)
    }
}

/// The number of days from -9999-01-01 to 1970-01-01.
const DAYS_BEFORE_EPOCH: u32 = 4_371_587;

/// The date that many days after 1970-01-01.
fn date_of(days: u32) -> Date
    requires { days ≤ 2_932_896 }
    ensures day { epoch_day result ≡ pos days }
    ensures year { pos 0 ≤ℤ result.year }
{
    Date::from_days_since_min(days + DAYS_BEFORE_EPOCH)
}

/// The text of a point of time in UTC, to the millisecond.
fn utc_text(date: &Date, time: &Time, millisecond: u16) -> [u8; 24]
    requires year { pos 0 ≤ℤ date.now.year }
    requires millisecond { millisecond < 1000 }
    ensures { result ≡ stamp_text (utc_stamp (unsigned_abs date.now.year) date.now.month
        date.now.day time.now.hour time.now.minute time.now.second millisecond) }
{
    let year = date.year.unsigned_abs();
    let [c0, c1] = in_two_digits((year / 100) as u8);
    let [y0, y1] = in_two_digits((year % 100) as u8);
    let [m0, m1] = in_two_digits(date.month);
    let [d0, d1] = in_two_digits(date.day);
    let [h0, h1] = in_two_digits(time.hour);
    let [n0, n1] = in_two_digits(time.minute);
    let [s0, s1] = in_two_digits(time.second);
    let f0 = b'0' + (millisecond / 100) as u8;
    let [f1, f2] = in_two_digits((millisecond % 100) as u8);
    [
        c0, c1, y0, y1, b'-', m0, m1, b'-', d0, d1, b'T', h0, h1, b':', n0, n1, b':', s0, s1, b'.',
        f0, f1, f2, b'Z',
    ]
}

/// Prints a moment as `YYYY-MM-DDTHH:MM:SS.mmmZ`, a timestamp of xAPI 1.0.3 (Part Two, section
/// 4.5) that `read_timestamp` reads as the same point of time.
pub fn moment_text(moment: Moment) -> [u8; 24]
    ensures text { IsMomentText moment result }
    ensures instant { IsTimestampOf result (instant_of_moment moment) }
    ensures reads_back { timestamp_at result ≡ Ok (instant_of_moment moment) }
    ensures utf8 { IsUtf8 result }

    // The same as a function of the moment.
    ensures exact { result ≡ moment_text moment }
{
    let milliseconds = moment.milliseconds();
    let date = date_of((milliseconds / 86_400_000) as u32);
    let time = Time::from_second((milliseconds % 86_400_000 / 1000) as u32, 0);
    utc_text(&date, &time, (milliseconds % 1000) as u16)
}

//! The reader of timestamps.
ghost use Rattle.std.specs.Prelude.{◌≡◌, ◌↔◌, ◌<◌, ℤ, pos, option_map, IsSome, IfSome};
ghost use Rattle.jiff_core.specs.Calendar.{days_from_civil};
ghost use Rattle.lrs_time.specs.Timestamp.{IsDay, IsNoTimestamp, NamesNoDay, HasNegativeZero, IsTimestampOf, seconds_ahead};
ghost use Rattle.lrs_time.specs.Reading.{AreInRange, judged, is_negative_zero, date_at, clock_at, fraction_at, minutes_at, offset_minutes_at, offset_at, parts_at, timestamp_at};

use crate::Instant;
use crate::digits::{after, cut, read_below, read_numeral, read_two_digits};
use jiff_core::civil::Date;

/// Why a text is no timestamp: the first of these that holds.
#[derive(Clone, Copy, Debug, PartialEq, Eq)]
pub enum TimeRefused {
    /// The text isn't of the form `YYYY-MM-DDTHH:MM:SS` with its fraction and its offset, or an
    /// hour, a minute or a second is out of range.
    Shape,
    /// The calendar has no such month or day.
    NoSuchDay,
    /// The offset is `-00`, `-0000` or `-00:00`.
    NegativeZero,
}

/// A year, month and day as the text has them.
#[derive(Clone, Copy, Debug)]
struct CivilDay {
    year: u16,
    month: u8,
    day: u8,
}

/// How far clocks are from UTC.
#[derive(Clone, Copy, Debug)]
struct Offset {
    west: bool,
    minutes: u16,
}

/// What a timestamp says, before the calendar is asked.
#[derive(Clone, Copy, Debug)]
struct Parts {
    date: CivilDay,
    /// Since midnight.
    second: u32,
    nanosecond: u32,
    offset: Offset,
}

impl CivilDay {
    /// The day's number, where 1970-01-01 is 0, if the calendar has the day.
    fn number(&self) -> Option<i32>
        requires year { self.now.year < 10000 }
        requires month { self.now.month < 100 }
        requires day { self.now.day < 100 }
        ensures found { IsSome result ↔ IsDay self.now.year self.now.month self.now.day }
        ensures value { IfSome result
            (λ n. n ≡ days_from_civil (pos self.now.year) self.now.month self.now.day) }
    {
        match Date::new(self.year as i16, self.month as i8, self.day as i8) {
            Ok(date) => Some(date.to_unix_epoch_day()),
            Err(_) => None,
        }
    }
}

impl Offset {
    fn is_negative_zero(&self) -> bool
        ensures { result ≡ is_negative_zero self.now }
    {
        self.west && self.minutes == 0
    }

    /// How many seconds clocks there are ahead of UTC.
    fn seconds_ahead(&self) -> i32
        requires { self.now.minutes < 1440 }
        ensures { result ≡ seconds_ahead self.now.west self.now.minutes }
    {
        let seconds = self.minutes as i32 * 60;
        if self.west { -seconds } else { seconds }
    }
}

impl Parts {
    /// The instant, or the first thing that is wrong.
    fn instant(&self) -> Result<Instant, TimeRefused>
        requires { AreInRange self.now }
        ensures { result ≡ judged (Some self.now) }
    {
        let Some(day) = self.date.number() else {
            return Err(TimeRefused::NoSuchDay);
        };
        if self.offset.is_negative_zero() {
            return Err(TimeRefused::NegativeZero);
        }
        let here = day as i64 * 86_400 + self.second as i64;
        let seconds = here - self.offset.seconds_ahead() as i64;
        let nanoseconds = seconds as i128 * 1_000_000_000 + self.nanosecond as i128;
        Ok(Instant::from_nanoseconds(nanoseconds))
    }
}

#[tactic(auto, unfolding(crate::specs::Reading::date_at))]
fn read_date(text: &[u8]) -> Option<(CivilDay, &[u8])>
    ensures value { option_map (λ p. (p.0, p.1.now)) result ≡ date_at text.now }
    ensures year { IfSome result (λ p. p.0.year < 10000) }
    ensures month { IfSome result (λ p. p.0.month < 100) }
    ensures day { IfSome result (λ p. p.0.day < 100) }
{
    let (century, rest) = read_two_digits(text)?;
    let (year, rest) = read_two_digits(rest)?;
    let rest = after(b'-', rest)?;
    let (month, rest) = read_two_digits(rest)?;
    let rest = after(b'-', rest)?;
    let (day, rest) = read_two_digits(rest)?;
    let year = century as u16 * 100 + year as u16;
    Some((CivilDay { year, month, day }, rest))
}

/// The seconds since midnight.
#[tactic(auto, unfolding(crate::specs::Reading::clock_at))]
fn read_clock(text: &[u8]) -> Option<(u32, &[u8])>
    ensures value { option_map (λ p. (p.0, p.1.now)) result ≡ clock_at text.now }
    ensures bound { IfSome result (λ p. p.0 < 86_400) }
{
    let (hour, rest) = read_below(24, text)?;
    let rest = after(b':', rest)?;
    let (minute, rest) = read_below(60, rest)?;
    let rest = after(b':', rest)?;
    let (second, rest) = read_below(60, rest)?;
    let second = hour as u32 * 3600 + minute as u32 * 60 + second as u32;
    Some((second, rest))
}

/// The nanoseconds of a fraction, 0 if none stands.
#[tactic(auto, unfolding(crate::specs::Reading::fraction_at))]
fn read_fraction(text: &[u8]) -> Option<(u32, &[u8])>
    ensures value { option_map (λ p. (p.0, p.1.now)) result ≡ fraction_at text.now }
    ensures bound { IfSome result (λ p. p.0 < 1_000_000_000) }
{
    match text {
        [b'.', rest @ ..] => {
            let (digits, rest) = read_numeral(30, rest)?;
            Some((cut(9, digits), rest))
        }
        _ => Some((0, text)),
    }
}

/// The minutes of an offset of so many hours, by what follows these.
#[tactic(auto, unfolding(crate::specs::Reading::minutes_at, crate::specs::Reading::without_colon))]
fn read_minutes(hours: u8, text: &[u8]) -> Option<u16>
    requires { hours < 24 }
    ensures value { result ≡ minutes_at hours text.now }
    ensures bound { IfSome result (λ m. m < 1440) }
{
    let hours = hours as u16 * 60;
    let text = match text {
        [] => return Some(hours),
        [b':', rest @ ..] => rest,
        _ => text,
    };
    let (minutes, rest) = read_below(60, text)?;
    if rest.is_empty() {
        Some(hours + minutes as u16)
    } else {
        None
    }
}

/// The minutes of an offset after its sign.
#[tactic(auto, unfolding(crate::specs::Reading::offset_minutes_at))]
fn read_offset_minutes(text: &[u8]) -> Option<u16>
    ensures value { result ≡ offset_minutes_at text.now }
    ensures bound { IfSome result (λ m. m < 1440) }
{
    let (hours, rest) = read_below(24, text)?;
    read_minutes(hours, rest)
}

/// The whole text as `Z`, an offset or nothing.
#[tactic(auto, unfolding(crate::specs::Reading::offset_at))]
fn read_offset(text: &[u8]) -> Option<Offset>
    ensures value { result ≡ offset_at text.now }
    ensures bound { IfSome result (λ o. o.minutes < 1440) }
{
    match text {
        [] | [b'Z'] => Some(Offset {
            west: false,
            minutes: 0,
        }),
        [b'+', rest @ ..] => Some(Offset {
            west: false,
            minutes: read_offset_minutes(rest)?,
        }),
        [b'-', rest @ ..] => Some(Offset {
            west: true,
            minutes: read_offset_minutes(rest)?,
        }),
        _ => None,
    }
}

#[tactic(auto, unfolding(crate::specs::Reading::parts_at))]
fn read_parts(text: &[u8]) -> Option<Parts>
    ensures value { result ≡ parts_at text.now }
    ensures range { IfSome result AreInRange }
{
    let (date, rest) = read_date(text)?;
    let rest = after(b'T', rest)?;
    let (second, rest) = read_clock(rest)?;
    let (nanosecond, rest) = read_fraction(rest)?;
    let offset = read_offset(rest)?;
    Some(Parts {
        date,
        second,
        nanosecond,
        offset,
    })
}

/// Reads a timestamp, as xAPI 1.0.3 (Part Two, section 4.5) takes them from ISO 8601: a date and a
/// time of day to the second, maybe a fraction, and `Z`, an offset or nothing, which means UTC.
/// A time of day ends at 23:59:59. Nine digits of the fraction count, and thirty may stand.
pub fn read_timestamp(text: &[u8]) -> Result<Instant, TimeRefused>
    // Which of the four it is, by what the text spells.
    ensures shape { (result ≡ Err TimeRefused.Shape) ↔ IsNoTimestamp text.now }
    ensures no_such_day { (result ≡ Err TimeRefused.NoSuchDay) ↔ NamesNoDay text.now }
    ensures negative_zero { (result ≡ Err TimeRefused.NegativeZero) ↔ HasNegativeZero text.now }
    ensures instant { (i : ℤ) → (result ≡ Ok i) ↔ IsTimestampOf text.now i }

    // The same as a function of the text.
    ensures exact { result ≡ timestamp_at text.now }
{
    read(text)
}

#[tactic(auto, unfolding(crate::specs::Reading::timestamp_at))]
fn read(text: &[u8]) -> Result<Instant, TimeRefused>
    ensures { result ≡ timestamp_at text.now }
{
    match read_parts(text) {
        Some(parts) => parts.instant(),
        None => Err(TimeRefused::Shape),
    }
}

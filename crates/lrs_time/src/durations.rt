//! Durations, and the seconds of one.
ghost use Rattle.std.specs.Prelude.{◌≡◌, ◌↔◌, ◌+◌, ◌*◌, ◌<◌, ◌≤◌, ◌++◌, ◌∷◌, [], option_map, Some, None, IsTrue, IsNone, IfSome};
ghost use Rattle.std.specs.Cmp.{IsEquivalence};
ghost use Rattle.lrs_time.specs.Duration.{Span, IsNoDuration, IsDurationOf, IsSameSpan, same_span, date_units};
ghost use Rattle.lrs_time.specs.Reading.{quantity_at, field_at, fields_at, clock_fields_at, duration_at};

use crate::digits::{after, cut, read_numeral};
use lrs_decimal::digits_value;
use std::marker::Model;

/// A span of time in the fields of ISO 8601, each a number of its own unit. A missing field is 0.
#[derive(Clone, Copy, Debug)]
pub struct Duration {
    // Each in billionths of its unit.
    years: u64,
    months: u64,
    weeks: u64,
    days: u64,
    hours: u64,
    minutes: u64,
    seconds: u64,
}

impl Model for Duration {
    ghost use Rattle.lrs_time.specs.Duration.{Span};

    ghost Value = { Span };

    ghost view = { λ d. record {
      years = d.years;
      months = d.months;
      weeks = d.weeks;
      days = d.days;
      hours = d.hours;
      minutes = d.minutes;
      seconds = d.seconds;
    } };

    ghost inverse = { λ s. record {
      years = s.years;
      months = s.months;
      weeks = s.weeks;
      days = s.days;
      hours = s.hours;
      minutes = s.minutes;
      seconds = s.seconds;
    } };
}

const BILLION: u64 = 1_000_000_000;

/// The number of a field.
#[derive(Clone, Copy, Debug)]
struct Quantity {
    billionths: u64,
    is_whole: bool,
}

/// The number at the beginning: up to nine digits, and a fraction of up to nine.
#[tactic(auto, unfolding(crate::specs::Reading::quantity_at, crate::specs::Reading::quantity_behind))]
fn read_quantity(text: &[u8]) -> Option<(Quantity, &[u8])>
    ensures { option_map (λ p. (p.0, p.1.now)) result ≡ quantity_at text.now }
{
    let (digits, rest) = read_numeral(9, text)?;
    let billionths = digits_value(digits) * BILLION;
    match rest {
        [b'.' | b',', rest @ ..] => {
            let (digits, rest) = read_numeral(9, rest)?;
            let quantity = Quantity {
                billionths: billionths + cut(9, digits) as u64,
                is_whole: false,
            };
            Some((quantity, rest))
        }
        _ => {
            let quantity = Quantity {
                billionths,
                is_whole: true,
            };
            Some((quantity, rest))
        }
    }
}

/// The field of the unit, if one stands at the beginning, and what follows it.
/// A fraction stands in the last field alone, so nothing may follow it.
#[tactic(auto, unfolding(crate::specs::Reading::field_at))]
fn read_field(unit: u8, text: &[u8]) -> (Option<u64>, &[u8])
    ensures { (result.0, result.1.now) ≡ field_at unit text.now }
{
    let Some((quantity, behind)) = read_quantity(text) else {
        return (None, text);
    };
    let [letter, rest @ ..] = behind else {
        return (None, text);
    };
    if *letter == unit && (quantity.is_whole || rest.is_empty()) {
        (Some(quantity.billionths), rest)
    } else {
        (None, text)
    }
}

/// The fields before the `T`.
fn read_date_fields(text: &[u8]) -> ([Option<u64>; 4], &[u8])
    ensures { (result.0, result.1.now) ≡ fields_at date_units text.now }
{
    let (years, text) = read_field(b'Y', text);
    let (months, text) = read_field(b'M', text);
    let (weeks, text) = read_field(b'W', text);
    let (days, text) = read_field(b'D', text);
    ([years, months, weeks, days], text)
}

/// The fields after the `T`, of which one stands, or none if there is no `T`.
#[tactic(auto, unfolding(crate::specs::Reading::clock_fields_at))]
fn read_clock_fields(text: &[u8]) -> Option<([Option<u64>; 3], &[u8])>
    ensures { option_map (λ p. (p.0, p.1.now)) result ≡ clock_fields_at text.now }
{
    let [b'T', rest @ ..] = text else {
        return Some(([None, None, None], text));
    };
    let (hours, rest) = read_field(b'H', rest);
    let (minutes, rest) = read_field(b'M', rest);
    let (seconds, rest) = read_field(b'S', rest);
    if hours.is_none() && minutes.is_none() && seconds.is_none() {
        return None;
    }
    Some(([hours, minutes, seconds], rest))
}

impl Duration {
    /// Reads a duration, as xAPI 1.0.3 (Part Two, section 4.6) takes them from ISO 8601: `P`, then
    /// years, months, weeks and days, then `T` with hours, minutes and seconds, each of them
    /// optional, and at least one there. The last field may have a fraction, after a point or a
    /// comma. A number has up to nine digits on either side.
    pub fn read(text: &[u8]) -> Option<Duration>
        ensures none { IsNone result ↔ IsNoDuration text.now }
        ensures some { (span : Span) → (result ≡ Some span) ↔ IsDurationOf text.now span }

        // The same as a function of the text.
        ensures exact { result ≡ duration_at text.now }
    {
        Duration::read_exactly(text)
    }

    #[tactic(auto, unfolding(crate::specs::Reading::duration_at))]
    fn read_exactly(text: &[u8]) -> Option<Duration>
        ensures { result ≡ duration_at text.now }
    {
        let rest = after(b'P', text)?;
        let ([years, months, weeks, days], rest) = read_date_fields(rest);
        let ([hours, minutes, seconds], rest) = read_clock_fields(rest)?;
        let dated = years.is_some() || months.is_some() || weeks.is_some() || days.is_some();
        let clocked = hours.is_some() || minutes.is_some() || seconds.is_some();
        if !rest.is_empty() || !(dated || clocked) {
            return None;
        }
        Some(Duration {
            years: years.unwrap_or(0),
            months: months.unwrap_or(0),
            weeks: weeks.unwrap_or(0),
            days: days.unwrap_or(0),
            hours: hours.unwrap_or(0),
            minutes: minutes.unwrap_or(0),
            seconds: seconds.unwrap_or(0),
        })
    }

    /// Whether all fields agree, the seconds to the hundredth, where what is less is cut off.
    pub fn same(&self, other: &Duration) -> bool
        ensures fields { IsTrue result ↔ IsSameSpan self.now other.now }
        ensures equivalence { IsEquivalence same_span }

        // The same as a function of the two.
        ensures exact { result ≡ same_span self.now other.now }
    {
        const HUNDREDTH: u64 = BILLION / 100;
        self.years == other.years
            && self.months == other.months
            && self.weeks == other.weeks
            && self.days == other.days
            && self.hours == other.hours
            && self.minutes == other.minutes
            && self.seconds / HUNDREDTH == other.seconds / HUNDREDTH
    }
}

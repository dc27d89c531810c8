ghost use Rattle.std.specs.Prelude.{◌≡◌, ◌+◌, ◌*◌, ◌^◌, ◌<◌, ◌≤◌, ◌↔◌, ℕ, List, take, IsTrue, IsSome, IfSome, is_some};
ghost use Rattle.std.specs.List.{filter};
ghost use Rattle.std.specs.Ordering.{nat_cmp};
ghost use Rattle.lrs_decimal.specs.Numbers.{IsNumber, is_digit};
ghost use Rattle.lrs_decimal.specs.Parts.{is_negative, digits_value};
ghost use Rattle.lrs_decimal.specs.Range.{is_decimal, is_in_range};
ghost use Rattle.lrs_decimal.specs.declared.limits.TheConstants.{LARGEST_EXPONENT, MOST_SIGNIFICANT_DIGITS};

use crate::limits::{LARGEST_EXPONENT, MOST_SIGNIFICANT_DIGITS};
use crate::numbers::number_len;
use crate::parts::{
    coefficient, count, is_negative, leading_zeros, mantissa, point_left, point_right,
    trailing_zeros,
};
use crate::range::is_in_range;
use std::cmp::Ordering;

/// The exact value of a number in range.
#[derive(Clone, Copy, Debug)]
pub struct Decimal {
    negative: bool,
    coefficient: u128,
    // The power of ten, `LARGEST_EXPONENT` more than it is.
    scale: u16,
    ghost few_digits: { coefficient < 10 ^ MOST_SIGNIFICANT_DIGITS },
    ghost small_scale: { scale ≤ 2 * LARGEST_EXPONENT },
}

impl Decimal {
    ghost use Rattle.lrs_decimal.specs.Values.{signed_cmp, order, units, HasValue};

    /// The value of the spelling, or `None` if the bytes are no number in range.
    pub fn of(spelling: &[u8]) -> Option<Decimal>
        ensures exact { IsSome result ↔ (IsNumber spelling.now × IsTrue (is_in_range spelling.now)) }
        ensures test { is_some result ≡ is_decimal spelling.now }
        ensures value { IfSome result (λ d. HasValue d spelling.now) }
    {
        Decimal::in_range(spelling)
    }

    fn in_range(spelling: &[u8]) -> Option<Decimal>
        ensures exact { IsSome result ↔ (IsNumber spelling.now × IsTrue (is_in_range spelling.now)) }
        ensures value { IfSome result (λ d. HasValue d spelling.now) }
    {
        if is_number(spelling) && is_in_range(spelling) {
            Some(Decimal::exact(spelling))
        } else {
            None
        }
    }

    fn exact(spelling: &[u8]) -> Decimal
        requires { IsTrue (is_in_range spelling.now) }
        ensures { HasValue result spelling.now }
    {
        let mantissa = mantissa(spelling);
        let digits = count(mantissa);
        if leading_zeros(mantissa) == digits {
            return Decimal {
                negative: false,
                coefficient: 0,
                scale: 0,
            };
        }
        let zeros = trailing_zeros(mantissa);
        let left = point_left(spelling);
        let scale = (point_right(spelling) + zeros + LARGEST_EXPONENT).saturating_sub(left);
        Decimal {
            negative: is_negative(spelling),
            coefficient: coefficient(mantissa, digits.saturating_sub(zeros)),
            scale: scale as u16,
        }
    }

    /// The order of the values.
    pub fn cmp(&self, other: &Decimal) -> Ordering
        ensures value { result ≡ signed_cmp (units self.now) (units other.now) }
        ensures spelled { (s t : List ℕ) → HasValue self.now s → HasValue other.now t → result ≡ order s t }
    {
        self.cmp_units(other)
    }

    fn cmp_units(&self, other: &Decimal) -> Ordering
        ensures { result ≡ signed_cmp (units self.now) (units other.now) }
    {
        if are_zero(self.coefficient, other.coefficient) {
            return Ordering::Equal;
        }
        match (self.negative, other.negative) {
            (false, false) => self.cmp_size(other),
            (true, true) => other.cmp_size(self),
            (false, true) => Ordering::Greater,
            (true, false) => Ordering::Less,
        }
    }

    // The order of the values without their signs.
    fn cmp_size(&self, other: &Decimal) -> Ordering
        ensures { result ≡ nat_cmp (self.now.coefficient * 10 ^ self.now.scale)
            (other.now.coefficient * 10 ^ other.now.scale) }
    {
        if self.scale >= other.scale {
            cmp_raised(
                self.coefficient,
                self.scale - other.scale,
                other.coefficient,
            )
        } else {
            cmp_raised(
                other.coefficient,
                other.scale - self.scale,
                self.coefficient,
            )
            .reverse()
        }
    }
}

fn are_zero(a: u128, b: u128) -> bool
    ensures { IsTrue result ↔ (a + b ≡ 0) }
{
    a == 0 && b == 0
}

// Compares a number, times a power of ten, with another. Nothing is multiplied, so nothing grows out of 128 bits.
fn cmp_raised(number: u128, power: u16, other: u128) -> Ordering
    requires { other < 10 ^ MOST_SIGNIFICANT_DIGITS }
    ensures { result ≡ nat_cmp (number * 10 ^ power) other }
{
    let (whole, rest) = parts_of(other, power);
    number.cmp(&whole).then(0.cmp(&rest))
}

// The quotient and the remainder by a power of ten.
fn parts_of(number: u128, power: u16) -> (u128, u128)
    requires { number < 10 ^ MOST_SIGNIFICANT_DIGITS }
    ensures whole { number ≡ result.0 * 10 ^ power + result.1 }
    ensures rest { result.1 < 10 ^ power }
{
    if power as usize > MOST_SIGNIFICANT_DIGITS {
        return (0, number);
    }
    let divisor = power_of_ten(power);
    (number / divisor, number % divisor)
}

fn power_of_ten(power: u16) -> u128
    requires { power ≤ MOST_SIGNIFICANT_DIGITS }
    ensures { result ≡ 10 ^ power }
{
    let mut result = 1;
    for _ in 0..power {
        result *= 10;
    }
    result
}

fn is_number(bytes: &[u8]) -> bool
    ensures { IsTrue result ↔ IsNumber bytes.now }
{
    number_len(bytes) == Some(bytes.len())
}

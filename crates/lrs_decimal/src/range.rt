ghost use Rattle.std.specs.Prelude.{◌≡◌, ◌≤◌, length};
ghost use Rattle.lrs_decimal.specs.Parts.{exponent_digits};
ghost use Rattle.lrs_decimal.specs.Range.{has_small_exponent, is_in_range, has_no_fraction, is_whole};

use crate::limits::{
    LARGEST_EXPONENT, LONGEST_SPELLING, MOST_EXPONENT_DIGITS, MOST_SIGNIFICANT_DIGITS,
};
use crate::parts::{
    count, exponent_digits, leading_zeros, mantissa, point_left, point_right, trailing_zeros,
};

/// Whether a number's spelling is in range.
pub fn is_in_range(spelling: &[u8]) -> bool
    ensures { result ≡ is_in_range spelling.now }
{
    if spelling.len() > LONGEST_SPELLING || exponent_digits(spelling).len() > MOST_EXPONENT_DIGITS {
        return false;
    }
    let mantissa = mantissa(spelling);
    let digits = count(mantissa);
    let leading = leading_zeros(mantissa);
    if leading == digits {
        return true;
    }
    let significant = digits.saturating_sub(leading + trailing_zeros(mantissa));
    significant <= MOST_SIGNIFICANT_DIGITS && has_small_exponent(spelling)
}

fn has_small_exponent(spelling: &[u8]) -> bool
    requires short { length spelling.now ≤ LONGEST_SPELLING }
    requires few { length (exponent_digits spelling.now) ≤ MOST_EXPONENT_DIGITS }
    ensures { result ≡ has_small_exponent spelling.now }
{
    let right = point_right(spelling) + trailing_zeros(mantissa(spelling));
    let left = point_left(spelling);
    left <= right + LARGEST_EXPONENT && right <= left + LARGEST_EXPONENT
}

/// Whether a number's spelling in range is a whole number, however it is spelled: `2`, `2.0`, `20e-1`.
#[tactic(auto, unfolding(crate::specs::Range::is_whole))]
pub fn is_whole(spelling: &[u8]) -> bool
    ensures { result ≡ is_whole spelling.now }
{
    spelling.len() <= LONGEST_SPELLING
        && exponent_digits(spelling).len() <= MOST_EXPONENT_DIGITS
        && has_no_fraction(spelling)
}

fn has_no_fraction(spelling: &[u8]) -> bool
    requires short { length spelling.now ≤ LONGEST_SPELLING }
    requires few { length (exponent_digits spelling.now) ≤ MOST_EXPONENT_DIGITS }
    ensures { result ≡ has_no_fraction spelling.now }
{
    let mantissa = mantissa(spelling);
    leading_zeros(mantissa) == count(mantissa)
        || point_left(spelling) <= point_right(spelling) + trailing_zeros(mantissa)
}

ghost use Rattle.std.specs.Prelude.{◌≡◌, ◌≤◌, ◌<◌, ◌^◌, not, length, take};
ghost use Rattle.std.specs.List.{prefix_len, filter};
ghost use Rattle.lrs_decimal.specs.Numbers.{is_digit};
ghost use Rattle.lrs_decimal.specs.Parts.{is_point, is_e, before, behind, behind_first, exponent_digits, has_negative_exponent, is_negative, digits_value, point_right, point_left};
ghost use Rattle.lrs_decimal.specs.Range.{leading_zeros, trailing_zeros};
ghost use Rattle.lrs_decimal.specs.declared.limits.TheConstants.{LONGEST_SPELLING, MOST_EXPONENT_DIGITS, MOST_SIGNIFICANT_DIGITS};

use crate::numbers::unsigned;

// Where the exponent's e stands, or the end.
fn e_offset(bytes: &[u8]) -> usize
    ensures within { result ≤ length bytes.now }
    ensures value { result ≡ prefix_len (λ b. not (is_e b)) bytes.now }
{
    for (i, byte) in bytes.iter().enumerate() {
        if matches!(*byte, b'e' | b'E') {
            return i;
        }
    }
    bytes.len()
}

fn point_offset(bytes: &[u8]) -> usize
    ensures within { result ≤ length bytes.now }
    ensures value { result ≡ prefix_len (λ b. not (is_point b)) bytes.now }
{
    for (i, byte) in bytes.iter().enumerate() {
        if *byte == b'.' {
            return i;
        }
    }
    bytes.len()
}

fn behind_first(bytes: &[u8]) -> &[u8]
    ensures value { result.now ≡ behind_first bytes.now }
    ensures shorter { length result.now ≤ length bytes.now }
{
    match bytes.split_first() {
        Some((_, rest)) => rest,
        None => bytes,
    }
}

/// The sign, the whole part and the fraction.
pub fn mantissa(spelling: &[u8]) -> &[u8]
    ensures value { result.now ≡ before is_e spelling.now }
    ensures shorter { length result.now ≤ length spelling.now }
{
    &spelling[..e_offset(spelling)]
}

/// What follows the e.
fn exponent(spelling: &[u8]) -> &[u8]
    ensures { result.now ≡ behind is_e spelling.now }
{
    behind_first(&spelling[e_offset(spelling)..])
}

pub fn exponent_digits(spelling: &[u8]) -> &[u8]
    ensures { result.now ≡ exponent_digits spelling.now }
{
    unsigned(exponent(spelling))
}

fn has_negative_exponent(spelling: &[u8]) -> bool
    ensures { result ≡ has_negative_exponent spelling.now }
{
    match exponent(spelling).split_first() {
        Some((first, _)) => *first == b'-',
        None => false,
    }
}

fn fraction(mantissa: &[u8]) -> &[u8]
    ensures value { result.now ≡ behind is_point mantissa.now }
    ensures shorter { length result.now ≤ length mantissa.now }
{
    behind_first(&mantissa[point_offset(mantissa)..])
}

fn value_of(digits: &[u8]) -> usize
    requires { length digits.now ≤ MOST_EXPONENT_DIGITS }
    ensures value { result ≡ digits_value digits.now }
    ensures small { result ≤ 230_000 }
{
    let mut value = 0;
    for digit in digits {
        value = value * 10 + digit.saturating_sub(b'0') as usize;
    }
    value
}

/// How many digits there are.
pub fn count(mantissa: &[u8]) -> usize
    ensures value { result ≡ length (filter is_digit mantissa.now) }
    ensures small { result ≤ length mantissa.now }
{
    let mut count = 0;
    for byte in mantissa {
        if byte.is_ascii_digit() {
            count += 1;
        }
    }
    count
}

pub fn leading_zeros(mantissa: &[u8]) -> usize
    ensures value { result ≡ leading_zeros (filter is_digit mantissa.now) }
    ensures small { result ≤ length mantissa.now }
{
    let mut zeros = 0;
    for byte in mantissa {
        if *byte == b'0' {
            zeros += 1;
        } else if byte.is_ascii_digit() {
            return zeros;
        }
    }
    zeros
}

pub fn trailing_zeros(mantissa: &[u8]) -> usize
    ensures value { result ≡ trailing_zeros (filter is_digit mantissa.now) }
    ensures small { result ≤ length mantissa.now }
{
    let mut zeros = 0;
    for byte in mantissa {
        if *byte == b'0' {
            zeros += 1;
        } else if byte.is_ascii_digit() {
            zeros = 0;
        }
    }
    zeros
}

pub fn point_right(spelling: &[u8]) -> usize
    requires { length (exponent_digits spelling.now) ≤ MOST_EXPONENT_DIGITS }
    ensures value { result ≡ point_right spelling.now }
    ensures small { result ≤ 230_000 }
{
    if has_negative_exponent(spelling) {
        0
    } else {
        value_of(exponent_digits(spelling))
    }
}

pub fn point_left(spelling: &[u8]) -> usize
    requires short { length spelling.now ≤ LONGEST_SPELLING }
    requires few { length (exponent_digits spelling.now) ≤ MOST_EXPONENT_DIGITS }
    ensures value { result ≡ point_left spelling.now }
    ensures small { result ≤ 240_000 }
{
    let decimals = fraction(mantissa(spelling)).len();
    if has_negative_exponent(spelling) {
        decimals + value_of(exponent_digits(spelling))
    } else {
        decimals
    }
}

pub fn is_negative(spelling: &[u8]) -> bool
    ensures { result ≡ is_negative spelling.now }
{
    match spelling.split_first() {
        Some((first, _)) => *first == b'-',
        None => false,
    }
}

/// The whole number of that many digits.
pub fn coefficient(mantissa: &[u8], digits: usize) -> u128
    requires { digits_value (take digits (filter is_digit mantissa.now)) < 10 ^ MOST_SIGNIFICANT_DIGITS }
    ensures { result ≡ digits_value (take digits (filter is_digit mantissa.now)) }
{
    let mut value = 0;
    let mut left = digits;
    for byte in mantissa {
        if left == 0 {
            break;
        }
        if !byte.is_ascii_digit() {
            continue;
        }
        value = value * 10 + (*byte - b'0') as u128;
        left -= 1;
    }
    value
}

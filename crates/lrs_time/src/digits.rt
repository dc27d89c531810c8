//! Numbers in digits, at the beginning of a text.
ghost use Rattle.std.specs.Prelude.{◌≡◌, ℕ, ◌+◌, ◌-◌, ◌*◌, ◌/◌, ◌%◌, ◌^◌, ◌<◌, ◌≤◌, ◌∷◌, [], length, take, option_map, IfSome};
ghost use Rattle.std.specs.List.{prefix_len};
ghost use Rattle.std.specs.Char.{is_ascii_digit};
ghost use Rattle.std.specs.Str.Parse.{AllDigits, digits_value};
ghost use Rattle.lrs_time.specs.Digits.{IsNumeral, cut_fraction, two_digits};
ghost use Rattle.lrs_time.specs.Reading.{numeral_at, after, two_digits_at, below_at};

use lrs_decimal::digits_value;

/// How many digits stand at the beginning.
fn digits_len(text: &[u8]) -> usize
    ensures bound { result ≤ length text.now }
    ensures value { result ≡ prefix_len is_ascii_digit text.now }
{
    for (i, byte) in text.iter().enumerate() {
        if !byte.is_ascii_digit() {
            return i;
        }
    }
    text.len()
}

/// The digits at the beginning, at least one and at most `most`, and what follows them.
#[tactic(auto, unfolding(crate::specs::Reading::numeral_at))]
pub(crate) fn read_numeral(most: usize, text: &[u8]) -> Option<(&[u8], &[u8])>
    ensures value { option_map (λ p. (p.0.now, p.1.now)) result ≡ numeral_at most text.now }
    ensures numeral { IfSome result (λ p. IsNumeral most p.0.now) }
{
    let len = digits_len(text);
    if len < 1 || len > most {
        return None;
    }
    Some(text.split_at(len))
}

/// The digits after a decimal point as a count of the unit `10 ^ -decimals`, cut off.
pub(crate) fn cut(decimals: usize, digits: &[u8]) -> u32
    requires digits { AllDigits 10 digits.now }
    requires few { decimals ≤ 9 }
    ensures value { result ≡ cut_fraction decimals digits.now }
    ensures bound { result < 10 ^ decimals }
{
    let kept = &digits[..digits.len().min(decimals)];
    digits_value(kept) as u32 * 10u32.pow((decimals - kept.len()) as u32)
}

/// What follows the byte `wanted`, if it comes first.
#[tactic(auto, unfolding(crate::specs::Reading::after))]
pub(crate) fn after(wanted: u8, text: &[u8]) -> Option<&[u8]>
    ensures { option_map (λ p. p.now) result ≡ after wanted text.now }
{
    let (first, rest) = text.split_first()?;
    if *first == wanted { Some(rest) } else { None }
}

/// A number of two digits at the beginning.
#[tactic(auto, unfolding(crate::specs::Reading::two_digits_at))]
pub(crate) fn read_two_digits(text: &[u8]) -> Option<(u8, &[u8])>
    ensures value { option_map (λ p. (p.0, p.1.now)) result ≡ two_digits_at text.now }
    ensures bound { IfSome result (λ p. p.0 < 100) }
{
    let [tens, ones, rest @ ..] = text else {
        return None;
    };
    if tens.is_ascii_digit() && ones.is_ascii_digit() {
        Some(((*tens - b'0') * 10 + (*ones - b'0'), rest))
    } else {
        None
    }
}

/// A number of two digits below the limit, at the beginning.
#[tactic(auto, unfolding(crate::specs::Reading::below_at))]
pub(crate) fn read_below(limit: u8, text: &[u8]) -> Option<(u8, &[u8])>
    ensures value { option_map (λ p. (p.0, p.1.now)) result ≡ below_at limit text.now }
    ensures bound { IfSome result (λ p. p.0 < limit) }
{
    let (number, rest) = read_two_digits(text)?;
    if number < limit {
        Some((number, rest))
    } else {
        None
    }
}

/// A number below 100 in two digits.
pub(crate) fn in_two_digits(number: u8) -> [u8; 2]
    requires { number < 100 }
    ensures { result ≡ two_digits number }
{
    [b'0' + number / 10, b'0' + number % 10]
}

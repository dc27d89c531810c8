ghost use Rattle.std.specs.Prelude.{◌≡◌, ◌≤◌, ◌++◌, ℕ, List, take, drop, length, option_map, Some, IfSome};
ghost use Rattle.std.specs.List.{prefix_len};
ghost use Rattle.lrs_decimal.specs.Numbers.{is_digit, IsNumber, Ends, digits_end, without, whole_end, fraction_end, unsigned, exponent_end, number_end};

#[tactic(auto, unfolding(crate::specs::Numbers::digits_end))]
fn digits(bytes: &[u8]) -> Option<&[u8]>
    ensures { option_map (λ p. p.now) result ≡ digits_end bytes.now }
{
    match bytes.split_first() {
        Some((first, rest)) if first.is_ascii_digit() => Some(&rest[run(rest)..]),
        _ => None,
    }
}

fn run(bytes: &[u8]) -> usize
    ensures bound { result ≤ length bytes.now }
    ensures value { result ≡ prefix_len is_digit bytes.now }
{
    for (i, byte) in bytes.iter().enumerate() {
        if !byte.is_ascii_digit() {
            return i;
        }
    }
    bytes.len()
}

fn without_minus(bytes: &[u8]) -> &[u8]
    ensures { result.now ≡ without 45 bytes.now }
{
    match bytes.split_first() {
        Some((b'-', rest)) => rest,
        _ => bytes,
    }
}

#[tactic(auto, unfolding(crate::specs::Numbers::whole_end))]
fn whole(bytes: &[u8]) -> Option<&[u8]>
    ensures { option_map (λ p. p.now) result ≡ whole_end bytes.now }
{
    match bytes.split_first() {
        Some((b'0', rest)) => Some(rest),
        Some(_) => digits(bytes),
        None => None,
    }
}

#[tactic(auto, unfolding(crate::specs::Numbers::fraction_end))]
fn fraction(bytes: &[u8]) -> Option<&[u8]>
    ensures { option_map (λ p. p.now) result ≡ fraction_end bytes.now }
{
    match bytes.split_first() {
        Some((b'.', rest)) => digits(rest),
        _ => Some(bytes),
    }
}

pub fn unsigned(bytes: &[u8]) -> &[u8]
    ensures { result.now ≡ unsigned bytes.now }
{
    match bytes.split_first() {
        Some((b'+' | b'-', rest)) => rest,
        _ => bytes,
    }
}

#[tactic(auto, unfolding(crate::specs::Numbers::exponent_end))]
fn exponent(bytes: &[u8]) -> Option<&[u8]>
    ensures { option_map (λ p. p.now) result ≡ exponent_end bytes.now }
{
    match bytes.split_first() {
        Some((b'e' | b'E', rest)) => digits(unsigned(rest)),
        _ => Some(bytes),
    }
}

/// The bytes after the number at the beginning.
#[tactic(auto, unfolding(crate::specs::Numbers::number_end))]
fn number(bytes: &[u8]) -> Option<&[u8]>
    ensures { option_map (λ p. p.now) result ≡ number_end bytes.now }
{
    let rest = whole(without_minus(bytes))?;
    let rest = fraction(rest)?;
    exponent(rest)
}

/// The length of the number at the beginning of the bytes, which is read as far as it goes.
pub fn number_len(bytes: &[u8]) -> Option<usize>
    ensures within { IfSome result (λ n. n ≤ length bytes.now) }
    ensures found { IfSome result (λ n. IsNumber (take n bytes.now)) }
    ensures all { (s rest : List ℕ) → bytes.now ≡ s ++ rest → IsNumber s → Ends rest → result ≡ Some (length s) }

    // The same as a function of the bytes, also if more could follow.
    ensures exact { option_map (λ n. drop n bytes.now) result ≡ number_end bytes.now }
{
    let rest = number(bytes)?;
    Some(bytes.len().saturating_sub(rest.len()))
}

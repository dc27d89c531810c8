// Numbers, by their exact values.
ghost use Rattle.std.specs.Prelude.{◌≡◌, ◌↔◌, IsTrue, option_map};
ghost use Rattle.lrs_json.specs.LrsDecimalRange.{is_decimal};
ghost use Rattle.lrs_json.specs.View.{view};
ghost use Rattle.xapi_values.specs.Numbers.{IsNumberInRange, are_equal, is_number, compared, is_below, is_not_above, is_natural, is_count, are_numbers, are_in_order, is_score};
ghost use Rattle.lrs_names.specs.Members.{if_member, spelling_of, spelling_under};

use lrs_json::{Decimal, Text, Tree, is_whole};
use lrs_names::has_only;
use std::cmp::Ordering;

/// How a number is spelled.
pub fn spelling_of(tree: &Tree) -> Option<&[u8]>
    ensures { option_map (λ s. s.now) result ≡ spelling_of (view tree.now) }
{
    match tree {
        Tree::Number(spelling) => Some(spelling.as_bytes()),
        _ => None,
    }
}

/// The spelling of the member of that name, if it is a number.
pub fn spelling_under<'a>(tree: &'a Tree, name: &str) -> Option<&'a [u8]>
    ensures { option_map (λ s. s.now) result ≡ spelling_under name.now (view tree.now) }
{
    match tree.get(name) {
        Some(value) => spelling_of(value),
        None => None,
    }
}

fn is_decimal(spelling: &[u8]) -> bool
    ensures { result ≡ is_decimal spelling.now }
{
    Decimal::of(spelling).is_some()
}

/// A number in range.
pub fn is_number(tree: &Tree) -> bool
    ensures test { result ≡ is_number (view tree.now) }
    ensures written { IsTrue result ↔ IsNumberInRange (view tree.now) }
{
    match spelling_of(tree) {
        Some(spelling) => is_decimal(spelling),
        None => false,
    }
}

/// Whether both are numbers in range, of one value.
pub fn are_equal(a: &[u8], b: &[u8]) -> bool
    ensures { result ≡ are_equal a.now b.now }
{
    let Some(first) = Decimal::of(a) else {
        return false;
    };
    let Some(second) = Decimal::of(b) else {
        return false;
    };
    first.cmp(&second).is_eq()
}

#[tactic(auto, unfolding(crate::specs::Numbers::compared))]
fn compared(a: &[u8], b: &[u8]) -> Option<Ordering>
    ensures { result ≡ compared a.now b.now }
{
    let Some(first) = Decimal::of(a) else {
        return None;
    };
    let Some(second) = Decimal::of(b) else {
        return None;
    };
    Some(first.cmp(&second))
}

/// Whether the first is less than the second. Where one isn't there, or is no number in range, nothing is asked.
#[tactic(auto, unfolding(crate::specs::Numbers::is_below))]
pub fn is_below(a: Option<&[u8]>, b: Option<&[u8]>) -> bool
    ensures { result ≡ is_below (option_map (λ s. s.now) a.entry) (option_map (λ s. s.now) b.entry) }
{
    match (a, b) {
        (Some(a), Some(b)) => compared(a, b).is_none_or(|order| order.is_lt()),
        _ => true,
    }
}

/// Whether the first isn't greater than the second. Where one isn't there, or is no number in range, nothing is asked.
#[tactic(auto, unfolding(crate::specs::Numbers::is_not_above))]
pub fn is_not_above(a: Option<&[u8]>, b: Option<&[u8]>) -> bool
    ensures { result ≡ is_not_above (option_map (λ s. s.now) a.entry) (option_map (λ s. s.now) b.entry) }
{
    match (a, b) {
        (Some(a), Some(b)) => compared(a, b).is_none_or(|order| order.is_le()),
        _ => true,
    }
}

fn is_number_if_there(tree: &Tree, name: &str) -> bool
    ensures { result ≡ if_member name.now is_number (view tree.now) }
{
    match tree.get(name) {
        Some(value) => is_number(value),
        None => true,
    }
}

/// A score (xAPI 1.0.3, part two, section 2.4.5.1), with its numbers in their order.
#[tactic(auto, unfolding(crate::specs::Numbers::is_score))]
pub fn is_score(tree: &Tree) -> bool
    ensures { result ≡ is_score (view tree.now) }
{
    has_only(tree, &["scaled", "raw", "min", "max"]) && are_numbers(tree) && are_in_order(tree)
}

#[tactic(auto, unfolding(crate::specs::Numbers::are_numbers))]
fn are_numbers(tree: &Tree) -> bool
    ensures { result ≡ are_numbers (view tree.now) }
{
    is_number_if_there(tree, "scaled")
        && is_number_if_there(tree, "raw")
        && is_number_if_there(tree, "min")
        && is_number_if_there(tree, "max")
}

#[tactic(auto, unfolding(crate::specs::Numbers::are_in_order))]
fn are_in_order(tree: &Tree) -> bool
    ensures { result ≡ are_in_order (view tree.now) }
{
    let scaled = spelling_under(tree, "scaled");
    let raw = spelling_under(tree, "raw");
    let least = spelling_under(tree, "min");
    let greatest = spelling_under(tree, "max");
    is_not_above(Some(b"-1"), scaled)
        && is_not_above(scaled, Some(b"1"))
        && is_below(least, greatest)
        && is_not_above(least, raw)
        && is_not_above(raw, greatest)
}

/// A whole number that isn't negative, however it is spelled: `2`, `2.0`, `20e-1`.
pub fn is_count(tree: &Tree) -> bool
    ensures { result ≡ is_count (view tree.now) }
{
    match spelling_of(tree) {
        Some(spelling) => is_natural(spelling),
        None => false,
    }
}

#[tactic(auto, unfolding(crate::specs::Numbers::is_natural))]
fn is_natural(spelling: &[u8]) -> bool
    ensures { result ≡ is_natural spelling.now }
{
    is_decimal(spelling) && is_whole(spelling) && is_not_above(Some(b"0"), Some(spelling))
}

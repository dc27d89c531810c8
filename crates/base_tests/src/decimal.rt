// The tests of lrs_decimal.
use crate::failing::wrong_row;
use lrs_decimal::{Decimal, is_whole, number_len};
use std::cmp::Ordering;
use std::test::Fail;

// Spellings, and whether each is a number in range.
const SPELLINGS: [(&str, bool); 23] = [
    ("1234567890123456789012345678901234", true),
    ("12345678901234567890123456789012345", false),
    ("0001", false),
    ("0.00012345678901234567890123456789012340000", true),
    ("1.000000000000000000000000000000001", true),
    ("1.0000000000000000000000000000000001", false),
    (
        "1000000000000000000000000000000000000000000000000000000000000000",
        true,
    ),
    (
        "10000000000000000000000000000000000000000000000000000000000000000",
        false,
    ),
    ("1e999", true),
    ("10e999", false),
    ("1e1000", false),
    ("1e-999", true),
    ("10e-1000", true),
    ("1.5e-999", false),
    ("1e-1000", false),
    ("1e0999", true),
    ("1e00999", false),
    ("-0", true),
    ("0e9999", true),
    ("0e99999", false),
    ("", false),
    ("1 ", false),
    ("NaN", false),
];

#[test]
fn numbers_at_each_limit() -> Result<(), Fail> {
    for (i, (text, wanted)) in SPELLINGS.iter().enumerate() {
        if Decimal::of(text.as_bytes()).is_some() != *wanted {
            return wrong_row(i);
        }
    }
    Ok(())
}

const PAIRS: [(&str, &str, Ordering); 9] = [
    ("1.0", "1", Ordering::Equal),
    ("10e-1", "100e-2", Ordering::Equal),
    ("-0", "0e9", Ordering::Equal),
    ("-1", "-0.5", Ordering::Less),
    ("-0.5", "0.25", Ordering::Less),
    ("2", "10", Ordering::Less),
    (
        "1e999",
        "9999999999999999999999999999999999e-999",
        Ordering::Greater,
    ),
    (
        "1234567890123456789012345678901234",
        "1234567890123456789012345678901235e0",
        Ordering::Less,
    ),
    ("0.1", "0", Ordering::Greater),
];

fn order_of(first: &str, second: &str) -> Option<Ordering> {
    Some(Decimal::of(first.as_bytes())?.cmp(&Decimal::of(second.as_bytes())?))
}

#[test]
fn values_are_compared() -> Result<(), Fail> {
    for (i, (first, second, wanted)) in PAIRS.iter().enumerate() {
        let there = order_of(first, second);
        let back = order_of(second, first);
        if there != Some(*wanted) || back != Some(wanted.reverse()) {
            return wrong_row(i);
        }
    }
    Ok(())
}

const WHOLES: [(&str, bool); 16] = [
    ("0", true),
    ("-0.0", true),
    ("0.0e5", true),
    ("0e-9", true),
    ("-3", true),
    ("1.0", true),
    ("10e-1", true),
    ("1.5e1", true),
    ("120E-1", true),
    ("1e999", true),
    ("9007199254740993", true),
    ("1.5", false),
    ("15e-1", false),
    ("1.25e1", false),
    ("1e-1", false),
    ("-0.10", false),
];

#[test]
fn a_number_is_whole_by_its_value() -> Result<(), Fail> {
    for (i, (text, wanted)) in WHOLES.iter().enumerate() {
        if is_whole(text.as_bytes()) != *wanted {
            return wrong_row(i);
        }
    }
    Ok(())
}

// Where the number at the beginning ends, though more digits or signs follow it.
const FRONTS: [(&str, Option<usize>); 9] = [
    ("12,", Some(2)),
    ("-0]", Some(2)),
    ("01", Some(1)),
    ("1.5e3 ", Some(5)),
    ("1.5e+3.2", Some(6)),
    ("12.", None),
    ("1e", None),
    ("-", None),
    ("a1", None),
];

#[test]
fn a_number_is_read_as_far_as_it_goes() -> Result<(), Fail> {
    for (i, (text, wanted)) in FRONTS.iter().enumerate() {
        if number_len(text.as_bytes()) != *wanted {
            return wrong_row(i);
        }
    }
    Ok(())
}

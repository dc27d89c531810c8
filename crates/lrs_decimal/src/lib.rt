//! The numbers of JSON: their grammar (RFC 8259, section 6), which of them are in range, which are whole, and their
//! exact values. Also the value of a run of digits.
#![tactic(auto)]

mod decimal;
mod limits;
mod numbers;
mod numerals;
mod parts;
mod range;

pub use decimal::Decimal;
pub use numbers::number_len;
pub use numerals::digits_value;
pub use range::{is_in_range, is_whole};

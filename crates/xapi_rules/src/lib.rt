//! The thirty-two rules on statements (xAPI 1.0.3, part two, section 2): which of them a value breaks, and the least.
#![tactic(auto)]

mod attachments;
mod components;
mod contexts;
mod nulls;
mod objects;
mod rules;

pub use lrs_json::Memory;
pub use rules::{broken_rule, is_voiding};
pub use xapi_values::numbers::spelling_under;
pub use xapi_values::{Kind, is_nested};

//! The rules that a request can break, by name, the rule that a refusal of JSON means, and the limits that more than one
//! crate asks for.
#![tactic(auto)]

mod json;
mod limits;
mod rule;

pub use json::json_rule;
pub use limits::{LONGEST_IDLE, MOST_EDITION, is_edition_number};
pub use rule::Rule;

//! When two JSON values are the same: the order of members doesn't count, nor does the spelling of equal decimals.
#![tactic(auto)]

mod equivalence;
mod partners;

pub use equivalence::same_value;
pub use partners::Partners;

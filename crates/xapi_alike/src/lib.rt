//! When two statements are the same, as they were received (a profile of xAPI 1.0.3, part two, section 2.3.1).
#![tactic(auto)]

mod alike;
mod leaves;
mod ranks;
mod role;
mod statements;

pub use statements::same_received;

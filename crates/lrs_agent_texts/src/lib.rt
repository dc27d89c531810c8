//! An Agent as a value of JSON, as a launch address, a made statement and an enrolment tell of a learner.
#![tactic(auto)]

pub mod building;
mod texts;

pub use texts::agent_tree;

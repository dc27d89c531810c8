//! Agents and groups, and what identifies them (xAPI 1.0.3, part two, section 2.4.2), with the rules that such a value
//! breaks as one.
#![tactic(auto)]

mod agents;
mod groups;
mod identifiers;
mod refused;

pub use agents::Agent;
pub use groups::{Group, broken_agent_or_group};
pub use identifiers::Ifi;
pub use lrs_json::Memory;
pub use refused::NameRefused;

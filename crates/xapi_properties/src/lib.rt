//! What is asked of the properties of a statement (xAPI 1.0.3, part two, section 2.4), as a JSON tree: its members, its
//! activities, and who takes part in it.
#![tactic(auto)]

mod activities;
mod members;
mod parties;

pub use activities::{has_activity, has_context_activity};
pub use lrs_agents::Ifi;
pub use members::{
    activity_of, extension_of, has_duration, own_id, registration_of, result_boolean, scaled_of,
    scaled_spelling, target_of, verb_of,
};
pub use parties::{has_agent, is_actor};
pub use xapi_rules::{broken_rule, is_voiding};

//! Launches of units: the ids under which the store knows their activities, the address at which a unit is launched
//! (cmi5 Quartz, section 8.1), what it is told in its launch data (section 10.2), and the statements that the store
//! makes of its own (section 9.3).
#![tactic(auto)]

mod activities;
mod addresses;
mod data;
mod made;
pub mod names;
mod pairs;

pub use activities::activity_id;
pub use addresses::launch_address;
pub use data::launch_data;
pub use lrs_json::Memory;
pub use made::{Made, made_statement};
pub use xapi_statement::{
    Authority, HeldStatement, StoredStatement, activity_of, extension_of, has_context_activity,
    has_duration, is_actor, is_voiding, registration_of, result_boolean, scaled_spelling, verb_of,
};

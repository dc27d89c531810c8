//! What the launch desk does, over the parts of a store in memory: it takes courses up, enrols learners, launches and
//! waives units, gives the tokens of sessions away and abandons sessions. A function has the name of the definition in
//! `lrs_history` that it equals. Begin with `courses`, `enrolments`, `launches`, `fetches`, `waivers` and
//! `abandonments`: what their writes change. `ids` makes the ids. What the store says of its own comes from `lrs_made`,
//! which sessions are open from `lrs_sessions`; why a write is refused stands in `lrs_refusals`.
#![tactic(auto)]

mod abandonments;
mod courses;
mod enrolments;
mod fetches;
mod ids;
mod launches;
mod waivers;

pub use abandonments::{abandoning_one, sweeping};
pub use courses::taking;
pub use enrolments::enrolling;
pub use fetches::fetching;
pub use launches::launching;
pub use lrs_parts::{
    Acceptance, Effect, Founding, HeldProvider, Parts, ProvidersChange, SpentEffect, is_base,
    is_token,
};
pub use waivers::waiving;

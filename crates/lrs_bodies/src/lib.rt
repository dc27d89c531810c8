//! The bodies of requests: what each form of a body gives (statements, documents, strings, courses, enrolments,
//! launches, waivers, sweeps), and the rule that a body breaks. `json` reads one as JSON, and the others look into what
//! that gives.
#![tactic(auto)]

mod body_value;
mod desk_bodies;
mod documents;
mod form_refused;
mod json;
mod media;
mod numbers;
mod statements;
mod strings;
mod sweeps;
mod waivers;

pub use body_value::BodyValue;
pub use desk_bodies::{read_course, read_enrolment, read_launch};
pub use documents::read_document;
pub use form_refused::FormRefused;
pub use statements::{read_statement, read_statements};
pub use strings::read_strings;
pub use sweeps::{read_empty, read_sweep};
pub use waivers::read_waiver;

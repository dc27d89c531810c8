//! What the store says of its own, over the parts of a store in memory: that a unit was waived, that blocks and courses
//! are satisfied (cmi5 Quartz, sections 9.3.7 and 9.3.9), and under which ids. A function has the name of the
//! definition in `lrs_history` that it equals, or cites it in its contract. Begin with `waivers` and `owing`, then
//! `saying` and `making`. `targets` finds the unit of which a statement speaks, `enrolments` a registration with its
//! edition.
#![tactic(auto)]

mod enrolments;
mod held;
mod making;
mod owing;
mod saying;
mod targets;
mod waivers;

pub use cmi5_launch::Made;
pub use enrolments::{LentEnrolled, enrolled, enrolled_as, verdicts_of};
pub use lrs_history::{
    MOST_OF_BATCH, barred, outside, overstepped, refused_agent, refused_document,
    refused_enrolment, refused_idle, refused_name, refused_with,
};
pub use lrs_parts::{Parts, index_meant, is_admin, push_if};
pub use making::{make_one, make_under};
pub use owing::add_owed;
pub use saying::statement_of;
pub use targets::{LentTarget, target};
pub use waivers::{is_waived, waived_statement};

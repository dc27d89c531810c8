//! What the statements of each registration say of the nodes of its course, counted from one statement to the next, so
//! that its verdicts are told without going through the statements again. Begin with `Running`.
#![tactic(auto)]

mod counting;
mod holding;
mod running;
mod tally;
mod telling;

pub use cmi5_verdict::{Enrolment, Index, Statements, owed, push_if, verdicts, voided_by, waived};
pub use running::Running;
pub use tally::Tally;

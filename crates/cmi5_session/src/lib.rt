//! Sessions of launched units: how far one has come, what the rules look at besides the statement that comes, and the
//! twenty rules on what may be said of a learner (cmi5 Quartz, section 9). Begin with `rules`.
#![tactic(auto)]

mod counting;
mod defined;
mod phase;
mod rules;
mod verb;
mod view;

pub use cmi5_course::{Launch, Mode};
pub use cmi5_launch::names::{
    COMPLETED, INITIALIZED, LAUNCH_DATA, PASSED, SATISFIED, TERMINATED, WAIVED,
};
pub use cmi5_launch::{
    Authority, HeldStatement, StoredStatement, activity_of, registration_of, verb_of,
};
pub use counting::{one_less, one_more};
pub use defined::{is_cmi5_defined, says};
pub use phase::Phase;
pub use rules::{Forbidden, permitted, permitted_outside};
pub use view::{SessionView, is_that_id};

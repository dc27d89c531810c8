//! What a learner has reached in a course (cmi5 Quartz, section 13.1.4, `moveOn`, and section 9.3.9): which units are
//! met, which nodes are satisfied, and of which of these that is still to be said. Begin with `verdicts`. Who keeps
//! what was said of each node from one statement to the next begins with `index_meant`. `push_if` fills lists of
//! numbers.
#![tactic(auto)]

mod enrolment;
mod marking;
mod names;
mod nodes;
mod numbers;
mod owing;
mod said;
mod statements;
mod units;

pub use cmi5_session::{
    COMPLETED, HeldStatement, LAUNCH_DATA, PASSED, SATISFIED, StoredStatement, WAIVED, one_less,
    one_more, verb_of,
};
pub use enrolment::Enrolment;
pub use marking::verdicts;
pub use names::index_meant;
pub use nodes::{parent_of, unit_in};
pub use numbers::push_if;
pub use owing::{owed, owed_by_said};
pub use said::{Said, add_new};
pub use statements::{Statements, voided_by};
pub use units::waived;
pub use xapi_index::{Index, Key};

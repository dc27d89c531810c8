//! Who a caller is, and why an entry's write is refused, over the parts of a store in memory. A function has the name
//! of the definition in `lrs_history` that it equals. Begin with `refusals`. Its steps are in `forms` (what is refused
//! by its form), `whose` (what a caller may do), `courses` (what is no course) and `meeting` (what statements
//! meet in the store). What is found out about a write's statements there is handed on as `known`, so that nothing is
//! looked up again; `batch` finds the ids of those that come together. A `submission` is a command whose form may have
//! been judged before the parts are at hand.
#![tactic(auto)]

mod batch;
mod courses;
mod forms;
mod known;
mod meeting;
mod refusals;
mod submission;
mod whose;
mod written;

pub use batch::batch_of;
pub use known::{Batch, Known};
pub use lrs_made::{
    LentEnrolled, Parts, add_owed, barred, enrolled, outside, refused_with, verdicts_of,
};
pub use refusals::refusal;
pub use submission::{Form, Submission};
pub use whose::{launch_of, who_is};
pub use written::PreparedTexts;

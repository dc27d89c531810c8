//! What a caller who asks is told, over the parts of a store in memory. A function has the name of the definition in
//! `lrs_history` that it equals. Begin with `questions`; `sight` tells which statements a caller sees.
#![tactic(auto)]

mod questions;
mod sight;

pub use lrs_refusals::{
    Batch, Form, Known, PreparedTexts, Submission, add_owed, barred, batch_of, enrolled, launch_of,
    refusal, refused_with, who_is,
};
pub use questions::read_answered;
pub use xapi_pages::count_listed;

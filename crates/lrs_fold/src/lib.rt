//! The abstract store in memory: the parts that the entries so far give, what an entry changes, and what becomes of a
//! command. There is no disk here. Begin with `outcome`: `effects` and `saying` are its steps, beside why a write is
//! refused (`lrs_refusals`) and what a read is answered (`lrs_reads`). What the launch desk writes stands in
//! `lrs_learning`, which `effects` calls; which nodes of a course are satisfied behind a session's statements, `owing`
//! asks `lrs_made`. `spent` is what an act leaves over.
#![tactic(auto)]

mod authority;
mod effects;
mod fold;
mod listed;
mod next;
mod outcome;
mod owing;
mod own;
mod saying;
mod spent;

pub use fold::Fold;
pub use listed::post_of;
pub use lrs_reads::{Submission, barred, who_is};
pub use outcome::{Accepted, Outcome, entry_text};
pub use own::{founding_entry, put_of};
pub use spent::Spent;

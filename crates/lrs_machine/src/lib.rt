//! The desk: it keeps a history of accepted writes in a journal, and answers each command over it. One worker may have
//! it, or several that take it in turns. Begin with `desk`;
//! `acting` and `keeping` are the steps of an act, `opening` and `replaying` those of a recovery. `migrating` moves a
//! store into another file. A `record` says what became of an act that changed the journal, and a `receipt` what is kept
//! of a response, to compare it with the history. `Spent` (of `lrs_fold`) is what an act leaves over.
#![tactic(auto)]

mod acting;
mod desk;
mod keeping;
mod migrating;
mod opening;
mod receipt;
mod record;
mod replaying;

pub use desk::Desk;
pub use lrs_fold::{Spent, Submission};
pub use lrs_parts::{HeldProvider, is_base, is_token};
pub use lrs_replies::{Answered, Body, Media, Refusal, Reply, Trouble};
pub use migrating::{MigrateRefused, Migrated};
pub use opening::{DeskRefused, FoundRefused};
pub use receipt::Receipt;
pub use record::Record;

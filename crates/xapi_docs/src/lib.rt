//! State documents (xAPI 1.0.3, part three, section 2.3): what a course keeps about an activity, an agent and a
//! registration under an id of its own. Begin with `documents`; `docs` keeps them, `merging` puts two of them together.
#![tactic(auto)]

mod changes;
mod docs;
mod documents;
mod merging;

pub use changes::{DocumentsChange, posted};
pub use docs::Docs;
pub use documents::Document;
pub use merging::{MergeRefused, merge};

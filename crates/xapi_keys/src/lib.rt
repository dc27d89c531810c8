//! What state documents are kept under (xAPI 1.0.3, part three, section 2.3), and which of them are asked for. Begin
//! with `state_key`.
#![tactic(auto)]

mod keys;
mod state_key;
mod wanted;

pub use keys::{is_of, is_state, law_of_keys};
pub use state_key::StateKey;
pub use wanted::WantedDocuments;

//! The turn by which several workers use one state.
//!
//! The state stands for a list of records. A worker waits for the turn, takes the state, notes what it has seen or
//! commits what it has added, and gives the state back. So there is one list, each worker has seen a beginning of it,
//! and each further record is the own of one worker.
//!
//! Begin with `turns.rt`. What contracts say of a pass is in `specs/Passes.antt`, and the rule that all steps keep in
//! `specs/Rule.antt`.
#![tactic(auto)]

mod dealing;
mod journaled;
mod memory;
mod pass;
mod rule;
mod turns;
mod view;

pub use journaled::Journaled;
pub use memory::Memory;
pub use pass::Pass;
pub use turns::{MOST_PASSES, Turns};

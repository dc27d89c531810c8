//! Lists found by key. Room is made ahead, so taking an item in needs no memory.
#![tactic(auto)]

mod change;
mod register;
mod slots;

pub use change::Change;
pub use register::{Keyed, Register};
pub use slots::Slots;

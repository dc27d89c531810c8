//! What is kept of sessions from one statement to the next, so that none has to be read again: what each session's own
//! statements said, and how many statements say that a unit was completed or passed. Slots are made ahead, so taking a
//! statement in needs no memory. Begin with `Sessions`.
#![tactic(auto)]

mod own;
mod registrations;
mod said;
mod sessions;
mod told;
mod units;

pub use cmi5_session::SessionView;
pub use own::OwnSaid;
pub use sessions::Sessions;
pub use units::Reached;

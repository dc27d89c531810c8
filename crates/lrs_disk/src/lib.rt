//! The outside of the store, as traits: disks and the shelf that gives them, input and output, connections, the doors
//! that connections come through and the lobby that gives doors. A door and a lobby have a clock.
//!
//! Each object may tell what it holds, as those in memory do, or not, as a file, a socket or a terminal. Each counts
//! its failed calls, and no fault is answered above unless such a count rose.
#![tactic(auto)]

mod disk;
mod door;
mod failed;
mod link;
mod lobby;
mod reading;
mod shelf;
mod streams;

pub use disk::Disk;
pub use door::{Door, Next};
pub use failed::Failed;
pub use link::Link;
pub use lobby::{DoorsRefused, Lobby, MOST_DOORS};
pub use reading::copied;
pub use shelf::Shelf;
pub use streams::{Sink, Source};

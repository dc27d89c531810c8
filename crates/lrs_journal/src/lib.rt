//! A list of frames in one file, each on the disk before it is acknowledged.
//!
//! The file has a header and then frames. A frame is a gate, a length of four bytes, its number in eight bytes and a
//! payload. A gate of 1 is open, and the list ends at the first gate that isn't. What is appended is written and synced
//! before its gate is opened. So a stop at any moment leaves the frames from before or one more, whichever of the
//! unsynced bytes reach the disk. In a new file the header's gate is opened last: until then it is no store.
//!
//! Frames of the old format have no number. That format is read and never written.
//!
//! Begin with `Journal`. A `Replay` reads the frames of a file, and a `Builder` makes a new file frame by frame, and
//! opens it last.
#![tactic(auto)]

mod builder;
mod create;
mod journal;
mod replay;
mod sizes;
mod steps;

pub use builder::Builder;
pub use create::CreateRefused;
pub use journal::{AppendRefused, Full, Journal};
pub use replay::{RecoverRefused, Replay, ReplayRefused};
pub use sizes::{FRAME_HEAD, Format, HEADER, LEAST_BYTES, MOST_BYTES, OLD_FRAME_HEAD};

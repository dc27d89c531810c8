//! The reader of JSON's grammar (RFC 8259): bytes give a tree, or the reason why they are refused.
#![tactic(auto)]

mod cursor;
mod depth;
mod naming;
mod reader;
mod reading;
mod rereading;
mod strings;

pub use cursor::{Cursor, Stop};
pub use depth::{MOST_DEPTH, is_too_deep};
pub use naming::{FEW_MEMBERS, is_named};
pub use reading::{ReadRefused, read, read_to};
pub use rereading::reread;

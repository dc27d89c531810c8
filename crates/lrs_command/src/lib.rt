//! What a caller asks of the store: a write, which is kept if it is accepted, or a read, which is only answered. Also
//! the areas that commands belong to, and who a caller turns out to be.
#![tactic(auto)]

mod command;
mod who;

pub use command::{BAD_REQUEST, CONTENT_TOO_LARGE, Command, NOT_FOUND, Read};
pub use lrs_record::Area;
pub use who::Who;

//! The text that a received statement is kept as, with the marks by which the text of its completed form is copied out
//! of it (xAPI 1.0.3, part two, section 2.4). Begin with `ReceivedText`.
#![tactic(auto)]

mod adding;
mod draft;
mod excerpts;
mod marking;
mod marks;
mod offsets;
mod plural;
mod received;

pub use lrs_json::Memory;
pub use received::ReceivedText;
pub use xapi_format::{Authority, Format, WrittenAuthority, completed};

//! The form in which the store gives a whole statement (xAPI 1.0.3, part two, section 2.4; part three, section 2.1.3):
//! completed by what the store adds, as a tree; and the text of what it adds, with the Agent under whose authority it
//! stands.
#![tactic(auto)]

mod adding;
mod authority;
mod building;
mod format;
mod plural;
mod showing;
mod written;

pub use adding::{put_given_times, put_given_version, put_id, put_own_times, put_own_version};
pub use authority::Authority;
pub use building::{completed, into_completed};
pub use format::Format;
pub use lrs_json::Memory;
pub use showing::is_added;
pub use written::WrittenAuthority;
pub use xapi_values::{Id, is_nested};

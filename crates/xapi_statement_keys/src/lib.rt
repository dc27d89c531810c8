//! The keys of a statement: all that lists of statements are searched by. Begin with `Keys::of`. Nothing here knows
//! who asks, or what is listed.
#![tactic(auto)]

mod activities;
mod adding;
mod authority;
mod key;
mod keys;
mod parties;
mod reading;
mod roles;

pub use key::Key;
pub use keys::{Keys, law_of_keys};
pub use xapi_query::{
    Authority, Format, HeldStatement, Query, ReceivedText, SharedAuthority, Sight, StoredStatement,
    in_time, link_text, own_id,
};

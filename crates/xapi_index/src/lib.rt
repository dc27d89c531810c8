//! The list of statements that a store holds: which one an id names, which are voided, which one refers to which, which
//! stand under a key, and the ids under which new ones go. Nothing here knows who asks or what is listed.
#![tactic(auto)]

mod ahead;
mod authorities;
mod index;
mod installing;
mod naming;
mod positions;
mod times;

pub use index::Index;
pub use naming::{given_ids, have_distinct_ids, take_ids};
pub use xapi_postings::{
    Format, HeldStatement, Key, Query, Sight, contains, first_from, in_time, last_below, link_text,
};

//! The positions that stand under each key of statements. Nothing here knows the statements. Begin with `Postings`.
#![tactic(auto)]

mod positions;
mod postings;
mod searching;

pub use postings::Postings;
pub use searching::{contains, first_from, last_below};
pub use xapi_statement_keys::{
    Authority, Format, HeldStatement, Key, Keys, Query, ReceivedText, SharedAuthority, Sight,
    StoredStatement, in_time, link_text, own_id,
};

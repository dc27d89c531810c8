//! What a list of statements is asked for: the query, which statements were stored within its times, which of them a
//! caller sees, and the links from page to page. Another crate reads them from parameters, another one looks the other
//! filters up in lists by keys.
#![tactic(auto)]

mod filters;
mod form;
mod link;
mod query;
mod sight;
mod wanted;

pub use filters::in_time;
pub use link::{MoreLink, link_text};
pub use query::{Given, MOST_OF_PAGE, Query};
pub use sight::{Sight, sees};
pub use wanted::Wanted;
pub use xapi_statement::{
    Authority, Format, HeldStatement, ReceivedText, SharedAuthority, StoredStatement, own_id,
};

//! What a query lists of the statements that a store holds, page by page. Nothing here knows who asks or what is
//! refused.
#![tactic(auto)]

mod chains;
mod count;
mod listing;
mod pages;
mod searching;

pub use count::count_listed;
pub use pages::page_text;

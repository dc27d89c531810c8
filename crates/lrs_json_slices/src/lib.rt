//! A JSON value in its written form: its parts are slices of the text, and nothing is read back or copied. Begin with
//! `Written`.
#![tactic(auto)]

mod scanning;
mod splitting;
mod written;

pub use lrs_json_reader::reread;
pub use written::{Written, WrittenItems, WrittenMember, WrittenMembers, WrittenText};

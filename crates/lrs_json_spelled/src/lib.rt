//! The value that bytes spell as a function of the bytes, for definitions that ask what is made of a text. It is tied
//! to the grammar of `lrs_json_reader` both ways.
#![tactic(auto)]

mod spelled;

pub use spelled::{law_of_spelling, value_in};

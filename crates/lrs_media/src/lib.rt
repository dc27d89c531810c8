//! Words in a field's value, and which media types are JSON (RFC 9110).
#![tactic(auto)]

mod media;

pub use media::{is_json, trims_to};

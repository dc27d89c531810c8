//! The values that a statement is made of: scores and counts, ids, timestamps, durations and extensions, and the kind
//! that an object names (xAPI 1.0.3, part two, sections 2.4 and 4).
#![tactic(auto)]

mod kinds;
mod members;
mod nested;
/// Numbers of a statement, by their exact values.
pub mod numbers;
mod objects;
/// What is asked of a value by its kind.
pub mod shapes;

pub use kinds::Kind;
pub use lrs_names::Id;
pub use lrs_time::{Moment, moment_text};
pub use members::{broken_extensions_of, broken_iri_at, broken_map_at};
pub use nested::is_nested;
pub use objects::{push, whole};

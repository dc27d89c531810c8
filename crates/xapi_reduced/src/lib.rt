//! The form of a completed statement with ids alone (xAPI 1.0.3, part three, section 2.1.3): as a tree (`reduced`), and
//! written from the text of what was received (`put_reduced`, where to begin).
#![tactic(auto)]

mod adding;
mod direct;
mod kinds;
mod names;
mod reducing;

pub use direct::put_reduced;
pub use lrs_json::Memory;
pub use reducing::reduced;

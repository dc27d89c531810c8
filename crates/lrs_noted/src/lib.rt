//! What was done to an object over its whole life, as a list that only proofs read.
//!
//! An object that the program keeps no history of may so have one in its clauses. The list has no bytes, and its calls
//! do nothing at run time.
#![tactic(auto)]

mod noted;

pub use noted::Noted;

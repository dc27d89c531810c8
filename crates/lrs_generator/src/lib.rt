//! The statements that are made from a seed, to load a store with, batch by batch. `specs/Generated` says which they
//! are, and `proofs/Lawful` shows that they break no rule.
#![tactic(auto)]

mod generator;
mod statements;

pub use generator::{BATCH, Generator};
pub use lrs_json::Memory;

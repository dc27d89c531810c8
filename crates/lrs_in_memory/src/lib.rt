//! Disks and shelves in memory: each tells all that it holds, and fails on the calls that a test names. Begin with
//! `MemDisk`.
#![tactic(auto)]

mod bytes;
mod call;
mod disk;
mod history;
mod ledger;
mod memory;
mod plan;
mod shelf;

pub use call::Pending;
pub use disk::MemDisk;
pub use memory::Memory;
pub use plan::Plan;
pub use shelf::MemShelf;

//! The program's standard input and output: the statement that an input asks to be kept, and how a run ends, with its
//! status and printed line.
#![tactic(auto)]

mod asking;
mod ending;
mod printing;
mod reading;

pub use asking::take_statement;
pub use ending::Ending;
pub use printing::finish;

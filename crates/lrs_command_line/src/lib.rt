//! The program's command line: the words after the program's name, read as a command with its values.
#![tactic(auto)]

mod usage;
mod words;

pub use usage::tell_fault;
pub use words::{ProgramCommand, read_words};

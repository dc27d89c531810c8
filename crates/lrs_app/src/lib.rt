//! All that the program does, as one call over the outside: `run` carries out a command and reports how it ended. Begin
//! with `program`; `init`, `intake`, `load`, `migrate` and `serve` are its commands.
#![tactic(auto)]

mod init;
mod intake;
mod load;
mod migrate;
mod program;
mod serve;

pub use lrs_hall::{Finish, Receipt, Talk};
pub use program::{Ended, Report, run};

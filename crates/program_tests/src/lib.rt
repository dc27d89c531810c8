//! The tests of lrs_app, and of the program, which only calls `run`: over the outside in memory, and over real files; what
//! `serve` does, with one worker and with several; what a stop leaves, and a disk that fails.
#![tactic(auto)]

#[cfg(test)]
mod commands;
#[cfg(test)]
mod doors;
#[cfg(test)]
mod files;
#[cfg(test)]
mod migrating;
#[cfg(test)]
mod repeats;
#[cfg(test)]
mod runs;
#[cfg(test)]
mod serving;
#[cfg(test)]
mod stops;
#[cfg(test)]
mod words;
#[cfg(test)]
mod workers;

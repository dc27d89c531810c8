//! The tests of one desk that is asked by requests, as lines of a text: courses, launches, sessions and their ends,
//! verdicts and waivers; what a stop or a fault of the disk leaves of its answers. `rows` says what a line is.
#![tactic(auto)]

#[cfg(test)]
mod desk;
#[cfg(test)]
mod faults;
#[cfg(test)]
mod rows;
#[cfg(test)]
mod stops;
#[cfg(test)]
mod verdicts;

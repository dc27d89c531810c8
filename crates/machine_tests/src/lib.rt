//! The tests of lrs_machine: what one desk answers to one command after the other, as rows of a text. `rows` says what a
//! row is. What a stop leaves is tested in desk_tests.
#![tactic(auto)]

#[cfg(test)]
mod documents;
#[cfg(test)]
mod listings;
#[cfg(test)]
mod migrating;
#[cfg(test)]
mod rows;
#[cfg(test)]
mod statements;

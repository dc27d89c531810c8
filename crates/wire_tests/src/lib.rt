//! The tests of the wire: requests and responses, what requests ask, the texts of entries, and the words of commands.
#![tactic(auto)]

#[cfg(test)]
mod command_line;
#[cfg(test)]
mod failing;
#[cfg(test)]
mod generator;
#[cfg(test)]
mod messages;
#[cfg(test)]
mod record;
#[cfg(test)]
mod routes;

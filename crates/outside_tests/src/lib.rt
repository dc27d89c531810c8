//! The tests of the outside, in memory and as real files and connections, of the journal, and of the turn of workers.
#![tactic(auto)]

#[cfg(test)]
mod edge;
#[cfg(test)]
mod failing;
#[cfg(test)]
mod in_memory;
#[cfg(test)]
mod journal;
#[cfg(test)]
mod turn;

//! The tests of statements and documents: which are taken, how they are kept, and which are found.
#![tactic(auto)]

#[cfg(test)]
mod docs;
#[cfg(test)]
mod equal;
#[cfg(test)]
mod failing;
#[cfg(test)]
mod format;
#[cfg(test)]
mod query;
#[cfg(test)]
mod rules;
#[cfg(test)]
mod statement;
#[cfg(test)]
mod values;

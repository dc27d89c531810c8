//! The tests of the lowest layer: decimal numbers, texts of JSON, times, and the names of agents, verbs and documents.
#![tactic(auto)]

#[cfg(test)]
mod decimal;
#[cfg(test)]
mod failing;
#[cfg(test)]
mod json;
#[cfg(test)]
mod names;
#[cfg(test)]
mod noted;
#[cfg(test)]
mod time;

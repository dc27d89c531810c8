//! The tests of what the server does: conversations, several workers over one desk, and what callers are answered.
#![tactic(auto)]

#[cfg(test)]
mod callers;
#[cfg(test)]
mod desks;
#[cfg(test)]
mod ends;
#[cfg(test)]
mod limits;
#[cfg(test)]
mod links;
#[cfg(test)]
mod served;
#[cfg(test)]
mod tests;
#[cfg(test)]
mod workers;

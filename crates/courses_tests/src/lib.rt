//! The tests of courses: what is read of them, launches, sessions, and what is told of learners.
#![tactic(auto)]

#[cfg(test)]
mod course;
#[cfg(test)]
mod failing;
#[cfg(test)]
mod given;
#[cfg(test)]
mod launch;
#[cfg(test)]
mod running;
#[cfg(test)]
mod session;
#[cfg(test)]
mod verdict;

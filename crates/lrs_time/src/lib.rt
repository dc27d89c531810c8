//! Timestamps, durations and the moments of the store's own clock, each read and printed exactly, within the profile of
//! xAPI 1.0.3 (part two, sections 4.5 and 4.6) that `specs/` states.
#![tactic(auto)]

mod digits;
mod durations;
mod instants;
mod moments;
mod seconds;
mod timestamps;

pub use durations::Duration;
pub use instants::Instant;
pub use moments::{LATEST, Moment, moment_text};
pub use seconds::{LONGEST_SPAN, Memory, seconds_text};
pub use timestamps::{TimeRefused, read_timestamp};

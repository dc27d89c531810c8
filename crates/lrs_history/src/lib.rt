//! The abstract store: a history is the list of accepted entries, and each answer is a fold over it. The definitions
//! stand in `specs/`. The few functions here need no store: who is let into an area, and refusals that follow from a
//! form or a name alone.
#![tactic(auto)]

mod admitting;

pub use admitting::{
    LONGEST_DOCUMENT, LONGEST_MEDIA, MOST_OF_BATCH, barred, outside, overstepped, refused_agent,
    refused_document, refused_enrolment, refused_idle, refused_name, refused_with,
};

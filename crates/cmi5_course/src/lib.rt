//! Course structures (cmi5 Quartz, section 13), in the store's own form of JSON: what breaks their rules, their nodes
//! in the order of the text, what a launch needs of a unit, and the words for launches and waivers. Begin with
//! `course`.
#![tactic(auto)]

mod course;
mod launch;
mod reading;
mod reason;
mod refused;
mod rules;
mod spelled_nodes;
mod unit;
mod urls;

pub use course::{Course, Node, NodeKind};
pub use launch::{Launch, Mode};
pub use lrs_json::Memory;
pub use reason::Reason;
pub use refused::CourseRefused;
pub use rules::broken_course;
pub use unit::{Method, MoveOn, Unit};

//! What the launch desk tells of a learner's way through a course: verdicts, what the store says of nodes that are
//! satisfied, and waivers.
mod large;
mod moving;
mod satisfied;
mod waivers;

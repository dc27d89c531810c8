use cmi5_course::Node;
use lrs_names::{Id, Iri};

/// A registration in a course, and the names under which the store knows both.
#[derive(Clone, Copy)]
pub struct Enrolment<'a> {
    pub registration: &'a Id,
    /// The address that the store's own names begin with.
    pub base: &'a Iri,
    /// The number of the course among those of the store.
    pub course: u32,
    /// The nodes of the course, in the order of the text.
    pub nodes: &'a [Node],
}

use cmi5_course::{Mode, Reason};
use lrs_agents::Agent;
use lrs_json::{Items, Text, Tree};
use lrs_names::Iri;

/// What the body of a request gives.
#[derive(Drop)]
pub enum BodyValue {
    /// It isn't looked at.
    Nothing,
    /// A statement that isn't looked into.
    Statement(Tree),
    /// Statements that aren't looked into.
    Statements(Items<Tree>),
    /// Its bytes, with their media type.
    Document {
        media: Text,
        bytes: Items<u8>,
    },
    /// The strings of an object, in the order of the members that were asked for.
    Strings(Items<Text>),
    /// A course that isn't looked into.
    Course(Tree),
    /// The id of a course, who is enrolled in it, and the number of the edition, if it is named.
    Enrolment {
        course: Iri,
        actor: Agent,
        edition: Option<u32>,
    },
    /// The id of a unit that is launched, in which mode, and where its content sends the learner back to.
    Launch {
        unit: Iri,
        mode: Mode,
        return_url: Option<Iri>,
    },
    /// The id of a unit that is waived, and why.
    Waiver {
        unit: Iri,
        reason: Reason,
    },
    /// An object without members.
    Empty,
    /// For how many seconds the sessions that a sweep abandons have been idle.
    Sweep {
        idle: u32,
    },
}

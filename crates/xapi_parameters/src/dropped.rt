use lrs_agents::Ifi;
use lrs_json::Text;
use lrs_names::{Id, Iri};

/// The state documents that a deletion names.
#[derive(Drop)]
pub struct DroppedDocuments {
    pub activity: Iri,
    pub agent: Ifi,
    pub registration: Option<Id>,
    /// The one of this state id; all, where none is given.
    pub state: Option<Text>,
}

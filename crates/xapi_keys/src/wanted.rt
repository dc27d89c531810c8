use crate::StateKey;
use lrs_agents::Ifi;
use lrs_names::{Id, Iri};
use lrs_time::Instant;

/// Which state documents are asked for.
#[derive(Drop)]
pub enum WantedDocuments {
    /// The one of that key.
    One(StateKey),
    /// The state ids of those that were written later than that, where an instant is given.
    Ids {
        activity: Iri,
        agent: Ifi,
        registration: Option<Id>,
        since: Option<Instant>,
    },
}

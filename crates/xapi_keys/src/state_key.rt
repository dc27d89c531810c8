use lrs_agents::Ifi;
use lrs_json::{Memory, Text};
use lrs_names::{Id, Iri};

/// What a state document is kept under. Keys are ordered by their fields, in turn.
#[derive(PartialEq, Eq, PartialOrd, Ord, Drop)]
pub struct StateKey {
    /// The activity's id.
    pub activity: Iri,
    /// The identifier of an agent, or of a group.
    pub agent: Ifi,
    /// That there is none is a value of its own.
    pub registration: Option<Id>,
    /// The state id: any text.
    pub state: Text,
}

impl StateKey {
    ghost use Rattle.std.specs.Prelude.{◌≡◌, IfOk};

    /// A copy of its own.
    pub fn copy(&self) -> Result<StateKey, Memory>
        ensures { IfOk result (λ key. key ≡ self.now) }
    {
        Ok(StateKey {
            registration: self.registration,
            activity: self.activity.copy()?,
            state: self.state.clone()?,
            agent: self.agent.copy()?,
        })
    }
}

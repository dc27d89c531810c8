ghost use Rattle.std.specs.Prelude.{◌≡◌};
ghost use Rattle.xapi_keys.specs.Keys.{KeysAreTheirParts, is_of, is_state, same_registration};

use crate::StateKey;
use lrs_agents::Ifi;
use lrs_json::Text;
use lrs_names::{Id, Iri};

/// Whether it is a key of that activity, agent and registration.
pub fn is_of(key: &StateKey, activity: &Iri, agent: &Ifi, registration: &Option<Id>) -> bool
    ensures { result ≡ is_of activity.now agent.now registration.now key.now }
{
    *key.activity.text() == *activity.text()
        && key.agent.same(agent)
        && same_registration(&key.registration, registration)
}

fn same_registration(a: &Option<Id>, b: &Option<Id>) -> bool
    ensures { result ≡ same_registration a.now b.now }
{
    match (a, b) {
        (None, None) => true,
        (Some(a), Some(b)) => *a == *b,
        _ => false,
    }
}

/// Whether its state id is that one, where one is given.
pub fn is_state(key: &StateKey, state: &Option<Text>) -> bool
    ensures { result ≡ is_state state.now key.now }
{
    match state {
        Some(state) => key.state == *state,
        None => true,
    }
}

/// Two keys are the same exactly where each of their parts is.
pub fn law_of_keys()
    ensures { KeysAreTheirParts }
{}

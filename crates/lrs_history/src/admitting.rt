// Who is let in, and what is refused before a statement is looked at.
ghost use Rattle.std.specs.Prelude.{◌≡◌, true};
ghost use Rattle.std.specs.Option.{option_copied, option_map_or};
ghost use Rattle.std.specs.Str.{bytes_eq};
ghost use Rattle.lrs_history.specs.Refusals.{barred, refused_actor, refused_agent, refused_document, refused_edition};
ghost use Rattle.lrs_history.specs.Refusals.{refused_enrolment, refused_idle, refused_name, refused_with};
ghost use Rattle.lrs_history.specs.Sessions.{is_its_own, outside, over_state, overstepped};

use cmi5_course::Launch;
use cmi5_verdict::LAUNCH_DATA;
use lrs_agents::{Agent, Ifi};
use lrs_command::{Area, CONTENT_TOO_LARGE, NOT_FOUND, Who};
use lrs_json::Text;
use lrs_names::Id;
use lrs_replies::Refusal;
use lrs_rules::{LONGEST_IDLE, Rule, is_edition_number};
use lrs_state::{is_learner, is_name};

/// How many statements may come together.
pub const MOST_OF_BATCH: usize = 500;

/// How long the body of a state document may be, in bytes. A merged document may be longer.
pub const LONGEST_DOCUMENT: usize = 1_048_576;

/// How long the media type of a state document may be, in bytes.
pub const LONGEST_MEDIA: usize = 255;

/// Why a caller isn't let in.
pub fn barred(area: Area, who: Who) -> Option<Refusal>
    ensures { result ≡ barred area who }
{
    match area {
        Area::Free => None,
        Area::Store => match who {
            Who::Unknown => Some(Refusal::Unauthorized),
            Who::Admin | Who::Provider(_) | Who::Session(_) => None,
        },
        Area::Desk => match who {
            Who::Unknown => Some(Refusal::Unauthorized),
            Who::Admin => None,
            Who::Provider(_) | Who::Session(_) => Some(Refusal::Forbidden(Rule::A(2))),
        },
    }
}

/// What is told of a form that was refused with a status and a rule.
pub fn refused_with(status: u16, rule: Rule) -> Refusal
    ensures { result ≡ refused_with status rule }
{
    if status == NOT_FOUND {
        Refusal::NotFound
    } else if status == CONTENT_TOO_LARGE {
        Refusal::TooLong
    } else {
        Refusal::Broken(rule)
    }
}

/// Why no provider is made with a name.
pub fn refused_name(name: &Text) -> Option<Refusal>
    ensures { result ≡ refused_name name.now }
{
    if is_name(name) {
        return None;
    }
    Some(Refusal::Broken(Rule::B(2)))
}

/// Why a state document isn't looked at: its agent's identifier (P6), its media type (F4), its length.
pub fn refused_document(agent: &Ifi, media: &Text, bytes: &[u8]) -> Option<Refusal>
    ensures { result ≡ refused_document agent.now media.now bytes.now }
{
    if !agent.is_identifier() {
        return Some(Refusal::Broken(Rule::P(6)));
    }
    if media.as_bytes().len() > LONGEST_MEDIA {
        return Some(Refusal::Broken(Rule::F(4)));
    }
    if bytes.len() > LONGEST_DOCUMENT {
        return Some(Refusal::TooLong);
    }
    None
}

/// Why state documents aren't looked for: their agent's identifier (P6).
pub fn refused_agent(agent: &Ifi) -> Option<Refusal>
    ensures { result ≡ refused_agent agent.now }
{
    if agent.is_identifier() {
        return None;
    }
    Some(Refusal::Broken(Rule::P(6)))
}

/// Why nobody is enrolled so: the actor has no account (B3), or no edition can have that number (B10).
pub fn refused_enrolment(actor: &Agent, edition: Option<u32>) -> Option<Refusal>
    ensures { result ≡ refused_enrolment actor.now edition }
{
    match refused_actor(actor) {
        Some(refusal) => Some(refusal),
        None => refused_edition(edition),
    }
}

fn refused_actor(actor: &Agent) -> Option<Refusal>
    ensures { result ≡ refused_actor actor.now }
{
    if is_learner(actor) {
        return None;
    }
    Some(Refusal::Broken(Rule::B(3)))
}

fn refused_edition(edition: Option<u32>) -> Option<Refusal>
    ensures { result ≡ refused_edition edition }
{
    if is_edition_number(edition?) {
        return None;
    }
    Some(Refusal::Broken(Rule::B(10)))
}

/// Why nothing is swept that is idle for so many seconds (B6).
pub fn refused_idle(idle: u32) -> Option<Refusal>
    ensures { result ≡ refused_idle idle }
{
    if idle > LONGEST_IDLE {
        return Some(Refusal::Broken(Rule::B(6)));
    }
    None
}

/// Why a caller doesn't look at documents, if it is the session of that launch: they are another's (A3).
pub fn outside(launch: Option<&Launch>, agent: &Ifi, registration: &Option<Id>) -> Option<Refusal>
    ensures { result ≡ outside (option_copied launch.entry) agent.now registration.now }
{
    let Some(launch) = launch else {
        return None;
    };
    if is_its_own(launch, agent, registration) {
        return None;
    }
    Some(Refusal::Forbidden(Rule::A(3)))
}

fn is_its_own(launch: &Launch, agent: &Ifi, registration: &Option<Id>) -> bool
    ensures { result ≡ is_its_own launch.now agent.now registration.now }
{
    launch.actor.same(agent) && is_given(registration, &launch.registration)
}

// Whether it is that registration, if one is given.
fn is_given(registration: &Option<Id>, own: &Id) -> bool
    ensures { result ≡ option_map_or (λ given. bytes_eq given own.now) registration.now true }
{
    match registration {
        Some(given) => *given == *own,
        None => true,
    }
}

/// Why a caller doesn't write, or drop, the documents of that state, if it is the session of that launch: they are
/// another's (A3), or what its launch wrote (A4), or all at once (A5).
pub fn overstepped(
    launch: Option<&Launch>,
    agent: &Ifi,
    registration: &Option<Id>,
    state: Option<&Text>,
) -> Option<Refusal>
    ensures { result ≡ overstepped (option_copied launch.entry) agent.now registration.now (option_copied state.entry) }
{
    let Some(launch) = launch else {
        return None;
    };
    if is_its_own(launch, agent, registration) {
        return over_state(state);
    }
    Some(Refusal::Forbidden(Rule::A(3)))
}

// Why a session doesn't write, or drop, that state of its own documents.
fn over_state(state: Option<&Text>) -> Option<Refusal>
    ensures { result ≡ over_state (option_copied state.entry) }
{
    match state {
        Some(state) => {
            if state.as_str() == LAUNCH_DATA {
                return Some(Refusal::Forbidden(Rule::A(4)));
            }
            None
        }
        None => Some(Refusal::Forbidden(Rule::A(5))),
    }
}

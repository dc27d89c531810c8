// Who a caller is, which launch a session has, and what a caller does with documents.
ghost use Rattle.std.specs.Prelude.{◌≡◌, None};
ghost use Rattle.std.specs.Option.{option_copied};
ghost use Rattle.lrs_made.specs.LrsHistoryRefusals.{barred_document};
ghost use Rattle.lrs_made.specs.LrsHistoryWhose.{known_as, launch_of, who_is, who_presents};
ghost use Rattle.lrs_made.specs.LrsStateLaunches.{launch_of_token};
ghost use Rattle.lrs_made.specs.LrsPartsParts.{state_of};
ghost use Rattle.lrs_refusals.specs.Meeting.{was_abandoned};

use cmi5_course::Launch;
use lrs_command::Who;
use lrs_json::Text;
use lrs_made::{Parts, is_admin, overstepped};
use lrs_record::{Caller, Write};
use lrs_replies::Refusal;

/// What the entries so far make of a caller.
pub fn who_is(parts: &Parts, caller: &Caller) -> Who
    ensures { result ≡ who_is (state_of parts.now) caller.now }
{
    match caller {
        Caller::Nobody => Who::Unknown,
        Caller::Operator => Who::Admin,
        Caller::Token(token) => who_presents(parts, token),
    }
}

fn who_presents(parts: &Parts, token: &Text) -> Who
    ensures { result ≡ who_presents (state_of parts.now) token.now }
{
    if is_admin(&parts.founding, token) {
        return Who::Admin;
    }
    known_as(parts, parts.providers.index_of(token), token)
}

// The provider of that index, or the session that a token opens.
fn known_as(parts: &Parts, provider: Option<u32>, token: &Text) -> Who
    ensures { result ≡ known_as provider (launch_of_token token.now (state_of parts.now).tokens) }
{
    match provider {
        Some(provider) => Who::Provider(provider),
        None => session_with(parts, token),
    }
}

// The session that a token opens, if it opens one.
fn session_with(parts: &Parts, token: &Text) -> Who
    ensures { result ≡ known_as None (launch_of_token token.now (state_of parts.now).tokens) }
{
    match launch_of_token(parts, token) {
        Some(launch) => Who::Session(launch),
        None => Who::Unknown,
    }
}

// The number of the launch whose session a token opens.
fn launch_of_token(parts: &Parts, token: &Text) -> Option<u32>
    ensures { result ≡ launch_of_token token.now (state_of parts.now).tokens }
{
    match parts.learning.tokens.find(token) {
        Some(held) => Some(held.launch),
        None => None,
    }
}

/// The launch of a caller who is a session.
pub fn launch_of(parts: &Parts, who: Who) -> Option<&Launch>
    ensures { option_copied result ≡ launch_of (state_of parts.now) who }
{
    match who {
        Who::Session(number) => parts.learning.launches.get(number),
        Who::Unknown | Who::Admin | Who::Provider(_) => None,
    }
}

/// Whether a caller is a session that was abandoned.
pub(crate) fn was_abandoned(parts: &Parts, who: Who) -> bool
    ensures { result ≡ was_abandoned (state_of parts.now) who }
{
    match who {
        Who::Session(number) => parts.learning.sessions.is_abandoned(number),
        Who::Unknown | Who::Admin | Who::Provider(_) => false,
    }
}

/// Why a caller doesn't do that to documents.
pub(crate) fn barred_document(parts: &Parts, who: Who, write: &Write) -> Option<Refusal>
    ensures { result ≡ barred_document (state_of parts.now) who write.now }
{
    let launch = launch_of(parts, who);
    match write {
        Write::State { key, .. } => overstepped(
            launch,
            &key.agent,
            &key.registration,
            Some(&key.state),
        ),
        Write::Drop {
            agent,
            registration,
            state,
            ..
        } => overstepped(launch, agent, registration, state.as_ref()),
        _ => None,
    }
}

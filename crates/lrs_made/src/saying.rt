// A statement that the store makes, of a registration's learner.
ghost use Rattle.std.specs.Prelude.{◌≡◌, IfOk};
ghost use Rattle.lrs_history.specs.Cmi5LaunchMade.{said, saying_json};
ghost use Rattle.lrs_json.specs.View.{view};

use cmi5_launch::{Made, made_statement};
use lrs_json::Memory;
use lrs_names::{Id, Iri};
use lrs_parts::HeldRegistration;
use std::alloc::Global;
use xapi_statement::Statement;

/// The statement of that kind, on that Activity, to which its publisher gave the other id, in that session.
pub fn statement_of(
    alloc: Global,
    made: &Made<'_>,
    registration: &HeldRegistration,
    activity: &Iri,
    publisher: &Iri,
    session: &Id,
) -> Result<Statement, Memory>
    ensures { IfOk result (λ s. view s.tree
        ≡ saying_json (said made.now) registration.now.actor activity.now publisher.now registration.now.id
        session.now) }
{
    made_statement(
        alloc,
        made,
        registration.actor.agent(),
        activity,
        publisher,
        &registration.id,
        session,
    )
}

// Waivers: whether a unit is waived, and the statement that says so.
ghost use Rattle.std.specs.Prelude.{◌≡◌, IfOk};
ghost use Rattle.lrs_history.specs.DeskEffects.{is_waived};
ghost use Rattle.lrs_history.specs.Made.{waived_json};
ghost use Rattle.lrs_json.specs.View.{view};
ghost use Rattle.lrs_made.specs.Lent.{IsTargetOf, seen_target};
ghost use Rattle.lrs_parts.specs.Parts.{state_of};

use crate::enrolments::LentEnrolled;
use crate::saying::statement_of;
use crate::targets::LentTarget;
use cmi5_course::Reason;
use cmi5_launch::Made;
use lrs_json::Memory;
use lrs_names::Id;
use lrs_parts::Parts;
use std::alloc::Global;
use xapi_statement::Statement;

/// Whether the unit is waived: a statement stands that says so.
pub fn is_waived(alloc: Global, parts: &Parts, target: &LentTarget<'_>) -> Result<bool, Memory>
    requires { IsTargetOf (state_of parts.now) target.now }
    ensures { IfOk result (λ waived. waived ≡ is_waived (state_of parts.now) (seen_target target.now)) }
{
    let enrolled = LentEnrolled {
        base: target.base,
        registration: target.registration,
        edition: target.edition,
    };
    parts.is_waived(
        alloc,
        target.registration,
        &enrolled.enrolment(),
        target.index,
    )
}

/// The statement that the unit was waived, in that session (cmi5 Quartz, section 9.3.7).
pub fn waived_statement(
    alloc: Global,
    target: &LentTarget<'_>,
    reason: Reason,
    session: &Id,
) -> Result<Statement, Memory>
    ensures { IfOk result (λ s. view s.tree ≡ waived_json (seen_target target.now) reason session.now) }
{
    let made = Made::Waived {
        reason,
        unit: target.unit,
    };
    let activity = target.activity(alloc)?;
    statement_of(
        alloc,
        &made,
        target.registration,
        &activity,
        target.publisher,
        session,
    )
}

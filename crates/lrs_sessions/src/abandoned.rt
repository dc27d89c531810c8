// What the store says of sessions that it abandons (cmi5 Quartz, section 9.3.6).
ghost use Rattle.std.specs.Prelude.{◌≡◌, ◌∷◌, ◌++◌, [], IfOk, OnOk};
ghost use Rattle.lrs_made.specs.LrsHistoryEndings.{abandoned_at, abandoned_from, abandoned_json, abandoned_jsons};
ghost use Rattle.lrs_made.specs.LrsHistoryEndings.{abandoned_of, lasted};
ghost use Rattle.lrs_json.specs.View.{view};
ghost use Rattle.lrs_made.specs.Lent.{seen_target};
ghost use Rattle.lrs_made.specs.Said.{json_given, jsons_of};
ghost use Rattle.lrs_made.specs.LrsPartsParts.{state_of};

use cmi5_course::Launch;
use lrs_json::Memory;
use lrs_made::{LentTarget, Made, Parts, statement_of, target};
use lrs_names::Id;
use lrs_time::Moment;
use std::alloc::Global;
use xapi_statement::Statement;

/// What is said of the sessions of the launches of these numbers: nothing of one that never began.
pub fn abandoned_statements(
    alloc: Global,
    parts: &Parts,
    numbers: &[u32],
) -> Result<Vec<Statement>, Memory>
    ensures { IfOk result (λ said. jsons_of said.items ≡ abandoned_jsons (state_of parts.now) numbers.now) }
{
    let mut said = Vec::new(alloc);
    for number in numbers {
        push_abandoned(alloc, parts, *number, &mut said)?;
    }
    Ok(said)
}

fn push_abandoned(
    alloc: Global,
    parts: &Parts,
    number: u32,
    said: &mut Vec<Statement>,
) -> Result<(), Memory>
    ensures { OnOk result (jsons_of said.new.items
        ≡ jsons_of said.old.items ++ abandoned_jsons (state_of parts.now) (number ∷ [])) }
{
    let made = abandoned_at(alloc, parts, number)?;
    match made {
        Some(statement) => push_said(said, statement),
        None => Ok(()),
    }
}

fn push_said(said: &mut Vec<Statement>, statement: Statement) -> Result<(), Memory>
    ensures { OnOk result (jsons_of said.new.items ≡ jsons_of said.old.items ++ view statement.tree ∷ []) }
{
    Ok(said.push(statement)?)
}

fn abandoned_at(alloc: Global, parts: &Parts, number: u32) -> Result<Option<Statement>, Memory>
    ensures { IfOk result (λ said. json_given said ≡ abandoned_at (state_of parts.now) number) }
{
    let Some(launch) = parts.learning.launches.get(number) else {
        return Ok(None);
    };
    abandoned_of(alloc, parts, launch)
}

fn abandoned_of(alloc: Global, parts: &Parts, launch: &Launch) -> Result<Option<Statement>, Memory>
    ensures { IfOk result (λ said. json_given said ≡ abandoned_of (state_of parts.now) launch.now) }
{
    match parts.began_at(&launch.session) {
        Some(began) => abandoned_from(alloc, parts, launch, began),
        None => Ok(None),
    }
}

// The same of a session that began then.
fn abandoned_from(
    alloc: Global,
    parts: &Parts,
    launch: &Launch,
    began: Moment,
) -> Result<Option<Statement>, Memory>
    ensures { IfOk result (λ said. json_given said ≡ abandoned_from (state_of parts.now) launch.now began) }
{
    let Some(found) = target(parts, &launch.registration, &launch.publisher) else {
        return Ok(None);
    };
    let ms = lasted(parts, &launch.session, began);
    Ok(Some(abandoned_statement(alloc, &found, launch, ms)?))
}

// The same of one that lasted so many milliseconds.
fn abandoned_statement(
    alloc: Global,
    target: &LentTarget<'_>,
    launch: &Launch,
    ms: u64,
) -> Result<Statement, Memory>
    ensures { IfOk result (λ said. view said.tree ≡ abandoned_json launch.now (seen_target target.now) ms) }
{
    let made = Made::Abandoned {
        ms,
        unit: target.unit,
    };
    let activity = target.activity(alloc)?;
    statement_of(
        alloc,
        &made,
        target.registration,
        &activity,
        target.publisher,
        &launch.session,
    )
}

// How many milliseconds a session lasted that began then: to the last statement of its own.
fn lasted(parts: &Parts, session: &Id, began: Moment) -> u64
    ensures { result ≡ lasted session.now parts.now.statements.held began }
{
    let last = parts.last_own(session, began);
    last.milliseconds().saturating_sub(began.milliseconds())
}

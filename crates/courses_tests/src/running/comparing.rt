// What is kept, held against what all statements tell.
use crate::running::plain::{Told, told_of};
use crate::running::setting::Setting;
use crate::running::store::Store;
use cmi5_running_verdicts::Running;
use cmi5_session::Launch;
use cmi5_verdict::{Enrolment, Statements, owed, verdicts, waived};
use lrs_names::Id;
use lrs_time::Moment;
use std::alloc::Global;
use std::test::Fail;
use xapi_statement::StoredStatement;

// How many nodes the course has.
const NODES: u32 = 3;

/// Whether all is told as the statements tell it.
pub(crate) fn tell_same(alloc: Global, setting: &Setting, store: &Store) -> Result<bool, Fail> {
    if !sessions_tell_same(alloc, setting, store)? {
        return Ok(false);
    }
    let statements = Statements {
        held: &store.statements,
        new: &[],
    };
    for number in 0..store.enrolled {
        let enrolment = setting.enrolment(number);
        if !tells_same(alloc, &store.running, number, &statements, &enrolment)? {
            return Ok(false);
        }
    }
    owe_same(alloc, setting, store, &[])
}

// ---- sessions

fn sessions_tell_same(alloc: Global, setting: &Setting, store: &Store) -> Result<bool, Fail> {
    for launch in setting.launches.as_slice() {
        if !has_same_view(alloc, launch, store)? {
            return Ok(false);
        }
    }
    Ok(true)
}

fn has_same_view(alloc: Global, launch: &Launch, store: &Store) -> Result<bool, Fail> {
    let told = told_of(alloc, &store.statements, launch)?;
    Ok(is_viewed_as(launch, store, &told) && has_same_past(&launch.session, store, &told))
}

fn is_viewed_as(launch: &Launch, store: &Store, told: &Told) -> bool {
    let kept = store.sessions.view(launch, true, false);
    kept.phase == told.phase() && kept.completed == told.completed && kept.passed == told.passed
}

fn has_same_past(session: &Id, store: &Store, told: &Told) -> bool {
    let first = Moment::clamp(0);
    let began = store
        .sessions
        .began_at(session)
        .map(|moment| moment.milliseconds());
    let last = store.sessions.last_own(session, first).milliseconds();
    store.sessions.has_ended(session) == told.ended
        && began == told.began
        && last == told.last.unwrap_or(0)
}

// ---- registrations

fn tells_same(
    alloc: Global,
    running: &Running,
    number: u32,
    statements: &Statements<'_>,
    enrolment: &Enrolment<'_>,
) -> Result<bool, Fail> {
    let kept = running.verdicts(alloc, number)?;
    let told = verdicts(alloc, statements, enrolment)?;
    let same = kept.as_slice() == told.as_slice();
    Ok(
        same && is_satisfied_alike(running, number, told.as_slice())
            && is_waived_alike(alloc, running, number, statements, enrolment)?,
    )
}

fn is_satisfied_alike(running: &Running, number: u32, told: &[bool]) -> bool {
    let mut index = 0u32;
    for verdict in told {
        if running.is_satisfied(number, index) != *verdict {
            return false;
        }
        index = index.wrapping_add(1);
    }
    true
}

fn is_waived_alike(
    alloc: Global,
    running: &Running,
    number: u32,
    statements: &Statements<'_>,
    enrolment: &Enrolment<'_>,
) -> Result<bool, Fail> {
    for index in 0..NODES {
        if running.is_waived(number, index) != waived(alloc, statements, enrolment, index)? {
            return Ok(false);
        }
    }
    Ok(true)
}

/// Whether the same nodes are told as by the statements, of which it is to be said behind these new ones that they are
/// satisfied.
pub(crate) fn owe_same(
    alloc: Global,
    setting: &Setting,
    store: &Store,
    new: &[StoredStatement],
) -> Result<bool, Fail> {
    let statements = Statements {
        held: &store.statements,
        new,
    };
    for number in 0..store.enrolled {
        let enrolment = setting.enrolment(number);
        if !owes_same(alloc, &store.running, number, &statements, &enrolment)? {
            return Ok(false);
        }
    }
    Ok(true)
}

fn owes_same(
    alloc: Global,
    running: &Running,
    number: u32,
    statements: &Statements<'_>,
    enrolment: &Enrolment<'_>,
) -> Result<bool, Fail> {
    let kept = running.owed(alloc, number, statements, enrolment)?;
    let told = owed(alloc, statements, enrolment)?;
    Ok(kept.as_slice() == told.as_slice())
}

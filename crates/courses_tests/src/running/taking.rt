// A store, as it is written from one statement to the next.
ghost use Rattle.std.specs.Prelude.{OnOk};
ghost use Rattle.cmi5_running_sessions.specs.Room.{HasSlotsFor};
ghost use Rattle.cmi5_running_verdicts.specs.Holding.{StandBehindHolders};

use crate::given::no_texts;
use crate::running::comparing::owe_same;
use crate::running::said::stored;
use crate::running::setting::Setting;
use crate::running::store::Store;
use cmi5_running_sessions::Sessions;
use cmi5_running_verdicts::Running;
use cmi5_verdict::{Enrolment, Statements};
use lrs_json::Memory;
use lrs_names::Id;
use std::alloc::Global;
use std::slice::from_ref;
use std::test::Fail;
use xapi_index::Index;
use xapi_statement::{HeldStatement, StoredStatement};

/// What a word tells happens: `enrolment`, or a statement comes.
pub(crate) fn happen(
    alloc: Global,
    setting: &Setting,
    store: &mut Store,
    word: &str,
) -> Result<(), Fail> {
    if word == "enrolment" {
        enrol_next(setting, store)
    } else {
        say(alloc, setting, store, word)
    }
}

// ---- registrations

fn enrol_next(setting: &Setting, store: &mut Store) -> Result<(), Fail> {
    let enrolment = setting.enrolment(store.enrolled);
    let enrolled = enrol(&store.statements, &enrolment, &mut store.running);
    store.enrolled = store.enrolled.wrapping_add(1);
    enrolled
}

fn enrol(statements: &Index, enrolment: &Enrolment<'_>, running: &mut Running) -> Result<(), Fail>
    requires { StandBehindHolders enrolment.now.nodes.now }
{
    running.ready(statements, Some(enrolment))?;
    running.enrol();
    Ok(())
}

// ---- statements

fn say(alloc: Global, setting: &Setting, store: &mut Store, word: &str) -> Result<(), Fail> {
    let coming = alone(alloc, store, word)?;
    take_each(alloc, setting, store, coming.as_slice())?;
    hold(alloc, &mut store.statements, coming.as_slice())
}

// The statement of a word, under the next number.
fn alone(alloc: Global, store: &Store, word: &str) -> Result<Vec<StoredStatement>, Fail> {
    let held = store.statements.len() as u64;
    let mut one = Vec::new(alloc);
    one.push(stored(alloc, word, held.wrapping_add(1))?)?;
    Ok(one)
}

#[tactic(auto, using(xapi_index::proofs::Texts::texts_none))]
fn hold(alloc: Global, statements: &mut Index, coming: &[StoredStatement]) -> Result<(), Fail> {
    let mut texts = no_texts(alloc);
    statements.ready(&mut texts, coming)?;
    statements.install(coming);
    Ok(())
}

fn take_each(
    alloc: Global,
    setting: &Setting,
    store: &mut Store,
    coming: &[StoredStatement],
) -> Result<(), Fail> {
    if !owe_same(alloc, setting, store, coming)? {
        return Err(Fail::from("before it stands, it owes something else"));
    }
    for statement in coming {
        take(alloc, setting, store, statement)?;
    }
    Ok(())
}

fn take(
    alloc: Global,
    setting: &Setting,
    store: &mut Store,
    statement: &StoredStatement,
) -> Result<(), Fail> {
    let voided = is_voided(&store.statements, statement);
    void_target(alloc, setting, store, statement)?;
    take_into_sessions(&mut store.sessions, statement, voided)?;
    take_into_running(
        setting,
        store.enrolled,
        statement,
        voided,
        &mut store.running,
    );
    Ok(())
}

// Whether one that is held voids the one that comes.
fn is_voided(held: &Index, coming: &StoredStatement) -> bool {
    let statements = Statements { held, new: &[] };
    statements.is_voided(coming)
}

fn take_into_sessions(
    sessions: &mut Sessions,
    statement: &StoredStatement,
    voided: bool,
) -> Result<(), Fail> {
    make_slots(sessions, statement)?;
    sessions.install(statement, voided);
    Ok(())
}

fn make_slots(sessions: &mut Sessions, statement: &StoredStatement) -> Result<(), Memory>
    ensures { OnOk result (HasSlotsFor sessions.new statement.now) }
{
    sessions.ready(from_ref(statement))
}

fn take_into_running(
    setting: &Setting,
    enrolled: u32,
    statement: &StoredStatement,
    voided: bool,
    running: &mut Running,
) {
    for number in 0..enrolled {
        let enrolment = setting.enrolment(number);
        running.install(number, &enrolment, statement, voided);
    }
}

// ---- voiding

fn void_target(
    alloc: Global,
    setting: &Setting,
    store: &mut Store,
    statement: &StoredStatement,
) -> Result<(), Fail> {
    if !statement.is_voiding() {
        return Ok(());
    }
    match statement.target() {
        Some(id) => void_under(alloc, setting, store, &id),
        None => Ok(()),
    }
}

// The statement of that id is voided, if it is held and stands.
fn void_under(alloc: Global, setting: &Setting, store: &mut Store, id: &Id) -> Result<(), Fail> {
    if let Some(held) = store.statements.find(id) {
        if stands(&store.statements, held) {
            let target = held.whole(alloc)?;
            store.sessions.void(&target);
            void_in_running(setting, store.enrolled, &target, &mut store.running);
            drop(target);
        }
    }
    Ok(())
}

fn stands(statements: &Index, held: &HeldStatement) -> bool {
    !held.is_voiding() && !statements.is_voided(held)
}

fn void_in_running(
    setting: &Setting,
    enrolled: u32,
    target: &StoredStatement,
    running: &mut Running,
) {
    for number in 0..enrolled {
        let enrolment = setting.enrolment(number);
        running.void(number, &enrolment, target);
    }
}

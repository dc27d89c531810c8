// What is told behind each line of a text: a word for what happens, and after `=>` what is told of the session `first`
// and of the first registration.
//
//   WORD => TOLD
//
// The word is `enrolment`, by which the next registration is held, or one of those of `said`. A text begins with an
// enrolment. What is told is the phase of the session, by its first letter, with `c` and `p` where the unit was
// completed and passed in its registration; then `+` or `-` for each node, satisfied or not; then the numbers of those
// of which that is still to be said. That is told by what is kept. A line also fails if the statements tell something
// else, of whichever session or registration. A line that begins with `//` is a comment.
use crate::running::comparing::tell_same;
use crate::running::setting::Setting;
use crate::running::store::Store;
use crate::running::taking::happen;
use cmi5_session::Phase;
use cmi5_verdict::Statements;
use std::alloc::Global;
use std::test::Fail;

/// Fails with the first line behind which something else is told, and that.
pub(crate) fn check_rows(alloc: Global, rows: &str) -> Result<(), Fail> {
    let setting = Setting::new(alloc)?;
    let checked = check_in(alloc, &setting, rows);
    drop(setting);
    checked
}

fn check_in(alloc: Global, setting: &Setting, rows: &str) -> Result<(), Fail> {
    let mut store = Store::new(alloc);
    let checked = check_each(alloc, setting, &mut store, rows);
    drop(store);
    checked
}

fn check_each(alloc: Global, setting: &Setting, store: &mut Store, rows: &str) -> Result<(), Fail> {
    for row in rows.lines() {
        if !row.is_empty() && !row.starts_with("//") {
            check_row(alloc, setting, store, row)?;
        }
    }
    Ok(())
}

fn check_row(alloc: Global, setting: &Setting, store: &mut Store, row: &str) -> Result<(), Fail> {
    let (word, expected) = row.split_once(" => ").ok_or("nothing is told")?;
    happen(alloc, setting, store, word)?;
    let found = told(alloc, setting, store)?;
    if found.as_str() == expected {
        Ok(())
    } else {
        Err(Fail::from(format!(in alloc; "{word} => {found}")?))
    }
}

fn told(alloc: Global, setting: &Setting, store: &Store) -> Result<String, Fail> {
    if !tell_same(alloc, setting, store)? {
        return Ok(String::from_str(alloc, "not what the statements tell")?);
    }
    let mut told = String::new(alloc);
    put_session(setting, store, &mut told)?;
    put_verdicts(alloc, store, &mut told)?;
    put_owed(alloc, setting, store, &mut told)?;
    Ok(told)
}

fn put_session(setting: &Setting, store: &Store, told: &mut String) -> Result<(), Fail> {
    let launch = setting.launches.as_slice().first().ok_or("no launch")?;
    let session = store.sessions.view(launch, true, false);
    let phase = letter(session.phase);
    let completed = if session.completed { "c" } else { "" };
    let passed = if session.passed { "p" } else { "" };
    write!(told, "{phase}{completed}{passed} ")?;
    Ok(())
}

fn letter(phase: Phase) -> &'static str {
    match phase {
        Phase::Launched => "L",
        Phase::Fetched => "F",
        Phase::Initialized => "I",
        Phase::Terminated => "T",
        Phase::Abandoned => "A",
    }
}

fn put_verdicts(alloc: Global, store: &Store, told: &mut String) -> Result<(), Fail> {
    let each = store.running.verdicts(alloc, 0)?;
    for verdict in each.as_slice() {
        told.push_str(if *verdict { "+" } else { "-" })?;
    }
    Ok(())
}

fn put_owed(
    alloc: Global,
    setting: &Setting,
    store: &Store,
    told: &mut String,
) -> Result<(), Fail> {
    let statements = Statements {
        held: &store.statements,
        new: &[],
    };
    let enrolment = setting.enrolment(0);
    let indices = store.running.owed(alloc, 0, &statements, &enrolment)?;
    for index in indices.as_slice() {
        write!(told, " {index}")?;
    }
    Ok(())
}

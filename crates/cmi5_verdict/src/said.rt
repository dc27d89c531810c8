// What the statements say of the nodes of a course. Each statement of the registration is looked at once.
ghost use Rattle.std.specs.Prelude.{◌≡◌, ◌<◌, ◌+◌, ◌^◌, ◌==◌, ◌&&◌, ◌||◌, ℕ, IfOk, if◌then◌else◌, length, map, not};
ghost use Rattle.std.specs.Prelude.{replicate, slice_get, slice_set, OnOk};
ghost use Rattle.std.specs.Option.{option_map_or};
ghost use Rattle.std.specs.Str.{bytes_eq};
ghost use Rattle.cmi5_verdict.specs.Nodes.{indices, seen};
ghost use Rattle.cmi5_verdict.specs.Said.{either, meets, said_among, said_by, said_in, said_of};
ghost use Rattle.cmi5_verdict.specs.Said.{said_with, unsaid};
ghost use Rattle.cmi5_verdict.specs.Statements.{all_of};
ghost use Rattle.cmi5_verdict.specs.Units.{moves_on};
ghost use Rattle.lrs_json.specs.View.{view};
ghost use Rattle.cmi5_session.specs.XapiStatementStatements.{is_voided};
ghost use Rattle.cmi5_session.specs.XapiStatementStatement.{verb_of};
ghost use Rattle.xapi_index.specs.Index.{statements_at};

use crate::names::index_meant;
use crate::{Enrolment, Statements};
use cmi5_course::MoveOn;
use cmi5_session::{COMPLETED, HeldStatement, PASSED, SATISFIED, StoredStatement, WAIVED, verb_of};
use lrs_json::Memory;
use std::alloc::Global;
use xapi_index::Key;

/// What was said of a node. A voided statement tells only that the node is satisfied.
#[derive(Clone, Copy)]
pub struct Said {
    pub waived: bool,
    pub completed: bool,
    pub passed: bool,
    pub satisfied: bool,
}

impl Said {
    fn nothing() -> Said
        ensures { result ≡ unsaid }
    {
        Said {
            waived: false,
            completed: false,
            passed: false,
            satisfied: false,
        }
    }

    // What one or the other says.
    fn joined(self, other: Said) -> Said
        ensures { result ≡ either self other }
    {
        Said {
            waived: one_holds(self.waived, other.waived),
            completed: one_holds(self.completed, other.completed),
            passed: one_holds(self.passed, other.passed),
            satisfied: one_holds(self.satisfied, other.satisfied),
        }
    }

    /// Whether a unit that asks for this is met.
    pub fn meets(self, asked: MoveOn) -> bool
        ensures { result ≡ meets asked self }
    {
        self.waived || moves_on(asked, self.completed, self.passed)
    }
}

fn one_holds(a: bool, b: bool) -> bool
    ensures { result ≡ a || b }
{
    a || b
}

// What a unit asks for, by whether it was completed and whether it was passed.
fn moves_on(asked: MoveOn, completed: bool, passed: bool) -> bool
    ensures { result ≡ moves_on asked completed passed }
{
    match asked {
        MoveOn::NotApplicable => true,
        MoveOn::Passed => passed,
        MoveOn::Completed => completed,
        MoveOn::CompletedAndPassed => completed && passed,
        MoveOn::CompletedOrPassed => completed || passed,
    }
}

// ---- of all nodes, or of one

/// What the statements say of each node, in the order of the text.
pub(crate) fn said_of_each(
    alloc: Global,
    statements: &Statements<'_>,
    enrolment: &Enrolment<'_>,
) -> Result<Vec<Said>, Memory>
    ensures { IfOk result (λ said. said.items ≡ map (said_in (seen enrolment.now) (all_of statements.now))
        (indices enrolment.now.nodes.now)) }
{
    let mut said = nothing_of_each(alloc, enrolment.nodes.len())?;
    note_all(alloc, statements, enrolment, 0, said.as_mut_slice())?;
    Ok(said)
}

fn nothing_of_each(alloc: Global, count: usize) -> Result<Vec<Said>, Memory>
    ensures { IfOk result (λ said. said.items ≡ replicate count unsaid) }
{
    Ok(vec![in alloc; Said::nothing(); count]?)
}

/// What the statements say of the node of that number.
pub(crate) fn said_at(
    alloc: Global,
    statements: &Statements<'_>,
    enrolment: &Enrolment<'_>,
    index: usize,
) -> Result<Said, Memory>
    ensures { IfOk result (λ said. said ≡ said_in (seen enrolment.now) (all_of statements.now) index) }
{
    let mut said = [Said::nothing()];
    note_all(alloc, statements, enrolment, index, &mut said)?;
    Ok(said_of(&said, 0))
}

/// What was said of the node of that number.
pub(crate) fn said_of(said: &[Said], index: usize) -> Said
    ensures { result ≡ said_of said.now index }
{
    match said.get(index) {
        Some(told) => *told,
        None => Said::nothing(),
    }
}

/// Adds to what was said of each node what the new statements say.
pub fn add_new(statements: &Statements<'_>, enrolment: &Enrolment<'_>, said: &mut [Said])
    ensures long { length said.new ≡ length said.old }
    ensures added { (k : ℕ) → k < length said.old → k < 2 ^ 64 → said_of said.new k
        ≡ either (said_of said.old k)
        (said_among (seen enrolment.now) (all_of statements.now) k statements.now.new.now) }
{
    note_each(statements, enrolment, statements.new, 0, said);
}

// ---- statement by statement

// Adds what all of them say of the nodes from the first one on.
fn note_all(
    alloc: Global,
    statements: &Statements<'_>,
    enrolment: &Enrolment<'_>,
    first: usize,
    said: &mut [Said],
) -> Result<(), Memory>
    ensures long { length said.new ≡ length said.old }
    ensures noted { OnOk result ((k : ℕ) → k < length said.old → first + k < 2 ^ 64 → said_of said.new k
        ≡ either (said_of said.old k) (said_in (seen enrolment.now) (all_of statements.now) (first + k))) }
{
    note_held(alloc, statements, enrolment, first, said)?;
    note_each(statements, enrolment, statements.new, first, said);
    Ok(())
}

// Adds what those say that are held. Only those of the registration say something.
fn note_held(
    alloc: Global,
    statements: &Statements<'_>,
    enrolment: &Enrolment<'_>,
    first: usize,
    said: &mut [Said],
) -> Result<(), Memory>
    ensures long { length said.new ≡ length said.old }
    ensures noted { OnOk result ((k : ℕ) → k < length said.old → first + k < 2 ^ 64 → said_of said.new k
        ≡ either (said_of said.old k)
        (said_among (seen enrolment.now) (all_of statements.now) (first + k) statements.now.held.now.held)) }
{
    let key = Key::Registration(*enrolment.registration);
    let positions = statements.held.posting(&key);
    drop(key);
    note_positions(alloc, statements, enrolment, positions, first, said)
}

// Adds what those say that are held at these positions.
fn note_positions(
    alloc: Global,
    statements: &Statements<'_>,
    enrolment: &Enrolment<'_>,
    positions: &[u32],
    first: usize,
    said: &mut [Said],
) -> Result<(), Memory>
    ensures long { length said.new ≡ length said.old }
    ensures noted { OnOk result ((k : ℕ) → k < length said.old → first + k < 2 ^ 64 → said_of said.new k
        ≡ either (said_of said.old k) (said_among (seen enrolment.now) (all_of statements.now) (first + k)
        (statements_at statements.now.held.now.held positions.now))) }
{
    for position in positions {
        note_at(
            alloc,
            statements,
            enrolment,
            *position as usize,
            first,
            said,
        )?;
    }
    Ok(())
}

fn note_at(
    alloc: Global,
    statements: &Statements<'_>,
    enrolment: &Enrolment<'_>,
    at: usize,
    first: usize,
    said: &mut [Said],
) -> Result<(), Memory>
    ensures long { length said.new ≡ length said.old }
    ensures noted { OnOk result ((k : ℕ) → k < length said.old → first + k < 2 ^ 64 → said_of said.new k
        ≡ either (said_of said.old k) (option_map_or
        (said_by (seen enrolment.now) (all_of statements.now) (first + k))
        (slice_get statements.now.held.now.held at) unsaid)) }
{
    match statements.held.get(at) {
        Some(held) => note_whole(alloc, statements, enrolment, held, first, said),
        None => Ok(()),
    }
}

// Adds what one says that is held: its tree is read, and dropped again.
fn note_whole(
    alloc: Global,
    statements: &Statements<'_>,
    enrolment: &Enrolment<'_>,
    held: &HeldStatement,
    first: usize,
    said: &mut [Said],
) -> Result<(), Memory>
    ensures long { length said.new ≡ length said.old }
    ensures noted { OnOk result ((k : ℕ) → k < length said.old → first + k < 2 ^ 64 → said_of said.new k
        ≡ either (said_of said.old k)
        (said_by (seen enrolment.now) (all_of statements.now) (first + k) held.now)) }
{
    let statement = held.whole(alloc)?;
    note(statements, enrolment, &statement, first, said);
    drop(statement);
    Ok(())
}

// Adds what these say.
fn note_each(
    statements: &Statements<'_>,
    enrolment: &Enrolment<'_>,
    those: &[StoredStatement],
    first: usize,
    said: &mut [Said],
)
    ensures long { length said.new ≡ length said.old }
    ensures noted { (k : ℕ) → k < length said.old → first + k < 2 ^ 64 → said_of said.new k
        ≡ either (said_of said.old k)
        (said_among (seen enrolment.now) (all_of statements.now) (first + k) those.now) }
{
    for statement in those {
        note(statements, enrolment, statement, first, said);
    }
}

// Adds what a statement says, if it is about one of the nodes.
fn note(
    statements: &Statements<'_>,
    enrolment: &Enrolment<'_>,
    statement: &StoredStatement,
    first: usize,
    said: &mut [Said],
)
    ensures long { length said.new ≡ length said.old }
    ensures noted { (k : ℕ) → k < length said.old → first + k < 2 ^ 64 → said_of said.new k
        ≡ either (said_of said.old k)
        (said_by (seen enrolment.now) (all_of statements.now) (first + k) statement.now) }
{
    if let Some(index) = index_meant(enrolment, statement) {
        add(said, first, index, told_by(statements, statement));
    }
}

// Adds what is said of the node of that number, if it isn't before the first.
fn add(said: &mut [Said], first: usize, index: usize, more: Said)
    ensures long { length said.new ≡ length said.old }
    ensures added { (k : ℕ) → k < length said.old → said_of said.new k
        ≡ either (said_of said.old k) (if index == (first + k) then more else unsaid) }
{
    if index < first {
        return;
    }
    add_at(said, index - first, more);
}

fn add_at(said: &mut [Said], at: usize, more: Said)
    ensures { said.new ≡ slice_set said.old at (either (said_of said.old at) more) }
{
    let both = said_of(said, at).joined(more);
    set(said, at, both);
}

fn set(said: &mut [Said], at: usize, told: Said)
    ensures { said.new ≡ slice_set said.old at told }
{
    if at < said.len() {
        said[at] = told;
    }
}

// What a statement says of the node that it is about.
fn told_by(statements: &Statements<'_>, statement: &StoredStatement) -> Said
    ensures { result
        ≡ said_with (verb_of (view statement.now.received)) (is_voided (all_of statements.now) statement.now) }
{
    said_with(verb_of(statement.received()), statements, statement)
}

fn said_with(verb: &str, statements: &Statements<'_>, statement: &StoredStatement) -> Said
    ensures { result ≡ said_with verb.now (is_voided (all_of statements.now) statement.now) }
{
    Said {
        waived: says_still(verb, WAIVED, statements, statement),
        completed: says_still(verb, COMPLETED, statements, statement),
        passed: says_still(verb, PASSED, statements, statement),
        satisfied: is_that_verb(verb, SATISFIED),
    }
}

// Whether the verb is that one, and its statement isn't voided. Only if it is that one, the new statements are gone
// through.
fn says_still(
    verb: &str,
    asked: &str,
    statements: &Statements<'_>,
    statement: &StoredStatement,
) -> bool
    ensures { result ≡ bytes_eq verb.now asked.now && not (is_voided (all_of statements.now) statement.now) }
{
    is_that_verb(verb, asked) && !statements.is_voided(statement)
}

fn is_that_verb(verb: &str, asked: &str) -> bool
    ensures { result ≡ bytes_eq verb.now asked.now }
{
    verb == asked
}

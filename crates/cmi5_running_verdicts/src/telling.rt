// What the tallies of a course's nodes tell: which are satisfied, which was waived, and of which it is still to be said
// that they are satisfied.
ghost use Rattle.std.specs.Prelude.{◌≡◌, ◌<◌, ◌^◌, IfOk, OnOk, false, length, map};
ghost use Rattle.std.specs.List.{range_with_len};
ghost use Rattle.cmi5_running_verdicts.specs.Tallies.{AreTallies};
ghost use Rattle.cmi5_running_verdicts.specs.Told.{any_voids, is_all_met_at, is_waived_at, said_at};
ghost use Rattle.cmi5_verdict.specs.Cmi5SessionMarked.{marked};
ghost use Rattle.cmi5_verdict.specs.Nodes.{owed, seen};
ghost use Rattle.cmi5_verdict.specs.Statements.{all_of};

use crate::tally::{Tally, tally_of};
use cmi5_verdict::{Enrolment, Said, Statements, StoredStatement, add_new, owed_by_said};
use lrs_json::Memory;
use std::alloc::Global;

// ---- the node of a number

/// Whether no unit under the node of that number is unmet.
pub(crate) fn is_all_met_at(tallies: &[Tally], index: usize) -> bool
    ensures { result ≡ is_all_met_at tallies.now index }
{
    tally_of(tallies, index).unmet == 0
}

/// Whether the node of that number was waived.
pub(crate) fn is_waived_at(tallies: &[Tally], index: usize) -> bool
    ensures { result ≡ is_waived_at tallies.now index }
{
    0 < tally_of(tallies, index).waived
}

fn said_at(tallies: &[Tally], index: usize) -> Said
    ensures { result ≡ said_at tallies.now index }
{
    tally_of(tallies, index).said()
}

// ---- all nodes

/// Whether no unit under it is unmet, of each node in the order of the text.
pub(crate) fn verdicts(alloc: Global, tallies: &[Tally]) -> Result<Vec<bool>, Memory>
    ensures { IfOk result (λ told.
        told.items ≡ map (is_all_met_at tallies.now) (range_with_len 0 (length tallies.now))) }
{
    let mut told = Vec::with_capacity(alloc, tallies.len())?;
    for index in 0..tallies.len() {
        told.push(is_all_met_at(tallies, index))?;
    }
    Ok(told)
}

fn said_of_each(alloc: Global, tallies: &[Tally]) -> Result<Vec<Said>, Memory>
    ensures said { IfOk result (λ said.
        said.items ≡ map (said_at tallies.now) (range_with_len 0 (length tallies.now))) }
    ensures few { OnOk result (length tallies.now < 2 ^ 64) }
{
    let mut said = Vec::with_capacity(alloc, tallies.len())?;
    for index in 0..tallies.len() {
        said.push(said_at(tallies, index))?;
    }
    Ok(said)
}

// ---- what is owed

/// Whether one of these is a voiding statement: then what was counted may count no more.
pub(crate) fn any_voids(statements: &[StoredStatement]) -> bool
    ensures { result ≡ any_voids statements.now }
{
    for statement in statements {
        if statement.is_voiding() {
            return true;
        }
    }
    false
}

/// The numbers of the nodes that are satisfied and of which this was never said, by the tallies of the statements that
/// are held, and by the new ones, of which none is a voiding statement.
pub(crate) fn owed_by_tallies(
    alloc: Global,
    tallies: &[Tally],
    statements: &Statements<'_>,
    enrolment: &Enrolment<'_>,
) -> Result<Vec<u32>, Memory>
    requires { any_voids statements.now.new.now ≡ false }
    ensures { AreTallies (seen enrolment.now) (marked statements.now.held.now.held) tallies.now
        → IfOk result (λ indices. indices.items ≡ owed (seen enrolment.now) (all_of statements.now)) }
{
    let mut said = said_of_each(alloc, tallies)?;
    add_new(statements, enrolment, said.as_mut_slice());
    owed_by_said(alloc, enrolment.nodes, said.as_slice())
}

// What is counted of the nodes of a registration's course, statement by statement.
ghost use Rattle.std.specs.Prelude.{◌≡◌, ◌<◌, ◌+◌, ◌^◌, ◌++◌, ◌∷◌, ◌==◌, ◌&&◌, ℕ, [], false, IfOk, IfSome, length, List};
ghost use Rattle.std.specs.Prelude.{not, replicate, true};
ghost use Rattle.std.specs.Str.{bytes_eq};
ghost use Rattle.cmi5_running_verdicts.specs.Changes.{added, fails_untold, fresh_tally, is_about, is_unmet_untold};
ghost use Rattle.cmi5_running_verdicts.specs.Changes.{moved_if, removed, settled, tally_of, untold};
ghost use Rattle.cmi5_running_verdicts.specs.Holding.{StandBehindHolders};
ghost use Rattle.cmi5_running_verdicts.specs.Tallies.{AreTallies};
ghost use Rattle.cmi5_verdict.specs.Cmi5SessionMarked.{MarkedStatement, mark};
ghost use Rattle.cmi5_verdict.specs.Nodes.{SeenEnrolment, seen};
ghost use Rattle.cmi5_verdict.specs.FoundIndices.{is_index};
ghost use Rattle.cmi5_verdict.specs.Said.{said_with};
ghost use Rattle.lrs_json.specs.View.{view};
ghost use Rattle.cmi5_verdict.specs.XapiStatementStatement.{verb_of};

use crate::holding::{follow, is_met_with, settle};
use crate::tally::{Tally, tally_of};
use cmi5_course::Node;
use cmi5_verdict::{
    COMPLETED, Enrolment, PASSED, SATISFIED, Said, StoredStatement, WAIVED, index_meant, verb_of,
};
use lrs_json::Memory;
use std::alloc::Global;

// ---- before anything is said

/// A tally for each node of a course, in the order of the text, while nothing is said.
pub(crate) fn fresh(alloc: Global, nodes: &[Node]) -> Result<Vec<Tally>, Memory>
    requires behind { StandBehindHolders nodes.now }
    ensures { IfOk result (λ tallies. (e : SeenEnrolment) → e.nodes ≡ nodes.now → AreTallies e [] tallies.items) }
{
    let mut tallies = nothing_of_each(alloc, nodes.len())?;
    raise_each(nodes, tallies.as_mut_slice());
    Ok(tallies)
}

fn nothing_of_each(alloc: Global, count: usize) -> Result<Vec<Tally>, Memory>
    ensures { IfOk result (λ tallies. tallies.items ≡ replicate count untold) }
{
    Ok(vec![in alloc; Tally::nothing(); count]?)
}

// Each unit that isn't met by nothing is missing in itself and in all that hold it.
fn raise_each(nodes: &[Node], tallies: &mut [Tally])
    requires { StandBehindHolders nodes.now }
    ensures long { length tallies.new ≡ length tallies.old }
    ensures raised { (holder : ℕ) → holder < length tallies.old → tally_of tallies.old holder ≡ untold
        → tally_of tallies.new holder ≡ fresh_tally nodes.now holder }
{
    for index in 0..nodes.len() {
        raise_over(nodes, index, tallies);
    }
}

fn raise_over(nodes: &[Node], index: usize, tallies: &mut [Tally])
    requires { StandBehindHolders nodes.now }
    ensures long { length tallies.new ≡ length tallies.old }
    ensures raised { (holder : ℕ) → holder < length tallies.old → tally_of tallies.new holder
        ≡ moved_if (fails_untold nodes.now holder index) false (tally_of tallies.old holder) }
{
    if is_unmet_untold(nodes, index) {
        follow(nodes, index, false, tallies);
    }
}

fn is_unmet_untold(nodes: &[Node], index: usize) -> bool
    ensures { result ≡ is_unmet_untold nodes.now index }
{
    !is_met_with(nodes, index, Tally::nothing())
}

// ---- one statement

/// Counts a statement that comes behind all that were counted. It can be voided already.
pub(crate) fn count(
    enrolment: &Enrolment<'_>,
    statement: &StoredStatement,
    voided: bool,
    tallies: &mut [Tally],
)
    requires behind { StandBehindHolders enrolment.now.nodes.now }
    ensures counted { (those : List MarkedStatement) → length those + 1 < 2 ^ 64
        → AreTallies (seen enrolment.now) those tallies.old
        → AreTallies (seen enrolment.now) (those ++ mark statement.now voided ∷ []) tallies.new }
    ensures long { length tallies.new ≡ length tallies.old }
{
    if let Some(index) = index_within(enrolment, statement) {
        count_at(enrolment.nodes, index, told_by(statement, voided), tallies);
    }
}

fn count_at(nodes: &[Node], index: usize, told: Said, tallies: &mut [Tally])
    requires { StandBehindHolders nodes.now }
    ensures long { length tallies.new ≡ length tallies.old }
    ensures settled { (holder : ℕ) → holder < length tallies.old → tally_of tallies.new holder
        ≡ settled nodes.now index (added told (tally_of tallies.old index)) tallies.old holder }
{
    let tally = tally_of(tallies, index).added(told);
    settle(nodes, index, tally, tallies);
}

/// Takes back what a statement that was counted says, since another voids it now.
pub(crate) fn discount(
    enrolment: &Enrolment<'_>,
    statement: &StoredStatement,
    tallies: &mut [Tally],
)
    requires behind { StandBehindHolders enrolment.now.nodes.now }
    ensures counted { (before behind : List MarkedStatement)
        → AreTallies (seen enrolment.now) (before ++ mark statement.now false ∷ behind) tallies.old
        → AreTallies (seen enrolment.now) (before ++ mark statement.now true ∷ behind) tallies.new }
    ensures long { length tallies.new ≡ length tallies.old }
{
    if let Some(index) = index_within(enrolment, statement) {
        discount_at(enrolment.nodes, index, told_by(statement, false), tallies);
    }
}

fn discount_at(nodes: &[Node], index: usize, told: Said, tallies: &mut [Tally])
    requires { StandBehindHolders nodes.now }
    ensures long { length tallies.new ≡ length tallies.old }
    ensures settled { (holder : ℕ) → holder < length tallies.old → tally_of tallies.new holder
        ≡ settled nodes.now index (removed told (tally_of tallies.old index)) tallies.old holder }
{
    let tally = tally_of(tallies, index).removed(told);
    settle(nodes, index, tally, tallies);
}

// ---- what it says, and of which node

// The number of the node that a statement is about, if the course has it. A list has no more nodes than 64 bits number.
fn index_within(enrolment: &Enrolment<'_>, statement: &StoredStatement) -> Option<usize>
    ensures within { IfSome result (λ index. index < length enrolment.now.nodes.now) }
    ensures meant { (index : ℕ) → index < length enrolment.now.nodes.now → is_index index result
        ≡ is_about (seen enrolment.now) index (view statement.now.received) }
    ensures few { length enrolment.now.nodes.now < 2 ^ 64 }
{
    let count = enrolment.nodes.len();
    match index_meant(enrolment, statement) {
        Some(index) => if_below(count, index),
        None => None,
    }
}

fn if_below(count: usize, index: usize) -> Option<usize>
    ensures within { IfSome result (λ found. found < count) }
    ensures same { (other : ℕ) → other < count → is_index other result ≡ (index == other) }
{
    if index < count { Some(index) } else { None }
}

// What a statement says of the node that it is about.
fn told_by(statement: &StoredStatement, voided: bool) -> Said
    ensures { result ≡ said_with (verb_of (view statement.now.received)) voided }
{
    said_with(verb_of(statement.received()), voided)
}

fn said_with(verb: &str, voided: bool) -> Said
    ensures { result ≡ said_with verb.now voided }
{
    Said {
        waived: says_still(verb, WAIVED, voided),
        completed: says_still(verb, COMPLETED, voided),
        passed: says_still(verb, PASSED, voided),
        satisfied: is_that_verb(verb, SATISFIED),
    }
}

// Whether the verb is that one, and its statement isn't voided.
fn says_still(verb: &str, asked: &str, voided: bool) -> bool
    ensures { result ≡ bytes_eq verb.now asked.now && not voided }
{
    is_that_verb(verb, asked) && !voided
}

fn is_that_verb(verb: &str, asked: &str) -> bool
    ensures { result ≡ bytes_eq verb.now asked.now }
{
    verb == asked
}

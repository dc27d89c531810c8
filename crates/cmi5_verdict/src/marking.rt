// Which nodes of a course are satisfied, by what was said of each.
ghost use Rattle.std.specs.Prelude.{◌≡◌, ◌<◌, ◌&&◌, ℕ, false, not, IfOk, length, map, replicate, slice_set, true};
ghost use Rattle.std.specs.List.{list_all};
ghost use Rattle.cmi5_verdict.specs.Marks.{is_marked, is_met_by, is_met_or_elsewhere, is_satisfied_by};
ghost use Rattle.cmi5_verdict.specs.Nodes.{is_under, indices, seen, verdicts};
ghost use Rattle.cmi5_verdict.specs.Statements.{all_of};

use crate::nodes::{parent_of, unit_in};
use crate::said::{Said, said_of, said_of_each};
use crate::{Enrolment, Statements};
use cmi5_course::Node;
use lrs_json::Memory;
use std::alloc::Global;

/// Whether each node of a course is satisfied in a registration, in the order of the text. Goes through the
/// registration's statements once.
pub fn verdicts(
    alloc: Global,
    statements: &Statements<'_>,
    enrolment: &Enrolment<'_>,
) -> Result<Vec<bool>, Memory>
    ensures { IfOk result (λ satisfied.
        satisfied.items ≡ verdicts (seen enrolment.now) (all_of statements.now)) }
{
    let said = said_of_each(alloc, statements, enrolment)?;
    satisfied_each(alloc, enrolment.nodes, said.as_slice())
}

/// The same by what was said of each.
pub(crate) fn satisfied_each(
    alloc: Global,
    nodes: &[Node],
    said: &[Said],
) -> Result<Vec<bool>, Memory>
    ensures { IfOk result (λ satisfied.
        satisfied.items ≡ map (is_satisfied_by nodes.now said.now) (indices nodes.now)) }
{
    let mut satisfied = all_marked(alloc, nodes.len())?;
    clear_each(nodes, said, satisfied.as_mut_slice());
    Ok(satisfied)
}

fn all_marked(alloc: Global, count: usize) -> Result<Vec<bool>, Memory>
    ensures { IfOk result (λ marks. marks.items ≡ replicate count true) }
{
    Ok(vec![in alloc; true; count]?)
}

fn is_met_by(nodes: &[Node], said: &[Said], index: usize) -> bool
    ensures { result ≡ is_met_by nodes.now said.now index }
{
    match unit_in(nodes, index) {
        Some(unit) => said_of(said, index).meets(unit.move_on),
        None => true,
    }
}

/// Whether that index is marked.
pub(crate) fn is_marked(marks: &[bool], index: usize) -> bool
    ensures { result ≡ is_marked marks.now index }
{
    match marks.get(index) {
        Some(marked) => *marked,
        None => false,
    }
}

// What isn't met clears itself and all that hold it.
fn clear_each(nodes: &[Node], said: &[Said], satisfied: &mut [bool])
    ensures long { length satisfied.new ≡ length satisfied.old }
    ensures cleared { (index : ℕ) → index < length satisfied.old → is_marked satisfied.new index
        ≡ is_marked satisfied.old index && is_satisfied_by nodes.now said.now index }
{
    for index in 0..nodes.len() {
        clear_over(nodes, said, index, satisfied);
    }
}

fn clear_over(nodes: &[Node], said: &[Said], index: usize, satisfied: &mut [bool])
    ensures long { length satisfied.new ≡ length satisfied.old }
    ensures cleared { (holder : ℕ) → holder < length satisfied.old → is_marked satisfied.new holder
        ≡ is_marked satisfied.old holder && is_met_or_elsewhere nodes.now said.now holder index }
{
    if !is_met_by(nodes, said, index) {
        clear_holders(nodes, index, satisfied);
    }
}

// The node and all that hold it lose their marks.
fn clear_holders(nodes: &[Node], index: usize, satisfied: &mut [bool])
    ensures long { length satisfied.new ≡ length satisfied.old }
    ensures cleared { (holder : ℕ) → holder < length satisfied.old → is_marked satisfied.new holder
        ≡ is_marked satisfied.old holder && not (is_under nodes.now holder index) }
{
    let mut here = index;
    for _ in 0..nodes.len() {
        clear(satisfied, here);
        match parent_of(nodes, here) {
            Some(parent) => here = parent,
            None => return,
        }
    }
}

fn clear(marks: &mut [bool], index: usize)
    ensures { marks.new ≡ slice_set marks.old index false }
{
    if index < marks.len() {
        marks[index] = false;
    }
}

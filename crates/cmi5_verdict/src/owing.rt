// Of which nodes it is still to be said that they are satisfied.
ghost use Rattle.std.specs.Prelude.{◌≡◌, ◌≤◌, ◌++◌, ℕ, nat_le, true, IfOk, List, OnOk, filter, length, map};
ghost use Rattle.std.specs.List.{list_all};
ghost use Rattle.cmi5_verdict.specs.Marks.{is_owed_by};
ghost use Rattle.cmi5_verdict.specs.Nodes.{SeenEnrolment, at_depth, deeper_first, depth_of, owed, indices, seen};
ghost use Rattle.cmi5_verdict.specs.Said.{said_in};
ghost use Rattle.cmi5_verdict.specs.Statements.{all_of};
ghost use Rattle.cmi5_session.specs.XapiStatementStored.{StoredStatement as SpecStatement};

use crate::marking::{is_marked, satisfied_each};
use crate::nodes::{depth_of, unit_in};
use crate::numbers::push_if;
use crate::said::{Said, said_of, said_of_each};
use crate::{Enrolment, Statements};
use cmi5_course::Node;
use lrs_json::Memory;
use std::alloc::Global;

/// The numbers of the blocks that are satisfied in a registration, and of the course where it is, of which this was
/// never said. Deeper ones come first, and those of one depth in the order of the text. Goes through the
/// registration's statements once.
pub fn owed(
    alloc: Global,
    statements: &Statements<'_>,
    enrolment: &Enrolment<'_>,
) -> Result<Vec<u32>, Memory>
    ensures { IfOk result (λ indices. indices.items ≡ owed (seen enrolment.now) (all_of statements.now)) }
{
    let said = said_of_each(alloc, statements, enrolment)?;
    owed_by_said(alloc, enrolment.nodes, said.as_slice())
}

/// The same by what was said of each node, in the order of the text.
pub fn owed_by_said(alloc: Global, nodes: &[Node], said: &[Said]) -> Result<Vec<u32>, Memory>
    ensures { IfOk result (λ told. (e : SeenEnrolment) → (all : List SpecStatement) → e.nodes ≡ nodes.now
        → said.now ≡ map (said_in e all) (indices nodes.now) → told.items ≡ owed e all) }
{
    let satisfied = satisfied_each(alloc, nodes, said)?;
    let found = owed_by(alloc, nodes, satisfied.as_slice(), said)?;
    deeper_first(alloc, nodes, found.as_slice())
}

// Those of which it is to be said, in the order of the text. A course has no more nodes than 32 bits number.
fn owed_by(
    alloc: Global,
    nodes: &[Node],
    satisfied: &[bool],
    said: &[Said],
) -> Result<Vec<u32>, Memory>
    ensures { IfOk result (λ found. found.items ≡ filter (is_owed_by nodes.now satisfied.now said.now)
        (indices nodes.now)) }
{
    let Ok(count) = u32::try_from(nodes.len()) else {
        return Err(Memory);
    };
    let mut found = Vec::new(alloc);
    for index in 0..count {
        push_if(
            &mut found,
            index,
            is_owed_by(nodes, satisfied, said, index as usize),
        )?;
    }
    Ok(found)
}

// No unit, satisfied, and not said yet.
fn is_owed_by(nodes: &[Node], satisfied: &[bool], said: &[Said], index: usize) -> bool
    ensures { result ≡ is_owed_by nodes.now satisfied.now said.now index }
{
    unit_in(nodes, index).is_none()
        && is_marked(satisfied, index)
        && !said_of(said, index).satisfied
}

fn deeper_first(alloc: Global, nodes: &[Node], indices: &[u32]) -> Result<Vec<u32>, Memory>
    ensures { IfOk result (λ ordered. ordered.items ≡ deeper_first nodes.now indices.now) }
{
    let deepest = deepest(nodes, indices);
    let mut ordered = Vec::with_capacity(alloc, indices.len())?;
    for less in 0..deepest {
        push_at(nodes, indices, deepest - less, &mut ordered)?;
    }
    Ok(ordered)
}

// None of these stands deeper.
fn deepest(nodes: &[Node], indices: &[u32]) -> usize
    ensures within { result ≤ length nodes.now }
    ensures deepest { list_all (λ index. nat_le (depth_of nodes.now index) result) indices.now ≡ true }
{
    let mut deepest = 0;
    for index in indices {
        deepest = larger(deepest, depth_of(nodes, *index as usize));
    }
    deepest
}

fn larger(a: usize, b: usize) -> usize
    ensures first { a ≤ result }
    ensures second { b ≤ result }
    ensures least { (most : ℕ) → a ≤ most → b ≤ most → result ≤ most }
{
    a.max(b)
}

// Those of a depth, in their order.
fn push_at(
    nodes: &[Node],
    indices: &[u32],
    depth: usize,
    ordered: &mut Vec<u32>,
) -> Result<(), Memory>
    ensures { OnOk result (ordered.new.items ≡ ordered.old.items ++ at_depth nodes.now indices.now depth) }
{
    for index in indices {
        push_if(ordered, *index, depth_of(nodes, *index as usize) == depth)?;
    }
    Ok(())
}

// A node, and those that hold it: how many units under each aren't met.
ghost use Rattle.std.specs.Prelude.{◌≡◌, ◌<◌, ◌&&◌, ℕ, length, slice_set};
ghost use Rattle.cmi5_running_verdicts.specs.Changes.{differ, is_met_with, moved, moved_if, settled, tally_of};
ghost use Rattle.cmi5_running_verdicts.specs.Holding.{StandBehindHolders};
ghost use Rattle.cmi5_verdict.specs.Nodes.{is_under};

use crate::tally::{Tally, set, tally_of};
use cmi5_course::Node;
use cmi5_verdict::{parent_of, unit_in};

/// Whether the node of that number is no unit, or one that is met by what the tally says.
pub(crate) fn is_met_with(nodes: &[Node], index: usize, tally: Tally) -> bool
    ensures { result ≡ is_met_with nodes.now index tally }
{
    match unit_in(nodes, index) {
        Some(unit) => tally.said().meets(unit.move_on),
        None => true,
    }
}

/// That is the tally of the node of that number from now on. Those that hold it follow, where it is met now and wasn't,
/// or the other way.
pub(crate) fn settle(nodes: &[Node], index: usize, tally: Tally, tallies: &mut [Tally])
    requires { StandBehindHolders nodes.now }
    ensures long { length tallies.new ≡ length tallies.old }
    ensures settled { (holder : ℕ) → holder < length tallies.old → tally_of tallies.new holder
        ≡ settled nodes.now index tally tallies.old holder }
{
    let was_met = is_met_with(nodes, index, tally_of(tallies, index));
    let met_now = is_met_with(nodes, index, tally);
    set(tallies, index, tally);
    pass_on(nodes, index, was_met, met_now, tallies);
}

fn pass_on(nodes: &[Node], index: usize, was_met: bool, is_met: bool, tallies: &mut [Tally])
    requires { StandBehindHolders nodes.now }
    ensures long { length tallies.new ≡ length tallies.old }
    ensures passed { (holder : ℕ) → holder < length tallies.old → tally_of tallies.new holder
        ≡ moved_if (differ was_met is_met && is_under nodes.now holder index) is_met (tally_of tallies.old holder) }
{
    if differ(was_met, is_met) {
        follow(nodes, index, is_met, tallies);
    }
}

fn differ(first: bool, second: bool) -> bool
    ensures { result ≡ differ first second }
{
    if first { !second } else { second }
}

/// A node is met from now on, or no longer: it and all that hold it follow. Each stands behind the one that holds it,
/// so that none is met twice.
pub(crate) fn follow(nodes: &[Node], index: usize, is_met: bool, tallies: &mut [Tally])
    requires { StandBehindHolders nodes.now }
    ensures long { length tallies.new ≡ length tallies.old }
    ensures moved { (holder : ℕ) → holder < length tallies.old → tally_of tallies.new holder
        ≡ moved_if (is_under nodes.now holder index) is_met (tally_of tallies.old holder) }
{
    let mut here = index;
    for _ in 0..nodes.len() {
        move_at(tallies, here, is_met);
        match parent_of(nodes, here) {
            Some(parent) => here = parent,
            None => return,
        }
    }
}

fn move_at(tallies: &mut [Tally], index: usize, is_met: bool)
    ensures { tallies.new ≡ slice_set tallies.old index (moved is_met (tally_of tallies.old index)) }
{
    let next = tally_of(tallies, index).moved(is_met);
    set(tallies, index, next);
}

// Nodes of a course, and what holds them.
ghost use Rattle.std.specs.Prelude.{◌≡◌, option_map};
ghost use Rattle.cmi5_verdict.specs.Nodes.{depth_of, parent_of, unit_in};

use cmi5_course::{Node, Unit};

/// What the node of that number has as a unit, if it is one.
pub fn unit_in(nodes: &[Node], index: usize) -> Option<&Unit>
    ensures { option_map (λ unit. unit.now) result ≡ unit_in nodes.now index }
{
    match nodes.get(index) {
        Some(node) => node.unit.as_ref(),
        None => None,
    }
}

/// The number of the node that holds that one.
pub fn parent_of(nodes: &[Node], index: usize) -> Option<usize>
    ensures { result ≡ parent_of nodes.now index }
{
    match nodes.get(index) {
        Some(node) => number(node.parent),
        None => None,
    }
}

fn number(index: Option<u32>) -> Option<usize>
    ensures { result ≡ index }
{
    match index {
        Some(index) => Some(index as usize),
        None => None,
    }
}

/// How deep the node of that number stands: the course itself counts 1.
pub(crate) fn depth_of(nodes: &[Node], index: usize) -> usize
    ensures { result ≡ depth_of nodes.now index }
{
    let mut here = index;
    for step in 0..nodes.len() {
        match parent_of(nodes, here) {
            Some(parent) => here = parent,
            None => return step + 1,
        }
    }
    nodes.len()
}

// The nodes of a course where they stand in its tree.
ghost use Rattle.std.specs.Prelude.{◌≡◌, ◌++◌, ◌<◌, length, map, IfOk, OnOk};
ghost use Rattle.lrs_json.specs.View.{view, member_view, members_of, elements_of};
ghost use Rattle.cmi5_course.specs.SpelledNodes.{nodes_in, nodes_from, nodes_under, nodes_of_children, nodes_of_items, seen};

use lrs_json::{Member, Memory, Tree};
use std::alloc::Global;

/// A value that stands as a node, the number of the node that holds it, and how deep it stands.
#[derive(Clone, Copy, Drop)]
pub struct SpelledNode<'a> {
    pub value: &'a Tree,
    pub parent: Option<u32>,
    pub depth: u32,
}

/// The course itself, and all nodes below it in the order of the text.
#[tactic(auto, unfolding(crate::specs::SpelledNodes::nodes_in))]
pub fn nodes_in<'a>(alloc: Global, tree: &'a Tree) -> Result<Vec<SpelledNode<'a>>, Memory>
    ensures { IfOk result (λ nodes. map seen nodes.items ≡ nodes_in (view tree.now)) }
{
    let mut nodes = Vec::new(alloc);
    add_nodes(tree, None, 0, &mut nodes)?;
    Ok(nodes)
}

#[cycle(nodes)]
fn add_nodes<'a>(
    tree: &'a Tree,
    parent: Option<u32>,
    depth: u32,
    nodes: &mut Vec<SpelledNode<'a>>,
) -> Result<(), Memory>
    ensures { OnOk result (map seen nodes.new.items
        ≡ map seen nodes.old.items ++ nodes_from (length nodes.old.items) parent depth (view tree.now)) }
{
    let (Ok(index), Some(deeper)) = (u32::try_from(nodes.len()), depth.checked_add(1)) else {
        return Err(Memory);
    };
    nodes.push(SpelledNode {
        value: tree,
        parent,
        depth,
    })?;
    match tree {
        Tree::Object(members) => add_nodes_under(members.as_slice(), index, deeper, nodes),
        _ => Ok(()),
    }
}

#[cycle(nodes)]
fn add_nodes_under<'a>(
    members: &'a [Member],
    parent: u32,
    depth: u32,
    nodes: &mut Vec<SpelledNode<'a>>,
) -> Result<(), Memory>
    ensures { OnOk result (map seen nodes.new.items
        ≡ map seen nodes.old.items
        ++ nodes_under (length nodes.old.items) parent depth (members_of (map member_view members.now))) }
{
    for member in members {
        if member.name.as_str() == "children" {
            return add_children(&member.value, parent, depth, nodes);
        }
    }
    Ok(())
}

#[cycle(nodes)]
fn add_children<'a>(
    children: &'a Tree,
    parent: u32,
    depth: u32,
    nodes: &mut Vec<SpelledNode<'a>>,
) -> Result<(), Memory>
    ensures { OnOk result (map seen nodes.new.items
        ≡ map seen nodes.old.items ++ nodes_of_children (length nodes.old.items) parent depth (view children.now)) }
{
    match children {
        Tree::List(items) => add_items(items.as_slice(), parent, depth, nodes),
        _ => Ok(()),
    }
}

#[cycle(nodes)]
fn add_items<'a>(
    items: &'a [Tree],
    parent: u32,
    depth: u32,
    nodes: &mut Vec<SpelledNode<'a>>,
) -> Result<(), Memory>
    ensures { OnOk result (map seen nodes.new.items
        ≡ map seen nodes.old.items
        ++ nodes_of_items (length nodes.old.items) parent depth (elements_of (map view items.now))) }
{
    for item in items {
        add_nodes(item, Some(parent), depth, nodes)?;
    }
    Ok(())
}

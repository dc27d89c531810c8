// The nodes of a course that breaks no rule.
ghost use Rattle.std.specs.Prelude.{◌≡◌, [], None, true, IfOk, map, codes, flat_map, option_map, unwrap_or};
ghost use Rattle.lrs_json.specs.View.{view};
ghost use Rattle.lrs_names.specs.Iris.{is_iri};
ghost use Rattle.lrs_names.specs.Members.{text_under, has_member_that, is_string_that};
ghost use Rattle.lrs_names.specs.Rules.{least};
ghost use Rattle.cmi5_course.specs.SpelledNodes.{seen};
ghost use Rattle.cmi5_course.specs.Units.{move_on_in, method_in, unit_of};
ghost use Rattle.lrs_names.specs.Members.{spelling_under};
ghost use Rattle.cmi5_course.specs.Rules.{node_faults};
ghost use Rattle.cmi5_course.specs.Courses.{kind_of, unit_if, node_of};

use crate::rules::is_of_kind;
use crate::spelled_nodes::SpelledNode;
use crate::{Method, MoveOn, Node, NodeKind, Unit};
use lrs_json::{Items, Memory, Number, Text, Tree};
use lrs_names::{Iri, text_under};
use std::alloc::Global;

fn copy_under(tree: &Tree, name: &str) -> Result<Option<Text>, Memory>
    ensures { IfOk result (λ copy. copy ≡ text_under name.now (view tree.now)) }
{
    match text_under(tree, name) {
        Some(text) => Ok(Some(text.clone()?)),
        None => Ok(None),
    }
}

fn copy_url(alloc: Global, tree: &Tree) -> Result<Text, Memory>
    ensures { IfOk result (λ copy. copy ≡ unwrap_or (text_under (codes "url") (view tree.now)) []) }
{
    match text_under(tree, "url") {
        Some(text) => Ok(text.clone()?),
        None => Text::of(alloc, ""),
    }
}

#[tactic(auto, unfolding(crate::specs::Units::move_on_in))]
fn move_on_in(tree: &Tree) -> MoveOn
    ensures { result ≡ move_on_in (view tree.now) }
{
    match text_under(tree, "moveOn") {
        Some(text) => MoveOn::of(text.as_str()).unwrap_or(MoveOn::NotApplicable),
        None => MoveOn::NotApplicable,
    }
}

#[tactic(auto, unfolding(crate::specs::Units::method_in))]
fn method_in(tree: &Tree) -> Method
    ensures { result ≡ method_in (view tree.now) }
{
    match text_under(tree, "launchMethod") {
        Some(text) => Method::of(text.as_str()).unwrap_or(Method::AnyWindow),
        None => Method::AnyWindow,
    }
}

fn mastery_text(tree: &Tree) -> Option<&Number>
    ensures { option_map (λ number. number.now) result ≡ spelling_under (codes "masteryScore") (view tree.now) }
{
    match tree.get("masteryScore") {
        Some(Tree::Number(spelling)) => Some(spelling),
        _ => None,
    }
}

fn copy_mastery(tree: &Tree) -> Result<Option<Number>, Memory>
    ensures { IfOk result (λ copy. copy ≡ spelling_under (codes "masteryScore") (view tree.now)) }
{
    match mastery_text(tree) {
        Some(spelling) => Ok(Some(spelling.clone()?)),
        None => Ok(None),
    }
}

#[tactic(auto, unfolding(crate::specs::Units::unit_of))]
fn unit_of(alloc: Global, tree: &Tree) -> Result<Unit, Memory>
    ensures { IfOk result (λ unit. unit ≡ unit_of (view tree.now)) }
{
    let url = copy_url(alloc, tree)?;
    let mastery_text = copy_mastery(tree)?;
    let parameters = copy_under(tree, "launchParameters")?;
    let entitlement = copy_under(tree, "entitlementKey")?;
    Ok(Unit {
        url,
        move_on: move_on_in(tree),
        mastery_text,
        method: method_in(tree),
        parameters,
        entitlement,
    })
}

fn unit_if(alloc: Global, kind: NodeKind, tree: &Tree) -> Result<Option<Unit>, Memory>
    ensures { IfOk result (λ unit. unit ≡ unit_if kind (view tree.now)) }
{
    match kind {
        NodeKind::Course | NodeKind::Block => Ok(None),
        NodeKind::Unit => Ok(Some(unit_of(alloc, tree)?)),
    }
}

fn kind_of(node: &SpelledNode<'_>) -> NodeKind
    ensures { result ≡ kind_of (seen node.now) }
{
    if node.parent.is_none() {
        NodeKind::Course
    } else if is_of_kind(node.value, "unit") {
        NodeKind::Unit
    } else {
        NodeKind::Block
    }
}

fn id_of(tree: &Tree) -> Result<Iri, Memory>
    requires { has_member_that (codes "id") (is_string_that is_iri) (view tree.now) ≡ true }
    ensures { IfOk result (λ id. id ≡ unwrap_or (text_under (codes "id") (view tree.now)) []) }
{
    let Some(text) = text_under(tree, "id") else {
        unreachable!();
    };
    match Iri::read(text.clone()?) {
        Ok(id) => Ok(id),
        Err(_) => unreachable!(),
    }
}

#[tactic(auto, unfolding(crate::specs::Courses::node_of))]
fn node_of(alloc: Global, node: &SpelledNode<'_>) -> Result<Node, Memory>
    requires { least (node_faults (seen node.now)) ≡ None }
    ensures { IfOk result (λ made. made ≡ node_of (seen node.now)) }
{
    let kind = kind_of(node);
    let id = id_of(node.value)?;
    let unit = unit_if(alloc, kind, node.value)?;
    Ok(Node {
        id,
        kind,
        parent: node.parent,
        unit,
    })
}

/// A node of its own for each spelled, in their order.
pub fn nodes_of(alloc: Global, spelled_nodes: &[SpelledNode<'_>]) -> Result<Items<Node>, Memory>
    requires { least (flat_map node_faults (map seen spelled_nodes.now)) ≡ None }
    ensures { IfOk result (λ nodes. nodes ≡ map node_of (map seen spelled_nodes.now)) }
{
    let mut nodes = Items::new(alloc);
    for spelled in spelled_nodes {
        nodes.push(node_of(alloc, spelled)?)?;
    }
    Ok(nodes)
}

// The twelve rules on courses, by their numbers.
ghost use Rattle.std.specs.Prelude.{◌≡◌, nat_le, IfOk, IfSome, map, codes, flat_map, count_by, is_some};
ghost use Rattle.lrs_decimal.specs.Values.{HasValue};
ghost use Rattle.std.specs.List.{list_all};
ghost use Rattle.lrs_json.specs.View.{view};
ghost use Rattle.lrs_names.specs.Members.{has_member_that, is_string_that, is_word, faults_of_member};
ghost use Rattle.lrs_names.specs.Rules.{least, IsLeast};
ghost use Rattle.cmi5_course.specs.SpelledNodes.{seen, nodes_in};
ghost use Rattle.cmi5_course.specs.Units.{is_at_most, is_score};
ghost use Rattle.lrs_decimal.specs.Range.{is_decimal};
ghost use Rattle.cmi5_course.specs.Rules.{has_title, is_course, is_of_kind, is_block, is_unit, is_node, has_some_member, is_title, has_some_item, id_faults, title_faults, children_faults, move_on_faults, mastery_faults, method_faults, url_faults, text_faults, type_faults, form_faults, shared_faults, launch_faults, content_faults, node_faults, have_distinct_ids, is_unit_node, is_within_limits, nodes_faults, course_faults, broken_rule};

use crate::spelled_nodes::{SpelledNode, nodes_in};
use crate::urls::is_unit_url;
use crate::{Method, MoveOn};
use lrs_decimal::Decimal;
use lrs_json::{Memory, Tree};
use lrs_names::{
    has_member, has_only, holds_iri, is_language_map, is_string, is_word, lesser, text_under,
    unless,
};
use std::alloc::Global;
use std::collections::BTreeSet;

// So many units a course has at most.
pub(crate) const MOST_UNITS: usize = 1_000;

// So deep a node stands at most; the children of the course have depth 1.
pub(crate) const DEEPEST: u32 = 16;

fn has_title(tree: &Tree) -> bool
    ensures { result ≡ has_title (view tree.now) }
{
    has_member(tree, "id") && has_member(tree, "title")
}

#[tactic(auto, unfolding(crate::specs::Rules::is_course))]
fn is_course(tree: &Tree) -> bool
    ensures { result ≡ is_course (view tree.now) }
{
    has_only(tree, &["id", "title", "description", "children"])
        && has_title(tree)
        && has_member(tree, "children")
}

/// Whether the member `kind` is that word.
pub fn is_of_kind(tree: &Tree, kind: &str) -> bool
    ensures { result ≡ is_of_kind kind.now (view tree.now) }
{
    match tree.get("kind") {
        Some(word) => is_word(word, kind),
        None => false,
    }
}

#[tactic(auto, unfolding(crate::specs::Rules::is_block))]
fn is_block(tree: &Tree) -> bool
    ensures { result ≡ is_block (view tree.now) }
{
    is_of_kind(tree, "block")
        && has_only(tree, &["kind", "id", "title", "description", "children"])
        && has_title(tree)
        && has_member(tree, "children")
}

#[tactic(auto, unfolding(crate::specs::Rules::is_unit))]
fn is_unit(tree: &Tree) -> bool
    ensures { result ≡ is_unit (view tree.now) }
{
    is_of_kind(tree, "unit")
        && has_only(
            tree,
            &[
                "kind",
                "id",
                "title",
                "description",
                "url",
                "moveOn",
                "masteryScore",
                "launchMethod",
                "launchParameters",
                "entitlementKey",
                "activityType",
            ],
        )
        && has_title(tree)
        && has_member(tree, "url")
}

fn broken_form(node: &SpelledNode<'_>) -> Option<u8>
    ensures { result ≡ least (form_faults (seen node.now)) }
{
    if node.parent.is_none() {
        unless(is_course(node.value), 1)
    } else {
        unless(is_block(node.value) || is_unit(node.value), 2)
    }
}

fn broken_id(tree: &Tree) -> Option<u8>
    ensures { result ≡ least (faults_of_member (codes "id") id_faults (view tree.now)) }
{
    match tree.get("id") {
        Some(id) => unless(holds_iri(id), 3),
        None => None,
    }
}

fn has_some_member(tree: &Tree) -> bool
    ensures { result ≡ has_some_member (view tree.now) }
{
    match tree {
        Tree::Object(members) => !members.is_empty(),
        _ => false,
    }
}

fn is_title(tree: &Tree) -> bool
    ensures { result ≡ is_title (view tree.now) }
{
    is_language_map(tree) && has_some_member(tree)
}

fn broken_title_at(tree: &Tree, name: &str) -> Option<u8>
    ensures { result ≡ least (faults_of_member name.now title_faults (view tree.now)) }
{
    match tree.get(name) {
        Some(title) => unless(is_title(title), 4),
        None => None,
    }
}

fn has_some_item(tree: &Tree) -> bool
    ensures { result ≡ has_some_item (view tree.now) }
{
    match tree {
        Tree::List(items) => !items.is_empty(),
        _ => false,
    }
}

fn broken_children(tree: &Tree) -> Option<u8>
    ensures { result ≡ least (faults_of_member (codes "children") children_faults (view tree.now)) }
{
    match tree.get("children") {
        Some(children) => unless(has_some_item(children), 5),
        None => None,
    }
}

#[tactic(auto, using(lrs_names::proofs::RuleLemmas::joined), unfolding(crate::specs::Rules::shared_faults))]
fn broken_shared(tree: &Tree) -> Option<u8>
    ensures { result ≡ least (shared_faults (view tree.now)) }
{
    let broken = broken_id(tree);
    let broken = lesser(broken, broken_title_at(tree, "title"));
    let broken = lesser(broken, broken_title_at(tree, "description"));
    lesser(broken, broken_children(tree))
}

fn broken_move_on(tree: &Tree) -> Option<u8>
    ensures { result ≡ least (faults_of_member (codes "moveOn") move_on_faults (view tree.now)) }
{
    match tree.get("moveOn") {
        Some(Tree::Words(text)) => unless(MoveOn::of(text.as_str()).is_some(), 7),
        Some(_) => Some(7),
        None => None,
    }
}

// Whether both are numbers in range, and the first isn't greater.
#[tactic(auto, unfolding(crate::specs::Units::is_at_most))]
fn is_at_most(a: &[u8], b: &[u8]) -> bool
    ensures { result ≡ is_at_most a.now b.now }
{
    let Some(first) = Decimal::of(a) else {
        return false;
    };
    let Some(second) = Decimal::of(b) else {
        return false;
    };
    first.cmp(&second).is_le()
}

#[tactic(auto, unfolding(crate::specs::Units::is_score))]
fn is_score(spelling: &[u8]) -> bool
    ensures { result ≡ is_score spelling.now }
{
    is_at_most(b"0", spelling) && is_at_most(spelling, b"1")
}

fn broken_mastery(tree: &Tree) -> Option<u8>
    ensures { result ≡ least (faults_of_member (codes "masteryScore") mastery_faults (view tree.now)) }
{
    match tree.get("masteryScore") {
        Some(Tree::Number(spelling)) => unless(is_score(spelling.as_bytes()), 8),
        Some(_) => Some(8),
        None => None,
    }
}

fn broken_method(tree: &Tree) -> Option<u8>
    ensures { result ≡ least (faults_of_member (codes "launchMethod") method_faults (view tree.now)) }
{
    match tree.get("launchMethod") {
        Some(Tree::Words(text)) => unless(Method::of(text.as_str()).is_some(), 9),
        Some(_) => Some(9),
        None => None,
    }
}

fn broken_url(alloc: Global, tree: &Tree) -> Result<Option<u8>, Memory>
    ensures { IfOk result (λ r. r ≡ least (faults_of_member (codes "url") url_faults (view tree.now))) }
{
    match tree.get("url") {
        Some(Tree::Words(text)) => Ok(unless(is_unit_url(alloc, text.as_str())?, 10)),
        Some(_) => Ok(Some(10)),
        None => Ok(None),
    }
}

#[tactic(auto, using(lrs_names::proofs::RuleLemmas::joined), unfolding(crate::specs::Rules::launch_faults))]
fn broken_launch(alloc: Global, tree: &Tree) -> Result<Option<u8>, Memory>
    ensures { IfOk result (λ r. r ≡ least (launch_faults (view tree.now))) }
{
    let broken = broken_move_on(tree);
    let broken = lesser(broken, broken_mastery(tree));
    let broken = lesser(broken, broken_method(tree));
    Ok(lesser(broken, broken_url(alloc, tree)?))
}

fn broken_text_at(tree: &Tree, name: &str) -> Option<u8>
    ensures { result ≡ least (faults_of_member name.now text_faults (view tree.now)) }
{
    match tree.get(name) {
        Some(text) => unless(is_string(text), 11),
        None => None,
    }
}

fn broken_type(tree: &Tree) -> Option<u8>
    ensures { result ≡ least (faults_of_member (codes "activityType") type_faults (view tree.now)) }
{
    match tree.get("activityType") {
        Some(iri) => unless(holds_iri(iri), 11),
        None => None,
    }
}

#[tactic(auto, using(lrs_names::proofs::RuleLemmas::joined), unfolding(crate::specs::Rules::content_faults))]
fn broken_content(tree: &Tree) -> Option<u8>
    ensures { result ≡ least (content_faults (view tree.now)) }
{
    let broken = broken_text_at(tree, "launchParameters");
    let broken = lesser(broken, broken_text_at(tree, "entitlementKey"));
    lesser(broken, broken_type(tree))
}

#[tactic(auto, using(lrs_names::proofs::RuleLemmas::joined), unfolding(crate::specs::Rules::node_faults))]
fn broken_node(alloc: Global, node: &SpelledNode<'_>) -> Result<Option<u8>, Memory>
    ensures { IfOk result (λ r. r ≡ least (node_faults (seen node.now))) }
{
    let broken = lesser(broken_form(node), broken_shared(node.value));
    let broken = lesser(broken, broken_launch(alloc, node.value)?);
    Ok(lesser(broken, broken_content(node.value)))
}

#[tactic(auto, using(lrs_names::proofs::RuleLemmas::joined))]
fn broken_by_itself(alloc: Global, nodes: &[SpelledNode<'_>]) -> Result<Option<u8>, Memory>
    ensures { IfOk result (λ r. r ≡ least (flat_map node_faults (map seen nodes.now))) }
{
    let mut broken = None;
    for node in nodes {
        broken = lesser(broken, broken_node(alloc, node)?);
    }
    Ok(broken)
}

// Whether no id comes twice.
#[tactic(auto, unfolding(crate::specs::Rules::have_distinct_ids))]
fn have_distinct_ids(alloc: Global, nodes: &[SpelledNode<'_>]) -> Result<bool, Memory>
    ensures { IfOk result (λ r. r ≡ have_distinct_ids (map seen nodes.now)) }
{
    let mut ids = BTreeSet::new(alloc);
    for node in nodes {
        let Some(id) = text_under(node.value, "id") else {
            continue;
        };
        if !ids.insert(id.as_str())? {
            return Ok(false);
        }
    }
    Ok(true)
}

fn unit_count(nodes: &[SpelledNode<'_>]) -> usize
    ensures { result ≡ count_by is_unit_node (map seen nodes.now) }
{
    let mut units = 0;
    for node in nodes {
        if is_of_kind(node.value, "unit") {
            units += 1;
        }
    }
    units
}

fn are_shallow(nodes: &[SpelledNode<'_>]) -> bool
    ensures { result ≡ list_all (λ node. nat_le node.depth DEEPEST) (map seen nodes.now) }
{
    for node in nodes {
        if node.depth > DEEPEST {
            return false;
        }
    }
    true
}

#[tactic(auto, unfolding(crate::specs::Rules::is_within_limits))]
fn is_within_limits(nodes: &[SpelledNode<'_>]) -> bool
    ensures { result ≡ is_within_limits (map seen nodes.now) }
{
    unit_count(nodes) <= MOST_UNITS && are_shallow(nodes)
}

/// The least rule that the nodes of a course break, by themselves or together.
#[tactic(auto, using(lrs_names::proofs::RuleLemmas::joined), unfolding(crate::specs::Rules::nodes_faults))]
pub fn broken_nodes(alloc: Global, nodes: &[SpelledNode<'_>]) -> Result<Option<u8>, Memory>
    ensures { IfOk result (λ r. r ≡ least (nodes_faults (map seen nodes.now))) }
{
    let broken = broken_by_itself(alloc, nodes)?;
    let broken = lesser(broken, unless(have_distinct_ids(alloc, nodes)?, 6));
    Ok(lesser(broken, unless(is_within_limits(nodes), 12)))
}

/// The least of the rules K1 to K12 that the tree breaks as a course.
#[tactic(auto, unfolding(crate::specs::Rules::broken_rule))]
pub fn broken_course(alloc: Global, tree: &Tree) -> Result<Option<u8>, Memory>
    ensures rule { IfOk result (λ r. r ≡ broken_rule (view tree.now)) }

    // It is one of those that the tree breaks, and none of them is less; none is named if none is broken.
    ensures least { IfOk result (IsLeast (course_faults (view tree.now))) }
{
    judge(alloc, tree)
}

#[tactic(auto, unfolding(crate::specs::Rules::course_faults))]
fn judge(alloc: Global, tree: &Tree) -> Result<Option<u8>, Memory>
    ensures { IfOk result (λ r. r ≡ least (course_faults (view tree.now))) }
{
    let nodes = nodes_in(alloc, tree)?;
    broken_nodes(alloc, nodes.as_slice())
}

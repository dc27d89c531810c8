// The parts of interaction activities (xAPI 1.0.3, part two, section 2.4.4.1).
ghost use Rattle.std.specs.Prelude.{◌≡◌, [], IfOk, map};
ghost use Rattle.lrs_json.specs.Names.{are_new};
ghost use Rattle.lrs_json.specs.View.{view, elements_of};
ghost use Rattle.lrs_names.specs.Members.{faults_of_member, is_string_that};
ghost use Rattle.lrs_names.specs.Rules.{least};
ghost use Rattle.xapi_rules.specs.Objects.{is_component, are_components, component_faults, faults_of_components, ids_of, component_list_faults, is_interaction, interaction_faults, is_interaction_type};

use lrs_json::{Memory, Tree};
use lrs_names::{has_only, has_string, lesser, text_under, unless};
use std::alloc::Global;
use std::collections::BTreeSet;
use xapi_values::broken_map_at;
use xapi_values::shapes::is_string_array;

fn is_component(tree: &Tree) -> bool
    ensures { result ≡ is_component (view tree.now) }
{
    has_only(tree, &["id", "description"]) && has_string(tree, "id")
}

fn are_components(items: &[Tree]) -> bool
    ensures { result ≡ are_components (elements_of (map view items.now)) }
{
    for item in items {
        if !is_component(item) {
            return false;
        }
    }
    true
}

fn broken_component(tree: &Tree) -> Option<u8>
    ensures { result ≡ least (component_faults (view tree.now)) }
{
    broken_map_at(tree, "description")
}

#[tactic(auto, using(lrs_names::proofs::RuleLemmas::joined), unfolding(crate::specs::Objects::faults_of_components))]
fn broken_components(items: &[Tree]) -> Option<u8>
    ensures { result ≡ least (faults_of_components (elements_of (map view items.now))) }
{
    let mut broken = None;
    for item in items {
        broken = lesser(broken, broken_component(item));
    }
    broken
}

// Whether no id comes twice.
fn are_distinct(alloc: Global, items: &[Tree]) -> Result<bool, Memory>
    ensures { IfOk result (λ r. r ≡ are_new [] (ids_of (elements_of (map view items.now)))) }
{
    let mut ids = BTreeSet::new(alloc);
    for item in items {
        let Some(id) = text_under(item, "id") else {
            continue;
        };
        if !ids.insert(id.as_str())? {
            return Ok(false);
        }
    }
    Ok(true)
}

#[tactic(auto, using(lrs_names::proofs::RuleLemmas::joined), unfolding(crate::specs::Objects::component_list_faults))]
fn broken_component_list(alloc: Global, tree: &Tree) -> Result<Option<u8>, Memory>
    ensures { IfOk result (λ r. r ≡ least (component_list_faults (view tree.now))) }
{
    match tree {
        Tree::List(items) => {
            let items = items.as_slice();
            let broken = unless(are_components(items), 20);
            let broken = lesser(broken, unless(are_distinct(alloc, items)?, 21));
            Ok(lesser(broken, broken_components(items)))
        }
        _ => Ok(Some(20)),
    }
}

fn broken_list_at(alloc: Global, tree: &Tree, name: &str) -> Result<Option<u8>, Memory>
    ensures { IfOk result (λ r. r ≡ least (faults_of_member name.now component_list_faults (view tree.now))) }
{
    match tree.get(name) {
        Some(list) => broken_component_list(alloc, list),
        None => Ok(None),
    }
}

#[tactic(auto, unfolding(crate::specs::Objects::is_interaction_type))]
fn names_interaction(text: &str) -> bool
    ensures { result ≡ is_interaction_type text.now }
{
    "true-false" == text
        || "choice" == text
        || "fill-in" == text
        || "long-fill-in" == text
        || "matching" == text
        || "performance" == text
        || "sequencing" == text
        || "likert" == text
        || "numeric" == text
        || "other" == text
}

fn is_interaction_type(tree: &Tree) -> bool
    ensures { result ≡ is_string_that is_interaction_type (view tree.now) }
{
    match tree {
        Tree::Words(text) => names_interaction(text.as_str()),
        _ => false,
    }
}

#[tactic(auto, unfolding(crate::specs::Objects::is_interaction))]
fn is_interaction(tree: &Tree) -> bool
    ensures { result ≡ is_interaction (view tree.now) }
{
    tree.get("interactionType").is_none_or(is_interaction_type)
        && tree
            .get("correctResponsesPattern")
            .is_none_or(is_string_array)
}

/// The least rule that the members of an interaction activity break in a definition.
#[tactic(auto, using(lrs_names::proofs::RuleLemmas::joined), unfolding(crate::specs::Objects::interaction_faults))]
pub fn broken_interaction(alloc: Global, tree: &Tree) -> Result<Option<u8>, Memory>
    ensures { IfOk result (λ r. r ≡ least (interaction_faults (view tree.now))) }
{
    let broken = unless(is_interaction(tree), 20);
    let broken = lesser(broken, broken_list_at(alloc, tree, "choices")?);
    let broken = lesser(broken, broken_list_at(alloc, tree, "scale")?);
    let broken = lesser(broken, broken_list_at(alloc, tree, "source")?);
    let broken = lesser(broken, broken_list_at(alloc, tree, "target")?);
    Ok(lesser(broken, broken_list_at(alloc, tree, "steps")?))
}

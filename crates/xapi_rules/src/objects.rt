// What a statement is about (xAPI 1.0.3, part two, section 2.4.4).
ghost use Rattle.std.specs.Prelude.{◌≡◌, ◌∷◌, [], IfOk, codes};
ghost use Rattle.lrs_json.specs.View.{view};
ghost use Rattle.lrs_names.specs.Rules.{least};
ghost use Rattle.lrs_names.specs.Members.{faults_of_member};
ghost use Rattle.xapi_rules.specs.Objects.{is_definition, definition_faults, is_activity, activity_faults, is_reference, reference_faults, faults_of_kind, nested_object_faults};

use crate::components::broken_interaction;
use lrs_agents::{Agent, Group};
use lrs_json::{Memory, Tree};
use lrs_names::{has_member, has_only, is_word, lesser, unless};
use std::alloc::Global;
use xapi_values::shapes::{is_object, is_uuid};
use xapi_values::{Kind, broken_extensions_of, broken_iri_at, broken_map_at};

#[tactic(auto, unfolding(crate::specs::Objects::is_definition))]
fn is_definition(tree: &Tree) -> bool
    ensures { result ≡ is_definition (view tree.now) }
{
    has_only(
        tree,
        &[
            "name",
            "description",
            "type",
            "moreInfo",
            "extensions",
            "interactionType",
            "correctResponsesPattern",
            "choices",
            "scale",
            "source",
            "target",
            "steps",
        ],
    ) && tree.get("extensions").is_none_or(is_object)
}

#[tactic(auto, using(lrs_names::proofs::RuleLemmas::joined), unfolding(crate::specs::Objects::definition_faults))]
fn broken_definition(alloc: Global, tree: &Tree) -> Result<Option<u8>, Memory>
    ensures { IfOk result (λ r. r ≡ least (definition_faults (view tree.now))) }
{
    let broken = unless(is_definition(tree), 19);
    let broken = lesser(broken, broken_map_at(tree, "name"));
    let broken = lesser(broken, broken_map_at(tree, "description"));
    let broken = lesser(broken, broken_iri_at(tree, "type"));
    let broken = lesser(broken, broken_iri_at(tree, "moreInfo"));
    let broken = lesser(broken, broken_extensions_of(tree));
    Ok(lesser(broken, broken_interaction(alloc, tree)?))
}

#[tactic(auto, unfolding(crate::specs::Objects::is_activity))]
fn is_activity(tree: &Tree) -> bool
    ensures { result ≡ is_activity (view tree.now) }
{
    has_only(tree, &["objectType", "id", "definition"])
        && tree
            .get("objectType")
            .is_none_or(|kind| is_word(kind, "Activity"))
        && has_member(tree, "id")
}

fn broken_definition_of(alloc: Global, tree: &Tree) -> Result<Option<u8>, Memory>
    ensures { IfOk result (λ r. r ≡
        least (faults_of_member (codes "definition") definition_faults (view tree.now))) }
{
    match tree.get("definition") {
        Some(definition) => broken_definition(alloc, definition),
        None => Ok(None),
    }
}

/// The least rule that the tree breaks where an Activity is asked for.
#[tactic(auto, using(lrs_names::proofs::RuleLemmas::joined), unfolding(crate::specs::Objects::activity_faults))]
pub fn broken_activity(alloc: Global, tree: &Tree) -> Result<Option<u8>, Memory>
    ensures { IfOk result (λ r. r ≡ least (activity_faults (view tree.now))) }
{
    let broken = unless(is_activity(tree), 18);
    let broken = lesser(broken, broken_iri_at(tree, "id"));
    Ok(lesser(broken, broken_definition_of(alloc, tree)?))
}

#[tactic(auto, unfolding(crate::specs::Objects::is_reference))]
fn is_reference(tree: &Tree) -> bool
    ensures { result ≡ is_reference (view tree.now) }
{
    has_only(tree, &["objectType", "id"])
        && tree
            .get("objectType")
            .is_some_and(|kind| is_word(kind, "StatementRef"))
        && tree.get("id").is_some_and(is_uuid)
}

/// The rule that the tree breaks where a StatementRef is asked for.
pub fn broken_reference(tree: &Tree) -> Option<u8>
    ensures { result ≡ least (reference_faults (view tree.now)) }
{
    unless(is_reference(tree), 22)
}

/// The least rule that an object breaks that is no SubStatement.
pub fn broken_plain_object(alloc: Global, tree: &Tree, kind: Kind) -> Result<Option<u8>, Memory>
    ensures { IfOk result (λ r. r ≡ least (faults_of_kind (23 ∷ []) (view tree.now) kind)) }
{
    match kind {
        Kind::Unstated | Kind::Activity => broken_activity(alloc, tree),
        Kind::Agent => Ok(Agent::broken(tree)),
        Kind::Group => Ok(Group::broken(tree)),
        Kind::StatementRef => Ok(broken_reference(tree)),
        Kind::SubStatement => Ok(Some(23)),
        Kind::Other => Ok(Some(17)),
    }
}

/// The least rule that the object of a SubStatement breaks.
#[tactic(auto, using(lrs_names::proofs::RuleLemmas::joined), unfolding(crate::specs::Objects::nested_object_faults))]
pub fn broken_nested_object(alloc: Global, tree: &Tree) -> Result<Option<u8>, Memory>
    ensures { IfOk result (λ r. r ≡ least (nested_object_faults (view tree.now))) }
{
    if is_object(tree) {
        broken_plain_object(alloc, tree, Kind::of(tree))
    } else {
        Ok(Some(17))
    }
}

// Results and contexts (xAPI 1.0.3, part two, sections 2.4.5 and 2.4.6).
ghost use Rattle.std.specs.Prelude.{◌≡◌, IfOk, map, codes};
ghost use Rattle.lrs_json.specs.View.{view, elements_of};
ghost use Rattle.lrs_names.specs.Rules.{least};
ghost use Rattle.lrs_names.specs.Members.{faults_of_member, is_string_that};
ghost use Rattle.lrs_names.specs.Languages.{is_language_tag};
ghost use Rattle.lrs_agents.specs.Agents.{group_faults};
ghost use Rattle.xapi_rules.specs.Contexts.{is_result, score_faults, duration_faults, result_faults, is_context, context_statement_faults, context_activity_faults, faults_of_activities, activities_faults, context_activities_faults, instructor_faults, context_agent_faults, context_faults};

use crate::objects::{broken_activity, broken_reference};
use lrs_agents::{Group, broken_agent_or_group};
use lrs_json::{Memory, Tree};
use lrs_names::{LangTag, has_only, is_string_if_there, lesser, unless};
use std::alloc::Global;
use xapi_values::broken_extensions_of;
use xapi_values::numbers::is_score;
use xapi_values::shapes::{is_boolean, is_duration, is_object, is_uuid};

#[tactic(auto, unfolding(crate::specs::Contexts::is_result))]
fn is_result(tree: &Tree) -> bool
    ensures { result ≡ is_result (view tree.now) }
{
    has_only(
        tree,
        &[
            "score",
            "success",
            "completion",
            "response",
            "duration",
            "extensions",
        ],
    ) && tree.get("success").is_none_or(is_boolean)
        && tree.get("completion").is_none_or(is_boolean)
        && is_string_if_there(tree, "response")
        && tree.get("extensions").is_none_or(is_object)
}

fn broken_score(tree: &Tree) -> Option<u8>
    ensures { result ≡ least (score_faults (view tree.now)) }
{
    unless(is_score(tree), 26)
}

fn broken_duration(tree: &Tree) -> Option<u8>
    ensures { result ≡ least (duration_faults (view tree.now)) }
{
    unless(is_duration(tree), 25)
}

/// The least rule that a result breaks.
#[tactic(auto, using(lrs_names::proofs::RuleLemmas::joined), unfolding(crate::specs::Contexts::result_faults))]
pub fn broken_result(tree: &Tree) -> Option<u8>
    ensures { result ≡ least (result_faults (view tree.now)) }
{
    let broken = unless(is_result(tree), 24);
    let broken = lesser(broken, tree.get("duration").and_then(broken_duration));
    let broken = lesser(broken, tree.get("score").and_then(broken_score));
    lesser(broken, broken_extensions_of(tree))
}

fn is_language(tree: &Tree) -> bool
    ensures { result ≡ is_string_that is_language_tag (view tree.now) }
{
    match tree {
        Tree::Words(text) => LangTag::is(text),
        _ => false,
    }
}

#[tactic(auto, unfolding(crate::specs::Contexts::is_context))]
fn is_context(tree: &Tree) -> bool
    ensures { result ≡ is_context (view tree.now) }
{
    has_only(
        tree,
        &[
            "registration",
            "instructor",
            "team",
            "contextActivities",
            "revision",
            "platform",
            "language",
            "statement",
            "extensions",
        ],
    ) && tree.get("registration").is_none_or(is_uuid)
        && is_string_if_there(tree, "revision")
        && is_string_if_there(tree, "platform")
        && tree.get("language").is_none_or(is_language)
        && tree.get("extensions").is_none_or(is_object)
}

fn broken_statement(tree: &Tree) -> Option<u8>
    ensures { result ≡ least (context_statement_faults (view tree.now)) }
{
    if is_object(tree) {
        broken_reference(tree)
    } else {
        Some(27)
    }
}

fn broken_instructor(tree: &Tree) -> Option<u8>
    ensures { result ≡ least (instructor_faults (view tree.now)) }
{
    broken_agent_or_group(tree, 27)
}

fn broken_team(tree: &Tree) -> Option<u8>
    ensures { result ≡ least (faults_of_member (codes "team") group_faults (view tree.now)) }
{
    match tree.get("team") {
        Some(team) => Group::broken(team),
        None => None,
    }
}

#[tactic(auto, using(lrs_names::proofs::RuleLemmas::joined), unfolding(crate::specs::Contexts::context_agent_faults))]
fn broken_agents(tree: &Tree) -> Option<u8>
    ensures { result ≡ least (context_agent_faults (view tree.now)) }
{
    let broken = tree.get("instructor").and_then(broken_instructor);
    lesser(broken, broken_team(tree))
}

fn broken_statement_of(tree: &Tree) -> Option<u8>
    ensures { result ≡ least (faults_of_member (codes "statement") context_statement_faults (view tree.now)) }
{
    match tree.get("statement") {
        Some(statement) => broken_statement(statement),
        None => None,
    }
}

fn broken_context_activity(alloc: Global, tree: &Tree) -> Result<Option<u8>, Memory>
    ensures { IfOk result (λ r. r ≡ least (context_activity_faults (view tree.now))) }
{
    if is_object(tree) {
        broken_activity(alloc, tree)
    } else {
        Ok(Some(28))
    }
}

#[tactic(auto, using(lrs_names::proofs::RuleLemmas::joined), unfolding(crate::specs::Contexts::faults_of_activities))]
fn broken_items(alloc: Global, items: &[Tree]) -> Result<Option<u8>, Memory>
    ensures { IfOk result (λ r. r ≡ least (faults_of_activities (elements_of (map view items.now)))) }
{
    let mut broken = None;
    for item in items {
        broken = lesser(broken, broken_context_activity(alloc, item)?);
    }
    Ok(broken)
}

#[tactic(auto, unfolding(crate::specs::Contexts::activities_faults))]
fn broken_activities(alloc: Global, tree: &Tree) -> Result<Option<u8>, Memory>
    ensures { IfOk result (λ r. r ≡ least (activities_faults (view tree.now))) }
{
    match tree {
        Tree::List(items) => broken_items(alloc, items.as_slice()),
        _ => broken_context_activity(alloc, tree),
    }
}

fn broken_activities_at(alloc: Global, tree: &Tree, name: &str) -> Result<Option<u8>, Memory>
    ensures { IfOk result (λ r. r ≡ least (faults_of_member name.now activities_faults (view tree.now))) }
{
    match tree.get(name) {
        Some(activities) => broken_activities(alloc, activities),
        None => Ok(None),
    }
}

#[tactic(auto, using(lrs_names::proofs::RuleLemmas::joined), unfolding(crate::specs::Contexts::context_activities_faults))]
fn broken_context_activities(alloc: Global, tree: &Tree) -> Result<Option<u8>, Memory>
    ensures { IfOk result (λ r. r ≡ least (context_activities_faults (view tree.now))) }
{
    let named = has_only(tree, &["parent", "grouping", "category", "other"]);
    let broken = unless(named, 28);
    let broken = lesser(broken, broken_activities_at(alloc, tree, "parent")?);
    let broken = lesser(broken, broken_activities_at(alloc, tree, "grouping")?);
    let broken = lesser(broken, broken_activities_at(alloc, tree, "category")?);
    Ok(lesser(broken, broken_activities_at(alloc, tree, "other")?))
}

fn broken_activities_of(alloc: Global, tree: &Tree) -> Result<Option<u8>, Memory>
    ensures { IfOk result (λ r. r ≡
        least (faults_of_member (codes "contextActivities") context_activities_faults (view tree.now))) }
{
    match tree.get("contextActivities") {
        Some(activities) => broken_context_activities(alloc, activities),
        None => Ok(None),
    }
}

/// The least rule that a context breaks.
#[tactic(auto, using(lrs_names::proofs::RuleLemmas::joined), unfolding(crate::specs::Contexts::context_faults))]
pub fn broken_context(alloc: Global, tree: &Tree) -> Result<Option<u8>, Memory>
    ensures { IfOk result (λ r. r ≡ least (context_faults (view tree.now))) }
{
    let broken = unless(is_context(tree), 27);
    let broken = lesser(broken, broken_agents(tree));
    let broken = lesser(broken, broken_activities_of(alloc, tree)?);
    let broken = lesser(broken, broken_statement_of(tree));
    Ok(lesser(broken, broken_extensions_of(tree)))
}

// The rules on a statement as a whole (xAPI 1.0.3, part two, section 2.4).
ghost use Rattle.std.specs.Prelude.{◌≡◌, IfOk, codes};
ghost use Rattle.lrs_json.specs.View.{view};
ghost use Rattle.lrs_names.specs.Rules.{least, IsLeast};
ghost use Rattle.lrs_names.specs.Members.{faults_of_member, has_only, if_member};
ghost use Rattle.xapi_values.specs.Shapes.{is_uuid, is_version};
ghost use Rattle.xapi_rules.specs.Contexts.{context_faults, attachments_faults};
ghost use Rattle.xapi_rules.specs.Objects.{nested_object_faults};
ghost use Rattle.xapi_rules.specs.Rules.{actor_faults, is_verb, verb_faults, has_no_revision, is_about_activity, is_fit_revision, are_timestamps, action_faults, shared_faults, has_action, statement_members, is_substatement, substatement_faults, object_faults, is_pair, has_no_identifier, is_authority_group, authority_faults, is_voided_verb, is_voiding, is_about_reference, voids_reference, form_faults, own_faults, statement_faults, broken_rule};

use crate::attachments::broken_attachments;
use crate::contexts::{broken_context, broken_result};
use crate::nulls::{NullRole, has_null};
use crate::objects::{broken_nested_object, broken_plain_object};
use lrs_agents::{Agent, Group, broken_agent_or_group};
use lrs_json::{Memory, Tree};
use lrs_names::{has_member, has_only, is_word, lesser, unless};
use std::alloc::Global;
use xapi_values::shapes::{is_object, is_timestamp, is_uuid, is_version};
use xapi_values::{Kind, broken_iri_at, broken_map_at};

fn broken_actor(tree: &Tree) -> Option<u8>
    ensures { result ≡ least (actor_faults (view tree.now)) }
{
    broken_agent_or_group(tree, 15)
}

#[tactic(auto, unfolding(crate::specs::Rules::is_verb))]
fn is_verb(tree: &Tree) -> bool
    ensures { result ≡ is_verb (view tree.now) }
{
    has_only(tree, &["id", "display"]) && has_member(tree, "id")
}

#[tactic(auto, using(lrs_names::proofs::RuleLemmas::joined), unfolding(crate::specs::Rules::verb_faults))]
fn broken_verb(tree: &Tree) -> Option<u8>
    ensures { result ≡ least (verb_faults (view tree.now)) }
{
    let broken = unless(is_verb(tree), 16);
    let broken = lesser(broken, broken_iri_at(tree, "id"));
    lesser(broken, broken_map_at(tree, "display"))
}

fn has_no_revision(context: &Tree) -> bool
    ensures { result ≡ has_no_revision (view context.now) }
{
    !has_member(context, "revision") && !has_member(context, "platform")
}

fn is_about_activity(object: &Tree) -> bool
    ensures { result ≡ is_about_activity (view object.now) }
{
    Kind::of(object).is_activity()
}

#[tactic(auto, unfolding(crate::specs::Rules::is_fit_revision))]
fn is_fit_revision(tree: &Tree) -> bool
    ensures { result ≡ is_fit_revision (view tree.now) }
{
    tree.get("context").is_none_or(has_no_revision)
        || tree.get("object").is_some_and(is_about_activity)
}

#[tactic(auto, unfolding(crate::specs::Rules::are_timestamps))]
fn are_timestamps(tree: &Tree) -> bool
    ensures { result ≡ are_timestamps (view tree.now) }
{
    tree.get("timestamp").is_none_or(is_timestamp) && tree.get("stored").is_none_or(is_timestamp)
}

fn broken_context_of(alloc: Global, tree: &Tree) -> Result<Option<u8>, Memory>
    ensures { IfOk result (λ r. r ≡ least (faults_of_member (codes "context") context_faults (view tree.now))) }
{
    match tree.get("context") {
        Some(context) => broken_context(alloc, context),
        None => Ok(None),
    }
}

fn broken_attachments_of(tree: &Tree) -> Option<u8>
    ensures { result ≡ least (faults_of_member (codes "attachments") attachments_faults (view tree.now)) }
{
    match tree.get("attachments") {
        Some(attachments) => broken_attachments(attachments),
        None => None,
    }
}

// Who did what, and how it came out.
#[tactic(auto, using(lrs_names::proofs::RuleLemmas::joined), unfolding(crate::specs::Rules::action_faults))]
fn broken_action(tree: &Tree) -> Option<u8>
    ensures { result ≡ least (action_faults (view tree.now)) }
{
    let broken = tree.get("actor").and_then(broken_actor);
    let broken = lesser(broken, tree.get("verb").and_then(broken_verb));
    lesser(broken, tree.get("result").and_then(broken_result))
}

// What a statement and a SubStatement share.
#[tactic(auto, using(lrs_names::proofs::RuleLemmas::joined), unfolding(crate::specs::Rules::shared_faults))]
fn broken_shared(alloc: Global, tree: &Tree) -> Result<Option<u8>, Memory>
    ensures { IfOk result (λ r. r ≡ least (shared_faults (view tree.now))) }
{
    let broken = broken_action(tree);
    let broken = lesser(broken, broken_context_of(alloc, tree)?);
    let broken = lesser(broken, broken_attachments_of(tree));
    let broken = lesser(broken, unless(is_fit_revision(tree), 29));
    Ok(lesser(broken, unless(are_timestamps(tree), 30)))
}

fn has_action(tree: &Tree) -> bool
    ensures { result ≡ has_action (view tree.now) }
{
    has_member(tree, "actor") && has_member(tree, "verb") && has_member(tree, "object")
}

#[tactic(auto, unfolding(crate::specs::Rules::is_substatement))]
fn is_substatement(tree: &Tree) -> bool
    ensures { result ≡ is_substatement (view tree.now) }
{
    has_only(
        tree,
        &[
            "objectType",
            "actor",
            "verb",
            "object",
            "result",
            "context",
            "timestamp",
            "attachments",
        ],
    ) && has_action(tree)
}

fn broken_nested_object_of(alloc: Global, tree: &Tree) -> Result<Option<u8>, Memory>
    ensures { IfOk result (λ r. r ≡ least (faults_of_member (codes "object") nested_object_faults (view tree.now))) }
{
    match tree.get("object") {
        Some(object) => broken_nested_object(alloc, object),
        None => Ok(None),
    }
}

#[tactic(auto, using(lrs_names::proofs::RuleLemmas::joined), unfolding(crate::specs::Rules::substatement_faults))]
fn broken_substatement(alloc: Global, tree: &Tree) -> Result<Option<u8>, Memory>
    ensures { IfOk result (λ r. r ≡ least (substatement_faults (view tree.now))) }
{
    let broken = unless(is_substatement(tree), 23);
    let broken = lesser(broken, broken_nested_object_of(alloc, tree)?);
    Ok(lesser(broken, broken_shared(alloc, tree)?))
}

#[tactic(auto, using(lrs_names::proofs::RuleLemmas::joined), unfolding(crate::specs::Rules::object_faults))]
fn broken_object(alloc: Global, tree: &Tree) -> Result<Option<u8>, Memory>
    ensures { IfOk result (λ r. r ≡ least (object_faults (view tree.now))) }
{
    if !is_object(tree) {
        return Ok(Some(17));
    }
    match Kind::of(tree) {
        Kind::SubStatement => broken_substatement(alloc, tree),
        kind => broken_plain_object(alloc, tree, kind),
    }
}

fn broken_object_of(alloc: Global, tree: &Tree) -> Result<Option<u8>, Memory>
    ensures { IfOk result (λ r. r ≡ least (faults_of_member (codes "object") object_faults (view tree.now))) }
{
    match tree.get("object") {
        Some(object) => broken_object(alloc, object),
        None => Ok(None),
    }
}

#[tactic(auto, using(crate::proofs::Lists::length_elements))]
fn is_pair(tree: &Tree) -> bool
    ensures { result ≡ is_pair (view tree.now) }
{
    match tree {
        Tree::List(items) => items.len() == 2,
        _ => false,
    }
}

fn has_no_identifier(tree: &Tree) -> bool
    ensures { result ≡ has_no_identifier (view tree.now) }
{
    !has_member(tree, "mbox")
        && !has_member(tree, "mbox_sha1sum")
        && !has_member(tree, "openid")
        && !has_member(tree, "account")
}

fn is_authority_group(tree: &Tree) -> bool
    ensures { result ≡ is_authority_group (view tree.now) }
{
    has_no_identifier(tree) && tree.get("member").is_some_and(is_pair)
}

#[tactic(auto, using(lrs_names::proofs::RuleLemmas::joined), unfolding(crate::specs::Rules::authority_faults))]
fn broken_authority(tree: &Tree) -> Option<u8>
    ensures { result ≡ least (authority_faults (view tree.now)) }
{
    match Kind::of(tree) {
        Kind::Unstated | Kind::Agent => Agent::broken(tree),
        Kind::Group => lesser(unless(is_authority_group(tree), 31), Group::broken(tree)),
        Kind::Activity | Kind::StatementRef | Kind::SubStatement | Kind::Other => Some(31),
    }
}

fn is_voided_verb(verb: &Tree) -> bool
    ensures { result ≡ is_voided_verb (view verb.now) }
{
    match verb.get("id") {
        Some(id) => is_word(id, "http://adlnet.gov/expapi/verbs/voided"),
        None => false,
    }
}

/// Whether the statement has the verb voided (xAPI 1.0.3, part two, section 2.3.2).
#[tactic(auto, unfolding(crate::specs::Rules::is_voiding))]
pub fn is_voiding(tree: &Tree) -> bool
    ensures { result ≡ is_voiding (view tree.now) }
{
    tree.get("verb").is_some_and(is_voided_verb)
}

fn is_about_reference(object: &Tree) -> bool
    ensures { result ≡ is_about_reference (view object.now) }
{
    is_object(object) && matches!(Kind::of(object), Kind::StatementRef)
}

#[tactic(auto, unfolding(crate::specs::Rules::voids_reference))]
fn voids_reference(tree: &Tree) -> bool
    ensures { result ≡ voids_reference (view tree.now) }
{
    !is_voiding(tree) || tree.get("object").is_none_or(is_about_reference)
}

fn has_only_members(tree: &Tree) -> bool
    ensures { result ≡ has_only statement_members (view tree.now) }
{
    has_only(
        tree,
        &[
            "id",
            "actor",
            "verb",
            "object",
            "result",
            "context",
            "timestamp",
            "stored",
            "authority",
            "version",
            "attachments",
        ],
    )
}

// Which members stand, and no null.
#[tactic(auto, using(lrs_names::proofs::RuleLemmas::joined), unfolding(crate::specs::Rules::form_faults))]
fn broken_form(tree: &Tree) -> Option<u8>
    ensures { result ≡ least (form_faults (view tree.now)) }
{
    let broken = unless(has_action(tree), 1);
    let broken = lesser(broken, unless(has_only_members(tree), 2));
    lesser(broken, unless(!has_null(tree, NullRole::Statement), 3))
}

fn has_id_form(tree: &Tree) -> bool
    ensures { result ≡ if_member (codes "id") is_uuid (view tree.now) }
{
    tree.get("id").is_none_or(is_uuid)
}

fn has_version_form(tree: &Tree) -> bool
    ensures { result ≡ if_member (codes "version") is_version (view tree.now) }
{
    tree.get("version").is_none_or(is_version)
}

// The id, the version, and what a voiding statement is about.
#[tactic(auto, using(lrs_names::proofs::RuleLemmas::joined), unfolding(crate::specs::Rules::own_faults))]
fn broken_itself(tree: &Tree) -> Option<u8>
    ensures { result ≡ least (own_faults (view tree.now)) }
{
    let broken = unless(has_id_form(tree), 4);
    let broken = lesser(broken, unless(has_version_form(tree), 5));
    lesser(broken, unless(voids_reference(tree), 22))
}

fn broken_authority_of(tree: &Tree) -> Option<u8>
    ensures { result ≡ least (faults_of_member (codes "authority") authority_faults (view tree.now)) }
{
    match tree.get("authority") {
        Some(authority) => broken_authority(authority),
        None => None,
    }
}

/// The least of the rules S1 to S32 that the tree breaks as a statement. Memory is taken for the ids of a list of
/// interaction components alone.
#[tactic(auto, unfolding(crate::specs::Rules::broken_rule))]
pub fn broken_rule(alloc: Global, tree: &Tree) -> Result<Option<u8>, Memory>
    ensures rule { IfOk result (λ r. r ≡ broken_rule (view tree.now)) }

    // It is one of those that the tree breaks, and none of them is less; none is named if none is broken.
    ensures least { IfOk result (IsLeast (statement_faults (view tree.now))) }
{
    judge(alloc, tree)
}

#[tactic(auto, using(lrs_names::proofs::RuleLemmas::joined), unfolding(crate::specs::Rules::statement_faults))]
fn judge(alloc: Global, tree: &Tree) -> Result<Option<u8>, Memory>
    ensures { IfOk result (λ r. r ≡ least (statement_faults (view tree.now))) }
{
    if !is_object(tree) {
        return Ok(Some(1));
    }
    let broken = lesser(broken_form(tree), broken_itself(tree));
    let broken = lesser(broken, broken_object_of(alloc, tree)?);
    let broken = lesser(broken, broken_authority_of(tree));
    Ok(lesser(broken, broken_shared(alloc, tree)?))
}

// Who takes part in a statement.
ghost use Rattle.std.specs.Prelude.{◌≡◌, ◌↔◌, Some, IsTrue, map, codes};
ghost use Rattle.lrs_json.specs.View.{view, elements_of};
ghost use Rattle.lrs_names.specs.Members.{has_member_that};
ghost use Rattle.xapi_format.specs.Party.{is_identified, any_identified, has_identified, is_party};
ghost use Rattle.xapi_properties.specs.Parties.{is_party_object, has_direct_agent, is_party_of_context, has_context_agent, nested_has_agent, has_related_agent, has_agent, agent_in, actor_of};

use lrs_agents::Ifi;
use lrs_json::Tree;
use xapi_rules::{Kind, is_nested};

#[tactic(auto, unfolding(xapi_format::specs::Party::is_identified))]
fn is_identified(tree: &Tree, ifi: &Ifi) -> bool
    ensures { result ≡ is_identified ifi.now (view tree.now) }
{
    ifi.is_of(tree)
}

fn any_identified(items: &[Tree], ifi: &Ifi) -> bool
    ensures { result ≡ any_identified ifi.now (elements_of (map view items.now)) }
{
    for item in items {
        if is_identified(item, ifi) {
            return true;
        }
    }
    false
}

fn has_identified(members: &Tree, ifi: &Ifi) -> bool
    ensures { result ≡ has_identified ifi.now (view members.now) }
{
    match members {
        Tree::List(items) => any_identified(items.as_slice(), ifi),
        _ => false,
    }
}

fn has_identified_member(tree: &Tree, ifi: &Ifi) -> bool
    ensures { result ≡ has_member_that (codes "member") (has_identified ifi.now) (view tree.now) }
{
    match tree.get("member") {
        Some(members) => has_identified(members, ifi),
        None => false,
    }
}

#[tactic(auto, unfolding(xapi_format::specs::Party::is_party))]
fn is_party(tree: &Tree, ifi: &Ifi) -> bool
    ensures { result ≡ is_party ifi.now (view tree.now) }
{
    is_identified(tree, ifi) || has_identified_member(tree, ifi)
}

fn is_party_at(tree: &Tree, name: &str, ifi: &Ifi) -> bool
    ensures { result ≡ has_member_that name.now (is_party ifi.now) (view tree.now) }
{
    match tree.get(name) {
        Some(party) => is_party(party, ifi),
        None => false,
    }
}

#[tactic(auto, unfolding(crate::specs::Parties::is_party_object))]
fn is_party_object(object: &Tree, ifi: &Ifi) -> bool
    ensures { result ≡ is_party_object ifi.now (view object.now) }
{
    Kind::of(object).is_party() && is_party(object, ifi)
}

fn object_is_party(statement: &Tree, ifi: &Ifi) -> bool
    ensures { result ≡ has_member_that (codes "object") (is_party_object ifi.now) (view statement.now) }
{
    match statement.get("object") {
        Some(object) => is_party_object(object, ifi),
        None => false,
    }
}

#[tactic(auto, unfolding(crate::specs::Parties::has_direct_agent))]
fn has_direct_agent(statement: &Tree, ifi: &Ifi) -> bool
    ensures { result ≡ has_direct_agent ifi.now (view statement.now) }
{
    is_party_at(statement, "actor", ifi) || object_is_party(statement, ifi)
}

#[tactic(auto, unfolding(crate::specs::Parties::is_party_of_context))]
fn is_party_of_context(context: &Tree, ifi: &Ifi) -> bool
    ensures { result ≡ is_party_of_context ifi.now (view context.now) }
{
    is_party_at(context, "instructor", ifi) || is_party_at(context, "team", ifi)
}

#[tactic(auto, unfolding(crate::specs::Parties::has_context_agent))]
fn has_context_agent(statement: &Tree, ifi: &Ifi) -> bool
    ensures { result ≡ has_context_agent ifi.now (view statement.now) }
{
    match statement.get("context") {
        Some(context) => is_party_of_context(context, ifi),
        None => false,
    }
}

#[tactic(auto, unfolding(crate::specs::Parties::nested_has_agent))]
fn nested_has_agent(object: &Tree, ifi: &Ifi) -> bool
    ensures { result ≡ nested_has_agent ifi.now (view object.now) }
{
    is_nested(object) && (has_direct_agent(object, ifi) || has_context_agent(object, ifi))
}

fn object_has_agent(statement: &Tree, ifi: &Ifi) -> bool
    ensures { result ≡ has_member_that (codes "object") (nested_has_agent ifi.now) (view statement.now) }
{
    match statement.get("object") {
        Some(object) => nested_has_agent(object, ifi),
        None => false,
    }
}

#[tactic(auto, unfolding(crate::specs::Parties::has_related_agent))]
fn has_related_agent(statement: &Tree, ifi: &Ifi) -> bool
    ensures { result ≡ has_related_agent ifi.now (view statement.now) }
{
    is_party_at(statement, "authority", ifi)
        || has_context_agent(statement, ifi)
        || object_has_agent(statement, ifi)
}

#[tactic(auto, unfolding(crate::specs::Parties::has_agent))]
pub fn has_agent(statement: &Tree, ifi: &Ifi, related: bool) -> bool
    ensures { result ≡ has_agent ifi.now related (view statement.now) }
{
    has_direct_agent(statement, ifi) || (related && has_related_agent(statement, ifi))
}

fn is_agent_of(actor: &Tree, ifi: &Ifi) -> bool
    ensures { IsTrue result ↔ (agent_in (view actor.now) ≡ Some ifi.now) }
{
    match Kind::of(actor) {
        Kind::Group => false,
        _ => ifi.is_of(actor),
    }
}

/// Whether its actor is the Agent of that identifier.
#[tactic(auto, unfolding(crate::specs::Parties::actor_of))]
pub fn is_actor(statement: &Tree, ifi: &Ifi) -> bool
    ensures { IsTrue result ↔ (actor_of (view statement.now) ≡ Some ifi.now) }
{
    match statement.get("actor") {
        Some(actor) => is_agent_of(actor, ifi),
        None => false,
    }
}

// Which activities a statement speaks of.
ghost use Rattle.std.specs.Prelude.{◌≡◌, map, codes};
ghost use Rattle.lrs_json.specs.View.{view, elements_of};
ghost use Rattle.lrs_names.specs.Members.{has_member_that, is_word};
ghost use Rattle.xapi_properties.specs.Activities.{is_activity_of, any_activity_of, holds_activity, holds_at, context_holds, has_context_activity, has_some_context_activity, is_about, nested_has_activity, has_activity};

use lrs_json::Tree;
use lrs_names::is_word;
use xapi_rules::{Kind, is_nested};

fn has_id(tree: &Tree, id: &str) -> bool
    ensures { result ≡ has_member_that (codes "id") (is_word id.now) (view tree.now) }
{
    match tree.get("id") {
        Some(own) => is_word(own, id),
        None => false,
    }
}

#[tactic(auto, unfolding(crate::specs::Activities::is_activity_of))]
fn is_activity_of(tree: &Tree, id: &str) -> bool
    ensures { result ≡ is_activity_of id.now (view tree.now) }
{
    Kind::of(tree).is_activity() && has_id(tree, id)
}

fn any_activity_of(items: &[Tree], id: &str) -> bool
    ensures { result ≡ any_activity_of id.now (elements_of (map view items.now)) }
{
    for item in items {
        if is_activity_of(item, id) {
            return true;
        }
    }
    false
}

fn holds_activity(tree: &Tree, id: &str) -> bool
    ensures { result ≡ holds_activity id.now (view tree.now) }
{
    match tree {
        Tree::List(items) => any_activity_of(items.as_slice(), id),
        Tree::Object(_) => is_activity_of(tree, id),
        _ => false,
    }
}

#[tactic(auto, unfolding(crate::specs::Activities::holds_at))]
fn holds_at(tree: &Tree, name: &str, id: &str) -> bool
    ensures { result ≡ holds_at name.now id.now (view tree.now) }
{
    match tree.get(name) {
        Some(activities) => holds_activity(activities, id),
        None => false,
    }
}

#[tactic(auto, unfolding(crate::specs::Activities::context_holds))]
fn context_holds(context: &Tree, name: &str, id: &str) -> bool
    ensures { result ≡ context_holds name.now id.now (view context.now) }
{
    match context.get("contextActivities") {
        Some(activities) => holds_at(activities, name, id),
        None => false,
    }
}

/// Whether the context activities of that name hold the Activity of that id.
#[tactic(auto, unfolding(crate::specs::Activities::has_context_activity))]
pub fn has_context_activity(statement: &Tree, name: &str, id: &str) -> bool
    ensures { result ≡ has_context_activity name.now id.now (view statement.now) }
{
    match statement.get("context") {
        Some(context) => context_holds(context, name, id),
        None => false,
    }
}

#[tactic(auto, unfolding(crate::specs::Activities::has_some_context_activity))]
fn has_some_context_activity(statement: &Tree, id: &str) -> bool
    ensures { result ≡ has_some_context_activity id.now (view statement.now) }
{
    has_context_activity(statement, "parent", id)
        || has_context_activity(statement, "grouping", id)
        || has_context_activity(statement, "category", id)
        || has_context_activity(statement, "other", id)
}

#[tactic(auto, unfolding(crate::specs::Activities::is_about))]
fn is_about(statement: &Tree, id: &str) -> bool
    ensures { result ≡ is_about id.now (view statement.now) }
{
    match statement.get("object") {
        Some(object) => is_activity_of(object, id),
        None => false,
    }
}

#[tactic(auto, unfolding(crate::specs::Activities::nested_has_activity))]
fn nested_has_activity(object: &Tree, id: &str) -> bool
    ensures { result ≡ nested_has_activity id.now (view object.now) }
{
    is_nested(object) && (is_about(object, id) || has_some_context_activity(object, id))
}

fn object_has_activity(statement: &Tree, id: &str) -> bool
    ensures { result ≡ has_member_that (codes "object") (nested_has_activity id.now) (view statement.now) }
{
    match statement.get("object") {
        Some(object) => nested_has_activity(object, id),
        None => false,
    }
}

#[tactic(auto, unfolding(crate::specs::Activities::has_activity))]
pub fn has_activity(statement: &Tree, id: &str, related: bool) -> bool
    ensures { result ≡ has_activity id.now related (view statement.now) }
{
    is_about(statement, id)
        || (related
            && (has_some_context_activity(statement, id) || object_has_activity(statement, id)))
}

// The keys of Activities, by their ids.
ghost use Rattle.std.specs.Prelude.{◌&&◌, ◌||◌, OnOk, false, map};
ghost use Rattle.std.specs.Str.{bytes_eq};
ghost use Rattle.lrs_json.specs.View.{view, elements_of};
ghost use Rattle.xapi_query.specs.XapiStatementStatement.{any_activity_of, holds_activity, holds_at, is_activity_of};
ghost use Rattle.xapi_statement_keys.specs.Adding.{Adds, activity_keys, context_holds_some, holds_some, same_parts};

use crate::Key;
use crate::adding::push;
use crate::reading::{activity_in, items_in};
use lrs_json::{Memory, Text, Tree};

// The keys of the Activity of that id, in a direct role or in a related one.
fn push_id(keys: &mut Vec<Key>, id: &Text, direct: bool) -> Result<(), Memory>
    ensures { OnOk result (Adds keys.old.items keys.new.items
        (activity_keys direct (λ other. bytes_eq id.now other))) }
{
    push_plain_id(keys, id, direct)?;
    push(keys, Key::RelatedActivity(id.clone()?))
}

// The plain key, in a direct role.
fn push_plain_id(keys: &mut Vec<Key>, id: &Text, direct: bool) -> Result<(), Memory>
    ensures { OnOk result (Adds keys.old.items keys.new.items
        (λ k. direct && same_parts (Key.Activity id.now) k)) }
{
    if direct {
        push_id_copy(keys, id)
    } else {
        Ok(())
    }
}

fn push_id_copy(keys: &mut Vec<Key>, id: &Text) -> Result<(), Memory>
    ensures { OnOk result (Adds keys.old.items keys.new.items (λ k. same_parts (Key.Activity id.now) k)) }
{
    push(keys, Key::Activity(id.clone()?))
}

/// The keys of the Activity that the tree is, if it is one with an id.
pub fn push_activity(keys: &mut Vec<Key>, tree: &Tree, direct: bool) -> Result<(), Memory>
    ensures { OnOk result (Adds keys.old.items keys.new.items
        (activity_keys direct (λ id. is_activity_of id (view tree.now)))) }
{
    match activity_in(tree) {
        Some(id) => push_id(keys, id, direct),
        None => Ok(()),
    }
}

// ---- context activities

fn push_each_activity(keys: &mut Vec<Key>, items: &[Tree]) -> Result<(), Memory>
    ensures { OnOk result (Adds keys.old.items keys.new.items
        (activity_keys false (λ id. any_activity_of id (elements_of (map view items.now))))) }
{
    for item in items {
        push_activity(keys, item, false)?;
    }
    Ok(())
}

// An array has no id of its own, and an object no items.
fn push_held(keys: &mut Vec<Key>, held: &Tree) -> Result<(), Memory>
    ensures { OnOk result (Adds keys.old.items keys.new.items
        (activity_keys false (λ id. holds_activity id (view held.now)))) }
{
    push_each_activity(keys, items_in(held))?;
    push_activity(keys, held, false)
}

fn push_held_at(keys: &mut Vec<Key>, activities: &Tree, name: &str) -> Result<(), Memory>
    ensures { OnOk result (Adds keys.old.items keys.new.items
        (activity_keys false (λ id. holds_at name.now id (view activities.now)))) }
{
    match activities.get(name) {
        Some(held) => push_held(keys, held),
        None => Ok(()),
    }
}

fn push_both(
    keys: &mut Vec<Key>,
    activities: &Tree,
    first: &str,
    second: &str,
) -> Result<(), Memory>
    ensures { OnOk result (Adds keys.old.items keys.new.items (activity_keys false
        (λ id. holds_at first.now id (view activities.now) || holds_at second.now id (view activities.now)))) }
{
    push_held_at(keys, activities, first)?;
    push_held_at(keys, activities, second)
}

fn push_all_four(keys: &mut Vec<Key>, activities: &Tree) -> Result<(), Memory>
    ensures { OnOk result (Adds keys.old.items keys.new.items
        (activity_keys false (λ id. holds_some id (view activities.now)))) }
{
    push_both(keys, activities, "parent", "grouping")?;
    push_both(keys, activities, "category", "other")
}

/// The keys of the context activities of a context.
pub fn push_context_activities(keys: &mut Vec<Key>, context: &Tree) -> Result<(), Memory>
    ensures { OnOk result (Adds keys.old.items keys.new.items
        (activity_keys false (λ id. context_holds_some id (view context.now)))) }
{
    match context.get("contextActivities") {
        Some(activities) => push_all_four(keys, activities),
        None => Ok(()),
    }
}

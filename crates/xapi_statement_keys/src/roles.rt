// The roles in which a statement names parties and activities, each looked at once.
ghost use Rattle.std.specs.Prelude.{◌||◌, OnOk, Some, false, codes};
ghost use Rattle.lrs_json.specs.Find.{find};
ghost use Rattle.lrs_json.specs.View.{view};
ghost use Rattle.lrs_names.specs.Members.{has_member_that};
ghost use Rattle.xapi_query.specs.XapiStatementParties.{has_context_agent, has_direct_agent, is_party_object, is_party_of_context, nested_has_agent};
ghost use Rattle.xapi_query.specs.XapiStatementStatement.{has_some_context_activity, is_about, is_activity_of, nested_has_activity};
ghost use Rattle.xapi_statement_keys.specs.Adding.{Adds, agent_keys, context_holds_some, named_keys, object_keys, role_keys};

use crate::Key;
use crate::activities::{push_activity, push_context_activities};
use crate::parties::{push_party, push_party_at};
use lrs_json::{Memory, Tree};
use xapi_values::{Kind, is_nested};

/// The keys of the parties and activities of a statement, but for its authority.
pub fn push_roles(keys: &mut Vec<Key>, statement: &Tree) -> Result<(), Memory>
    ensures { OnOk result (Adds keys.old.items keys.new.items (role_keys (view statement.now))) }
{
    push_party_at(keys, statement, "actor", true)?;
    push_object_at(keys, statement)?;
    push_context(keys, statement)
}

// ---- contexts

fn push_context(keys: &mut Vec<Key>, statement: &Tree) -> Result<(), Memory>
    ensures { OnOk result (Adds keys.old.items keys.new.items (named_keys false
        (λ ifi. has_context_agent ifi (view statement.now))
        (λ id. has_some_context_activity id (view statement.now)))) }
{
    match statement.get("context") {
        Some(context) => push_of_context(keys, context),
        None => Ok(()),
    }
}

fn push_of_context(keys: &mut Vec<Key>, context: &Tree) -> Result<(), Memory>
    ensures { OnOk result (Adds keys.old.items keys.new.items (named_keys false
        (λ ifi. is_party_of_context ifi (view context.now)) (λ id. context_holds_some id (view context.now)))) }
{
    push_party_at(keys, context, "instructor", false)?;
    push_party_at(keys, context, "team", false)?;
    push_context_activities(keys, context)
}

// ---- objects

fn push_object_at(keys: &mut Vec<Key>, statement: &Tree) -> Result<(), Memory>
    ensures { OnOk result (Adds keys.old.items keys.new.items
        (object_keys (find (codes "object") (view statement.now)))) }
{
    match statement.get("object") {
        Some(object) => push_any_object(keys, object),
        None => Ok(()),
    }
}

fn push_any_object(keys: &mut Vec<Key>, object: &Tree) -> Result<(), Memory>
    ensures { OnOk result (Adds keys.old.items keys.new.items (object_keys (Some (view object.now)))) }
{
    push_object(keys, object, true)?;
    push_nested(keys, object)
}

// An object that is a party or an Activity.
fn push_object(keys: &mut Vec<Key>, object: &Tree, direct: bool) -> Result<(), Memory>
    ensures { OnOk result (Adds keys.old.items keys.new.items (named_keys direct
        (λ ifi. is_party_object ifi (view object.now)) (λ id. is_activity_of id (view object.now)))) }
{
    push_party_object(keys, object, direct)?;
    push_activity(keys, object, direct)
}

fn push_party_object(keys: &mut Vec<Key>, object: &Tree, direct: bool) -> Result<(), Memory>
    ensures { OnOk result (Adds keys.old.items keys.new.items
        (agent_keys direct (λ ifi. is_party_object ifi (view object.now)))) }
{
    if Kind::of(object).is_party() {
        push_party(keys, object, direct)
    } else {
        Ok(())
    }
}

// ---- SubStatements, whose roles are all related ones

fn push_nested(keys: &mut Vec<Key>, object: &Tree) -> Result<(), Memory>
    ensures { OnOk result (Adds keys.old.items keys.new.items (named_keys false
        (λ ifi. nested_has_agent ifi (view object.now)) (λ id. nested_has_activity id (view object.now)))) }
{
    if is_nested(object) {
        push_substatement(keys, object)
    } else {
        Ok(())
    }
}

fn push_substatement(keys: &mut Vec<Key>, nested: &Tree) -> Result<(), Memory>
    ensures { OnOk result (Adds keys.old.items keys.new.items (named_keys false
        (λ ifi. has_direct_agent ifi (view nested.now) || has_context_agent ifi (view nested.now))
        (λ id. is_about id (view nested.now) || has_some_context_activity id (view nested.now)))) }
{
    push_party_at(keys, nested, "actor", false)?;
    push_nested_object(keys, nested)?;
    push_context(keys, nested)
}

fn push_nested_object(keys: &mut Vec<Key>, nested: &Tree) -> Result<(), Memory>
    ensures { OnOk result (Adds keys.old.items keys.new.items (named_keys false
        (λ ifi. has_member_that (codes "object") (is_party_object ifi) (view nested.now))
        (λ id. is_about id (view nested.now)))) }
{
    match nested.get("object") {
        Some(object) => push_object(keys, object, false),
        None => Ok(()),
    }
}

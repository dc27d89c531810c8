ghost use Rattle.std.specs.Prelude.{◌≡◌, ◌&&◌, ◌||◌, IfOk, OnOk, Some};
ghost use Rattle.lrs_json.specs.View.{view};
ghost use Rattle.xapi_query.specs.XapiRulesRules.{is_voiding};
ghost use Rattle.xapi_query.specs.XapiStatementStatement.{target_of};
ghost use Rattle.xapi_statement_keys.specs.Adding.{Adds, authority_keys, own_keys, role_keys, reference_keys, registration_keys, same_parts};
ghost use Rattle.xapi_statement_keys.specs.Keys.{SameKeysAreOne, has_key, is_among};
ghost use Rattle.xapi_statement_keys.specs.declared.key.Key.{Key as SpecKey};

use crate::Key;
use crate::adding::push;
use crate::authority::push_authority;
use crate::roles::push_roles;
use lrs_json::{Memory, Text};
use lrs_names::Id;
use std::alloc::Global;
use xapi_query::StoredStatement;

/// The keys of a statement. One may stand in the list more than once.
#[derive(Drop)]
pub struct Keys {
    pub items: Vec<Key>,
}

impl Keys {
    /// All keys that the statement has.
    pub fn of(alloc: Global, statement: &StoredStatement) -> Result<Keys, Memory>
        ensures { IfOk result (λ keys. (k : SpecKey) → is_among k keys.items.items ≡ has_key k statement.now) }
    {
        let mut items = Vec::new(alloc);
        push_keys(&mut items, statement)?;
        Ok(Keys { items })
    }
}

/// Two keys that their order doesn't tell apart are one.
pub fn law_of_keys()
    ensures { SameKeysAreOne }
{}

fn push_keys(keys: &mut Vec<Key>, statement: &StoredStatement) -> Result<(), Memory>
    ensures { OnOk result (Adds keys.old.items keys.new.items (λ k. has_key k statement.now)) }
{
    push_own(keys, statement)?;
    push_named(keys, statement)?;
    push_references(keys, statement)
}

// Who takes part, and which activities it speaks of.
fn push_named(keys: &mut Vec<Key>, statement: &StoredStatement) -> Result<(), Memory>
    ensures { OnOk result (Adds keys.old.items keys.new.items
        (λ k. role_keys (view statement.now.received) k || authority_keys statement.now.authority k)) }
{
    push_roles(keys, statement.received())?;
    push_authority(keys, statement.authority())
}

// ---- what a statement has once

fn push_own(keys: &mut Vec<Key>, statement: &StoredStatement) -> Result<(), Memory>
    ensures { OnOk result (Adds keys.old.items keys.new.items (own_keys statement.now)) }
{
    push(keys, Key::Statement(statement.id()))?;
    push_verb(keys, statement.verb())?;
    push_registration(keys, statement.registration())
}

fn push_verb(keys: &mut Vec<Key>, verb: &str) -> Result<(), Memory>
    ensures { OnOk result (Adds keys.old.items keys.new.items (λ k. same_parts (Key.Verb verb.now) k)) }
{
    let text = Text::of(*keys.allocator(), verb)?;
    push(keys, Key::Verb(text))
}

fn push_registration(keys: &mut Vec<Key>, registration: Option<Id>) -> Result<(), Memory>
    ensures { OnOk result (Adds keys.old.items keys.new.items (registration_keys registration)) }
{
    match registration {
        Some(id) => push(keys, Key::Registration(id)),
        None => Ok(()),
    }
}

// ---- references

fn push_references(keys: &mut Vec<Key>, statement: &StoredStatement) -> Result<(), Memory>
    ensures { OnOk result (Adds keys.old.items keys.new.items
        (reference_keys (is_voiding (view statement.now.received)) (target_of (view statement.now.received)))) }
{
    match statement.target() {
        Some(id) => push_target(keys, &id, statement.is_voiding()),
        None => Ok(()),
    }
}

fn push_target(keys: &mut Vec<Key>, id: &Id, voiding: bool) -> Result<(), Memory>
    ensures { OnOk result (Adds keys.old.items keys.new.items (reference_keys voiding (Some id.now))) }
{
    push(keys, Key::Reference(*id))?;
    push_voiding(keys, id, voiding)?;
    push(keys, Key::AnyReference)
}

fn push_voiding(keys: &mut Vec<Key>, id: &Id, voiding: bool) -> Result<(), Memory>
    ensures { OnOk result (Adds keys.old.items keys.new.items (λ k. voiding && same_parts (Key.Voiding id.now) k)) }
{
    if voiding {
        push(keys, Key::Voiding(*id))
    } else {
        Ok(())
    }
}

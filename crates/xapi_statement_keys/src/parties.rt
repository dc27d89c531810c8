// The keys of Agents and Groups, by their identifiers and those of the members of Groups.
ghost use Rattle.std.specs.Prelude.{◌&&◌, OnOk, map, codes};
ghost use Rattle.lrs_agents.specs.Identifiers.{same_ifi};
ghost use Rattle.lrs_json.specs.View.{view, elements_of};
ghost use Rattle.lrs_names.specs.Members.{has_member_that};
ghost use Rattle.xapi_query.specs.XapiFormatParty.{any_identified, has_identified, is_identified, is_party};
ghost use Rattle.xapi_statement_keys.specs.Adding.{Adds, agent_keys, same_parts};

use crate::Key;
use crate::adding::push;
use crate::reading::items_in;
use lrs_agents::Ifi;
use lrs_json::{Memory, Tree};

/// The keys of who has that identifier, in a direct role or in a related one.
pub fn push_agent(keys: &mut Vec<Key>, ifi: Ifi, direct: bool) -> Result<(), Memory>
    ensures { OnOk result (Adds keys.old.items keys.new.items (agent_keys direct (λ other. same_ifi other ifi))) }
{
    push_plain_agent(keys, &ifi, direct)?;
    push(keys, Key::RelatedAgent(ifi))
}

// The plain key, in a direct role.
fn push_plain_agent(keys: &mut Vec<Key>, ifi: &Ifi, direct: bool) -> Result<(), Memory>
    ensures { OnOk result (Adds keys.old.items keys.new.items (λ k. direct && same_parts (Key.Agent ifi.now) k)) }
{
    if direct {
        push_agent_copy(keys, ifi)
    } else {
        Ok(())
    }
}

fn push_agent_copy(keys: &mut Vec<Key>, ifi: &Ifi) -> Result<(), Memory>
    ensures { OnOk result (Adds keys.old.items keys.new.items (λ k. same_parts (Key.Agent ifi.now) k)) }
{
    push(keys, Key::Agent(ifi.copy()?))
}

// The keys by the party's own identifier, if it has one.
fn push_identified(keys: &mut Vec<Key>, tree: &Tree, direct: bool) -> Result<(), Memory>
    ensures { OnOk result (Adds keys.old.items keys.new.items
        (agent_keys direct (λ ifi. is_identified ifi (view tree.now)))) }
{
    let found = Ifi::of(*keys.allocator(), tree)?;
    match found {
        Some(ifi) => push_agent(keys, ifi, direct),
        None => Ok(()),
    }
}

fn push_each_member(keys: &mut Vec<Key>, items: &[Tree], direct: bool) -> Result<(), Memory>
    ensures { OnOk result (Adds keys.old.items keys.new.items
        (agent_keys direct (λ ifi. any_identified ifi (elements_of (map view items.now))))) }
{
    for item in items {
        push_identified(keys, item, direct)?;
    }
    Ok(())
}

// The keys by the identifiers of its members, if it is a Group that has some.
fn push_members(keys: &mut Vec<Key>, tree: &Tree, direct: bool) -> Result<(), Memory>
    ensures { OnOk result (Adds keys.old.items keys.new.items
        (agent_keys direct (λ ifi. has_member_that (codes "member") (has_identified ifi) (view tree.now)))) }
{
    match tree.get("member") {
        Some(members) => push_each_member(keys, items_in(members), direct),
        None => Ok(()),
    }
}

/// The keys of the Agent or the Group that the tree is.
pub fn push_party(keys: &mut Vec<Key>, tree: &Tree, direct: bool) -> Result<(), Memory>
    ensures { OnOk result (Adds keys.old.items keys.new.items
        (agent_keys direct (λ ifi. is_party ifi (view tree.now)))) }
{
    push_identified(keys, tree, direct)?;
    push_members(keys, tree, direct)
}

/// The keys of the party under that name, if there is one.
pub fn push_party_at(
    keys: &mut Vec<Key>,
    tree: &Tree,
    name: &str,
    direct: bool,
) -> Result<(), Memory>
    ensures { OnOk result (Adds keys.old.items keys.new.items
        (agent_keys direct (λ ifi. has_member_that name.now (is_party ifi) (view tree.now)))) }
{
    match tree.get(name) {
        Some(party) => push_party(keys, party, direct),
        None => Ok(()),
    }
}

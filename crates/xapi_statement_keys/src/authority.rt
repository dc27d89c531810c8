// The keys of the authority under which a statement stands.
ghost use Rattle.std.specs.Prelude.{◌≡◌, ◌++◌, IfOk, OnOk, codes};
ghost use Rattle.lrs_names.specs.Ids.{id_text};
ghost use Rattle.xapi_query.specs.XapiFormatAuthorities.{account_name, home_page};
ghost use Rattle.xapi_statement_keys.specs.Adding.{Adds, authority_keys, provider_in, provider_keys};

use crate::Key;
use crate::adding::push;
use crate::parties::push_agent;
use lrs_agents::Ifi;
use lrs_json::{Memory, Text, utf8_text};
use lrs_names::Id;
use std::alloc::Global;
use xapi_query::Authority;

/// The key of the authority's Agent, and that of the provider that it is.
pub fn push_authority(keys: &mut Vec<Key>, authority: &Authority) -> Result<(), Memory>
    ensures { OnOk result (Adds keys.old.items keys.new.items (authority_keys authority.now)) }
{
    let account = account_of(*keys.allocator(), authority)?;
    push_agent(keys, account, false)?;
    push_provider(keys, authority)
}

fn push_provider(keys: &mut Vec<Key>, authority: &Authority) -> Result<(), Memory>
    ensures { OnOk result (Adds keys.old.items keys.new.items (provider_keys (provider_in authority.now))) }
{
    match provider_in(authority) {
        Some(number) => push(keys, Key::Provider(number)),
        None => Ok(()),
    }
}

fn provider_in(authority: &Authority) -> Option<u32>
    ensures { result ≡ provider_in authority.now }
{
    match authority {
        Authority::Admin | Authority::Session(_) | Authority::Desk => None,
        Authority::Provider { number, name: _ } => Some(*number),
    }
}

// What identifies the authority's Agent.
fn account_of(alloc: Global, authority: &Authority) -> Result<Ifi, Memory>
    ensures { IfOk result (λ ifi. ifi ≡ Ifi.Account home_page (account_name authority.now)) }
{
    let home = Text::of(alloc, Authority::HOME_PAGE)?;
    let name = account_name(alloc, authority)?;
    Ok(Ifi::Account { home, name })
}

fn account_name(alloc: Global, authority: &Authority) -> Result<Text, Memory>
    ensures { IfOk result (λ name. name ≡ account_name authority.now) }
{
    match authority {
        Authority::Admin => Text::of(alloc, "admin"),
        Authority::Provider { number, name: _ } => {
            let name = format!(in alloc; "provider:{number}")?;
            Text::of(alloc, name.as_str())
        }
        Authority::Session(id) => session_name(alloc, id),
        Authority::Desk => Text::of(alloc, "desk"),
    }
}

fn session_name(alloc: Global, id: &Id) -> Result<Text, Memory>
    ensures { IfOk result (λ name. name ≡ codes "session:" ++ id_text id.now) }
{
    let id = id.text();
    let id = utf8_text(&id);
    let name = format!(in alloc; "session:{id}")?;
    Text::of(alloc, name.as_str())
}

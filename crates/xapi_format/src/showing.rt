// Which members the store writes, and the text of the Agent of an authority. What stood before that text stays if
// memory runs out in the middle.
ghost use Rattle.std.specs.Prelude.{◌≡◌, ◌∷◌, [], ◌++◌, false, true, OnOk, codes};
ghost use Rattle.lrs_json.specs.Json.{string};
ghost use Rattle.lrs_json.specs.Texts.{member_text};
ghost use Rattle.lrs_json.specs.View.{members_of};
ghost use Rattle.lrs_json.specs.Written.{Extends, members_text};
ghost use Rattle.std.specs.Fmt.{decimal};
ghost use Rattle.xapi_format.specs.Authorities.{account_json, account_name, authority_name, home_page};
ghost use Rattle.xapi_format.specs.Completed.{added_names};
ghost use Rattle.xapi_values.specs.LrsNamesIds.{id_text};
ghost use Rattle.xapi_values.specs.LrsNamesMembers.{is_one_of};

use crate::Authority;
use lrs_json::appending::{put, put_name, put_quoted_parts, put_text};
use lrs_json::{Memory, utf8_text};
use xapi_values::Id;

/// Whether the store writes the member of that name itself.
pub fn is_added(name: &str) -> bool
    ensures { result ≡ is_one_of added_names name.now }
{
    matches!(
        name,
        "id" | "timestamp" | "stored" | "authority" | "version"
    )
}

/// The first members of the Agent of an authority.
#[tactic(auto, using(lrs_json::proofs::Extending::extends_trans))]
pub(crate) fn put_agent_names(authority: &Authority, into: &mut Vec<u8>) -> Result<(), Memory>
    ensures ok { OnOk result (into.new.items ≡ into.old.items
        ++ (member_text false (codes "objectType") (string (codes "Agent"))
        ++ member_text true (codes "name") (string (authority_name authority.now)))) }
    ensures kept { Extends into.old.items into.new.items }
{
    put_text(false, "objectType", "Agent", into)?;
    put_text(true, "name", authority.name(), into)
}

/// The account of the Agent, and the Agent's closing brace.
#[tactic(auto, using(lrs_json::proofs::Extending::extends_trans))]
pub(crate) fn put_account(authority: &Authority, into: &mut Vec<u8>) -> Result<(), Memory>
    ensures ok { OnOk result (into.new.items ≡ into.old.items
        ++ members_text true (members_of ((codes "account", account_json (account_name authority.now)) ∷ []))) }
    ensures kept { Extends into.old.items into.new.items }
{
    put_name(true, "account", into)?;
    put(b"{", into)?;
    put_account_members(authority, into)
}

// The members of the account, its closing brace, and the Agent's.
#[tactic(auto, using(lrs_json::proofs::Extending::extends_trans))]
fn put_account_members(authority: &Authority, into: &mut Vec<u8>) -> Result<(), Memory>
    ensures ok { OnOk result (into.new.items ≡ into.old.items
        ++ (member_text false (codes "homePage") (string home_page)
        ++ (member_text true (codes "name") (string (account_name authority.now)) ++ codes "}}"))) }
    ensures kept { Extends into.old.items into.new.items }
{
    put_text(false, "homePage", Authority::HOME_PAGE, into)?;
    put_account_name(authority, into)?;
    put(b"}}", into)
}

#[tactic(auto, using(lrs_json::proofs::Extending::extends_trans))]
fn put_account_name(authority: &Authority, into: &mut Vec<u8>) -> Result<(), Memory>
    ensures ok { OnOk result (into.new.items ≡ into.old.items
        ++ member_text true (codes "name") (string (account_name authority.now))) }
    ensures kept { Extends into.old.items into.new.items }
{
    match authority {
        Authority::Admin => put_text(true, "name", "admin", into),
        Authority::Provider { number, name: _ } => put_numbered(*number, into),
        Authority::Session(id) => put_session(id, into),
        Authority::Desk => put_text(true, "name", "desk", into),
    }
}

#[tactic(auto, using(lrs_json::proofs::Extending::extends_trans))]
fn put_session(id: &Id, into: &mut Vec<u8>) -> Result<(), Memory>
    ensures ok { OnOk result (into.new.items ≡ into.old.items
        ++ member_text true (codes "name") (string (codes "session:" ++ id_text id.now))) }
    ensures kept { Extends into.old.items into.new.items }
{
    put_name(true, "name", into)?;
    put_quoted_parts("session:", utf8_text(&id.text()), into)
}

#[tactic(auto, using(lrs_json::proofs::Extending::extends_trans))]
fn put_numbered(number: u32, into: &mut Vec<u8>) -> Result<(), Memory>
    ensures ok { OnOk result (into.new.items ≡ into.old.items
        ++ member_text true (codes "name") (string (codes "provider:" ++ decimal number))) }
    ensures kept { Extends into.old.items into.new.items }
{
    let mut buffer = itoa::Buffer::new();
    put_name(true, "name", into)?;
    put_quoted_parts("provider:", buffer.format(number), into)
}

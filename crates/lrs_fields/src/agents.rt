// An agent's text: of its identifier alone, and of a learner with a name, written and read.
ghost use Rattle.std.specs.Prelude.{◌≡◌, ◌++◌, true, OnOk, IfSome, IsUtf8, codes};
ghost use Rattle.std.specs.List.{flat_map};
ghost use Rattle.lrs_agents.specs.Identifiers.{account_json, identifier_json};
ghost use Rattle.lrs_agent_texts.specs.Texts.{agent_json, identifier_member, text_given};
ghost use Rattle.lrs_decimal.specs.Numbers.{Ends};
ghost use Rattle.lrs_fields.specs.Reading.{Reads, enclosed_text, identifier_text};
ghost use Rattle.lrs_fields.specs.Values.{HoldsActor, HoldsAgent};
ghost use Rattle.lrs_json.specs.Texts.{member_text};
ghost use Rattle.lrs_json.specs.Written.{Extends, written};

use crate::fields::{optional_text_behind, text_behind};
use lrs_agents::{Agent, Ifi};
use lrs_json::appending::{put, put_name, put_text};
use lrs_json::{Memory, Text};
use lrs_json_reader::Stop;
use lrs_json_written::{Cursor, read_text};

/// An object with the identifier alone.
pub fn put_agent(agent: &Ifi, into: &mut Vec<u8>) -> Result<(), Memory>
    ensures ok { OnOk result (into.new.items ≡ into.old.items ++ written (identifier_json agent.now)) }
    ensures kept { Extends into.old.items into.new.items }
    ensures holds { OnOk result (HoldsAgent agent.now) }
{
    put(b"{", into)?;
    put_identifier(false, agent, into)?;
    put(b"}", into)
}

/// An object with what it is, its name, if it has one, and its identifier.
pub fn put_actor(actor: &Agent, into: &mut Vec<u8>) -> Result<(), Memory>
    ensures ok { OnOk result (into.new.items ≡ into.old.items ++ written (agent_json actor.now)) }
    ensures kept { Extends into.old.items into.new.items }
    ensures holds { OnOk result (HoldsActor actor.now) }
{
    put(b"{", into)?;
    put_text(false, "objectType", "Agent", into)?;
    put_given(&actor.name, into)?;
    put_identifier(true, &actor.ifi, into)?;
    put(b"}", into)
}

// The member for the name, behind another, if there is one.
fn put_given(name: &Option<Text>, into: &mut Vec<u8>) -> Result<(), Memory>
    ensures ok { OnOk result (into.new.items ≡ into.old.items
        ++ flat_map (λ member. member_text true member.0 member.1) (text_given (codes "name") name.now)) }
    ensures kept { Extends into.old.items into.new.items }
    ensures holds { OnOk result (IfSome name.now IsUtf8) }
{
    match name {
        Some(name) => put_text(true, "name", name.as_str(), into),
        None => Ok(()),
    }
}

// The member that identifies.
fn put_identifier(later: bool, ifi: &Ifi, into: &mut Vec<u8>) -> Result<(), Memory>
    ensures ok { OnOk result (into.new.items ≡ into.old.items
        ++ member_text later (identifier_member ifi.now).0 (identifier_member ifi.now).1) }
    ensures kept { Extends into.old.items into.new.items }
    ensures holds { OnOk result (HoldsAgent ifi.now) }
{
    match ifi {
        Ifi::Mbox(text) => put_text(later, "mbox", text.as_str(), into),
        Ifi::MboxSha1(text) => put_text(later, "mbox_sha1sum", text.as_str(), into),
        Ifi::OpenId(text) => put_text(later, "openid", text.as_str(), into),
        Ifi::Account { home, name } => put_account(later, home, name, into),
    }
}

// The member for the account of that home page and that name.
#[tactic(auto, using(lrs_json::proofs::Extending::extends_trans))]
fn put_account(later: bool, home: &Text, name: &Text, into: &mut Vec<u8>) -> Result<(), Memory>
    ensures ok { OnOk result (into.new.items
        ≡ into.old.items ++ member_text later (codes "account") (account_json home.now name.now)) }
    ensures kept { Extends into.old.items into.new.items }
    ensures holds { OnOk result (IsUtf8 home.now × IsUtf8 name.now) }
{
    put_name(later, "account", into)?;
    put_home(home, name, into)
}

fn put_home(home: &Text, name: &Text, into: &mut Vec<u8>) -> Result<(), Memory>
    ensures ok { OnOk result (into.new.items ≡ into.old.items ++ written (account_json home.now name.now)) }
    ensures kept { Extends into.old.items into.new.items }
    ensures holds { OnOk result (IsUtf8 home.now × IsUtf8 name.now) }
{
    put(b"{", into)?;
    put_text(false, "homePage", home.as_str(), into)?;
    put_text(true, "name", name.as_str(), into)?;
    put(b"}", into)
}

/// An object with what an agent is, its name, if it has one, and its identifier.
pub fn read_actor(cursor: &mut Cursor<'_>) -> Result<Agent, Stop>
    ensures { Reads (λ actor. written (agent_json actor)) HoldsActor Ends cursor.old result cursor.new }
{
    cursor.word(b"{\"objectType\":\"Agent\"")?;
    let name = optional_text_behind(b",\"name\":", cursor)?;
    let ifi = closed_identifier(b",", cursor)?;
    Ok(Agent { ifi, name })
}

/// The member that identifies, behind these bytes, and a closing brace.
pub fn closed_identifier(front: &[u8], cursor: &mut Cursor<'_>) -> Result<Ifi, Stop>
    ensures { Reads (enclosed_text front.now) HoldsAgent Ends cursor.old result cursor.new }
{
    cursor.word(front)?;
    let ifi = identifier(cursor)?;
    cursor.word(b"}")?;
    Ok(ifi)
}

fn identifier(cursor: &mut Cursor<'_>) -> Result<Ifi, Stop>
    ensures { Reads identifier_text HoldsAgent Ends cursor.old result cursor.new }
{
    if cursor.take(b"\"account\":") {
        let (home, name) = account(cursor)?;
        return Ok(Ifi::Account { home, name });
    }
    if cursor.take(b"\"mbox\":") {
        return Ok(Ifi::Mbox(read_text(cursor)?));
    }
    if cursor.take(b"\"mbox_sha1sum\":") {
        return Ok(Ifi::MboxSha1(read_text(cursor)?));
    }
    cursor.word(b"\"openid\":")?;
    Ok(Ifi::OpenId(read_text(cursor)?))
}

// A home page and a name.
fn account(cursor: &mut Cursor<'_>) -> Result<(Text, Text), Stop>
    ensures { Reads (λ own. written (account_json own.0 own.1)) (λ own. IsUtf8 own.0 × IsUtf8 own.1) Ends
        cursor.old result cursor.new }
{
    let home = text_behind(b"{\"homePage\":", cursor)?;
    let name = text_behind(b",\"name\":", cursor)?;
    cursor.word(b"}")?;
    Ok((home, name))
}

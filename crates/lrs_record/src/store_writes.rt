// The writes of statements and of documents: how their fields are lent, and read back.
ghost use Rattle.std.specs.Prelude.{◌≡◌, ◌∷◌, ◌++◌, [], codes, false, None, OnOk, Some};
ghost use Rattle.lrs_fields.specs.LrsDecimalNumbers.{Ends};
ghost use Rattle.lrs_fields.specs.Reading.{Reads, ReadsField};
ghost use Rattle.lrs_fields.specs.Values.{members_for, text_value};
ghost use Rattle.lrs_json.specs.View.{members_of};
ghost use Rattle.lrs_json.specs.Written.{Extends, members_text};
ghost use Rattle.lrs_record.specs.Entries.{HoldsWrite};
ghost use Rattle.lrs_record.specs.Reading.{IsKeptKey, ReadsWrite, key_text};
ghost use Rattle.lrs_record.specs.Writes.{how_text, write_fields};
ghost use Rattle.lrs_record.specs.declared.entry.Write.TheVariants as write;

use crate::{How, Write};
use lrs_agents::Ifi;
use lrs_fields::{
    Lent, ReceivedText, agent_behind, bytes_behind, id_behind, iri_behind, optional_id_behind,
    optional_text_behind, put_fields, text_behind, tree_behind, trees_behind,
};
use lrs_json::{Items, Memory, Text, Tree};
use lrs_json_reader::Stop;
use lrs_json_written::Cursor;
use lrs_names::{Id, Iri};
use xapi_keys::StateKey;

/// Appends the fields of a statement that is kept, copied from the one text, and the closing brace.
pub fn copy_statement(
    id: &Id,
    statement: &Tree,
    texts: &Items<ReceivedText>,
    into: &mut Vec<u8>,
) -> Result<(), Memory>
    requires { texts.now ≡ statement.now ∷ [] }
    ensures ok { OnOk result (into.new.items ≡ into.old.items ++ members_text false
        (members_of (members_for (write_fields (write.Put id.now statement.now))))) }
    ensures kept { Extends into.old.items into.new.items }
    ensures holds { OnOk result (HoldsWrite (write.Put id.now statement.now)) }
{
    match texts.get(0) {
        Some(text) => put_statement(id, text, into),
        None => unreachable!(),
    }
}

// The fields of the statement of that text.
fn put_statement(id: &Id, text: &ReceivedText, into: &mut Vec<u8>) -> Result<(), Memory>
    ensures ok { OnOk result (into.new.items ≡ into.old.items ++ members_text false
        (members_of (members_for (write_fields (write.Put id.now text.now))))) }
    ensures kept { Extends into.old.items into.new.items }
    ensures holds { OnOk result (HoldsWrite (write.Put id.now text.now)) }
{
    put_fields(
        &[("id", Lent::Id(id)), ("statement", Lent::Received(text))],
        into,
    )
}

/// Appends the fields of the statements of these texts, kept together, and the closing brace.
pub fn copy_statements(texts: &Items<ReceivedText>, into: &mut Vec<u8>) -> Result<(), Memory>
    ensures ok { OnOk result (into.new.items ≡ into.old.items ++ members_text false
        (members_of (members_for (write_fields (write.Post texts.now))))) }
    ensures kept { Extends into.old.items into.new.items }
    ensures holds { OnOk result (HoldsWrite (write.Post texts.now)) }
{
    put_fields(&[("statements", Lent::AllReceived(texts))], into)
}

/// Appends the fields of a document that is written, and the closing brace.
pub fn put_state(
    how: How,
    key: &StateKey,
    media: &Text,
    bytes: &Items<u8>,
    into: &mut Vec<u8>,
) -> Result<(), Memory>
    ensures ok { OnOk result (into.new.items ≡ into.old.items ++ members_text false
        (members_of (members_for (write_fields (write.State how key.now media.now bytes.now))))) }
    ensures kept { Extends into.old.items into.new.items }
    ensures holds { OnOk result (HoldsWrite (write.State how key.now media.now bytes.now)) }
{
    match &key.registration {
        Some(registration) => put_fields(
            &[
                ("how", Lent::Word(how.text())),
                ("activity", Lent::Iri(&key.activity)),
                ("agent", Lent::Agent(&key.agent)),
                ("registration", Lent::Id(registration)),
                ("state", Lent::Text(&key.state)),
                ("type", Lent::Text(media)),
                ("bytes", Lent::Bytes(bytes)),
            ],
            into,
        ),
        None => put_fields(
            &[
                ("how", Lent::Word(how.text())),
                ("activity", Lent::Iri(&key.activity)),
                ("agent", Lent::Agent(&key.agent)),
                ("state", Lent::Text(&key.state)),
                ("type", Lent::Text(media)),
                ("bytes", Lent::Bytes(bytes)),
            ],
            into,
        ),
    }
}

/// Appends the fields of documents that are dropped, and the closing brace.
pub fn put_drop(
    activity: &Iri,
    agent: &Ifi,
    registration: &Option<Id>,
    state: &Option<Text>,
    into: &mut Vec<u8>,
) -> Result<(), Memory>
    ensures ok { OnOk result (into.new.items ≡ into.old.items ++ members_text false
        (members_of (members_for (write_fields (write.Drop activity.now agent.now registration.now state.now))))) }
    ensures kept { Extends into.old.items into.new.items }
    ensures holds { OnOk result (HoldsWrite (write.Drop activity.now agent.now registration.now state.now)) }
{
    match registration {
        Some(registration) => put_drop_in(activity, agent, registration, state, into),
        None => put_drop_anywhere(activity, agent, state, into),
    }
}

// The same of documents in a registration.
fn put_drop_in(
    activity: &Iri,
    agent: &Ifi,
    registration: &Id,
    state: &Option<Text>,
    into: &mut Vec<u8>,
) -> Result<(), Memory>
    ensures ok { OnOk result (into.new.items ≡ into.old.items ++ members_text false (members_of (members_for
        (write_fields (write.Drop activity.now agent.now (Some registration.now) state.now))))) }
    ensures kept { Extends into.old.items into.new.items }
    ensures holds { OnOk result (HoldsWrite (write.Drop activity.now agent.now (Some registration.now) state.now)) }
{
    let first = ("activity", Lent::Iri(activity));
    let second = ("agent", Lent::Agent(agent));
    let third = ("registration", Lent::Id(registration));
    match state {
        Some(text) => put_fields(&[first, second, third, ("state", Lent::Text(text))], into),
        None => put_fields(&[first, second, third], into),
    }
}

// The same of documents in any registration, or in none.
fn put_drop_anywhere(
    activity: &Iri,
    agent: &Ifi,
    state: &Option<Text>,
    into: &mut Vec<u8>,
) -> Result<(), Memory>
    ensures ok { OnOk result (into.new.items ≡ into.old.items ++ members_text false (members_of (members_for
        (write_fields (write.Drop activity.now agent.now None state.now))))) }
    ensures kept { Extends into.old.items into.new.items }
    ensures holds { OnOk result (HoldsWrite (write.Drop activity.now agent.now None state.now)) }
{
    let first = ("activity", Lent::Iri(activity));
    let second = ("agent", Lent::Agent(agent));
    match state {
        Some(text) => put_fields(&[first, second, ("state", Lent::Text(text))], into),
        None => put_fields(&[first, second], into),
    }
}

// Each of the following reads fields of a write, up to the brace that closes them all.

/// A statement that is kept.
pub fn read_put(cursor: &mut Cursor<'_>) -> Result<Write, Stop>
    ensures { ReadsWrite (codes "put") cursor.old result cursor.new }
{
    let id = id_behind(b"\"id\":", cursor)?;
    let statement = tree_behind(b",\"statement\":", cursor)?;
    Ok(Write::Put { id, statement })
}

/// Statements that are kept together.
pub fn read_post(cursor: &mut Cursor<'_>) -> Result<Write, Stop>
    ensures { ReadsWrite (codes "post") cursor.old result cursor.new }
{
    let statements = trees_behind(b"\"statements\":", cursor)?;
    Ok(Write::Post { statements })
}

/// A document that is written.
pub fn read_state(cursor: &mut Cursor<'_>) -> Result<Write, Stop>
    ensures { ReadsWrite (codes "state") cursor.old result cursor.new }
{
    let how = how_behind(b"\"how\":", cursor)?;
    let key = read_key(cursor)?;
    let media = text_behind(b",\"type\":", cursor)?;
    let bytes = bytes_behind(b",\"bytes\":", cursor)?;
    Ok(Write::State {
        how,
        key,
        media,
        bytes,
    })
}

fn how_behind(front: &[u8], cursor: &mut Cursor<'_>) -> Result<How, Stop>
    ensures { ReadsField front.now (λ how. text_value (how_text how)) cursor.old result cursor.new }
{
    let text = text_behind(front, cursor)?;
    How::of(text.as_str()).ok_or(Stop::Bad)
}

// What the document stands under.
fn read_key(cursor: &mut Cursor<'_>) -> Result<StateKey, Stop>
    ensures { Reads key_text IsKeptKey Ends cursor.old result cursor.new }
{
    let activity = iri_behind(b",\"activity\":", cursor)?;
    let agent = agent_behind(b",\"agent\":", cursor)?;
    let registration = optional_id_behind(b",\"registration\":", cursor)?;
    let state = text_behind(b",\"state\":", cursor)?;
    Ok(StateKey {
        activity,
        agent,
        registration,
        state,
    })
}

/// Documents that are dropped.
pub fn read_drop(cursor: &mut Cursor<'_>) -> Result<Write, Stop>
    ensures { ReadsWrite (codes "drop") cursor.old result cursor.new }
{
    let activity = iri_behind(b"\"activity\":", cursor)?;
    let agent = agent_behind(b",\"agent\":", cursor)?;
    let registration = optional_id_behind(b",\"registration\":", cursor)?;
    let state = optional_text_behind(b",\"state\":", cursor)?;
    Ok(Write::Drop {
        activity,
        agent,
        registration,
        state,
    })
}

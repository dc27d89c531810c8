// What a row asks of documents. They are of one activity, and named by a word:
//
//   STATE:REGISTRATION:ADDRESS   the state id, `-` for none; an id, nothing for none; the agent's mail address, which may
//                                be missing with its colon, as the registration may
ghost use Rattle.std.specs.Prelude.{IfOk};
ghost use Rattle.lrs_command.specs.Commands.{HasReadTrees};

use crate::rows::desk_rows::{first_word, number};
use lrs_agents::Ifi;
use lrs_command::{Command, Read};
use lrs_json::{Items, Text};
use lrs_names::{Id, Iri};
use lrs_record::{How, Write};
use lrs_time::Moment;
use std::alloc::Global;
use std::test::Fail;
use xapi_keys::{StateKey, WantedDocuments};

fn activity(alloc: Global) -> Result<Iri, Fail> {
    match Iri::read(Text::of(alloc, "http://a/1")?) {
        Ok(iri) => Ok(iri),
        Err(_) => Err(Fail::from("no IRI")),
    }
}

fn agent(alloc: Global, address: &str) -> Result<Ifi, Fail> {
    let address = if address.is_empty() { "a@b" } else { address };
    let text = format!(in alloc; "mailto:{address}")?;
    Ok(Ifi::Mbox(Text::of(alloc, text.as_str())?))
}

fn registration(word: &str) -> Result<Option<Id>, Fail> {
    if word.is_empty() {
        Ok(None)
    } else {
        Ok(Some(Id::read(word.as_bytes()).ok_or("no id")?))
    }
}

fn key(alloc: Global, word: &str) -> Result<StateKey, Fail> {
    let (state, owner) = word.split_once(':').unwrap_or((word, ""));
    let (id, address) = owner.split_once(':').unwrap_or((owner, ""));
    Ok(StateKey {
        registration: registration(id)?,
        activity: activity(alloc)?,
        agent: agent(alloc, address)?,
        state: Text::of(alloc, state)?,
    })
}

fn how(word: &str) -> How {
    if word == "post" { How::Post } else { How::Put }
}

// The text with so many letters in place of the number between two stars.
fn spelled(alloc: Global, text: &str) -> Result<String, Fail> {
    let Some((before, behind)) = text.split_once('*') else {
        return Ok(String::from_str(alloc, text)?);
    };
    let (count, behind) = behind.split_once('*').ok_or("no star")?;
    let run = "x".repeat(alloc, number(count)?)?;
    Ok(format!(in alloc; "{before}{run}{behind}")?)
}

/// A document is written: `HOW DOCUMENT TYPE BYTES`, with `-` for the type that is empty.
#[tactic(auto, using(lrs_record::proofs::Writes::lawful_state))]
pub(crate) fn state(alloc: Global, asked: &str) -> Result<Command, Fail>
    ensures { IfOk result HasReadTrees }
{
    let (word, behind) = first_word(asked);
    let (named, behind) = first_word(behind);
    let (media, bytes) = first_word(behind);
    let media = spelled(alloc, if media == "-" { "" } else { media })?;
    let media = Text::of(alloc, media.as_str())?;
    let bytes = Items::from_vec(spelled(alloc, bytes)?.as_bytes().to_vec(alloc)?);
    let key = key(alloc, named)?;
    Ok(Command::Write(Write::State {
        how: how(word),
        key,
        media,
        bytes,
    }))
}

/// Documents go: `DOCUMENT`.
#[tactic(auto, using(lrs_record::proofs::Writes::lawful_drop))]
pub(crate) fn drop_of(alloc: Global, asked: &str) -> Result<Command, Fail>
    ensures { IfOk result HasReadTrees }
{
    let StateKey {
        activity,
        agent,
        registration,
        state,
    } = key(alloc, asked)?;
    let state = if state.as_str() == "-" {
        None
    } else {
        Some(state)
    };
    Ok(Command::Write(Write::Drop {
        activity,
        agent,
        registration,
        state,
    }))
}

/// A document is asked for: `DOCUMENT`.
pub(crate) fn document(alloc: Global, asked: &str) -> Result<Command, Fail>
    ensures { IfOk result HasReadTrees }
{
    let key = key(alloc, asked)?;
    Ok(Command::Read(Read::Documents(WantedDocuments::One(key))))
}

/// The ids of documents are asked for: `DOCUMENT MOMENT`, the moment in milliseconds, where one is given.
pub(crate) fn ids(alloc: Global, asked: &str) -> Result<Command, Fail>
    ensures { IfOk result HasReadTrees }
{
    let (named, moment) = first_word(asked);
    let since = match moment.parse::<u64>() {
        Ok(moment) => Some(Moment::clamp(moment).instant()),
        Err(_) => None,
    };
    let StateKey {
        activity,
        agent,
        registration,
        state,
    } = key(alloc, named)?;
    drop(state);
    Ok(Command::Read(Read::Documents(WantedDocuments::Ids {
        activity,
        agent,
        registration,
        since,
    })))
}

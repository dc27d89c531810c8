// Documents that come and go, as a text of rows: what is done, and after `=>` the state ids then.
//
//   write REGISTRATION STATE MOMENT     a document comes, `-` for no registration
//   drop REGISTRATION STATE             it goes, `-` for all
//   ids REGISTRATION SINCE              the ids of those that are later than that moment, `-` for all
use crate::failing::none_wrong;
use lrs_agents::Ifi;
use lrs_json::{Items, Text};
use lrs_names::{Id, Iri};
use lrs_time::Moment;
use std::alloc::Global;
use std::test::Fail;
use xapi_docs::{Docs, Document, DocumentsChange};
use xapi_keys::StateKey;

const FIRST: &str = "11111111-1111-4111-8111-111111111111";

const ROWS: &str = "write - b 5 => b
write - a 6 => a b
write - B 7 => B a b
write R a 8 => a
ids - - => B a b
ids - 5 => B a
ids - 7 =>
ids R - => a
write - a 9 => B a b
ids - 8 => a
drop - a => B b
drop - c => B b
drop R - =>
ids - - => B b
drop - - =>
write - a 10 => a";

fn registration_in(word: &str) -> Option<Id> {
    if word == "-" {
        None
    } else {
        Id::read(FIRST.as_bytes())
    }
}

// The word at that index of a row.
fn word<'a>(words: &[&'a str], index: usize) -> Result<&'a str, Fail> {
    match words.get(index) {
        Some(word) => Ok(*word),
        None => Err(Fail::from("a word is missing")),
    }
}

fn activity(alloc: Global) -> Result<Iri, Fail> {
    match Iri::read(Text::of(alloc, "http://a/1")?) {
        Ok(iri) => Ok(iri),
        Err(_) => Err(Fail::from("no IRI")),
    }
}

fn agent(alloc: Global) -> Result<Ifi, Fail> {
    Ok(Ifi::Mbox(Text::of(alloc, "mailto:a@b")?))
}

fn write(alloc: Global, docs: &mut Docs, words: &[&str]) -> Result<(), Fail> {
    let moment = word(words, 3)?
        .parse::<u64>()
        .map_err(|_| Fail::from("no number"))?;
    let change = DocumentsChange::Written {
        key: StateKey {
            activity: activity(alloc)?,
            agent: agent(alloc)?,
            registration: registration_in(word(words, 1)?),
            state: Text::of(alloc, word(words, 2)?)?,
        },
        document: Document {
            media: Text::of(alloc, "text/plain")?,
            bytes: Items::new(alloc),
            moment: Moment::clamp(moment),
        },
    };
    docs.ready_change(&change)?;
    docs.install_change(change);
    Ok(())
}

fn drop_those(alloc: Global, docs: &mut Docs, words: &[&str]) -> Result<(), Fail> {
    let state = match word(words, 2)? {
        "-" => None,
        state => Some(Text::of(alloc, state)?),
    };
    let keys = docs.keys(
        &activity(alloc)?,
        &agent(alloc)?,
        &registration_in(word(words, 1)?),
        &state,
    )?;
    docs.install_change(DocumentsChange::Dropped(keys));
    Ok(())
}

// The ids with a space between them.
fn shown(alloc: Global, docs: &Docs, registration: &str, since: &str) -> Result<String, Fail> {
    let since = match since.parse::<u64>() {
        Ok(moment) => Some(Moment::clamp(moment).instant()),
        Err(_) => None,
    };
    let ids = docs.ids(
        &activity(alloc)?,
        &agent(alloc)?,
        &registration_in(registration),
        since,
    )?;
    let mut text = String::new(alloc);
    for (i, id) in ids.iter().enumerate() {
        if i > 0 {
            text.push(' ')?;
        }
        text.push_str(id.as_str())?;
    }
    Ok(text)
}

fn done(alloc: Global, docs: &mut Docs, asked: &str) -> Result<String, Fail> {
    let words: Vec<&str> = asked.split(' ').collect(alloc)?;
    let words = words.as_slice();
    let registration = word(words, 1)?;
    match word(words, 0)? {
        "write" => {
            write(alloc, docs, words)?;
            shown(alloc, docs, registration, "-")
        }
        "drop" => {
            drop_those(alloc, docs, words)?;
            shown(alloc, docs, registration, "-")
        }
        _ => shown(alloc, docs, registration, word(words, 2)?),
    }
}

fn first_wrong_row(alloc: Global, docs: &mut Docs) -> Result<Option<usize>, Fail> {
    for (i, row) in ROWS.lines().enumerate() {
        let (asked, expected) = row.split_once(" =>").ok_or("no answer")?;
        let found = done(alloc, docs, asked)?;
        if found.as_str() != expected.trim_start() {
            return Ok(Some(i));
        }
    }
    Ok(None)
}

#[test]
fn documents_come_and_go(rt: HostRuntime) -> Result<(), Fail> {
    let mut docs = Docs::new(rt.alloc());
    let wrong = first_wrong_row(rt.alloc(), &mut docs);
    drop(docs);
    none_wrong(wrong?)
}

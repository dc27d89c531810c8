// Statements by words: who says it, a verb and, after a colon, the number of a node, as `first-completed:2`. What is
// said first has the id 1, what is said next the id 2. `admin-voids:1` voids the statement of that id. Who says it is
// one of these:
//
//   first      the session that is told of, in the first registration
//   later      another session of that registration
//   second     a session of the second registration
//   desk       the store itself, of the first registration
//   office     the store itself, of the second registration
//   admin      an admin, who voids
use lrs_json_reader::read;
use lrs_names::Id;
use lrs_time::Moment;
use std::alloc::Global;
use std::test::Fail;
use xapi_statement::{Authority, Statement, StoredStatement};

/// The words of which the ids of the registrations and sessions are made.
pub(crate) const FIRST_REGISTRATION: u128 = 16;

pub(crate) const SECOND_REGISTRATION: u128 = 17;

pub(crate) const FIRST: u128 = 32;

pub(crate) const LATER: u128 = 33;

pub(crate) const SECOND: u128 = 34;

const SAYING: &str =
    r#"{"actor":{"mbox":"mailto:a@b"},"verb":{"id":"VERBS/NAME"},"object":{"id":"http://s/activities/0/NODE"},"context":{"registration":"REGISTRATION","contextActivities":{"category":[{"id":"https://w3id.org/xapi/cmi5/context/categories/cmi5"}]}}}"#;

const VOIDING: &str =
    r#"{"actor":{"mbox":"mailto:a@b"},"verb":{"id":"http://adlnet.gov/expapi/verbs/voided"},"object":{"objectType":"StatementRef","id":"STATEMENT"}}"#;

/// The statement of these words, under the id and at the moment of that number.
pub(crate) fn stored(alloc: Global, word: &str, number: u64) -> Result<StoredStatement, Fail> {
    let (said, node) = word.split_once(':').ok_or("a word without a number")?;
    let (who, verb) = said.split_once('-').ok_or("nobody says it")?;
    let text = text_of(alloc, who, verb, node)?;
    let statement = completed(alloc, text.as_str(), number, who);
    drop(text);
    statement
}

fn completed(alloc: Global, text: &str, number: u64, who: &str) -> Result<StoredStatement, Fail> {
    let tree = read(alloc, text.as_bytes())?;
    let statement = Statement::read(alloc, tree)?;
    Ok(statement.complete(
        Id::of_word(u128::from(number)),
        Moment::clamp(number),
        authority_of(who),
    ))
}

fn authority_of(who: &str) -> Authority {
    match who {
        "first" => Authority::Session(Id::of_word(FIRST)),
        "later" => Authority::Session(Id::of_word(LATER)),
        "second" => Authority::Session(Id::of_word(SECOND)),
        "admin" => Authority::Admin,
        _ => Authority::Desk,
    }
}

fn registration_of(who: &str) -> Id {
    match who {
        "second" | "office" => Id::of_word(SECOND_REGISTRATION),
        _ => Id::of_word(FIRST_REGISTRATION),
    }
}

// ---- texts

fn text_of(alloc: Global, who: &str, verb: &str, node: &str) -> Result<String, Fail> {
    if verb == "voids" {
        voiding(alloc, node.parse::<u128>()?)
    } else {
        saying(alloc, who, verb, node)
    }
}

fn voiding(alloc: Global, number: u128) -> Result<String, Fail> {
    let id = Id::of_word(number).text();
    with_part(alloc, VOIDING, "STATEMENT", str::from_utf8(&id)?)
}

fn saying(alloc: Global, who: &str, verb: &str, node: &str) -> Result<String, Fail> {
    let id = registration_of(who).text();
    let mut whole = with_part(alloc, SAYING, "VERBS", verbs_of(verb)?)?;
    whole = with_part(alloc, whole.as_str(), "NAME", verb)?;
    whole = with_part(alloc, whole.as_str(), "NODE", node)?;
    with_part(alloc, whole.as_str(), "REGISTRATION", str::from_utf8(&id)?)
}

// The text with that value for the part.
fn with_part(alloc: Global, text: &str, part: &str, value: &str) -> Result<String, Fail> {
    Ok(text.replace(alloc, part, value)?)
}

// What the ids of verbs begin with.
fn verbs_of(verb: &str) -> Result<&'static str, Fail> {
    match verb {
        "initialized" | "completed" | "passed" | "failed" | "terminated" => {
            Ok("http://adlnet.gov/expapi/verbs")
        }
        "waived" | "satisfied" => Ok("https://w3id.org/xapi/adl/verbs"),
        _ => Err(Fail::from("no such verb")),
    }
}

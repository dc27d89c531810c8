// Statements by words: a verb and, after a colon, the number of a node, as `completed:1`. `voids:1` voids the first
// statement of its row. Before the verb may stand, with a dash, in what the statement is unlike the others:
//
//   other        it names another registration
//   elsewhere    it is about the node of another course
//   undefined    cmi5 doesn't define it
//
// `nothing` is no statement.
use crate::given::no_texts;
use lrs_json_reader::read;
use lrs_names::Id;
use lrs_time::Moment;
use std::alloc::Global;
use std::test::Fail;
use xapi_index::Index;
use xapi_statement::{Authority, Statement, StoredStatement};

/// The registration that is asked about.
pub(crate) const OWN: &str = "00000000-0000-4000-8000-000000000010";

const OTHER: &str = "00000000-0000-4000-8000-000000000011";

const CMI5: &str = "https://w3id.org/xapi/cmi5/context/categories/cmi5";

const MOVE_ON: &str = "https://w3id.org/xapi/cmi5/context/categories/moveon";

const SAYING: &str =
    r#"{"actor":{"mbox":"mailto:a@b"},"verb":{"id":"VERBS/NAME"},"object":{"id":"ACTIVITY"},"context":{"registration":"REGISTRATION","contextActivities":{"category":[{"id":"CATEGORY"}]}}}"#;

const VOIDING: &str =
    r#"{"actor":{"mbox":"mailto:a@b"},"verb":{"id":"http://adlnet.gov/expapi/verbs/voided"},"object":{"objectType":"StatementRef","id":"STATEMENT"}}"#;

const ACTIVITY: &str = "http://s/activities/COURSE/NODE";

/// Statements that are held, and new ones.
#[derive(Drop)]
pub(crate) struct Both {
    pub held: Index,
    pub new: Vec<StoredStatement>,
}

/// The statements of a row. Those behind a bar are new.
pub(crate) fn both_of(alloc: Global, words: &str) -> Result<Both, Fail> {
    let (held, new) = words.split_once('|').unwrap_or((words, ""));
    let held = statements_of(alloc, held, 0)?;
    let new = statements_of(alloc, new, held.len() as u128)?;
    Ok(Both {
        held: index_of(alloc, held)?,
        new,
    })
}

/// These statements, as they are held.
#[tactic(auto, using(xapi_index::proofs::Texts::texts_none))]
pub(crate) fn index_of(alloc: Global, statements: Vec<StoredStatement>) -> Result<Index, Fail> {
    let mut index = Index::new(alloc);
    let mut texts = no_texts(alloc);
    index.ready(&mut texts, statements.as_slice())?;
    index.install(statements.as_slice());
    Ok(index)
}

// The statements of these words, under the ids of the numbers behind that one.
fn statements_of(alloc: Global, words: &str, before: u128) -> Result<Vec<StoredStatement>, Fail> {
    let mut statements = Vec::new(alloc);
    let mut number = before;
    for word in words.split(' ') {
        if word != "" && word != "nothing" {
            number = number.wrapping_add(1);
            statements.push(stored_word(alloc, word, number)?)?;
        }
    }
    Ok(statements)
}

fn stored_word(alloc: Global, word: &str, number: u128) -> Result<StoredStatement, Fail> {
    let text = text_of(alloc, word)?;
    let statement = stored(alloc, text.as_str(), number);
    drop(text);
    statement
}

/// The statement of that text, under the id of that number.
pub(crate) fn stored(alloc: Global, text: &str, number: u128) -> Result<StoredStatement, Fail> {
    let tree = read(alloc, text.as_bytes())?;
    let statement = Statement::read(alloc, tree)?;
    Ok(statement.complete(Id::of_word(number), Moment::clamp(0), Authority::Admin))
}

// ---- texts

fn text_of(alloc: Global, word: &str) -> Result<String, Fail> {
    let (said, number) = word.split_once(':').ok_or("a word without a number")?;
    if said == "voids" {
        voiding(alloc, number.parse::<u128>()?)
    } else {
        saying(alloc, said, ACTIVITY, number)
    }
}

fn voiding(alloc: Global, number: u128) -> Result<String, Fail> {
    let id = Id::of_word(number).text();
    let target = str::from_utf8(&id)?;
    let parts = [("STATEMENT", target)];
    with_parts(alloc, VOIDING, &parts)
}

/// What is said by that word of the node of that number, or of an activity of which the number is no part.
pub(crate) fn saying(
    alloc: Global,
    word: &str,
    activity: &str,
    number: &str,
) -> Result<String, Fail> {
    let (unlike, verb) = word.split_once('-').unwrap_or(("", word));
    let around = around(unlike)?;
    let verbs = verbs_of(verb)?;
    let parts = [
        ("VERBS", verbs),
        ("NAME", verb),
        ("ACTIVITY", activity),
        ("COURSE", around.course),
        ("NODE", number),
        ("REGISTRATION", around.registration),
        ("CATEGORY", around.category),
    ];
    with_parts(alloc, SAYING, &parts)
}

/// The text with these parts, one after the other.
pub(crate) fn with_parts(
    alloc: Global,
    text: &str,
    parts: &[(&str, &str)],
) -> Result<String, Fail> {
    let mut whole = String::from_str(alloc, text)?;
    for (part, value) in parts {
        whole = whole.as_str().replace(alloc, *part, *value)?;
    }
    Ok(whole)
}

// What stands around a verb.
#[derive(Clone, Copy)]
struct Setting {
    registration: &'static str,
    course: &'static str,
    category: &'static str,
}

fn around(unlike: &str) -> Result<Setting, Fail> {
    match unlike {
        "" => Ok(Setting {
            registration: OWN,
            course: "0",
            category: CMI5,
        }),
        "other" => Ok(Setting {
            registration: OTHER,
            course: "0",
            category: CMI5,
        }),
        "elsewhere" => Ok(Setting {
            registration: OWN,
            course: "1",
            category: CMI5,
        }),
        "undefined" => Ok(Setting {
            registration: OWN,
            course: "0",
            category: MOVE_ON,
        }),
        _ => Err(Fail::from("no such word")),
    }
}

// What the ids of verbs begin with.
fn verbs_of(verb: &str) -> Result<&'static str, Fail> {
    match verb {
        "completed" | "passed" | "failed" => Ok("http://adlnet.gov/expapi/verbs"),
        "waived" | "satisfied" => Ok("https://w3id.org/xapi/adl/verbs"),
        _ => Err(Fail::from("no such verb")),
    }
}

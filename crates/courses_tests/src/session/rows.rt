// The rules that statements break, as a text of rows: a statement, and after `=>` the rule that it breaks, or `taken`.
//
//   VERB NAME=TEXT.. => RULE
//
// What is said begins with `initialized`, `completed`, `passed`, `failed` or `terminated`, which a session may say as they
// stand, or with `other`, a verb that it may not say so. Each name changes something. A name in capitals is a part of the
// statement: PARTS, SAMPLES and SHORT say what it is else. The others are:
//
//   phase      how far the session has come; else so far that the verb may come
//   mode       for what the unit was launched; else `Normal`
//   mastery    the mastery score of the unit, or `none`; else 0.8
//   stands     what stands in the registration: `completed`, `passed`, or both with a comma
//   who        who says it, if it is no session: `admin` or `provider`
//
// A line after `//` is none.
use crate::given::{iri, learner};
use cmi5_session::{Forbidden, Launch, Mode, Phase, SessionView, permitted, permitted_outside};
use lrs_json::{Number, Tree};
use lrs_json_reader::read;
use lrs_names::Id;
use std::alloc::Global;
use std::test::Fail;
use xapi_rules::broken_rule;

const REGISTRATION: &str = "00000000-0000-4000-8000-0000000000ab";

const SESSION: &str = "00000000-0000-4000-8000-0000000000cd";

const ACTIVITY: &str = "http://lrs.example/activities/0/2";

const PUBLISHER: &str = "http://c/u";

const STATEMENT: &str =
    r#"{"actor":ACTOR,"verb":{"id":"SAID"},"object":OBJECT,OUTCOME"context":CONTEXT}"#;

// What the parts of a statement are, in this order, before those of its sample.
const PARTS: [(&str, &str); 9] = [
    ("SAID", "VERB/NAME"),
    ("OUTCOME", r#""result":RESULT,"#),
    ("OBJECT", r#"{"id":"ACTIVITY"}"#),
    (
        "ACTOR",
        r#"{"account":{"homePage":"https://p.example","name":"k1"}}"#,
    ),
    (
        "CONTEXT",
        r#"{"registration":"REGISTRATION","contextActivities":ACTIVITIES,"extensions":EXTENSIONS}"#,
    ),
    ("ACTIVITIES", r#"{"grouping":GROUPING,"category":CATEGORY}"#),
    ("GROUPING", r#"[{"id":"PUBLISHER"}]"#),
    ("EXTENSIONS", r#"{"EXTENSION/sessionid":"SESSION"MORE}"#),
    ("MORE", ""),
];

// A verb: the phase in which it comes, and the parts of its statement.
#[derive(Clone, Copy)]
struct Sample {
    name: &'static str,
    phase: &'static str,
    category: &'static str,
    result: &'static str,
    scaled: &'static str,
}

const SAMPLES: [Sample; 6] = [
    Sample {
        name: "initialized",
        phase: "Fetched",
        category: "[CMI5]",
        result: "{}",
        scaled: "",
    },
    Sample {
        name: "completed",
        phase: "Initialized",
        category: "[CMI5,MOVEON]",
        result: r#"{"completion":true}"#,
        scaled: "",
    },
    Sample {
        name: "passed",
        phase: "Initialized",
        category: "[CMI5,MOVEON]",
        result: r#"{"score":{"scaled":SCALED},"success":true}"#,
        scaled: "1",
    },
    Sample {
        name: "failed",
        phase: "Initialized",
        category: "[CMI5,MOVEON]",
        result: r#"{"score":{"scaled":SCALED},"success":false}"#,
        scaled: "0",
    },
    Sample {
        name: "terminated",
        phase: "Initialized",
        category: "[CMI5]",
        result: r#"{"duration":"PT1S"}"#,
        scaled: "",
    },
    Sample {
        name: "other",
        phase: "Initialized",
        category: "[CMI5]",
        result: "{}",
        scaled: "",
    },
];

// What stands for what in all of these, in this order.
const SHORT: [(&str, &str); 9] = [
    (
        "CMI5",
        r#"{"id":"https://w3id.org/xapi/cmi5/context/categories/cmi5"}"#,
    ),
    (
        "MOVEON",
        r#"{"id":"https://w3id.org/xapi/cmi5/context/categories/moveon"}"#,
    ),
    (
        "EXTENSION/",
        "https://w3id.org/xapi/cmi5/context/extensions/",
    ),
    ("VERB/", "http://adlnet.gov/expapi/verbs/"),
    (
        "REFERENCE",
        r#"{"objectType":"StatementRef","id":"SESSION"}"#,
    ),
    ("ACTIVITY", ACTIVITY),
    ("PUBLISHER", PUBLISHER),
    ("REGISTRATION", REGISTRATION),
    ("SESSION", SESSION),
];

/// Fails with the first row whose statement breaks another rule, and that rule.
pub(crate) fn check_rows(alloc: Global, rows: &str) -> Result<(), Fail> {
    for row in rows.lines() {
        let wrong = wrong_row(alloc, row)?;
        if !wrong.is_empty() {
            return Err(Fail::from(wrong));
        }
    }
    Ok(())
}

// What is said in this row and the rule that it breaks, if another one was expected.
fn wrong_row(alloc: Global, row: &str) -> Result<String, Fail> {
    if row.is_empty() || row.starts_with("//") {
        return Ok(String::new(alloc));
    }
    let (said, expected) = row.split_once(" => ").ok_or("no rule")?;
    let found = answer(alloc, said)?;
    if found.as_str() == expected {
        Ok(String::new(alloc))
    } else {
        Ok(format!(in alloc; "{said} => {found}")?)
    }
}

fn answer(alloc: Global, said: &str) -> Result<String, Fail> {
    match broken(alloc, said)? {
        Some(rule) => Ok(format!(in alloc; "C{rule}")?),
        None => Ok(String::from_str(alloc, "taken")?),
    }
}

// ---- the statement

// What a name stands for in a row, if it is there.
fn told<'a>(said: &'a str, name: &str) -> Option<&'a str> {
    for word in said.split(' ') {
        if let Some((own, value)) = word.split_once('=') {
            if own == name {
                return Some(value);
            }
        }
    }
    None
}

fn sample_of(said: &str) -> Result<Sample, Fail> {
    let (name, _) = said.split_once(' ').unwrap_or((said, ""));
    for sample in SAMPLES.iter() {
        if sample.name == name {
            return Ok(*sample);
        }
    }
    Err(Fail::from("no sample"))
}

// The text with these parts, as the row has them.
fn with_parts(
    alloc: Global,
    text: &str,
    said: &str,
    parts: &[(&str, &str)],
) -> Result<String, Fail> {
    let mut whole = String::from_str(alloc, text)?;
    for (part, usual) in parts {
        let value = told(said, *part).unwrap_or(*usual);
        whole = whole.as_str().replace(alloc, *part, value)?;
    }
    Ok(whole)
}

fn statement_text(alloc: Global, sample: &Sample, said: &str) -> Result<String, Fail> {
    let own = [
        ("NAME", sample.name),
        ("CATEGORY", sample.category),
        ("RESULT", sample.result),
        ("SCALED", sample.scaled),
    ];
    let text = with_parts(alloc, STATEMENT, said, &PARTS)?;
    let text = with_parts(alloc, text.as_str(), said, &own)?;
    with_parts(alloc, text.as_str(), said, &SHORT)
}

fn statement(alloc: Global, sample: &Sample, said: &str) -> Result<Tree, Fail> {
    let text = statement_text(alloc, sample, said)?;
    Ok(read(alloc, text.as_bytes())?)
}

// ---- the session

fn id(text: &str) -> Result<Id, Fail> {
    Ok(Id::read(text.as_bytes()).ok_or("no id")?)
}

fn mastery(alloc: Global, said: &str) -> Result<Option<Number>, Fail> {
    match told(said, "mastery").unwrap_or("0.8") {
        "none" => Ok(None),
        spelling => Ok(Some(spelled(alloc, spelling)?)),
    }
}

// The number that is spelled so.
fn spelled(alloc: Global, spelling: &str) -> Result<Number, Fail> {
    let tree = read(alloc, spelling.as_bytes())?;
    let number = number_of(&tree);
    drop(tree);
    number
}

fn number_of(tree: &Tree) -> Result<Number, Fail> {
    match tree {
        Tree::Number(number) => Ok(number.clone()?),
        _ => Err(Fail::from("no number")),
    }
}

fn mode(said: &str) -> Result<Mode, Fail> {
    Ok(Mode::of(told(said, "mode").unwrap_or("Normal")).ok_or("no mode")?)
}

// Those of the session and of its registration.
fn ids() -> Result<(Id, Id), Fail> {
    Ok((id(SESSION)?, id(REGISTRATION)?))
}

fn launch(alloc: Global, said: &str) -> Result<Launch, Fail> {
    let mode = mode(said)?;
    let (session, registration) = ids()?;
    let activity = iri(alloc, ACTIVITY)?;
    let publisher = iri(alloc, PUBLISHER)?;
    let mastery = mastery(alloc, said)?;
    let actor = learner(alloc)?;
    Ok(Launch {
        session,
        registration,
        actor,
        activity,
        publisher,
        mode,
        mastery,
    })
}

fn phase(text: &str) -> Result<Phase, Fail> {
    match text {
        "Launched" => Ok(Phase::Launched),
        "Fetched" => Ok(Phase::Fetched),
        "Initialized" => Ok(Phase::Initialized),
        "Terminated" => Ok(Phase::Terminated),
        "Abandoned" => Ok(Phase::Abandoned),
        _ => Err(Fail::from("no phase")),
    }
}

// ---- the rule

fn rule_of(answer: Result<(), Forbidden>) -> Option<u8> {
    match answer {
        Ok(()) => None,
        Err(forbidden) => Some(forbidden.rule),
    }
}

fn broken(alloc: Global, said: &str) -> Result<Option<u8>, Fail> {
    let sample = sample_of(said)?;
    let statement = statement(alloc, &sample, said)?;
    let rule = broken_by(alloc, &sample, said, &statement);
    drop(statement);
    rule
}

fn broken_by(
    alloc: Global,
    sample: &Sample,
    said: &str,
    statement: &Tree,
) -> Result<Option<u8>, Fail> {
    if broken_rule(alloc, statement)?.is_some() {
        return Err(Fail::from("no statement"));
    }
    match told(said, "who") {
        Some(who) => Ok(rule_of(permitted_outside(who == "admin", statement))),
        None => broken_in_session(alloc, sample, said, statement),
    }
}

fn broken_in_session(
    alloc: Global,
    sample: &Sample,
    said: &str,
    statement: &Tree,
) -> Result<Option<u8>, Fail> {
    let phase = phase(told(said, "phase").unwrap_or(sample.phase))?;
    let launch = launch(alloc, said)?;
    let stands = told(said, "stands").unwrap_or("");
    let session = SessionView {
        launch: &launch,
        phase,
        completed: stands.contains("completed"),
        passed: stands.contains("passed"),
    };
    let rule = rule_of(permitted(&session, statement));
    drop(launch);
    Ok(rule)
}

// The tests of cmi5_launch.
ghost use Rattle.std.specs.Prelude.{◌≡◌, IfOk};
ghost use Rattle.cmi5_launch.specs.Addresses.{IsAddress};

use crate::failing::{none_wrong, same_text, wrong_row};
use crate::given::iri;
use cmi5_course::{Method, Mode, MoveOn, NodeKind, Reason, Unit};
use cmi5_launch::{Made, activity_id, launch_address, launch_data, made_statement};
use lrs_agents::{Agent, Ifi};
use lrs_json::{Decimal, Number, Text, write};
use lrs_names::{Id, Iri};
use std::alloc::Global;
use std::test::Fail;
use url::Url;

const BASE: &str = "http://127.0.0.1:8080/";

const KEY: &str = "00000000000000000000000000000001-3";

const REGISTRATION: &[u8] = b"00000000-0000-4000-8000-000000000010";

const SESSION: &[u8] = b"00000000-0000-4000-8000-000000000020";

// What a course may say of a unit beside its url.
#[derive(Clone, Copy)]
struct Given {
    mastery: Option<&'static str>,
    parameters: Option<&'static str>,
    entitlement: Option<&'static str>,
}

const NOTHING: Given = Given {
    mastery: None,
    parameters: None,
    entitlement: None,
};

fn text_if(alloc: Global, text: Option<&str>) -> Result<Option<Text>, Fail> {
    match text {
        Some(text) => Ok(Some(Text::of(alloc, text)?)),
        None => Ok(None),
    }
}

fn number_if(alloc: Global, spelling: Option<&str>) -> Result<Option<Number>, Fail> {
    match spelling {
        Some(spelling) => Ok(Some(number(alloc, spelling)?)),
        None => Ok(None),
    }
}

fn number(alloc: Global, spelling: &str) -> Result<Number, Fail> {
    match Decimal::of(spelling.as_bytes()) {
        Some(_) => Ok(Number::of(Text::of(alloc, spelling)?)),
        None => Err(Fail::from("no number")),
    }
}

fn unit(alloc: Global, url: &str, given: &Given) -> Result<Unit, Fail> {
    let url = Text::of(alloc, url)?;
    let mastery_text = number_if(alloc, given.mastery)?;
    let parameters = text_if(alloc, given.parameters)?;
    let entitlement = text_if(alloc, given.entitlement)?;
    Ok(Unit {
        url,
        move_on: MoveOn::CompletedAndPassed,
        mastery_text,
        method: Method::AnyWindow,
        parameters,
        entitlement,
    })
}

fn agent(alloc: Global, name: Option<&str>, account: &str) -> Result<Agent, Fail> {
    let home = Text::of(alloc, "https://p.example")?;
    let account = Text::of(alloc, account)?;
    let name = text_if(alloc, name)?;
    Ok(Agent {
        ifi: Ifi::Account {
            home,
            name: account,
        },
        name,
    })
}

fn id(text: &[u8]) -> Result<Id, Fail> {
    Ok(Id::read(text).ok_or("no id")?)
}

// The id of node 2 of course 0.
fn activity(alloc: Global) -> Result<Iri, Fail> {
    named(alloc, 0, 2)
}

fn named(alloc: Global, course: u32, node: u32) -> Result<Iri, Fail> {
    let base = Text::of(alloc, BASE)?;
    if !Iri::is(&base) {
        return Err(Fail::from("no IRI"));
    }
    Ok(activity_id(alloc, &base, course, node)?)
}

// ---- addresses

// What is put into the address of a unit whose learner has no name.
const PAIRS: &str =
    "endpoint=http%3A%2F%2F127.0.0.1%3A8080%2Fxapi%2F&fetch=http%3A%2F%2F127.0.0.1%3A8080%2Ffetch%2F00000000000000000000000000000001-3&actor=%7B%22objectType%22%3A%22Agent%22%2C%22account%22%3A%7B%22homePage%22%3A%22https%3A%2F%2Fp.example%22%2C%22name%22%3A%22k1%22%7D%7D&registration=00000000-0000-4000-8000-000000000010&activityId=http%3A%2F%2F127.0.0.1%3A8080%2Factivities%2F0%2F2";

// A unit's url, and what stands before and behind the pairs.
const ADDRESSES: [(&str, &str, &str); 14] = [
    ("https://au.example/u", "https://au.example/u?", ""),
    ("https://au.example/u?a=1", "https://au.example/u?a=1&", ""),
    (
        "https://au.example/u?a=1&b",
        "https://au.example/u?a=1&b&",
        "",
    ),
    ("https://au.example/u?", "https://au.example/u?", ""),
    ("https://au.example/u?a?", "https://au.example/u?a?&", ""),
    ("https://au.example/u??", "https://au.example/u??&", ""),
    (
        "https://au.example/u#f?g#h",
        "https://au.example/u?",
        "#f?g#h",
    ),
    ("https://au.example/u#", "https://au.example/u?", "#"),
    (
        "https://au.example/u?a=1#f",
        "https://au.example/u?a=1&",
        "#f",
    ),
    ("https://au.example/u?#f", "https://au.example/u?", "#f"),
    ("HTTPS://AU.Example:443/U", "https://au.example/U?", ""),
    ("https://au.example", "https://au.example/?", ""),
    (
        "https://bücher.example/u",
        "https://xn--bcher-kva.example/u?",
        "",
    ),
    (
        "https://au.example/ü u?é",
        "https://au.example/%C3%BC%20u?%C3%A9&",
        "",
    ),
];

fn address(alloc: Global, url: &str, actor: &Agent) -> Result<Text, Fail> {
    let unit = unit(alloc, url, &NOTHING)?;
    let address = address_of(alloc, &unit, actor);
    drop(unit);
    address
}

fn address_of(alloc: Global, unit: &Unit, actor: &Agent) -> Result<Text, Fail> {
    is_address(alloc, &unit.url)?;
    let base = Text::of(alloc, BASE)?;
    let key = Text::of(alloc, KEY)?;
    let activity = activity(alloc)?;
    Ok(launch_address(
        alloc,
        unit,
        &base,
        &key,
        actor,
        &id(REGISTRATION)?,
        &activity,
    )?)
}

fn is_address(alloc: Global, url: &Text) -> Result<(), Fail>
    ensures { IfOk result (λ _. IsAddress url.now) }
{
    match Url::parse(alloc, url.as_str()) {
        Ok(_) => Ok(()),
        Err(_) => Err(Fail::from("no address")),
    }
}

// The index of the first row that is wrong.
fn wrong_address(alloc: Global, actor: &Agent) -> Result<Option<usize>, Fail> {
    for (i, (url, before, behind)) in ADDRESSES.iter().enumerate() {
        let address = address(alloc, url, actor)?;
        let wanted = format!(in alloc; "{before}{PAIRS}{behind}")?;
        if address.as_str() != wanted.as_str() {
            return Ok(Some(i));
        }
    }
    Ok(None)
}

#[test]
fn a_launch_puts_its_pairs_between_query_and_fragment(rt: HostRuntime) -> Result<(), Fail> {
    let actor = agent(rt.alloc(), None, "k1")?;
    let wrong = wrong_address(rt.alloc(), &actor);
    drop(actor);
    none_wrong(wrong?)
}

const SPECIAL_NAME: &str = "Zoë \"A&B\" 50%\\";

const SPECIAL_ACCOUNT: &str = "k=1+2";

const SPECIAL_ADDRESS: &str =
    "https://au.example/u?endpoint=http%3A%2F%2F127.0.0.1%3A8080%2Fxapi%2F&fetch=http%3A%2F%2F127.0.0.1%3A8080%2Ffetch%2F00000000000000000000000000000001-3&actor=%7B%22objectType%22%3A%22Agent%22%2C%22name%22%3A%22Zo%C3%AB%20%5C%22A%26B%5C%22%2050%25%5C%5C%22%2C%22account%22%3A%7B%22homePage%22%3A%22https%3A%2F%2Fp.example%22%2C%22name%22%3A%22k%3D1%2B2%22%7D%7D&registration=00000000-0000-4000-8000-000000000010&activityId=http%3A%2F%2F127.0.0.1%3A8080%2Factivities%2F0%2F2";

#[test]
fn an_address_escapes_what_an_actor_is_called(rt: HostRuntime) -> Result<(), Fail> {
    let actor = agent(rt.alloc(), Some(SPECIAL_NAME), SPECIAL_ACCOUNT)?;
    let address = address(rt.alloc(), "https://au.example/u", &actor);
    drop(actor);
    let address = address?;
    same_text(address.as_str(), SPECIAL_ADDRESS)
}

// ---- ids of activities

const ACTIVITIES: [(u32, u32, &str); 3] = [
    (0, 0, "http://127.0.0.1:8080/activities/0/0"),
    (10, 207, "http://127.0.0.1:8080/activities/10/207"),
    (
        4_294_967_295,
        4_294_967_295,
        "http://127.0.0.1:8080/activities/4294967295/4294967295",
    ),
];

#[test]
fn an_activity_is_named_by_the_numbers_of_course_and_node(rt: HostRuntime) -> Result<(), Fail> {
    let alloc = rt.alloc();
    for (i, (course, node, text)) in ACTIVITIES.iter().enumerate() {
        if named(alloc, *course, *node)?.text().as_str() != *text {
            return wrong_row(i);
        }
    }
    Ok(())
}

// ---- launch data

// What a unit has, for what it is launched, where to go, and the text behind the context template.
const DATA: [(Given, Mode, Option<&str>, &str); 7] = [
    (
        Given {
            mastery: Some("0.8"),
            parameters: None,
            entitlement: None,
        },
        Mode::Normal,
        None,
        r#""launchMode":"Normal","moveOn":"CompletedAndPassed","masteryScore":0.8}"#,
    ),
    (
        NOTHING,
        Mode::Browse,
        None,
        r#""launchMode":"Browse","moveOn":"CompletedAndPassed"}"#,
    ),
    (
        Given {
            mastery: Some("8.00E-1"),
            parameters: None,
            entitlement: None,
        },
        Mode::Review,
        None,
        r#""launchMode":"Review","moveOn":"CompletedAndPassed","masteryScore":8.00E-1}"#,
    ),
    (
        Given {
            mastery: None,
            parameters: Some("a=\"1\"\n&é"),
            entitlement: None,
        },
        Mode::Normal,
        None,
        r#""launchMode":"Normal","moveOn":"CompletedAndPassed","launchParameters":"a=\"1\"\n&é"}"#,
    ),
    (
        NOTHING,
        Mode::Normal,
        Some("https://lms.example/back?a=1#b"),
        r#""launchMode":"Normal","moveOn":"CompletedAndPassed","returnURL":"https://lms.example/back?a=1#b"}"#,
    ),
    (
        Given {
            mastery: None,
            parameters: None,
            entitlement: Some("k\\7"),
        },
        Mode::Normal,
        None,
        r#""launchMode":"Normal","moveOn":"CompletedAndPassed","entitlementKey":{"courseStructure":"k\\7"}}"#,
    ),
    (
        Given {
            mastery: Some("1"),
            parameters: Some(""),
            entitlement: Some(""),
        },
        Mode::Normal,
        Some("x:y"),
        r#""launchMode":"Normal","moveOn":"CompletedAndPassed","launchParameters":"","masteryScore":1,"returnURL":"x:y","entitlementKey":{"courseStructure":""}}"#,
    ),
];

const TEMPLATE: &str =
    r#"{"contextTemplate":{"contextActivities":{"grouping":[{"objectType":"Activity","id":"http://c/u"}]},"extensions":{"https://w3id.org/xapi/cmi5/context/extensions/sessionid":"00000000-0000-4000-8000-000000000020"}},"#;

fn iri_if(alloc: Global, text: Option<&str>) -> Result<Option<Iri>, Fail> {
    match text {
        Some(text) => Ok(Some(iri(alloc, text)?)),
        None => Ok(None),
    }
}

fn data_of(alloc: Global, unit: &Unit, mode: Mode, back: Option<&str>) -> Result<Vec<u8>, Fail> {
    let publisher = iri(alloc, "http://c/u")?;
    let back = iri_if(alloc, back)?;
    Ok(launch_data(alloc, unit, &publisher, &id(SESSION)?, mode, &back)?)
}

fn data(alloc: Global, given: &Given, mode: Mode, back: Option<&str>) -> Result<Vec<u8>, Fail> {
    let unit = unit(alloc, "https://au.example/u", given)?;
    let data = data_of(alloc, &unit, mode, back);
    drop(unit);
    data
}

#[test]
fn launch_data_tell_what_is_given(rt: HostRuntime) -> Result<(), Fail> {
    let alloc = rt.alloc();
    for (i, (given, mode, back, text)) in DATA.iter().enumerate() {
        let data = data(alloc, given, *mode, *back)?;
        let wanted = format!(in alloc; "{TEMPLATE}{text}")?;
        if data.as_slice() != wanted.as_bytes() {
            return wrong_row(i);
        }
    }
    Ok(())
}

// ---- made statements

const LAUNCHED: &str =
    r#"{"actor":{"objectType":"Agent","account":{"homePage":"https://p.example","name":"k1"}},"verb":{"id":"http://adlnet.gov/expapi/verbs/launched","display":{"en":"launched"}},"object":{"objectType":"Activity","id":"http://127.0.0.1:8080/activities/0/2"},"context":{"registration":"00000000-0000-4000-8000-000000000010","contextActivities":{"grouping":[{"objectType":"Activity","id":"http://c/u"}],"category":[{"objectType":"Activity","id":"https://w3id.org/xapi/cmi5/context/categories/cmi5"}]},"extensions":{"https://w3id.org/xapi/cmi5/context/extensions/sessionid":"00000000-0000-4000-8000-000000000020","https://w3id.org/xapi/cmi5/context/extensions/launchmode":"Normal","https://w3id.org/xapi/cmi5/context/extensions/launchurl":"https://au.example/u","https://w3id.org/xapi/cmi5/context/extensions/moveon":"CompletedAndPassed","https://w3id.org/xapi/cmi5/context/extensions/masteryscore":0.8}}}"#;

const LAUNCHED_FULLY: &str =
    r#"{"actor":{"objectType":"Agent","name":"Zoë \"A&B\" 50%\\","account":{"homePage":"https://p.example","name":"k=1+2"}},"verb":{"id":"http://adlnet.gov/expapi/verbs/launched","display":{"en":"launched"}},"object":{"objectType":"Activity","id":"http://127.0.0.1:8080/activities/0/2"},"context":{"registration":"00000000-0000-4000-8000-000000000010","contextActivities":{"grouping":[{"objectType":"Activity","id":"http://c/u"}],"category":[{"objectType":"Activity","id":"https://w3id.org/xapi/cmi5/context/categories/cmi5"}]},"extensions":{"https://w3id.org/xapi/cmi5/context/extensions/sessionid":"00000000-0000-4000-8000-000000000020","https://w3id.org/xapi/cmi5/context/extensions/launchmode":"Review","https://w3id.org/xapi/cmi5/context/extensions/launchurl":"HTTPS://AU.Example/U#f","https://w3id.org/xapi/cmi5/context/extensions/moveon":"CompletedAndPassed","https://w3id.org/xapi/cmi5/context/extensions/masteryscore":8e-1,"https://w3id.org/xapi/cmi5/context/extensions/launchparameters":"a \"b\""}}}"#;

const ABANDONED: &str =
    r#"{"actor":{"objectType":"Agent","account":{"homePage":"https://p.example","name":"k1"}},"verb":{"id":"https://w3id.org/xapi/adl/verbs/abandoned","display":{"en":"abandoned"}},"object":{"objectType":"Activity","id":"http://127.0.0.1:8080/activities/0/2"},"context":{"registration":"00000000-0000-4000-8000-000000000010","contextActivities":{"grouping":[{"objectType":"Activity","id":"http://c/u"}],"category":[{"objectType":"Activity","id":"https://w3id.org/xapi/cmi5/context/categories/cmi5"}]},"extensions":{"https://w3id.org/xapi/cmi5/context/extensions/sessionid":"00000000-0000-4000-8000-000000000020"}},"result":{"duration":"PT12.34S"}}"#;

const WAIVED: &str =
    r#"{"actor":{"objectType":"Agent","account":{"homePage":"https://p.example","name":"k1"}},"verb":{"id":"https://w3id.org/xapi/adl/verbs/waived","display":{"en":"waived"}},"object":{"objectType":"Activity","id":"http://127.0.0.1:8080/activities/0/2"},"context":{"registration":"00000000-0000-4000-8000-000000000010","contextActivities":{"grouping":[{"objectType":"Activity","id":"http://c/u"}],"category":[{"objectType":"Activity","id":"https://w3id.org/xapi/cmi5/context/categories/cmi5"},{"objectType":"Activity","id":"https://w3id.org/xapi/cmi5/context/categories/moveon"}]},"extensions":{"https://w3id.org/xapi/cmi5/context/extensions/sessionid":"00000000-0000-4000-8000-000000000020"}},"result":{"success":true,"completion":true,"extensions":{"https://w3id.org/xapi/cmi5/result/extensions/reason":"Tested Out"}}}"#;

const SATISFIED: &str =
    r#"{"actor":{"objectType":"Agent","account":{"homePage":"https://p.example","name":"k1"}},"verb":{"id":"https://w3id.org/xapi/adl/verbs/satisfied","display":{"en":"satisfied"}},"object":{"objectType":"Activity","id":"http://127.0.0.1:8080/activities/0/2","definition":{"type":"https://w3id.org/xapi/cmi5/activitytype/block"}},"context":{"registration":"00000000-0000-4000-8000-000000000010","contextActivities":{"grouping":[{"objectType":"Activity","id":"http://c/u"}],"category":[{"objectType":"Activity","id":"https://w3id.org/xapi/cmi5/context/categories/cmi5"}]},"extensions":{"https://w3id.org/xapi/cmi5/context/extensions/sessionid":"00000000-0000-4000-8000-000000000020"}}}"#;

fn launched(alloc: Global, unit: &Unit, mode: Mode, actor: &Agent) -> Result<Vec<u8>, Fail> {
    written(alloc, &Made::Launched { mode, unit }, actor)
}

fn written(alloc: Global, made: &Made<'_>, actor: &Agent) -> Result<Vec<u8>, Fail> {
    if !actor.ifi.is_identifier() {
        return Err(Fail::from("no identifier"));
    }
    let activity = activity(alloc)?;
    let publisher = iri(alloc, "http://c/u")?;
    let statement = made_statement(
        alloc,
        made,
        actor,
        &activity,
        &publisher,
        &id(REGISTRATION)?,
        &id(SESSION)?,
    )?;
    let mut bytes = Vec::new(alloc);
    write(statement.received(), &mut bytes)?;
    Ok(bytes)
}

#[test]
fn a_launched_statement_is_made(rt: HostRuntime) -> Result<(), Fail> {
    let given = Given {
        mastery: Some("0.8"),
        parameters: None,
        entitlement: None,
    };
    let actor = agent(rt.alloc(), None, "k1")?;
    let unit = unit(rt.alloc(), "https://au.example/u", &given)?;
    let statement = launched(rt.alloc(), &unit, Mode::Normal, &actor);
    drop(unit);
    drop(actor);
    assert!(rt; statement?.as_slice() == LAUNCHED.as_bytes());
    Ok(())
}

#[test]
fn a_launched_statement_tells_what_is_given(rt: HostRuntime) -> Result<(), Fail> {
    let given = Given {
        mastery: Some("8e-1"),
        parameters: Some("a \"b\""),
        entitlement: Some("k"),
    };
    let actor = agent(rt.alloc(), Some(SPECIAL_NAME), SPECIAL_ACCOUNT)?;
    let unit = unit(rt.alloc(), "HTTPS://AU.Example/U#f", &given)?;
    let statement = launched(rt.alloc(), &unit, Mode::Review, &actor);
    drop(unit);
    drop(actor);
    assert!(rt; statement?.as_slice() == LAUNCHED_FULLY.as_bytes());
    Ok(())
}

// The whole statements of the three other kinds.
fn wrong_kind(alloc: Global, unit: &Unit, actor: &Agent) -> Result<Option<usize>, Fail> {
    let rows = [
        (Made::Abandoned { ms: 12_340, unit }, ABANDONED),
        (
            Made::Waived {
                reason: Reason::TestedOut,
                unit,
            },
            WAIVED,
        ),
        (
            Made::Satisfied {
                kind: NodeKind::Block,
            },
            SATISFIED,
        ),
    ];
    for (i, (made, text)) in rows.iter().enumerate() {
        if written(alloc, made, actor)?.as_slice() != text.as_bytes() {
            return Ok(Some(i));
        }
    }
    Ok(None)
}

#[test]
fn a_statement_of_each_kind_is_made(rt: HostRuntime) -> Result<(), Fail> {
    let actor = agent(rt.alloc(), None, "k1")?;
    let unit = unit(rt.alloc(), "https://au.example/u", &NOTHING)?;
    let wrong = wrong_kind(rt.alloc(), &unit, &actor);
    drop(unit);
    drop(actor);
    none_wrong(wrong?)
}

// A span, and its duration: less than a hundredth of a second is cut off, and a longer span is told
// as the longest.
const DURATIONS: [(u64, &str); 9] = [
    (0, "PT0S"),
    (9, "PT0S"),
    (10, "PT0.01S"),
    (12_340, "PT12.34S"),
    (59_999, "PT59.99S"),
    (60_000, "PT60S"),
    (999_999_999_999, "PT999999999.99S"),
    (1_000_000_000_000, "PT999999999.99S"),
    (18_446_744_073_709_551_615, "PT999999999.99S"),
];

fn wrong_duration(alloc: Global, unit: &Unit, actor: &Agent) -> Result<Option<usize>, Fail> {
    for (i, (ms, duration)) in DURATIONS.iter().enumerate() {
        let statement = written(alloc, &Made::Abandoned { ms: *ms, unit }, actor)?;
        let end = format!(in alloc; "\"result\":{{\"duration\":\"{duration}\"}}}}")?;
        if !statement.as_slice().ends_with(end.as_bytes()) {
            return Ok(Some(i));
        }
    }
    Ok(None)
}

#[test]
fn an_abandoned_statement_tells_how_long_it_took(rt: HostRuntime) -> Result<(), Fail> {
    let actor = agent(rt.alloc(), None, "k1")?;
    let unit = unit(rt.alloc(), "https://au.example/u", &NOTHING)?;
    let wrong = wrong_duration(rt.alloc(), &unit, &actor);
    drop(unit);
    drop(actor);
    none_wrong(wrong?)
}

const REASONS: [(Reason, &str); 4] = [
    (Reason::TestedOut, "Tested Out"),
    (Reason::EquivalentAu, "Equivalent AU"),
    (
        Reason::EquivalentOutsideActivity,
        "Equivalent Outside Activity",
    ),
    (Reason::Administrative, "Administrative"),
];

// Texts that are no reason: another case, a space more or less, and none.
const NO_REASONS: [&str; 6] = [
    "tested out",
    "Tested out",
    "TestedOut",
    " Tested Out",
    "Equivalent AU ",
    "",
];

fn wrong_reason(alloc: Global, unit: &Unit, actor: &Agent) -> Result<Option<usize>, Fail> {
    for (i, (reason, text)) in REASONS.iter().enumerate() {
        let statement = written(
            alloc,
            &Made::Waived {
                reason: *reason,
                unit,
            },
            actor,
        )?;
        let end = format!(in alloc; "reason\":\"{text}\"}}}}}}")?;
        if !statement.as_slice().ends_with(end.as_bytes()) || Reason::of(*text) != Some(*reason) {
            return Ok(Some(i));
        }
    }
    Ok(None)
}

#[test]
fn a_waived_statement_tells_why(rt: HostRuntime) -> Result<(), Fail> {
    let actor = agent(rt.alloc(), None, "k1")?;
    let unit = unit(rt.alloc(), "https://au.example/u", &NOTHING)?;
    let wrong = wrong_reason(rt.alloc(), &unit, &actor);
    drop(unit);
    drop(actor);
    none_wrong(wrong?)
}

#[test]
fn another_spelling_is_no_reason() -> Result<(), Fail> {
    for (i, text) in NO_REASONS.iter().enumerate() {
        if Reason::of(*text).is_some() {
            return wrong_row(i);
        }
    }
    Ok(())
}

// What is told of the Activity behind its id: of a unit nothing.
const TYPES: [(NodeKind, &str); 3] = [
    (
        NodeKind::Course,
        r#","definition":{"type":"https://w3id.org/xapi/cmi5/activitytype/course"}"#,
    ),
    (
        NodeKind::Block,
        r#","definition":{"type":"https://w3id.org/xapi/cmi5/activitytype/block"}"#,
    ),
    (NodeKind::Unit, ""),
];

const BEFORE_TYPE: &str =
    r#"{"actor":{"objectType":"Agent","account":{"homePage":"https://p.example","name":"k1"}},"verb":{"id":"https://w3id.org/xapi/adl/verbs/satisfied","display":{"en":"satisfied"}},"object":{"objectType":"Activity","id":"http://127.0.0.1:8080/activities/0/2""#;

fn wrong_type(alloc: Global, actor: &Agent) -> Result<Option<usize>, Fail> {
    for (i, (kind, told)) in TYPES.iter().enumerate() {
        let statement = written(alloc, &Made::Satisfied { kind: *kind }, actor)?;
        let beginning = format!(in alloc; "{BEFORE_TYPE}{told}}},\"context\":")?;
        if !statement.as_slice().starts_with(beginning.as_bytes()) {
            return Ok(Some(i));
        }
    }
    Ok(None)
}

#[test]
fn a_satisfied_statement_tells_a_block_from_a_course(rt: HostRuntime) -> Result<(), Fail> {
    let actor = agent(rt.alloc(), None, "k1")?;
    let wrong = wrong_type(rt.alloc(), &actor);
    drop(actor);
    none_wrong(wrong?)
}

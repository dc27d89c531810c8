// The largest course.
use crate::rows::check_rows_with;
use std::alloc::Global;
use std::test::Fail;

// One more than the number of the last unit, and than that of the innermost block.
const UNITS_END: u32 = 1_001;

const BLOCKS_END: u32 = 16;

// Adds blocks, one in the other, of which none is closed.
fn push_blocks(alloc: Global, text: &mut String) -> Result<(), Fail> {
    for i in 1..BLOCKS_END {
        let block = format!(in alloc;
            "{{\"kind\":\"block\",\"id\":\"http://c/b{i}\",\"title\":{{\"en\":\"B\"}},\"children\":["
        )?;
        text.push_str(block.as_str())?;
    }
    Ok(())
}

// Adds units, of which that one has to be passed. The others ask for nothing.
fn push_units(alloc: Global, text: &mut String, asking: u32) -> Result<(), Fail> {
    for i in 1..UNITS_END {
        let before = if i == 1 { "" } else { "," };
        let asks = if i == asking {
            ",\"moveOn\":\"Passed\""
        } else {
            ""
        };
        let unit = format!(in alloc;
            "{before}{{\"kind\":\"unit\",\"id\":\"http://c/u{i}\",\"title\":{{\"en\":\"U\"}},\"url\":\"https://au.example/u\"{asks}}}"
        )?;
        text.push_str(unit.as_str())?;
    }
    Ok(())
}

// A course of 1,000 units, each of them sixteen deep.
fn course(alloc: Global, asking: u32) -> Result<String, Fail> {
    let mut text = String::from_str(
        alloc,
        "{\"id\":\"http://c/1\",\"title\":{\"en\":\"C\"},\"children\":[",
    )?;
    push_blocks(alloc, &mut text)?;
    push_units(alloc, &mut text, asking)?;
    for _ in 0..BLOCKS_END {
        text.push_str("]}")?;
    }
    Ok(text)
}

// Adds what is told of the blocks, which are all alike.
fn push_told_blocks(alloc: Global, text: &mut String, met: &str) -> Result<(), Fail> {
    for i in 1..BLOCKS_END {
        let block = format!(in alloc;
            ",{{\"id\":\"http://c/b{i}\",\"kind\":\"block\",\"satisfied\":{met}}}"
        )?;
        text.push_str(block.as_str())?;
    }
    Ok(())
}

// Adds what is told of the units, where that one is met or not.
fn push_told_units(alloc: Global, text: &mut String, asking: u32, met: &str) -> Result<(), Fail> {
    for i in 1..UNITS_END {
        let met = if i == asking { met } else { "true" };
        let unit = format!(in alloc;
            ",{{\"id\":\"http://c/u{i}\",\"kind\":\"unit\",\"satisfied\":{met}}}"
        )?;
        text.push_str(unit.as_str())?;
    }
    Ok(())
}

// How far a learner has come, where that unit is met or not, and with it all that holds it.
fn standing(alloc: Global, asking: u32, met: &str) -> Result<String, Fail> {
    let mut text = format!(in alloc;
        "\"course\":\"http://c/1\",\"edition\":1,\"satisfied\":{met},\"nodes\":[{{\"id\":\"http://c/1\",\"kind\":\"course\",\"satisfied\":{met}}}"
    )?;
    push_told_blocks(alloc, &mut text, met)?;
    push_told_units(alloc, &mut text, asking, met)?;
    text.push_str("]}")?;
    Ok(text)
}

// One learner passes the unit that asks for it, `UNIT` of number `NODE` in the course. For another one it is waived.
const ROWS: &str = r#"
draw 0 0
admin POST /desk/courses COURSE => 200 {"course":"http://c/1","edition":1} kept
draw 16 0
admin POST /desk/registrations {"course":"http://c/1","actor":ACTOR} => 200 {"registration":"ID10"} kept
admin GET /desk/registrations/ID10 => 200 {"registration":"ID10",BEFORE
draw 32 1
admin POST /desk/registrations/ID10/launches {"unit":"http://c/UNIT"} => 200 {"session":"ID20","launchMethod":"AnyWindow","url":"ADDRESSKEYWHOSEID10WHICH0%2FNODE"} kept
draw 0 2
nobody POST /fetch/KEY => 200 {"auth-token":"TOKEN"} kept
draw 64 0
TOKEN POST /xapi/statements [{INITIALIZED,ABOUTNODEUNDER"ID10"GIVENUNITWITHIN"ID20"}}},{PASSED,ABOUTNODEUNDER"ID10"GIVENUNITWITHIN"ID20"}}}] => 200 ["ID40","ID41"] kept
admin GET /desk/registrations/ID10 => 200 {"registration":"ID10",BEHIND
// fifteen blocks from the innermost on, and the course
admin GET /xapi/statements?statementId=ID42&format=ids => 200 {"actor":LEARNER,"verb":{"id":"ADL/satisfied"},"object":{"objectType":"Activity","id":"BASEactivities/0/15"},"context":{"registration":"ID10","contextActivities":{"grouping":[{"objectType":"Activity","id":"http://c/b15"}],"category":[{"objectType":"Activity","id":"CMI5"}]},"extensions":{"https://w3id.org/xapi/cmi5/context/extensions/sessionid":"ID20"}},"id":"ID42","timestamp":"2023-11-14T22:13:20.000Z","stored":"2023-11-14T22:13:20.000Z","authority":{"objectType":"Agent","account":{"homePage":"https://lrs.invalid/callers","name":"desk"}},"version":"1.0.0"}
admin GET /xapi/statements?statementId=ID51&format=ids => 200 {"actor":LEARNER,"verb":{"id":"ADL/satisfied"},"object":{"objectType":"Activity","id":"BASEactivities/0/0"},"context":{"registration":"ID10","contextActivities":{"grouping":[{"objectType":"Activity","id":"http://c/1"}],"category":[{"objectType":"Activity","id":"CMI5"}]},"extensions":{"https://w3id.org/xapi/cmi5/context/extensions/sessionid":"ID20"}},"id":"ID51","timestamp":"2023-11-14T22:13:20.000Z","stored":"2023-11-14T22:13:20.000Z","authority":{"objectType":"Agent","account":{"homePage":"https://lrs.invalid/callers","name":"desk"}},"version":"1.0.0"}
admin GET /xapi/statements?statementId=ID52 => 404 {"error":"404"}
draw 96 0
admin POST /desk/registrations {"course":"http://c/1","actor":ACTOR} => 200 {"registration":"ID60"} kept
admin GET /desk/registrations/ID60 => 200 {"registration":"ID60",BEFORE
draw 112 0
admin POST /desk/registrations/ID60/waive {"unit":"http://c/UNIT","reason":"Administrative"} => 204 kept
admin GET /desk/registrations/ID60 => 200 {"registration":"ID60",BEHIND
// the session, the waiver, and fifteen blocks before the course
admin GET /xapi/statements?statementId=ID81&format=ids => 200 {"actor":LEARNER,"verb":{"id":"ADL/satisfied"},"object":{"objectType":"Activity","id":"BASEactivities/0/0"},"context":{"registration":"ID60","contextActivities":{"grouping":[{"objectType":"Activity","id":"http://c/1"}],"category":[{"objectType":"Activity","id":"CMI5"}]},"extensions":{"https://w3id.org/xapi/cmi5/context/extensions/sessionid":"ID70"}},"id":"ID81","timestamp":"2023-11-14T22:13:20.000Z","stored":"2023-11-14T22:13:20.000Z","authority":{"objectType":"Agent","account":{"homePage":"https://lrs.invalid/callers","name":"desk"}},"version":"1.0.0"}
admin GET /xapi/statements?statementId=ID82 => 404 {"error":"404"}
"#;

fn check_all(alloc: Global, asking: u32, unit: &str, node: &str) -> Result<(), Fail> {
    let course = course(alloc, asking)?;
    let before = standing(alloc, asking, "false")?;
    let behind = standing(alloc, asking, "true")?;
    check_words(
        alloc,
        course.as_str(),
        before.as_str(),
        behind.as_str(),
        unit,
        node,
    )
}

fn check_words<'a>(
    alloc: Global,
    course: &'a str,
    before: &'a str,
    behind: &'a str,
    unit: &'a str,
    node: &'a str,
) -> Result<(), Fail> {
    let words = [
        ("COURSE", course),
        ("BEFORE", before),
        ("BEHIND", behind),
        ("UNIT", unit),
        ("NODE", node),
    ];
    check_rows_with(alloc, &words, ROWS)
}

#[test]
fn the_last_unit_satisfies_the_largest_course(rt: HostRuntime) -> Result<(), Fail> {
    check_all(rt.alloc(), 1_000, "u1000", "1015")
}

#[test]
fn the_first_unit_satisfies_the_largest_course(rt: HostRuntime) -> Result<(), Fail> {
    check_all(rt.alloc(), 1, "u1", "16")
}

//! What the sample session says over a disk of which one call fails, one after the other. What is answered 503 is asked
//! once more, with the same draw.
use crate::rows::{check_rows_of, spelled_out};
use crate::stops::{Script, Texts, begun, first_call, replied_with, told, told_by};
use lrs_disk::Disk;
use lrs_in_memory::MemDisk;
use lrs_machine::Desk;
use lrs_names::Draw;
use std::alloc::Global;
use std::test::Fail;

const SAMPLE: Texts = Texts {
    before: "\nsample\n",
    rows: "",
    questions: r#"admin GET /xapi/statements?ascending=true
admin GET /xapi/statements?voidedStatementId=ID91
admin GET /desk/registrations/ID10
TOKEN GET /xapi/statements?registration=ID10
"#,
};

// What is drawn, and what is asked then: the session begins, passes and completes; the passed is voided, and said again.
const ASKED: [(u128, &str); 5] = [
    (
        80,
        "TOKEN PUT /xapi/statements?statementId=ID90 {INITIALIZED,FIRST}",
    ),
    (
        81,
        "TOKEN PUT /xapi/statements?statementId=ID91 {PASSED,FIRST}",
    ),
    (
        64,
        "TOKEN PUT /xapi/statements?statementId=ID92 {COMPLETED,FIRST}",
    ),
    (
        82,
        r#"admin PUT /xapi/statements?statementId=ID93 VOIDS"ID91"}}"#,
    ),
    (
        83,
        "TOKEN PUT /xapi/statements?statementId=ID94 {PASSED,FIRST}",
    ),
];

// How many calls of the disk that takes: six for each entry.
const CALLS: u64 = 30;

// All three nodes are satisfied. The store said so of the block and the course, once each, and said nothing else.
const BEHIND: &str = r#"
admin GET /desk/registrations/ID10 => 200 {"registration":"ID10","course":"http://c/1","edition":1,"satisfied":true,"nodes":[{"id":"http://c/1","kind":"course","satisfied":true},{"id":"http://c/b","kind":"block","satisfied":true},{"id":"http://c/u","kind":"unit","satisfied":true}]}
admin GET /xapi/statements?verb=ADL/satisfied&format=ids&ascending=true => 200 {"statements":[{"actor":LEARNER,"verb":{"id":"ADL/satisfied"},"object":{"objectType":"Activity","id":"BASEactivities/0/1"},"context":{"registration":"ID10","contextActivities":{"grouping":[{"objectType":"Activity","id":"http://c/b"}],"category":[{"objectType":"Activity","id":"CMI5"}]},"extensions":{"https://w3id.org/xapi/cmi5/context/extensions/sessionid":"ID20"}},"id":"ID40","timestamp":"2023-11-14T22:13:20.000Z","stored":"2023-11-14T22:13:20.000Z","authority":{"objectType":"Agent","account":{"homePage":"https://lrs.invalid/callers","name":"desk"}},"version":"1.0.0"},{"actor":LEARNER,"verb":{"id":"ADL/satisfied"},"object":{"objectType":"Activity","id":"BASEactivities/0/0"},"context":{"registration":"ID10","contextActivities":{"grouping":[{"objectType":"Activity","id":"http://c/1"}],"category":[{"objectType":"Activity","id":"CMI5"}]},"extensions":{"https://w3id.org/xapi/cmi5/context/extensions/sessionid":"ID20"}},"id":"ID41","timestamp":"2023-11-14T22:13:20.000Z","stored":"2023-11-14T22:13:20.000Z","authority":{"objectType":"Agent","account":{"homePage":"https://lrs.invalid/callers","name":"desk"}},"version":"1.0.0"}],"more":""}
admin GET /xapi/statements?statementId=ID42 => 404 {"error":"404"}
admin GET /xapi/statements?statementId=ID91 => 404 {"error":"404"}
"#;

// What is answered to one of these, and to its repeat if there is one, by the number of its first call and of the one that
// fails. Behind the fourth of the six the gate is written: then the entry is kept, in doubt, and the repeat keeps none.
fn expected_of_one(first: u64, failing: u64) -> &'static str {
    if failing < first || first.saturating_add(5) < failing {
        "204 kept; "
    } else if failing < first.saturating_add(4) {
        "503 disk, 204 kept; "
    } else {
        "503 disk kept, 204; "
    }
}

fn expected(alloc: Global, failing: u64) -> Result<String, Fail> {
    let mut text = String::new(alloc);
    for first in [0, 6, 12, 18, 24] {
        text.push_str(expected_of_one(first, failing))?;
    }
    Ok(text)
}

// Adds the answer, and behind a 503 that to the same once more.
fn push_answers(
    alloc: Global,
    script: &Script,
    text: &mut String,
    desk: &mut Desk<MemDisk>,
    draw: &Draw,
    asked: &str,
) -> Result<(), Fail> {
    let first = replied_with(alloc, script, desk, draw, asked)?;
    text.push_str(first.as_str())?;
    if first.as_str().starts_with("503") {
        text.push_str(", ")?;
        text.push_str(replied_with(alloc, script, desk, draw, asked)?.as_str())?;
    }
    text.push_str("; ")?;
    Ok(())
}

fn answers(alloc: Global, script: &Script, desk: &mut Desk<MemDisk>) -> Result<String, Fail> {
    let mut text = String::new(alloc);
    for (name, asked) in ASKED.iter() {
        let draw = Draw {
            name: *name,
            secret: 5,
        };
        let asked = spelled_out(alloc, asked)?;
        push_answers(alloc, script, &mut text, desk, &draw, asked.as_str())?;
    }
    Ok(text)
}

// What was answered, and what the desk tells behind it.
#[derive(Drop)]
struct Came {
    answers: String,
    told: String,
}

fn came_of(alloc: Global, script: &Script, desk: &mut Desk<MemDisk>) -> Result<Came, Fail> {
    let answers = answers(alloc, script, desk)?;
    check_rows_of(alloc, desk, BEHIND)?;
    let told = told(alloc, script, desk)?;
    Ok(Came { answers, told })
}

// The same, what a desk tells that opens its disk, and how many calls failed.
#[derive(Drop)]
struct Played {
    came: Came,
    kept: String,
    faults: u64,
}

fn played_over(
    alloc: Global,
    script: &Script,
    disk: &MemDisk,
    came: Result<Came, Fail>,
) -> Result<Played, Fail> {
    let came = came?;
    let kept = told_by(alloc, script, disk)?;
    Ok(Played {
        came,
        kept,
        faults: disk.faults(),
    })
}

fn play(alloc: Global, script: &Script, failing: Vec<u64>) -> Result<Played, Fail> {
    let mut desk = begun(alloc, script, failing)?;
    let came = came_of(alloc, script, &mut desk);
    let disk = match desk.close() {
        Ok(disk) => disk,
        Err((_, disk)) => disk,
    };
    let played = played_over(alloc, script, &disk, came);
    drop(disk);
    played
}

// Fails if this call doesn't fail, but for the last one, or if something else is answered or told than without it.
fn check_call(alloc: Global, call: u64, played: &Played, calm: &Played) -> Result<(), Fail> {
    let faults = if call < CALLS { 1 } else { 0 };
    let answers = played.came.answers.as_str();
    if answers != expected(alloc, call)?.as_str() || played.faults != faults {
        return Err(Fail::from(format!(in alloc; "call {call}: {answers}")?));
    }
    if played.came.told != calm.came.told || played.kept != calm.came.told {
        return Err(Fail::from(format!(in alloc; "call {call}: told")?));
    }
    Ok(())
}

fn check_calls(alloc: Global, script: &Script) -> Result<(), Fail> {
    let calm = play(alloc, script, Vec::new(alloc))?;
    let first = first_call(alloc, script)?;
    for call in 0..CALLS.saturating_add(1) {
        let failing = vec![in alloc; first.saturating_add(call)]?;
        let played = play(alloc, script, failing)?;
        check_call(alloc, call, &played, &calm)?;
    }
    Ok(())
}

fn check_sample(alloc: Global) -> Result<(), Fail> {
    let script = Script::of(alloc, &SAMPLE)?;
    let checked = check_calls(alloc, &script);
    drop(script);
    checked
}

#[test]
fn each_call_behind_the_fetch_may_fail_once(rt: HostRuntime) -> Result<(), Fail> {
    check_sample(rt.alloc())
}

// Scripts of acts over one desk: what is left of it if it is stopped at any moment, and what comes of it if a call of the
// disk fails.
use crate::rows::{check_rows_of, founded, replied, spelled_out, usual_draw};
use lrs_command::{Command, Read};
use lrs_disk::Disk;
use lrs_in_memory::{MemDisk, Pending};
use lrs_machine::{Desk, Submission};
use lrs_names::Draw;
use lrs_record::Caller;
use lrs_routes::Routes;
use std::alloc::Global;
use std::slice::from_ref;
use std::test::Fail;

/// The acts of a script, each as a row, and the questions that tell what is left of them.
#[derive(Clone, Copy)]
pub struct Texts {
    /// Requests that come before it, without a stop or a fault.
    pub before: &'static str,
    pub rows: &'static str,
    pub questions: &'static str,
}

/// The same, where rows and questions are spelled out.
#[derive(Drop)]
pub struct Script {
    routes: Routes,
    before: &'static str,
    rows: String,
    questions: String,
}

impl Script {
    pub fn of(alloc: Global, texts: &Texts) -> Result<Script, Fail> {
        let rows = spelled_out(alloc, texts.rows)?;
        let questions = spelled_out(alloc, texts.questions)?;
        let routes = Routes::new(alloc)?;
        Ok(Script {
            routes,
            before: texts.before,
            rows,
            questions,
        })
    }
}

// Each statement has an id of its own, so that what is sent again is known. A document is written again, but becomes what
// it was.
const STATEMENTS: Texts = Texts {
    before: "",
    rows: r#"
admin POST /desk/callers {"name":"p.1"} => 200 {"caller":0,"token":"ZEROS5-1"} kept
admin PUT /xapi/statements?statementId=ID01 {"actor":{"mbox":"mailto:a@b"},"verb":{"id":"http://v/1"},"object":{"id":"http://a/1"}} => 204 kept
ZEROS5-1 POST /xapi/statements [{"id":"ID02","actor":{"mbox":"mailto:a@b"},"verb":{"id":"http://v/2"},"object":{"objectType":"StatementRef","id":"ID01"}},{"id":"ID03","actor":{"mbox":"mailto:a@b"},"verb":{"id":"http://v/3"},"object":{"id":"http://a/1"}}] => 200 ["ID02","ID03"] kept
nobody PUT /xapi/statements?statementId=ID04 {"actor":{"mbox":"mailto:a@b"},"verb":{"id":"http://v/1"},"object":{"id":"http://a/1"}} => 401 {"error":"A1"}
ZEROS5-1 PUT /xapi/statements?statementId=ID01 {"actor":{"mbox":"mailto:a@b"},"verb":{"id":"http://v/2"},"object":{"id":"http://a/1"}} => 409 {"error":"409","id":"ID01"}
ZEROS5-1 PUT /xapi/statements?statementId=ID04 VOIDS"ID01"}} => 403 {"error":"C2"}
admin POST /xapi/statements [{"id":"ID04","actor":{"mbox":"mailto:a@b"},"verb":{"id":"http://v/1"},"object":{"id":"http://a/1"}},{}] => 400 {"error":"S1"}
admin PUT /xapi/statements?statementId=ID04 VOIDS"ID01"}} => 204 kept
ZEROS5-1 PUT /xapi/statements?statementId=ID02 {"actor":{"mbox":"mailto:a@b"},"verb":{"id":"http://v/2"},"object":{"objectType":"StatementRef","id":"ID01"}} => 204
admin PUT /xapi/statements?statementId=ID05 VOIDS"ID06"}} => 204 kept
ZEROS5-1 PUT /xapi/statements?statementId=ID06 {"actor":{"mbox":"mailto:a@b"},"verb":{"id":"http://v/1"},"object":{"id":"http://a/1"}} => 204 kept
operator POST /xapi/statements [{"id":"ID07","actor":{"mbox":"mailto:a@b"},"verb":{"id":"http://v/4"},"object":{"objectType":"StatementRef","id":"ID06"}},{"id":"ID03","actor":{"mbox":"mailto:a@b"},"verb":{"id":"http://v/1"},"object":{"id":"http://a/1"}},{"id":"ID08","actor":{"mbox":"mailto:a@b"},"verb":{"id":"http://v/5"},"object":{"id":"http://a/1"}}] => 409 {"error":"409","id":"ID03"}
operator POST /xapi/statements [{"id":"ID07","actor":{"mbox":"mailto:a@b"},"verb":{"id":"http://v/4"},"object":{"objectType":"StatementRef","id":"ID06"}},{"id":"ID08","actor":{"mbox":"mailto:a@b"},"verb":{"id":"http://v/5"},"object":{"id":"http://a/1"}},{"id":"ID02","actor":{"mbox":"mailto:a@b"},"verb":{"id":"http://v/2"},"object":{"objectType":"StatementRef","id":"ID01"}}] => 200 ["ID07","ID08","ID02"] kept
ZEROS5-1 PUT /xapi/activities/state?activityId=http://a/1&agent={"mbox":"mailto:a@b"}&stateId=b {"a":1} => 204 kept
admin POST:text/plain /xapi/activities/state?activityId=http://a/1&agent={"mbox":"mailto:a@b"}&stateId=b x => 400 {"error":"T1"}
admin POST /xapi/activities/state?activityId=http://a/1&agent={"mbox":"mailto:a@b"}&stateId=b {"b":2} => 204 kept
admin PUT:text/plain /xapi/activities/state?activityId=http://a/1&agent={"mbox":"mailto:a@b"}&stateId=c x => 204 kept
ZEROS5-1 DELETE /xapi/activities/state?activityId=http://a/1&agent={"mbox":"mailto:a@b"}&stateId=b&registration=ID01 => 204
ZEROS5-1 DELETE /xapi/activities/state?activityId=http://a/1&agent={"mbox":"mailto:a@b"}&stateId=c => 204 kept
"#,
    questions: r#"admin GET /xapi/statements?ascending=true
admin GET /xapi/statements?voidedStatementId=ID01
admin GET /xapi/statements?voidedStatementId=ID06
admin GET /xapi/statements?verb=http://v/1
ZEROS5-1 GET /xapi/statements?ascending=true
admin GET /xapi/activities/state?activityId=http://a/1&agent={"mbox":"mailto:a@b"}
admin GET /xapi/activities/state?activityId=http://a/1&agent={"mbox":"mailto:a@b"}&stateId=b
admin GET /xapi/activities/state?activityId=http://a/1&agent={"mbox":"mailto:a@b"}&stateId=c
"#,
};

// The sample session passes and completes; its passed is voided and said again. Another session says all in one batch. A
// unit is waived, a session abandoned, and the last one swept. The keys of launches are fetched before.
const SESSIONS: Texts = Texts {
    before: r#"
sample
draw 48 0
admin POST /desk/registrations {"course":"http://c/1","actor":ACTOR} => 200 {"registration":"ID30"} kept
draw 64 3
admin POST /desk/registrations/ID30/launches {"unit":"http://c/u"} => 200 {"session":"ID40","launchMethod":"AnyWindow","url":"ADDRESSZEROS3-6WHOSEID30WHICH0%2F2"} kept
draw 0 4
nobody POST /fetch/ZEROS3-6 => 200 {"auth-token":"ZEROS4-7"} kept
draw 49 0
admin POST /desk/registrations {"course":"http://c/1","actor":ACTOR} => 200 {"registration":"ID31"} kept
draw 96 6
admin POST /desk/registrations/ID31/launches {"unit":"http://c/u"} => 200 {"session":"ID60","launchMethod":"AnyWindow","url":"ADDRESSZEROS6-9WHOSEID31WHICH0%2F2"} kept
"#,
    rows: r#"
TOKEN PUT /xapi/statements?statementId=ID90 {INITIALIZED,FIRST} => 204 kept
TOKEN PUT /xapi/statements?statementId=ID91 {PASSED,FIRST} => 204 kept
TOKEN PUT /xapi/statements?statementId=ID92 {COMPLETED,FIRST} => 204 kept
TOKEN PUT /xapi/statements?statementId=ID93 {PASSED,FIRST} => 403 {"error":"C17"}
admin PUT /xapi/statements?statementId=ID94 VOIDS"ID91"}} => 204 kept
TOKEN PUT /xapi/statements?statementId=ID95 {PASSED,FIRST} => 204 kept
TOKEN PUT /xapi/statements?statementId=ID95 {PASSED,FIRST} => 204
ZEROS4-7 PUT /xapi/statements?statementId=ID96 {INITIALIZED,ABOUT2UNDER"ID30"GIVENuWITHIN"ID40"}}} => 204 kept
ZEROS4-7 POST /xapi/statements [{"id":"ID97",COMPLETED,ABOUT2UNDER"ID30"GIVENuWITHIN"ID40"}}},{"id":"ID98",PASSED,ABOUT2UNDER"ID30"GIVENuWITHIN"ID40"}}},{"id":"ID99",TERMINATED,ABOUT2UNDER"ID30"GIVENuWITHIN"ID40"}}}] => 200 ["ID97","ID98","ID99"] kept
admin POST /desk/registrations/ID31/waive {"unit":"http://c/u","reason":"Administrative"} => 204 kept
admin POST /desk/registrations/ID31/waive {"unit":"http://c/u","reason":"Administrative"} => 204
admin POST /desk/sessions/ID20/abandon {} => 204 kept
TOKEN PUT /xapi/statements?statementId=ID9a {TERMINATED,FIRST} => 403 {"error":"C5"}
admin POST /desk/sweep {"idle":0} => 200 {"abandoned":["ID60"]} kept
nobody POST /fetch/ZEROS6-9 => 200 {"error-code":"2","error-text":"The session is closed."}
"#,
    questions: r#"admin GET /xapi/statements?ascending=true
admin GET /xapi/statements?voidedStatementId=ID91
admin GET /desk/registrations/ID10
admin GET /desk/registrations/ID30
admin GET /desk/registrations/ID31
TOKEN GET STATE&agent=AGENT&registration=ID10
"#,
};

const PENDING: [Pending; 4] = [
    Pending::Lost,
    Pending::Landed,
    Pending::Torn(1),
    Pending::Torn(255),
];

/// What a desk answers to what is asked, where this is drawn.
pub fn replied_with(
    alloc: Global,
    script: &Script,
    desk: &mut Desk<MemDisk>,
    draw: &Draw,
    asked: &str,
) -> Result<String, Fail> {
    replied(alloc, &script.routes, desk, draw, asked)
}

fn replied_to(
    alloc: Global,
    script: &Script,
    desk: &mut Desk<MemDisk>,
    asked: &str,
) -> Result<String, Fail> {
    replied_with(alloc, script, desk, &usual_draw(), asked)
}

/// All that a desk tells of what it holds.
pub fn told(alloc: Global, script: &Script, desk: &mut Desk<MemDisk>) -> Result<String, Fail> {
    let mut told = String::new(alloc);
    for question in script.questions.as_str().lines() {
        told.push_str(replied_to(alloc, script, desk, question)?.as_str())?;
    }
    Ok(told)
}

/// A desk behind what comes before a script, over a disk of which the calls with these numbers fail.
pub fn begun(alloc: Global, script: &Script, failing: Vec<u64>) -> Result<Desk<MemDisk>, Fail> {
    let mut desk = founded(alloc, failing, 999_999)?;
    match check_rows_of(alloc, &mut desk, script.before) {
        Ok(()) => Ok(desk),
        Err(fail) => {
            drop(desk);
            Err(fail)
        }
    }
}

// The disk's moment, by the receipt of a read, which makes no call of it.
fn moment(desk: &mut Desk<MemDisk>) -> u64 {
    let draw = Draw { name: 0, secret: 0 };
    let question = Submission::unjudged(Command::Read(Read::About));
    let (reply, receipt) = desk.act(Caller::Nobody, question, 0, &draw);
    drop(reply);
    receipt.disk()
}

// How far a desk has come after an act.
#[derive(Drop)]
struct Stage {
    moment: u64,
    entries: u64,
    told: String,
}

fn stage_of(alloc: Global, script: &Script, desk: &mut Desk<MemDisk>) -> Result<Stage, Fail> {
    let told = told(alloc, script, desk)?;
    Ok(Stage {
        moment: moment(desk),
        entries: desk.length(),
        told,
    })
}

// The stage after a row that is answered as it should be.
fn next_stage(
    alloc: Global,
    script: &Script,
    desk: &mut Desk<MemDisk>,
    row: &str,
) -> Result<Stage, Fail> {
    check_rows_of(alloc, desk, row)?;
    stage_of(alloc, script, desk)
}

// The stage after each row of the script, of which the first is empty.
fn stages(alloc: Global, script: &Script, desk: &mut Desk<MemDisk>) -> Result<Vec<Stage>, Fail> {
    let mut stages = Vec::new(alloc);
    for row in script.rows.as_str().lines() {
        stages.push(next_stage(alloc, script, desk, row)?)?;
    }
    Ok(stages)
}

// Sends it, and once more if the disk fails.
fn send(alloc: Global, script: &Script, desk: &mut Desk<MemDisk>, asked: &str) -> Result<(), Fail> {
    let failed = replied_to(alloc, script, desk, asked)?.starts_with("503");
    if failed && replied_to(alloc, script, desk, asked)?.starts_with("503") {
        return Err(Fail::from("failed twice"));
    }
    Ok(())
}

fn send_all(alloc: Global, script: &Script, desk: &mut Desk<MemDisk>) -> Result<(), Fail> {
    for row in script.rows.as_str().lines() {
        if let Some((asked, _)) = row.split_once(" => ") {
            send(alloc, script, desk, asked)?;
        }
    }
    Ok(())
}

// What is told after the whole script.
fn told_behind(alloc: Global, script: &Script, desk: &mut Desk<MemDisk>) -> Result<String, Fail> {
    send_all(alloc, script, desk)?;
    told(alloc, script, desk)
}

fn reopened(alloc: Global, bytes: Vec<u8>) -> Result<Desk<MemDisk>, Fail> {
    let disk = MemDisk::new(alloc, bytes, Vec::new(alloc), 999, 99_999)?;
    match Desk::recover(alloc, disk) {
        Ok(desk) => Ok(desk),
        Err((_, disk)) => {
            drop(disk);
            Err(Fail::from("not opened"))
        }
    }
}

// Whether a desk tells what one did at one of these stages.
fn stands(
    alloc: Global,
    script: &Script,
    desk: &mut Desk<MemDisk>,
    stages: &[Stage],
) -> Result<bool, Fail> {
    let entries = desk.length();
    let told = told(alloc, script, desk)?;
    for stage in stages {
        if stage.entries == entries && stage.told.as_str() == told.as_str() {
            return Ok(true);
        }
    }
    Ok(false)
}

fn image_stands(
    alloc: Global,
    script: &Script,
    image: Vec<u8>,
    stages: &[Stage],
) -> Result<bool, Fail> {
    let mut desk = reopened(alloc, image)?;
    let stands = stands(alloc, script, &mut desk, stages);
    drop(desk);
    stands
}

// Whether a stop at this moment leaves one of these stages, whatever is pending.
fn is_stopped_well(
    alloc: Global,
    script: &Script,
    disk: &MemDisk,
    moment: u64,
    stages: &[Stage],
) -> Result<bool, Fail> {
    for pending in PENDING {
        let image = disk.image(moment.min(disk.moment()), pending)?;
        if !image_stands(alloc, script, image, stages)? {
            return Ok(false);
        }
    }
    Ok(true)
}

// The first moment from one stage up to the next at which a stop leaves something else.
fn first_wrong_between(
    alloc: Global,
    script: &Script,
    disk: &MemDisk,
    pair: &[Stage],
) -> Result<Option<u64>, Fail> {
    let [before, behind] = pair else {
        return Ok(None);
    };
    for moment in before.moment..behind.moment {
        let reached = if moment == before.moment {
            from_ref(before)
        } else {
            pair
        };
        if !is_stopped_well(alloc, script, disk, moment, reached)? {
            return Ok(Some(moment));
        }
    }
    Ok(None)
}

fn first_wrong_stop(
    alloc: Global,
    script: &Script,
    disk: &MemDisk,
    stages: &[Stage],
) -> Result<Option<u64>, Fail> {
    for pair in stages.windows(2) {
        let wrong = first_wrong_between(alloc, script, disk, pair)?;
        if wrong.is_some() {
            return Ok(wrong);
        }
    }
    let end = stages.last().ok_or("no stage")?;
    if is_stopped_well(alloc, script, disk, disk.moment(), from_ref(end))? {
        Ok(None)
    } else {
        Ok(Some(disk.moment()))
    }
}

// The first moment of the script at which a stop leaves something else than the acts that were acknowledged, and maybe
// the one under way.
fn first_wrong_moment(alloc: Global, script: &Script) -> Result<Option<u64>, Fail> {
    let mut desk = begun(alloc, script, Vec::new(alloc))?;
    let stages = stages(alloc, script, &mut desk);
    let disk = match desk.close() {
        Ok(disk) => disk,
        Err((_, disk)) => disk,
    };
    let wrong = first_wrong_among(alloc, script, &disk, stages);
    drop(disk);
    wrong
}

fn first_wrong_among(
    alloc: Global,
    script: &Script,
    disk: &MemDisk,
    stages: Result<Vec<Stage>, Fail>,
) -> Result<Option<u64>, Fail> {
    let stages = stages?;
    let wrong = first_wrong_stop(alloc, script, disk, stages.as_slice());
    drop(stages);
    wrong
}

// Fails with that moment.
fn check_moments(alloc: Global, script: &Script) -> Result<(), Fail> {
    match first_wrong_moment(alloc, script)? {
        Some(moment) => Err(Fail::from(format!(in alloc; "moment {moment}")?)),
        None => Ok(()),
    }
}

fn check_stops(alloc: Global, texts: &Texts) -> Result<(), Fail> {
    let script = Script::of(alloc, texts)?;
    let checked = check_moments(alloc, &script);
    drop(script);
    checked
}

#[test]
fn a_stop_leaves_the_acknowledged_acts(rt: HostRuntime) -> Result<(), Fail> {
    check_stops(rt.alloc(), &STATEMENTS)
}

#[test]
fn a_stop_leaves_what_sessions_said_and_what_came_of_it(rt: HostRuntime) -> Result<(), Fail> {
    check_stops(rt.alloc(), &SESSIONS)
}

// What came of the script if a call of the disk failed and each 503 was sent once more.
#[derive(Drop)]
struct Retried {
    /// How many calls failed.
    faults: u64,
    /// What is told by the desk, and by one that opens its disk.
    told: String,
    kept: String,
}

/// What a desk over the bytes of this disk tells.
pub fn told_by(alloc: Global, script: &Script, disk: &MemDisk) -> Result<String, Fail> {
    let mut desk = reopened(alloc, disk.bytes().to_vec(alloc)?)?;
    let told = told(alloc, script, &mut desk);
    drop(desk);
    told
}

fn told_by_both(
    alloc: Global,
    script: &Script,
    disk: &MemDisk,
    told: Result<String, Fail>,
) -> Result<Retried, Fail> {
    let told = told?;
    let kept = told_by(alloc, script, disk)?;
    Ok(Retried {
        faults: disk.faults(),
        told,
        kept,
    })
}

fn retry(alloc: Global, script: &Script, failing: Vec<u64>) -> Result<Retried, Fail> {
    let mut desk = begun(alloc, script, failing)?;
    let told = told_behind(alloc, script, &mut desk);
    let disk = match desk.close() {
        Ok(disk) => disk,
        Err((_, disk)) => disk,
    };
    let retried = told_by_both(alloc, script, &disk, told);
    drop(disk);
    retried
}

/// The number of the first call of the disk that a script makes.
pub fn first_call(alloc: Global, script: &Script) -> Result<u64, Fail> {
    let mut desk = begun(alloc, script, Vec::new(alloc))?;
    let first = moment(&mut desk);
    drop(desk);
    Ok(first)
}

// How many calls of the disk the script makes, of which each may fail: then the same is told in the end. Or the number
// of one that may not.
fn calls_that_may_fail(alloc: Global, script: &Script) -> Result<Result<u64, u64>, Fail> {
    let calm = retry(alloc, script, Vec::new(alloc))?;
    let first = first_call(alloc, script)?;
    for call in first..999 {
        let retried = retry(alloc, script, vec![in alloc; call]?)?;
        if retried.told != calm.told || retried.kept != calm.told {
            return Ok(Err(call));
        }
        if retried.faults == 0 {
            return Ok(Ok(call.saturating_sub(first)));
        }
    }
    Ok(Err(999))
}

// How many calls a script makes without a fault: an append makes six.
fn calls_of(script: &Script) -> u64 {
    let kept = script.rows.as_str().matches(" kept").count() as u64;
    kept.saturating_mul(6)
}

// Fails with the number of the call that may not fail, or with how many a script made, if it makes others.
fn check_calls(alloc: Global, script: &Script) -> Result<(), Fail> {
    match calls_that_may_fail(alloc, script)? {
        Ok(calls) if calls == calls_of(script) => Ok(()),
        Ok(calls) => Err(Fail::from(format!(in alloc; "{calls} calls")?)),
        Err(call) => Err(Fail::from(format!(in alloc; "call {call}")?)),
    }
}

fn check_tries(alloc: Global, texts: &Texts) -> Result<(), Fail> {
    let script = Script::of(alloc, texts)?;
    let checked = check_calls(alloc, &script);
    drop(script);
    checked
}

#[test]
fn a_failing_call_costs_one_more_try(rt: HostRuntime) -> Result<(), Fail> {
    check_tries(rt.alloc(), &STATEMENTS)
}

#[test]
fn a_failing_call_costs_sessions_no_more(rt: HostRuntime) -> Result<(), Fail> {
    check_tries(rt.alloc(), &SESSIONS)
}

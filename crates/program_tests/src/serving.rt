//! What `serve` answers and leaves.
use crate::runs::{
    Around, DISK, GET, MAKE, NO_CONTENT, POST, PUT, Ran, SERVE, SHOWN, file_behind, file_of,
    joined, run_over, store, stored, wrong_at,
};
use lrs_app::Finish;
use std::alloc::Global;
use std::sync::Wait;
use std::test::Fail;
use std::thread::Threads;

// What one connection brings, and what it is sent.
const ANSWERS: [(&str, &str); 7] = [
    (
        "GET /xapi/about HTTP/1.1\r\n\r\n",
        "HTTP/1.1 200 OK\r\nContent-Type: application/json\r\nContent-Length: 21\r\nX-Experience-API-Version: 1.0.3\r\n\r\n{\"version\":[\"1.0.3\"]}",
    ),
    (
        "DELETE /xapi/about HTTP/1.1\r\n\r\n",
        "HTTP/1.1 405 Method Not Allowed\r\nContent-Type: application/json\r\nContent-Length: 15\r\nX-Experience-API-Version: 1.0.3\r\nAllow: GET\r\n\r\n{\"error\":\"405\"}",
    ),
    (
        "GET /none HTTP/1.1\r\n\r\n",
        "HTTP/1.1 404 Not Found\r\nContent-Type: application/json\r\nContent-Length: 15\r\nX-Experience-API-Version: 1.0.3\r\n\r\n{\"error\":\"404\"}",
    ),
    (
        "GET /xapi/statements?statementId=11111111-1111-4111-8111-111111111111 HTTP/1.1\r\nAuthorization: Basic adminadmin\r\n\r\n",
        "HTTP/1.1 400 Bad Request\r\nContent-Type: application/json\r\nContent-Length: 14\r\nX-Experience-API-Version: 1.0.3\r\n\r\n{\"error\":\"V1\"}",
    ),
    (
        "GET /xapi/statements?statementId=11111111-1111-4111-8111-111111111111 HTTP/1.1\r\nX-Experience-API-Version: 1.0.3\r\n\r\n",
        "HTTP/1.1 401 Unauthorized\r\nContent-Type: application/json\r\nContent-Length: 14\r\nX-Experience-API-Version: 1.0.3\r\nWWW-Authenticate: Basic realm=\"lrs\"\r\n\r\n{\"error\":\"A1\"}",
    ),
    (
        "POST /xapi/statements HTTP/1.1\r\nX-Experience-API-Version: 1.0.3\r\nContent-Length: 2\r\n\r\n[1",
        "HTTP/1.1 401 Unauthorized\r\nContent-Type: application/json\r\nContent-Length: 14\r\nX-Experience-API-Version: 1.0.3\r\nWWW-Authenticate: Basic realm=\"lrs\"\r\n\r\n{\"error\":\"A1\"}",
    ),
    (
        "POST /xapi/statements HTTP/1.1\r\nX-Experience-API-Version: 1.0.3\r\nAuthorization: Basic adminadmin\r\nContent-Length: 2\r\n\r\n[1",
        "HTTP/1.1 400 Bad Request\r\nContent-Type: application/json\r\nContent-Length: 14\r\nX-Experience-API-Version: 1.0.3\r\n\r\n{\"error\":\"J2\"}",
    ),
];

// Whether the one connection is sent this and no entry is made.
fn is_answered<R: Threads + Wait + Sync>(
    rt: &R,
    alloc: Global,
    request: &str,
    response: &str,
) -> Result<bool, Fail> {
    let ran = run_over(rt, alloc, SERVE, &Around::calm(stored(), "", &[request]))?;
    let told = ran.ends(0, "served 1\n") && ran.responses == 1;
    Ok(told && ran.sends(response) && ran.leaves(stored()))
}

#[test]
fn a_server_answers_to_the_byte(rt: HostRuntime) -> Result<(), Fail> {
    for (request, response) in ANSWERS.iter() {
        if !is_answered(&rt, rt.alloc(), request, response)? {
            return Err(Fail::from(*request));
        }
    }
    Ok(())
}

// A store's limit, the length of its file after a PUT, and what that is answered.
const LIMITS: [(&str, usize, &str); 2] = [
    ("558", 558, NO_CONTENT),
    (
        "557",
        217,
        "HTTP/1.1 507 Insufficient Storage\r\nContent-Type: application/json\r\nContent-Length: 38\r\nX-Experience-API-Version: 1.0.3\r\n\r\n{\"error\":\"507\",\"need\":558,\"limit\":557}",
    ),
];

fn keeps_to<R: Threads + Wait + Sync>(
    rt: &R,
    alloc: Global,
    limit: &str,
    length: usize,
    response: &str,
) -> Result<bool, Fail> {
    let stored = store(rt, alloc, limit)?;
    let ran = run_over(
        rt,
        alloc,
        SERVE,
        &Around::calm(stored.as_slice(), "", &[PUT]),
    )?;
    let keeps = ran.size() == length && ran.sends(response) && ran.status == 0;
    drop(ran);
    Ok(keeps)
}

#[test]
fn a_server_keeps_to_the_limit(rt: HostRuntime) -> Result<(), Fail> {
    for (limit, length, response) in LIMITS.iter() {
        if !keeps_to(&rt, rt.alloc(), limit, *length, response)? {
            return Err(Fail::from(*limit));
        }
    }
    Ok(())
}

// Whether one connection, of which reads end at these offsets, is sent this.
fn are_answered<R: Threads + Wait + Sync>(
    rt: &R,
    alloc: Global,
    stored: &[u8],
    stream: &str,
    cuts: &[usize],
    answers: &str,
) -> Result<bool, Fail> {
    let streams = [stream];
    let around = Around {
        cuts,
        ..Around::calm(stored, "", &streams)
    };
    Ok(run_over(rt, alloc, SERVE, &around)?.sends(answers))
}

// Fails if one connection isn't sent this.
fn check_answers<R: Threads + Wait + Sync>(
    rt: &R,
    alloc: Global,
    file: &[u8],
    stream: &str,
    answers: &str,
) -> Result<(), Fail> {
    if are_answered(rt, alloc, file, stream, &[], answers)? {
        Ok(())
    } else {
        Err(Fail::from(format!(in alloc; "other answers to {stream}")?))
    }
}

// The file after two connections.
fn behind_two<R: Threads + Wait + Sync>(
    rt: &R,
    alloc: Global,
    first: &str,
    second: &str,
) -> Result<Vec<u8>, Fail> {
    let streams = [first, second];
    file_behind(rt, alloc, SERVE, &Around::calm(stored(), "", &streams))
}

fn are_two_served<R: Threads + Wait + Sync>(rt: &R, alloc: Global) -> Result<bool, Fail> {
    let ran = run_over(rt, alloc, SERVE, &Around::calm(stored(), "", &[PUT, GET]))?;
    let served = ran.ends(0, "served 2\n");
    drop(ran);
    Ok(served)
}

#[test]
fn a_server_keeps_statements_for_later_connections(rt: HostRuntime) -> Result<(), Fail> {
    if !are_two_served(&rt, rt.alloc())? {
        return Err(Fail::from("not served"));
    }
    let file = behind_two(&rt, rt.alloc(), PUT, GET)?;
    check_answers(&rt, rt.alloc(), file.as_slice(), GET, SHOWN)
}

// Fails with the first offset at which a read may not end.
fn check_cuts<R: Threads + Wait + Sync>(
    rt: &R,
    alloc: Global,
    stream: &str,
    answers: &str,
) -> Result<(), Fail> {
    for cut in 0..stream.len() {
        if !are_answered(rt, alloc, stored(), stream, &[cut], answers)? {
            return wrong_at(alloc, cut as u64);
        }
    }
    Ok(())
}

// Fails if what comes one byte a read is answered otherwise.
fn check_bytes<R: Threads + Wait + Sync>(
    rt: &R,
    alloc: Global,
    stream: &str,
    answers: &str,
) -> Result<(), Fail> {
    let each: Vec<usize> = (0..stream.len()).collect(alloc)?;
    if are_answered(rt, alloc, stored(), stream, each.as_slice(), answers)? {
        Ok(())
    } else {
        Err(Fail::from("byte by byte"))
    }
}

#[test]
fn a_put_and_a_get_are_answered_alike_wherever_they_are_cut(rt: HostRuntime) -> Result<(), Fail> {
    let stream = joined(rt.alloc(), &[PUT, GET])?;
    let answers = joined(rt.alloc(), &[NO_CONTENT, SHOWN])?;
    check_cuts(&rt, rt.alloc(), stream.as_str(), answers.as_str())
}

#[test]
fn a_put_and_a_get_are_answered_alike_byte_by_byte(rt: HostRuntime) -> Result<(), Fail> {
    let stream = joined(rt.alloc(), &[PUT, GET])?;
    let answers = joined(rt.alloc(), &[NO_CONTENT, SHOWN])?;
    check_bytes(&rt, rt.alloc(), stream.as_str(), answers.as_str())
}

// The end of a conversation whose input ends after so many bytes of its first request.
fn finish_behind(length: usize) -> Finish {
    match length {
        0 => Finish::Ended,
        _ => Finish::Cut,
    }
}

fn is_silent(ran: &Ran, finish: Finish) -> bool {
    match ran.talk() {
        Some(talk) => talk.finish() == finish && ran.sends("") && ran.responses == 0,
        None => false,
    }
}

// Whether so many bytes of a PUT get no answer and leave the file alone.
fn is_unanswered<R: Threads + Wait + Sync>(
    rt: &R,
    alloc: Global,
    length: usize,
) -> Result<bool, Fail> {
    let part = PUT.get(..length).ok_or("no such part")?;
    let ran = run_over(rt, alloc, SERVE, &Around::calm(stored(), "", &[part]))?;
    let told = ran.ends(0, "served 0\n") && ran.leaves(stored());
    let is_unanswered = told && is_silent(&ran, finish_behind(length));
    drop(ran);
    Ok(is_unanswered)
}

#[test]
fn a_part_of_a_put_is_not_answered(rt: HostRuntime) -> Result<(), Fail> {
    for length in 0..PUT.len() {
        if !is_unanswered(&rt, rt.alloc(), length)? {
            return wrong_at(rt.alloc(), length as u64);
        }
    }
    Ok(())
}

// The token's digits were computed by an independent program: the secret of the first draw of stream 1.
const PROVIDER: &str = "d8968f3a519aade770c5c943b8f94a2b-1";

const MADE: &str =
    "HTTP/1.1 200 OK\r\nContent-Type: application/json\r\nContent-Length: 57\r\nX-Experience-API-Version: 1.0.3\r\n\r\n{\"caller\":0,\"token\":\"d8968f3a519aade770c5c943b8f94a2b-1\"}";

const FORBIDDEN: &str =
    "HTTP/1.1 403 Forbidden\r\nContent-Type: application/json\r\nContent-Length: 14\r\nX-Experience-API-Version: 1.0.3\r\n\r\n{\"error\":\"A2\"}";

// What one connection brings: the admin makes a provider, who keeps a statement and isn't let in to make another.
fn stream(alloc: Global) -> Result<String, Fail> {
    let put = PUT.replace(alloc, "adminadmin", PROVIDER)?;
    let again = MAKE.replace(alloc, "adminadmin", PROVIDER)?;
    joined(alloc, &[MAKE, put.as_str(), again.as_str()])
}

#[test]
fn a_provider_is_made_and_keeps_to_its_area(rt: HostRuntime) -> Result<(), Fail> {
    let stream = stream(rt.alloc())?;
    let answers = joined(rt.alloc(), &[MADE, NO_CONTENT, FORBIDDEN])?;
    check_answers(&rt, rt.alloc(), stored(), stream.as_str(), answers.as_str())
}

const POST_NONE: &str =
    "POST /xapi/statements HTTP/1.1\r\nX-Experience-API-Version: 1.0.3\r\nAuthorization: Basic adminadmin\r\nContent-Length: 2\r\n\r\n[]";

// One statement without an array, and none: each is told the ids.
const BATCHES: [(&str, &str); 2] = [
    (
        POST,
        "HTTP/1.1 200 OK\r\nContent-Type: application/json\r\nContent-Length: 40\r\nX-Experience-API-Version: 1.0.3\r\n\r\n[\"11111111-1111-4111-8111-111111111111\"]",
    ),
    (
        POST_NONE,
        "HTTP/1.1 200 OK\r\nContent-Type: application/json\r\nContent-Length: 2\r\nX-Experience-API-Version: 1.0.3\r\n\r\n[]",
    ),
];

#[test]
fn a_server_tells_the_ids_of_a_batch(rt: HostRuntime) -> Result<(), Fail> {
    for (request, response) in BATCHES.iter() {
        check_answers(&rt, rt.alloc(), stored(), request, response)?;
    }
    Ok(())
}

#[test]
fn a_batch_that_comes_again_makes_no_entry(rt: HostRuntime) -> Result<(), Fail> {
    let once = file_behind(&rt, rt.alloc(), SERVE, &Around::calm(stored(), "", &[POST]))?;
    let twice = behind_two(&rt, rt.alloc(), POST, POST)?;
    if twice.as_slice() == once.as_slice() {
        Ok(())
    } else {
        Err(Fail::from("an entry"))
    }
}

const ABOUT: &str = "GET /xapi/about HTTP/1.1\r\n\r\n";

// The file, the call of `next` that fails, the status and the line. The first three are no stores that
// are opened.
const ENDS: [(&str, u64, u8, &str); 6] = [
    ("none", 9, 2, "not a store\n"),
    ("header", 9, 3, "damaged 0\n"),
    ("old", 9, 9, "old format\n"),
    ("store", 0, 8, "lobby fault\n"),
    ("store", 1, 8, "lobby fault\n"),
    ("store", 2, 0, "served 2\n"),
];

// Whether serving ends so over a file that stays as it is.
fn ends<R: Threads + Wait + Sync>(
    rt: &R,
    alloc: Global,
    stored: &[u8],
    failing: u64,
    status: u8,
    line: &str,
) -> Result<bool, Fail> {
    let door_fails = [failing];
    let around = Around {
        door_fails: &door_fails,
        ..Around::calm(stored, "", &[ABOUT, ABOUT])
    };
    let ran = run_over(rt, alloc, SERVE, &around)?;
    Ok(ran.ends(status, line) && ran.leaves(stored))
}

#[test]
fn a_server_opens_a_store_and_ends_by_what_fails_first(rt: HostRuntime) -> Result<(), Fail> {
    for (file, failing, status, line) in ENDS.iter() {
        if !ends(&rt, rt.alloc(), file_of(file, &[]), *failing, *status, line)? {
            return Err(Fail::from(format!(in rt.alloc(); "{file}, call {failing}")?));
        }
    }
    Ok(())
}

// What a PUT is sent and what is printed if the disk fails for good: while the store is opened, before the entry's
// gate is written, after that, or not at all.
const STAGES: [(&str, &str); 4] = [
    ("", "disk fault\n"),
    (DISK, "served 1\n"),
    (DISK, "disk fault\n"),
    (NO_CONTENT, "served 1\n"),
];

// A PUT over a disk of which all calls from this one on fail.
fn served_until<R: Threads + Wait + Sync>(rt: &R, alloc: Global, first: u64) -> Result<Ran, Fail> {
    let failing: Vec<u64> = (first..64).collect(alloc)?;
    let around = Around {
        disk_fails: failing.as_slice(),
        ..Around::calm(stored(), "", &[PUT])
    };
    run_over(rt, alloc, SERVE, &around)
}

fn is_of_stage(ran: &Ran, stage: usize) -> bool {
    match STAGES.get(stage) {
        Some((sent, line)) => ran.sends(sent) && ran.printed.as_slice() == line.as_bytes(),
        None => false,
    }
}

// The stage of such a run: this one or the next.
fn stage_of<R: Threads + Wait + Sync>(
    rt: &R,
    alloc: Global,
    first: u64,
    stage: usize,
) -> Result<Option<usize>, Fail> {
    let ran = served_until(rt, alloc, first)?;
    let next = stage.saturating_add(1);
    if is_of_stage(&ran, stage) {
        Ok(Some(stage))
    } else if is_of_stage(&ran, next) {
        Ok(Some(next))
    } else {
        Ok(None)
    }
}

// Each call is of the stage of the one before it or of the next one, and the last one is reached.
#[test]
fn a_failing_disk_is_told_to_the_client_and_at_the_end(rt: HostRuntime) -> Result<(), Fail> {
    let mut stage = 0;
    for first in 0..40 {
        match stage_of(&rt, rt.alloc(), first, stage)? {
            Some(next) => stage = next,
            None => return wrong_at(rt.alloc(), first),
        }
    }
    if stage == 3 {
        Ok(())
    } else {
        Err(Fail::from("not all stages"))
    }
}

//! Each limit of what a client may send, reached and passed by one.
use crate::served::{Served, link_of, serve_links};
use std::alloc::Global;
use std::sync::Wait;
use std::test::Fail;
use std::thread::Threads;

const ABOUT: &str = "GET /xapi/about HTTP/1.1\r\n";

// The response to that.
const VERSIONS: &str =
    "HTTP/1.1 200 OK\r\nContent-Type: application/json\r\nContent-Length: 21\r\nX-Experience-API-Version: 1.0.3\r\n\r\n{\"version\":[\"1.0.3\"]}";

const PUT: &str = "PUT /xapi/statements?statementId=11111111-1111-4111-8111-111111111111";

const POST: &str = "POST /xapi/statements";

const STATE: &str =
    "PUT /xapi/activities/state?activityId=http://a/1&agent={\"mbox\":\"mailto:a@b\"}&stateId=b";

const COURSES: &str = "POST /desk/courses";

// A statement but for the value of an extension of its context, which stands fourth.
const STATEMENT: &str =
    "{\"actor\":{\"mbox\":\"mailto:a@b\"},\"verb\":{\"id\":\"http://v/1\"},\"object\":{\"id\":\"http://a/1\"},\"context\":{\"extensions\":{\"http://e/1\":";

const COURSE: &str = "{\"id\":\"http://c/1\",\"title\":{\"en\":\"C\"},\"children\":[";

// What comes and how much of it, and behind it the question for the versions. How the connection ends, the status of each
// response, and the first line of the first one. Then that one's body, if it is a refusal.
const LIMITS: [(&str, usize, &str, &str); 18] = [
    ("bytes of a head", 16_384, "ended 200 200: 200 OK", ""),
    (
        "bytes of a head",
        16_385,
        "closed 431: 431 Request Header Fields Too Large",
        "{\"error\":\"431\"}",
    ),
    ("fields", 64, "ended 200 200: 200 OK", ""),
    (
        "fields",
        65,
        "closed 431: 431 Request Header Fields Too Large",
        "{\"error\":\"431\"}",
    ),
    (
        "bytes of a body",
        4_194_304,
        "ended 200 kept 200: 200 OK",
        "",
    ),
    (
        "bytes of a body",
        4_194_305,
        "closed 413: 413 Payload Too Large",
        "{\"error\":\"413\"}",
    ),
    (
        "bytes of a statement",
        262_144,
        "ended 204 kept 200: 204 No Content",
        "",
    ),
    (
        "bytes of a statement",
        262_145,
        "ended 413 200: 413 Payload Too Large",
        "{\"error\":\"413\"}",
    ),
    ("statements", 500, "ended 200 kept 200: 200 OK", ""),
    (
        "statements",
        501,
        "ended 413 200: 413 Payload Too Large",
        "{\"error\":\"413\"}",
    ),
    (
        "bytes of a document",
        1_048_576,
        "ended 204 kept 200: 204 No Content",
        "",
    ),
    (
        "bytes of a document",
        1_048_577,
        "ended 413 200: 413 Payload Too Large",
        "{\"error\":\"413\"}",
    ),
    (
        "arrays and objects",
        64,
        "ended 204 kept 200: 204 No Content",
        "",
    ),
    (
        "arrays and objects",
        65,
        "ended 400 200: 400 Bad Request",
        "{\"error\":\"J1\"}",
    ),
    ("units", 1_000, "ended 200 kept 200: 200 OK", ""),
    (
        "units",
        1_001,
        "ended 400 200: 400 Bad Request",
        "{\"error\":\"K12\"}",
    ),
    ("levels", 16, "ended 200 kept 200: 200 OK", ""),
    (
        "levels",
        17,
        "ended 400 200: 400 Bad Request",
        "{\"error\":\"K12\"}",
    ),
];

// A text of so many bytes that begins and ends so.
fn filled(alloc: Global, front: &str, back: &str, size: usize) -> Result<String, Fail> {
    let count = size.saturating_sub(front.len()).saturating_sub(back.len());
    let filling = "x".repeat(alloc, count)?;
    Ok(format!(in alloc; "{front}{filling}{back}")?)
}

// A statement of so many bytes.
fn statement(alloc: Global, size: usize) -> Result<String, Fail> {
    let front = format!(in alloc; "{STATEMENT}\"")?;
    filled(alloc, front.as_str(), "\"}}}", size)
}

// An array of so many bytes: sixteen statements, and one of what is left.
fn array(alloc: Global, size: usize) -> Result<String, Fail> {
    let mut front = statement(alloc, 246_000)?;
    front.push(',')?;
    let front = front.as_str().repeat(alloc, 16)?;
    let last = statement(alloc, size.saturating_sub(front.len()).saturating_sub(2))?;
    Ok(format!(in alloc; "[{front}{last}]")?)
}

// An array of so many statements.
fn batch(alloc: Global, count: usize) -> Result<String, Fail> {
    let front = format!(in alloc; "{STATEMENT}1}}}}}},")?;
    let front = front.as_str().repeat(alloc, count.saturating_sub(1))?;
    Ok(format!(in alloc; "[{front}{STATEMENT}1}}}}}}]")?)
}

// A statement so many levels deep, by arrays.
fn nested(alloc: Global, depth: usize) -> Result<String, Fail> {
    let arrays = depth.saturating_sub(3);
    let front = "[".repeat(alloc, arrays)?;
    let back = "]".repeat(alloc, arrays)?;
    Ok(format!(in alloc; "{STATEMENT}{front}{back}}}}}}}")?)
}

// A course of so many units, each of which is so deep.
fn course(alloc: Global, units: usize, depth: usize) -> Result<String, Fail> {
    let mut text = String::from_str(alloc, COURSE)?;
    for level in 1..depth {
        let block = format!(in alloc;
            "{{\"kind\":\"block\",\"id\":\"http://c/b{level}\",\"title\":{{\"en\":\"B\"}},\"children\":["
        )?;
        text.push_str(block.as_str())?;
    }
    for unit in 0..units {
        let comma = if unit > 0 { "," } else { "" };
        let unit = format!(in alloc;
            "{comma}{{\"kind\":\"unit\",\"id\":\"http://c/u{unit}\",\"title\":{{\"en\":\"U\"}},\"url\":\"http://a/u\"}}"
        )?;
        text.push_str(unit.as_str())?;
    }
    text.push_str("]}".repeat(alloc, depth)?.as_str())?;
    Ok(text)
}

// The admin's request with this body.
fn asked(alloc: Global, what: &str, body: &str) -> Result<String, Fail> {
    let length = body.len();
    Ok(format!(in alloc;
        "{what} HTTP/1.1\r\nX-Experience-API-Version: 1.0.3\r\nAuthorization: Basic adminadmin\r\nContent-Length: {length}\r\n\r\n{body}"
    )?)
}

// The request of a row.
fn request(alloc: Global, what: &str, size: usize) -> Result<String, Fail> {
    match what {
        "bytes of a head" => {
            let front = format!(in alloc; "{ABOUT}X: ")?;
            filled(alloc, front.as_str(), "\r\n\r\n", size)
        }
        "fields" => {
            let fields = "X: x\r\n".repeat(alloc, size)?;
            Ok(format!(in alloc; "{ABOUT}{fields}\r\n")?)
        }
        "bytes of a body" => asked(alloc, POST, array(alloc, size)?.as_str()),
        "bytes of a statement" => asked(alloc, PUT, statement(alloc, size)?.as_str()),
        "statements" => asked(alloc, POST, batch(alloc, size)?.as_str()),
        "bytes of a document" => asked(alloc, STATE, filled(alloc, "", "", size)?.as_str()),
        "arrays and objects" => asked(alloc, PUT, nested(alloc, size)?.as_str()),
        "units" => asked(alloc, COURSES, course(alloc, size, 1)?.as_str()),
        _ => asked(alloc, COURSES, course(alloc, 1, size)?.as_str()),
    }
}

// What a connection was sent, and whether that ends with this refusal, and with the versions if it stays open.
fn found_in(alloc: Global, served: &Served, refusal: &str) -> Result<String, Fail> {
    let told = served.told(alloc, 0)?;
    let taken = str::from_utf8(served.link(0)?.taken())?;
    let end = if refusal.is_empty() {
        String::from_str(alloc, VERSIONS)?
    } else if told.as_str().starts_with("ended") {
        format!(in alloc; "\r\n\r\n{refusal}{VERSIONS}")?
    } else {
        format!(in alloc; "\r\nConnection: close\r\n\r\n{refusal}")?
    };
    let (line, _) = taken.split_once("\r\n").unwrap_or((taken, ""));
    let line = line.strip_prefix("HTTP/1.1 ").unwrap_or("no line");
    let mark = if taken.ends_with(end.as_str()) {
        ""
    } else {
        ", another end"
    };
    Ok(format!(in alloc; "{told}: {line}{mark}")?)
}

fn found<R: Threads + Wait + Sync>(
    rt: &R,
    alloc: Global,
    what: &str,
    size: usize,
    refusal: &str,
) -> Result<String, Fail> {
    let request = request(alloc, what, size)?;
    let stream = format!(in alloc; "{request}{ABOUT}\r\n")?;
    let link = link_of(alloc, stream.as_str(), &[], 99_999, &[])?;
    let served = serve_links(rt, alloc, vec![in alloc; link]?)?;
    let found = found_in(alloc, &served, refusal);
    drop(served);
    found
}

// Fails with the first row of which something else is found.
fn check_limits<R: Threads + Wait + Sync>(rt: &R, alloc: Global) -> Result<(), Fail> {
    for (what, size, expected, refusal) in LIMITS.iter() {
        let found = found(rt, alloc, what, *size, refusal)?;
        if found.as_str() != *expected {
            return Err(Fail::from(format!(in alloc; "{size} {what}: {found}")?));
        }
    }
    Ok(())
}

#[test]
fn a_connection_stays_open_at_each_limit_but_those_of_framing(rt: HostRuntime) -> Result<(), Fail> {
    check_limits(&rt, rt.alloc())
}

// The bytes of responses.
ghost use Rattle.std.specs.Prelude.{◌≡◌, ◌≢◌, [], IsTrue};
ghost use Rattle.lrs_http.specs.Response.{IsStatus};

use crate::failing::wrong_row;
use lrs_http::{LinkFault, Reply2, write_response};
use lrs_in_memory_doors::MemLink;
use std::alloc::Global;
use std::test::Fail;

// A link that takes so many bytes.
fn link_of(alloc: Global, room: usize) -> Result<MemLink, Fail> {
    Ok(MemLink::new(
        alloc,
        Vec::new(alloc),
        Vec::new(alloc),
        room,
        Vec::new(alloc),
    )?)
}

fn is_status(status: u16) -> bool
    ensures { IsTrue result → IsStatus status }
{
    matches!(
        status,
        200 | 204 | 400 | 401 | 403 | 404 | 405 | 409 | 411 | 413 | 431 | 501 | 503 | 507
    )
}

// Whether it is a response that may be written.
fn is_response(reply: &Reply2) -> bool
    ensures status { IsTrue result → IsStatus reply.now.status }
    ensures bare { IsTrue result → reply.now.status ≡ 204 → (reply.now.media.now ≡ []) × (reply.now.body.now ≡ []) }
    ensures methods { IsTrue result → reply.now.status ≢ 405 → reply.now.allow.now ≡ [] }
{
    is_status(reply.status)
        && (reply.status != 204 || (reply.media.is_empty() && reply.body.is_empty()))
        && (reply.status == 405 || reply.allow.is_empty())
}

// Whether these are the bytes of the response.
fn writes(alloc: Global, reply: &Reply2, closes: bool, text: &str) -> Result<bool, Fail> {
    let mut link = link_of(alloc, 4_096)?;
    Ok(
        is_response(reply)
            && write_response(&mut link, reply, closes).is_ok()
            && link.taken() == text.as_bytes(),
    )
}

const ABOUT: Reply2<'static> = Reply2 {
    status: 200,
    media: "application/json",
    body: b"{\"version\":[\"1.0.3\"]}",
    through: None,
    allow: "",
};

const RESPONSES: [(Reply2<'static>, bool, &str); 5] = [
    (
        ABOUT,
        false,
        "HTTP/1.1 200 OK\r\nContent-Type: application/json\r\nContent-Length: 21\r\nX-Experience-API-Version: 1.0.3\r\n\r\n{\"version\":[\"1.0.3\"]}",
    ),
    (
        Reply2 {
            status: 204,
            media: "",
            body: b"",
            through: None,
            allow: "",
        },
        true,
        "HTTP/1.1 204 No Content\r\nX-Experience-API-Version: 1.0.3\r\nConnection: close\r\n\r\n",
    ),
    (
        Reply2 {
            status: 405,
            body: b"{\"error\":\"405\"}",
            allow: "GET, PUT",
            ..ABOUT
        },
        false,
        "HTTP/1.1 405 Method Not Allowed\r\nContent-Type: application/json\r\nContent-Length: 15\r\nX-Experience-API-Version: 1.0.3\r\nAllow: GET, PUT\r\n\r\n{\"error\":\"405\"}",
    ),
    (
        Reply2 {
            status: 401,
            body: b"{\"error\":\"A1\"}",
            ..ABOUT
        },
        false,
        "HTTP/1.1 401 Unauthorized\r\nContent-Type: application/json\r\nContent-Length: 14\r\nX-Experience-API-Version: 1.0.3\r\nWWW-Authenticate: Basic realm=\"lrs\"\r\n\r\n{\"error\":\"A1\"}",
    ),
    (
        Reply2 {
            body: b"{\"statements\":[],\"more\":\"\"}",
            through: Some(*b"2023-11-14T22:13:20.000Z"),
            ..ABOUT
        },
        false,
        "HTTP/1.1 200 OK\r\nContent-Type: application/json\r\nContent-Length: 27\r\nX-Experience-API-Version: 1.0.3\r\nX-Experience-API-Consistent-Through: 2023-11-14T22:13:20.000Z\r\n\r\n{\"statements\":[],\"more\":\"\"}",
    ),
];

#[test]
fn responses_are_these_bytes(rt: HostRuntime) -> Result<(), Fail> {
    let alloc = rt.alloc();
    for (i, (reply, closes, text)) in RESPONSES.iter().enumerate() {
        if !writes(alloc, reply, *closes, text)? {
            return wrong_row(i);
        }
    }
    Ok(())
}

const PHRASES: [(u16, &str); 10] = [
    (400, "Bad Request"),
    (403, "Forbidden"),
    (404, "Not Found"),
    (409, "Conflict"),
    (411, "Length Required"),
    (413, "Payload Too Large"),
    (431, "Request Header Fields Too Large"),
    (501, "Not Implemented"),
    (503, "Service Unavailable"),
    (507, "Insufficient Storage"),
];

fn has_phrase(alloc: Global, status: u16, phrase: &str) -> Result<bool, Fail> {
    let line = format!(in alloc; "HTTP/1.1 {status} {phrase}\r\n")?;
    let mut link = link_of(alloc, 4_096)?;
    let reply = Reply2 { status, ..ABOUT };
    Ok(
        is_response(&reply)
            && write_response(&mut link, &reply, false).is_ok()
            && link.taken().starts_with(line.as_bytes()),
    )
}

#[test]
fn statuses_have_their_phrases(rt: HostRuntime) -> Result<(), Fail> {
    let alloc = rt.alloc();
    for (i, (status, phrase)) in PHRASES.iter().enumerate() {
        if !has_phrase(alloc, *status, phrase)? {
            return wrong_row(i);
        }
    }
    Ok(())
}

// A body that no buffer holds, and a link that fails in its midst.
#[test]
fn a_link_may_fail_within_a_body(rt: HostRuntime) -> Result<(), Fail> {
    let body = [b'y'; 5_000];
    let long = Reply2 {
        body: &body,
        ..ABOUT
    };
    let mut link = link_of(rt.alloc(), 4_096)?;
    let written = write_response(&mut link, &long, false);
    assert!(rt; written == Err(LinkFault) && link.taken().len() == 4_096);
    Ok(())
}

// Requests, as they come out of streams of bytes.
use crate::failing::wrong_row;
use lrs_disk::Link;
use lrs_http::{Request, RequestRefused, read_request};
use lrs_in_memory_doors::MemLink;
use lrs_json::Text;
use std::alloc::Global;
use std::fmt::Write;
use std::test::Fail;

// A link that brings these bytes, in pieces that end at the cuts.
fn link_of(alloc: Global, bytes: &[u8], cuts: Vec<usize>) -> Result<MemLink, Fail> {
    Ok(MemLink::new(alloc, bytes.to_vec(alloc)?, cuts, 0, Vec::new(alloc))?)
}

fn show_text(into: &mut String, name: &str, text: &Option<Text>) -> Result<(), Fail> {
    if let Some(text) = text {
        into.push_str(name)?;
        into.push_str(text.as_str())?;
    }
    Ok(())
}

// A word for a request: what it asks, its texts and its body.
fn show(into: &mut String, request: &Request) -> Result<(), Fail> {
    write!(into, "{:?} {}", request.method, request.path.as_str())?;
    show_text(into, "?", &request.query)?;
    show_text(into, " v=", &request.version)?;
    show_text(into, " c=", &request.credential)?;
    show_text(into, " m=", &request.media)?;
    into.push_str(if request.closes { " closes " } else { " " })?;
    into.push_str(str::from_utf8(request.body.as_slice())?)?;
    Ok(())
}

// Reads the next item of the connection, and answers whether it is the last.
fn show_next<L: Link>(
    alloc: Global,
    link: &mut L,
    kept: &mut Vec<u8>,
    into: &mut String,
) -> Result<bool, Fail> {
    match read_request(alloc, link, kept) {
        Ok(request) => {
            let shown = show(into, &request);
            let closes = request.closes;
            drop(request);
            shown?;
            if !closes {
                into.push('|')?;
            }
            Ok(closes)
        }
        Err(refusal) => {
            write!(into, "{refusal:?}")?;
            Ok(true)
        }
    }
}

// What a stream spells, up to the item that ends the connection.
fn spelled<L: Link>(alloc: Global, link: &mut L) -> Result<String, Fail> {
    let mut kept = Vec::new(alloc);
    let mut list = String::new(alloc);
    for _ in 0..4 {
        if show_next(alloc, link, &mut kept, &mut list)? {
            return Ok(list);
        }
    }
    Ok(list)
}

// Whether the stream spells this, if it comes in pieces that end at the cuts.
fn spells(alloc: Global, bytes: &[u8], cuts: Vec<usize>, list: &str) -> Result<bool, Fail> {
    let mut link = link_of(alloc, bytes, cuts)?;
    Ok(spelled(alloc, &mut link)?.as_str() == list)
}

// Whether the stream spells this whole, byte by byte, and in two pieces wherever they meet.
fn spells_however_cut(alloc: Global, bytes: &[u8], list: &str) -> Result<bool, Fail> {
    let every = (0..bytes.len()).collect(alloc)?;
    if !spells(alloc, bytes, every, list)? {
        return Ok(false);
    }
    for cut in 0..bytes.len() {
        if !spells(alloc, bytes, vec![in alloc; cut]?, list)? {
            return Ok(false);
        }
    }
    spells(alloc, bytes, Vec::new(alloc), list)
}

const STREAMS: [(&str, &str); 28] = [
    ("", "End"),
    ("\r\n\n\r\n", "End"),
    ("\r\r", "End"),
    ("G", "Cut"),
    ("GET /a", "Cut"),
    ("GET /a HTTP/1.1\r\nA: b\r\n", "Cut"),
    ("GET /a HTTP/1.1\r\n\r\n", "Get /a |End"),
    ("\r\n\nGET /a?b?c HTTP/1.1\nA: b\n\n", "Get /a?b?c |End"),
    ("\r\rGET /a HTTP/1.1\r\n\r\n", "Malformed { rule: 1 }"),
    ("GET /a HTTP/1.2\r\n\r\n", "Malformed { rule: 1 }"),
    ("GET  /a HTTP/1.1\r\n\r\n", "Malformed { rule: 1 }"),
    ("hello\r\n", "Malformed { rule: 1 }"),
    (
        "PUT /a HTTP/1.1\r\nContent-Length: 3\r\nContent-Type: text/plain\r\n\r\nabcDELETE /b HTTP/1.1\r\nauthorization:\tBasic x \r\n\r\n",
        "Put /a m=text/plain abc|Delete /b c=Basic x |End",
    ),
    (
        "POST /p HTTP/1.1\r\ncontent-length:0\r\nX-experience-api-VERSION: 1.0.3\r\nX-Experience-API-Version: 2\r\n\r\n",
        "Post /p v=1.0.3 |End",
    ),
    (
        "GET /a HTTP/1.0\r\n\r\nGET /b HTTP/1.1\r\n\r\n",
        "Get /a closes ",
    ),
    (
        "HEAD /a HTTP/1.1\r\nConnection: Close\r\n\r\n",
        "Other /a closes ",
    ),
    (
        "get /a HTTP/1.1\r\nconnection: x ,\tCLOSE ,y\r\n\r\n",
        "Other /a closes ",
    ),
    (
        "GET /a HTTP/1.1\r\nConnection: x\r\nConnection: close\r\n\r\n",
        "Get /a |End",
    ),
    (
        "GET /a HTTP/1.1\r\nConnection: closed\r\n\r\n",
        "Get /a |End",
    ),
    ("PUT /a HTTP/1.1\r\nContent-Length: 3\r\n\r\nab", "Cut"),
    ("PUT /a HTTP/1.1\r\nContent-Length: 4194304\r\n\r\n", "Cut"),
    (
        "PUT /a HTTP/1.1\r\nContent-Length: 0000000003\r\n\r\nab",
        "Cut",
    ),
    (
        "PUT /a HTTP/1.1\r\nContent-Length: 4194305\r\n\r\n",
        "BodyTooLong",
    ),
    (
        "PUT /a HTTP/1.1\r\nContent-Length: 3\r\nContent-Length: 3\r\n\r\nabc",
        "Malformed { rule: 2 }",
    ),
    (
        "PUT /a HTTP/1.1\r\nContent-Length: 00000000003\r\n\r\nabc",
        "Malformed { rule: 2 }",
    ),
    (
        "PUT /a HTTP/1.1\r\nContent-Length: +3\r\n\r\nabc",
        "Malformed { rule: 2 }",
    ),
    ("POST /a HTTP/1.1\r\n\r\n", "NoLength"),
    (
        "PUT /a HTTP/1.1\r\nTransfer-Encoding: chunked\r\nContent-Length: x\r\n\r\n",
        "Coded",
    ),
];

#[test]
fn a_stream_spells_one_list_however_it_is_cut(rt: HostRuntime) -> Result<(), Fail> {
    let alloc = rt.alloc();
    for (i, (stream, list)) in STREAMS.iter().enumerate() {
        if !spells_however_cut(alloc, stream.as_bytes(), list)? {
            return wrong_row(i);
        }
    }
    Ok(())
}

// A GET with so many fields, one of which fills the head up to a length.
fn head(alloc: Global, fields: usize, length: usize) -> Result<String, Fail> {
    let mut text = String::from_str(alloc, "GET /a HTTP/1.1\r\n")?;
    text.push_str("A:\r\n".repeat(alloc, fields.saturating_sub(1))?.as_str())?;
    text.push_str("B:")?;
    let missing = length.saturating_sub(4).saturating_sub(text.len());
    text.push_str("b".repeat(alloc, missing)?.as_str())?;
    text.push_str("\r\n\r\n")?;
    Ok(text)
}

// The number of a head's fields, its length, and what it spells.
const HEADS: [(usize, usize, &str); 5] = [
    (64, 0, "Get /a |End"),
    (65, 0, "HeadTooLong"),
    (1, 16_384, "Get /a |End"),
    (1, 16_385, "HeadTooLong"),
    (4_000, 16_100, "HeadTooLong"),
];

#[test]
fn heads_are_as_long_as_they_may_be(rt: HostRuntime) -> Result<(), Fail> {
    let alloc = rt.alloc();
    for (i, (fields, length, list)) in HEADS.iter().enumerate() {
        let text = head(alloc, *fields, *length)?;
        if !spells(alloc, text.as_bytes(), Vec::new(alloc), list)? {
            return wrong_row(i);
        }
    }
    Ok(())
}

#[test]
fn empty_lines_are_as_many_as_they_may_be(rt: HostRuntime) -> Result<(), Fail> {
    let alloc = rt.alloc();
    let lines = [b'\n'; 16_384];
    assert!(rt; spells(alloc, &lines, Vec::new(alloc), "HeadTooLong")?);
    Ok(())
}

// What isn't UTF-8 goes where it isn't kept as a text.
const NO_TEXTS: [(&[u8], &str); 4] = [
    (b"GET /\xff HTTP/1.1\r\n\r\n", "Malformed { rule: 1 }"),
    (
        b"GET /a HTTP/1.1\r\nContent-Type: \xff\r\nTransfer-Encoding: x\r\n\r\n",
        "Malformed { rule: 1 }",
    ),
    (
        b"GET /a HTTP/1.1\r\nOther: \xff\r\nAuthorization: \xff\r\n\r\n",
        "Malformed { rule: 1 }",
    ),
    (
        b"GET /a HTTP/1.1\r\nOther: \xff\r\nAuthorization: a\r\n\r\n",
        "Get /a c=a |End",
    ),
];

#[test]
fn texts_are_utf8(rt: HostRuntime) -> Result<(), Fail> {
    let alloc = rt.alloc();
    for (i, (bytes, list)) in NO_TEXTS.iter().enumerate() {
        if !spells(alloc, bytes, Vec::new(alloc), list)? {
            return wrong_row(i);
        }
    }
    Ok(())
}

// Whether the next request has this body.
fn brings_body<L: Link>(
    alloc: Global,
    link: &mut L,
    kept: &mut Vec<u8>,
    body: &[u8],
) -> Result<bool, Fail> {
    let request = read_request(alloc, link, kept)?;
    let brings = request.body.as_slice() == body;
    drop(request);
    Ok(brings)
}

// A link without bytes, whose call of this number fails.
fn failing(alloc: Global, bytes: Vec<u8>, number: u64) -> Result<MemLink, Fail> {
    let every = (0..bytes.len()).collect(alloc)?;
    Ok(MemLink::new(alloc, bytes, every, 0, vec![in alloc; number]?)?)
}

// Whether the link's next call is the one that fails.
fn faults_next(alloc: Global, link: &mut MemLink, kept: &mut Vec<u8>) -> bool {
    match read_request(alloc, link, kept) {
        Ok(request) => {
            drop(request);
            false
        }
        Err(refusal) => refusal == RequestRefused::LinkFault && link.faults() == 1,
    }
}

// Whether a thousand requests that are kept are given without a call of the link, the first of which fails.
fn gives_a_thousand(alloc: Global) -> Result<bool, Fail> {
    let one = "PUT /a HTTP/1.1\r\nContent-Length: 4\r\n\r\nbody";
    let mut kept = Vec::from_slice(alloc, one.repeat(alloc, 1_000)?.as_bytes())?;
    let mut link = failing(alloc, Vec::new(alloc), 0)?;
    for _ in 0..1_000 {
        if !brings_body(alloc, &mut link, &mut kept, b"body")? {
            return Ok(false);
        }
    }
    Ok(faults_next(alloc, &mut link, &mut kept))
}

#[test]
fn a_thousand_requests_come_of_one_read(rt: HostRuntime) -> Result<(), Fail> {
    assert!(rt; gives_a_thousand(rt.alloc())?);
    Ok(())
}

// A link that brings a PUT with this body.
fn put_of(alloc: Global, body: &[u8]) -> Result<MemLink, Fail> {
    let mut text = String::from_str(alloc, "PUT /a HTTP/1.1\r\n")?;
    write!(&mut text, "Content-Length: {}\r\n\r\n", body.len())?;
    let mut bytes = text.into_bytes();
    bytes.extend_from_slice(body)?;
    let cuts = Vec::new(alloc);
    Ok(MemLink::new(alloc, bytes, cuts, 0, Vec::new(alloc))?)
}

fn brings_longest(alloc: Global) -> Result<bool, Fail> {
    let body = vec![in alloc; b'x'; 4_194_304]?;
    let mut link = put_of(alloc, body.as_slice())?;
    let mut kept = Vec::new(alloc);
    brings_body(alloc, &mut link, &mut kept, body.as_slice())
}

#[test]
fn a_body_is_as_long_as_it_may_be(rt: HostRuntime) -> Result<(), Fail> {
    assert!(rt; brings_longest(rt.alloc())?);
    Ok(())
}

// Each is one request and its body.
const WHOLE: [(&str, &str); 3] = [
    ("GET /a HTTP/1.1\r\n\r\n", ""),
    ("\r\n\nGET /a HTTP/1.1\nA: b\n\n", ""),
    ("PUT /a HTTP/1.1\r\nContent-Length: 4\n\r\nbody", "body"),
];

// Whether the request is given before the link is called after its last byte, which fails.
fn is_given(alloc: Global, stream: &str, body: &str) -> Result<bool, Fail> {
    let bytes = stream.as_bytes();
    let mut link = failing(alloc, bytes.to_vec(alloc)?, bytes.len() as u64)?;
    let mut kept = Vec::new(alloc);
    Ok(
        brings_body(alloc, &mut link, &mut kept, body.as_bytes())?
            && faults_next(alloc, &mut link, &mut kept),
    )
}

#[test]
fn a_request_is_given_as_soon_as_it_is_whole(rt: HostRuntime) -> Result<(), Fail> {
    let alloc = rt.alloc();
    for (i, (stream, body)) in WHOLE.iter().enumerate() {
        if !is_given(alloc, stream, body)? {
            return wrong_row(i);
        }
    }
    Ok(())
}

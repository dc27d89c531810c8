//! What the fields of a head say (RFC 9110, section 5; RFC 9112, sections 6 and 9).
ghost use Rattle.std.specs.Prelude.{◌≡◌, ◌≤◌, ◌<◌, ◌+◌, ◌⊎◌, ◌^◌, [], All, IfOk, IfErr, IsUtf8, length, map, take, true, codes};
ghost use Rattle.std.specs.Char.{is_ascii_digit};
ghost use Rattle.std.specs.List.{list_all, position_or_len};
ghost use Rattle.std.specs.Option.{option_copied};
ghost use Rattle.httparse.specs.Spans.{IsHeaderWithin, IsRequestWithin, header_bytes, span_bytes};
ghost use Rattle.lrs_http.specs.Fields.{is_comma, first_value, count_named, is_close, asks_to_close, is_length, is_text};
ghost use Rattle.lrs_http.specs.Head.{HeadParts, method_of, path_of, query_of, closes_of, request_of, has_texts, stated_length, body_length, announced};
ghost use Rattle.lrs_http.specs.Prospect.{parts_at};
ghost use Rattle.lrs_http.specs.Reading.{IsNoText, IsQuiet};
ghost use Rattle.lrs_http.specs.declared.heads.TheConstants.{MOST_FIELDS};

use crate::{Method, Request, RequestRefused};
use httparse::spans::{HeaderSpan, RequestSpans};
use lrs_decimal::digits_value;
use lrs_json::{Items, Memory, Text};
use lrs_media::trims_to;
use std::alloc::Global;

/// The most bytes that a body may have.
pub const LONGEST_BODY: u64 = 4_194_304;

/// The most digits of a Content-Length.
const MOST_LENGTH_DIGITS: usize = 10;

fn first_value<'b>(bytes: &'b [u8], fields: &[HeaderSpan], name: &[u8]) -> Option<&'b [u8]>
    requires { All (IsHeaderWithin (length bytes.now)) fields.now }
    ensures { option_copied result ≡ first_value name.now (map (header_bytes bytes.now) fields.now) }
{
    for field in fields {
        if field.name.of(bytes).eq_ignore_ascii_case(name) {
            return Some(field.value.of(bytes));
        }
    }
    None
}

fn count_named(bytes: &[u8], fields: &[HeaderSpan], name: &[u8]) -> usize
    requires { All (IsHeaderWithin (length bytes.now)) fields.now }
    ensures { result ≡ count_named name.now (map (header_bytes bytes.now) fields.now) }
{
    let mut count = 0;
    for field in fields {
        if field.name.of(bytes).eq_ignore_ascii_case(name) {
            count += 1;
        }
    }
    count
}

#[tactic(auto, unfolding(crate::specs::Fields::is_close))]
fn is_close(element: &[u8]) -> bool
    ensures { result ≡ is_close element.now }
{
    trims_to(element, b"close")
}

// Where the first comma stands, or the end.
fn comma_at(bytes: &[u8]) -> usize
    ensures value { result ≡ position_or_len is_comma bytes.now }
    ensures within { result ≤ length bytes.now }
    ensures small { result + 1 < 2 ^ 64 }
{
    for (at, byte) in bytes.iter().enumerate() {
        if *byte == b',' {
            return at;
        }
    }
    bytes.len()
}

fn asks_to_close(value: &[u8]) -> bool
    ensures { result ≡ asks_to_close value.now }
{
    let mut rest = value;
    'elements: loop {
        let at = comma_at(rest);
        if is_close(&rest[..at]) {
            return true;
        }
        if at == rest.len() {
            return false;
        }
        rest = &rest[at + 1..];
    }
}

#[tactic(auto, unfolding(crate::specs::Head::closes_of))]
fn closes(bytes: &[u8], fields: &[HeaderSpan], minor: u8) -> bool
    requires { All (IsHeaderWithin (length bytes.now)) fields.now }
    ensures { result ≡ closes_of minor (map (header_bytes bytes.now) fields.now) }
{
    if minor == 0 {
        return true;
    }
    match first_value(bytes, fields, b"connection") {
        Some(value) => asks_to_close(value),
        None => false,
    }
}

#[tactic(auto, unfolding(crate::specs::Head::method_of))]
fn method_of(name: &[u8]) -> Method
    ensures { result ≡ method_of name.now }
{
    if name == b"GET".as_slice() {
        Method::Get
    } else if name == b"PUT".as_slice() {
        Method::Put
    } else if name == b"POST".as_slice() {
        Method::Post
    } else if name == b"DELETE".as_slice() {
        Method::Delete
    } else {
        Method::Other
    }
}

fn all_digits(bytes: &[u8]) -> bool
    ensures { result ≡ list_all is_ascii_digit bytes.now }
{
    bytes.iter().all(|b| b.is_ascii_digit())
}

#[tactic(auto, unfolding(crate::specs::Fields::is_length))]
fn is_length(value: &[u8]) -> bool
    ensures { result ≡ is_length value.now }
{
    0 < value.len() && value.len() <= MOST_LENGTH_DIGITS && all_digits(value)
}

#[tactic(auto, unfolding(crate::specs::Head::stated_length))]
fn stated_length(method: Method, value: Option<&[u8]>) -> Result<usize, RequestRefused>
    ensures value { result ≡ stated_length method (option_copied value.entry) }
    ensures bound { IfOk result (λ n. n ≤ LONGEST_BODY) }
    ensures quiet { IfErr result IsQuiet }
{
    let Some(value) = value else {
        return match method {
            Method::Put | Method::Post => Err(RequestRefused::NoLength),
            Method::Get | Method::Delete | Method::Other => Ok(0),
        };
    };
    if !is_length(value) {
        return Err(RequestRefused::Malformed { rule: 2 });
    }
    let length = digits_value(value);
    if length > LONGEST_BODY {
        return Err(RequestRefused::BodyTooLong);
    }
    Ok(length as usize)
}

#[tactic(auto, unfolding(crate::specs::Head::body_length))]
fn body_length(bytes: &[u8], fields: &[HeaderSpan], method: Method) -> Result<usize, RequestRefused>
    requires { All (IsHeaderWithin (length bytes.now)) fields.now }
    ensures value { result ≡ body_length method (map (header_bytes bytes.now) fields.now) }
    ensures bound { IfOk result (λ n. n ≤ LONGEST_BODY) }
    ensures quiet { IfErr result IsQuiet }
{
    if first_value(bytes, fields, b"transfer-encoding").is_some() {
        return Err(RequestRefused::Coded);
    }
    if count_named(bytes, fields, b"content-length") > 1 {
        return Err(RequestRefused::Malformed { rule: 2 });
    }
    stated_length(method, first_value(bytes, fields, b"content-length"))
}

#[tactic(auto, unfolding(crate::specs::Fields::is_text))]
fn text_of(alloc: Global, value: Option<&[u8]>) -> Result<Option<Text>, RequestRefused>
    ensures text { IfOk result (λ text. (text ≡ option_copied value.entry)
        × (is_text (option_copied value.entry) ≡ true)) }
    ensures refused { IfErr result (IsNoText (is_text (option_copied value.entry))) }
    ensures quiet { IfErr result IsQuiet }
{
    let Some(value) = value else {
        return Ok(None);
    };
    match str::from_utf8(value) {
        Ok(text) => Ok(Some(Text::of(alloc, text)?)),
        Err(_) => Err(RequestRefused::Malformed { rule: 1 }),
    }
}

// The values that a request keeps as texts.
#[derive(Drop)]
struct Texts {
    version: Option<Text>,
    credential: Option<Text>,
    media: Option<Text>,
}

#[tactic(auto, unfolding(crate::specs::Head::has_texts))]
fn texts_of(alloc: Global, bytes: &[u8], fields: &[HeaderSpan]) -> Result<Texts, RequestRefused>
    requires { All (IsHeaderWithin (length bytes.now)) fields.now }
    ensures version { IfOk result
        (λ t. t.version ≡ first_value (codes "x-experience-api-version") (map (header_bytes bytes.now) fields.now)) }
    ensures credential { IfOk result
        (λ t. t.credential ≡ first_value (codes "authorization") (map (header_bytes bytes.now) fields.now)) }
    ensures media { IfOk result (λ t. t.media ≡ first_value (codes "content-type")
        (map (header_bytes bytes.now) fields.now)) }
    ensures texts { IfOk result (λ t. has_texts (map (header_bytes bytes.now) fields.now) ≡ true) }
    ensures refused { IfErr result (IsNoText (has_texts (map (header_bytes bytes.now) fields.now))) }
    ensures quiet { IfErr result IsQuiet }
{
    let credential = text_of(alloc, first_value(bytes, fields, b"authorization"))?;
    let media = text_of(alloc, first_value(bytes, fields, b"content-type"))?;
    let version = text_of(
        alloc,
        first_value(bytes, fields, b"x-experience-api-version"),
    )?;
    Ok(Texts {
        version,
        credential,
        media,
    })
}

// The path and the query of a target.
#[tactic(auto, unfolding(crate::specs::Head::path_of, crate::specs::Head::query_of))]
fn target_parts(alloc: Global, target: &[u8]) -> Result<(Text, Option<Text>), Memory>
    requires { IsUtf8 target.now }
    ensures path { IfOk result (λ parts. parts.0 ≡ path_of target.now) }
    ensures query { IfOk result (λ parts. parts.1 ≡ query_of target.now) }
{
    let Ok(target) = str::from_utf8(target) else {
        unreachable!();
    };
    match target.split_once('?') {
        Some((path, query)) => Ok((Text::of(alloc, path)?, Some(Text::of(alloc, query)?))),
        None => Ok((Text::of(alloc, target)?, None)),
    }
}

/// The request of a head, still without its body, and the length of the body that the head announces.
pub(crate) fn take_head(
    alloc: Global,
    bytes: &[u8],
    fields: &[HeaderSpan],
    spans: RequestSpans,
) -> Result<(Request, usize), RequestRefused>
    requires within { IsRequestWithin bytes.now fields.now spans }
    requires few { spans.headers ≤ MOST_FIELDS }
    requires text { IsUtf8 (span_bytes bytes.now spans.path) }
    ensures request { IfOk result (λ taken. taken.0 ≡ request_of (parts_at bytes.now fields.now spans) []) }
    ensures length { IfOk result (λ taken. announced (parts_at bytes.now fields.now spans) ≡ Ok taken.1) }
    ensures bound { IfOk result (λ taken. taken.1 ≤ LONGEST_BODY) }
    ensures refused { IfErr result
        (λ refusal. (refusal ≡ RequestRefused.Memory)
        ⊎ (announced (parts_at bytes.now fields.now spans) ≡ Err refusal)) }
    ensures quiet { IfErr result IsQuiet }
{
    let fields = &fields[..spans.headers];
    let texts = texts_of(alloc, bytes, fields)?;
    let method = method_of(spans.method.of(bytes));
    let length = body_length(bytes, fields, method)?;
    let (path, query) = target_parts(alloc, spans.path.of(bytes))?;
    let request = Request {
        method,
        path,
        query,
        version: texts.version,
        credential: texts.credential,
        media: texts.media,
        closes: closes(bytes, fields, spans.version),
        body: Items::new(alloc),
    };
    Ok((request, length))
}

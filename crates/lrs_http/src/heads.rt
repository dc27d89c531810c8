//! Whether bytes begin with a request's head, may yet, or never will.
ghost use Rattle.std.specs.Prelude.{◌≡◌, ◌≤◌, IfOk, IfErr, IfSome, false, length, drop, nat_lt};
ghost use Rattle.std.specs.List.{list_all};
ghost use Rattle.httparse.specs.Grammar.{is_uri_byte, NeverHasRequest};
ghost use Rattle.httparse.specs.Spans.{RequestOverflows};
ghost use Rattle.lrs_http.specs.Prospect.{IsProspect, IsHeadAt, IsRequestRefused, IsJudged, refusal_for};
ghost use Rattle.lrs_http.specs.Reach.{reaches, method_reaches};
ghost use Rattle.lrs_http.specs.Stream.{window, is_line_end};

use crate::RequestRefused;
use httparse::spans::{EMPTY_HEADER_SPAN, HeaderSpan, RequestSpans, parse_request};
use httparse::{Error, Status, is_method_token, is_uri_token};
use lrs_json::Memory;
use std::alloc::Global;

/// The most bytes that a head may have, the empty lines before it among them.
pub const LONGEST_HEAD: usize = 16_384;

/// The most fields that a head may have.
pub(crate) const MOST_FIELDS: usize = 64;

// As many fields as a head of the greatest length holds: each takes three bytes at least.
const ROOM: usize = 5_462;

/// What the first bytes of a stream are.
pub(crate) enum Prospect {
    /// A head stands at the beginning.
    Whole(RequestSpans),
    /// A head of more fields than a head may have stands at the beginning.
    Crowded,
    /// There is no head yet, and there may be one.
    Open,
    /// There is no head, and there is none if the bytes end here.
    Doubtful,
    /// There is no head, whatever follows.
    Never,
}

fn is_target_text(bytes: &[u8]) -> bool
    ensures { result ≡ list_all is_uri_byte bytes.now }
{
    bytes.iter().all(|b| is_uri_token(*b))
}

fn method_reaches_target(bytes: &[u8], start: usize, early: bool) -> bool
    requires { start ≤ length bytes.now }
    ensures { result ≡ method_reaches early (drop start bytes.now) }
{
    let mut at = start;
    while at < bytes.len() {
        let b = bytes[at];
        at += 1;
        if !is_method_token(b) {
            return b == b' ' && is_target_text(&bytes[at..]);
        }
    }
    early
}

// Whether the bytes end inside a request's target; `early` is the answer if they end before it.
fn reaches_target(bytes: &[u8], early: bool) -> bool
    ensures { result ≡ reaches early false bytes.now }
{
    let mut at = 0;
    let mut returned = false;
    while at < bytes.len() {
        let a = bytes[at];
        at += 1;
        if a == b'\n' {
            returned = false;
        } else if returned {
            return false;
        } else if a == b'\r' {
            returned = true;
        } else {
            return is_method_token(a) && method_reaches_target(bytes, at, early);
        }
    }
    early
}

// What bytes are that nothing makes a head. A target that they end in may still go on.
fn headless(bytes: &[u8], fields: &[HeaderSpan]) -> Prospect
    requires { NeverHasRequest bytes.now }
    ensures { IsProspect bytes.now fields.now result }
{
    if reaches_target(bytes, false) {
        Prospect::Open
    } else if reaches_target(bytes, true) {
        Prospect::Doubtful
    } else {
        Prospect::Never
    }
}

// Looks at bytes whose head, if they have one, has more fields than a head may have.
fn examine_crowded(alloc: Global, bytes: &[u8], fields: &[HeaderSpan]) -> Result<Prospect, Memory>
    requires short { length bytes.now ≤ LONGEST_HEAD }
    requires crowded { RequestOverflows MOST_FIELDS bytes.now }
    ensures { IfOk result (IsProspect bytes.now fields.now) }
{
    let mut room = vec![in alloc; EMPTY_HEADER_SPAN; ROOM]?;
    match parse_request(bytes, &mut room) {
        Ok(Status::Complete(_)) => Ok(Prospect::Crowded),
        Ok(Status::Partial) => Ok(Prospect::Open),
        Err(_) => Ok(headless(bytes, fields)),
    }
}

fn examine(
    alloc: Global,
    bytes: &[u8],
    fields: &mut [HeaderSpan; MOST_FIELDS],
) -> Result<Prospect, Memory>
    requires { length bytes.now ≤ LONGEST_HEAD }
    ensures { IfOk result (IsProspect bytes.now fields.new) }
{
    match parse_request(bytes, fields) {
        Ok(Status::Complete(spans)) => Ok(Prospect::Whole(spans)),
        Ok(Status::Partial) => Ok(Prospect::Open),
        Err(Error::TooManyHeaders) => examine_crowded(alloc, bytes, fields),
        Err(_) => Ok(headless(bytes, fields)),
    }
}

/// The bytes in which a head has to stand.
pub(crate) fn window_of(bytes: &[u8]) -> &[u8]
    ensures value { result.now ≡ window bytes.now }
    ensures short { length result.now ≤ LONGEST_HEAD }
{
    &bytes[..bytes.len().min(LONGEST_HEAD)]
}

fn is_blank(bytes: &[u8]) -> bool
    ensures { result ≡ list_all is_line_end bytes.now }
{
    bytes.iter().all(|b| *b == b'\r' || *b == b'\n')
}

/// Looks for a head at the beginning of the bytes, and gives none while one may still come.
pub(crate) fn look(
    alloc: Global,
    bytes: &[u8],
    fields: &mut [HeaderSpan; MOST_FIELDS],
) -> Result<Option<RequestSpans>, RequestRefused>
    ensures head { IfOk result (λ found. IfSome found (IsHeadAt bytes.now fields.new)) }
    ensures refused { IfErr result (IsRequestRefused bytes.now) }
{
    match examine(alloc, window_of(bytes), fields)? {
        Prospect::Whole(spans) => Ok(Some(spans)),
        Prospect::Crowded => Err(RequestRefused::HeadTooLong),
        Prospect::Never if !is_blank(bytes) => Err(RequestRefused::Malformed { rule: 1 }),
        Prospect::Open | Prospect::Doubtful | Prospect::Never => Ok(None),
    }
}

// Why bytes without a head are refused.
fn refusal_of(bytes: &[u8], may_become: bool) -> RequestRefused
    ensures { result ≡ refusal_for (nat_lt (length bytes.now) LONGEST_HEAD)
        (list_all is_line_end bytes.now) may_become }
{
    if bytes.len() < LONGEST_HEAD && is_blank(bytes) {
        RequestRefused::End
    } else if !may_become {
        RequestRefused::Malformed { rule: 1 }
    } else if bytes.len() < LONGEST_HEAD {
        RequestRefused::Cut
    } else {
        RequestRefused::HeadTooLong
    }
}

/// Takes the head at the beginning of the bytes, if they are all that a head may stand in.
pub(crate) fn judge(
    alloc: Global,
    bytes: &[u8],
    fields: &mut [HeaderSpan; MOST_FIELDS],
) -> Result<RequestSpans, RequestRefused>
    ensures head { IfOk result (IsHeadAt bytes.now fields.new) }
    ensures refused { IfErr result (IsJudged bytes.now) }
{
    match examine(alloc, window_of(bytes), fields)? {
        Prospect::Whole(spans) => Ok(spans),
        Prospect::Crowded => Err(RequestRefused::HeadTooLong),
        Prospect::Open => Err(refusal_of(bytes, true)),
        Prospect::Doubtful => Err(refusal_of(bytes, false)),
        Prospect::Never => Err(refusal_of(bytes, false)),
    }
}

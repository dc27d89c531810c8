//! Requests are read from a link.
ghost use Rattle.std.specs.Prelude.{◌≡◌, ◌+◌, ◌<◌, ◌≤◌, ◌-◌, IfOk, IfErr, OnOk, OnErr, length, take, drop, vec_len, true, false};
ghost use Rattle.lrs_disk.specs.Faults.{HasCause};
ghost use Rattle.lrs_http.specs.Links.{stream_left, GivesNext, GivesRefusal, HasLinkCause, TakesOff};
ghost use Rattle.lrs_http.specs.Prospect.{IsHeadAt};
ghost use Rattle.lrs_http.specs.Reading.{IsAtEnd, IsBodyAt, IsNoBody, IsEarlyEnd};

use crate::fields::{LONGEST_BODY, take_head};
use crate::heads::{LONGEST_HEAD, MOST_FIELDS, judge, look, window_of};
use crate::{Request, RequestRefused};
use httparse::spans::{EMPTY_HEADER_SPAN, HeaderSpan, RequestSpans};
use lrs_disk::{Failed, Link};
use lrs_json::Items;
use std::alloc::{AllocError, Global};

// As many bytes are asked for in one read while a head is read.
const PIECE: usize = 2_048;

/// The most requests of a connection.
pub const MOST_REQUESTS: u16 = 1_000;

static ZEROS: [u8; PIECE] = [0; PIECE];

// How far the empty line was looked for that ends a head.
#[derive(Drop)]
struct Search {
    // so many line ends stand before the head
    lead: usize,
    seen: usize,
}

fn ends_empty_line(bytes: &[u8], lead: usize, at: usize) -> bool
    requires { at < length bytes.now }
{
    if bytes[at] != b'\n' || at <= lead {
        return false;
    }
    bytes[at - 1] == b'\n' || (at > 1 && bytes[at - 1] == b'\r' && bytes[at - 2] == b'\n')
}

impl Search {
    // Whether an empty line stands after the first line of a head, and among the bytes that are new.
    fn finds_end(&mut self, bytes: &[u8]) -> bool {
        while self.lead < bytes.len() && matches!(bytes[self.lead], b'\r' | b'\n') {
            self.lead += 1;
        }
        let from = self.seen.max(self.lead);
        self.seen = bytes.len();
        (from..bytes.len()).any(|at| ends_empty_line(bytes, self.lead, at))
    }
}

// Reads after the bytes that are held, and answers how many bytes came.
fn read_behind<L: Link>(link: &mut L, bytes: &mut [u8], held: usize) -> Result<usize, Failed>
    requires { held ≤ length bytes.old }
    ensures room { IfOk result (λ n. held + n ≤ length bytes.old) }
    ensures given { IfOk result
        (λ n. stream_left (take (held + n) bytes.new) (L.left link.new) ≡ stream_left (take held bytes.old)
        (L.left link.old)) }
    ensures end { IfOk result (λ n. n ≡ 0 → held < length bytes.old → IsAtEnd (L.left link.old)) }
    ensures ended { IfOk result (λ n. n ≡ 0 → held < length bytes.old → IsAtEnd (L.left link.new)) }
    ensures failed { OnErr result
        (stream_left (take held bytes.new) (L.left link.new) ≡ stream_left (take held bytes.old) (L.left link.old)) }
    ensures off { IfOk result (λ n. TakesOff n (L.left link.old) (L.left link.new)) }
    ensures off_err { OnErr result (TakesOff 0 (L.left link.old) (L.left link.new)) }
    ensures stream_kept { L.stream link.new ≡ L.stream link.old }
    ensures taken_kept { L.taken link.new ≡ L.taken link.old }
    ensures name_kept { L.name link.new ≡ L.name link.old }
    ensures cause { HasCause (L.fault_count link.old) (L.fault_count link.new) result }
{
    let number = link.read(&mut bytes[held..])?;
    Ok(number)
}

// Reads a piece after what is kept, and answers whether there was one.
fn read_piece<L: Link>(link: &mut L, kept: &mut Vec<u8>) -> Result<bool, RequestRefused>
    requires { vec_len kept.old < LONGEST_HEAD }
    ensures left { stream_left kept.new.items (L.left link.new) ≡ stream_left kept.old.items (L.left link.old) }
    ensures more { IfOk result (λ more. more ≡ true → vec_len kept.old < vec_len kept.new) }
    ensures end { IfOk result (λ more. more ≡ false → IsAtEnd (L.left link.new)) }
    ensures refused { IfErr result (GivesRefusal (stream_left kept.old.items (L.left link.old))) }
    ensures grows { (vec_len kept.old ≤ vec_len kept.new) × (vec_len kept.new ≤ LONGEST_HEAD) }
    ensures off { TakesOff (vec_len kept.new - vec_len kept.old) (L.left link.old) (L.left link.new) }
    ensures stream_kept { L.stream link.new ≡ L.stream link.old }
    ensures taken_kept { L.taken link.new ≡ L.taken link.old }
    ensures name_kept { L.name link.new ≡ L.name link.old }
    ensures cause { HasLinkCause (L.fault_count link.old) (L.fault_count link.new) result }
{
    let held = kept.len();
    let most = PIECE.min(LONGEST_HEAD - held);
    kept.extend_from_slice(&ZEROS[..most])?;
    match read_behind(link, kept.as_mut_slice(), held) {
        Ok(number) => {
            kept.truncate(held + number);
            Ok(number > 0)
        }
        Err(Failed) => {
            kept.truncate(held);
            Err(RequestRefused::LinkFault)
        }
    }
}

// Reads until a head stands at the beginning of what is kept. It is looked for once an empty line has come.
fn read_head<L: Link>(
    alloc: Global,
    link: &mut L,
    kept: &mut Vec<u8>,
    fields: &mut [HeaderSpan; MOST_FIELDS],
) -> Result<RequestSpans, RequestRefused>
    ensures left { stream_left kept.new.items (L.left link.new) ≡ stream_left kept.old.items (L.left link.old) }
    ensures head { IfOk result (IsHeadAt kept.new.items fields.new) }
    ensures refused { IfErr result (GivesRefusal (stream_left kept.old.items (L.left link.old))) }
    ensures few { vec_len kept.old ≤ LONGEST_HEAD → vec_len kept.new ≤ LONGEST_HEAD }
    ensures off { TakesOff LONGEST_HEAD (L.left link.old) (L.left link.new) }
    ensures stream_kept { L.stream link.new ≡ L.stream link.old }
    ensures taken_kept { L.taken link.new ≡ L.taken link.old }
    ensures name_kept { L.name link.new ≡ L.name link.old }
    ensures cause { HasLinkCause (L.fault_count link.old) (L.fault_count link.new) result }
{
    let mut search = Search { lead: 0, seen: 0 };
    while kept.len() < LONGEST_HEAD {
        if search.finds_end(kept)
            && let Some(spans) = look(alloc, kept, fields)?
        {
            return Ok(spans);
        }
        if !read_piece(link, kept)? {
            return judge(alloc, kept, fields);
        }
    }
    judge(alloc, kept, fields)
}

// Reads until the body is full, of which the first bytes are there.
fn fill<L: Link>(link: &mut L, body: &mut [u8], held: usize) -> Result<(), RequestRefused>
    requires { held ≤ length body.old }
    ensures left { OnOk result (stream_left body.new (L.left link.new)
        ≡ stream_left (take held body.old) (L.left link.old)) }
    ensures refused { IfErr result (IsEarlyEnd (length body.old) (stream_left (take held body.old) (L.left link.old))) }
    ensures off { TakesOff (length body.old) (L.left link.old) (L.left link.new) }
    ensures stream_kept { L.stream link.new ≡ L.stream link.old }
    ensures taken_kept { L.taken link.new ≡ L.taken link.old }
    ensures name_kept { L.name link.new ≡ L.name link.old }
    ensures cause { HasLinkCause (L.fault_count link.old) (L.fault_count link.new) result }
{
    let mut at = held;
    while at < body.len() {
        let number = read_behind(link, body, at)?;
        if number == 0 {
            return Err(RequestRefused::Cut);
        }
        at += number;
    }
    Ok(())
}

fn remove_front(bytes: &mut Vec<u8>, number: usize)
    requires { number ≤ vec_len bytes.old }
    ensures rest { bytes.new.items ≡ drop number bytes.old.items }
    ensures fewer { vec_len bytes.new ≤ vec_len bytes.old }
{
    let len = bytes.len();
    bytes.as_mut_slice().copy_within(number..len, 0);
    bytes.truncate(len - number);
}

// A body of its first bytes and zeros.
fn body_front(alloc: Global, front: &[u8], size: usize) -> Result<Vec<u8>, AllocError>
    requires { length front.now ≤ size }
    ensures size { IfOk result (λ body. vec_len body ≡ size) }
    ensures front { IfOk result (λ body. take (length front.now) body.items ≡ front.now) }
{
    let mut body = Vec::with_capacity(alloc, size)?;
    body.extend_from_slice(front)?;
    body.resize(size, 0)?;
    Ok(body)
}

fn fill_vector<L: Link>(link: &mut L, body: &mut Vec<u8>, held: usize) -> Result<(), RequestRefused>
    requires { held ≤ vec_len body.old }
    ensures left { OnOk result
        (stream_left body.new.items (L.left link.new) ≡ stream_left (take held body.old.items) (L.left link.old)) }
    ensures size { vec_len body.new ≡ vec_len body.old }
    ensures refused { IfErr result (IsEarlyEnd (vec_len body.old)
        (stream_left (take held body.old.items) (L.left link.old))) }
    ensures off { TakesOff (vec_len body.old) (L.left link.old) (L.left link.new) }
    ensures stream_kept { L.stream link.new ≡ L.stream link.old }
    ensures taken_kept { L.taken link.new ≡ L.taken link.old }
    ensures name_kept { L.name link.new ≡ L.name link.old }
    ensures cause { HasLinkCause (L.fault_count link.old) (L.fault_count link.new) result }
{
    fill(link, body.as_mut_slice(), held)
}

// Takes the body after a head: what is kept of it first, and the rest from the link, straight into the memory
// that was made for it.
fn read_body<L: Link>(
    alloc: Global,
    link: &mut L,
    kept: &mut Vec<u8>,
    start: usize,
    size: usize,
) -> Result<Items<u8>, RequestRefused>
    requires { start ≤ vec_len kept.old }
    ensures body { IfOk result
        (IsBodyAt start size (stream_left kept.old.items (L.left link.old))
        (stream_left kept.new.items (L.left link.new))) }
    ensures refused { IfErr result (IsNoBody start size (stream_left kept.old.items (L.left link.old))) }
    ensures fewer { vec_len kept.new ≤ vec_len kept.old }
    ensures off { TakesOff size (L.left link.old) (L.left link.new) }
    ensures stream_kept { L.stream link.new ≡ L.stream link.old }
    ensures taken_kept { L.taken link.new ≡ L.taken link.old }
    ensures name_kept { L.name link.new ≡ L.name link.old }
    ensures cause { HasLinkCause (L.fault_count link.old) (L.fault_count link.new) result }
{
    let held = size.min(kept.len() - start);
    let mut body = body_front(alloc, &kept.as_slice()[start..start + held], size)?;
    remove_front(kept, start + held);
    fill_vector(link, &mut body, held)?;
    Ok(Items::from_vec(body))
}

/// Reads the next request of a connection (RFC 9112). `kept` holds what was read after the last one, and is empty at
/// first. After a refusal the connection ends.
pub fn read_request<L: Link>(
    alloc: Global,
    link: &mut L,
    kept: &mut Vec<u8>,
) -> Result<Request, RequestRefused>
    ensures next { GivesNext (stream_left kept.old.items (L.left link.old)) result
        (stream_left kept.new.items (L.left link.new)) }
    // It keeps at most a head, and takes at most a head and a body off the link.
    ensures ahead { vec_len kept.old ≤ LONGEST_HEAD → vec_len kept.new ≤ LONGEST_HEAD }
    ensures bounded { TakesOff (LONGEST_HEAD + LONGEST_BODY) (L.left link.old) (L.left link.new) }
    ensures cause { HasLinkCause (L.fault_count link.old) (L.fault_count link.new) result }
    ensures stream_kept { L.stream link.new ≡ L.stream link.old }
    ensures taken_kept { L.taken link.new ≡ L.taken link.old }
    ensures name_kept { L.name link.new ≡ L.name link.old }
{
    let mut fields = [EMPTY_HEADER_SPAN; MOST_FIELDS];
    let spans = read_head(alloc, link, kept, &mut fields)?;
    let (mut request, size) = take_head(alloc, window_of(kept), &fields, spans)?;
    request.body = read_body(alloc, link, kept, spans.len, size)?;
    Ok(request)
}

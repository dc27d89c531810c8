//! Responses are written to a link.
ghost use Rattle.std.specs.Prelude.{◌≡◌, ◌≢◌, ◌<◌, ◌≤◌, [], ◌++◌, List, ℕ, IfOk, OnOk, OnErr, length, drop, codes};
ghost use Rattle.lrs_disk.specs.Faults.{HasCause};
ghost use Rattle.lrs_http.specs.Links.{Sends, SendsPart, HasWriteCause, LinkView, view, IsWritten};
ghost use Rattle.lrs_http.specs.Gathered.{Puts};
ghost use Rattle.lrs_http.specs.Response.{IsStatus, phrase_of, status_line, field, field_of, where_so, response_of};
ghost use Rattle.http.specs.StatusCode.{IsStatusCode};

use arrayvec::ArrayVec;
use http::StatusCode;
use itoa::Buffer;
use lrs_disk::{Failed, Link};

/// A call of the link failed while a response was written.
#[derive(Clone, Copy, Debug, PartialEq, Eq)]
pub struct LinkFault;

/// What is answered. `media` is the body's type, and both are empty at 204. `through` is the moment up to which a
/// list of statements is whole, and `allow` lists the methods of a path at 405.
#[derive(Clone, Copy, Debug)]
pub struct Reply2<'a> {
    pub status: u16,
    pub media: &'a str,
    pub body: &'a [u8],
    pub through: Option<[u8; 24]>,
    pub allow: &'a str,
}

// What waits to be written, so that a short response goes out in one write. After a fault nothing more is written.
#[derive(Drop)]
struct Output {
    gathered: ArrayVec<u8, 4096>,
    failed: bool,
}

fn write_from<L: Link>(link: &mut L, bytes: &[u8], done: usize) -> Result<usize, Failed>
    requires { done < length bytes.now }
    ensures more { IfOk result (λ offset. (done < offset) × (offset ≤ length bytes.now)) }
    ensures taken { IfOk result
        (λ offset. Sends (drop done bytes.now) (drop offset bytes.now) (L.taken link.old) (L.taken link.new)) }
    ensures failed { OnErr result (L.taken link.new ≡ L.taken link.old) }
    ensures left_kept { L.left link.new ≡ L.left link.old }
    ensures stream_kept { L.stream link.new ≡ L.stream link.old }
    ensures name_kept { L.name link.new ≡ L.name link.old }
    ensures cause { HasCause (L.fault_count link.old) (L.fault_count link.new) result }
{
    Ok(done + link.write(&bytes[done..])?)
}

// Writes the bytes to their end.
fn write_all<L: Link>(link: &mut L, bytes: &[u8]) -> Result<(), Failed>
    ensures whole { OnOk result (Sends bytes.now [] (L.taken link.old) (L.taken link.new)) }
    ensures part { OnErr result (SendsPart bytes.now (L.taken link.old) (L.taken link.new)) }
    ensures left_kept { L.left link.new ≡ L.left link.old }
    ensures stream_kept { L.stream link.new ≡ L.stream link.old }
    ensures name_kept { L.name link.new ≡ L.name link.old }
    ensures cause { HasCause (L.fault_count link.old) (L.fault_count link.new) result }
{
    let mut done = 0;
    while done < bytes.len() {
        done = write_from(link, bytes, done)?;
    }
    Ok(())
}

fn phrase(status: u16) -> &'static [u8]
    requires { IsStatusCode status }
    ensures { result.now ≡ phrase_of status }
{
    let Ok(code) = StatusCode::from_u16(status) else {
        unreachable!();
    };
    code.canonical_reason().unwrap_or("").as_bytes()
}

// Writes what waits, unless the link failed before, and answers whether it has failed.
fn send<L: Link>(link: &mut L, waiting: &[u8], failed: bool) -> bool
    ensures { (text : List ℕ) (start : LinkView)
        → IsWritten text waiting.now failed start
        (view (L.taken link.old) (L.left link.old) (L.stream link.old) (L.name link.old) (L.fault_count link.old))
        → IsWritten text [] result start
        (view (L.taken link.new) (L.left link.new) (L.stream link.new) (L.name link.new) (L.fault_count link.new)) }
{
    if failed {
        return true;
    }
    match write_all(link, waiting) {
        Ok(()) => false,
        Err(Failed) => true,
    }
}

impl Output {
    // Writes what waits.
    fn flush<L: Link>(&mut self, link: &mut L)
        ensures empty { self.new.gathered.items ≡ [] }
        ensures sent { Puts [] (λ l. view (L.taken l) (L.left l) (L.stream l) (L.name l) (L.fault_count l))
            self.old link.old self.new link.new }
    {
        self.failed = send(link, self.gathered.as_slice(), self.failed);
        self.gathered.clear();
    }

    // Writes what waits, and the piece after it.
    fn put_behind<L: Link>(&mut self, link: &mut L, piece: &[u8])
        ensures { Puts piece.now (λ l. view (L.taken l) (L.left l) (L.stream l) (L.name l) (L.fault_count l))
            self.old link.old self.new link.new }
    {
        self.flush(link);
        self.failed = send(link, piece, self.failed);
    }

    // Gathers a piece after what waits, or writes both if there is no room.
    fn put<L: Link>(&mut self, link: &mut L, piece: &[u8])
        ensures { Puts piece.now (λ l. view (L.taken l) (L.left l) (L.stream l) (L.name l) (L.fault_count l))
            self.old link.old self.new link.new }
    {
        match self.gathered.try_extend_from_slice(piece) {
            Ok(()) => {}
            Err(_) => self.put_behind(link, piece),
        }
    }

    fn put_status_line<L: Link>(&mut self, link: &mut L, status: u16)
        requires { IsStatusCode status }
        ensures { Puts (status_line status) (λ l. view (L.taken l) (L.left l) (L.stream l) (L.name l) (L.fault_count l))
            self.old link.old self.new link.new }
    {
        let mut digits = Buffer::new();
        self.put(link, b"HTTP/1.1 ");
        self.put(link, digits.format(status).as_bytes());
        self.put(link, b" ");
        self.put(link, phrase(status));
        self.put(link, b"\r\n");
    }

    fn put_field<L: Link>(&mut self, link: &mut L, applies: bool, name: &str, value: &[u8])
        ensures { Puts (where_so applies (field name.now value.now))
            (λ l. view (L.taken l) (L.left l) (L.stream l) (L.name l) (L.fault_count l))
            self.old link.old self.new link.new }
    {
        if applies {
            self.put(link, name.as_bytes());
            self.put(link, b": ");
            self.put(link, value);
            self.put(link, b"\r\n");
        }
    }

    fn put_moment<L: Link>(&mut self, link: &mut L, moment: &Option<[u8; 24]>)
        ensures { Puts (field_of (codes "X-Experience-API-Consistent-Through") moment.now)
            (λ l. view (L.taken l) (L.left l) (L.stream l) (L.name l) (L.fault_count l))
            self.old link.old self.new link.new }
    {
        if let Some(text) = moment {
            self.put_field(link, true, "X-Experience-API-Consistent-Through", text);
        }
    }
}

// Writes the response, and answers whether the link has failed.
fn write_fields<L: Link>(link: &mut L, reply: &Reply2, closes: bool) -> bool
    requires { IsStatus reply.now.status }
    ensures { IsWritten
        (response_of reply.now.status reply.now.media.now reply.now.body.now reply.now.through reply.now.allow.now
        closes) [] result
        (view (L.taken link.old) (L.left link.old) (L.stream link.old) (L.name link.old) (L.fault_count link.old))
        (view (L.taken link.new) (L.left link.new) (L.stream link.new) (L.name link.new) (L.fault_count link.new)) }
{
    let mut digits = Buffer::new();
    let has_body = reply.status != 204;
    let mut out = Output {
        gathered: ArrayVec::new(),
        failed: false,
    };
    out.put_status_line(link, reply.status);
    out.put_field(link, has_body, "Content-Type", reply.media.as_bytes());
    let size = digits.format(reply.body.len()).as_bytes();
    out.put_field(link, has_body, "Content-Length", size);
    out.put_field(link, true, "X-Experience-API-Version", b"1.0.3");
    out.put_moment(link, &reply.through);
    out.put_field(link, reply.status == 405, "Allow", reply.allow.as_bytes());
    let challenge = b"Basic realm=\"lrs\"";
    out.put_field(link, reply.status == 401, "WWW-Authenticate", challenge);
    out.put_field(link, closes, "Connection", b"close");
    out.put(link, b"\r\n");
    out.put(link, reply.body);
    out.flush(link);
    out.failed
}

/// Writes a response (RFC 9112, section 4), its fields in one fixed order. It takes no memory. With `closes` the
/// response says that the connection ends after it.
pub fn write_response<L: Link>(link: &mut L, reply: &Reply2, closes: bool) -> Result<(), LinkFault>
    requires status { IsStatus reply.now.status }
    requires bare { reply.now.status ≡ 204 → (reply.now.media.now ≡ []) × (reply.now.body.now ≡ []) }
    requires methods { reply.now.status ≢ 405 → reply.now.allow.now ≡ [] }
    ensures whole { OnOk result
        (Sends (response_of reply.now.status reply.now.media.now reply.now.body.now reply.now.through
        reply.now.allow.now closes) [] (L.taken link.old) (L.taken link.new)) }
    ensures part { OnErr result
        (SendsPart
        (response_of reply.now.status reply.now.media.now reply.now.body.now reply.now.through reply.now.allow.now
        closes) (L.taken link.old) (L.taken link.new)) }
    ensures left_kept { L.left link.new ≡ L.left link.old }
    ensures stream_kept { L.stream link.new ≡ L.stream link.old }
    ensures name_kept { L.name link.new ≡ L.name link.old }
    ensures cause { HasWriteCause (L.fault_count link.old) (L.fault_count link.new) result }
{
    if write_fields(link, reply, closes) {
        Err(LinkFault)
    } else {
        Ok(())
    }
}

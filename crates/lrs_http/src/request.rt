use lrs_disk::Failed;
use lrs_json::{Items, Memory, Text};
use std::alloc::{AllocError, AllocFailed};

/// A request's method (RFC 9110, section 9), as far as a route can tell them apart. Methods are compared in their case.
#[derive(Clone, Copy, Debug, PartialEq, Eq)]
pub enum Method {
    Get,
    Put,
    Post,
    Delete,
    Other,
}

/// A request as it was read. Of several fields of one name the first counts.
#[derive(Drop)]
pub struct Request {
    pub method: Method,
    /// The target before its first `?`, as it was sent.
    pub path: Text,
    /// What follows that `?`.
    pub query: Option<Text>,
    /// The field `X-Experience-API-Version`.
    pub version: Option<Text>,
    /// The field `Authorization`.
    pub credential: Option<Text>,
    /// The field `Content-Type`.
    pub media: Option<Text>,
    /// The connection ends after the response: HTTP/1.0, or `Connection: close`.
    pub closes: bool,
    pub body: Items<u8>,
}

impl Request {
    /// Drops it. Crates above call this in place of `drop`, so that what drops it is proved here alone.
    pub fn discard(self) {
        drop(self);
    }
}

/// Why no request is read. After each of these the connection ends.
#[derive(Clone, Copy, Debug, PartialEq, Eq)]
pub enum RequestRefused {
    /// The input ends before a request, with nothing but empty lines left.
    End,
    /// The head is out of form: rule 1, or the length of the body is: rule 2.
    Malformed { rule: u8 },
    /// The head has more bytes or fields than a head may.
    HeadTooLong,
    /// The body is sent in a transfer coding.
    Coded,
    /// A PUT or POST doesn't state the length of its body.
    NoLength,
    /// The body has more bytes than a body may.
    BodyTooLong,
    /// The input ends inside a request.
    Cut,
    /// A call of the link failed.
    LinkFault,
    /// Memory ran out.
    Memory,
}

impl From<Failed> for RequestRefused {
    ghost use Rattle.std.specs.Prelude.{◌≡◌};
    ghost use Rattle.lrs_http.specs.declared.request.RequestRefused.TheVariants as refused;

    ghost from_gives = { λ failed result. result ≡ refused.LinkFault };

    fn from(_: Failed) -> RequestRefused {
        RequestRefused::LinkFault
    }
}

impl From<AllocError> for RequestRefused {
    ghost use Rattle.std.specs.Prelude.{◌≡◌};
    ghost use Rattle.lrs_http.specs.declared.request.RequestRefused.TheVariants as refused;

    ghost from_gives = { λ wanting result. result ≡ refused.Memory };

    fn from(_: AllocError) -> RequestRefused {
        RequestRefused::Memory
    }
}

impl<T: Drop> From<AllocFailed<T>> for RequestRefused {
    ghost use Rattle.std.specs.Prelude.{◌≡◌};
    ghost use Rattle.lrs_http.specs.declared.request.RequestRefused.TheVariants as refused;

    ghost from_gives = { λ wanting result. result ≡ refused.Memory };

    fn from(_: AllocFailed<T>) -> RequestRefused {
        RequestRefused::Memory
    }
}

impl From<Memory> for RequestRefused {
    ghost use Rattle.std.specs.Prelude.{◌≡◌};
    ghost use Rattle.lrs_http.specs.declared.request.RequestRefused.TheVariants as refused;

    ghost from_gives = { λ wanting result. result ≡ refused.Memory };

    fn from(_: Memory) -> RequestRefused {
        RequestRefused::Memory
    }
}

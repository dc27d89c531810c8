ghost use Rattle.std.specs.Prelude.{◌≤◌, ◌<◌, length, IfSome};

use std::io::{Read, Write};
use std::net::TcpStream;
use std::time::{Clock, Duration, Instant};

/// The seconds in which the first byte of a request has to come.
pub const FIRST_BYTE_SECONDS: u64 = 5;

/// The seconds in which a whole request has to come, from its first byte on.
pub const REQUEST_SECONDS: u64 = 20;

/// The seconds in which a whole response has to be taken.
pub const RESPONSE_SECONDS: u64 = 20;

/// How long a connection waits for its peer. A time is that of a whole request or response, however few of its bytes
/// come or go at once.
#[derive(Clone, Copy, Debug, PartialEq, Eq)]
pub struct Patience {
    /// For the first byte of a request.
    pub first_byte: Duration,
    /// For a request, from its first byte on.
    pub request: Duration,
    /// For a response to be taken.
    pub response: Duration,
}

impl Patience {
    /// The times of a server: `FIRST_BYTE_SECONDS`, `REQUEST_SECONDS` and `RESPONSE_SECONDS`.
    pub fn usual() -> Patience {
        Patience {
            first_byte: Duration::from_secs(FIRST_BYTE_SECONDS),
            request: Duration::from_secs(REQUEST_SECONDS),
            response: Duration::from_secs(RESPONSE_SECONDS),
        }
    }
}

// What a connection is at. A read after a write begins a request, and a write after a read a response.
#[derive(Clone, Copy)]
enum Turn {
    // No byte of a request has come.
    Idle,
    Request { since: Instant },
    Response { since: Instant },
}

// Reads and writes of one connection, each within what is left of its request's or response's time.
#[derive(Drop)]
pub(crate) struct Pace<R: Clock + Copy> {
    rt: R,
    patience: Patience,
    turn: Turn,
    // The waits that the system was told last.
    read_wait: Option<Duration>,
    write_wait: Option<Duration>,
}

// What is left of a time that began at a moment, and nothing if it is over.
fn left<R: Clock>(rt: &R, since: Instant, time: Duration) -> Option<Duration> {
    match time.checked_sub(since.elapsed(rt).ok()?) {
        Some(left) if !left.is_zero() => Some(left),
        _ => None,
    }
}

impl<R: Clock + Copy> Pace<R> {
    pub(crate) fn new(rt: R, patience: Patience) -> Self {
        Pace {
            rt,
            patience,
            turn: Turn::Idle,
            read_wait: None,
            write_wait: None,
        }
    }

    // Reads, or gives up when the time of the request is over.
    pub(crate) fn read(&mut self, mut stream: &TcpStream, into: &mut [u8]) -> Option<usize>
        ensures { IfSome result (λ n. n ≤ length into.old) }
    {
        let wait = Some(match self.turn {
            Turn::Request { since } => left(&self.rt, since, self.patience.request)?,
            Turn::Idle | Turn::Response { .. } => self.patience.first_byte,
        });
        if wait != self.read_wait {
            stream.set_read_timeout(wait).ok()?;
            self.read_wait = wait;
        }
        let number = stream.read(into).ok()?;
        if !matches!(self.turn, Turn::Request { .. }) {
            self.turn = Turn::Request {
                since: Instant::now(&self.rt).ok()?,
            };
        }
        Some(number)
    }

    // Writes, or gives up when the time of the response is over.
    pub(crate) fn write(&mut self, mut stream: &TcpStream, bytes: &[u8]) -> Option<usize>
        ensures room { IfSome result (λ n. n ≤ length bytes.now) }
        ensures some { IfSome result (λ n. 0 < length bytes.now → 0 < n) }
    {
        let wait = Some(match self.turn {
            Turn::Response { since } => left(&self.rt, since, self.patience.response)?,
            Turn::Idle | Turn::Request { .. } => {
                self.turn = Turn::Response {
                    since: Instant::now(&self.rt).ok()?,
                };
                self.patience.response
            }
        });
        if wait != self.write_wait {
            stream.set_write_timeout(wait).ok()?;
            self.write_wait = wait;
        }
        match stream.write(bytes) {
            Ok(0) if !bytes.is_empty() => None,
            Ok(number) => Some(number),
            Err(_) => None,
        }
    }

    // Takes out what comes, for so long and at most so many pieces of 16 KiB. It ends where the peer's end does.
    pub(crate) fn drain(&self, mut stream: &TcpStream, time: Duration, pieces: u64) -> Option<()> {
        let start = Instant::now(&self.rt).ok()?;
        let mut piece = [0; 16_384];
        for _ in 0..pieces {
            stream
                .set_read_timeout(Some(left(&self.rt, start, time)?))
                .ok()?;
            if stream.read(&mut piece).ok()? == 0 {
                return None;
            }
        }
        Some(())
    }
}

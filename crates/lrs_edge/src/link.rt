ghost use Rattle.std.specs.Prelude.{◌≡◌, None};
ghost use Rattle.lrs_edge.specs.Silent.{tells_none};

use crate::faults::Faults;
use crate::pace::{Pace, Patience};
use lrs_disk::{Failed, Link};
use std::net::{Shutdown, TcpStream};
use std::time::{Clock, Duration};

/// A TCP connection. It fails if its peer is slower than a `Patience`.
#[derive(Drop)]
pub struct TcpLink<R: Clock + Copy> {
    stream: TcpStream,
    pace: Pace<R>,
    name: u64,
    faults: Faults,
}

// How long a connection that ends takes out what its peer still sends, and how many pieces of 16 KiB: 16 MiB.
const LAST_SECONDS: u64 = 1;

const LAST_PIECES: u64 = 1_024;

impl<R: Clock + Copy> TcpLink<R> {
    ghost use Rattle.lrs_edge.specs.TcpLink.{name_of, faults_of};

    // A connection under a name. Its small writes go out at once, if the system allows it.
    pub(crate) fn new(rt: R, patience: Patience, stream: TcpStream, name: u64) -> Self
        ensures name { name_of result ≡ name }
        ensures faults { faults_of result ≡ 0 }
    {
        let _ = stream.set_nodelay(true);
        TcpLink {
            stream,
            pace: Pace::new(rt, patience),
            name,
            faults: Faults::none(),
        }
    }

    // Ends the connection. What comes unread is taken out of it first, since the system would else break the connection
    // off and might lose the last response. After a fault no response is on its way.
    pub(crate) fn end(self) {
        let _ = self.stream.shutdown(Shutdown::Write);
        if self.faults.count > 0 {
            return;
        }
        let time = Duration::from_secs(LAST_SECONDS);
        let _ = self.pace.drain(&self.stream, time, LAST_PIECES);
    }
}

impl<R: Clock + Copy> Link for TcpLink<R> {
    ghost use Rattle.lrs_edge.specs.TcpLink.{name_of, faults_of};

    ghost left = { λ l. None };

    ghost stream = { λ l. None };

    ghost taken = { λ l. None };

    ghost name = { name_of };

    ghost fault_count = { faults_of };

    ghost tells_stream = { λ l rest is. absurd (tells_none rest is) };

    fn read(&mut self, into: &mut [u8]) -> Result<usize, Failed> {
        match self.pace.read(&self.stream, into) {
            Some(number) => Ok(number),
            None => self.faults.failed(),
        }
    }

    fn write(&mut self, bytes: &[u8]) -> Result<usize, Failed> {
        match self.pace.write(&self.stream, bytes) {
            Some(number) => Ok(number),
            None => self.faults.failed(),
        }
    }

    fn faults(&self) -> u64 {
        self.faults.count
    }
}

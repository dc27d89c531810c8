ghost use Rattle.lrs_disk.specs.Door.{IsFresh};

use crate::clock::milliseconds;
use crate::faults::Faults;
use crate::link::TcpLink;
use crate::pace::Patience;
use crate::reports::report;
use lrs_disk::{Door, Next};
use std::io::{self, ErrorKind};
use std::net::{SocketAddr, TcpListener, TcpStream};
use std::time::Clock;

/// A TCP address on which connections come in. It never closes.
#[derive(Drop)]
pub struct TcpDoor<R: Clock + Eprint + Copy> {
    rt: R,
    patience: Patience,
    listener: TcpListener,
    given: u64,
    out: Option<u64>,
    faults: Faults,
}

impl<R: Clock + Eprint + Copy> TcpDoor<R> {
    ghost use Rattle.lrs_edge.specs.TcpDoor.{state_of};

    pub(crate) fn new(rt: R, patience: Patience, listener: TcpListener) -> Self
        ensures { IsFresh (state_of result) }
    {
        TcpDoor {
            rt,
            patience,
            listener,
            given: 0,
            out: None,
            faults: Faults::none(),
        }
    }

    /// The address on which its connections come in. Where port 0 was asked for it has the port that the system chose.
    pub fn address(&self) -> io::Result<SocketAddr> {
        self.listener.local_addr()
    }
}

// The next connection. One that its peer broke off before it was taken is passed over.
fn accept(listener: &TcpListener) -> io::Result<TcpStream> {
    for _ in 0..u64::MAX {
        match listener.accept() {
            Ok((stream, _)) => return Ok(stream),
            Err(error) if error.kind() == ErrorKind::ConnectionAborted => (),
            Err(error) => return Err(error),
        }
    }
    Err(io::Error::from(ErrorKind::Other))
}

// Says why no connection could be taken.
fn report_accept(rt: &impl Eprint, listener: &TcpListener, error: &io::Error) {
    let action = "accept a connection";
    match listener.local_addr() {
        Ok(address) => report(rt, &address, action, error),
        Err(_) => report(rt, &"the socket", action, error),
    }
}

impl<R: Clock + Eprint + Copy> Door for TcpDoor<R> {
    type Link = TcpLink<R>;

    ghost use Rattle.lrs_edge.specs.TcpDoor.{state_of};

    ghost state = { state_of };

    fn next(&mut self) -> Next<TcpLink<R>> {
        match accept(&self.listener) {
            Ok(stream) => {
                let name = self.given;
                self.given = name.saturating_add(1);
                self.out = Some(name);
                Next::Joined(TcpLink::new(self.rt, self.patience, stream, name))
            }
            Err(error) => {
                report_accept(&self.rt, &self.listener, &error);
                self.faults.rise();
                Next::Failed
            }
        }
    }

    fn done(&mut self, link: TcpLink<R>) {
        self.out = None;
        link.end();
    }

    fn now(&mut self) -> u64 {
        milliseconds(&self.rt)
    }

    fn faults(&self) -> u64 {
        self.faults.count
    }
}

ghost use Rattle.std.specs.Prelude.{◌≡◌, None, All, length, map, nat_lt, IfOk};
ghost use Rattle.std.specs.List.{list_any};
ghost use Rattle.lrs_disk.specs.Door.{IsFresh};
ghost use Rattle.lrs_disk.specs.Lobby.{CountsFaults};
ghost use Rattle.lrs_edge.specs.TcpDoor.{state_of};

use crate::clock::milliseconds;
use crate::door::TcpDoor;
use crate::faults::Faults;
use crate::pace::Patience;
use crate::reports::report;
use lrs_disk::{Door, DoorsRefused, Lobby};
use std::alloc::Global;
use std::io::{self, ErrorKind};
use std::net::{Net, TcpListener, TcpStream};
use std::time::Clock;

/// The system's clock, and its TCP addresses.
#[derive(Drop)]
pub struct TcpLobby<
    R: Clock + Net<Listener = TcpListener, Stream = TcpStream> + Eprint + Copy + Send,
> {
    rt: R,
    patience: Patience,
    faults: Faults,
}

impl<R: Clock + Net<Listener = TcpListener, Stream = TcpStream> + Eprint + Copy + Send> TcpLobby<
    R,
> {
    ghost use Rattle.lrs_edge.specs.TcpLobby.{faults_of};

    /// The addresses that this runtime reaches, with the usual times for peers.
    pub fn new(rt: R) -> Self
        ensures { faults_of result ≡ 0 }
    {
        TcpLobby::with_patience(rt, Patience::usual())
    }

    /// The same with other times.
    pub fn with_patience(rt: R, patience: Patience) -> Self
        ensures { faults_of result ≡ 0 }
    {
        TcpLobby {
            rt,
            patience,
            faults: Faults::none(),
        }
    }
}

// What a call of the system gave. If it failed this is reported. To look up the name of a host takes memory, too.
fn reported(
    rt: &impl Eprint,
    address: &str,
    made: io::Result<TcpListener>,
) -> Result<TcpListener, DoorsRefused> {
    match made {
        Ok(listener) => Ok(listener),
        Err(error) => {
            report(rt, &address, "listen", &error);
            match error.kind() {
                ErrorKind::OutOfMemory => Err(DoorsRefused::Memory),
                _ => Err(DoorsRefused::Failed),
            }
        }
    }
}

// Says where these doors listen.
fn say_listening<R: Clock + Eprint + Copy>(rt: &R, doors: &[TcpDoor<R>]) {
    let Some(door) = doors.first() else {
        return;
    };
    if let Ok(address) = door.address() {
        let _ = eprintln!(rt; "listening on {address}");
    }
}

// So many doors of one address, each with a handle of its own on the one socket.
fn open<R: Clock + Net<Listener = TcpListener, Stream = TcpStream> + Eprint + Copy>(
    alloc: Global,
    rt: R,
    patience: Patience,
    address: &str,
    count: usize,
) -> Result<Vec<TcpDoor<R>>, DoorsRefused>
    ensures number { IfOk result (λ doors. length doors.items ≡ count) }
    ensures fresh { IfOk result (λ doors. All (λ door. IsFresh (state_of door)) doors.items) }
{
    let Ok(mut doors) = Vec::with_capacity(alloc, count) else {
        return Err(DoorsRefused::Memory);
    };
    let listener = reported(&rt, address, TcpListener::bind(&rt, address))?;
    for _ in 0..count {
        let listener = reported(&rt, address, listener.try_clone())?;
        doors.push_reserved(TcpDoor::new(rt, patience, listener));
    }
    Ok(doors)
}

// Whether one of these doors has failed.
fn has_failed<R: Clock + Eprint + Copy>(doors: &[TcpDoor<R>]) -> bool
    ensures { result ≡ list_any (λ door. nat_lt 0 (state_of door).faults) doors.now }
{
    doors.iter().any(|door| door.faults() > 0)
}

// Counts a fault if one of these doors has failed.
fn count_failed<R: Clock + Eprint + Copy>(faults: &mut Faults, doors: &[TcpDoor<R>])
    ensures { CountsFaults faults.old.count faults.new.count (map state_of doors.now) }
{
    if !has_failed(doors) {
        return;
    }
    faults.rise();
}

impl<R: Clock + Net<Listener = TcpListener, Stream = TcpStream> + Eprint + Copy + Send> Lobby
    for TcpLobby<R> {
    type Door = TcpDoor<R>;

    ghost use Rattle.lrs_edge.specs.TcpLobby.{faults_of};

    ghost readings = { λ l. None };

    ghost asked = { λ l. None };

    ghost returned = { λ l. None };

    ghost fault_count = { faults_of };

    fn now(&mut self) -> u64 {
        milliseconds(&self.rt)
    }

    fn doors(
        &mut self,
        alloc: Global,
        address: &str,
        count: usize,
    ) -> Result<Vec<TcpDoor<R>>, DoorsRefused> {
        match open(alloc, self.rt, self.patience, address, count) {
            Ok(doors) => {
                say_listening(&self.rt, &doors);
                Ok(doors)
            }
            Err(DoorsRefused::Memory) => Err(DoorsRefused::Memory),
            Err(DoorsRefused::Failed) => {
                self.faults.rise();
                Err(DoorsRefused::Failed)
            }
        }
    }

    fn back(&mut self, doors: Vec<TcpDoor<R>>)
        ensures { CountsFaults (faults_of self.old) (faults_of self.new) (map state_of doors.items) }
    {
        count_failed(&mut self.faults, &doors);
    }

    fn faults(&self) -> u64 {
        self.faults.count
    }
}

ghost use Rattle.std.specs.Prelude.{◌≡◌, None, All, IfOk};
ghost use Rattle.lrs_disk.specs.Door.{IsFresh};
ghost use Rattle.lrs_edge.specs.TcpDoor.{state_of};
ghost use Rattle.lrs_edge.specs.TcpLink.{name_of};

use crate::failing::{first_wrong, none_wrong};
use lrs_disk::{Door, Failed, Link, Lobby, Next};
use lrs_edge::{Patience, TcpDoor, TcpLink, TcpLobby};
use std::io::{Read, Write};
use std::net::{Shutdown, TcpStream};
use std::test::Fail;
use std::thread;
use std::time::Duration;

// Times that a test can wait for.
fn short() -> Patience {
    Patience {
        first_byte: Duration::from_millis(50),
        request: Duration::from_millis(200),
        response: Duration::from_millis(200),
    }
}

// A door on a port of the loopback that the system chooses.
fn door_of(rt: HostRuntime, patience: Patience) -> Result<TcpDoor<HostRuntime>, Fail>
    ensures { IfOk result (λ door. IsFresh (state_of door)) }
{
    let mut lobby = TcpLobby::with_patience(rt, patience);
    let mut doors = lobby.doors(rt.alloc(), "127.0.0.1:0", 1)?;
    match doors.pop() {
        Some(door) => Ok(door),
        None => Err(Fail::from("no door")),
    }
}

#[test]
fn the_clock_is_past_2020(rt: HostRuntime) -> Result<(), Fail> {
    let mut lobby = TcpLobby::new(rt);
    let now = lobby.now();
    drop(lobby);
    assert!(rt; now > 1_577_836_800_000);
    Ok(())
}

// Whether a connection reads these bytes next, and these alone.
fn reads(link: &mut TcpLink<HostRuntime>, bytes: &[u8; 3]) -> bool
    ensures { name_of link.new ≡ name_of link.old }
{
    let mut piece = [0; 9];
    link.read(&mut piece) == Ok(3) && &piece[..3] == bytes.as_slice()
}

// Whether a client is sent these bytes, and then the end.
fn is_sent(client: &mut TcpStream, bytes: &[u8; 6]) -> bool {
    let mut piece = [0; 9];
    let came = client.read(&mut piece).is_ok_and(|number| number == 6);
    came && &piece[..6] == bytes.as_slice()
        && client.read(&mut piece).is_ok_and(|number| number == 0)
}

// A client that asks and is answered. It sends more than is read of it, and ends.
fn answered(door: &mut TcpDoor<HostRuntime>, client: &mut TcpStream) -> Option<usize>
    requires { (state_of door.old).out ≡ None }
{
    let asked = client.write(b"ask").is_ok();
    let Next::Joined(mut link) = door.next() else {
        return Some(99);
    };
    let steps = [
        asked,
        reads(&mut link, b"ask"),
        link.write(b"answer") == Ok(6),
        client.write(b"more").is_ok(),
        client.shutdown(Shutdown::Write).is_ok(),
        link.faults() == 0,
    ];
    door.done(link);
    if let Some(wrong) = first_wrong(&steps) {
        return Some(wrong);
    }
    let behind = [
        is_sent(client, b"answer"),
        door.now() > 1_577_836_800_000,
        door.faults() == 0,
    ];
    first_wrong(&behind)
}

#[test]
fn a_connection_comes_in_over_loopback(rt: HostRuntime) -> Result<(), Fail> {
    let mut door = door_of(rt, Patience::usual())?;
    let mut client = TcpStream::connect(&rt, door.address()?)?;
    let wrong = answered(&mut door, &mut client);
    drop(client);
    drop(door);
    none_wrong(wrong)
}

// Asks for doors of no address, then for two of one.
fn asked_twice(rt: HostRuntime, lobby: &mut TcpLobby<HostRuntime>) -> Option<usize> {
    let refused = lobby.doors(rt.alloc(), "no address", 1).is_err();
    let Ok(doors) = lobby.doors(rt.alloc(), "127.0.0.1:0", 2) else {
        return Some(99);
    };
    let two = doors.len() == 2;
    lobby.back(doors);
    first_wrong(&[refused, two, lobby.faults() == 1])
}

#[test]
fn a_lobby_gives_the_doors_of_an_address(rt: HostRuntime) -> Result<(), Fail> {
    let mut lobby = TcpLobby::new(rt);
    let wrong = asked_twice(rt, &mut lobby);
    drop(lobby);
    none_wrong(wrong)
}

// The last of these doors.
fn last_of(doors: &mut Vec<TcpDoor<HostRuntime>>) -> Result<TcpDoor<HostRuntime>, Fail>
    requires { All (λ door. IsFresh (state_of door)) doors.old.items }
    ensures door { IfOk result (λ door. IsFresh (state_of door)) }
    ensures rest { All (λ door. IsFresh (state_of door)) doors.new.items }
{
    match doors.pop() {
        Some(door) => Ok(door),
        None => Err(Fail::from("no door")),
    }
}

// Two doors of one address.
fn two_doors(
    rt: HostRuntime,
    patience: Patience,
) -> Result<(TcpDoor<HostRuntime>, TcpDoor<HostRuntime>), Fail>
    ensures { IfOk result (λ doors. IsFresh (state_of doors.0) × IsFresh (state_of doors.1)) }
{
    let mut lobby = TcpLobby::with_patience(rt, patience);
    let mut doors = lobby.doors(rt.alloc(), "127.0.0.1:0", 2)?;
    let one = last_of(&mut doors)?;
    let other = last_of(&mut doors)?;
    drop(doors);
    Ok((one, other))
}

// A client that says nothing at one door, and one at the other that is answered meanwhile.
fn at_two_doors(
    one: &mut TcpDoor<HostRuntime>,
    other: &mut TcpDoor<HostRuntime>,
    client: &mut TcpStream,
) -> Option<usize>
    requires { ((state_of one.old).out ≡ None) × ((state_of other.old).out ≡ None) }
{
    let Next::Joined(mut silent) = one.next() else {
        return Some(99);
    };
    let wrong = answered(other, client);
    let given_up = gives_up(&mut silent);
    one.done(silent);
    match wrong {
        None => first_wrong(&[given_up, one.faults() == 0]),
        Some(wrong) => Some(wrong),
    }
}

#[test]
fn the_doors_of_an_address_serve_at_once(rt: HostRuntime) -> Result<(), Fail> {
    let (mut one, mut other) = two_doors(rt, short())?;
    let silent = TcpStream::connect(&rt, one.address()?)?;
    let mut client = TcpStream::connect(&rt, one.address()?)?;
    let wrong = at_two_doors(&mut one, &mut other, &mut client);
    drop(client);
    drop(silent);
    drop(other);
    drop(one);
    none_wrong(wrong)
}

// Whether a read fails, and is counted once.
fn gives_up(link: &mut TcpLink<HostRuntime>) -> bool
    ensures { name_of link.new ≡ name_of link.old }
{
    link.read(&mut [0; 9]) == Err(Failed) && link.faults() == 1
}

// A client that sends nothing, and one after it.
fn idle(door: &mut TcpDoor<HostRuntime>, client: &mut TcpStream) -> Option<usize>
    requires { (state_of door.old).out ≡ None }
{
    let Next::Joined(mut link) = door.next() else {
        return Some(99);
    };
    let given_up = gives_up(&mut link);
    door.done(link);
    let Next::Joined(mut link) = door.next() else {
        return Some(98);
    };
    let asked = client.write(b"ask").is_ok();
    let read = reads(&mut link, b"ask");
    door.done(link);
    first_wrong(&[given_up, asked, read])
}

#[test]
fn an_idle_client_is_given_up(rt: HostRuntime) -> Result<(), Fail> {
    let mut door = door_of(rt, short())?;
    let silent = TcpStream::connect(&rt, door.address()?)?;
    let mut client = TcpStream::connect(&rt, door.address()?)?;
    let wrong = idle(&mut door, &mut client);
    drop(client);
    drop(silent);
    drop(door);
    none_wrong(wrong)
}

// How often a client that sends one byte after the other is read before the connection fails, at most 200 times. A byte
// comes each 10 ms, long before the time for the first one is over.
fn drips(rt: HostRuntime, link: &mut TcpLink<HostRuntime>, client: &mut TcpStream) -> u64 {
    for drop in 0..200u64 {
        if client.write(b"a").is_err() || link.read(&mut [0; 9]).is_err() {
            return drop;
        }
        thread::sleep(&rt, Duration::from_millis(10));
    }
    200
}

// How many pieces of a response a client takes that reads nothing, at most 9,999.
fn unread(link: &mut TcpLink<HostRuntime>) -> u64 {
    for number in 0..9_999u64 {
        if link.write(&[7; 65_536]).is_err() {
            return number;
        }
    }
    9_999
}

// A request that comes byte by byte, then a response that isn't read.
fn slow(rt: HostRuntime, door: &mut TcpDoor<HostRuntime>, client: &mut TcpStream) -> Option<usize>
    requires { (state_of door.old).out ≡ None }
{
    let Next::Joined(mut link) = door.next() else {
        return Some(99);
    };
    let read = drips(rt, &mut link, client);
    let written = unread(&mut link);
    let steps = [
        read > 0,
        read < 200,
        written > 0,
        written < 9_999,
        link.faults() == 2,
    ];
    drop(link);
    first_wrong(&steps)
}

#[test]
fn a_slow_client_is_given_up(rt: HostRuntime) -> Result<(), Fail> {
    let mut door = door_of(rt, short())?;
    let mut client = TcpStream::connect(&rt, door.address()?)?;
    let wrong = slow(rt, &mut door, &mut client);
    drop(client);
    drop(door);
    none_wrong(wrong)
}

// Sends 8 MiB, as clients do that look for the answer only then: one whose connection breaks off meanwhile never looks.
fn pushes(mut client: TcpStream) -> bool {
    let mut sent = true;
    for _ in 0..128u64 {
        sent = sent && client.write_all(&[7; 65_536]).is_ok();
    }
    let answered = sent && is_sent(&mut client, b"refuse");
    drop(client);
    answered
}

// Answers and ends with almost nothing read.
fn refuses(door: &mut TcpDoor<HostRuntime>) -> Option<usize>
    requires { (state_of door.old).out ≡ None }
{
    let Next::Joined(mut link) = door.next() else {
        return Some(99);
    };
    let steps = [
        link.read(&mut [0; 9]) == Ok(9),
        link.write(b"refuse") == Ok(6),
    ];
    door.done(link);
    first_wrong(&steps)
}

#[test]
fn a_large_request_that_is_refused_gets_its_answer(rt: HostRuntime) -> Result<(), Fail> {
    let mut door = door_of(rt, Patience::usual())?;
    let client = TcpStream::connect(&rt, door.address()?)?;
    let pushing = thread::spawn(&rt, move || pushes(client))?;
    let wrong = refuses(&mut door);
    drop(door);
    let answered = pushing.join(&rt);
    assert!(rt; answered);
    none_wrong(wrong)
}

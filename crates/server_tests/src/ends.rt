//! How serving ends for two workers of which a door may fail.
ghost use Rattle.std.specs.Prelude.{◌≡◌, None, All, IfOk, length};
ghost use Rattle.lrs_in_memory_doors.specs.MemDoor.{out_of};

use crate::desks::founded;
use lrs_hall::{Desk, ServeEnd, Talk, serve_all};
use lrs_in_memory::MemDisk;
use lrs_in_memory_doors::{MemDoor, MemLink};
use lrs_json::Items;
use std::alloc::Global;
use std::sync::Wait;
use std::test::Fail;
use std::thread::Threads;

// Which call of `next` fails at the first door and at the second, how serving ends then, and how many talks each worker
// had. Each door is asked for two connections and gives one, so call 2 never comes.
const ENDS: [(u64, u64, &str); 9] = [
    (2, 2, "done 1 1"),
    (0, 2, "door 0 1"),
    (2, 0, "door 1 0"),
    (1, 2, "door 1 1"),
    (2, 1, "door 1 1"),
    (0, 0, "door 0 0"),
    (0, 1, "door 0 1"),
    (1, 0, "door 1 0"),
    (1, 1, "door 1 1"),
];

// A door that gives one connection, and of which this call fails.
fn door_of(alloc: Global, failing: u64) -> Result<MemDoor, Fail>
    ensures { IfOk result (λ door. out_of door ≡ None) }
{
    let stream = "GET /none HTTP/1.1\r\n\r\n".as_bytes().to_vec(alloc)?;
    let link = MemLink::new(alloc, stream, Vec::new(alloc), 999, Vec::new(alloc))?;
    let links = vec![in alloc; link]?;
    let failing = vec![in alloc; failing]?;
    Ok(MemDoor::new(alloc, links, Vec::new(alloc), failing)?)
}

fn two_doors(alloc: Global, first: u64, second: u64) -> Result<Vec<MemDoor>, Fail>
    ensures count { IfOk result (λ doors. length doors.items ≡ 2) }
    ensures out { IfOk result (λ doors. All (λ door. out_of door ≡ None) doors.items) }
{
    let one = door_of(alloc, first)?;
    let other = door_of(alloc, second)?;
    Ok(vec![in alloc; one, other]?)
}

// How serving ended, and how many talks each worker had.
fn told(alloc: Global, talks: &[Items<Talk>], end: ServeEnd) -> Result<String, Fail> {
    let end = match end {
        ServeEnd::Done => "done",
        ServeEnd::DoorFault => "door",
        ServeEnd::Memory => "memory",
    };
    let mut text = String::from_str(alloc, end)?;
    for of_one in talks {
        let count = of_one.as_slice().len();
        text = format!(in alloc; "{text} {count}")?;
    }
    Ok(text)
}

fn served_over<R: Threads + Wait + Sync>(
    rt: &R,
    alloc: Global,
    desk: Desk<MemDisk>,
    doors: Vec<MemDoor>,
) -> Result<String, Fail>
    requires count { length doors.items ≡ 2 }
    requires out { All (λ door. out_of door ≡ None) doors.items }
{
    let (desk, doors, talks, end) = serve_all(rt, alloc, desk, doors, 2, [0; 32]);
    let told = told(alloc, talks.as_slice(), end);
    drop(talks);
    drop(doors);
    drop(desk);
    told
}

fn served<R: Threads + Wait + Sync>(
    rt: &R,
    alloc: Global,
    first: u64,
    second: u64,
) -> Result<String, Fail> {
    let doors = two_doors(alloc, first, second)?;
    match founded(alloc) {
        Ok(desk) => served_over(rt, alloc, desk, doors),
        Err(fail) => {
            drop(doors);
            Err(fail)
        }
    }
}

// Fails with the first row that ends otherwise.
fn check_ends<R: Threads + Wait + Sync>(rt: &R, alloc: Global) -> Result<(), Fail> {
    for (first, second, expected) in ENDS.iter() {
        let found = served(rt, alloc, *first, *second)?;
        if found.as_str() != *expected {
            return Err(Fail::from(format!(in alloc; "{first} {second}: {found}")?));
        }
    }
    Ok(())
}

#[test]
fn a_door_that_fails_goes_before_workers_that_are_done(rt: HostRuntime) -> Result<(), Fail> {
    check_ends(&rt, rt.alloc())
}

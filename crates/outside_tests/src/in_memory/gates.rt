ghost use Rattle.std.specs.Prelude.{◌≡◌, None, IfOk};
ghost use Rattle.lrs_in_memory_doors.specs.GateDoor.{door_of};
ghost use Rattle.lrs_in_memory_doors.specs.GateLink.{link_of};
ghost use Rattle.lrs_in_memory_doors.specs.MemDoor.{out_of};
ghost use Rattle.lrs_in_memory_doors.specs.MemLink.{IsUnusedLink, name_of};

use crate::failing::{first_wrong, none_wrong};
use lrs_disk::{Door, Link, Next};
use lrs_in_memory::Memory;
use lrs_in_memory_doors::{Gate, GateDoor, GateLink, MemDoor, MemLink, Sign, Until};
use std::alloc::Global;
use std::test::Fail;
use std::thread;

// A connection that brings four bytes.
fn link(alloc: Global) -> Result<MemLink, Memory>
    ensures { IfOk result IsUnusedLink }
{
    let input = b"asks".to_vec(alloc)?;
    MemLink::new(alloc, input, Vec::new(alloc), 9, Vec::new(alloc))
}

// Two links of which each waits for the other: the first one's last bytes until the second was answered, and the second
// one until the first waits.
fn waiting_for_one_another(alloc: Global) -> Result<(GateLink, GateLink), Memory> {
    let (one, other) = (Sign::new(alloc)?, Sign::new(alloc)?);
    let waits = Until::Waits(one.again()?);
    let answered = Until::Answered(other.again()?);
    let first = GateLink::new(link(alloc)?, Gate::input(one, 2, answered));
    let second = GateLink::new(link(alloc)?, Gate::input(other, 0, waits));
    Ok((first, second))
}

// Reads all, in as many pieces, and answers.
fn answers(mut link: GateLink, pieces: &[usize]) -> bool {
    let mut piece = [0; 9];
    for number in pieces {
        if link.read(&mut piece) != Ok(*number) {
            return false;
        }
    }
    let answered = link.write(b"answer") == Ok(6) && link.faults() == 0;
    drop(link);
    answered
}

#[test]
fn links_in_two_threads_wait_for_one_another(rt: HostRuntime) -> Result<(), Fail> {
    let (first, second) = waiting_for_one_another(rt.alloc())?;
    let both = thread::join(
        &rt,
        move || answers(first, &[2, 2, 0]),
        move || answers(second, &[4, 0]),
    );
    assert!(rt; both == (true, true));
    Ok(())
}

// Reads a link while its answers are held back, and answers once the other one was answered.
fn held_back(link: &mut GateLink, other: &mut GateLink) -> Option<usize> {
    let mut piece = [0; 9];
    let steps = [
        link.read(&mut piece) == Ok(4),
        other.read(&mut piece) == Ok(4),
        other.write(b"an") == Ok(2),
        link.write(b"answer") == Ok(6),
        link.taken() == b"answer".as_slice(),
        link.faults() == 0,
    ];
    first_wrong(&steps)
}

#[test]
fn a_link_takes_nothing_until_another_one_was_answered(rt: HostRuntime) -> Result<(), Fail> {
    let alloc = rt.alloc();
    let (one, other) = (Sign::new(alloc)?, Sign::new(alloc)?);
    let answered = Until::Answered(other.again()?);
    let mut first = GateLink::new(link(alloc)?, Gate::output(one, answered));
    let mut second = GateLink::new(link(alloc)?, Gate::open(other));
    let wrong = held_back(&mut first, &mut second);
    drop(second);
    drop(first);
    none_wrong(wrong)
}

// A door whose one link has a gate at an offset, which waits for itself.
fn gated_door(alloc: Global) -> Result<GateDoor, Memory>
    ensures { IfOk result (λ door. out_of (door_of door) ≡ None) }
{
    let sign = Sign::new(alloc)?;
    let waits = Until::Waits(sign.again()?);
    let gates = vec![in alloc; Gate::input(sign, 3, waits)]?;
    let links = vec![in alloc; link(alloc)?]?;
    let door = MemDoor::new(alloc, links, [7, 8].to_vec(alloc)?, Vec::new(alloc))?;
    Ok(GateDoor::new(door, gates))
}

// Whether so many bytes are read next.
fn reads(link: &mut GateLink, number: usize) -> bool
    ensures { name_of (link_of link.new) ≡ name_of (link_of link.old) }
{
    link.read(&mut [0; 9]) == Ok(number)
}

// A link out of a door that has one, then the end.
fn gone_through(door: &mut GateDoor) -> Option<usize>
    requires { out_of (door_of door.old) ≡ None }
{
    let Next::Joined(mut link) = door.next() else {
        return Some(99);
    };
    let first = reads(&mut link, 3);
    let last = reads(&mut link, 1);
    door.done(link);
    let steps = [
        first,
        last,
        matches!(door.next(), Next::Closed),
        door.returned().len() == 1,
        door.now() == 7,
        door.now() == 8,
        door.faults() == 0,
    ];
    first_wrong(&steps)
}

#[test]
fn a_door_has_gates_before_its_links(rt: HostRuntime) -> Result<(), Fail> {
    let mut door = gated_door(rt.alloc())?;
    let wrong = gone_through(&mut door);
    drop(door);
    none_wrong(wrong)
}

ghost use Rattle.std.specs.Prelude.{◌≡◌, ◌≤◌, ◌∷◌, [], None, IfOk};
ghost use Rattle.lrs_in_memory_doors.specs.MemDoor.{out_of};
ghost use Rattle.lrs_in_memory_doors.specs.MemLink.{IsUnusedLink};

use crate::failing::{first_wrong, none_wrong};
use lrs_disk::{Disk, Door, Failed, Link, Lobby, Next, Shelf, Sink, Source};
use lrs_in_memory::{MemDisk, MemShelf, Memory, Pending};
use lrs_in_memory_doors::{MemDoor, MemLink, MemLobby, MemSink, MemSource};
use std::alloc::Global;
use std::test::Fail;

fn text(alloc: Global, text: &[u8]) -> Result<Vec<u8>, Memory> {
    Ok(text.to_vec(alloc)?)
}

fn one<T: Drop>(alloc: Global, item: T) -> Result<Vec<T>, Memory>
    ensures { IfOk result (λ v. v.items ≡ item ∷ []) }
{
    let mut items = Vec::new(alloc);
    items.push(item)?;
    Ok(items)
}

// Whether a crash at a moment leaves these bytes. There is none at a moment to come.
fn leaves(disk: &MemDisk, moment: u64, pending: Pending, left: &[u8]) -> Result<bool, Memory> {
    Ok(moment <= disk.moment() && disk.image(moment, pending)?.as_slice() == left)
}

fn synced_in_between(disk: &mut MemDisk) -> Result<Option<usize>, Memory> {
    let Ok(end) = disk.len() else {
        return Ok(Some(0));
    };
    let steps = [
        end == 2,
        disk.write_at(end, b"c") == Ok(()),
        disk.sync() == Ok(()),
        disk.write_at(0, b"xy") == Ok(()),
        disk.bytes() == b"xyc".as_slice(),
        leaves(disk, 4, Pending::Lost, b"abc")?,
        leaves(disk, 4, Pending::Landed, b"xyc")?,
        leaves(disk, 4, Pending::Torn(7), b"\x07\x07c")?,
        leaves(disk, 2, Pending::Lost, b"ab")?,
        leaves(disk, 2, Pending::Torn(7), b"ab\x07")?,
        leaves(disk, 0, Pending::Landed, b"ab")?,
        disk.sync() == Ok(()),
        disk.len() == Err(Failed),
        disk.faults() == 1,
    ];
    Ok(first_wrong(&steps))
}

#[test]
fn a_crash_leaves_what_was_synced(rt: HostRuntime) -> Result<(), Fail> {
    let alloc = rt.alloc();
    let mut disk = MemDisk::new(alloc, text(alloc, b"ab")?, Vec::new(alloc), 5, 3)?;
    let wrong = synced_in_between(&mut disk);
    drop(disk);
    none_wrong(wrong?)
}

// Whether a crash now leaves these bytes.
fn leaves_now(disk: &MemDisk, pending: Pending, left: &[u8]) -> Result<bool, Memory> {
    Ok(disk.image(disk.moment(), pending)?.as_slice() == left)
}

// Whether these bytes, and no more, are read from an offset on.
fn reads(disk: &mut MemDisk, offset: u64, bytes: [u8; 4], number: usize) -> bool {
    let mut read = [0; 4];
    disk.read_at(offset, &mut read) == Ok(number) && read == bytes
}

fn failing_at_first(disk: &mut MemDisk) -> Result<Option<usize>, Memory> {
    let steps = [
        disk.write_at(0, b"x") == Err(Failed),
        leaves_now(disk, Pending::Lost, b"abc")?,
        leaves_now(disk, Pending::Landed, b"xbc")?,
        disk.cut(0) == Err(Failed),
        leaves_now(disk, Pending::Landed, b"")?,
        disk.write_at(0, b"0123456789") == Err(Failed),
        reads(disk, 1, *b"bc\0\0", 2),
        disk.cut(0) == Ok(()),
        leaves_now(disk, Pending::Lost, b"abc")?,
        disk.bytes() == b"".as_slice(),
        disk.faults() == 3,
    ];
    Ok(first_wrong(&steps))
}

#[test]
fn a_failed_call_may_have_reached_the_disk(rt: HostRuntime) -> Result<(), Fail> {
    let alloc = rt.alloc();
    let failing = [0, 1].to_vec(alloc)?;
    let mut disk = MemDisk::new(alloc, text(alloc, b"abc")?, failing, 9, 9)?;
    let wrong = failing_at_first(&mut disk);
    drop(disk);
    none_wrong(wrong?)
}

fn read_in_pieces(source: &mut MemSource) -> Option<usize> {
    let mut piece = [0; 9];
    let steps = [
        source.read(&mut piece) == Ok(1),
        source.read(&mut piece) == Ok(2),
        source.read(&mut piece) == Err(Failed),
        source.read(&mut piece) == Ok(1),
        piece[0] == b'd',
        source.read(&mut piece) == Ok(0),
        source.faults() == 1,
    ];
    first_wrong(&steps)
}

#[test]
fn a_read_ends_at_a_cut(rt: HostRuntime) -> Result<(), Fail> {
    let alloc = rt.alloc();
    let cuts = [3, 1].to_vec(alloc)?;
    let mut source = MemSource::new(text(alloc, b"abcd")?, cuts, [2].to_vec(alloc)?);
    let wrong = read_in_pieces(&mut source);
    drop(source);
    none_wrong(wrong)
}

fn filled(sink: &mut MemSink) -> Option<usize> {
    let steps = [
        sink.write(b"ab") == Ok(2),
        sink.write(b"cd") == Ok(1),
        sink.write(b"d") == Err(Failed),
        sink.taken() == b"abc".as_slice(),
        sink.faults() == 1,
    ];
    first_wrong(&steps)
}

#[test]
fn an_output_fails_when_it_is_full(rt: HostRuntime) -> Result<(), Fail> {
    let alloc = rt.alloc();
    let mut sink = MemSink::new(alloc, 3, Vec::new(alloc))?;
    let wrong = filled(&mut sink);
    drop(sink);
    none_wrong(wrong)
}

fn moved_both_ways(link: &mut MemLink) -> Option<usize> {
    let mut piece = [0; 9];
    let steps = [
        link.read(&mut piece) == Ok(2),
        link.write(b"xy") == Ok(2),
        link.read(&mut piece) == Err(Failed),
        link.read(&mut piece) == Ok(1),
        piece[0] == b'c',
        link.write(b"zz") == Ok(1),
        link.write(b"z") == Err(Failed),
        link.read(&mut piece) == Ok(0),
        link.taken() == b"xyz".as_slice(),
        link.faults() == 2,
    ];
    first_wrong(&steps)
}

#[test]
fn a_connection_moves_bytes_both_ways(rt: HostRuntime) -> Result<(), Fail> {
    let alloc = rt.alloc();
    let cuts = [2].to_vec(alloc)?;
    let failing = [2].to_vec(alloc)?;
    let mut link = MemLink::new(alloc, text(alloc, b"abc")?, cuts, 3, failing)?;
    let wrong = moved_both_ways(&mut link);
    drop(link);
    none_wrong(wrong)
}

fn link(alloc: Global, bytes: &[u8]) -> Result<MemLink, Memory>
    ensures { IfOk result IsUnusedLink }
{
    MemLink::new(
        alloc,
        text(alloc, bytes)?,
        Vec::new(alloc),
        4,
        Vec::new(alloc),
    )
}

// A link out of a door that has one, then a failed call, then the end.
fn gone_through(door: &mut MemDoor) -> Option<usize>
    requires { out_of door.old ≡ None }
{
    let Next::Joined(mut link) = door.next() else {
        return Some(0);
    };
    let took = link.write(b"c") == Ok(1);
    door.done(link);
    let Next::Failed = door.next() else {
        return Some(1);
    };
    let steps = [
        took,
        door.now() == 5,
        matches!(door.next(), Next::Closed),
        door.faults() == 1,
        has_taken(door.returned(), b"c"),
    ];
    first_wrong(&steps)
}

// Whether these are one link that took these bytes.
fn has_taken(links: &[MemLink], bytes: &[u8]) -> bool {
    match links {
        [link] => link.taken() == bytes,
        _ => false,
    }
}

#[test]
fn a_door_gives_its_links_and_closes(rt: HostRuntime) -> Result<(), Fail> {
    let alloc = rt.alloc();
    let links = one(alloc, link(alloc, b"ab")?)?;
    let clock = [5].to_vec(alloc)?;
    let mut door = MemDoor::new(alloc, links, clock, [1].to_vec(alloc)?)?;
    let wrong = gone_through(&mut door);
    drop(door);
    none_wrong(wrong)
}

fn asked_three_times(alloc: Global, lobby: &mut MemLobby) -> Option<usize> {
    let too_many = lobby.doors(alloc, "127.0.0.1:8080", 2).is_err();
    let Ok(doors) = lobby.doors(alloc, "127.0.0.1:8080", 1) else {
        return Some(0);
    };
    let again = lobby.doors(alloc, "127.0.0.1:8080", 1).is_err();
    let faults = lobby.faults();
    lobby.back(doors);
    let steps = [
        too_many,
        again,
        faults == 2,
        lobby.returned().len() == 1,
        lobby.faults() == 2,
    ];
    first_wrong(&steps)
}

#[test]
fn a_lobby_gives_all_its_doors_once(rt: HostRuntime) -> Result<(), Fail> {
    let alloc = rt.alloc();
    let door = MemDoor::new(alloc, Vec::new(alloc), Vec::new(alloc), Vec::new(alloc))?;
    let mut lobby = MemLobby::new(one(alloc, door)?, Vec::new(alloc), Vec::new(alloc));
    let wrong = asked_three_times(alloc, &mut lobby);
    drop(lobby);
    none_wrong(wrong)
}

// The faults of a lobby that gets a door back whose first call failed.
fn faults_behind(alloc: Global) -> Result<u64, Memory> {
    let mut door = MemDoor::new(alloc, Vec::new(alloc), Vec::new(alloc), [0].to_vec(alloc)?)?;
    drop(door.next());
    let mut lobby = MemLobby::new(Vec::new(alloc), Vec::new(alloc), Vec::new(alloc));
    lobby.back(one(alloc, door)?);
    let faults = lobby.faults();
    drop(lobby);
    Ok(faults)
}

#[test]
fn a_door_that_failed_is_counted_by_its_lobby(rt: HostRuntime) -> Result<(), Fail> {
    assert!(rt; faults_behind(rt.alloc())? == 1);
    Ok(())
}

#[test]
fn a_clock_shows_its_last_number_again(rt: HostRuntime) -> Result<(), Fail> {
    let alloc = rt.alloc();
    let mut lobby = MemLobby::new(Vec::new(alloc), [5, 7].to_vec(alloc)?, Vec::new(alloc));
    let shown = [lobby.now(), lobby.now(), lobby.now(), lobby.faults()];
    drop(lobby);
    let mut empty = MemLobby::new(Vec::new(alloc), Vec::new(alloc), Vec::new(alloc));
    let none = empty.now();
    drop(empty);
    assert!(rt; (shown, none) == ([5, 7, 7, 0], 0));
    Ok(())
}

// Whether a shelf gives a disk of so many bytes under a name.
fn gives(shelf: &mut MemShelf, name: &str, size: u64) -> bool {
    match shelf.take(name) {
        Ok(mut disk) => {
            let same = disk.len() == Ok(size);
            drop(disk);
            same
        }
        Err(Failed) => false,
    }
}

fn taken_from(shelf: &mut MemShelf) -> Option<usize> {
    let steps = [
        gives(shelf, "other", 0),
        gives(shelf, "known", 2),
        !gives(shelf, "known", 2),
        shelf.faults() == 1,
        has_names(shelf, &["other", "known", "known"]),
    ];
    first_wrong(&steps)
}

// Whether these names were asked of a shelf.
fn has_names(shelf: &MemShelf, names: &[&str]) -> bool {
    match shelf.taken() {
        Some(taken) => {
            taken.len() == names.len()
                && taken
                    .iter()
                    .zip(names)
                    .all(|(taken, name)| taken.as_str() == *name)
        }
        None => false,
    }
}

#[test]
fn an_unknown_name_gets_a_spare_disk(rt: HostRuntime) -> Result<(), Fail> {
    let alloc = rt.alloc();
    let known = MemDisk::new(alloc, text(alloc, b"ab")?, Vec::new(alloc), 1, 0)?;
    let spare = MemDisk::new(alloc, Vec::new(alloc), Vec::new(alloc), 1, 0)?;
    let disks = one(alloc, (String::from_str(alloc, "known")?, known))?;
    let mut shelf = MemShelf::new(disks, one(alloc, spare)?, Vec::new(alloc));
    let wrong = taken_from(&mut shelf);
    drop(shelf);
    none_wrong(wrong)
}

// Writes that wait: what is seen of them in the file and through the disk.
use crate::edge::files::path_of;
use crate::failing::{first_wrong, none_wrong};
use lrs_disk::{Disk, Failed, Shelf};
use lrs_edge::{FileDisk, FileShelf, WRITE_BEHIND};
use std::fs;
use std::os::unix::fs::MetadataExt;
use std::test::Fail;

// How many bytes the file of a name has, seen from outside.
fn size_of(rt: HostRuntime, name: &str) -> Option<u64> {
    match fs::metadata(&rt, name) {
        Ok(metadata) => Some(metadata.size()),
        Err(_) => None,
    }
}

// The write that makes the file doesn't wait. Later ones do, until they are read, counted, cut or synced, or until
// another comes elsewhere.
fn first_seen_wrongly(
    rt: HostRuntime,
    disk: &mut FileDisk<HostRuntime>,
    name: &str,
) -> Option<usize> {
    let mut read = [0; 4];
    let steps = [
        disk.write_at(0, b"a") == Ok(()) && size_of(rt, name) == Some(1),
        disk.write_at(1, b"bc") == Ok(()) && size_of(rt, name) == Some(1),
        disk.write_at(3, b"def") == Ok(()) && size_of(rt, name) == Some(1),
        disk.len() == Ok(6) && size_of(rt, name) == Some(6),
        disk.write_at(6, b"g") == Ok(()) && disk.write_at(7, b"h") == Ok(()),
        disk.read_at(4, &mut read) == Ok(4) && read == *b"efgh",
        disk.write_at(8, b"ij") == Ok(()) && size_of(rt, name) == Some(8),
        disk.write_at(8, b"I") == Ok(()) && size_of(rt, name) == Some(10),
        disk.write_at(4, b"E") == Ok(()) && disk.write_at(5, b"F") == Ok(()),
        disk.read_at(4, &mut read) == Ok(4) && read == *b"EFgh",
        disk.read_at(6, &mut read) == Ok(4) && read == *b"ghIj",
        disk.write_at(10, b"kl") == Ok(()) && disk.write_at(12, b"mn") == Ok(()),
        disk.cut(13) == Ok(()) && size_of(rt, name) == Some(13),
        disk.write_at(13, b"opq") == Ok(()) && disk.cut(11) == Ok(()),
        disk.len() == Ok(11) && disk.read_at(9, &mut read) == Ok(2),
        read == *b"jkIj",
        disk.write_at(11, b"L") == Ok(()) && disk.sync() == Ok(()),
        size_of(rt, name) == Some(12) && disk.sync() == Ok(()),
        size_of(rt, name) == Some(12) && disk.faults() == 0,
    ];
    first_wrong(&steps)
}

// Writes up to the end of the room, one more, and one that is larger than it.
fn first_of_room(rt: HostRuntime, disk: &mut FileDisk<HostRuntime>, name: &str) -> Option<usize> {
    const ROOM: u64 = WRITE_BEHIND as u64;
    const LARGER: [u8; WRITE_BEHIND + 1] = [7; WRITE_BEHIND + 1];
    let mut read = [0; 3];
    let steps = [
        disk.cut(0) == Ok(()) && disk.write_at(0, b"ab") == Ok(()),
        disk.write_at(2, &LARGER[3..]) == Ok(()) && size_of(rt, name) == Some(0),
        disk.write_at(ROOM, b"c") == Ok(()) && size_of(rt, name) == Some(ROOM),
        disk.write_at(ROOM.saturating_add(1), &LARGER) == Ok(()),
        size_of(rt, name) == Some(ROOM.saturating_mul(2).saturating_add(2)),
        disk.read_at(0, &mut read) == Ok(3) && read == *b"ab\x07",
        disk.read_at(ROOM.saturating_sub(1), &mut read) == Ok(3) && read == *b"\x07c\x07",
        disk.sync() == Ok(()) && disk.faults() == 0,
    ];
    first_wrong(&steps)
}

// What waits is written when the disk is dropped.
fn first_lost(
    rt: HostRuntime,
    shelf: &mut FileShelf<HostRuntime>,
    name: &str,
) -> Result<Option<usize>, Failed> {
    let mut disk = shelf.take(name)?;
    let waits = disk.cut(0) == Ok(()) && disk.write_at(0, b"end") == Ok(());
    let before = size_of(rt, name);
    drop(disk);
    Ok(first_wrong(&[waits, before == Some(0), size_of(rt, name) == Some(3)]))
}

fn first_unwritten(
    rt: HostRuntime,
    shelf: &mut FileShelf<HostRuntime>,
    name: &str,
) -> Result<Option<usize>, Failed> {
    let mut disk = shelf.take(name)?;
    let wrong = first_seen_wrongly(rt, &mut disk, name);
    drop(disk);
    Ok(wrong)
}

fn first_of_room_wrong(
    rt: HostRuntime,
    shelf: &mut FileShelf<HostRuntime>,
    name: &str,
) -> Result<Option<usize>, Failed> {
    let mut disk = shelf.take(name)?;
    let wrong = first_of_room(rt, &mut disk, name);
    drop(disk);
    Ok(wrong)
}

#[test]
fn small_writes_that_follow_one_another_are_written_at_once(rt: HostRuntime) -> Result<(), Fail> {
    let path = path_of(rt, "gathered")?;
    let name = path.as_path().as_str();
    let mut shelf = FileShelf::new(rt, 3)?;
    let written = first_unwritten(rt, &mut shelf, name);
    let room = first_of_room_wrong(rt, &mut shelf, name);
    let lost = first_lost(rt, &mut shelf, name);
    drop(shelf);
    let removed = fs::remove_file(&rt, name).is_ok();
    assert!(rt; removed);
    none_wrong(written?)?;
    none_wrong(room?)?;
    none_wrong(lost?)
}

// A file that takes nothing. The writes wait, so the call after them fails, and so does each later one.
fn first_untold(shelf: &mut FileShelf<HostRuntime>) -> Result<Option<usize>, Failed> {
    let mut disk = shelf.take("/dev/full")?;
    let steps = [
        disk.len() == Ok(0),
        disk.write_at(0, b"ab") == Ok(()),
        disk.write_at(2, b"c") == Ok(()) && disk.faults() == 0,
        disk.len().is_err() && disk.faults() == 1,
        disk.read_at(0, &mut [0; 2]).is_err() && disk.faults() == 2,
        disk.write_at(9, b"d").is_err() && disk.faults() == 3,
        disk.cut(1).is_err() && disk.faults() == 4,
        disk.sync().is_err() && disk.faults() == 5,
        disk.write_at(3, b"d") == Ok(()) && disk.faults() == 5,
        disk.len().is_err() && disk.faults() == 6,
    ];
    drop(disk);
    Ok(first_wrong(&steps))
}

#[test]
fn a_gathered_write_that_fails_fails_the_call_that_makes_it(rt: HostRuntime) -> Result<(), Fail> {
    let mut shelf = FileShelf::new(rt, 1)?;
    let wrong = first_untold(&mut shelf);
    drop(shelf);
    none_wrong(wrong?)
}

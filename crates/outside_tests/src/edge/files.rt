use crate::failing::{first_wrong, none_wrong, wrong_row};
use lrs_disk::{Disk, Failed, Shelf, Sink, Source};
use lrs_edge::{FileDisk, FileShelf, READ_AHEAD, StdSink, StdSource};
use lrs_journal::{Journal, Replay};
use std::alloc::Global;
use std::fs::{File, Permissions};
use std::os::unix::fs::{MetadataExt, PermissionsExt};
use std::path::PathBuf;
use std::test::Fail;
use std::{env, fs};

// A file of its own for a test, in the folder for temporary ones.
pub(crate) fn path_of(rt: HostRuntime, test: &str) -> Result<PathBuf, Fail> {
    let mut path = env::temp_dir(&rt)?;
    let process = std::process::id(rt.process());
    path.push(format!(in rt.alloc(); "kilnlime-lrs-edge-{process}-{test}")?.as_str())?;
    Ok(path)
}

fn is_written(disk: &mut FileDisk<HostRuntime>) -> bool {
    let steps = [
        disk.len() == Ok(0),
        disk.write_at(0, b"hello") == Ok(()),
        disk.write_at(5, b" you") == Ok(()),
        disk.cut(7) == Ok(()),
        disk.sync() == Ok(()),
        disk.faults() == 0,
    ];
    first_wrong(&steps).is_none()
}

fn is_read_again(disk: &mut FileDisk<HostRuntime>) -> bool {
    let mut read = [0; 9];
    let steps = [
        disk.len() == Ok(7),
        disk.read_at(1, &mut read) == Ok(6),
        read == *b"ello y\0\0\0",
        disk.faults() == 0,
    ];
    first_wrong(&steps).is_none()
}

fn is_empty(disk: &mut FileDisk<HostRuntime>) -> bool {
    let steps = [
        disk.len() == Ok(0),
        disk.read_at(0, &mut [0; 9]) == Ok(0),
        disk.sync() == Ok(()),
        disk.cut(0) == Ok(()),
        disk.faults() == 0,
    ];
    first_wrong(&steps).is_none()
}

// Whether the disk of a name can't be taken now.
fn is_taken(shelf: &mut FileShelf<HostRuntime>, name: &str) -> bool {
    match shelf.take(name) {
        Ok(disk) => {
            drop(disk);
            false
        }
        Err(_) => true,
    }
}

// Whether a file is there for its owner alone.
fn is_private(rt: HostRuntime, name: &str) -> bool {
    match fs::metadata(&rt, name) {
        Ok(metadata) => metadata.mode() & 0o777 == 0o600,
        Err(_) => false,
    }
}

// A new name: a look at it leaves no file, a write makes one, which is locked while its disk is there.
fn made(
    rt: HostRuntime,
    shelf: &mut FileShelf<HostRuntime>,
    name: &str,
) -> Result<Option<usize>, Failed> {
    let mut disk = shelf.take(name)?;
    let empty = is_empty(&mut disk);
    let absent = fs::metadata(&rt, name).is_err();
    let written = is_written(&mut disk);
    let taken = is_taken(shelf, name);
    drop(disk);
    Ok(first_wrong(&[
        empty,
        absent,
        written,
        taken,
        is_private(rt, name),
        shelf.faults() == 1,
    ]))
}

// The file that is there now. One that is made while its name is out as a missing one isn't written over.
fn kept(shelf: &mut FileShelf<HostRuntime>, name: &str) -> Result<Option<usize>, Failed> {
    let mut disk = shelf.take(name)?;
    let read = is_read_again(&mut disk);
    drop(disk);
    Ok(first_wrong(&[
        read,
        is_taken(shelf, "/no/such/folder"),
        shelf.faults() == 2,
    ]))
}

// Two disks of one name without a file: the first that is written makes it, and the other fails.
fn made_by_one(shelf: &mut FileShelf<HostRuntime>, name: &str) -> Result<Option<usize>, Failed> {
    let mut first = shelf.take(name)?;
    let steps = [
        made_by_other(shelf, name),
        first.write_at(0, b"mine").is_err(),
        first.faults() == 1,
    ];
    drop(first);
    Ok(first_wrong(&steps))
}

fn made_by_other(shelf: &mut FileShelf<HostRuntime>, name: &str) -> bool {
    match shelf.take(name) {
        Ok(mut disk) => {
            let written = disk.write_at(0, b"other") == Ok(());
            drop(disk);
            written
        }
        Err(_) => false,
    }
}

#[test]
fn a_file_is_made_when_it_is_written_and_has_one_user(rt: HostRuntime) -> Result<(), Fail> {
    let path = path_of(rt, "made")?;
    let mut shelf = FileShelf::new(rt, 2)?;
    let new = made(rt, &mut shelf, path.as_path().as_str());
    let again = kept(&mut shelf, path.as_path().as_str());
    drop(shelf);
    let removed = fs::remove_file(&rt, path.as_path().as_str()).is_ok();
    assert!(rt; removed);
    none_wrong(new?)?;
    match again? {
        None => Ok(()),
        // The steps of `kept` are counted from 10.
        Some(step) => wrong_row(step.saturating_add(10)),
    }
}

#[test]
fn a_file_that_was_made_meanwhile_is_left_alone(rt: HostRuntime) -> Result<(), Fail> {
    let path = path_of(rt, "meanwhile")?;
    let mut shelf = FileShelf::new(rt, 2)?;
    let wrong = made_by_one(&mut shelf, path.as_path().as_str());
    drop(shelf);
    let removed = fs::remove_file(&rt, path.as_path().as_str()).is_ok();
    assert!(rt; removed);
    none_wrong(wrong?)
}

// A file that others may read: it stays so while it is looked at, and is its owner's alone once its first byte is written.
fn left_to_its_owner(
    rt: HostRuntime,
    shelf: &mut FileShelf<HostRuntime>,
    name: &str,
) -> Result<Option<usize>, Failed> {
    let mut disk = shelf.take(name)?;
    let empty = disk.len() == Ok(0);
    let readable = !is_private(rt, name);
    let written = disk.write_at(0, b"\0") == Ok(());
    drop(disk);
    Ok(first_wrong(&[
        empty,
        readable,
        written,
        is_private(rt, name),
        shelf.faults() == 0,
    ]))
}

#[test]
fn a_file_that_was_there_is_left_to_its_owner(rt: HostRuntime) -> Result<(), Fail> {
    let path = path_of(rt, "readable")?;
    let file = File::create(&rt, path.as_path().as_str())?;
    file.set_permissions(Permissions::from_mode(0o644))?;
    drop(file);
    let mut shelf = FileShelf::new(rt, 1)?;
    let wrong = left_to_its_owner(rt, &mut shelf, path.as_path().as_str());
    drop(shelf);
    let removed = fs::remove_file(&rt, path.as_path().as_str()).is_ok();
    assert!(rt; removed);
    none_wrong(wrong?)
}

// Reads of what was read ahead before, and of what changed since.
fn first_outdated(disk: &mut FileDisk<HostRuntime>) -> Option<usize> {
    let mut read = [0; 4];
    let steps = [
        disk.write_at(0, b"abcdef") == Ok(()),
        disk.read_at(1, &mut read) == Ok(4),
        read == *b"bcde",
        disk.write_at(2, b"CD") == Ok(()),
        disk.read_at(0, &mut read) == Ok(4),
        read == *b"abCD",
        disk.read_at(3, &mut read) == Ok(3),
        read == *b"DefD",
        disk.cut(4) == Ok(()),
        disk.read_at(2, &mut read) == Ok(2),
        read == *b"CDfD",
        disk.read_at(9, &mut read) == Ok(0),
        disk.sync() == Ok(()),
        disk.moment() == 9,
        disk.faults() == 0,
    ];
    first_wrong(&steps)
}

fn first_unseen(shelf: &mut FileShelf<HostRuntime>, name: &str) -> Result<Option<usize>, Failed> {
    let mut disk = shelf.take(name)?;
    let wrong = first_outdated(&mut disk);
    drop(disk);
    Ok(wrong)
}

#[test]
fn a_read_shows_what_was_written_since_the_last_one(rt: HostRuntime) -> Result<(), Fail> {
    let path = path_of(rt, "since")?;
    let mut shelf = FileShelf::new(rt, 1)?;
    let wrong = first_unseen(&mut shelf, path.as_path().as_str());
    drop(shelf);
    let removed = fs::remove_file(&rt, path.as_path().as_str()).is_ok();
    assert!(rt; removed);
    none_wrong(wrong?)
}

// An open header of limit 2^20, and an open gate.
const FRONT: [u8; 18] = [1, 76, 82, 83, 74, 82, 78, 76, 2, 0, 0, 0, 0, 0, 16, 0, 0, 1];

// The frames after the first.
const FRAMES: [&str; 2] = ["hi", "abc"];

// Their bytes, and a closed gate.
const REST: [u8; 32] = [
    1, 0, 0, 0, 2, 0, 0, 0, 0, 0, 0, 0, 1, 104, 105, 1, 0, 0, 0, 3, 0, 0, 0, 0, 0, 0, 0, 2, 97, 98,
    99, 0,
];

// A store whose first payload is so many bytes of 7.
fn store_of(alloc: Global, size: usize) -> Result<Vec<u8>, Fail> {
    let length = (size as u64).to_be_bytes();
    let mut bytes = FRONT.to_vec(alloc)?;
    bytes.extend_from_slice(&length[4..])?;
    bytes.extend_from_slice(&[0; 8])?;
    bytes.resize(size.saturating_add(30), 7)?;
    bytes.extend_from_slice(&REST)?;
    Ok(bytes)
}

// Whether a replay of such a store reads each frame, and then the end.
fn reads_all(alloc: Global, replay: &mut Replay<FileDisk<HostRuntime>>, size: usize) -> bool {
    let mut payload = Vec::new(alloc);
    let first = replay.next(&mut payload);
    if first != Ok(true) || payload.len() != size || payload.iter().any(|byte| *byte != 7) {
        return false;
    }
    for frame in FRAMES.iter() {
        let more = replay.next(&mut payload);
        if more != Ok(true) || payload.as_slice() != frame.as_bytes() {
            return false;
        }
    }
    replay.next(&mut payload) == Ok(false)
}

fn is_read_whole(
    alloc: Global,
    shelf: &mut FileShelf<HostRuntime>,
    name: &str,
    size: usize,
) -> Result<bool, Fail> {
    let bytes = store_of(alloc, size)?;
    let mut disk = shelf.take(name)?;
    let written = disk.cut(0) == Ok(()) && disk.write_at(0, &bytes) == Ok(());
    match Journal::recover(disk) {
        Ok(mut replay) => {
            let read = reads_all(alloc, &mut replay, size);
            drop(replay);
            Ok(written && read)
        }
        Err((_, disk)) => {
            drop(disk);
            Ok(false)
        }
    }
}

// The first size with which a store is misread. For each byte after the first payload there is a store of which this
// byte is the first that isn't read ahead, and then one of which the next piece ends before it. The last three payloads
// are longer than a piece.
fn first_misread(
    alloc: Global,
    shelf: &mut FileShelf<HostRuntime>,
    name: &str,
) -> Result<Option<usize>, Fail> {
    for size in READ_AHEAD.saturating_sub(62)..READ_AHEAD.saturating_add(4) {
        if !is_read_whole(alloc, shelf, name, size)? {
            return Ok(Some(size));
        }
    }
    Ok(None)
}

#[test]
fn frames_that_cross_the_end_of_what_is_read_ahead_are_whole(rt: HostRuntime) -> Result<(), Fail> {
    let path = path_of(rt, "ahead")?;
    let mut shelf = FileShelf::new(rt, 66)?;
    let wrong = first_misread(rt.alloc(), &mut shelf, path.as_path().as_str());
    drop(shelf);
    let removed = fs::remove_file(&rt, path.as_path().as_str()).is_ok();
    assert!(rt; removed);
    none_wrong(wrong?)
}

#[test]
fn streams_pass_bytes_on(rt: HostRuntime) -> Result<(), Fail> {
    let mut source = StdSource::new(b"abc".as_slice());
    let mut read = [0; 2];
    let mut sink = StdSink::new(rt.stdout());
    let steps = [
        source.read(&mut read) == Ok(2),
        read == *b"ab",
        source.read(&mut read) == Ok(1),
        source.read(&mut read) == Ok(0),
        sink.write(b"\n") == Ok(1),
        source.faults() == 0,
        sink.faults() == 0,
    ];
    none_wrong(first_wrong(&steps))
}

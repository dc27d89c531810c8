//! What `migrate` prints and leaves of the two files, also if it is stopped at any moment or a disk fails.
//
// A row is what the file `s` holds, what the file `new` holds, the call that fails or `-`, and the words; after `=>` stand
// the status, the number of entries, the line, and what becomes of `new`:
//
//   OLD | NEW | FAULT | WORDS => STATUS ENTRIES LINE | LEFT
//
// FAULT is a call of a file's disk, as `s:0` or `new:0`, or `room:` and how many bytes the output takes. LEFT is what `new`
// holds then, `same` if it is what it was, `shut` if it begins with a closed gate, `only old` if `new` wasn't taken, and
// `none` if no file was. What a file holds is told word by word:
//
//   none           nothing
//   1/65536        the header of a store, with its version and its limit
//   found          a frame of the founding entry; `taken` of a statement that was taken in, `brace` of no entry. `found@2`
//                  has the number 2, and not that of its place
//   +7             a byte
//   -2             so many bytes less
//   ^0             the first byte is another
use crate::runs::{Around, Ran, run_over};
use lrs_disk::Disk;
use lrs_in_memory::{MemDisk, Pending};
use std::alloc::Global;
use std::slice::from_ref;
use std::sync::Wait;
use std::test::Fail;
use std::thread::Threads;

const FOUNDING: &str =
    r#"{"caller":"*","moment":1700000000000,"draw":"0000000000000000000000000000000000000000000000000000000000000000","command":{"found":{"admin":"adminadmin","base":"http://127.0.0.1:8080/"}}}"#;

const TAKEN_IN: &str =
    r#"{"caller":"*","moment":1700000000000,"draw":"0000000000000000000000000000000000000000000000000000000000000000","command":{"put":{"id":"11111111-1111-4111-8111-111111111111","statement":{"id":"11111111-1111-4111-8111-111111111111","actor":{"mbox":"mailto:a@b"},"verb":{"id":"http://v/1"},"object":{"id":"http://a/1"}}}}}"#;

// Adds a frame, with its number unless the header is of the old format.
fn add_frame(file: &mut Vec<u8>, number: u64, name: &str) -> Result<(), Fail> {
    let payload = match name {
        "found" => FOUNDING,
        "taken" => TAKEN_IN,
        _ => "{}",
    };
    let length = (payload.len() as u64).to_be_bytes();
    let is_old = file.get(8) == Some(&1);
    file.push(1)?;
    file.extend_from_slice(&length[4..])?;
    if !is_old {
        file.extend_from_slice(&number.to_be_bytes())?;
    }
    file.extend_from_slice(payload.as_bytes())?;
    Ok(())
}

fn add_header(file: &mut Vec<u8>, version: u8, limit: u64) -> Result<(), Fail> {
    file.extend_from_slice(b"\x01LRSJRNL")?;
    file.push(version)?;
    file.extend_from_slice(&limit.to_be_bytes())?;
    Ok(())
}

fn cut(file: &mut Vec<u8>, count: u64) {
    let size = file.len().saturating_sub(count as usize);
    file.truncate(size);
}

fn begin_with(file: &mut Vec<u8>, byte: u8) {
    if let Some(first) = file.get_mut(0) {
        *first = byte;
    }
}

// Does to a file what its word of this number says.
fn apply(file: &mut Vec<u8>, index: usize, word: &str) -> Result<(), Fail> {
    if let Some((version, limit)) = word.split_once('/') {
        add_header(file, version.parse::<u8>()?, limit.parse::<u64>()?)
    } else if let Some((name, number)) = word.split_once('@') {
        add_frame(file, number.parse::<u64>()?, name)
    } else if let Some(byte) = word.strip_prefix("+") {
        Ok(file.push(byte.parse::<u8>()?)?)
    } else if let Some(count) = word.strip_prefix("-") {
        Ok(cut(file, count.parse::<u64>()?))
    } else if let Some(byte) = word.strip_prefix("^") {
        Ok(begin_with(file, byte.parse::<u8>()?))
    } else if word == "none" {
        Ok(())
    } else {
        add_frame(file, (index as u64).saturating_sub(1), word)
    }
}

fn file_of(alloc: Global, words: &str) -> Result<Vec<u8>, Fail> {
    let mut file = Vec::new(alloc);
    for (index, word) in words.split(' ').enumerate() {
        apply(&mut file, index, word)?;
    }
    Ok(file)
}

const ROWS: &str =
    r#"1/65536 found +0 | none | - | migrate s new => 0 1 migrated 1 | 2/65536 found +0
1/65536 found +0 | 2/65536 found +0 | - | migrate s new => 4 0 already a store | same
1/65536 found +0 | 1/65536 found +0 | - | migrate s new => 4 0 already a store | same
2/65536 found +0 | none | - | migrate s new --limit 512 => 0 1 migrated 1 | 2/512 found +0
1/65536 found +0 | none | - | migrate s s => 1 0 usage | none
none | none | - | migrate s new => 2 0 not a store | same
none | 2/65536 found +0 | - | migrate s new => 2 0 not a store | same
none | +0 +0 +0 +24 | - | migrate s new => 2 0 not a store | same
1/65536 found +0 | +97 +32 | - | migrate s new => 2 0 not a store | same
1/65536 | none | - | migrate s new => 3 0 damaged 0 | shut
1/65536 found taken -1 | none | - | migrate s new => 3 0 damaged 1 | shut
1/65536 found brace +0 | none | - | migrate s new => 3 0 damaged 1 | shut
2/65536 found taken@2 +0 | none | - | migrate s new => 3 0 damaged 1 | shut
1/533 found taken +0 | none | - | migrate s new => 12 0 full 549 533 | shut
1/533 found taken +0 | none | - | migrate s new --limit 548 => 12 0 full 549 548 | shut
1/533 found taken +0 | none | - | migrate s new --limit 549 => 0 2 migrated 2 | 2/549 found taken +0
2/533 found taken +0 | none | - | migrate s new => 12 0 full 549 533 | shut
2/533 found taken +0 | none | - | intake s => 3 0 damaged 1 | 2/533 found taken +0
1/65536 found +0 | none | room:3 | migrate s new => 7 1 mig | 2/65536 found +0
1/65536 found +0 | none | s:0 | migrate s new => 5 0 disk fault | same
1/65536 found +0 | none | - | migrate none new => 5 0 disk fault | none
1/65536 found +0 | none | - | migrate s none => 5 0 disk fault | only old
"#;

// What is around a run over these files with this fault.
fn around<'a>(old: &'a [u8], new: &'a [u8], fault: &str, number: &'a u64) -> Around<'a> {
    let calm = Around {
        new,
        ..Around::calm(old, "{", &[])
    };
    match fault {
        "s" => Around {
            disk_fails: from_ref(number),
            ..calm
        },
        "new" => Around {
            new_fails: from_ref(number),
            ..calm
        },
        "room" => Around {
            room: (*number).min(64) as usize,
            ..calm
        },
        _ => calm,
    }
}

// What became of the files.
fn left(ran: &Ran, old: &[u8], new: &[u8], expected: &[u8]) -> &'static str {
    if let Some(disk) = ran.olds.first() {
        if disk.bytes() != old {
            return "other old";
        }
    }
    match ran.file() {
        None if ran.olds.is_empty() => "none",
        None => "only old",
        Some(file) if file == expected => "expected",
        Some(file) if file == new => "same",
        Some(file) if file.first() == Some(&0) => "shut",
        Some(_) => "other new",
    }
}

// What is told of a run over these files. What `new` should hold then is told as it is expected.
fn told(alloc: Global, ran: &Ran, old: &[u8], new: &[u8], expected: &str) -> Result<String, Fail> {
    let holds = file_of(alloc, expected)?;
    let printed = str::from_utf8(ran.printed.as_slice())?;
    let line = printed.strip_suffix('\n').unwrap_or(printed);
    let (status, length) = (ran.status, ran.length);
    let left = match left(ran, old, new, holds.as_slice()) {
        "expected" => expected,
        other => other,
    };
    Ok(format!(in alloc; "{status} {length} {line} | {left}")?)
}

// Fails if something else is told of these words over these files than is expected.
fn check_words<R: Threads + Wait + Sync>(
    rt: &R,
    alloc: Global,
    files: (&[u8], &[u8]),
    fault: &str,
    words: &str,
    expected: &str,
) -> Result<(), Fail> {
    let (old, new) = files;
    let (kind, number) = fault.split_once(':').unwrap_or((fault, "0"));
    let number = number.parse::<u64>()?;
    let ran = run_over(rt, alloc, words, &around(old, new, kind, &number))?;
    let (_, holds) = expected.split_once(" | ").unwrap_or(("", ""));
    let found = told(alloc, &ran, old, new, holds);
    drop(ran);
    let found = found?;
    if found.as_str() == expected {
        Ok(())
    } else {
        Err(Fail::from(format!(in alloc; "{words} => {found}, not {expected}")?))
    }
}

fn check_row<R: Threads + Wait + Sync>(rt: &R, alloc: Global, row: &str) -> Result<(), Fail> {
    let (asked, expected) = row.split_once(" => ").unwrap_or((row, ""));
    let (old, rest) = asked.split_once(" | ").unwrap_or((asked, ""));
    let (new, rest) = rest.split_once(" | ").unwrap_or((rest, ""));
    let (fault, words) = rest.split_once(" | ").unwrap_or((rest, ""));
    let old = file_of(alloc, old)?;
    let new = file_of(alloc, new)?;
    check_words(
        rt,
        alloc,
        (old.as_slice(), new.as_slice()),
        fault,
        words,
        expected,
    )
}

#[test]
fn a_store_is_moved_or_said_why_not(rt: HostRuntime) -> Result<(), Fail> {
    for row in ROWS.lines() {
        check_row(&rt, rt.alloc(), row)?;
    }
    Ok(())
}

const MIGRATE: &str = "migrate s new";

const PENDING: [Pending; 6] = [
    Pending::Lost,
    Pending::Landed,
    Pending::Torn(0),
    Pending::Torn(1),
    Pending::Torn(2),
    Pending::Torn(255),
];

// Whether a move into what a stop left makes the whole store, or says that it is there, and it is.
fn is_moved_again<R: Threads + Wait + Sync>(
    rt: &R,
    alloc: Global,
    old: &[u8],
    image: &[u8],
    whole: &[u8],
) -> Result<bool, Fail> {
    let ran = run_over(rt, alloc, MIGRATE, &around(old, image, "", &0))?;
    let is_well = match ran.status {
        0 => ran.leaves(whole),
        4 => image == whole,
        _ => false,
    };
    drop(ran);
    Ok(is_well)
}

// Fails with the first moment of this disk, from this one on, at which a stop leaves something else.
fn check_moments<R: Threads + Wait + Sync>(
    rt: &R,
    alloc: Global,
    files: (&[u8], &[u8], &[u8]),
    disk: &MemDisk,
    from: u64,
) -> Result<(), Fail> {
    let (old, _, whole) = files;
    for moment in from..disk.moment().saturating_add(1) {
        for pending in PENDING.iter() {
            let image = disk.image(moment.min(disk.moment()), *pending)?;
            if !is_moved_again(rt, alloc, old, image.as_slice(), whole)? {
                return Err(Fail::from(format!(in alloc; "moment {moment}, {pending:?}")?));
            }
        }
    }
    Ok(())
}

// How many calls failed on the disks of a run.
fn faults(ran: &Ran) -> u64 {
    match (ran.olds.first(), ran.disk()) {
        (Some(old), Some(new)) => old.faults().saturating_add(new.faults()),
        _ => 0,
    }
}

// Whether a move fails of which this call fails. It has to say so just where a disk failed. The old file has to be as
// it was, and a stop has to leave what it may: at any moment, and after a fault, before which all is as without one, at
// the end.
fn fails<R: Threads + Wait + Sync>(
    rt: &R,
    alloc: Global,
    files: (&[u8], &[u8], &[u8]),
    fault: &str,
    call: u64,
) -> Result<bool, Fail> {
    let (old, new, whole) = files;
    let ran = run_over(rt, alloc, MIGRATE, &around(old, new, fault, &call))?;
    let fails = ran.ends(5, "disk fault\n");
    let is_told = fails == (faults(&ran) > 0) && left(&ran, old, new, whole) != "other old";
    let checked = match ran.disk() {
        Some(disk) if fails => check_moments(rt, alloc, files, disk, disk.moment()),
        Some(disk) => check_moments(rt, alloc, files, disk, 0),
        None => Err(Fail::from("no disk")),
    };
    drop(ran);
    checked?;
    if is_told {
        Ok(fails)
    } else {
        Err(Fail::from(format!(in alloc; "call {call} of {fault}")?))
    }
}

// Each call of this file's disk may fail, and there are some. After them a run fails no more.
fn check_calls<R: Threads + Wait + Sync>(
    rt: &R,
    alloc: Global,
    files: (&[u8], &[u8], &[u8]),
    fault: &str,
) -> Result<(), Fail> {
    for call in 0..64 {
        if !fails(rt, alloc, files, fault, call)? {
            return if call == 0 {
                Err(Fail::from("no call fails"))
            } else {
                Ok(())
            };
        }
    }
    Err(Fail::from("no run ends well"))
}

// What the new file holds before: nothing, a byte, a store that was stopped in the making.
const STARTED: [&str; 3] = ["none", "+1", "1/65536 found taken found taken +0 ^0"];

#[test]
fn a_stop_in_migrate_leaves_no_store_or_the_whole(rt: HostRuntime) -> Result<(), Fail> {
    let alloc = rt.alloc();
    let old = file_of(alloc, "1/65536 found taken +0")?;
    let whole = file_of(alloc, "2/65536 found taken +0")?;
    for words in STARTED.iter() {
        let new = file_of(alloc, words)?;
        let files = (old.as_slice(), new.as_slice(), whole.as_slice());
        check_calls(&rt, alloc, files, "s")?;
        check_calls(&rt, alloc, files, "new")?;
    }
    Ok(())
}

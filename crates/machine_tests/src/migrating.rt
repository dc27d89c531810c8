// Moving a store into another file, and what is left if that is stopped at any moment or a disk fails.
//
// A row is what the old file holds, what the new one holds, and the limit or `own`; after `=>` stands what the new one
// holds then, or why there is no store:
//
//   OLD | NEW | LIMIT => ANSWER
//
// What a file holds is told word by word:
//
//   none           nothing
//   1/65536        the header of a store, with its version and its limit
//   found          a frame of the founding entry; `first` and `second` of a statement each, `brace` of no entry. `first@2`
//                  has the number 2, and not that of its place
//   +7             a byte
//   -2             so many bytes less
//   ^0             the first byte is another
use lrs_disk::Disk;
use lrs_in_memory::{MemDisk, Pending};
use lrs_machine::{Desk, MigrateRefused, Migrated};
use std::alloc::Global;
use std::test::Fail;

const FOUNDING: &str =
    r#"{"caller":"*","moment":1700000000000,"draw":"0000000000000000000000000000000000000000000000000000000000000000","command":{"found":{"admin":"adminadmin","base":"http://127.0.0.1:8080/"}}}"#;

const FIRST: &str =
    r#"{"caller":"adminadmin","moment":1700000000000,"draw":"0000000000000000000000000000000000000000000000000000000000000000","command":{"put":{"id":"11111111-1111-4111-8111-111111111111","statement":{"id":"11111111-1111-4111-8111-111111111111","actor":{"mbox":"mailto:a@b"},"verb":{"id":"http://v/1"},"object":{"id":"http://a/1"}}}}}"#;

const SECOND: &str =
    r#"{"caller":"adminadmin","moment":1700000000000,"draw":"0000000000000000000000000000000000000000000000000000000000000000","command":{"put":{"id":"22222222-2222-4222-8222-222222222222","statement":{"id":"22222222-2222-4222-8222-222222222222","actor":{"mbox":"mailto:a@b"},"verb":{"id":"http://v/1"},"object":{"id":"http://a/1"}}}}}"#;

// Adds a frame, with its number unless the header is of the old format.
fn add_frame(file: &mut Vec<u8>, number: u64, name: &str) -> Result<(), Fail> {
    let payload = match name {
        "found" => FOUNDING,
        "first" => FIRST,
        "second" => SECOND,
        _ => "{}",
    };
    let length = (payload.len() as u64).to_be_bytes();
    let is_old = file.get(8) == Some(&1);
    file.push(1)?;
    file.extend_from_slice(&length[4..])?;
    if !is_old {
        file.extend_from_slice(&number.to_be_bytes())?;
    }
    file.extend_from_slice(payload.as_bytes())?;
    Ok(())
}

fn add_header(file: &mut Vec<u8>, version: u8, limit: u64) -> Result<(), Fail> {
    file.extend_from_slice(b"\x01LRSJRNL")?;
    file.push(version)?;
    file.extend_from_slice(&limit.to_be_bytes())?;
    Ok(())
}

fn cut(file: &mut Vec<u8>, count: u64) {
    let size = file.len().saturating_sub(count as usize);
    file.truncate(size);
}

fn replace_byte(file: &mut Vec<u8>, index: usize, byte: u8) {
    if let Some(found) = file.get_mut(index) {
        *found = byte;
    }
}

// Does to a file what its word of this number says.
fn apply(file: &mut Vec<u8>, index: usize, word: &str) -> Result<(), Fail> {
    if let Some((version, limit)) = word.split_once('/') {
        add_header(file, version.parse::<u8>()?, limit.parse::<u64>()?)
    } else if let Some((name, number)) = word.split_once('@') {
        add_frame(file, number.parse::<u64>()?, name)
    } else if let Some(byte) = word.strip_prefix("+") {
        Ok(file.push(byte.parse::<u8>()?)?)
    } else if let Some(count) = word.strip_prefix("-") {
        Ok(cut(file, count.parse::<u64>()?))
    } else if let Some(byte) = word.strip_prefix("^") {
        Ok(replace_byte(file, 0, byte.parse::<u8>()?))
    } else if word == "none" {
        Ok(())
    } else {
        add_frame(file, (index as u64).saturating_sub(1), word)
    }
}

fn file_of(alloc: Global, words: &str) -> Result<Vec<u8>, Fail> {
    let mut file = Vec::new(alloc);
    for (index, word) in words.split(' ').enumerate() {
        apply(&mut file, index, word)?;
    }
    Ok(file)
}

// What moving a store came to, and the two disks then.
#[derive(Drop)]
struct Outcome {
    refused: Option<MigrateRefused>,
    old: MemDisk,
    new: MemDisk,
}

// A disk of which this call fails.
fn disk_of(alloc: Global, bytes: &[u8], call: u64) -> Result<MemDisk, Fail> {
    let failing = vec![in alloc; call]?;
    Ok(MemDisk::new(alloc, bytes.to_vec(alloc)?, failing, 99, 65_536)?)
}

// Without a limit that a store may have, it is the old one's.
fn moved(alloc: Global, old: MemDisk, new: MemDisk, limit: u64) -> Outcome {
    let limit = if limit < 512 || limit > 1_073_741_824 {
        None
    } else {
        Some(limit)
    };
    match Desk::migrate(alloc, old, new, limit) {
        Ok(Migrated { desk, old }) => {
            let new = match desk.close() {
                Ok(new) => new,
                Err((_, new)) => new,
            };
            Outcome {
                refused: None,
                old,
                new,
            }
        }
        Err((refused, old, new)) => Outcome {
            refused: Some(refused),
            old,
            new,
        },
    }
}

fn told(alloc: Global, refused: MigrateRefused) -> Result<String, Fail> {
    match refused {
        MigrateRefused::NotAStore => Ok(String::from_str(alloc, "not a store")?),
        MigrateRefused::AlreadyStore => Ok(String::from_str(alloc, "already a store")?),
        MigrateRefused::Foreign => Ok(String::from_str(alloc, "foreign")?),
        MigrateRefused::Damaged { k } => Ok(format!(in alloc; "damaged {k}")?),
        MigrateRefused::IllegalEntry { k } => Ok(format!(in alloc; "illegal {k}")?),
        MigrateRefused::Full { need, limit } => Ok(format!(in alloc; "full {need} {limit}")?),
        MigrateRefused::Failed => Ok(String::from_str(alloc, "failed")?),
        MigrateRefused::Memory => Ok(String::from_str(alloc, "memory")?),
    }
}

// Whether a refusal left what it may: what was there, where no store may be made, and else no open header.
fn is_left(refused: MigrateRefused, before: &[u8], after: &[u8]) -> bool {
    match refused {
        MigrateRefused::NotAStore | MigrateRefused::AlreadyStore | MigrateRefused::Foreign => {
            after == before
        }
        _ => after == before || after.first() == Some(&0),
    }
}

// What is found in place of this answer, if the files are what they should be then.
fn found(
    alloc: Global,
    moved: &Outcome,
    old: &[u8],
    new: &[u8],
    expected: &str,
) -> Result<String, Fail> {
    let whole = file_of(alloc, expected)?;
    let after = moved.new.bytes();
    match moved.refused {
        _ if moved.old.bytes() != old => Ok(String::from_str(alloc, "another old file")?),
        None if after == whole.as_slice() => Ok(String::from_str(alloc, expected)?),
        None => Ok(String::from_str(alloc, "another new file")?),
        Some(refused) if is_left(refused, new, after) => told(alloc, refused),
        Some(_) => Ok(String::from_str(alloc, "an open header")?),
    }
}

// Fails with what is found in place of this answer to what is asked.
fn check(
    alloc: Global,
    asked: &str,
    old: &[u8],
    new: &[u8],
    limit: u64,
    expected: &str,
) -> Result<(), Fail> {
    let before = disk_of(alloc, old, 99)?;
    let moved = moved(alloc, before, disk_of(alloc, new, 99)?, limit);
    let found = found(alloc, &moved, old, new, expected);
    drop(moved);
    let found = found?;
    if found.as_str() == expected {
        Ok(())
    } else {
        Err(Fail::from(format!(in alloc; "{asked} => {found}")?))
    }
}

const ROWS: &str = r#"1/65536 found first second +0 | none | own => 2/65536 found first second +0
1/65536 found first second +0 +9 +9 | none | own => 2/65536 found first second +0
1/65536 found first second +0 +1 | none | own => 2/65536 found first second +0
1/65536 found first second | none | own => 2/65536 found first second +0
1/65536 found first second +7 +7 | none | own => 2/65536 found first second +0
1/65536 found first second +1 | none | own => 2/65536 found first second +0
2/65536 found first second +0 | none | own => 2/65536 found first second +0
2/65536 found first second +0 +9 +9 | none | own => 2/65536 found first second +0
2/65536 found first second | none | own => 2/65536 found first second +0
2/65536 found first second +1 | none | own => 2/65536 found first second +0
1/65536 found first second +1 +9 | none | own => damaged 3
2/65536 found first second +1 +9 | none | own => damaged 3
1/65536 | none | own => illegal 0
1/65536 +1 | none | own => illegal 0
2/65536 +1 | none | own => illegal 0
none | none | own => not a store
1/65536 -1 | none | own => not a store
1/65536 found +0 ^0 | none | own => not a store
2/65536 found +0 ^7 | none | own => not a store
1/511 found +0 | none | 65536 => not a store
1/512 found +0 | none | own => 2/512 found +0
1/1073741824 found +0 | none | own => 2/1073741824 found +0
1/1073741825 found +0 | none | 65536 => not a store
2/511 found +0 | none | 65536 => not a store
2/1073741825 found +0 | none | 65536 => not a store
1/65536 found brace second +0 | none | own => illegal 1
1/65536 brace +0 | none | own => illegal 0
1/65536 first second +0 | none | own => illegal 0
1/65536 found found +0 | none | own => illegal 1
1/65536 found first first second +0 | none | own => illegal 2
2/65536 found first first second +0 | none | own => illegal 2
2/65536 found first first@1 second@2 +0 | none | own => damaged 2
2/65536 first@1 second@2 +0 | none | own => damaged 0
1/65536 found second first +0 | none | own => 2/65536 found second first +0
2/65536 found second first +0 | none | own => 2/65536 found second first +0
2/65536 found second@2 first@1 +0 | none | own => damaged 1
1/65536 found first second +0 | none | 557 => full 558 557
1/65536 found first second +0 | none | 558 => full 899 558
1/65536 found first second +0 | none | 898 => full 899 898
1/65536 found first second +0 | none | 899 => 2/899 found first second +0
2/65536 found first second +0 | none | 557 => full 558 557
2/65536 found first second +0 | none | 898 => full 899 898
2/65536 found first second +0 | none | 899 => 2/899 found first second +0
1/65536 found first second -1 | none | 557 => full 558 557
1/65536 found first second -1 | none | 558 => damaged 2
1/65536 found first first +0 | none | 558 => illegal 2
1/512 found first second +0 | none | own => full 558 512
1/512 found first second +0 | none | 65536 => 2/65536 found first second +0
2/512 found first second +0 | none | own => full 558 512
2/512 found first second +0 | none | 65536 => 2/65536 found first second +0
1/65536 found first +0 | +0 | own => 2/65536 found first +0
1/65536 found first +0 | +1 | own => 2/65536 found first +0
1/65536 found first +0 | +255 | own => 2/65536 found first +0
1/65536 found first +0 | +0 +0 +0 +24 +102 +116 +121 +112 | own => 2/65536 found first +0
1/65536 found first +0 | 2/65536 found ^0 | own => 2/65536 found first +0
1/65536 found first +0 | 1/65536 found first second +0 ^0 | own => 2/65536 found first +0
1/65536 found first +0 | 2/65536 found ^7 | own => 2/65536 found first +0
1/65536 found first +0 | 1/65536 found ^7 | own => 2/65536 found first +0
1/65536 found first +0 | 2/65536 found +0 | own => already a store
1/65536 found first +0 | 1/65536 found +0 | own => already a store
1/65536 found first +0 | 3/65536 -9 | own => already a store
1/65536 found first +0 | +97 +32 +116 +101 +120 +116 | own => foreign
none | 2/65536 found +0 | own => not a store
none | +0 +0 +0 +24 +102 +116 +121 +112 | own => not a store
none | +97 +32 | own => not a store
1/65536 | 2/65536 found +0 | own => already a store
1/65536 | +97 +32 | own => foreign
"#;

// The limit that this says, or 0 for none.
fn limit_of(word: &str) -> Result<u64, Fail> {
    match word {
        "own" => Ok(0),
        _ => Ok(word.parse::<u64>()?),
    }
}

fn check_row(alloc: Global, row: &str) -> Result<(), Fail> {
    let (asked, expected) = row.split_once(" => ").unwrap_or((row, ""));
    let (old, rest) = asked.split_once(" | ").unwrap_or((asked, ""));
    let (new, limit) = rest.split_once(" | ").unwrap_or((rest, ""));
    let old = file_of(alloc, old)?;
    let new = file_of(alloc, new)?;
    check(
        alloc,
        asked,
        old.as_slice(),
        new.as_slice(),
        limit_of(limit)?,
        expected,
    )
}

#[test]
fn a_store_is_moved_or_said_why_not(rt: HostRuntime) -> Result<(), Fail> {
    for row in ROWS.lines() {
        check_row(rt.alloc(), row)?;
    }
    Ok(())
}

// The first lengths of a store of two frames, in each format, from which on its front gives this. The longest ones are
// first.
const FRONTS: [(usize, usize, &str); 6] = [
    (541, 557, "2/65536 found first +0"),
    (210, 218, "damaged 1"),
    (208, 216, "2/65536 found +0"),
    (19, 19, "damaged 0"),
    (17, 17, "illegal 0"),
    (0, 0, "not a store"),
];

// What so many bytes of a store give.
fn expected_of_front(is_old: bool, length: usize) -> &'static str {
    for (one, two, answer) in FRONTS.iter() {
        let first = if is_old { *one } else { *two };
        if first <= length {
            return answer;
        }
    }
    ""
}

fn check_fronts(alloc: Global, is_old: bool, store: &[u8]) -> Result<(), Fail> {
    for length in 0..store.len().saturating_add(1) {
        let front = &store[..length.min(store.len())];
        check(
            alloc,
            "a front",
            front,
            &[],
            0,
            expected_of_front(is_old, length),
        )?;
    }
    Ok(())
}

#[test]
fn a_store_that_was_cut_is_moved_up_to_there_or_damaged(rt: HostRuntime) -> Result<(), Fail> {
    let alloc = rt.alloc();
    let old = file_of(alloc, "1/65536 found first +0")?;
    check_fronts(alloc, true, old.as_slice())?;
    let new = file_of(alloc, "2/65536 found first +0")?;
    check_fronts(alloc, false, new.as_slice())
}

#[test]
fn a_header_of_another_version_is_no_store(rt: HostRuntime) -> Result<(), Fail> {
    let alloc = rt.alloc();
    for version in 0..256u64 {
        let words = format!(in alloc; "{version}/65536 found +0")?;
        let expected = match version {
            1 | 2 => "2/65536 found +0",
            _ => "not a store",
        };
        let old = file_of(alloc, words.as_str())?;
        check(alloc, words.as_str(), old.as_slice(), &[], 0, expected)?;
    }
    Ok(())
}

// Where the number of each frame begins, and what a byte of it that is another makes of the store.
const NUMBERS: [(usize, &str); 3] = [(22, "damaged 0"), (221, "damaged 1"), (562, "damaged 2")];

#[test]
fn a_frame_of_another_number_is_damaged(rt: HostRuntime) -> Result<(), Fail> {
    let alloc = rt.alloc();
    for (offset, expected) in NUMBERS.iter() {
        for index in 0..8usize {
            let mut store = file_of(alloc, "2/65536 found first second +0")?;
            replace_byte(&mut store, offset.saturating_add(index), 3);
            check(alloc, "a number", store.as_slice(), &[], 0, expected)?;
        }
    }
    Ok(())
}

const PENDING: [Pending; 6] = [
    Pending::Lost,
    Pending::Landed,
    Pending::Torn(0),
    Pending::Torn(1),
    Pending::Torn(2),
    Pending::Torn(255),
];

// Whether a move into what a stop left makes the whole store, or says that it is there, and it is.
fn is_moved_again(alloc: Global, old: &[u8], image: &[u8], whole: &[u8]) -> Result<bool, Fail> {
    let before = disk_of(alloc, old, 99)?;
    let moved = moved(alloc, before, disk_of(alloc, image, 99)?, 0);
    let is_well = match moved.refused {
        None => moved.new.bytes() == whole,
        Some(refused) => refused == MigrateRefused::AlreadyStore && image == whole,
    };
    drop(moved);
    Ok(is_well)
}

// Fails with the first moment of this disk, from this one on, at which a stop leaves something else.
fn check_moments(
    alloc: Global,
    old: &[u8],
    disk: &MemDisk,
    from: u64,
    whole: &[u8],
) -> Result<(), Fail> {
    for moment in from..disk.moment().saturating_add(1) {
        for pending in PENDING.iter() {
            let image = disk.image(moment.min(disk.moment()), *pending)?;
            if !is_moved_again(alloc, old, image.as_slice(), whole)? {
                return Err(Fail::from(format!(in alloc; "moment {moment}, {pending:?}")?));
            }
        }
    }
    Ok(())
}

// Whether a disk failed in a move. It has to say so just then, the old file has to be as it was, and a stop has to
// leave what it may: at any moment, and after a fault, before which all is as without one, at the end.
fn has_failed(alloc: Global, moved: &Outcome, old: &[u8], whole: &[u8]) -> Result<bool, Fail> {
    let has_failed = moved.old.faults() > 0 || moved.new.faults() > 0;
    let is_told = match moved.refused {
        None => !has_failed && moved.new.bytes() == whole,
        Some(refused) => has_failed && refused == MigrateRefused::Failed,
    };
    if !is_told || moved.old.bytes() != old {
        return Err(Fail::from("another answer"));
    }
    let from = if has_failed { moved.new.moment() } else { 0 };
    check_moments(alloc, old, &moved.new, from, whole)?;
    Ok(has_failed)
}

// The same of a move where these calls of the disks fail.
fn fails(
    alloc: Global,
    files: (&[u8], &[u8], &[u8]),
    old_call: u64,
    new_call: u64,
) -> Result<bool, Fail> {
    let (old, new, whole) = files;
    let before = disk_of(alloc, old, old_call)?;
    let moved = moved(alloc, before, disk_of(alloc, new, new_call)?, 0);
    let failed = has_failed(alloc, &moved, old, whole);
    drop(moved);
    failed
}

// Each call of the two disks may fail: of the old one so many, of the new one at least as many. After them none fails.
fn check_calls(alloc: Global, files: (&[u8], &[u8], &[u8])) -> Result<(), Fail> {
    for call in 0..OLD_CALLS {
        if !fails(alloc, files, call, 99)? {
            return Err(Fail::from("an old call didn't fail"));
        }
    }
    for call in 0..99 {
        if !fails(alloc, files, OLD_CALLS, call)? {
            return if call < LEAST_NEW_CALLS {
                Err(Fail::from("a new call didn't fail"))
            } else {
                Ok(())
            };
        }
    }
    Err(Fail::from("no move goes well"))
}

// What the new file holds before: nothing, a byte, stores of either format that were stopped in the making.
const STARTED: [&str; 5] = [
    "none",
    "+0",
    "+1",
    "2/65536 found first ^0",
    "1/65536 found first found first +0 ^0",
];

// The old disk is asked for a sync, its length and its header, twice for each of three frames, and once for the end.
const OLD_CALLS: u64 = 10;

// The new one at least for its length, three more for its header, two for each frame, and four when it is opened.
const LEAST_NEW_CALLS: u64 = 14;

#[test]
fn a_stop_leaves_no_store_or_the_whole(rt: HostRuntime) -> Result<(), Fail> {
    let alloc = rt.alloc();
    let old = file_of(alloc, "1/65536 found first second +0")?;
    let whole = file_of(alloc, "2/65536 found first second +0")?;
    for words in STARTED.iter() {
        let new = file_of(alloc, words)?;
        check_calls(alloc, (old.as_slice(), new.as_slice(), whole.as_slice()))?;
    }
    Ok(())
}

// The tests of lrs_journal.
ghost use Rattle.std.specs.Prelude.{◌≡◌, false, true};
ghost use Rattle.lrs_journal.specs.declared.sizes.Format.TheVariants as Formats;

use crate::failing::{first_wrong, none_wrong, wrong_row};
use lrs_disk::Disk;
use lrs_in_memory::{MemDisk, Memory, Pending};
use lrs_journal::{
    AppendRefused, Builder, CreateRefused, Format, Full, Journal, RecoverRefused, Replay,
};
use std::alloc::Global;
use std::test::Fail;

// An open header of limit 512, one frame of two bytes, and a closed gate.
const STORE: [u8; 33] = [
    1, 76, 82, 83, 74, 82, 78, 76, 2, 0, 0, 0, 0, 0, 0, 2, 0, 1, 0, 0, 0, 2, 0, 0, 0, 0, 0, 0, 0,
    0, 104, 105, 0,
];

// The same in the old format, with a second frame of three bytes.
const OLD: [u8; 33] = [
    1, 76, 82, 83, 74, 82, 78, 76, 1, 0, 0, 0, 0, 0, 0, 2, 0, 1, 0, 0, 0, 2, 104, 105, 1, 0, 0, 0,
    3, 97, 98, 99, 0,
];

fn disk_of(alloc: Global, bytes: &[u8], failing: Vec<u64>) -> Result<MemDisk, Memory> {
    MemDisk::new(alloc, bytes.to_vec(alloc)?, failing, 99, 9_999)
}

// Adds each payload that is left with a comma after it, at most nine, and a `!` if the list is damaged.
fn list_frames(
    replay: &mut Replay<MemDisk>,
    payload: &mut Vec<u8>,
    list: &mut Vec<u8>,
) -> Result<(), Memory> {
    for _ in 0..9u64 {
        match replay.next(payload) {
            Ok(true) => list.extend_from_slice(payload)?,
            Ok(false) => return Ok(()),
            Err(_) => return Ok(list.push(b'!')?),
        }
        list.push(b',')?;
    }
    Ok(())
}

// The payloads of a disk, `-` if there is no store, or `old` if there is one of the old format that isn't read.
fn list_opened(
    alloc: Global,
    opened: Result<Replay<MemDisk>, (RecoverRefused, MemDisk)>,
) -> Result<Vec<u8>, Memory> {
    let mut list = Vec::new(alloc);
    match opened {
        Ok(mut replay) => {
            let done = list_frames(&mut replay, &mut Vec::new(alloc), &mut list);
            drop(replay);
            done?;
        }
        Err((refused, disk)) => {
            drop(disk);
            if refused == RecoverRefused::OldFormat {
                list.extend_from_slice(b"old")?;
            } else {
                list.push(b'-')?;
            }
        }
    }
    Ok(list)
}

fn listed(alloc: Global, bytes: &[u8]) -> Result<Vec<u8>, Memory> {
    list_opened(
        alloc,
        Journal::recover(disk_of(alloc, bytes, Vec::new(alloc))?),
    )
}

// The same, whatever the format is.
fn listed_any(alloc: Global, bytes: &[u8]) -> Result<Vec<u8>, Memory> {
    list_opened(
        alloc,
        Journal::recover_any(disk_of(alloc, bytes, Vec::new(alloc))?),
    )
}

// What the disk has of unsynced bytes after a stop.
const PENDING: [Pending; 6] = [
    Pending::Lost,
    Pending::Landed,
    Pending::Torn(0),
    Pending::Torn(1),
    Pending::Torn(2),
    Pending::Torn(255),
];

// Whether a stop at this moment leaves one frame or both, whatever is pending.
fn is_one_or_both(alloc: Global, disk: &MemDisk, moment: u64) -> Result<bool, Memory> {
    for pending in PENDING {
        let list = listed(alloc, &disk.image(moment.min(disk.moment()), pending)?)?;
        if list.as_slice() != b"hi,".as_slice() && list.as_slice() != b"hi,abc,".as_slice() {
            return Ok(false);
        }
    }
    Ok(true)
}

// The first moment at which a stop leaves something else than one frame or both.
fn first_torn(alloc: Global, disk: &MemDisk, start: u64) -> Result<Option<usize>, Memory> {
    for moment in start..disk.moment().saturating_add(1) {
        if !is_one_or_both(alloc, disk, moment)? {
            return Ok(Some(moment as usize));
        }
    }
    Ok(None)
}

// The moment before a frame is added and the disk after it, or nothing if it isn't added.
fn added(alloc: Global) -> Result<Option<(u64, MemDisk)>, Memory> {
    match Journal::create(disk_of(alloc, b"", Vec::new(alloc))?, 512, b"hi") {
        Ok(mut journal) => {
            let start = journal.moment();
            if journal.append(b"abc") == Ok(1) {
                Ok(Some((start, journal.into_disk())))
            } else {
                drop(journal);
                Ok(None)
            }
        }
        Err((_, disk)) => {
            drop(disk);
            Ok(None)
        }
    }
}

#[test]
fn a_stop_in_an_append_leaves_the_frame_out_or_whole(rt: HostRuntime) -> Result<(), Fail> {
    let alloc = rt.alloc();
    let torn = match added(alloc)? {
        Some((start, disk)) => {
            let torn = first_torn(alloc, &disk, start);
            drop(disk);
            torn
        }
        None => Ok(Some(0)),
    };
    none_wrong(torn?)
}

// An append whose last sync fails, and what ends its doubt.
fn doubted(journal: &mut Journal<MemDisk>) -> Option<usize>
    requires { journal.old.doubt ≡ false }
{
    let before = journal.in_doubt();
    let steps = [
        journal.append(b"abc") == Err(AppendRefused::Failed),
        !before,
        journal.in_doubt(),
        journal.length() == 2,
        journal.settle() == Ok(Some(1)),
        journal.settle() == Ok(None),
        journal.faults() == 1,
    ];
    first_wrong(&steps)
}

#[test]
fn a_doubt_is_settled(rt: HostRuntime) -> Result<(), Fail> {
    let alloc = rt.alloc();
    // The sync after the new frame's gate.
    let failing = [16].to_vec(alloc)?;
    let wrong = match Journal::create(disk_of(alloc, b"", failing)?, 512, b"hi") {
        Ok(mut journal) => {
            let wrong = doubted(&mut journal);
            drop(journal);
            wrong
        }
        Err((_, disk)) => {
            drop(disk);
            Some(99)
        }
    };
    none_wrong(wrong)
}

// Whether no store stands on these bytes and one is made there, or the whole one stands there and none is made.
fn is_none_or_whole(alloc: Global, bytes: &[u8], whole: &str) -> Result<bool, Memory> {
    let list = listed_any(alloc, bytes)?;
    match Journal::create(disk_of(alloc, bytes, Vec::new(alloc))?, 512, b"hi") {
        Ok(journal) => {
            drop(journal);
            Ok(list.as_slice() == b"-".as_slice())
        }
        Err((refused, disk)) => {
            drop(disk);
            let is_store = refused == CreateRefused::AlreadyStore;
            Ok(is_store && list.as_slice() == whole.as_bytes())
        }
    }
}

// Whether a stop at this moment of a creation leaves no store or the whole one, whatever is pending.
fn is_made_or_not(alloc: Global, disk: &MemDisk, moment: u64, whole: &str) -> Result<bool, Memory> {
    for pending in PENDING {
        let image = disk.image(moment.min(disk.moment()), pending)?;
        if !is_none_or_whole(alloc, &image, whole)? {
            return Ok(false);
        }
    }
    Ok(true)
}

fn first_half_made(alloc: Global, disk: &MemDisk, whole: &str) -> Result<Option<usize>, Memory> {
    for moment in 0..disk.moment().saturating_add(1) {
        if !is_made_or_not(alloc, disk, moment, whole)? {
            return Ok(Some(moment as usize));
        }
    }
    Ok(None)
}

#[test]
fn a_stop_in_a_creation_leaves_no_store_or_the_whole(rt: HostRuntime) -> Result<(), Fail> {
    let alloc = rt.alloc();
    let mut old = [0, 76, 82, 83, 74, 82, 78, 76, 1].to_vec(alloc)?;
    old.resize(49, 255)?;
    let wrong = match Journal::create(disk_of(alloc, &old, Vec::new(alloc))?, 512, b"hi") {
        Ok(journal) => {
            let disk = journal.into_disk();
            let wrong = first_half_made(alloc, &disk, "hi,");
            drop(disk);
            wrong
        }
        Err((_, disk)) => {
            drop(disk);
            Ok(Some(99))
        }
    };
    none_wrong(wrong?)
}

// A payload of one byte too many, and the same without it.
fn filled(journal: &mut Journal<MemDisk>, payload: &[u8; 3_953]) -> Option<usize>
    requires { journal.old.doubt ≡ false }
{
    let full = journal.append(payload);
    if journal.in_doubt() {
        return Some(0);
    }
    let steps = [
        full == Err(AppendRefused::Full {
            need: 4_097,
            limit: 4_096,
        }),
        journal.room(payload)
            == Err(Full {
                need: 4_097,
                limit: 4_096,
            }),
        journal.room(&payload[1..]) == Ok(()),
        journal.append(&payload[1..]) == Ok(1),
    ];
    first_wrong(&steps)
}

#[test]
fn the_limit_holds(rt: HostRuntime) -> Result<(), Fail> {
    let alloc = rt.alloc();
    let wrong = match Journal::create(disk_of(alloc, b"", Vec::new(alloc))?, 4_096, &[7; 100]) {
        Ok(mut journal) => {
            let wrong = filled(&mut journal, &[7; 3_953]);
            drop(journal);
            wrong
        }
        Err((_, disk)) => {
            drop(disk);
            Some(99)
        }
    };
    none_wrong(wrong)
}

// The first bytes of `STORE`, so many, and what is read of them.
const FRONTS: [(usize, &str); 9] = [
    (0, "-"),
    (16, "-"),
    (17, ""),
    (18, ""),
    (19, "!"),
    (30, "!"),
    (31, "!"),
    (32, "hi,"),
    (33, "hi,"),
];

#[test]
fn a_disk_is_read_or_refused(rt: HostRuntime) -> Result<(), Fail> {
    let alloc = rt.alloc();
    for (i, (size, list)) in FRONTS.iter().enumerate() {
        let bytes = &STORE[..(*size).min(33)];
        let same = listed(alloc, bytes)?.as_slice() == list.as_bytes();
        if !same || listed_any(alloc, bytes)?.as_slice() != list.as_bytes() {
            return wrong_row(i);
        }
    }
    Ok(())
}

// The first bytes of `OLD`, so many, what is read of them, and what `recover` says.
const OLD_FRONTS: [(usize, &str, &str); 11] = [
    (0, "-", "-"),
    (16, "-", "-"),
    (17, "", "old"),
    (18, "", "old"),
    (19, "!", "old"),
    (23, "!", "old"),
    (24, "hi,", "old"),
    (25, "hi,", "old"),
    (26, "hi,!", "old"),
    (31, "hi,!", "old"),
    (33, "hi,abc,", "old"),
];

#[test]
fn a_store_of_the_old_format_is_read_if_asked_for(rt: HostRuntime) -> Result<(), Fail> {
    let alloc = rt.alloc();
    for (i, (size, any, said)) in OLD_FRONTS.iter().enumerate() {
        let bytes = &OLD[..(*size).min(33)];
        let same = listed_any(alloc, bytes)?.as_slice() == any.as_bytes();
        if !same || listed(alloc, bytes)?.as_slice() != said.as_bytes() {
            return wrong_row(i);
        }
    }
    Ok(())
}

#[test]
fn a_replay_tells_its_format(rt: HostRuntime) -> Result<(), Fail> {
    let alloc = rt.alloc();
    for (i, (bytes, format)) in [(STORE, Format::Two), (OLD, Format::One)]
        .iter()
        .enumerate()
    {
        let same = match Journal::recover_any(disk_of(alloc, bytes, Vec::new(alloc))?) {
            Ok(replay) => {
                let same = replay.format() == *format && replay.limit() == 512;
                let disk = replay.into_disk();
                let untouched = disk.bytes() == bytes.as_slice();
                drop(disk);
                same && untouched
            }
            Err((_, disk)) => {
                drop(disk);
                false
            }
        };
        if !same {
            return wrong_row(i);
        }
    }
    Ok(())
}

// What each version is: `hi,` is read, `old`, or no store.
#[test]
fn another_version_is_no_store(rt: HostRuntime) -> Result<(), Fail> {
    let alloc = rt.alloc();
    let mut bytes = STORE.to_vec(alloc)?;
    for version in 0..=255u8 {
        bytes[8] = version;
        let said = match version {
            1 => "old",
            2 => "hi,",
            _ => "-",
        };
        if listed(alloc, &bytes)?.as_slice() != said.as_bytes() {
            return wrong_row(version as usize);
        }
    }
    Ok(())
}

// What is read of a header with this limit, and what of one of the old format.
#[test]
fn a_limit_out_of_range_is_no_store(rt: HostRuntime) -> Result<(), Fail> {
    let alloc = rt.alloc();
    let rows = [
        (0u64, "-", "-"),
        (511, "-", "-"),
        (512, "hi,", "old"),
        (1_073_741_824, "hi,", "old"),
        (1_073_741_825, "-", "-"),
        (4_294_967_808, "-", "-"),
        (u64::MAX, "-", "-"),
    ];
    for (i, (limit, two, one)) in rows.iter().enumerate() {
        let mut new = STORE.to_vec(alloc)?;
        new[9..17].copy_from_slice(&limit.to_be_bytes());
        let mut old = OLD.to_vec(alloc)?;
        old[9..17].copy_from_slice(&limit.to_be_bytes());
        let same = listed(alloc, &new)?.as_slice() == two.as_bytes();
        if !same || listed(alloc, &old)?.as_slice() != one.as_bytes() {
            return wrong_row(i);
        }
    }
    Ok(())
}

// The store with an empty frame and one of three bytes behind its first.
const THREE: [u8; 62] = [
    1, 76, 82, 83, 74, 82, 78, 76, 2, 0, 0, 0, 0, 0, 0, 2, 0, 1, 0, 0, 0, 2, 0, 0, 0, 0, 0, 0, 0,
    0, 104, 105, 1, 0, 0, 0, 0, 0, 0, 0, 0, 0, 0, 0, 1, 1, 0, 0, 0, 3, 0, 0, 0, 0, 0, 0, 0, 2, 97,
    98, 99, 0,
];

// Where the number of each frame begins, and what is read if a byte of it is another.
const NUMBERS: [(usize, &str); 3] = [(22, "!"), (37, "hi,!"), (50, "hi,,!")];

#[test]
fn a_frame_tells_its_number(rt: HostRuntime) -> Result<(), Fail> {
    let alloc = rt.alloc();
    for (offset, list) in NUMBERS.iter() {
        for i in *offset..offset.saturating_add(8) {
            let mut bytes = THREE.to_vec(alloc)?;
            if let Some(byte) = bytes.get_mut(i) {
                *byte = 3;
            }
            if listed(alloc, &bytes)?.as_slice() != list.as_bytes() {
                return wrong_row(i);
            }
        }
    }
    Ok(())
}

#[test]
fn frames_that_were_doubled_or_left_out_are_damaged(rt: HostRuntime) -> Result<(), Fail> {
    let alloc = rt.alloc();
    // What stands behind the first frames, which end at this offset: the rest from that one on.
    let rows = [
        (62usize, 62usize, "hi,,abc,"),
        (32, 17, "hi,!"),
        (45, 32, "hi,,!"),
        (61, 45, "hi,,abc,!"),
        (17, 32, "!"),
        (32, 45, "hi,!"),
        (17, 45, "!"),
    ];
    for (i, (end, from, list)) in rows.iter().enumerate() {
        let mut bytes = THREE[..(*end).min(62)].to_vec(alloc)?;
        bytes.extend_from_slice(&THREE[(*from).min(62)..])?;
        if listed(alloc, &bytes)?.as_slice() != list.as_bytes() {
            return wrong_row(i);
        }
    }
    Ok(())
}

// Reads the one frame and the end.
fn is_read_whole(alloc: Global, replay: &mut Replay<MemDisk>) -> bool
    ensures { replay.new.format ≡ replay.old.format }
{
    let mut payload = Vec::new(alloc);
    let more = replay.next(&mut payload);
    let is_hi = payload.as_slice() == b"hi".as_slice();
    replay.limit() == 512 && more == Ok(true) && is_hi
}

// Whether an empty frame after the one on these bytes leaves those bytes.
fn is_opened_for_more(alloc: Global, bytes: &[u8], then: &[u8]) -> Result<bool, Memory> {
    match Journal::recover(disk_of(alloc, bytes, Vec::new(alloc))?) {
        Ok(mut replay) => {
            let whole = is_read_whole(alloc, &mut replay);
            if replay.next(&mut Vec::new(alloc)) == Ok(false) {
                Ok(whole && is_extended(replay, then))
            } else {
                drop(replay);
                Ok(false)
            }
        }
        Err((_, disk)) => {
            drop(disk);
            Ok(false)
        }
    }
}

fn is_extended(replay: Replay<MemDisk>, then: &[u8]) -> bool
    requires ended { replay.ended ≡ true }
    requires format { replay.format ≡ Formats.Two }
{
    match replay.finish() {
        Ok(mut journal) => {
            let added = journal.limit() == 512 && journal.append(b"") == Ok(1);
            let disk = journal.into_disk();
            let same = disk.bytes() == then;
            drop(disk);
            added && same
        }
        Err((_, disk)) => {
            drop(disk);
            false
        }
    }
}

#[test]
fn a_store_is_opened_for_more(rt: HostRuntime) -> Result<(), Fail> {
    let alloc = rt.alloc();
    // What follows the end is cut away.
    let mut bytes = STORE[..32].to_vec(alloc)?;
    bytes.extend_from_slice(&[9, 9, 9])?;
    let mut then = STORE[..32].to_vec(alloc)?;
    then.extend_from_slice(&[1, 0, 0, 0, 0, 0, 0, 0, 0, 0, 0, 0, 1, 0])?;
    assert!(rt; is_opened_for_more(alloc, &bytes, &then)?);
    Ok(())
}

// The bytes of a disk on which a store may be made: none, one, those of a store that is half made, a zero and others, and
// those of a store with another first byte.
fn free_disks(alloc: Global) -> Result<[Vec<u8>; 8], Memory> {
    let mut half_made = STORE.to_vec(alloc)?;
    half_made[0] = 0;
    let mut half_made_old = OLD.to_vec(alloc)?;
    half_made_old[0] = 0;
    half_made_old.resize(99, 255)?;
    let mut other_gate = STORE.to_vec(alloc)?;
    other_gate[0] = 7;
    Ok([
        Vec::new(alloc),
        [0].to_vec(alloc)?,
        [1].to_vec(alloc)?,
        [255].to_vec(alloc)?,
        half_made,
        half_made_old,
        [0, 0, 0, 24, 102, 116, 121, 112].to_vec(alloc)?,
        other_gate,
    ])
}

// Adds a frame of `hi` to a builder, and opens it.
fn open_one(builder: Builder<MemDisk>) -> (bool, MemDisk)
    requires { builder.broken ≡ false }
{
    let mut builder = builder;
    if builder.add(b"hi") != Ok(()) {
        return (false, builder.into_disk());
    }
    match builder.open() {
        Ok(journal) => (journal.length() == 1, journal.into_disk()),
        Err((_, disk)) => (false, disk),
    }
}

// Adds frames of `hi`, nothing and `abc` to a builder, and opens it.
fn open_three(builder: Builder<MemDisk>) -> (bool, MemDisk)
    requires { builder.broken ≡ false }
{
    let mut builder = builder;
    if builder.add(b"hi") != Ok(()) {
        return (false, builder.into_disk());
    }
    if builder.add(b"") != Ok(()) {
        return (false, builder.into_disk());
    }
    if builder.add(b"abc") != Ok(()) {
        return (false, builder.into_disk());
    }
    match builder.open() {
        Ok(journal) => (journal.length() == 3, journal.into_disk()),
        Err((_, disk)) => (false, disk),
    }
}

// Whether a store of so many frames was made, or just begun if of none, and the disk then.
fn made_of(
    alloc: Global,
    frames: u64,
    bytes: &[u8],
    failing: Vec<u64>,
) -> Result<(bool, MemDisk), Memory> {
    match Journal::begin(disk_of(alloc, bytes, failing)?, 512) {
        Ok(builder) => match frames {
            0 => Ok((true, builder.into_disk())),
            1 => Ok(open_one(builder)),
            _ => Ok(open_three(builder)),
        },
        Err((_, disk)) => Ok((false, disk)),
    }
}

// How many frames a builder adds, and the list of the store then. Without one it isn't opened.
const BUILT: [(u64, &str); 3] = [(0, "-"), (1, "hi,"), (3, "hi,,abc,")];

// Whether such a builder, of which this call fails, makes the store just if no call does, and a stop at any moment leaves
// none or the whole.
fn is_built(
    alloc: Global,
    frames: u64,
    list: &str,
    bytes: &[u8],
    call: u64,
) -> Result<bool, Memory> {
    let (made, disk) = made_of(alloc, frames, bytes, [call].to_vec(alloc)?)?;
    let whole = if frames == 0 { "no list" } else { list };
    let wrong = first_half_made(alloc, &disk, whole);
    let found = listed(alloc, disk.bytes());
    let failed = disk.faults() > 0;
    drop(disk);
    let is_listed = failed || found?.as_slice() == list.as_bytes();
    Ok(wrong?.is_none() && made != failed && is_listed)
}

// Without a failing call, and with each: a builder of three frames makes 15 at most.
#[test]
fn a_stop_before_a_store_is_open_leaves_none_or_the_whole(rt: HostRuntime) -> Result<(), Fail> {
    let alloc = rt.alloc();
    for (i, bytes) in free_disks(alloc)?.iter().enumerate() {
        for (frames, list) in BUILT.iter() {
            for call in 0..20u64 {
                if !is_built(alloc, *frames, list, bytes, call)? {
                    return wrong_row(i.saturating_mul(100).saturating_add(call as usize));
                }
            }
        }
    }
    Ok(())
}

// Disks on which no store is made, and why.
#[test]
fn a_builder_writes_over_no_store(rt: HostRuntime) -> Result<(), Fail> {
    let alloc = rt.alloc();
    let rows = [
        (STORE.to_vec(alloc)?, CreateRefused::AlreadyStore),
        (OLD.to_vec(alloc)?, CreateRefused::AlreadyStore),
        (STORE[..8].to_vec(alloc)?, CreateRefused::AlreadyStore),
        (b"a text".to_vec(alloc)?, CreateRefused::Foreign),
    ];
    for (i, (bytes, refusal)) in rows.iter().enumerate() {
        let same = match Journal::begin(disk_of(alloc, bytes, Vec::new(alloc))?, 512) {
            Ok(builder) => {
                drop(builder);
                false
            }
            Err((refused, disk)) => {
                let same = refused == *refusal && disk.bytes() == bytes.as_slice();
                drop(disk);
                same
            }
        };
        if !same {
            return wrong_row(i);
        }
    }
    Ok(())
}

// A frame of one byte too many has no room, and one with a byte less has.
fn is_filled(builder: &mut Builder<MemDisk>) -> bool
    requires { builder.old.broken ≡ false }
{
    let one_too_many = builder.add(&[7; 482]);
    match one_too_many {
        Err(AppendRefused::Full { need, limit }) => {
            let steps = [
                need == 513,
                limit == 512,
                builder.add(&[7; 481]) == Ok(()),
                builder.length() == 1,
                builder.limit() == 512,
            ];
            first_wrong(&steps).is_none()
        }
        _ => false,
    }
}

#[test]
fn a_builder_keeps_the_limit(rt: HostRuntime) -> Result<(), Fail> {
    let alloc = rt.alloc();
    let filled = match Journal::begin(disk_of(alloc, b"", Vec::new(alloc))?, 512) {
        Ok(mut builder) => {
            let filled = is_filled(&mut builder);
            drop(builder);
            filled
        }
        Err((_, disk)) => {
            drop(disk);
            false
        }
    };
    assert!(rt; filled);
    Ok(())
}

//! What `init`, `intake` and `serve` leave if they are stopped at any moment, or if the disk fails.
use crate::runs::{
    Around, DISK, GET, MAKE, POST, PUT, Ran, SERVE, STATEMENT, joined, run_over, stored, wrong_at,
};
use lrs_app::Receipt;
use lrs_disk::Disk;
use lrs_in_memory::{MemDisk, Pending};
use std::alloc::Global;
use std::sync::Wait;
use std::test::Fail;
use std::thread::Threads;

const PENDING: [Pending; 4] = [
    Pending::Lost,
    Pending::Landed,
    Pending::Torn(1),
    Pending::Torn(255),
];

const INIT: &str = "init s --admin adminadmin --limit 65536";

const FOREIGN: &[u8] = b"a letter";

// A file before `init`: none, the beginnings of stores that were stopped in the making, and what is no store.
const FILES: [&[u8]; 5] = [
    b"",
    b"\0",
    b"\0LRSJRNL\x02\0\0\0\0\0\x01\0\0",
    b"\0LRSJRNL\x01\xff\xff\xff\xff\xff\xff\xff\xff\x01\0\0\x01\0\0\0\xba{\"caller\":\"*\"",
    FOREIGN,
];

// A run that opens this file, if it is a store, and keeps nothing.
fn opened<R: Threads + Wait + Sync>(rt: &R, alloc: Global, file: &[u8]) -> Result<Ran, Fail> {
    run_over(rt, alloc, "intake s", &Around::calm(file, "{", &[]))
}

// Whether this is the whole new store, as it stands and as it opens.
fn is_whole<R: Threads + Wait + Sync>(rt: &R, alloc: Global, image: &[u8]) -> Result<bool, Fail> {
    let ran = opened(rt, alloc, image)?;
    let is_whole = ran.length == 1 && ran.leaves(stored());
    drop(ran);
    Ok(is_whole)
}

// Whether a stop in `init` left no store, so that one is made, or the whole one.
fn is_none_or_whole<R: Threads + Wait + Sync>(
    rt: &R,
    alloc: Global,
    image: &[u8],
) -> Result<bool, Fail> {
    let ran = run_over(rt, alloc, INIT, &Around::calm(image, "", &[]))?;
    let (status, is_made) = (ran.status, ran.leaves(stored()));
    drop(ran);
    match status {
        0 => Ok(is_made),
        4 => is_whole(rt, alloc, image),
        _ => Ok(false),
    }
}

// Whether each image of the disk at this moment is one that a stop in `init` may leave of this file.
fn is_stopped_well<R: Threads + Wait + Sync>(
    rt: &R,
    alloc: Global,
    file: &[u8],
    disk: &MemDisk,
    moment: u64,
) -> Result<bool, Fail> {
    for pending in PENDING.iter() {
        let image = disk.image(moment.min(disk.moment()), *pending)?;
        let is_well = if file == FOREIGN {
            image.as_slice() == FOREIGN
        } else {
            is_none_or_whole(rt, alloc, image.as_slice())?
        };
        if !is_well {
            return Ok(false);
        }
    }
    Ok(true)
}

// Fails with the first moment of `init` over this file at which a stop leaves something else.
fn check_moments<R: Threads + Wait + Sync>(
    rt: &R,
    alloc: Global,
    file: &[u8],
    ran: &Ran,
) -> Result<(), Fail> {
    let disk = ran.disk().ok_or("no disk")?;
    for moment in 0..disk.moment().saturating_add(1) {
        if !is_stopped_well(rt, alloc, file, disk, moment)? {
            let length = file.len();
            return Err(Fail::from(format!(in alloc; "{length} bytes, moment {moment}")?));
        }
    }
    Ok(())
}

// Whether `init` fails over this file where this call of the disk does. It has to say so just where the disk failed, and
// a stop at any moment has to leave what it may.
fn fails<R: Threads + Wait + Sync>(
    rt: &R,
    alloc: Global,
    file: &[u8],
    call: u64,
) -> Result<bool, Fail> {
    let disk_fails = [call];
    let around = Around {
        disk_fails: &disk_fails,
        ..Around::calm(file, "", &[])
    };
    let ran = run_over(rt, alloc, INIT, &around)?;
    let checked = check_moments(rt, alloc, file, &ran);
    let fails = ran.ends(5, "disk fault\n");
    let faults = match ran.disk() {
        Some(disk) => disk.faults(),
        None => 0,
    };
    drop(ran);
    checked?;
    if fails != (faults > 0) {
        let length = file.len();
        return Err(Fail::from(format!(in alloc; "{length} bytes, call {call}")?));
    }
    Ok(fails)
}

// Each call of `init` over this file may fail, and there are some. After them a run fails no more.
fn check_calls<R: Threads + Wait + Sync>(rt: &R, alloc: Global, file: &[u8]) -> Result<(), Fail> {
    for call in 0..99 {
        if !fails(rt, alloc, file, call)? {
            return if call == 0 {
                Err(Fail::from("no call fails"))
            } else {
                Ok(())
            };
        }
    }
    Err(Fail::from("no run ends well"))
}

// With a call that fails, and without.
#[test]
fn a_stop_in_init_leaves_no_store_or_the_whole(rt: HostRuntime) -> Result<(), Fail> {
    for file in FILES.iter() {
        check_calls(&rt, rt.alloc(), file)?;
    }
    Ok(())
}

// Where the gate stands after so many frames of a journal.
fn gate_behind(journal: &[u8], frames: u64) -> Option<usize> {
    let mut offset: usize = 17;
    for _ in 0..frames {
        let head = journal.get(offset..)?.get(1..5)?;
        let [a, b, c, d] = head else {
            return None;
        };
        let length = u32::from_be_bytes([*a, *b, *c, *d]);
        offset = offset.saturating_add(13).saturating_add(length as usize);
    }
    Some(offset)
}

// Whether a file begins with so many frames of the whole history's, and a closed gate stands after them.
fn is_front(file: &[u8], entries: u64, whole: &[u8]) -> bool {
    match gate_behind(whole, entries) {
        Some(gate) => file.get(gate) == Some(&0) && file.get(..gate) == whole.get(..gate),
        None => false,
    }
}

// How many entries a file has that opens with a front of the whole history.
fn front_of<R: Threads + Wait + Sync>(
    rt: &R,
    alloc: Global,
    file: &[u8],
    whole: &[u8],
) -> Result<Option<u64>, Fail> {
    let ran = opened(rt, alloc, file)?;
    let length = ran.length;
    let is_front = match ran.file() {
        Some(front) => is_front(front, length, whole),
        None => false,
    };
    drop(ran);
    Ok(if is_front { Some(length) } else { None })
}

// How many entries an acknowledged act and its answer ask of each later image.
fn demanded(receipt: &Receipt) -> u64 {
    match receipt.entry() {
        Some(entry) => receipt.point().max(entry.saturating_add(1)),
        None => receipt.point(),
    }
}

// What the acts that were acknowledged by this moment ask.
fn demanded_by(receipts: &[Receipt], moment: u64) -> u64 {
    let mut most = 1;
    for receipt in receipts {
        if receipt.status() != 503 && receipt.disk() <= moment {
            most = demanded(receipt).max(most);
        }
    }
    most
}

// Whether each image of the disk at this moment opens with the first entries of the whole history, at least so many.
fn is_served_well<R: Threads + Wait + Sync>(
    rt: &R,
    alloc: Global,
    disk: &MemDisk,
    moment: u64,
    least: u64,
    whole: &[u8],
) -> Result<bool, Fail> {
    for pending in PENDING.iter() {
        let image = disk.image(moment.min(disk.moment()), *pending)?;
        match front_of(rt, alloc, image.as_slice(), whole)? {
            Some(entries) if entries >= least => {}
            _ => return Ok(false),
        }
    }
    Ok(true)
}

// Fails with the first moment of a disk at which a stop leaves something else, where these receipts tell what was
// acknowledged.
fn check_images<R: Threads + Wait + Sync>(
    rt: &R,
    alloc: Global,
    disk: &MemDisk,
    receipts: &[Receipt],
) -> Result<(), Fail> {
    for moment in 0..disk.moment().saturating_add(1) {
        let least = demanded_by(receipts, moment);
        if !is_served_well(rt, alloc, disk, moment, least, disk.bytes())? {
            return wrong_at(alloc, moment);
        }
    }
    Ok(())
}

// The same for a run. At its end a stop leaves the whole history.
fn check_run<R: Threads + Wait + Sync>(rt: &R, alloc: Global, ran: &Ran) -> Result<(), Fail> {
    let disk = ran.disk().ok_or("no disk")?;
    let receipts = match ran.talk() {
        Some(talk) => talk.receipts(),
        None => &[],
    };
    check_images(rt, alloc, disk, receipts)?;
    if is_served_well(rt, alloc, disk, disk.moment(), ran.length, disk.bytes())? {
        Ok(())
    } else {
        Err(Fail::from("at the end"))
    }
}

fn check_stops<R: Threads + Wait + Sync>(
    rt: &R,
    alloc: Global,
    words: &str,
    around: &Around<'_>,
) -> Result<(), Fail> {
    let ran = run_over(rt, alloc, words, around)?;
    let checked = check_run(rt, alloc, &ran);
    drop(ran);
    checked
}

#[test]
fn a_stop_in_intake_leaves_the_statement_out_or_whole(rt: HostRuntime) -> Result<(), Fail> {
    check_stops(
        &rt,
        rt.alloc(),
        "intake s",
        &Around::calm(stored(), STATEMENT, &[]),
    )
}

// What one connection brings: two statements, a provider, a repeat in a batch, and what is asked about it.
fn stream(alloc: Global) -> Result<String, Fail> {
    let second = PUT.replace(
        alloc,
        "11111111-1111-4111-8111-111111111111",
        "22222222-2222-4222-8222-222222222222",
    )?;
    joined(alloc, &[PUT, GET, second.as_str(), MAKE, POST, GET])
}

#[test]
fn a_stop_in_serve_leaves_what_was_acknowledged(rt: HostRuntime) -> Result<(), Fail> {
    let stream = stream(rt.alloc())?;
    let streams = [stream.as_str()];
    check_stops(
        &rt,
        rt.alloc(),
        SERVE,
        &Around::calm(stored(), "", &streams),
    )
}

// What is left of serving a PUT over a disk on which these calls fail.
fn put_over<R: Threads + Wait + Sync>(rt: &R, alloc: Global, failing: &[u64]) -> Result<Ran, Fail> {
    let around = Around {
        disk_fails: failing,
        ..Around::calm(stored(), "", &[PUT])
    };
    run_over(rt, alloc, SERVE, &around)
}

// What becomes of the gate that isn't synced, and how many entries there are then.
const IN_DOUBT: [(Pending, u64); 4] = [
    (Pending::Lost, 1),
    (Pending::Landed, 2),
    (Pending::Torn(1), 2),
    (Pending::Torn(255), 1),
];

// Fails with the first row of which a stop at the end leaves other entries.
fn check_pending<R: Threads + Wait + Sync>(
    rt: &R,
    alloc: Global,
    disk: &MemDisk,
    whole: &[u8],
) -> Result<(), Fail> {
    for (pending, entries) in IN_DOUBT.iter() {
        let image = disk.image(disk.moment(), *pending)?;
        if front_of(rt, alloc, image.as_slice(), whole)? != Some(*entries) {
            return Err(Fail::from(format!(in alloc; "{pending:?} leaves other entries")?));
        }
    }
    Ok(())
}

// Whether the disk is in doubt after a run that tells of a fault, and the client is told, too.
fn is_told_in_doubt<R: Threads + Wait + Sync>(
    rt: &R,
    alloc: Global,
    ran: &Ran,
    whole: &[u8],
) -> Result<bool, Fail> {
    let told = ran.ends(5, "disk fault\n") && ran.sends(DISK) && ran.length == 2;
    check_pending(rt, alloc, ran.disk().ok_or("no disk")?, whole)?;
    Ok(told)
}

// That is so of a PUT on which the last call of the append and the first of the closing fail. The last six calls of one
// without faults are those of the append.
fn check_doubt<R: Threads + Wait + Sync>(rt: &R, alloc: Global, calm: &Ran) -> Result<(), Fail> {
    let disk = calm.disk().ok_or("no disk")?;
    let calls = disk.moment();
    let ran = put_over(rt, alloc, &[calls.saturating_sub(1), calls])?;
    let told = is_told_in_doubt(rt, alloc, &ran, disk.bytes());
    drop(ran);
    if told? {
        Ok(())
    } else {
        Err(Fail::from("not in doubt"))
    }
}

#[test]
fn a_doubt_that_the_closing_cannot_end_is_status_5(rt: HostRuntime) -> Result<(), Fail> {
    let calm = put_over(&rt, rt.alloc(), &[])?;
    let checked = check_doubt(&rt, rt.alloc(), &calm);
    drop(calm);
    checked
}

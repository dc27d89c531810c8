//! What `serve` does with several workers.
use crate::runs::{Around, NO_CONTENT, PUT, Ran, SERVE, joined, run_over, stored};
use lrs_app::Talk;
use lrs_json::Items;
use std::alloc::Global;
use std::sync::Wait;
use std::test::Fail;
use std::thread::Threads;

// The id in `PUT`.
const ID: &str = "11111111-1111-4111-8111-111111111111";

// A statement that comes without an id, and the response to it but for the id.
const POST_ANY: &str =
    "POST /xapi/statements HTTP/1.1\r\nX-Experience-API-Version: 1.0.3\r\nAuthorization: Basic adminadmin\r\nContent-Length: 87\r\n\r\n{\"actor\":{\"mbox\":\"mailto:a@b\"},\"verb\":{\"id\":\"http://v/1\"},\"object\":{\"id\":\"http://a/1\"}}";

const TOLD: &str =
    "HTTP/1.1 200 OK\r\nContent-Type: application/json\r\nContent-Length: 40\r\nX-Experience-API-Version: 1.0.3\r\n\r\n[\"";

// The ids of the first draws of streams 1 to 16, computed by an independent program.
const DRAWN: [&str; 16] = [
    "5cdf1b7b-d96e-4a64-b46a-3cdfa5f18c19",
    "e1067172-7781-4b8b-ba12-12c00e11dbd2",
    "d649a3ff-8310-4c2b-9f0f-f105b9af1f82",
    "8cbb41a2-454f-4293-80ad-c8389b449962",
    "f1948449-1995-44be-8a64-7bcaaa8cbb1d",
    "fc860f63-c01b-4449-95c4-4f72703e61c4",
    "0cf15bc5-d274-404b-899d-764ccbb6b137",
    "56994021-4862-4a0b-8b40-6bdfcec3074d",
    "a98d8573-d6b9-44bb-9fb6-18fedade558d",
    "722cdaa1-6d2f-45fe-aab8-00931bec74f0",
    "7e748fad-92c9-4e7c-92c3-73ecbcf7cdaf",
    "bd182b02-9d49-489e-983b-843e43d73d81",
    "bec6ad08-ad55-4953-a66d-12dba54f1dd7",
    "78865286-b466-4386-bacb-f77db2dd06c1",
    "63841b7d-f2af-4c2b-b988-1bd7b37e56e0",
    "23fcdc37-0602-46f5-9d6d-b1d9dedccb76",
];

// How many workers are asked for, how many doors the lobby has, and how many statements are put through each, all of ids
// of their own, behind one that comes without an id. Then how the run ends: its status, the number of entries, and the
// line. Last the same of a second run over what the first left, in which the statements with ids come again.
const RUNS: [(u64, u64, u64, &str, &str); 6] = [
    (1, 1, 50, "0 52 served 51\n", "0 52 served 50\n"),
    (2, 2, 50, "0 103 served 102\n", "0 103 served 100\n"),
    (5, 5, 1, "0 11 served 10\n", "0 11 served 5\n"),
    (16, 16, 5, "0 97 served 96\n", "0 97 served 80\n"),
    (2, 1, 5, "8 1 lobby fault\n", "8 1 lobby fault\n"),
    (2, 3, 5, "8 1 lobby fault\n", "8 1 lobby fault\n"),
];

// Requests that put so many statements, of ids that end in numbers from this one on, behind another request.
fn stream(alloc: Global, front: &str, first: u64, count: u64) -> Result<String, Fail> {
    let mut text = String::from_str(alloc, front)?;
    for number in 0..count {
        let last = first.saturating_add(number);
        let id = format!(in alloc; "00000000-0000-4000-8000-{last}")?;
        text.push_str(PUT.replace(alloc, ID, id.as_str())?.as_str())?;
    }
    Ok(text)
}

// One for each door.
fn streams(alloc: Global, front: &str, doors: u64, statements: u64) -> Result<Vec<String>, Fail> {
    let mut streams = Vec::new(alloc);
    let mut first: u64 = 100_000_000_000;
    for _ in 0..doors {
        streams.push(stream(alloc, front, first, statements)?)?;
        first = first.saturating_add(1_000);
    }
    Ok(streams)
}

// A run of so many workers over this file and these streams. The calls of the disk with these numbers fail.
fn served<R: Threads + Wait + Sync>(
    rt: &R,
    alloc: Global,
    workers: u64,
    file: &[u8],
    streams: &[String],
    failing: &[u64],
) -> Result<Ran, Fail> {
    let line = format!(in alloc; "serve s 127.0.0.1:8080 --workers {workers} --connections 1")?;
    let (first, others) = streams.split_first().ok_or("no door")?;
    let first = [first.as_str()];
    let around = Around {
        others,
        disk_calls: 999,
        disk_fails: failing,
        ..Around::calm(file, "", &first)
    };
    run_over(rt, alloc, line.as_str(), &around)
}

// Counts for each index how many receipts of a talk tell it as their entry's.
fn count_entries(counts: &mut [u64], talk: &Talk) {
    for receipt in talk.receipts() {
        if let Some(entry) = receipt.entry() {
            let index = entry as usize;
            if index < counts.len() {
                counts[index] = counts[index].saturating_add(1);
            }
        }
    }
}

// Whether each entry behind the founding one is that of one receipt, and no other is.
fn are_told_once(talks: &[Items<Talk>], length: u64) -> bool {
    let mut counts = [0; 128];
    for of_one in talks {
        for talk in of_one.as_slice() {
            count_entries(&mut counts, talk);
        }
    }
    counts.iter().enumerate().all(|(index, count)| {
        let wanted = if index > 0 && (index as u64) < length {
            1
        } else {
            0
        };
        *count == wanted
    })
}

// Whether this went out to a statement without an id, which has this one then, and to so many that were put.
fn is_sent(alloc: Global, sent: &[u8], id: &str, statements: u64) -> Result<bool, Fail> {
    let rest = NO_CONTENT.repeat(alloc, statements as usize)?;
    let text = joined(alloc, &[TOLD, id, "\"]", rest.as_str()])?;
    Ok(sent == text.as_str().as_bytes())
}

// The same of each worker's link, with the id of the worker's own first draw.
fn are_sent(alloc: Global, ran: &Ran, statements: u64) -> Result<bool, Fail> {
    for (sent, id) in ran.sent.iter().zip(DRAWN.iter()) {
        if !is_sent(alloc, sent.as_slice(), id, statements)? {
            return Ok(false);
        }
    }
    Ok(ran.sent.len() == ran.talks.as_slice().len())
}

/// How a run ends: its status, the number of entries, and the line.
pub fn ending(alloc: Global, ran: &Ran) -> Result<String, Fail> {
    let status = ran.status;
    let length = ran.length;
    let line = str::from_utf8(ran.printed.as_slice())?;
    Ok(format!(in alloc; "{status} {length} {line}")?)
}

// How a run ends, and the first of what it left that is wrong.
fn found_in(alloc: Global, ran: &Ran, statements: u64) -> Result<String, Fail> {
    let mut found = ending(alloc, ran)?;
    if !are_told_once(ran.talks.as_slice(), ran.length) {
        found.push_str("counts")?;
    } else if !are_sent(alloc, ran, statements)? {
        found.push_str("sent")?;
    }
    Ok(found)
}

// Fails with the run and what was found, if it isn't this.
fn check(alloc: Global, workers: u64, doors: u64, found: &str, expected: &str) -> Result<(), Fail> {
    if found == expected {
        Ok(())
    } else {
        Err(Fail::from(format!(in alloc; "{workers} workers, {doors} doors: {found}")?))
    }
}

// What is found of a run, and the file behind it.
fn left_by(alloc: Global, ran: &Ran, statements: u64) -> Result<(String, Vec<u8>), Fail> {
    let found = found_in(alloc, ran, statements)?;
    Ok((found, ran.copy(alloc)?))
}

fn file_behind_first<R: Threads + Wait + Sync>(
    rt: &R,
    alloc: Global,
    workers: u64,
    doors: u64,
    statements: u64,
    expected: &str,
) -> Result<Vec<u8>, Fail> {
    let streams = streams(alloc, POST_ANY, doors, statements)?;
    let ran = served(rt, alloc, workers, stored(), streams.as_slice(), &[])?;
    let left = left_by(alloc, &ran, statements);
    drop(ran);
    let (found, file) = left?;
    check(alloc, workers, doors, found.as_str(), expected)?;
    Ok(file)
}

// How a second run ends.
fn found_again<R: Threads + Wait + Sync>(
    rt: &R,
    alloc: Global,
    workers: u64,
    doors: u64,
    statements: u64,
    file: &[u8],
) -> Result<String, Fail> {
    let streams = streams(alloc, "", doors, statements)?;
    let ran = served(rt, alloc, workers, file, streams.as_slice(), &[])?;
    let found = ending(alloc, &ran);
    drop(ran);
    found
}

#[test]
fn each_worker_serves_a_door(rt: HostRuntime) -> Result<(), Fail> {
    let alloc = rt.alloc();
    for (workers, doors, statements, first, again) in RUNS.iter() {
        let file = file_behind_first(&rt, alloc, *workers, *doors, *statements, first)?;
        let found = found_again(&rt, alloc, *workers, *doors, *statements, file.as_slice())?;
        check(alloc, *workers, *doors, found.as_str(), again)?;
    }
    Ok(())
}

// What responses tell of a disk that fails for good.
#[derive(Clone, Copy)]
struct Tally {
    // how many acknowledge an entry, and how many leave one in doubt
    kept: u64,
    doubted: u64,
    // whether all others tell of a fault
    fits: bool,
}

fn take_in(tally: &mut Tally, talk: &Talk) {
    for receipt in talk.receipts() {
        let rose = receipt.was() < receipt.is();
        match (receipt.status(), receipt.entry()) {
            (204, Some(_)) => {
                tally.kept = tally.kept.saturating_add(1);
                tally.fits = tally.fits && !rose;
            }
            (503, Some(_)) => {
                tally.doubted = tally.doubted.saturating_add(1);
                tally.fits = tally.fits && rose;
            }
            (503, None) => tally.fits = tally.fits && rose,
            _ => tally.fits = false,
        }
    }
}

fn tally_of(talks: &[Items<Talk>]) -> Tally {
    let mut tally = Tally {
        kept: 0,
        doubted: 0,
        fits: true,
    };
    for of_one in talks {
        for talk in of_one.as_slice() {
            take_in(&mut tally, talk);
        }
    }
    tally
}

// Whether six statements were answered so, and the run ends as it must.
fn is_told(ran: &Ran, tally: &Tally) -> bool {
    let ends = match tally.doubted {
        0 => ran.ends(0, "served 6\n"),
        1 => ran.ends(5, "disk fault\n"),
        _ => false,
    };
    let length = tally.kept.saturating_add(tally.doubted).saturating_add(1);
    ends && tally.fits && ran.responses == 6 && ran.length == length
}

// How many entries a store of these bytes has.
fn entries_of<R: Threads + Wait + Sync>(rt: &R, alloc: Global, file: &[u8]) -> Result<u64, Fail> {
    let around = Around {
        disk_calls: 999,
        ..Around::calm(file, "", &[])
    };
    let ran = run_over(rt, alloc, SERVE, &around)?;
    let length = ran.length;
    drop(ran);
    Ok(length)
}

// Whether the file has all that was acknowledged, and the entry in doubt or not.
fn is_kept<R: Threads + Wait + Sync>(
    rt: &R,
    alloc: Global,
    ran: &Ran,
    tally: &Tally,
) -> Result<bool, Fail> {
    let file = ran.file().ok_or("no disk")?;
    let further = entries_of(rt, alloc, file)?.saturating_sub(1);
    Ok(tally.kept <= further && further <= tally.kept.saturating_add(tally.doubted))
}

// What a run of two workers is over a disk of which all calls from one on fail, or none if it isn't as it must be.
fn stage_of<R: Threads + Wait + Sync>(
    rt: &R,
    alloc: Global,
    ran: &Ran,
) -> Result<Option<Stage>, Fail> {
    if ran.length == 0 {
        let ends = ran.ends(5, "disk fault\n") && ran.leaves(stored());
        return Ok(if ends { Some(Stage::Unopened) } else { None });
    }
    let tally = tally_of(ran.talks.as_slice());
    if !is_told(ran, &tally) || !is_kept(rt, alloc, ran, &tally)? {
        return Ok(None);
    }
    Ok(Some(match tally {
        Tally { doubted: 1, .. } => Stage::Doubted,
        Tally { kept: 6, .. } => Stage::Whole,
        _ => Stage::Lost,
    }))
}

#[derive(Clone, Copy, PartialEq, Eq)]
enum Stage {
    Unopened,
    // the failing call is one before the entry's gate is written
    Lost,
    // it is one after that
    Doubted,
    // it never comes
    Whole,
}

fn stage_at<R: Threads + Wait + Sync>(
    rt: &R,
    alloc: Global,
    first: u64,
) -> Result<Option<Stage>, Fail> {
    let streams = streams(alloc, "", 2, 3)?;
    let failing: Vec<u64> = (first..128).collect(alloc)?;
    let ran = served(
        rt,
        alloc,
        2,
        stored(),
        streams.as_slice(),
        failing.as_slice(),
    )?;
    let stage = stage_of(rt, alloc, &ran);
    drop(ran);
    stage
}

// An entry takes six calls: four before its gate is written, and two to write it.
#[test]
fn a_disk_that_fails_for_good_is_told_to_all_and_at_the_end(rt: HostRuntime) -> Result<(), Fail> {
    let mut lost: u64 = 0;
    let mut doubted: u64 = 0;
    for first in 0..60u64 {
        match stage_at(&rt, rt.alloc(), first)? {
            Some(Stage::Lost) => lost = lost.saturating_add(1),
            Some(Stage::Doubted) => doubted = doubted.saturating_add(1),
            Some(Stage::Unopened | Stage::Whole) => (),
            None => return Err(Fail::from(format!(in rt.alloc(); "call {first}")?)),
        }
    }
    if lost == 24 && doubted == 12 {
        Ok(())
    } else {
        Err(Fail::from(format!(in rt.alloc(); "{lost} lost, {doubted} doubted")?))
    }
}

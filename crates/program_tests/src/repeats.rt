//! A statement that is put once more because a call of the disk failed in its append.
use crate::runs::{Around, DISK, NO_CONTENT, PUT, Ran, SERVE, SHOWN, joined, run_over, stored};
use lrs_app::Receipt;
use lrs_disk::Disk;
use std::alloc::Global;
use std::sync::Wait;
use std::test::Fail;
use std::thread::Threads;

const LIST: &str =
    "GET /xapi/statements HTTP/1.1\r\nX-Experience-API-Version: 1.0.3\r\nAuthorization: Basic adminadmin\r\n\r\n";

// Which call of the append fails, the response to the PUT, and what the receipts tell of it, of its repeat and of a list.
// The fourth call syncs what stands before the gate, the fifth writes the gate, the sixth syncs it. A seventh never comes.
const CALLS: [(u64, &str, &str); 7] = [
    (1, DISK, "503 fault, 204 entry 1, 200, "),
    (2, DISK, "503 fault, 204 entry 1, 200, "),
    (3, DISK, "503 fault, 204 entry 1, 200, "),
    (4, DISK, "503 fault, 204 entry 1, 200, "),
    (5, DISK, "503 entry 1 fault, 204 landed 1, 200, "),
    (6, DISK, "503 entry 1 fault, 204 landed 1, 200, "),
    (7, NO_CONTENT, "204 entry 1, 204, 200, "),
];

/// The number of the first call of the disk that a PUT to the new store makes: the last six are those of its append.
pub fn first_of_append<R: Threads + Wait + Sync>(rt: &R, alloc: Global) -> Result<u64, Fail> {
    let ran = run_over(rt, alloc, SERVE, &Around::calm(stored(), "", &[PUT]))?;
    let calls = match ran.disk() {
        Some(disk) => disk.moment(),
        None => 0,
    };
    drop(ran);
    Ok(calls.saturating_sub(6))
}

// The response to a list of one statement, by that to the statement alone.
fn list_of(alloc: Global, head: &str, statement: &str) -> Result<String, Fail> {
    let head = head.replace(alloc, "Length: 342", "Length: 369")?;
    joined(
        alloc,
        &[
            head.as_str(),
            "\r\n\r\n{\"statements\":[",
            statement,
            "],\"more\":\"\"}",
        ],
    )
}

fn listed(alloc: Global) -> Result<String, Fail> {
    match SHOWN.split_once("\r\n\r\n") {
        Some((head, statement)) => list_of(alloc, head, statement),
        None => Err(Fail::from("no body")),
    }
}

// Adds what a receipt tells: the status, the own entry, the one whose doubt was ended, and whether the disk failed.
fn push_receipt(alloc: Global, text: &mut String, receipt: &Receipt) -> Result<(), Fail> {
    text.push_str(receipt.status().to_string(alloc)?.as_str())?;
    if let Some(entry) = receipt.entry() {
        text.push_str(format!(in alloc; " entry {entry}")?.as_str())?;
    }
    if let Some(landed) = receipt.landed() {
        text.push_str(format!(in alloc; " landed {landed}")?.as_str())?;
    }
    if receipt.was() < receipt.is() {
        text.push_str(" fault")?;
    }
    text.push_str(", ")?;
    Ok(())
}

fn told(alloc: Global, receipts: &[Receipt]) -> Result<String, Fail> {
    let mut text = String::new(alloc);
    for receipt in receipts {
        push_receipt(alloc, &mut text, receipt)?;
    }
    Ok(text)
}

// What the receipts tell, and what else is wrong.
fn found_in(alloc: Global, ran: &Ran, answers: &str) -> Result<String, Fail> {
    let mut text = told(alloc, ran.talk().ok_or("no talk")?.receipts())?;
    if !ran.ends(0, "served 3\n") || ran.length != 2 {
        text.push_str("another end")?;
    } else if !ran.sends(answers) {
        text.push_str("other responses")?;
    }
    Ok(text)
}

// The same, and the file.
fn left_by(alloc: Global, ran: &Ran, answers: &str) -> Result<(String, Vec<u8>), Fail> {
    let found = found_in(alloc, ran, answers)?;
    Ok((found, ran.copy(alloc)?))
}

// Fails if the file of a run doesn't open with that one statement.
fn check_file<R: Threads + Wait + Sync>(
    rt: &R,
    alloc: Global,
    file: &[u8],
    listed: &str,
) -> Result<(), Fail> {
    let ran = run_over(rt, alloc, SERVE, &Around::calm(file, "", &[LIST]))?;
    let is_listed = ran.sends(listed) && ran.length == 2;
    drop(ran);
    if is_listed {
        Ok(())
    } else {
        Err(Fail::from("another file"))
    }
}

// What is found of a PUT and its repeat where this call of the disk fails.
fn found_at<R: Threads + Wait + Sync>(
    rt: &R,
    alloc: Global,
    call: u64,
    first: &str,
    listed: &str,
) -> Result<String, Fail> {
    let stream = joined(alloc, &[PUT, PUT, LIST])?;
    let answers = joined(alloc, &[first, NO_CONTENT, listed])?;
    let streams = [stream.as_str()];
    let failing = [call];
    let around = Around {
        disk_fails: &failing,
        ..Around::calm(stored(), "", &streams)
    };
    let ran = run_over(rt, alloc, SERVE, &around)?;
    let left = left_by(alloc, &ran, answers.as_str());
    drop(ran);
    let (found, file) = left?;
    check_file(rt, alloc, file.as_slice(), listed)?;
    Ok(found)
}

// Fails with the first row of which something else is found.
fn check_calls<R: Threads + Wait + Sync>(rt: &R, alloc: Global) -> Result<(), Fail> {
    let before = first_of_append(rt, alloc)?.saturating_sub(1);
    let listed = listed(alloc)?;
    for (call, first, expected) in CALLS.iter() {
        let failing = before.saturating_add(*call);
        let found = found_at(rt, alloc, failing, first, listed.as_str())?;
        if found.as_str() != *expected {
            return Err(Fail::from(format!(in alloc; "call {call}: {found}")?));
        }
    }
    Ok(())
}

#[test]
fn a_put_that_is_repeated_lands_in_doubt_and_is_made_anew_without(
    rt: HostRuntime,
) -> Result<(), Fail> {
    check_calls(&rt, rt.alloc())
}

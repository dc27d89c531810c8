//! What comes of a connection whose link fails, and of the same requests over a new link.
use crate::served::{Served, link_of, serve_links};
use crate::workers::{ID_1, get, joined, put};
use lrs_disk::Link;
use lrs_hall::Finish;
use std::alloc::Global;
use std::sync::Wait;
use std::test::Fail;
use std::thread::Threads;

// Two statements, and a list of all.
const BATCH: &str =
    "POST /xapi/statements HTTP/1.1\r\nX-Experience-API-Version: 1.0.3\r\nAuthorization: Basic adminadmin\r\nContent-Length: 265\r\n\r\n[{\"id\":\"22222222-2222-4222-8222-222222222222\",\"actor\":{\"mbox\":\"mailto:a@b\"},\"verb\":{\"id\":\"http://v/2\"},\"object\":{\"id\":\"http://a/1\"}},{\"id\":\"33333333-3333-4333-8333-333333333333\",\"actor\":{\"mbox\":\"mailto:a@b\"},\"verb\":{\"id\":\"http://v/3\"},\"object\":{\"id\":\"http://a/1\"}}]";

const LIST: &str =
    "GET /xapi/statements HTTP/1.1\r\nX-Experience-API-Version: 1.0.3\r\nAuthorization: Basic adminadmin\r\n\r\n";

// Where reads end, so that a link may fail within each request.
const CUTS: [usize; 9] = [100, 200, 300, 400, 500, 600, 700, 800, 900];

// How many calls the conversation makes of a calm link: reads of ten pieces and of the rest of a body, a write for each
// response, and a read that finds the end.
const CALLS: u64 = 16;

// What is left of a link that takes so many bytes and fails at these calls, and of a calm one that brings the same.
fn sent_twice<R: Threads + Wait + Sync>(
    rt: &R,
    alloc: Global,
    stream: &str,
    room: usize,
    failing: &[u64],
) -> Result<Served, Fail> {
    let first = link_of(alloc, stream, &CUTS, room, failing)?;
    let second = link_of(alloc, stream, &CUTS, 9_999, &[])?;
    serve_links(rt, alloc, vec![in alloc; first, second]?)
}

// What both links were sent, and how many entries there are.
fn told(alloc: Global, served: &Served) -> Result<String, Fail> {
    let first = served.told(alloc, 0)?;
    let second = served.told(alloc, 1)?;
    let taken = str::from_utf8(served.link(0)?.taken())?;
    let entries = served.length;
    Ok(format!(in alloc; "{first} {taken}, {second}, {entries}")?)
}

fn told_of_put<R: Threads + Wait + Sync>(rt: &R, alloc: Global) -> Result<String, Fail> {
    let put = put(alloc, ID_1, "1")?;
    let served = sent_twice(rt, alloc, put.as_str(), 5, &[])?;
    let told = told(alloc, &served);
    drop(served);
    told
}

#[test]
fn a_put_stands_of_which_five_bytes_were_answered(rt: HostRuntime) -> Result<(), Fail> {
    let told = told_of_put(&rt, rt.alloc())?;
    if told.as_str() == "fault 204 kept HTTP/, ended 204, 2" {
        Ok(())
    } else {
        Err(Fail::from(told))
    }
}

// A PUT, a GET, a batch and a list.
fn conversation(alloc: Global) -> Result<String, Fail> {
    let put = put(alloc, ID_1, "1")?;
    let get = get(alloc, ID_1)?;
    joined(alloc, &[put.as_str(), get.as_str(), BATCH, LIST])
}

// What went out over a first link that didn't fail.
fn calm_in(alloc: Global, served: &Served) -> Result<Vec<u8>, Fail> {
    if served.told(alloc, 0)?.as_str() == "ended 204 kept 200 200 kept 200" {
        Ok(served.link(0)?.taken().to_vec(alloc)?)
    } else {
        Err(Fail::from("another calm conversation"))
    }
}

fn calm<R: Threads + Wait + Sync>(rt: &R, alloc: Global, stream: &str) -> Result<Vec<u8>, Fail> {
    let served = sent_twice(rt, alloc, stream, 9_999, &[])?;
    let calm = calm_in(alloc, &served);
    drop(served);
    calm
}

// Whether a call of the first link failed, or nothing if something else came of that than has to.
fn failed(served: &Served, calm: &[u8]) -> Result<Option<bool>, Fail> {
    let failed = served.link(0)?.faults() > 0;
    let finish = if failed {
        Finish::LinkFault
    } else {
        Finish::Ended
    };
    let taken = served.link(0)?.taken();
    let front = calm.starts_with(taken) && (failed || taken == calm);
    let ends = served.talk(0)?.finish() == finish && served.talk(1)?.finish() == Finish::Ended;
    let calm_store = served.link(1)?.taken() == calm && served.length == 3;
    Ok(if front && ends && calm_store {
        Some(failed)
    } else {
        None
    })
}

fn failed_at<R: Threads + Wait + Sync>(
    rt: &R,
    alloc: Global,
    stream: &str,
    calm: &[u8],
    call: u64,
) -> Result<Option<bool>, Fail> {
    let served = sent_twice(rt, alloc, stream, 9_999, &[call])?;
    let failed = failed(&served, calm);
    drop(served);
    failed
}

// Fails with the first call of which something else comes.
fn check_calls<R: Threads + Wait + Sync>(rt: &R, alloc: Global) -> Result<(), Fail> {
    let stream = conversation(alloc)?;
    let calm = calm(rt, alloc, stream.as_str())?;
    for call in 0..CALLS.saturating_add(1) {
        let failed = failed_at(rt, alloc, stream.as_str(), calm.as_slice(), call)?;
        if failed != Some(call < CALLS) {
            return Err(Fail::from(format!(in alloc; "call {call}")?));
        }
    }
    Ok(())
}

#[test]
fn a_link_that_fails_at_any_call_leaves_what_can_be_sent_again(
    rt: HostRuntime,
) -> Result<(), Fail> {
    check_calls(&rt, rt.alloc())
}

//! Several workers over one desk.
ghost use Rattle.std.specs.Prelude.{◌≡◌, ◌≤◌, None, All, IfOk, length};
ghost use Rattle.lrs_in_memory_doors.specs.GateDoor.{door_of};
ghost use Rattle.lrs_in_memory_doors.specs.MemDoor.{out_of};

use crate::desks::{NOW, founded, if_founded};
use lrs_disk::Disk;
use lrs_hall::{Desk, Finish, Receipt, ServeEnd, Talk, serve_all};
use lrs_in_memory::{MemDisk, Pending};
use lrs_in_memory_doors::{Gate, GateDoor, MemDoor, MemLink, Sign, Until};
use lrs_json::Items;
use std::alloc::Global;
use std::sync::Wait;
use std::test::Fail;
use std::thread::Threads;

pub(crate) const ID_1: &str = "11111111-1111-4111-8111-111111111111";

const ID_2: &str = "22222222-2222-4222-8222-222222222222";

const BODY_LENGTH: usize = 131;

// These texts, one after the other.
pub(crate) fn joined(alloc: Global, parts: &[&str]) -> Result<String, Fail> {
    let mut text = String::new(alloc);
    for part in parts {
        text.push_str(part)?;
    }
    Ok(text)
}

// A request that puts the statement of an id and of the verb of a digit.
pub(crate) fn put(alloc: Global, id: &str, verb: &str) -> Result<String, Fail> {
    joined(
        alloc,
        &[
            "PUT /xapi/statements?statementId=",
            id,
            " HTTP/1.1\r\nX-Experience-API-Version: 1.0.3\r\nAuthorization: Basic adminadmin\r\nContent-Length: 131\r\n\r\n{\"id\":\"",
            id,
            "\",\"actor\":{\"mbox\":\"mailto:a@b\"},\"verb\":{\"id\":\"http://v/",
            verb,
            "\"},\"object\":{\"id\":\"http://a/1\"}}",
        ],
    )
}

// A request for the statement of an id.
pub(crate) fn get(alloc: Global, id: &str) -> Result<String, Fail> {
    joined(
        alloc,
        &[
            "GET /xapi/statements?statementId=",
            id,
            " HTTP/1.1\r\nX-Experience-API-Version: 1.0.3\r\nAuthorization: Basic adminadmin\r\n\r\n",
        ],
    )
}

// Requests that put so many statements of ids from this one on, each so often.
fn puts(alloc: Global, first: u64, count: u64, times: usize) -> Result<String, Fail> {
    let mut text = String::new(alloc);
    for number in 0..count {
        let last = first.saturating_add(number);
        let id = format!(in alloc; "00000000-0000-4000-8000-{last}")?;
        let request = put(alloc, id.as_str(), "1")?;
        text.push_str(request.as_str().repeat(alloc, times)?.as_str())?;
    }
    Ok(text)
}

// A door with one connection, which has this gate.
fn door(alloc: Global, stream: &str, gate: Gate) -> Result<GateDoor, Fail>
    ensures { IfOk result (λ door. out_of (door_of door) ≡ None) }
{
    let gates = vec![in alloc; gate]?;
    let input = stream.as_bytes().to_vec(alloc)?;
    let link = MemLink::new(alloc, input, Vec::new(alloc), 9_999, Vec::new(alloc))?;
    let links = vec![in alloc; link]?;
    let door = MemDoor::new(alloc, links, vec![in alloc; NOW]?, Vec::new(alloc))?;
    Ok(GateDoor::new(door, gates))
}

// Two doors, with these gates.
fn doors_of(alloc: Global, streams: [&str; 2], gates: (Gate, Gate)) -> Result<Vec<GateDoor>, Fail>
    ensures count { IfOk result (λ doors. length doors.items ≡ 2) }
    ensures unused { IfOk result (λ doors. All (λ door. out_of (door_of door) ≡ None) doors.items) }
{
    let (first, second) = gates;
    let one = door(alloc, streams[0], first)?;
    let other = door(alloc, streams[1], second)?;
    Ok(vec![in alloc; one, other]?)
}

// What two workers left.
#[derive(Drop)]
struct Served {
    talks: Items<Items<Talk>>,
    doors: Vec<GateDoor>,
    // of the desk's line
    records: u64,
    // how many entries its file then has, and none if it doesn't open or serving wasn't done
    entries: u64,
}

// How many entries are found on a disk of these bytes.
fn entries_of(alloc: Global, bytes: Vec<u8>) -> u64 {
    let Ok(disk) = MemDisk::new(alloc, bytes, Vec::new(alloc), 999, 999) else {
        return 0;
    };
    match Desk::recover(alloc, disk) {
        Ok(desk) => {
            let entries = desk.length();
            drop(desk);
            entries
        }
        Err(refused) => {
            drop(refused);
            0
        }
    }
}

// How many entries a crash leaves after the desk was closed.
fn entries_behind(alloc: Global, desk: Desk<MemDisk>) -> u64 {
    match desk.close() {
        Ok(disk) => {
            let image = disk.image(disk.moment(), Pending::Lost);
            drop(disk);
            match image {
                Ok(bytes) => entries_of(alloc, bytes),
                Err(_) => 0,
            }
        }
        Err(refused) => {
            drop(refused);
            0
        }
    }
}

fn serve<R: Threads + Wait + Sync>(
    rt: &R,
    alloc: Global,
    desk: Desk<MemDisk>,
    doors: Vec<GateDoor>,
) -> Served
    requires count { length doors.items ≡ 2 }
    requires unused { All (λ door. out_of (door_of door) ≡ None) doors.items }
{
    let (desk, doors, talks, end) = serve_all(rt, alloc, desk, doors, 1, [0; 32]);
    let records = desk.records();
    let entries = match end {
        ServeEnd::Done => entries_behind(alloc, desk),
        ServeEnd::DoorFault | ServeEnd::Memory => {
            drop(desk);
            0
        }
    };
    Served {
        talks,
        doors,
        records,
        entries,
    }
}

// What came of two workers, each with one connection, over a new desk.
fn served_two<R: Threads + Wait + Sync>(
    rt: &R,
    alloc: Global,
    streams: [&str; 2],
    gates: (Gate, Gate),
) -> Result<Served, Fail> {
    let doors = doors_of(alloc, streams, gates)?;
    match founded(alloc) {
        Ok(desk) => Ok(serve(rt, alloc, desk, doors)),
        Err(fail) => {
            drop(doors);
            Err(fail)
        }
    }
}

// The receipts of the one connection of a worker.
fn receipts(talks: &[Items<Talk>], worker: usize) -> &[Receipt] {
    let Some(talks) = talks.get(worker) else {
        return &[];
    };
    match talks.as_slice().first() {
        Some(talk) => talk.receipts(),
        None => &[],
    }
}

fn finish(talks: &[Items<Talk>], worker: usize) -> &'static str {
    let first = match talks.get(worker) {
        Some(talks) => talks.as_slice().first(),
        None => None,
    };
    match first {
        Some(talk) => match talk.finish() {
            Finish::Ended => "ended",
            Finish::LinkFault => "fault",
            Finish::Closed | Finish::Cut | Finish::Memory => "other",
        },
        None => "none",
    }
}

// The statuses of a worker's responses, and how its conversation ended.
fn told_of_one(alloc: Global, talks: &[Items<Talk>], worker: usize) -> Result<String, Fail> {
    let mut told = String::new(alloc);
    for receipt in receipts(talks, worker) {
        let status = receipt.status();
        told = format!(in alloc; "{told}{status} ")?;
    }
    told.push_str(finish(talks, worker))?;
    Ok(told)
}

// The same of both workers, and the number of entries that the file has behind them.
fn told_by(alloc: Global, served: &Served) -> Result<String, Fail> {
    let first = told_of_one(alloc, served.talks.as_slice(), 0)?;
    let second = told_of_one(alloc, served.talks.as_slice(), 1)?;
    let entries = served.entries;
    Ok(format!(in alloc; "{first} | {second} | {entries}")?)
}

fn told_of_two<R: Threads + Wait + Sync>(
    rt: &R,
    alloc: Global,
    streams: [&str; 2],
    gates: (Gate, Gate),
) -> Result<String, Fail> {
    let served = served_two(rt, alloc, streams, gates)?;
    let told = told_by(alloc, &served);
    drop(served);
    told
}

// Fails with what was found, if it is neither of these.
fn check(found: String, one: &str, other: &str) -> Result<(), Fail> {
    if found.as_str() == one || found.as_str() == other {
        Ok(())
    } else {
        Err(Fail::from(found))
    }
}

// No gate before either link.
fn no_gates(alloc: Global) -> Result<(Gate, Gate), Fail> {
    let one = Sign::new(alloc)?;
    let other = Sign::new(alloc)?;
    Ok((Gate::open(one), Gate::open(other)))
}

// The second link gives nothing until the first was answered.
fn second_behind_first(alloc: Global) -> Result<(Gate, Gate), Fail> {
    let one = Sign::new(alloc)?;
    let other = Sign::new(alloc)?;
    let answered = Until::Answered(one.again()?);
    Ok((Gate::open(one), Gate::input(other, 0, answered)))
}

// The first link gives nothing from this offset on until the second was answered, which gives nothing until the first
// waits.
fn first_held_in_reading(alloc: Global, offset: usize) -> Result<(Gate, Gate), Fail> {
    let one = Sign::new(alloc)?;
    let other = Sign::new(alloc)?;
    let waits = Until::Waits(one.again()?);
    let answered = Until::Answered(other.again()?);
    Ok((
        Gate::input(one, offset, answered),
        Gate::input(other, 0, waits),
    ))
}

// The same with a first link that takes nothing.
fn first_held_in_writing(alloc: Global) -> Result<(Gate, Gate), Fail> {
    let one = Sign::new(alloc)?;
    let other = Sign::new(alloc)?;
    let waits = Until::Waits(one.again()?);
    let answered = Until::Answered(other.again()?);
    Ok((Gate::output(one, answered), Gate::input(other, 0, waits)))
}

// The first worker's statement is there for the second once it was answered. Then both put one id.
#[test]
fn what_a_worker_acknowledged_is_there_for_another(rt: HostRuntime) -> Result<(), Fail> {
    let alloc = rt.alloc();
    let front = put(alloc, ID_1, "1")?;
    let first = joined(alloc, &[front.as_str(), put(alloc, ID_2, "1")?.as_str()])?;
    let asked = get(alloc, ID_1)?;
    let second = joined(alloc, &[asked.as_str(), put(alloc, ID_2, "2")?.as_str()])?;
    let gates = second_behind_first(alloc)?;
    let found = told_of_two(&rt, alloc, [first.as_str(), second.as_str()], gates)?;
    check(
        found,
        "204 204 ended | 200 409 ended | 3",
        "204 409 ended | 200 204 ended | 3",
    )
}

// Of a server that reads requests within the turn, or that has one thread, one of the links fails in the end.
#[test]
fn a_link_that_is_slow_to_give_holds_up_no_other(rt: HostRuntime) -> Result<(), Fail> {
    let alloc = rt.alloc();
    let first = put(alloc, ID_1, "1")?;
    let second = put(alloc, ID_2, "1")?;
    let gates = first_held_in_reading(alloc, first.len().saturating_sub(BODY_LENGTH))?;
    let found = told_of_two(&rt, alloc, [first.as_str(), second.as_str()], gates)?;
    check(found, "204 ended | 204 ended | 3", "")
}

// So does the first link of a server that writes responses within the turn.
#[test]
fn a_link_that_is_slow_to_take_holds_up_no_other(rt: HostRuntime) -> Result<(), Fail> {
    let alloc = rt.alloc();
    let first = put(alloc, ID_1, "1")?;
    let second = put(alloc, ID_2, "1")?;
    let gates = first_held_in_writing(alloc)?;
    let found = told_of_two(&rt, alloc, [first.as_str(), second.as_str()], gates)?;
    check(found, "204 ended | 204 ended | 3", "")
}

// Two links that put one id at once, with these verbs.
fn one_id<R: Threads + Wait + Sync>(
    rt: &R,
    alloc: Global,
    one: &str,
    other: &str,
) -> Result<String, Fail> {
    let first = put(alloc, ID_1, one)?;
    let second = put(alloc, ID_1, other)?;
    let gates = no_gates(alloc)?;
    told_of_two(rt, alloc, [first.as_str(), second.as_str()], gates)
}

#[test]
fn of_two_statements_of_one_id_one_is_kept(rt: HostRuntime) -> Result<(), Fail> {
    for _ in 0..20u64 {
        let found = one_id(&rt, rt.alloc(), "1", "2")?;
        check(
            found,
            "204 ended | 409 ended | 2",
            "409 ended | 204 ended | 2",
        )?;
    }
    Ok(())
}

#[test]
fn a_statement_that_comes_twice_at_once_is_kept_once(rt: HostRuntime) -> Result<(), Fail> {
    for _ in 0..20u64 {
        let found = one_id(&rt, rt.alloc(), "1", "1")?;
        check(found, "204 ended | 204 ended | 2", "")?;
    }
    Ok(())
}

// Counts for each index how many of these receipts tell it as their entry's.
fn count_entries(counts: &mut [u64], receipts: &[Receipt]) {
    for receipt in receipts {
        if let Some(entry) = receipt.entry() {
            let index = entry as usize;
            if index < counts.len() {
                counts[index] = counts[index].saturating_add(1);
            }
        }
    }
}

// Whether each of a hundred entries behind the founding one is that of one receipt, and there are no more.
fn are_hundred_told_once(served: &Served) -> bool {
    let mut counts = [0; 101];
    count_entries(&mut counts, receipts(served.talks.as_slice(), 0));
    count_entries(&mut counts, receipts(served.talks.as_slice(), 1));
    let once = counts[1..].iter().all(|count| *count == 1);
    once && counts[0] == 0 && served.records == 101 && served.entries == 101
}

// Two links put fifty statements each.
#[test]
fn each_entry_is_told_by_one_worker(rt: HostRuntime) -> Result<(), Fail> {
    let alloc = rt.alloc();
    let first = puts(alloc, 100_000_000_000, 50, 1)?;
    let second = puts(alloc, 200_000_000_000, 50, 1)?;
    let gates = no_gates(alloc)?;
    let served = served_two(&rt, alloc, [first.as_str(), second.as_str()], gates)?;
    let told_once = are_hundred_told_once(&served);
    drop(served);
    assert!(rt; told_once);
    Ok(())
}

// What receipts tell of a disk of which one call may have failed.
#[derive(Clone, Copy)]
struct Tally {
    // responses that tell of trouble, and acts that changed the journal
    troubles: u64,
    changes: u64,
    // the entry that was left in doubt, the one whose doubt was ended, and how often one was
    doubted: Option<u64>,
    landed: Option<u64>,
    landings: u64,
}

// Whether this receipt goes with what became of the disk, which it is added to. Only the first of the two PUTs of a
// statement may meet with trouble.
fn goes_with(tally: &mut Tally, receipt: &Receipt, is_first: bool) -> bool {
    let rose = receipt.was() < receipt.is();
    if receipt.changed() {
        tally.changes = tally.changes.saturating_add(1);
    }
    if receipt.landed().is_some() {
        tally.landed = receipt.landed();
        tally.landings = tally.landings.saturating_add(1);
    }
    match receipt.status() {
        204 => !rose,
        503 => {
            tally.troubles = tally.troubles.saturating_add(1);
            tally.doubted = receipt.entry();
            rose && is_first
        }
        _ => false,
    }
}

fn all_go_with(tally: &mut Tally, receipts: &[Receipt]) -> bool {
    for (index, receipt) in receipts.iter().enumerate() {
        if !goes_with(tally, receipt, index % 2 == 0) {
            return false;
        }
    }
    receipts.len() == 6
}

// Whether each of the six entries is told once, and the file has them all.
fn are_six_kept(served: &Served) -> bool {
    let mut counts = [0; 7];
    count_entries(&mut counts, receipts(served.talks.as_slice(), 0));
    count_entries(&mut counts, receipts(served.talks.as_slice(), 1));
    let once = counts[1..].iter().all(|count| *count == 1);
    once && counts[0] == 0 && served.entries == 7
}

// What became of three statements of each of two workers, each put twice, if it goes together: whether there was a
// trouble. A doubt is ended by the next act, and told to have been.
fn trouble_of(served: &Served) -> Option<bool> {
    let mut tally = Tally {
        troubles: 0,
        changes: 0,
        doubted: None,
        landed: None,
        landings: 0,
    };
    let first = all_go_with(&mut tally, receipts(served.talks.as_slice(), 0));
    let second = all_go_with(&mut tally, receipts(served.talks.as_slice(), 1));
    let landed = tally.landed == tally.doubted && tally.landings < 2;
    let told = tally.troubles < 2 && served.records == tally.changes.saturating_add(1);
    if first && second && landed && told && are_six_kept(served) {
        Some(tally.troubles == 1)
    } else {
        None
    }
}

const NO_CONTENT: &str = "HTTP/1.1 204 No Content\r\nX-Experience-API-Version: 1.0.3\r\n\r\n";

const DISK: &str =
    "HTTP/1.1 503 Service Unavailable\r\nContent-Type: application/json\r\nContent-Length: 16\r\nX-Experience-API-Version: 1.0.3\r\n\r\n{\"error\":\"disk\"}";

// What the one link of a door took.
fn taken(doors: &[GateDoor], door: usize) -> &[u8] {
    let Some(door) = doors.get(door) else {
        return &[];
    };
    match door.returned().first() {
        Some(link) => link.taken(),
        None => &[],
    }
}

// Whether a worker's link took these responses, by their statuses.
fn is_sent(alloc: Global, served: &Served, worker: usize) -> Result<bool, Fail> {
    let mut text = String::new(alloc);
    for receipt in receipts(served.talks.as_slice(), worker) {
        text.push_str(match receipt.status() {
            204 => NO_CONTENT,
            _ => DISK,
        })?;
    }
    let sent = taken(served.doors.as_slice(), worker);
    Ok(sent == text.as_str().as_bytes() && finish(served.talks.as_slice(), worker) == "ended")
}

fn are_both_sent(alloc: Global, served: &Served) -> Result<bool, Fail> {
    Ok(is_sent(alloc, served, 0)? && is_sent(alloc, served, 1)?)
}

// The same of three statements of each of two workers over a disk of which this call fails. There is no trouble to tell
// if the desk could not be founded.
fn trouble_at<R: Threads + Wait + Sync>(
    rt: &R,
    alloc: Global,
    call: u64,
) -> Result<Option<bool>, Fail> {
    let first = puts(alloc, 100_000_000_000, 3, 2)?;
    let second = puts(alloc, 200_000_000_000, 3, 2)?;
    let doors = doors_of(alloc, [first.as_str(), second.as_str()], no_gates(alloc)?)?;
    match if_founded(alloc, &[call]) {
        Ok(Some(desk)) => {
            let served = serve(rt, alloc, desk, doors);
            let trouble = trouble_of(&served);
            let sent = are_both_sent(alloc, &served);
            drop(served);
            if sent? { Ok(trouble) } else { Ok(None) }
        }
        Ok(None) => {
            drop(doors);
            Ok(Some(false))
        }
        Err(fail) => {
            drop(doors);
            Err(fail)
        }
    }
}

// One call fails, one after the other: one response tells of it. Its statement is taken when it is put again, and all
// are kept. Each of the six entries takes six calls.
#[test]
fn a_call_of_the_disk_that_fails_is_told_to_one_client(rt: HostRuntime) -> Result<(), Fail> {
    let mut troubles: u64 = 0;
    for call in 0..60u64 {
        match trouble_at(&rt, rt.alloc(), call)? {
            Some(true) => troubles = troubles.saturating_add(1),
            Some(false) => (),
            None => {
                return Err(Fail::from(format!(in rt.alloc(); "call {call}")?));
            }
        }
    }
    if troubles == 36 {
        Ok(())
    } else {
        Err(Fail::from(format!(in rt.alloc(); "{troubles} troubles")?))
    }
}

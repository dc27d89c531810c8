//! Workers: each serves the connections of a door of its own, and they take the desk in turns.
ghost use Rattle.std.specs.Prelude.{◌≡◌, ◌≤◌, ◌<◌, [], All, IfOk, IfErr, length, map, vec_capacity, None};
ghost use Rattle.std.specs.List.{AllByRecursion};
ghost use Rattle.lrs_machine.specs.Desk.{IsOnDisk, marks_of, tide_of};
ghost use Rattle.lrs_machine.specs.Origin.{IsOfOrigin};
ghost use Rattle.lrs_turn.specs.Passes.{IsIdle, opened};
ghost use Rattle.lrs_hall.specs.Serving.{AreWithin, all_receipts, tide_at};
ghost use Rattle.lrs_hall.specs.Steps.{AreAtDoors, Works, WorksEach};
ghost use Rattle.lrs_hall.specs.Steps.{backwards, door_held, end_held, pass_held, talks_held};
ghost use Rattle.lrs_hall.specs.Workers.{HasSameOpening, ServesAll, ServesDoors, end_of, end_with};
ghost use Rattle.lrs_turn.specs.declared.turns.TheConstants.{MOST_PASSES};

use crate::serving::serve_door;
use crate::{Draws, ServeEnd, Talk};
use lrs_disk::{Disk, Door};
use lrs_json::{Items, Memory};
use lrs_machine::{Desk, Record};
use lrs_turn::{Journaled, Pass, Turns};
use std::alloc::Global;
use std::snapshot::Snapshot;
use std::sync::Wait;
use std::thread::{Threads, for_each_mut};

/// A worker at its door: what it works with, and what came of it.
#[derive(Drop)]
pub(crate) struct DoorWorker<O: Drop> {
    pub(crate) pass: Pass<Record>,
    pub(crate) door: O,
    pub(crate) draws: Draws,
    pub(crate) talks: Items<Talk>,
    pub(crate) end: ServeEnd,
}

// Room for the workers, and for all that they hand back. It is made before they start.
#[derive(Drop)]
struct Room<O: Drop> {
    workers: Vec<DoorWorker<O>>,
    passes: Vec<Pass<Record>>,
    doors: Vec<O>,
    talks: Vec<Items<Talk>>,
}

fn room_for<O: Drop>(alloc: Global, count: usize) -> Result<Room<O>, Memory>
    ensures workers { IfOk result (λ room. (room.workers.items ≡ []) × (count ≤ vec_capacity room.workers)) }
    ensures passes { IfOk result (λ room. (room.passes.items ≡ []) × (count ≤ vec_capacity room.passes)) }
    ensures doors { IfOk result (λ room. (room.doors.items ≡ []) × (count ≤ vec_capacity room.doors)) }
    ensures talks { IfOk result (λ room. (room.talks.items ≡ []) × (count ≤ vec_capacity room.talks)) }
{
    let workers = Vec::with_capacity(alloc, count)?;
    let passes = Vec::with_capacity(alloc, count)?;
    let doors = Vec::with_capacity(alloc, count)?;
    let talks = Vec::with_capacity(alloc, count)?;
    Ok(Room {
        workers,
        passes,
        doors,
        talks,
    })
}

// All that takes memory before the workers start. Without it the desk comes back.
fn begin<D: Disk, O: Drop>(
    alloc: Global,
    desk: Desk<D>,
    count: usize,
) -> Result<(Turns<Desk<D>>, Vec<Pass<Record>>, Room<O>), Desk<D>>
    requires { (0 < count) × (count ≤ MOST_PASSES) }
    ensures turns { IfOk result (λ r. (length r.1.items ≡ count) × (r.0.passes ≡ count)) }
    ensures opened { IfOk result
        (λ r. All (λ p. p ≡ opened r.0 desk.line (marks_of D.row.coded desk) (tide_of D.fault_count D.time desk))
        r.1.items) }
    ensures workers { IfOk result (λ r. (r.2.workers.items ≡ []) × (count ≤ vec_capacity r.2.workers)) }
    ensures passes { IfOk result (λ r. (r.2.passes.items ≡ []) × (count ≤ vec_capacity r.2.passes)) }
    ensures doors { IfOk result (λ r. (r.2.doors.items ≡ []) × (count ≤ vec_capacity r.2.doors)) }
    ensures talks { IfOk result (λ r. (r.2.talks.items ≡ []) × (count ≤ vec_capacity r.2.talks)) }
    ensures back { IfErr result (λ d. d ≡ desk) }
{
    let Ok(room) = room_for(alloc, count) else {
        return Err(desk);
    };
    match Turns::new(alloc, desk, count as u32) {
        Ok((turns, passes)) => Ok((turns, passes, room)),
        Err((_, desk)) => {
            drop(room);
            Err(desk)
        }
    }
}

// A worker for each door with a pass of its own, the last door's first. The draws of the worker at door k, counted from
// 1, are those of stream k.
fn workers_at<O: Door>(
    alloc: Global,
    mut passes: Vec<Pass<Record>>,
    mut doors: Vec<O>,
    mut workers: Vec<DoorWorker<O>>,
    seed: [u8; 32],
) -> Vec<DoorWorker<O>>
    requires same { length passes.items ≡ length doors.items }
    requires few { length doors.items ≤ MOST_PASSES }
    requires room { (workers.items ≡ []) × (length doors.items ≤ vec_capacity workers) }
    ensures { AreAtDoors passes.items doors.items seed result.items }
{
    while let Some(door) = doors.pop() {
        let Some(pass) = passes.pop() else {
            unreachable!()
        };
        let draws = Draws::new(seed, doors.len() as u64 + 1);
        workers.push_reserved(DoorWorker {
            pass,
            door,
            draws,
            talks: Items::new(alloc),
            end: ServeEnd::Done,
        });
    }
    workers
}

// Serves the door of one worker.
fn work<R: Wait, D: Disk, O: Door>(
    rt: &R,
    alloc: Global,
    turns: &Turns<Desk<D>>,
    worker: &mut DoorWorker<O>,
    connections: u32,
)
    requires idle { IsIdle turns.now worker.old.pass }
    requires out { (O.state worker.old.door).out ≡ None }
    ensures { Works O.state turns.now connections worker.old worker.new }
{
    let (talks, end) = serve_door(
        rt,
        alloc,
        turns,
        &mut worker.pass,
        &mut worker.door,
        &mut worker.draws,
        connections,
    );
    worker.talks = Items::from_vec(talks);
    worker.end = end;
}

// What workers take in turns to serve their doors. It is any such state, since to show that a desk may be lent to threads
// would take a comparison of all that it holds.
trait Workable: Journaled {
    // Serves the door of one worker.
    fn work<R: Wait, O: Door>(
        rt: &R,
        alloc: Global,
        turns: &Turns<Self>,
        worker: &mut DoorWorker<O>,
        connections: u32,
    )
        requires idle { IsIdle turns.now worker.old.pass }
        requires out { (O.state worker.old.door).out ≡ None }
        ensures { Works O.state turns.now connections worker.old worker.new };
}

impl<D: Disk> Workable for Desk<D> {
    fn work<R: Wait, O: Door>(
        rt: &R,
        alloc: Global,
        turns: &Turns<Desk<D>>,
        worker: &mut DoorWorker<O>,
        connections: u32,
    )
        requires idle { IsIdle turns.now worker.old.pass }
        requires out { (O.state worker.old.door).out ≡ None }
        ensures { Works O.state turns.now connections worker.old worker.new }
    {
        work(rt, alloc, turns, worker, connections)
    }
}

// Lets all workers serve, each in a thread of its own.
fn work_all<R: Threads + Wait + Sync, S: Workable + Send, O: Door + Send>(
    rt: &R,
    alloc: Global,
    turns: &Turns<S>,
    workers: &mut [DoorWorker<O>],
    connections: u32,
)
where
    S::Record: Send,
    O::Link: Send,
    requires some { 0 < length workers.old }
    requires idle { All (λ w. IsIdle turns.now w.pass) workers.old }
    requires out { All (λ w. (O.state w.door).out ≡ None) workers.old }
    ensures len { length workers.new ≡ length workers.old }
    ensures each { WorksEach O.state turns.now connections workers.old workers.new }
{
    let threads = workers.len();
    let serve = move |_: usize, worker: &mut DoorWorker<O>|
        requires { IsIdle turns.now worker.now.pass × ((O.state worker.now.door).out ≡ None) }
        ensures { Works O.state turns.entry.now connections worker.entry.now worker.exit.now }
    { S::work(rt, alloc, turns, worker, connections) };
    for_each_mut(rt, workers, threads, &serve);
}

// The workers after they have served.
fn worked<R: Threads + Wait + Sync, D: Disk + Send, O: Door + Send>(
    rt: &R,
    alloc: Global,
    turns: &Turns<Desk<D>>,
    mut workers: Vec<DoorWorker<O>>,
    connections: u32,
) -> Vec<DoorWorker<O>>
where
    O::Link: Send,
    requires some { 0 < length workers.items }
    requires idle { All (λ w. IsIdle turns.now w.pass) workers.items }
    requires out { All (λ w. (O.state w.door).out ≡ None) workers.items }
    ensures len { length result.items ≡ length workers.items }
    ensures each { WorksEach O.state turns.now connections workers.items result.items }
{
    work_all(rt, alloc, turns, workers.as_mut_slice(), connections);
    workers
}

// How two workers ended: a door that failed goes first, then want of memory.
fn end_with(end: ServeEnd, next: ServeEnd) -> ServeEnd
    ensures { result ≡ end_with end next }
{
    match (end, next) {
        (ServeEnd::DoorFault, _) | (_, ServeEnd::DoorFault) => ServeEnd::DoorFault,
        (ServeEnd::Memory, _) | (_, ServeEnd::Memory) => ServeEnd::Memory,
        (ServeEnd::Done, ServeEnd::Done) => ServeEnd::Done,
    }
}

// What workers leave: their passes, their doors and their talks, the first door's first, and how they ended.
fn gather<O: Door>(
    mut workers: Vec<DoorWorker<O>>,
    mut passes: Vec<Pass<Record>>,
    mut doors: Vec<O>,
    mut talks: Vec<Items<Talk>>,
) -> (Vec<Pass<Record>>, Vec<O>, Vec<Items<Talk>>, ServeEnd)
    requires passes { (passes.items ≡ []) × (length workers.items ≤ vec_capacity passes) }
    requires doors { (doors.items ≡ []) × (length workers.items ≤ vec_capacity doors) }
    requires talks { (talks.items ≡ []) × (length workers.items ≤ vec_capacity talks) }
    ensures passes { result.0.items ≡ backwards pass_held workers.items }
    ensures doors { result.1.items ≡ backwards door_held workers.items }
    ensures talks { result.2.items ≡ backwards talks_held workers.items }
    ensures end { result.3 ≡ end_of (backwards end_held workers.items) }
{
    let mut end = ServeEnd::Done;
    while let Some(worker) = workers.pop() {
        let DoorWorker {
            pass,
            door,
            draws,
            talks: held,
            end: own,
        } = worker;
        drop(draws);
        passes.push_reserved(pass);
        doors.push_reserved(door);
        talks.push_reserved(held);
        end = end_with(end, own);
    }
    (passes, doors, talks, end)
}

// What is true of every desk, whoever acted on it.
fn show<D: Disk>(desk: &Desk<D>)
    ensures durable { IsOnDisk D.told D.image D.time D.image_since desk.now }
    ensures origin { IsOfOrigin D.told D.time D.image_since desk.now }
{
    let _records = desk.records();
}

// Serves the doors by workers that take the desk in turns. `_begun` is the desk as it was when the turns were made.
fn serve_by<R: Threads + Wait + Sync, D: Disk + Send, O: Door + Send>(
    rt: &R,
    alloc: Global,
    turns: Turns<Desk<D>>,
    passes: Vec<Pass<Record>>,
    doors: Vec<O>,
    room: Room<O>,
    connections: u32,
    seed: [u8; 32],
    _begun: Snapshot<Desk<D>>,
) -> (Desk<D>, Vec<O>, Items<Items<Talk>>, ServeEnd)
where
    O::Link: Send,
    requires count { (0 < length doors.items) × (length doors.items ≤ MOST_PASSES) }
    requires out { All (λ door. (O.state door).out ≡ None) doors.items }
    requires same { (length passes.items ≡ length doors.items) × (turns.passes ≡ length doors.items) }
    requires opened { All (λ p. p ≡ opened turns _begun.value.line (marks_of D.row.coded _begun.value)
        (tide_of D.fault_count D.time _begun.value)) passes.items }
    requires durable { IsOnDisk D.told D.image D.time D.image_since _begun.value }
    requires workers { (room.workers.items ≡ []) × (length doors.items ≤ vec_capacity room.workers) }
    requires passes { (room.passes.items ≡ []) × (length doors.items ≤ vec_capacity room.passes) }
    requires doors { (room.doors.items ≡ []) × (length doors.items ≤ vec_capacity room.doors) }
    requires talks { (room.talks.items ≡ []) × (length doors.items ≤ vec_capacity room.talks) }
    ensures served { ServesDoors _begun.value.limit _begun.value.line result.0.line
        (tide_at D.fault_count D.time _begun.value.disk) (tide_at D.fault_count D.time result.0.disk) connections seed
        (map O.state doors.items) (map O.state result.1.items) result.2 result.3 }
    ensures opening { HasSameOpening _begun.value result.0 }
    ensures later { D.fault_count _begun.value.disk ≤ D.fault_count result.0.disk }
    ensures within { AllByRecursion (λ talks. AreWithin (tide_at D.fault_count D.time _begun.value.disk)
        (tide_at D.fault_count D.time result.0.disk) (all_receipts talks)) result.2 }
    ensures durable { IsOnDisk D.told D.image D.time D.image_since result.0 }
    ensures origin { IsOfOrigin D.told D.time D.image_since result.0 }
{
    let Room {
        workers,
        passes: passes_back,
        doors: doors_back,
        talks,
    } = room;
    let waiting = workers_at(alloc, passes, doors, workers, seed);
    let served = worked(rt, alloc, &turns, waiting, connections);
    let (passes, doors, talks, end) = gather(served, passes_back, doors_back, talks);
    let desk = turns.close(passes);
    show(&desk);
    (desk, doors, Items::from_vec(talks), end)
}

/// Serves at most `connections` connections of each door. Each door has a worker in a thread of its own, and the
/// workers take the desk in turns. The doors come back in their order, and with them the talks of each worker. The
/// history is one: the entries of the desk's line.
///
/// The worker at door k, counted from 1, has the draws of stream k under the seed, which go on from talk to talk. All
/// memory for handing back is taken before the workers start. Without it nothing is served, and there are no talks.
pub fn serve_all<R: Threads + Wait + Sync, D: Disk + Send, O: Door + Send>(
    rt: &R,
    alloc: Global,
    desk: Desk<D>,
    doors: Vec<O>,
    connections: u32,
    seed: [u8; 32],
) -> (Desk<D>, Vec<O>, Items<Items<Talk>>, ServeEnd)
where
    O::Link: Send,
    requires count { (0 < length doors.items) × (length doors.items ≤ MOST_PASSES) }
    requires out { All (λ door. (O.state door).out ≡ None) doors.items }
    ensures served { ServesAll (tide_at D.fault_count D.time) desk result.0 connections seed
        (map O.state doors.items) (map O.state result.1.items) result.2 result.3 }
    ensures opening { HasSameOpening desk result.0 }

    // Each act tells counts of the disk's faults and a moment between those before and after. A count that rose during
    // an act is told by a 503.
    ensures later { D.fault_count desk.disk ≤ D.fault_count result.0.disk }
    ensures within { AllByRecursion (λ talks. AreWithin (tide_at D.fault_count D.time desk.disk)
        (tide_at D.fault_count D.time result.0.disk) (all_receipts talks)) result.2 }

    // A crash now, or at any moment since that of a record, leaves the first entries of the history, at least all that
    // then stood without doubt; and one at any moment since the opening at least those of the opening.
    ensures durable { IsOnDisk D.told D.image D.time D.image_since result.0 }
    ensures origin { IsOfOrigin D.told D.time D.image_since result.0 }
{
    show(&desk);
    let begun = Snapshot::of(&desk);
    match begin(alloc, desk, doors.len()) {
        Ok(ready) => {
            let (turns, passes, room) = ready;
            serve_by(
                rt,
                alloc,
                turns,
                passes,
                doors,
                room,
                connections,
                seed,
                begun,
            )
        }
        Err(desk) => (desk, doors, Items::new(alloc), ServeEnd::Memory),
    }
}

fn moves<T: Send>(_value: &T) {}

// A worker may go to another thread if its door may.
fn may_cross<O: Door + Send>(worker: &DoorWorker<O>) {
    moves(worker);
}

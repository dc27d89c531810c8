// The connections of doors, served over a store by one worker each.
ghost use Rattle.std.specs.Prelude.{◌≡◌, ◌≤◌, ◌-◌, ◌^◌, length, min};
ghost use Rattle.lrs_hall.specs.Serving.{AreWithin, all_receipts, tide_at};
ghost use Rattle.lrs_journal.specs.Journal.{IsSynced};
ghost use Rattle.lrs_hall.specs.LrsMachineDesk.{history};
ghost use Rattle.lrs_app.specs.Disks.{taken_now};
ghost use Rattle.lrs_app.specs.Service.{CountsOn, doors, ending_of_serving, receipts_of_all, responses_of};
ghost use Rattle.lrs_app.specs.Steps.{Continues, IsOpened};
ghost use Rattle.lrs_app.specs.ServeSteps.{ServesDesk, ServesOpened, ending_of_refusal};
ghost use Rattle.lrs_app.specs.Run.{HasEndingCause, ServesDisk};
ghost use Rattle.lrs_turn.specs.declared.turns.TheConstants.{MOST_PASSES};

use crate::intake::unopened;
use lrs_console::Ending;
use lrs_disk::{Disk, Door, DoorsRefused, Lobby};
use lrs_hall::{Desk, ServeEnd, Talk, serve_all};
use lrs_json::{Items, Text};
use std::alloc::Global;
use std::sync::Wait;
use std::thread::Threads;

/// The number of responses of these talks of all workers. It stands still at the last value of u64.
pub(crate) fn count_responses(talks: &[Items<Talk>]) -> u64
    ensures { result ≡ responses_of talks.now }
{
    let mut responses: u64 = 0;
    for of_one in talks {
        responses = responses.saturating_add(count_of_one(of_one.as_slice()));
    }
    responses
}

// The number of responses of one worker's talks. It stands still at the last value of u64.
fn count_of_one(talks: &[Talk]) -> u64
    ensures { result ≡ min (length (all_receipts talks.now)) (2 ^ 64 - 1) }
{
    let mut responses: u64 = 0;
    for talk in talks {
        responses = responses.saturating_add(talk.receipts().len() as u64);
    }
    responses
}

// How a command ends whose serving ended so.
fn served(end: ServeEnd, talks: &[Items<Talk>]) -> Ending
    ensures { result ≡ ending_of_serving end talks.now }
{
    match end {
        ServeEnd::Done => Ending::Served(count_responses(talks)),
        ServeEnd::DoorFault => Ending::LobbyFault,
        ServeEnd::Memory => Ending::Memory,
    }
}

fn ending_of_refusal(refused: DoorsRefused) -> Ending
    ensures { result ≡ ending_of_refusal refused }
{
    match refused {
        DoorsRefused::Failed => Ending::LobbyFault,
        DoorsRefused::Memory => Ending::Memory,
    }
}

// Serves the connections of doors of the address, each door by a worker of its own.
fn serve_desk<R: Threads + Wait + Sync, D: Disk + Send, B: Lobby>(
    rt: &R,
    alloc: Global,
    desk: Desk<D>,
    lobby: &mut B,
    address: &Text,
    workers: u32,
    connections: u32,
    seed: [u8; 32],
) -> (Desk<D>, Items<Items<Talk>>, Ending)
where
    <B::Door as Door>::Link: Send,
    requires workers { (1 ≤ workers) × (workers ≤ MOST_PASSES) }
    requires opened { IsOpened D.Disk desk }
    requires origin { (desk.opened ≡ length (history desk)) × (desk.origin ≡ desk.disk) }
    ensures served { ServesDesk (tide_at D.fault_count D.time) desk result.0 address.now workers connections seed
        (doors B.Lobby lobby.old)
        (doors B.Lobby lobby.new) result.1 result.2 }
    ensures later { D.fault_count desk.disk ≤ D.fault_count result.0.disk }
    ensures within { AreWithin (tide_at D.fault_count D.time desk.disk) (tide_at D.fault_count D.time result.0.disk)
        (receipts_of_all result.1) }
    ensures goes_on { Continues D.Disk desk result.0 }
    ensures readings { B.readings lobby.new ≡ B.readings lobby.old }
{
    match lobby.doors(alloc, address.as_str(), workers as usize) {
        Ok(doors) => {
            let (desk, doors, talks, end) = serve_all(rt, alloc, desk, doors, connections, seed);
            lobby.back(doors);
            let ending = served(end, talks.as_slice());
            (desk, talks, ending)
        }
        Err(refused) => (desk, Items::new(alloc), ending_of_refusal(refused)),
    }
}

/// What came of serving over a disk.
#[derive(Drop)]
pub(crate) struct Service<D> {
    pub(crate) ending: Ending,
    pub(crate) disk: D,
    /// The number of the history's entries, or 0 if no store was opened.
    pub(crate) length: u64,
    /// The conversations of each worker, in their order.
    pub(crate) talks: Items<Items<Talk>>,
}

// Serves over an open desk, and closes it.
fn serve_opened<R: Threads + Wait + Sync, D: Disk + Send, B: Lobby>(
    rt: &R,
    alloc: Global,
    desk: Desk<D>,
    lobby: &mut B,
    address: &Text,
    workers: u32,
    connections: u32,
    seed: [u8; 32],
) -> Service<D>
where
    <B::Door as Door>::Link: Send,
    requires workers { (1 ≤ workers) × (workers ≤ MOST_PASSES) }
    requires opened { IsOpened D.Disk desk }
    requires origin { (desk.opened ≡ length (history desk)) × (desk.origin ≡ desk.disk) }
    ensures served { ServesOpened D.Disk desk result.disk address.now workers connections seed
        (doors B.Lobby lobby.old)
        (doors B.Lobby lobby.new)
        result.talks result.length result.ending }
    ensures cause { HasEndingCause (D.fault_count desk.disk) (D.fault_count result.disk) 0 0 result.ending }
    ensures counts { CountsOn (tide_at D.fault_count D.time desk.disk) result.talks
        (tide_at D.fault_count D.time result.disk) }
    ensures readings { B.readings lobby.new ≡ B.readings lobby.old }
{
    let (desk, talks, ending) = serve_desk(
        rt,
        alloc,
        desk,
        lobby,
        address,
        workers,
        connections,
        seed,
    );
    let length = desk.length();
    match desk.close() {
        Ok(disk) => Service {
            ending,
            disk,
            length,
            talks,
        },
        Err((_, disk)) => Service {
            ending: Ending::DiskFault,
            disk,
            length,
            talks,
        },
    }
}

/// Serves the store of a disk.
pub(crate) fn serve_disk<R: Threads + Wait + Sync, D: Disk + Send, B: Lobby>(
    rt: &R,
    alloc: Global,
    disk: D,
    lobby: &mut B,
    address: &Text,
    workers: u32,
    connections: u32,
    seed: [u8; 32],
) -> Service<D>
where
    <B::Door as Door>::Link: Send,
    requires workers { (1 ≤ workers) × (workers ≤ MOST_PASSES) }
    requires settled { IsSynced D.told D.image disk }
    ensures served { ServesDisk D.Disk (taken_now D.Disk disk) result.disk address.now workers connections seed
        (doors B.Lobby lobby.old)
        (doors B.Lobby lobby.new)
        result.talks result.length result.ending }
    ensures cause { HasEndingCause (D.fault_count disk) (D.fault_count result.disk) 0 0 result.ending }
    ensures counts { CountsOn (tide_at D.fault_count D.time disk) result.talks
        (tide_at D.fault_count D.time result.disk) }
    ensures readings { B.readings lobby.new ≡ B.readings lobby.old }
{
    match Desk::recover(alloc, disk) {
        Ok(desk) => serve_opened(rt, alloc, desk, lobby, address, workers, connections, seed),
        Err((refused, disk)) => Service {
            ending: unopened(refused),
            disk,
            length: 0,
            talks: Items::new(alloc),
        },
    }
}

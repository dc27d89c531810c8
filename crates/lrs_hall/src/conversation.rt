//! Conversations: one connection is served from its first request to its end.
ghost use Rattle.std.specs.Prelude.{◌≡◌, ◌<◌, ◌++◌, List, ℕ, Some, IsTrue, option_map, vec_len, vec_capacity};
ghost use Rattle.lrs_disk.specs.Faults.{Rises};
ghost use Rattle.lrs_turn.specs.Passes.{IsIdle};
ghost use Rattle.lrs_hall.specs.Acts.{ActsOn, limit_in, tide_in};
ghost use Rattle.lrs_hall.specs.Serving.{AddsReadings, AreWithin, IsConversation, IsWholeTalk, KeepsPass, clocks};
ghost use Rattle.lrs_hall.specs.Steps.{HasFinishCause, worker};
ghost use Rattle.lrs_hall.specs.Whole.{IsWhole};

use crate::exchange::{Exchanged, exchange};
use crate::{Draws, Finish, Talk};
use lrs_disk::{Disk, Door, Link};
use lrs_http::MOST_REQUESTS;
use lrs_machine::{Desk, Record};
use lrs_routes::Routes;
use lrs_turn::{Pass, Turns};
use std::alloc::Global;
use std::sync::Wait;

/// Takes room for one item more, if there is memory for it.
pub(crate) fn has_room<T: Drop>(items: &mut Vec<T>) -> bool
    ensures items { items.new.items ≡ items.old.items }
    ensures len { vec_len items.new ≡ vec_len items.old }
    ensures room { IsTrue result → vec_len items.new < vec_capacity items.new }
{
    match items.reserve(1) {
        Ok(()) => true,
        Err(_) => false,
    }
}

/// Serves one connection. Its talk is described by what the worker's pass has seen.
pub(crate) fn hold<R: Wait, D: Disk, O: Door>(
    rt: &R,
    alloc: Global,
    turns: &Turns<Desk<D>>,
    pass: &mut Pass<Record>,
    door: &mut O,
    link: &mut O::Link,
    routes: &Routes,
    draws: &mut Draws,
) -> Talk
    requires { IsIdle turns.now pass.old }
    ensures talk { (out : List ℕ) × (O.Link.taken link.new ≡ option_map (λ taken. taken ++ out) (O.Link.taken link.old))
        × IsWholeTalk (ActsOn (limit_in pass.old.marks)) (O.Link.left link.old) result out
        (worker draws.old pass.old (O.state door.old).readings)
        (worker draws.new pass.new (O.state door.new).readings) }
    ensures pass { KeepsPass turns.now pass.old pass.new }
    ensures door { O.state door.new ≡ record (O.state door.old) { readings = (O.state door.new).readings } }
    ensures stream_kept { O.Link.stream link.new ≡ O.Link.stream link.old }
    ensures name_kept { O.Link.name link.new ≡ O.Link.name link.old }
    ensures cause { HasFinishCause (O.Link.fault_count link.old) (O.Link.fault_count link.new) result.finish }
{
    let mut receipts = Vec::new(alloc);
    let mut kept = Vec::new(alloc);
    let mut admitted = None;
    let mut most = MOST_REQUESTS;
    loop {
        if !has_room(&mut receipts) {
            return Talk::new(receipts, Finish::Memory);
        }
        match exchange(
            rt,
            alloc,
            turns,
            pass,
            door,
            link,
            &mut kept,
            routes,
            draws,
            &mut admitted,
            most,
        ) {
            Exchanged::Next(receipt) => {
                receipts.push_reserved(receipt);
                most -= 1;
            }
            Exchanged::Last(receipt, finish) => {
                receipts.push_reserved(receipt);
                return Talk::new(receipts, finish);
            }
            Exchanged::Silent(finish) => return Talk::new(receipts, finish),
        }
    }
}

/// Serves one connection, that of the link which is out of the door: at most 1,000 requests, one after the other.
/// Each request is read whole and asked of the routes. If it has a body, the worker first takes the turn to look at its
/// caller, unless this connection saw that caller let in. One that isn't let in is answered at once, and neither its
/// parameters nor its body are parsed. Else they are parsed while others may have the turn, and the worker takes the turn
/// to act with one reading of the door's clock and one draw. The response is written outside the turn, before the next
/// request is read.
///
/// A request without a body takes the turn once: there is little to read, and the act looks at the caller first. So
/// does one with a body if its caller and its area are those that this connection saw let in last. Who was let in stays
/// let in, so a look would tell nothing new. If there is no memory for a copy of a caller, it is looked at again.
///
/// A response says that the connection ends if its request asks for that, if no request could be read, and at
/// the last request. Memory for a receipt is taken before its request is read, so no response goes without one.
pub fn converse<R: Wait, D: Disk, O: Door>(
    rt: &R,
    alloc: Global,
    turns: &Turns<Desk<D>>,
    pass: &mut Pass<Record>,
    door: &mut O,
    link: &mut O::Link,
    routes: &Routes,
    draws: &mut Draws,
) -> Talk
    requires out { (O.state door.old).out ≡ Some (O.Link.name link.old) }
    requires idle { IsIdle turns.now pass.old }
    ensures talk { IsConversation pass.old pass.new draws.old draws.new (O.Link.left link.old)
        (O.Link.taken link.old) (O.Link.taken link.new) result }

    ensures readings { AddsReadings (O.state door.old).readings (O.state door.new).readings (clocks result.receipts) }

    // No request is left out, unless the link fails or the talk ends for want of memory.
    ensures whole { (Rises (O.Link.fault_count link.old) (O.Link.fault_count link.new) → ⊥)
        → IsWhole (O.Link.left link.old) result }

    // The pass is at rest. Its marks and its opening stay, and what it knows of the disk doesn't fall.
    ensures pass { KeepsPass turns.now pass.old pass.new }
    ensures within { AreWithin (tide_in pass.old.tide) (tide_in pass.new.tide) result.receipts }
    ensures cause { HasFinishCause (O.Link.fault_count link.old) (O.Link.fault_count link.new) result.finish }

    // Of all that the door tells only the readings change, and the link is still out of it.
    ensures door { O.state door.new ≡ record (O.state door.old) { readings = (O.state door.new).readings } }
    ensures out { (O.state door.new).out ≡ Some (O.Link.name link.new) }
    ensures stream_kept { O.Link.stream link.new ≡ O.Link.stream link.old }
{
    hold(rt, alloc, turns, pass, door, link, routes, draws)
}

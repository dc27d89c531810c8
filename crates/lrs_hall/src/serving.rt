//! The connections of a door, served by its worker one after the other.
ghost use Rattle.std.specs.Prelude.{◌≡◌, None, MatchResult};
ghost use Rattle.lrs_disk.specs.Door.{Returned};
ghost use Rattle.lrs_turn.specs.Passes.{IsIdle};
ghost use Rattle.lrs_hall.specs.Acts.{ActsOn, limit_in};
ghost use Rattle.lrs_hall.specs.Serving.{IsOnLink, KeepsPass};
ghost use Rattle.lrs_hall.specs.Steps.{worker, EndsTurn, OneComesThrough, Served};

use crate::conversation::{has_room, hold};
use crate::{Draws, Talk};
use lrs_disk::{Disk, Door, Next};
use lrs_machine::{Desk, Record};
use lrs_routes::Routes;
use lrs_turn::{Pass, Turns};
use std::alloc::Global;
use std::sync::Wait;

/// How serving ended.
#[derive(Clone, Copy, Debug, PartialEq, Eq)]
pub enum ServeEnd {
    /// There were as many talks as connections were asked for, or no more connections will come.
    Done,
    /// The door failed to give a connection.
    DoorFault,
    /// Memory ran out.
    Memory,
}

// Serves the next connection, or says how serving ends.
fn serve_one<R: Wait, D: Disk, O: Door>(
    rt: &R,
    alloc: Global,
    turns: &Turns<Desk<D>>,
    pass: &mut Pass<Record>,
    door: &mut O,
    routes: &Routes,
    draws: &mut Draws,
) -> Result<Talk, ServeEnd>
    requires out { (O.state door.old).out ≡ None }
    requires idle { IsIdle turns.now pass.old }
    ensures served { MatchResult result
        (λ talk. (link : Returned) × IsOnLink (ActsOn (limit_in pass.old.marks)) talk link
        (worker draws.old pass.old (O.state door.old).readings) (worker draws.new pass.new (O.state door.new).readings)
        × OneComesThrough (O.state door.old) (O.state door.new) link)
        (λ end. (worker draws.new pass.new (O.state door.new).readings
        ≡ worker draws.old pass.old (O.state door.old).readings)
        × EndsTurn (O.state door.old) (O.state door.new) end) }
    ensures pass { KeepsPass turns.now pass.old pass.new }
{
    match door.next() {
        Next::Joined(link) => {
            let mut link = link;
            let talk = hold(rt, alloc, turns, pass, door, &mut link, routes, draws);
            door.done(link);
            Ok(talk)
        }
        Next::Closed => Err(ServeEnd::Done),
        Next::Failed => Err(ServeEnd::DoorFault),
    }
}

// Serves at most `connections` connections of a door.
fn serve_with<R: Wait, D: Disk, O: Door>(
    rt: &R,
    alloc: Global,
    turns: &Turns<Desk<D>>,
    pass: &mut Pass<Record>,
    door: &mut O,
    routes: &Routes,
    draws: &mut Draws,
    connections: u32,
) -> (Vec<Talk>, ServeEnd)
    requires out { (O.state door.old).out ≡ None }
    requires idle { IsIdle turns.now pass.old }
    ensures served { Served (ActsOn (limit_in pass.old.marks)) connections
        (worker draws.old pass.old (O.state door.old).readings) (worker draws.new pass.new (O.state door.new).readings)
        (O.state door.old) (O.state door.new) result.0.items result.1 }
    ensures pass { KeepsPass turns.now pass.old pass.new }
{
    let mut talks = Vec::new(alloc);
    let mut left = connections;
    while left > 0 {
        if !has_room(&mut talks) {
            return (talks, ServeEnd::Memory);
        }
        match serve_one(rt, alloc, turns, pass, door, routes, draws) {
            Ok(talk) => talks.push_reserved(talk),
            Err(end) => return (talks, end),
        }
        left -= 1;
    }
    (talks, ServeEnd::Done)
}

/// Serves at most `connections` connections of a door, one after the other, over routes made for that. Each link is
/// given back after its talk. Memory for a talk is taken before the door is asked for its link.
pub(crate) fn serve_door<R: Wait, D: Disk, O: Door>(
    rt: &R,
    alloc: Global,
    turns: &Turns<Desk<D>>,
    pass: &mut Pass<Record>,
    door: &mut O,
    draws: &mut Draws,
    connections: u32,
) -> (Vec<Talk>, ServeEnd)
    requires out { (O.state door.old).out ≡ None }
    requires idle { IsIdle turns.now pass.old }
    ensures served { Served (ActsOn (limit_in pass.old.marks)) connections
        (worker draws.old pass.old (O.state door.old).readings) (worker draws.new pass.new (O.state door.new).readings)
        (O.state door.old) (O.state door.new) result.0.items result.1 }
    ensures pass { KeepsPass turns.now pass.old pass.new }
{
    match Routes::new(alloc) {
        Ok(routes) => serve_with(rt, alloc, turns, pass, door, &routes, draws, connections),
        Err(_) => (Vec::new(alloc), ServeEnd::Memory),
    }
}

ghost use Rattle.std.specs.Prelude.{◌≡◌, ◌++◌, ◌∷◌, [], None, Some};
ghost use Rattle.lrs_disk.specs.Door.{IfJoined, Brings, HasNextCause, name_joined, is_closed, link_returned, with_returned};
ghost use Rattle.lrs_disk.specs.Readings.{AddsReading};
ghost use Rattle.lrs_in_memory_doors.specs.GateLink.{link_of};
ghost use Rattle.lrs_in_memory_doors.specs.MemDoor.{faults_of, out_of, returned_of, state_of};

use crate::door::MemDoor;
use crate::gate::Gate;
use crate::gate_link::GateLink;
use crate::link::MemLink;
use lrs_disk::{Door, Next};
use std::collections::VecDeque;

/// A door in memory with gates before its links. All that it tells is as of the door that it wraps.
#[derive(Drop)]
pub struct GateDoor {
    door: MemDoor,
    gates: VecDeque<Gate>,
}

impl GateDoor {
    ghost use Rattle.lrs_in_memory_doors.specs.GateDoor.{door_of};

    /// This door, with the gates of its first links, in their order. Those that come after have none.
    pub fn new(door: MemDoor, gates: Vec<Gate>) -> Self
        ensures { door_of result ≡ door }
    {
        GateDoor {
            door,
            gates: VecDeque::from(gates),
        }
    }

    /// The links that were given back.
    pub fn returned(&self) -> &[MemLink]
        ensures { result.now ≡ returned_of (door_of self.now) }
    {
        self.door.returned()
    }
}

impl Door for GateDoor {
    type Link = GateLink;

    ghost use Rattle.lrs_in_memory_doors.specs.GateDoor.{door_of};
    ghost use Rattle.lrs_in_memory_doors.specs.MemLink.{stream_of, taken_of, left_of, name_of, faults_of as link_faults_of};

    ghost state = { λ d. state_of (door_of d) };

    fn next(&mut self) -> Next<GateLink>
        requires { out_of (door_of self.old) ≡ None }
        ensures streams { Brings (λ link. Some (stream_of (link_of link))) result (state_of (door_of self.old)).streams
            (state_of (door_of self.new)).streams }
        ensures unread { IfJoined result (λ link. left_of (link_of link) ≡ stream_of (link_of link)) }
        ensures unwritten { IfJoined result (λ link. taken_of (link_of link) ≡ []) }
        ensures unfailed { IfJoined result (λ link. link_faults_of (link_of link) ≡ 0) }
        ensures cause { HasNextCause (faults_of (door_of self.old)) (faults_of (door_of self.new)) result }
        ensures only { state_of (door_of self.new) ≡ record (state_of (door_of self.old)) {
          closed = is_closed result;
          out = name_joined (λ link. name_of (link_of link)) result;
          streams = (state_of (door_of self.new)).streams;
          faults = (state_of (door_of self.new)).faults;
        } }
    {
        match self.door.next() {
            Next::Joined(link) => Next::Joined(GateLink {
                link,
                gate: self.gates.pop_front(),
            }),
            Next::Closed => Next::Closed,
            Next::Failed => Next::Failed,
        }
    }

    fn done(&mut self, link: GateLink)
        requires { out_of (door_of self.old) ≡ Some (name_of (link_of link)) }
        ensures state { state_of (door_of self.new) ≡ with_returned (state_of (door_of self.old))
            (link_returned (Some (stream_of (link_of link))) (Some (taken_of (link_of link)))
            (link_faults_of (link_of link))) }
        ensures returned { returned_of (door_of self.new) ≡ returned_of (door_of self.old) ++ link_of link ∷ [] }
    {
        let GateLink { link, gate } = link;
        drop(gate);
        self.door.done(link);
    }

    fn now(&mut self) -> u64
        ensures read { AddsReading (state_of (door_of self.old)).readings (state_of (door_of self.new)).readings
            result }
        ensures only { state_of (door_of self.new) ≡ record (state_of (door_of self.old)) {
          readings = (state_of (door_of self.new)).readings;
        } }
    {
        self.door.now()
    }

    fn faults(&self) -> u64 {
        self.door.faults()
    }
}

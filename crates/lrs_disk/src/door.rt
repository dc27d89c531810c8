ghost use Rattle.std.specs.Prelude.{◌≡◌, [], ◌∷◌, List, Option, Some, None, IfSome};
ghost use Rattle.lrs_disk.specs.Door.{DoorState, IfJoined, Brings, HasNextCause, name_joined, is_closed, link_returned, with_returned};
ghost use Rattle.lrs_disk.specs.Readings.{AddsReading};

use crate::Link;

/// What a door answers when it is asked for the next connection.
#[derive(Drop)]
pub enum Next<L> {
    Joined(L),
    /// No more will come.
    Closed,
    /// The door's count of faults rose.
    Failed,
}

/// Where connections come from, one after the other, and the clock that goes with them.
pub trait Door: Drop {
    type Link: Link;

    /// What is seen of it.
    ghost state: { Self → DoorState };

    /// The next connection, of which nothing was read and nothing written so far. It may wait for one to come.
    fn next(&mut self) -> Next<Self::Link>
        requires { (state self.old).out ≡ None }
        ensures streams { Brings Self.Link.stream result (state self.old).streams (state self.new).streams }
        ensures unread { IfJoined result (λ link. Self.Link.left link ≡ Self.Link.stream link) }
        ensures unwritten { IfJoined result (λ link. IfSome (Self.Link.taken link) (λ bytes. bytes ≡ [])) }
        ensures unfailed { IfJoined result (λ link. Self.Link.fault_count link ≡ 0) }
        ensures cause { HasNextCause (state self.old).faults (state self.new).faults result }

        // Nothing else changes.
        ensures only { state self.new ≡ record (state self.old) {
          closed = is_closed result;
          out = name_joined Self.Link.name result;
          streams = (state self.new).streams;
          faults = (state self.new).faults;
        } };

    /// Takes back the link that `next` gave last, and ends its connection.
    fn done(&mut self, link: Self::Link)
        requires { (state self.old).out ≡ Some (Self.Link.name link) }
        ensures { state self.new ≡ with_returned (state self.old)
            (link_returned (Self.Link.stream link) (Self.Link.taken link) (Self.Link.fault_count link)) };

    /// Milliseconds since 1970, as the clock shows them; a reading of before 1970 is 0. It can't fail.
    fn now(&mut self) -> u64
        ensures read { AddsReading (state self.old).readings (state self.new).readings result }
        ensures only { state self.new ≡ record (state self.old) { readings = (state self.new).readings } };

    /// How often `next` has failed. At the last value of u64 the count stands still.
    fn faults(&self) -> u64
        ensures { result ≡ (state self.now).faults };
}

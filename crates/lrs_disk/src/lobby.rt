ghost use Rattle.std.specs.Prelude.{◌≡◌, ◌≤◌, List, ℕ, Option, All, length, map, option_map, IfOk};
ghost use Rattle.lrs_disk.specs.Door.{DoorState, IsFresh};
ghost use Rattle.lrs_disk.specs.Lobby.{DoorsAsked, AsksForDoors, HasDoorsCause, CountsFaults};
ghost use Rattle.lrs_disk.specs.Readings.{AddsReading};

use crate::Door;
use std::alloc::Global;

/// The most doors that a lobby gives at once.
pub const MOST_DOORS: usize = 16;

/// Why no doors were given.
#[derive(Clone, Copy, Debug, PartialEq, Eq)]
pub enum DoorsRefused {
    /// The lobby's count of faults rose.
    Failed,
    /// Memory ran out. Nothing was asked of the outside.
    Memory,
}

/// Where doors come from, and the clock of a command.
pub trait Lobby: Drop {
    type Door: Door + Send;

    /// The clock's readings so far, if the lobby tells them.
    ghost readings: { Self → Option (List ℕ) };

    /// Which doors were asked for so far, if the lobby tells it.
    ghost asked: { Self → Option (List DoorsAsked) };

    /// What is seen of the doors that were given back last, if the lobby tells it.
    ghost returned: { Self → Option (List DoorState) };

    /// How often a call has failed, or doors were given back of which one had failed.
    ghost fault_count: { Self → ℕ };

    /// Milliseconds since 1970, as the clock shows them; a reading of before 1970 is 0. It can't fail.
    fn now(&mut self) -> u64
        ensures read { AddsReading (readings self.old) (readings self.new) result }
        ensures same { fault_count self.new ≡ fault_count self.old }
        ensures asked_kept { asked self.new ≡ asked self.old }
        ensures returned_kept { returned self.new ≡ returned self.old };

    /// `count` doors of one address, such as `127.0.0.1:8080`. Each has a clock of its own.
    fn doors(
        &mut self,
        alloc: Global,
        address: &str,
        count: usize,
    ) -> Result<Vec<Self::Door>, DoorsRefused>
        requires { (1 ≤ count) × (count ≤ MOST_DOORS) }
        ensures number { IfOk result (λ doors. length doors.items ≡ count) }
        ensures fresh { IfOk result (λ doors. All (λ door. IsFresh (Self.Door.state door)) doors.items) }
        ensures asked { AsksForDoors (record { address = address.now; count = count }) result (asked self.old)
            (asked self.new) }
        ensures cause { HasDoorsCause (fault_count self.old) (fault_count self.new) result }
        ensures readings_kept { readings self.new ≡ readings self.old }
        ensures returned_kept { returned self.new ≡ returned self.old };

    /// Takes the doors back. No more connections come in by them.
    fn back(&mut self, doors: Vec<Self::Door>)
        ensures returned { returned self.new ≡ option_map (λ before.
            map Self.Door.state doors.items) (returned self.old) }
        ensures cause { CountsFaults (fault_count self.old) (fault_count self.new) (map Self.Door.state doors.items) }
        ensures readings_kept { readings self.new ≡ readings self.old }
        ensures asked_kept { asked self.new ≡ asked self.old };

    /// The count of faults. At the last value of u64 it stands still.
    fn faults(&self) -> u64
        ensures { result ≡ fault_count self.now };
}

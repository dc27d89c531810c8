ghost use Rattle.std.specs.Prelude.{◌≡◌, ◌≢◌, ◌⊎◌, ◌<◌, ◌≤◌, ◌+◌, ◌-◌, ◌^◌, ◌↔◌, [], Some, All, length, map, min, nat_lt, IfOk, OnErr, OnOk};
ghost use Rattle.std.specs.List.{list_any};
ghost use Rattle.lrs_in_memory_doors.specs.Clock.{reading_at, told_readings};
ghost use Rattle.lrs_disk.specs.Door.{IsFresh};
ghost use Rattle.lrs_disk.specs.Lobby.{AsksForDoors, HasDoorsCause, CountsFaults};
ghost use Rattle.lrs_in_memory_doors.specs.MemDoor.{IsUntouched, state_of, faults_of as door_faults_of};
ghost use Rattle.lrs_disk.specs.Readings.{AddsReading};
ghost use Rattle.lrs_in_memory.specs.Schedule.{IsDue, IsNext};

use crate::clock::Clock;
use crate::door::MemDoor;
use lrs_disk::{Door, DoorsRefused, Lobby, MOST_DOORS};
use lrs_in_memory::Plan;
use std::alloc::Global;
use std::mem;

/// A lobby in memory: it gives its doors once, all of them, and keeps those that are given back.
#[derive(Drop)]
pub struct MemLobby {
    doors: Vec<MemDoor>,
    returned: Vec<MemDoor>,
    asked: Vec<(String, usize)>,
    clock: Clock,
    plan: Plan,
    ghost untouched: { All IsUntouched doors.items },
}

impl MemLobby {
    ghost use Rattle.lrs_in_memory_doors.specs.MemLobby.{doors_of, returned_of, asked_of, clock_of, shown_of, schedule_of, faults_of};

    /// A lobby with these doors. Its clock shows the numbers of `clock`, at the end the last one again, or 0 if there
    /// are none. The calls of `doors` with the numbers in `failing` fail, and those for another number of doors.
    pub fn new(doors: Vec<MemDoor>, clock: Vec<u64>, failing: Vec<u64>) -> Self
        requires { All IsUntouched doors.items }
        ensures doors { doors_of result ≡ doors.items }
        ensures returned { returned_of result ≡ [] }
        ensures asked { asked_of result ≡ [] }
        ensures clock { clock_of result ≡ clock.items }
        ensures shown { shown_of result ≡ 0 }
        ensures schedule { schedule_of result ≡ record { failing = failing.items; number = 0 } }
        ensures faults { faults_of result ≡ 0 }
    {
        let alloc = *doors.allocator();
        MemLobby {
            doors,
            returned: Vec::new(alloc),
            asked: Vec::new(alloc),
            clock: Clock::new(clock),
            plan: Plan::new(failing),
        }
    }

    /// The doors that were given back.
    pub fn returned(&self) -> &[MemDoor]
        ensures { result.now ≡ returned_of self.now }
    {
        &self.returned
    }
}

// Whether one of these doors has failed.
fn has_failed(doors: &[MemDoor]) -> bool
    ensures { result ≡ list_any (λ door. nat_lt 0 (door_faults_of door)) doors.now }
{
    doors.iter().any(|door| door.faults() > 0)
}

// Counts a fault if one of these doors has failed.
fn count_failed(plan: &mut Plan, doors: &[MemDoor])
    ensures cause { CountsFaults plan.old.faults plan.new.faults (map state_of doors.now) }
    ensures failing { plan.new.failing.items ≡ plan.old.failing.items }
    ensures number { plan.new.number ≡ plan.old.number }
{
    if !has_failed(doors) {
        return;
    }
    plan.fail();
}

impl Lobby for MemLobby {
    type Door = MemDoor;

    ghost use Rattle.lrs_in_memory_doors.specs.MemLobby.{doors_of, returned_of, asked_of, clock_of, shown_of, schedule_of, faults_of};

    ghost readings = { λ l. told_readings (clock_of l) (shown_of l) };

    ghost asked = { λ l. Some (asked_of l) };

    ghost returned = { λ l. Some (map state_of (returned_of l)) };

    ghost fault_count = { faults_of };

    fn now(&mut self) -> u64
        ensures read { AddsReading (told_readings (clock_of self.old) (shown_of self.old))
            (told_readings (clock_of self.new) (shown_of self.new)) result }
        ensures same { faults_of self.new ≡ faults_of self.old }
        ensures asked_kept { asked_of self.new ≡ asked_of self.old }
        ensures returned_kept { returned_of self.new ≡ returned_of self.old }
        ensures shown { result ≡ reading_at (clock_of self.old) (shown_of self.old) }
        ensures number { shown_of self.new ≡ min (shown_of self.old + 1) (2 ^ 64 - 1) }
        ensures clock { clock_of self.new ≡ clock_of self.old }
        ensures doors { doors_of self.new ≡ doors_of self.old }
        ensures schedule { schedule_of self.new ≡ schedule_of self.old }
    {
        self.clock.show()
    }

    fn doors(
        &mut self,
        alloc: Global,
        address: &str,
        count: usize,
    ) -> Result<Vec<MemDoor>, DoorsRefused>
        requires { (1 ≤ count) × (count ≤ MOST_DOORS) }
        ensures number { IfOk result (λ doors. length doors.items ≡ count) }
        ensures fresh { IfOk result (λ doors. All (λ door. IsFresh (state_of door)) doors.items) }
        ensures asked { AsksForDoors (record { address = address.now; count = count }) result (Some (asked_of self.old))
            (Some (asked_of self.new)) }
        ensures cause { HasDoorsCause (faults_of self.old) (faults_of self.new) result }
        ensures readings_kept { (clock_of self.new ≡ clock_of self.old) × (shown_of self.new ≡ shown_of self.old) }
        ensures returned_kept { returned_of self.new ≡ returned_of self.old }
        ensures given { IfOk result (λ doors. (doors.items ≡ doors_of self.old) × (doors_of self.new ≡ [])) }
        ensures not_given { OnErr result (doors_of self.new ≡ doors_of self.old) }
        ensures fails { result ≡ Err DoorsRefused.Failed → IsDue (schedule_of self.old)
            ⊎ (length (doors_of self.old) ≢ count) }
        ensures schedule { OnOk result (IsNext (schedule_of self.old) (schedule_of self.new)) }
        ensures schedule_failed { result ≡ Err DoorsRefused.Failed
            → IsNext (schedule_of self.old) (schedule_of self.new) }
        ensures schedule_kept { result ≡ Err DoorsRefused.Memory → schedule_of self.new ≡ schedule_of self.old }
        ensures succeeds { IfOk result (λ _. IsDue (schedule_of self.old) → ⊥) }
    {
        let Ok(address) = String::from_str(alloc, address) else {
            return Err(DoorsRefused::Memory);
        };
        if self.asked.push((address, count)).is_err() {
            return Err(DoorsRefused::Memory);
        }
        if self.plan.is_due() || self.doors.len() != count {
            self.plan.fail();
            return Err(DoorsRefused::Failed);
        }
        Ok(mem::replace(&mut self.doors, Vec::new(alloc)))
    }

    fn back(&mut self, doors: Vec<MemDoor>)
        ensures returned { returned_of self.new ≡ doors.items }
        ensures cause { CountsFaults (faults_of self.old) (faults_of self.new) (map state_of doors.items) }
        ensures readings_kept { (clock_of self.new ≡ clock_of self.old) × (shown_of self.new ≡ shown_of self.old) }
        ensures asked_kept { asked_of self.new ≡ asked_of self.old }
        ensures doors { doors_of self.new ≡ doors_of self.old }
        ensures schedule { schedule_of self.new ≡ schedule_of self.old }
    {
        count_failed(&mut self.plan, &doors);
        self.returned = doors;
    }

    fn faults(&self) -> u64 {
        self.plan.faults
    }
}

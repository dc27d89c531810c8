ghost use Rattle.std.specs.Prelude.{◌≡◌, ◌⊎◌, ◌<◌, ◌≤◌, ◌-◌, ◌↔◌, ◌++◌, [], length, take, min, vec_capacity, IfOk, OnErr, IsErr};
ghost use Rattle.lrs_disk.specs.Faults.{HasCause};
ghost use Rattle.lrs_in_memory.specs.Schedule.{IsDue, IsNext};

use lrs_disk::Failed;
use lrs_in_memory::{Memory, Plan};
use std::alloc::Global;

// Bytes that are taken in pieces, with room for so many.
#[derive(Drop)]
pub(crate) struct Output {
    pub(crate) taken: Vec<u8>,
    room: usize,
    ghost within: { length taken.items ≤ room },
    ghost fits: { room ≤ vec_capacity taken },
}

impl Output {
    ghost use Rattle.lrs_in_memory_doors.specs.Output.{room_of, schedule_in};

    pub(crate) fn new(alloc: Global, room: usize) -> Result<Self, Memory>
        ensures taken { IfOk result (λ o. o.taken.items ≡ []) }
        ensures room { IfOk result (λ o. room_of o ≡ room) }
    {
        Ok(Output {
            taken: Vec::with_capacity(alloc, room)?,
            room,
        })
    }

    // Takes the first bytes of a piece, as far as there is room, and answers how many.
    fn write(&mut self, bytes: &[u8]) -> usize
        ensures number { result ≡ min (length bytes.now) (room_of self.old) }
        ensures taken { self.new.taken.items ≡ self.old.taken.items ++ take result bytes.now }
        ensures room { room_of self.new ≡ room_of self.old - result }
    {
        let number = bytes.len().min(self.room - self.taken.len());
        self.taken.extend_from_slice(&bytes[..number]).unwrap();
        number
    }

    // A call of an object with this output and this plan: it takes the first bytes of a piece, as far as there is room,
    // and answers how many. It fails if that is due, or if there is no room for any.
    pub(crate) fn write_due(&mut self, plan: &mut Plan, bytes: &[u8]) -> Result<usize, Failed>
        ensures room { IfOk result (λ n. n ≤ length bytes.now) }
        ensures some { IfOk result (λ n. 0 < length bytes.now → 0 < n) }
        ensures taken { IfOk result (λ n. self.new.taken.items ≡ self.old.taken.items ++ take n bytes.now) }
        ensures failed { OnErr result (self.new.taken.items ≡ self.old.taken.items) }
        ensures cause { HasCause plan.old.faults plan.new.faults result }
        ensures fails { IsErr result ↔ (IsDue (schedule_in plan.old)
            ⊎ ((0 < length bytes.now) × (room_of self.old ≡ 0))) }
        ensures schedule { IsNext (schedule_in plan.old) (schedule_in plan.new) }
        ensures number { IfOk result (λ n. n ≡ min (length bytes.now) (room_of self.old)) }
        ensures room_left { IfOk result (λ n. room_of self.new ≡ room_of self.old - n) }
        ensures room_kept { OnErr result (room_of self.new ≡ room_of self.old) }
    {
        if plan.is_due() {
            return Err(plan.fail());
        }
        let number = self.write(bytes);
        if number == 0 && !bytes.is_empty() {
            return Err(plan.fail());
        }
        Ok(number)
    }
}

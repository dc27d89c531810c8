ghost use Rattle.std.specs.Prelude.{◌≡◌, ◌⊎◌, ◌<◌, ◌≤◌, ◌-◌, ◌↔◌, [], ◌++◌, Some, length, take, min, IfOk, OnErr, IsErr};
ghost use Rattle.lrs_disk.specs.Faults.{HasCause};
ghost use Rattle.lrs_in_memory.specs.Schedule.{IsDue, IsNext};

use crate::output::Output;
use lrs_disk::{Failed, Sink};
use lrs_in_memory::{Memory, Plan};
use std::alloc::Global;

/// An output in memory, with room for so many bytes.
#[derive(Drop)]
pub struct MemSink {
    output: Output,
    plan: Plan,
}

impl MemSink {
    ghost use Rattle.lrs_in_memory_doors.specs.MemSink.{taken_of, room_of, schedule_of, faults_of};

    /// An output that takes so many bytes, and then fails. The calls with the numbers in `failing` fail, too.
    pub fn new(alloc: Global, room: usize, failing: Vec<u64>) -> Result<Self, Memory>
        ensures taken { IfOk result (λ s. taken_of s ≡ []) }
        ensures room { IfOk result (λ s. room_of s ≡ room) }
        ensures schedule { IfOk result (λ s. schedule_of s ≡ record { failing = failing.items; number = 0 }) }
        ensures faults { IfOk result (λ s. faults_of s ≡ 0) }
    {
        Ok(MemSink {
            output: Output::new(alloc, room)?,
            plan: Plan::new(failing),
        })
    }

    /// The bytes that were taken.
    pub fn taken(&self) -> &[u8]
        ensures { result.now ≡ taken_of self.now }
    {
        &self.output.taken
    }
}

impl Sink for MemSink {
    ghost use Rattle.lrs_in_memory_doors.specs.MemSink.{taken_of, room_of, schedule_of, faults_of};

    ghost taken = { λ s. Some (taken_of s) };

    ghost fault_count = { faults_of };

    fn write(&mut self, bytes: &[u8]) -> Result<usize, Failed>
        ensures room { IfOk result (λ n. n ≤ length bytes.now) }
        ensures some { IfOk result (λ n. 0 < length bytes.now → 0 < n) }
        ensures taken { IfOk result (λ n. taken_of self.new ≡ taken_of self.old ++ take n bytes.now) }
        ensures failed { OnErr result (taken_of self.new ≡ taken_of self.old) }
        ensures cause { HasCause (faults_of self.old) (faults_of self.new) result }
        ensures fails { IsErr result ↔ (IsDue (schedule_of self.old)
            ⊎ ((0 < length bytes.now) × (room_of self.old ≡ 0))) }
        ensures schedule { IsNext (schedule_of self.old) (schedule_of self.new) }
        ensures number { IfOk result (λ n. n ≡ min (length bytes.now) (room_of self.old)) }
        ensures room_left { IfOk result (λ n. room_of self.new ≡ room_of self.old - n) }
        ensures room_kept { OnErr result (room_of self.new ≡ room_of self.old) }
    {
        self.output.write_due(&mut self.plan, bytes)
    }

    fn faults(&self) -> u64 {
        self.plan.faults
    }
}

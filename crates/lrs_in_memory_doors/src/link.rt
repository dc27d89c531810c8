ghost use Rattle.std.specs.Prelude.{◌≡◌, ◌⊎◌, ◌<◌, ◌≤◌, ◌+◌, ◌-◌, ◌↔◌, [], ◌++◌, Some, length, take, min, Contains, All, IfOk, OnErr, IsErr};
ghost use Rattle.lrs_disk.specs.Faults.{HasCause};
ghost use Rattle.lrs_in_memory.specs.Schedule.{IsDue, IsNext};

use crate::input::Input;
use crate::output::Output;
use lrs_disk::{Failed, Link};
use lrs_in_memory::{Memory, Plan};
use std::alloc::Global;

/// A connection in memory. A read ends at each of some offsets, and a write where the room does.
#[derive(Drop)]
pub struct MemLink {
    pub(crate) input: Input,
    output: Output,
    pub(crate) plan: Plan,
    pub(crate) name: u64,
}

impl MemLink {
    ghost use Rattle.lrs_in_memory_doors.specs.MemLink.{stream_of, offset_of, cuts_of, taken_of, room_of, name_of, schedule_of, faults_of};

    /// A connection that brings these bytes, and takes as many as there is room for. Reads end at the offsets in `cuts`.
    /// The calls with the numbers in `failing` fail, reads and writes being counted together.
    pub fn new(
        alloc: Global,
        input: Vec<u8>,
        cuts: Vec<usize>,
        room: usize,
        failing: Vec<u64>,
    ) -> Result<Self, Memory>
        ensures stream { IfOk result (λ l. stream_of l ≡ input.items) }
        ensures offset { IfOk result (λ l. offset_of l ≡ 0) }
        ensures cuts { IfOk result (λ l. cuts_of l ≡ cuts.items) }
        ensures taken { IfOk result (λ l. taken_of l ≡ []) }
        ensures room { IfOk result (λ l. room_of l ≡ room) }
        ensures name { IfOk result (λ l. name_of l ≡ 0) }
        ensures schedule { IfOk result (λ l. schedule_of l ≡ record { failing = failing.items; number = 0 }) }
        ensures faults { IfOk result (λ l. faults_of l ≡ 0) }
    {
        Ok(MemLink {
            input: Input::new(input, cuts),
            output: Output::new(alloc, room)?,
            plan: Plan::new(failing),
            name: 0,
        })
    }

    /// The bytes that were taken.
    pub fn taken(&self) -> &[u8]
        ensures { result.now ≡ taken_of self.now }
    {
        &self.output.taken
    }
}

impl Link for MemLink {
    ghost use Rattle.lrs_in_memory_doors.specs.MemLink.{stream_of, offset_of, cuts_of, left_of, taken_of, room_of, name_of, schedule_of, faults_of, IsSameLink};
    ghost use Rattle.lrs_in_memory_doors.specs.Streams.{ends_in};

    ghost left = { λ l. Some (left_of l) };

    ghost stream = { λ l. Some (stream_of l) };

    ghost taken = { λ l. Some (taken_of l) };

    ghost name = { name_of };

    ghost fault_count = { faults_of };

    ghost tells_stream = { λ l rest is. ends_in (offset_of l) (stream_of l) rest is };

    fn read(&mut self, into: &mut [u8]) -> Result<usize, Failed>
        ensures room { IfOk result (λ n. n ≤ length into.old) }
        ensures given { IfOk result (λ n. left_of self.old ≡ take n into.new ++ left_of self.new) }
        ensures end { IfOk result (λ n. n ≡ 0 → 0 < length into.old → left_of self.old ≡ []) }
        ensures failed { OnErr result (left_of self.new ≡ left_of self.old) }
        ensures same { IsSameLink self.old self.new }
        ensures taken { taken_of self.new ≡ taken_of self.old }
        ensures room_kept { room_of self.new ≡ room_of self.old }
        ensures cause { HasCause (faults_of self.old) (faults_of self.new) result }
        ensures fails { IsErr result ↔ IsDue (schedule_of self.old) }
        ensures schedule { IsNext (schedule_of self.old) (schedule_of self.new) }
        ensures offset { IfOk result (λ n. offset_of self.new ≡ offset_of self.old + n) }
        ensures pieces { All (λ cut. offset_of self.old < cut → offset_of self.new ≤ cut) (cuts_of self.old) }
        ensures filled { IfOk result (λ n. (n ≡ length into.old) ⊎ (offset_of self.new ≡ length (stream_of self.old))
            ⊎ Contains (cuts_of self.old) (offset_of self.new)) }
    {
        if self.plan.is_due() {
            return Err(self.plan.fail());
        }
        Ok(self.input.read(into))
    }

    fn write(&mut self, bytes: &[u8]) -> Result<usize, Failed>
        ensures room { IfOk result (λ n. n ≤ length bytes.now) }
        ensures some { IfOk result (λ n. 0 < length bytes.now → 0 < n) }
        ensures taken { IfOk result (λ n. taken_of self.new ≡ taken_of self.old ++ take n bytes.now) }
        ensures failed { OnErr result (taken_of self.new ≡ taken_of self.old) }
        ensures same { IsSameLink self.old self.new }
        ensures offset { offset_of self.new ≡ offset_of self.old }
        ensures cause { HasCause (faults_of self.old) (faults_of self.new) result }
        ensures fails { IsErr result ↔ (IsDue (schedule_of self.old)
            ⊎ ((0 < length bytes.now) × (room_of self.old ≡ 0))) }
        ensures schedule { IsNext (schedule_of self.old) (schedule_of self.new) }
        ensures number { IfOk result (λ n. n ≡ min (length bytes.now) (room_of self.old)) }
        ensures room_left { IfOk result (λ n. room_of self.new ≡ room_of self.old - n) }
        ensures room_kept { OnErr result (room_of self.new ≡ room_of self.old) }
    {
        self.output.write_due(&mut self.plan, bytes)
    }

    fn faults(&self) -> u64 {
        self.plan.faults
    }
}

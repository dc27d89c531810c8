ghost use Rattle.std.specs.Prelude.{◌≡◌, ◌⊎◌, ◌<◌, ◌≤◌, ◌+◌, ◌↔◌, [], ◌++◌, Some, length, take, Contains, All, IfOk, OnErr, IsErr};
ghost use Rattle.lrs_disk.specs.Faults.{HasCause};
ghost use Rattle.lrs_in_memory.specs.Schedule.{IsDue, IsNext};

use crate::input::Input;
use lrs_disk::{Failed, Source};
use lrs_in_memory::Plan;

/// An input in memory. A read ends at each of some offsets, so that a reader can be tried on input in pieces.
#[derive(Drop)]
pub struct MemSource {
    input: Input,
    plan: Plan,
}

impl MemSource {
    ghost use Rattle.lrs_in_memory_doors.specs.MemSource.{input_of, offset_of, cuts_of, schedule_of, faults_of};

    /// The input of these bytes. Reads end at the offsets in `cuts`, and the calls with the numbers in `failing` fail.
    pub fn new(bytes: Vec<u8>, cuts: Vec<usize>, failing: Vec<u64>) -> Self
        ensures input { input_of result ≡ bytes.items }
        ensures offset { offset_of result ≡ 0 }
        ensures cuts { cuts_of result ≡ cuts.items }
        ensures schedule { schedule_of result ≡ record { failing = failing.items; number = 0 } }
        ensures faults { faults_of result ≡ 0 }
    {
        MemSource {
            input: Input::new(bytes, cuts),
            plan: Plan::new(failing),
        }
    }
}

impl Source for MemSource {
    ghost use Rattle.lrs_in_memory_doors.specs.MemSource.{input_of, offset_of, cuts_of, left_of, schedule_of, faults_of};

    ghost left = { λ s. Some (left_of s) };

    ghost fault_count = { faults_of };

    fn read(&mut self, into: &mut [u8]) -> Result<usize, Failed>
        ensures room { IfOk result (λ n. n ≤ length into.old) }
        ensures given { IfOk result (λ n. left_of self.old ≡ take n into.new ++ left_of self.new) }
        ensures end { IfOk result (λ n. n ≡ 0 → 0 < length into.old → left_of self.old ≡ []) }
        ensures failed { OnErr result (left_of self.new ≡ left_of self.old) }
        ensures cause { HasCause (faults_of self.old) (faults_of self.new) result }
        ensures fails { IsErr result ↔ IsDue (schedule_of self.old) }
        ensures schedule { IsNext (schedule_of self.old) (schedule_of self.new) }
        ensures same { (input_of self.new ≡ input_of self.old) × (cuts_of self.new ≡ cuts_of self.old) }
        ensures offset { IfOk result (λ n. offset_of self.new ≡ offset_of self.old + n) }
        ensures pieces { All (λ cut. offset_of self.old < cut → offset_of self.new ≤ cut) (cuts_of self.old) }
        ensures filled { IfOk result (λ n. (n ≡ length into.old) ⊎ (offset_of self.new ≡ length (input_of self.old))
            ⊎ Contains (cuts_of self.old) (offset_of self.new)) }
    {
        if self.plan.is_due() {
            return Err(self.plan.fail());
        }
        Ok(self.input.read(into))
    }

    fn faults(&self) -> u64 {
        self.plan.faults
    }
}

ghost use Rattle.std.specs.Prelude.{◌≡◌, ◌≤◌, ◌+◌, ◌-◌, ◌^◌, ◌↔◌, min, IsTrue, Contains};

use lrs_disk::Failed;

/// Which calls of an object in memory fail, by their numbers from 0, and how many have failed.
#[derive(Drop)]
pub struct Plan {
    pub failing: Vec<u64>,
    /// The next call's.
    pub number: u64,
    pub faults: u64,
}

impl Plan {
    /// The calls with these numbers fail. None was made so far.
    pub fn new(failing: Vec<u64>) -> Self
        ensures failing { result.failing.items ≡ failing.items }
        ensures number { result.number ≡ 0 }
        ensures faults { result.faults ≡ 0 }
    {
        Plan {
            failing,
            number: 0,
            faults: 0,
        }
    }

    /// Counts a call, and answers whether it is one of those that fail.
    pub fn is_due(&mut self) -> bool
        ensures due { IsTrue result ↔ Contains self.old.failing.items self.old.number }
        ensures number { self.new.number ≡ min (self.old.number + 1) (2 ^ 64 - 1) }
        ensures range { self.old.number ≤ 2 ^ 64 - 1 }
        ensures failing { self.new.failing.items ≡ self.old.failing.items }
        ensures faults { self.new.faults ≡ self.old.faults }
    {
        let number = self.number;
        self.number = number.saturating_add(1);
        self.failing.contains(&number)
    }

    /// Counts a fault.
    pub fn fail(&mut self) -> Failed
        ensures faults { self.new.faults ≡ min (self.old.faults + 1) (2 ^ 64 - 1) }
        ensures range { self.old.faults ≤ 2 ^ 64 - 1 }
        ensures failing { self.new.failing.items ≡ self.old.failing.items }
        ensures number { self.new.number ≡ self.old.number }
    {
        self.faults = self.faults.saturating_add(1);
        Failed
    }
}

ghost use Rattle.std.specs.Prelude.{◌≡◌, ◌≤◌, IsErr};
ghost use Rattle.lrs_disk.specs.Faults.{HasCause, Rises};

use lrs_disk::Failed;

// How often an object's calls have failed.
#[derive(Drop)]
pub(crate) struct Faults {
    pub(crate) count: u64,
}

impl Faults {
    pub(crate) fn none() -> Self
        ensures { result.count ≡ 0 }
    {
        Faults { count: 0 }
    }

    // Counts a failed call.
    pub(crate) fn rise(&mut self)
        ensures later { self.old.count ≤ self.new.count }
        ensures rises { Rises self.old.count self.new.count }
    {
        self.count = self.count.saturating_add(1);
    }

    // The answer of a failed call, which is counted.
    pub(crate) fn failed<T: Drop>(&mut self) -> Result<T, Failed>
        ensures failed { IsErr result }
        ensures cause { HasCause self.old.count self.new.count result }
    {
        self.rise();
        Err(Failed)
    }
}

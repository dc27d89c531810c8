ghost use Rattle.std.specs.Prelude.{◌≡◌, [], List, ℕ, Option, Some, IfOk};
ghost use Rattle.lrs_disk.specs.Faults.{HasCause};
ghost use Rattle.lrs_disk.specs.Shelf.{AddsName};

use crate::{Disk, Failed};

/// Where disks come from, by name. A name that isn't there is made as an empty disk.
pub trait Shelf: Drop {
    type Disk: Disk;

    /// What the disk of a name reads, if the shelf tells it.
    ghost holds: { Self → List ℕ → Option (List ℕ) };

    /// The count of faults with which the disk of a name is taken.
    ghost begins: { Self → List ℕ → ℕ };

    /// The moment with which the disk of a name is taken.
    ghost starts: { Self → List ℕ → ℕ };

    /// The names that were asked for so far, in their order, if the shelf tells them.
    ghost taken: { Self → Option (List (List ℕ)) };

    /// How often a call has failed.
    ghost fault_count: { Self → ℕ };

    /// The disk of a name. Nothing is pending on it: a crash leaves what a read gives.
    fn take(&mut self, name: &str) -> Result<Self::Disk, Failed>
        ensures told { IfOk result (λ disk. Self.Disk.told disk ≡ holds self.old name.now) }
        ensures begins { IfOk result (λ disk. Self.Disk.fault_count disk ≡ begins self.old name.now) }
        ensures starts { IfOk result (λ disk. Self.Disk.time disk ≡ starts self.old name.now) }
        ensures settled { IfOk result (λ disk. (c : List ℕ) → Self.Disk.image disk c → Self.Disk.told disk ≡ Some c) }
        // What is told of the others stays, unless neither of the two disks was there, and both are made of what is left.
        ensures others { (other : List ℕ) → (other ≡ name.now → ⊥)
            → (holds self.old name.now ≡ Some [] → holds self.old other ≡ Some [] → ⊥)
            → (holds self.new other ≡ holds self.old other) × (begins self.new other ≡ begins self.old other)
            × (starts self.new other ≡ starts self.old other) }
        ensures taken { AddsName (taken self.old) (taken self.new) name.now }
        ensures cause { HasCause (fault_count self.old) (fault_count self.new) result };

    /// How often a call has failed. At the last value of u64 the count stands still.
    fn faults(&self) -> u64
        ensures { result ≡ fault_count self.now };
}

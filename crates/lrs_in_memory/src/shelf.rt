ghost use Rattle.std.specs.Prelude.{◌≡◌, ◌⊎◌, ◌≤◌, ◌-◌, ◌↔◌, [], ◌∷◌, ◌++◌, List, ℕ, Option, Some, None, All, length, take, find, remove, map, option_map, string_bytes, IfOk, IfSome, OnErr, IsErr, IsNone, IsSome};
ghost use Rattle.std.specs.List.{position_or_len};
ghost use Rattle.std.specs.Option.{option_map_or};
ghost use Rattle.lrs_disk.specs.Faults.{HasCause};
ghost use Rattle.lrs_in_memory.specs.Schedule.{IsDue, IsNext};
ghost use Rattle.lrs_in_memory.specs.MemDisk.{bytes_of, moment_of, faults_of as disk_faults_of};
ghost use Rattle.lrs_in_memory.specs.Named.{disk_named, is_named, names_of, IsSettled};
ghost use Rattle.lrs_disk.specs.Shelf.{AddsName};

use crate::disk::MemDisk;
use crate::plan::Plan;
use lrs_disk::{Failed, Shelf};

/// A shelf in memory: disks by name, and spare ones for the names that aren't there.
#[derive(Drop)]
pub struct MemShelf {
    disks: Vec<(String, MemDisk)>,
    spare: Vec<MemDisk>,
    taken: Option<Vec<String>>,
    plan: Plan,
    ghost settled: { All (λ entry. IsSettled entry.1) disks.items },
    ghost spare_settled: { All IsSettled spare.items },
    ghost spare_empty: { All (λ disk. bytes_of disk ≡ []) spare.items },
}

impl MemShelf {
    ghost use Rattle.lrs_in_memory.specs.MemShelf.{disks_of, spare_of, taken_of, schedule_of, faults_of};

    /// A shelf with these disks. A name that isn't there gets a spare disk, the last one first, and if there is
    /// none left the call fails. The calls with the numbers in `failing` fail, too.
    pub fn new(disks: Vec<(String, MemDisk)>, spare: Vec<MemDisk>, failing: Vec<u64>) -> Self
        requires settled { All (λ entry. IsSettled entry.1) disks.items }
        requires spare_settled { All IsSettled spare.items }
        requires spare_empty { All (λ disk. bytes_of disk ≡ []) spare.items }
        ensures disks { disks_of result ≡ disks.items }
        ensures spare { spare_of result ≡ spare.items }
        ensures taken { taken_of result ≡ Some [] }
        ensures schedule { schedule_of result ≡ record { failing = failing.items; number = 0 } }
        ensures faults { faults_of result ≡ 0 }
    {
        let alloc = *disks.allocator();
        MemShelf {
            disks,
            spare,
            taken: Some(Vec::new(alloc)),
            plan: Plan::new(failing),
        }
    }

    /// The names that were asked for, in their order, unless there was no memory to keep them.
    pub fn taken(&self) -> Option<&[String]>
        ensures { option_map (λ names. map string_bytes names.now) result ≡ taken_of self.now }
    {
        match &self.taken {
            Some(names) => Some(names.as_slice()),
            None => None,
        }
    }
}

// These names and one more, if there is memory for it.
fn with_name(names: Vec<String>, name: &str) -> Option<Vec<String>>
    ensures { IfSome result (λ all. names_of all ≡ names_of names ++ name.now ∷ []) }
{
    let mut names = names;
    let alloc = *names.allocator();
    let Ok(copy) = String::from_str(alloc, name) else {
        return None;
    };
    if names.push(copy).is_err() {
        return None;
    }
    Some(names)
}

// Keeps a name after the others. Without memory none is kept from then on.
fn note(taken: &mut Option<Vec<String>>, name: &str)
    ensures { AddsName (option_map names_of taken.old) (option_map names_of taken.new) name.now }
{
    let Some(names) = taken.take() else {
        return;
    };
    *taken = with_name(names, name);
}

// Where the first disk of a name lies, or the number of disks.
fn index_of(disks: &[(String, MemDisk)], name: &str) -> usize
    ensures { result ≡ position_or_len (is_named name.now) disks.now }
{
    for (index, entry) in disks.iter().enumerate() {
        if entry.0.as_str() == name {
            return index;
        }
    }
    disks.len()
}

// Takes the disk that a name gets.
fn take_named(
    disks: &mut Vec<(String, MemDisk)>,
    spare: &mut Vec<MemDisk>,
    name: &str,
) -> Option<MemDisk>
    ensures named { result ≡ disk_named disks.old.items spare.old.items name.now }
    ensures disks { disks.new.items ≡ remove disks.old.items (position_or_len (is_named name.now) disks.old.items) }
    ensures spare { IsSome (find (is_named name.now) disks.old.items) → spare.new.items ≡ spare.old.items }
    ensures spare_used { IsNone (find (is_named name.now) disks.old.items)
        → spare.new.items ≡ take (length spare.old.items - 1) spare.old.items }
    ensures settled { All (λ entry. IsSettled entry.1) disks.old.items → All IsSettled spare.old.items
        → IfSome result IsSettled }
{
    let index = index_of(disks, name);
    if index < disks.len() {
        let (_, disk) = disks.remove(index);
        return Some(disk);
    }
    spare.pop()
}

impl Shelf for MemShelf {
    type Disk = MemDisk;

    ghost use Rattle.lrs_in_memory.specs.MemShelf.{disks_of, spare_of, disk_for, taken_of, schedule_of, faults_of};

    ghost holds = { λ s name. option_map bytes_of (disk_for s name) };

    ghost begins = { λ s name. option_map_or disk_faults_of (disk_for s name) 0 };

    ghost starts = { λ s name. option_map_or moment_of (disk_for s name) 0 };

    ghost taken = { taken_of };

    ghost fault_count = { faults_of };

    fn take(&mut self, name: &str) -> Result<MemDisk, Failed>
        ensures told { IfOk result (λ disk. Some (bytes_of disk) ≡ option_map bytes_of (disk_for self.old name.now)) }
        ensures begins { IfOk result (λ disk. disk_faults_of disk
            ≡ option_map_or disk_faults_of (disk_for self.old name.now) 0) }
        ensures starts { IfOk result (λ disk. moment_of disk ≡ option_map_or moment_of (disk_for self.old name.now) 0) }
        ensures settled { IfOk result IsSettled }
        ensures others { (other : List ℕ) → (other ≡ name.now → ⊥)
            → (option_map bytes_of (disk_for self.old name.now) ≡ Some []
            → option_map bytes_of (disk_for self.old other) ≡ Some [] → ⊥)
            → (option_map bytes_of (disk_for self.new other) ≡ option_map bytes_of (disk_for self.old other))
            × (option_map_or disk_faults_of (disk_for self.new other) 0
            ≡ option_map_or disk_faults_of (disk_for self.old other) 0)
            × (option_map_or moment_of (disk_for self.new other) 0
            ≡ option_map_or moment_of (disk_for self.old other) 0) }
        ensures taken { AddsName (taken_of self.old) (taken_of self.new) name.now }
        ensures cause { HasCause (faults_of self.old) (faults_of self.new) result }
        ensures given { IfOk result (λ disk. disk_for self.old name.now ≡ Some disk) }
        ensures fails { IsErr result ↔ (IsDue (schedule_of self.old) ⊎ (disk_for self.old name.now ≡ None)) }
        ensures schedule { IsNext (schedule_of self.old) (schedule_of self.new) }
        ensures disks { IfOk result (λ _. disks_of self.new ≡ remove (disks_of self.old)
            (position_or_len (is_named name.now) (disks_of self.old))) }
        ensures spare { IfOk result (λ _. IsSome (find (is_named name.now) (disks_of self.old))
            → spare_of self.new ≡ spare_of self.old) }
        ensures spare_used { IfOk result (λ _. IsNone (find (is_named name.now) (disks_of self.old))
            → spare_of self.new ≡ take (length (spare_of self.old) - 1) (spare_of self.old)) }
        ensures same { OnErr result ((disks_of self.new ≡ disks_of self.old)
            × (spare_of self.new ≡ spare_of self.old)) }
    {
        note(&mut self.taken, name);
        if self.plan.is_due() {
            return Err(self.plan.fail());
        }
        match take_named(&mut self.disks, &mut self.spare, name) {
            Some(disk) => Ok(disk),
            None => Err(self.plan.fail()),
        }
    }

    fn faults(&self) -> u64 {
        self.plan.faults
    }
}

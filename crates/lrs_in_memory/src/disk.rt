ghost use Rattle.std.specs.Prelude.{◌≡◌, ◌≤◌, ◌+◌, ◌-◌, [], ◌∷◌, ◌++◌, List, ℕ, Option, Some, length, take, drop, min, vec_capacity, IfOk, OnOk, OnErr, refl};
ghost use Rattle.lrs_disk.specs.Disk.{written, Torn, Cut, Follows, Within, Elapses};
ghost use Rattle.lrs_disk.specs.Faults.{HasCause};
ghost use Rattle.lrs_in_memory.specs.Steps.{Nothing, Wrote, FailedWrite, CutTo, FailedCut, Synced, reads_after, crash_image};
ghost use Rattle.lrs_in_memory.specs.Ledger.{steps_of};

use crate::Memory;
use crate::bytes::{overwrite, replay};
use crate::call::{Act, Pending};
use crate::ledger::Ledger;
use lrs_disk::{Disk, Failed, copied};
use std::alloc::Global;

/// A disk in memory. It keeps its calls, so that what a crash leaves can be looked at.
///
/// Calls are numbered from 0, and the number of the next one is the disk's moment.
#[derive(Drop)]
pub struct MemDisk {
    alloc: Global,
    first: Vec<u8>,
    bytes: Vec<u8>,
    ledger: Ledger,
    ghost reads: { bytes.items ≡ reads_after (steps_of ledger) first.items },
    ghost bytes_fit: { length bytes.items + (ledger.history.byte_room - length ledger.history.log.items)
        ≤ vec_capacity bytes },
}

impl MemDisk {
    ghost use Rattle.lrs_in_memory.specs.MemDisk.{first_of, bytes_of, steps_of as steps_made, allowance_of, moment_of, faults_of, Leaves, LeavesSince};

    /// A disk with these bytes, all of them on it. The calls with the numbers in `failing` fail, and those that
    /// come when `calls` calls were made or for which `written` bytes are too few; no call takes memory.
    pub fn new(
        alloc: Global,
        bytes: Vec<u8>,
        failing: Vec<u64>,
        calls: u64,
        written: u64,
    ) -> Result<Self, Memory>
        ensures bytes { IfOk result (λ d. bytes_of d ≡ bytes.items) }
        ensures settled { IfOk result (λ d. (c : List ℕ) → Leaves d c → c ≡ bytes.items) }
        ensures first { IfOk result (λ d. first_of d ≡ bytes.items) }
        ensures steps { IfOk result (λ d. steps_made d ≡ []) }
        ensures moment { IfOk result (λ d. moment_of d ≡ 0) }
        ensures faults { IfOk result (λ d. faults_of d ≡ 0) }
        ensures allowance { IfOk result (λ d. allowance_of d ≡
            record { failing = failing.items; number = 0; calls = calls; bytes = written }) }
    {
        let first = bytes.as_slice().to_vec(alloc)?;
        let mut bytes = bytes;
        bytes.reserve(written as usize)?;
        let ledger = Ledger::new(alloc, failing, calls, written)?;
        Ok(MemDisk {
            alloc,
            first,
            bytes,
            ledger,
        })
    }

    /// What a crash at a moment leaves, if what wasn't synced was lost, or landed, or holds one byte.
    pub fn image(&self, moment: u64, pending: Pending) -> Result<Vec<u8>, Memory>
        requires { moment ≤ moment_of self.now }
        ensures image { IfOk result (λ v. LeavesSince self.now moment v.items) }
        ensures pending { IfOk result (λ v. v.items ≡ crash_image pending (take moment (steps_made self.now))
            (first_of self.now) (first_of self.now)) }
    {
        let history = &self.ledger.history;
        let kept = moment.min(history.calls.len() as u64) as usize;
        Ok(replay(
            self.alloc,
            &history.calls[..kept],
            &history.log,
            &self.first,
            pending,
        )?)
    }

    /// What a read gives.
    pub fn bytes(&self) -> &[u8]
        ensures { result.now ≡ bytes_of self.now }
    {
        &self.bytes
    }
}

impl Disk for MemDisk {
    ghost use Rattle.lrs_in_memory.specs.Images.{reads_image, counts_now, only_now, since_later, told_reads};
    ghost use Rattle.lrs_in_memory.specs.MemDisk.{first_of, bytes_of, steps_of as steps_made, moment_of, faults_of, Leaves, LeavesSince, Takes};
    ghost use Rattle.lrs_in_memory.specs.Kept.{kept};

    ghost told = { λ d. Some (bytes_of d) };

    ghost image = { Leaves };

    ghost image_since = { LeavesSince };

    ghost fault_count = { faults_of };

    ghost time = { moment_of };

    ghost reads_image = { λ d b is. reads_image (steps_made d) (first_of d) b
        (told_reads (bytes_of d) b (reads_after (steps_made d) (first_of d)) is d.reads) };

    ghost tells = { λ d c left. refl };

    ghost counts_now = { λ d t c le left. counts_now (steps_made d) (first_of d) (moment_of d) (kept d) t c le left };

    ghost only_now = { λ d c left. only_now (steps_made d) (first_of d) (moment_of d) (kept d) c left };

    ghost since_later = { λ d t u c le left. since_later (steps_made d) (first_of d) (moment_of d) t u c le left };

    fn len(&mut self) -> Result<u64, Failed>
        ensures length { IfOk result (λ n. n ≡ length (bytes_of self.old)) }
        ensures still { bytes_of self.new ≡ bytes_of self.old }
        ensures crash { Within (Leaves self.old) (Leaves self.new) }
        ensures time { Elapses (moment_of self.old) (moment_of self.new) (LeavesSince self.old) (LeavesSince self.new)
            (Leaves self.new) }
        ensures cause { HasCause (faults_of self.old) (faults_of self.new) result }
        ensures takes { Takes self.old self.new Nothing Nothing 0 result }
    {
        self.ledger.enter(Act::Look, &[])?;
        Ok(self.bytes.len() as u64)
    }

    fn read_at(&mut self, offset: u64, into: &mut [u8]) -> Result<usize, Failed>
        ensures room { IfOk result (λ n. n ≤ length into.old) }
        ensures number { IfOk result (λ n. n ≡ min (length into.old) (length (bytes_of self.old) - offset)) }
        ensures bytes { IfOk result (λ n. take n into.new ≡ take n (drop offset (bytes_of self.old))) }
        ensures still { bytes_of self.new ≡ bytes_of self.old }
        ensures crash { Within (Leaves self.old) (Leaves self.new) }
        ensures time { Elapses (moment_of self.old) (moment_of self.new) (LeavesSince self.old) (LeavesSince self.new)
            (Leaves self.new) }
        ensures cause { HasCause (faults_of self.old) (faults_of self.new) result }
        ensures takes { Takes self.old self.new Nothing Nothing 0 result }
    {
        self.ledger.enter(Act::Look, &[])?;
        Ok(copied(&self.bytes, offset, into))
    }

    fn write_at(&mut self, offset: u64, bytes: &[u8]) -> Result<(), Failed>
        requires { offset ≤ length (bytes_of self.old) }
        ensures written { OnOk result (bytes_of self.new ≡ written (bytes_of self.old) offset bytes.now) }
        ensures failed { OnErr result (bytes_of self.new ≡ bytes_of self.old) }
        ensures crash { Follows (Torn offset (length bytes.now)) (Leaves self.old) (Leaves self.new) }
        ensures time { Elapses (moment_of self.old) (moment_of self.new) (LeavesSince self.old) (LeavesSince self.new)
            (Leaves self.new) }
        ensures cause { HasCause (faults_of self.old) (faults_of self.new) result }
        ensures takes { Takes self.old self.new (Wrote offset bytes.now) (FailedWrite offset bytes.now)
            (length bytes.now) result }
    {
        self.ledger.enter(Act::Write { offset }, bytes)?;
        overwrite(&mut self.bytes, offset, bytes).unwrap();
        Ok(())
    }

    fn cut(&mut self, to: u64) -> Result<(), Failed>
        requires { to ≤ length (bytes_of self.old) }
        ensures cut { OnOk result (bytes_of self.new ≡ take to (bytes_of self.old)) }
        ensures failed { OnErr result (bytes_of self.new ≡ bytes_of self.old) }
        ensures crash { Follows (Cut to) (Leaves self.old) (Leaves self.new) }
        ensures time { Elapses (moment_of self.old) (moment_of self.new) (LeavesSince self.old) (LeavesSince self.new)
            (Leaves self.new) }
        ensures cause { HasCause (faults_of self.old) (faults_of self.new) result }
        ensures takes { Takes self.old self.new (CutTo to) (FailedCut to) 0 result }
    {
        self.ledger.enter(Act::Cut { to }, &[])?;
        self.bytes.truncate(to as usize);
        Ok(())
    }

    fn sync(&mut self) -> Result<(), Failed>
        ensures durable { OnOk result ((c : List ℕ) → Leaves self.new c → c ≡ bytes_of self.new) }
        ensures still { bytes_of self.new ≡ bytes_of self.old }
        ensures crash { Within (Leaves self.old) (Leaves self.new) }
        ensures time { Elapses (moment_of self.old) (moment_of self.new) (LeavesSince self.old) (LeavesSince self.new)
            (Leaves self.new) }
        ensures cause { HasCause (faults_of self.old) (faults_of self.new) result }
        ensures takes { Takes self.old self.new Synced Nothing 0 result }
    {
        self.ledger.enter(Act::Sync, &[])
    }

    fn faults(&self) -> u64 {
        self.ledger.plan.faults
    }

    fn moment(&self) -> u64 {
        self.ledger.plan.number
    }
}

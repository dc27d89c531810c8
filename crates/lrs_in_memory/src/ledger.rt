ghost use Rattle.std.specs.Prelude.{◌≡◌, [], ◌∷◌, ◌++◌, List, ℕ, length, min, IfOk, OnOk, OnErr};
ghost use Rattle.lrs_disk.specs.Faults.{HasCause};
ghost use Rattle.lrs_disk.specs.Disk.{Elapses};
ghost use Rattle.lrs_in_memory.specs.Steps.{MayAdd, IsImage, IsImageSince};
ghost use Rattle.lrs_in_memory.specs.Calls.{made, tried};
ghost use Rattle.lrs_in_memory.specs.Allowance.{HasRoom, Spends};

use crate::call::{Act, Call};
use crate::history::History;
use crate::plan::Plan;
use lrs_disk::Failed;
use std::alloc::{AllocError, Global};

// What a disk keeps of its calls: which fail, and all that were made while there was room for them.
#[derive(Drop)]
pub(crate) struct Ledger {
    pub(crate) plan: Plan,
    pub(crate) history: History,
    ghost counted: { length history.calls.items ≡ min plan.number history.call_room },
}

impl Ledger {
    ghost use Rattle.lrs_in_memory.specs.Ledger.{steps_of, allowance_of};

    pub(crate) fn new(
        alloc: Global,
        failing: Vec<u64>,
        calls: u64,
        bytes: u64,
    ) -> Result<Self, AllocError>
        ensures steps { IfOk result (λ r. steps_of r ≡ []) }
        ensures allowance { IfOk result (λ r. allowance_of r ≡
            record { failing = failing.items; number = 0; calls = calls; bytes = bytes }) }
        ensures faults { IfOk result (λ r. r.plan.faults ≡ 0) }
    {
        Ok(Ledger {
            plan: Plan::new(failing),
            history: History::new(alloc, calls, bytes)?,
        })
    }

    // One call. It fails if its number says so, and if there is no room. While there is room it is kept.
    pub(crate) fn enter(&mut self, act: Act, bytes: &[u8]) -> Result<(), Failed>
        ensures made { OnOk result (steps_of self.new ≡ steps_of self.old ++ made act bytes.now ∷ []) }
        ensures tried { OnErr result (HasRoom (allowance_of self.old) (length bytes.now)
            → steps_of self.new ≡ steps_of self.old ++ tried act bytes.now ∷ []) }
        ensures kept { OnErr result (MayAdd (steps_of self.old) (steps_of self.new) (tried act bytes.now)) }
        ensures spends { Spends (allowance_of self.old) (allowance_of self.new) (length bytes.now) result }
        ensures time { (first : List ℕ) → Elapses self.old.plan.number self.new.plan.number
            (IsImageSince (steps_of self.old) first self.old.plan.number)
            (IsImageSince (steps_of self.new) first self.new.plan.number) (IsImage (steps_of self.new) first) }
        ensures cause { HasCause self.old.plan.faults self.new.plan.faults result }
    {
        let number = self.plan.number;
        let due = self.plan.is_due();
        if number >= self.history.call_room {
            return Err(self.plan.fail());
        }
        if bytes.len() as u64 > self.history.bytes_left() {
            let call = Call {
                act: Act::Look,
                size: 0,
                failed: true,
            };
            self.history.note(call, &[]);
            return Err(self.plan.fail());
        }
        let call = Call {
            act,
            size: bytes.len(),
            failed: due,
        };
        self.history.note(call, bytes);
        if due {
            return Err(self.plan.fail());
        }
        Ok(())
    }
}

// An act on the journal and the fold: first a doubt is ended, then the command is answered.
ghost use Rattle.std.specs.Prelude.{◌≡◌, option_map, IsNone, false};
ghost use Rattle.lrs_command.specs.Commands.{HasReadTrees};
ghost use Rattle.lrs_fold.specs.LrsHistoryHistory.{outcome};
ghost use Rattle.lrs_journal.specs.Journal.{IsJournal};
ghost use Rattle.lrs_machine.specs.Acts.{HasDiskCause};
ghost use Rattle.lrs_machine.specs.Fold.{state_of};
ghost use Rattle.lrs_machine.specs.Steps.{Does, landed_of};
ghost use Rattle.lrs_parts.specs.Parts.{AddsNoSlots};
ghost use Rattle.lrs_record.specs.Entries.{IsLawfulCaller};

use crate::keeping::keep;
use lrs_disk::Disk;
use lrs_fold::{Fold, Outcome, Spent, Submission};
use lrs_journal::Journal;
use lrs_names::Draw;
use lrs_record::{Caller, Entry};
use lrs_replies::{Answered, Trouble};
use std::alloc::Global;
use std::snapshot::Snapshot;

/// What came of an act.
#[derive(Drop)]
pub(crate) struct Done {
    pub(crate) said: Result<Answered, Trouble>,
    /// The entry that it made, also one in doubt.
    pub(crate) made: Option<Snapshot<Entry>>,
    /// The index of an earlier entry whose doubt it ended.
    pub(crate) landed: Option<u64>,
}

/// Answers a command.
pub(crate) fn act<D: Disk>(
    alloc: Global,
    journal: &mut Journal<D>,
    fold: &mut Fold,
    spent: &mut Spent,
    caller: Caller,
    command: Submission,
    clock: u64,
    draw: &Draw,
) -> Done
    requires sound { IsJournal D.told D.image journal.old }
    requires caller { IsLawfulCaller caller }
    requires command { HasReadTrees command }
    ensures does { Does D.told D.time D.image_since journal.old journal.new (state_of fold.old) (state_of fold.new)
        (outcome (state_of fold.old) caller command clock draw.now) result.said
        (option_map (λ s. s.value) result.made) }
    ensures sound { IsJournal D.told D.image journal.new }
    ensures cause { HasDiskCause (D.fault_count journal.old.disk) (D.fault_count journal.new.disk) result.said }
    ensures landed { result.landed ≡ landed_of journal.old journal.new (option_map (λ s. s.value) result.made) }
    // An act that makes no entry leaves no slot behind, so a store that can't write doesn't grow by slots.
    ensures slots { IsNone result.made → AddsNoSlots fold.old.parts fold.new.parts }
{
    match journal.settle() {
        Ok(landed) => {
            let (said, made) = answer(alloc, journal, fold, spent, caller, command, clock, draw);
            Done { said, made, landed }
        }
        Err(_) => {
            drop(caller);
            command.discard();
            Done {
                said: Err(Trouble::Disk),
                made: None,
                landed: None,
            }
        }
    }
}

// Answers a command when nothing is in doubt.
fn answer<D: Disk>(
    alloc: Global,
    journal: &mut Journal<D>,
    fold: &mut Fold,
    spent: &mut Spent,
    caller: Caller,
    command: Submission,
    clock: u64,
    draw: &Draw,
) -> (Result<Answered, Trouble>, Option<Snapshot<Entry>>)
    requires settled { journal.old.doubt ≡ false }
    requires sound { IsJournal D.told D.image journal.old }
    requires caller { IsLawfulCaller caller }
    requires command { HasReadTrees command }
    ensures does { Does D.told D.time D.image_since journal.old journal.new (state_of fold.old) (state_of fold.new)
        (outcome (state_of fold.old) caller command clock draw.now) result.0 (option_map (λ s. s.value) result.1) }
    ensures sound { IsJournal D.told D.image journal.new }
    ensures cause { HasDiskCause (D.fault_count journal.old.disk) (D.fault_count journal.new.disk) result.0 }
    ensures slots { IsNone result.1 → AddsNoSlots fold.old.parts fold.new.parts }
{
    match fold.outcome(alloc, caller, command, clock, draw, spent) {
        Ok(Outcome::Said(said)) => (Ok(said), None),
        Ok(Outcome::Accepted(accepted, texts)) => keep(journal, fold, spent, accepted, texts),
        Err(refused) => (Err(Trouble::from(refused)), None),
    }
}

// Adding an accepted entry to the journal and the fold.
ghost use Rattle.std.specs.Prelude.{◌≡◌, ◌≤◌, option_map, IsNone, false};
ghost use Rattle.lrs_fold.specs.Outcomes.{IsAcceptance};
ghost use Rattle.lrs_fold.specs.LrsHistoryHistory.{Outcome};
ghost use Rattle.lrs_journal.specs.Journal.{need_of, IsJournal};
ghost use Rattle.lrs_machine.specs.Acts.{HasDiskCause};
ghost use Rattle.lrs_machine.specs.Fold.{state_of};
ghost use Rattle.lrs_machine.specs.Steps.{Does};
ghost use Rattle.lrs_parts.specs.Parts.{AddsNoSlots, IsReadyFor, MakesSlotsFor};
ghost use Rattle.lrs_parts.specs.State.{apply};
ghost use Rattle.lrs_parts.specs.Parts.{SeenParts as Parts};
ghost use Rattle.xapi_index.specs.Ahead.{AreTextsOf};

use lrs_disk::Disk;
use lrs_fold::{Accepted, Fold, Spent};
use lrs_journal::{Full, Journal};
use lrs_json::Items;
use lrs_record::Entry;
use lrs_replies::{Answered, Refusal, Trouble};
use std::snapshot::Snapshot;
use xapi_statement::ReceivedText;

/// Keeps an accepted entry if there is room, and says whether it was made. All memory is taken before the frame is
/// written. Where none was made, no slot is left of what was made ready for it. What is of no more use is put into
/// `spent`.
pub(crate) fn keep<D: Disk>(
    journal: &mut Journal<D>,
    fold: &mut Fold,
    spent: &mut Spent,
    accepted: Accepted,
    texts: Items<ReceivedText>,
) -> (Result<Answered, Trouble>, Option<Snapshot<Entry>>)
    requires settled { journal.old.doubt ≡ false }
    requires sound { IsJournal D.told D.image journal.old }
    requires texts { AreTextsOf texts accepted.effect.statements }
    ensures kept { (v : Outcome) → IsAcceptance (state_of fold.old) v accepted
        → Does D.told D.time D.image_since journal.old journal.new (state_of fold.old) (state_of fold.new) v
        result.0 (option_map (λ s. s.value) result.1) }
    ensures sound { IsJournal D.told D.image journal.new }
    ensures cause { HasDiskCause (D.fault_count journal.old.disk) (D.fault_count journal.new.disk) result.0 }
    ensures slots { IsNone result.1 → AddsNoSlots fold.old.parts fold.new.parts }
{
    match journal.room(accepted.text.as_slice()) {
        Ok(()) => keep_within(journal, fold, spent, accepted, texts),
        Err(Full { need, limit }) => {
            spent.set_accepted(accepted);
            spent.set_texts(texts);
            (Ok(Answered::Refused(Refusal::Full { need, limit })), None)
        }
    }
}

// Keeps an entry that has room.
fn keep_within<D: Disk>(
    journal: &mut Journal<D>,
    fold: &mut Fold,
    spent: &mut Spent,
    accepted: Accepted,
    texts: Items<ReceivedText>,
) -> (Result<Answered, Trouble>, Option<Snapshot<Entry>>)
    requires settled { journal.old.doubt ≡ false }
    requires sound { IsJournal D.told D.image journal.old }
    requires texts { AreTextsOf texts accepted.effect.statements }
    requires room { need_of journal.old accepted.text ≤ journal.old.limit }
    ensures kept { (v : Outcome) → IsAcceptance (state_of fold.old) v accepted
        → Does D.told D.time D.image_since journal.old journal.new (state_of fold.old) (state_of fold.new) v
        result.0 (option_map (λ s. s.value) result.1) }
    ensures sound { IsJournal D.told D.image journal.new }
    ensures cause { HasDiskCause (D.fault_count journal.old.disk) (D.fault_count journal.new.disk) result.0 }
    ensures slots { IsNone result.1 → AddsNoSlots fold.old.parts fold.new.parts }
{
    let mut texts = texts.into_vec().into_iter();
    let made = fold.ready(&mut texts, &accepted.effect);
    drop(texts);
    match made {
        Ok(()) => append(journal, fold, spent, accepted),
        Err(refused) => {
            fold.release(&accepted.effect);
            spent.set_accepted(accepted);
            (Err(Trouble::from(refused)), None)
        }
    }
}

// Writes the frame of an entry for which all is ready.
fn append<D: Disk>(
    journal: &mut Journal<D>,
    fold: &mut Fold,
    spent: &mut Spent,
    accepted: Accepted,
) -> (Result<Answered, Trouble>, Option<Snapshot<Entry>>)
    requires settled { journal.old.doubt ≡ false }
    requires sound { IsJournal D.told D.image journal.old }
    requires room { need_of journal.old accepted.text ≤ journal.old.limit }
    requires ready { IsReadyFor fold.old.parts accepted.effect }
    ensures kept { (v : Outcome) → IsAcceptance (state_of fold.old) v accepted
        → Does D.told D.time D.image_since journal.old journal.new (state_of fold.old) (state_of fold.new) v
        result.0 (option_map (λ s. s.value) result.1) }
    ensures sound { IsJournal D.told D.image journal.new }
    ensures cause { HasDiskCause (D.fault_count journal.old.disk) (D.fault_count journal.new.disk) result.0 }
    ensures slots { IsNone result.1 → (before : Parts) → MakesSlotsFor before fold.old.parts accepted.effect
        → AddsNoSlots before fold.new.parts }
{
    match journal.append(accepted.text.as_slice()) {
        Ok(_) => {
            let (said, entry) = take_in(fold, spent, accepted);
            (Ok(said), Some(entry))
        }
        // There was room, so the disk failed.
        Err(_) => {
            if journal.in_doubt() {
                let (said, entry) = take_in(fold, spent, accepted);
                drop(said);
                (Err(Trouble::Disk), Some(entry))
            } else {
                fold.release(&accepted.effect);
                spent.set_accepted(accepted);
                (Err(Trouble::Disk), None)
            }
        }
    }
}

// Takes in the effect of an entry for which all is ready, and hands on what is said of it and the entry.
fn take_in(fold: &mut Fold, spent: &mut Spent, accepted: Accepted) -> (Answered, Snapshot<Entry>)
    requires { IsReadyFor fold.old.parts accepted.effect }
    ensures applied { state_of fold.new ≡ apply (state_of fold.old) accepted.effect }
    ensures same { (result.0 ≡ accepted.said) × (result.1 ≡ accepted.entry) }
{
    let Accepted {
        entry,
        text,
        effect,
        said,
    } = accepted;
    let left = fold.install(effect);
    spent.set_kept(left, text);
    (said, entry)
}

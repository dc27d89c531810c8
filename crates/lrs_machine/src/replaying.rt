// Reading a store's frames into the fold.
ghost use Rattle.std.specs.Prelude.{◌≡◌, ◌<◌, List, [], true, false, length, Some, IfOk, IfErr, IsOk, IsErrOf, OnOk};
ghost use Rattle.std.specs.Option.{ForSome};
ghost use Rattle.lrs_disk.specs.Disk.{LeavesOnly};
ghost use Rattle.lrs_journal.specs.Journal.{HasCount, IsSynced};
ghost use Rattle.lrs_journal.specs.Replay.{HasRead};
ghost use Rattle.lrs_journal.specs.declared.sizes.TheConstants.{HEADER};
ghost use Rattle.lrs_journal.specs.declared.sizes.Format.TheVariants as Formats;
ghost use Rattle.lrs_parts.specs.State.{apply, nothing};
ghost use Rattle.lrs_machine.specs.declared.opening.DeskRefused.TheVariants as refused;
ghost use Rattle.lrs_machine.specs.Fold.{state_of};
ghost use Rattle.lrs_machine.specs.Desk.{IsDeskRefused};
ghost use Rattle.lrs_machine.specs.Migrating.{JudgesEntry};
ghost use Rattle.lrs_machine.specs.Replays.{has_room, refusal_of, IsReplayed, HasReadEntries, HasReadAll, TakesFrame, TakesEntry};

use crate::DeskRefused;
use lrs_disk::Disk;
use lrs_fold::Fold;
use lrs_journal::{Replay, ReplayRefused};
use lrs_json::Memory;
use lrs_noted::Noted;
use lrs_parts::Effect;
use lrs_record::{Entry, EntryRefused, read_entry};
use std::alloc::Global;

/// Why a frame wasn't taken in.
#[derive(Clone, Copy)]
pub(crate) enum JudgeRefused {
    // It is no entry, or not one that may come next.
    Illegal,
    Memory,
}

// Takes in an entry, of which this is the frame. Before it k frames were taken in, and after it the end gate stands at
// that offset.
#[tactic(auto, using(crate::proofs::Following::without_room, crate::proofs::Following::takes_judged, crate::proofs::Following::takes_illegal))]
fn take_entry(
    alloc: Global,
    frame: &[u8],
    k: u64,
    limit: u64,
    offset: u64,
    fold: &mut Fold,
    opening: &mut Noted<Entry>,
) -> Result<(), DeskRefused>
    ensures { TakesEntry frame.now k limit offset (state_of fold.old) (state_of fold.new)
        opening.old.items opening.new.items result }
{
    if !has_room(k == 0, limit, offset) {
        return Err(DeskRefused::IllegalEntry { k });
    }
    match judge(alloc, frame, k == 0, fold, opening) {
        Ok(()) => Ok(()),
        Err(JudgeRefused::Illegal) => Err(DeskRefused::IllegalEntry { k }),
        Err(JudgeRefused::Memory) => Err(DeskRefused::Memory),
    }
}

/// Takes in an entry, of which this is the frame, if it may come next, as the first one or after others. It asks for no
/// room.
pub(crate) fn judge(
    alloc: Global,
    frame: &[u8],
    first: bool,
    fold: &mut Fold,
    opening: &mut Noted<Entry>,
) -> Result<(), JudgeRefused>
    ensures { JudgesEntry frame.now first (state_of fold.old) (state_of fold.new)
        opening.old.items opening.new.items result }
{
    let entry = match read_entry(alloc, frame) {
        Ok(entry) => entry,
        Err(EntryRefused::BadEntry) => return Err(JudgeRefused::Illegal),
        Err(EntryRefused::Memory) => return Err(JudgeRefused::Memory),
    };
    let longer = opening.and(&entry);
    match fold.next(alloc, first, entry) {
        Ok(Some(effect)) => match take_in(fold, effect) {
            Ok(()) => {
                *opening = longer;
                Ok(())
            }
            Err(_) => Err(JudgeRefused::Memory),
        },
        Ok(None) => Err(JudgeRefused::Illegal),
        Err(_) => Err(JudgeRefused::Memory),
    }
}

// Whether a frame may end with its end gate at that offset. The first may end anywhere: founding made room for it.
fn has_room(first: bool, limit: u64, offset: u64) -> bool
    ensures { result ≡ has_room first limit offset }
{
    first || offset < limit
}

/// Takes in what an entry changes.
pub(crate) fn take_in(fold: &mut Fold, effect: Effect) -> Result<(), Memory>
    ensures { OnOk result (state_of fold.new ≡ apply (state_of fold.old) effect) }
{
    let mut texts = Vec::new(effect.statements.allocator()).into_iter();
    match fold.ready(&mut texts, &effect) {
        Ok(()) => {
            fold.install(effect).discard();
            Ok(())
        }
        Err(refused) => {
            effect.discard();
            Err(refused)
        }
    }
}

// Takes the next frame in, or answers false at the list's end. So far k frames were taken in.
fn take_next<D: Disk>(
    alloc: Global,
    replay: &mut Replay<D>,
    k: u64,
    frame: &mut Vec<u8>,
    fold: &mut Fold,
    opening: &mut Noted<Entry>,
) -> Result<bool, DeskRefused>
    requires long { length opening.old.items ≡ k }
    requires replayed { IsReplayed replay.old (state_of fold.old) opening.old.items }
    requires read { ForSome (D.told replay.old.disk) (λ bytes. HasReadEntries bytes replay.old opening.old.items) }
    ensures taken { IfOk result (TakesFrame D.told replay.new (state_of fold.new) k opening.new.items) }
    ensures refused { IfErr result (λ e. ForSome (D.told replay.old.disk) (λ bytes. IsDeskRefused bytes e)) }
    ensures ended { IfOk result (λ more. more ≡ false → replay.new.ended ≡ true) }
    ensures limit { replay.new.limit ≡ replay.old.limit }
    ensures still { D.told replay.new.disk ≡ D.told replay.old.disk }
    ensures any_moment { LeavesOnly D.time D.image_since replay.old.disk replay.new.disk
        (λ bytes. D.told replay.old.disk ≡ Some bytes) }
    ensures cause { HasCount (D.fault_count replay.old.disk) (D.fault_count replay.new.disk)
        (IsErrOf result refused.Failed) (IsOk result) }
{
    let more = match replay.next(frame) {
        Ok(more) => more,
        Err(unread) => return Err(refusal_of(unread)),
    };
    if !more {
        return Ok(false);
    }
    match take_entry(
        alloc,
        frame,
        k,
        replay.limit(),
        replay.offset(),
        fold,
        opening,
    ) {
        Ok(()) => Ok(true),
        Err(refused) => Err(refused),
    }
}

fn refusal_of(unread: ReplayRefused) -> DeskRefused
    ensures { result ≡ refusal_of unread }
{
    match unread {
        ReplayRefused::Damaged { k } => DeskRefused::Damaged { k },
        ReplayRefused::Failed => DeskRefused::Failed,
        ReplayRefused::Memory => DeskRefused::Memory,
    }
}

/// Takes all frames in, each as the entry that comes next.
pub(crate) fn replay_all<D: Disk>(
    alloc: Global,
    replay: &mut Replay<D>,
    fold: &mut Fold,
    opening: &mut Noted<Entry>,
) -> Result<(), DeskRefused>
    requires empty { (state_of fold.old ≡ nothing) × (opening.old.items ≡ []) }
    requires format { replay.old.format ≡ Formats.Two }
    requires begun { (replay.old.offset ≡ HEADER) × (replay.old.number ≡ 0) }
    requires read { ForSome (D.told replay.old.disk) (λ bytes. HasRead bytes replay.old []) }
    requires synced { IsSynced D.told D.image replay.old.disk }
    ensures replayed { OnOk result (IsReplayed replay.new (state_of fold.new) opening.new.items) }
    ensures some { OnOk result (0 < length opening.new.items) }
    ensures read { OnOk result (ForSome (D.told replay.new.disk)
        (λ bytes. HasReadAll bytes replay.new opening.new.items)) }
    ensures ended { OnOk result (replay.new.ended ≡ true) }
    ensures refused { IfErr result (λ e. ForSome (D.told replay.old.disk) (λ bytes. IsDeskRefused bytes e)) }
    ensures limit { replay.new.limit ≡ replay.old.limit }
    ensures still { D.told replay.new.disk ≡ D.told replay.old.disk }
    ensures any_moment { LeavesOnly D.time D.image_since replay.old.disk replay.new.disk
        (λ bytes. D.told replay.old.disk ≡ Some bytes) }
    ensures cause { HasCount (D.fault_count replay.old.disk) (D.fault_count replay.new.disk)
        (IsErrOf result refused.Failed) (IsOk result) }
{
    let mut frame = Vec::new(alloc);
    for k in 0..u64::MAX {
        match take_next(alloc, replay, k, &mut frame, fold, opening) {
            Ok(true) => {}
            Ok(false) => {
                if k == 0 {
                    return Err(DeskRefused::IllegalEntry { k });
                }
                return Ok(());
            }
            Err(refused) => return Err(refused),
        }
    }
    Err(DeskRefused::Memory)
}

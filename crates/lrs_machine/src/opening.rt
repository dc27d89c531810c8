// Making a store, and opening one.
ghost use Rattle.std.specs.Prelude.{◌≡◌, ◌≢◌, ◌⊎◌, ◌<◌, ◌≤◌, List, [], ◌∷◌, ℕ, Some, length, map, true, false, IfOk, IfErr, OnOk};
ghost use Rattle.std.specs.Option.{ForSome};
ghost use Rattle.lrs_disk.specs.Disk.{LeavesOnly};
ghost use Rattle.lrs_disk.specs.Faults.{Rises};
ghost use Rattle.lrs_journal.specs.Create.{IsMade, IsOpenTo, IsUntouched, need_of_first};
ghost use Rattle.lrs_journal.specs.Journal.{IsSynced, TellsAlike};
ghost use Rattle.lrs_journal.specs.Store.{IsLimit, Stands};
ghost use Rattle.lrs_record.specs.declared.entry.Entry.{Entry};
ghost use Rattle.lrs_record.specs.Entries.{IsLawful, IsLawfulCaller, IsLawfulWrite, written_entry};
ghost use Rattle.lrs_parts.specs.Founding.{IsToken, IsBase};
ghost use Rattle.lrs_parts.specs.State.{nothing};
ghost use Rattle.lrs_fold.specs.LrsHistoryHistory.{state, IsFounding, IsLegal};
ghost use Rattle.lrs_machine.specs.declared.opening.DeskRefused.TheVariants as DeskRefused;
ghost use Rattle.lrs_machine.specs.declared.opening.FoundRefused.TheVariants as FoundRefused;
ghost use Rattle.lrs_machine.specs.Line.{in_doubt, opened_line};
ghost use Rattle.lrs_machine.specs.Desk.{history, IsOnDisk, IsStoreOf, LeavesStore, IsDeskRefused, SparesLegal, IsNotFounded, MakesOnly, OpensOnly, IsSameStore};
ghost use Rattle.lrs_fold.specs.Own.{founding_entry};
ghost use Rattle.lrs_machine.specs.Fold.{state_of};
ghost use Rattle.lrs_machine.specs.Steps.{HoldsEntries};
ghost use Rattle.lrs_machine.specs.Replays.{IsReplayed, HasReadAll, founding_refusal, opening_refusal};

use crate::replaying::{replay_all, take_in};
use crate::{Desk, Spent};
use lrs_disk::Disk;
use lrs_fold::{Fold, entry_text, founding_entry};
use lrs_journal::{CreateRefused, Journal, MOST_BYTES, RecoverRefused, Replay};
use lrs_json::{Memory, Text};
use lrs_noted::Noted;
use lrs_record::Entry;
use std::alloc::Global;
use std::snapshot::Snapshot;

/// Why a disk isn't opened as a store.
#[derive(Clone, Copy, Debug, PartialEq, Eq)]
pub enum DeskRefused {
    /// The disk doesn't begin with a store's open header, of whatever format.
    NotAStore,
    /// It begins with the open header of a store of the old format, which `migrate` alone reads.
    OldFormat,
    /// Frame k isn't whole, or it tells another number.
    Damaged { k: u64 },
    /// Frame k is no entry, or not one that may come next. With k 0 also: there is no frame.
    IllegalEntry { k: u64 },
    /// The disk failed.
    Failed,
    /// Memory ran out.
    Memory,
}

/// Why no store was made on a disk.
#[derive(Clone, Copy, Debug, PartialEq, Eq)]
pub enum FoundRefused {
    /// The disk begins with an open gate and a store's magic.
    AlreadyStore,
    /// The disk has more than one byte, the first isn't 0, and no store's magic follows it.
    Foreign,
    /// The file would need more bytes than the limit.
    Full { need: u64, limit: u64 },
    /// The disk failed. It holds no store now, or the whole new one.
    Failed,
    /// Memory ran out. Nothing was written.
    Memory,
}

impl<D: Disk> Desk<D> {
    /// Makes a store on a disk, whose one entry is the operator's founding entry with the admin's token and the
    /// address under which the store is reached. The limit is the most bytes that the file may have.
    pub fn found(
        alloc: Global,
        disk: D,
        limit: u64,
        admin: &Text,
        base: &Text,
        clock: u64,
    ) -> Result<Desk<D>, (FoundRefused, D)>
        requires limit { IsLimit limit }
        requires admin { IsToken admin.now }
        requires base { IsBase base.now }
        ensures line { IfOk result (λ desk. desk.line
            ≡ opened_line desk.opened_at (founding_entry admin.now base.now clock ∷ [])) }
        ensures fields { IfOk result (λ desk. (desk.limit ≡ limit) × (in_doubt desk.line ≡ false)
            × (desk.opened ≡ 1)) }
        ensures moment { IfOk result (λ desk. desk.opened_at ≡ D.time desk.disk) }
        ensures origin { IfOk result (λ desk. desk.origin ≡ desk.disk) }
        ensures free { IfOk result (λ _. ForSome (D.told disk) IsOpenTo) }
        ensures room { IfOk result (λ _. need_of_first (written_entry (founding_entry admin.now base.now clock))
            ≤ limit) }
        ensures tells { IfOk result (λ desk. TellsAlike (D.told disk) (D.told desk.disk)) }
        ensures durable { IfOk result (IsOnDisk D.told D.image D.time D.image_since) }
        // A crash at any moment leaves no store, or the new one.
        ensures stops { IfOk result (λ desk. MakesOnly D.told D.image D.time D.image_since limit
            (founding_entry admin.now base.now clock) disk desk.disk) }
        ensures stops_err { IfErr result (λ e. MakesOnly D.told D.image D.time D.image_since limit
            (founding_entry admin.now base.now clock) disk e.1) }
        ensures kept { IfOk result (λ desk. D.fault_count desk.disk ≡ D.fault_count disk) }
        ensures refused { IfErr result
            (λ e. ForSome (D.told disk)
            (λ bytes. IsNotFounded bytes limit (founding_entry admin.now base.now clock) e.0)) }
        ensures full { IfErr result (λ e. (need most : ℕ) → e.0 ≡ FoundRefused.Full need most
            → (need ≡ need_of_first (written_entry (founding_entry admin.now base.now clock))) × (most ≡ limit)
            × (limit < need)) }
        ensures tells_err { IfErr result (λ e. TellsAlike (D.told disk) (D.told e.1)) }
        ensures spared { IfErr result (λ e. e.0 ≢ FoundRefused.Failed → D.told e.1 ≡ D.told disk) }
        ensures store { IfErr result (λ e. ForSome (D.told disk) (λ bytes. (IsOpenTo bytes → ⊥)
            → D.told e.1 ≡ D.told disk)) }
        // Nothing was written if the disk didn't fail, or if no store may be made there.
        ensures untouched { IfErr result (λ e. e.0 ≢ FoundRefused.Failed
            → IsUntouched D.told D.image D.time D.image_since disk e.1) }
        ensures untouched_store { IfErr result (λ e. ForSome (D.told disk) (λ bytes. (IsOpenTo bytes → ⊥)
            → IsUntouched D.told D.image D.time D.image_since disk e.1)) }
        // A read of the disk gives what was there, or a store of this entry, or no store.
        ensures made { IfErr result (λ e. IsSynced D.told D.image disk → ForSome (D.told disk) (λ bytes.
            ForSome (D.told e.1) (λ now. (now ≡ bytes)
            ⊎ IsMade limit (written_entry (founding_entry admin.now base.now clock)) now))) }
        ensures later { IfOk result (λ desk. D.time disk ≤ D.time desk.disk) }
        ensures later_err { IfErr result (λ e. D.time disk ≤ D.time e.1) }
        ensures faults { IfErr result (λ e. D.fault_count disk ≤ D.fault_count e.1) }
        ensures cause { IfErr result (λ e. e.0 ≡ FoundRefused.Failed → Rises (D.fault_count disk) (D.fault_count e.1)) }
    {
        let mut fold = Fold::new(alloc);
        let (frame, opening) = match begun(alloc, &mut fold, admin, base, clock) {
            Ok(begun) => begun,
            Err(_) => {
                fold.discard();
                return Err((FoundRefused::Memory, disk));
            }
        };
        match Journal::create(disk, limit, &frame) {
            Ok(journal) => Ok(opened(alloc, journal, fold, opening)),
            Err((refused, disk)) => {
                fold.discard();
                Err((founding_refusal(refused), disk))
            }
        }
    }

    /// Opens a disk as a store: reads its frames one by one, and asks of each whether it is the entry that comes
    /// next.
    pub fn recover(alloc: Global, disk: D) -> Result<Desk<D>, (DeskRefused, D)>
        ensures opening { IfOk result (λ desk. (h : List Entry) × (desk.line ≡ opened_line desk.opened_at h)
            × (desk.opened ≡ length h) × IsLegal desk.limit h
            × ForSome (D.told disk) (λ bytes. IsStoreOf bytes desk.limit h)) }
        ensures moment { IfOk result (λ desk. desk.opened_at ≡ D.time desk.disk) }
        ensures origin { IfOk result (λ desk. desk.origin ≡ desk.disk) }
        ensures tells { IfOk result (λ desk. TellsAlike (D.told disk) (D.told desk.disk)) }
        ensures durable { IfOk result (IsOnDisk D.told D.image D.time D.image_since) }
        ensures settled { IfOk result (λ desk. in_doubt desk.line ≡ false) }
        // A crash at any moment leaves a store of the same history.
        ensures stops { IfOk result (λ desk. OpensOnly D.told D.image D.time D.image_since disk desk.disk
            (λ bytes after. IsStoreOf after desk.limit (history desk))) }
        ensures stops_err { IfErr result (λ e. OpensOnly D.told D.image D.time D.image_since disk e.1 IsSameStore) }
        // Nothing is written before all frames are read.
        ensures untouched { IfErr result (λ e. e.0 ≢ DeskRefused.Failed
            → OpensOnly D.told D.image D.time D.image_since disk e.1 (λ bytes after. after ≡ bytes)) }
        ensures kept { IfOk result (λ desk. D.fault_count desk.disk ≡ D.fault_count disk) }
        ensures refused { IfErr result (λ e. ForSome (D.told disk) (λ bytes. IsDeskRefused bytes e.0)) }
        ensures legal { IfErr result (λ e. ForSome (D.told disk) (λ bytes. SparesLegal bytes e.0)) }
        ensures same { IfErr result (λ e. e.0 ≢ DeskRefused.Failed → D.told e.1 ≡ D.told disk) }
        ensures left { IfErr result
            (λ e. ForSome (D.told disk) (λ bytes. (D.told e.1 ≡ Some bytes)
            ⊎ ((limit : ℕ) × (h : List Entry) × IsStoreOf bytes limit h × LeavesStore D.told e.1 limit false h))) }
        ensures later { IfOk result (λ desk. D.time disk ≤ D.time desk.disk) }
        ensures later_err { IfErr result (λ e. D.time disk ≤ D.time e.1) }
        ensures faults { IfErr result (λ e. D.fault_count disk ≤ D.fault_count e.1) }
        ensures cause { IfErr result (λ e. e.0 ≡ DeskRefused.Failed → Rises (D.fault_count disk) (D.fault_count e.1)) }
    {
        let mut replay = match Journal::recover(disk) {
            Ok(replay) => replay,
            Err((unread, disk)) => return Err((opening_refusal(unread), disk)),
        };
        let mut fold = Fold::new(alloc);
        let mut opening = Noted::new();
        match replay_all(alloc, &mut replay, &mut fold, &mut opening) {
            Ok(()) => finish(alloc, replay, fold, opening),
            Err(refused) => {
                fold.discard();
                Err((refused, replay.into_disk()))
            }
        }
    }
}

// The desk over what was read to its end.
fn finish<D: Disk>(
    alloc: Global,
    replay: Replay<D>,
    fold: Fold,
    opening: Noted<Entry>,
) -> Result<Desk<D>, (DeskRefused, D)>
    requires ended { replay.ended ≡ true }
    requires replayed { IsReplayed replay (state_of fold) opening.items }
    requires some { 0 < length opening.items }
    requires read { ForSome (D.told replay.disk) (λ bytes. HasReadAll bytes replay opening.items) }
    ensures line { IfOk result (λ desk. desk.line ≡ opened_line desk.opened_at opening.items) }
    ensures fields { IfOk result (λ desk. (desk.limit ≡ replay.limit) × (in_doubt desk.line ≡ false)
        × (desk.opened ≡ length opening.items)) }
    ensures moment { IfOk result (λ desk. desk.opened_at ≡ D.time desk.disk) }
    ensures origin { IfOk result (λ desk. desk.origin ≡ desk.disk) }
    ensures later { IfOk result (λ desk. D.time replay.disk ≤ D.time desk.disk) }
    ensures later_err { IfErr result (λ e. D.time replay.disk ≤ D.time e.1) }
    ensures tells { IfOk result (λ desk. TellsAlike (D.told replay.disk) (D.told desk.disk)) }
    ensures durable { IfOk result (IsOnDisk D.told D.image D.time D.image_since) }
    ensures any_moment { IfOk result (λ desk. ForSome (D.told replay.disk) (λ _.
        LeavesOnly D.time D.image_since replay.disk desk.disk
        (λ image. Stands image replay.limit (map written_entry opening.items)))) }
    ensures any_moment_err { IfErr result (λ e. ForSome (D.told replay.disk) (λ _.
        LeavesOnly D.time D.image_since replay.disk e.1
        (λ image. Stands image replay.limit (map written_entry opening.items)))) }
    ensures kept { IfOk result (λ desk. D.fault_count desk.disk ≡ D.fault_count replay.disk) }
    ensures failed { IfErr result (λ e. e.0 ≡ DeskRefused.Failed) }
    ensures left { IfErr result
        (λ e. ForSome (D.told replay.disk) (λ bytes. (limit : ℕ) × (h : List Entry) × IsStoreOf bytes limit h
        × LeavesStore D.told e.1 limit false h)) }
    ensures cause { IfErr result (λ e. (D.fault_count replay.disk ≤ D.fault_count e.1)
        × Rises (D.fault_count replay.disk) (D.fault_count e.1)) }
{
    match replay.finish() {
        Ok(journal) => Ok(opened(alloc, journal, fold, opening)),
        Err((_, disk)) => {
            fold.discard();
            Err((DeskRefused::Failed, disk))
        }
    }
}

/// The desk over a journal with these entries, of which none is in doubt.
pub(crate) fn opened<D: Disk>(
    alloc: Global,
    journal: Journal<D>,
    fold: Fold,
    opening: Noted<Entry>,
) -> Desk<D>
    requires opened { HoldsEntries D.told D.image journal (state_of fold) opening.items }
    ensures line { result.line ≡ opened_line result.opened_at opening.items }
    ensures fields { (result.limit ≡ journal.limit) × (in_doubt result.line ≡ false)
        × (result.opened ≡ length opening.items) }
    ensures disk { result.disk ≡ journal.disk }
    ensures moment { result.opened_at ≡ D.time result.disk }
    ensures origin { result.origin ≡ result.disk }
    ensures durable { IsOnDisk D.told D.image D.time D.image_since result }
{
    let opened_at = journal.moment();
    let opened = journal.length();
    let origin = Snapshot::of(&journal);
    Desk {
        journal,
        fold,
        alloc,
        opened_at,
        opened,
        origin,
        records: opened,
        spent: Spent::none(alloc),
        opening,
        acts: Noted::new(),
    }
}

fn opening_refusal(unread: RecoverRefused) -> DeskRefused
    ensures { result ≡ opening_refusal unread }
{
    match unread {
        RecoverRefused::NotAStore => DeskRefused::NotAStore,
        RecoverRefused::OldFormat => DeskRefused::OldFormat,
        RecoverRefused::Failed => DeskRefused::Failed,
    }
}

fn founding_refusal(refused: CreateRefused) -> FoundRefused
    ensures { result ≡ founding_refusal refused }
{
    match refused {
        CreateRefused::AlreadyStore => FoundRefused::AlreadyStore,
        CreateRefused::Foreign => FoundRefused::Foreign,
        CreateRefused::Full { need, limit } => FoundRefused::Full { need, limit },
        CreateRefused::Failed => FoundRefused::Failed,
    }
}

// What a new store begins with: the founding entry's text, and the list of the entry alone. The fold takes it in.
fn begun(
    alloc: Global,
    fold: &mut Fold,
    admin: &Text,
    base: &Text,
    clock: u64,
) -> Result<(Vec<u8>, Noted<Entry>), Memory>
    requires admin { IsToken admin.now }
    requires base { IsBase base.now }
    requires empty { state_of fold.old ≡ nothing }
    ensures frame { IfOk result (λ begun. begun.0.items ≡ written_entry (founding_entry admin.now base.now clock)) }
    ensures short { IfOk result (λ begun. length begun.0.items ≤ MOST_BYTES) }
    ensures lawful { IfOk result (λ begun. IsLawful (founding_entry admin.now base.now clock)) }
    ensures folded { OnOk result (state_of fold.new ≡ state (founding_entry admin.now base.now clock ∷ [])) }
    ensures opening { IfOk result (λ begun. begun.1.items ≡ founding_entry admin.now base.now clock ∷ []) }
{
    let (entry, frame) = founding(alloc, admin, base, clock)?;
    let opening = Noted::new().and(&entry);
    match begin(alloc, fold, entry) {
        Ok(()) => Ok((frame, opening)),
        Err(refused) => Err(refused),
    }
}

// The founding entry, and its text.
fn founding(
    alloc: Global,
    admin: &Text,
    base: &Text,
    clock: u64,
) -> Result<(Entry, Vec<u8>), Memory>
    ensures entry { IfOk result (λ made. made.0 ≡ founding_entry admin.now base.now clock) }
    ensures frame { IfOk result (λ made. made.1.items ≡ written_entry (founding_entry admin.now base.now clock)) }
    ensures lawful { IfOk result (λ made. IsLawful (founding_entry admin.now base.now clock)) }
    ensures short { IfOk result (λ made. length made.1.items ≤ MOST_BYTES) }
{
    let entry = founding_entry(admin, base, clock)?;
    match founding_text(alloc, &entry) {
        Ok(frame) => Ok((entry, frame)),
        Err(refused) => {
            entry.discard();
            Err(refused)
        }
    }
}

// A founding entry's text, if it isn't longer than a store's file may be.
fn founding_text(alloc: Global, entry: &Entry) -> Result<Vec<u8>, Memory>
    requires caller { IsLawfulCaller entry.now.caller }
    requires write { IsLawfulWrite entry.now.write }
    ensures text { IfOk result (λ text. text.items ≡ written_entry entry.now) }
    ensures lawful { IfOk result (λ text. IsLawful entry.now) }
    ensures short { IfOk result (λ text. length text.items ≤ MOST_BYTES) }
{
    let text = entry_text(alloc, entry)?;
    if text.len() as u64 > MOST_BYTES {
        return Err(Memory);
    }
    Ok(text)
}

// Takes the founding entry in.
#[tactic(auto, using(crate::proofs::OpenLemmas::judged_founding))]
fn begin(alloc: Global, fold: &mut Fold, entry: Entry) -> Result<(), Memory>
    requires founding { IsFounding entry }
    requires empty { state_of fold.old ≡ nothing }
    ensures { OnOk result (state_of fold.new ≡ state (entry ∷ [])) }
{
    let effect = fold.prepare(alloc, entry)?;
    take_in(fold, effect)
}

// Moving a store, of either format, into another file.
ghost use Rattle.std.specs.Prelude.{◌≡◌, ◌≢◌, ◌⊎◌, ◌<◌, ◌≤◌, List, [], ℕ, Some, length, map, true, false, IfOk, IfErr, IsOk, IsErrOf, OnOk, IfSome};
ghost use Rattle.std.specs.Option.{ForSome};
ghost use Rattle.lrs_disk.specs.Disk.{LeavesOnly};
ghost use Rattle.lrs_disk.specs.Faults.{Rises};
ghost use Rattle.lrs_journal.specs.Builder.{IsBuilding, IsBuilt};
ghost use Rattle.lrs_journal.specs.Create.{IsOpenTo, IsUntouched};
ghost use Rattle.lrs_journal.specs.Journal.{IsSynced, TellsAlike};
ghost use Rattle.lrs_journal.specs.Replay.{HasRead};
ghost use Rattle.lrs_journal.specs.Store.{HasHeaderIn, HasNoHeader, IsLimit, StandsIn};
ghost use Rattle.lrs_record.specs.Entries.{written_entry};
ghost use Rattle.lrs_record.specs.declared.entry.Entry.{Entry};
ghost use Rattle.lrs_parts.specs.State.{nothing};
ghost use Rattle.lrs_fold.specs.LrsHistoryHistory.{state, IsLegal};
ghost use Rattle.lrs_machine.specs.Desk.{history, IsOnDisk, OpensOnly};
ghost use Rattle.lrs_machine.specs.Fold.{state_of};
ghost use Rattle.lrs_machine.specs.Line.{in_doubt, opened_line};
ghost use Rattle.lrs_machine.specs.Migrating.{chosen, add_refusal, begin_refusal, frame_refusal, judge_refusal, unread_refusal, Advances, BuildsOnly, GoesOn, HaveCounts, IsEarlyRefusal, IsLateRefusal, IsMigrateRefused, IsMovable, IsMovedFrom, IsMovedOrNone, IsMoving, MovesFrame, SparesMovable, StandsForEntries};
ghost use Rattle.lrs_machine.specs.declared.migrating.MigrateRefused.TheVariants as Refused;

use crate::Desk;
use crate::opening::opened;
use crate::replaying::{JudgeRefused, judge};
use lrs_disk::Disk;
use lrs_fold::Fold;
use lrs_journal::{
    AppendRefused, Builder, CreateRefused, Journal, RecoverRefused, Replay, ReplayRefused,
};
use lrs_noted::Noted;
use lrs_record::Entry;
use std::alloc::Global;

/// Why a store isn't moved. Frames are counted from 0, and those of the old store are meant.
#[derive(Clone, Copy, Debug, PartialEq, Eq)]
pub enum MigrateRefused {
    /// The old disk doesn't begin with a store's open header, of either format.
    NotAStore,
    /// The new disk begins with an open gate and a store's magic.
    AlreadyStore,
    /// The new disk has more than one byte, the first isn't 0, and no store's magic follows it.
    Foreign,
    /// Frame k isn't whole, or it tells another number.
    Damaged { k: u64 },
    /// Frame k is no entry, or not one that may come next. With k 0 also: there is no frame.
    IllegalEntry { k: u64 },
    /// The new file would need more bytes than its limit. It is told of the first frame that has no room.
    Full { need: u64, limit: u64 },
    /// One of the two disks failed. The new one holds no store now, or the whole new one.
    Failed,
    /// Memory ran out.
    Memory,
}

/// A store that was moved: the desk over the new disk, and the old one back.
#[derive(Drop)]
pub struct Migrated<D: Disk> {
    pub desk: Desk<D>,
    pub old: D,
}

impl<D: Disk> Desk<D> {
    /// Makes a store of the format that is written, on the new disk, with the entries of the store on the old one, which
    /// may have either format. Without a limit it gets the old store's. Each frame is judged as the entry that comes
    /// next, and written as it was read.
    ///
    /// The old disk is only read. A refusal may leave frames on the new one, behind a header whose gate is shut.
    pub fn migrate(
        alloc: Global,
        old: D,
        new: D,
        limit: Option<u64>,
    ) -> Result<Migrated<D>, (MigrateRefused, D, D)>
        requires limit { IfSome limit IsLimit }
        ensures moved { IfOk result (λ m. (h : List Entry) × (m.desk.line ≡ opened_line m.desk.opened_at h)
            × (m.desk.opened ≡ length h) × IsLegal m.desk.limit h × IsMovable m.desk.limit h
            × ForSome (D.told old) (λ bytes. (own : ℕ) × StandsForEntries bytes own h
            × (m.desk.limit ≡ chosen limit own))) }
        ensures limit { IfOk result (λ m. IfSome limit (λ most. m.desk.limit ≡ most)) }
        ensures moment { IfOk result (λ m. m.desk.opened_at ≡ D.time m.desk.disk) }
        ensures origin { IfOk result (λ m. m.desk.origin ≡ m.desk.disk) }
        ensures durable { IfOk result (λ m. IsOnDisk D.told D.image D.time D.image_since m.desk) }
        ensures settled { IfOk result (λ m. in_doubt m.desk.line ≡ false) }
        ensures free { IfOk result (λ _. ForSome (D.told new) IsOpenTo) }
        // The old disk reads as before, and a crash leaves what was read.
        ensures same { IfOk result (λ m. D.told m.old ≡ D.told old) }
        ensures same_err { IfErr result (λ e. D.told e.1 ≡ D.told old) }
        ensures still { IfOk result (λ m. OpensOnly D.told D.image D.time D.image_since old m.old
            (λ bytes after. after ≡ bytes)) }
        ensures still_err { IfErr result (λ e. OpensOnly D.told D.image D.time D.image_since old e.1
            (λ bytes after. after ≡ bytes)) }
        // A crash at any moment leaves no store on the new disk, or the whole new one.
        ensures stops { IfOk result (λ m. BuildsOnly D.told D.image D.time D.image_since new m.desk.disk
            (IsBuilt m.desk.limit (map written_entry (history m.desk)))) }
        ensures stops_err { IfErr result (λ e. ForSome (D.told old) (λ bytes.
            BuildsOnly D.told D.image D.time D.image_since new e.2 (IsMovedOrNone bytes limit))) }
        // Unless a disk failed, a refusal leaves no store.
        ensures none_err { IfErr result (λ e. e.0 ≢ Refused.Failed
            → BuildsOnly D.told D.image D.time D.image_since new e.2 HasNoHeader) }
        // Nothing is written if the old disk holds no store, or if none may be made on the new one.
        ensures unwritten { IfErr result (λ e. IsEarlyRefusal e.0
            → IsUntouched D.told D.image D.time D.image_since new e.2) }
        ensures unbegun { IfErr result (λ e. ForSome (D.told old) (λ was. HasNoHeader was
            → IsUntouched D.told D.image D.time D.image_since new e.2)) }
        ensures untouched { IfErr result (λ e. ForSome (D.told new) (λ bytes. (IsOpenTo bytes → ⊥)
            → IsUntouched D.told D.image D.time D.image_since new e.2)) }
        ensures tells { IfOk result (λ m. TellsAlike (D.told new) (D.told m.desk.disk)) }
        ensures tells_err { IfErr result (λ e. TellsAlike (D.told new) (D.told e.2)) }
        ensures refused { IfErr result (λ e. ForSome (D.told old) (λ was. ForSome (D.told new) (λ bytes.
            IsMigrateRefused was bytes limit e.0))) }
        ensures full { IfErr result (λ e. (need most : ℕ) → e.0 ≡ Refused.Full need most
            → (most < need) × IfSome limit (λ given. most ≡ given)) }
        ensures movable { IfErr result (λ e. ForSome (D.told old) (λ was. ForSome (D.told new) (λ bytes.
            SparesMovable was bytes limit e.0))) }
        ensures later { IfOk result (λ m. (D.time old ≤ D.time m.old) × (D.time new ≤ D.time m.desk.disk)) }
        ensures later_err { IfErr result (λ e. (D.time old ≤ D.time e.1) × (D.time new ≤ D.time e.2)) }
        ensures kept { IfOk result (λ m. (D.fault_count m.old ≡ D.fault_count old)
            × (D.fault_count m.desk.disk ≡ D.fault_count new)) }
        ensures faults { IfErr result (λ e. (D.fault_count old ≤ D.fault_count e.1)
            × (D.fault_count new ≤ D.fault_count e.2)) }
        // A disk fault is told only where one of the two disks has failed.
        ensures cause { IfErr result (λ e. e.0 ≡ Refused.Failed → Rises (D.fault_count old) (D.fault_count e.1)
            ⊎ Rises (D.fault_count new) (D.fault_count e.2)) }
    {
        let replay = match Journal::recover_any(old) {
            Ok(replay) => replay,
            Err((unread, old)) => return Err((unread_refusal(unread), old, new)),
        };
        let limit = limit.unwrap_or(replay.limit());
        match Journal::begin(new, limit) {
            Ok(builder) => move_into(alloc, replay, builder),
            Err((refused, new)) => Err((begin_refusal(refused), replay.into_disk(), new)),
        }
    }
}

// Moves the frames of a replay into a builder, and opens it.
fn move_into<D: Disk>(
    alloc: Global,
    replay: Replay<D>,
    builder: Builder<D>,
) -> Result<Migrated<D>, (MigrateRefused, D, D)>
    requires begun { (replay.number ≡ 0) × (builder.broken ≡ false) × IsBuilding D.told builder [] }
    requires limit { IsLimit builder.limit }
    requires read { ForSome (D.told replay.disk) (λ bytes. HasHeaderIn replay.format bytes replay.limit
        × HasRead bytes replay []) }
    requires synced { IsSynced D.told D.image replay.disk }
    ensures moved { IfOk result (λ m. (h : List Entry) × (m.desk.line ≡ opened_line m.desk.opened_at h)
        × (m.desk.opened ≡ length h) × IsLegal m.desk.limit h × IsMovable m.desk.limit h
        × ForSome (D.told replay.disk) (λ bytes. StandsIn replay.format bytes replay.limit (map written_entry h))) }
    ensures limit { IfOk result (λ m. m.desk.limit ≡ builder.limit) }
    ensures moment { IfOk result (λ m. m.desk.opened_at ≡ D.time m.desk.disk) }
    ensures origin { IfOk result (λ m. m.desk.origin ≡ m.desk.disk) }
    ensures durable { IfOk result (λ m. IsOnDisk D.told D.image D.time D.image_since m.desk) }
    ensures settled { IfOk result (λ m. in_doubt m.desk.line ≡ false) }
    ensures same { IfOk result (λ m. D.told m.old ≡ D.told replay.disk) }
    ensures same_err { IfErr result (λ e. D.told e.1 ≡ D.told replay.disk) }
    ensures still { IfOk result (λ m. LeavesOnly D.time D.image_since replay.disk m.old
        (λ bytes. D.told replay.disk ≡ Some bytes)) }
    ensures still_err { IfErr result (λ e. LeavesOnly D.time D.image_since replay.disk e.1
        (λ bytes. D.told replay.disk ≡ Some bytes)) }
    ensures any_moment { IfOk result (λ m. GoesOn D.time D.image_since builder.disk m.desk.disk
        (IsBuilt m.desk.limit (map written_entry (history m.desk)))) }
    ensures any_moment_err { IfErr result (λ e. ForSome (D.told replay.disk) (λ bytes.
        GoesOn D.time D.image_since builder.disk e.2
        (IsMovedFrom replay.format bytes replay.limit builder.limit))) }
    ensures none_err { IfErr result (λ e. e.0 ≢ Refused.Failed
        → GoesOn D.time D.image_since builder.disk e.2 HasNoHeader) }
    ensures tells { IfOk result (λ m. TellsAlike (D.told builder.disk) (D.told m.desk.disk)) }
    ensures tells_err { IfErr result (λ e. TellsAlike (D.told builder.disk) (D.told e.2)) }
    ensures refused { IfErr result (λ e. ForSome (D.told replay.disk) (λ was. (bytes : List ℕ) → IsOpenTo bytes
        → IsMigrateRefused was bytes (Some builder.limit) e.0)) }
    ensures late { IfErr result (λ e. IsLateRefusal builder.limit e.0) }
    ensures later { IfOk result (λ m. (D.time replay.disk ≤ D.time m.old)
        × (D.time builder.disk ≤ D.time m.desk.disk)) }
    ensures later_err { IfErr result (λ e. (D.time replay.disk ≤ D.time e.1) × (D.time builder.disk ≤ D.time e.2)) }
    ensures kept { IfOk result (λ m. (D.fault_count m.old ≡ D.fault_count replay.disk)
        × (D.fault_count m.desk.disk ≡ D.fault_count builder.disk)) }
    ensures faults { IfErr result (λ e. (D.fault_count replay.disk ≤ D.fault_count e.1)
        × (D.fault_count builder.disk ≤ D.fault_count e.2)) }
    ensures cause { IfErr result (λ e. e.0 ≡ Refused.Failed → Rises (D.fault_count replay.disk) (D.fault_count e.1)
        ⊎ Rises (D.fault_count builder.disk) (D.fault_count e.2)) }
{
    let mut replay = replay;
    let mut builder = builder;
    let mut fold = Fold::new(alloc);
    let mut opening = Noted::new();
    match move_all(alloc, &mut replay, &mut builder, &mut fold, &mut opening) {
        Ok(()) => open_moved(alloc, replay.into_disk(), builder, fold, opening),
        Err(refused) => {
            fold.discard();
            Err((refused, replay.into_disk(), builder.into_disk()))
        }
    }
}

// Opens the new store, when all frames were moved.
fn open_moved<D: Disk>(
    alloc: Global,
    old: D,
    builder: Builder<D>,
    fold: Fold,
    opening: Noted<Entry>,
) -> Result<Migrated<D>, (MigrateRefused, D, D)>
    requires whole { builder.broken ≡ false }
    requires laid { IsBuilding D.told builder (map written_entry opening.items) }
    requires movable { IsMovable builder.limit opening.items }
    requires folded { state_of fold ≡ state opening.items }
    requires some { 0 < length opening.items }
    ensures line { IfOk result (λ m. m.desk.line ≡ opened_line m.desk.opened_at opening.items) }
    ensures fields { IfOk result (λ m. (m.desk.limit ≡ builder.limit) × (in_doubt m.desk.line ≡ false)
        × (m.desk.opened ≡ length opening.items)) }
    ensures moment { IfOk result (λ m. m.desk.opened_at ≡ D.time m.desk.disk) }
    ensures origin { IfOk result (λ m. m.desk.origin ≡ m.desk.disk) }
    ensures durable { IfOk result (λ m. IsOnDisk D.told D.image D.time D.image_since m.desk) }
    ensures back { IfOk result (λ m. m.old ≡ old) }
    ensures back_err { IfErr result (λ e. e.1 ≡ old) }
    ensures failed { IfErr result (λ e. e.0 ≡ Refused.Failed) }
    ensures tells { IfOk result (λ m. TellsAlike (D.told builder.disk) (D.told m.desk.disk)) }
    ensures tells_err { IfErr result (λ e. TellsAlike (D.told builder.disk) (D.told e.2)) }
    ensures later { IfOk result (λ m. D.time builder.disk ≤ D.time m.desk.disk) }
    ensures later_err { IfErr result (λ e. D.time builder.disk ≤ D.time e.2) }
    ensures any_moment { IfOk result (λ m. LeavesOnly D.time D.image_since builder.disk m.desk.disk
        (IsBuilt builder.limit (map written_entry opening.items))) }
    ensures any_moment_err { IfErr result (λ e. LeavesOnly D.time D.image_since builder.disk e.2
        (IsBuilt builder.limit (map written_entry opening.items))) }
    ensures kept { IfOk result (λ m. D.fault_count m.desk.disk ≡ D.fault_count builder.disk) }
    ensures cause { IfErr result (λ e. (D.fault_count builder.disk ≤ D.fault_count e.2)
        × Rises (D.fault_count builder.disk) (D.fault_count e.2)) }
{
    match builder.open() {
        Ok(journal) => Ok(Migrated {
            desk: opened(alloc, journal, fold, opening),
            old,
        }),
        Err((_, new)) => {
            fold.discard();
            Err((MigrateRefused::Failed, old, new))
        }
    }
}

// Moves all frames, each as the entry that comes next.
fn move_all<D: Disk>(
    alloc: Global,
    replay: &mut Replay<D>,
    builder: &mut Builder<D>,
    fold: &mut Fold,
    opening: &mut Noted<Entry>,
) -> Result<(), MigrateRefused>
    requires empty { (state_of fold.old ≡ nothing) × (opening.old.items ≡ []) }
    requires moving { IsMoving D.told replay.old builder.old (state_of fold.old) opening.old.items }
    requires synced { IsSynced D.told D.image replay.old.disk }
    ensures moving { OnOk result (IsMoving D.told replay.new builder.new (state_of fold.new) opening.new.items) }
    ensures some { OnOk result (0 < length opening.new.items) }
    ensures all { OnOk result (ForSome (D.told replay.old.disk) (λ bytes.
        StandsIn replay.old.format bytes replay.old.limit (map written_entry opening.new.items))) }
    ensures refused { IfErr result (λ e. ForSome (D.told replay.old.disk) (λ was. (bytes : List ℕ) → IsOpenTo bytes
        → IsMigrateRefused was bytes (Some builder.old.limit) e)) }
    ensures late { IfErr result (λ e. IsLateRefusal builder.old.limit e) }
    ensures advances { Advances D.told D.time D.image_since replay.old builder.old replay.new builder.new }
    ensures cause { HaveCounts (D.fault_count replay.old.disk) (D.fault_count builder.old.disk)
        (D.fault_count replay.new.disk) (D.fault_count builder.new.disk)
        (IsErrOf result Refused.Failed) (IsOk result) }
{
    let mut frame = Vec::new(alloc);
    for k in 0..u64::MAX {
        match move_next(alloc, replay, builder, k, &mut frame, fold, opening) {
            Ok(true) => {}
            Ok(false) => {
                if k == 0 {
                    return Err(MigrateRefused::IllegalEntry { k });
                }
                return Ok(());
            }
            Err(refused) => return Err(refused),
        }
    }
    Err(MigrateRefused::Memory)
}

// Moves the next frame, or answers false at the list's end. So far k frames were moved.
fn move_next<D: Disk>(
    alloc: Global,
    replay: &mut Replay<D>,
    builder: &mut Builder<D>,
    k: u64,
    frame: &mut Vec<u8>,
    fold: &mut Fold,
    opening: &mut Noted<Entry>,
) -> Result<bool, MigrateRefused>
    requires long { length opening.old.items ≡ k }
    requires moving { IsMoving D.told replay.old builder.old (state_of fold.old) opening.old.items }
    ensures moved { IfOk result (MovesFrame D.told replay.new builder.new (state_of fold.new) k opening.new.items) }
    ensures refused { IfErr result (λ e. ForSome (D.told replay.old.disk) (λ was. (bytes : List ℕ) → IsOpenTo bytes
        → IsMigrateRefused was bytes (Some builder.old.limit) e)) }
    ensures late { IfErr result (λ e. IsLateRefusal builder.old.limit e) }
    ensures advances { Advances D.told D.time D.image_since replay.old builder.old replay.new builder.new }
    ensures cause { HaveCounts (D.fault_count replay.old.disk) (D.fault_count builder.old.disk)
        (D.fault_count replay.new.disk) (D.fault_count builder.new.disk)
        (IsErrOf result Refused.Failed) (IsOk result) }
{
    let more = match replay.next(frame) {
        Ok(more) => more,
        Err(unread) => return Err(frame_refusal(unread)),
    };
    if !more {
        return Ok(false);
    }
    match judge(alloc, frame, k == 0, fold, opening) {
        Ok(()) => {}
        Err(refused) => return Err(judge_refusal(refused, k)),
    }
    match builder.add(frame) {
        Ok(()) => Ok(true),
        Err(refused) => Err(add_refusal(refused)),
    }
}

// What `recover_any` answers. It takes the old format, so it never answers that this is one.
fn unread_refusal(unread: RecoverRefused) -> MigrateRefused
    ensures { result ≡ unread_refusal unread }
{
    match unread {
        RecoverRefused::NotAStore => MigrateRefused::NotAStore,
        RecoverRefused::OldFormat => MigrateRefused::NotAStore,
        RecoverRefused::Failed => MigrateRefused::Failed,
    }
}

fn begin_refusal(refused: CreateRefused) -> MigrateRefused
    ensures { result ≡ begin_refusal refused }
{
    match refused {
        CreateRefused::AlreadyStore => MigrateRefused::AlreadyStore,
        CreateRefused::Foreign => MigrateRefused::Foreign,
        CreateRefused::Full { need, limit } => MigrateRefused::Full { need, limit },
        CreateRefused::Failed => MigrateRefused::Failed,
    }
}

fn frame_refusal(unread: ReplayRefused) -> MigrateRefused
    ensures { result ≡ frame_refusal unread }
{
    match unread {
        ReplayRefused::Damaged { k } => MigrateRefused::Damaged { k },
        ReplayRefused::Failed => MigrateRefused::Failed,
        ReplayRefused::Memory => MigrateRefused::Memory,
    }
}

fn judge_refusal(refused: JudgeRefused, k: u64) -> MigrateRefused
    ensures { result ≡ judge_refusal refused k }
{
    match refused {
        JudgeRefused::Illegal => MigrateRefused::IllegalEntry { k },
        JudgeRefused::Memory => MigrateRefused::Memory,
    }
}

fn add_refusal(refused: AppendRefused) -> MigrateRefused
    ensures { result ≡ add_refusal refused }
{
    match refused {
        AppendRefused::Full { need, limit } => MigrateRefused::Full { need, limit },
        AppendRefused::Failed => MigrateRefused::Failed,
    }
}

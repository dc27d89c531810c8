// Makes a store frame by frame. Its header's gate is opened last.
ghost use Rattle.std.specs.Prelude.{◌≡◌, ◌≢◌, ◌<◌, ◌≤◌, ◌+◌, ◌++◌, [], ◌∷◌, List, ℕ, length, option_map, Err, OnOk, IsOk, IfOk, IfErr, IsErr, IsErrOf, true, false};
ghost use Rattle.std.specs.Option.{ForSome};
ghost use Rattle.lrs_disk.specs.Disk.{LeavesOnly};
ghost use Rattle.lrs_disk.specs.Faults.{HasCause, Rises};
ghost use Rattle.lrs_journal.specs.Builder.{shut_store, IsBuilding, IsBuilt};
ghost use Rattle.lrs_journal.specs.Create.{IsStore, IsOpenTo, IsCreateRefused, IsUntouched};
ghost use Rattle.lrs_journal.specs.Journal.{frames_of, IsJournal, IsSynced, TellsAlike, HasCount};
ghost use Rattle.lrs_journal.specs.Steps.{GivesBytes, KeepsUpTo, IsBlank, IsShort, IsShut, IsCutShort};
ghost use Rattle.lrs_journal.specs.Store.{need_at, need_told, HasNoHeader, IsLimit};
ghost use Rattle.lrs_journal.specs.declared.create.CreateRefused.TheVariants as CreateRefused;
ghost use Rattle.lrs_journal.specs.declared.journal.AppendRefused.TheVariants as AppendRefused;

use crate::Journal;
use crate::create::{CreateRefused, inspect};
use crate::journal::{AppendRefused, has_room};
use crate::sizes::{FRAME_HEAD, HEADER};
use crate::steps::{lay, unlock, write_gate};
use lrs_disk::{Disk, Failed};
use std::marker::Model;

// Cuts a disk to one byte.
fn shorten<D: Disk>(disk: &mut D, size: u64) -> Result<(), Failed>
    requires size { (b : List ℕ) → GivesBytes D.told disk.old b → size ≡ length b }
    ensures short { OnOk result ((b : List ℕ) → GivesBytes D.told disk.new b → IsShort b) }
    ensures synced { OnOk result (IsSynced D.told D.image disk.old → IsSynced D.told D.image disk.new) }
    ensures tells { TellsAlike (D.told disk.old) (D.told disk.new) }
    ensures any_moment { LeavesOnly D.time D.image_since disk.old disk.new (IsCutShort (D.image disk.old)) }
    ensures cause { HasCause (D.fault_count disk.old) (D.fault_count disk.new) result }
{
    if size <= 1 {
        return Ok(());
    }
    disk.cut(1)?;
    disk.sync()
}

// Writes the header after its gate.
fn write_header<D: Disk>(disk: &mut D, limit: u64) -> Result<(), Failed>
    requires shut { (b : List ℕ) → GivesBytes D.told disk.old b → b ≡ 0 ∷ [] }
    ensures written { OnOk result ((b : List ℕ) → GivesBytes D.told disk.new b → b ≡ shut_store limit []) }
    ensures tells { TellsAlike (D.told disk.old) (D.told disk.new) }
    ensures any_moment { LeavesOnly D.time D.image_since disk.old disk.new (KeepsUpTo 1 (D.image disk.old)) }
    ensures cause { HasCause (D.fault_count disk.old) (D.fault_count disk.new) result }
{
    let [a, b, c, d, e, f, g, h] = limit.to_be_bytes();
    disk.write_at(1, &[76, 82, 83, 74, 82, 78, 76, 2, a, b, c, d, e, f, g, h])
}

// Lays a header whose gate is shut, on a disk that has none.
fn lay_header<D: Disk>(disk: &mut D, size: u64, limit: u64) -> Result<(), Failed>
    requires blank { (b : List ℕ) → GivesBytes D.told disk.old b → IsBlank b }
    requires size { (b : List ℕ) → GivesBytes D.told disk.old b → size ≡ length b }
    ensures laid { OnOk result ((b : List ℕ) → GivesBytes D.told disk.new b → b ≡ shut_store limit []) }
    ensures shut { OnOk result ((c : List ℕ) → D.image disk.new c → IsShut c) }
    ensures tells { TellsAlike (D.told disk.old) (D.told disk.new) }
    ensures later { D.time disk.old ≤ D.time disk.new }
    ensures any_moment { IsSynced D.told D.image disk.old
        → LeavesOnly D.time D.image_since disk.old disk.new HasNoHeader }
    ensures cause { HasCause (D.fault_count disk.old) (D.fault_count disk.new) result }
{
    shorten(disk, size)?;
    write_gate(disk, 0, 0)?;
    write_header(disk, limit)
}

/// A store that isn't open yet: frames behind a header whose gate is shut.
///
/// A crash leaves no store, however many frames were added, until `open`. After a failure it only gives its disk back.
#[derive(Drop)]
pub struct Builder<D: Disk> {
    disk: D,
    limit: u64,
    end: u64,
    number: u64,
    broken: bool,
}

impl<D: Disk> Model for Builder<D> {
    ghost use Rattle.lrs_journal.specs.Builder.{Builder as SpecBuilder};
    ghost use Rattle.lrs_journal.specs.Steps.{IsBuilder};

    ghost Value = { SpecBuilder D };

    ghost view = { λ b. record { disk = b.disk; limit = b.limit; end = b.end; number = b.number; broken = b.broken } };

    ghost invariant = { λ b. IsBuilder (D.told b.disk) (D.image b.disk) b.limit b.end b.number b.broken };
}

/// Begins a store on a disk of so many bytes that is open to it.
pub(crate) fn start<D: Disk>(
    disk: D,
    size: u64,
    limit: u64,
) -> Result<Builder<D>, (CreateRefused, D)>
    requires limit { IsLimit limit }
    requires blank { (b : List ℕ) → GivesBytes D.told disk b → IsBlank b }
    requires size { (b : List ℕ) → GivesBytes D.told disk b → size ≡ length b }
    ensures begun { IfOk result (λ builder. IsBuilding D.told builder []) }
    ensures fields { IfOk result (λ builder. (builder.broken ≡ false) × (builder.limit ≡ limit)) }
    ensures failed { IfErr result (λ e. e.0 ≡ CreateRefused.Failed) }
    ensures tells { IfOk result (λ builder. TellsAlike (D.told disk) (D.told builder.disk)) }
    ensures tells_err { IfErr result (λ e. TellsAlike (D.told disk) (D.told e.1)) }
    ensures later { IfOk result (λ builder. D.time disk ≤ D.time builder.disk) }
    ensures later_err { IfErr result (λ e. D.time disk ≤ D.time e.1) }
    ensures any_moment { IfOk result (λ builder. IsSynced D.told D.image disk
        → LeavesOnly D.time D.image_since disk builder.disk HasNoHeader) }
    ensures any_moment_err { IfErr result (λ e. IsSynced D.told D.image disk
        → LeavesOnly D.time D.image_since disk e.1 HasNoHeader) }
    ensures kept { IfOk result (λ builder. D.fault_count builder.disk ≡ D.fault_count disk) }
    ensures cause { IfErr result (λ e. HasCount (D.fault_count disk) (D.fault_count e.1) (e.0
        ≡ CreateRefused.Failed) (e.0 ≢ CreateRefused.Failed)) }
{
    let mut disk = disk;
    match lay_header(&mut disk, size, limit) {
        Err(_) => Err((CreateRefused::Failed, disk)),
        Ok(()) => Ok(Builder {
            disk,
            limit,
            end: HEADER,
            number: 0,
            broken: false,
        }),
    }
}

impl<D: Disk> Journal<D> {
    /// Begins a store on a disk, with no frame yet. The limit is what the file may have in bytes.
    ///
    /// If a store or something else is there already, nothing is written. A failure leaves no open header. It never
    /// answers `Full`.
    pub fn begin(disk: D, limit: u64) -> Result<Builder<D>, (CreateRefused, D)>
        requires { IsLimit limit }
        ensures begun { IfOk result (λ builder. IsBuilding D.told builder []) }
        ensures fields { IfOk result (λ builder. (builder.broken ≡ false) × (builder.limit ≡ limit)) }
        ensures free { IsOk result → ForSome (D.told disk) IsOpenTo }
        ensures refused { IfErr result (λ e. ForSome (D.told disk) (λ bytes. IsCreateRefused bytes e.0)) }
        ensures full { IfErr result (λ e. (need most : ℕ) → e.0 ≢ CreateRefused.Full need most) }
        ensures spared { IfErr result (λ e. e.0 ≢ CreateRefused.Failed
            → IsUntouched D.told D.image D.time D.image_since disk e.1) }
        // If no store may be made nothing is written, whatever the answer is.
        ensures store { IfErr result (λ e. ForSome (D.told disk) (λ bytes. (IsOpenTo bytes → ⊥)
            → IsUntouched D.told D.image D.time D.image_since disk e.1)) }
        ensures tells { IfOk result (λ builder. TellsAlike (D.told disk) (D.told builder.disk)) }
        ensures tells_err { IfErr result (λ e. TellsAlike (D.told disk) (D.told e.1)) }
        ensures later { IfOk result (λ builder. D.time disk ≤ D.time builder.disk) }
        ensures later_err { IfErr result (λ e. D.time disk ≤ D.time e.1) }
        // If nothing was pending, a crash at any moment leaves no open header.
        ensures any_moment { IfOk result (λ builder. IsSynced D.told D.image disk → ForSome (D.told disk)
            (λ bytes. (IsStore bytes → ⊥) → LeavesOnly D.time D.image_since disk builder.disk HasNoHeader)) }
        ensures any_moment_err { IfErr result (λ e. IsSynced D.told D.image disk → ForSome (D.told disk)
            (λ bytes. (IsStore bytes → ⊥) → LeavesOnly D.time D.image_since disk e.1 HasNoHeader)) }
        ensures kept { IfOk result (λ builder. D.fault_count builder.disk ≡ D.fault_count disk) }
        ensures cause { IfErr result (λ e. HasCount (D.fault_count disk) (D.fault_count e.1) (e.0
            ≡ CreateRefused.Failed) (e.0 ≢ CreateRefused.Failed)) }
    {
        let mut disk = disk;
        match inspect(&mut disk) {
            Err(refused) => Err((refused, disk)),
            Ok(size) => start(disk, size, limit),
        }
    }
}

impl<D: Disk> Builder<D> {
    /// The bytes that the file may have.
    pub fn limit(&self) -> u64
        ensures { result ≡ self.now.limit }
    {
        self.limit
    }

    /// The number of frames.
    pub fn length(&self) -> u64
        ensures { result ≡ self.now.number }
    {
        self.number
    }

    /// Gives the disk back as it is. A crash leaves no store on it.
    pub fn into_disk(self) -> D
        ensures disk { result ≡ self.disk }
        ensures images { (c : List ℕ) → D.image result c → HasNoHeader c }
    {
        let Builder {
            disk,
            limit: _,
            end: _,
            number: _,
            broken: _,
        } = self;
        disk
    }

    /// Adds a frame. It isn't on the disk before `open` answers.
    pub fn add(&mut self, payload: &[u8]) -> Result<(), AppendRefused>
        requires { self.old.broken ≡ false }
        ensures full { self.old.limit < need_at self.old.end payload.now
            → (result ≡ Err (AppendRefused.Full (need_told self.old.end payload.now) self.old.limit))
            × (self.new ≡ self.old) }
        ensures fits { need_at self.old.end payload.now ≤ self.old.limit → IsErr result
            → IsErrOf result AppendRefused.Failed }
        ensures added { IsOk result → (payloads : List (List ℕ)) → IsBuilding D.told self.old payloads
            → IsBuilding D.told self.new (payloads ++ payload.now ∷ []) }
        ensures fields { IsOk result → (self.new.broken ≡ false) × (self.new.number ≡ self.old.number + 1)
            × (self.new.end ≡ self.old.end + (FRAME_HEAD + length payload.now)) }
        ensures room { IsOk result → need_at self.old.end payload.now ≤ self.old.limit }
        ensures failed { IsErrOf result AppendRefused.Failed → self.new.broken ≡ true }
        ensures whole { result ≢ Err AppendRefused.Failed → self.new.broken ≡ false }
        ensures limit { self.new.limit ≡ self.old.limit }
        ensures tells { TellsAlike (D.told self.old.disk) (D.told self.new.disk) }
        // A crash at any moment leaves no open header.
        ensures any_moment { LeavesOnly D.time D.image_since self.old.disk self.new.disk HasNoHeader }
        ensures cause { HasCount (D.fault_count self.old.disk) (D.fault_count self.new.disk)
            (IsErrOf result AppendRefused.Failed) (IsOk result) }
    {
        has_room(self.end, self.limit, payload)?;
        self.broken = true;
        lay(&mut self.disk, self.end, self.number, payload)?;
        self.end += FRAME_HEAD + payload.len() as u64;
        self.number += 1;
        self.broken = false;
        Ok(())
    }

    /// Opens the store, to which a frame was added. Its frames are on the disk, with a closed gate at the end, before the
    /// header's gate is opened. A failure leaves no open header, or the whole store.
    pub fn open(self) -> Result<Journal<D>, (Failed, D)>
        requires whole { self.broken ≡ false }
        requires some { 0 < self.number }
        ensures opened { IfOk result (λ journal. (payloads : List (List ℕ)) → IsBuilding D.told self payloads
            → frames_of D.told journal ≡ option_map (λ _. payloads) (D.told self.disk)) }
        ensures fields { IfOk result (λ journal. (journal.doubt ≡ false) × (journal.limit ≡ self.limit)
            × (journal.end ≡ self.end) × (journal.number ≡ self.number)) }
        ensures sound { IfOk result (IsJournal D.told D.image) }
        ensures tells { IfOk result (λ journal. TellsAlike (D.told self.disk) (D.told journal.disk)) }
        ensures tells_err { IfErr result (λ e. TellsAlike (D.told self.disk) (D.told e.1)) }
        ensures later { IfOk result (λ journal. D.time self.disk ≤ D.time journal.disk) }
        ensures later_err { IfErr result (λ e. D.time self.disk ≤ D.time e.1) }
        // A crash at any moment leaves no open header, or the store of just these frames.
        ensures any_moment { IfOk result (λ journal. (payloads : List (List ℕ)) → IsBuilding D.told self payloads
            → LeavesOnly D.time D.image_since self.disk journal.disk (IsBuilt self.limit payloads)) }
        ensures any_moment_err { IfErr result (λ e. (payloads : List (List ℕ)) → IsBuilding D.told self payloads
            → LeavesOnly D.time D.image_since self.disk e.1 (IsBuilt self.limit payloads)) }
        ensures kept { IfOk result (λ journal. D.fault_count journal.disk ≡ D.fault_count self.disk) }
        ensures cause { IfErr result (λ e. (D.fault_count self.disk ≤ D.fault_count e.1)
            × Rises (D.fault_count self.disk) (D.fault_count e.1)) }
    {
        let Builder {
            mut disk,
            limit,
            end,
            number,
            broken: _,
        } = self;
        match unlock(&mut disk, end) {
            Err(failed) => Err((failed, disk)),
            Ok(()) => Ok(Journal {
                disk,
                limit,
                gate: end,
                number,
                doubt: None,
            }),
        }
    }
}

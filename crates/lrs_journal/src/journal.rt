ghost use Rattle.std.specs.Prelude.{◌≡◌, ◌<◌, ◌≤◌, ◌+◌, ◌-◌, ◌^◌, ◌++◌, [], ◌∷◌, List, ℕ, length, Some, None, Ok, Err, IfOk, IsOk, IsErr, IsErrOf, true, false, IfErr};
ghost use Rattle.std.specs.Option.{ForSome};
ghost use Rattle.lrs_disk.specs.Disk.{LeavesOnly};
ghost use Rattle.lrs_disk.specs.Faults.{HasCause};
ghost use Rattle.lrs_journal.specs.Store.{need_at, need_told, IsBeforeOrAfter, Stands};
ghost use Rattle.lrs_journal.specs.Journal.{frames_of, need_of, StandsForFrames, IsJournal, IsAppended, IsAppendFailed, IsUnchanged, HasCount, MakesAtMost, MakesMore, Stores};
ghost use Rattle.lrs_journal.specs.declared.journal.AppendRefused.TheVariants as AppendRefused;

use crate::sizes::FRAME_HEAD;
use crate::steps::{stage, write_gate};
use lrs_disk::{Disk, Failed};
use std::marker::Model;

/// Why a frame wasn't added.
#[derive(Clone, Copy, Debug, PartialEq, Eq)]
pub enum AppendRefused {
    /// The file would need more bytes than its header allows.
    Full { need: u64, limit: u64 },
    /// The disk failed. A journal may be in doubt now, and a builder only gives its disk back.
    Failed,
}

/// There is no room for a frame: the file would need more bytes than its header allows.
#[derive(Clone, Copy, Debug, PartialEq, Eq)]
pub struct Full {
    /// The bytes that the file would have. A number beyond `u64` stays at its last value.
    pub need: u64,
    /// The bytes that it may have.
    pub limit: u64,
}

impl From<Full> for AppendRefused {
    ghost from_gives = { λ full e. e ≡ AppendRefused.Full full.need full.limit };

    fn from(full: Full) -> Self {
        AppendRefused::Full {
            need: full.need,
            limit: full.limit,
        }
    }
}

impl From<Failed> for AppendRefused {
    ghost from_gives = { λ _ e. e ≡ AppendRefused.Failed };

    fn from(_: Failed) -> Self {
        AppendRefused::Failed
    }
}

/// Whether a frame of this payload has room at the end of a file that may have so many bytes.
pub(crate) fn has_room(end: u64, limit: u64, payload: &[u8]) -> Result<(), Full>
    requires { limit < 2 ^ 64 - 1 }
    ensures fits { IsOk result → need_at end payload.now ≤ limit }
    ensures full { IsErr result → limit < need_at end payload.now }
    ensures told { IfErr result (λ full. (full.need ≡ need_told end payload.now) × (full.limit ≡ limit)) }
{
    let need = end
        .saturating_add(FRAME_HEAD + 1)
        .saturating_add(payload.len() as u64);
    if need > limit {
        return Err(Full { need, limit });
    }
    Ok(())
}

/// A list of frames on a disk, open for more.
///
/// After a failure the journal may be in doubt: its last frame is then on the disk whole, and a crash may leave it in
/// the list or not. `settle` ends the doubt.
#[derive(Drop)]
pub struct Journal<D: Disk> {
    pub(crate) disk: D,
    pub(crate) limit: u64,
    /// The offset of the end gate, or in doubt that of the doubtful frame's gate.
    pub(crate) gate: u64,
    pub(crate) number: u64,
    /// The length of the payload that is in doubt.
    pub(crate) doubt: Option<u64>,
}

impl<D: Disk> Model for Journal<D> {
    ghost use Rattle.std.specs.Option.{is_some};
    ghost use Rattle.lrs_journal.specs.Journal.{Journal as SpecJournal};
    ghost use Rattle.lrs_journal.specs.Steps.{IsSound, end_behind};

    ghost Value = { SpecJournal D };

    ghost view = { λ j. record {
      disk = j.disk;
      limit = j.limit;
      gate = j.gate;
      end = end_behind j.gate j.doubt;
      doubt =
          is_some j.doubt;
      number = j.number;
    } };

    ghost invariant = { λ j. IsSound (D.told j.disk) (D.image j.disk) j.limit j.gate j.number j.doubt };
}

impl<D: Disk> Journal<D> {
    /// Whether the last frame is in doubt.
    pub fn in_doubt(&self) -> bool
        ensures { result ≡ self.now.doubt }
    {
        self.doubt.is_some()
    }

    /// The number of frames, with one that is in doubt.
    pub fn length(&self) -> u64
        ensures number { result ≡ self.now.number }
        ensures sound { IsJournal D.told D.image self.now }
    {
        self.number
    }

    /// The bytes that the file may have.
    pub fn limit(&self) -> u64
        ensures { result ≡ self.now.limit }
    {
        self.limit
    }

    /// Whether one more frame of this payload has room. `append` refuses a payload that has none in the same words: ask
    /// here before anything is made ready for it.
    pub fn room(&self, payload: &[u8]) -> Result<(), Full>
        ensures fits { IsOk result → need_of self.now payload.now ≤ self.now.limit }
        ensures full { IsErr result → self.now.limit < need_of self.now payload.now }
        ensures told { IfErr result (λ full. (full.need ≡ need_told self.now.end payload.now)
            × (full.limit ≡ self.now.limit)) }
    {
        let end = match self.doubt {
            None => self.gate,
            Some(size) => self.gate + FRAME_HEAD + size,
        };
        has_room(end, self.limit, payload)
    }

    /// How often a call of the disk has failed.
    pub fn faults(&self) -> u64
        ensures { result ≡ D.fault_count self.now.disk }
    {
        self.disk.faults()
    }

    /// The disk's moment.
    pub fn moment(&self) -> u64
        ensures { result ≡ D.time self.now.disk }
    {
        self.disk.moment()
    }

    /// Gives the disk back as it is. Nothing is written.
    pub fn into_disk(self) -> D
        ensures disk { result ≡ self.disk }
        ensures stored { self.doubt ≡ false → ForSome (frames_of D.told self) (Stores D.told result self.limit) }
        // A crash now leaves the frames, in doubt with the last one or without.
        ensures images { ForSome (frames_of D.told self) (λ payloads. (c : List ℕ) → D.image result c
            → StandsForFrames self.limit self.doubt payloads c) }
    {
        let Journal {
            disk,
            limit: _,
            gate: _,
            number: _,
            doubt: _,
        } = self;
        disk
    }

    /// Ends a doubt: the doubtful frame is in the list for good, and its number is answered.
    ///
    /// Without doubt it makes no call of the disk. After an error the frame is still in doubt.
    pub fn settle(&mut self) -> Result<Option<u64>, Failed>
        ensures none { self.old.doubt ≡ false → (result ≡ Ok None) × (self.new ≡ self.old) }
        ensures some { self.old.doubt ≡ true → IfOk result (λ frame. (frame ≡ Some (self.old.number - 1))
            × (self.new.doubt ≡ false)) }
        ensures failed { IsErr result → self.new.doubt ≡ true }
        ensures frames { IsUnchanged D.told self.old self.new }
        ensures sound { IsJournal D.told D.image self.new }
        ensures later { D.time self.old.disk ≤ D.time self.new.disk }
        ensures begun { self.old.doubt ≡ true → MakesMore 0 (D.time self.old.disk) (D.time self.new.disk) }
        ensures any_moment { ForSome (frames_of D.told self.old)
            (λ payloads. LeavesOnly D.time D.image_since self.old.disk self.new.disk
            (StandsForFrames self.old.limit self.old.doubt payloads)) }
        ensures cause { HasCause (D.fault_count self.old.disk) (D.fault_count self.new.disk) result }
    {
        let Some(size) = self.doubt else {
            return Ok(None);
        };
        write_gate(&mut self.disk, self.gate, 1)?;
        self.gate += FRAME_HEAD + size;
        self.doubt = None;
        Ok(Some(self.number - 1))
    }

    /// Adds a frame, and answers its number, counted from 0.
    ///
    /// At `Ok` it is acknowledged: from then on each crash leaves a disk that has it. It makes six calls of the disk.
    pub fn append(&mut self, payload: &[u8]) -> Result<u64, AppendRefused>
        requires { self.old.doubt ≡ false }
        ensures full { self.old.limit < need_of self.old payload.now
            → (result ≡ Err (AppendRefused.Full (need_told self.old.end payload.now) self.old.limit))
            × (self.new ≡ self.old) }
        ensures fits { need_of self.old payload.now ≤ self.old.limit → IsErr result
            → IsErrOf result AppendRefused.Failed }
        ensures appended { IfOk result (λ number. (number ≡ self.old.number) × (self.new.doubt ≡ false)
            × IsAppended D.told self.old self.new payload.now) }
        ensures number { IfOk result (λ number. ForSome (frames_of D.told self.old)
            (λ payloads. number ≡ length payloads)) }
        ensures failed { IsErrOf result AppendRefused.Failed → IsAppendFailed D.told self.old self.new payload.now }
        // After a failure it is in doubt exactly if the write of the gate was begun, the fifth of the six calls.
        ensures begun { IsErrOf result AppendRefused.Failed → self.new.doubt ≡ true
            → MakesMore 4 (D.time self.old.disk) (D.time self.new.disk) }
        ensures not_begun { IsErrOf result AppendRefused.Failed → self.new.doubt ≡ false
            → MakesAtMost 4 (D.time self.old.disk) (D.time self.new.disk) }
        ensures sound { IsJournal D.told D.image self.new }
        ensures later { D.time self.old.disk ≤ D.time self.new.disk }
        // A crash at any moment of the call leaves the frames from before it, with the new one or without.
        ensures any_moment { ForSome (frames_of D.told self.old) (λ payloads.
            LeavesOnly D.time D.image_since self.old.disk self.new.disk
            (IsBeforeOrAfter self.old.limit payloads payload.now)) }
        // If the call fails and no frame is in doubt, it leaves the frames from before alone.
        ensures any_moment_err { IsErr result → self.new.doubt ≡ false → ForSome (frames_of D.told self.old)
            (λ payloads.
            LeavesOnly D.time D.image_since self.old.disk self.new.disk
            (λ image. Stands image self.old.limit payloads)) }
        ensures cause { HasCount (D.fault_count self.old.disk) (D.fault_count self.new.disk)
            (IsErrOf result AppendRefused.Failed) (IsOk result) }
    {
        self.room(payload)?;
        stage(&mut self.disk, self.gate, self.number, payload)?;
        let number = self.number;
        self.number += 1;
        self.doubt = Some(payload.len() as u64);
        self.settle()?;
        Ok(number)
    }
}

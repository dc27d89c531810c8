// Reads the frames of a disk one by one, and makes its end a closed gate.
ghost use Rattle.std.specs.Prelude.{◌≡◌, ◌≢◌, ◌⊎◌, ◌<◌, ◌≤◌, ◌+◌, ◌-◌, ◌^◌, ◌++◌, [], ◌∷◌, List, ℕ, length, min, IfOk, IfErr, IfSome, Ok, Err, OnOk, take, drop, IsNone, IsOk, IsErr, IsErrOf, true, false, not};
ghost use Rattle.std.specs.Int.{w32, w64, to_be_bytes};
ghost use Rattle.std.specs.Option.{ForSome};
ghost use Rattle.lrs_disk.specs.Disk.{LeavesOnly};
ghost use Rattle.lrs_disk.specs.Faults.{HasCause, Rises};
ghost use Rattle.lrs_journal.specs.Create.{IsUntouched};
ghost use Rattle.lrs_journal.specs.Store.{head_of, header_in, number_in, version_of, HasHeader, HasHeaderIn, HasNoHeader, IsLimit, Stands, StandsIn, IsDamagedIn};
ghost use Rattle.lrs_journal.specs.Journal.{frames_of, IsJournal, IsSynced, Stores, TellsAlike, HasCount};
ghost use Rattle.lrs_journal.specs.Steps.{GivesBytes};
ghost use Rattle.lrs_journal.specs.Replay.{HasRead, IsAhead, IsFetched, IsFrameWithin, HasNextOffset, IsPassed, HasSameOffset};
ghost use Rattle.lrs_journal.specs.declared.sizes.Format.{Format};
ghost use Rattle.lrs_journal.specs.declared.sizes.Format.TheVariants as Formats;
ghost use Rattle.lrs_journal.specs.declared.replay.RecoverRefused.TheVariants as RecoverRefused;
ghost use Rattle.lrs_journal.specs.declared.replay.Ahead.TheVariants as Ahead;
ghost use Rattle.lrs_journal.specs.declared.replay.ReplayRefused.TheVariants as ReplayRefused;

use crate::Journal;
use crate::sizes::{FRAME_HEAD, Format, HEADER, LEAST_BYTES, MOST_BYTES};
use crate::steps::close_end;
use lrs_disk::{Disk, Failed};
use std::alloc::AllocError;
use std::marker::Model;

/// Why a disk isn't read.
#[derive(Clone, Copy, Debug, PartialEq, Eq)]
pub enum RecoverRefused {
    /// The disk doesn't begin with an open header.
    NotAStore,
    /// The header is of the old format, which is read by `recover_any` alone.
    OldFormat,
    Failed,
}

/// Why there is no next frame.
#[derive(Clone, Copy, Debug, PartialEq, Eq)]
pub enum ReplayRefused {
    /// The gate of frame k is open, and the frame isn't whole or tells another number.
    Damaged { k: u64 },
    Failed,
    Memory,
}

impl From<Failed> for ReplayRefused {
    ghost from_gives = { λ _ e. e ≡ ReplayRefused.Failed };

    fn from(_: Failed) -> Self {
        ReplayRefused::Failed
    }
}

impl From<AllocError> for ReplayRefused {
    ghost from_gives = { λ _ e. e ≡ ReplayRefused.Memory };

    fn from(_: AllocError) -> Self {
        ReplayRefused::Memory
    }
}

// The length that four bytes spell.
fn word_of(word: [u8; 4]) -> u32
    ensures { to_be_bytes w32 result ≡ word }
{
    u32::from_be_bytes(word)
}

fn number_of(word: [u8; 8]) -> u64
    ensures { to_be_bytes w64 result ≡ word }
{
    u64::from_be_bytes(word)
}

// The format of a version.
fn format_of(version: u8) -> Option<Format>
    ensures found { IfSome result (λ f. version_of f ≡ version) }
    ensures none { IsNone result → (f : Format) → version_of f ≢ version }
{
    match version {
        1 => Some(Format::One),
        2 => Some(Format::Two),
        _ => None,
    }
}

// What an open header tells.
#[derive(Clone, Copy)]
struct Header {
    format: Format,
    limit: u64,
}

// What the open header at the beginning of these bytes tells.
fn header_of(head: &[u8]) -> Option<Header>
    requires { length head.now ≤ HEADER }
    ensures found { IfSome result (λ h. (head.now ≡ header_in h.format h.limit) × (LEAST_BYTES ≤ h.limit)
        × (h.limit ≤ MOST_BYTES)) }
    ensures none { IsNone result → HasNoHeader head.now }
{
    match head {
        [
            1,
            b'L',
            b'R',
            b'S',
            b'J',
            b'R',
            b'N',
            b'L',
            version,
            a,
            b,
            c,
            d,
            e,
            f,
            g,
            h,
        ] => {
            let limit = number_of([*a, *b, *c, *d, *e, *f, *g, *h]);
            if limit < LEAST_BYTES || limit > MOST_BYTES {
                return None;
            }
            match format_of(*version) {
                Some(format) => Some(Header { format, limit }),
                None => None,
            }
        }
        _ => None,
    }
}

// What stands where a gate is looked for.
#[derive(Clone, Copy)]
enum Ahead {
    // No open gate: the list ends.
    End,
    // An open gate and no whole frame with the number that comes next.
    Torn,
    // An open gate and a payload of so many bytes.
    Frame { size: u32 },
}

// Whether a frame with this number may be frame k. In the old format there is no number.
fn has_number(format: Format, number: u64, k: u64) -> bool
    ensures yes { result ≡ true → format ≡ Formats.Two → number ≡ k }
    ensures no { result ≡ false → (format ≡ Formats.Two) × (number ≢ k) }
{
    match format {
        Format::One => true,
        Format::Two => number == k,
    }
}

// What stands ahead where frame k would, by its first bytes. So many bytes are there in all.
fn ahead_of(format: Format, k: u64, gate: u8, size: u32, number: u64, left: u64) -> Ahead
    ensures found { (bytes : List ℕ) → left ≡ length bytes
        → take (min FRAME_HEAD left) (gate ∷ to_be_bytes w32 size ++ to_be_bytes w64 number)
        ≡ take (min FRAME_HEAD left) bytes → IsAhead format k bytes result }
    ensures fits { (n : ℕ) → result ≡ Ahead.Frame n → (n < 2 ^ 32) × (head_of format + n ≤ left) }
{
    // No byte, or a gate that is the last byte.
    if left < 2 || gate != 1 {
        return Ahead::End;
    }
    let bytes = format.frame_head() + u64::from(size);
    if left < bytes {
        return Ahead::Torn;
    }
    if has_number(format, number, k) {
        return Ahead::Frame { size };
    }
    Ahead::Torn
}

// How many bytes are left, if so many of a frame's first bytes were read.
fn left_of(left: u64, there: usize) -> u64
    ensures same { there ≡ min FRAME_HEAD left → result ≡ left }
    ensures most { result ≤ left }
{
    if there < FRAME_HEAD as usize {
        return left.min(there as u64);
    }
    left
}

// Looks at the first bytes of frame k at an offset of a disk of so many bytes.
fn look<D: Disk>(
    disk: &mut D,
    format: Format,
    k: u64,
    offset: u64,
    total: u64,
) -> Result<Ahead, Failed>
    requires { (b : List ℕ) → GivesBytes D.told disk.old b → total ≡ length b }
    ensures found { IfOk result (λ ahead. ForSome (D.told disk.old)
        (λ bytes. IsAhead format k (drop offset bytes) ahead)) }
    ensures fits { IfOk result (λ ahead. (size : ℕ) → ahead ≡ Ahead.Frame size → (size < 2 ^ 32)
        × (offset + head_of format + size ≤ total)) }
    ensures untouched { IsUntouched D.told D.image D.time D.image_since disk.old disk.new }
    ensures cause { HasCause (D.fault_count disk.old) (D.fault_count disk.new) result }
{
    let mut head = [0; FRAME_HEAD as usize];
    let there = disk.read_at(offset, &mut head)?;
    let [gate, a, b, c, d, e, f, g, h, i, j, l, m] = head;
    let size = word_of([a, b, c, d]);
    let number = number_of([e, f, g, h, i, j, l, m]);
    let left = left_of(total.saturating_sub(offset), there);
    Ok(ahead_of(format, k, gate, size, number, left))
}

// Makes a vector so long. What it holds then is of no use, so what it held stays, and no more than it lacks is added.
fn size_to(into: &mut Vec<u8>, size: u32) -> Result<(), AllocError>
    ensures { OnOk result (length into.new.items ≡ size) }
{
    into.resize(size as usize, 0)?;
    Ok(())
}

// Fills a vector from an offset on, and answers whether there were bytes enough.
fn fill<D: Disk>(disk: &mut D, offset: u64, into: &mut Vec<u8>) -> Result<bool, Failed>
    ensures all { IfOk result (λ all. all ≡ true → ForSome (D.told disk.old)
        (λ bytes. into.new.items ≡ take (length into.old.items) (drop offset bytes))) }
    ensures short { IfOk result (λ all. all ≡ false → ForSome (D.told disk.old)
        (λ bytes. length bytes < offset + length into.old.items)) }
    ensures length { length into.new.items ≡ length into.old.items }
    ensures untouched { IsUntouched D.told D.image D.time D.image_since disk.old disk.new }
    ensures cause { HasCause (D.fault_count disk.old) (D.fault_count disk.new) result }
{
    let wanted = into.len();
    let number = disk.read_at(offset, into)?;
    Ok(number == wanted)
}

// Reads the payload of a frame whose length is within the disk.
fn load<D: Disk>(
    disk: &mut D,
    offset: u64,
    size: u32,
    into: &mut Vec<u8>,
) -> Result<Ahead, ReplayRefused>
    requires there { (b : List ℕ) → GivesBytes D.told disk.old b → offset + size ≤ length b }
    ensures whole { IfOk result (λ ahead. ForSome (D.told disk.old) (λ bytes. (ahead ≡ Ahead.Frame size)
        × (into.new.items ≡ take size (drop offset bytes)))) }
    ensures length { IfOk result (λ ahead. (n : ℕ) → ahead ≡ Ahead.Frame n → (n ≡ size)
        × (length into.new.items ≡ n)) }
    ensures damaged { (k : ℕ) → result ≢ Err (ReplayRefused.Damaged k) }
    ensures untouched { IsUntouched D.told D.image D.time D.image_since disk.old disk.new }
    ensures cause { HasCount (D.fault_count disk.old) (D.fault_count disk.new) (IsErrOf result ReplayRefused.Failed)
        (IsOk result) }
{
    size_to(into, size)?;
    let all = fill(disk, offset, into)?;
    if all {
        return Ok(Ahead::Frame { size });
    }
    Ok(Ahead::Torn)
}

// Reads frame k, which stands at an offset of a disk of so many bytes, into a vector, if it is whole.
fn fetch<D: Disk>(
    disk: &mut D,
    format: Format,
    k: u64,
    offset: u64,
    total: u64,
    into: &mut Vec<u8>,
) -> Result<Ahead, ReplayRefused>
    requires { (b : List ℕ) → GivesBytes D.told disk.old b → total ≡ length b }
    ensures found { IfOk result (λ ahead. ForSome (D.told disk.old)
        (λ bytes. IsFetched format k bytes offset ahead into.new.items)) }
    ensures fits { IfOk result (λ ahead. (size : ℕ) → ahead ≡ Ahead.Frame size
        → IsFrameWithin format offset total size into.new.items) }
    ensures damaged { (n : ℕ) → result ≢ Err (ReplayRefused.Damaged n) }
    ensures untouched { IsUntouched D.told D.image D.time D.image_since disk.old disk.new }
    ensures cause { HasCount (D.fault_count disk.old) (D.fault_count disk.new) (IsErrOf result ReplayRefused.Failed)
        (IsOk result) }
{
    match look(disk, format, k, offset, total)? {
        Ahead::End => Ok(Ahead::End),
        Ahead::Torn => Ok(Ahead::Torn),
        Ahead::Frame { size } => load(disk, offset + format.frame_head(), size, into),
    }
}

// Goes past what was fetched, if it is a frame, and answers whether there was one.
fn pass(
    format: Format,
    offset: &mut u64,
    number: &mut u64,
    ended: &mut bool,
    fetched: Result<Ahead, ReplayRefused>,
) -> Result<bool, ReplayRefused>
    requires room { (size : ℕ) → fetched ≡ Ok (Ahead.Frame size) → offset.old + head_of format + size < 2 ^ 64 }
    requires few { number.old ≤ offset.old }
    ensures { IsPassed format fetched offset.old number.old ended.old offset.new number.new ended.new result }
{
    match fetched {
        Ok(Ahead::End) => {
            *ended = true;
            Ok(false)
        }
        Ok(Ahead::Torn) => Err(ReplayRefused::Damaged { k: *number }),
        Ok(Ahead::Frame { size }) => {
            *offset += format.frame_head() + u64::from(size);
            *number += 1;
            *ended = false;
            Ok(true)
        }
        Err(refused) => Err(refused),
    }
}

/// The frames of a disk, read one by one.
#[derive(Drop)]
pub struct Replay<D: Disk> {
    disk: D,
    format: Format,
    limit: u64,
    size: u64,
    offset: u64,
    number: u64,
    ended: bool,
}

impl<D: Disk> Model for Replay<D> {
    ghost use Rattle.lrs_journal.specs.Replay.{Replay as SpecReplay};
    ghost use Rattle.lrs_journal.specs.Steps.{IsReplay};

    ghost Value = { SpecReplay D };

    ghost view = { λ r. record {
      disk = r.disk;
      format = r.format;
      limit = r.limit;
      offset = r.offset;
      number = r.number;
      ended =
          r.ended;
    } };

    ghost invariant = { λ r. IsReplay r.format (D.told r.disk) (D.image r.disk) r.limit r.size r.offset r.number
        r.ended };
}

impl<D: Disk> Journal<D> {
    /// Opens a disk that holds a store of either format, to read its frames. It never answers `OldFormat`.
    ///
    /// It begins with a sync, so that what is read stays.
    pub fn recover_any(disk: D) -> Result<Replay<D>, (RecoverRefused, D)>
        ensures opened { IfOk result (λ replay. ForSome (D.told disk)
            (λ bytes. HasHeaderIn replay.format bytes replay.limit × HasRead bytes replay [])) }
        ensures begun { IfOk result (λ replay. (replay.offset ≡ HEADER) × (replay.number ≡ 0)
            × (replay.ended ≡ false)) }
        ensures synced { IfOk result (λ replay. IsSynced D.told D.image replay.disk) }
        ensures not_a_store { IfErr result (λ e. e.0 ≡ RecoverRefused.NotAStore → ForSome (D.told disk) HasNoHeader) }
        ensures not_old { IfErr result (λ e. e.0 ≢ RecoverRefused.OldFormat) }
        ensures still { IfOk result (λ replay. D.told replay.disk ≡ D.told disk) }
        ensures still_err { IfErr result (λ e. D.told e.1 ≡ D.told disk) }
        ensures any_moment { IfOk result (λ replay. LeavesOnly D.time D.image_since disk replay.disk (D.image disk)) }
        ensures any_moment_err { IfErr result (λ e. LeavesOnly D.time D.image_since disk e.1 (D.image disk)) }
        ensures kept { IfOk result (λ replay. D.fault_count replay.disk ≡ D.fault_count disk) }
        ensures cause { IfErr result (λ e. HasCount (D.fault_count disk) (D.fault_count e.1) (e.0
            ≡ RecoverRefused.Failed) (e.0 ≢ RecoverRefused.Failed)) }
    {
        let mut disk = disk;
        let Ok(()) = disk.sync() else {
            return Err((RecoverRefused::Failed, disk));
        };
        let Ok(size) = disk.len() else {
            return Err((RecoverRefused::Failed, disk));
        };
        let mut head = [0; HEADER as usize];
        let Ok(number) = disk.read_at(0, &mut head) else {
            return Err((RecoverRefused::Failed, disk));
        };
        match header_of(&head[..number.min(HEADER as usize)]) {
            None => Err((RecoverRefused::NotAStore, disk)),
            Some(header) => Ok(Replay {
                disk,
                format: header.format,
                limit: header.limit,
                size,
                offset: HEADER,
                number: 0,
                ended: false,
            }),
        }
    }

    /// Opens a disk that holds a store of the format that is written, to read its frames.
    ///
    /// It begins with a sync, so that what is read stays.
    pub fn recover(disk: D) -> Result<Replay<D>, (RecoverRefused, D)>
        ensures format { IfOk result (λ replay. replay.format ≡ Formats.Two) }
        ensures opened { IfOk result (λ replay. ForSome (D.told disk)
            (λ bytes. HasHeader bytes replay.limit × HasRead bytes replay [])) }
        ensures begun { IfOk result (λ replay. (replay.offset ≡ HEADER) × (replay.number ≡ 0)
            × (replay.ended ≡ false)) }
        ensures synced { IfOk result (λ replay. IsSynced D.told D.image replay.disk) }
        ensures not_a_store { IfErr result (λ e. e.0 ≡ RecoverRefused.NotAStore → ForSome (D.told disk) HasNoHeader) }
        ensures old_format { IfErr result (λ e. e.0 ≡ RecoverRefused.OldFormat → ForSome (D.told disk)
            (λ bytes. (limit : ℕ) × HasHeaderIn Formats.One bytes limit)) }
        ensures still { IfOk result (λ replay. D.told replay.disk ≡ D.told disk) }
        ensures still_err { IfErr result (λ e. D.told e.1 ≡ D.told disk) }
        ensures any_moment { IfOk result (λ replay. LeavesOnly D.time D.image_since disk replay.disk (D.image disk)) }
        ensures any_moment_err { IfErr result (λ e. LeavesOnly D.time D.image_since disk e.1 (D.image disk)) }
        ensures kept { IfOk result (λ replay. D.fault_count replay.disk ≡ D.fault_count disk) }
        ensures cause { IfErr result (λ e. HasCount (D.fault_count disk) (D.fault_count e.1) (e.0
            ≡ RecoverRefused.Failed) (e.0 ≢ RecoverRefused.Failed)) }
    {
        match Journal::recover_any(disk) {
            Err(refused) => Err(refused),
            Ok(replay) => match replay.format() {
                Format::One => Err((RecoverRefused::OldFormat, replay.into_disk())),
                Format::Two => Ok(replay),
            },
        }
    }
}

impl<D: Disk> Replay<D> {
    /// The format that the header tells. `finish` is for the one that is written.
    pub fn format(&self) -> Format
        ensures { result ≡ self.now.format }
    {
        self.format
    }

    /// The bytes that the file may have.
    pub fn limit(&self) -> u64
        ensures same { result ≡ self.now.limit }
        ensures bounds { IsLimit result }
    {
        self.limit
    }

    /// Where the next gate stands: after the header, or after the last frame that was read.
    pub fn offset(&self) -> u64
        ensures { result ≡ self.now.offset }
    {
        self.offset
    }

    /// Gives the disk back as it is. Nothing is written.
    pub fn into_disk(self) -> D
        ensures { result ≡ self.disk }
    {
        let Replay {
            disk,
            format: _,
            limit: _,
            size: _,
            offset: _,
            number: _,
            ended: _,
        } = self;
        disk
    }

    /// Puts the next frame's payload into a vector and answers true, or answers false at the end of the list.
    pub fn next(&mut self, into: &mut Vec<u8>) -> Result<bool, ReplayRefused>
        ensures frame { IfOk result (λ more. more ≡ true → ForSome (D.told self.old.disk)
            (λ bytes. (payloads : List (List ℕ)) → HasRead bytes self.old payloads
            → HasRead bytes self.new (payloads ++ into.new.items ∷ []))) }
        ensures end { IfOk result (λ more. more ≡ false → HasSameOffset self.old self.new
            × ForSome (D.told self.old.disk)
            (λ bytes. (payloads : List (List ℕ)) → HasRead bytes self.old payloads → HasRead bytes self.new payloads
            × StandsIn self.old.format bytes self.old.limit payloads)) }
        ensures moved { IfOk result (λ more. more ≡ true → HasNextOffset self.old self.new into.new.items) }
        ensures ended { IfOk result (λ more. self.new.ended ≡ not more) }
        ensures damaged { (k : ℕ) → IsErrOf result (ReplayRefused.Damaged k) → (k ≡ self.old.number)
            × ForSome (D.told self.old.disk) (λ bytes. (payloads : List (List ℕ)) → HasRead bytes self.old payloads
            → IsDamagedIn self.old.format bytes self.old.limit payloads) }
        ensures refused { IsErr result → HasSameOffset self.old self.new × (self.new.ended ≡ self.old.ended) }
        ensures format { self.new.format ≡ self.old.format }
        ensures limit { self.new.limit ≡ self.old.limit }
        ensures still { D.told self.new.disk ≡ D.told self.old.disk }
        ensures synced { IsSynced D.told D.image self.new.disk }
        ensures any_moment { LeavesOnly D.time D.image_since self.old.disk self.new.disk
            (λ bytes. D.told self.old.disk ≡ Some bytes) }
        ensures cause { HasCount (D.fault_count self.old.disk) (D.fault_count self.new.disk)
            (IsErrOf result ReplayRefused.Failed) (IsOk result) }
    {
        let k = self.number;
        let fetched = fetch(&mut self.disk, self.format, k, self.offset, self.size, into);
        pass(
            self.format,
            &mut self.offset,
            &mut self.number,
            &mut self.ended,
            fetched,
        )
    }

    /// The journal that was read, with a closed gate at its end. `next` has answered false before. A store of the old
    /// format is only read.
    pub fn finish(self) -> Result<Journal<D>, (Failed, D)>
        requires ended { self.ended ≡ true }
        requires format { self.format ≡ Formats.Two }
        ensures finished { IfOk result (λ journal. ForSome (D.told self.disk)
            (λ bytes. (payloads : List (List ℕ)) → HasRead bytes self payloads
            → frames_of D.told journal ≡ Some payloads)) }
        ensures fields { IfOk result (λ journal. (journal.doubt ≡ false) × (journal.limit ≡ self.limit)
            × (journal.end ≡ self.offset) × (journal.number ≡ self.number)) }
        ensures sound { IfOk result (IsJournal D.told D.image) }
        ensures tells { IfOk result (λ journal. TellsAlike (D.told self.disk) (D.told journal.disk)) }
        ensures tells_err { IfErr result (λ e. TellsAlike (D.told self.disk) (D.told e.1)) }
        ensures failed { IfErr result (λ e. ForSome (D.told self.disk)
            (λ bytes. (payloads : List (List ℕ)) → HasRead bytes self payloads
            → Stores D.told e.1 self.limit payloads)) }
        ensures later { IfOk result (λ journal. D.time self.disk ≤ D.time journal.disk) }
        ensures later_err { IfErr result (λ e. D.time self.disk ≤ D.time e.1) }
        // A crash at any moment leaves the frames that were read.
        ensures any_moment { IfOk result (λ journal. ForSome (D.told self.disk)
            (λ bytes. (payloads : List (List ℕ)) → HasRead bytes self payloads
            → LeavesOnly D.time D.image_since self.disk journal.disk (λ image. Stands image self.limit payloads))) }
        ensures any_moment_err { IfErr result (λ e. ForSome (D.told self.disk)
            (λ bytes. (payloads : List (List ℕ)) → HasRead bytes self payloads
            → LeavesOnly D.time D.image_since self.disk e.1 (λ image. Stands image self.limit payloads))) }
        ensures kept { IfOk result (λ journal. D.fault_count journal.disk ≡ D.fault_count self.disk) }
        ensures cause { IfErr result (λ e. (D.fault_count self.disk ≤ D.fault_count e.1)
            × Rises (D.fault_count self.disk) (D.fault_count e.1)) }
    {
        let Replay {
            mut disk,
            format: _,
            limit,
            size: _,
            offset,
            number,
            ended: _,
        } = self;
        match close_end(&mut disk, offset) {
            Err(failed) => Err((failed, disk)),
            Ok(()) => Ok(Journal {
                disk,
                limit,
                gate: offset,
                number,
                doubt: None,
            }),
        }
    }
}

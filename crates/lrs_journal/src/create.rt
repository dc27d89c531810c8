// Makes a store on a disk. Its header's gate is opened last.
ghost use Rattle.std.specs.Prelude.{◌≡◌, ◌≢◌, ◌<◌, ◌≤◌, ◌+◌, ◌^◌, ◌++◌, [], ◌∷◌, List, ℕ, length, take, option_map, Err, OnOk, IsOk, IfOk, IfErr, IsErrOf, false};
ghost use Rattle.std.specs.Option.{ForSome};
ghost use Rattle.lrs_disk.specs.Disk.{LeavesOnly};
ghost use Rattle.lrs_disk.specs.Faults.{HasCause};
ghost use Rattle.lrs_journal.specs.Journal.{frames_of, IsJournal, IsSynced, TellsAlike, HasCount};
ghost use Rattle.lrs_journal.specs.Steps.{GivesBytes, IsBlank};
ghost use Rattle.lrs_journal.specs.Create.{IsStore, IsForeign, IsOpenTo, IsCreateRefused, IsMade, IsUntouched, need_of_first};
ghost use Rattle.lrs_journal.specs.declared.create.CreateRefused.TheVariants as CreateRefused;
ghost use Rattle.lrs_journal.specs.Store.{IsLimit};

use crate::Journal;
use crate::builder::start;
use crate::sizes::{FRAME_HEAD, HEADER};
use lrs_disk::{Disk, Failed};

/// Why no store was made.
#[derive(Clone, Copy, Debug, PartialEq, Eq)]
pub enum CreateRefused {
    /// The disk begins with an open gate and a store's magic.
    AlreadyStore,
    /// The disk has more than one byte, the first isn't 0, and there is no store's magic after it.
    Foreign,
    /// The file would need more bytes than the limit.
    Full { need: u64, limit: u64 },
    /// The disk failed. It is as it was if no store may be made on it, else it holds no store now, or the whole new one.
    Failed,
}

impl From<Failed> for CreateRefused {
    ghost from_gives = { λ _ e. e ≡ CreateRefused.Failed };

    fn from(_: Failed) -> Self {
        CreateRefused::Failed
    }
}

// Whether a store may be made on a disk that begins with these bytes, at most eight.
fn look(head: &[u8]) -> Result<(), CreateRefused>
    requires { length head.now ≤ 8 }
    ensures free { IsOk result → IsOpenTo head.now }
    ensures store { IsErrOf result CreateRefused.AlreadyStore → IsStore head.now }
    ensures foreign { IsErrOf result CreateRefused.Foreign → IsForeign head.now }
    ensures full { (need limit : ℕ) → result ≢ Err (CreateRefused.Full need limit) }
    ensures failed { result ≢ Err CreateRefused.Failed }
{
    if head.len() < 2 || head[0] == 0 {
        return Ok(());
    }
    if &head[1..] != b"LRSJRNL".as_slice() {
        return Err(CreateRefused::Foreign);
    }
    if head[0] == 1 {
        return Err(CreateRefused::AlreadyStore);
    }
    Ok(())
}

// Looks whether a store may be made on a disk, and answers the number of its bytes.
pub(crate) fn inspect<D: Disk>(disk: &mut D) -> Result<u64, CreateRefused>
    ensures size { IfOk result (λ size. ForSome (D.told disk.old) (λ bytes. size ≡ length bytes)) }
    ensures free { IsOk result → ForSome (D.told disk.old) IsOpenTo }
    ensures refused { IfErr result (λ e. ForSome (D.told disk.old) (λ bytes. IsCreateRefused bytes e)) }
    ensures full { (need limit : ℕ) → result ≢ Err (CreateRefused.Full need limit) }
    ensures untouched { IsUntouched D.told D.image D.time D.image_since disk.old disk.new }
    ensures cause { HasCount (D.fault_count disk.old) (D.fault_count disk.new) (IsErrOf result CreateRefused.Failed)
        (result ≢ Err CreateRefused.Failed) }
{
    let size = disk.len()?;
    let mut head = [0; 8];
    let number = disk.read_at(0, &mut head)?;
    look(&head[..number.min(8)])?;
    Ok(size)
}

// Looks whether a store of one frame may be made on a disk and has room in the limit, and answers the number of its bytes.
fn ready<D: Disk>(disk: &mut D, limit: u64, first: &[u8]) -> Result<u64, CreateRefused>
    requires first { length first.now < 2 ^ 32 }
    ensures size { IfOk result (λ size. ForSome (D.told disk.old) (λ bytes. size ≡ length bytes)) }
    ensures free { IsOk result → ForSome (D.told disk.old) IsOpenTo }
    ensures room { IsOk result → need_of_first first.now ≤ limit }
    ensures refused { IfErr result (λ e. ForSome (D.told disk.old) (λ bytes. IsCreateRefused bytes e)) }
    ensures full { (need most : ℕ) → IsErrOf result (CreateRefused.Full need most)
        → (need ≡ need_of_first first.now) × (most ≡ limit) × (limit < need) }
    ensures untouched { IsUntouched D.told D.image D.time D.image_since disk.old disk.new }
    ensures cause { HasCount (D.fault_count disk.old) (D.fault_count disk.new) (IsErrOf result CreateRefused.Failed)
        (result ≢ Err CreateRefused.Failed) }
{
    let size = inspect(disk)?;
    let need = HEADER + FRAME_HEAD + 1 + first.len() as u64;
    if need > limit {
        return Err(CreateRefused::Full { need, limit });
    }
    Ok(size)
}

// Makes a store of one frame on a disk of so many bytes that is open to it.
fn found<D: Disk>(
    disk: D,
    size: u64,
    limit: u64,
    first: &[u8],
) -> Result<Journal<D>, (CreateRefused, D)>
    requires limit { IsLimit limit }
    requires room { need_of_first first.now ≤ limit }
    requires blank { (b : List ℕ) → GivesBytes D.told disk b → IsBlank b }
    requires size { (b : List ℕ) → GivesBytes D.told disk b → size ≡ length b }
    ensures made { IfOk result (λ journal. frames_of D.told journal ≡ option_map
        (λ _. first.now ∷ []) (D.told disk)) }
    ensures fields { IfOk result (λ journal. (journal.doubt ≡ false) × (journal.limit ≡ limit)
        × (journal.end ≡ HEADER + FRAME_HEAD + length first.now) × (journal.number ≡ 1)) }
    ensures sound { IfOk result (IsJournal D.told D.image) }
    ensures failed { IfErr result (λ e. e.0 ≡ CreateRefused.Failed) }
    ensures tells { IfErr result (λ e. TellsAlike (D.told disk) (D.told e.1)) }
    ensures later { IfOk result (λ journal. D.time disk ≤ D.time journal.disk) }
    ensures later_err { IfErr result (λ e. D.time disk ≤ D.time e.1) }
    ensures any_moment { IfOk result (λ journal. IsSynced D.told D.image disk
        → LeavesOnly D.time D.image_since disk journal.disk (IsMade limit first.now)) }
    ensures any_moment_err { IfErr result (λ e. IsSynced D.told D.image disk
        → LeavesOnly D.time D.image_since disk e.1 (IsMade limit first.now)) }
    ensures kept { IfOk result (λ journal. D.fault_count journal.disk ≡ D.fault_count disk) }
    ensures cause { IfErr result (λ e. HasCount (D.fault_count disk) (D.fault_count e.1) (e.0
        ≡ CreateRefused.Failed) (e.0 ≢ CreateRefused.Failed)) }
{
    let mut builder = match start(disk, size, limit) {
        Err(refused) => return Err(refused),
        Ok(builder) => builder,
    };
    match builder.add(first) {
        Err(_) => Err((CreateRefused::Failed, builder.into_disk())),
        Ok(()) => match builder.open() {
            Err((_, disk)) => Err((CreateRefused::Failed, disk)),
            Ok(journal) => Ok(journal),
        },
    }
}

impl<D: Disk> Journal<D> {
    /// Makes a store on a disk, with one frame. The limit is what the file may have in bytes.
    ///
    /// Each step is on the disk before the next, and the header's gate is opened last. If there is a store already,
    /// nothing is written.
    pub fn create(disk: D, limit: u64, first: &[u8]) -> Result<Journal<D>, (CreateRefused, D)>
        requires limit { IsLimit limit }
        requires first { length first.now < 2 ^ 32 }
        ensures made { IfOk result (λ journal. frames_of D.told journal ≡ option_map
            (λ _. first.now ∷ []) (D.told disk)) }
        ensures fields { IfOk result (λ journal. (journal.doubt ≡ false) × (journal.limit ≡ limit)
            × (journal.end ≡ HEADER + FRAME_HEAD + length first.now) × (journal.number ≡ 1)) }
        ensures sound { IfOk result (IsJournal D.told D.image) }
        ensures free { IsOk result → (need_of_first first.now ≤ limit) × ForSome (D.told disk) IsOpenTo }
        ensures refused { IfErr result (λ e. ForSome (D.told disk) (λ bytes. IsCreateRefused bytes e.0)) }
        ensures full { IfErr result (λ e. (need most : ℕ) → e.0 ≡ CreateRefused.Full need most
            → (need ≡ need_of_first first.now) × (most ≡ limit) × (limit < need)) }
        ensures spared { IfErr result (λ e. e.0 ≢ CreateRefused.Failed
            → IsUntouched D.told D.image D.time D.image_since disk e.1) }
        // If no store may be made nothing is written, whatever the answer is.
        ensures store { IfErr result (λ e. ForSome (D.told disk) (λ bytes. (IsOpenTo bytes → ⊥)
            → IsUntouched D.told D.image D.time D.image_since disk e.1)) }
        ensures tells { IfErr result (λ e. TellsAlike (D.told disk) (D.told e.1)) }
        ensures later { IfOk result (λ journal. D.time disk ≤ D.time journal.disk) }
        ensures later_err { IfErr result (λ e. D.time disk ≤ D.time e.1) }
        // If nothing was pending, a crash at any moment leaves no open header or the one frame.
        ensures any_moment { IfOk result (λ journal. IsSynced D.told D.image disk → ForSome (D.told disk)
            (λ bytes. (IsStore bytes → ⊥) → LeavesOnly D.time D.image_since disk journal.disk
            (IsMade limit first.now))) }
        ensures any_moment_err { IfErr result (λ e. IsSynced D.told D.image disk → ForSome (D.told disk)
            (λ bytes. (IsStore bytes → ⊥) → LeavesOnly D.time D.image_since disk e.1 (IsMade limit first.now))) }
        ensures kept { IfOk result (λ journal. D.fault_count journal.disk ≡ D.fault_count disk) }
        ensures cause { IfErr result (λ e. HasCount (D.fault_count disk) (D.fault_count e.1) (e.0
            ≡ CreateRefused.Failed) (e.0 ≢ CreateRefused.Failed)) }
    {
        let mut disk = disk;
        match ready(&mut disk, limit, first) {
            Err(refused) => Err((refused, disk)),
            Ok(size) => found(disk, size, limit, first),
        }
    }
}

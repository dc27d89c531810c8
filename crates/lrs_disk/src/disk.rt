ghost use Rattle.std.specs.Prelude.{◌≡◌, ◌≤◌, ◌-◌, List, ℕ, Option, Some, IsSome, IfSome, option_map, length, take, drop, min, IfOk, OnOk, OnErr};
ghost use Rattle.lrs_disk.specs.Disk.{written, Torn, Cut, BothTold, Follows, Within, Elapses};
ghost use Rattle.lrs_disk.specs.Faults.{HasCause};

use crate::Failed;

/// A disk: what a read gives, and what a crash may leave.
///
/// Between two syncs each written range and the part past the old end may hold any bytes after a crash, and a
/// cut tail may be there or not. Bytes outside stay. After a sync that answers `Ok` a crash leaves what a read gives.
pub trait Disk: Drop {
    /// What a read gives, if the disk tells it.
    ghost told: { Self → Option (List ℕ) };

    /// These bytes are an image that a crash at this moment may leave.
    ghost image: { Self → List ℕ → Type 0 };

    /// These bytes are an image that a crash at some moment since that one may have left.
    ghost image_since: { Self → ℕ → List ℕ → Type 0 };

    /// How often a call has failed.
    ghost fault_count: { Self → ℕ };

    /// The moment. It rises with each call.
    ghost time: { Self → ℕ };

    /// The number of bytes.
    fn len(&mut self) -> Result<u64, Failed>
        ensures length { IfOk result (λ n. IfSome (told self.old) (λ b. n ≡ length b)) }
        ensures still { told self.new ≡ told self.old }
        ensures crash { Within (image self.old) (image self.new) }
        ensures time { Elapses (time self.old) (time self.new) (image_since self.old) (image_since self.new)
            (image self.new) }
        ensures cause { HasCause (fault_count self.old) (fault_count self.new) result };

    /// Reads from an offset on, and answers how many bytes there were. They are fewer than asked for only at the end.
    fn read_at(&mut self, offset: u64, into: &mut [u8]) -> Result<usize, Failed>
        ensures room { IfOk result (λ n. n ≤ length into.old) }
        ensures number { IfOk result (λ n. IfSome (told self.old)
            (λ b. n ≡ min (length into.old) (length b - offset))) }
        ensures bytes { IfOk result (λ n. IfSome (told self.old) (λ b. take n into.new ≡ take n (drop offset b))) }
        ensures still { told self.new ≡ told self.old }
        ensures crash { Within (image self.old) (image self.new) }
        ensures time { Elapses (time self.old) (time self.new) (image_since self.old) (image_since self.new)
            (image self.new) }
        ensures cause { HasCause (fault_count self.old) (fault_count self.new) result };

    /// Writes over what is there, and past the end. Until a sync, a crash may leave any bytes in the range.
    fn write_at(&mut self, offset: u64, bytes: &[u8]) -> Result<(), Failed>
        requires { (b : List ℕ) → told self.old ≡ Some b → offset ≤ length b }
        ensures written { OnOk result (told self.new ≡ option_map (λ b. written b offset bytes.now) (told self.old)) }
        ensures failed { OnErr result (BothTold (Torn offset (length bytes.now)) (told self.old) (told self.new)) }
        ensures crash { Follows (Torn offset (length bytes.now)) (image self.old) (image self.new) }
        ensures time { Elapses (time self.old) (time self.new) (image_since self.old) (image_since self.new)
            (image self.new) }
        ensures cause { HasCause (fault_count self.old) (fault_count self.new) result };

    /// Cuts the disk to a length.
    fn cut(&mut self, to: u64) -> Result<(), Failed>
        requires { (b : List ℕ) → told self.old ≡ Some b → to ≤ length b }
        ensures cut { OnOk result (told self.new ≡ option_map (λ b. take to b) (told self.old)) }
        ensures failed { OnErr result (BothTold (Cut to) (told self.old) (told self.new)) }
        ensures crash { Follows (Cut to) (image self.old) (image self.new) }
        ensures time { Elapses (time self.old) (time self.new) (image_since self.old) (image_since self.new)
            (image self.new) }
        ensures cause { HasCause (fault_count self.old) (fault_count self.new) result };

    /// After it, a crash leaves what a read gives.
    fn sync(&mut self) -> Result<(), Failed>
        ensures durable { OnOk result ((c : List ℕ) → image self.new c → told self.new ≡ Some c) }
        ensures still { told self.new ≡ told self.old }
        ensures crash { Within (image self.old) (image self.new) }
        ensures time { Elapses (time self.old) (time self.new) (image_since self.old) (image_since self.new)
            (image self.new) }
        ensures cause { HasCause (fault_count self.old) (fault_count self.new) result };

    /// How often a call has failed. At the last value of u64 the count stands still.
    fn faults(&self) -> u64
        ensures { result ≡ fault_count self.now };

    /// The moment: a number that rises with each call, and stands still at the last value of u64.
    fn moment(&self) -> u64
        ensures { result ≡ time self.now };

    /// What a read gives is an image.
    ghost reads_image: { (disk : Self) (b : List ℕ) → told disk ≡ Some b → image disk b };

    /// A disk that tells of images tells what a read gives.
    ghost tells: { (disk : Self) (c : List ℕ) → image disk c → IsSome (told disk) };

    /// This moment is one of those since an earlier one.
    ghost counts_now: { (disk : Self) (t : ℕ) (c : List ℕ) → t ≤ time disk → image disk c → image_since disk t c };

    /// Since this moment there is no other.
    ghost only_now: { (disk : Self) (c : List ℕ) → image_since disk (time disk) c → image disk c };

    /// A moment since a later one is a moment since an earlier one.
    ghost since_later: { (disk : Self) (t u : ℕ) (c : List ℕ) → t ≤ u → image_since disk u c → image_since disk t c };
}

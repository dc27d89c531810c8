ghost use Rattle.std.specs.Prelude.{◌≡◌, ◌<◌, ◌≤◌, ◌++◌, [], List, ℕ, Option, Some, option_map, IfSome, length, take, IfOk, OnErr};
ghost use Rattle.lrs_disk.specs.Faults.{HasCause};

use crate::Failed;

/// A connection: an input and an output, each in pieces.
pub trait Link: Drop {
    /// The bytes that are left to read, if the link tells them.
    ghost left: { Self → Option (List ℕ) };

    /// All bytes that the link brings, those that were read and those that are left, if it tells them.
    ghost stream: { Self → Option (List ℕ) };

    /// The bytes that were taken, if the link tells them.
    ghost taken: { Self → Option (List ℕ) };

    /// The link's name, by which its door knows it again.
    ghost name: { Self → ℕ };

    /// How often a call has failed.
    ghost fault_count: { Self → ℕ };

    /// Gives the next bytes, and answers how many. `Ok(0)` for a piece that isn't empty is the input's end.
    fn read(&mut self, into: &mut [u8]) -> Result<usize, Failed>
        ensures room { IfOk result (λ n. n ≤ length into.old) }
        ensures given { IfOk result (λ n. left self.old ≡ option_map
            (λ rest. take n into.new ++ rest) (left self.new)) }
        ensures end { IfOk result (λ n. n ≡ 0 → 0 < length into.old → IfSome (left self.old) (λ b. b ≡ [])) }
        ensures failed { OnErr result (left self.new ≡ left self.old) }
        ensures stream_kept { stream self.new ≡ stream self.old }
        ensures taken_kept { taken self.new ≡ taken self.old }
        ensures name_kept { name self.new ≡ name self.old }
        ensures cause { HasCause (fault_count self.old) (fault_count self.new) result };

    /// Takes the first bytes of a piece, and answers how many: at least one, if the piece isn't empty.
    fn write(&mut self, bytes: &[u8]) -> Result<usize, Failed>
        ensures room { IfOk result (λ n. n ≤ length bytes.now) }
        ensures some { IfOk result (λ n. 0 < length bytes.now → 0 < n) }
        ensures taken { IfOk result (λ n. taken self.new ≡ option_map (λ t. t ++ take n bytes.now) (taken self.old)) }
        ensures failed { OnErr result (taken self.new ≡ taken self.old) }
        ensures left_kept { left self.new ≡ left self.old }
        ensures stream_kept { stream self.new ≡ stream self.old }
        ensures name_kept { name self.new ≡ name self.old }
        ensures cause { HasCause (fault_count self.old) (fault_count self.new) result };

    /// How often a call has failed. At the last value of u64 the count stands still.
    fn faults(&self) -> u64
        ensures { result ≡ fault_count self.now };

    /// If the link tells the bytes left, it also tells the whole stream, which ends in them.
    ghost tells_stream: { (link : Self) (rest : List ℕ) → left link ≡ Some rest → (before : List ℕ)
        × (stream link ≡ Some (before ++ rest)) };
}

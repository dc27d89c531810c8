// Small writes that are gathered into large ones.
ghost use Rattle.std.specs.Prelude.{◌≡◌, ◌⊎◌, ◌≤◌, ◌+◌, ◌-◌, [], IfOk, IfSome, OnOk, OnErr, length, min, take, drop, option_map, true, false};
ghost use Rattle.lrs_disk.specs.Disk.{written, Torn, Cut, BothTold};
ghost use Rattle.lrs_edge.specs.Behind.{told_by};

use crate::ahead::{Bytes, ReadAhead};
use std::alloc::Global;
use std::io;

/// How many bytes are written at once, where writes of fewer follow one another.
pub const WRITE_BEHIND: usize = 65_536;

// Bytes of which the last ones that were written may wait.
#[derive(Drop)]
pub(crate) struct WriteBehind<B: Bytes> {
    inner: ReadAhead<B>,
    // The offset of the first byte that waits.
    start: u64,
    waiting: Vec<u8>,
}

impl<B: Bytes> WriteBehind<B> {
    pub(crate) fn new(alloc: Global, inner: B) -> Self
        ensures inner { result.inner ≡ inner }
        ensures none { result.waiting.items ≡ [] }
    {
        WriteBehind {
            inner: ReadAhead::new(alloc, inner),
            start: 0,
            waiting: Vec::new(alloc),
        }
    }

    // The bytes without those that wait.
    pub(crate) fn inner(&self) -> &B
        ensures { result.now ≡ self.now.inner }
    {
        self.inner.inner()
    }

    // Puts other bytes there.
    pub(crate) fn replace(&mut self, inner: B)
        ensures inner { self.new.inner ≡ inner }
        ensures none { self.new.waiting.items ≡ [] }
    {
        self.waiting.clear();
        self.inner.replace(inner);
    }

    // Writes what waits. If it fails that goes on waiting: no later sync may answer that it is on the disk.
    pub(crate) fn flush(&mut self) -> io::Result<()>
        ensures none { OnOk result (self.new.waiting.items ≡ []) }
        ensures same { told_by B.told self.new ≡ told_by B.told self.old }
    {
        if self.waiting.is_empty() {
            return Ok(());
        }
        self.inner.write_at(self.start, &self.waiting)?;
        self.waiting.clear();
        Ok(())
    }

    pub(crate) fn read_at(&mut self, offset: u64, into: &mut [u8]) -> io::Result<usize>
        ensures room { IfOk result (λ n. n ≤ length into.old) }
        ensures number { IfOk result (λ n. IfSome (told_by B.told self.old)
            (λ b. n ≡ min (length into.old) (length b - offset))) }
        ensures bytes { IfOk result (λ n. IfSome (told_by B.told self.old)
            (λ b. take n into.new ≡ take n (drop offset b))) }
        ensures same { told_by B.told self.new ≡ told_by B.told self.old }
    {
        self.flush()?;
        self.inner.read_at(offset, into)
    }

    // A write that follows what waits, and fits behind it, waits too.
    pub(crate) fn write_at(&mut self, offset: u64, bytes: &[u8]) -> io::Result<()>
        ensures written { OnOk result (told_by B.told self.new
            ≡ option_map (λ b. written b offset bytes.now) (told_by B.told self.old)) }
        ensures failed { OnErr result (BothTold (Torn offset (length bytes.now)) (told_by B.told self.old)
            (told_by B.told self.new)) }
    {
        if self.gather(offset, bytes) {
            return Ok(());
        }
        self.flush()?;
        if self.gather(offset, bytes) {
            return Ok(());
        }
        self.write_through(offset, bytes)
    }

    // Writes at once.
    pub(crate) fn write_through(&mut self, offset: u64, bytes: &[u8]) -> io::Result<()>
        ensures written { OnOk result (told_by B.told self.new
            ≡ option_map (λ b. written b offset bytes.now) (told_by B.told self.old)) }
        ensures failed { OnErr result (BothTold (Torn offset (length bytes.now)) (told_by B.told self.old)
            (told_by B.told self.new)) }
    {
        self.flush()?;
        self.inner.write_at(offset, bytes)
    }

    pub(crate) fn cut(&mut self, to: u64) -> io::Result<()>
        ensures cut { OnOk result (told_by B.told self.new
            ≡ option_map (λ b. take to b) (told_by B.told self.old)) }
        ensures failed { OnErr result (BothTold (Cut to) (told_by B.told self.old)
            (told_by B.told self.new)) }
    {
        self.flush()?;
        self.inner.cut(to)
    }

    pub(crate) fn sync(&mut self) -> io::Result<()>
        ensures none { OnOk result (self.new.waiting.items ≡ []) }
        ensures still { OnOk result (told_by B.told self.new ≡ told_by B.told self.old) }
    {
        self.flush()?;
        self.inner.sync()
    }

    // Whether the bytes of a write wait now.
    fn gather(&mut self, offset: u64, bytes: &[u8]) -> bool
        ensures waits { result ≡ true → told_by B.told self.new
            ≡ option_map (λ b. written b offset bytes.now) (told_by B.told self.old) }
        ensures not { result ≡ false → told_by B.told self.new ≡ told_by B.told self.old }
    {
        let start = self.begin(offset);
        let size = self.waiting.len();
        if !follows(start, size, offset) || !is_within(size, bytes.len()) {
            return false;
        }
        match self.waiting.extend_from_slice(bytes) {
            Ok(()) => {
                self.start = start;
                true
            }
            Err(_) => false,
        }
    }

    // Where what waits begins, if a write at an offset comes next.
    fn begin(&self, offset: u64) -> u64
        ensures { (self.now.waiting.items ≡ []) ⊎ (result ≡ self.now.start) }
    {
        if self.waiting.is_empty() {
            return offset;
        }
        self.start
    }
}

// Whether an offset is the one behind so many bytes from `start` on.
fn follows(start: u64, size: usize, offset: u64) -> bool
    ensures { result ≡ true → start + size ≡ offset }
{
    offset >= start && offset - start == size as u64
}

// Whether there is room for `more` bytes behind so many.
fn is_within(size: usize, more: usize) -> bool {
    size <= WRITE_BEHIND && more <= WRITE_BEHIND - size
}

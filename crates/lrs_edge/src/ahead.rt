// Small reads that are answered from large ones.
ghost use Rattle.std.specs.Prelude.{◌≡◌, ◌≤◌, ◌+◌, ◌-◌, [], List, ℕ, Option, length, min, take, drop, IfOk, IfSome, OnOk, OnErr, option_map};
ghost use Rattle.std.specs.Option.{ForSome};
ghost use Rattle.lrs_disk.specs.Disk.{written, Torn, Cut, BothTold};
ghost use Rattle.lrs_edge.specs.Ahead.{IsPiece};

use lrs_disk::copied;
use std::alloc::{AllocError, Global};
use std::io;
use std::marker::Model;

/// How many bytes of a file are read at once, where a read asks for fewer.
pub const READ_AHEAD: usize = 262_144;

// Bytes that are read and written by offset.
pub(crate) trait Bytes: Drop {
    // What a read gives, if it is told.
    ghost told: { Self → Option (List ℕ) };

    // Reads from an offset on, and answers how many bytes there were. They are fewer than asked for only at the end.
    fn read_at(&self, offset: u64, into: &mut [u8]) -> io::Result<usize>
        ensures room { IfOk result (λ n. n ≤ length into.old) }
        ensures number { IfOk result (λ n. IfSome (told self.now)
            (λ b. n ≡ min (length into.old) (length b - offset))) }
        ensures bytes { IfOk result (λ n. IfSome (told self.now) (λ b. take n into.new ≡ take n (drop offset b))) };

    // Writes over what is there, and past the end.
    fn write_at(&mut self, offset: u64, bytes: &[u8]) -> io::Result<()>
        ensures written { OnOk result (told self.new ≡ option_map (λ b. written b offset bytes.now) (told self.old)) }
        ensures failed { OnErr result (BothTold (Torn offset (length bytes.now)) (told self.old) (told self.new)) };

    fn cut(&mut self, to: u64) -> io::Result<()>
        ensures cut { OnOk result (told self.new ≡ option_map (λ b. take to b) (told self.old)) }
        ensures failed { OnErr result (BothTold (Cut to) (told self.old) (told self.new)) };

    // No clause says what it leaves if it fails.
    fn sync(&mut self) -> io::Result<()>
        ensures still { OnOk result (told self.new ≡ told self.old) };
}

// Bytes of which a piece was read ahead. For contracts these are the bytes alone: the piece isn't seen.
#[derive(Drop)]
pub(crate) struct ReadAhead<B: Bytes> {
    inner: B,
    // The offset of the piece's first byte.
    start: u64,
    piece: Vec<u8>,
}

impl<B: Bytes> Model for ReadAhead<B> {
    ghost use Rattle.lrs_edge.specs.Ahead.{IsPiece};

    ghost Value = { B };

    ghost view = { λ r. r.inner };

    ghost invariant = { λ r. IsPiece (B.told r.inner) r.start r.piece.items };
}

impl<B: Bytes> ReadAhead<B> {
    // Nothing was read ahead of them yet.
    pub(crate) fn new(alloc: Global, inner: B) -> Self
        ensures { result ≡ inner }
    {
        ReadAhead {
            inner,
            start: 0,
            piece: Vec::new(alloc),
        }
    }

    pub(crate) fn inner(&self) -> &B
        ensures { result.now ≡ self.now }
    {
        &self.inner
    }

    // Puts other bytes there.
    pub(crate) fn replace(&mut self, inner: B)
        ensures { self.new ≡ inner }
    {
        forget(&mut self.piece);
        self.inner = inner;
    }

    // Answers as a read of the bytes does. It fails only where that fails.
    pub(crate) fn read_at(&mut self, offset: u64, into: &mut [u8]) -> io::Result<usize>
        ensures room { IfOk result (λ n. n ≤ length into.old) }
        ensures number { IfOk result (λ n. IfSome (B.told self.old)
            (λ b. n ≡ min (length into.old) (length b - offset))) }
        ensures bytes { IfOk result (λ n. IfSome (B.told self.old) (λ b. take n into.new ≡ take n (drop offset b))) }
        ensures same { self.new ≡ self.old }
    {
        read_through(&self.inner, &mut self.start, &mut self.piece, offset, into)
    }

    pub(crate) fn write_at(&mut self, offset: u64, bytes: &[u8]) -> io::Result<()>
        ensures written { OnOk result (B.told self.new
            ≡ option_map (λ b. written b offset bytes.now) (B.told self.old)) }
        ensures failed { OnErr result (BothTold (Torn offset (length bytes.now)) (B.told self.old)
            (B.told self.new)) }
    {
        forget(&mut self.piece);
        self.inner.write_at(offset, bytes)
    }

    pub(crate) fn cut(&mut self, to: u64) -> io::Result<()>
        ensures cut { OnOk result (B.told self.new ≡ option_map (λ b. take to b) (B.told self.old)) }
        ensures failed { OnErr result (BothTold (Cut to) (B.told self.old) (B.told self.new)) }
    {
        forget(&mut self.piece);
        self.inner.cut(to)
    }

    // A sync that fails may leave other bytes than were read before.
    pub(crate) fn sync(&mut self) -> io::Result<()>
        ensures still { OnOk result (B.told self.new ≡ B.told self.old) }
    {
        forget(&mut self.piece);
        self.inner.sync()
    }
}

// Empties a piece, and gives its memory back.
fn forget(piece: &mut Vec<u8>)
    ensures { piece.new.items ≡ [] }
{
    piece.clear();
    piece.shrink_to_fit();
}

// Reads from an offset on, from the piece if it can be made to have what is asked for.
fn read_through<B: Bytes>(
    inner: &B,
    start: &mut u64,
    piece: &mut Vec<u8>,
    offset: u64,
    into: &mut [u8],
) -> io::Result<usize>
    requires { IsPiece (B.told inner.now) start.old piece.old.items }
    ensures piece { IsPiece (B.told inner.now) start.new piece.new.items }
    ensures room { IfOk result (λ n. n ≤ length into.old) }
    ensures number { IfOk result (λ n. IfSome (B.told inner.now)
        (λ b. n ≡ min (length into.old) (length b - offset))) }
    ensures bytes { IfOk result (λ n. IfSome (B.told inner.now) (λ b. take n into.new ≡ take n (drop offset b))) }
{
    match reach(inner, start, piece, offset, into.len()) {
        Some(within) => Ok(copied(piece, within, into)),
        None => inner.read_at(offset, into),
    }
}

// Where a read of so many bytes from an offset on begins in the piece. If they aren't all in it, a new piece is read from
// that offset on. Nothing, if the bytes have to be read without a piece.
fn reach<B: Bytes>(
    inner: &B,
    start: &mut u64,
    piece: &mut Vec<u8>,
    offset: u64,
    count: usize,
) -> Option<u64>
    requires { IsPiece (B.told inner.now) start.old piece.old.items }
    ensures piece { IsPiece (B.told inner.now) start.new piece.new.items }
    ensures reached { IfSome result (λ within. ForSome (B.told inner.now)
        (λ b. take count (drop within piece.new.items) ≡ take count (drop offset b))) }
{
    match begin_within(*start, piece.len(), offset, count) {
        Some(within) => Some(within),
        None => refill(inner, start, piece, offset, count),
    }
}

// Where a read of `count` bytes from an offset on begins in a piece of `size` bytes from `start` on. Nothing, if they
// aren't all in it.
fn begin_within(start: u64, size: usize, offset: u64, count: usize) -> Option<u64>
    ensures { IfSome result (λ within. (start + within ≡ offset) × (within + count ≤ size)) }
{
    if offset < start {
        return None;
    }
    let within = offset - start;
    let end = size as u64;
    if within > end || count as u64 > end - within {
        return None;
    }
    Some(within)
}

// Reads a new piece from an offset on, where a read of `count` bytes then begins. Nothing, if they are more than a piece
// has, or if there is no memory for it or it can't be read: what is asked for alone may still be read.
fn refill<B: Bytes>(
    inner: &B,
    start: &mut u64,
    piece: &mut Vec<u8>,
    offset: u64,
    count: usize,
) -> Option<u64>
    requires { IsPiece (B.told inner.now) start.old piece.old.items }
    ensures piece { IsPiece (B.told inner.now) start.new piece.new.items }
    ensures reached { IfSome result (λ within. ForSome (B.told inner.now)
        (λ b. take count (drop within piece.new.items) ≡ take count (drop offset b))) }
{
    if count > READ_AHEAD {
        return None;
    }
    *start = offset;
    match read_piece(inner, offset, piece) {
        Ok(()) => Some(0),
        Err(_) => {
            forget(piece);
            None
        }
    }
}

// Reads a piece from an offset on.
fn read_piece<B: Bytes>(inner: &B, offset: u64, piece: &mut Vec<u8>) -> io::Result<()>
    ensures { OnOk result (ForSome (B.told inner.now) (λ b. piece.new.items ≡ take READ_AHEAD (drop offset b))) }
{
    widen(piece)?;
    let number = fill(inner, offset, piece)?;
    piece.truncate(number);
    Ok(())
}

// Makes a piece as long as it may be. What it holds then is of no use.
fn widen(piece: &mut Vec<u8>) -> Result<(), AllocError>
    ensures { OnOk result (length piece.new.items ≡ READ_AHEAD) }
{
    piece.resize(READ_AHEAD, 0)?;
    Ok(())
}

// Fills a vector from an offset on, and answers how many bytes there were.
fn fill<B: Bytes>(inner: &B, offset: u64, into: &mut Vec<u8>) -> io::Result<usize>
    ensures number { IfOk result (λ n. ForSome (B.told inner.now)
        (λ b. n ≡ min (length into.old.items) (length b - offset))) }
    ensures bytes { IfOk result (λ n. ForSome (B.told inner.now)
        (λ b. take n into.new.items ≡ take n (drop offset b))) }
{
    let number = inner.read_at(offset, into)?;
    Ok(number)
}

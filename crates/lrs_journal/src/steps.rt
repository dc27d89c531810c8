// The steps of the calls that write, of at most four calls of the disk each.
ghost use Rattle.std.specs.Prelude.{◌≡◌, ◌<◌, ◌≤◌, ◌+◌, ◌^◌, ◌++◌, [], ◌∷◌, List, ℕ, length, OnOk};
ghost use Rattle.std.specs.Int.{w32, w64, to_be_bytes};
ghost use Rattle.lrs_disk.specs.Disk.{written, LeavesOnly, Follows, Within};
ghost use Rattle.lrs_disk.specs.Faults.{HasCause};
ghost use Rattle.lrs_journal.specs.Store.{body, need_at};
ghost use Rattle.lrs_journal.specs.Journal.{MakesAtMost, MakesMore, TellsAlike};
ghost use Rattle.lrs_journal.specs.Steps.{GivesBytes, KeepsUpTo, IsAtGate, IsCutBack, IsClosed, IsUnlocking};

use crate::sizes::FRAME_HEAD;
use lrs_disk::{Disk, Failed};

// A frame's length and number.
fn numbers_of(length: u32, number: u64) -> [u8; 12]
    ensures { result ≡ to_be_bytes w32 length ++ to_be_bytes w64 number }
{
    let [a, b, c, d] = length.to_be_bytes();
    let [e, f, g, h, i, j, k, l] = number.to_be_bytes();
    [a, b, c, d, e, f, g, h, i, j, k, l]
}

// The same after an open gate.
fn open_head_of(length: u32, number: u64) -> [u8; FRAME_HEAD as usize]
    ensures { result ≡ 1 ∷ to_be_bytes w32 length ++ to_be_bytes w64 number }
{
    let [a, b, c, d] = length.to_be_bytes();
    let [e, f, g, h, i, j, k, l] = number.to_be_bytes();
    [1, a, b, c, d, e, f, g, h, i, j, k, l]
}

/// Writes the body of the frame of this number and a closed gate after the gate at this offset, and syncs.
pub(crate) fn stage<D: Disk>(
    disk: &mut D,
    offset: u64,
    number: u64,
    payload: &[u8],
) -> Result<(), Failed>
    requires fits { need_at offset payload.now < 2 ^ 32 }
    requires gate { (b : List ℕ) → GivesBytes D.told disk.old b → offset < length b }
    ensures staged { OnOk result (Follows (λ b c. c ≡ written b (offset + 1) (body number payload.now ++ 0
        ∷ [])) (GivesBytes D.told disk.old) (D.image disk.new)) }
    ensures tells { TellsAlike (D.told disk.old) (D.told disk.new) }
    ensures any_moment { LeavesOnly D.time D.image_since disk.old disk.new (KeepsUpTo (offset + 1) (D.image disk.old)) }
    ensures few { MakesAtMost 4 (D.time disk.old) (D.time disk.new) }
    ensures all { OnOk result (MakesMore 3 (D.time disk.old) (D.time disk.new)) }
    ensures cause { HasCause (D.fault_count disk.old) (D.fault_count disk.new) result }
{
    disk.write_at(offset + 1, &numbers_of(payload.len() as u32, number))?;
    disk.write_at(offset + FRAME_HEAD, payload)?;
    disk.write_at(offset + FRAME_HEAD + payload.len() as u64, &[0])?;
    disk.sync()
}

/// Writes an open frame of this number at the end of a disk. It isn't synced.
pub(crate) fn lay<D: Disk>(
    disk: &mut D,
    offset: u64,
    number: u64,
    payload: &[u8],
) -> Result<(), Failed>
    requires fits { need_at offset payload.now < 2 ^ 32 }
    requires end { (b : List ℕ) → GivesBytes D.told disk.old b → offset ≡ length b }
    ensures laid { OnOk result (Follows (λ b c. c ≡ b ++ 1 ∷ body number payload.now) (GivesBytes D.told disk.old)
        (GivesBytes D.told disk.new)) }
    ensures tells { TellsAlike (D.told disk.old) (D.told disk.new) }
    ensures any_moment { LeavesOnly D.time D.image_since disk.old disk.new (KeepsUpTo offset (D.image disk.old)) }
    ensures cause { HasCause (D.fault_count disk.old) (D.fault_count disk.new) result }
{
    disk.write_at(offset, &open_head_of(payload.len() as u32, number))?;
    disk.write_at(offset + FRAME_HEAD, payload)
}

/// Writes a gate, and syncs.
pub(crate) fn write_gate<D: Disk>(disk: &mut D, offset: u64, gate: u8) -> Result<(), Failed>
    requires offset { (b : List ℕ) → GivesBytes D.told disk.old b → offset ≤ length b }
    ensures written { OnOk result (Follows (λ b c. c ≡ written b offset (gate
        ∷ [])) (GivesBytes D.told disk.old) (D.image disk.new)) }
    ensures tells { TellsAlike (D.told disk.old) (D.told disk.new) }
    ensures any_moment { LeavesOnly D.time D.image_since disk.old disk.new (IsAtGate offset (D.image disk.old)) }
    ensures begun { MakesMore 0 (D.time disk.old) (D.time disk.new) }
    ensures cause { HasCause (D.fault_count disk.old) (D.fault_count disk.new) result }
{
    disk.write_at(offset, &[gate])?;
    disk.sync()
}

/// Puts a closed gate at the end, and opens the one in front once all is on the disk.
pub(crate) fn unlock<D: Disk>(disk: &mut D, end: u64) -> Result<(), Failed>
    requires end { (b : List ℕ) → GivesBytes D.told disk.old b → end ≤ length b }
    ensures opened { OnOk result (Follows (λ b c. c ≡ written (written b end (0 ∷ [])) 0 (1
        ∷ [])) (GivesBytes D.told disk.old) (D.image disk.new)) }
    ensures tells { TellsAlike (D.told disk.old) (D.told disk.new) }
    ensures any_moment { LeavesOnly D.time D.image_since disk.old disk.new
        (IsUnlocking end (GivesBytes D.told disk.old) (D.image disk.old)) }
    ensures cause { HasCause (D.fault_count disk.old) (D.fault_count disk.new) result }
{
    write_gate(disk, end, 0)?;
    write_gate(disk, 0, 1)
}

/// Cuts the disk at an offset, and puts a closed gate there.
pub(crate) fn repair<D: Disk>(disk: &mut D, offset: u64) -> Result<(), Failed>
    requires offset { (b : List ℕ) → GivesBytes D.told disk.old b → offset ≤ length b }
    requires fixed { Within (GivesBytes D.told disk.old) (D.image disk.old) }
    ensures closed { OnOk result (Within (IsClosed offset (GivesBytes D.told disk.old)) (D.image disk.new)) }
    ensures tells { TellsAlike (D.told disk.old) (D.told disk.new) }
    ensures any_moment { LeavesOnly D.time D.image_since disk.old disk.new (IsCutBack offset (D.image disk.old)) }
    ensures cause { HasCause (D.fault_count disk.old) (D.fault_count disk.new) result }
{
    disk.cut(offset)?;
    // The cut has to be on the disk first: after a gate that is torn open, what was there would count.
    disk.sync()?;
    disk.write_at(offset, &[0])?;
    disk.sync()
}

/// Makes the gate at an offset a closed one, if it isn't a 0.
pub(crate) fn close_end<D: Disk>(disk: &mut D, offset: u64) -> Result<(), Failed>
    requires offset { (b : List ℕ) → GivesBytes D.told disk.old b → offset ≤ length b }
    requires fixed { Within (GivesBytes D.told disk.old) (D.image disk.old) }
    ensures closed { OnOk result (Within (IsClosed offset (GivesBytes D.told disk.old)) (D.image disk.new)) }
    ensures tells { TellsAlike (D.told disk.old) (D.told disk.new) }
    ensures any_moment { LeavesOnly D.time D.image_since disk.old disk.new (IsCutBack offset (D.image disk.old)) }
    ensures cause { HasCause (D.fault_count disk.old) (D.fault_count disk.new) result }
{
    let mut gate = [1];
    let number = disk.read_at(offset, &mut gate)?;
    if number == 1 && gate[0] == 0 {
        return Ok(());
    }
    repair(disk, offset)
}

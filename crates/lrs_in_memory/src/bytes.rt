ghost use Rattle.std.specs.Prelude.{◌≡◌, ◌≤◌, ◌+◌, length, take, sum_by, vec_capacity, IfOk, OnOk, IsOk};
ghost use Rattle.lrs_disk.specs.Disk.{written};
ghost use Rattle.lrs_in_memory.specs.Steps.{read_after, image_after, torn_write, torn_cut, crash_image};
ghost use Rattle.lrs_in_memory.specs.Calls.{steps, step_of};

use crate::call::{Act, Call, Pending};
use std::alloc::{AllocError, Global};

// Writes over what is there, and past the end. With room for it, no memory is taken.
pub(crate) fn overwrite(bytes: &mut Vec<u8>, offset: u64, piece: &[u8]) -> Result<(), AllocError>
    ensures written { OnOk result (bytes.new.items ≡ written bytes.old.items offset piece.now) }
    ensures capacity { vec_capacity bytes.old ≤ vec_capacity bytes.new }
    ensures room { offset ≤ length bytes.old.items → offset + length piece.now ≤ vec_capacity bytes.old → IsOk result }
{
    let offset = offset.min(bytes.len() as u64) as usize;
    if piece.len() <= bytes.len() - offset {
        bytes[offset..offset + piece.len()].copy_from_slice(piece);
        return Ok(());
    }
    bytes.truncate(offset);
    bytes.extend_from_slice(piece)
}

// What a read gives after a call.
fn read_on(read: &mut Vec<u8>, call: Call, piece: &[u8]) -> Result<(), AllocError>
    ensures { OnOk result (read.new.items ≡ read_after (step_of call piece.now) read.old.items) }
{
    if call.failed {
        return Ok(());
    }
    match call.act {
        Act::Look => Ok(()),
        Act::Sync => Ok(()),
        Act::Cut { to } => {
            cut_back(read, to);
            Ok(())
        }
        Act::Write { offset } => overwrite(read, offset, piece),
    }
}

fn cut_back(bytes: &mut Vec<u8>, to: u64)
    ensures { bytes.new.items ≡ take to bytes.old.items }
{
    bytes.truncate(to as usize);
}

// What a crash leaves of a write.
fn tear(
    alloc: Global,
    left: &mut Vec<u8>,
    offset: u64,
    piece: &[u8],
    pending: Pending,
) -> Result<(), AllocError>
    ensures { OnOk result (left.new.items ≡ torn_write pending offset piece.now left.old.items) }
{
    if offset > left.len() as u64 {
        return Ok(());
    }
    match pending {
        Pending::Lost => Ok(()),
        Pending::Landed => overwrite(left, offset, piece),
        Pending::Torn(byte) => {
            let mut other = Vec::new(alloc);
            other.resize(piece.len(), byte)?;
            overwrite(left, offset, &other)
        }
    }
}

// What a crash leaves after a call.
fn leave(
    alloc: Global,
    left: &mut Vec<u8>,
    read: &[u8],
    call: Call,
    piece: &[u8],
    pending: Pending,
) -> Result<(), AllocError>
    ensures { OnOk result (left.new.items ≡ image_after pending (step_of call piece.now) read.now left.old.items) }
{
    match call.act {
        Act::Look => Ok(()),
        Act::Sync => {
            if call.failed {
                return Ok(());
            }
            left.clear();
            left.extend_from_slice(read)
        }
        Act::Cut { to } => {
            if pending != Pending::Lost {
                cut_back(left, to);
            }
            Ok(())
        }
        Act::Write { offset } => tear(alloc, left, offset, piece, pending),
    }
}

// What a crash leaves after these calls.
pub(crate) fn replay(
    alloc: Global,
    calls: &[Call],
    log: &[u8],
    first: &[u8],
    pending: Pending,
) -> Result<Vec<u8>, AllocError>
    requires { sum_by (λ (call : _). call.size) calls.now ≤ length log.now }
    ensures { IfOk result (λ v. v.items ≡ crash_image pending (steps calls.now log.now) first.now first.now) }
{
    let mut read = first.to_vec(alloc)?;
    let mut left = first.to_vec(alloc)?;
    let mut rest = log;
    for call in calls {
        let (piece, more) = rest.split_at(call.size);
        leave(alloc, &mut left, &read, *call, piece, pending)?;
        read_on(&mut read, *call, piece)?;
        rest = more;
    }
    Ok(left)
}

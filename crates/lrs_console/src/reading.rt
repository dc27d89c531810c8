ghost use Rattle.std.specs.Prelude.{◌≡◌, ◌≤◌, ◌<◌, ◌+◌, IfOk, IfErr, OnOk, vec_len, true, false};
ghost use Rattle.lrs_console.specs.Reading.{GivesOn, IsAtEnd, IsInput, IsNotInput, IsNoPiece, longest_input};

use lrs_disk::{Failed, Source};
use std::alloc::Global;
use xapi_statement::LONGEST_STATEMENT;

const PIECE: usize = 4_096;

/// Why an input is not taken.
#[derive(Clone, Copy, Debug, PartialEq, Eq)]
pub enum InputRefused {
    /// It has more bytes than a statement may.
    TooLong,
    /// A call of the input failed.
    Failed,
    /// Memory ran out.
    Memory,
}

impl From<Failed> for InputRefused {
    ghost use Rattle.std.specs.Prelude.{◌≡◌};
    ghost use Rattle.lrs_console.specs.declared.reading.InputRefused.TheVariants as refused;

    ghost from_gives = { λ failed result. result ≡ refused.Failed };

    fn from(_: Failed) -> InputRefused {
        InputRefused::Failed
    }
}

// Reads a piece after the bytes, and no further than one byte too much. It answers whether there was one.
fn read_piece<I: Source>(input: &mut I, bytes: &mut Vec<u8>) -> Result<bool, InputRefused>
    requires { vec_len bytes.old ≤ longest_input }
    ensures given { OnOk result (GivesOn bytes.old.items bytes.new.items (I.left input.old) (I.left input.new)) }
    ensures more { IfOk result (λ more. more ≡ true → vec_len bytes.old < vec_len bytes.new) }
    ensures most { vec_len bytes.new ≤ longest_input + 1 }
    ensures end { IfOk result (λ more. more ≡ false → IsAtEnd (I.left input.old)
        × (bytes.new.items ≡ bytes.old.items)) }
    ensures refused { IfErr result (IsNoPiece (I.fault_count input.old) (I.fault_count input.new)) }
    ensures kept { OnOk result (I.fault_count input.new ≡ I.fault_count input.old) }
    ensures later { I.fault_count input.old ≤ I.fault_count input.new }
{
    let mut piece = [0; PIECE];
    let most = PIECE.min(LONGEST_STATEMENT + 1 - bytes.len());
    let read = input.read(&mut piece[..most])?;
    if bytes.extend_from_slice(&piece[..read]).is_err() {
        return Err(InputRefused::Memory);
    }
    Ok(read > 0)
}

/// Reads the input to its end, or one byte further than an input may be long.
pub(crate) fn read_input<I: Source>(alloc: Global, input: &mut I) -> Result<Vec<u8>, InputRefused>
    ensures whole { IfOk result (λ bytes. IsInput bytes.items (I.left input.old)) }
    ensures refused { IfErr result (IsNotInput (I.left input.old) (I.left input.new) (I.fault_count input.old)
        (I.fault_count input.new)) }
    ensures kept { OnOk result (I.fault_count input.new ≡ I.fault_count input.old) }
    ensures later { I.fault_count input.old ≤ I.fault_count input.new }
{
    let mut bytes = Vec::new(alloc);
    while bytes.len() <= LONGEST_STATEMENT {
        if !read_piece(input, &mut bytes)? {
            return Ok(bytes);
        }
    }
    Err(InputRefused::TooLong)
}

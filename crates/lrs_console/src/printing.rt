ghost use Rattle.std.specs.Prelude.{◌≡◌, ◌<◌, ◌≤◌, ◌++◌, length, option_map, OnOk, OnErr, IfOk};
ghost use Rattle.lrs_disk.specs.Faults.{HasCause};
ghost use Rattle.lrs_console.specs.Endings.{ending_status, ending_line};
ghost use Rattle.lrs_console.specs.Printing.{Prints, TakesPart, TakesUpTo};

use crate::Ending;
use lrs_disk::{Failed, Sink};

// Writes a piece of the bytes from an offset on, and gives the offset after it.
fn print_from<O: Sink>(out: &mut O, bytes: &[u8], done: usize) -> Result<usize, Failed>
    requires { done < length bytes.now }
    ensures more { IfOk result (λ offset. (done < offset) × (offset ≤ length bytes.now)) }
    ensures taken { IfOk result (λ offset. TakesUpTo bytes.now done offset (O.taken out.old) (O.taken out.new)) }
    ensures failed { OnErr result (O.taken out.new ≡ O.taken out.old) }
    ensures cause { HasCause (O.fault_count out.old) (O.fault_count out.new) result }
{
    Ok(done + out.write(&bytes[done..])?)
}

// Writes the bytes to their end. If the sink fails nothing more is written.
fn print<O: Sink>(out: &mut O, bytes: &[u8]) -> Result<(), Failed>
    ensures whole { OnOk result (O.taken out.new ≡ option_map (λ taken. taken ++ bytes.now) (O.taken out.old)) }
    ensures part { OnErr result (TakesPart bytes.now (O.taken out.old) (O.taken out.new)) }
    ensures cause { HasCause (O.fault_count out.old) (O.fault_count out.new) result }
{
    let mut done = 0;
    while done < bytes.len() {
        done = print_from(out, bytes, done)?;
    }
    Ok(())
}

/// Prints the ending's line, and gives the status with which the program ends.
pub fn finish<O: Sink>(out: &mut O, ending: Ending) -> u8
    ensures { Prints (ending_status ending) (ending_line ending) (O.taken out.old) (O.taken out.new)
        (O.fault_count out.old) (O.fault_count out.new) result }
{
    let status = ending.status();
    match print(out, ending.line().as_slice()) {
        Ok(()) => status,
        Err(Failed) if status == 0 => 7,
        Err(Failed) => status,
    }
}

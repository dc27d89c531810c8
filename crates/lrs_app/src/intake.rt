// One statement of the input, kept in a store.
ghost use Rattle.std.specs.Prelude.{◌≡◌, List, ℕ, false};
ghost use Rattle.lrs_journal.specs.Journal.{IsSynced};
ghost use Rattle.lrs_json.specs.Fits.{IsReadable};
ghost use Rattle.lrs_json.specs.View.{view};
ghost use Rattle.lrs_json.specs.declared.limits.TheConstants.{DEPTH};
ghost use Rattle.lrs_hall.specs.LrsFoldOwn.{IsOfPut, MayRefusePut};
ghost use Rattle.lrs_hall.specs.LrsMachineDesk.{history};
ghost use Rattle.lrs_hall.specs.LrsMachineLine.{in_doubt};
ghost use Rattle.lrs_console.specs.Reading.{ForInput};
ghost use Rattle.lrs_console.specs.Asking.{EndsSaying, EndsRefused, put_answer};
ghost use Rattle.lrs_app.specs.Disks.{taken_now};
ghost use Rattle.lrs_app.specs.ClosingSteps.{ClosesTaken};
ghost use Rattle.lrs_app.specs.Steps.{DoubtsOnly, Continues, IsOpened, Submits, HasPutCause, HasCauses, ending_of, ending_of_trouble};
ghost use Rattle.lrs_app.specs.Run.{EndsOpened, IntakeEnds, HasEndingCause};

use lrs_console::{Ending, take_statement};
use lrs_disk::{Disk, Source};
use lrs_hall::{Answered, Desk, DeskRefused, Refusal, Trouble};
use lrs_json::Tree;
use lrs_names::{Draw, Id};
use std::alloc::Global;

// How a command ends to which the store says this, under this id.
fn ending_saying(id: &Id, answered: Answered) -> Ending
    requires { IsOfPut answered }
    ensures said { EndsSaying id.now answered result }
    ensures cause { (count : ℕ) → HasPutCause count count result }
{
    match answered {
        Answered::Kept => Ending::Kept(*id),
        Answered::Same => Ending::Kept(*id),
        Answered::Shown {
            text: _,
            through: _,
        } => unreachable!(),
        Answered::Document { media: _, bytes: _ } => unreachable!(),
        Answered::Refused(refusal) => ending_refused(refusal),
    }
}

fn ending_refused(refusal: Refusal) -> Ending
    requires { MayRefusePut refusal }
    ensures said { EndsRefused refusal result }
    ensures cause { (count : ℕ) → HasPutCause count count result }
{
    match refusal {
        Refusal::Conflict(held) => Ending::Conflict(held),
        Refusal::Full { need, limit } => Ending::Full { need, limit },
        Refusal::Broken(rule) => Ending::Refused(rule),
        Refusal::TooLong => Ending::TooLong,
        Refusal::Forbidden(rule) => Ending::Refused(rule),
        Refusal::Unauthorized => unreachable!(),
        Refusal::NotFound => unreachable!(),
    }
}

// Puts a statement as the operator.
fn submit<D: Disk>(desk: &mut Desk<D>, id: &Id, statement: Tree, clock: u64, draw: &Draw) -> Ending
    requires settled { in_doubt desk.old.line ≡ false }
    requires readable { IsReadable DEPTH (view statement) }
    ensures ends { Submits (history desk.old) id.now
        (put_answer desk.old.limit (history desk.old) clock draw.now id.now statement) (history desk.new) result }
    ensures doubts { DoubtsOnly desk.old desk.new result }
    ensures goes_on { Continues D.Disk desk.old desk.new }
    ensures cause { HasPutCause (D.fault_count desk.old.disk) (D.fault_count desk.new.disk) result }
{
    match desk.put(*id, statement, clock, draw).0 {
        Ok(answered) => ending_saying(id, answered),
        Err(trouble) => troubled(trouble),
    }
}

/// How a command ends that meets trouble.
pub(crate) fn troubled(trouble: Trouble) -> Ending
    ensures { result ≡ ending_of_trouble trouble }
{
    match trouble {
        Trouble::Memory => Ending::Memory,
        Trouble::Disk => Ending::DiskFault,
    }
}

// Does what the input asks, over an open desk.
fn take_in<D: Disk, I: Source>(
    alloc: Global,
    desk: &mut Desk<D>,
    input: &mut I,
    clock: u64,
    draw: &Draw,
) -> Ending
    requires opened { IsOpened D.Disk desk.old }
    ensures ends { ForInput (I.left input.old) (λ bytes. EndsOpened desk.old.limit (history desk.old)
        (history desk.new) bytes clock draw.now result) }
    ensures doubts { DoubtsOnly desk.old desk.new result }
    ensures goes_on { Continues D.Disk desk.old desk.new }
    ensures cause { HasCauses (D.fault_count desk.old.disk) (D.fault_count desk.new.disk) (I.fault_count input.old)
        (I.fault_count input.new) result }
{
    match take_statement(alloc, input) {
        Ok((id, statement)) => submit(desk, &id, statement, clock, draw),
        Err(ending) => ending,
    }
}

// Takes a statement in over an open desk, and closes it.
fn intake_opened<D: Disk, I: Source>(
    alloc: Global,
    desk: Desk<D>,
    input: &mut I,
    clock: u64,
    draw: &Draw,
) -> (Ending, D, u64)
    requires opened { IsOpened D.Disk desk }
    ensures ends { ClosesTaken D.Disk desk result.1 (I.left input.old) clock draw.now result.2 result.0 }
    ensures cause { HasEndingCause (D.fault_count desk.disk) (D.fault_count result.1) (I.fault_count input.old)
        (I.fault_count input.new) result.0 }
{
    let mut desk = desk;
    let ending = take_in(alloc, &mut desk, input, clock, draw);
    let length = desk.length();
    match desk.close() {
        Ok(disk) => (ending, disk, length),
        Err((_, disk)) => (Ending::DiskFault, disk, length),
    }
}

/// How a command ends if no store is opened.
pub(crate) fn unopened(refused: DeskRefused) -> Ending
    ensures { result ≡ ending_of refused }
{
    match refused {
        DeskRefused::NotAStore => Ending::NotAStore,
        DeskRefused::OldFormat => Ending::OldFormat,
        DeskRefused::Damaged { k } => Ending::Damaged { k },
        DeskRefused::IllegalEntry { k } => Ending::Damaged { k },
        DeskRefused::Failed => Ending::DiskFault,
        DeskRefused::Memory => Ending::Memory,
    }
}

/// Takes a statement in over a disk. The number is that of the history's entries, or 0 if no store was opened.
pub(crate) fn intake_disk<D: Disk, I: Source>(
    alloc: Global,
    disk: D,
    input: &mut I,
    clock: u64,
    draw: &Draw,
) -> (Ending, D, u64)
    requires settled { IsSynced D.told D.image disk }
    ensures ends { IntakeEnds D.Disk (taken_now D.Disk disk) result.1 (I.left input.old) clock draw.now result.2
        result.0 }
    ensures cause { HasEndingCause (D.fault_count disk) (D.fault_count result.1) (I.fault_count input.old)
        (I.fault_count input.new) result.0 }
{
    match Desk::recover(alloc, disk) {
        Ok(desk) => intake_opened(alloc, desk, input, clock, draw),
        Err((refused, disk)) => (unopened(refused), disk, 0),
    }
}

// The statements of a seed, posted in batches.
ghost use Rattle.std.specs.Prelude.{◌≡◌, ◌<◌, ◌+◌, ◌^◌, List, ℕ, map, false, IfErr, IfOk, OnOk, MatchResult};
ghost use Rattle.lrs_journal.specs.Journal.{IsSynced};
ghost use Rattle.lrs_json.specs.View.{view};
ghost use Rattle.lrs_record.specs.Entries.{AreLawfulTrees};
ghost use Rattle.lrs_generator.specs.Generated.{batch, batch_count};
ghost use Rattle.lrs_hall.specs.Serving.{AddsReadings};
ghost use Rattle.lrs_hall.specs.LrsMachineDesk.{history};
ghost use Rattle.lrs_hall.specs.LrsMachineLine.{in_doubt};
ghost use Rattle.lrs_app.specs.Disks.{taken_now};
ghost use Rattle.lrs_app.specs.Load.{EndsLoad, EndsLoadRefused, GoesOnLoading, post_answer};
ghost use Rattle.lrs_app.specs.LoadSteps.{ClosesReading, EndsBatch, EndsNext, IsLoaded, IsMet, IsOfBatch, SaysOfBatch, TakesBatch, TakesNext};
ghost use Rattle.lrs_app.specs.Steps.{Continues, HasPutCause, IsOpened};
ghost use Rattle.lrs_app.specs.Service.{doors};
ghost use Rattle.lrs_app.specs.Run.{HasEndingCause, LoadEnds};

use crate::intake::{troubled, unopened};
use lrs_console::Ending;
use lrs_disk::{Disk, Lobby};
use lrs_generator::{BATCH, Generator};
use lrs_hall::{Answered, Desk, Draws, Refusal};
use lrs_json::{Items, Memory, Tree};
use lrs_names::Draw;
use std::alloc::Global;

fn refused(refusal: Refusal) -> Ending
    requires { IsMet refusal }
    ensures met { EndsLoadRefused refusal result }
    ensures cause { (count : ℕ) → HasPutCause count count result }
{
    match refusal {
        Refusal::Conflict(held) => Ending::Conflict(held),
        Refusal::Full { need, limit } => Ending::Full { need, limit },
        Refusal::Broken(_) => unreachable!(),
        Refusal::TooLong => unreachable!(),
        Refusal::Forbidden(_) => unreachable!(),
        Refusal::Unauthorized => unreachable!(),
        Refusal::NotFound => unreachable!(),
    }
}

// Whether the loading goes on behind what the store says to a batch.
fn going_on(answered: Answered) -> Result<(), Ending>
    requires { IsOfBatch answered }
    ensures said { MatchResult result (λ _. GoesOnLoading answered) (λ end. EndsLoad answered end) }
    ensures cause { IfErr result (λ end. (count : ℕ) → HasPutCause count count end) }
{
    match answered {
        Answered::Kept => Ok(()),
        Answered::Same => Ok(()),
        Answered::Shown {
            text: _,
            through: _,
        } => Ok(()),
        Answered::Document { media: _, bytes: _ } => Ok(()),
        Answered::Refused(refusal) => Err(refused(refusal)),
    }
}

// Posts a batch as the operator.
fn post_batch<D: Disk>(
    desk: &mut Desk<D>,
    statements: Items<Tree>,
    clock: u64,
    draw: &Draw,
) -> Result<(), Ending>
    requires settled { in_doubt desk.old.line ≡ false }
    requires lawful { AreLawfulTrees statements }
    requires known { let a = post_answer desk.old.limit (history desk.old) clock draw.now statements in
        SaysOfBatch a.said a.entry }
    ensures ends { let a = post_answer desk.old.limit (history desk.old) clock draw.now statements in
        MatchResult result (λ _. TakesBatch D.Disk a desk.old desk.new)
        (λ end. EndsBatch D.Disk a desk.old desk.new end) }
    ensures goes_on { Continues D.Disk desk.old desk.new }
{
    match desk.post(statements, clock, draw).0 {
        Ok(answered) => going_on(answered),
        Err(trouble) => Err(troubled(trouble)),
    }
}

// Before the first batch.
fn generator_of(seed: u64, count: u32) -> Generator
    ensures seed { (result.seed ≡ seed) × (seed < 2 ^ 64) }
    ensures count { (result.count ≡ count) × (count < 2 ^ 32) }
    ensures first { result.taken ≡ 0 }
{
    Generator::new(seed, count)
}

// Makes the next batch.
fn next_statements(alloc: Global, generator: &mut Generator) -> Result<Items<Tree>, Memory>
    requires { generator.old.taken < batch_count generator.old.count }
    ensures made { IfOk result (λ statements.
        map view statements ≡ batch generator.old.seed generator.old.count generator.old.taken) }
    ensures moved { OnOk result ((generator.new.seed ≡ generator.old.seed) × (generator.new.count ≡ generator.old.count)
        × (generator.new.taken ≡ generator.old.taken + 1)) }
{
    match generator.next_batch(alloc) {
        Ok(Some(statements)) => Ok(statements),
        Ok(None) => unreachable!(),
        Err(refused) => Err(refused),
    }
}

// Makes the next batch and posts it, with a reading of the clock and a draw of its own.
fn load_next<D: Disk, B: Lobby>(
    alloc: Global,
    desk: &mut Desk<D>,
    lobby: &mut B,
    generator: &mut Generator,
    draws: &mut Draws,
) -> Result<(), Ending>
    requires settled { in_doubt desk.old.line ≡ false }
    requires left { generator.old.taken < batch_count generator.old.count }
    requires seed { generator.old.seed < 2 ^ 64 }
    requires count { generator.old.count < 2 ^ 32 }
    ensures next { MatchResult result
        (λ _. TakesNext D.Disk generator.old.seed generator.old.count generator.old.taken desk.old desk.new draws.old
        draws.new (B.readings lobby.old) (B.readings lobby.new))
        (λ end. EndsNext D.Disk generator.old.seed generator.old.count generator.old.taken desk.old desk.new draws.old
        (B.readings lobby.old) (B.readings lobby.new) end) }
    ensures moved { OnOk result ((generator.new.seed ≡ generator.old.seed) × (generator.new.count ≡ generator.old.count)
        × (generator.new.taken ≡ generator.old.taken + 1)) }
    ensures doors { doors B.Lobby lobby.new ≡ doors B.Lobby lobby.old }
{
    match next_statements(alloc, generator) {
        Ok(statements) => {
            let clock = lobby.now();
            let draw = draws.next();
            post_batch(desk, statements, clock, &draw)
        }
        Err(Memory) => Err(Ending::Memory),
    }
}

// How many batches so many statements make.
fn batches_of(count: u32) -> u64
    ensures { result ≡ batch_count count }
{
    (u64::from(count) + u64::from(BATCH) - 1) / u64::from(BATCH)
}

// Posts all batches.
fn load_batches<D: Disk, B: Lobby>(
    alloc: Global,
    desk: &mut Desk<D>,
    lobby: &mut B,
    seed: u64,
    count: u32,
    draws: &mut Draws,
) -> Ending
    requires settled { in_doubt desk.old.line ≡ false }
    ensures loaded { IsLoaded D.Disk seed count desk.old desk.new draws.old (B.readings lobby.old)
        (B.readings lobby.new) result }
    ensures doors { doors B.Lobby lobby.new ≡ doors B.Lobby lobby.old }
{
    let mut generator = generator_of(seed, count);
    let mut left = batches_of(count);
    while left > 0 {
        match load_next(alloc, desk, lobby, &mut generator, draws) {
            Ok(()) => {}
            Err(ending) => return ending,
        }
        left -= 1;
    }
    Ending::Loaded {
        statements: count,
        listed: desk.listed(),
    }
}

// Posts all batches over an open desk, and closes it.
fn load_opened<D: Disk, B: Lobby>(
    alloc: Global,
    desk: Desk<D>,
    lobby: &mut B,
    seed: u64,
    count: u32,
    draws: &mut Draws,
) -> (Ending, D, u64)
    requires opened { IsOpened D.Disk desk }
    ensures ends { ClosesReading D.Disk desk result.1 seed count draws.old (B.readings lobby.old) (B.readings lobby.new)
        result.2 result.0 }
    ensures cause { HasEndingCause (D.fault_count desk.disk) (D.fault_count result.1) 0 0 result.0 }
    ensures doors { doors B.Lobby lobby.new ≡ doors B.Lobby lobby.old }
{
    let mut desk = desk;
    let ending = load_batches(alloc, &mut desk, lobby, seed, count, draws);
    let length = desk.length();
    match desk.close() {
        Ok(disk) => (ending, disk, length),
        Err((_, disk)) => (Ending::DiskFault, disk, length),
    }
}

/// Loads the statements of a seed over a disk. The number is that of the history's entries, or 0 if no store was
/// opened.
pub(crate) fn load_disk<D: Disk, B: Lobby>(
    alloc: Global,
    disk: D,
    lobby: &mut B,
    seed: u64,
    count: u32,
    draws: &mut Draws,
) -> (Ending, D, u64)
    requires settled { IsSynced D.told D.image disk }
    ensures ends { (clocks : List ℕ) × AddsReadings (B.readings lobby.old) (B.readings lobby.new) clocks
        × LoadEnds D.Disk (taken_now D.Disk disk) result.1 seed count draws.old clocks result.2 result.0 }
    ensures cause { HasEndingCause (D.fault_count disk) (D.fault_count result.1) 0 0 result.0 }
    ensures doors { doors B.Lobby lobby.new ≡ doors B.Lobby lobby.old }
{
    match Desk::recover(alloc, disk) {
        Ok(desk) => load_opened(alloc, desk, lobby, seed, count, draws),
        Err((refused, disk)) => (unopened(refused), disk, 0),
    }
}

ghost use Rattle.std.specs.Prelude.{◌≡◌, ◌≤◌, [], IfOk, IfSome, MatchOption};
ghost use Rattle.lrs_hall.specs.Draws.{draw_at, start_of};
ghost use Rattle.lrs_hall.specs.LrsFoldOwn.{founding_entry};
ghost use Rattle.lrs_journal.specs.Journal.{IsSynced};
ghost use Rattle.lrs_journal.specs.Store.{IsLimit};
ghost use Rattle.lrs_parts.specs.Founding.{IsToken, IsBase};
ghost use Rattle.lrs_command_line.specs.CommandLine.{CommandLine, IsCommandLine};
ghost use Rattle.lrs_command_line.specs.Shapes.{Denotes};
ghost use Rattle.lrs_app.specs.Due.{EndsAsDue};
ghost use Rattle.lrs_app.specs.Doing.{InitDoes, IntakeDoes, IsUndone, LoadDoes, MigrateDoes, ServeDoes};
ghost use Rattle.lrs_app.specs.Service.{doors};
ghost use Rattle.lrs_app.specs.Run.{CommandRuns, InitRuns, IntakeRuns, LoadRuns, MigrateRuns, PrintsLine, Runs, ServeRuns, outside};
ghost use Rattle.lrs_app.specs.Steps.{DenotesInRange};
ghost use Rattle.lrs_turn.specs.declared.turns.TheConstants.{MOST_PASSES};

use crate::init::init_disk;
use crate::intake::intake_disk;
use crate::load::load_disk;
use crate::migrate::migrate_disks;
use crate::serve::{count_responses, serve_disk};
use lrs_command_line::{ProgramCommand, read_words};
use lrs_console::{Ending, finish};
use lrs_disk::{Disk, Door, Failed, Lobby, Shelf, Sink, Source};
use lrs_hall::{Draws, Talk};
use lrs_json::{Items, Memory, Text};
use lrs_names::Draw;
use std::alloc::Global;
use std::sync::Wait;
use std::thread::Threads;

/// What a run tells of itself.
#[derive(Drop)]
pub struct Report {
    /// The conversations that each worker served, in their order.
    pub talks: Items<Items<Talk>>,
    /// The number of their responses.
    pub responses: u64,
    /// The number of entries of the final history, or 0 if no store was opened.
    pub length: u64,
}

// What a run tells that served no connection.
fn silent(alloc: Global, length: u64) -> Report
    ensures talks { result.talks ≡ [] }
    ensures responses { result.responses ≡ 0 }
    ensures length { result.length ≡ length }
{
    Report {
        talks: Items::new(alloc),
        responses: 0,
        length,
    }
}

/// How a run ended.
#[derive(Drop)]
pub struct Ended<D> {
    /// The status with which the program ends.
    pub status: u8,
    /// The disk that was taken, if one was. Of `migrate` it is that of the new store.
    pub disk: Option<D>,
    /// The disk of the old store, if `migrate` took it.
    pub old: Option<D>,
    pub report: Report,
}

// What a command did, before its line is printed.
#[derive(Drop)]
struct Done<D> {
    ending: Ending,
    disk: Option<D>,
    old: Option<D>,
    report: Report,
}

// Nothing was done: there was no command, or no disk.
fn undone<D>(alloc: Global, ending: Ending) -> Done<D>
    ensures { IsUndone ending result }
{
    Done {
        ending,
        disk: None,
        old: None,
        report: silent(alloc, 0),
    }
}

// Ends a run by its line.
fn end_run<D, O: Sink>(out: &mut O, done: Done<D>) -> Ended<D>
    ensures printed { PrintsLine O.Sink done.ending out.old out.new result.status }
    ensures disk { result.disk ≡ done.disk }
    ensures old { result.old ≡ done.old }
    ensures report { result.report ≡ done.report }
{
    let Done {
        ending,
        disk,
        old,
        report,
    } = done;
    Ended {
        status: finish(out, ending),
        disk,
        old,
        report,
    }
}

// Takes a statement in over the file's disk.
fn intake<D: Disk, I: Source>(
    alloc: Global,
    taken: Result<D, Failed>,
    input: &mut I,
    clock: u64,
    draw: &Draw,
) -> Done<D>
    requires { IfOk taken (λ disk. IsSynced D.told D.image disk) }
    ensures { IntakeDoes D.Disk I.Source taken clock draw.now input.old input.new result }
{
    match taken {
        Ok(disk) => {
            let (ending, disk, length) = intake_disk(alloc, disk, input, clock, draw);
            Done {
                ending,
                disk: Some(disk),
                old: None,
                report: silent(alloc, length),
            }
        }
        Err(_) => undone(alloc, Ending::DiskFault),
    }
}

// Loads the statements of a seed over the file's disk.
fn load<D: Disk, B: Lobby>(
    alloc: Global,
    taken: Result<D, Failed>,
    lobby: &mut B,
    seed: u64,
    count: u32,
    draws: &mut Draws,
) -> Done<D>
    requires { IfOk taken (λ disk. IsSynced D.told D.image disk) }
    ensures loads { LoadDoes D.Disk B.Lobby taken seed count draws.old lobby.old lobby.new result }
    ensures doors { doors B.Lobby lobby.new ≡ doors B.Lobby lobby.old }
{
    match taken {
        Ok(disk) => {
            let (ending, disk, length) = load_disk(alloc, disk, lobby, seed, count, draws);
            Done {
                ending,
                disk: Some(disk),
                old: None,
                report: silent(alloc, length),
            }
        }
        Err(_) => undone(alloc, Ending::DiskFault),
    }
}

// Makes a store on the file's disk.
fn init<D: Disk>(
    alloc: Global,
    taken: Result<D, Failed>,
    admin: &Text,
    base: &Text,
    limit: u64,
    clock: u64,
) -> Done<D>
    requires settled { IfOk taken (λ disk. IsSynced D.told D.image disk) }
    requires limit { IsLimit limit }
    requires admin { IsToken admin.now }
    requires base { IsBase base.now }
    ensures { InitDoes D.Disk taken limit (founding_entry admin.now base.now clock) result }
{
    match taken {
        Ok(disk) => {
            let (ending, disk, length) = init_disk(alloc, disk, admin, base, limit, clock);
            Done {
                ending,
                disk: Some(disk),
                old: None,
                report: silent(alloc, length),
            }
        }
        Err(_) => undone(alloc, Ending::DiskFault),
    }
}

// Serves over the file's disk.
fn serve<R: Threads + Wait + Sync, D: Disk + Send, B: Lobby>(
    rt: &R,
    alloc: Global,
    taken: Result<D, Failed>,
    lobby: &mut B,
    address: &Text,
    workers: u32,
    connections: u32,
    seed: [u8; 32],
) -> Done<D>
where
    <B::Door as Door>::Link: Send,
    requires workers { (1 ≤ workers) × (workers ≤ MOST_PASSES) }
    requires settled { IfOk taken (λ disk. IsSynced D.told D.image disk) }
    ensures serves { ServeDoes D.Disk B.Lobby taken address.now workers connections seed lobby.old lobby.new result }
    ensures readings { B.readings lobby.new ≡ B.readings lobby.old }
{
    match taken {
        Ok(disk) => {
            let service = serve_disk(rt, alloc, disk, lobby, address, workers, connections, seed);
            let responses = count_responses(service.talks.as_slice());
            Done {
                ending: service.ending,
                disk: Some(service.disk),
                old: None,
                report: Report {
                    talks: service.talks,
                    responses,
                    length: service.length,
                },
            }
        }
        Err(_) => undone(alloc, Ending::DiskFault),
    }
}

// Moves the store of the first disk to the second.
fn migrate<D: Disk>(alloc: Global, old: D, taken: Result<D, Failed>, limit: Option<u64>) -> Done<D>
    requires old { IsSynced D.told D.image old }
    requires settled { IfOk taken (λ disk. IsSynced D.told D.image disk) }
    requires limit { IfSome limit IsLimit }
    ensures { MigrateDoes D.Disk old taken limit result }
{
    match taken {
        Ok(new) => {
            let moved = migrate_disks(alloc, old, new, limit);
            Done {
                ending: moved.ending,
                disk: Some(moved.new),
                old: Some(moved.old),
                report: silent(alloc, moved.length),
            }
        }
        Err(_) => Done {
            ending: Ending::DiskFault,
            disk: None,
            old: Some(old),
            report: silent(alloc, 0),
        },
    }
}

// ---- a command, from its file to its line

fn run_init<S: Shelf, B: Lobby, I: Source, O: Sink>(
    alloc: Global,
    file: &Text,
    admin: &Text,
    base: &Text,
    limit: u64,
    shelf: &mut S,
    lobby: &mut B,
    input: &I,
    out: &mut O,
) -> Ended<S::Disk>
    requires limit { IsLimit limit }
    requires admin { IsToken admin.now }
    requires base { IsBase base.now }
    ensures { let seen = outside S.Shelf B.Lobby I.Source O.Sink in InitRuns S.Disk.Disk file.now admin.now base.now
        limit
        (seen shelf.old lobby.old input.now out.old) (seen shelf.new lobby.new input.now out.new) result }
{
    let clock = lobby.now();
    let taken = shelf.take(file.as_str());
    end_run(out, init(alloc, taken, admin, base, limit, clock))
}

// The first draw of stream 0.
fn first_draw(seed: [u8; 32]) -> Draw
    ensures { result ≡ draw_at (start_of seed 0) }
{
    let mut draws = Draws::new(seed, 0);
    let draw = draws.next();
    drop(draws);
    draw
}

fn run_intake<S: Shelf, B: Lobby, I: Source, O: Sink>(
    alloc: Global,
    file: &Text,
    seed: [u8; 32],
    shelf: &mut S,
    lobby: &mut B,
    input: &mut I,
    out: &mut O,
) -> Ended<S::Disk>
    ensures { let seen = outside S.Shelf B.Lobby I.Source O.Sink in IntakeRuns S.Disk.Disk file.now
        (draw_at (start_of seed 0))
        (seen shelf.old lobby.old input.old out.old) (seen shelf.new lobby.new input.new out.new) result }
{
    let draw = first_draw(seed);
    let clock = lobby.now();
    let taken = shelf.take(file.as_str());
    end_run(out, intake(alloc, taken, input, clock, &draw))
}

fn run_serve<R: Threads + Wait + Sync, S: Shelf, B: Lobby, I: Source, O: Sink>(
    rt: &R,
    alloc: Global,
    file: &Text,
    address: &Text,
    workers: u32,
    connections: u32,
    seed: [u8; 32],
    shelf: &mut S,
    lobby: &mut B,
    input: &I,
    out: &mut O,
) -> Ended<S::Disk>
where
    S::Disk: Send,
    <B::Door as Door>::Link: Send,
    requires { (1 ≤ workers) × (workers ≤ MOST_PASSES) }
    ensures { let seen = outside S.Shelf B.Lobby I.Source O.Sink in ServeRuns S.Disk.Disk file.now address.now workers
        connections seed
        (seen shelf.old lobby.old input.now out.old) (seen shelf.new lobby.new input.now out.new) result }
{
    let taken = shelf.take(file.as_str());
    let done = serve(rt, alloc, taken, lobby, address, workers, connections, seed);
    end_run(out, done)
}

fn run_load<S: Shelf, B: Lobby, I: Source, O: Sink>(
    alloc: Global,
    file: &Text,
    number: u64,
    count: u32,
    seed: [u8; 32],
    shelf: &mut S,
    lobby: &mut B,
    input: &I,
    out: &mut O,
) -> Ended<S::Disk>
    ensures { let seen = outside S.Shelf B.Lobby I.Source O.Sink in LoadRuns S.Disk.Disk file.now number count
        (start_of seed 0)
        (seen shelf.old lobby.old input.now out.old) (seen shelf.new lobby.new input.now out.new) result }
{
    let taken = shelf.take(file.as_str());
    let mut draws = Draws::new(seed, 0);
    let done = load(alloc, taken, lobby, number, count, &mut draws);
    drop(draws);
    end_run(out, done)
}

fn run_migrate<S: Shelf, B: Lobby, I: Source, O: Sink>(
    alloc: Global,
    old: &Text,
    new: &Text,
    limit: Option<u64>,
    shelf: &mut S,
    lobby: &B,
    input: &I,
    out: &mut O,
) -> Ended<S::Disk>
    requires differ { old.now ≡ new.now → ⊥ }
    requires limit { IfSome limit IsLimit }
    ensures { let seen = outside S.Shelf B.Lobby I.Source O.Sink in MigrateRuns S.Disk.Disk old.now new.now limit
        (seen shelf.old lobby.now input.now out.old) (seen shelf.new lobby.now input.now out.new) result }
{
    match shelf.take(old.as_str()) {
        Ok(disk) => {
            let taken = shelf.take(new.as_str());
            end_run(out, migrate(alloc, disk, taken, limit))
        }
        Err(_) => end_run(out, undone(alloc, Ending::DiskFault)),
    }
}

fn run_command<R: Threads + Wait + Sync, S: Shelf, B: Lobby, I: Source, O: Sink>(
    rt: &R,
    alloc: Global,
    command: &ProgramCommand,
    shelf: &mut S,
    lobby: &mut B,
    input: &mut I,
    out: &mut O,
    seed: [u8; 32],
) -> Ended<S::Disk>
where
    S::Disk: Send,
    <B::Door as Door>::Link: Send,
    requires { DenotesInRange command.now }
    ensures { let seen = outside S.Shelf B.Lobby I.Source O.Sink in (line : CommandLine) → Denotes command.now line
        → CommandRuns S.Disk.Disk line seed
        (seen shelf.old lobby.old input.old out.old) (seen shelf.new lobby.new input.new out.new) result }
{
    match command {
        ProgramCommand::Init {
            file,
            admin,
            base,
            limit,
        } => run_init(alloc, file, admin, base, *limit, shelf, lobby, input, out),
        ProgramCommand::Intake { file } => run_intake(alloc, file, seed, shelf, lobby, input, out),
        ProgramCommand::Serve {
            file,
            address,
            workers,
            connections,
        } => run_serve(
            rt,
            alloc,
            file,
            address,
            *workers,
            *connections,
            seed,
            shelf,
            lobby,
            input,
            out,
        ),
        ProgramCommand::Load {
            file,
            seed: number,
            count,
        } => run_load(alloc, file, *number, *count, seed, shelf, lobby, input, out),
        ProgramCommand::Migrate { old, new, limit } => {
            run_migrate(alloc, old, new, *limit, shelf, lobby, input, out)
        }
    }
}

// Runs the command that was found in the words.
fn run_found<R: Threads + Wait + Sync, S: Shelf, B: Lobby, I: Source, O: Sink>(
    rt: &R,
    alloc: Global,
    _words: &[Text],
    found: &Option<ProgramCommand>,
    shelf: &mut S,
    lobby: &mut B,
    input: &mut I,
    out: &mut O,
    seed: [u8; 32],
) -> Ended<S::Disk>
where
    S::Disk: Send,
    <B::Door as Door>::Link: Send,
    requires { MatchOption found.now ((line : CommandLine) → IsCommandLine _words.now line → ⊥)
        (λ command. (line : CommandLine) × IsCommandLine _words.now line × Denotes command line) }
    ensures { let seen = outside S.Shelf B.Lobby I.Source O.Sink in Runs S.Disk.Disk _words.now seed
        (seen shelf.old lobby.old input.old out.old) (seen shelf.new lobby.new input.new out.new) result }
{
    match found {
        Some(command) => run_command(rt, alloc, command, shelf, lobby, input, out, seed),
        None => end_run(out, undone(alloc, Ending::Usage)),
    }
}

/// The program: all that it does with its words, over the outside.
///
/// `words` are the arguments after the program's name. `init FILE --admin TOKEN [--base URL] [--limit BYTES]` makes a
/// store. `intake FILE` keeps one statement of the input and prints its id. `load FILE SEED N` makes N statements of a
/// number, posts them in batches of 100, and prints N and how many statements the store lists then. `serve FILE ADDRESS
/// --workers W --connections N` serves N connections by each of W workers over HTTP and prints the number of their
/// responses. `migrate OLD NEW [--limit BYTES]` makes a store in NEW with the entries of that in OLD, which may have
/// either format, and prints their number. Every line is printed to `out`. The one draw of an intake is the first of
/// stream 0 under the seed, those of a load are the first ones; worker k, counted from 1, has those of stream k.
///
/// It may be stopped at any moment. Then the file holds the first entries of the final history: at least those from
/// before the run, and whatever a response without trouble promised. A stopped `init` leaves no store or the whole new
/// one, and so does `migrate` in NEW. Neither changes a file on which no store may be made, and OLD is only read.
pub fn run<R: Threads + Wait + Sync, S: Shelf, B: Lobby, I: Source, O: Sink>(
    rt: &R,
    alloc: Global,
    words: &[Text],
    shelf: &mut S,
    lobby: &mut B,
    input: &mut I,
    out: &mut O,
    seed: [u8; 32],
) -> Ended<S::Disk>
where
    S::Disk: Send,
    <B::Door as Door>::Link: Send,
    ensures runs { let seen = outside S.Shelf B.Lobby I.Source O.Sink in Runs S.Disk.Disk words.now seed
        (seen shelf.old lobby.old input.old out.old) (seen shelf.new lobby.new input.new out.new) result }
    ensures due { let seen = outside S.Shelf B.Lobby I.Source O.Sink in EndsAsDue S.Disk.Disk words.now seed
        (seen shelf.old lobby.old input.old out.old) (seen shelf.new lobby.new input.new out.new) result }
{
    match read_words(alloc, words) {
        Ok(found) => {
            let ended = run_found(rt, alloc, words, &found, shelf, lobby, input, out, seed);
            drop(found);
            ended
        }
        Err(Memory) => end_run(out, undone(alloc, Ending::Memory)),
    }
}

//! Runs over the outside in memory.
ghost use Rattle.std.specs.Prelude.{All, IfOk};
ghost use Rattle.lrs_in_memory.specs.Named.{IsSettled};
ghost use Rattle.lrs_in_memory_doors.specs.MemDoor.{IsUntouched};
ghost use Rattle.lrs_in_memory_doors.specs.MemLink.{IsUnusedLink};

use lrs_app::{Ended, Report, Talk, run};
use lrs_in_memory::{MemDisk, MemShelf};
use lrs_in_memory_doors::{MemDoor, MemLink, MemLobby, MemSink, MemSource};
use lrs_json::{Items, Text};
use std::alloc::Global;
use std::sync::Wait;
use std::test::Fail;
use std::thread::Threads;

const CLOCK: u64 = 1_700_000_000_000;

/// What is around a run.
#[derive(Clone, Copy)]
pub struct Around<'a> {
    /// What the file `s` holds, and the file `new`.
    pub stored: &'a [u8],
    pub new: &'a [u8],
    pub input: &'a [u8],
    /// What the connections of the first door bring, and where reads of them end.
    pub streams: &'a [&'a str],
    pub cuts: &'a [usize],
    /// What the one connection of each further door brings.
    pub others: &'a [String],
    /// How many calls a disk takes. All later ones fail.
    pub disk_calls: u64,
    /// The numbers of the calls that fail: of the disk of `s`, of that of `new`, of the input, and of the `next` of the
    /// first door and of each further one.
    pub disk_fails: &'a [u64],
    pub new_fails: &'a [u64],
    pub input_fails: &'a [u64],
    pub door_fails: &'a [u64],
    pub other_fails: &'a [u64],
    /// How many bytes the output takes.
    pub room: usize,
}

impl<'a> Around<'a> {
    /// An outside in which nothing fails.
    pub fn calm(stored: &'a [u8], input: &'a str, streams: &'a [&'a str]) -> Around<'a> {
        Around {
            stored,
            new: &[],
            input: input.as_bytes(),
            streams,
            cuts: &[],
            others: &[],
            disk_calls: 64,
            disk_fails: &[],
            new_fails: &[],
            input_fails: &[],
            door_fails: &[],
            other_fails: &[],
            room: 64,
        }
    }
}

/// What a run left.
#[derive(Drop)]
pub struct Ran {
    pub status: u8,
    pub length: u64,
    pub responses: u64,
    pub printed: Vec<u8>,
    /// The disk of the file, where it was taken, and that of the old store.
    pub disks: Vec<MemDisk>,
    pub olds: Vec<MemDisk>,
    /// The conversations of each worker.
    pub talks: Items<Items<Talk>>,
    /// What went out over the first connection of each door where one was served.
    pub sent: Vec<Vec<u8>>,
}

impl Ran {
    /// Whether the run ended with this status and line.
    pub fn ends(&self, status: u8, line: &str) -> bool {
        self.status == status && self.printed.as_slice() == line.as_bytes()
    }

    /// The first conversation of the first worker.
    pub fn talk(&self) -> Option<&Talk> {
        self.talks.as_slice().first()?.as_slice().first()
    }

    pub fn disk(&self) -> Option<&MemDisk> {
        self.disks.first()
    }

    /// What the file holds then, if it was taken.
    pub fn file(&self) -> Option<&[u8]> {
        Some(self.disks.first()?.bytes())
    }

    /// How many bytes that are.
    pub fn size(&self) -> usize {
        match self.file() {
            Some(file) => file.len(),
            None => 0,
        }
    }

    /// A copy of that.
    pub fn copy(&self, alloc: Global) -> Result<Vec<u8>, Fail> {
        match self.file() {
            Some(file) => Ok(file.to_vec(alloc)?),
            None => Err(Fail::from("no disk")),
        }
    }

    /// Whether the file was taken and holds this.
    pub fn leaves(&self, file: &[u8]) -> bool {
        self.file() == Some(file)
    }

    /// Whether this went out over the first connection of the first door.
    pub fn sends(&self, answers: &str) -> bool {
        match self.sent.first() {
            Some(sent) => sent.as_slice() == answers.as_bytes(),
            None => answers.is_empty(),
        }
    }
}

#[derive(Drop)]
struct World {
    shelf: MemShelf,
    lobby: MemLobby,
    input: MemSource,
    out: MemSink,
}

/// The words of a line. `''` is the empty word, and the empty line has no words.
pub fn words_of(alloc: Global, line: &str) -> Result<Vec<Text>, Fail> {
    let mut words = Vec::new(alloc);
    if line.is_empty() {
        return Ok(words);
    }
    for word in line.split(' ') {
        words.push(Text::of(alloc, if word == "''" { "" } else { word })?)?;
    }
    Ok(words)
}

/// Fails with this number.
pub fn wrong_at(alloc: Global, number: u64) -> Result<(), Fail> {
    Err(Fail::from(format!(in alloc; "{number}")?))
}

/// These texts, one after the other.
pub fn joined(alloc: Global, parts: &[&str]) -> Result<String, Fail> {
    let mut text = String::new(alloc);
    for part in parts {
        text.push_str(part)?;
    }
    Ok(text)
}

// A disk that holds this, and on which these calls fail.
fn disk(alloc: Global, around: &Around<'_>, stored: &[u8], failing: &[u64]) -> Result<MemDisk, Fail>
    ensures { IfOk result IsSettled }
{
    let stored = stored.to_vec(alloc)?;
    Ok(MemDisk::new(
        alloc,
        stored,
        failing.to_vec(alloc)?,
        around.disk_calls,
        1 << 20,
    )?)
}

fn shelf(alloc: Global, around: &Around<'_>) -> Result<MemShelf, Fail> {
    let name = String::from_str(alloc, "s")?;
    let other = String::from_str(alloc, "new")?;
    let stored = disk(alloc, around, around.stored, around.disk_fails)?;
    let new = disk(alloc, around, around.new, around.new_fails)?;
    let disks = vec![in alloc; (name, stored), (other, new)]?;
    Ok(MemShelf::new(disks, Vec::new(alloc), Vec::new(alloc)))
}

fn link(alloc: Global, stream: &str, cuts: &[usize]) -> Result<MemLink, Fail>
    ensures { IfOk result IsUnusedLink }
{
    let input = stream.as_bytes().to_vec(alloc)?;
    Ok(MemLink::new(alloc, input, cuts.to_vec(alloc)?, 4_096, Vec::new(alloc))?)
}

// A door whose connections bring these streams, and of which these calls fail.
fn door(
    alloc: Global,
    around: &Around<'_>,
    streams: &[&str],
    failing: &[u64],
) -> Result<MemDoor, Fail>
    ensures { IfOk result IsUntouched }
{
    let mut links = Vec::new(alloc);
    for stream in streams {
        links.push(link(alloc, stream, around.cuts)?)?;
    }
    let clock = vec![in alloc; CLOCK]?;
    Ok(MemDoor::new(alloc, links, clock, failing.to_vec(alloc)?)?)
}

// The first door, and one for each further stream.
fn doors(alloc: Global, around: &Around<'_>) -> Result<Vec<MemDoor>, Fail>
    ensures { IfOk result (λ doors. All IsUntouched doors.items) }
{
    let mut doors = vec![in alloc; door(alloc, around, around.streams, around.door_fails)?]?;
    for stream in around.others {
        doors.push(door(alloc, around, &[stream.as_str()], around.other_fails)?)?;
    }
    Ok(doors)
}

fn lobby(alloc: Global, around: &Around<'_>) -> Result<MemLobby, Fail> {
    let doors = doors(alloc, around)?;
    Ok(MemLobby::new(doors, vec![in alloc; CLOCK]?, Vec::new(alloc)))
}

fn source(alloc: Global, around: &Around<'_>) -> Result<MemSource, Fail> {
    let input = around.input.to_vec(alloc)?;
    Ok(MemSource::new(input, Vec::new(alloc), around.input_fails.to_vec(alloc)?))
}

fn outside(alloc: Global, around: &Around<'_>) -> Result<World, Fail> {
    let out = MemSink::new(alloc, around.room, Vec::new(alloc))?;
    let input = source(alloc, around)?;
    let lobby = lobby(alloc, around)?;
    let shelf = shelf(alloc, around)?;
    Ok(World {
        shelf,
        lobby,
        input,
        out,
    })
}

// What went out over the first connection of each of these doors.
fn sent(alloc: Global, doors: &[MemDoor]) -> Result<Vec<Vec<u8>>, Fail> {
    let mut sent = Vec::new(alloc);
    for door in doors {
        if let Some(link) = door.returned().first() {
            sent.push(link.taken().to_vec(alloc)?)?;
        }
    }
    Ok(sent)
}

fn run_in<R: Threads + Wait + Sync>(
    rt: &R,
    alloc: Global,
    words: &[Text],
    outside: &mut World,
) -> Result<Ran, Fail> {
    let mut disks = Vec::with_capacity(alloc, 1)?;
    let mut olds = Vec::with_capacity(alloc, 1)?;
    let Ended {
        status,
        disk,
        old,
        report,
    } = run(
        rt,
        alloc,
        words,
        &mut outside.shelf,
        &mut outside.lobby,
        &mut outside.input,
        &mut outside.out,
        [7; 32],
    );
    if let Some(disk) = disk {
        disks.push_reserved(disk);
    }
    if let Some(old) = old {
        olds.push_reserved(old);
    }
    let Report {
        talks,
        responses,
        length,
    } = report;
    let printed = outside.out.taken().to_vec(alloc)?;
    let sent = sent(alloc, outside.lobby.returned())?;
    Ok(Ran {
        status,
        length,
        responses,
        printed,
        disks,
        olds,
        talks,
        sent,
    })
}

/// Runs the words of a line with this around them.
pub fn run_over<R: Threads + Wait + Sync>(
    rt: &R,
    alloc: Global,
    line: &str,
    around: &Around<'_>,
) -> Result<Ran, Fail> {
    let words = words_of(alloc, line)?;
    let mut outside = outside(alloc, around)?;
    let ran = run_in(rt, alloc, words.as_slice(), &mut outside);
    drop(outside);
    ran
}

/// The file that a run leaves.
pub fn file_behind<R: Threads + Wait + Sync>(
    rt: &R,
    alloc: Global,
    line: &str,
    around: &Around<'_>,
) -> Result<Vec<u8>, Fail> {
    let ran = run_over(rt, alloc, line, around)?;
    let file = ran.copy(alloc);
    drop(ran);
    file
}

/// The bytes of a new store with this limit.
pub fn store<R: Threads + Wait + Sync>(
    rt: &R,
    alloc: Global,
    limit: &str,
) -> Result<Vec<u8>, Fail> {
    let line = format!(in alloc; "init s --admin adminadmin --limit {limit}")?;
    file_behind(rt, alloc, line.as_str(), &Around::calm(&[], "", &[]))
}

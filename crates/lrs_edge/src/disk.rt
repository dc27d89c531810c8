ghost use Rattle.std.specs.Prelude.{◌≡◌, ◌≤◌, ◌+◌, ◌-◌, ◌^◌, None, IsErr, min};
ghost use Rattle.lrs_disk.specs.Faults.{HasCause};

use crate::behind::WriteBehind;
use crate::faults::Faults;
use crate::file::{OWNER_ALONE, OptionalFile};
use crate::reports::report;
use crate::rooms::Rooms;
use lrs_disk::{Disk, Failed};
use std::alloc::Global;
use std::fs::{File, OpenOptions};
use std::io::{self, ErrorKind};
use std::os::unix::fs::OpenOptionsExt;
use std::path::Path;
use std::rt::Files;

// A name and its file, if there is one.
#[derive(Drop)]
pub(crate) struct Content<R> {
    rt: R,
    name: String,
    file: WriteBehind<OptionalFile>,
}

/// A file as a disk. A name that has no file reads as an empty one; the file is made when it is first written.
///
/// A small read reads `READ_AHEAD` bytes, from which later ones are answered until the disk is written, cut or synced.
/// If that isn't possible it reads what was asked for.
///
/// Writes that follow one another wait in `WRITE_BEHIND` bytes until the next call of another kind, a write elsewhere or
/// the end of that room, and are then written at once. If this fails, that call fails, and the bytes go on waiting. If
/// there is no memory for them they don't wait.
pub struct FileDisk<R: Files<File = File> + Eprint + Copy> {
    content: Content<R>,
    moment: u64,
    faults: Faults,
}

// What waits is written, unless a call has failed: then the file stays as that left it.
impl<R: Files<File = File> + Eprint + Copy> Drop for FileDisk<R> {
    fn drop(mut self) {
        if self.faults.count == 0 {
            let _ = self.flush();
        }
        let FileDisk {
            content: _,
            moment: _,
            faults: _,
        } = self;
    }
}

impl<R: Files<File = File> + Eprint + Copy> FileDisk<R> {
    ghost use Rattle.lrs_edge.specs.FileDisk.{moment_of, faults_of};

    pub(crate) fn new(content: Content<R>) -> Self
        ensures moment { moment_of result ≡ 0 }
        ensures faults { faults_of result ≡ 0 }
    {
        FileDisk {
            content,
            moment: 0,
            faults: Faults::none(),
        }
    }

    // Counts a call.
    fn tick(&mut self)
        ensures later { moment_of self.new ≡ min (moment_of self.old + 1) (2 ^ 64 - 1) }
        ensures range { moment_of self.old ≤ 2 ^ 64 - 1 }
        ensures faults { faults_of self.new ≡ faults_of self.old }
    {
        self.moment = self.moment.saturating_add(1);
    }

    // The answer of a failed call, which is reported and counted.
    fn failed<T: Drop>(&mut self, action: &str, error: &io::Error) -> Result<T, Failed>
        ensures failed { IsErr result }
        ensures cause { HasCause (faults_of self.old) (faults_of self.new) result }
        ensures moment { moment_of self.new ≡ moment_of self.old }
    {
        report(&self.content.rt, &self.content.name, action, error);
        self.faults.failed()
    }

    // Writes what waits.
    fn flush(&mut self) -> Result<(), Failed>
        ensures cause { HasCause (faults_of self.old) (faults_of self.new) result }
        ensures moment { moment_of self.new ≡ moment_of self.old }
    {
        match self.content.file.flush() {
            Ok(()) => Ok(()),
            Err(error) => self.failed("write", &error),
        }
    }
}

impl<R: Files<File = File> + Eprint + Copy> Disk for FileDisk<R> {
    ghost use Rattle.lrs_edge.specs.FileDisk.{moment_of, faults_of};
    ghost use Rattle.lrs_edge.specs.Silent.{tells_none};

    ghost told = { λ d. None };

    ghost image = { λ d c. ⊥ };

    ghost image_since = { λ d t c. ⊥ };

    ghost fault_count = { faults_of };

    ghost time = { moment_of };

    ghost reads_image = { λ d b is. tells_none b is };

    ghost tells = { λ d c left. absurd left };

    ghost counts_now = { λ d t c le left. left };

    ghost only_now = { λ d c left. left };

    ghost since_later = { λ d t u c le left. left };

    fn len(&mut self) -> Result<u64, Failed> {
        self.tick();
        self.flush()?;
        match self.content.file.inner().len() {
            Ok(number) => Ok(number),
            Err(error) => self.failed("tell its size", &error),
        }
    }

    fn read_at(&mut self, offset: u64, into: &mut [u8]) -> Result<usize, Failed> {
        self.tick();
        self.flush()?;
        match self.content.file.read_at(offset, into) {
            Ok(number) => Ok(number),
            Err(error) => self.failed("read", &error),
        }
    }

    fn write_at(&mut self, offset: u64, bytes: &[u8]) -> Result<(), Failed> {
        self.tick();
        let action = self.content.write_action();
        match self.content.write_at(offset, bytes) {
            Ok(()) => Ok(()),
            Err(error) => self.failed(action, &error),
        }
    }

    fn cut(&mut self, to: u64) -> Result<(), Failed> {
        self.tick();
        self.flush()?;
        match self.content.file.cut(to) {
            Ok(()) => Ok(()),
            Err(error) => self.failed("truncate", &error),
        }
    }

    fn sync(&mut self) -> Result<(), Failed> {
        self.tick();
        self.flush()?;
        match self.content.file.sync() {
            Ok(()) => Ok(()),
            Err(error) => self.failed("sync", &error),
        }
    }

    fn faults(&self) -> u64 {
        self.faults.count
    }

    fn moment(&self) -> u64 {
        self.moment
    }
}

impl<R: Files<File = File> + Eprint + Copy> Content<R> {
    // What the next write does, in a report.
    fn write_action(&self) -> &'static str {
        if self.file.inner().is_there() {
            "write"
        } else {
            "create"
        }
    }

    // Makes the file first, if there is none. The first byte is written when a store is made, before its tokens are: a
    // file that was there is then left to its owner alone.
    fn write_at(&mut self, offset: u64, bytes: &[u8]) -> io::Result<()> {
        if offset == 0 {
            self.file.inner().protect()?;
        }
        if !self.file.inner().is_there() {
            let file = make(&self.rt, self.name.as_str())?;
            self.file.replace(OptionalFile::new(Some(file)));
            // So a file that takes nothing isn't told as made.
            return self.file.write_through(offset, bytes);
        }
        self.file.write_at(offset, bytes)
    }
}

// A name with its file, if there is one. The name is kept in one of these rooms, so this takes no memory.
pub(crate) fn open<R: Files<File = File> + Eprint + Copy>(
    alloc: Global,
    rt: R,
    rooms: &mut Rooms,
    name: &str,
) -> io::Result<Content<R>> {
    let file = find(&rt, name)?;
    let name = rooms.keep(name)?;
    Ok(Content {
        rt,
        name,
        file: WriteBehind::new(alloc, OptionalFile::new(file)),
    })
}

// Opens the file of a name, if there is one. Two programs on one file would write over each other, so it is locked
// for as long as its disk is there.
fn find<R: Files<File = File>>(rt: &R, name: &str) -> io::Result<Option<File>> {
    match OpenOptions::new().read(true).write(true).open(rt, name) {
        Ok(file) => {
            file.try_lock()?;
            sync_folder(rt, name)?;
            Ok(Some(file))
        }
        Err(error) if error.kind() == ErrorKind::NotFound => {
            sync_folder(rt, name)?;
            Ok(None)
        }
        Err(error) => Err(error),
    }
}

// Makes the file of a name that has none, locked. Another program may have made one meanwhile: then this fails.
fn make<R: Files<File = File>>(rt: &R, name: &str) -> io::Result<File> {
    let file = OpenOptions::new()
        .read(true)
        .write(true)
        .create_new(true)
        .mode(OWNER_ALONE)
        .open(rt, name)?;
    file.try_lock()?;
    sync_folder(rt, name)?;
    Ok(file)
}

// A file that was made is found again after a crash only once its folder is on the disk.
fn sync_folder<R: Files<File = File>>(rt: &R, name: &str) -> io::Result<()> {
    let folder = match Path::new(name).parent() {
        Some(folder) if !folder.as_str().is_empty() => folder.as_str(),
        _ => ".",
    };
    File::open(rt, folder)?.sync_all()
}

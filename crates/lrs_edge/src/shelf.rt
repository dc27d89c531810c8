ghost use Rattle.std.specs.Prelude.{◌≡◌, None, IfOk};

use crate::disk::{FileDisk, open};
use crate::faults::Faults;
use crate::reports::report;
use crate::rooms::Rooms;
use lrs_disk::{Failed, Shelf};
use std::alloc::AllocError;
use std::fs::File;
use std::rt::Files;

/// The files of the system as a shelf: the name of a disk is the path of its file.
///
/// A disk keeps its name, under which its file may be made later. The memory for that is taken with the shelf, since a
/// disk that isn't given is told as a fault, and want of memory is none.
#[derive(Drop)]
pub struct FileShelf<R: Files<File = File> + AllocGlobal + Eprint + Copy> {
    rt: R,
    rooms: Rooms,
    faults: Faults,
}

impl<R: Files<File = File> + AllocGlobal + Eprint + Copy> FileShelf<R> {
    /// The files that this runtime reaches, of which at most `files` can be taken.
    pub fn new(rt: R, files: usize) -> Result<Self, AllocError>
        ensures { IfOk result (λ shelf. ⟦<FileShelf<R> as Shelf>⟧.fault_count shelf ≡ 0) }
    {
        Ok(FileShelf {
            rt,
            rooms: Rooms::new(rt.alloc(), files)?,
            faults: Faults::none(),
        })
    }
}

impl<R: Files<File = File> + AllocGlobal + Eprint + Copy> Shelf for FileShelf<R> {
    type Disk = FileDisk<R>;

    ghost holds = { λ s name. None };

    ghost begins = { λ s name. 0 };

    ghost starts = { λ s name. 0 };

    ghost taken = { λ s. None };

    ghost fault_count = { λ s. s.faults.count };

    /// Opens the file of a name. One that isn't there reads as empty, and is made at the first write, for its owner
    /// alone. The entry of its folder is on the disk, too, when this or that write answers. A file that is there is left
    /// to its owner alone when its first byte is written, as only the making of a store does. The file is locked until
    /// the disk is dropped: if it is locked already this fails. It takes no memory.
    fn take(&mut self, name: &str) -> Result<FileDisk<R>, Failed> {
        match open(self.rt.alloc(), self.rt, &mut self.rooms, name) {
            Ok(content) => Ok(FileDisk::new(content)),
            Err(error) => {
                report(&self.rt, &name, "open", &error);
                self.faults.failed()
            }
        }
    }

    fn faults(&self) -> u64 {
        self.faults.count
    }
}

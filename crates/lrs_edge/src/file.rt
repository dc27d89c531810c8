ghost use Rattle.std.specs.Prelude.{◌≤◌, None, IfOk, length};

use crate::ahead::Bytes;
use std::fs::{File, Permissions};
use std::io::{self, ErrorKind};
use std::os::unix::fs::{FileExt, PermissionsExt};

// The file of a store holds tokens as they are.
pub(crate) const OWNER_ALONE: u32 = 0o600;

// What others than its owner may do with a file.
const OF_OTHERS: u32 = 0o077;

// A file, if there is one. Without one there is nothing to read.
#[derive(Drop)]
pub(crate) struct OptionalFile {
    file: Option<File>,
}

impl OptionalFile {
    pub(crate) fn new(file: Option<File>) -> Self {
        OptionalFile { file }
    }

    pub(crate) fn is_there(&self) -> bool {
        self.file.is_some()
    }

    pub(crate) fn len(&self) -> io::Result<u64> {
        match &self.file {
            Some(file) => Ok(file.metadata()?.len()),
            None => Ok(0),
        }
    }

    // Leaves a file to its owner alone. What is no file, such as a device, stays as it is.
    pub(crate) fn protect(&self) -> io::Result<()> {
        let Some(file) = &self.file else {
            return Ok(());
        };
        let found = file.metadata()?;
        if !found.is_file() || found.permissions().mode() & OF_OTHERS == 0 {
            return Ok(());
        }
        file.set_permissions(Permissions::from_mode(OWNER_ALONE))
    }
}

impl Bytes for OptionalFile {
    ghost told = { λ f. None };

    fn read_at(&self, offset: u64, into: &mut [u8]) -> io::Result<usize> {
        match &self.file {
            Some(file) => Ok(read_on(file, offset, into)?),
            None => Ok(0),
        }
    }

    // A file has to be there.
    fn write_at(&mut self, offset: u64, bytes: &[u8]) -> io::Result<()> {
        match &self.file {
            Some(file) => file.write_all_at(bytes, offset),
            None => Err(io::Error::from(ErrorKind::NotFound)),
        }
    }

    fn cut(&mut self, to: u64) -> io::Result<()> {
        match &self.file {
            Some(file) => file.set_len(to),
            None => Ok(()),
        }
    }

    fn sync(&mut self) -> io::Result<()> {
        match &self.file {
            Some(file) => file.sync_all(),
            None => Ok(()),
        }
    }
}

// Reads until there is no room left or the file ends, since one call may give fewer bytes than there are.
fn read_on(file: &File, offset: u64, into: &mut [u8]) -> io::Result<usize>
    ensures { IfOk result (λ n. n ≤ length into.old) }
{
    let mut number = 0;
    for _ in 0..u64::MAX {
        if number == into.len() {
            return Ok(number);
        }
        match file.read_at(&mut into[number..], offset.saturating_add(number as u64)) {
            Ok(0) => return Ok(number),
            Ok(more) => number += more,
            Err(error) if error.kind() == ErrorKind::Interrupted => (),
            Err(error) => return Err(error),
        }
    }
    Err(io::Error::from(ErrorKind::Other))
}

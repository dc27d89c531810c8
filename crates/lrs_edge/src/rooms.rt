ghost use Rattle.std.specs.Prelude.{◌≡◌, ◌⊎◌, ◌<◌, ◌≤◌, ◌+◌, IfOk, IfErr, IsErr, OnOk, length, string_bytes, string_capacity};
ghost use Rattle.std.specs.IoError.{error_kind};
ghost use Rattle.lrs_edge.specs.declared.rooms.TheConstants.{LONGEST_PATH};

use std::alloc::{AllocError, Global};
use std::io::{self, ErrorKind};
use std::marker::Model;

// No path that the system opens is longer, in bytes.
const LONGEST_PATH: usize = 4_096;

// Room for names that are kept later, without memory. For contracts it is how many names there is room for.
#[derive(Drop)]
pub(crate) struct Rooms {
    rooms: Vec<String>,
}

impl Model for Rooms {
    ghost use Rattle.std.specs.Prelude.{◌≤◌, ℕ, All, length, string_capacity};
    ghost use Rattle.lrs_edge.specs.declared.rooms.TheConstants.{LONGEST_PATH};

    ghost Value = { ℕ };

    ghost view = { λ r. length r.rooms.items };

    ghost invariant = { λ r. All (λ room. LONGEST_PATH ≤ string_capacity room) r.rooms.items };
}

impl Rooms {
    // For so many names, each a path of the system.
    pub(crate) fn new(alloc: Global, names: usize) -> Result<Self, AllocError>
        ensures { IfOk result (λ rooms. rooms ≡ names) }
    {
        let mut rooms = Vec::new(alloc);
        for _ in 0..names {
            rooms.push(String::with_capacity(alloc, LONGEST_PATH)?)?;
        }
        Ok(Rooms { rooms })
    }

    // Keeps a name in one of the rooms. It fails only if there is none left, or if the name is longer than a path.
    pub(crate) fn keep(&mut self, name: &str) -> io::Result<String>
        ensures name { IfOk result (λ kept. string_bytes kept ≡ name.now) }
        ensures less { OnOk result (self.new + 1 ≡ self.old) }
        ensures no_room { IfErr result (λ error. error_kind error ≡ ErrorKind.InvalidInput) }
        ensures only { IsErr result → (self.old ≡ 0) ⊎ (LONGEST_PATH < length name.now) }
    {
        match self.rooms.pop() {
            Some(room) => filled(room, name),
            None => Err(no_room()),
        }
    }
}

// A room with a name in it.
fn filled(mut room: String, name: &str) -> io::Result<String>
    ensures name { IfOk result (λ kept. string_bytes kept ≡ name.now) }
    ensures no_room { IfErr result (λ error. error_kind error ≡ ErrorKind.InvalidInput) }
    ensures only { IsErr result → string_capacity room < length name.now }
{
    room.clear();
    match room.push_str(name) {
        Ok(()) => Ok(room),
        Err(_) => Err(no_room()),
    }
}

fn no_room() -> io::Error
    ensures { error_kind result ≡ ErrorKind.InvalidInput }
{
    io::Error::new(ErrorKind::InvalidInput, "no room was taken for its name")
}

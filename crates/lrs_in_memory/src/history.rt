ghost use Rattle.std.specs.Prelude.{◌≡◌, ◌≤◌, ◌<◌, ◌+◌, ◌-◌, [], ◌∷◌, ◌++◌, length, sum_by, vec_len, vec_capacity, IfOk};
ghost use Rattle.lrs_in_memory.specs.Calls.{steps, step_of};

use crate::call::Call;
use std::alloc::{AllocError, Global};

// The calls of a disk, with the bytes of its writes one after the other, in memory that was taken at the start.
#[derive(Drop)]
pub(crate) struct History {
    pub(crate) calls: Vec<Call>,
    pub(crate) log: Vec<u8>,
    pub(crate) call_room: u64,
    pub(crate) byte_room: u64,
    ghost logged: { sum_by (λ (call : _). call.size) calls.items ≡ length log.items },
    ghost within: { length log.items ≤ byte_room },
    ghost calls_fit: { call_room ≤ vec_capacity calls },
    ghost bytes_fit: { byte_room ≤ vec_capacity log },
}

impl History {
    pub(crate) fn new(alloc: Global, calls: u64, bytes: u64) -> Result<Self, AllocError>
        ensures calls { IfOk result (λ h. (h.calls.items ≡ []) × (h.call_room ≡ calls)) }
        ensures bytes { IfOk result (λ h. (h.log.items ≡ []) × (h.byte_room ≡ bytes)) }
    {
        Ok(History {
            calls: Vec::with_capacity(alloc, calls as usize)?,
            log: Vec::with_capacity(alloc, bytes as usize)?,
            call_room: calls,
            byte_room: bytes,
        })
    }

    // How many bytes more there is room for.
    pub(crate) fn bytes_left(&self) -> u64
        ensures { result ≡ self.now.byte_room - length self.now.log.items }
    {
        self.byte_room - self.log.len() as u64
    }

    // Keeps one call more.
    pub(crate) fn note(&mut self, call: Call, bytes: &[u8])
        requires size { call.size ≡ length bytes.now }
        requires call_room { length self.old.calls.items < self.old.call_room }
        requires byte_room { length bytes.now ≤ self.old.byte_room - length self.old.log.items }
        ensures steps { steps self.new.calls.items self.new.log.items ≡ steps self.old.calls.items self.old.log.items
            ++ step_of call bytes.now ∷ [] }
        ensures calls { length self.new.calls.items ≡ length self.old.calls.items + 1 }
        ensures bytes { length self.new.log.items ≡ length self.old.log.items + length bytes.now }
        ensures rooms { (self.new.call_room ≡ self.old.call_room) × (self.new.byte_room ≡ self.old.byte_room) }
    {
        self.log.extend_from_slice(bytes).unwrap();
        self.calls.push(call).unwrap();
    }
}

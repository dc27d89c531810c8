ghost use Rattle.std.specs.Prelude.{◌≡◌, ◌<◌, ◌≤◌, [], ◌++◌, Some, length, take, IfOk, OnErr};
ghost use Rattle.lrs_disk.specs.Faults.{HasCause};
ghost use Rattle.lrs_in_memory_doors.specs.MemLink.{IsSameLink, faults_of, left_of, name_of, offset_of, stream_of, taken_of};

use crate::gate::{Gate, may_take, most_given, show_answered};
use crate::link::MemLink;
use lrs_disk::{Failed, Link};

/// A connection in memory that may wait for another one, in another thread: it gives no byte past an offset, or takes
/// none, until its gate opens. A call for which the gate stays shut fails. All else is as of the link that it wraps.
#[derive(Drop)]
pub struct GateLink {
    pub(crate) link: MemLink,
    pub(crate) gate: Option<Gate>,
}

impl GateLink {
    ghost use Rattle.lrs_in_memory_doors.specs.GateLink.{link_of};

    /// This link behind this gate.
    pub fn new(link: MemLink, gate: Gate) -> Self
        ensures { link_of result ≡ link }
    {
        GateLink {
            link,
            gate: Some(gate),
        }
    }

    /// The bytes that were taken.
    pub fn taken(&self) -> &[u8]
        ensures { result.now ≡ taken_of (link_of self.now) }
    {
        self.link.taken()
    }
}

// Reads at most so many bytes.
fn read_most(link: &mut MemLink, into: &mut [u8], most: usize) -> Result<usize, Failed>
    requires { 0 < most }
    ensures room { IfOk result (λ n. n ≤ length into.old) }
    ensures given { IfOk result (λ n. left_of link.old ≡ take n into.new ++ left_of link.new) }
    ensures end { IfOk result (λ n. n ≡ 0 → 0 < length into.old → left_of link.old ≡ []) }
    ensures failed { OnErr result (left_of link.new ≡ left_of link.old) }
    ensures same { IsSameLink link.old link.new }
    ensures taken { taken_of link.new ≡ taken_of link.old }
    ensures cause { HasCause (faults_of link.old) (faults_of link.new) result }
{
    let room = into.len().min(most);
    let number = link.read(&mut into[..room])?;
    Ok(number)
}

impl Link for GateLink {
    ghost use Rattle.lrs_in_memory_doors.specs.GateLink.{link_of};
    ghost use Rattle.lrs_in_memory_doors.specs.Streams.{ends_in};

    ghost left = { λ l. Some (left_of (link_of l)) };

    ghost stream = { λ l. Some (stream_of (link_of l)) };

    ghost taken = { λ l. Some (taken_of (link_of l)) };

    ghost name = { λ l. name_of (link_of l) };

    ghost fault_count = { λ l. faults_of (link_of l) };

    ghost tells_stream = { λ l rest is. ends_in (offset_of (link_of l)) (stream_of (link_of l)) rest is };

    fn read(&mut self, into: &mut [u8]) -> Result<usize, Failed>
        ensures room { IfOk result (λ n. n ≤ length into.old) }
        ensures given { IfOk result
            (λ n. left_of (link_of self.old) ≡ take n into.new ++ left_of (link_of self.new)) }
        ensures end { IfOk result (λ n. n ≡ 0 → 0 < length into.old → left_of (link_of self.old) ≡ []) }
        ensures failed { OnErr result (left_of (link_of self.new) ≡ left_of (link_of self.old)) }
        ensures same { IsSameLink (link_of self.old) (link_of self.new) }
        ensures taken { taken_of (link_of self.new) ≡ taken_of (link_of self.old) }
        ensures cause { HasCause (faults_of (link_of self.old)) (faults_of (link_of self.new)) result }
    {
        let offset = self.link.input.offset;
        match most_given(&self.gate, offset) {
            Some(most) => read_most(&mut self.link, into, most),
            None => Err(self.link.plan.fail()),
        }
    }

    fn write(&mut self, bytes: &[u8]) -> Result<usize, Failed>
        ensures room { IfOk result (λ n. n ≤ length bytes.now) }
        ensures some { IfOk result (λ n. 0 < length bytes.now → 0 < n) }
        ensures taken { IfOk result
            (λ n. taken_of (link_of self.new) ≡ taken_of (link_of self.old) ++ take n bytes.now) }
        ensures failed { OnErr result (taken_of (link_of self.new) ≡ taken_of (link_of self.old)) }
        ensures same { IsSameLink (link_of self.old) (link_of self.new) }
        ensures offset { offset_of (link_of self.new) ≡ offset_of (link_of self.old) }
        ensures cause { HasCause (faults_of (link_of self.old)) (faults_of (link_of self.new)) result }
    {
        if !may_take(&self.gate) {
            return Err(self.link.plan.fail());
        }
        let written = self.link.write(bytes);
        if matches!(&written, Ok(number) if *number > 0) {
            show_answered(&self.gate);
        }
        written
    }

    fn faults(&self) -> u64 {
        self.link.plan.faults
    }
}

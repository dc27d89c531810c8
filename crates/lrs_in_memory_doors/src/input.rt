ghost use Rattle.std.specs.Prelude.{◌≡◌, ◌⊎◌, ◌<◌, ◌≤◌, ◌+◌, [], ◌++◌, length, take, Contains, All};

// Bytes that are read in pieces. A read ends at each of some offsets.
#[derive(Drop)]
pub(crate) struct Input {
    pub(crate) bytes: Vec<u8>,
    pub(crate) offset: usize,
    pub(crate) cuts: Vec<usize>,
    ghost within: { offset ≤ length bytes.items },
}

impl Input {
    ghost use Rattle.lrs_in_memory_doors.specs.Input.{left_of};

    pub(crate) fn new(bytes: Vec<u8>, cuts: Vec<usize>) -> Self
        ensures bytes { result.bytes.items ≡ bytes.items }
        ensures offset { result.offset ≡ 0 }
        ensures cuts { result.cuts.items ≡ cuts.items }
    {
        Input {
            bytes,
            offset: 0,
            cuts,
        }
    }

    // Gives the next bytes, and answers how many.
    pub(crate) fn read(&mut self, into: &mut [u8]) -> usize
        ensures room { result ≤ length into.old }
        ensures given { left_of self.old ≡ take result into.new ++ left_of self.new }
        ensures end { result ≡ 0 → 0 < length into.old → left_of self.old ≡ [] }
        ensures bytes { self.new.bytes.items ≡ self.old.bytes.items }
        ensures cuts { self.new.cuts.items ≡ self.old.cuts.items }
        ensures offset { self.new.offset ≡ self.old.offset + result }
        ensures pieces { All (λ cut. self.old.offset < cut → self.new.offset ≤ cut) self.old.cuts.items }
        ensures filled { (result ≡ length into.old) ⊎ (self.new.offset ≡ length self.old.bytes.items)
            ⊎ Contains self.old.cuts.items self.new.offset }
    {
        let offset = self.offset;
        let stop = stop_after(&self.cuts, offset, self.bytes.len());
        let number = into.len().min(stop - offset);
        into[..number].copy_from_slice(&self.bytes[offset..offset + number]);
        self.offset = offset + number;
        number
    }
}

// Where a read from an offset on ends: at the next cut, or at the end.
fn stop_after(cuts: &[usize], offset: usize, end: usize) -> usize
    requires { offset ≤ end }
    ensures within { result ≤ end }
    ensures later { offset < end → offset < result }
    ensures least { offset ≤ result }
    ensures next { All (λ cut. offset < cut → result ≤ cut) cuts.now }
    ensures stop { (result ≡ end) ⊎ Contains cuts.now result }
{
    let mut stop = end;
    for cut in cuts {
        if offset < *cut && *cut < stop {
            stop = *cut;
        }
    }
    stop
}

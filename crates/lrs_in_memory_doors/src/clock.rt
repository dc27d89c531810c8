ghost use Rattle.std.specs.Prelude.{◌≡◌, ◌+◌, ◌-◌, ◌^◌, min};
ghost use Rattle.lrs_in_memory_doors.specs.Clock.{reading_at, told_readings};
ghost use Rattle.lrs_disk.specs.Readings.{AddsReading};

// A clock that shows the numbers of a list, and at the end the last one again, or 0 if there are none.
#[derive(Drop)]
pub(crate) struct Clock {
    pub(crate) numbers: Vec<u64>,
    pub(crate) shown: u64,
}

impl Clock {
    pub(crate) fn new(numbers: Vec<u64>) -> Self
        ensures numbers { result.numbers.items ≡ numbers.items }
        ensures shown { result.shown ≡ 0 }
    {
        Clock { numbers, shown: 0 }
    }

    pub(crate) fn show(&mut self) -> u64
        ensures read { AddsReading (told_readings self.old.numbers.items self.old.shown)
            (told_readings self.new.numbers.items self.new.shown) result }
        ensures shown { result ≡ reading_at self.old.numbers.items self.old.shown }
        ensures number { self.new.shown ≡ min (self.old.shown + 1) (2 ^ 64 - 1) }
        ensures numbers { self.new.numbers.items ≡ self.old.numbers.items }
    {
        let number = self.shown;
        self.shown = number.saturating_add(1);
        match self.numbers.len() as u64 {
            0 => 0,
            length => self.numbers[number.min(length - 1) as usize],
        }
    }
}

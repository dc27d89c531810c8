ghost use Rattle.std.specs.Prelude.{◌≡◌, None};

use crate::faults::Faults;
use lrs_disk::{Failed, Sink, Source};
use std::io::{Read, Write};

/// An input of the system, such as standard input.
#[derive(Drop)]
pub struct StdSource<R: Read + Drop> {
    reader: R,
    faults: Faults,
}

impl<R: Read + Drop> StdSource<R> {
    pub fn new(reader: R) -> Self
        ensures { ⟦<StdSource<R> as Source>⟧.fault_count result ≡ 0 }
    {
        StdSource {
            reader,
            faults: Faults::none(),
        }
    }
}

impl<R: Read + Drop> Source for StdSource<R> {
    ghost left = { λ s. None };

    ghost fault_count = { λ s. s.faults.count };

    fn read(&mut self, into: &mut [u8]) -> Result<usize, Failed> {
        match self.reader.read(into) {
            Ok(number) => Ok(number),
            Err(_) => self.faults.failed(),
        }
    }

    fn faults(&self) -> u64 {
        self.faults.count
    }
}

/// An output of the system, such as standard output. What it takes is written through at once.
#[derive(Drop)]
pub struct StdSink<W: Write + Drop> {
    writer: W,
    faults: Faults,
}

impl<W: Write + Drop> StdSink<W> {
    pub fn new(writer: W) -> Self
        ensures { ⟦<StdSink<W> as Sink>⟧.fault_count result ≡ 0 }
    {
        StdSink {
            writer,
            faults: Faults::none(),
        }
    }
}

impl<W: Write + Drop> Sink for StdSink<W> {
    ghost taken = { λ s. None };

    ghost fault_count = { λ s. s.faults.count };

    fn write(&mut self, bytes: &[u8]) -> Result<usize, Failed> {
        match self.writer.write(bytes) {
            Ok(0) if !bytes.is_empty() => self.faults.failed(),
            Ok(number) => match self.writer.flush() {
                Ok(()) => Ok(number),
                Err(_) => self.faults.failed(),
            },
            Err(_) => self.faults.failed(),
        }
    }

    fn faults(&self) -> u64 {
        self.faults.count
    }
}

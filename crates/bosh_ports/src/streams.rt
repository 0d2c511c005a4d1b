// Ports over the readers and writers of std, as the standard streams are.
ghost use Rattle.std.specs.Prelude.{◌≡◌};

use crate::sink::{Gave, Sink};
use crate::source::{Got, Source};
use std::io::{Read, Write};

/// A source over a reader. It tells what the reader tells, and a real one tells nothing.
#[derive(Drop)]
pub struct ReadSource<R: Read + Drop> {
    pub reader: R,
    pub faults: u64,
}

impl<R: Read + Drop> ReadSource<R> {
    pub fn new(reader: R) -> Self
        ensures reader { result.reader ≡ reader }
        ensures faults { result.faults ≡ 0 }
    {
        ReadSource { reader, faults: 0 }
    }
}

impl<R: Read + Drop> Source for ReadSource<R> {
    ghost left = { λ s. R.remaining s.reader };

    ghost faults = { λ s. s.faults };

    fn take(&mut self, into: &mut [u8]) -> Got {
        match self.reader.read(into) {
            Ok(0) => Got::End,
            Ok(n) => Got::Bytes(n),
            Err(_) => {
                self.faults = self.faults.saturating_add(1);
                Got::Failed
            }
        }
    }
}

/// A sink over a writer, which counts a write of nothing as a fault. It tells what the writer tells, and a real one tells
/// nothing.
#[derive(Drop)]
pub struct WriteSink<W: Write + Drop> {
    pub writer: W,
    pub faults: u64,
}

impl<W: Write + Drop> WriteSink<W> {
    pub fn new(writer: W) -> Self
        ensures writer { result.writer ≡ writer }
        ensures faults { result.faults ≡ 0 }
    {
        WriteSink { writer, faults: 0 }
    }
}

impl<W: Write + Drop> Sink for WriteSink<W> {
    ghost given = { λ s. W.contents s.writer };

    ghost faults = { λ s. s.faults };

    fn give(&mut self, bytes: &[u8]) -> Gave {
        match self.writer.write(bytes) {
            Ok(n) if n > 0 => Gave::Wrote(n),
            _ => {
                self.faults = self.faults.saturating_add(1);
                Gave::Failed
            }
        }
    }
}

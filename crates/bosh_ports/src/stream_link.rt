// A link over a reader and a writer of std, as the two ends of a connection are.
ghost use Rattle.std.specs.Prelude.{◌≡◌, ℕ, ◌<◌, ◌≤◌, Option, Bool, Some, true, false, length};

use crate::link::Link;
use crate::sink::Gave;
use crate::source::Got;
use std::io::{Read, Write};

/// A writer that can tell whoever reads it that nothing more will come.
pub trait HangUp: Write {
    ghost use Rattle.std.specs.Io.KnownBytes.{Keeps};
    ghost use Rattle.bosh_ports.specs.Link.{Closes};

    // Whether it was hung up, where the writer tells that.
    ghost hung: { Self → Option Bool };

    /// What was written stays written.
    fn hang_up(&mut self)
        ensures hung { Closes (hung self.old) (hung self.new) }
        ensures contents { Keeps (Self.contents self.old) (Self.contents self.new) };
}

/// A link over a reader and a writer, which counts a write of nothing as a fault. It tells what these tell, and those of
/// a real connection tell nothing.
#[derive(Drop)]
pub struct StreamLink<R: Read + Drop, W: HangUp + Drop> {
    pub reader: R,
    pub writer: W,
    pub is_closed: bool,
    pub faults: u64,
}

impl<R: Read + Drop, W: HangUp + Drop> StreamLink<R, W> {
    pub fn new(reader: R, writer: W) -> Self
        ensures reader { result.reader ≡ reader }
        ensures writer { result.writer ≡ writer }
        ensures is_closed { result.is_closed ≡ false }
        ensures faults { result.faults ≡ 0 }
    {
        StreamLink {
            reader,
            writer,
            is_closed: false,
            faults: 0,
        }
    }
}

impl<R: Read + Drop, W: HangUp + Drop> Link for StreamLink<R, W> {
    ghost use Rattle.std.specs.Io.KnownBytes.{Keeps};
    ghost use Rattle.bosh_ports.specs.Link.{Closes};

    ghost left = { λ l. R.remaining l.reader };

    ghost given = { λ l. W.contents l.writer };

    ghost closed = { λ l. Some l.is_closed };

    ghost faults = { λ l. l.faults };

    fn take(&mut self, into: &mut [u8]) -> Got {
        match self.reader.read(into) {
            Ok(0) => Got::End,
            Ok(n) => Got::Bytes(n),
            Err(_) => {
                self.faults = self.faults.saturating_add(1);
                Got::Failed
            }
        }
    }

    fn give(&mut self, bytes: &[u8]) -> Gave {
        match self.writer.write(bytes) {
            Ok(n) if n > 0 => Gave::Wrote(n),
            _ => {
                self.faults = self.faults.saturating_add(1);
                Gave::Failed
            }
        }
    }

    fn close(&mut self)
        ensures closed { self.new.is_closed ≡ true }
        ensures left { self.new.reader ≡ self.old.reader }
        ensures given { Keeps (W.contents self.old.writer) (W.contents self.new.writer) }
        ensures faults { self.new.faults ≡ self.old.faults }

        // The writer is hung up, where it tells that.
        ensures hung { Closes (W.hung self.old.writer) (W.hung self.new.writer) }
    {
        self.is_closed = true;
        self.writer.hang_up();
    }
}

// A link over a connection that doesn't block.
ghost use Rattle.std.specs.Prelude.{◌≡◌, None, Some};
ghost use Rattle.bosh_ports.specs.Faults.{HasRisen};

use crate::poll_link::PollLink;
use bosh_ports::{Gave, Got, HangUp, Link};
use std::io;
use std::io::{ErrorKind, Read, Write};
use std::net::{Shutdown, TcpStream};

/// A writer that can tell whoever reads it that nothing more will come, and be read on.
pub trait Finish: HangUp {
    ghost use Rattle.std.specs.Io.KnownBytes.{Keeps};

    /// What was written stays written.
    fn finish(&mut self)
        ensures contents { Keeps (Self.contents self.old) (Self.contents self.new) };
}

impl Finish for TcpStream {
    /// A connection that the peer ended first has nothing to be told, so an error here is no fault.
    fn finish(&mut self) {
        let _ = self.shutdown(Shutdown::Write);
    }
}

/// A link over a reader and a writer that don't block: where they would, it has nothing now. Who takes or gives and wants an
/// answer at once gets a fault there. It counts a write of nothing as a fault, and tells nothing of what is taken.
#[derive(Drop)]
pub struct OpenLink<R: Read + Drop, W: Finish + Drop> {
    pub reader: R,
    pub writer: W,
    pub is_closed: bool,
    pub faults: u64,
    pub idle: u64,
}

/// A link over a TCP connection that doesn't block.
pub type TcpOpenLink = OpenLink<TcpStream, TcpStream>;

/// Small pieces are sent at once. It fails where the system has no second handle for the connection, or can't set it so.
pub fn open_tcp_link(stream: TcpStream) -> io::Result<TcpOpenLink> {
    stream.set_nodelay(true)?;
    stream.set_nonblocking(true)?;
    let reader = stream.try_clone()?;
    Ok(OpenLink::new(reader, stream))
}

// Whether an error means that there is nothing now.
fn is_idle(error: &io::Error) -> bool {
    error.kind() == ErrorKind::WouldBlock
}

impl<R: Read + Drop, W: Finish + Drop> OpenLink<R, W> {
    pub fn new(reader: R, writer: W) -> Self
        ensures reader { result.reader ≡ reader }
        ensures writer { result.writer ≡ writer }
        ensures faults { result.faults ≡ 0 }
        ensures idle { result.idle ≡ 0 }
    {
        OpenLink {
            reader,
            writer,
            is_closed: false,
            faults: 0,
            idle: 0,
        }
    }
}

impl<R: Read + Drop, W: Finish + Drop> Link for OpenLink<R, W> {
    ghost left = { λ _. None };

    ghost given = { λ l. W.contents l.writer };

    ghost closed = { λ l. Some l.is_closed };

    ghost faults = { λ l. l.faults };

    fn take(&mut self, into: &mut [u8]) -> Got {
        match self.reader.read(into) {
            Ok(0) => Got::End,
            Ok(n) => Got::Bytes(n),
            Err(_) => {
                self.faults = self.faults.saturating_add(1);
                Got::Failed
            }
        }
    }

    fn give(&mut self, bytes: &[u8]) -> Gave {
        match self.writer.write(bytes) {
            Ok(n) if n > 0 => Gave::Wrote(n),
            _ => {
                self.faults = self.faults.saturating_add(1);
                Gave::Failed
            }
        }
    }

    fn close(&mut self) {
        self.is_closed = true;
        self.writer.hang_up();
    }
}

impl<R: Read + Drop, W: Finish + Drop> PollLink for OpenLink<R, W> {
    ghost idle = { λ l. l.idle };

    fn try_take(&mut self, into: &mut [u8]) -> Option<Got> {
        match self.reader.read(into) {
            Ok(0) => Some(Got::End),
            Ok(n) => Some(Got::Bytes(n)),
            Err(error) if is_idle(&error) => {
                self.idle = self.idle.saturating_add(1);
                None
            }
            Err(_) => {
                self.faults = self.faults.saturating_add(1);
                Some(Got::Failed)
            }
        }
    }

    fn try_give(&mut self, bytes: &[u8]) -> Option<Gave> {
        match self.writer.write(bytes) {
            Ok(n) if n > 0 => Some(Gave::Wrote(n)),
            Err(error) if is_idle(&error) => {
                self.idle = self.idle.saturating_add(1);
                None
            }
            _ => {
                self.faults = self.faults.saturating_add(1);
                Some(Gave::Failed)
            }
        }
    }

    fn finish(&mut self) {
        self.writer.finish();
    }
}

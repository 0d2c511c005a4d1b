// A connection whose other end isn't waited for without end.
ghost use Rattle.std.specs.Prelude.{◌≡◌, ◌≤◌, None, Some, true, false};
ghost use Rattle.bosh_ports.specs.Faults.{HasRisen};

use crate::counting::one_more_fault;
use bosh_ports::{Gave, Got, HangUp, Link};
use std::io;
use std::io::{ErrorKind, Read, Write};
use std::net::TcpStream;
use std::time::Duration;

/// A reader that may be told how long to wait. A read that waited so long fails with `WouldBlock` or `TimedOut`.
pub trait Patient: Read {
    fn wait_at_most(&mut self, limit: Duration) -> io::Result<()>;
}

impl Patient for TcpStream {
    fn wait_at_most(&mut self, limit: Duration) -> io::Result<()> {
        self.set_read_timeout(Some(limit))
    }
}

/// How long a link waits for the other end, in milliseconds. Above 0.
#[derive(Clone, Copy, Debug, PartialEq, Eq)]
pub struct Limits {
    /// Before the first byte of a message.
    pub before: u64,
    /// Whether nothing in this time is the end of the link; otherwise it is a fault.
    pub ends: bool,
    /// For the next byte of a message that has begun, and for the other end to take some of what it is given.
    pub within: u64,
}

impl Limits {
    /// Of a link that was accepted: 15 seconds between requests, after which it is at its end, and 30 seconds within one.
    pub const ACCEPTED: Limits = Limits {
        before: 15_000,
        ends: true,
        within: 30_000,
    };

    /// Of a link that was dialled: 150 seconds for an answer, which a server may hold for 120, and 30 seconds within one.
    pub const DIALLED: Limits = Limits {
        before: 150_000,
        ends: false,
        within: 30_000,
    };
}

/// A link over a reader and a writer, which doesn't wait longer than its limits. It is between messages from its beginning, and
/// after each give, until a take gives bytes. It tells nothing of what is taken, since its end may come before that of the
/// reader's bytes.
#[derive(Drop)]
pub struct TimedLink<R: Patient + Drop, W: HangUp + Drop> {
    pub reader: R,
    pub writer: W,
    pub limits: Limits,
    pub is_between: bool,
    /// The limit that the reader was told last, or 0.
    pub told: u64,
    pub is_closed: bool,
    pub faults: u64,
}

impl<R: Patient + Drop, W: HangUp + Drop> TimedLink<R, W> {
    pub fn new(reader: R, writer: W, limits: Limits) -> Self
        ensures reader { result.reader ≡ reader }
        ensures writer { result.writer ≡ writer }
        ensures limits { result.limits ≡ limits }
        ensures is_between { result.is_between ≡ true }
        ensures is_closed { result.is_closed ≡ false }
        ensures faults { result.faults ≡ 0 }
    {
        TimedLink {
            reader,
            writer,
            limits,
            is_between: true,
            told: 0,
            is_closed: false,
            faults: 0,
        }
    }

    // Tells the reader how long to wait, where that is another time than before.
    fn set_limit(&mut self) -> io::Result<()>
        ensures faults { self.new.faults ≡ self.old.faults }
        ensures closed { self.new.is_closed ≡ self.old.is_closed }
        ensures writer { self.new.writer ≡ self.old.writer }
    {
        let limit = if self.is_between {
            self.limits.before
        } else {
            self.limits.within
        };
        if self.told != limit {
            self.reader.wait_at_most(Duration::from_millis(limit))?;
            self.told = limit;
        }
        Ok(())
    }

    // Whether a read that failed means that the other end has had enough.
    fn is_enough(&self, error: &io::Error) -> bool {
        let is_late = matches!(error.kind(), ErrorKind::WouldBlock | ErrorKind::TimedOut);
        is_late && self.is_between && self.limits.ends
    }

    fn failed(&mut self) -> Got
        ensures result { result ≡ Got.Failed }
        ensures risen { HasRisen self.old.faults self.new.faults }
        ensures never_falls { self.old.faults ≤ self.new.faults }
        ensures closed { self.new.is_closed ≡ self.old.is_closed }
        ensures writer { self.new.writer ≡ self.old.writer }
    {
        self.faults = one_more_fault(self.faults);
        Got::Failed
    }
}

impl<R: Patient + Drop, W: HangUp + Drop> Link for TimedLink<R, W> {
    ghost left = { λ _. None };

    ghost given = { λ l. W.contents l.writer };

    ghost closed = { λ l. Some l.is_closed };

    ghost faults = { λ l. l.faults };

    fn take(&mut self, into: &mut [u8]) -> Got {
        if self.set_limit().is_err() {
            return self.failed();
        }
        match self.reader.read(into) {
            Ok(0) => Got::End,
            Ok(n) => {
                self.is_between = false;
                Got::Bytes(n)
            }
            Err(error) if self.is_enough(&error) => Got::End,
            Err(_) => self.failed(),
        }
    }

    fn give(&mut self, bytes: &[u8]) -> Gave {
        self.is_between = true;
        match self.writer.write(bytes) {
            Ok(n) if n > 0 => Gave::Wrote(n),
            _ => {
                self.faults = one_more_fault(self.faults);
                Gave::Failed
            }
        }
    }

    fn close(&mut self) {
        self.is_closed = true;
        self.writer.hang_up();
    }
}

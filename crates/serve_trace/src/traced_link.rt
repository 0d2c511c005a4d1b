// A connection that is listened in on.
ghost use Rattle.std.specs.Prelude.{◌≡◌, ◌≤◌};

use crate::tap::Tap;
use bosh_ports::{Gave, Got, Link, Polled};
use std::os::fd::{AsRawFd, RawFd};
use std::sync::Wait;

/// A link that hands on all that it is asked, and has what it carried heard, where somebody listens.
#[derive(Drop)]
pub struct TracedLink<R: Wait + Copy + Drop, L: Drop> {
    pub rt: R,
    pub link: L,
    pub tap: Option<Box<Tap>>,
}

// These bytes were taken, at the front of the room.
fn hear_taken<R: Wait>(rt: &R, tap: &mut Option<Box<Tap>>, room: &[u8], got: Option<Got>) {
    if let Some(tap) = tap {
        if let Some(Got::Bytes(count)) = got {
            tap.took(rt, &room[..count.min(room.len())]);
        }
    }
}

// Some of these bytes were given.
fn hear_given<R: Wait>(rt: &R, tap: &mut Option<Box<Tap>>, bytes: &[u8], gave: Option<Gave>) {
    if let Some(tap) = tap {
        if let Some(Gave::Wrote(count)) = gave {
            tap.gave(rt, &bytes[..count.min(bytes.len())]);
        }
    }
}

impl<R: Wait + Copy + Drop, L: AsRawFd + Drop> AsRawFd for TracedLink<R, L> {
    ghost raw_fd = { λ l. L.raw_fd l.link };

    fn as_raw_fd(&self) -> RawFd {
        self.link.as_raw_fd()
    }
}

impl<R: Wait + Copy + Drop, L: Link + Drop> Link for TracedLink<R, L> {
    ghost left = { λ l. L.left l.link };

    ghost given = { λ l. L.given l.link };

    ghost closed = { λ l. L.closed l.link };

    ghost faults = { λ l. L.faults l.link };

    fn take(&mut self, into: &mut [u8]) -> Got {
        let got = self.link.take(into);
        hear_taken(&self.rt, &mut self.tap, into, Some(got));
        got
    }

    fn give(&mut self, bytes: &[u8]) -> Gave {
        let gave = self.link.give(bytes);
        hear_given(&self.rt, &mut self.tap, bytes, Some(gave));
        gave
    }

    fn close(&mut self) {
        self.link.close();
    }
}

impl<R: Wait + Copy + Drop, L: Polled + Drop> Polled for TracedLink<R, L> {
    ghost left = { λ l. L.left l.link };

    ghost given = { λ l. L.given l.link };

    ghost closed = { λ l. L.closed l.link };

    ghost faults = { λ l. L.faults l.link };

    ghost waits = { λ l. L.waits l.link };

    ghost leaves = { λ l. L.leaves l.link };

    fn poll_take(&mut self, into: &mut [u8]) -> Option<Got> {
        let got = self.link.poll_take(into);
        hear_taken(&self.rt, &mut self.tap, into, got);
        got
    }

    fn poll_give(&mut self, bytes: &[u8]) -> Option<Gave> {
        let gave = self.link.poll_give(bytes);
        hear_given(&self.rt, &mut self.tap, bytes, gave);
        gave
    }

    fn has_left(&mut self) -> bool {
        self.link.has_left()
    }

    fn is_held(&self) -> bool {
        self.link.is_held()
    }

    fn close(&mut self) {
        self.link.close();
    }
}

// A connection of a server that ends with its input.
ghost use Rattle.std.specs.Prelude.{◌≡◌, ◌≤◌, ℕ, List, ◌++◌, None, Some, true, false};
ghost use Rattle.bosh_ports.specs.Faults.{HasRisen};
ghost use Rattle.stop_net.specs.Heard.{asked_by};

use crate::heard::Heard;
use crate::stopper::Stopper;
use bosh_ports::{Gave, Got, Link, Polled};
use front_net::FrontLink;
use std::os::fd::{AsRawFd, RawFd};
use std::sync::{Arc, Wait};

/// A connection that never waits, and that fails once an end is wanted, but where the whole head of a request came on it that isn't
/// answered yet.
#[derive(Drop)]
pub struct StoppableLink<R: Wait + Copy + Drop> {
    rt: R,
    link: FrontLink,
    stopper: Arc<Stopper>,
    number: Option<u64>,
    heard: Heard,
    is_closed: bool,
    pub(crate) faults: u64,
    waits: u64,
    leaves: u64,
}

impl<R: Wait + Copy + Drop> StoppableLink<R> {
    /// A link of this connection, which the stopper knows.
    pub(crate) fn new(rt: R, link: FrontLink, stopper: Arc<Stopper>) -> StoppableLink<R>
        ensures faults { result.faults ≡ 0 }
    {
        let number = match link.share() {
            Ok(stream) => stopper.enter(&rt, stream),
            Err(_) => None,
        };
        StoppableLink {
            rt,
            link,
            stopper,
            number,
            heard: Heard::NOTHING,
            is_closed: false,
            faults: 0,
            waits: 0,
            leaves: 0,
        }
    }

    // Whether nothing more is wanted of it: never where the whole head of a request came that isn't answered yet.
    fn is_cut(&self) -> bool
        ensures { result ≡ true → self.now.heard.is_asked ≡ false }
    {
        if self.heard.is_asked {
            return false;
        }
        self.stopper.is_wanted()
    }

    // These bytes were heard too.
    fn hear(&mut self, bytes: &[u8])
        ensures heard { (more : List ℕ) → asked_by self.new.heard more ≡ asked_by self.old.heard (bytes.now ++ more) }
        ensures faults { self.new.faults ≡ self.old.faults }
        ensures waits { self.new.waits ≡ self.old.waits }
        ensures leaves { self.new.leaves ≡ self.old.leaves }
        ensures closed { self.new.is_closed ≡ self.old.is_closed }
    {
        let mut heard = self.heard;
        heard.hear(bytes);
        self.note(heard);
    }

    // What was heard by now.
    fn note(&mut self, heard: Heard)
        ensures heard { self.new.heard ≡ heard }
        ensures faults { self.new.faults ≡ self.old.faults }
        ensures waits { self.new.waits ≡ self.old.waits }
        ensures leaves { self.new.leaves ≡ self.old.leaves }
        ensures closed { self.new.is_closed ≡ self.old.is_closed }
    {
        let was_asked = self.heard.is_asked;
        self.heard = heard;
        if was_asked != heard.is_asked {
            if let Some(number) = self.number {
                self.stopper.note(&self.rt, number, heard.is_asked);
            }
        }
    }

    // One more fault.
    fn fault(&mut self)
        ensures risen { HasRisen self.old.faults self.new.faults }
        ensures never_falls { self.old.faults ≤ self.new.faults }
        ensures waits { self.new.waits ≡ self.old.waits }
        ensures leaves { self.new.leaves ≡ self.old.leaves }
        ensures closed { self.new.is_closed ≡ self.old.is_closed }
    {
        self.faults = self.faults.saturating_add(1);
    }

    // One more time at which there was nothing.
    fn wait(&mut self)
        ensures risen { HasRisen self.old.waits self.new.waits }
        ensures faults { self.new.faults ≡ self.old.faults }
        ensures leaves { self.new.leaves ≡ self.old.leaves }
        ensures closed { self.new.is_closed ≡ self.old.is_closed }
    {
        self.waits = self.waits.saturating_add(1);
    }

    // Both directions end, and the stopper knows it no longer.
    fn hang_up(&mut self)
        ensures closed { self.new.is_closed ≡ true }
        ensures faults { self.new.faults ≡ self.old.faults }
        ensures waits { self.new.waits ≡ self.old.waits }
        ensures leaves { self.new.leaves ≡ self.old.leaves }
    {
        if let Some(number) = self.number {
            self.stopper.leave(&self.rt, number);
        }
        self.is_closed = true;
        self.link.hang_up();
    }
}

impl<R: Wait + Copy + Drop> AsRawFd for StoppableLink<R> {
    ghost use Rattle.front_net.specs.Descriptors.{descriptor};

    ghost raw_fd = { λ l. Some (descriptor l.link) };

    fn as_raw_fd(&self) -> RawFd {
        self.link.as_raw_fd()
    }
}

impl<R: Wait + Copy + Drop> Link for StoppableLink<R> {
    ghost left = { λ _. None };

    ghost given = { λ _. None };

    ghost closed = { λ l. Some l.is_closed };

    ghost faults = { λ l. l.faults };

    fn take(&mut self, into: &mut [u8]) -> Got {
        match self.poll_take(into) {
            Some(got) => got,
            None => {
                self.fault();
                Got::Failed
            }
        }
    }

    fn give(&mut self, bytes: &[u8]) -> Gave {
        match self.poll_give(bytes) {
            Some(gave) => gave,
            None => {
                self.fault();
                Gave::Failed
            }
        }
    }

    fn close(&mut self) {
        self.hang_up();
    }
}

impl<R: Wait + Copy + Drop> Polled for StoppableLink<R> {
    ghost left = { λ _. None };

    ghost given = { λ _. None };

    ghost closed = { λ l. Some l.is_closed };

    ghost faults = { λ l. l.faults };

    ghost waits = { λ l. l.waits };

    ghost leaves = { λ l. l.leaves };

    // The end of what comes may be the stopper's doing.
    fn poll_take(&mut self, into: &mut [u8]) -> Option<Got> {
        if self.is_cut() {
            self.fault();
            return Some(Got::Failed);
        }
        match self.link.poll_take(into) {
            Some(Got::Bytes(count)) => {
                self.hear(&into[..count.min(into.len())]);
                Some(Got::Bytes(count))
            }
            Some(Got::End) => {
                if self.is_cut() {
                    self.fault();
                    return Some(Got::Failed);
                }
                Some(Got::End)
            }
            Some(Got::Failed) => {
                self.fault();
                Some(Got::Failed)
            }
            None => {
                self.wait();
                None
            }
        }
    }

    fn poll_give(&mut self, bytes: &[u8]) -> Option<Gave> {
        match self.link.poll_give(bytes) {
            Some(Gave::Wrote(count)) => {
                self.note(Heard::NOTHING);
                Some(Gave::Wrote(count))
            }
            Some(Gave::Failed) => {
                self.note(Heard::NOTHING);
                self.fault();
                Some(Gave::Failed)
            }
            None => {
                self.wait();
                None
            }
        }
    }

    fn has_left(&mut self) -> bool {
        if !self.link.has_left() {
            return false;
        }
        self.leaves = self.leaves.saturating_add(1);
        true
    }

    fn close(&mut self) {
        self.hang_up();
    }
}

// A link that is asked and never waits: where there is nothing now, it says so.
ghost use Rattle.std.specs.Prelude.{◌≡◌, ℕ, ◌<◌, ◌≤◌, List, Option, Some, Bool, length};

use crate::link::Link;
use crate::sink::Gave;
use crate::source::Got;

/// A connection that gives and takes without waiting. Its meaning is a link's, and beside it how often it had nothing to give
/// or no room to take, and how often it said that its peer has left: a link whose counts of these are constantly 0 always answers, and
/// never says so.
pub trait Polled {
    ghost use Rattle.bosh_ports.specs.Faults.{HasRisen};
    ghost use Rattle.bosh_ports.specs.Link.{Closes};
    ghost use Rattle.bosh_ports.specs.Polled.{PollTakes, PollCountsTake, PollGives, PollCountsGive, CountsWait, CountsLeft};
    ghost use Rattle.std.specs.Io.KnownBytes.{Keeps};

    // The bytes that are left to be taken, where the link tells them.
    ghost left: { Self → Option (List ℕ) };

    // The bytes that it was given, where the link tells them.
    ghost given: { Self → Option (List ℕ) };

    // Whether it was closed, where the link tells that.
    ghost closed: { Self → Option Bool };

    ghost faults: { Self → ℕ };

    // How often it answered that there is nothing now.
    ghost waits: { Self → ℕ };

    // How often it said that its peer has left.
    ghost leaves: { Self → ℕ };

    /// Takes the next bytes into the front of the room, or `None` where none came yet. Nothing is taken by `None`, `End` or
    /// `Failed`.
    fn poll_take(&mut self, into: &mut [u8]) -> Option<Got>
        requires { 0 < length into.old }
        ensures takes { PollTakes (left self.old) (left self.new) into.new result }
        ensures given { Keeps (given self.old) (given self.new) }
        ensures closed { closed self.new ≡ closed self.old }
        ensures failed { result ≡ Some Got.Failed → HasRisen (faults self.old) (faults self.new) }
        ensures counts { PollCountsTake (faults self.old) (faults self.new) result }
        ensures faults { faults self.old ≤ faults self.new }
        ensures waits { CountsWait (waits self.old) (waits self.new) result }
        ensures leaves { leaves self.new ≡ leaves self.old };

    /// Gives some of the bytes, from the front, or `None` where there is no room for any now. Nothing is given by `None` or
    /// `Failed`.
    fn poll_give(&mut self, bytes: &[u8]) -> Option<Gave>
        requires { 0 < length bytes.now }
        ensures gives { PollGives (given self.old) (given self.new) bytes.now result }
        ensures left { Keeps (left self.old) (left self.new) }
        ensures closed { closed self.new ≡ closed self.old }
        ensures failed { result ≡ Some Gave.Failed → HasRisen (faults self.old) (faults self.new) }
        ensures counts { PollCountsGive (faults self.old) (faults self.new) result }
        ensures faults { faults self.old ≤ faults self.new }
        ensures waits { CountsWait (waits self.old) (waits self.new) result }
        ensures leaves { leaves self.new ≡ leaves self.old };

    /// Whether the peer has closed or reset the connection, where nothing that it sent before is left to be taken. It takes no bytes, and
    /// says so only where that is known.
    fn has_left(&mut self) -> bool
        ensures leaves { CountsLeft (leaves self.old) (leaves self.new) result }
        ensures left { left self.new ≡ left self.old }
        ensures given { given self.new ≡ given self.old }
        ensures closed { closed self.new ≡ closed self.old }
        ensures faults { faults self.new ≡ faults self.old }
        ensures waits { waits self.new ≡ waits self.old };

    /// Whether it had room when it was last given bytes, and took none, since something else has to happen first. Who waits for that waits for
    /// a ring with `BellKey::STORED`.
    fn is_held(&self) -> bool {
        false
    }

    /// Tells the peer that nothing more will be taken or given. What was given stays given, and no fault is counted.
    fn close(&mut self)
        ensures closed { Closes (closed self.old) (closed self.new) }
        ensures left { Keeps (left self.old) (left self.new) }
        ensures given { Keeps (given self.old) (given self.new) }
        ensures faults { faults self.new ≡ faults self.old }
        ensures waits { waits self.new ≡ waits self.old }
        ensures leaves { leaves self.new ≡ leaves self.old };
}

/// A link that waits, where one that is asked is wanted: it always answers, and its peer stays.
#[derive(Drop)]
pub struct Waited<L: Link + Drop> {
    pub link: L,
}

impl<L: Link + Drop> Polled for Waited<L> {
    ghost left = { λ w. L.left w.link };

    ghost given = { λ w. L.given w.link };

    ghost closed = { λ w. L.closed w.link };

    ghost faults = { λ w. L.faults w.link };

    ghost waits = { λ _. 0 };

    ghost leaves = { λ _. 0 };

    fn poll_take(&mut self, into: &mut [u8]) -> Option<Got> {
        Some(self.link.take(into))
    }

    fn poll_give(&mut self, bytes: &[u8]) -> Option<Gave> {
        Some(self.link.give(bytes))
    }

    fn has_left(&mut self) -> bool {
        false
    }

    fn close(&mut self) {
        self.link.close();
    }
}

// A link that is asked and never waits.
ghost use Rattle.std.specs.Prelude.{◌≡◌, ℕ, ◌<◌, ◌≤◌, Some, length};

use bosh_ports::{Gave, Got, Link};

/// A link that gives and takes without waiting too. Where there is nothing to be had now, or no room, it answers `None` and counts
/// that: one whose count of these is constantly 0 always answers.
pub trait PollLink: Link {
    ghost use Rattle.std.specs.Io.KnownBytes.{Keeps};
    ghost use Rattle.bosh_ports.specs.Faults.{HasRisen};
    ghost use Rattle.bosh_ports.specs.Polled.{PollTakes, PollCountsTake, PollGives, PollCountsGive, CountsWait};

    // How often it answered that there is nothing now, or no room.
    ghost idle: { Self → ℕ };

    /// Takes the next bytes into the front of the room, or `None` where none came yet. Nothing is taken by `None`, `End` or
    /// `Failed`.
    fn try_take(&mut self, into: &mut [u8]) -> Option<Got>
        requires { 0 < length into.old }
        ensures takes { PollTakes (Self.left self.old) (Self.left self.new) into.new result }
        ensures given { Keeps (Self.given self.old) (Self.given self.new) }
        ensures failed { result ≡ Some Got.Failed → HasRisen (Self.faults self.old) (Self.faults self.new) }
        ensures counts { PollCountsTake (Self.faults self.old) (Self.faults self.new) result }
        ensures faults { Self.faults self.old ≤ Self.faults self.new }
        ensures idle { CountsWait (idle self.old) (idle self.new) result }
        ensures never_falls { idle self.old ≤ idle self.new };

    /// Gives some of the bytes, from the front, or `None` where there is no room for any now. Nothing is given by `None` or
    /// `Failed`.
    fn try_give(&mut self, bytes: &[u8]) -> Option<Gave>
        requires { 0 < length bytes.now }
        ensures gives { PollGives (Self.given self.old) (Self.given self.new) bytes.now result }
        ensures left { Keeps (Self.left self.old) (Self.left self.new) }
        ensures failed { result ≡ Some Gave.Failed → HasRisen (Self.faults self.old) (Self.faults self.new) }
        ensures counts { PollCountsGive (Self.faults self.old) (Self.faults self.new) result }
        ensures faults { Self.faults self.old ≤ Self.faults self.new }
        ensures idle { CountsWait (idle self.old) (idle self.new) result }
        ensures never_falls { idle self.old ≤ idle self.new };

    /// Tells the peer that nothing more will be given. What comes may still be taken, and no fault is counted.
    fn finish(&mut self)
        ensures left { Keeps (Self.left self.old) (Self.left self.new) }
        ensures given { Keeps (Self.given self.old) (Self.given self.new) }
        ensures faults { Self.faults self.new ≡ Self.faults self.old }
        ensures idle { idle self.new ≡ idle self.old };
}

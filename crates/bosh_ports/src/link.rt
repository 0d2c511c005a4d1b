// A connection: bytes come from it, and bytes go to it.
ghost use Rattle.std.specs.Prelude.{◌≡◌, ℕ, ◌<◌, ◌≤◌, List, Option, Bool, length};

use crate::sink::Gave;
use crate::source::Got;

/// A stream of bytes that is taken and one that is given, each in pieces, and how often either failed.
pub trait Link {
    ghost use Rattle.std.specs.Io.KnownBytes.{Keeps};
    ghost use Rattle.bosh_ports.specs.Faults.{HasRisen};
    ghost use Rattle.bosh_ports.specs.Source.{Takes, CountsTake};
    ghost use Rattle.bosh_ports.specs.Sink.{Gives, CountsGive};
    ghost use Rattle.bosh_ports.specs.Link.{Closes};

    // The bytes that are left to be taken, where the link tells them.
    ghost left: { Self → Option (List ℕ) };

    // The bytes that it was given, where the link tells them.
    ghost given: { Self → Option (List ℕ) };

    // Whether it was closed, where the link tells that.
    ghost closed: { Self → Option Bool };

    ghost faults: { Self → ℕ };

    /// Takes the next bytes into the front of the room. Nothing is taken by `End` or `Failed`.
    fn take(&mut self, into: &mut [u8]) -> Got
        requires { 0 < length into.old }
        ensures takes { Takes (left self.old) (left self.new) into.new result }
        ensures given { Keeps (given self.old) (given self.new) }
        ensures closed { closed self.new ≡ closed self.old }
        ensures failed { result ≡ Got.Failed → HasRisen (faults self.old) (faults self.new) }
        ensures counts { CountsTake (faults self.old) (faults self.new) result }
        ensures faults { faults self.old ≤ faults self.new };

    /// Gives some of the bytes, from the front. Nothing is given by `Failed`.
    fn give(&mut self, bytes: &[u8]) -> Gave
        requires { 0 < length bytes.now }
        ensures gives { Gives (given self.old) (given self.new) bytes.now result }
        ensures left { Keeps (left self.old) (left self.new) }
        ensures closed { closed self.new ≡ closed self.old }
        ensures failed { result ≡ Gave.Failed → HasRisen (faults self.old) (faults self.new) }
        ensures counts { CountsGive (faults self.old) (faults self.new) result }
        ensures faults { faults self.old ≤ faults self.new };

    /// Tells the peer that nothing more will be taken or given. What was given stays given, and no fault is counted.
    fn close(&mut self)
        ensures closed { Closes (closed self.old) (closed self.new) }
        ensures left { Keeps (left self.old) (left self.new) }
        ensures given { Keeps (given self.old) (given self.new) }
        ensures faults { faults self.new ≡ faults self.old };
}

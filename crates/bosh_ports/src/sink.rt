// Where bytes go.
ghost use Rattle.std.specs.Prelude.{◌≡◌, ℕ, ◌<◌, ◌≤◌, List, Option, length};

/// What a give did.
#[derive(Clone, Copy, Debug, PartialEq, Eq)]
pub enum Gave {
    /// So many bytes were taken off the front, one at least.
    Wrote(usize),
    Failed,
}

/// A stream of bytes that is given in pieces, and how often giving failed.
pub trait Sink {
    ghost use Rattle.bosh_ports.specs.Faults.{HasRisen};
    ghost use Rattle.bosh_ports.specs.Sink.{Gives, CountsGive};

    // The bytes that it was given, where the sink tells them.
    ghost given: { Self → Option (List ℕ) };

    ghost faults: { Self → ℕ };

    /// Gives some of the bytes, from the front. Nothing is given by `Failed`.
    fn give(&mut self, bytes: &[u8]) -> Gave
        requires { 0 < length bytes.now }
        ensures gives { Gives (given self.old) (given self.new) bytes.now result }
        ensures failed { result ≡ Gave.Failed → HasRisen (faults self.old) (faults self.new) }
        ensures counts { CountsGive (faults self.old) (faults self.new) result }
        ensures faults { faults self.old ≤ faults self.new };
}

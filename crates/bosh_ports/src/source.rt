// Where bytes come from.
ghost use Rattle.std.specs.Prelude.{◌≡◌, ℕ, ◌<◌, ◌≤◌, List, Option, length, min, take};

/// What a take gave.
#[derive(Clone, Copy, Debug, PartialEq, Eq)]
pub enum Got {
    /// So many bytes, one at least, at the front of the room.
    Bytes(usize),
    End,
    Failed,
}

/// A stream of bytes that is taken in pieces, and how often taking failed.
pub trait Source {
    ghost use Rattle.bosh_ports.specs.Faults.{HasRisen};
    ghost use Rattle.bosh_ports.specs.Source.{Takes, CountsTake};

    // The bytes that are left, where the source tells them.
    ghost left: { Self → Option (List ℕ) };

    ghost faults: { Self → ℕ };

    /// Takes the next bytes into the front of the room. Nothing is taken by `End` or `Failed`.
    fn take(&mut self, into: &mut [u8]) -> Got
        requires { 0 < length into.old }
        ensures takes { Takes (left self.old) (left self.new) into.new result }
        ensures failed { result ≡ Got.Failed → HasRisen (faults self.old) (faults self.new) }
        ensures counts { CountsTake (faults self.old) (faults self.new) result }
        ensures faults { faults self.old ≤ faults self.new };
}

// Copies as much of the front as there is room for, and says how much that is.
pub(crate) fn copy_front(from: &[u8], into: &mut [u8]) -> usize
    ensures count { result ≡ min (length from.now) (length into.old) }
    ensures bytes { take result into.new ≡ take result from.now }
{
    let n = from.len().min(into.len());
    into[..n].copy_from_slice(&from[..n]);
    n
}

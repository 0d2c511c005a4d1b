// Ports without faults: their count is constantly 0.
ghost use Rattle.std.specs.Prelude.{◌≡◌, ℕ, List, Some, None};

use crate::sink::{Gave, Sink};
use crate::source::{Got, Source, copy_front};
use std::marker::Model;

/// A source over bytes in memory that never fails.
#[derive(Debug, Drop)]
pub struct QuietSource {
    bytes: Vec<u8>,
    taken: usize,
}

impl Model for QuietSource {
    ghost use Rattle.std.specs.Prelude.{ℕ, ◌≤◌, List, drop, vec_len};

    ghost Value = { List ℕ };

    ghost view = { λ s. drop s.taken s.bytes.items };

    ghost invariant = { λ s. s.taken ≤ vec_len s.bytes };
}

impl QuietSource {
    pub fn new(bytes: Vec<u8>) -> Self
        ensures { result ≡ bytes.items }
    {
        QuietSource { bytes, taken: 0 }
    }
}

impl Source for QuietSource {
    ghost left = { λ s. Some s };

    ghost faults = { λ _. 0 };

    fn take(&mut self, into: &mut [u8]) -> Got {
        let n = copy_front(&self.bytes[self.taken..], into);
        if n == 0 {
            return Got::End;
        }
        self.taken += n;
        Got::Bytes(n)
    }
}

/// A sink that takes everything, keeps nothing and tells nothing. One that kept its bytes could want memory, which it
/// would have to count as a fault.
#[derive(Clone, Copy, Debug)]
pub struct Discard;

impl Sink for Discard {
    ghost given = { λ _. None };

    ghost faults = { λ _. 0 };

    fn give(&mut self, bytes: &[u8]) -> Gave {
        Gave::Wrote(bytes.len())
    }
}

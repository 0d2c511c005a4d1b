// A link without faults: its count is constantly 0.
ghost use Rattle.std.specs.Prelude.{◌≡◌, Some, None, false};

use crate::link::Link;
use crate::quiet::{Discard, QuietSource};
use crate::sink::{Gave, Sink};
use crate::source::{Got, Source};

/// A link over bytes in memory that never fails. It tells what is left to be taken, and keeps and tells nothing of what
/// it is given.
#[derive(Debug, Drop)]
pub struct QuietLink {
    pub source: QuietSource,
    pub is_closed: bool,
}

impl QuietLink {
    pub fn new(bytes: Vec<u8>) -> Self
        ensures source { result.source ≡ bytes.items }
        ensures is_closed { result.is_closed ≡ false }
    {
        QuietLink {
            source: QuietSource::new(bytes),
            is_closed: false,
        }
    }
}

impl Link for QuietLink {
    ghost left = { λ l. Some l.source };

    ghost given = { λ _. None };

    ghost closed = { λ l. Some l.is_closed };

    ghost faults = { λ _. 0 };

    fn take(&mut self, into: &mut [u8]) -> Got {
        self.source.take(into)
    }

    fn give(&mut self, bytes: &[u8]) -> Gave {
        Discard.give(bytes)
    }

    fn close(&mut self) {
        self.is_closed = true;
    }
}

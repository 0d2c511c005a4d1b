// A link in memory that comes in pieces, takes little at a time and fails at one call, and counts its calls.
ghost use Rattle.std.specs.Prelude.{◌≡◌, None};

use bosh_ports::{Gave, Got, Link};
use std::alloc::{AllocError, Global};

/// How a link gives its bytes and takes others.
#[derive(Clone, Copy)]
pub struct Manner {
    /// How many bytes a take gives, at most.
    pub size: usize,
    /// The take that fails; 0 is none.
    pub failing_take: u64,
    /// How many bytes a give takes, at most.
    pub most: usize,
    /// The give that fails; 0 is none.
    pub failing_give: u64,
}

impl Manner {
    /// As much as there is, and no fault.
    pub const PLAIN: Manner = Manner {
        size: 65536,
        failing_take: 0,
        most: 65536,
        failing_give: 0,
    };
}

#[derive(Drop)]
pub struct RowLink {
    manner: Manner,
    bytes: Vec<u8>,
    taken: usize,
    pub given: Vec<u8>,
    pub takes: u64,
    /// How many bytes had been given after each give.
    pub lengths: Vec<usize>,
    faults: u64,
}

impl RowLink {
    pub fn new(alloc: Global, bytes: &[u8], manner: Manner) -> Result<RowLink, AllocError> {
        Ok(RowLink {
            manner,
            bytes: Vec::from_slice(alloc, bytes)?,
            taken: 0,
            given: Vec::new(alloc),
            takes: 0,
            lengths: Vec::new(alloc),
            faults: 0,
        })
    }

    // The bytes that come next, at most so many.
    fn next(&self, most: usize) -> &[u8] {
        let left = self.bytes.get(self.taken..).unwrap_or(&[]);
        left.get(..most).unwrap_or(left)
    }

    // Keeps what it is given, where memory allows it.
    fn keep(&mut self, bytes: &[u8]) -> bool
        ensures { self.new.faults ≡ self.old.faults }
    {
        if self.given.extend_from_slice(bytes).is_err() {
            return false;
        }
        self.lengths.push(self.given.len()).is_ok()
    }
}

impl Link for RowLink {
    ghost left = { λ _. None };

    ghost given = { λ _. None };

    ghost closed = { λ _. None };

    ghost faults = { λ l. l.faults };

    fn take(&mut self, into: &mut [u8]) -> Got {
        self.takes = self.takes.saturating_add(1);
        if self.takes == self.manner.failing_take {
            self.faults = self.faults.saturating_add(1);
            return Got::Failed;
        }
        let most = self.manner.size.min(into.len());
        let next = self.next(most);
        let count = next.len().min(into.len());
        if count == 0 {
            return Got::End;
        }
        into[..count].copy_from_slice(&next[..count]);
        self.taken = self.taken.saturating_add(count);
        Got::Bytes(count)
    }

    fn give(&mut self, bytes: &[u8]) -> Gave {
        let number = (self.lengths.len() as u64).saturating_add(1);
        let count = bytes.len().min(self.manner.most.max(1));
        if number == self.manner.failing_give || !self.keep(&bytes[..count]) {
            self.faults = self.faults.saturating_add(1);
            return Gave::Failed;
        }
        Gave::Wrote(count)
    }

    fn close(&mut self) {}
}

// The bytes that came and that no message has given yet.
ghost use Rattle.std.specs.Prelude.{◌≡◌, ◌≢◌, ◌<◌, ◌≤◌, ◌+◌, ℕ, List, [], ◌++◌, length, take, drop, slice_range, OnOk, OnErr, IfOk, Ok, ◌==◌};
ghost use Rattle.std.specs.Io.KnownBytes.{Keeps, IsAtEnd};
ghost use Rattle.bosh_ports.specs.Faults.{HasRisen};

use crate::room::Room;
use bosh_ports::{Got, Link};
use std::alloc::{AllocError, Global};
use std::marker::Model;

// What taking more did.
#[derive(Clone, Copy, Debug, PartialEq, Eq)]
pub(crate) enum Filled {
    More,
    End,
    Failed,
}

// The bytes that came, and that no message has given yet.
#[derive(Debug, Drop)]
pub(crate) struct Taken {
    room: Room,
}

impl Model for Taken {
    ghost use Rattle.std.specs.Prelude.{ℕ, List, ◌≤◌, slice_range, vec_len};

    ghost Value = { List ℕ };

    ghost view = { λ t. slice_range t.room.bytes.items t.room.start t.room.end };

    ghost invariant = { λ t. (t.room.start ≤ t.room.end) × (t.room.end ≤ vec_len t.room.bytes) };
}

impl Taken {
    ghost use Rattle.bosh_http.specs.Taking.{TakesMore};

    pub(crate) fn new(alloc: Global) -> Self
        ensures { result ≡ [] }
    {
        Taken {
            room: Room::new(alloc),
        }
    }

    pub(crate) fn as_slice(&self) -> &[u8]
        ensures { result.now ≡ self.now }
    {
        &self.room.bytes[self.room.start..self.room.end]
    }

    pub(crate) fn len(&self) -> usize
        ensures { result ≡ length self.now }
    {
        self.room.end - self.room.start
    }

    // Takes more off the link.
    pub(crate) fn fill<L: Link>(&mut self, link: &mut L) -> Result<Filled, AllocError>
        ensures takes { TakesMore (L.left link.old) (L.left link.new) self.old self.new }
        ensures more { result ≡ Ok Filled.More → length self.old < length self.new }
        ensures none { result ≡ Ok Filled.End → self.new ≡ self.old }
        ensures end { result ≡ Ok Filled.End → IsAtEnd (L.left link.old) }
        ensures same { result ≡ Ok Filled.End → Keeps (L.left link.old) (L.left link.new) }
        ensures unchanged { result ≡ Ok Filled.Failed → self.new ≡ self.old }
        ensures given { Keeps (L.given link.old) (L.given link.new) }
        ensures failed { result ≡ Ok Filled.Failed → HasRisen (L.faults link.old) (L.faults link.new) }
        ensures quiet { result ≢ Ok Filled.Failed → L.faults link.new ≡ L.faults link.old }
        ensures faults { L.faults link.old ≤ L.faults link.new }
    {
        self.room.reserve(1)?;
        match self.room.take(link) {
            Got::Bytes(count) => {
                self.room.end += count;
                Ok(Filled::More)
            }
            Got::End => Ok(Filled::End),
            Got::Failed => Ok(Filled::Failed),
        }
    }

    // Takes these bytes.
    pub(crate) fn give(&mut self, bytes: &[u8]) -> Result<(), AllocError>
        ensures ok { OnOk result (self.new ≡ self.old ++ bytes.now) }
        ensures err { OnErr result (self.new ≡ self.old) }
        ensures grows { (more : List ℕ) × (self.new ≡ self.old ++ more) }
    {
        self.room.reserve(bytes.len())?;
        self.room.put(bytes);
        Ok(())
    }

    // A copy of the bytes from start to end.
    pub(crate) fn copy(
        &self,
        alloc: Global,
        start: usize,
        end: usize,
    ) -> Result<Vec<u8>, AllocError>
        requires ordered { start ≤ end }
        requires within { end ≤ length self.now }
        ensures { IfOk result (λ bytes. bytes.items ≡ slice_range self.now start end) }
    {
        Vec::from_slice(alloc, &self.as_slice()[start..end])
    }

    // Lets go of so many bytes from the front.
    pub(crate) fn pass(&mut self, count: usize)
        requires { count ≤ length self.old }
        ensures { self.new ≡ drop count self.old }
    {
        if self.room.start + count == self.room.end {
            self.room.clear();
            return;
        }
        self.room.start += count;
    }
}

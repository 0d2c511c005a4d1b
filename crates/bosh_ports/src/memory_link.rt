// A link in memory, which tells its bytes and fails at listed calls.
ghost use Rattle.std.specs.Prelude.{◌≡◌, ℕ, ◌<◌, ◌≤◌, ◌↔◌, ◌+◌, List, [], Some, length, true, drop};
ghost use Rattle.bosh_ports.specs.Faults.{HasRisen};
ghost use Rattle.bosh_ports.specs.Memory.{Memory, IsNextToFail, counted_up};
ghost use Rattle.bosh_ports.specs.Link.{MemoryLink, GivesAtMost, next_piece};

use crate::link::Link;
use crate::memory::{MemorySink, MemorySource};
use crate::sink::{Gave, Sink};
use crate::source::{Got, Source};
use std::alloc::Global;
use std::marker::Model;

/// A link over bytes in memory. A source gives them, in pieces of the stated sizes, and a sink keeps what the link is
/// given. Each fails at its listed calls, and a fault of either is the link's.
#[derive(Debug, Drop)]
pub struct MemoryLink {
    source: MemorySource,
    sink: MemorySink,
    pieces: Vec<usize>,
    next: usize,
    is_closed: bool,
}

impl Model for MemoryLink {
    ghost use Rattle.std.specs.Prelude.{◌≤◌, drop, vec_len};
    ghost use Rattle.bosh_ports.specs.Link.{MemoryLink};

    ghost Value = { MemoryLink };

    ghost view = { λ l. record { taking = l.source; giving = l.sink; pieces = drop l.next l.pieces.items; is_closed = l.is_closed } };

    ghost invariant = { λ l. l.next ≤ vec_len l.pieces };
}

impl MemoryLink {
    ghost use Rattle.std.specs.Prelude.{false};

    /// The bytes are taken in pieces of these sizes, and after them in pieces as large as the room. A size of 0 counts as 1.
    pub fn new(source: MemorySource, sink: MemorySink, pieces: Vec<usize>) -> Self
        ensures taking { result.taking ≡ source }
        ensures giving { result.giving ≡ sink }
        ensures pieces { result.pieces ≡ pieces.items }
        ensures is_closed { result.is_closed ≡ false }
    {
        MemoryLink {
            source,
            sink,
            pieces,
            next: 0,
            is_closed: false,
        }
    }

    /// What it was given so far.
    pub fn as_slice(&self) -> &[u8]
        ensures { result.now ≡ self.now.giving.bytes }
    {
        self.sink.as_slice()
    }

    pub fn is_closed(&self) -> bool
        ensures { result ≡ self.now.is_closed }
    {
        self.is_closed
    }

    // How much of the room the next piece may fill.
    fn piece(&mut self, room: usize) -> usize
        ensures size { result ≡ next_piece self.old.pieces room }
        ensures pieces { self.new.pieces ≡ drop 1 self.old.pieces }
        ensures others { self.new ≡ record self.old { pieces = self.new.pieces } }
    {
        match self.pieces.get(self.next) {
            Some(size) => {
                let size = (*size).max(1);
                self.next += 1;
                room.min(size)
            }
            None => room,
        }
    }
}

impl Link for MemoryLink {
    ghost use Rattle.std.specs.Io.KnownBytes.{Keeps};
    ghost use Rattle.bosh_ports.specs.Source.{Takes, CountsTake};
    ghost use Rattle.bosh_ports.specs.Sink.{Gives, CountsGive};

    ghost left = { λ l. Some l.taking.bytes };

    ghost given = { λ l. Some l.giving.bytes };

    ghost closed = { λ l. Some l.is_closed };

    ghost faults = { λ l. l.taking.faults + l.giving.faults };

    fn take(&mut self, into: &mut [u8]) -> Got
        requires { 0 < length into.old }
        ensures takes { Takes (Some self.old.taking.bytes) (Some self.new.taking.bytes) into.new result }
        ensures given { self.new.giving.bytes ≡ self.old.giving.bytes }
        ensures closed { self.new.is_closed ≡ self.old.is_closed }
        ensures failed { result ≡ Got.Failed → HasRisen (self.old.taking.faults + self.old.giving.faults) (self.new.taking.faults + self.new.giving.faults) }
        ensures counts { CountsTake (self.old.taking.faults + self.old.giving.faults) (self.new.taking.faults + self.new.giving.faults) result }
        ensures faults { self.old.taking.faults + self.old.giving.faults ≤ self.new.taking.faults + self.new.giving.faults }

        // It fails at the listed calls and at no others, and gives no more than the next piece has.
        ensures listed { (result ≡ Got.Failed) ↔ (IsNextToFail self.old.taking) }
        ensures piece { GivesAtMost (next_piece self.old.pieces (length into.old)) result }

        // A call more was made of the source, and one piece is spent; nothing else is changed.
        ensures calls { self.new.taking.calls ≡ counted_up self.old.taking.calls }
        ensures failing { self.new.taking.failing ≡ self.old.taking.failing }
        ensures pieces { self.new.pieces ≡ drop 1 self.old.pieces }
        ensures giving { self.new.giving ≡ self.old.giving }
    {
        let size = self.piece(into.len());
        self.source.take(&mut into[..size])
    }

    fn give(&mut self, bytes: &[u8]) -> Gave
        requires { 0 < length bytes.now }
        ensures gives { Gives (Some self.old.giving.bytes) (Some self.new.giving.bytes) bytes.now result }
        ensures left { self.new.taking.bytes ≡ self.old.taking.bytes }
        ensures closed { self.new.is_closed ≡ self.old.is_closed }
        ensures failed { result ≡ Gave.Failed → HasRisen (self.old.taking.faults + self.old.giving.faults) (self.new.taking.faults + self.new.giving.faults) }
        ensures counts { CountsGive (self.old.taking.faults + self.old.giving.faults) (self.new.taking.faults + self.new.giving.faults) result }
        ensures faults { self.old.taking.faults + self.old.giving.faults ≤ self.new.taking.faults + self.new.giving.faults }

        // It fails at the listed calls, and at others for want of memory alone.
        ensures listed { IsNextToFail self.old.giving → result ≡ Gave.Failed }

        // A call more was made of the sink; nothing else is changed.
        ensures calls { self.new.giving.calls ≡ counted_up self.old.giving.calls }
        ensures failing { self.new.giving.failing ≡ self.old.giving.failing }
        ensures others { self.new ≡ record self.old { giving = self.new.giving } }
    {
        self.sink.give(bytes)
    }

    fn close(&mut self)
        ensures others { self.new ≡ record self.old { is_closed = true } }
    {
        self.is_closed = true;
    }
}

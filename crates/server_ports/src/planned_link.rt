// Links in memory that are planned before someone accepts or dials them.
ghost use Rattle.std.specs.Prelude.{◌≡◌, ◌<◌, ◌≤◌, ◌↔◌, [], Some, length};
ghost use Rattle.bosh_ports.specs.Faults.{HasRisen};
ghost use Rattle.bosh_ports.specs.Link.{GivesAtMost, next_piece};
ghost use Rattle.bosh_ports.specs.Memory.{IsNextToFail};

use crate::counting::one_more_fault;
use bosh_ports::{Gave, Got, Link, MemoryLink, MemorySink, MemorySource, Polled};
use std::alloc::Global;

/// What a link will be: the bytes that it gives and the sizes of the pieces in which they come, and the numbers of the takes and
/// of the gives that fail.
#[derive(Debug, Drop)]
pub struct LinkPlan {
    pub bytes: Vec<u8>,
    pub pieces: Vec<usize>,
    pub failing_takes: Vec<u64>,
    pub failing_gives: Vec<u64>,
}

impl LinkPlan {
    /// A link that gives these bytes, in pieces as large as there is room for, and fails at no call.
    pub fn new(alloc: Global, bytes: Vec<u8>) -> LinkPlan
        ensures bytes { result.bytes ≡ bytes }
        ensures pieces { result.pieces.items ≡ [] }
        ensures takes { result.failing_takes.items ≡ [] }
        ensures gives { result.failing_gives.items ≡ [] }
    {
        LinkPlan {
            bytes,
            pieces: Vec::new(alloc),
            failing_takes: Vec::new(alloc),
            failing_gives: Vec::new(alloc),
        }
    }
}

/// A link over bytes in memory that counts its faults itself.
#[derive(Debug, Drop)]
pub struct PlannedLink {
    pub link: MemoryLink,
    pub faults: u64,
}

impl PlannedLink {
    /// The link of a plan. It takes no memory.
    pub fn new(alloc: Global, plan: LinkPlan) -> PlannedLink
        ensures left { result.link.taking.bytes ≡ plan.bytes.items }
        ensures pieces { result.link.pieces ≡ plan.pieces.items }
        ensures takes { result.link.taking.failing ≡ plan.failing_takes.items }
        ensures gives { result.link.giving.failing ≡ plan.failing_gives.items }
        ensures given { result.link.giving.bytes ≡ [] }
        ensures faults { result.faults ≡ 0 }
    {
        let source = MemorySource::new(plan.bytes, plan.failing_takes);
        let sink = MemorySink::new(alloc, plan.failing_gives);
        PlannedLink {
            link: MemoryLink::new(source, sink, plan.pieces),
            faults: 0,
        }
    }
}

impl Link for PlannedLink {
    ghost use Rattle.bosh_ports.specs.Source.{Takes, CountsTake};
    ghost use Rattle.bosh_ports.specs.Sink.{Gives, CountsGive};

    ghost left = { λ l. Some l.link.taking.bytes };

    ghost given = { λ l. Some l.link.giving.bytes };

    ghost closed = { λ l. Some l.link.is_closed };

    ghost faults = { λ l. l.faults };

    fn take(&mut self, into: &mut [u8]) -> Got
        requires { 0 < length into.old }
        ensures takes { Takes (Some self.old.link.taking.bytes) (Some self.new.link.taking.bytes) into.new result }
        ensures given { self.new.link.giving.bytes ≡ self.old.link.giving.bytes }
        ensures closed { self.new.link.is_closed ≡ self.old.link.is_closed }
        ensures failed { result ≡ Got.Failed → HasRisen self.old.faults self.new.faults }
        ensures counts { CountsTake self.old.faults self.new.faults result }
        ensures faults { self.old.faults ≤ self.new.faults }

        // It fails at the listed takes and at no others, and gives no more than the next piece has.
        ensures listed { (result ≡ Got.Failed) ↔ (IsNextToFail self.old.link.taking) }
        ensures piece { GivesAtMost (next_piece self.old.link.pieces (length into.old)) result }
        ensures giving { self.new.link.giving ≡ self.old.link.giving }
    {
        let got = self.link.take(into);
        if got == Got::Failed {
            self.faults = one_more_fault(self.faults);
        }
        got
    }

    fn give(&mut self, bytes: &[u8]) -> Gave
        requires { 0 < length bytes.now }
        ensures gives { Gives (Some self.old.link.giving.bytes) (Some self.new.link.giving.bytes) bytes.now result }
        ensures left { self.new.link.taking.bytes ≡ self.old.link.taking.bytes }
        ensures closed { self.new.link.is_closed ≡ self.old.link.is_closed }
        ensures failed { result ≡ Gave.Failed → HasRisen self.old.faults self.new.faults }
        ensures counts { CountsGive self.old.faults self.new.faults result }
        ensures faults { self.old.faults ≤ self.new.faults }

        // It fails at the listed gives, and at others for want of memory alone.
        ensures listed { IsNextToFail self.old.link.giving → result ≡ Gave.Failed }
        ensures others { self.new.link ≡ record self.old.link { giving = self.new.link.giving } }
    {
        let gave = self.link.give(bytes);
        if gave == Gave::Failed {
            self.faults = one_more_fault(self.faults);
        }
        gave
    }

    fn close(&mut self) {
        self.link.close();
    }
}

/// It has all its bytes from the beginning, and so it always answers where it is asked. Its peer stays.
impl Polled for PlannedLink {
    ghost left = { λ l. Some l.link.taking.bytes };

    ghost given = { λ l. Some l.link.giving.bytes };

    ghost closed = { λ l. Some l.link.is_closed };

    ghost faults = { λ l. l.faults };

    ghost waits = { λ _. 0 };

    ghost leaves = { λ _. 0 };

    fn poll_take(&mut self, into: &mut [u8]) -> Option<Got> {
        Some(self.take(into))
    }

    fn poll_give(&mut self, bytes: &[u8]) -> Option<Gave> {
        Some(self.give(bytes))
    }

    fn has_left(&mut self) -> bool {
        false
    }

    fn close(&mut self) {
        self.link.close();
    }
}

/// What became of a link: it began, with the port at which it was dialled, if it was, and the bytes that it has to be taken; or it was retired.
#[derive(Debug, Drop)]
pub enum Past {
    Began(Option<u16>, Vec<u8>),
    Retired(PlannedLink),
}

// A link that has nothing at listed calls, and whose peer may leave.
ghost use Rattle.std.specs.Prelude.{◌≡◌, ◌↔◌, Contains, IsTrue, None};
ghost use Rattle.bosh_ports.specs.Memory.{counted_up};

use bosh_ports::{Gave, Got, Link, Polled};

/// A link that is asked, over one that would wait. Its calls that take or give are counted together, from 1, and those whose
/// numbers are listed have nothing now; the others are the other link's. Its peer stays, or has left from the question with this number on,
/// counted from 1.
#[derive(Drop)]
pub struct Paced<L: Link + Drop> {
    pub link: L,
    pub pauses: Vec<u64>,
    pub calls: u64,
    pub waits: u64,
    pub left_at: Option<u64>,
    pub questions: u64,
    pub leaves: u64,
}

// One more, where the type has it.
fn counted_up(count: u64) -> u64
    ensures { result ≡ counted_up count }
{
    count.saturating_add(1)
}

// Whether the peer has left by the question with this number.
fn is_left_by(left_at: Option<u64>, question: u64) -> bool {
    match left_at {
        Some(first) => first <= question,
        None => false,
    }
}

impl<L: Link + Drop> Paced<L> {
    /// No call was made yet, and its peer stays. It takes no memory.
    pub fn new(link: L, pauses: Vec<u64>) -> Paced<L>
        ensures link { result.link ≡ link }
        ensures pauses { result.pauses ≡ pauses }
        ensures calls { result.calls ≡ 0 }
        ensures waits { result.waits ≡ 0 }
        ensures stays { result.left_at ≡ None }
        ensures questions { result.questions ≡ 0 }
        ensures leaves { result.leaves ≡ 0 }
    {
        Paced {
            link,
            pauses,
            calls: 0,
            waits: 0,
            left_at: None,
            questions: 0,
            leaves: 0,
        }
    }

    // Counts a call, and says whether it has nothing.
    fn pauses(&mut self) -> bool
        ensures listed { IsTrue result ↔ (Contains self.old.pauses.items (counted_up self.old.calls)) }
        ensures calls { self.new ≡ record self.old { calls = counted_up self.old.calls } }
    {
        self.calls = counted_up(self.calls);
        self.pauses.contains(&self.calls)
    }
}

impl<L: Link + Drop> Polled for Paced<L> {
    ghost left = { λ p. L.left p.link };

    ghost given = { λ p. L.given p.link };

    ghost closed = { λ p. L.closed p.link };

    ghost faults = { λ p. L.faults p.link };

    ghost waits = { λ p. p.waits };

    ghost leaves = { λ p. p.leaves };

    fn poll_take(&mut self, into: &mut [u8]) -> Option<Got> {
        if self.pauses() {
            self.waits = counted_up(self.waits);
            return None;
        }
        Some(self.link.take(into))
    }

    fn poll_give(&mut self, bytes: &[u8]) -> Option<Gave> {
        if self.pauses() {
            self.waits = counted_up(self.waits);
            return None;
        }
        Some(self.link.give(bytes))
    }

    fn has_left(&mut self) -> bool {
        self.questions = counted_up(self.questions);
        if !is_left_by(self.left_at, self.questions) {
            return false;
        }
        self.leaves = counted_up(self.leaves);
        true
    }

    fn close(&mut self) {
        self.link.close();
    }
}

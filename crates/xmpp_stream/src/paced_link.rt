// A link that has nothing at listed calls.
ghost use Rattle.std.specs.Prelude.{◌≡◌, ◌↔◌, Contains, IsTrue};
ghost use Rattle.bosh_ports.specs.Memory.{counted_up};

use crate::poll_link::PollLink;
use bosh_ports::{Gave, Got, Link};

/// A link that is asked, over one that would wait. Its calls that give or take without waiting are counted together, from 1, and
/// those whose numbers are listed have nothing now; the others are the other link's.
#[derive(Drop)]
pub struct PacedLink<L: Link + Drop> {
    pub link: L,
    pub pauses: Vec<u64>,
    pub calls: u64,
    pub idle: u64,
}

// One more, where the type has it.
fn counted_up(count: u64) -> u64
    ensures { result ≡ counted_up count }
{
    count.saturating_add(1)
}

impl<L: Link + Drop> PacedLink<L> {
    /// No call was made yet. It takes no memory.
    pub fn new(link: L, pauses: Vec<u64>) -> PacedLink<L>
        ensures link { result.link ≡ link }
        ensures pauses { result.pauses ≡ pauses }
        ensures calls { result.calls ≡ 0 }
        ensures idle { result.idle ≡ 0 }
    {
        PacedLink {
            link,
            pauses,
            calls: 0,
            idle: 0,
        }
    }

    // Counts a call, and says whether it has nothing.
    fn pauses(&mut self) -> bool
        ensures listed { IsTrue result ↔ (Contains self.old.pauses.items (counted_up self.old.calls)) }
        ensures calls { self.new ≡ record self.old { calls = counted_up self.old.calls } }
    {
        self.calls = counted_up(self.calls);
        self.pauses.contains(&self.calls)
    }
}

impl<L: Link + Drop> Link for PacedLink<L> {
    ghost left = { λ l. L.left l.link };

    ghost given = { λ l. L.given l.link };

    ghost closed = { λ l. L.closed l.link };

    ghost faults = { λ l. L.faults l.link };

    fn take(&mut self, into: &mut [u8]) -> Got {
        self.link.take(into)
    }

    fn give(&mut self, bytes: &[u8]) -> Gave {
        self.link.give(bytes)
    }

    fn close(&mut self) {
        self.link.close();
    }
}

impl<L: Link + Drop> PollLink for PacedLink<L> {
    ghost idle = { λ l. l.idle };

    fn try_take(&mut self, into: &mut [u8]) -> Option<Got> {
        if self.pauses() {
            self.idle = counted_up(self.idle);
            return None;
        }
        Some(self.link.take(into))
    }

    fn try_give(&mut self, bytes: &[u8]) -> Option<Gave> {
        if self.pauses() {
            self.idle = counted_up(self.idle);
            return None;
        }
        Some(self.link.give(bytes))
    }

    fn finish(&mut self) {}
}

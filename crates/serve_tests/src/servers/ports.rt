// A network in memory that shows what its links are given while they are served, and a bell that doesn't wait long.
ghost use Rattle.std.specs.Prelude.{◌≡◌, None, Some, [], ⊤};

use bosh_ports::{Bell, BellKey, Gave, Got, Link, Polled, Woken};
use server_ports::{Accepted, Dialled, LinkPlan, Network, Opened, PlannedLink, Shared};
use std::alloc::AllocError;
use std::collections::VecDeque;
use std::rt::Clock;
use std::sync::{Arc, Mutex, Wait};
use std::thread;
use std::time::Duration;

/// What a link was given so far, for all to see.
pub(crate) type Given = Arc<Mutex<Vec<u8>>>;

/// How often the bell pauses, at most.
const PAUSES: u32 = 1000;

/// What a link will be. Where it comes after another one, it has nothing but a lead until that one was given something.
#[derive(Drop)]
pub(crate) struct ShownPlan<R: Wait + Clock + Copy + Drop> {
    pub(crate) rt: R,
    pub(crate) plan: LinkPlan,
    pub(crate) given: Given,
    pub(crate) after: Option<Given>,
    /// How many pieces of it come before.
    pub(crate) lead: usize,
    /// Its peer leaves once its requests were read.
    pub(crate) is_left: bool,
}

/// A link that tells what it carries, and shows what it is given.
#[derive(Drop)]
pub(crate) struct ShownLink<R: Wait + Clock + Copy + Drop> {
    rt: R,
    link: PlannedLink,
    given: Given,
    after: Option<Given>,
    lead: usize,
    is_left: bool,
    waits: u64,
    leaves: u64,
}

impl<R: Wait + Clock + Copy + Drop> ShownLink<R> {
    // The link of a plan, which was given nothing yet.
    fn new(planned: ShownPlan<R>) -> ShownLink<R>
        ensures faultless { result.link.faults ≡ 0 }
        ensures ungiven { result.link.link.giving.bytes ≡ [] }
    {
        let ShownPlan {
            rt,
            plan,
            given,
            after,
            lead,
            is_left,
        } = planned;
        let alloc = *plan.bytes.allocator();
        ShownLink {
            rt,
            link: PlannedLink::new(alloc, plan),
            given,
            after,
            lead,
            is_left,
            waits: 0,
            leaves: 0,
        }
    }

    // Whether the one that it comes after was given nothing yet.
    fn is_early(&self) -> bool {
        match &self.after {
            Some(first) => first.lock(&self.rt).is_empty(),
            None => false,
        }
    }

    // Shows what was given of these bytes, where there is memory for them.
    fn show(&self, gave: &Gave, bytes: &[u8]) {
        if let Gave::Wrote(count) = gave {
            let front = bytes.get(..*count).unwrap_or(bytes);
            let _shown = self.given.lock(&self.rt).extend_from_slice(front);
        }
    }
}

impl<R: Wait + Clock + Copy + Drop> Link for ShownLink<R> {
    ghost left = { λ l. Some l.link.link.taking.bytes };

    ghost given = { λ l. Some l.link.link.giving.bytes };

    ghost closed = { λ l. Some l.link.link.is_closed };

    ghost faults = { λ l. l.link.faults };

    fn take(&mut self, into: &mut [u8]) -> Got {
        self.link.take(into)
    }

    fn give(&mut self, bytes: &[u8]) -> Gave {
        let gave = self.link.give(bytes);
        self.show(&gave, bytes);
        gave
    }

    fn close(&mut self) {
        Link::close(&mut self.link);
    }
}

impl<R: Wait + Clock + Copy + Drop> Polled for ShownLink<R> {
    ghost left = { λ l. Some l.link.link.taking.bytes };

    ghost given = { λ l. Some l.link.link.giving.bytes };

    ghost closed = { λ l. Some l.link.link.is_closed };

    ghost faults = { λ l. l.link.faults };

    ghost waits = { λ l. l.waits };

    ghost leaves = { λ l. l.leaves };

    fn poll_take(&mut self, into: &mut [u8]) -> Option<Got> {
        if self.is_early() {
            if self.lead == 0 {
                self.waits = self.waits.saturating_add(1);
                return None;
            }
            self.lead = self.lead.saturating_sub(1);
        }
        Some(self.link.take(into))
    }

    fn poll_give(&mut self, bytes: &[u8]) -> Option<Gave> {
        let gave = self.link.give(bytes);
        self.show(&gave, bytes);
        Some(gave)
    }

    fn has_left(&mut self) -> bool {
        if self.is_left {
            self.leaves = self.leaves.saturating_add(1);
        }
        self.is_left
    }

    fn close(&mut self) {
        Link::close(&mut self.link);
    }
}

/// Gives its links, and stops where none are left. Nobody can be dialled.
#[derive(Drop)]
pub(crate) struct ShownNetwork<R: Wait + Clock + Copy + Drop> {
    pub(crate) links: VecDeque<ShownPlan<R>>,
    pub(crate) faults: u64,
    pub(crate) accepted: u64,
    pub(crate) stops: u64,
}

impl<R: Wait + Clock + Copy + Drop> ShownNetwork<R> {
    pub(crate) fn new(links: Vec<ShownPlan<R>>) -> ShownNetwork<R> {
        ShownNetwork {
            links: VecDeque::from_vec(links),
            faults: 0,
            accepted: 0,
            stops: 0,
        }
    }
}

impl<R: Wait + Clock + Copy + Drop> Network for ShownNetwork<R> {
    ghost use Rattle.server_ports.specs.Counts.{Counts, HasFailed, RisesWith, added, no_counts};
    ghost use Rattle.server_ports.specs.Events.{Event, Begins, Retires, Joins, IsWithout, IsUngiven};
    ghost use Rattle.server_ports.specs.Network.{ListenCounts, MatchShared, MatchAccepted, AcceptCounts, MatchDialled, DialCounts};

    type Link = ShownLink<R>;

    ghost counts = { λ n. record { faults = n.faults; accepted = n.accepted; dialled = 0; stops = n.stops } };

    ghost events = { λ _. None };

    fn listen(&mut self, _port: u16) -> Opened {
        Opened::Ready
    }

    fn share(&mut self) -> Shared<ShownNetwork<R>> {
        self.faults = self.faults.saturating_add(1);
        Shared::Failed
    }

    fn accept(&mut self) -> Accepted<ShownLink<R>> {
        match self.links.pop_front() {
            Some(planned) => {
                self.accepted = self.accepted.saturating_add(1);
                Accepted::Link(ShownLink::new(planned))
            }
            None => {
                self.stops = self.stops.saturating_add(1);
                Accepted::Stopped
            }
        }
    }

    fn dial(&mut self, _port: u16) -> Dialled<ShownLink<R>> {
        self.faults = self.faults.saturating_add(1);
        Dialled::Failed
    }

    fn retire(&mut self, link: ShownLink<R>) {
        if link.link.faults > 0 {
            self.faults = self.faults.saturating_add(1);
        }
    }

    fn back(&mut self, share: ShownNetwork<R>) {
        if share.faults > 0 {
            self.faults = self.faults.saturating_add(1);
        }
    }
}

/// Each wait is a pause, and those after the thousandth are silent.
#[derive(Drop)]
pub(crate) struct PausingBell<R: Clock + Copy + Drop> {
    pub(crate) rt: R,
    pub(crate) waits: u32,
    pub(crate) silences: u64,
}

impl<R: Clock + Copy + Drop> PausingBell<R> {
    pub(crate) fn new(rt: R) -> PausingBell<R>
        ensures { result.silences ≡ 0 }
    {
        PausingBell {
            rt,
            waits: 0,
            silences: 0,
        }
    }
}

impl<R: Clock + Copy + Drop> Bell for PausingBell<R> {
    ghost silences = { λ b. b.silences };

    fn tune(&mut self, _key: BellKey) {}

    fn wait(&mut self) -> Woken {
        thread::sleep(&self.rt, Duration::from_millis(1));
        if self.waits < PAUSES {
            self.waits += 1;
            return Woken::Rung;
        }
        self.silences = self.silences.saturating_add(1);
        Woken::Silent
    }

    fn ring(&mut self, _key: BellKey) {}

    fn share(&self) -> Result<PausingBell<R>, AllocError> {
        Ok(PausingBell::new(self.rt))
    }
}

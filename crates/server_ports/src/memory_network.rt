// A network in memory, which tells what its links carried and fails at listed calls.
ghost use Rattle.std.specs.Prelude.{◌≡◌, ℕ, ◌↔◌, List, [], ◌∷◌, ◌++◌, true, false, ⊤, Option, Some, None, IfSome, IfNone, IsTrue, IsSomeAnd, map};
ghost use Rattle.server_ports.specs.Events.{Began, Retired};
ghost use Rattle.server_ports.specs.MemoryNetwork.{event_of, events_of};
ghost use Rattle.bosh_ports.specs.Memory.{counted_up};

use crate::counting::{add, one_more_fault};
use crate::network::{Accepted, Dialled, Network, Opened, Shared};
use crate::planned_link::{LinkPlan, Past, PlannedLink};
use bosh_ports::Link;
use std::alloc::Global;
use std::collections::VecDeque;
use std::marker::Model;

/// A network whose links are planned. They are given in the order of their plans, to whoever accepts or dials. Where no plan is
/// left, no more links come, and a dial fails. The calls that can fail are counted together, from 1, and those whose numbers
/// are listed fail. A share has no plans, so that its dials fail.
#[derive(Drop)]
pub struct MemoryNetwork {
    alloc: Global,
    plans: VecDeque<LinkPlan>,
    failing: Vec<u64>,
    calls: u64,
    faults: u64,
    accepted: u64,
    dialled: u64,
    stops: u64,
    past: Option<Vec<Past>>,
}

impl Model for MemoryNetwork {
    ghost use Rattle.std.specs.Prelude.{map};
    ghost use Rattle.std.specs.Option.{option_map};
    ghost use Rattle.server_ports.specs.MemoryNetwork.{Planned, events_of};

    ghost Value = { Planned };

    ghost view = { λ n. record {
      plans = map (λ plan. plan.bytes.items) n.plans.items;
      failing = n.failing.items;
      calls = n.calls;
      counts = record { faults = n.faults; accepted = n.accepted; dialled = n.dialled; stops = n.stops };
      events = option_map (λ past. events_of past.items) n.past;
    } };
}

impl MemoryNetwork {
    ghost use Rattle.server_ports.specs.Counts.{HasFailed, no_counts};
    ghost use Rattle.server_ports.specs.Events.{Begins};
    ghost use Rattle.server_ports.specs.MemoryNetwork.{IsNextListed};

    pub fn new(alloc: Global, plans: Vec<LinkPlan>, failing: Vec<u64>) -> MemoryNetwork
        ensures plans { result.plans ≡ map (λ plan. plan.bytes.items) plans.items }
        ensures failing { result.failing ≡ failing.items }
        ensures calls { result.calls ≡ 0 }
        ensures counts { result.counts ≡ no_counts }
        ensures events { result.events ≡ Some [] }
    {
        MemoryNetwork {
            alloc,
            plans: VecDeque::from_vec(plans),
            failing,
            calls: 0,
            faults: 0,
            accepted: 0,
            dialled: 0,
            stops: 0,
            past: Some(Vec::new(alloc)),
        }
    }

    /// What became of its links so far, where it tells that.
    pub fn past(&self) -> Option<&[Past]>
        ensures told { IfSome result (λ past. self.now.events ≡ Some (events_of past.now)) }
        ensures untold { IfNone result (self.now.events ≡ None) }
    {
        match &self.past {
            Some(past) => Some(past.as_slice()),
            None => None,
        }
    }

    // Counts a call, and where it is one of those that are to fail, its fault.
    fn fails(&mut self) -> bool
        ensures listed { IsTrue result ↔ (IsNextListed self.old) }
        ensures calls { self.new.calls ≡ counted_up self.old.calls }
        ensures fault { IsTrue result → HasFailed self.old.counts self.new.counts }
        ensures faultless { result ≡ false → self.new.counts ≡ self.old.counts }
        ensures others { self.new ≡ record self.old { calls = self.new.calls; counts = self.new.counts } }
    {
        self.calls = self.calls.saturating_add(1);
        if self.failing.contains(&self.calls) {
            self.faults = one_more_fault(self.faults);
            return true;
        }
        false
    }

    // The link of the next plan.
    fn begin(&mut self, dialled: Option<u16>) -> Option<PlannedLink>
        ensures began { IfSome result (λ link. Begins self.old.events self.new.events dialled (Some link.link.taking.bytes)) }
        ensures planned { IfSome result (λ link. self.old.plans ≡ link.link.taking.bytes ∷ self.new.plans) }
        ensures faultless { IfSome result (λ link. link.faults ≡ 0) }
        ensures ungiven { IfSome result (λ link. link.link.giving.bytes ≡ []) }
        ensures others { IfSome result (λ _. self.new ≡ record self.old { plans = self.new.plans; events = self.new.events }) }
        ensures none { IfNone result (self.old.plans ≡ []) }
        ensures same { IfNone result (self.new ≡ self.old) }
    {
        let plan = self.plans.pop_front()?;
        self.past = begun(self.past.take(), dialled, &plan.bytes);
        Some(PlannedLink::new(self.alloc, plan))
    }
}

// Notes that a link began. Where memory is wanted the telling ends.
fn begun(past: Option<Vec<Past>>, dialled: Option<u16>, stream: &Vec<u8>) -> Option<Vec<Past>>
    ensures { IfSome result (λ new. IsSomeAnd past (λ old. events_of new.items ≡ events_of old.items ++ Began dialled stream.now.items ∷ [])) }
{
    let stream = stream.clone().ok()?;
    noted(past?, Past::Began(dialled, stream))
}

// Notes what became of a link. Where memory is wanted the telling ends.
fn noted(past: Vec<Past>, event: Past) -> Option<Vec<Past>>
    ensures { IfSome result (λ new. events_of new.items ≡ events_of past.items ++ event_of event ∷ []) }
{
    let mut past = past;
    past.push(event).ok()?;
    Some(past)
}

// Notes what became of the links of a share. Where memory is wanted the telling ends.
fn joined(past: Option<Vec<Past>>, theirs: Option<Vec<Past>>) -> Option<Vec<Past>>
    ensures { IfSome result (λ new. IsSomeAnd past (λ old. IsSomeAnd theirs (λ more. events_of new.items ≡ events_of old.items ++ events_of more.items))) }
{
    let mut past = past?;
    let mut theirs = theirs?;
    past.append(&mut theirs).ok()?;
    Some(past)
}

// Notes that a link was retired. Where memory is wanted the telling ends.
fn retired(past: Option<Vec<Past>>, link: PlannedLink) -> Option<Vec<Past>>
    ensures { IfSome result (λ new. IsSomeAnd past (λ old. events_of new.items ≡ events_of old.items ++ Retired link.link.taking.bytes link.link.giving.bytes ∷ [])) }
{
    noted(past?, Past::Retired(link))
}

impl Network for MemoryNetwork {
    ghost use Rattle.server_ports.specs.Counts.{Counts, HasFailed, RisesWith, added, no_counts};
    ghost use Rattle.server_ports.specs.Events.{Event, Begins, Retires, Joins, IsWithout, IsUngiven};
    ghost use Rattle.server_ports.specs.Network.{ListenCounts, MatchShared, MatchAccepted, AcceptCounts, MatchDialled, DialCounts};
    ghost use Rattle.server_ports.specs.MemoryNetwork.{IsNextListed};

    type Link = PlannedLink;

    ghost counts = { λ n. n.counts };

    ghost events = { λ n. n.events };

    fn listen(&mut self, _port: u16) -> Opened
        ensures counts { ListenCounts self.old.counts self.new.counts result }
        ensures events { self.new.events ≡ self.old.events }

        // It fails at the listed calls and at no others.
        ensures listed { (result ≡ Opened.Failed) ↔ (IsNextListed self.old) }
        ensures calls { self.new.calls ≡ counted_up self.old.calls }
        ensures others { self.new ≡ record self.old { calls = self.new.calls; counts = self.new.counts } }
    {
        if self.fails() {
            return Opened::Failed;
        }
        Opened::Ready
    }

    fn share(&mut self) -> Shared<MemoryNetwork>
        ensures counts { MatchShared result (λ _. self.new.counts ≡ self.old.counts) (HasFailed self.old.counts self.new.counts) }
        ensures events { self.new.events ≡ self.old.events }

        // It fails at the listed calls and at no others, and the share has nothing yet.
        ensures listed { MatchShared result (λ _. ¬ IsNextListed self.old) (IsNextListed self.old) }
        ensures fresh { MatchShared result (λ net. net ≡ record { plans = []; failing = []; calls = 0; counts = no_counts; events = Some [] }) ⊤ }
        ensures calls { self.new.calls ≡ counted_up self.old.calls }
        ensures others { self.new ≡ record self.old { calls = self.new.calls; counts = self.new.counts } }
    {
        if self.fails() {
            return Shared::Failed;
        }
        Shared::Net(MemoryNetwork::new(self.alloc, Vec::new(self.alloc), Vec::new(self.alloc)))
    }

    fn accept(&mut self) -> Accepted<PlannedLink>
        ensures counts { AcceptCounts self.old.counts self.new.counts result }
        ensures began { MatchAccepted result (λ link. Begins self.old.events self.new.events None (Some link.link.taking.bytes)) ⊤ ⊤ }
        ensures events { MatchAccepted result (λ _. ⊤) (self.new.events ≡ self.old.events) (self.new.events ≡ self.old.events) }
        ensures faultless { MatchAccepted result (λ link. link.faults ≡ 0) ⊤ ⊤ }
        ensures ungiven { MatchAccepted result (λ link. link.link.giving.bytes ≡ []) ⊤ ⊤ }

        // It fails at the listed calls and at no others, and gives the links in the order of their plans.
        ensures listed { MatchAccepted result (λ _. ¬ IsNextListed self.old) (¬ IsNextListed self.old) (IsNextListed self.old) }
        ensures planned { MatchAccepted result (λ link. self.old.plans ≡ link.link.taking.bytes ∷ self.new.plans) (self.old.plans ≡ []) (self.new.plans ≡ self.old.plans) }
        ensures calls { self.new.calls ≡ counted_up self.old.calls }
        ensures others { self.new ≡ record self.old { plans = self.new.plans; calls = self.new.calls; counts = self.new.counts; events = self.new.events } }
    {
        if self.fails() {
            return Accepted::Failed;
        }
        match self.begin(None) {
            Some(link) => {
                self.accepted = add(self.accepted, 1);
                Accepted::Link(link)
            }
            None => {
                self.stops = add(self.stops, 1);
                Accepted::Stopped
            }
        }
    }

    fn dial(&mut self, port: u16) -> Dialled<PlannedLink>
        ensures counts { DialCounts self.old.counts self.new.counts result }
        ensures began { MatchDialled result (λ link. Begins self.old.events self.new.events (Some port) (Some link.link.taking.bytes)) ⊤ }
        ensures events { MatchDialled result (λ _. ⊤) (self.new.events ≡ self.old.events) }
        ensures faultless { MatchDialled result (λ link. link.faults ≡ 0) ⊤ }
        ensures ungiven { MatchDialled result (λ link. link.link.giving.bytes ≡ []) ⊤ }

        // It gives the links in the order of their plans, and fails at no listed call only where none is left.
        ensures listed { MatchDialled result (λ _. ¬ IsNextListed self.old) ⊤ }
        ensures planned { MatchDialled result (λ link. self.old.plans ≡ link.link.taking.bytes ∷ self.new.plans) (self.new.plans ≡ self.old.plans) }
        ensures spent { MatchDialled result (λ _. ⊤) (¬ IsNextListed self.old → self.old.plans ≡ []) }
        ensures calls { self.new.calls ≡ counted_up self.old.calls }
        ensures others { self.new ≡ record self.old { plans = self.new.plans; calls = self.new.calls; counts = self.new.counts; events = self.new.events } }
    {
        if self.fails() {
            return Dialled::Failed;
        }
        match self.begin(Some(port)) {
            Some(link) => {
                self.dialled = add(self.dialled, 1);
                Dialled::Link(link)
            }
            None => {
                self.faults = one_more_fault(self.faults);
                Dialled::Failed
            }
        }
    }

    fn retire(&mut self, link: PlannedLink)
        ensures faults { RisesWith self.old.counts.faults self.new.counts.faults link.faults }
        ensures others { self.new ≡ record self.old { counts = record self.old.counts { faults = self.new.counts.faults }; events = self.new.events } }
        ensures events { Retires self.old.events self.new.events (Some link.link.taking.bytes) (Some link.link.giving.bytes) }
    {
        let mut link = link;
        link.close();
        if link.faults > 0 {
            self.faults = one_more_fault(self.faults);
        }
        self.past = retired(self.past.take(), link);
    }

    fn back(&mut self, share: MemoryNetwork)
        ensures faults { RisesWith self.old.counts.faults self.new.counts.faults share.counts.faults }
        ensures others { self.new ≡ record self.old {
          counts = record self.old.counts {
            faults = self.new.counts.faults;
            dialled = added self.old.counts.dialled share.counts.dialled;
          };
          events = self.new.events;
        } }
        ensures events { Joins self.old.events self.new.events share.events }
    {
        if share.faults > 0 {
            self.faults = one_more_fault(self.faults);
        }
        self.dialled = add(self.dialled, share.dialled);
        self.past = joined(self.past.take(), share.past);
    }
}

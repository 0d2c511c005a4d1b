// A network without faults: their count is constantly 0.
ghost use Rattle.std.specs.Prelude.{◌≡◌, [], ◌∷◌, ⊤, None, map};

use crate::counting::add;
use crate::network::{Accepted, Dialled, Network, Opened, Shared};
use bosh_ports::QuietLink;
use std::alloc::Global;
use std::collections::VecDeque;

/// A network over bytes in memory that never fails. Its links give these bytes, in order; where none are left, no more links come,
/// and a dial gives a link with nothing to take. It tells nothing of what its links carried, since they don't keep what they are
/// given.
#[derive(Drop)]
pub struct QuietNetwork {
    pub alloc: Global,
    pub streams: VecDeque<Vec<u8>>,
    pub accepted: u64,
    pub dialled: u64,
    pub stops: u64,
}

impl QuietNetwork {
    pub fn new(alloc: Global, streams: Vec<Vec<u8>>) -> QuietNetwork
        ensures streams { result.streams.items ≡ streams.items }
        ensures accepted { result.accepted ≡ 0 }
        ensures dialled { result.dialled ≡ 0 }
        ensures stops { result.stops ≡ 0 }
    {
        QuietNetwork {
            alloc,
            streams: VecDeque::from_vec(streams),
            accepted: 0,
            dialled: 0,
            stops: 0,
        }
    }
}

impl Network for QuietNetwork {
    ghost use Rattle.server_ports.specs.Counts.{Counts, HasFailed, RisesWith, added, no_counts};
    ghost use Rattle.server_ports.specs.Events.{Event, Begins, Retires, Joins, IsWithout, IsUngiven};
    ghost use Rattle.server_ports.specs.Network.{ListenCounts, MatchShared, MatchAccepted, AcceptCounts, MatchDialled, DialCounts};

    type Link = QuietLink;

    ghost counts = { λ n. record { faults = 0; accepted = n.accepted; dialled = n.dialled; stops = n.stops } };

    ghost events = { λ _. None };

    fn listen(&mut self, _port: u16) -> Opened {
        Opened::Ready
    }

    fn share(&mut self) -> Shared<QuietNetwork> {
        Shared::Net(QuietNetwork::new(self.alloc, Vec::new(self.alloc)))
    }

    fn accept(&mut self) -> Accepted<QuietLink>
        ensures counts { AcceptCounts (record { faults = 0; accepted = self.old.accepted; dialled = self.old.dialled; stops = self.old.stops }) (record { faults = 0; accepted = self.new.accepted; dialled = self.new.dialled; stops = self.new.stops }) result }

        // The links give their bytes in order, until none are left.
        ensures streams { MatchAccepted result (λ link. map (λ s. s.items) self.old.streams.items ≡ link.source ∷ map (λ s. s.items) self.new.streams.items) (self.old.streams.items ≡ []) ⊥ }
    {
        match self.streams.pop_front() {
            Some(bytes) => {
                self.accepted = add(self.accepted, 1);
                Accepted::Link(QuietLink::new(bytes))
            }
            None => {
                self.stops = add(self.stops, 1);
                Accepted::Stopped
            }
        }
    }

    fn dial(&mut self, _port: u16) -> Dialled<QuietLink>
        ensures counts { DialCounts (record { faults = 0; accepted = self.old.accepted; dialled = self.old.dialled; stops = self.old.stops }) (record { faults = 0; accepted = self.new.accepted; dialled = self.new.dialled; stops = self.new.stops }) result }

        // It never fails.
        ensures given { MatchDialled result (λ _. ⊤) ⊥ }
    {
        self.dialled = add(self.dialled, 1);
        match self.streams.pop_front() {
            Some(bytes) => Dialled::Link(QuietLink::new(bytes)),
            None => Dialled::Link(QuietLink::new(Vec::new(self.alloc))),
        }
    }

    fn retire(&mut self, _link: QuietLink) {}

    fn back(&mut self, share: QuietNetwork) {
        self.dialled = add(self.dialled, share.dialled);
    }
}

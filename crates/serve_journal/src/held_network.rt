// A network whose connections give nothing before it is stored.
ghost use Rattle.std.specs.Prelude.{◌≡◌, ◌≤◌, ◌+◌};

use crate::held_link::HeldLink;
use crate::receipt::shared;
use entry_queue::EntryQueue;
use server_ports::{Accepted, Dialled, Network, Opened, Shared};
use std::sync::Arc;

/// A network that hands on all that it is asked, with links that wait for what was entered, where entries are stored. It fails by itself where a
/// link or a share can't have the queue, and where a link comes back that failed by itself.
#[derive(Drop)]
pub struct HeldNetwork<N: Network + Drop> {
    net: N,
    keeper: Option<Arc<EntryQueue>>,
    // How often it failed by itself.
    faults: u64,
}

impl<N: Network + Drop> HeldNetwork<N> {
    pub fn new(net: N, keeper: Option<Arc<EntryQueue>>) -> HeldNetwork<N>
        ensures net { result.net ≡ net }
        ensures faults { result.faults ≡ 0 }
    {
        HeldNetwork {
            net,
            keeper,
            faults: 0,
        }
    }
}

impl<N: Network + Drop> Network for HeldNetwork<N>
where
    N::Link: Drop,
{
    ghost use Rattle.server_ports.specs.Counts.{Counts, HasFailed, RisesWith, added, no_counts};
    ghost use Rattle.server_ports.specs.Events.{Event, Begins, Retires, Joins, IsWithout, IsUngiven};
    ghost use Rattle.server_ports.specs.Network.{ListenCounts, MatchShared, MatchAccepted, AcceptCounts, MatchDialled, DialCounts};
    ghost use Rattle.serve_journal.specs.Counting.{with_faults};

    type Link = HeldLink<N::Link>;

    ghost counts = { λ n. with_faults n.faults (N.counts n.net) };

    ghost events = { λ n. N.events n.net };

    fn listen(&mut self, port: u16) -> Opened {
        self.net.listen(port)
    }

    fn share(&mut self) -> Shared<HeldNetwork<N>> {
        let Some(keeper) = shared(&self.keeper) else {
            self.faults = self.faults.saturating_add(1);
            return Shared::Failed;
        };
        match self.net.share() {
            Shared::Net(net) => Shared::Net(HeldNetwork::new(net, keeper)),
            Shared::Failed => Shared::Failed,
        }
    }

    fn accept(&mut self) -> Accepted<HeldLink<N::Link>> {
        let Some(keeper) = shared(&self.keeper) else {
            self.faults = self.faults.saturating_add(1);
            return Accepted::Failed;
        };
        match self.net.accept() {
            Accepted::Link(link) => Accepted::Link(HeldLink::new(link, keeper)),
            Accepted::Stopped => Accepted::Stopped,
            Accepted::Failed => Accepted::Failed,
        }
    }

    // What it dials is no session of this server.
    fn dial(&mut self, port: u16) -> Dialled<HeldLink<N::Link>> {
        match self.net.dial(port) {
            Dialled::Link(link) => Dialled::Link(HeldLink::new(link, None)),
            Dialled::Failed => Dialled::Failed,
        }
    }

    fn retire(&mut self, link: HeldLink<N::Link>) {
        let HeldLink { link, faults, .. } = link;
        if faults > 0 {
            self.faults = self.faults.saturating_add(1);
        }
        self.net.retire(link);
    }

    fn back(&mut self, share: HeldNetwork<N>) {
        let HeldNetwork { net, faults, .. } = share;
        if faults > 0 {
            self.faults = self.faults.saturating_add(1);
        }
        self.net.back(net);
    }
}

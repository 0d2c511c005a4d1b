// A network whose connections are listened in on.
ghost use Rattle.std.specs.Prelude.{◌≡◌, ◌≤◌};

use crate::queue::TraceQueue;
use crate::tap::Tap;
use crate::traced_link::TracedLink;
use bosh_ports::Link;
use server_ports::{Accepted, Dialled, Network, Opened, Shared};
use std::alloc::Global;
use std::sync::{Arc, Wait};

/// A network that hands on all that it is asked. Where there is a queue, what its links carry is noted there; where there is none, nothing is.
#[derive(Drop)]
pub struct TracedNetwork<R: Wait + Copy + Drop, N: Network + Drop> {
    rt: R,
    alloc: Global,
    net: N,
    queue: Option<Arc<TraceQueue>>,
}

impl<R: Wait + Copy + Drop, N: Network + Drop> TracedNetwork<R, N> {
    pub fn new(rt: R, alloc: Global, net: N, queue: Option<Arc<TraceQueue>>) -> TracedNetwork<R, N>
        ensures net { result.net ≡ net }
    {
        TracedNetwork {
            rt,
            alloc,
            net,
            queue,
        }
    }
}

// One more holder of the queue, if there is one.
fn share_queue(queue: &Option<Arc<TraceQueue>>) -> Option<Arc<TraceQueue>> {
    match queue {
        Some(queue) => Arc::try_clone(queue).ok(),
        None => None,
    }
}

// Who listens in on a new connection, if anybody does. Where memory is wanted nobody does, and the traces end.
fn tap_of<R: Wait>(rt: &R, alloc: Global, queue: &Option<Arc<TraceQueue>>) -> Option<Box<Tap>> {
    let Some(queue) = queue else {
        return None;
    };
    if let Ok(own) = Arc::try_clone(queue) {
        if let Ok(tap) = Box::new(alloc, Tap::new(alloc, own)) {
            return Some(tap);
        }
    }
    queue.lose_all(rt);
    None
}

impl<R: Wait + Copy + Drop, N: Network + Drop> Network for TracedNetwork<R, N>
where
    N::Link: Drop,
{
    ghost use Rattle.server_ports.specs.Counts.{Counts, HasFailed, RisesWith, added, no_counts};
    ghost use Rattle.server_ports.specs.Events.{Event, Begins, Retires, Joins, IsWithout, IsUngiven};
    ghost use Rattle.server_ports.specs.Network.{ListenCounts, MatchShared, MatchAccepted, AcceptCounts, MatchDialled, DialCounts};

    type Link = TracedLink<R, N::Link>;

    ghost counts = { λ n. N.counts n.net };

    ghost events = { λ n. N.events n.net };

    fn listen(&mut self, port: u16) -> Opened {
        self.net.listen(port)
    }

    fn share(&mut self) -> Shared<TracedNetwork<R, N>> {
        let queue = share_queue(&self.queue);
        match self.net.share() {
            Shared::Net(net) => Shared::Net(TracedNetwork::new(self.rt, self.alloc, net, queue)),
            Shared::Failed => Shared::Failed,
        }
    }

    fn accept(&mut self) -> Accepted<TracedLink<R, N::Link>> {
        let tap = tap_of(&self.rt, self.alloc, &self.queue);
        match self.net.accept() {
            Accepted::Link(link) => Accepted::Link(TracedLink {
                rt: self.rt,
                link,
                tap,
            }),
            Accepted::Stopped => Accepted::Stopped,
            Accepted::Failed => Accepted::Failed,
        }
    }

    // Of what it dials nothing is a session of this server.
    fn dial(&mut self, port: u16) -> Dialled<TracedLink<R, N::Link>> {
        match self.net.dial(port) {
            Dialled::Link(link) => Dialled::Link(TracedLink {
                rt: self.rt,
                link,
                tap: None,
            }),
            Dialled::Failed => Dialled::Failed,
        }
    }

    fn retire(&mut self, link: TracedLink<R, N::Link>) {
        let TracedLink { link, .. } = link;
        self.net.retire(link);
    }

    fn back(&mut self, share: TracedNetwork<R, N>) {
        let TracedNetwork { net, .. } = share;
        self.net.back(net);
    }
}

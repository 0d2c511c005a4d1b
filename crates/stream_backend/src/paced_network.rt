// A network whose links are asked and never wait.
ghost use Rattle.std.specs.Prelude.{◌≡◌};

use server_ports::{Accepted, Dialled, Network, Opened, Shared};
use std::alloc::Global;
use std::collections::VecDeque;
use xmpp_stream::PacedLink;

/// The links of another network, each with nothing at the calls that are listed for it, in the order in which they are given. One
/// for which nothing is listed always answers.
#[derive(Drop)]
pub struct PacedNetwork<N: Network + Drop> {
    alloc: Global,
    network: N,
    pauses: VecDeque<Vec<u64>>,
}

impl<N: Network + Drop> PacedNetwork<N> {
    /// It takes no memory.
    pub fn new(alloc: Global, network: N, pauses: Vec<Vec<u64>>) -> PacedNetwork<N>
        ensures { result.network ≡ network }
    {
        PacedNetwork {
            alloc,
            network,
            pauses: VecDeque::from_vec(pauses),
        }
    }

    /// The other network.
    pub fn network(&self) -> &N
        ensures { result.now ≡ self.now.network }
    {
        &self.network
    }
}

// The calls at which the next link has nothing.
fn next_pauses(alloc: Global, pauses: &mut VecDeque<Vec<u64>>) -> Vec<u64> {
    match pauses.pop_front() {
        Some(listed) => listed,
        None => Vec::new(alloc),
    }
}

impl<N: Network + Drop> Network for PacedNetwork<N>
where
    N::Link: Drop,
{
    type Link = PacedLink<N::Link>;

    ghost counts = { λ n. N.counts n.network };

    ghost events = { λ n. N.events n.network };

    fn listen(&mut self, port: u16) -> Opened {
        self.network.listen(port)
    }

    fn share(&mut self) -> Shared<PacedNetwork<N>> {
        match self.network.share() {
            Shared::Net(network) => {
                Shared::Net(PacedNetwork::new(self.alloc, network, Vec::new(self.alloc)))
            }
            Shared::Failed => Shared::Failed,
        }
    }

    fn accept(&mut self) -> Accepted<PacedLink<N::Link>> {
        match self.network.accept() {
            Accepted::Link(link) => {
                let pauses = next_pauses(self.alloc, &mut self.pauses);
                Accepted::Link(PacedLink::new(link, pauses))
            }
            Accepted::Stopped => Accepted::Stopped,
            Accepted::Failed => Accepted::Failed,
        }
    }

    fn dial(&mut self, port: u16) -> Dialled<PacedLink<N::Link>> {
        match self.network.dial(port) {
            Dialled::Link(link) => {
                let pauses = next_pauses(self.alloc, &mut self.pauses);
                Dialled::Link(PacedLink::new(link, pauses))
            }
            Dialled::Failed => Dialled::Failed,
        }
    }

    fn retire(&mut self, link: PacedLink<N::Link>) {
        let PacedLink { link, .. } = link;
        self.network.retire(link);
    }

    fn back(&mut self, share: PacedNetwork<N>) {
        let PacedNetwork { network, .. } = share;
        self.network.back(network);
    }
}

// How a wire begins, and how its link ends.
ghost use Rattle.std.specs.Prelude.{◌≡◌, IfOk};
ghost use Rattle.stream_backend.specs.Begins.{AreEnds, Begins, BeginsLine, IsFresh, IsWatched};

use crate::flow::Flow;
use crate::line::Line;
use crate::lists::Lists;
use crate::stage::{Stage, link_of};
use crate::watch::Watch;
use bosh_types::Wire;
use server_ports::{Dialled, Network};
use std::alloc::{AllocError, Global};
use xmpp_stream::{Incoming, Outgoing, PollLink};

// Both ends of a stream before it has a link.
#[derive(Drop)]
pub(crate) struct Ends {
    outgoing: Outgoing,
    incoming: Incoming,
}

impl Ends {
    // The header to this host is owed. The only error is want of memory.
    pub(crate) fn new(alloc: Global, to: &[u8]) -> Result<Ends, AllocError>
        ensures ends { IfOk result (λ ends. AreEnds ends.outgoing ends.incoming) }
        ensures to { IfOk result (λ ends. ends.outgoing.to ≡ to.now) }
    {
        let outgoing = Outgoing::new(alloc, to)?;
        let incoming = Incoming::new(alloc)?;
        Ok(Ends { outgoing, incoming })
    }

    fn over<L: PollLink + Drop>(self, link: L) -> Flow<L>
        requires { AreEnds self.outgoing self.incoming }
        ensures { IsFresh self.outgoing.to result }
    {
        let Ends { outgoing, incoming } = self;
        Flow::new(link, outgoing, incoming)
    }
}

// Dials a link for the wire, and watches it. Where either fails the line has failed. It takes no memory.
pub(crate) fn dial<N: Network, W: Watch<N::Link>>(
    network: &mut N,
    watch: &mut W,
    port: u16,
    wire: Wire,
    ends: Ends,
    lists: &Lists,
) -> Line<N::Link>
where
    N::Link: PollLink + Drop,
    requires { AreEnds ends.outgoing ends.incoming }
    ensures { BeginsLine wire lists.now ends.outgoing.to (N.counts network.old) (N.counts network.new) result }
{
    let stage = connect(network, watch, port, wire, ends);
    Line::new(wire, stage, lists)
}

fn connect<N: Network, W: Watch<N::Link>>(
    network: &mut N,
    watch: &mut W,
    port: u16,
    wire: Wire,
    ends: Ends,
) -> Stage<Flow<N::Link>>
where
    N::Link: PollLink + Drop,
    requires { AreEnds ends.outgoing ends.incoming }
    ensures { Begins ends.outgoing.to (N.counts network.old) (N.counts network.new) result }
{
    match network.dial(port) {
        Dialled::Failed => Stage::Failed,
        Dialled::Link(link) => watched(network, watch, wire, link, ends),
    }
}

// The stream of a new link, which is watched.
fn watched<N: Network, W: Watch<N::Link>>(
    network: &mut N,
    watch: &mut W,
    wire: Wire,
    link: N::Link,
    ends: Ends,
) -> Stage<Flow<N::Link>>
where
    N::Link: PollLink + Drop,
    requires { AreEnds ends.outgoing ends.incoming }
    ensures stage { IsWatched ends.outgoing.to result }
    ensures dialled { (N.counts network.new).dialled ≡ (N.counts network.old).dialled }
{
    if !watch.begin(wire, &link) {
        network.retire(link);
        return Stage::Failed;
    }
    Stage::Open(ends.over(link))
}

// The line stands so from now on, and the link that it had is retired.
pub(crate) fn part<N: Network>(
    line: &mut Line<N::Link>,
    network: &mut N,
    stage: Stage<Flow<N::Link>>,
)
where
    N::Link: PollLink + Drop,
    ensures line { line.new ≡ record line.old { stage = stage } }
    ensures dialled { (N.counts network.new).dialled ≡ (N.counts network.old).dialled }
{
    if let Some(link) = link_of(line.put(stage)) {
        network.retire(link);
    }
}

// Links are accepted and handed to the loops.
ghost use Rattle.std.specs.Prelude.{◌≡◌, ◌≢◌, ◌≤◌, ◌<◌, ◌-◌, ◌^◌};
ghost use Rattle.bosh_server.specs.Runs.{RunsBy};

use crate::crew::Inboxes;
use crate::plan::Ran;
use connection_loops::Rouse;
use server_ports::{Accepted, Network};
use std::sync::Wait;

/// How accepting ended, and how many links were left for the loops, as far as a number of 64 bits can say that.
#[derive(Clone, Copy, Debug)]
pub(crate) struct Taken {
    pub(crate) ran: Ran,
    pub(crate) links: u64,
}

/// Accepts links until so many have come, or without end where that is 0.
pub(crate) fn accept_all<R: Wait, N: Network, W: Rouse + Drop>(
    rt: &R,
    net: &mut N,
    inboxes: &Inboxes<N::Link, W>,
    connections: u32,
) -> Taken
where
    N::Link: Drop,
    ensures runs { RunsBy connections (N.counts net.old) (N.counts net.new) result.ran }
    ensures accepts { result.ran ≢ Ran.SpawnFault }
    ensures links { (N.counts net.new).accepted < 2 ^ 64 - 1 → result.links ≡ (N.counts net.new).accepted - (N.counts net.old).accepted }
    ensures grows { (N.counts net.old).accepted ≤ (N.counts net.new).accepted }
    ensures never_falls { (N.counts net.old).faults ≤ (N.counts net.new).faults }
{
    let mut accepted: u32 = 0;
    let mut links: u64 = 0;
    for _ in rt.forever() {
        if connections != 0 && accepted == connections {
            return Taken {
                ran: Ran::Done {
                    connections: accepted,
                },
                links,
            };
        }
        match net.accept() {
            Accepted::Link(link) => {
                inboxes.put(rt, accepted, link);
                accepted = accepted.saturating_add(1);
                links = links.saturating_add(1);
            }
            Accepted::Stopped => {
                return Taken {
                    ran: Ran::Done {
                        connections: accepted,
                    },
                    links,
                };
            }
            Accepted::Failed => {
                return Taken {
                    ran: Ran::NetFault,
                    links,
                };
            }
        }
    }
    unreachable!()
}

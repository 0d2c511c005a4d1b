// A connection over a link that is asked, stepped to its end by one thread.
ghost use Rattle.std.specs.Prelude.{◌≡◌, ◌≢◌, ◌≤◌, []};
ghost use Rattle.bosh_ports.specs.Faults.{HasRisen};
ghost use Rattle.parked_gate.specs.Passes.{IsPassOf, known};
ghost use Rattle.serve_loop.specs.Connections.{outside, Serves};
ghost use Rattle.serve_loop.specs.Drawing.{OpensAsDrawn};
ghost use Rattle.serve_loop.specs.Trail.{setting};

use crate::connection::{ConnectionEnd, Stage};
use crate::polled_connection::PolledConnection;
use crate::serve::is_silent;
use crate::worker::{Site, Tools, Worker};
use bosh_ports::{Bell, Polled};
use server_ports::{Clock, Names};
use std::sync::Wait;

/// Steps a connection to its end, as `serve_connection` serves one over a link that waits. Where the link has nothing now it is asked
/// again at once, so it is for one that seldom has nothing, as `Waited`. Whether its peer has left isn't asked.
pub fn serve_polled<R: Wait, K: Polled, C: Clock, B: Bell, M: Names>(
    rt: &R,
    site: &Site<'_, C>,
    worker: &mut Worker,
    tools: &mut Tools<B, M>,
    link: &mut K,
) -> ConnectionEnd
    requires { IsPassOf site.now.directory.now worker.old.purse.directory }
    ensures pass { IsPassOf site.now.directory.now worker.new.purse.directory }

    // What was read, answered and told, in order, what was added for it to which history, and how the connection ended.
    ensures served { Serves (setting site.now.hosts.now site.now.limits (C.moment site.now.clock.now))
        (outside [] (K.left link.old) (K.given link.old) worker.old.trail worker.old.purse (K.faults link.old))
        (K.left link.new) (K.given link.new) worker.new.trail worker.new.purse (K.faults link.new) result }

    // Each session that was opened has a name that was drawn for it.
    ensures drawn { OpensAsDrawn (M.drawn tools.old.names) (M.drawn tools.new.names) (known worker.old.purse.directory) (known worker.new.purse.directory) }
    ensures silent { result ≡ ConnectionEnd.Silent → HasRisen (B.silences tools.old.bell) (B.silences tools.new.bell) }
    ensures never_gone { result ≢ ConnectionEnd.Gone }
    ensures silences { B.silences tools.old.bell ≤ B.silences tools.new.bell }
    ensures faults { K.faults link.old ≤ K.faults link.new }
{
    let _ = worker.purse.drop_removed(rt, site.directory);
    let mut connection = PolledConnection::new(site.alloc);
    for _ in rt.forever() {
        connection.step(rt, site, worker, tools, link);
        match &connection.standing.stage {
            Stage::Waiting { looked, .. } => {
                if is_silent(&mut tools.bell, *looked) {
                    return ConnectionEnd::Silent;
                }
            }
            Stage::Over(end) => return *end,
            Stage::Reading | Stage::Asked { .. } | Stage::Owing(_) => {}
        }
    }
    unreachable!()
}

// A connection served by one thread, from its first byte to its end.
ghost use Rattle.std.specs.Prelude.{◌≡◌, ◌≢◌, ◌≤◌, [], true};
ghost use Rattle.bosh_ports.specs.Faults.{HasRisen};
ghost use Rattle.parked_gate.specs.Passes.{IsPassOf, known};
ghost use Rattle.serve_loop.specs.Connections.{outside, Serves};
ghost use Rattle.serve_loop.specs.Drawing.{OpensAsDrawn};
ghost use Rattle.serve_loop.specs.Trail.{setting};

use crate::connection::{Connection, ConnectionEnd, Stage};
use crate::worker::{Site, Tools, Worker};
use bosh_ports::{Bell, Link, Woken};
use server_ports::{Clock, Names};
use std::sync::Wait;

/// Serves the requests of a connection one after the other, until it ends. Handles of sessions that the directory no longer
/// has are let go first, where there is memory to ask for them.
pub fn serve_connection<R: Wait, L: Link, C: Clock, B: Bell, M: Names>(
    rt: &R,
    site: &Site<'_, C>,
    worker: &mut Worker,
    tools: &mut Tools<B, M>,
    link: &mut L,
) -> ConnectionEnd
    requires { IsPassOf site.now.directory.now worker.old.purse.directory }
    ensures pass { IsPassOf site.now.directory.now worker.new.purse.directory }

    // What was read, answered and told, in order, what was added for it to which history, and how the connection ended.
    ensures served { Serves (setting site.now.hosts.now site.now.limits (C.moment site.now.clock.now))
        (outside [] (L.left link.old) (L.given link.old) worker.old.trail worker.old.purse (L.faults link.old))
        (L.left link.new) (L.given link.new) worker.new.trail worker.new.purse (L.faults link.new) result }

    // Each session that was opened has a name that was drawn for it.
    ensures drawn { OpensAsDrawn (M.drawn tools.old.names) (M.drawn tools.new.names) (known worker.old.purse.directory) (known worker.new.purse.directory) }
    ensures silent { result ≡ ConnectionEnd.Silent → HasRisen (B.silences tools.old.bell) (B.silences tools.new.bell) }
    ensures never_gone { result ≢ ConnectionEnd.Gone }
    ensures silences { B.silences tools.old.bell ≤ B.silences tools.new.bell }
    ensures faults { L.faults link.old ≤ L.faults link.new }
{
    let _ = worker.purse.drop_removed(rt, site.directory);
    let mut connection = Connection::new(site.alloc);
    for _ in rt.forever() {
        connection.step(rt, site, worker, tools, link);
        match &connection.stage {
            Stage::Waiting { looked, .. } => {
                if is_silent(&mut tools.bell, *looked) {
                    return ConnectionEnd::Silent;
                }
            }
            Stage::Over(end) => return *end,
            Stage::Reading | Stage::Asked { .. } | Stage::Owing(_) => {}
        }
    }
    unreachable!()
}

// Whether a wait for a session ends silent. Where the session wasn't looked at yet, nobody waits.
pub(crate) fn is_silent<B: Bell>(bell: &mut B, looked: bool) -> bool
    ensures looked { result ≡ true → looked ≡ true }
    ensures silent { result ≡ true → HasRisen (B.silences bell.old) (B.silences bell.new) }
    ensures never_falls { B.silences bell.old ≤ B.silences bell.new }
{
    if !looked {
        return false;
    }
    bell.wait() == Woken::Silent
}

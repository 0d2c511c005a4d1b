// The job of a loop.
ghost use Rattle.std.specs.Prelude.{◌≡◌, ◌≤◌, false, true};
ghost use Rattle.bosh_ports.specs.Faults.{HasRisen};

use crate::ends::{End, Ends, Naming};
use crate::seat::{ConnectionSeat, LoopTools};
use crate::starting::{Startup, start_all};
use bosh_ports::{Bell, Polled};
use connection_loops::{Inbox, Loop, Poller, Rouse, Turned};
use server_ports::{Clock, Job, Leave, Names, Spawner};
use std::sync::{Arc, Wait};
use std::thread::Threads;

/// Serves the links that are left for it, all at once, until no more come and none is here. What became of each is told by its end.
#[derive(Drop)]
pub(crate) struct LoopJob<J, R, L, C, B, M, P, W>
where
    J: Naming,
    R: Wait + Copy + Drop,
    L: Polled + Drop,
    C: Clock + Drop,
    B: Bell + Drop,
    M: Names + Drop,
    P: Poller<L> + Drop,
    W: Rouse + Drop,
{
    pub(crate) rt: R,
    pub(crate) ends: Arc<Ends<J, L>>,
    pub(crate) inbox: Arc<Inbox<L, W>>,
    pub(crate) looped: Loop<LoopTools<J, R, L, C, B, M, W>, ConnectionSeat<J, L>, P>,
}

impl<J, R, L, C, B, M, P, W> Job for LoopJob<J, R, L, C, B, M, P, W>
where
    J: Naming,
    R: Wait + Copy + Drop,
    L: Polled + Drop,
    C: Clock + Drop,
    B: Bell + Drop,
    M: Names + Drop,
    P: Poller<L> + Drop,
    W: Rouse + Drop,
{
    fn run(self, _leave: Leave) {
        let LoopJob {
            rt,
            ends,
            inbox,
            looped,
        } = self;
        let mut looped = looped;
        for _ in rt.forever() {
            if looped.turn(&rt, &inbox) == Turned::Done {
                break;
            }
        }
        let LoopTools {
            fates,
            settled,
            pass,
            of,
            ..
        } = looped.into_tools();
        ends.put(
            &rt,
            End {
                fates,
                settled,
                pass,
                of,
            },
        );
    }
}

/// Starts loops in their order, up to one that is refused. Those behind it are dropped.
pub(crate) fn start_loops<J, R, S, L, C, B, M, P, W>(
    rt: &R,
    spawner: &mut S,
    loops: Vec<LoopJob<J, R, L, C, B, M, P, W>>,
) -> Startup
where
    J: Naming + Send + Sync + 'static,
    R: Wait + Threads + Copy + Send + Drop + 'static,
    S: Spawner,
    L: Polled + Send + Drop + 'static,
    C: Clock + Send + Drop + 'static,
    B: Bell + Send + Drop + 'static,
    M: Names + Send + Drop + 'static,
    P: Poller<L> + Send + Drop + 'static,
    W: Rouse + Send + Sync + Drop + 'static,
    ensures refused { result.is_refused ≡ true → HasRisen (S.refusals spawner.old) (S.refusals spawner.new) }
    ensures all { result.is_refused ≡ false → S.refusals spawner.new ≡ S.refusals spawner.old }
    ensures never_falls { S.refusals spawner.old ≤ S.refusals spawner.new }
{
    start_all(rt, spawner, loops)
}

// Jobs are started.
ghost use Rattle.std.specs.Prelude.{◌≡◌, ◌≤◌, true, false};
ghost use Rattle.bosh_ports.specs.Faults.{HasRisen};

use server_ports::{Job, Spawner, Started, start};
use std::thread::Threads;

/// How many jobs were started, and whether the spawner refused the next one.
#[derive(Clone, Copy, Debug, PartialEq, Eq)]
pub(crate) struct Startup {
    pub(crate) started: u64,
    pub(crate) is_refused: bool,
}

/// Starts jobs in their order, up to one that is refused. Those behind it are dropped.
pub(crate) fn start_all<R, S, J>(rt: &R, spawner: &mut S, jobs: Vec<J>) -> Startup
where
    R: Threads,
    S: Spawner,
    J: Job + Send + Drop + 'static,
    ensures refused { result.is_refused ≡ true → HasRisen (S.refusals spawner.old) (S.refusals spawner.new) }
    ensures all { result.is_refused ≡ false → S.refusals spawner.new ≡ S.refusals spawner.old }
    ensures never_falls { S.refusals spawner.old ≤ S.refusals spawner.new }
{
    let mut started: u64 = 0;
    for job in jobs {
        match start(rt, spawner, job) {
            Started::Running => started = started.saturating_add(1),
            Started::Refused => return Startup {
                started,
                is_refused: true,
            },
        }
    }
    Startup {
        started,
        is_refused: false,
    }
}

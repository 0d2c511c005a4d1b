// The job that tells loops and pump that entries are stored, and the start of what stands behind the loops.
ghost use Rattle.std.specs.Prelude.{◌≡◌, ◌≤◌};
ghost use Rattle.bosh_ports.specs.Faults.{HasRisen};

use crate::bells::{Doors, PumpBell};
use crate::ends::Naming;
use crate::pumping::{PumpJob, PumpPost, start_pump_of};
use bosh_ports::{Bell, BellKey};
use connection_loops::Rouse;
use entry_queue::EntryQueue;
use server_ports::{Clock, Job, Leave, Spawner, Started, start};
use std::sync::{Arc, Wait};
use std::thread::Threads;
use xmpp_backend::Backend;

/// Rings for those who wait until entries are stored, each time that more are, until nothing more will be noted.
#[derive(Drop)]
pub(crate) struct StoredJob<R, B, W>
where
    R: Wait + Copy + Drop,
    B: Bell + Drop,
    W: Rouse + Drop,
{
    pub(crate) rt: R,
    pub(crate) keeper: Arc<EntryQueue>,
    pub(crate) doors: Arc<Doors<W>>,
    // At which the pump waits.
    pub(crate) bell: B,
}

impl<R, B, W> Job for StoredJob<R, B, W>
where
    R: Wait + Copy + Drop,
    B: Bell + Drop,
    W: Rouse + Drop,
{
    fn run(self, _leave: Leave) {
        let StoredJob {
            rt,
            keeper,
            doors,
            bell,
        } = self;
        let mut bell = bell;
        let mut seen = 0;
        for _ in rt.forever() {
            let Some(stored) = keeper.await_more(&rt, seen) else {
                return;
            };
            seen = stored;
            doors.ring(BellKey::STORED);
            bell.ring(BellKey::PUMP);
        }
    }
}

/// What stands behind the loops of a server: its pump, and what tells that entries are stored, where they are.
#[derive(Drop)]
pub(crate) struct Behind<J, R, C, B, W, E>
where
    J: Naming,
    R: Wait + Copy + Drop,
    C: Clock + Drop,
    B: Bell + Drop,
    W: Rouse + Drop,
    E: Backend,
{
    pub(crate) teller: Option<StoredJob<R, B, W>>,
    pub(crate) pump: PumpJob<R, C, PumpBell<B, W>, PumpPost<J, E>>,
}

/// Starts them where the spawner gives leave.
pub(crate) fn start_behind<J, R, S, C, B, W, E>(
    rt: &R,
    spawner: &mut S,
    behind: Behind<J, R, C, B, W, E>,
) -> Started
where
    J: Naming + Send + Sync + 'static,
    R: Wait + Threads + Copy + Send + Drop + 'static,
    S: Spawner,
    C: Clock + Send + Drop + 'static,
    B: Bell + Send + Drop + 'static,
    W: Rouse + Send + Sync + Drop + 'static,
    E: Backend + Send + 'static,
    ensures refused { result ≡ Started.Refused → HasRisen (S.refusals spawner.old) (S.refusals spawner.new) }
    ensures running { result ≡ Started.Running → S.refusals spawner.new ≡ S.refusals spawner.old }
    ensures never_falls { S.refusals spawner.old ≤ S.refusals spawner.new }
{
    let Behind { teller, pump } = behind;
    match start_teller(rt, spawner, teller) {
        Started::Running => start_pump_of(rt, spawner, pump),
        Started::Refused => Started::Refused,
    }
}

// Starts the teller, where there is one.
fn start_teller<R, S, B, W>(rt: &R, spawner: &mut S, teller: Option<StoredJob<R, B, W>>) -> Started
where
    R: Wait + Threads + Copy + Send + Drop + 'static,
    S: Spawner,
    B: Bell + Send + Drop + 'static,
    W: Rouse + Send + Sync + Drop + 'static,
    ensures refused { result ≡ Started.Refused → HasRisen (S.refusals spawner.old) (S.refusals spawner.new) }
    ensures running { result ≡ Started.Running → S.refusals spawner.new ≡ S.refusals spawner.old }
    ensures never_falls { S.refusals spawner.old ≤ S.refusals spawner.new }
{
    match teller {
        Some(teller) => start(rt, spawner, teller),
        None => Started::Running,
    }
}

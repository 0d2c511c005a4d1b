// The workers of a client are made and started.
ghost use Rattle.std.specs.Prelude.{◌≡◌, ◌≢◌, ◌≤◌, ℕ, IfNone, IfOk, IfSome};
ghost use Rattle.std.specs.Arc.{arc_value};
ghost use Rattle.bosh_ports.specs.Faults.{HasRisen};
ghost use Rattle.parked_gate.specs.Passes.{IsPassOf, gate_of, known};

use crate::ear::Ear;
use crate::ends::{Ends, Naming};
use crate::job::{Post, WorkerJob};
use crate::object::ClientObject;
use bosh_ports::{Bell, Link};
use parked_gate::{Gate, Pass};
use server_ports::{Clock, Network, Shared, Spawner, Started, start};
use std::alloc::{AllocError, Global};
use std::marker::PhantomData;
use std::sync::{Arc, Wait};
use std::thread::Threads;

/// What the workers of a client are made with.
#[derive(Drop)]
pub(crate) struct Crew<'c, J, R, N, C>
where
    J: Naming,
    R: Wait + Copy + Drop,
    N: Network + Drop,
    C: Clock,
{
    pub(crate) rt: &'c R,
    pub(crate) alloc: Global,
    pub(crate) gate: &'c Arc<Gate<ClientObject>>,
    pub(crate) clock: &'c C,
    pub(crate) port: u16,
    pub(crate) ends: &'c Arc<Ends<J, N>>,
}

/// A worker with places and a share of its own: none where the network gives no share. The only error is want of memory, which
/// comes before a share is asked for.
fn hire<J, R, N, C, B>(
    crew: &Crew<'_, J, R, N, C>,
    ear: &mut Ear<J>,
    pass: &mut Pass<ClientObject>,
    net: &mut N,
    bell: &mut B,
) -> Result<Option<WorkerJob<J, R, N, C, B>>, AllocError>
where
    J: Naming,
    R: Wait + Copy + Drop,
    N: Network + Drop,
    C: Clock + Drop,
    B: Bell + Drop,
    requires pass { IsPassOf (arc_value crew.now.gate.now) pass.old }
    requires named { gate_of (arc_value crew.now.gate.now) ≡ J.gate }
    ensures pass { IsPassOf (arc_value crew.now.gate.now) pass.new }
    ensures known { known pass.new ≡ known pass.old }
    ensures hired { IfOk result (λ job. IfSome job (λ _. N.counts net.new ≡ N.counts net.old)) }
    ensures failed { IfOk result (λ job. IfNone job (HasRisen (N.counts net.old).faults (N.counts net.new).faults)) }
{
    let gate = Arc::try_clone(crew.gate)?;
    let ends = Arc::try_clone(crew.ends)?;
    let bell = bell.share()?;
    let ear = ear.split(crew.rt)?;
    let share = match net.share() {
        Shared::Net(share) => share,
        Shared::Failed => return Ok(None),
    };
    let own = crew.gate.split(crew.rt, pass);
    let post = Post {
        gate,
        pass: own,
        ear,
        of: PhantomData,
    };
    Ok(Some(WorkerJob {
        rt: *crew.rt,
        alloc: crew.alloc,
        post,
        share,
        port: crew.port,
        clock: crew.clock.share(),
        bell,
        ends,
    }))
}

/// Two workers.
#[derive(Drop)]
pub(crate) struct Both<J, R, N, C, B>
where
    J: Naming,
    R: Wait + Copy + Drop,
    N: Network + Drop,
    C: Clock + Drop,
    B: Bell + Drop,
{
    pub(crate) first: WorkerJob<J, R, N, C, B>,
    pub(crate) second: WorkerJob<J, R, N, C, B>,
}

/// Both workers: none where the network gives no share for one. The only error is want of memory.
pub(crate) fn hire_both<J, R, N, C, B>(
    crew: &Crew<'_, J, R, N, C>,
    ear: &mut Ear<J>,
    pass: &mut Pass<ClientObject>,
    net: &mut N,
    bell: &mut B,
) -> Result<Option<Both<J, R, N, C, B>>, AllocError>
where
    J: Naming,
    R: Wait + Copy + Drop,
    N: Network + Drop,
    C: Clock + Drop,
    B: Bell + Drop,
    requires pass { IsPassOf (arc_value crew.now.gate.now) pass.old }
    requires named { gate_of (arc_value crew.now.gate.now) ≡ J.gate }
    ensures pass { IsPassOf (arc_value crew.now.gate.now) pass.new }
    ensures known { known pass.new ≡ known pass.old }
    ensures hired { IfOk result (λ both. IfSome both (λ _. N.counts net.new ≡ N.counts net.old)) }
    ensures failed { IfOk result (λ both. IfNone both (HasRisen (N.counts net.old).faults (N.counts net.new).faults)) }
{
    let first = match hire(crew, ear, pass, net, bell)? {
        Some(first) => first,
        None => return Ok(None),
    };
    match hire(crew, ear, pass, net, bell)? {
        Some(second) => Ok(Some(Both { first, second })),
        None => Ok(None),
    }
}

/// Starts one worker, and then the other: how many were started. What the spawner refuses is dropped.
pub(crate) fn start_both<J, R, N, C, B, P>(
    rt: &R,
    spawner: &mut P,
    first: WorkerJob<J, R, N, C, B>,
    second: WorkerJob<J, R, N, C, B>,
) -> u32
where
    J: Naming + Send + Sync + 'static,
    R: Wait + Threads + Copy + Send + Drop + 'static,
    N: Network + Send + Drop + 'static,
    N::Link: Send + Drop + 'static,
    C: Clock + Send + Drop + 'static,
    B: Bell + Send + Drop + 'static,
    P: Spawner,
    ensures refused { result ≢ 2 → HasRisen (P.refusals spawner.old) (P.refusals spawner.new) }
    ensures all { result ≡ 2 → P.refusals spawner.new ≡ P.refusals spawner.old }

    // Where both were started, the spawner gave leave twice.
    ensures started { result ≡ 2 → (mid : ℕ) × HasRisen (P.leaves spawner.old) mid × HasRisen mid (P.leaves spawner.new) }
    ensures never_falls { P.refusals spawner.old ≤ P.refusals spawner.new }
{
    match start_worker(rt, spawner, first) {
        Started::Running => {}
        Started::Refused => return 0,
    }
    match start_worker(rt, spawner, second) {
        Started::Running => 2,
        Started::Refused => 1,
    }
}

// Starts a worker where the spawner gives leave.
fn start_worker<J, R, N, C, B, P>(rt: &R, spawner: &mut P, job: WorkerJob<J, R, N, C, B>) -> Started
where
    J: Naming + Send + Sync + 'static,
    R: Wait + Threads + Copy + Send + Drop + 'static,
    N: Network + Send + Drop + 'static,
    N::Link: Send + Drop + 'static,
    C: Clock + Send + Drop + 'static,
    B: Bell + Send + Drop + 'static,
    P: Spawner,
    ensures refused { result ≡ Started.Refused → HasRisen (P.refusals spawner.old) (P.refusals spawner.new) }
    ensures running { result ≡ Started.Running → P.refusals spawner.new ≡ P.refusals spawner.old }
    ensures never_falls { P.refusals spawner.old ≤ P.refusals spawner.new }
    ensures leave { result ≡ Started.Running → HasRisen (P.leaves spawner.old) (P.leaves spawner.new) }
{
    start(rt, spawner, job)
}

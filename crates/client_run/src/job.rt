// A worker of a client as a job.
ghost use Rattle.std.specs.Prelude.{◌≡◌, [], true};
ghost use Rattle.std.specs.Arc.{arc_value};
ghost use Rattle.parked_gate.specs.Passes.{IsPassOf, gate_of, known};
ghost use Rattle.client_run.specs.Queueing.{AsksToEnd};
ghost use Rattle.client_run.specs.Running.{IsEndOf, IsToilOf, is_failed, is_silent};
ghost use Rattle.server_ports.specs.Counts.{Counts};

use crate::ear::Ear;
use crate::ends::{End, Ends, Naming};
use crate::object::ClientObject;
use crate::queueing::terminate;
use crate::site::Site;
use crate::watch::Watch;
use crate::worked::Worked;
use crate::working::work;
use bosh_ports::{Bell, BellKey, Link};
use parked_gate::{Gate, Pass};
use server_ports::{Clock, Job, Leave, Network};
use std::alloc::{AllocError, Global};
use std::marker::PhantomData;
use std::sync::{Arc, Wait};

/// The key of the ring by which a worker tells that it has ended, so that nothing more is taken or will be sent.
pub const OVER: BellKey = BellKey(1);

/// Places of its own at the gate of a client and at the alarm of the crew.
#[derive(Drop)]
pub(crate) struct Post<J: Naming> {
    pub(crate) gate: Arc<Gate<ClientObject>>,
    pub(crate) pass: Pass<ClientObject>,
    pub(crate) ear: Ear<J>,
    pub(crate) of: PhantomData<J>,
    pub(crate) ghost here: { gate_of (arc_value gate) ≡ J.gate },
    pub(crate) ghost fits: { IsPassOf (arc_value gate) pass },
    pub(crate) ghost fresh: { (known pass).mine ≡ [] },
    pub(crate) ghost unraised: { (known ear.pass).mine ≡ [] },
}

/// Works for a client over a share of the network.
#[derive(Drop)]
pub(crate) struct WorkerJob<J, R, N, C, B>
where
    J: Naming,
    R: Wait + Copy + Drop,
    N: Network + Drop,
    C: Clock + Drop,
    B: Bell + Drop,
{
    pub(crate) rt: R,
    pub(crate) alloc: Global,
    pub(crate) post: Post<J>,
    pub(crate) share: N,
    pub(crate) port: u16,
    pub(crate) clock: C,
    pub(crate) bell: B,
    pub(crate) ends: Arc<Ends<J, N>>,
}

impl<J, R, N, C, B> Job for WorkerJob<J, R, N, C, B>
where
    J: Naming,
    R: Wait + Copy + Drop,
    N: Network + Drop,
    N::Link: Drop,
    C: Clock + Drop,
    B: Bell + Drop,
{
    fn run(self, _leave: Leave) {
        let WorkerJob {
            rt,
            alloc,
            post,
            share,
            port,
            clock,
            bell,
            ends,
        } = self;
        let Post {
            gate,
            pass,
            ear,
            of,
        } = post;
        let mut pass = pass;
        let mut share = share;
        let mut watch = Watch {
            rt,
            bell,
            ear,
            silences: 0,
        };
        let site = Site {
            alloc,
            gate: &gate,
            clock: &clock,
            port,
        };
        let worked = toil(&rt, &site, &mut pass, &mut share, &mut watch);
        let Watch {
            rt,
            bell,
            ear,
            silences: _,
        } = watch;
        let mut bell = bell;
        let mut ear = ear;
        let worked = close_failed(&rt, &gate, &mut pass, &mut bell, &mut ear, worked);
        ends.put(
            &rt,
            End {
                worked,
                pass,
                share,
                ear,
                of,
            },
        );
        bell.ring(BellKey::PUMP);
        bell.ring(OVER);
    }
}

// Works until the worker ends by something else than a silent bell, or has heard the alarm. The only error is want of memory.
fn toil<J, R, N, C, B>(
    rt: &R,
    site: &Site<'_, C>,
    pass: &mut Pass<ClientObject>,
    share: &mut N,
    watch: &mut Watch<J, R, B>,
) -> Result<Worked, AllocError>
where
    J: Naming,
    R: Wait + Copy + Drop,
    N: Network + Drop,
    N::Link: Drop,
    C: Clock,
    B: Bell + Drop,
    requires pass { IsPassOf site.now.gate.now pass.old }
    requires fresh { (known pass.old).mine ≡ [] }
    ensures pass { IsPassOf site.now.gate.now pass.new }
    ensures tells { IsToilOf result (known pass.new) (N.counts share.new) (known watch.new.ear.pass) }
{
    for _ in rt.forever() {
        let worked = match work(rt, site, pass, share, watch) {
            Ok(worked) => worked,
            Err(AllocError) => return Err(AllocError),
        };
        if !is_silent(&worked) {
            return Ok(worked);
        }
        if watch.ear.hears(rt) {
            return Ok(worked);
        }
    }
    unreachable!()
}

fn is_silent(worked: &Worked) -> bool
    ensures { result ≡ is_silent worked.now }
{
    match worked {
        Worked::Silent => true,
        Worked::Done => false,
        Worked::Ended(_) => false,
        Worked::DialFault => false,
        Worked::ReadFault => false,
        Worked::WriteFault => false,
        Worked::Refused { .. } => false,
    }
}

// Whether a fault of the network ended it, refusals, or want of memory.
pub(crate) fn is_failed(worked: &Result<Worked, AllocError>) -> bool
    ensures { result ≡ is_failed worked.now }
{
    match worked {
        Err(AllocError) => true,
        Ok(Worked::Silent) => false,
        Ok(Worked::Done) => false,
        Ok(Worked::Ended(_)) => false,
        Ok(Worked::DialFault) => true,
        Ok(Worked::ReadFault) => true,
        Ok(Worked::WriteFault) => true,
        Ok(Worked::Refused { .. }) => true,
    }
}

// Where a worker failed, the other one is to end the session, or to end where it can't: what it came to, or want of memory where no
// terminate could be queued.
fn close_failed<J: Naming, R: Wait, B: Bell>(
    rt: &R,
    gate: &Gate<ClientObject>,
    pass: &mut Pass<ClientObject>,
    bell: &mut B,
    ear: &mut Ear<J>,
    worked: Result<Worked, AllocError>,
) -> Result<Worked, AllocError>
    requires { IsPassOf gate.now pass.old }
    ensures pass { IsPassOf gate.now pass.new }
    ensures tells { (counts : Counts) → IsToilOf worked (known pass.old) counts (known ear.old.pass) → IsEndOf result (known pass.new) counts (known ear.new.pass) }
    ensures asks { is_failed worked ≡ true → AsksToEnd (known pass.old) (known pass.new) }
{
    if is_failed(&worked) {
        return close(rt, gate, pass, bell, ear, worked);
    }
    worked
}

// The alarm is raised, and the session is to end.
fn close<J: Naming, R: Wait, B: Bell>(
    rt: &R,
    gate: &Gate<ClientObject>,
    pass: &mut Pass<ClientObject>,
    bell: &mut B,
    ear: &mut Ear<J>,
    worked: Result<Worked, AllocError>,
) -> Result<Worked, AllocError>
    requires { IsPassOf gate.now pass.old }
    ensures pass { IsPassOf gate.now pass.new }
    ensures tells { (counts : Counts) → is_failed worked ≡ true → IsToilOf worked (known pass.old) counts (known ear.old.pass) → IsEndOf result (known pass.new) counts (known ear.new.pass) }
    ensures asks { AsksToEnd (known pass.old) (known pass.new) }
{
    ear.raise(rt);
    match terminate(rt, gate, pass, bell) {
        Ok(_) => worked,
        Err(AllocError) => Err(AllocError),
    }
}

// The whole of a server.
ghost use Rattle.std.specs.Prelude.{◌≡◌, ◌≢◌, ◌≤◌, ◌<◌, ◌-◌, ◌^◌, All, IfOk, IsSome, OnErr, length, map, option_map};
ghost use Rattle.std.specs.Arc.{arc_value};
ghost use Rattle.std.specs.List.{sum_by};
ghost use Rattle.bosh_ports.specs.Faults.{HasRisen};
ghost use Rattle.parked_gate.specs.Histories.{StartsWith};
ghost use Rattle.parked_gate.specs.Passes.{IsPassOf, gate_of, known};
ghost use Rattle.serve_loop.specs.Trail.{setting};
ghost use Rattle.session_pump.specs.Pumping.{facts_of, pumping_of};
ghost use Rattle.bosh_server.specs.Behind.{EndsTogether, HasLearnt, IsService, stands_of};
ghost use Rattle.bosh_server.specs.Fates.{IsFate, site_of};
ghost use Rattle.bosh_server.specs.Runs.{RunsBy, while_last_are_served};

use crate::accepting::{Taken, accept_all};
use crate::crew::{Inboxes, Tools, doors_of, inboxes_of, new_lanes, new_yard};
use crate::ends::{Ends, Naming};
use crate::fates::Roll;
use crate::looping::{LoopJob, start_loops};
use crate::outside::{Outside, put_pump};
use crate::plan::{Ran, ServePlan};
use crate::pump_end::{PumpEnd, PumpHome};
use crate::pumping::last_turn;
use crate::starting::Startup;
use crate::stored::{Behind, start_behind};
use crate::yard::{Phase, Yard};
use bosh_ports::{Bell, BellKey, Polled};
use connection_loops::{Poller, Pollers, Rouse};
use parked_gate::Pass;
use server_ports::{Clock, Names, Network, Spawner, Started};
use session_pump::{Host, Hosts, Pump};
use session_table::Directory;
use std::alloc::{AllocError, Global};
use std::marker::Brand;
use std::sync::{Arc, Wait};
use std::thread::Threads;
use xmpp_backend::Backend;

/// Serves the links of a network that listens, until it stops or as many came as are planned, by loops, each of which is a thread that steps all
/// the connections that it was handed where these can go on. Before the answer every link that was accepted was served to its end, every session was
/// ended, and every job has ended, but the one that tells that entries are stored, where they are: that ends with their queue. No link is retired. Want of
/// memory comes before anything is accepted or started. The jobs wait for each other, so the spawner has to give threads.
pub fn run_workers<R, N, L, C, B, S, M, Q, E>(
    rt: &R,
    alloc: Global,
    outside: &mut Outside<N, C, B, S, M, Q, L, E>,
    plan: &ServePlan,
    hosts: Vec<Host<E>>,
) -> Result<Ran, AllocError>
where
    R: Wait + Threads + Copy + Send + Drop + 'static,
    N: Network<Link = L>,
    L: Polled + Send + Drop + 'static,
    C: Clock + Send + Drop + 'static,
    B: Bell + Send + Drop + 'static,
    S: Spawner,
    M: Names + Send + Drop + 'static,
    Q: Pollers<L>,
    Q::Poller: Send + Drop + 'static,
    Q::Rouse: Send + Sync + Drop + 'static,
    E: Backend + Send + 'static,
    ensures runs { IfOk result (RunsBy plan.now.connections (N.counts outside.old.net) (N.counts outside.new.net)) }

    // What became of each link that was accepted: each stands in the roll, and what is said of it there is true. What its hosts had to do
    // with sessions: the pump began with them, and stands so at the end.
    ensures service { IfOk result (λ _. ∥ IsService L.Polled.left L.Polled.given L.Polled.closed L.Polled.faults
        (site_of hosts.items plan.now.limits (C.moment outside.old.clock)) (stands_of E.told E.counts hosts.items)
        (N.counts outside.old.net) (N.counts outside.new.net) outside.new.roll (option_map (pumping_of E.told E.counts) outside.new.pump) ∥₁) }
    ensures pump { IfOk result (λ ran. ran ≢ Ran.SpawnFault → IsSome outside.new.pump) }
    ensures refused { IfOk result (λ ran. ran ≡ Ran.SpawnFault → HasRisen (S.refusals outside.old.spawner) (S.refusals outside.new.spawner)) }
    ensures refusals { IfOk result (λ ran. ran ≢ Ran.SpawnFault → S.refusals outside.new.spawner ≡ S.refusals outside.old.spawner) }
    ensures never_falls { ((N.counts outside.old.net).faults ≤ (N.counts outside.new.net).faults) × (S.refusals outside.old.spawner ≤ S.refusals outside.new.spawner) }

    // Want of memory is met before anything was done.
    ensures err { OnErr result ((outside.new.net ≡ outside.old.net) × (outside.new.spawner ≡ outside.old.spawner) × (outside.new.roll ≡ outside.old.roll) × (outside.new.pump ≡ outside.old.pump)) }
{
    let hosts = Hosts::new(alloc, hosts)?;
    let restored = outside.restored.take();
    let (yard, pass) = new_yard(alloc, &hosts, plan, outside.room, &outside.watch, restored)?;
    run_named::<Brand, R, N, L, C, B, S, M, Q, E>(rt, alloc, outside, plan, hosts, yard, pass)
}

// The same for a server with a name.
fn run_named<J, R, N, L, C, B, S, M, Q, E>(
    rt: &R,
    alloc: Global,
    outside: &mut Outside<N, C, B, S, M, Q, L, E>,
    plan: &ServePlan,
    hosts: Hosts<E>,
    yard: Arc<Yard>,
    pass: Pass<Directory>,
) -> Result<Ran, AllocError>
where
    J: Naming + Send + Sync + 'static,
    R: Wait + Threads + Copy + Send + Drop + 'static,
    N: Network<Link = L>,
    L: Polled + Send + Drop + 'static,
    C: Clock + Send + Drop + 'static,
    B: Bell + Send + Drop + 'static,
    S: Spawner,
    M: Names + Send + Drop + 'static,
    Q: Pollers<L>,
    Q::Poller: Send + Drop + 'static,
    Q::Rouse: Send + Sync + Drop + 'static,
    E: Backend + Send + 'static,
    requires pass { IsPassOf (arc_value yard).directory pass }
    requires home { gate_of (arc_value yard).directory ≡ J.home }
    requires site { setting (arc_value yard).hosts (arc_value yard).limits (C.moment outside.old.clock) ≡ J.site }
    requires stands { map (facts_of E.told E.counts) hosts.stands.items ≡ J.stands }
    ensures runs { IfOk result (RunsBy plan.now.connections (N.counts outside.old.net) (N.counts outside.new.net)) }
    ensures service { IfOk result (λ _. ∥ IsService L.Polled.left L.Polled.given L.Polled.closed L.Polled.faults J.site J.stands
        (N.counts outside.old.net) (N.counts outside.new.net) outside.new.roll (option_map (pumping_of E.told E.counts) outside.new.pump) ∥₁) }
    ensures pump { IfOk result (λ ran. ran ≢ Ran.SpawnFault → IsSome outside.new.pump) }
    ensures refused { IfOk result (λ ran. ran ≡ Ran.SpawnFault → HasRisen (S.refusals outside.old.spawner) (S.refusals outside.new.spawner)) }
    ensures refusals { IfOk result (λ ran. ran ≢ Ran.SpawnFault → S.refusals outside.new.spawner ≡ S.refusals outside.old.spawner) }
    ensures never_falls { ((N.counts outside.old.net).faults ≤ (N.counts outside.new.net).faults) × (S.refusals outside.old.spawner ≤ S.refusals outside.new.spawner) }
    ensures err { OnErr result ((outside.new.net ≡ outside.old.net) × (outside.new.spawner ≡ outside.old.spawner) × (outside.new.roll ≡ outside.old.roll) × (outside.new.pump ≡ outside.old.pump)) }
{
    let mut pass = pass;
    let lanes = new_lanes(alloc, &mut outside.pollers, plan.workers.max(1))?;
    let doors = doors_of(alloc, lanes.as_slice())?;
    let inboxes = inboxes_of(alloc, lanes.as_slice())?;
    let ends = new_ends::<J, L>(alloc, lanes.len())?;
    let tools = Tools {
        rt,
        alloc,
        yard: &yard,
        clock: &outside.clock,
        bell: &outside.bell,
        doors: &doors,
    };
    let loops = tools.loops(&ends, lanes, &mut pass, &mut outside.names)?;
    let own = yard.directory.split(rt, &mut pass);
    let last = new_home::<J, E>(alloc)?;
    let pump = tools.pump(own, hosts, &last)?;
    let teller = tools.stored_job(&outside.keeper)?;
    let behind = Behind { teller, pump };
    let site = Works {
        alloc,
        yard: &yard,
        inboxes: &inboxes,
        ends: &ends,
        last: &last,
        connections: plan.connections,
    };
    Ok(site.run(rt, outside, &mut pass, behind, loops))
}

// Room for the ends of so many loops. The only error is want of memory.
fn new_ends<J: Naming, L: Polled + Drop>(
    alloc: Global,
    loops: usize,
) -> Result<Arc<Ends<J, L>>, AllocError> {
    match Arc::new(alloc, Ends::with_room(alloc, loops)?) {
        Ok(ends) => Ok(ends),
        Err(_) => Err(AllocError),
    }
}

// Where the end of a pump is to be left. The only error is want of memory.
fn new_home<J: Naming, E: Backend>(alloc: Global) -> Result<Arc<PumpHome<J, E>>, AllocError> {
    match Arc::new(alloc, PumpHome::new()) {
        Ok(home) => Ok(home),
        Err(_) => Err(AllocError),
    }
}

// What the accepting thread has of its server.
#[derive(Drop)]
struct Works<'w, J: Naming, L: Polled + Drop, W: Rouse + Drop, E: Backend> {
    alloc: Global,
    yard: &'w Yard,
    inboxes: &'w Inboxes<L, W>,
    ends: &'w Ends<J, L>,
    last: &'w PumpHome<J, E>,
    connections: u32,
}

// What became of the links, and the pump as it ended.
struct Ended<L: Polled + Drop, E: Backend> {
    roll: Roll<L>,
    pump: Pump<E>,
}

impl<J: Naming, L: Polled + Drop, W: Rouse + Drop, E: Backend> Works<'_, J, L, W, E> {
    // Starts the jobs, accepts, and waits for the ends of what was started.
    fn run<R, N, C, B, S, M, Q, P>(
        &self,
        rt: &R,
        outside: &mut Outside<N, C, B, S, M, Q, L, E>,
        pass: &mut Pass<Directory>,
        behind: Behind<J, R, C, B, W, E>,
        loops: Vec<LoopJob<J, R, L, C, B, M, P, W>>,
    ) -> Ran
    where
        J: Send + Sync + 'static,
        R: Wait + Threads + Copy + Send + Drop + 'static,
        N: Network<Link = L>,
        C: Clock + Send + Drop + 'static,
        B: Bell + Send + Drop + 'static,
        L: Send + 'static,
        S: Spawner,
        M: Names + Send + Drop + 'static,
        P: Poller<L> + Send + Drop + 'static,
        W: Send + Sync + 'static,
        E: Send + 'static,
        requires pass { IsPassOf self.now.yard.now.directory pass.old }
        requires home { gate_of self.now.yard.now.directory ≡ J.home }
        ensures runs { RunsBy self.now.connections (N.counts outside.old.net) (N.counts outside.new.net) result }
        ensures service { ∥ IsService L.Polled.left L.Polled.given L.Polled.closed L.Polled.faults J.site J.stands
            (N.counts outside.old.net) (N.counts outside.new.net) outside.new.roll (option_map (pumping_of E.told E.counts) outside.new.pump) ∥₁ }
        ensures pump { result ≢ Ran.SpawnFault → IsSome outside.new.pump }
        ensures refused { result ≡ Ran.SpawnFault → HasRisen (S.refusals outside.old.spawner) (S.refusals outside.new.spawner) }
        ensures refusals { result ≢ Ran.SpawnFault → S.refusals outside.new.spawner ≡ S.refusals outside.old.spawner }
        ensures never_falls { ((N.counts outside.old.net).faults ≤ (N.counts outside.new.net).faults) × (S.refusals outside.old.spawner ≤ S.refusals outside.new.spawner) }
    {
        outside.roll = Roll::new();
        put_pump(&mut outside.pump, None);
        match start_behind(rt, &mut outside.spawner, behind) {
            Started::Running => {}
            Started::Refused => return Ran::SpawnFault,
        }
        let Startup {
            started,
            is_refused,
        } = start_loops(rt, &mut outside.spawner, loops);
        if is_refused {
            let Ended { roll, pump } = self.dismiss(
                rt,
                &outside.clock,
                &mut outside.bell,
                pass,
                started,
                0,
            );
            outside.roll = roll;
            put_pump(&mut outside.pump, Some(pump));
            return Ran::SpawnFault;
        }
        let Taken { ran, links } = accept_all(rt, &mut outside.net, self.inboxes, self.connections);
        self.tell_pump(rt, &mut outside.bell, phase_after(self.connections, ran));
        let Ended { roll, pump: last } = self.dismiss(
            rt,
            &outside.clock,
            &mut outside.bell,
            pass,
            started,
            links,
        );
        outside.roll = roll;
        put_pump(&mut outside.pump, Some(last));
        ran
    }

    // What the pump is to do from now on.
    fn tell_pump<R: Wait, B: Bell>(&self, rt: &R, bell: &mut B, phase: Phase) {
        self.yard.enter_phase(rt, phase);
        bell.ring(BellKey::PUMP);
    }

    // No more links come: waits until so many loops have served theirs, which are so many in all, and then until the pump has ended, which
    // makes its last turn here.
    fn dismiss<R: Wait, C: Clock, B: Bell>(
        &self,
        rt: &R,
        clock: &C,
        bell: &mut B,
        pass: &mut Pass<Directory>,
        loops: u64,
        links: u64,
    ) -> Ended<L, E>
        requires pass { IsPassOf self.now.yard.now.directory pass.old }
        requires home { gate_of self.now.yard.now.directory ≡ J.home }
        ensures all { links < 2 ^ 64 - 1 → sum_by length result.roll ≡ links }
        ensures true_of { ∥ All (λ fates. All (IsFate L.left L.given L.closed L.faults J.site) fates) result.roll ∥₁ }
        ensures together { ∥ EndsTogether J.stands result.roll (pumping_of E.told E.counts result.pump) ∥₁ }
    {
        self.inboxes.close();
        let roll = self
            .ends
            .gather(rt, &self.yard.directory, pass, loops, links);
        self.tell_pump(rt, bell, Phase::Over);
        let mut pump = self.fetch_pump(rt, pass);
        last_turn(&mut pump, rt, self.alloc, self.yard, clock, bell);
        Ended { roll, pump }
    }

    // The pump, once it has left its thread. It has then seen what was seen of the directory for this pass too.
    fn fetch_pump<R: Wait>(&self, rt: &R, pass: &mut Pass<Directory>) -> Pump<E>
        requires pass { IsPassOf self.now.yard.now.directory pass.old }
        requires home { gate_of self.now.yard.now.directory ≡ J.home }
        ensures pass { IsPassOf self.now.yard.now.directory result.purse.directory }
        ensures runs { ∥ HasLearnt J.stands (pumping_of E.told E.counts result) ∥₁ }
        ensures seen { StartsWith (known result.purse.directory).seen (known pass.old).seen }
    {
        let PumpEnd { pump, of: _ } = self.last.take(rt);
        let mut pump = pump;
        self.yard.directory.share(&mut pump.purse.directory, pass);
        pump
    }
}

// What the pump is to do while the last links are served.
fn phase_after(planned: u32, ran: Ran) -> Phase
    ensures { result ≡ while_last_are_served planned ran }
{
    match ran {
        Ran::Done { connections } => phase_after_links(planned, connections),
        Ran::NetFault => Phase::Closing,
        Ran::SpawnFault => Phase::Closing,
    }
}

// The same, where so many links came.
fn phase_after_links(planned: u32, links: u32) -> Phase
    ensures { result ≡ while_last_are_served planned (Ran.Done links) }
{
    if 0 < planned && links == planned {
        return Phase::Serving;
    }
    Phase::Closing
}

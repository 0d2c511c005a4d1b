// The job of the pump.
ghost use Rattle.std.specs.Prelude.{◌≡◌, ◌≤◌, ◌&&◌, [], is_ok, map};
ghost use Rattle.std.specs.Arc.{arc_value};
ghost use Rattle.std.specs.BTreeMap.{IsEmpty};
ghost use Rattle.bosh_ports.specs.Faults.{HasRisen};
ghost use Rattle.parked_gate.specs.Passes.{IsPassOf, gate_of, known};
ghost use Rattle.session_pump.specs.Pumping.{facts_of, pumping_of};
ghost use Rattle.session_pump.specs.Rows.{Row};
ghost use Rattle.bosh_server.specs.Behind.{ShutsAndTurns};

use crate::agenda::Agenda;
use crate::ends::Naming;
use crate::pump_end::{PumpEnd, PumpHome};
use crate::rings::{NotingBell, Rings};
use crate::telling::tell_news;
use crate::yard::{Phase, Yard};
use bosh_ports::{Bell, BellKey};
use bosh_types::Moment;
use parked_gate::{Gate, Pass};
use server_ports::{Clock, Job, Leave, Spawner, Started, start};
use session_pump::{Hosts, Pump};
use session_table::{Directory, Purse};
use std::alloc::{AllocError, Global};
use std::marker::PhantomData;
use std::sync::{Arc, Wait};
use std::thread::Threads;
use xmpp_backend::Backend;

/// A pump that hasn't begun. A trait, so that whether its back ends may cross to a thread is asked apart from the rest of the job.
pub(crate) trait Pumped: Drop {
    /// Makes turns of the pump, and waits at the bell between them, until nobody is served any longer.
    fn pump<R: Wait, C: Clock, B: Bell + Drop>(self, rt: &R, alloc: Global, clock: &C, bell: B);
}

/// A pump of a server that hasn't begun: its hosts, a pass of the directory, and where its end is to be left.
#[derive(Drop)]
pub(crate) struct PumpPost<J: Naming, E: Backend> {
    pub(crate) hosts: Hosts<E>,
    pub(crate) yard: Arc<Yard>,
    pub(crate) pass: Pass<Directory>,
    pub(crate) last: Arc<PumpHome<J, E>>,
    pub(crate) ghost fits: { IsPassOf (arc_value yard).directory pass },
    pub(crate) ghost home: { gate_of (arc_value yard).directory ≡ J.home },
    pub(crate) ghost stands: { ∥ map (facts_of E.told E.counts) hosts.stands.items ≡ J.stands ∥₁ },
    pub(crate) ghost no_entry: { ∥ (known pass).mine ≡ [] ∥₁ },
}

impl<J: Naming, E: Backend> Pumped for PumpPost<J, E> {
    fn pump<R: Wait, C: Clock, B: Bell + Drop>(self, rt: &R, alloc: Global, clock: &C, bell: B) {
        pump_to_end(self, rt, alloc, clock, bell);
    }
}

// Begins the pump, makes its turns, and leaves its end where that is to be.
fn pump_to_end<J: Naming, R: Wait, C: Clock, B: Bell + Drop, E: Backend>(
    post: PumpPost<J, E>,
    rt: &R,
    alloc: Global,
    clock: &C,
    bell: B,
) {
    let PumpPost {
        hosts,
        yard,
        pass,
        last,
    } = post;
    let mut pump = new_pump(alloc, pass, hosts, yard.watch.is_on());
    let given = Rings::new(alloc);
    let mut bell = NotingBell::new(rt, bell, &given);
    make_turns(rt, alloc, &yard, &given, &mut pump, clock, &mut bell);
    last.put(
        rt,
        PumpEnd {
            pump,
            of: PhantomData,
        },
    );
}

// A pump of these hosts with this pass. It takes no memory.
fn new_pump<E: Backend>(
    alloc: Global,
    pass: Pass<Directory>,
    hosts: Hosts<E>,
    is_watched: bool,
) -> Pump<E>
    ensures directory { result.purse.directory ≡ pass }
    ensures sessions { IsEmpty result.purse.sessions }
    ensures hosts { result.hosts ≡ hosts }
    ensures lines { IsEmpty result.lines }
    ensures dues { result.dues ≡ [] }
{
    let mut pump = Pump::new(alloc, Purse::new(alloc, pass), hosts);
    if is_watched {
        pump.news.want();
        return pump;
    }
    pump
}

// Makes turns until nobody is served any longer. A session that the pump itself rang for, since it gave it something, is no reason for
// another turn, unless it is over by that.
fn make_turns<R: Wait, C: Clock, B: Bell, E: Backend>(
    rt: &R,
    alloc: Global,
    yard: &Yard,
    given: &Rings,
    pump: &mut Pump<E>,
    clock: &C,
    bell: &mut B,
)
    requires { IsPassOf yard.now.directory pump.old.purse.directory }
    ensures pass { IsPassOf yard.now.directory pump.new.purse.directory }
    ensures row { Row (pumping_of E.told E.counts pump.old) (pumping_of E.told E.counts pump.new) }
{
    let mut agenda = Agenda::new(alloc);
    for _ in rt.forever() {
        bell.tune(BellKey::PUMP);
        agenda.take_up(rt, &yard.rings);
        let phase = yard.phase(rt);
        if phase == Phase::Over {
            return;
        }
        turn(pump, rt, &yard.directory, clock, bell, phase, &mut agenda);
        tell_news(
            rt,
            alloc,
            &yard.watch,
            &mut pump.news,
            &pump.hosts,
            clock.now(),
        );
        agenda.take_given(rt, given);
        let found = note_given(pump, rt, &mut agenda);
        agenda.serve_over(rt, found, &yard.rings);
        if !pump.is_behind() {
            agenda.rest(rt, &yard.rings, clock, bell, pump.first_due());
        }
    }
}

// Notes when those are due that the pump gave something, and which of them are over by that. The only error is want of memory.
fn note_given<R: Wait, E: Backend>(
    pump: &mut Pump<E>,
    rt: &R,
    agenda: &mut Agenda,
) -> Result<(), AllocError>
    ensures directory { pump.new.purse.directory ≡ pump.old.purse.directory }
    ensures row { Row (pumping_of E.told E.counts pump.old) (pumping_of E.told E.counts pump.new) }
{
    match pump.note_given(rt, agenda.given.as_slice(), &mut agenda.over) {
        Ok(()) => Ok(()),
        Err(AllocError) => Err(AllocError),
    }
}

// One turn: for those who were rung for or are due, or for every session where that is due or no more links come. Where it wants
// memory, every session is served at once.
fn turn<R: Wait, C: Clock, B: Bell, E: Backend>(
    pump: &mut Pump<E>,
    rt: &R,
    directory: &Gate<Directory>,
    clock: &C,
    bell: &mut B,
    phase: Phase,
    agenda: &mut Agenda,
)
    requires { IsPassOf directory.now pump.old.purse.directory }
    ensures pass { IsPassOf directory.now pump.new.purse.directory }
    ensures row { Row (pumping_of E.told E.counts pump.old) (pumping_of E.told E.counts pump.new) }
{
    let now = clock.now();
    if phase == Phase::Serving && !agenda.is_whole_by(now) {
        if short_turn(pump, rt, directory, clock, bell, agenda, now).is_err() {
            agenda.hurry();
        }
        return;
    }
    agenda.hurry();
    if whole_turn(pump, rt, directory, clock, bell, phase) {
        agenda.end_round(now);
    }
}

// A turn for those who were rung for or are due by now. The only error is want of memory.
fn short_turn<R: Wait, C: Clock, B: Bell, E: Backend>(
    pump: &mut Pump<E>,
    rt: &R,
    directory: &Gate<Directory>,
    clock: &C,
    bell: &mut B,
    agenda: &mut Agenda,
    now: Moment,
) -> Result<(), AllocError>
    requires { IsPassOf directory.now pump.old.purse.directory }
    ensures pass { IsPassOf directory.now pump.new.purse.directory }
    ensures row { Row (pumping_of E.told E.counts pump.old) (pumping_of E.told E.counts pump.new) }
{
    pump.take_due(rt, now, &mut agenda.numbers)?;
    agenda.put_in_order();
    pump.turn_for(rt, directory, clock, bell, agenda.numbers.as_slice())
}

// A turn for every session. Where no more links come, every live session is ended before. Whether there was memory for all of it.
fn whole_turn<R: Wait, C: Clock, B: Bell, E: Backend>(
    pump: &mut Pump<E>,
    rt: &R,
    directory: &Gate<Directory>,
    clock: &C,
    bell: &mut B,
    phase: Phase,
) -> bool
    requires { IsPassOf directory.now pump.old.purse.directory }
    ensures pass { IsPassOf directory.now pump.new.purse.directory }
    ensures row { Row (pumping_of E.told E.counts pump.old) (pumping_of E.told E.counts pump.new) }
{
    let shut = shut_down_where_over(pump, rt, directory, clock, bell, phase);
    let turned = pump.turn(rt, directory, clock, bell);
    let noted = note_all(pump, rt);
    are_done(shut, turned, noted)
}

// Whether there was memory for each of them.
fn are_done(
    shut: Result<(), AllocError>,
    turned: Result<usize, AllocError>,
    noted: Result<(), AllocError>,
) -> bool
    ensures { result ≡ is_ok shut && is_ok turned && is_ok noted }
{
    shut.is_ok() && turned.is_ok() && noted.is_ok()
}

// Notes when each session is due that is held. The only error is want of memory.
fn note_all<R: Wait, E: Backend>(pump: &mut Pump<E>, rt: &R) -> Result<(), AllocError>
    ensures directory { pump.new.purse.directory ≡ pump.old.purse.directory }
    ensures row { Row (pumping_of E.told E.counts pump.old) (pumping_of E.told E.counts pump.new) }
{
    match pump.note_all(rt) {
        Ok(()) => Ok(()),
        Err(AllocError) => Err(AllocError),
    }
}

// Ends every live session, where no more links come. The only error is want of memory.
fn shut_down_where_over<R: Wait, C: Clock, B: Bell, E: Backend>(
    pump: &mut Pump<E>,
    rt: &R,
    directory: &Gate<Directory>,
    clock: &C,
    bell: &mut B,
    phase: Phase,
) -> Result<(), AllocError>
    requires { IsPassOf directory.now pump.old.purse.directory }
    ensures pass { IsPassOf directory.now pump.new.purse.directory }
    ensures row { Row (pumping_of E.told E.counts pump.old) (pumping_of E.told E.counts pump.new) }
{
    if phase == Phase::Serving {
        return Ok(());
    }
    pump.shut_down(rt, directory, clock, bell)
}

/// The last turn of a pump: every live session is ended, and each is served once more. What finds no memory is left.
pub(crate) fn last_turn<R: Wait, C: Clock, B: Bell, E: Backend>(
    pump: &mut Pump<E>,
    rt: &R,
    alloc: Global,
    yard: &Yard,
    clock: &C,
    bell: &mut B,
)
    requires { IsPassOf yard.now.directory pump.old.purse.directory }
    ensures { ShutsAndTurns (pumping_of E.told E.counts pump.old) (pumping_of E.told E.counts pump.new) }
{
    let _ = pump.shut_down(rt, &yard.directory, clock, bell);
    let _ = pump.turn(rt, &yard.directory, clock, bell);
    tell_news(
        rt,
        alloc,
        &yard.watch,
        &mut pump.news,
        &pump.hosts,
        clock.now(),
    );
}

/// Runs a pump.
#[derive(Drop)]
pub(crate) struct PumpJob<R, C, B, H>
where
    R: Wait + Copy + Drop,
    C: Clock + Drop,
    B: Bell + Drop,
    H: Pumped,
{
    pub(crate) rt: R,
    pub(crate) alloc: Global,
    pub(crate) clock: C,
    pub(crate) bell: B,
    pub(crate) post: H,
}

impl<R, C, B, H> Job for PumpJob<R, C, B, H>
where
    R: Wait + Copy + Drop,
    C: Clock + Drop,
    B: Bell + Drop,
    H: Pumped,
{
    fn run(self, _leave: Leave) {
        let PumpJob {
            rt,
            alloc,
            clock,
            bell,
            post,
        } = self;
        post.pump(&rt, alloc, &clock, bell);
    }
}

/// Starts this pump where the spawner gives leave.
pub(crate) fn start_pump_of<J, R, S, C, B, E>(
    rt: &R,
    spawner: &mut S,
    pump: PumpJob<R, C, B, PumpPost<J, E>>,
) -> Started
where
    J: Naming + Send + Sync + 'static,
    R: Wait + Threads + Copy + Send + Drop + 'static,
    S: Spawner,
    C: Clock + Send + Drop + 'static,
    B: Bell + Send + Drop + 'static,
    E: Backend + Send + 'static,
    ensures refused { result ≡ Started.Refused → HasRisen (S.refusals spawner.old) (S.refusals spawner.new) }
    ensures running { result ≡ Started.Running → S.refusals spawner.new ≡ S.refusals spawner.old }
    ensures never_falls { S.refusals spawner.old ≤ S.refusals spawner.new }
{
    start_pump(rt, spawner, pump)
}

// Starts any pump.
fn start_pump<R, S, C, B, H>(rt: &R, spawner: &mut S, pump: PumpJob<R, C, B, H>) -> Started
where
    R: Wait + Threads + Copy + Send + Drop + 'static,
    S: Spawner,
    C: Clock + Send + Drop + 'static,
    B: Bell + Send + Drop + 'static,
    H: Pumped + Send + 'static,
    ensures refused { result ≡ Started.Refused → HasRisen (S.refusals spawner.old) (S.refusals spawner.new) }
    ensures running { result ≡ Started.Running → S.refusals spawner.new ≡ S.refusals spawner.old }
    ensures never_falls { S.refusals spawner.old ≤ S.refusals spawner.new }
{
    start(rt, spawner, pump)
}

// The jobs of a server, made before any is started.
ghost use Rattle.std.specs.Prelude.{◌≡◌, ◌++◌, ◌∷◌, [], IfOk, OnOk, true, filter, map};
ghost use Rattle.std.specs.Arc.{arc_value};
ghost use Rattle.std.specs.List.{list_all};
ghost use Rattle.parked_gate.specs.Passes.{IsPassOf, gate_of, known};
ghost use Rattle.serve_loop.specs.Trail.{setting};
ghost use Rattle.session_attrs.specs.Serving.{can_serve};
ghost use Rattle.session_pump.specs.Pumping.{facts_of};
ghost use Rattle.session_table.specs.Entering.{AreOf};

use crate::bells::{Doors, LoopBell, PumpBell};
use crate::ends::{Ends, Naming};
use crate::fates::Fates;
use crate::looping::LoopJob;
use crate::plan::ServePlan;
use crate::pump_end::PumpHome;
use crate::pumping::{PumpJob, PumpPost};
use crate::seat::LoopTools;
use crate::stored::StoredJob;
use crate::yard::Yard;
use bosh_ports::{Bell, Polled};
use bosh_types::{HostName, HostNames};
use connection_loops::{Door, Inbox, Loop, Poller, Pollers, Rouse};
use entry_queue::EntryQueue;
use parked_gate::{Gate, Pass};
use polled_http::Rooms;
use serve_loop::{Refused, Tools as Serving};
use server_ports::{Clock, Names};
use server_watch::Watch;
use session_attrs::can_serve;
use session_pump::Hosts;
use session_table::{Directory, Restored};
use std::alloc::{AllocError, Global};
use std::marker::PhantomData;
use std::sync::{Arc, Wait};
use xmpp_backend::Backend;

/// The hosts at which sessions can be opened. The only error is want of memory.
fn served_hosts(alloc: Global, hosts: HostNames) -> Result<HostNames, AllocError>
    ensures hosts { IfOk result (λ served. served ≡ filter can_serve hosts) }
    ensures serve { IfOk result (λ served. list_all can_serve served ≡ true) }
{
    let mut served = Vec::new(alloc);
    for host in hosts.into_vec() {
        push_served(alloc, &mut served, host)?;
    }
    Ok(HostNames::from_vec(served))
}

// Puts the host behind these where sessions can be opened at it.
#[tactic(auto, using(crate::proofs::HostLemmas::serve_more))]
fn push_served(alloc: Global, served: &mut Vec<HostName>, host: HostName) -> Result<(), AllocError>
    ensures hosts { OnOk result (served.new.items ≡ served.old.items ++ filter can_serve (host ∷ [])) }
    ensures serve { list_all can_serve served.old.items ≡ true → OnOk result (list_all can_serve served.new.items ≡ true) }
{
    if can_serve(alloc, &host)? {
        served.push(host)?;
        return Ok(());
    }
    Ok(())
}

// The sessions that a server begins with.
fn first_directory(alloc: Global, restored: Option<Restored>) -> Directory
    ensures { AreOf 0 result }
{
    match restored {
        Some(Restored { directory }) => directory,
        None => Directory::new(alloc),
    }
}

/// A directory for these hosts, of the sessions that were restored, or of none, and a pass of it. The only error is want of memory.
pub(crate) fn new_yard<E: Backend>(
    alloc: Global,
    hosts: &Hosts<E>,
    plan: &ServePlan,
    room: u32,
    watch: &Watch,
    restored: Option<Restored>,
) -> Result<(Arc<Yard>, Pass<Directory>), AllocError>
    ensures pass { IfOk result (λ made. IsPassOf (arc_value made.0).directory made.1) }
    ensures hosts { IfOk result (λ made. (arc_value made.0).hosts ≡ filter can_serve (map (λ stand. record { name = stand.host.name; greeting = stand.host.greeting }) hosts.now.stands.items)) }
    ensures limits { IfOk result (λ made. (arc_value made.0).limits ≡ plan.now.limits) }
{
    let hosts = served_hosts(alloc, hosts.names(alloc)?)?;
    let Ok((directory, pass)) = Gate::new(alloc, first_directory(alloc, restored)) else {
        return Err(AllocError);
    };
    let yard = Yard::new(alloc, directory, hosts, plan, room, watch)?;
    let Ok(yard) = Arc::new(alloc, yard) else {
        return Err(AllocError);
    };
    Ok((yard, pass))
}

/// How many links may wait for a loop. More wait in the network.
const ROOM: usize = 64;

/// Where links are left for the loops.
#[derive(Drop)]
pub(crate) struct Inboxes<L: Drop, W: Rouse + Drop> {
    inboxes: Vec<Arc<Inbox<L, W>>>,
}

impl<L: Drop, W: Rouse + Drop> Inboxes<L, W> {
    /// Leaves the link with this number for the loop whose turn it is, once there is room for it there.
    pub(crate) fn put<R: Wait>(&self, rt: &R, number: u32, link: L) {
        let count = self.inboxes.len();
        if count == 0 {
            return;
        }
        if let Some(inbox) = self.inboxes.get(number as usize % count) {
            inbox.put(rt, link);
        }
    }

    /// No more links come.
    pub(crate) fn close(&self) {
        for inbox in &self.inboxes {
            inbox.door.close();
        }
    }
}

/// A loop that isn't made yet: what tells it of its links, and where these are left for it.
#[derive(Drop)]
pub(crate) struct Lane<L: Drop, P: Drop, W: Rouse + Drop> {
    poller: P,
    inbox: Arc<Inbox<L, W>>,
}

// One more lane. The only error is want of memory, or of what tells of links.
fn new_lane<L: Drop, Q: Pollers<L>>(
    alloc: Global,
    pollers: &mut Q,
) -> Result<Lane<L, Q::Poller, Q::Rouse>, AllocError>
where
    Q::Poller: Drop,
    Q::Rouse: Drop,
{
    let (poller, rouse) = pollers.poller()?;
    let door = shared(alloc, Door::new(alloc, rouse)?)?;
    let inbox = shared(alloc, Inbox::with_room(alloc, ROOM, door)?)?;
    Ok(Lane { poller, inbox })
}

// The value in memory of its own. The only error is want of that.
fn shared<T: Drop>(alloc: Global, value: T) -> Result<Arc<T>, AllocError> {
    match Arc::new(alloc, value) {
        Ok(shared) => Ok(shared),
        Err(_) => Err(AllocError),
    }
}

/// So many lanes. The only error is want of memory, or of what tells of links.
pub(crate) fn new_lanes<L: Drop, Q: Pollers<L>>(
    alloc: Global,
    pollers: &mut Q,
    count: u32,
) -> Result<Vec<Lane<L, Q::Poller, Q::Rouse>>, AllocError>
where
    Q::Poller: Drop,
    Q::Rouse: Drop,
{
    let mut lanes = Vec::with_capacity(alloc, count as usize)?;
    for _ in 0..count {
        lanes.push(new_lane(alloc, pollers)?)?;
    }
    Ok(lanes)
}

/// The doors of these lanes. The only error is want of memory.
pub(crate) fn doors_of<L: Drop, P: Drop, W: Rouse + Drop>(
    alloc: Global,
    lanes: &[Lane<L, P, W>],
) -> Result<Arc<Doors<W>>, AllocError> {
    let mut doors = Vec::new(alloc);
    for lane in lanes {
        doors.push(Arc::try_clone(&lane.inbox.door)?)?;
    }
    shared(alloc, Doors { doors })
}

/// Where links are left for these lanes. The only error is want of memory.
pub(crate) fn inboxes_of<L: Drop, P: Drop, W: Rouse + Drop>(
    alloc: Global,
    lanes: &[Lane<L, P, W>],
) -> Result<Inboxes<L, W>, AllocError> {
    let mut inboxes = Vec::new(alloc);
    for lane in lanes {
        inboxes.push(Arc::try_clone(&lane.inbox)?)?;
    }
    Ok(Inboxes { inboxes })
}

/// What a job of a server is made with.
#[derive(Drop)]
pub(crate) struct Tools<'t, R, C, B, W>
where
    R: Wait + Copy + Drop,
    C: Clock,
    B: Bell,
    W: Rouse + Drop,
{
    pub(crate) rt: &'t R,
    pub(crate) alloc: Global,
    pub(crate) yard: &'t Arc<Yard>,
    pub(crate) clock: &'t C,
    pub(crate) bell: &'t B,
    pub(crate) doors: &'t Arc<Doors<W>>,
}

impl<R, C, B, W> Tools<'_, R, C, B, W>
where
    R: Wait + Copy + Drop,
    C: Clock + Drop,
    B: Bell + Drop,
    W: Rouse + Drop,
{
    /// A loop for each lane. The only error is want of memory.
    pub(crate) fn loops<J: Naming, L: Polled + Drop, M: Names + Drop, P: Poller<L> + Drop>(
        &self,
        ends: &Arc<Ends<J, L>>,
        lanes: Vec<Lane<L, P, W>>,
        pass: &mut Pass<Directory>,
        names: &mut M,
    ) -> Result<Vec<LoopJob<J, R, L, C, B, M, P, W>>, AllocError>
        requires pass { IsPassOf (arc_value self.now.yard.now).directory pass.old }
        requires home { gate_of (arc_value self.now.yard.now).directory ≡ J.home }
        requires site { setting (arc_value self.now.yard.now).hosts (arc_value self.now.yard.now).limits (C.moment self.now.clock.now) ≡ J.site }
        ensures { IsPassOf (arc_value self.now.yard.now).directory pass.new }
    {
        let mut loops = Vec::with_capacity(self.alloc, lanes.len())?;
        for lane in lanes {
            loops.push(self.looped(ends, lane, pass, names)?)?;
        }
        Ok(loops)
    }

    // A loop with a pass of its own.
    fn looped<J: Naming, L: Polled + Drop, M: Names + Drop, P: Poller<L> + Drop>(
        &self,
        ends: &Arc<Ends<J, L>>,
        lane: Lane<L, P, W>,
        pass: &mut Pass<Directory>,
        names: &mut M,
    ) -> Result<LoopJob<J, R, L, C, B, M, P, W>, AllocError>
        requires pass { IsPassOf (arc_value self.now.yard.now).directory pass.old }
        requires home { gate_of (arc_value self.now.yard.now).directory ≡ J.home }
        requires site { setting (arc_value self.now.yard.now).hosts (arc_value self.now.yard.now).limits (C.moment self.now.clock.now) ≡ J.site }
        ensures { IsPassOf (arc_value self.now.yard.now).directory pass.new }
    {
        let Lane { poller, inbox } = lane;
        let own = self.yard.directory.split(self.rt, pass);
        let tools = self.loop_tools(own, Arc::try_clone(&inbox.door)?, names)?;
        Ok(LoopJob {
            rt: *self.rt,
            ends: Arc::try_clone(ends)?,
            inbox,
            looped: Loop::new(self.alloc, poller, tools)?,
        })
    }

    // What a loop with this pass and this door has for its connections. The only error is want of memory.
    fn loop_tools<J: Naming, L: Polled + Drop, M: Names + Drop>(
        &self,
        pass: Pass<Directory>,
        own: Arc<Door<W>>,
        names: &mut M,
    ) -> Result<LoopTools<J, R, L, C, B, M, W>, AllocError>
        requires pass { IsPassOf (arc_value self.now.yard.now).directory pass }
        requires home { gate_of (arc_value self.now.yard.now).directory ≡ J.home }
        requires site { setting (arc_value self.now.yard.now).hosts (arc_value self.now.yard.now).limits (C.moment self.now.clock.now) ≡ J.site }
    {
        Ok(LoopTools {
            alloc: self.alloc,
            yard: Arc::try_clone(self.yard)?,
            pass,
            stalls: Vec::new(self.alloc),
            clock: self.clock.share(),
            serving: Serving {
                bell: self.loop_bell(own)?,
                names: names.share(),
                rooms: Rooms::new(self.alloc),
                refused: Refused::NONE,
            },
            fates: Fates::new(),
            settled: 0,
            of: PhantomData,
        })
    }

    // The bell of a loop with this door. The only error is want of memory.
    fn loop_bell(&self, own: Arc<Door<W>>) -> Result<LoopBell<R, B, W>, AllocError> {
        Ok(LoopBell {
            rt: *self.rt,
            yard: Arc::try_clone(self.yard)?,
            doors: Arc::try_clone(self.doors)?,
            own,
            bell: self.bell.share()?,
        })
    }

    /// What rings where entries are stored, if they are. The only error is want of memory.
    pub(crate) fn stored_job(
        &self,
        keeper: &Option<Arc<EntryQueue>>,
    ) -> Result<Option<StoredJob<R, B, W>>, AllocError> {
        let Some(keeper) = keeper else {
            return Ok(None);
        };
        Ok(Some(StoredJob {
            rt: *self.rt,
            keeper: Arc::try_clone(keeper)?,
            doors: Arc::try_clone(self.doors)?,
            bell: self.bell.share()?,
        }))
    }

    /// The pump of these hosts, with this pass, whose end is to be left there. The only error is want of memory.
    pub(crate) fn pump<J: Naming, E: Backend>(
        &self,
        pass: Pass<Directory>,
        hosts: Hosts<E>,
        last: &Arc<PumpHome<J, E>>,
    ) -> Result<PumpJob<R, C, PumpBell<B, W>, PumpPost<J, E>>, AllocError>
        requires pass { IsPassOf (arc_value self.now.yard.now).directory pass }
        requires home { gate_of (arc_value self.now.yard.now).directory ≡ J.home }
        requires stands { map (facts_of E.told E.counts) hosts.stands.items ≡ J.stands }
        requires no_entry { (known pass).mine ≡ [] }
    {
        let post = self.pump_post(pass, hosts, last)?;
        let bell = PumpBell {
            bell: self.bell.share()?,
            doors: Arc::try_clone(self.doors)?,
        };
        Ok(PumpJob {
            rt: *self.rt,
            alloc: self.alloc,
            clock: self.clock.share(),
            bell,
            post,
        })
    }

    // The pump before it begins.
    fn pump_post<J: Naming, E: Backend>(
        &self,
        pass: Pass<Directory>,
        hosts: Hosts<E>,
        last: &Arc<PumpHome<J, E>>,
    ) -> Result<PumpPost<J, E>, AllocError>
        requires pass { IsPassOf (arc_value self.now.yard.now).directory pass }
        requires home { gate_of (arc_value self.now.yard.now).directory ≡ J.home }
        requires stands { map (facts_of E.told E.counts) hosts.stands.items ≡ J.stands }
        requires no_entry { (known pass).mine ≡ [] }
    {
        Ok(PumpPost {
            hosts,
            yard: Arc::try_clone(self.yard)?,
            pass,
            last: Arc::try_clone(last)?,
        })
    }
}

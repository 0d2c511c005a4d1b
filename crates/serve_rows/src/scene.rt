// A server of one host on one thread, and the connections that come to it.
ghost use Rattle.parked_gate.specs.Passes.{IsPassOf};
ghost use Rattle.std.specs.Arc.{arc_value};
ghost use Rattle.std.specs.Prelude.{◌≡◌, IfOk, IsSome, true};
ghost use Rattle.session_table.specs.Purses.{held};

use crate::bell::TurningBell;
use crate::link::{Manner, RowLink};
use bosh_types::{HostNames, Moment, Rid, Stanzas, Text};
use parked_gate::{Gate, Pass};
use polled_http::Rooms;
use serve_loop::{ConnectionEnd, Refused, Site, Tools, Trail, Worker, serve_connection};
use server_ports::{GivenNames, StillClock};
use session_journal::{Answer, Question};
use session_pump::{Host, Hosts, Pump};
use session_table::{Directory, Limits, Purse};
use std::alloc::{AllocError, Global};
use std::sync::{Arc, Wait};
use xmpp_backend::InMemory;

/// The worker of such a server, and what it is served with. Its bell has the pump.
#[derive(Drop)]
pub struct OneWorker<R: Wait + Copy + Drop> {
    pub own: Worker,
    pub tools: Tools<TurningBell<R>, GivenNames>,
}

/// How often a request that waits hears a turn of the pump.
pub const TURNS: u32 = 3;

/// The host `example.org`, which greets with its features.
pub fn host(
    alloc: Global,
    end: InMemory,
    spares: Vec<InMemory>,
) -> Result<Host<InMemory>, AllocError> {
    let features = Text::from_vec(b"<stream:features/>".to_vec(alloc)?);
    Ok(Host {
        name: Text::from_vec(b"example.org".to_vec(alloc)?),
        greeting: Stanzas::from_vec(vec![in alloc; features]?),
        end,
        spares,
    })
}

/// What a server on one thread has beside its worker.
#[derive(Drop)]
pub struct Place {
    pub alloc: Global,
    pub directory: Gate<Directory>,
    pub hosts: HostNames,
}

/// A server and its worker.
#[derive(Drop)]
pub struct Scene<R: Wait + Copy + Drop> {
    pub place: Arc<Place>,
    pub worker: OneWorker<R>,
    pub ghost fits: { IsPassOf (arc_value place).directory worker.own.purse.directory },
}

/// A server of these hosts.
pub fn begin<R: Wait + Copy + Drop>(
    rt: &R,
    alloc: Global,
    hosts: Hosts<InMemory>,
) -> Result<Scene<R>, AllocError> {
    let (place, pass) = new_place(alloc, &hosts)?;
    let mut mine = pass;
    let theirs = place.directory.split(rt, &mut mine);
    let bell = bell_of(rt, &place, theirs, hosts)?;
    let Some(first) = Rid::new(1) else {
        return Err(AllocError);
    };
    let worker = OneWorker {
        own: Worker {
            purse: Purse::new(alloc, mine),
            trail: Trail::new(),
        },
        tools: Tools {
            bell,
            names: GivenNames::new(alloc, b"s", first),
            rooms: Rooms::new(alloc),
            refused: Refused::NONE,
        },
    };
    Ok(Scene { place, worker })
}

// A directory of no sessions for these hosts, and a pass of it.
fn new_place(
    alloc: Global,
    hosts: &Hosts<InMemory>,
) -> Result<(Arc<Place>, Pass<Directory>), AllocError>
    ensures { IfOk result (λ made. IsPassOf (arc_value made.0).directory made.1) }
{
    let hosts = hosts.names(alloc)?;
    let Ok((directory, pass)) = Gate::new(alloc, Directory::new(alloc)) else {
        return Err(AllocError);
    };
    let place = Place {
        alloc,
        directory,
        hosts,
    };
    let Ok(place) = Arc::new(alloc, place) else {
        return Err(AllocError);
    };
    Ok((place, pass))
}

// The bell of a server, with the pump of these hosts.
fn bell_of<R: Wait + Copy + Drop>(
    rt: &R,
    place: &Arc<Place>,
    pass: Pass<Directory>,
    hosts: Hosts<InMemory>,
) -> Result<TurningBell<R>, AllocError>
    requires { IsPassOf (arc_value place.now).directory pass }
{
    let alloc = place.alloc;
    let place = Arc::try_clone(place)?;
    let pump = Pump::new(alloc, Purse::new(alloc, pass), hosts);
    Ok(TurningBell {
        rt: *rt,
        place,
        pump,
        at: 0,
        left: TURNS,
        silences: 0,
    })
}

impl Place {
    /// Serves a link to its end, and hears so many turns of the pump while a request waits. None where the host can't be served.
    pub fn serve<R: Wait + Copy + Drop>(
        &self,
        rt: &R,
        worker: &mut OneWorker<R>,
        link: &mut RowLink,
        turns: u32,
    ) -> Option<ConnectionEnd>
        requires { IsPassOf self.now.directory worker.old.own.purse.directory }
        ensures { IsPassOf self.now.directory worker.new.own.purse.directory }
    {
        let clock = StillClock {
            moment: Moment::from_millis(worker.tools.bell.at),
        };
        let Ok(Some(site)) = Site::new(
            self.alloc,
            &self.directory,
            &self.hosts,
            &clock,
            Limits::USUAL,
        ) else {
            return None;
        };
        worker.tools.bell.left = turns;
        worker.own.trail = Trail::new();
        let OneWorker { own, tools } = worker;
        Some(serve_connection(rt, &site, own, tools, link))
    }

    /// Serves these bytes on a new link, and says what it was given and how it ended.
    pub fn told<R: Wait + Copy + Drop>(
        &self,
        rt: &R,
        worker: &mut OneWorker<R>,
        bytes: &[u8],
        manner: Manner,
        turns: u32,
    ) -> Result<String, AllocError>
        requires { IsPassOf self.now.directory worker.old.own.purse.directory }
        ensures { IsPassOf self.now.directory worker.new.own.purse.directory }
    {
        let mut link = RowLink::new(self.alloc, bytes, manner)?;
        let end = self.serve(rt, worker, &mut link, turns);
        let text = str::from_utf8(link.given.as_slice()).unwrap_or("not UTF-8");
        match end {
            Some(end) => format!(in self.alloc; "{text:?} {end:?}"),
            None => String::from_str(self.alloc, "no server"),
        }
    }
}

/// How many items wait for the client of the first session, where this worker has it.
pub fn waiting<R: Wait>(rt: &R, purse: &mut Purse) -> Option<u32>
    ensures { purse.new.directory ≡ purse.old.directory }
{
    if !holds(purse, 1) {
        return None;
    }
    match purse.look(rt, 1, &Question::Load) {
        Ok(Answer::Load { waiting, .. }) => Some(waiting.items),
        _ => None,
    }
}

/// Whether the purse holds a session under this number.
fn holds(purse: &Purse, number: u64) -> bool
    ensures { result ≡ true → IsSome (held purse.now.sessions number) }
{
    purse.sessions.contains_key(&number)
}

// A manager of a script: its sessions, and what a line of the script does to them.
ghost use Rattle.std.specs.Prelude.{◌≡◌, ◌<◌, ◌≤◌, ◌^◌, ◌++◌, ◌==◌, ℕ, List, false, drop, position, take, IfOk, OnOk, IfSome, IsTrue, Some, slice_get, length, true};
ghost use Rattle.std.specs.List.{list_any};
ghost use Rattle.bosh_types.specs.declared.hosts.HostName.{HostName};
ghost use Rattle.bosh_types.specs.Limits.{most_openings};
ghost use Rattle.session_attrs.specs.declared.request.Kind.TheVariants as kinds;
ghost use Rattle.session_attrs.specs.Admission.{admitted_of};
ghost use Rattle.session_core.specs.Journal.{IsReadFrom};
ghost use Rattle.script_text.specs.declared.report.ReportLine.{ReportLine};
ghost use Rattle.script_text.specs.declared.event.Event.TheVariants.{Arrives};
ghost use Rattle.script_text.specs.Live.{PlainLive, if_live, if_over, not_found};
ghost use Rattle.script_text.specs.Manager.{PlainManager, admitted_to, at_host, closed, comes, comes_at, comes_to, has_room, is_waiting, new_manager, number_of, only, opened_turn, opening_by, passed, place_of, posted, posted_by, refused, request_in, waits_on};
ghost use Rattle.session_attrs.specs.Serving.{can_serve};
ghost use Rattle.script_text.specs.Script.{begun, was_given, with_host};
ghost use Rattle.script_text.specs.Stands.{AreLive, IsBefore, IsChange, IsEvent, IsLive, IsManager, IsTurn};

use crate::event::Event;
use crate::hosts::Hosts;
use crate::live::{Live, Turned};
use crate::report::ReportLine;
use crate::stanza::parts_of;
use crate::words::{sid_of, terminal_body};
use bosh_types::limits::{JOURNAL_BYTES, MOST_OPENINGS, MOST_SESSIONS};
use bosh_types::{Condition, CopyIn, HostName, Moment, Rid, SharedText, Stanzas, Text, copy_items};
use session_attrs::{
    Admitted, Creation, Kind, Request, RequestError, admit, negotiate, read_request,
};
use session_core::{Opening, copied_request};
use session_journal::Journalled;
use std::alloc::{AllocError, Global};

#[derive(Drop)]
pub(crate) struct Manager {
    pub(crate) hosts: Hosts,
    pub(crate) moment: Moment,
    // A line came after which no host may.
    pub(crate) begun: bool,
    // How many sessions were opened.
    pub(crate) opened: u32,
    // Those that are live, in the order of opening.
    pub(crate) live: Vec<Live>,
    // Before this moment time has nothing to do for any of them: none where it never has.
    pub(crate) soonest: Option<Moment>,
}

// What a line does to a manager: its lines of the report, the manager after it, and the sessions that ended with it.
#[derive(Drop)]
pub(crate) struct Changed {
    pub(crate) lines: Vec<ReportLine>,
    pub(crate) manager: Manager,
    pub(crate) over: Vec<Live>,
}

// A body as it arrived on a connection, and the request that it is.
#[derive(Drop)]
struct Post {
    conn: u16,
    body: SharedText,
    request: Request,
}

impl Manager {
    // A manager without hosts and sessions.
    pub(crate) fn new(alloc: Global, hosts: Hosts) -> Manager
        ensures { IsManager result (record new_manager { hosts = hosts }) }
    {
        Manager {
            hosts,
            moment: Moment::from_millis(0),
            begun: false,
            opened: 0,
            live: Vec::new(alloc),
            soonest: None,
        }
    }

    // The manager serves one more host.
    pub(crate) fn with_host(self, name: Text, greeting: Stanzas) -> Result<Manager, AllocError>
        requires { IsTrue (can_serve (record { name = name; greeting = greeting })) }
        ensures { IfOk result (λ manager. (m : PlainManager) → IsManager self m → IsManager manager (with_host m name greeting)) }
    {
        Ok(Manager {
            hosts: self.hosts.with(name, greeting)?,
            moment: self.moment,
            begun: self.begun,
            opened: self.opened,
            live: self.live,
            soonest: self.soonest,
        })
    }

    // After this no host may come.
    pub(crate) fn begin(self) -> Manager
        ensures { (m : PlainManager) → IsManager self m → IsManager result (begun m) }
    {
        Manager {
            hosts: self.hosts,
            moment: self.moment,
            begun: true,
            opened: self.opened,
            live: self.live,
            soonest: self.soonest,
        }
    }

    // The number, where a creation was given it.
    pub(crate) fn given(&self, number: Option<u64>) -> Option<u32>
        ensures { result ≡ was_given self.now.opened number }
    {
        let number = number?;
        if number > u64::from(self.opened) {
            return None;
        }
        u32::try_from(number).ok()
    }

    // Nothing but this line is reported.
    fn only(self, alloc: Global, line: ReportLine) -> Result<Changed, AllocError>
        ensures { IfOk result (λ changed. (m : PlainManager) → IsManager self m → IsChange changed (only m line)) }
    {
        let mut lines = Vec::new(alloc);
        lines.push(line)?;
        Ok(Changed {
            lines,
            manager: self,
            over: Vec::new(alloc),
        })
    }

    // Whether a request waits on this connection, which is open.
    pub(crate) fn is_waiting(&self, conn: u16) -> bool
        ensures { (m : PlainManager) → IsManager self.now m → result ≡ is_waiting m conn }
    {
        any_waits(self.live.as_slice(), conn)
    }

    // The connection breaks: what waits on it is to be lost.
    pub(crate) fn close(self, alloc: Global, conn: u16) -> Result<Changed, AllocError>
        ensures { IfOk result (λ changed. (m : PlainManager) → IsManager self m → IsChange changed (closed m conn)) }
    {
        let mut kept = Vec::new(alloc);
        for live in self.live {
            kept.push(live.close(conn))?;
        }
        let manager = Manager {
            hosts: self.hosts,
            moment: self.moment,
            begun: self.begun,
            opened: self.opened,
            live: kept,
            soonest: self.soonest,
        };
        Ok(Changed {
            lines: Vec::new(alloc),
            manager,
            over: Vec::new(alloc),
        })
    }

    // Time passes for each live session, in the order of opening. Where it has nothing to do for any, none is touched.
    pub(crate) fn pass(mut self, alloc: Global, now: Moment) -> Result<Changed, AllocError>
        ensures { IfOk result (λ changed. (m : PlainManager) → IsManager self m → IsChange changed (passed m now)) }
    {
        if is_due_by(self.soonest, now) {
            return self.pass_all(alloc, now);
        }
        self.moment = now;
        Ok(Changed {
            lines: Vec::new(alloc),
            manager: self,
            over: Vec::new(alloc),
        })
    }

    fn pass_all(self, alloc: Global, now: Moment) -> Result<Changed, AllocError>
        ensures { IfOk result (λ changed. (m : PlainManager) → IsManager self m → IsChange changed (passed m now)) }
    {
        let mut lines = Vec::new(alloc);
        let mut kept = Vec::new(alloc);
        let mut over = Vec::new(alloc);
        let mut soonest = None;
        for live in self.live {
            let turned = live.turn(alloc, now, Event::Passes)?;
            push_all(&mut lines, turned.lines)?;
            soonest = sooner(soonest, turned.live.due());
            keep_live(&mut kept, &mut over, turned.live)?;
        }
        let manager = Manager {
            hosts: self.hosts,
            moment: now,
            begun: self.begun,
            opened: self.opened,
            live: kept,
            soonest,
        };
        Ok(Changed {
            lines,
            manager,
            over,
        })
    }

    // Something comes to the live session with this number; where there is none, this line is told.
    pub(crate) fn come(
        self,
        alloc: Global,
        event: Event,
        otherwise: ReportLine,
        number: u64,
    ) -> Result<Changed, AllocError>
        requires { IsEvent event }
        ensures { IfOk result (λ changed. (m : PlainManager) → IsManager self m → IsChange changed (comes m event otherwise number)) }
    {
        match self.place_of(number) {
            Some(place) => self.come_at(alloc, event, place),
            None => self.only(alloc, otherwise),
        }
    }

    // Where the session with this number stands among those that are live.
    fn place_of(&self, number: u64) -> Option<usize>
        ensures place { (m : PlainManager) → IsManager self.now m → result ≡ place_of m number }
        ensures within { IfSome result (λ place. place < length self.now.live.items) }
    {
        place_in(self.live.as_slice(), number)
    }

    fn come_at(mut self, alloc: Global, event: Event, place: usize) -> Result<Changed, AllocError>
        requires event { IsEvent event }
        requires within { place < length self.live.items }
        ensures { IfOk result (λ changed. (m : PlainManager) → IsManager self m → (otherwise : ReportLine)
            → IsChange changed (comes_at m event otherwise place (slice_get m.live place))) }
    {
        let live = self.live.remove(place);
        let Turned { lines, live } = live.turn(alloc, self.moment, event)?;
        self.soonest = sooner(self.soonest, live.due());
        let mut over = Vec::new(alloc);
        insert_live(&mut self.live, &mut over, place, live)?;
        Ok(Changed {
            lines,
            manager: self,
            over,
        })
    }

    // A body arrives on a connection.
    pub(crate) fn post(self, alloc: Global, conn: u16, body: Text) -> Result<Changed, AllocError>
        ensures { IfOk result (λ changed. (m : PlainManager) → IsManager self m → IsChange changed (posted m conn body)) }
    {
        let Some(request) = request_in(alloc, body.as_slice())? else {
            return self.refuse(alloc, conn, Condition::BadRequest);
        };
        let body = SharedText::new(alloc, body)?;
        let post = Post {
            conn,
            body,
            request,
        };
        match &post.request.kind {
            Kind::Later { sid } => {
                let number = number_of(sid.as_slice());
                self.post_later(alloc, post, number)
            }
            Kind::Creation(creation) => {
                let creation = *creation;
                self.create(alloc, &post, &creation)
            }
        }
    }

    // A request for the session with this number.
    fn post_later(
        self,
        alloc: Global,
        post: Post,
        number: Option<u64>,
    ) -> Result<Changed, AllocError>
        requires { IsEvent (Arrives post.conn post.request post.body) }
        ensures { IfOk result (λ changed. (m : PlainManager) → IsManager self m
            → IsChange changed (comes_to m post.conn post.body post.request number)) }
    {
        let Post {
            conn,
            body,
            request,
        } = post;
        let not_found = not_found(alloc, conn)?;
        let Some(number) = number else {
            return self.only(alloc, not_found);
        };
        let event = Event::Arrives {
            conn,
            request,
            body,
        };
        self.come(alloc, event, not_found, number)
    }

    // The body is refused with this condition, and no session is touched.
    fn refuse(self, alloc: Global, conn: u16, condition: Condition) -> Result<Changed, AllocError>
        ensures { IfOk result (λ changed. (m : PlainManager) → IsManager self m → IsChange changed (refused m conn condition)) }
    {
        let body = terminal_body(alloc, condition)?;
        self.only(alloc, ReportLine::Out { conn, body })
    }

    // A session is created where the host and the number of sessions allow it.
    fn create(self, alloc: Global, post: &Post, creation: &Creation) -> Result<Changed, AllocError>
        requires read { IsReadFrom post.now.body post.now.request }
        requires creation { post.now.request.kind ≡ kinds.Creation creation.now }
        ensures { IfOk result (λ changed. (m : PlainManager) → IsManager self m
            → IsChange changed (admitted_to m post.now.conn post.now.body post.now.request creation.now (admitted_of post.now.request.to m.hosts))) }
    {
        match admit(&post.request, self.hosts.names()) {
            Admitted::Improper => self.refuse(alloc, post.conn, Condition::ImproperAddressing),
            Admitted::Unknown => self.refuse(alloc, post.conn, Condition::HostUnknown),
            Admitted::Host(place) => self.create_at(alloc, post, creation, place),
        }
    }

    // A session with the host at this place is created where the number of sessions allows it.
    fn create_at(
        self,
        alloc: Global,
        post: &Post,
        creation: &Creation,
        place: usize,
    ) -> Result<Changed, AllocError>
        requires read { IsReadFrom post.now.body post.now.request }
        requires creation { post.now.request.kind ≡ kinds.Creation creation.now }
        ensures { IfOk result (λ changed. (m : PlainManager) → IsManager self m
            → IsChange changed (at_host m post.now.conn post.now.body post.now.request creation.now (slice_get m.hosts place))) }
    {
        if place >= self.hosts.len() {
            return self.refuse(alloc, post.conn, Condition::HostUnknown);
        }
        if !self.has_room() {
            return self.refuse(alloc, post.conn, Condition::UndefinedCondition);
        }
        let number = self.opened + 1;
        let Turned { lines, live } = self.open(alloc, post, creation, place, number)?;
        let soonest = sooner(self.soonest, live.due());
        let mut kept = self.live;
        let mut over = Vec::new(alloc);
        keep_live(&mut kept, &mut over, live)?;
        let manager = Manager {
            hosts: self.hosts,
            moment: self.moment,
            begun: self.begun,
            opened: number,
            live: kept,
            soonest,
        };
        Ok(Changed {
            lines,
            manager,
            over,
        })
    }

    // There is room for one more: at most 256 sessions are live, and at most 1,048,576 are opened.
    fn has_room(&self) -> bool
        ensures room { result ≡ has_room (length self.now.live.items) self.now.opened }
        ensures few { result ≡ true → self.now.opened < most_openings }
    {
        self.live.len() < MOST_SESSIONS as usize && self.opened < MOST_OPENINGS
    }

    // A session is opened: its stanzas go inward, and then it is answered.
    fn open(
        &self,
        alloc: Global,
        post: &Post,
        creation: &Creation,
        place: usize,
        number: u32,
    ) -> Result<Turned, AllocError>
        requires read { IsReadFrom post.now.body post.now.request }
        requires creation { post.now.request.kind ≡ kinds.Creation creation.now }
        requires within { place < length self.now.hosts }
        requires few { number ≤ most_openings }
        ensures { IfOk result (λ turned. (host : HostName) → slice_get self.now.hosts place ≡ Some host
            → IsTurn turned (opened_turn number post.now.conn (opening_by host number post.now.body post.now.request creation.now self.now.moment))) }
    {
        let host = self.hosts.at(place);
        let opening = opening_by(alloc, host, number, post, creation, self.moment)?;
        let (session, body) = Journalled::open(alloc, opening, 0)?;
        let live = Live {
            number,
            session,
            parked: Vec::new(alloc),
        };
        let conn = post.conn;
        live.told(alloc, Vec::new(alloc), Some(ReportLine::Out { conn, body }))
    }
}

// What opens the session with this number.
fn opening_by(
    alloc: Global,
    host: &HostName,
    number: u32,
    post: &Post,
    creation: &Creation,
    at: Moment,
) -> Result<Opening, AllocError>
    requires few { number ≤ most_openings }
    ensures { IfOk result (λ opening. opening ≡ opening_by host.now number post.now.body post.now.request creation.now at) }
{
    let request = copied_request(alloc, &post.request)?;
    let sid = sid_of(alloc, number)?;
    let name = SharedText::new(alloc, host.name.copy_in(alloc)?)?;
    let greeting = copy_items(alloc, host.greeting.as_slice())?;
    Ok(Opening {
        request,
        body: post.body.again()?,
        terms: negotiate(creation),
        sid,
        host: name,
        greeting: Stanzas::from_vec(greeting),
        at,
        limit: JOURNAL_BYTES,
        gap_waits: 1,
    })
}

// The earlier of two moments, of which either may never come.
pub(crate) fn sooner(first: Option<Moment>, other: Option<Moment>) -> Option<Moment>
    ensures first { (now : ℕ) → IsBefore now result → IsBefore now first }
    ensures other { (now : ℕ) → IsBefore now result → IsBefore now other }
{
    let Some(one) = first else {
        return other;
    };
    match other {
        Some(two) if two < one => other,
        _ => first,
    }
}

// Whether the moment has come.
fn is_due_by(moment: Option<Moment>, now: Moment) -> bool
    ensures before { result ≡ false → IsBefore now moment }
    ensures range { now < 2 ^ 64 }
{
    match moment {
        Some(moment) => moment.millis() <= now.millis(),
        None => false,
    }
}

// Whether a request waits on this connection, which is open.
fn any_waits(lives: &[Live], conn: u16) -> bool
    ensures { result ≡ list_any (λ live. list_any (waits_on conn) live.parked.items) lives.now }
{
    lives.iter().any(|live| live.is_waiting(conn))
}

// Where the session with this number stands.
fn place_in(lives: &[Live], number: u64) -> Option<usize>
    ensures place { result ≡ position (λ live. live.number == number) lives.now }
    ensures within { IfSome result (λ place. place < length lives.now) }
{
    lives
        .iter()
        .position(|live| u64::from(live.number) == number)
}

// Puts these lines at the end.
fn push_all(lines: &mut Vec<ReportLine>, more: Vec<ReportLine>) -> Result<(), AllocError>
    ensures { OnOk result (lines.new.items ≡ lines.old.items ++ more.items) }
{
    for line in more {
        lines.push(line)?;
    }
    Ok(())
}

// Keeps the session among those that are live, or where it has ended among those.
pub(crate) fn keep_live(
    kept: &mut Vec<Live>,
    over: &mut Vec<Live>,
    live: Live,
) -> Result<(), AllocError>
    ensures live { OnOk result ((s : PlainLive) → IsLive live s → (through : List PlainLive) → AreLive kept.old.items through
        → AreLive kept.new.items (through ++ if_live s)) }
    ensures over { OnOk result ((s : PlainLive) → IsLive live s → (ended : List PlainLive) → AreLive over.old.items ended
        → AreLive over.new.items (ended ++ if_over s)) }
{
    if live.is_over() {
        over.push(live)?;
        return Ok(());
    }
    kept.push(live)?;
    Ok(())
}

// The same at this place.
fn insert_live(
    lives: &mut Vec<Live>,
    over: &mut Vec<Live>,
    place: usize,
    live: Live,
) -> Result<(), AllocError>
    requires { place ≤ length lives.old.items }
    ensures live { OnOk result ((s : PlainLive) → IsLive live s → (ss : List PlainLive) → AreLive lives.old.items ss
        → AreLive lives.new.items (take place ss ++ (if_live s ++ drop place ss))) }
    ensures over { OnOk result ((s : PlainLive) → IsLive live s → (ended : List PlainLive) → AreLive over.old.items ended
        → AreLive over.new.items (ended ++ if_over s)) }
{
    if live.is_over() {
        over.push(live)?;
        return Ok(());
    }
    lives.insert(place, live)?;
    Ok(())
}

// The request that a body is, where it can be cut and read.
fn request_in(alloc: Global, body: &[u8]) -> Result<Option<Request>, AllocError>
    ensures { IfOk result (λ request. request ≡ request_in body.now) }
{
    let Some(parts) = parts_of(alloc, body)? else {
        return Ok(None);
    };
    match read_request(alloc, &parts, body) {
        Ok(request) => Ok(Some(request)),
        Err(RequestError::Refused(_)) => Ok(None),
        Err(RequestError::Memory) => Err(AllocError),
    }
}

// A request for a session that there isn't, or that has ended.
pub(crate) fn not_found(alloc: Global, conn: u16) -> Result<ReportLine, AllocError>
    ensures { IfOk result (λ line. line ≡ not_found conn) }
{
    let body = terminal_body(alloc, Condition::ItemNotFound)?;
    Ok(ReportLine::Out { conn, body })
}

// The number that the name of a session gives.
pub(crate) fn number_of(sid: &[u8]) -> Option<u64>
    ensures { result ≡ number_of sid.now }
{
    let [b's', digits @ ..] = sid else {
        return None;
    };
    let number = Rid::read(digits)?;
    Some(number.value())
}

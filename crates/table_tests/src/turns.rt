// A pump between sessions and their back ends.
mod failing;
mod numbered;
mod streams;

ghost use Rattle.std.specs.Prelude.{◌≡◌, ◌⊎◌, IfOk, IfSome, IsSome, List, [], codes, true, ℕ};
ghost use Rattle.parked_gate.specs.Passes.{IsPassOf};
ghost use Rattle.session_attrs.specs.declared.request.Creation.{Creation};
ghost use Rattle.session_attrs.specs.declared.request.Kind.TheVariants as kinds;
ghost use Rattle.session_core.specs.Journal.{IsAllowed, IsReadFrom};
ghost use Rattle.session_journal.specs.Calls.{call_in};
ghost use Rattle.session_table.specs.Purses.{held};
ghost use Rattle.session_table.specs.Replies.{MayOpen};

use body_cutter::cut;
use bosh_ports::{Bell, SteadyBell};
use bosh_types::{Moment, Row, SharedText, Stanzas, Text, Ticket};
use parked_gate::Gate;
use server_ports::StillClock;
use session_attrs::{Kind, Request, read_request};
use session_core::Arrived;
use session_journal::{Answer, Call, Found, Question, Reply};
use session_pump::{Host, Hosts, Line, Pump};
use session_table::{Directory, Limits, NewSession, Opening, Purse};
use std::alloc::{AllocError, Global};
use std::sync::Wait;
use std::test::Fail;
use xmpp_backend::{BackendCall, Echo, Failing, InMemory, Room, Scripted, are_answers};

const CREATION: &[u8] =
    b"<body rid='1000' to='example.org' wait='60' hold='1' ver='1.6' xmlns='http://jabber.org/protocol/httpbind'/>";

const STANZA: &[u8] =
    b"<body rid='1001' sid='s1' xmlns='http://jabber.org/protocol/httpbind'><message/></body>";

const EMPTY: &[u8] = b"<body rid='1001' sid='s1' xmlns='http://jabber.org/protocol/httpbind'/>";

const ITEM: &[u8] =
    b"<body rid='1001' sid='s1' xmlns='http://jabber.org/protocol/httpbind'><a/></body>";

const NEXT: &[u8] = b"<body rid='1002' sid='s1' xmlns='http://jabber.org/protocol/httpbind'/>";

const THIRD: &[u8] = b"<body rid='1003' sid='s1' xmlns='http://jabber.org/protocol/httpbind'/>";

const MANY: &[u8] = b"<body rid='1001' sid='s2' xmlns='http://jabber.org/protocol/httpbind'>";

const READS: &[u8] = b"<body rid='1002' sid='s2' xmlns='http://jabber.org/protocol/httpbind'/>";

const SAYS: &[u8] =
    b"<body rid='1003' sid='s2' xmlns='http://jabber.org/protocol/httpbind'><m/></body>";

const ADDS: &[u8] =
    b"<body rid='1004' sid='s2' xmlns='http://jabber.org/protocol/httpbind'><n/></body>";

const LAST: &[u8] =
    b"<body rid='1001' sid='s1' type='terminate' xmlns='http://jabber.org/protocol/httpbind'/>";

/// The request that this body is, if it is one.
fn request_in(alloc: Global, text: &[u8]) -> Option<Request>
    ensures { IfSome result (λ request. IsReadFrom text.now request) }
{
    let Ok(parts) = cut(alloc, text) else {
        return None;
    };
    match read_request(alloc, &parts, text) {
        Ok(request) => Some(request),
        Err(_) => None,
    }
}

/// Whether the request creates a session.
fn is_creation(request: &Request) -> bool
    ensures { result ≡ true → (creation : Creation) × (request.now.kind ≡ kinds.Creation creation) }
{
    match &request.kind {
        Kind::Creation(_) => true,
        Kind::Later { .. } => false,
    }
}

/// Whether the request is for a session that there is.
fn is_later(request: &Request) -> bool
    ensures { result ≡ true → (sid : List ℕ) × (request.now.kind ≡ kinds.Later sid) }
{
    match &request.kind {
        Kind::Creation(_) => false,
        Kind::Later { .. } => true,
    }
}

fn text(alloc: Global, bytes: &[u8]) -> Result<Text, AllocError>
    ensures { IfOk result (λ text. text ≡ bytes.now) }
{
    Ok(Row::from_vec(Vec::from_slice(alloc, bytes)?))
}

fn shared(alloc: Global, bytes: &[u8]) -> Result<SharedText, AllocError>
    ensures { IfOk result (λ text. text ≡ bytes.now) }
{
    SharedText::new(alloc, text(alloc, bytes)?)
}

fn no_stanzas(alloc: Global) -> Stanzas
    ensures { result ≡ [] }
{
    Stanzas::from_vec(Vec::new(alloc))
}

/// A creation for example.org, which greets nobody, or for example.com.
fn an_opening(alloc: Global, is_elsewhere: bool) -> Result<Opening, &'static str>
    ensures { IfOk result MayOpen }
{
    let Some(request) = request_in(alloc, CREATION) else {
        return Err("no request");
    };
    if !is_creation(&request) {
        return Err("no creation");
    }
    match opening_with(alloc, request, host_name(is_elsewhere)) {
        Ok(opening) => Ok(opening),
        Err(AllocError) => Err("no memory"),
    }
}

fn host_name(is_elsewhere: bool) -> &'static [u8]
    ensures { (result.now ≡ codes "example.com") ⊎ (result.now ≡ codes "example.org") }
{
    if is_elsewhere {
        return b"example.com";
    }
    b"example.org"
}

fn opening_with(alloc: Global, request: Request, host: &'static [u8]) -> Result<Opening, AllocError>
    requires host { (host.now ≡ codes "example.com") ⊎ (host.now ≡ codes "example.org") }
    requires read { IsReadFrom CREATION.now request }
    requires creation { (creation : Creation) × (request.kind ≡ kinds.Creation creation) }
    ensures { IfOk result MayOpen }
{
    Ok(Opening {
        name: text(alloc, b"s")?,
        host: shared(alloc, host)?,
        greeting: no_stanzas(alloc),
        request,
        body: shared(alloc, CREATION)?,
        at: Moment::from_millis(0),
        limits: Limits::USUAL,
    })
}

/// The arrival of a body at this moment.
fn arrival(alloc: Global, body: &[u8], at: u64) -> Result<Call, &'static str>
    ensures { IfOk result (λ call. IsAllowed (call_in call)) }
{
    let Some(request) = request_in(alloc, body) else {
        return Err("no request");
    };
    if !is_later(&request) {
        return Err("no later request");
    }
    let Ok(body) = shared(alloc, body) else {
        return Err("no memory");
    };
    Ok(Call::Arrive {
        request,
        body,
        now: Moment::from_millis(at),
    })
}

/// How many payloads the body has that answers a request at once.
fn payloads_in(alloc: Global, reply: &Reply) -> Option<usize> {
    let Reply::Arrive(Arrived::Answer(body)) = reply else {
        return None;
    };
    match cut(alloc, body.as_slice()) {
        Ok(parts) => Some(parts.children.as_slice().len()),
        Err(_) => None,
    }
}

/// The ticket of a request that waits.
fn ticket_of(reply: &Reply) -> Option<Ticket> {
    let Reply::Arrive(arrived) = reply else {
        return None;
    };
    match arrived {
        Arrived::Parked(ticket) => Some(*ticket),
        _ => None,
    }
}

/// A worker and a pump at one directory.
#[derive(Drop)]
struct Scene {
    alloc: Global,
    directory: Gate<Directory>,
    worker: Purse,
    pump: Pump<InMemory>,
    ghost worker_fits: { IsPassOf directory worker.directory },
    ghost pump_fits: { IsPassOf directory pump.purse.directory },
}

/// A scene with one host.
fn set_up<R: Wait>(rt: &R, alloc: Global, host: Host<InMemory>) -> Result<Scene, &'static str> {
    let Ok(hosts) = only(alloc, host) else {
        return Err("no memory");
    };
    set_up_over(rt, alloc, hosts)
}

/// A scene with these hosts.
fn set_up_over<R: Wait>(
    rt: &R,
    alloc: Global,
    hosts: Hosts<InMemory>,
) -> Result<Scene, &'static str> {
    let Ok((directory, mut mine)) = Gate::new(alloc, Directory::new(alloc)) else {
        return Err("no memory");
    };
    let theirs = directory.split(rt, &mut mine);
    let worker = Purse::new(alloc, mine);
    let pump = Pump::new(alloc, Purse::new(alloc, theirs), hosts);
    Ok(Scene {
        alloc,
        directory,
        worker,
        pump,
    })
}

/// This host alone.
fn only(alloc: Global, host: Host<InMemory>) -> Result<Hosts<InMemory>, AllocError> {
    let mut hosts = Vec::new(alloc);
    hosts.push(host)?;
    Hosts::new(alloc, hosts)
}

/// A host with this back end and these spares.
fn host(alloc: Global, end: InMemory, spares: Vec<InMemory>) -> Result<Host<InMemory>, AllocError> {
    host_named(alloc, b"example.org", end, spares)
}

fn host_named(
    alloc: Global,
    name: &[u8],
    end: InMemory,
    spares: Vec<InMemory>,
) -> Result<Host<InMemory>, AllocError> {
    Ok(Host {
        name: text(alloc, name)?,
        greeting: no_stanzas(alloc),
        end,
        spares,
    })
}

/// Opens a session through the worker.
fn open<R: Wait>(rt: &R, scene: &mut Scene) -> Result<(), &'static str> {
    open_at(rt, scene, false)
}

/// Opens a session at example.com or at example.org.
fn open_at<R: Wait>(rt: &R, scene: &mut Scene, is_elsewhere: bool) -> Result<(), &'static str> {
    let opening = an_opening(scene.alloc, is_elsewhere)?;
    match scene.worker.open(rt, &scene.directory, opening) {
        Ok(NewSession::Opened { .. }) => Ok(()),
        _ => Err("not opened"),
    }
}

/// What the first session replies to a request that comes through the worker.
fn arrive<R: Wait>(rt: &R, scene: &mut Scene, body: &[u8], at: u64) -> Result<Reply, &'static str> {
    arrive_for(rt, scene, 1, body, at)
}

/// What the session under this number replies.
fn arrive_for<R: Wait>(
    rt: &R,
    scene: &mut Scene,
    number: u64,
    body: &[u8],
    at: u64,
) -> Result<Reply, &'static str> {
    let call = arrival(scene.alloc, body, at)?;
    if !holds(&scene.worker, number) {
        return Err("no session");
    }
    match scene.worker.call(rt, number, call) {
        Ok(reply) => Ok(reply),
        Err(AllocError) => Err("no memory"),
    }
}

/// Whether the purse holds a session under this number.
fn holds(purse: &Purse, number: u64) -> bool
    ensures { result ≡ true → IsSome (held purse.now.sessions number) }
{
    purse.sessions.contains_key(&number)
}

/// One turn of the pump at this moment. How many sessions are live after it.
fn turn<R: Wait>(rt: &R, scene: &mut Scene, at: u64) -> Result<usize, AllocError> {
    turn_with(rt, scene, at, &mut SteadyBell)
}

/// The same with this bell.
fn turn_with<R: Wait, B: Bell>(
    rt: &R,
    scene: &mut Scene,
    at: u64,
    bell: &mut B,
) -> Result<usize, AllocError> {
    let clock = StillClock {
        moment: Moment::from_millis(at),
    };
    scene.pump.turn(rt, &scene.directory, &clock, bell)
}

/// What there is for a ticket of the first session.
fn collected<R: Wait>(rt: &R, scene: &mut Scene, ticket: Ticket) -> Option<SharedText> {
    collected_for(rt, scene, 1, ticket)
}

/// What there is for a ticket of the session under this number.
fn collected_for<R: Wait>(
    rt: &R,
    scene: &mut Scene,
    number: u64,
    ticket: Ticket,
) -> Option<SharedText> {
    if !holds(&scene.worker, number) {
        return None;
    }
    match scene.worker.poll(rt, number, ticket) {
        Some(Found::Answer(text)) => Some(text),
        _ => None,
    }
}

/// How many items wait in the session under this number to be given to the client.
fn waiting<R: Wait>(rt: &R, scene: &mut Scene, number: u64) -> Option<u32> {
    if !holds(&scene.worker, number) {
        return None;
    }
    match scene.worker.look(rt, number, &Question::Load) {
        Ok(Answer::Load { waiting, .. }) => Some(waiting.items),
        _ => None,
    }
}

/// Whether the pump keeps something that a back end gave for the first session.
fn keeps_something(scene: &Scene) -> bool {
    match scene.pump.lines.get(&1) {
        Some(line) => owes_something(line),
        None => false,
    }
}

fn owes_something(line: &Line) -> bool {
    for side in &line.sides {
        if side.owed.is_some() {
            return true;
        }
    }
    false
}

/// A back end that gives so many times the same stanza for the first item that it is passed, and then three others.
fn giving(alloc: Global, count: usize) -> Result<Scripted, &'static str> {
    let Ok(answers) = one_answer(alloc, count) else {
        return Err("no memory");
    };
    let Ok(true) = are_answers(alloc, answers.as_slice()) else {
        return Err("no stanzas");
    };
    Ok(Scripted::new(alloc, answers, Vec::new(alloc)))
}

fn one_answer(alloc: Global, count: usize) -> Result<Vec<Stanzas>, AllocError> {
    let mut stanzas = Vec::new(alloc);
    for _ in 0..count {
        stanzas.push(text(alloc, b"<x/>")?)?;
    }
    stanzas.push(text(alloc, b"<a/>")?)?;
    stanzas.push(text(alloc, b"<b/>")?)?;
    stanzas.push(text(alloc, b"<c/>")?)?;
    let mut answers = Vec::new(alloc);
    answers.push(Stanzas::from_vec(stanzas))?;
    Ok(answers)
}

/// Whether the request of this body waits until a turn at a moment, and is answered then with these last bytes.
fn is_answered_by_turn<R: Wait>(
    rt: &R,
    scene: &mut Scene,
    body: &[u8],
    at: u64,
    end: &[u8],
) -> Result<bool, &'static str> {
    open(rt, scene)?;
    let Some(ticket) = ticket_of(&arrive(rt, scene, body, 0)?) else {
        return Ok(false);
    };
    if collected(rt, scene, ticket).is_some() {
        return Ok(false);
    }
    if turn(rt, scene, at).is_err() {
        return Err("no memory");
    }
    Ok(ends_with(collected(rt, scene, ticket), end))
}

fn ends_with(answer: Option<SharedText>, end: &[u8]) -> bool {
    match answer {
        Some(text) => text.as_slice().ends_with(end),
        None => false,
    }
}

#[test]
fn an_echo_gives_a_stanza_back(rt: HostRuntime) -> Result<(), Fail> {
    let alloc = rt.alloc();
    let host = host(alloc, InMemory::Echo(Echo::new(alloc)), Vec::new(alloc))?;
    let mut scene = set_up(&rt, alloc, host)?;
    let end = b" xmlns:stream='http://etherx.jabber.org/streams'><message/></body>";
    assert!(rt; is_answered_by_turn(&rt, &mut scene, STANZA, 0, end)?);
    Ok(())
}

#[test]
fn a_request_is_answered_when_its_time_is_over(rt: HostRuntime) -> Result<(), Fail> {
    let alloc = rt.alloc();
    let host = host(alloc, InMemory::Echo(Echo::new(alloc)), Vec::new(alloc))?;
    let mut scene = set_up(&rt, alloc, host)?;
    let end = b"<body xmlns='http://jabber.org/protocol/httpbind'/>";
    assert!(rt; is_answered_by_turn(&rt, &mut scene, EMPTY, 60000, end)?);
    Ok(())
}

#[test]
fn a_session_that_has_ended_is_removed(rt: HostRuntime) -> Result<(), Fail> {
    let alloc = rt.alloc();
    let host = host(alloc, InMemory::Echo(Echo::new(alloc)), Vec::new(alloc))?;
    let mut scene = set_up(&rt, alloc, host)?;
    open(&rt, &mut scene)?;
    assert_eq!(rt; turn(&rt, &mut scene, 0)?, 1);
    assert!(rt; ticket_of(&arrive(&rt, &mut scene, LAST, 0)?).is_none());
    assert_eq!(rt; turn(&rt, &mut scene, 0)?, 0);
    Ok(())
}

#[test]
fn a_session_is_told_that_its_back_end_failed(rt: HostRuntime) -> Result<(), Fail> {
    let alloc = rt.alloc();
    let mut failing = Vec::new(alloc);
    failing.push(Failing {
        call: BackendCall::Pass,
        number: 1,
    })?;
    let end = Scripted::new(alloc, Vec::new(alloc), failing);
    let mut spares: Vec<InMemory> = Vec::new(alloc);
    spares.push(InMemory::Echo(Echo::new(alloc)))?;
    let host = host(alloc, InMemory::Scripted(end), spares)?;
    let mut scene = set_up(&rt, alloc, host)?;
    let end = b" type='terminate' condition='remote-connection-failed'/>";
    assert!(rt; is_answered_by_turn(&rt, &mut scene, STANZA, 0, end)?);
    Ok(())
}

/// The bytes of the answer that a request gets at once.
fn answer_of(reply: &Reply) -> Option<&[u8]> {
    match reply {
        Reply::Arrive(Arrived::Answer(body)) => Some(body.as_slice()),
        _ => None,
    }
}

/// Whether the request gets an answer at once that has these last bytes.
fn is_answered_with(reply: &Reply, end: &[u8]) -> bool {
    match answer_of(reply) {
        Some(text) => text.ends_with(end),
        None => false,
    }
}

#[test]
fn what_a_session_has_no_room_for_is_kept_in_order(rt: HostRuntime) -> Result<(), Fail> {
    let alloc = rt.alloc();
    let end = giving(alloc, 1025)?;
    let host = host(alloc, InMemory::Scripted(end), Vec::new(alloc))?;
    let mut scene = set_up(&rt, alloc, host)?;
    let end = b" xmlns:stream='http://etherx.jabber.org/streams'><x/></body>";
    assert!(rt; is_answered_by_turn(&rt, &mut scene, ITEM, 0, end)?);
    assert_eq!(rt; waiting(&rt, &mut scene, 1), Some(1024));
    assert!(rt; keeps_something(&scene));
    let reply = arrive(&rt, &mut scene, NEXT, 0)?;
    assert_eq!(rt; payloads_in(alloc, &reply), Some(1024));
    assert_eq!(rt; turn(&rt, &mut scene, 0)?, 1);
    assert_eq!(rt; waiting(&rt, &mut scene, 1), Some(3));
    assert!(rt; !keeps_something(&scene));
    let reply = arrive(&rt, &mut scene, THIRD, 0)?;
    assert!(rt; is_answered_with(&reply, b"><a/><b/><c/></body>"));
    Ok(())
}

/// A body of the second session with so many stanzas.
fn many(alloc: Global, count: usize) -> Result<Vec<u8>, AllocError> {
    let mut body = Vec::from_slice(alloc, MANY)?;
    for _ in 0..count {
        body.extend_from_slice(b"<x/>")?;
    }
    body.extend_from_slice(b"</body>")?;
    Ok(body)
}

/// Three members of a room, of which the first reads nothing and has as much waiting as may; the third came after that.
fn full_room<R: Wait>(rt: &R, alloc: Global) -> Result<Scene, &'static str> {
    let Ok(end) = room(alloc) else {
        return Err("no memory");
    };
    let mut scene = set_up(rt, alloc, end)?;
    open(rt, &mut scene)?;
    open(rt, &mut scene)?;
    let Ok(body) = many(alloc, 1024) else {
        return Err("no memory");
    };
    arrive_for(rt, &mut scene, 2, &body, 0)?;
    if turn(rt, &mut scene, 0).is_err() {
        return Err("no memory");
    }
    arrive_for(rt, &mut scene, 2, READS, 0)?;
    open(rt, &mut scene)?;
    if turn(rt, &mut scene, 0).is_err() {
        return Err("no memory");
    }
    Ok(scene)
}

fn room(alloc: Global) -> Result<Host<InMemory>, AllocError> {
    host(alloc, InMemory::Room(Room::new(alloc)), Vec::new(alloc))
}

#[test]
fn a_member_who_reads_nothing_silences_nobody(rt: HostRuntime) -> Result<(), Fail> {
    let alloc = rt.alloc();
    let mut scene = full_room(&rt, alloc)?;
    assert_eq!(rt; waiting(&rt, &mut scene, 1), Some(1024));
    for (body, count) in [(SAYS, 1), (ADDS, 2)] {
        arrive_for(&rt, &mut scene, 2, body, 0)?;
        assert_eq!(rt; turn(&rt, &mut scene, 0)?, 3);
        assert_eq!(rt; waiting(&rt, &mut scene, 1), Some(1024));
        assert_eq!(rt; waiting(&rt, &mut scene, 3), Some(count));
    }
    let reply = arrive(&rt, &mut scene, EMPTY, 0)?;
    assert_eq!(rt; payloads_in(alloc, &reply), Some(1024));
    assert_eq!(rt; turn(&rt, &mut scene, 0)?, 3);
    let reply = arrive(&rt, &mut scene, NEXT, 0)?;
    assert!(rt; is_answered_with(&reply, b"><m/><n/></body>"));
    Ok(())
}

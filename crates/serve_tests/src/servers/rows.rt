// Servers over links whose requests are written out.
ghost use Rattle.std.specs.Prelude.{IfOk};
ghost use Rattle.serve_tests.specs.Told.{AreAnswered};
ghost use Rattle.serve_tests.specs.declared.servers.ports.ShownLink.{ShownLink};

use super::ports::{Given, PausingBell, ShownLink, ShownNetwork, ShownPlan};
use bosh_server::{Outside, Ran, Roll, ServePlan, run_workers};
use bosh_types::{Moment, Rid, Stanzas, Text};
use connection_loops::StillPollers;
use server_ports::{GivenNames, LinkPlan, ListedSpawner, StillClock, ThreadSpawner};
use server_watch::Watch;
use session_pump::{Host, Pump};
use std::alloc::{AllocError, Global};
use std::rt::Clock;
use std::sync::{Arc, Mutex, Wait};
use std::test::Fail;
use std::thread::Threads;
use xmpp_backend::{Echo, InMemory, Scripted};

pub(crate) const NAMESPACE: &str = "xmlns='http://jabber.org/protocol/httpbind'";

pub(crate) const CREATION: &str =
    "<body rid='1000' to='example.org' wait='60' hold='1' ver='1.6' xmlns='http://jabber.org/protocol/httpbind'/>";

// A request with this content.
pub(crate) fn post(alloc: Global, body: &str) -> Result<String, AllocError> {
    let length = body.len();
    format!(in alloc;
        "POST /http-bind HTTP/1.1\r\nHost: localhost\r\nContent-Length: {length}\r\n\r\n{body}"
    )
}

// The answer with this content.
pub(crate) fn answer(alloc: Global, body: &str) -> Result<String, AllocError> {
    let length = body.len();
    format!(in alloc;
        "HTTP/1.1 200 OK\r\nContent-Type: text/xml; charset=utf-8\r\nContent-Length: {length}\r\n\r\n{body}"
    )
}

// A later request of the session with this content.
pub(crate) fn later(alloc: Global, rid: u64, content: &str) -> Result<String, AllocError> {
    let body = format!(in alloc; "<body rid='{rid}' sid='s1' {NAMESPACE}>{content}</body>")?;
    post(alloc, body.as_str())
}

// The creation and a later request behind it.
fn two_requests(alloc: Global, content: &str) -> Result<String, AllocError> {
    let creation = post(alloc, CREATION)?;
    let request = later(alloc, 1001, content)?;
    format!(in alloc; "{creation}{request}")
}

// Nothing was given yet.
pub(crate) fn given_nothing(alloc: Global) -> Result<Given, Fail> {
    Ok(Arc::new(alloc, Mutex::new(Vec::new(alloc)))?)
}

// A link with these bytes.
pub(crate) fn link<R: Wait + Clock + Copy + Drop>(
    rt: &R,
    text: &String,
    given: &Given,
    after: Option<Given>,
) -> Result<ShownPlan<R>, AllocError> {
    led_link(rt, text, given, after, 0)
}

// The same, of which so many bytes come singly, before the other link was given something.
fn led_link<R: Wait + Clock + Copy + Drop>(
    rt: &R,
    text: &String,
    given: &Given,
    after: Option<Given>,
    lead: usize,
) -> Result<ShownPlan<R>, AllocError> {
    let alloc = *text.allocator();
    let mut plan = LinkPlan::new(alloc, text.as_bytes().to_vec(alloc)?);
    plan.pieces = vec![in alloc; 1; lead]?;
    Ok(ShownPlan {
        rt: *rt,
        plan,
        given: Arc::try_clone(given)?,
        after,
        lead,
        is_left: false,
    })
}

// Whether this was given last.
pub(crate) fn ends_with<R: Wait>(rt: &R, given: &Given, text: &String) -> bool {
    given.lock(rt).as_slice().ends_with(text.as_bytes())
}

// The host `example.org` with this back end behind it.
pub(crate) fn one_host(alloc: Global, end: InMemory) -> Result<Vec<Host<InMemory>>, AllocError> {
    let features = Text::from_vec(b"<stream:features/>".to_vec(alloc)?);
    let greeting = Stanzas::from_vec(vec![in alloc; features]?);
    let name = Text::from_vec(b"example.org".to_vec(alloc)?);
    let spares = Vec::new(alloc);
    Ok(vec![in alloc;
        Host {
            name,
            greeting,
            end,
            spares
        },
    ]?)
}

// Serves the links of the network to their end, over a clock that stands: so the pump looks at every session as it starts and as it
// ends, and between only at those that were rung for. The spawner refuses the listed jobs.
fn served<R: Wait + Threads + Clock + Copy + Send + Sync + Drop + 'static>(
    rt: &R,
    alloc: Global,
    net: ShownNetwork<R>,
    plan: &ServePlan,
    refused: Vec<u64>,
    hosts: Vec<Host<InMemory>>,
) -> Result<Ran, Fail> {
    let After { ran, pump: _pump } = served_with(rt, alloc, net, plan, refused, hosts)?;
    Ok(ran)
}

/// How a server ended, and its pump, where that was started.
#[derive(Drop)]
pub(crate) struct After {
    pub(crate) ran: Ran,
    pub(crate) pump: Option<Pump<InMemory>>,
}

/// The same, with the pump as it ended. What is told of the links is what their connections did.
pub(crate) fn served_with<R: Wait + Threads + Clock + Copy + Send + Sync + Drop + 'static>(
    rt: &R,
    alloc: Global,
    net: ShownNetwork<R>,
    plan: &ServePlan,
    refused: Vec<u64>,
    hosts: Vec<Host<InMemory>>,
) -> Result<After, Fail>
    ensures told { IfOk result (λ after. ∥ AreAnswered {L = ShownLink R} (λ l. l.link.link.giving.bytes) hosts.items plan.now.limits plan.now.connections
        (record { faults = net.faults; accepted = net.accepted; dialled = 0; stops = net.stops }) after.ran ∥₁) }
{
    let names = GivenNames::new(alloc, b"s", Rid::new(1000).ok_or("an id")?);
    let mut outside = Outside {
        net,
        room: 65_536,
        clock: StillClock {
            moment: Moment::from_millis(0),
        },
        bell: PausingBell::new(*rt),
        spawner: ListedSpawner::new(ThreadSpawner::new(alloc), refused),
        names,
        pollers: StillPollers { rt: *rt, alloc },
        watch: Watch::off(),
        restored: None,
        keeper: None,
        roll: Roll::new(),
        pump: None,
    };
    let ran = run_workers(rt, alloc, &mut outside, plan, hosts);
    let Outside {
        net: _net,
        room: _room,
        clock: _clock,
        bell: _bell,
        spawner,
        names: _names,
        pollers: _pollers,
        watch: _watch,
        restored: _restored,
        keeper: _keeper,
        roll: _roll,
        pump,
    } = outside;
    spawner.into_inner().join_all(rt);
    Ok(After { ran: ran?, pump })
}

/// What a loop gives to a link over these bytes, behind which stands a back end that gives nothing.
pub(crate) fn given_by_loop<R: Wait + Threads + Clock + Copy + Send + Sync + Drop + 'static>(
    rt: &R,
    alloc: Global,
    text: &String,
) -> Result<Vec<u8>, Fail> {
    let given = given_nothing(alloc)?;
    let mut links = Vec::new(alloc);
    links.push(link(rt, text, &given, None)?)?;
    let net = ShownNetwork::new(links);
    let plan = ServePlan {
        workers: 1,
        connections: 1,
        ..ServePlan::USUAL
    };
    let end = Scripted::new(alloc, Vec::new(alloc), Vec::new(alloc));
    let hosts = one_host(alloc, InMemory::Scripted(end))?;
    served(rt, alloc, net, &plan, Vec::new(alloc), hosts)?;
    let bytes = given.lock(rt).to_vec(alloc)?;
    Ok(bytes)
}

// A request that waits is freed by the end of its session, which comes over another link, where so many loops serve both.
fn a_request_elsewhere_frees<R: Wait + Threads + Clock + Copy + Send + Sync + Drop + 'static>(
    rt: &R,
    alloc: Global,
    workers: u32,
) -> Result<bool, Fail> {
    let (one, two) = (given_nothing(alloc)?, given_nothing(alloc)?);
    let first = link(rt, &two_requests(alloc, "<a/>")?, &one, None)?;
    let after = Some(Arc::try_clone(&one)?);
    let end = format!(in alloc; "<body rid='1002' sid='s1' type='terminate' {NAMESPACE}/>")?;
    let second = link(rt, &post(alloc, end.as_str())?, &two, after)?;
    let mut links = Vec::new(alloc);
    links.push(first)?;
    links.push(second)?;
    let net = ShownNetwork::new(links);
    let plan = ServePlan {
        workers,
        connections: 2,
        ..ServePlan::USUAL
    };
    let end = Scripted::new(alloc, Vec::new(alloc), Vec::new(alloc));
    let hosts = one_host(alloc, InMemory::Scripted(end))?;
    let ran = served(rt, alloc, net, &plan, Vec::new(alloc), hosts)?;
    let wanted = answer(
        alloc,
        "<body xmlns='http://jabber.org/protocol/httpbind' type='terminate'/>",
    )?;
    Ok(ran == Ran::Done { connections: 2 } && ends_with(rt, &one, &wanted))
}

#[test]
fn a_request_elsewhere_frees_the_one_that_waits(rt: HostRuntime) -> Result<(), Fail> {
    let alloc = rt.alloc();
    for loops in [1, 2] {
        assert!(rt; a_request_elsewhere_frees(&rt, alloc, loops)?);
    }
    Ok(())
}

#[test]
fn the_pump_brings_what_the_back_end_gives(rt: HostRuntime) -> Result<(), Fail> {
    let alloc = rt.alloc();
    let given = given_nothing(alloc)?;
    let only = link(&rt, &two_requests(alloc, "<message/>")?, &given, None)?;
    let net = ShownNetwork::new(vec![in alloc; only]?);
    let plan = ServePlan {
        workers: 1,
        connections: 1,
        ..ServePlan::USUAL
    };
    let hosts = one_host(alloc, InMemory::Echo(Echo::new(alloc)))?;
    let ran = served(&rt, alloc, net, &plan, Vec::new(alloc), hosts)?;
    assert_eq!(rt; ran, Ran::Done { connections: 1 });
    let wanted = answer(
        alloc,
        "<body xmlns='http://jabber.org/protocol/httpbind' xmlns:stream='http://etherx.jabber.org/streams'><message/></body>",
    )?;
    assert!(rt; ends_with(&rt, &given, &wanted));
    Ok(())
}

#[test]
fn a_network_that_stops_ends_the_server(rt: HostRuntime) -> Result<(), Fail> {
    let alloc = rt.alloc();
    let given = given_nothing(alloc)?;
    let only = link(&rt, &two_requests(alloc, "<a/>")?, &given, None)?;
    let net = ShownNetwork::new(vec![in alloc; only]?);
    let plan = ServePlan {
        workers: 0,
        connections: 0,
        ..ServePlan::USUAL
    };
    let end = Scripted::new(alloc, Vec::new(alloc), Vec::new(alloc));
    let hosts = one_host(alloc, InMemory::Scripted(end))?;
    let ran = served(&rt, alloc, net, &plan, Vec::new(alloc), hosts)?;
    assert_eq!(rt; ran, Ran::Done { connections: 1 });
    let wanted = answer(
        alloc,
        "<body xmlns='http://jabber.org/protocol/httpbind' type='terminate' condition='system-shutdown'/>",
    )?;
    assert!(rt; ends_with(&rt, &given, &wanted));
    Ok(())
}

#[test]
fn a_refused_start_ends_the_server(rt: HostRuntime) -> Result<(), Fail> {
    let alloc = rt.alloc();
    for number in 1..=3 {
        let given = given_nothing(alloc)?;
        let only = link(&rt, &two_requests(alloc, "<a/>")?, &given, None)?;
        let net = ShownNetwork::new(vec![in alloc; only]?);
        let plan = ServePlan {
            workers: 2,
            connections: 1,
            ..ServePlan::USUAL
        };
        let hosts = one_host(alloc, InMemory::Echo(Echo::new(alloc)))?;
        let refused = vec![in alloc; number]?;
        let ran = served(&rt, alloc, net, &plan, refused, hosts)?;
        assert_eq!(rt; ran, Ran::SpawnFault);
        assert!(rt; given.lock(&rt).is_empty());
    }
    Ok(())
}

/// What one is told for whom there is no room.
const NO_ROOM: &[u8] =
    b"HTTP/1.1 503 Service Unavailable\r\nContent-Type: text/xml; charset=utf-8\r\nContent-Length: 0\r\nConnection: close\r\n\r\n";

// Serves these links by one loop, with an echo behind it, where one connection may be open and so many bytes may come in.
fn served_narrowly<R: Wait + Threads + Clock + Copy + Send + Sync + Drop + 'static>(
    rt: &R,
    alloc: Global,
    links: Vec<ShownPlan<R>>,
    incoming: u64,
) -> Result<Ran, Fail> {
    let net = ShownNetwork::new(links);
    let plan = ServePlan {
        workers: 1,
        open: Some(1),
        incoming,
        ..ServePlan::USUAL
    };
    let hosts = one_host(alloc, InMemory::Echo(Echo::new(alloc)))?;
    served(rt, alloc, net, &plan, Vec::new(alloc), hosts)
}

#[test]
fn one_connection_too_many_is_told_so(rt: HostRuntime) -> Result<(), Fail> {
    let alloc = rt.alloc();
    let (one, two) = (given_nothing(alloc)?, given_nothing(alloc)?);
    let after = Some(Arc::try_clone(&two)?);
    let first = led_link(&rt, &post(alloc, CREATION)?, &one, after, 1)?;
    let mut links = Vec::new(alloc);
    links.push(first)?;
    links.push(link(&rt, &post(alloc, CREATION)?, &two, None)?)?;
    let ran = served_narrowly(&rt, alloc, links, 1_048_576)?;
    assert_eq!(rt; ran, Ran::Done { connections: 2 });
    assert!(rt; one.lock(&rt).starts_with(b"HTTP/1.1 200 OK"));
    assert_eq!(rt; two.lock(&rt).as_slice(), NO_ROOM);
    Ok(())
}

#[test]
fn an_idle_connection_gives_its_place(rt: HostRuntime) -> Result<(), Fail> {
    let alloc = rt.alloc();
    let (one, two) = (given_nothing(alloc)?, given_nothing(alloc)?);
    let after = Some(Arc::try_clone(&two)?);
    let mut links = Vec::new(alloc);
    links.push(link(&rt, &two_requests(alloc, "")?, &one, after)?)?;
    links.push(link(&rt, &two_requests(alloc, "<a/>")?, &two, None)?)?;
    let ran = served_narrowly(&rt, alloc, links, 1_048_576)?;
    assert_eq!(rt; ran, Ran::Done { connections: 2 });
    assert!(rt; one.lock(&rt).is_empty());
    assert!(rt; two.lock(&rt).starts_with(b"HTTP/1.1 200 OK"));
    Ok(())
}

#[test]
fn a_content_that_is_too_much_is_given_up(rt: HostRuntime) -> Result<(), Fail> {
    let alloc = rt.alloc();
    let spaces = " ".repeat(alloc, 200_000)?;
    let content = format!(in alloc; "<a>{spaces}</a>")?;
    let given = given_nothing(alloc)?;
    let mut links = Vec::new(alloc);
    let request = later(alloc, 1001, content.as_str())?;
    links.push(link(&rt, &request, &given, None)?)?;
    let ran = served_narrowly(&rt, alloc, links, 100_000)?;
    assert_eq!(rt; ran, Ran::Done { connections: 1 });
    assert_eq!(rt; given.lock(&rt).as_slice(), NO_ROOM);
    Ok(())
}

#[test]
fn a_content_is_too_much_before_any_of_it_came(rt: HostRuntime) -> Result<(), Fail> {
    let alloc = rt.alloc();
    let spaces = " ".repeat(alloc, 200_000)?;
    let content = format!(in alloc; "<a>{spaces}</a>")?;
    let given = given_nothing(alloc)?;
    let request = later(alloc, 1001, content.as_str())?;
    let head = request
        .as_str()
        .find("\r\n\r\n")
        .map_or(0, |at| at.saturating_add(4));
    let only = led_link(&rt, &request, &given, Some(Arc::try_clone(&given)?), head)?;
    let ran = served_narrowly(&rt, alloc, vec![in alloc; only]?, 100_000)?;
    assert_eq!(rt; ran, Ran::Done { connections: 1 });
    assert_eq!(rt; given.lock(&rt).as_slice(), NO_ROOM);
    Ok(())
}

#[test]
fn a_connection_ends_whose_peer_left_while_it_waits(rt: HostRuntime) -> Result<(), Fail> {
    let alloc = rt.alloc();
    let given = given_nothing(alloc)?;
    let mut only = link(&rt, &two_requests(alloc, "")?, &given, None)?;
    only.is_left = true;
    let net = ShownNetwork::new(vec![in alloc; only]?);
    let plan = ServePlan {
        workers: 1,
        connections: 1,
        ..ServePlan::USUAL
    };
    let end = Scripted::new(alloc, Vec::new(alloc), Vec::new(alloc));
    let hosts = one_host(alloc, InMemory::Scripted(end))?;
    let ran = served(&rt, alloc, net, &plan, Vec::new(alloc), hosts)?;
    assert_eq!(rt; ran, Ran::Done { connections: 1 });
    let answers = given.lock(&rt);
    assert!(rt; answers.starts_with(b"HTTP/1.1 200 OK"));
    assert!(rt; answers.ends_with(b"<stream:features/></body>"));
    Ok(())
}

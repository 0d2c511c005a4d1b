// What stands behind a server when it has ended.
use super::ports::{Given, ShownNetwork, ShownPlan};
use super::rows::{
    After, NAMESPACE, answer, ends_with, given_nothing, link, one_host, post, served_with,
};
use bosh_server::{Ran, ServePlan};
use bosh_types::{Stanzas, Text};
use session_pump::{Host, Pump, Side, Stage};
use std::alloc::{AllocError, Global};
use std::process::Abort;
use std::rt::Clock;
use std::sync::{Arc, Wait};
use std::test::Fail;
use std::thread::Threads;
use xmpp_backend::{Backend, Echo, InMemory, Polled, Room, Scripted};

// The creation of a session at this host and a later request with this content, which comes in the session of this number.
fn creation_and_more(
    alloc: Global,
    host: &str,
    number: u32,
    content: &str,
) -> Result<String, AllocError> {
    let creation = format!(in alloc;
        "<body rid='1000' to='{host}' wait='60' hold='1' ver='1.6' {NAMESPACE}/>"
    )?;
    let later = format!(in alloc; "<body rid='1001' sid='s{number}' {NAMESPACE}>{content}</body>")?;
    let first = post(alloc, creation.as_str())?;
    let second = post(alloc, later.as_str())?;
    format!(in alloc; "{first}{second}")
}

// `room.example.org`, with a room.
fn room_host(alloc: Global) -> Result<Host<InMemory>, AllocError> {
    let features = Text::from_vec(b"<stream:features/>".to_vec(alloc)?);
    Ok(Host {
        name: Text::from_vec(b"room.example.org".to_vec(alloc)?),
        greeting: Stanzas::from_vec(vec![in alloc; features]?),
        end: InMemory::Room(Room::new(alloc)),
        spares: Vec::new(alloc),
    })
}

// `example.org` with an echo, and `room.example.org` with a room.
pub(crate) fn two_hosts(alloc: Global) -> Result<Vec<Host<InMemory>>, AllocError> {
    let mut hosts = one_host(alloc, InMemory::Echo(Echo::new(alloc)))?;
    hosts.push(room_host(alloc)?)?;
    Ok(hosts)
}

// A link that opens a session at the echo and sends a message there.
fn echo_link<R: Wait + Clock + Copy + Drop>(
    rt: &R,
    alloc: Global,
    given: &Given,
) -> Result<ShownPlan<R>, AllocError> {
    let text = creation_and_more(alloc, "example.org", 1, "<message/>")?;
    link(rt, &text, given, None)
}

// A link that comes once the other was given something, opens a session at the room and enters it.
fn room_link<R: Wait + Clock + Copy + Drop>(
    rt: &R,
    alloc: Global,
    given: &Given,
    other: &Given,
) -> Result<ShownPlan<R>, AllocError> {
    let text = creation_and_more(alloc, "room.example.org", 2, "<presence/>")?;
    let after = Arc::try_clone(other)?;
    link(rt, &text, given, Some(after))
}

// What each of two links is given.
#[derive(Drop)]
struct Both {
    echo: Given,
    room: Given,
}

fn network_of_both<R: Wait + Clock + Copy + Drop>(
    rt: &R,
    alloc: Global,
    both: &Both,
) -> Result<ShownNetwork<R>, AllocError> {
    let mut links: Vec<ShownPlan<R>> = Vec::new(alloc);
    links.push(echo_link(rt, alloc, &both.echo)?)?;
    links.push(room_link(rt, alloc, &both.room, &both.echo)?)?;
    Ok(ShownNetwork::new(links))
}

// Two loops, and no links after the second.
fn plan_of_two() -> ServePlan {
    ServePlan {
        workers: 2,
        connections: 2,
        ..ServePlan::USUAL
    }
}

fn served_both<R: Wait + Threads + Clock + Copy + Send + Sync + Drop + 'static>(
    rt: &R,
    alloc: Global,
    both: &Both,
) -> Result<After, Fail> {
    let net = network_of_both(rt, alloc, both)?;
    let hosts = two_hosts(alloc)?;
    served_with(rt, alloc, net, &plan_of_two(), Vec::new(alloc), hosts)
}

// Each link was given last what the back end behind its own session's host makes of what came on it: the room gives its presence to who is there
// already, and the echo gives the message back.
fn answers_are_their_own<R: Wait + Abort>(rt: &R, alloc: Global, both: &Both) -> Result<(), Fail> {
    let echoed = answer(
        alloc,
        "<body xmlns='http://jabber.org/protocol/httpbind' xmlns:stream='http://etherx.jabber.org/streams'><message/></body>",
    )?;
    let shared = answer(
        alloc,
        "<body xmlns='http://jabber.org/protocol/httpbind' xmlns:stream='http://etherx.jabber.org/streams'><presence/></body>",
    )?;
    assert!(rt; ends_with(rt, &both.echo, &echoed));
    assert!(rt; ends_with(rt, &both.room, &shared));
    Ok(())
}

// From each session a line goes to its host, on which nothing is kept or owed.
fn lines_are_empty(rt: &impl Abort, pump: &Pump<InMemory>) {
    assert_eq!(rt; pump.purse.sessions.len(), 2);
    assert_eq!(rt; pump.lines.len(), 2);
    for (number, line) in &pump.lines {
        let place = (*number as usize).saturating_sub(1);
        assert!(rt; line.kept.is_none());
        assert!(rt; line.sides.len() == 1 && is_open(&line.sides[0], place));
    }
}

// The wire of a stream is open at the first back end of this host, and nothing is owed on it.
fn is_open(side: &Side, place: usize) -> bool {
    side.host == Some(place) && side.stage == Stage::Opened(0) && side.owed.is_none()
}

// The hosts stand in their order, under their names, none failed, and their back ends have nothing more.
fn hosts_are_done(rt: &impl Abort, pump: &mut Pump<InMemory>) {
    assert_eq!(rt; pump.hosts.stands.len(), 2);
    for stand in pump.hosts.stands.as_mut_slice() {
        assert_eq!(rt; stand.failures, 0);
        assert!(rt; stand.kept.is_none());
        assert!(rt; matches!(stand.host.end.poll(), Polled::Nothing));
    }
}

// Each link is given the answers to its own requests. The pump comes back with the hosts that it began with: it holds each session, whose last words
// nobody asked for any more, and what was passed to the back ends was given, so that none has more.
#[test]
fn two_links_are_served_and_the_pump_comes_back(rt: HostRuntime) -> Result<(), Fail> {
    let alloc = rt.alloc();
    let both = Both {
        echo: given_nothing(alloc)?,
        room: given_nothing(alloc)?,
    };
    let After { ran, pump } = served_both(&rt, alloc, &both)?;
    assert_eq!(rt; ran, Ran::Done { connections: 2 });
    answers_are_their_own(&rt, alloc, &both)?;
    let mut pump = pump.ok_or("a pump")?;
    lines_are_empty(&rt, &pump);
    hosts_are_done(&rt, &mut pump);
    Ok(())
}

// No pump comes back where it was not started, and one that was started comes back where a loop was not.
#[test]
fn a_pump_comes_back_where_it_was_started(rt: HostRuntime) -> Result<(), Fail> {
    let alloc = rt.alloc();
    for number in 1..=2 {
        let net: ShownNetwork<HostRuntime> = ShownNetwork::new(Vec::new(alloc));
        let end = Scripted::new(alloc, Vec::new(alloc), Vec::new(alloc));
        let hosts = one_host(alloc, InMemory::Scripted(end))?;
        let refused = vec![in alloc; number]?;
        let after = served_with(&rt, alloc, net, &ServePlan::USUAL, refused, hosts)?;
        assert_eq!(rt; after.ran, Ran::SpawnFault);
        assert_eq!(rt; after.pump.is_some(), number == 2);
    }
    Ok(())
}

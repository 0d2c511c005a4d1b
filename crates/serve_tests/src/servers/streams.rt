// Streams of one session at two hosts.
use super::ends::two_hosts;
use super::ports::ShownNetwork;
use super::rows::{
    After, CREATION, NAMESPACE, answer, ends_with, given_nothing, link, post, served_with,
};
use bosh_server::{Ran, ServePlan};
use std::alloc::{AllocError, Global};
use std::test::Fail;

// A later request of the session with these attributes and this content.
fn request(alloc: Global, rid: u64, attributes: &str, content: &str) -> Result<String, AllocError> {
    let body = format!(in alloc;
        "<body rid='{rid}' sid='s1' {attributes} {NAMESPACE}>{content}</body>"
    )?;
    post(alloc, body.as_str())
}

// A session at the echo adds a stream to the room, enters the room on that one, and sends a message on the first.
fn requests(alloc: Global) -> Result<String, AllocError> {
    let creation = post(alloc, CREATION)?;
    let added = request(alloc, 1001, "to='room.example.org'", "")?;
    let entered = request(alloc, 1002, "stream='t1'", "<presence/>")?;
    let sent = request(alloc, 1003, "stream='t0'", "<message/>")?;
    format!(in alloc; "{creation}{added}{entered}{sent}")
}

// The added stream has its name, the room gives the presence on it, and the echo gives the message back on the other.
fn last_answers(alloc: Global) -> Result<String, AllocError> {
    let added = answer(
        alloc,
        "<body xmlns='http://jabber.org/protocol/httpbind' stream='t1'/>",
    )?;
    let shared = answer(
        alloc,
        "<body xmlns='http://jabber.org/protocol/httpbind' xmlns:stream='http://etherx.jabber.org/streams' stream='t1'><presence/></body>",
    )?;
    let echoed = answer(
        alloc,
        "<body xmlns='http://jabber.org/protocol/httpbind' xmlns:stream='http://etherx.jabber.org/streams' stream='t0'><message/></body>",
    )?;
    format!(in alloc; "{added}{shared}{echoed}")
}

// What comes on each stream is what its own host's back end makes of what was sent on it.
#[test]
fn each_stream_of_a_session_is_served_at_its_own_host(rt: HostRuntime) -> Result<(), Fail> {
    let alloc = rt.alloc();
    let given = given_nothing(alloc)?;
    let text = requests(alloc)?;
    let mut links = Vec::new(alloc);
    links.push(link(&rt, &text, &given, None)?)?;
    let net = ShownNetwork::new(links);
    let plan = ServePlan {
        workers: 1,
        connections: 1,
        ..ServePlan::USUAL
    };
    let hosts = two_hosts(alloc)?;
    let After { ran, pump } = served_with(&rt, alloc, net, &plan, Vec::new(alloc), hosts)?;
    assert_eq!(rt; ran, Ran::Done { connections: 1 });
    let expected = last_answers(alloc)?;
    assert!(rt; ends_with(&rt, &given, &expected));
    let pump = pump.ok_or("a pump")?;
    assert_eq!(rt; pump.purse.sessions.len(), 1);
    Ok(())
}

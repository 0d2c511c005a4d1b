// Sessions with more than one stream, at the back ends of several hosts.
ghost use Rattle.std.specs.Prelude.{◌≡◌};

use super::{
    Scene, arrive, collected, ends_with, host, host_named, is_answered_with, open, set_up_over,
    ticket_of, turn,
};
use session_pump::Hosts;
use std::alloc::{AllocError, Global};
use std::sync::Wait;
use std::test::Fail;
use xmpp_backend::{BackendCall, Echo, Failing, InMemory, Scripted};

/// What a request of the first session has beside its id, and the last bytes of its answer, which comes at once or in the next turn.
type Exchange = (&'static str, &'static str, &'static [u8]);

const ADDS: Exchange = ("to='example.com'", "", b" stream='t1'/>");

const FAILED: &[u8] = b" type='terminate' condition='remote-connection-failed' stream='t1'/>";

/// A back end that gives nothing, and fails at the first call of this kind.
fn silent(alloc: Global, call: BackendCall) -> Result<InMemory, AllocError> {
    let failing = vec![in alloc; Failing { call, number: 1 }]?;
    Ok(InMemory::Scripted(Scripted::new(alloc, Vec::new(alloc), failing)))
}

fn echo(alloc: Global) -> InMemory {
    InMemory::Echo(Echo::new(alloc))
}

/// The hosts example.org and example.com with these back ends.
fn two(alloc: Global, here: InMemory, there: InMemory) -> Result<Hosts<InMemory>, AllocError> {
    let here = host(alloc, here, Vec::new(alloc))?;
    let there = host_named(alloc, b"example.com", there, Vec::new(alloc))?;
    Hosts::new(alloc, vec![in alloc; here, there]?)
}

/// A request of the first session.
fn request(alloc: Global, rid: u64, attributes: &str, stanzas: &str) -> Result<String, AllocError> {
    format!(in alloc;
        "<body rid='{rid}' sid='s1' {attributes} xmlns='http://jabber.org/protocol/httpbind'>{stanzas}</body>"
    )
}

/// Whether such a request is answered with these last bytes, at once or in the turn that follows.
fn is_answered<R: Wait>(
    rt: &R,
    scene: &mut Scene,
    rid: u64,
    exchange: Exchange,
) -> Result<bool, &'static str> {
    let (attributes, stanzas, end) = exchange;
    let Ok(body) = request(scene.alloc, rid, attributes, stanzas) else {
        return Err("no memory");
    };
    let reply = arrive(rt, scene, body.as_bytes(), 0)?;
    if turn(rt, scene, 0).is_err() {
        return Err("no memory");
    }
    match ticket_of(&reply) {
        Some(ticket) => Ok(ends_with(collected(rt, scene, ticket), end)),
        None => Ok(is_answered_with(&reply, end)),
    }
}

/// A session with a stream at example.org that goes through these exchanges: how many of them are as they are to be, and how often the
/// back ends of both hosts failed.
fn went<R: Wait>(
    rt: &R,
    alloc: Global,
    hosts: Hosts<InMemory>,
    exchanges: &[Exchange],
) -> Result<(usize, [u64; 2]), &'static str> {
    let mut scene = set_up_over(rt, alloc, hosts)?;
    open(rt, &mut scene)?;
    let mut rid = 1000u64;
    let mut right = 0usize;
    for exchange in exchanges {
        rid = rid.saturating_add(1);
        if is_answered(rt, &mut scene, rid, *exchange)? {
            right = right.saturating_add(1);
        }
    }
    Ok((right, [failures(&scene, 0), failures(&scene, 1)]))
}

/// How many back ends of the host at this place failed.
fn failures(scene: &Scene, place: usize) -> u64 {
    match scene.pump.hosts.stands.get(place) {
        Some(stand) => stand.failures,
        None => 0,
    }
}

// A stanza goes to the host of each stream that it is for, and what that gives comes on that stream.
#[test]
fn each_stream_is_served_by_its_host(rt: HostRuntime) -> Result<(), Fail> {
    let alloc = rt.alloc();
    let rows: [Exchange; 4] = [
        ADDS,
        ("stream='t1'", "<a/>", b" stream='t1'><a/></body>"),
        ("", "<b/>", b" stream='t1'><b/></body>"),
        ("stream='t1'", "<c/>", b" stream='t1'><c/></body>"),
    ];
    let hosts = two(alloc, silent(alloc, BackendCall::Close)?, echo(alloc))?;
    assert_eq!(rt; went(&rt, alloc, hosts, &rows)?, (4, [0, 0]));
    Ok(())
}

// The back end of example.com fails at the first stanza: the stream there ends, and that at example.org goes on.
#[test]
fn a_failure_ends_the_streams_of_its_host_alone(rt: HostRuntime) -> Result<(), Fail> {
    let alloc = rt.alloc();
    let rows: [Exchange; 4] = [
        ADDS,
        ("stream='t0'", "<a/>", b" stream='t0'><a/></body>"),
        ("stream='t1'", "<b/>", FAILED),
        ("", "<c/>", b" stream='t0'><c/></body>"),
    ];
    let hosts = two(alloc, echo(alloc), silent(alloc, BackendCall::Pass)?)?;
    assert_eq!(rt; went(&rt, alloc, hosts, &rows)?, (4, [0, 1]));
    Ok(())
}

// A stream to no host of the server ends at once, and the others go on.
#[test]
fn a_stream_to_no_host_is_closed(rt: HostRuntime) -> Result<(), Fail> {
    let alloc = rt.alloc();
    let rows: [Exchange; 3] = [
        ("to='example.net'", "", b" stream='t1'/>"),
        ("", "", FAILED),
        ("", "<a/>", b" stream='t0'><a/></body>"),
    ];
    let hosts = two(alloc, echo(alloc), silent(alloc, BackendCall::Open)?)?;
    assert_eq!(rt; went(&rt, alloc, hosts, &rows)?, (3, [0, 0]));
    Ok(())
}

// A wire is closed with its stream, and each that is open with its session: the back ends fail at that, so that it is counted.
#[test]
fn wires_are_closed_with_their_streams(rt: HostRuntime) -> Result<(), Fail> {
    let alloc = rt.alloc();
    let closes_one: Exchange = ("stream='t1' type='terminate'", "<a/>", b"");
    let ends: Exchange = ("type='terminate'", "", b"/>");
    let rows: [(&[Exchange], usize, [u64; 2]); 3] = [
        (&[ADDS, closes_one], 1, [0, 1]),
        (&[ADDS, ends], 2, [1, 1]),
        (&[ADDS, closes_one, ends], 2, [1, 1]),
    ];
    for (exchanges, right, failures) in rows {
        let here = silent(alloc, BackendCall::Close)?;
        let hosts = two(alloc, here, silent(alloc, BackendCall::Close)?)?;
        assert_eq!(rt; went(&rt, alloc, hosts, exchanges)?, (right, failures));
    }
    Ok(())
}

// The command `client` over a network in memory, and against `serve` over loopback.
ghost use Rattle.std.specs.Thread.{IsSync};

use crate::noting::{Noted, NotingNetwork, Part, Patient};
use bosh_commands::{
    BAD_SCRIPT, DONE, NET_FAULT, WRONG_WORDS, run_client_command, run_serve_command,
};
use bosh_ports::{Gave, MemorySink, MemorySource, QuietSource, RealBell, Sink, SteadyBell};
use bosh_server::{Outside as ServerOutside, Roll};
use bosh_types::{Moment, Rid, Stanzas, Text};
use client_run::Outside;
use connection_loops::ReadyPollers;
use front_net::FrontNetwork;
use server_ports::{
    GivenNames, MemoryNetwork, SteadySpawner, StillClock, TcpNetwork, ThreadSpawner,
};
use server_watch::Watch;
use session_pump::Host;
use std::alloc::{AllocError, Global};
use std::collections::VecDeque;
use std::io::Eprint;
use std::net::{Ipv4Addr, Net, SocketAddr, TcpListener, TcpStream};
use std::rt::Clock;
use std::sync::{Arc, Mutex, Wait};
use std::test::Fail;
use std::thread::{Threads, join, sleep};
use std::time::Duration;
use xmpp_backend::{Echo, InMemory};

fn words_of(alloc: Global, line: &str) -> Result<Vec<String>, AllocError> {
    let mut words = Vec::new(alloc);
    for word in line.split(' ') {
        words.push(String::from_str(alloc, word)?)?;
    }
    Ok(words)
}

/// What a command answered, wrote, and wrote as errors.
type Said = (u8, MemorySink, MemorySink);

// The status of the words over an empty network and this input, and what was written.
fn shown<R: Wait + Threads + Copy + Send + Drop + 'static>(
    rt: &R,
    alloc: Global,
    line: &str,
    input: &[u8],
) -> Result<Said, Fail> {
    let words = words_of(alloc, line)?;
    let mut source = MemorySource::new(Vec::from_slice(alloc, input)?, Vec::new(alloc));
    let mut sink = MemorySink::new(alloc, Vec::new(alloc));
    let mut errors = MemorySink::new(alloc, Vec::new(alloc));
    let mut names = GivenNames::new(alloc, b"s", Rid::new(1000).ok_or("an id")?);
    let mut outside = Outside {
        net: MemoryNetwork::new(alloc, Vec::new(alloc), Vec::new(alloc)),
        clock: StillClock {
            moment: Moment::from_millis(0),
        },
        bell: SteadyBell,
        spawner: SteadySpawner { leaves: 0 },
    };
    let status = run_client_command(
        rt,
        alloc,
        &words,
        &mut source,
        &mut sink,
        &mut errors,
        &mut outside,
        &mut names,
    );
    Ok((status, sink, errors))
}

#[test]
fn a_network_that_dials_nobody_has_failed(rt: HostRuntime) -> Result<(), Fail> {
    // The input, the status, what is written, and what is told as an error.
    let rows: [(&[u8], u8, &[u8], &[u8]); 2] = [
        (
            b"",
            NET_FAULT,
            b"",
            b"robelava client: nobody listens at the port, or the connection failed\n",
        ),
        (
            b"<m>\n",
            BAD_SCRIPT,
            b"bad 1 grammar\n",
            b"robelava client: line 1 is no stanza\n",
        ),
    ];
    for (input, status, output, told) in rows {
        let (answered, written, errors) = shown(
            &rt,
            rt.alloc(),
            "client --port 47002 --to h",
            input,
        )?;
        assert_eq!(rt; answered, status, "of {input:?}");
        assert_eq!(rt; written.as_slice(), output, "of {input:?}");
        assert_eq!(rt; errors.as_slice(), told, "of {input:?}");
    }
    Ok(())
}

#[test]
fn words_that_are_no_client_write_nothing(rt: HostRuntime) -> Result<(), Fail> {
    let lines = [
        "client",
        "client --port 47002",
        "client --to h",
        "client --port 0 --to h",
        "client --port 47002 --to h --rid 0",
        "client --port 47002 --to h --rid 01",
        "client --port 47002 --to h --wait 121",
        "client --port 47002 --to h --hold 5",
        "client --port 47002 --to \u{1}",
        "client --port 47002 --to h again",
        "serve --port 47002",
    ];
    for line in lines {
        let (status, written, _) = shown(&rt, rt.alloc(), line, b"")?;
        assert_eq!(rt; status, WRONG_WORDS, "of {line:?}");
        assert!(rt; written.as_slice().is_empty(), "of {line:?}");
    }
    Ok(())
}

#[test]
fn what_is_asked_for_is_shown(rt: HostRuntime) -> Result<(), Fail> {
    let rows: [(&str, &[u8]); 2] = [
        ("client --help", b"Sends each line of"),
        ("client --version", b"client 0.1.0\n"),
    ];
    for (line, front) in rows {
        let (status, written, _) = shown(&rt, rt.alloc(), line, b"")?;
        assert_eq!(rt; status, DONE, "of {line:?}");
        assert!(rt; written.as_slice().starts_with(front), "of {line:?}");
    }
    Ok(())
}

/// A sink that tells another thread once it was given something.
#[derive(Drop)]
struct Announcing<R: Wait + Copy + Drop> {
    rt: R,
    inner: MemorySink,
    begun: Arc<Mutex<bool>>,
}

impl<R: Wait + Copy + Drop> Sink for Announcing<R> {
    ghost use Rattle.std.specs.Prelude.{Some};
    ghost use Rattle.bosh_ports.specs.Faults.{HasRisen};
    ghost use Rattle.bosh_ports.specs.Sink.{Gives, CountsGive};

    ghost given = { λ s. Some s.inner.bytes };

    ghost faults = { λ s. s.inner.faults };

    fn give(&mut self, bytes: &[u8]) -> Gave {
        let gave = self.inner.give(bytes);
        *self.begun.lock(&self.rt) = true;
        gave
    }
}

// The host `example.org`, which gives every stanza back.
fn echo_host(alloc: Global) -> Result<Host<InMemory>, AllocError> {
    let features = Text::from_vec(b"<stream:features/>".to_vec(alloc)?);
    Ok(Host {
        name: Text::from_vec(b"example.org".to_vec(alloc)?),
        greeting: Stanzas::from_vec(vec![in alloc; features]?),
        end: InMemory::Echo(Echo::new(alloc)),
        spares: Vec::new(alloc),
    })
}

// Serves so many connections at this port: the status, and what was written.
fn serve<R>(
    rt: &R,
    alloc: Global,
    port: u16,
    connections: u32,
    begun: Arc<Mutex<bool>>,
) -> Result<(u8, MemorySink), AllocError>
where
    R: Wait
        + Threads
        + Clock
        + Eprint
        + Net<Listener = TcpListener, Stream = TcpStream>
        + Copy
        + Send
        + Drop
        + 'static,
{
    let Some(first) = Rid::new(1000) else {
        return Err(AllocError);
    };
    let line = format!(in alloc; "serve --port {port} --connections {connections}")?;
    let words = words_of(alloc, line.as_str())?;
    let hosts = vec![in alloc; echo_host(alloc)?]?;
    let bell = RealBell::new(alloc, *rt)?;
    let mut written = Announcing {
        rt: *rt,
        inner: MemorySink::new(alloc, Vec::new(alloc)),
        begun,
    };
    let mut input = QuietSource::new(Vec::new(alloc));
    let mut errors = MemorySink::new(alloc, Vec::new(alloc));
    let mut outside = ServerOutside {
        net: FrontNetwork::new(*rt, alloc),
        room: 65_536,
        clock: StillClock {
            moment: Moment::from_millis(0),
        },
        bell,
        spawner: ThreadSpawner::new(alloc),
        names: GivenNames::new(alloc, b"s", first),
        pollers: ReadyPollers { rt: *rt, alloc },
        watch: Watch::off(),
        restored: None,
        keeper: None,
        roll: Roll::new(),
        pump: None,
    };
    let status = run_serve_command(
        rt,
        alloc,
        &words,
        &mut input,
        &mut written,
        &mut errors,
        &mut outside,
        hosts,
    );
    let ServerOutside {
        net: _net,
        room: _room,
        clock: _clock,
        bell: _bell,
        spawner,
        names: _names,
        pollers: _pollers,
        watch: _watch,
        restored: _restored,
        keeper: _keeper,
        roll: _roll,
        pump: _pump,
    } = outside;
    spawner.join_all(rt);
    let Announcing {
        rt: _rt,
        inner,
        begun: _begun,
    } = written;
    Ok((status, inner))
}

// The parts of an input, of which each is read back before the next is given.
fn parts_of(alloc: Global, lines: &[&[u8]]) -> Result<VecDeque<Part>, AllocError> {
    let mut parts = VecDeque::new(alloc);
    for line in lines {
        let mut bytes = Vec::from_slice(alloc, line)?;
        bytes.push(b'\n')?;
        let echo = match line.split(|byte| *byte == b'\n').last() {
            Some(last) => Vec::from_slice(alloc, last)?,
            None => Vec::new(alloc),
        };
        parts.push_back(Part {
            bytes: QuietSource::new(bytes),
            echo,
        })?;
    }
    Ok(parts)
}

// Runs a client over this input, once the port takes connections: the status, and what was written.
fn ask<R>(
    rt: &R,
    alloc: Global,
    port: u16,
    lines: &[&[u8]],
    noted: &Arc<Mutex<Noted>>,
    begun: &Arc<Mutex<bool>>,
) -> Result<(u8, MemorySink), AllocError>
where
    R: Wait
        + Threads
        + Clock
        + Eprint
        + Net<Listener = TcpListener, Stream = TcpStream>
        + Copy
        + Send
        + Drop
        + 'static,
{
    for _ in 0..10000 {
        if *begun.lock(rt) {
            break;
        }
        sleep(rt, Duration::from_millis(1));
    }
    let Some(first) = Rid::new(1000) else {
        return Err(AllocError);
    };
    let line = format!(in alloc; "client --port {port} --to example.org")?;
    let words = words_of(alloc, line.as_str())?;
    let mut source = Patient {
        rt: *rt,
        parts: parts_of(alloc, lines)?,
        noted: Arc::try_clone(noted)?,
    };
    let mut errors = MemorySink::new(alloc, Vec::new(alloc));
    let mut sink = MemorySink::new(alloc, Vec::new(alloc));
    let mut names = GivenNames::new(alloc, b"c", first);
    let mut outside = Outside {
        net: NotingNetwork::new(*rt, Arc::try_clone(noted)?),
        clock: StillClock {
            moment: Moment::from_millis(0),
        },
        bell: RealBell::new(alloc, *rt)?,
        spawner: ThreadSpawner::new(alloc),
    };
    let status = run_client_command(
        rt,
        alloc,
        &words,
        &mut source,
        &mut sink,
        &mut errors,
        &mut outside,
        &mut names,
    );
    let Outside {
        net: _net,
        clock: _clock,
        bell: _bell,
        spawner,
    } = outside;
    spawner.join_all(rt);
    Ok((status, sink))
}

/// Connections that nothing is sent on, until nobody listens any more.
pub(crate) fn fill<R>(rt: &R, port: u16)
where
    R: Net<Listener = TcpListener, Stream = TcpStream>,
{
    for _ in 0..CONNECTIONS {
        let address = SocketAddr::from((Ipv4Addr::LOCALHOST, port));
        if TcpStream::connect(rt, address).is_err() {
            return;
        }
    }
}

/// A way to run both.
#[derive(Clone, Copy)]
struct Way<'w> {
    port: u16,
    connections: u32,
    lines: &'w [&'w [u8]],
}

/// What an end answered and wrote.
type Shown = Result<(u8, MemorySink), AllocError>;

// Both beside each other: the server, and the client.
fn both<R>(
    rt: &R,
    alloc: Global,
    way: Way<'_>,
    noted: &Arc<Mutex<Noted>>,
    begun: &Arc<Mutex<bool>>,
    served: Arc<Mutex<bool>>,
) -> (Shown, Shown)
where
    R: Wait
        + Threads
        + Clock
        + Eprint
        + Net<Listener = TcpListener, Stream = TcpStream>
        + Copy
        + Send
        + Sync
        + Drop
        + 'static,
{
    join(
        rt,
        || -> Shown
            requires { IsSync R.row }
        { serve(rt, alloc, way.port, way.connections, served) },
        || -> Shown
            requires { IsSync R.row }
        {
            let shown = ask(rt, alloc, way.port, way.lines, noted, begun);
            fill(rt, way.port);
            shown
        },
    )
}

/// How many links the server takes where the client makes more than two.
const CONNECTIONS: u32 = 40;

// What both ends answered and wrote, and how many answers were dropped.
fn runs<R>(
    rt: &R,
    alloc: Global,
    connections: u32,
    lines: &[&[u8]],
    drops: bool,
) -> Result<((u8, MemorySink), (u8, MemorySink), u64), Fail>
where
    R: Wait
        + Threads
        + Clock
        + Eprint
        + Net<Listener = TcpListener, Stream = TcpStream>
        + Copy
        + Send
        + Sync
        + Drop
        + 'static,
{
    let any = TcpListener::bind(rt, SocketAddr::from((Ipv4Addr::LOCALHOST, 0)))?;
    let port = any.local_addr()?.port();
    drop(any);
    let Ok(begun) = Arc::new(alloc, Mutex::new(false)) else {
        return Err("no memory".into());
    };
    let noted = Noted {
        read: Vec::new(alloc),
        answers: 0,
        dropped: 0,
        drops,
    };
    let Ok(noted) = Arc::new(alloc, Mutex::new(noted)) else {
        return Err("no memory".into());
    };
    let served = Arc::try_clone(&begun)?;
    let way = Way {
        port,
        connections,
        lines,
    };
    let (server, client) = both(rt, alloc, way, &noted, &begun, served);
    let dropped = noted.lock(rt).dropped;
    Ok((server?, client?, dropped))
}

#[test]
fn a_client_is_served_over_loopback(rt: HostRuntime) -> Result<(), Fail> {
    let lines: [&[u8]; 1] = [b"<message id='1'/>\n<message id='2'/>"];
    let (server, client, dropped) = runs(&rt, rt.alloc(), 2, &lines, false)?;
    assert_eq!(rt; server.0, DONE);
    assert_eq!(rt; server.1.as_slice(), b"serving\nserved 2\n".as_slice());
    assert_eq!(rt; client.0, DONE);
    assert_eq!(rt;
        client.1.as_slice(),
        b"<stream:features/>\n<message id='1'/>\n<message id='2'/>\n".as_slice()
    );
    assert_eq!(rt; dropped, 0);
    Ok(())
}

#[test]
fn answers_that_are_dropped_are_asked_for_again(rt: HostRuntime) -> Result<(), Fail> {
    let lines: [&[u8]; 8] = [
        b"<a/>", b"<b/>", b"<c/>", b"<d/>", b"<e/>", b"<f/>", b"<g/>", b"<h/>",
    ];
    let (server, client, dropped) = runs(&rt, rt.alloc(), CONNECTIONS, &lines, true)?;
    assert_eq!(rt; server.0, DONE);
    assert_eq!(rt; client.0, DONE);
    assert_eq!(rt;
        client.1.as_slice(),
        b"<stream:features/>\n<a/>\n<b/>\n<c/>\n<d/>\n<e/>\n<f/>\n<g/>\n<h/>\n".as_slice()
    );
    assert!(rt; dropped > 1);
    Ok(())
}

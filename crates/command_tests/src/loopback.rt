// The command `serve` over the real network.
ghost use Rattle.std.specs.Thread.{IsSync};

use bosh_commands::{DONE, run_serve_command};
use bosh_ports::{Got, Link, MemorySink, QuietSource, RealBell, send_all};
use bosh_server::{Outside, Roll};
use bosh_types::{Moment, Rid, Stanzas, Text};
use connection_loops::ReadyPollers;
use front_net::FrontNetwork;
use server_ports::{Dialled, GivenNames, Network, StillClock, TcpNetwork, ThreadSpawner};
use server_watch::Watch;
use session_pump::Host;
use std::alloc::{AllocError, Global};
use std::io::Eprint;
use std::net::{Ipv4Addr, Net, SocketAddr, TcpListener, TcpStream};
use std::rt::Clock;
use std::sync::Wait;
use std::test::Fail;
use std::thread::{Threads, join, sleep};
use std::time::Duration;
use xmpp_backend::{Echo, InMemory};

const CREATION: &[u8] =
    b"POST /http-bind HTTP/1.1\r\nHost: localhost\r\nConnection: close\r\nContent-Length: 108\r\n\r\n<body rid='1000' to='example.org' wait='60' hold='1' ver='1.6' xmlns='http://jabber.org/protocol/httpbind'/>";

const ANSWERED: &[u8] =
    b" sid='s1' wait='60' requests='2' inactivity='30' polling='5' maxpause='120' hold='1' ver='1.6' from='example.org' stream='t0' ack='1000' xmpp:version='1.0' xmpp:restartlogic='true'/>";

// The host `example.org`, which greets nobody.
pub(crate) fn echo_host(alloc: Global) -> Result<Host<InMemory>, AllocError> {
    Ok(Host {
        name: Text::from_vec(b"example.org".to_vec(alloc)?),
        greeting: Stanzas::from_vec(Vec::new(alloc)),
        end: InMemory::Echo(Echo::new(alloc)),
        spares: Vec::new(alloc),
    })
}

// Serves one connection at this port. The status, where there was memory to begin.
fn serve_once<R>(rt: &R, alloc: Global, port: u16) -> Result<u8, AllocError>
where
    R: Wait
        + Threads
        + Clock
        + Eprint
        + Net<Listener = TcpListener, Stream = TcpStream>
        + Copy
        + Send
        + Drop
        + 'static,
{
    let line = format!(in alloc; "serve --port {port} --connections 1")?;
    let hosts = vec![in alloc; echo_host(alloc)?]?;
    let clock = StillClock {
        moment: Moment::from_millis(0),
    };
    serve_by(rt, alloc, line.as_str(), clock, hosts)
}

/// Serves these hosts over loopback as the words of a line say. The status, where there was memory to begin.
pub(crate) fn serve_by<R, C>(
    rt: &R,
    alloc: Global,
    line: &str,
    clock: C,
    hosts: Vec<Host<InMemory>>,
) -> Result<u8, AllocError>
where
    R: Wait
        + Threads
        + Clock
        + Eprint
        + Net<Listener = TcpListener, Stream = TcpStream>
        + Copy
        + Send
        + Drop
        + 'static,
    C: server_ports::Clock + Send + Drop + 'static,
{
    let Some(first) = Rid::new(1000) else {
        return Err(AllocError);
    };
    let mut words = Vec::new(alloc);
    for word in line.split(' ') {
        words.push(String::from_str(alloc, word)?)?;
    }
    let bell = RealBell::new(alloc, *rt)?;
    let mut input = QuietSource::new(Vec::new(alloc));
    let mut written = MemorySink::new(alloc, Vec::new(alloc));
    let mut errors = MemorySink::new(alloc, Vec::new(alloc));
    let mut outside = Outside {
        net: FrontNetwork::new(*rt, alloc),
        room: 65_536,
        clock,
        bell,
        spawner: ThreadSpawner::new(alloc),
        names: GivenNames::new(alloc, b"s", first),
        pollers: ReadyPollers { rt: *rt, alloc },
        watch: Watch::off(),
        restored: None,
        keeper: None,
        roll: Roll::new(),
        pump: None,
    };
    let status = run_serve_command(
        rt,
        alloc,
        &words,
        &mut input,
        &mut written,
        &mut errors,
        &mut outside,
        hosts,
    );
    let Outside {
        net: _net,
        room: _room,
        clock: _clock,
        bell: _bell,
        spawner,
        names: _names,
        pollers: _pollers,
        watch: _watch,
        restored: _restored,
        keeper: _keeper,
        roll: _roll,
        pump: _pump,
    } = outside;
    spawner.join_all(rt);
    Ok(status)
}

// What is answered to a creation, once the port takes connections.
fn create<R>(rt: &R, alloc: Global, port: u16) -> Result<Vec<u8>, AllocError>
where
    R: Wait + Clock + Net<Listener = TcpListener, Stream = TcpStream> + Copy + Drop,
{
    let mut net = TcpNetwork::new(*rt);
    let mut answer = Vec::new(alloc);
    for _ in 0..1000 {
        let Dialled::Link(mut link) = net.dial(port) else {
            sleep(rt, Duration::from_millis(1));
            continue;
        };
        let _ = send_all(&mut link, CREATION);
        let mut room = [0u8; 1024];
        for _ in 0..100 {
            let Got::Bytes(count) = link.take(&mut room) else {
                break;
            };
            answer.extend_from_slice(&room[..count])?;
        }
        net.retire(link);
        break;
    }
    Ok(answer)
}

// Both beside each other.
fn both<R>(
    rt: &R,
    alloc: Global,
    port: u16,
) -> (Result<u8, AllocError>, Result<Vec<u8>, AllocError>)
where
    R: Wait
        + Threads
        + Clock
        + Eprint
        + Net<Listener = TcpListener, Stream = TcpStream>
        + Copy
        + Send
        + Sync
        + Drop
        + 'static,
{
    join(
        rt,
        || -> Result<u8, AllocError>
            requires { IsSync R.row }
        { serve_once(rt, alloc, port) },
        || -> Result<Vec<u8>, AllocError>
            requires { IsSync R.row }
        { create(rt, alloc, port) },
    )
}

#[test]
fn a_creation_is_served_over_loopback(rt: HostRuntime) -> Result<(), Fail> {
    let any = TcpListener::bind(&rt, SocketAddr::from((Ipv4Addr::LOCALHOST, 0)))?;
    let port = any.local_addr()?.port();
    drop(any);
    let (status, answer) = both(&rt, rt.alloc(), port);
    assert_eq!(rt; status?, DONE);
    assert!(rt; answer?.ends_with(ANSWERED));
    Ok(())
}

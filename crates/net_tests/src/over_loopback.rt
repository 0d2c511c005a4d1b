use bosh_ports::{Bell, BellKey, RealBell};
use bosh_types::{Closing, Inward, Moment, SharedText, StreamNo, Text, Wire};
use server_ports::{Clock as Moments, RealClock};
use std::alloc::{AllocError, Global};
use std::io::{Read, Write};
use std::net::{Ipv4Addr, Net, SocketAddr, TcpListener, TcpStream};
use std::rt::Clock;
use std::sync::Wait;
use std::test::Fail;
use std::thread::{Threads, sleep, spawn};
use std::time::Duration;
use stream_backend::StreamBackend;
use stream_net::{Desks, OpenNetwork, ReadyWatch};
use xmpp_backend::{Backend, Polled};

type Server<R> = StreamBackend<OpenNetwork<R>, ReadyWatch<R>, RealClock<R>>;

const HEADER: &[u8] =
    b"<?xml version='1.0'?><stream:stream to='a.example' version='1.0' xmlns='jabber:client' xmlns:stream='http://etherx.jabber.org/streams'>";

const GREETING: &[u8] = b"<?xml version='1.0'?><stream:stream version='1.0'><stream:features/>";

fn wire() -> Wire {
    Wire::new(1, StreamNo::unnamed())
}

// Takes one connection, greets it late, once nobody looks any more, and reads it to its end. What it read.
fn greet_late<R>(rt: &R, alloc: Global, listener: &TcpListener) -> Result<Vec<u8>, AllocError>
where
    R: Wait + Clock,
{
    let mut read = Vec::new(alloc);
    let Ok((mut stream, _)) = listener.accept() else {
        return Ok(read);
    };
    let mut room = [0u8; 1024];
    for _ in rt.forever() {
        if read.as_slice() == HEADER {
            sleep(rt, Duration::from_millis(100));
            let _ = stream.write(GREETING);
        }
        match stream.read(&mut room) {
            Ok(0) | Err(_) => return Ok(read),
            Ok(count) => read.extend_from_slice(&room[..count.min(1024)])?,
        }
    }
    Ok(read)
}

// The next thing that the server gave. Who waits for it is woken, or hears of nothing for ten seconds.
fn next<R>(rt: &R, server: &mut Server<R>, clock: &RealClock<R>, bell: &mut RealBell<R>) -> Polled
where
    R: Wait + Clock + Net<Listener = TcpListener, Stream = TcpStream> + Copy + Drop,
{
    let now = clock.now().millis();
    let until = Moment::from_millis(now.saturating_add(10_000));
    for _ in rt.forever() {
        bell.tune(BellKey::PUMP);
        match server.poll() {
            Polled::Nothing if clock.now() < until => {
                let _ = bell.wait_until(clock.now(), Some(until));
            }
            polled => return polled,
        }
    }
    Polled::Nothing
}

#[test]
fn news_of_a_server_wakes_who_waits(rt: HostRuntime) -> Result<(), Fail> {
    let listener = TcpListener::bind(&rt, SocketAddr::from((Ipv4Addr::LOCALHOST, 0)))?;
    let port = listener.local_addr()?.port();
    let alloc = rt.alloc();
    let clock = RealClock::new(rt);
    let mut bell = RealBell::new(alloc, rt)?;
    let mut desks = Desks::new(&rt, alloc)?;
    let watch = desks.watch(rt)?;
    let mut server = StreamBackend::new(
        alloc,
        OpenNetwork::new(rt),
        port,
        watch,
        RealClock::new(rt),
    );
    let stop = desks.stopper()?;
    let mut own = bell.share()?;
    let teller = spawn(&rt, move || desks.tell_news(&rt, &mut own))?;
    let peer = spawn(&rt, move || greet_late(&rt, alloc, &listener))?;

    let auth = SharedText::new(alloc, Text::from_vec(b"<auth/>".to_vec(alloc)?))?;
    server.open(wire(), b"a.example");
    let began = clock.now().millis();
    let first = next(&rt, &mut server, &clock, &mut bell);
    let waited = clock.now().millis().saturating_sub(began);
    server.pass(wire(), &Inward::Item(StreamNo::unnamed(), auth));
    server.close(wire());
    let last = server.poll();
    let read = peer.join(&rt)?;
    stop.wake()?;
    teller.join(&rt)?;
    let whole = [HEADER, b"<auth/></stream:stream>"].concat(alloc)?;
    assert!(rt; is_features(&first) && waited < 5_000 && is_nothing(&last));
    assert_eq!(rt; read.as_slice(), whole.as_slice());
    Ok(())
}

fn is_features(polled: &Polled) -> bool {
    match polled {
        Polled::Out(_, stanza) => stanza.as_slice() == b"<stream:features/>".as_slice(),
        _ => false,
    }
}

fn is_nothing(polled: &Polled) -> bool {
    match polled {
        Polled::Nothing => true,
        _ => false,
    }
}

#[test]
fn nobody_listens(rt: HostRuntime) -> Result<(), Fail> {
    let listener = TcpListener::bind(&rt, SocketAddr::from((Ipv4Addr::LOCALHOST, 0)))?;
    let port = listener.local_addr()?.port();
    drop(listener);
    let alloc = rt.alloc();
    let mut desks = Desks::new(&rt, alloc)?;
    let watch = desks.watch(rt)?;
    let mut server = StreamBackend::new(
        alloc,
        OpenNetwork::new(rt),
        port,
        watch,
        RealClock::new(rt),
    );
    server.open(wire(), b"a.example");
    let first = server.poll();
    let second = server.poll();
    assert!(rt; is_failed(&first) && is_nothing(&second));
    Ok(())
}

fn is_failed(polled: &Polled) -> bool {
    match polled {
        Polled::Closed(_, Closing::RemoteConnectionFailed) => true,
        _ => false,
    }
}

use crate::asking::{Seen, await_end, await_take, give, give_much, take};
use bosh_ports::{Link, Polled};
use front_net::{FrontLink, FrontNetwork};
use server_ports::{Accepted, Dialled, Network};
use std::alloc::{AllocError, Global};
use std::io::Eprint;
use std::net::{Ipv4Addr, Net, SocketAddr, TcpListener, TcpStream};
use std::rt::Clock;
use std::sync::Wait;
use std::test::Fail;
use std::thread::{sleep, spawn};
use std::time::Duration;

/// More than a short backlog holds.
const BURST: usize = 300;

/// Two ends of one connection.
#[derive(Drop)]
struct Ends {
    near: FrontLink,
    far: FrontLink,
}

/// A port that nobody listens at.
pub fn free_port<R>(rt: &R) -> u16
where
    R: Net<Listener = TcpListener, Stream = TcpStream>,
{
    let address = SocketAddr::from((Ipv4Addr::LOCALHOST, 0));
    match TcpListener::bind(rt, address) {
        Ok(listener) => match listener.local_addr() {
            Ok(address) => address.port(),
            Err(_) => 0,
        },
        Err(_) => 0,
    }
}

// Connects to this port so often, before any of these is accepted, and then accepts them. How many ends there are.
fn accept_burst<R>(rt: R, alloc: Global, port: u16) -> Result<usize, AllocError>
where
    R: Wait + Clock + Eprint + Net<Listener = TcpListener, Stream = TcpStream> + Copy + Drop,
{
    let mut net = FrontNetwork::new(rt, alloc);
    let mut links = Vec::new(alloc);
    let _ = net.listen(port);
    for _ in 0..BURST {
        if let Dialled::Link(link) = net.dial(port) {
            links.push(link)?;
        }
    }
    let dialled = links.len();
    for _ in 0..dialled {
        if let Accepted::Link(link) = net.accept() {
            links.push(link)?;
        }
    }
    Ok(links.len())
}

// A connection that was dialled and accepted.
fn connect<R>(rt: R, alloc: Global, port: u16) -> Option<Ends>
where
    R: Wait + Clock + Eprint + Net<Listener = TcpListener, Stream = TcpStream> + Copy + Drop,
{
    let mut net = FrontNetwork::new(rt, alloc);
    let _ = net.listen(port);
    let Dialled::Link(far) = net.dial(port) else {
        return None;
    };
    match net.accept() {
        Accepted::Link(near) => Some(Ends { near, far }),
        _ => None,
    }
}

// Gives some bytes late and in pieces.
fn give_late<R: Clock>(rt: &R, link: FrontLink) -> FrontLink {
    let mut link = link;
    for piece in [b"ab", b"cd"] {
        sleep(rt, Duration::from_millis(50));
        let _ = give(&mut link, piece);
    }
    link
}

#[test]
fn a_burst_is_accepted(rt: HostRuntime) -> Result<(), Fail> {
    let had = accept_burst(rt, rt.alloc(), free_port(&rt))?;
    assert_eq!(rt; had, 2 * BURST);
    Ok(())
}

#[test]
fn a_link_says_what_there_is(rt: HostRuntime) -> Result<(), Fail> {
    let Ends { near, far } = connect(rt, rt.alloc(), free_port(&rt)).ok_or("no connection")?;
    let mut near = near;
    let before = take(&mut near);
    let giver = spawn(&rt, move || give_late(&rt, far))?;
    let first = await_take(&rt, &mut near);
    let second = await_take(&rt, &mut near);
    let mut far = giver.join(&rt);
    let full = give_much(&mut near);
    let still_full = give(&mut near, b"ef");
    Link::close(&mut near);
    let end = await_end(&rt, &mut far);
    let seen = [
        before,
        first,
        second,
        full,
        still_full,
        end,
        take(&mut near),
        give(&mut near, b"gh"),
    ];
    let wanted = [
        Seen::Nothing,
        Seen::Moved(2),
        Seen::Moved(2),
        Seen::Nothing,
        Seen::Nothing,
        Seen::End,
        Seen::End,
        Seen::Failed,
    ];
    assert_eq!(rt; seen, wanted);
    Ok(())
}

// Whether the peer is said to have left, within two seconds.
fn await_leaving<R: Clock>(rt: &R, link: &mut FrontLink) -> bool {
    for _ in 0..200 {
        if link.has_left() {
            return true;
        }
        sleep(rt, Duration::from_millis(10));
    }
    false
}

// Bytes that came before are no leaving, and hide one until they are taken. No question takes any.
#[test]
fn a_peer_has_left_once_nothing_is_left(rt: HostRuntime) -> Result<(), Fail> {
    let Ends { near, far } = connect(rt, rt.alloc(), free_port(&rt)).ok_or("no connection")?;
    let (mut near, mut far) = (near, far);
    let at_first = near.has_left();
    let gave = give(&mut far, b"ab");
    sleep(&rt, Duration::from_millis(50));
    let with_bytes = near.has_left();
    Link::close(&mut far);
    sleep(&rt, Duration::from_millis(50));
    let behind_bytes = near.has_left();
    let took = await_take(&rt, &mut near);
    let then = await_leaving(&rt, &mut near);
    assert_eq!(rt;
        [at_first, with_bytes, behind_bytes, then],
        [false, false, false, true]
    );
    assert_eq!(rt; [gave, took], [Seen::Moved(2), Seen::Moved(2)]);
    Ok(())
}

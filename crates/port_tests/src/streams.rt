use bosh_ports::{
    Bell, BellKey, Fed, Feed, Gave, Got, KeptContent, Link, ListedBell, MemoryLink, MemorySink,
    MemorySource, RealBell, Sink, Source, TcpLink, Woken, WriteFault, send_all, tcp_link,
};
use std::io;
use std::net::{Ipv4Addr, Net, SocketAddr, TcpListener, TcpStream};
use std::process::Abort;
use std::test::Fail;
use std::time::{Duration, Instant};

#[test]
fn a_listed_bell_is_silent_where_it_is_told(rt: HostRuntime) -> Result<(), Fail> {
    let silent = vec![in rt.alloc(); 2, 3]?;
    let mut bell = ListedBell::new(rt.alloc(), silent);
    let mut share = bell.share()?;
    for expected in [Woken::Rung, Woken::Silent, Woken::Silent, Woken::Rung] {
        bell.ring(BellKey::PUMP);
        assert_eq!(rt; bell.wait(), expected);
        assert_eq!(rt; share.wait(), expected);
    }
    Ok(())
}

#[test]
fn a_ring_wakes_its_key_alone(rt: HostRuntime) -> Result<(), Fail> {
    let mut ringer = RealBell::new(rt.alloc(), rt)?;
    let mut pump = ringer.share()?;
    let mut worker = ringer.share()?;
    worker.tune(BellKey(1));

    // Rings that are heard keep nobody waiting, and one for others is not heard for all of 100 milliseconds.
    let start = Instant::now(&rt)?;
    for _ in 0..20 {
        ringer.ring(BellKey(1));
        ringer.ring(BellKey::PUMP);
        assert_eq!(rt; worker.wait(), Woken::Rung);
        assert_eq!(rt; pump.wait(), Woken::Rung);
    }
    assert!(rt; start.elapsed(&rt)? < Duration::from_millis(1500));
    for key in [BellKey(2), BellKey::PUMP] {
        let start = Instant::now(&rt)?;
        ringer.ring(key);
        assert_eq!(rt; worker.wait(), Woken::Rung);
        assert!(rt; start.elapsed(&rt)? >= Duration::from_millis(99));
    }
    Ok(())
}

// Takes until the end or a fault, at most as many times as the room has bytes: how many bytes came.
fn take_all<L: Link>(link: &mut L, room: &mut [u8]) -> usize {
    let mut taken = 0usize;
    for _ in 0..room.len() {
        if taken >= room.len() {
            break;
        }
        match link.take(&mut room[taken..]) {
            Got::Bytes(n) => taken = taken.saturating_add(n),
            Got::End | Got::Failed => break,
        }
    }
    taken
}

// The two ends of one connection, each of which waits for a second at most.
fn connected<N>(rt: &N) -> io::Result<(TcpLink, TcpLink)>
where
    N: Net<Listener = TcpListener, Stream = TcpStream>,
{
    let listener = TcpListener::bind(rt, SocketAddr::from((Ipv4Addr::LOCALHOST, 0)))?;
    let near = TcpStream::connect(rt, listener.local_addr()?)?;
    let (far, _) = listener.accept()?;
    near.set_read_timeout(Some(Duration::from_secs(1)))?;
    far.set_read_timeout(Some(Duration::from_secs(1)))?;
    Ok((tcp_link(near)?, tcp_link(far)?))
}

#[test]
fn bytes_cross_a_connection(rt: HostRuntime) -> Result<(), Fail> {
    let (mut near, mut far) = connected(&rt)?;
    let mut room = [0u8; 8];
    assert!(rt; send_all(&mut near, b"ping").is_ok());
    near.close();
    assert_eq!(rt; take_all(&mut far, &mut room), 4);
    assert_eq!(rt; &room[..4], b"ping".as_slice());
    assert_eq!(rt; far.take(&mut room), Got::End);
    assert_eq!(rt; near.give(b"more"), Gave::Failed);
    assert_eq!(rt; (near.faults, far.faults), (1, 0));
    Ok(())
}

#[test]
fn a_link_in_memory_keeps_its_sizes_and_its_list(rt: HostRuntime) -> Result<(), Fail> {
    let alloc = rt.alloc();
    let source = MemorySource::new(Vec::from_slice(alloc, b"abcdefgh")?, vec![in alloc; 3]?);
    let sink = MemorySink::new(alloc, vec![in alloc; 2]?);
    let mut link = MemoryLink::new(source, sink, vec![in alloc; 2, 0, 3]?);
    let mut room = [0u8; 8];
    for expected in [
        Got::Bytes(2),
        Got::Bytes(1),
        Got::Failed,
        Got::Bytes(5),
        Got::End,
    ] {
        assert_eq!(rt; link.take(&mut room), expected);
    }
    assert_eq!(rt; &room[..5], b"defgh".as_slice());
    assert!(rt; send_all(&mut link, b"xy").is_ok());
    assert_eq!(rt; send_all(&mut link, b"z"), Err(WriteFault));
    assert_eq!(rt; link.as_slice(), b"xy".as_slice());
    link.close();
    assert!(rt; link.is_closed());
    Ok(())
}

#[test]
fn a_feed_that_keeps_begins_anew(rt: HostRuntime) -> Result<(), Fail> {
    let mut kept = KeptContent::new(rt.alloc());
    assert_eq!(rt; kept.piece(b"<body"), Fed::Done);
    kept.begin();
    assert_eq!(rt; kept.piece(b"<bo"), Fed::Done);
    assert_eq!(rt; kept.piece(b"dy/>"), Fed::Done);
    assert!(rt; kept.into_vec().as_slice() == b"<body/>".as_slice());
    Ok(())
}

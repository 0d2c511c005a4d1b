use bosh_ports::{Gave, Got, Link, send_all};
use bosh_types::{Moment, Rid};
use server_ports::{
    Accepted, Clock, Dialled, GivenNames, Job, Leave, Limits, LinkPlan, ListedSpawner,
    MemoryNetwork, Names, NetLink, Network, Opened, Past, RealClock, RealNames, Shared, Started,
    SteadySpawner, TcpNetwork, ThreadSpawner, start, system_seed, timed,
};
use std::alloc::{AllocError, Global};
use std::io;
use std::net::{Ipv4Addr, Net, SocketAddr, TcpListener, TcpStream};
use std::process::Abort;
use std::sync::Arc;
use std::sync::atomic::{AtomicU64, Ordering};
use std::test::Fail;

#[test]
fn a_clock_does_not_go_back(rt: HostRuntime) {
    let clock = RealClock::new(rt);
    let share = clock.share();
    let mut last = clock.now();
    // A day in 2020.
    assert!(rt; last > Moment::from_millis(1_577_836_800_000));
    for _ in 0..1000 {
        let now = share.now();
        assert!(rt; last <= now);
        last = now;
    }
}

#[test]
fn names_are_drawn(rt: HostRuntime) -> Result<(), Fail> {
    let mut names = RealNames::new(rt.alloc(), system_seed(&rt)?);
    let mut share = names.share();
    let first = names.name()?;
    let second = names.name()?;
    let third = share.name()?;
    for name in [&first, &second, &third] {
        assert_eq!(rt; name.len(), 17);
    }
    assert!(rt; first.as_slice() != second.as_slice());
    assert!(rt; first.as_slice() != third.as_slice());
    assert!(rt; names.first_rid().value() <= 1 << 32);
    let first = Rid::new(1000).expect(&rt, "an id");
    let mut given = GivenNames::new(rt.alloc(), b"s", first);
    assert_eq!(rt; given.share().name()?.as_slice(), b"s".as_slice());
    Ok(())
}

// Adds one for each run.
#[derive(Drop)]
struct Counting {
    runs: Arc<AtomicU64, Global>,
}

impl Job for Counting {
    fn run(self, _leave: Leave) {
        self.runs.fetch_add(1, Ordering::SeqCst);
    }
}

fn make_counting(runs: &Arc<AtomicU64, Global>) -> Result<Counting, AllocError> {
    Ok(Counting {
        runs: Arc::try_clone(runs)?,
    })
}

#[test]
fn a_refused_job_is_dropped(rt: HostRuntime) -> Result<(), Fail> {
    let alloc = rt.alloc();
    let runs = Arc::new(alloc, AtomicU64::new(0))?;
    let first = make_counting(&runs)?;
    let second = make_counting(&runs)?;
    let third = make_counting(&runs)?;
    let fourth = make_counting(&runs)?;
    let refused = vec![in alloc; 2]?;
    let mut spawner = ListedSpawner::new(ThreadSpawner::new(alloc), refused);
    let started = [
        start(&rt, &mut spawner, first),
        start(&rt, &mut spawner, second),
        start(&rt, &mut spawner, third),
    ];
    spawner.into_inner().join_all(&rt);
    let expected = [Started::Running, Started::Refused, Started::Running];
    assert_eq!(rt; started, expected);
    assert_eq!(rt; runs.load(Ordering::SeqCst), 2);
    let started = start(&rt, &mut SteadySpawner { leaves: 0 }, fourth);
    assert_eq!(rt; started, Started::Running);
    assert_eq!(rt; runs.load(Ordering::SeqCst), 3);
    Ok(())
}

#[test]
fn a_planned_network_gives_its_links_and_fails_where_it_is_told(
    rt: HostRuntime,
) -> Result<(), Fail> {
    let alloc = rt.alloc();
    let plan = LinkPlan::new(alloc, Vec::from_slice(alloc, b"ping")?);
    let failing = LinkPlan {
        bytes: Vec::new(alloc),
        pieces: Vec::new(alloc),
        failing_takes: vec![in alloc; 1]?,
        failing_gives: Vec::new(alloc),
    };
    let plans = vec![in alloc; plan, failing]?;
    let mut network = MemoryNetwork::new(alloc, plans, vec![in alloc; 3]?);
    assert_eq!(rt; network.listen(80), Opened::Ready);
    let Dialled::Link(mut link) = network.dial(80) else {
        return Err(Fail::new("no link"));
    };
    assert!(rt; matches!(network.dial(80), Dialled::Failed));
    let mut room = [0u8; 8];
    assert_eq!(rt; link.take(&mut room), Got::Bytes(4));
    assert!(rt; send_all(&mut link, b"pong").is_ok());
    network.retire(link);
    let Some([Past::Began(dialled, stream), Past::Retired(link)]) = network.past() else {
        return Err(Fail::new("the network doesn't tell what its link carried"));
    };
    assert_eq!(rt; *dialled, Some(80));
    assert_eq!(rt; stream.as_slice(), b"ping".as_slice());
    assert_eq!(rt; link.link.as_slice(), b"pong".as_slice());
    let Accepted::Link(mut link) = network.accept() else {
        return Err(Fail::new("no link"));
    };
    assert_eq!(rt; link.take(&mut room), Got::Failed);
    network.retire(link);
    assert!(rt; matches!(network.accept(), Accepted::Stopped));
    assert!(rt; matches!(network.dial(80), Dialled::Failed));
    Ok(())
}

// A network that listens at a free port, and the port. The system is asked for one, which is free again when it is told.
pub(crate) fn listening<N>(rt: &N) -> Result<(TcpNetwork<N>, u16), Fail>
where
    N: Net<Listener = TcpListener, Stream = TcpStream> + Copy + Drop,
{
    let any = TcpListener::bind(rt, SocketAddr::from((Ipv4Addr::LOCALHOST, 0)))?;
    let port = any.local_addr()?.port();
    drop(any);
    let mut network = TcpNetwork::new(*rt);
    match network.listen(port) {
        Opened::Ready => Ok((network, port)),
        Opened::Failed => Err(Fail::new("the port was taken")),
    }
}

#[test]
fn links_cross_the_loopback(rt: HostRuntime) -> Result<(), Fail> {
    let (mut network, port) = listening(&rt)?;
    let Shared::Net(mut share) = network.share() else {
        return Err(Fail::new("no share"));
    };
    let Dialled::Link(mut near) = share.dial(port) else {
        return Err(Fail::new("no link"));
    };
    let Accepted::Link(mut far) = network.accept() else {
        return Err(Fail::new("no link"));
    };
    assert!(rt; near.reader.nodelay()?);
    assert!(rt; far.reader.nodelay()?);
    let mut room = [0u8; 8];
    assert!(rt; send_all(&mut near, b"ping").is_ok());
    assert_eq!(rt; far.take(&mut room), Got::Bytes(4));
    assert_eq!(rt; &room[..4], b"ping".as_slice());
    assert!(rt; send_all(&mut far, b"pong").is_ok());
    assert_eq!(rt; near.take(&mut room), Got::Bytes(4));
    share.retire(near);
    assert_eq!(rt; far.take(&mut room), Got::End);
    network.retire(far);
    assert!(rt; matches!(share.listen(port), Opened::Failed));
    network.back(share);
    Ok(())
}

// The two ends of one connection, of which the second waits no longer than this.
pub(crate) fn connected<N>(rt: &N, limits: Limits) -> io::Result<(NetLink, NetLink)>
where
    N: Net<Listener = TcpListener, Stream = TcpStream>,
{
    let listener = TcpListener::bind(rt, SocketAddr::from((Ipv4Addr::LOCALHOST, 0)))?;
    let near = TcpStream::connect(rt, listener.local_addr()?)?;
    let (far, _) = listener.accept()?;
    Ok((timed(near, Limits::DIALLED)?, timed(far, limits)?))
}

#[test]
fn a_link_does_not_wait_for_ever(rt: HostRuntime) -> Result<(), Fail> {
    let short = Limits {
        before: 20,
        ends: true,
        within: 40,
    };
    let mut room = [0u8; 4];

    // Idle between messages is the end, and silence within one a fault.
    let (mut near, mut far) = connected(&rt, short)?;
    assert_eq!(rt; far.take(&mut room), Got::End);
    assert!(rt; send_all(&mut near, b"p").is_ok());
    assert_eq!(rt; far.take(&mut room), Got::Bytes(1));
    assert_eq!(rt; far.take(&mut room), Got::Failed);
    assert!(rt; send_all(&mut far, b"q").is_ok());
    assert_eq!(rt; far.take(&mut room), Got::End);
    assert_eq!(rt; far.faults, 1);

    // An answer that doesn't come is a fault, and so is an answer that isn't taken.
    let waiting = Limits {
        ends: false,
        ..short
    };
    let (_near, mut far) = connected(&rt, waiting)?;
    assert_eq!(rt; far.take(&mut room), Got::Failed);
    let bytes = vec![in rt.alloc(); 0u8; 1 << 20]?;
    let mut is_failed = false;
    for _ in 0..64 {
        if far.give(&bytes) == Gave::Failed {
            is_failed = true;
            break;
        }
    }
    assert!(rt; is_failed);
    assert_eq!(rt; far.faults, 2);
    Ok(())
}

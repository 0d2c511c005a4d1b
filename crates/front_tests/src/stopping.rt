use crate::asking::{Seen, await_take, give, take};
use crate::links::free_port;
use mio::unix::SourceFd;
use mio::{Events, Interest, Poll, Token};
use server_ports::{Accepted, Network};
use std::alloc::Global;
use std::io;
use std::io::{Eprint, ErrorKind, Read, Write};
use std::net::{Ipv4Addr, Net, Shutdown, SocketAddr, TcpListener, TcpStream};
use std::os::fd::AsRawFd;
use std::rt::Clock;
use std::sync::{Arc, Wait};
use std::test::Fail;
use std::thread::{Threads, spawn};
use std::time::{Duration, Instant};
use stop_net::{StoppableLink, StoppableNetwork, Stopper, stop_apart};

const HALF_A_HEAD: &[u8] = b"POST / HTTP/1.1\r\nA: b";

const HEAD: &[u8] = b"A: b\r\n\r\n";

/// A network that stops where its input ends, which this connection holds open.
#[derive(Drop)]
struct Held<R>
where
    R: Wait + Clock + Eprint + Net<Listener = TcpListener, Stream = TcpStream> + Copy + Drop,
{
    net: StoppableNetwork<R>,
    holder: TcpStream,
}

// It listens at this port.
fn hold<R>(rt: R, alloc: Global, port: u16) -> io::Result<Held<R>>
where
    R: Wait
        + Threads
        + Clock
        + Eprint
        + Net<Listener = TcpListener, Stream = TcpStream>
        + Copy
        + Send
        + Drop
        + 'static,
{
    let any = TcpListener::bind(&rt, SocketAddr::from((Ipv4Addr::LOCALHOST, 0)))?;
    let holder = TcpStream::connect(&rt, any.local_addr()?)?;
    let (input, _) = any.accept()?;
    let stopper = Stopper::new(alloc)?;
    stop_apart(&rt, input, Arc::try_clone(&stopper)?)?;
    let mut net = StoppableNetwork::new(rt, alloc, stopper);
    let _ = net.listen(port);
    Ok(Held { net, holder })
}

/// A connection to a server, at its client and here.
#[derive(Drop)]
struct Asked<R: Wait + Copy + Drop> {
    client: TcpStream,
    link: StoppableLink<R>,
}

// A connection on which these bytes came.
fn ask<R>(rt: &R, net: &mut StoppableNetwork<R>, port: u16, bytes: &[u8]) -> io::Result<Asked<R>>
where
    R: Wait + Clock + Eprint + Net<Listener = TcpListener, Stream = TcpStream> + Copy + Drop,
{
    let address = SocketAddr::from((Ipv4Addr::LOCALHOST, port));
    let mut client = TcpStream::connect(rt, address)?;
    client.write_all(bytes)?;
    match net.accept() {
        Accepted::Link(link) => Ok(Asked { client, link }),
        _ => Err(io::Error::from(ErrorKind::Other)),
    }
}

/// What the system tells of one link.
#[derive(Drop)]
struct News {
    poll: Poll,
    events: Events,
}

impl News {
    fn of<R, S>(rt: &R, alloc: Global, link: &S) -> io::Result<News>
    where
        R: Net,
        S: AsRawFd,
    {
        let poll = Poll::new(rt)?;
        let events = Events::with_capacity(alloc, 8)?;
        let fd = link.as_raw_fd();
        let both = Interest::READABLE | Interest::WRITABLE;
        poll.registry()
            .register(&mut SourceFd(&fd), Token(7), both)?;
        Ok(News { poll, events })
    }

    // Whether something is told within five seconds.
    fn came(&mut self) -> io::Result<bool> {
        self.poll
            .poll(&mut self.events, Some(Duration::from_secs(5)))?;
        Ok(self.events.iter().any(|event| event.token() == Token(7)))
    }
}

/// What became of a connection that wasn't answered.
#[derive(Drop)]
struct Cut {
    waited: Duration,
    read: usize,
    answers: [Seen; 2],
}

// Waits for the end of a connection at its client.
fn await_cut<R: Wait + Clock + Copy + Drop>(rt: &R, asked: Asked<R>) -> io::Result<Cut> {
    let mut asked = asked;
    let began = Instant::now(rt)?;
    let read = asked.client.read(&mut [0u8; 8])?;
    let waited = began.elapsed(rt)?;
    let answers = [take(&mut asked.link), give(&mut asked.link, b"ab")];
    Ok(Cut {
        waited,
        read,
        answers,
    })
}

#[test]
fn a_stop_fails_what_is_not_asked(rt: HostRuntime) -> Result<(), Fail> {
    let port = free_port(&rt);
    let Held { net, holder } = hold(rt, rt.alloc(), port)?;
    let mut net = net;
    let mut idle = ask(&rt, &mut net, port, b"")?;
    let mut half = ask(&rt, &mut net, port, HALF_A_HEAD)?;
    let mut asked = ask(&rt, &mut net, port, HEAD)?;
    let mut slow = ask(&rt, &mut net, port, HEAD)?;
    let mut news = News::of(&rt, rt.alloc(), &idle.link)?;
    let was_told = news.came()?;
    let before = [
        take(&mut idle.link),
        await_take(&rt, &mut half.link),
        await_take(&rt, &mut asked.link),
        await_take(&rt, &mut slow.link),
    ];
    let _ = holder.shutdown(Shutdown::Both);
    let stopped = matches!(net.accept(), Accepted::Stopped);
    let is_told = news.came()?;
    let after = [
        take(&mut idle.link),
        take(&mut half.link),
        take(&mut asked.link),
        give(&mut asked.link, b"ab"),
        take(&mut asked.link),
        take(&mut slow.link),
    ];
    let cut = spawn(&rt, move || await_cut(&rt, slow))?;
    let cut = cut.join(&rt)?;
    assert!(rt; was_told && stopped && is_told && cut.read == 0);
    assert!(rt; cut.waited > Duration::from_millis(300));
    let wanted = [
        Seen::Nothing,
        Seen::Moved(8),
        Seen::Moved(8),
        Seen::Moved(8),
    ];
    assert_eq!(rt; before, wanted);
    let wanted = [
        Seen::Failed,
        Seen::Failed,
        Seen::Nothing,
        Seen::Moved(2),
        Seen::Failed,
        Seen::Nothing,
    ];
    assert_eq!(rt; after, wanted);
    assert_eq!(rt; cut.answers, [Seen::End, Seen::Failed]);
    Ok(())
}

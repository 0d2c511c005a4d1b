// A server that ends where its input does, over loopback. Its input is a connection of its own, which the client closes.
ghost use Rattle.std.specs.Thread.{IsSync};

use crate::loopback::echo_host;
use crate::room::enter;
use bosh_commands::{DONE, run_serve_command};
use bosh_ports::{MemorySink, RealBell};
use bosh_server::{Outside, Roll};
use bosh_types::Rid;
use connection_loops::ReadyPollers;
use server_ports::{GivenNames, RealClock, TcpNetwork, ThreadSpawner};
use server_watch::Watch;
use std::alloc::{AllocError, Global};
use std::io::Eprint;
use std::net::{Ipv4Addr, Net, Shutdown, SocketAddr, TcpListener, TcpStream};
use std::rt::Clock;
use std::sync::{Arc, Wait};
use std::test::Fail;
use std::thread::{Threads, join, sleep};
use std::time::{Duration, Instant};
use stop_net::{EndOfInput, StoppableNetwork, Stopper, stop_apart};

const SHUT: &str = " type='terminate' condition='system-shutdown'/>";

/// The answer to a request that waited, and when the input ended.
#[derive(Drop)]
struct Left {
    answer: String,
    at: Instant,
}

/// What became of a server: its status, and what was written.
type Served = Result<(u8, MemorySink), AllocError>;

/// What became of its client.
type Went = Result<Left, &'static str>;

/// Opens a session and lets a request wait; then ends the input, and hears the answer.
fn leave<R>(rt: &R, alloc: Global, port: u16, holder: &TcpStream) -> Went
where
    R: Wait + Clock + Net<Listener = TcpListener, Stream = TcpStream> + Copy + Drop,
{
    let mut net = TcpNetwork::new(*rt);
    let mut member = enter(rt, alloc, &mut net, port, 1)?;
    member.ask("", "")?;
    sleep(rt, Duration::from_millis(300));
    let at = Instant::now(rt).ok().ok_or("no clock")?;
    let _ = holder.shutdown(Shutdown::Both);
    let answer = member.answer()?;
    Ok(Left { answer, at })
}

/// Serves an echo at this port until this input ends.
fn serve<R>(rt: &R, alloc: Global, port: u16, input: TcpStream) -> Served
where
    R: Wait
        + Threads
        + Clock
        + Eprint
        + Net<Listener = TcpListener, Stream = TcpStream>
        + Copy
        + Send
        + Drop
        + 'static,
{
    let line = format!(in alloc; "serve --port {port} --until-eof")?;
    let mut words = Vec::new(alloc);
    for word in line.as_str().split(' ') {
        words.push(String::from_str(alloc, word)?)?;
    }
    let Some(first) = Rid::new(1000) else {
        return Err(AllocError);
    };
    let stopper = Stopper::new(alloc)?;
    stop_apart(rt, input, Arc::try_clone(&stopper)?)?;
    let mut end = EndOfInput::new(*rt, Arc::try_clone(&stopper)?);
    let hosts = vec![in alloc; echo_host(alloc)?]?;
    let mut written = MemorySink::new(alloc, Vec::new(alloc));
    let mut errors = MemorySink::new(alloc, Vec::new(alloc));
    let mut outside = Outside {
        net: StoppableNetwork::new(*rt, alloc, stopper),
        room: 65_536,
        clock: RealClock::new(*rt),
        bell: RealBell::new(alloc, *rt)?,
        spawner: ThreadSpawner::new(alloc),
        names: GivenNames::new(alloc, b"s", first),
        pollers: ReadyPollers { rt: *rt, alloc },
        watch: Watch::off(),
        restored: None,
        keeper: None,
        roll: Roll::new(),
        pump: None,
    };
    let status = run_serve_command(
        rt,
        alloc,
        &words,
        &mut end,
        &mut written,
        &mut errors,
        &mut outside,
        hosts,
    );
    let Outside {
        net: _net,
        room: _room,
        clock: _clock,
        bell: _bell,
        spawner,
        names: _names,
        pollers: _pollers,
        watch: _watch,
        restored: _restored,
        keeper: _keeper,
        roll: _roll,
        pump: _pump,
    } = outside;
    spawner.join_all(rt);
    Ok((status, written))
}

// The server beside its client, which ends the input also where something was otherwise.
fn both<R>(rt: &R, alloc: Global, port: u16, input: TcpStream, holder: &TcpStream) -> (Served, Went)
where
    R: Wait
        + Threads
        + Clock
        + Eprint
        + Net<Listener = TcpListener, Stream = TcpStream>
        + Copy
        + Send
        + Sync
        + Drop
        + 'static,
{
    join(
        rt,
        || -> Served
            requires { IsSync R.row }
        { serve(rt, alloc, port, input) },
        || -> Went
            requires { IsSync R.row }
        {
            let left = leave(rt, alloc, port, holder);
            let _ = holder.shutdown(Shutdown::Both);
            left
        },
    )
}

#[test]
fn a_server_ends_where_its_input_does(rt: HostRuntime) -> Result<(), Fail> {
    let any = TcpListener::bind(&rt, SocketAddr::from((Ipv4Addr::LOCALHOST, 0)))?;
    let holder = TcpStream::connect(&rt, any.local_addr()?)?;
    let (input, _) = any.accept()?;
    let free = TcpListener::bind(&rt, SocketAddr::from((Ipv4Addr::LOCALHOST, 0)))?;
    let port = free.local_addr()?.port();
    drop(free);
    let (served, left) = both(&rt, rt.alloc(), port, input, &holder);
    let left = left?;
    assert!(rt; left.at.elapsed(&rt)? < Duration::from_secs(2));
    let answer = left.answer.as_str();
    assert!(rt; answer.ends_with(SHUT), "{answer:?}");
    let (status, written) = served?;
    assert_eq!(rt; status, DONE);
    assert_eq!(rt; written.as_slice(), b"serving\nserved 1\n".as_slice());
    Ok(())
}

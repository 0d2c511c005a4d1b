// The command `serve` over the real network, with the real clock, bell, threads and names.

use crate::keeping::{Keeps, Kept, UntilLost, bring_back, held_hosts, queue_in};
use crate::logging::{start_log_to, watch_of};
use crate::streams::{start_teller, stream_end};
use crate::tracing::{queue_of, start_tracing_to, traced_hosts};
use bosh_commands::{
    NET_FAULT, NO_MEMORY, STORE_FAULT, ServeOptions, options_to_serve, run_serve_command,
};
use bosh_ports::{Bell, Polled, QuietSource, RealBell, Sink, give_all};
use bosh_server::{Outside, Roll};
use bosh_types::{Moment, Stanzas, Text};
use client_run::Ready;
use connection_loops::{Pollers, ReadyPollers};
use front_net::{FrontNetwork, room_for_links};
use serve_journal::{HeldBackend, HeldNetwork, LaterClock};
use serve_log::Logging;
use serve_trace::{TracedBackend, TracedNetwork};
use server_name::NamedNames;
use server_ports::{Names, Network, RealClock, RealNames, Spawner, ThreadSpawner, system_seed};
use session_pump::Host;
use std::alloc::{Alloc, AllocError, Global};
use std::fs::File;
use std::io::{Eprint, Read};
use std::net::{Net, TcpListener, TcpStream};
use std::os::fd::AsRawFd;
use std::rt::{Clock, Files};
use std::sync::{Arc, Wait};
use std::thread;
use std::thread::Threads;
use stop_net::{EndOfInput, StoppableNetwork, Stopper, stop_apart};
use stream_backend::{StreamBackend, Watch};
use stream_net::Desks;
use xmpp_backend::{Backend, Echo, Either, InMemory, Room};
use xmpp_stream::PollLink;

/// What a host greets with whose back end is in memory (RFC 6120, section 4.3.2). A server of XMPP greets by itself.
const FEATURES: &[u8] = b"<stream:features/>";

/// Serves the hosts of the program over the real network. Where the words say that the server ends with its input, a thread of its own
/// reads that, and is left behind where the server ends before it does. Where they ask for a log another thread writes it to `log`, and where they name
/// a file its sessions go on, another stores what they enter, and the server ends where that fails.
pub fn serve_for_real<R, I, K, E, L>(
    rt: &R,
    alloc: Global,
    words: &[String],
    input: I,
    sink: &mut K,
    errors: &mut E,
    log: L,
) -> Result<u8, AllocError>
where
    R: Wait
        + Threads
        + Files<File = File>
        + Clock
        + Eprint
        + Alloc
        + Net<Listener = TcpListener, Stream = TcpStream>
        + Copy
        + Send
        + Drop
        + 'static,
    R::File: Send,
    R::Dir: Send,
    I: Read + Send + Drop + 'static,
    K: Sink,
    E: Sink,
    L: Sink + Send + Drop + 'static,
{
    let options = options_to_serve(alloc, words)?;
    if let Some(options) = &options {
        tell_workers(rt, alloc, options.plan.workers, errors);
    }
    let until_eof = options.as_ref().is_some_and(|options| options.until_eof);
    let keeps = match bring_back(rt, alloc, &options, sink)? {
        Kept::Ready(keeps) => keeps,
        Kept::Status(status) => return Ok(status),
    };
    let queue = queue_in(&keeps.keeping)?;
    let setup = Setup::new(rt, alloc, options, keeps, log)?;
    if !until_eof && queue.is_none() {
        let mut nothing = QuietSource::new(Vec::new(alloc));
        let net = FrontNetwork::new(*rt, alloc);
        return serve_over(rt, alloc, words, setup, &mut nothing, sink, errors, net);
    }
    let stopper = Stopper::new(alloc)?;
    if until_eof {
        stop_apart(rt, input, Arc::try_clone(&stopper)?)?;
    }
    if let Some(queue) = queue {
        stop_apart(rt, UntilLost::new(*rt, queue), Arc::try_clone(&stopper)?)?;
    }
    let mut end = EndOfInput::new(*rt, Arc::try_clone(&stopper)?);
    let net = StoppableNetwork::new(*rt, alloc, stopper);
    serve_over(rt, alloc, words, setup, &mut end, sink, errors, net)
}

/// How a server is to run, what it begins with, and the thread that writes its log, where the words ask for one.
#[derive(Drop)]
struct Setup {
    options: Option<ServeOptions>,
    keeps: Keeps,
    logging: Option<Logging>,
}

impl Setup {
    fn new<R, L>(
        rt: &R,
        alloc: Global,
        options: Option<ServeOptions>,
        keeps: Keeps,
        log: L,
    ) -> Result<Setup, AllocError>
    where
        R: Wait + Threads + Clock + Files<File = File> + Copy + Send + Drop + 'static,
        R::File: Send,
        R::Dir: Send,
        L: Sink + Send + Drop + 'static,
    {
        let is_wanted = options.as_ref().is_some_and(|options| options.log);
        let logging = start_log_to(rt, alloc, is_wanted, log)?;
        Ok(Setup {
            options,
            keeps,
            logging,
        })
    }
}

/// Says where more threads are to serve than there are processors. What can't be said is not.
fn tell_workers<R: Threads, E: Sink>(rt: &R, alloc: Global, workers: u32, errors: &mut E) {
    let Ok(processors) = thread::available_parallelism(rt) else {
        return;
    };
    if workers as usize <= processors.get() {
        return;
    }
    if let Ok(text) = format!(in alloc;
        "serve: {workers} workers are more than the processors that are here, {processors}\n"
    ) {
        let _ = give_all(errors, text.as_bytes());
    }
}

/// Serves the hosts that the words want over this network, each with a spare of its kind, with the real clock, bell, threads and names.
fn serve_over<R, I, K, E, N>(
    rt: &R,
    alloc: Global,
    words: &[String],
    setup: Setup,
    input: &mut I,
    sink: &mut K,
    errors: &mut E,
    net: N,
) -> Result<u8, AllocError>
where
    R: Wait
        + Threads
        + Files<File = File>
        + Clock
        + Eprint
        + Alloc
        + Net<Listener = TcpListener, Stream = TcpStream>
        + Copy
        + Send
        + Drop
        + 'static,
    R::File: Send,
    R::Dir: Send,
    I: Ready,
    K: Sink,
    E: Sink,
    N: Network + Drop,
    N::Link: Polled + AsRawFd + Send + Drop + 'static,
{
    let Ok(seed) = system_seed(rt) else {
        return Ok(NO_MEMORY);
    };
    let bell = RealBell::new(alloc, *rt)?;
    let mut hosts = Vec::new(alloc);
    let mut teller = None;
    let mut directory = None;
    let mut name = None;
    let Setup {
        options,
        keeps,
        logging,
    } = setup;
    if let Some(options) = options {
        directory = options.trace;
        name = options.name;
        let site = &options.site;
        if site.has_test_hosts {
            let end = InMemory::Echo(Echo::new(alloc));
            let spare = InMemory::Echo(Echo::new(alloc));
            hosts.push(test_host(alloc, b"echo.localhost", end, spare)?)?;
            let end = InMemory::Room(Room::new(alloc));
            let spare = InMemory::Room(Room::new(alloc));
            hosts.push(test_host(alloc, b"room.localhost", end, spare)?)?;
        }
        let Ok(mut desks) = Desks::new(rt, alloc) else {
            return Ok(NET_FAULT);
        };
        for domain in site.domains.as_slice() {
            let end = Either::Right(stream_end(rt, alloc, site.port, &mut desks)?);
            let spare = Either::Right(stream_end(rt, alloc, site.port, &mut desks)?);
            hosts.push(host(alloc, domain.as_slice(), &[], end, spare)?)?;
        }
        teller = Some(start_teller(rt, desks, bell.share()?)?);
    }
    let Keeps {
        restored,
        keeping,
        stood,
    } = keeps;
    let tracing = start_tracing_to(rt, alloc, &directory, hosts.as_slice())?;
    let watch = watch_of(&logging)?;
    let hosts = traced_hosts(*rt, alloc, &tracing, &watch, hosts)?;
    let hosts = held_hosts(alloc, &keeping, hosts)?;
    let net = TracedNetwork::new(*rt, alloc, net, queue_of(&tracing)?);
    let mut outside = Outside {
        net: HeldNetwork::new(net, queue_in(&keeping)?),
        room: room_for_links(rt),
        clock: clock_from(RealClock::new(*rt), stood),
        restored,
        keeper: queue_in(&keeping)?,
        bell,
        spawner: ThreadSpawner::new(alloc),
        names: NamedNames::new(alloc, RealNames::new(alloc, seed), name),
        pollers: ReadyPollers { rt: *rt, alloc },
        watch,
        roll: Roll::new(),
        pump: None,
    };
    let status = serve_hosts(rt, alloc, words, input, sink, errors, &mut outside, hosts);
    let Outside {
        net: _net,
        room: _room,
        clock: _clock,
        bell: _bell,
        spawner,
        names: _names,
        pollers: _pollers,
        watch: _watch,
        restored: _restored,
        keeper: _keeper,
        roll: _roll,
        pump,
    } = outside;
    drop(pump);
    let mut status = status;
    if let Some(keeping) = keeping {
        if !keeping.end(rt) {
            status = STORE_FAULT;
        }
    }
    spawner.join_all(rt);
    if let Some(teller) = teller {
        teller.end(rt);
    }
    if let Some(tracing) = tracing {
        tracing.end(rt);
    }
    if let Some(logging) = logging {
        logging.end(rt);
    }
    Ok(status)
}

/// The clock, or one that goes on where the sessions of a file stood.
fn clock_from<C: server_ports::Clock + Drop>(clock: C, stood: Option<Moment>) -> LaterClock<C> {
    match stood {
        Some(stood) => LaterClock::from(clock, stood),
        None => LaterClock::same(clock),
    }
}

/// Serves these hosts, of which each has a back end of one kind or one over TCP. Over any outside of these, so that whether they may cross
/// to a thread is asked apart from what they are.
fn serve_hosts<R, I, K, E, N, C, B, S, M, Q, A, D, W, T>(
    rt: &R,
    alloc: Global,
    words: &[String],
    input: &mut I,
    sink: &mut K,
    errors: &mut E,
    outside: &mut Outside<
        N,
        C,
        B,
        S,
        M,
        Q,
        N::Link,
        HeldBackend<TracedBackend<R, Either<A, StreamBackend<D, W, T>>>>,
    >,
    hosts: Vec<Host<HeldBackend<TracedBackend<R, Either<A, StreamBackend<D, W, T>>>>>>,
) -> u8
where
    R: Wait + Threads + Copy + Send + Drop + 'static,
    I: Ready,
    K: Sink,
    E: Sink,
    N: Network,
    N::Link: Polled + Send + Drop + 'static,
    C: server_ports::Clock + Send + Drop + 'static,
    B: Bell + Send + Drop + 'static,
    S: Spawner,
    M: Names + Send + Drop + 'static,
    Q: Pollers<N::Link>,
    Q::Poller: Send + Drop + 'static,
    Q::Rouse: Send + Sync + Drop + 'static,
    A: Backend + Send + 'static,
    D: Network + Send + Drop + 'static,
    D::Link: PollLink + Send + Drop + 'static,
    W: Watch<D::Link> + Send + Drop + 'static,
    T: server_ports::Clock + Send + Drop + 'static,
{
    serve_held(rt, alloc, words, input, sink, errors, outside, hosts)
}

// Serves these hosts, of which each is passed what is stored. Over any back end within, as above.
fn serve_held<R, I, K, E, N, C, B, S, M, Q, H>(
    rt: &R,
    alloc: Global,
    words: &[String],
    input: &mut I,
    sink: &mut K,
    errors: &mut E,
    outside: &mut Outside<N, C, B, S, M, Q, N::Link, HeldBackend<H>>,
    hosts: Vec<Host<HeldBackend<H>>>,
) -> u8
where
    R: Wait + Threads + Copy + Send + Drop + 'static,
    I: Ready,
    K: Sink,
    E: Sink,
    N: Network,
    N::Link: Polled + Send + Drop + 'static,
    C: server_ports::Clock + Send + Drop + 'static,
    B: Bell + Send + Drop + 'static,
    S: Spawner,
    M: Names + Send + Drop + 'static,
    Q: Pollers<N::Link>,
    Q::Poller: Send + Drop + 'static,
    Q::Rouse: Send + Sync + Drop + 'static,
    H: Backend + Send + 'static,
{
    run_serve_command(rt, alloc, words, input, sink, errors, outside, hosts)
}

/// A host with a back end in memory, which greets with the features of a stream.
fn test_host<S: Backend>(
    alloc: Global,
    name: &[u8],
    end: InMemory,
    spare: InMemory,
) -> Result<Host<Either<InMemory, S>>, AllocError> {
    host(
        alloc,
        name,
        &[FEATURES],
        Either::Left(end),
        Either::Left(spare),
    )
}

/// A host with this name and greeting.
fn host<E: Backend>(
    alloc: Global,
    name: &[u8],
    greeting: &[&[u8]],
    end: E,
    spare: E,
) -> Result<Host<E>, AllocError> {
    let mut stanzas = Vec::new(alloc);
    for stanza in greeting {
        stanzas.push(Text::from_vec(stanza.to_vec(alloc)?))?;
    }
    let mut spares = Vec::new(alloc);
    spares.push(spare)?;
    Ok(Host {
        name: Text::from_vec(name.to_vec(alloc)?),
        greeting: Stanzas::from_vec(stanzas),
        end,
        spares,
    })
}

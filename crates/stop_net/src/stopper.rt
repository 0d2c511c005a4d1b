// The end of a server that ends with its input: a thread of its own reads that, and stops the network at its end.
ghost use Rattle.std.specs.Prelude.{None};

use bosh_ports::{Got, Source};
use client_run::Ready;
use std::alloc::{AllocError, Global};
use std::collections::BTreeMap;
use std::io::{ErrorKind, Read};
use std::net::{Ipv4Addr, Net, Shutdown, SocketAddr, TcpListener, TcpStream};
use std::rt::Clock;
use std::sync::atomic::{AtomicBool, Ordering};
use std::sync::{Arc, Condvar, Mutex, Wait};
use std::thread;
use std::thread::{Threads, sleep};
use std::time::Duration;

/// How long a connection whose request is being read or answered may go on after the stop, in milliseconds.
const GRACE: u64 = 1000;

/// How often, and after how many milliseconds each, it is tried to wake who waits for a link where that fails, as for want of a descriptor.
const TRIES: u32 = 100;

const REST: u64 = 100;

/// How far an input was read.
#[derive(Clone, Copy, Debug, PartialEq, Eq)]
enum Reached {
    Part,
    End,
    Fault,
}

/// A connection that was accepted, and whether the whole head of a request came on it that isn't answered yet.
#[derive(Drop)]
struct Out {
    stream: Arc<TcpStream>,
    is_asked: bool,
}

#[derive(Drop)]
struct State {
    input: Reached,
    /// Where the network listens.
    port: Option<u16>,
    /// The network has said that no more links come.
    is_over: bool,
    last: u64,
    out: BTreeMap<u64, Out>,
}

/// What the thread that reads, the network and its links share.
#[derive(Drop)]
pub struct Stopper {
    state: Mutex<State>,
    changed: Condvar,
    /// The input is at its end. It is seen without the lock.
    is_wanted: AtomicBool,
}

impl Stopper {
    pub fn new(alloc: Global) -> Result<Arc<Stopper>, AllocError> {
        let state = State {
            input: Reached::Part,
            port: None,
            is_over: false,
            last: 0,
            out: BTreeMap::new(alloc),
        };
        let stopper = Stopper {
            state: Mutex::new(state),
            changed: Condvar::new(),
            is_wanted: AtomicBool::new(false),
        };
        match Arc::new(alloc, stopper) {
            Ok(stopper) => Ok(stopper),
            Err(_) => Err(AllocError),
        }
    }

    /// The network listens there.
    pub(crate) fn listens<R: Wait>(&self, rt: &R, port: u16) {
        self.state.lock(rt).port = Some(port);
    }

    /// Whether an end is wanted: the input has come to its end, or failed.
    pub(crate) fn is_wanted(&self) -> bool {
        self.is_wanted.load(Ordering::SeqCst)
    }

    /// How far the input was read.
    fn reached<R: Wait>(&self, rt: &R) -> Reached {
        self.state.lock(rt).input
    }

    /// A connection was accepted: its number, by which it is left. Where memory is wanted there is none, and it goes on after the stop.
    pub(crate) fn enter<R: Wait>(&self, rt: &R, stream: Arc<TcpStream>) -> Option<u64> {
        let mut state = self.state.lock(rt);
        let number = state.last.saturating_add(1);
        state.last = number;
        let out = Out {
            stream,
            is_asked: false,
        };
        state.out.insert(number, out).ok()?;
        Some(number)
    }

    /// Whether the whole head of a request came on this connection.
    pub(crate) fn note<R: Wait>(&self, rt: &R, number: u64, is_asked: bool) {
        if let Some(out) = self.state.lock(rt).out.get_mut(&number) {
            out.is_asked = is_asked;
        }
    }

    /// This connection was closed.
    pub(crate) fn leave<R: Wait>(&self, rt: &R, number: u64) {
        let _ = self.state.lock(rt).out.remove(&number);
    }

    /// The network says that no more links come.
    pub(crate) fn stop<R: Wait>(&self, rt: &R) {
        self.state.lock(rt).is_over = true;
        self.changed.notify_all();
    }

    // Closes all that are left.
    fn cut_all<R: Wait>(&self, rt: &R) {
        for out in self.state.lock(rt).out.values() {
            let _ = out.stream.shutdown(Shutdown::Both);
        }
    }

    // The input was read so far, and no further: nothing more is waited for on connections on which nothing was asked. Where the network
    // listens.
    fn end<R: Wait>(&self, rt: &R, reached: Reached) -> Option<u16> {
        let mut state = self.state.lock(rt);
        state.input = reached;
        self.is_wanted.store(true, Ordering::SeqCst);
        for out in state.out.values() {
            if !out.is_asked {
                let _ = out.stream.shutdown(Shutdown::Read);
            }
        }
        self.changed.notify_all();
        state.port
    }

    fn is_over<R: Wait>(&self, rt: &R) -> bool {
        self.state.lock(rt).is_over
    }

    fn wait_for_stop<R: Wait>(&self, rt: &R) {
        self.changed
            .wait_while(rt, self.state.lock(rt), |state| !state.is_over);
    }

    fn wait_for_end<R: Wait>(&self, rt: &R) -> Reached {
        let state = self.changed.wait_while(
            rt,
            self.state.lock(rt),
            |state| state.input == Reached::Part,
        );
        state.input
    }
}

/// Starts a thread that reads the input to its end and stops the network then. It is left behind where the server ends before it does.
/// Where there is no thread to be had there is as good as no memory.
pub fn stop_apart<R, I>(rt: &R, input: I, stopper: Arc<Stopper>) -> Result<(), AllocError>
where
    R: Wait
        + Threads
        + Clock
        + Net<Listener = TcpListener, Stream = TcpStream>
        + Copy
        + Send
        + Drop
        + 'static,
    I: Read + Send + Drop + 'static,
{
    let own = *rt;
    let mut input = input;
    match thread::spawn(rt, move || stop_at_end(&own, &mut input, &stopper)) {
        Ok(reader) => {
            drop(reader);
            Ok(())
        }
        Err(_) => Err(AllocError),
    }
}

// Reads the input to its end and stops the network. What is in hand a second later is closed.
fn stop_at_end<R, I>(rt: &R, input: &mut I, stopper: &Stopper)
where
    R: Wait + Clock + Net<Listener = TcpListener, Stream = TcpStream>,
    I: Read,
{
    let reached = read_to_end(rt, input);
    if let Some(port) = stopper.end(rt, reached) {
        wake(rt, stopper, port);
    }
    stopper.wait_for_stop(rt);
    sleep(rt, Duration::from_millis(GRACE));
    stopper.cut_all(rt);
}

// Whoever waits for a link at this port has one, and sees that no more are wanted.
fn wake<R>(rt: &R, stopper: &Stopper, port: u16)
where
    R: Wait + Clock + Net<Listener = TcpListener, Stream = TcpStream>,
{
    let address = SocketAddr::from((Ipv4Addr::LOCALHOST, port));
    for _ in 0..TRIES {
        if stopper.is_over(rt) || TcpStream::connect(rt, address).is_ok() {
            return;
        }
        sleep(rt, Duration::from_millis(REST));
    }
}

// Reads to the end, and keeps nothing.
fn read_to_end<R: Wait, I: Read>(rt: &R, input: &mut I) -> Reached {
    let mut room = [0u8; 4096];
    for _ in rt.forever() {
        match input.read(&mut room) {
            Ok(0) => return Reached::End,
            Ok(_) => {}
            Err(error) if error.kind() == ErrorKind::Interrupted => {}
            Err(_) => return Reached::Fault,
        }
    }
    unreachable!()
}

/// The input as a source, which gives no bytes, and its end once that was read. Where no thread reads it, it is not ready.
#[derive(Drop)]
pub struct EndOfInput<R: Wait + Copy + Drop> {
    rt: R,
    stopper: Arc<Stopper>,
    faults: u64,
}

impl<R: Wait + Copy + Drop> EndOfInput<R> {
    pub fn new(rt: R, stopper: Arc<Stopper>) -> EndOfInput<R> {
        EndOfInput {
            rt,
            stopper,
            faults: 0,
        }
    }
}

impl<R: Wait + Copy + Drop> Source for EndOfInput<R> {
    ghost left = { λ _. None };

    ghost faults = { λ s. s.faults };

    fn take(&mut self, _into: &mut [u8]) -> Got {
        if self.stopper.wait_for_end(&self.rt) == Reached::Fault {
            self.faults = self.faults.saturating_add(1);
            return Got::Failed;
        }
        Got::End
    }
}

impl<R: Wait + Copy + Drop> Ready for EndOfInput<R> {
    fn is_ready(&self) -> bool {
        self.stopper.reached(&self.rt) != Reached::Part
    }
}

// A port that is listened at, and what becomes of connections to it.
ghost use Rattle.std.specs.Prelude.{◌≡◌, ◌↔◌, ◌⊎◌, ◌≤◌, true, None, IfOk, IfSome, IsSome, pos};
ghost use Rattle.front_net.specs.Attempt.{MatchAttempt};

use crate::front_link::FrontLink;
use mio::net;
use std::alloc::Global;
use std::io;
use std::io::{Eprint, ErrorKind};
use std::net::{Ipv4Addr, Net, SocketAddr, TcpListener, TcpStream};
use std::rt::Clock;
use std::sync::Wait;
use std::thread::sleep;
use std::time::{Duration, Instant};

/// How long a rest is, in milliseconds.
const REST: u64 = 100;

/// How long it isn't said again that connections wait, in milliseconds.
const SILENCE: u64 = 60_000;

/// What one wait for a connection gave.
#[derive(Drop)]
pub enum Attempt {
    Link(FrontLink),
    /// One came and is gone again: its maker ended it at once, or it couldn't be set up.
    Gone,
    /// No descriptor or no memory is left for it, so that it has to wait for others to end.
    Short,
    /// There is no port, or the system failed.
    Failed,
}

// Whether a code of the system says that the process or the system has no descriptor left (EMFILE, ENFILE).
fn is_out_of_descriptors(code: i32) -> bool
    ensures { (result ≡ true) ↔ ((code ≡ pos 24) ⊎ (code ≡ pos 23)) }
{
    code == 24 || code == 23
}

// Whether a code of the system says that it has no memory left (ENOMEM, ENOBUFS).
fn is_out_of_memory(code: i32) -> bool
    ensures { (result ≡ true) ↔ ((code ≡ pos 12) ⊎ (code ≡ pos 105)) }
{
    code == 12 || code == 105
}

// Whether an error tells of a connection that was lost before it was taken.
fn is_lost(kind: ErrorKind) -> bool
    ensures { (result ≡ true) ↔ ((kind ≡ ErrorKind.ConnectionAborted) ⊎ (kind ≡ ErrorKind.Interrupted)) }
{
    kind == ErrorKind::ConnectionAborted || kind == ErrorKind::Interrupted
}

// Whether that connections wait may be said so many milliseconds after it was said last.
fn may_tell(since: Option<u64>) -> bool
    ensures first { since ≡ None → result ≡ true }
    ensures again { IfSome since (λ millis. (result ≡ true) ↔ (60000 ≤ millis)) }
{
    match since {
        Some(millis) => millis >= SILENCE,
        None => true,
    }
}

/// A port of 127.0.0.1 that is listened at. As many connections as the system allows may wait there to be accepted.
#[derive(Drop)]
pub struct FrontListener<R>
where
    R: Wait + Clock + Eprint + Net<Listener = TcpListener, Stream = TcpStream> + Copy + Drop,
{
    rt: R,
    alloc: Global,
    listener: Option<TcpListener>,
    told: Option<Instant>,
}

impl<R> FrontListener<R>
where
    R: Wait + Clock + Eprint + Net<Listener = TcpListener, Stream = TcpStream> + Copy + Drop,
{
    /// It listens nowhere yet.
    pub fn new(rt: R, alloc: Global) -> FrontListener<R> {
        FrontListener {
            rt,
            alloc,
            listener: None,
            told: None,
        }
    }

    /// Listens at this port, with the longest backlog that the system allows. Whether that could be had.
    pub fn listen(&mut self, port: u16) -> bool
        ensures { result ≡ true → IsSome self.new.listener }
    {
        match bind(&self.rt, port) {
            Ok(listener) => {
                self.listener = Some(listener);
                true
            }
            Err(_) => false,
        }
    }

    /// Waits for one connection.
    pub fn attempt(&self) -> Attempt
        ensures faultless { MatchAttempt result (λ link. link.faults ≡ 0) }
    {
        match &self.listener {
            Some(listener) => accept_from(self.alloc, listener),
            None => Attempt::Failed,
        }
    }

    /// Lets a tenth of a second pass, in which descriptors may come free. Once a minute at most it says on standard error that connections
    /// wait for that.
    pub fn rest(&mut self) {
        if let Ok(now) = Instant::now(&self.rt) {
            self.tell(now);
        }
        sleep(&self.rt, Duration::from_millis(REST));
    }

    /// The next connection that lasts long enough to be set up. None where there is no port, or the system failed.
    pub fn next(&mut self) -> Option<FrontLink>
        ensures { IfSome result (λ link. link.faults ≡ 0) }
    {
        let rt = self.rt;
        for _ in rt.forever() {
            match self.attempt() {
                Attempt::Link(link) => return Some(link),
                Attempt::Gone => {}
                Attempt::Short => self.rest(),
                Attempt::Failed => return None,
            }
        }
        unreachable!()
    }

    // Says that connections wait, where that may be said now. What can't be said is not.
    fn tell(&mut self, now: Instant) {
        let since = match self.told {
            Some(told) => Some(whole_millis(now.duration_since(told))),
            None => None,
        };
        if may_tell(since) {
            self.told = Some(now);
            let _ = eprintln!(self.rt;
                "serve: connections wait, since no file descriptor or no memory is left for them (ulimit -n)"
            );
        }
    }
}

// So many milliseconds, or as many as can be said.
fn whole_millis(passed: Duration) -> u64 {
    u64::try_from(passed.as_millis()).unwrap_or(u64::MAX)
}

// A listener at this port that blocks. The longest backlog is had from `mio`.
fn bind<R: Net>(rt: &R, port: u16) -> io::Result<TcpListener> {
    let address = SocketAddr::from((Ipv4Addr::LOCALHOST, port));
    let listener = TcpListener::from(net::TcpListener::bind(rt, address)?);
    listener.set_nonblocking(false)?;
    Ok(listener)
}

// Waits for one connection.
fn accept_from(alloc: Global, listener: &TcpListener) -> Attempt
    ensures faultless { MatchAttempt result (λ link. link.faults ≡ 0) }
{
    match listener.accept() {
        Ok((stream, _)) => match FrontLink::open(alloc, stream) {
            Ok(link) => Attempt::Link(link),
            Err(_) => Attempt::Gone,
        },
        Err(error) => refused(&error),
    }
}

// What it means that no connection was had.
fn refused(error: &io::Error) -> Attempt
    ensures faultless { MatchAttempt result (λ link. link.faults ≡ 0) }
{
    if is_lost(error.kind()) {
        return Attempt::Gone;
    }
    match error.raw_os_error() {
        Some(code) if is_out_of_descriptors(code) || is_out_of_memory(code) => Attempt::Short,
        _ => Attempt::Failed,
    }
}

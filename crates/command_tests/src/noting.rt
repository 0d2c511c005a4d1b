// A network over loopback that notes what its links read, and may drop every third answer; and a source that goes on once what it gave
// before was read back.
ghost use Rattle.std.specs.Prelude.{◌≡◌, None};

use bosh_ports::{Gave, Got, Link, QuietSource, Source};
use client_run::Ready;
use server_ports::{Accepted, Dialled, NetLink, Network, Opened, Shared, TcpNetwork};
use std::collections::VecDeque;
use std::net::{Net, TcpListener, TcpStream};
use std::rt::Clock;
use std::sync::{Arc, Mutex, Wait};
use std::thread::sleep;
use std::time::Duration;

/// What links read, for all to see.
#[derive(Drop)]
pub(crate) struct Noted {
    pub(crate) read: Vec<u8>,
    pub(crate) answers: u64,
    pub(crate) dropped: u64,
    pub(crate) drops: bool,
}

impl Noted {
    // Notes an answer that begins. Whether it is to be dropped.
    fn begins(&mut self) -> bool {
        self.answers = self.answers.saturating_add(1);
        if self.drops && self.answers % 3 == 0 {
            self.dropped = self.dropped.saturating_add(1);
            return true;
        }
        false
    }

    fn has_read(&self, text: &[u8]) -> bool {
        for at in 0..self.read.len() {
            if self.read[at..].starts_with(text) {
                return true;
            }
        }
        false
    }
}

/// A link that notes what is read. An answer that is dropped is a fault.
#[derive(Drop)]
pub(crate) struct NotingLink<R: Wait + Copy + Drop> {
    rt: R,
    inner: NetLink,
    noted: Arc<Mutex<Noted>>,
    is_asked: bool,
    faults: u64,
}

impl<R: Wait + Copy + Drop> Link for NotingLink<R> {
    ghost left = { λ _. None };

    ghost given = { λ _. None };

    ghost closed = { λ _. None };

    ghost faults = { λ l. l.faults };

    fn take(&mut self, into: &mut [u8]) -> Got {
        let n = match self.inner.take(into) {
            Got::Bytes(n) => n,
            Got::End => return Got::End,
            Got::Failed => {
                self.faults = self.faults.saturating_add(1);
                return Got::Failed;
            }
        };
        let mut noted = self.noted.lock(&self.rt);
        if self.is_asked && noted.begins() {
            self.faults = self.faults.saturating_add(1);
            return Got::Failed;
        }
        self.is_asked = false;
        if noted.read.extend_from_slice(&into[..n]).is_err() {
            self.faults = self.faults.saturating_add(1);
            return Got::Failed;
        }
        Got::Bytes(n)
    }

    fn give(&mut self, bytes: &[u8]) -> Gave {
        self.is_asked = true;
        match self.inner.give(bytes) {
            Gave::Wrote(n) => Gave::Wrote(n),
            Gave::Failed => {
                self.faults = self.faults.saturating_add(1);
                Gave::Failed
            }
        }
    }

    fn close(&mut self) {
        self.inner.close();
    }
}

/// Links over loopback that are dialled and note what they read. None is accepted.
#[derive(Drop)]
pub(crate) struct NotingNetwork<
    R: Net<Listener = TcpListener, Stream = TcpStream> + Wait + Copy + Drop,
> {
    rt: R,
    inner: TcpNetwork<R>,
    noted: Arc<Mutex<Noted>>,
    faults: u64,
    dialled: u64,
}

impl<R: Net<Listener = TcpListener, Stream = TcpStream> + Wait + Copy + Drop> NotingNetwork<R> {
    pub(crate) fn new(rt: R, noted: Arc<Mutex<Noted>>) -> NotingNetwork<R>
        ensures faults { result.faults ≡ 0 }
        ensures dialled { result.dialled ≡ 0 }
    {
        NotingNetwork {
            rt,
            inner: TcpNetwork::new(rt),
            noted,
            faults: 0,
            dialled: 0,
        }
    }
}

impl<R: Net<Listener = TcpListener, Stream = TcpStream> + Wait + Copy + Drop> Network
    for NotingNetwork<R> {
    ghost use Rattle.std.specs.Prelude.{Option, List, ⊤};
    ghost use Rattle.server_ports.specs.Counts.{Counts, HasFailed, RisesWith, added, no_counts};
    ghost use Rattle.server_ports.specs.Events.{Event, Begins, Retires, Joins, IsWithout, IsUngiven};
    ghost use Rattle.server_ports.specs.Network.{ListenCounts, MatchShared, MatchAccepted, AcceptCounts, MatchDialled, DialCounts};

    type Link = NotingLink<R>;

    ghost counts = { λ n. record { faults = n.faults; accepted = 0; dialled = n.dialled; stops = 0 } };

    ghost events = { λ _. None };

    fn listen(&mut self, _port: u16) -> Opened {
        self.faults = self.faults.saturating_add(1);
        Opened::Failed
    }

    fn share(&mut self) -> Shared<NotingNetwork<R>> {
        match Arc::try_clone(&self.noted) {
            Ok(noted) => Shared::Net(NotingNetwork::new(self.rt, noted)),
            Err(_) => {
                self.faults = self.faults.saturating_add(1);
                Shared::Failed
            }
        }
    }

    fn accept(&mut self) -> Accepted<NotingLink<R>> {
        self.faults = self.faults.saturating_add(1);
        Accepted::Failed
    }

    fn dial(&mut self, port: u16) -> Dialled<NotingLink<R>> {
        let Dialled::Link(inner) = self.inner.dial(port) else {
            self.faults = self.faults.saturating_add(1);
            return Dialled::Failed;
        };
        let Ok(noted) = Arc::try_clone(&self.noted) else {
            self.inner.retire(inner);
            self.faults = self.faults.saturating_add(1);
            return Dialled::Failed;
        };
        self.dialled = self.dialled.saturating_add(1);
        Dialled::Link(NotingLink {
            rt: self.rt,
            inner,
            noted,
            is_asked: false,
            faults: 0,
        })
    }

    fn retire(&mut self, link: NotingLink<R>) {
        let NotingLink {
            rt: _,
            inner,
            noted: _,
            is_asked: _,
            faults,
        } = link;
        self.inner.retire(inner);
        if faults > 0 {
            self.faults = self.faults.saturating_add(1);
        }
    }

    fn back(&mut self, share: NotingNetwork<R>) {
        if share.faults > 0 {
            self.faults = self.faults.saturating_add(1);
        }
        self.dialled = self.dialled.saturating_add(share.dialled);
    }
}

/// Some bytes of an input, and what is read back once they were echoed.
#[derive(Drop)]
pub(crate) struct Part {
    pub(crate) bytes: QuietSource,
    pub(crate) echo: Vec<u8>,
}

/// A source that gives its parts, each once the one before it was read back, and its end once all were; then no answer is dropped.
#[derive(Drop)]
pub(crate) struct Patient<R: Wait + Clock + Copy + Drop> {
    pub(crate) rt: R,
    pub(crate) parts: VecDeque<Part>,
    pub(crate) noted: Arc<Mutex<Noted>>,
}

/// How many milliseconds a part is waited for, at most.
const PATIENCE: u32 = 20_000;

impl<R: Wait + Clock + Copy + Drop> Patient<R> {
    // Waits until this was read back, or it took too long.
    fn wait_for(&self, echo: &[u8]) {
        for _ in 0..PATIENCE {
            if self.noted.lock(&self.rt).has_read(echo) {
                return;
            }
            sleep(&self.rt, Duration::from_millis(1));
        }
    }
}

impl<R: Wait + Clock + Copy + Drop> Source for Patient<R> {
    ghost left = { λ _. None };

    ghost faults = { λ _. 0 };

    fn take(&mut self, into: &mut [u8]) -> Got {
        for _ in 0..self.parts.len() {
            let Some(part) = self.parts.pop_front() else {
                break;
            };
            let mut part = part;
            if let Got::Bytes(n) = part.bytes.take(into) {
                if self.parts.push_front(part).is_err() {
                    return Got::End;
                }
                return Got::Bytes(n);
            }
            self.wait_for(part.echo.as_slice());
        }
        self.noted.lock(&self.rt).drops = false;
        Got::End
    }
}

impl<R: Wait + Clock + Copy + Drop> Ready for Patient<R> {
    fn is_ready(&self) -> bool {
        true
    }
}

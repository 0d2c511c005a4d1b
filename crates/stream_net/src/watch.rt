// Readiness of the links of back ends.
use crate::desk::Desk;
use bosh_ports::{Bell, BellKey};
use bosh_types::Wire;
use mio::unix::SourceFd;
use mio::{Events, Interest, Poll, Registry, Token, Waker};
use std::alloc::{AllocError, Global};
use std::io;
use std::net::Net;
use std::os::fd::AsRawFd;
use std::rt::Clock;
use std::sync::{Arc, Wait};
use std::thread::sleep;
use std::time::Duration;
use stream_backend::Watch;
use xmpp_stream::TcpOpenLink;

/// How many bits of a token name a wire; those above them name a back end.
const WIRE_BITS: u32 = 40;

/// The token by which the waiting ends, and that by which it is only woken. No wire has them.
const STOP: Token = Token(usize::MAX);

const NUDGE: Token = Token(usize::MAX - 1);

/// How much news is taken from the system at once.
const EVENTS: usize = 256;

/// How long is waited where the system can't tell what is ready, in milliseconds.
const PAUSE: u64 = 100;

/// The back ends whose links are watched, and what waits for news of them.
#[derive(Drop)]
pub struct Desks {
    alloc: Global,
    poll: Poll,
    desks: Vec<Arc<Desk>>,
}

impl Desks {
    /// No back end has a desk yet.
    pub fn new<R: Net>(rt: &R, alloc: Global) -> io::Result<Desks> {
        Ok(Desks {
            alloc,
            poll: Poll::new(rt)?,
            desks: Vec::new(alloc),
        })
    }

    /// A watch for one more back end.
    pub fn watch<R: Wait + Copy + Drop>(&mut self, rt: R) -> io::Result<ReadyWatch<R>> {
        let registry = self.poll.registry().try_clone()?;
        let waker = Waker::new(self.poll.registry(), NUDGE)?;
        let desk = Arc::new(self.alloc, Desk::new(self.alloc))?;
        let place = self.desks.len() as u64;
        self.desks.push(Arc::try_clone(&desk)?)?;
        Ok(ReadyWatch {
            rt,
            registry,
            desk,
            place,
            waker,
        })
    }

    /// What ends the waiting for news, by `wake`. It is to be kept until that has ended.
    pub fn stopper(&self) -> io::Result<Waker> {
        Waker::new(self.poll.registry(), STOP)
    }

    /// Waits for news of the links, notes it, and rings for the pump, until it is stopped. Where the system can't tell what is ready each
    /// link is looked at ten times a second. The only error is want of memory, before anything was waited for.
    pub fn tell_news<R: Wait + Clock, B: Bell>(
        self,
        rt: &R,
        bell: &mut B,
    ) -> Result<(), AllocError> {
        let mut desks = self;
        let mut events = Events::with_capacity(desks.alloc, EVENTS)?;
        for _ in rt.forever() {
            match desks.poll.poll(&mut events, None) {
                Ok(()) => desks.note(rt, &events),
                Err(_) => desks.pause(rt),
            }
            if events.iter().any(|event| event.token() == STOP) {
                return Ok(());
            }
            bell.ring(BellKey::PUMP);
        }
        Ok(())
    }

    // Notes on which links something may have happened.
    fn note<R: Wait>(&self, rt: &R, events: &Events) {
        for event in events.iter() {
            let token = event.token().0 as u64;
            if let Some(desk) = self.desks.get((token >> WIRE_BITS) as usize) {
                desk.note(rt, token & ((1 << WIRE_BITS) - 1));
            }
        }
    }

    // Lets a while pass, after which something may have happened on each link.
    fn pause<R: Wait + Clock>(&self, rt: &R) {
        sleep(rt, Duration::from_millis(PAUSE));
        for desk in &self.desks {
            desk.note_all(rt);
        }
    }
}

/// A watch over connections: the system tells on which of them something may have happened. Nothing is claimed of it.
#[derive(Drop)]
pub struct ReadyWatch<R: Wait + Copy + Drop> {
    rt: R,
    registry: Registry,
    desk: Arc<Desk>,
    place: u64,
    // Wakes who waits for news, which then rings for the pump.
    waker: Waker,
}

impl<R: Wait + Copy + Drop> Watch<TcpOpenLink> for ReadyWatch<R> {
    // Once both handles of the connection are closed the system watches it no longer.
    fn begin(&mut self, wire: Wire, link: &TcpOpenLink) -> bool {
        let token = Token(((self.place << WIRE_BITS) | wire.number()) as usize);
        let both = Interest::READABLE | Interest::WRITABLE;
        let fd = link.reader.as_raw_fd();
        self.registry
            .register(&mut SourceFd(&fd), token, both)
            .is_ok()
    }

    fn take(&mut self, wires: &mut Vec<u64>) -> bool {
        self.desk.take(&self.rt, wires)
    }

    fn again(&mut self, wire: Wire) {
        self.desk.note(&self.rt, wire.number());
        let _ = self.waker.wake();
    }
}

// A poller over what the system tells of descriptors.
use crate::door::Rouse;
use crate::poller::{Poller, Pollers};
use mio::unix::SourceFd;
use mio::{Events, Interest, Poll, Token, Waker};
use std::alloc::{AllocError, Global};
use std::io;
use std::net::Net;
use std::os::fd::AsRawFd;
use std::time::Duration;

/// The token by which a wait is ended. No link has it.
const ROUSED: Token = Token(usize::MAX);

/// How much news is taken from the system at once.
const EVENTS: usize = 1024;

/// Tells of links whose descriptors the system reports.
#[derive(Drop)]
pub struct ReadyPoller {
    poll: Poll,
    events: Events,
}

/// Ends the wait of a loop at the system.
#[derive(Drop)]
pub struct ReadyRouse {
    waker: Waker,
}

impl Rouse for ReadyRouse {
    fn rouse(&self) {
        let _ = self.waker.wake();
    }
}

impl ReadyPoller {
    /// No link is told of yet. With it comes what ends its waits.
    pub fn new<R: Net>(rt: &R, alloc: Global) -> io::Result<(ReadyPoller, ReadyRouse)> {
        let poll = Poll::new(rt)?;
        let waker = Waker::new(poll.registry(), ROUSED)?;
        let events = Events::with_capacity(alloc, EVENTS)?;
        Ok((ReadyPoller { poll, events }, ReadyRouse { waker }))
    }
}

impl<L: AsRawFd> Poller<L> for ReadyPoller {
    // The system reports each change once, so that a link is registered once. It reports it no longer when it is closed.
    fn enter(&mut self, link: &L, at: usize) -> bool {
        let both = Interest::READABLE | Interest::WRITABLE;
        let fd = link.as_raw_fd();
        self.poll
            .registry()
            .register(&mut SourceFd(&fd), Token(at), both)
            .is_ok()
    }

    // Room for all news comes before any is taken from the system, which tells it once.
    fn wait(&mut self, most: Option<u64>, ready: &mut Vec<usize>) -> Result<(), AllocError> {
        ready.reserve(EVENTS)?;
        let limit = match most {
            Some(millis) => Some(Duration::from_millis(millis)),
            None => None,
        };
        if self.poll.poll(&mut self.events, limit).is_err() {
            return Ok(());
        }
        for event in self.events.iter() {
            if event.token() != ROUSED {
                ready.push(event.token().0)?;
            }
        }
        Ok(())
    }
}

/// Makes pollers over what the system tells.
#[derive(Drop)]
pub struct ReadyPollers<R: Net + Copy + Drop> {
    pub rt: R,
    pub alloc: Global,
}

impl<R: Net + Copy + Drop, L: AsRawFd> Pollers<L> for ReadyPollers<R> {
    type Poller = ReadyPoller;

    type Rouse = ReadyRouse;

    fn poller(&mut self) -> Result<(ReadyPoller, ReadyRouse), AllocError> {
        match ReadyPoller::new(&self.rt, self.alloc) {
            Ok(made) => Ok(made),
            Err(_) => Err(AllocError),
        }
    }
}

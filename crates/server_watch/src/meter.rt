// Counts of a server that many threads move without a lock.
use crate::limit::Limit;
use std::sync::atomic::{AtomicU64, Ordering};

/// What the counts were when they were read.
#[derive(Clone, Copy, Debug, PartialEq, Eq)]
pub struct Reading {
    /// How many connections are open.
    pub connections: u64,
    /// How many requests wait in their sessions for an answer.
    pub parked: u64,
    /// How many requests came since the start, those that were refused too.
    pub requests: u64,
}

/// Counts of a server. Each moves by itself, so that two of them may be of different moments.
#[derive(Drop)]
pub struct Meter {
    connections: AtomicU64,
    parked: AtomicU64,
    requests: AtomicU64,
    // How often each limit refused something that wasn't taken yet.
    at_connections: AtomicU64,
    at_incoming: AtomicU64,
    at_sessions: AtomicU64,
    at_openings: AtomicU64,
}

impl Meter {
    /// All are 0. It takes no memory.
    pub fn new() -> Meter {
        Meter {
            connections: AtomicU64::new(0),
            parked: AtomicU64::new(0),
            requests: AtomicU64::new(0),
            at_connections: AtomicU64::new(0),
            at_incoming: AtomicU64::new(0),
            at_sessions: AtomicU64::new(0),
            at_openings: AtomicU64::new(0),
        }
    }

    /// A connection is open.
    pub fn open(&self) {
        self.connections.fetch_add(1, Ordering::SeqCst);
    }

    /// One that was is no longer.
    pub fn close(&self) {
        self.connections.fetch_sub(1, Ordering::SeqCst);
    }

    /// A request waits in its session.
    pub fn park(&self) {
        self.parked.fetch_add(1, Ordering::SeqCst);
    }

    /// One that did waits no longer.
    pub fn unpark(&self) {
        self.parked.fetch_sub(1, Ordering::SeqCst);
    }

    /// So many requests came.
    pub fn came(&self, count: u64) {
        self.requests.fetch_add(count, Ordering::SeqCst);
    }

    // How often this limit refused something.
    fn refused(&self, limit: Limit) -> &AtomicU64 {
        match limit {
            Limit::Connections => &self.at_connections,
            Limit::Incoming => &self.at_incoming,
            Limit::Sessions => &self.at_sessions,
            Limit::Openings => &self.at_openings,
        }
    }

    /// Something was refused at this limit. Whether it is the first since these were taken.
    pub fn refuse(&self, limit: Limit) -> bool {
        self.refused(limit).fetch_add(1, Ordering::SeqCst) == 0
    }

    /// How often something was refused at this limit since that was taken last.
    pub fn take_refused(&self, limit: Limit) -> u64 {
        self.refused(limit).swap(0, Ordering::SeqCst)
    }

    /// What the counts are.
    pub fn read(&self) -> Reading {
        Reading {
            connections: self.connections.load(Ordering::SeqCst),
            parked: self.parked.load(Ordering::SeqCst),
            requests: self.requests.load(Ordering::SeqCst),
        }
    }
}

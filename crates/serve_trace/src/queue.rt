// The queue between those who see and the one who writes.
use crate::noted::Noted;
use std::alloc::{AllocError, Global};
use std::collections::VecDeque;
use std::mem::swap;
use std::rt::Clock;
use std::sync::{Arc, Condvar, Mutex, Wait};
use std::time::Duration;

/// How many notes wait at most.
const MOST_NOTES: usize = 65_536;

/// How many bytes of texts they have before no more is taken.
const MOST_BYTES: usize = 67_108_864;

/// How many sessions are named at once of which something found no room.
const MOST_LOST: usize = 1024;

/// What was noted since it was asked for last.
#[derive(Drop)]
pub struct Batch {
    pub noted: VecDeque<Noted>,
    /// The sessions of which something found no room.
    pub lost: Vec<u64>,
    /// Something was lost, of whichever sessions.
    pub is_all_lost: bool,
    /// Nothing more will be noted.
    pub is_over: bool,
}

impl Batch {
    /// Nothing. It takes no memory.
    pub fn new(alloc: Global) -> Batch {
        Batch {
            noted: VecDeque::new(alloc),
            lost: Vec::new(alloc),
            is_all_lost: false,
            is_over: false,
        }
    }

    fn is_empty(&self) -> bool {
        self.noted.is_empty() && self.lost.is_empty() && !self.is_all_lost
    }
}

#[derive(Drop)]
struct State {
    batch: Batch,
    bytes: usize,
}

impl State {
    // Notes this, or that it found no room.
    fn note(&mut self, noted: Noted) {
        let number = noted.number;
        let more = noted.len();
        if self.batch.noted.len() >= MOST_NOTES || self.bytes >= MOST_BYTES {
            self.lose(number);
            return;
        }
        if self.batch.noted.push_back(noted).is_err() {
            self.lose(number);
            return;
        }
        self.bytes = self.bytes.saturating_add(more);
    }

    // Something of this session is lost.
    fn lose(&mut self, number: u64) {
        if self.batch.lost.contains(&number) {
            return;
        }
        if self.batch.lost.len() >= MOST_LOST || self.batch.lost.push(number).is_err() {
            self.batch.is_all_lost = true;
        }
    }

    // Exchanges what was noted for this, which is to be nothing.
    fn hand_out(&mut self, batch: &mut Batch) {
        batch.is_over = self.batch.is_over;
        batch.is_all_lost = self.batch.is_all_lost;
        self.batch.is_all_lost = false;
        swap(&mut self.batch.noted, &mut batch.noted);
        swap(&mut self.batch.lost, &mut batch.lost);
        self.bytes = 0;
    }
}

/// A queue that holds nobody up who notes something in it: what finds no room is lost, and of which session that was is kept.
#[derive(Drop)]
pub struct TraceQueue {
    state: Mutex<State>,
    changed: Condvar,
}

impl TraceQueue {
    pub fn new(alloc: Global) -> Result<Arc<TraceQueue>, AllocError> {
        let state = State {
            batch: Batch::new(alloc),
            bytes: 0,
        };
        let queue = TraceQueue {
            state: Mutex::new(state),
            changed: Condvar::new(),
        };
        match Arc::new(alloc, queue) {
            Ok(queue) => Ok(queue),
            Err(_) => Err(AllocError),
        }
    }

    /// Notes this.
    pub fn note<R: Wait>(&self, rt: &R, noted: Noted) {
        let mut state = self.state.lock(rt);
        let was_empty = state.batch.is_empty();
        state.note(noted);
        drop(state);
        if was_empty {
            self.changed.notify_one();
        }
    }

    /// Something of this session is lost, since memory was wanted.
    pub fn lose<R: Wait>(&self, rt: &R, number: u64) {
        self.state.lock(rt).lose(number);
        self.changed.notify_one();
    }

    /// Something is lost, and of which session isn't known.
    pub fn lose_all<R: Wait>(&self, rt: &R) {
        self.state.lock(rt).batch.is_all_lost = true;
        self.changed.notify_one();
    }

    /// Nothing more will be noted.
    pub fn end<R: Wait>(&self, rt: &R) {
        self.state.lock(rt).batch.is_over = true;
        self.changed.notify_one();
    }

    /// Takes what was noted, as it is now, in the place of this, which is to be nothing.
    pub fn take_now<R: Wait>(&self, rt: &R, batch: &mut Batch) {
        self.state.lock(rt).hand_out(batch);
    }

    /// Takes what was noted once there is something, or nothing more comes, or after so long, where that is said.
    pub fn take<R: Wait + Clock>(&self, rt: &R, limit: Option<Duration>, batch: &mut Batch) {
        let state = self.state.lock(rt);
        let mut state = match limit {
            Some(limit) => {
                let (state, _) = self.changed.wait_timeout_while(rt, state, limit, |state| {
                    state.batch.is_empty() && !state.batch.is_over
                });
                state
            }
            None => self.changed.wait_while(rt, state, |state| {
                state.batch.is_empty() && !state.batch.is_over
            }),
        };
        state.hand_out(batch);
    }
}

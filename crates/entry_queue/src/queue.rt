// The queue between those who make entries and the one who stores them.
use session_journal::Entry;
use std::alloc::{AllocError, Global};
use std::collections::VecDeque;
use std::mem::swap;
use std::rt::Clock;
use std::sync::atomic::{AtomicU64, Ordering};
use std::sync::{Arc, Condvar, Mutex, Wait};
use std::time::Duration;

/// An entry of a session that isn't stored yet.
#[derive(Drop)]
pub struct Noted {
    /// The opening number of its session.
    pub session: u64,
    /// How many entries of the session stand before it.
    pub index: u64,
    pub entry: Entry,
}

/// What was found in the queue.
#[derive(Clone, Copy, Debug, PartialEq, Eq)]
pub struct Taken {
    /// How many entries were noted in all.
    pub noted: u64,
    /// Nothing more will be noted.
    pub is_over: bool,
}

#[derive(Drop)]
struct Pending {
    entries: VecDeque<Noted>,
    is_over: bool,
}

impl Pending {
    fn is_quiet(&self) -> bool {
        self.entries.is_empty() && !self.is_over
    }
}

// How far they are stored, for those who wait for that.
#[derive(Drop)]
struct Progress {
    stored: u64,
    is_over: bool,
}

/// Entries that were made and not stored yet, and how many are stored. Two entries of one session may be noted in either order, each with its
/// place in the session's history.
#[derive(Drop)]
pub struct EntryQueue {
    pending: Mutex<Pending>,
    // Something was noted.
    changed: Condvar,
    // How many entries were noted, and how many of these, from the first on, are stored.
    noted: AtomicU64,
    stored: AtomicU64,
    // Whether entries are lost, since the disk failed or there was no memory: 1 where that is so.
    lost: AtomicU64,
    progress: Mutex<Progress>,
    advanced: Condvar,
}

impl EntryQueue {
    /// Nothing was noted. The only error is want of memory.
    pub fn new(alloc: Global) -> Result<Arc<EntryQueue>, AllocError> {
        let queue = EntryQueue {
            pending: Mutex::new(Pending {
                entries: VecDeque::new(alloc),
                is_over: false,
            }),
            changed: Condvar::new(),
            noted: AtomicU64::new(0),
            stored: AtomicU64::new(0),
            lost: AtomicU64::new(0),
            progress: Mutex::new(Progress {
                stored: 0,
                is_over: false,
            }),
            advanced: Condvar::new(),
        };
        match Arc::new(alloc, queue) {
            Ok(queue) => Ok(queue),
            Err(_) => Err(AllocError),
        }
    }

    /// Notes an entry. Where there is no memory for it all that comes later is lost too: nothing is stored any more.
    pub fn note<R: Wait>(&self, rt: &R, noted: Noted) {
        let mut pending = self.pending.lock(rt);
        let was_quiet = pending.is_quiet();
        if pending.entries.push_back(noted).is_err() {
            self.lost.store(1, Ordering::SeqCst);
        }
        self.noted.fetch_add(1, Ordering::SeqCst);
        drop(pending);
        if was_quiet {
            self.changed.notify_one();
        }
    }

    /// How many entries were noted up to now.
    pub fn noted(&self) -> u64 {
        self.noted.load(Ordering::SeqCst)
    }

    /// Whether so many entries are stored.
    pub fn has_stored(&self, count: u64) -> bool {
        self.stored.load(Ordering::SeqCst) >= count
    }

    /// Whether entries are lost: nothing is stored any more.
    pub fn is_lost(&self) -> bool {
        self.lost.load(Ordering::SeqCst) != 0
    }

    /// Takes what was noted once there is something, or after so long, in the place of this, which is to be empty.
    pub fn take<R: Wait + Clock>(
        &self,
        rt: &R,
        limit: Duration,
        entries: &mut VecDeque<Noted>,
    ) -> Taken {
        let pending = self.pending.lock(rt);
        let (pending, _) = self
            .changed
            .wait_timeout_while(rt, pending, limit, |pending| pending.is_quiet());
        let mut pending = pending;
        swap(&mut pending.entries, entries);
        Taken {
            noted: self.noted.load(Ordering::SeqCst),
            is_over: pending.is_over,
        }
    }

    /// Whether nothing waits to be taken.
    pub fn is_idle<R: Wait>(&self, rt: &R) -> bool {
        self.pending.lock(rt).entries.is_empty()
    }

    /// So many entries are stored, from the first on.
    pub fn tell_stored<R: Wait>(&self, rt: &R, count: u64) {
        self.stored.store(count, Ordering::SeqCst);
        self.progress.lock(rt).stored = count;
        self.advanced.notify_all();
    }

    /// The disk failed: nothing is stored any more.
    pub fn lose<R: Wait>(&self, rt: &R) {
        self.lost.store(1, Ordering::SeqCst);
        self.progress.lock(rt).stored = u64::MAX;
        self.advanced.notify_all();
    }

    /// Waits until more than so many are stored, or entries are lost: how many are stored then. None once nothing more will be noted.
    pub fn await_more<R: Wait>(&self, rt: &R, count: u64) -> Option<u64> {
        let progress = self.progress.lock(rt);
        let progress = self.advanced.wait_while(rt, progress, |progress| {
            progress.stored <= count && !progress.is_over
        });
        if progress.is_over {
            return None;
        }
        Some(progress.stored)
    }

    /// Nothing more will be noted.
    pub fn end<R: Wait>(&self, rt: &R) {
        self.pending.lock(rt).is_over = true;
        self.changed.notify_one();
        self.progress.lock(rt).is_over = true;
        self.advanced.notify_all();
    }
}

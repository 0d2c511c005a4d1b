// The queue between those who note and the one who takes.
ghost use Rattle.std.specs.Prelude.{◌≡◌, ◌≤◌, ◌+◌, ◌-◌, ◌^◌, ◌++◌, ◌∷◌, ◌⊎◌, [], false, length, min};

use crate::note::Note;
use std::alloc::{AllocError, Global};
use std::collections::VecDeque;
use std::mem::swap;
use std::rt::Clock;
use std::sync::{Arc, Condvar, Mutex, Wait};
use std::time::Duration;

/// How many notes wait at most.
const MOST_NOTES: usize = 65_536;

/// What was noted since it was taken last.
#[derive(Drop)]
pub struct Batch {
    pub notes: VecDeque<Note>,
    /// How many notes found no room, or no memory.
    pub dropped: u64,
    /// Something is to be looked at that is no note.
    pub is_roused: bool,
    /// Nothing more will be noted.
    pub is_over: bool,
}

impl Batch {
    /// Nothing. It takes no memory.
    pub fn new(alloc: Global) -> Batch
        ensures notes { result.notes.items ≡ [] }
        ensures dropped { result.dropped ≡ 0 }
    {
        Batch {
            notes: VecDeque::new(alloc),
            dropped: 0,
            is_roused: false,
            is_over: false,
        }
    }

    // Whether there is nothing to be done.
    fn is_quiet(&self) -> bool {
        if self.is_roused || self.is_over {
            return false;
        }
        self.notes.is_empty() && self.dropped == 0
    }

    // Puts a note behind the others, or counts it as dropped.
    fn put(&mut self, note: Note)
        ensures put { ((self.new.notes.items ≡ self.old.notes.items ++ note ∷ []) × (self.new.dropped ≡ self.old.dropped))
            ⊎ ((self.new.notes.items ≡ self.old.notes.items) × (self.new.dropped ≡ min (self.old.dropped + 1) (2 ^ 64 - 1))) }
        ensures few { length self.old.notes.items ≤ 65536 → length self.new.notes.items ≤ 65536 }
    {
        if self.notes.len() >= MOST_NOTES || self.notes.push_back(note).is_err() {
            self.dropped = self.dropped.saturating_add(1);
        }
    }

    // Exchanges what was noted for this, which is to be nothing.
    fn hand_out(&mut self, batch: &mut Batch)
        ensures notes { batch.new.notes.items ≡ self.old.notes.items }
        ensures dropped { batch.new.dropped ≡ self.old.dropped }
        ensures over { batch.new.is_over ≡ self.old.is_over }
        ensures taken { self.new.notes.items ≡ batch.old.notes.items }
        ensures none { self.new.dropped ≡ 0 }
        ensures quiet { self.new.is_roused ≡ false }
    {
        batch.is_over = self.is_over;
        batch.is_roused = self.is_roused;
        batch.dropped = self.dropped;
        self.is_roused = false;
        self.dropped = 0;
        swap(&mut self.notes, &mut batch.notes);
    }
}

/// A queue that holds nobody up who notes something in it: what finds no room is counted and let go.
#[derive(Drop)]
pub struct NoteQueue {
    batch: Mutex<Batch>,
    changed: Condvar,
}

impl NoteQueue {
    /// Nothing was noted. The only error is want of memory.
    pub fn new(alloc: Global) -> Result<Arc<NoteQueue>, AllocError> {
        let queue = NoteQueue {
            batch: Mutex::new(Batch::new(alloc)),
            changed: Condvar::new(),
        };
        match Arc::new(alloc, queue) {
            Ok(queue) => Ok(queue),
            Err(_) => Err(AllocError),
        }
    }

    /// Notes this.
    pub fn note<R: Wait>(&self, rt: &R, note: Note) {
        let mut batch = self.batch.lock(rt);
        let was_quiet = batch.is_quiet();
        batch.put(note);
        drop(batch);
        if was_quiet {
            self.changed.notify_one();
        }
    }

    /// So many notes found no memory.
    pub fn lose<R: Wait>(&self, rt: &R, count: u64) {
        let mut batch = self.batch.lock(rt);
        batch.dropped = batch.dropped.saturating_add(count);
        drop(batch);
        self.changed.notify_one();
    }

    /// Something is to be looked at that is no note.
    pub fn rouse<R: Wait>(&self, rt: &R) {
        self.batch.lock(rt).is_roused = true;
        self.changed.notify_one();
    }

    /// Nothing more will be noted.
    pub fn end<R: Wait>(&self, rt: &R) {
        self.batch.lock(rt).is_over = true;
        self.changed.notify_one();
    }

    /// Takes what was noted, as it is now, in the place of this, which is to be nothing.
    pub fn take_now<R: Wait>(&self, rt: &R, batch: &mut Batch) {
        self.batch.lock(rt).hand_out(batch);
    }

    /// Takes what was noted once there is something to be done, or after so long.
    pub fn take<R: Wait + Clock>(&self, rt: &R, limit: Duration, batch: &mut Batch) {
        let noted = self.batch.lock(rt);
        let (noted, _) = self
            .changed
            .wait_timeout_while(rt, noted, limit, |noted| noted.is_quiet());
        let mut noted = noted;
        noted.hand_out(batch);
    }
}

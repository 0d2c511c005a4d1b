// What a server tells who watches it.
use crate::limit::Limit;
use crate::meter::Meter;
use crate::note::Note;
use crate::queue::NoteQueue;
use std::alloc::{AllocError, Global};
use std::sync::{Arc, Wait};

/// Counts and a queue of notes, where somebody watches; nothing otherwise. What a request does to it takes no lock and no memory.
#[derive(Drop)]
pub struct Watch {
    watched: Option<Watched>,
}

#[derive(Drop)]
struct Watched {
    meter: Arc<Meter>,
    queue: Arc<NoteQueue>,
}

impl Watch {
    /// Nobody watches. It takes no memory.
    pub fn off() -> Watch {
        Watch { watched: None }
    }

    /// Somebody does: all counts are 0, and nothing was noted. The only error is want of memory.
    pub fn on(alloc: Global) -> Result<Watch, AllocError> {
        let queue = NoteQueue::new(alloc)?;
        match Arc::new(alloc, Meter::new()) {
            Ok(meter) => Ok(Watch {
                watched: Some(Watched { meter, queue }),
            }),
            Err(_) => Err(AllocError),
        }
    }

    /// The same, held once more. The only error is want of memory.
    pub fn again(&self) -> Result<Watch, AllocError> {
        let Some(watched) = &self.watched else {
            return Ok(Watch::off());
        };
        let meter = Arc::try_clone(&watched.meter)?;
        let queue = Arc::try_clone(&watched.queue)?;
        Ok(Watch {
            watched: Some(Watched { meter, queue }),
        })
    }

    /// Whether somebody watches.
    pub fn is_on(&self) -> bool {
        self.watched.is_some()
    }

    /// The counts, where somebody watches.
    pub fn meter(&self) -> Option<&Meter> {
        match &self.watched {
            Some(watched) => Some(&*watched.meter),
            None => None,
        }
    }

    /// The queue of notes, where somebody watches.
    pub fn queue(&self) -> Option<&NoteQueue> {
        match &self.watched {
            Some(watched) => Some(&*watched.queue),
            None => None,
        }
    }

    /// A connection is open.
    pub fn open(&self) {
        if let Some(meter) = self.meter() {
            meter.open();
        }
    }

    /// One that was is no longer.
    pub fn close(&self) {
        if let Some(meter) = self.meter() {
            meter.close();
        }
    }

    /// So many requests came.
    pub fn came(&self, count: u64) {
        if count == 0 {
            return;
        }
        if let Some(meter) = self.meter() {
            meter.came(count);
        }
    }

    /// Whether a request of a connection waits in its session, where that was so or not before.
    pub fn park(&self, was_parked: bool, is_parked: bool) {
        if was_parked == is_parked {
            return;
        }
        if let Some(meter) = self.meter() {
            match is_parked {
                true => meter.park(),
                false => meter.unpark(),
            }
        }
    }

    /// Something was refused at this limit. Who takes the notes is woken by the first since that was taken.
    pub fn refuse<R: Wait>(&self, rt: &R, limit: Limit) {
        let Some(watched) = &self.watched else {
            return;
        };
        if watched.meter.refuse(limit) {
            watched.queue.rouse(rt);
        }
    }

    /// Notes this. None is a note for which there was no memory.
    pub fn note<R: Wait>(&self, rt: &R, note: Option<Note>) {
        let Some(queue) = self.queue() else {
            return;
        };
        match note {
            Some(note) => queue.note(rt, note),
            None => queue.lose(rt, 1),
        }
    }

    /// So many notes found no memory.
    pub fn lose<R: Wait>(&self, rt: &R, count: u64) {
        if count == 0 {
            return;
        }
        if let Some(queue) = self.queue() {
            queue.lose(rt, count);
        }
    }
}

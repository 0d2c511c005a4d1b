// The thread that stores.
ghost use Rattle.std.specs.Prelude.{◌≡◌};
ghost use Rattle.journal_store.specs.RecordFile.{IsReady};

use crate::writer::Writer;
use entry_queue::{EntryQueue, Noted};
use journal_store::Disk;
use std::alloc::{AllocError, Global};
use std::collections::VecDeque;
use std::rt::Clock;
use std::sync::{Arc, Wait};
use std::thread;
use std::thread::{JoinHandle, Threads};
use std::time::Duration;

/// How long the thread sleeps where nothing is entered, in milliseconds.
const REST: u64 = 60_000;

/// The thread that stores what sessions enter, and the queue that it is fed by.
#[derive(Drop)]
pub struct Keeping {
    pub queue: Arc<EntryQueue>,
    thread: JoinHandle<()>,
}

/// Starts that thread. Its writer's file is one that was opened and of which no call failed. The only error is want of memory, or of a thread.
pub fn start_keeping<R, D>(
    rt: &R,
    alloc: Global,
    queue: Arc<EntryQueue>,
    writer: Writer<D>,
) -> Result<Keeping, AllocError>
where
    R: Wait + Threads + Clock + Copy + Send + Drop + 'static,
    D: Disk + Send + Drop + 'static,
    requires { D.told → IsReady D.seen D.time D.left writer.store.journals.file }
{
    let own_queue = Arc::try_clone(&queue)?;
    let own = *rt;
    let writer = writer;
    let store = move ||
        requires { D.told → IsReady D.seen D.time D.left writer.store.journals.file }
    { store_all(&own, alloc, &own_queue, writer) };
    match thread::spawn(rt, store) {
        Ok(thread) => Ok(Keeping { queue, thread }),
        Err(_) => Err(AllocError),
    }
}

impl Keeping {
    /// Nothing more is entered: what was is stored. Whether all of it could be.
    pub fn end<R: Wait + Threads>(self, rt: &R) -> bool {
        let Keeping { queue, thread } = self;
        queue.end(rt);
        let _ = thread.join(rt);
        !queue.is_lost()
    }
}

// Stores what is entered until nothing more will be.
fn store_all<R, D>(rt: &R, alloc: Global, queue: &EntryQueue, writer: Writer<D>)
where
    R: Wait + Clock,
    D: Disk + Drop,
    requires { D.told → IsReady D.seen D.time D.left writer.store.journals.file }
{
    let mut writer = writer;
    let mut entries: VecDeque<Noted> = VecDeque::new(alloc);
    for _ in rt.forever() {
        let taken = queue.take(rt, Duration::from_millis(REST), &mut entries);
        if !entries.is_empty() && writer.write(rt, queue, &mut entries).is_none() {
            return;
        }
        if taken.is_over && queue.is_idle(rt) {
            return;
        }
    }
}

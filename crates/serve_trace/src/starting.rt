// The thread that writes.
use crate::files::TraceFiles;
use crate::greeting::Greeting;
use crate::paper::Paper;
use crate::queue::{Batch, TraceQueue};
use crate::recorder::Recorder;
use std::alloc::{AllocError, Global};
use std::fs::DirBuilder;
use std::io::Eprint;
use std::os::unix::fs::DirBuilderExt;
use std::rt::{Clock, Files};
use std::sync::{Arc, Wait};
use std::thread;
use std::thread::{JoinHandle, Threads};
use std::time::{Duration, Instant};

/// How long the thread sleeps where nothing is noted and sessions are known, in milliseconds.
const REST: u64 = 500;

/// The owner alone reads a directory that is made here.
const MODE: u32 = 0o700;

/// The thread that writes the traces, and the queue that it is fed by.
#[derive(Drop)]
pub struct Tracing {
    pub queue: Arc<TraceQueue>,
    thread: JoinHandle<()>,
}

/// Starts that thread. The directory is made where it isn't there. Where there is no thread to be had there is as good as no memory.
pub fn start_tracing<R>(
    rt: &R,
    alloc: Global,
    directory: String,
    greetings: Vec<Greeting>,
) -> Result<Tracing, AllocError>
where
    R: Wait + Threads + Clock + Files + Eprint + Copy + Send + Drop + 'static,
    R::File: Send,
    R::Dir: Send,
{
    let _ = DirBuilder::new().mode(MODE).create(rt, directory.as_str());
    let queue = TraceQueue::new(alloc)?;
    let own_queue = Arc::try_clone(&queue)?;
    let own = *rt;
    let directory = directory;
    let greetings = greetings;
    match thread::spawn(rt, move || {
        let paper = TraceFiles::new(own, alloc, directory);
        write_traces(
            &own,
            alloc,
            &own_queue,
            Recorder::new(alloc, paper, greetings),
        );
    }) {
        Ok(thread) => Ok(Tracing { queue, thread }),
        Err(_) => Err(AllocError),
    }
}

impl Tracing {
    /// Writes what was noted, and ends all traces.
    pub fn end<R: Wait + Threads>(self, rt: &R) {
        let Tracing { queue, thread } = self;
        queue.end(rt);
        let _ = thread.join(rt);
    }
}

// Writes what is noted until nothing more will be.
fn write_traces<R, P>(rt: &R, alloc: Global, queue: &TraceQueue, recorder: Recorder<P>)
where
    R: Wait + Clock,
    P: Paper + Drop,
{
    let start = Instant::now(rt).ok();
    let mut recorder = recorder;
    let mut batch = Batch::new(alloc);
    for _ in rt.forever() {
        let limit = if recorder.is_idle() {
            None
        } else {
            Some(Duration::from_millis(REST))
        };
        queue.take(rt, limit, &mut batch);
        recorder.hear(&mut batch, millis_since(rt, start));
        if batch.is_over {
            recorder.finish();
            return;
        }
    }
}

// How many milliseconds have passed since a moment, where the clock tells.
fn millis_since<R: Clock>(rt: &R, start: Option<Instant>) -> u64 {
    let (Some(start), Ok(now)) = (start, Instant::now(rt)) else {
        return 0;
    };
    u64::try_from(now.duration_since(start).as_millis()).unwrap_or(u64::MAX)
}

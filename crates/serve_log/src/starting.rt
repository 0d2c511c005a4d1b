// The thread that writes.
use crate::almanac::{Almanac, RealAlmanac};
use crate::writer::LogWriter;
use bosh_ports::Sink;
use server_watch::{Batch, Meter, NoteQueue, Watch};
use std::alloc::{AllocError, Global};
use std::rt::{Clock, Files};
use std::sync::Wait;
use std::thread;
use std::thread::{JoinHandle, Threads};
use std::time::{Duration, Instant};

/// The thread that writes a log, and what it is fed by.
#[derive(Drop)]
pub struct Logging {
    pub watch: Watch,
    thread: JoinHandle<()>,
}

/// Starts that thread, which writes to this sink. Where there is no thread to be had there is as good as no memory.
pub fn start_log<R, K>(rt: &R, alloc: Global, sink: K) -> Result<Logging, AllocError>
where
    R: Wait + Threads + Clock + Files + Copy + Send + Drop + 'static,
    R::File: Send,
    R::Dir: Send,
    K: Sink + Send + Drop + 'static,
{
    let watch = Watch::on(alloc)?;
    let own_watch = watch.again()?;
    let own = *rt;
    let sink = sink;
    match thread::spawn(rt, move || {
        let almanac = RealAlmanac::new(own, alloc);
        write_log(
            &own,
            alloc,
            &own_watch,
            LogWriter::new(alloc, sink, almanac),
        );
    }) {
        Ok(thread) => Ok(Logging { watch, thread }),
        Err(_) => Err(AllocError),
    }
}

impl Logging {
    /// Writes what was noted, and the counts once more.
    pub fn end<R: Wait + Threads>(self, rt: &R) {
        let Logging { watch, thread } = self;
        if let Some(queue) = watch.queue() {
            queue.end(rt);
        }
        let _ = thread.join(rt);
    }
}

// Writes what is noted until nothing more will be.
fn write_log<R, K, A>(rt: &R, alloc: Global, watch: &Watch, writer: LogWriter<K, A>)
where
    R: Wait + Clock,
    K: Sink + Drop,
    A: Almanac + Drop,
{
    if let (Some(queue), Some(meter)) = (watch.queue(), watch.meter()) {
        write_notes(rt, alloc, queue, meter, writer);
    }
}

fn write_notes<R, K, A>(
    rt: &R,
    alloc: Global,
    queue: &NoteQueue,
    meter: &Meter,
    writer: LogWriter<K, A>,
)
where
    R: Wait + Clock,
    K: Sink + Drop,
    A: Almanac + Drop,
{
    let start = Instant::now(rt).ok();
    let mut writer = writer;
    let mut batch = Batch::new(alloc);
    for _ in rt.forever() {
        let rest = writer.rest(millis_since(rt, start));
        queue.take(rt, Duration::from_millis(rest), &mut batch);
        writer.hear(meter, &mut batch, millis_since(rt, start));
        if batch.is_over {
            writer.finish(meter);
            return;
        }
    }
}

// How many milliseconds have passed since a moment, where the clock tells.
fn millis_since<R: Clock>(rt: &R, start: Option<Instant>) -> u64 {
    let (Some(start), Ok(now)) = (start, Instant::now(rt)) else {
        return 0;
    };
    u64::try_from(now.duration_since(start).as_millis()).unwrap_or(u64::MAX)
}

// A server that is watched, step by step, and the lines that are written of it.
use bosh_ports::MemorySink;
use bosh_types::{Ending, Moment, Rid, SharedText, Text};
use serve_log::{Almanac, LogWriter};
use server_watch::{Batch, Carried, Limit, Note, Watch};
use std::alloc::{AllocError, Global};
use std::sync::Wait;

/// Always the same moment, and so much memory.
#[derive(Drop)]
pub struct StillAlmanac {
    alloc: Global,
}

impl Almanac for StillAlmanac {
    fn stamp(&mut self) -> Option<String> {
        String::from_str(self.alloc, "T").ok()
    }

    fn memory(&mut self) -> Option<u64> {
        Some(4096)
    }
}

/// What happens at the server.
#[derive(Clone, Copy, Debug, PartialEq, Eq)]
pub enum Step {
    /// The session with this number is opened at this host, at this moment.
    Opened(u64, &'static str, u64),
    /// It ends by a terminate with this id, at this moment.
    Terminated(u64, u64, u64),
    /// It ends by silence.
    Silenced(u64, u64),
    /// Its back end has carried so many stanzas in and out.
    Carried(u64, u64, u64),
    /// The back end of a host fails, and another takes its place or not.
    Failed(&'static str, bool),
    /// Something is refused so often.
    Refused(Limit, u64),
    /// A connection opens, a request waits, and so many requests come.
    Counted(u64),
    /// A note finds no room.
    Lost,
}

/// What is watched, and who writes.
#[derive(Drop)]
pub struct Scene {
    alloc: Global,
    pub watch: Watch,
    batch: Batch,
    pub writer: LogWriter<MemorySink, StillAlmanac>,
}

pub fn shared(alloc: Global, bytes: &str) -> Result<SharedText, AllocError> {
    SharedText::new(
        alloc,
        Text::from_vec(Vec::from_slice(alloc, bytes.as_bytes())?),
    )
}

// The name of the session with this number.
fn sid(alloc: Global, number: u64) -> Result<SharedText, AllocError> {
    let text = format!(in alloc; "k-{number}")?;
    shared(alloc, text.as_str())
}

impl Scene {
    pub fn new(alloc: Global) -> Result<Scene, AllocError> {
        let sink = MemorySink::new(alloc, Vec::new(alloc));
        Ok(Scene {
            alloc,
            watch: Watch::on(alloc)?,
            batch: Batch::new(alloc),
            writer: LogWriter::new(alloc, sink, StillAlmanac { alloc }),
        })
    }

    /// What happens, step by step, and all of it heard at this moment.
    pub fn see<R: Wait>(&mut self, rt: &R, steps: &[Step], now: u64) -> Result<(), AllocError> {
        for step in steps {
            self.take_step(rt, *step)?;
        }
        if let (Some(queue), Some(meter)) = (self.watch.queue(), self.watch.meter()) {
            queue.take_now(rt, &mut self.batch);
            self.writer.hear(meter, &mut self.batch, now);
        }
        Ok(())
    }

    /// The lines that were written.
    pub fn lines(&self) -> &[u8] {
        self.writer.sink().as_slice()
    }

    fn take_step<R: Wait>(&mut self, rt: &R, step: Step) -> Result<(), AllocError> {
        match step {
            Step::Refused(limit, times) => {
                for _ in 0..times {
                    self.watch.refuse(rt, limit);
                }
            }
            Step::Counted(requests) => {
                self.watch.open();
                self.watch.park(false, true);
                self.watch.came(requests);
            }
            Step::Lost => self.watch.note(rt, None),
            _ => {
                if let Some(note) = note_of(self.alloc, step)? {
                    self.watch.note(rt, Some(note));
                }
            }
        }
        Ok(())
    }
}

fn note_of(alloc: Global, step: Step) -> Result<Option<Note>, AllocError> {
    match step {
        Step::Opened(number, host, at) => Ok(Some(Note::Opened {
            number,
            sid: sid(alloc, number)?,
            host: shared(alloc, host)?,
            at: Moment::from_millis(at),
        })),
        Step::Terminated(number, id, at) => Ok(Some(Note::Ended {
            number,
            sid: sid(alloc, number)?,
            ending: Rid::new(id).map(|rid| Ending::Terminated { rid }),
            at: Moment::from_millis(at),
        })),
        Step::Silenced(number, at) => Ok(Some(Note::Ended {
            number,
            sid: sid(alloc, number)?,
            ending: Some(Ending::Silent {
                since: Moment::from_millis(1),
                now: Moment::from_millis(at),
            }),
            at: Moment::from_millis(at),
        })),
        Step::Carried(number, inward, outward) => Ok(Some(Note::Carried {
            number,
            carried: Carried { inward, outward },
        })),
        Step::Failed(host, is_replaced) => Ok(Some(Note::Failed {
            host: shared(alloc, host)?,
            is_replaced,
        })),
        Step::Refused(_, _) | Step::Counted(_) | Step::Lost => Ok(None),
    }
}

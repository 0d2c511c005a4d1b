// What the one who writes a log asks the system.
use crate::resident::resident_kib;
use jiff::Timestamp;
use std::alloc::Global;
use std::fs::File;
use std::io::Read;
use std::rt::{Clock, Files};
use std::time::{SystemTime, UNIX_EPOCH};

/// Where the system tells of a process how much memory it has.
const STATUS: &str = "/proc/self/status";

/// How many bytes of that are read at most.
const MOST: usize = 4096;

/// What time it is by the calendar, and how much memory the process has. None where that can't be had.
pub trait Almanac {
    /// The moment as a text (RFC 3339).
    fn stamp(&mut self) -> Option<String>;

    /// How many kibibytes of its memory are resident.
    fn memory(&mut self) -> Option<u64>;
}

/// What the system says.
#[derive(Drop)]
pub struct RealAlmanac<R: Clock + Files + Drop> {
    rt: R,
    alloc: Global,
}

impl<R: Clock + Files + Drop> RealAlmanac<R> {
    pub fn new(rt: R, alloc: Global) -> RealAlmanac<R> {
        RealAlmanac { rt, alloc }
    }
}

impl<R: Clock + Files + Drop> Almanac for RealAlmanac<R> {
    fn stamp(&mut self) -> Option<String> {
        let now = SystemTime::now(&self.rt).ok()?;
        let since = now.duration_since(UNIX_EPOCH).ok()?;
        let millis = i64::try_from(since.as_millis()).ok()?;
        let moment = Timestamp::from_millisecond(millis).ok()?;
        format!(in self.alloc; "{moment:.3}").ok()
    }

    fn memory(&mut self) -> Option<u64> {
        let mut room = [0u8; MOST];
        let mut file = File::open(&self.rt, STATUS).ok()?;
        let count = file.read(&mut room).ok()?;
        resident_kib(&room[..count.min(MOST)])
    }
}

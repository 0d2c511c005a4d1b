// The one who writes.
ghost use Rattle.std.specs.Prelude.{◌≡◌, ◌≤◌, ◌-◌};

use crate::almanac::Almanac;
use crate::ledger::Ledger;
use crate::lines::Lines;
use crate::pace::Pace;
use bosh_ports::{Sink, give_all};
use bosh_types::{Ending, Moment, SharedText};
use server_watch::{Batch, LIMITS, Limit, Meter, Note};
use std::alloc::Global;

/// How often the counts are told, in milliseconds.
const MINUTE: u64 = 60_000;

/// How many bytes of lines are put together before they are written.
const MOST: usize = 65_536;

/// How often each limit refused something.
#[derive(Clone, Copy, Debug)]
struct Refusals {
    connections: Pace,
    incoming: Pace,
    sessions: Pace,
    openings: Pace,
}

impl Refusals {
    fn at(&mut self, limit: Limit) -> &mut Pace {
        match limit {
            Limit::Connections => &mut self.connections,
            Limit::Incoming => &mut self.incoming,
            Limit::Sessions => &mut self.sessions,
            Limit::Openings => &mut self.openings,
        }
    }
}

/// Writes lines to a sink, from notes and counts. Moments are milliseconds of one clock.
#[derive(Drop)]
pub struct LogWriter<K: Sink + Drop, A: Almanac + Drop> {
    sink: K,
    almanac: A,
    ledger: Ledger,
    lines: Lines,
    refusals: Refusals,
    // Failures of back ends that nothing replaced, and of lines that were dropped.
    failures: Pace,
    losses: Pace,
    counted_at: u64,
}

impl<K: Sink + Drop, A: Almanac + Drop> LogWriter<K, A> {
    /// Nothing was written. It takes no memory.
    pub fn new(alloc: Global, sink: K, almanac: A) -> LogWriter<K, A> {
        LogWriter {
            sink,
            almanac,
            ledger: Ledger::new(alloc),
            lines: Lines::new(alloc),
            refusals: Refusals {
                connections: Pace::new(),
                incoming: Pace::new(),
                sessions: Pace::new(),
                openings: Pace::new(),
            },
            failures: Pace::new(),
            losses: Pace::new(),
            counted_at: 0,
        }
    }

    /// What it writes to.
    pub fn sink(&self) -> &K {
        &self.sink
    }

    /// Writes what was noted by this moment and leaves nothing of it, and then what is due.
    pub fn hear(&mut self, meter: &Meter, batch: &mut Batch, now: u64) {
        let Some(stamp) = self.almanac.stamp() else {
            self.lines.drop_more(batch.notes.len() as u64);
            batch.notes.clear();
            return;
        };
        let at = stamp.as_str();
        let lost = batch.dropped;
        batch.dropped = 0;
        self.lines.drop_more(lost);
        self.losses.add(lost);
        for _ in 0..batch.notes.len() {
            if let Some(note) = batch.notes.pop_front() {
                self.hear_one(at, note, now);
            }
        }
        self.tell_due(at, meter, now);
        if now.saturating_sub(self.counted_at) >= MINUTE {
            self.counted_at = now;
            self.tell_counts(at, meter);
        }
        self.put();
    }

    /// Nothing more is noted: the counts once more.
    pub fn finish(&mut self, meter: &Meter) {
        if let Some(stamp) = self.almanac.stamp() {
            self.tell_counts(stamp.as_str(), meter);
            self.put();
        }
    }

    /// How many milliseconds after this moment there is something to be told, where nothing more is noted.
    pub fn rest(&mut self, now: u64) -> u64
        ensures { result ≤ 60000 }
    {
        let mut rest = MINUTE.saturating_sub(now.saturating_sub(self.counted_at));
        for limit in LIMITS {
            rest = rest.min(self.refusals.at(limit).rest(now).unwrap_or(MINUTE));
        }
        rest = rest.min(self.failures.rest(now).unwrap_or(MINUTE));
        rest = rest.min(self.losses.rest(now).unwrap_or(MINUTE));
        rest.min(MINUTE)
    }

    fn hear_one(&mut self, at: &str, note: Note, now: u64) {
        match note {
            Note::Opened {
                number,
                sid,
                host,
                at: since,
            } => self.opened(at, number, sid, host, since),
            Note::Ended {
                number,
                sid,
                ending,
                at: when,
            } => self.ended(at, number, sid, ending, when),
            Note::Carried { number, carried } => self.ledger.carry(number, carried),
            Note::Failed { host, is_replaced } => self.failed(at, host, is_replaced, now),
        }
        if self.lines.len() >= MOST {
            self.put();
        }
    }

    fn opened(&mut self, at: &str, number: u64, sid: SharedText, host: SharedText, since: Moment) {
        self.lines.opened(at, sid.as_slice(), host.as_slice());
        let _ = self.ledger.open(number, host, since);
    }

    fn ended(
        &mut self,
        at: &str,
        number: u64,
        sid: SharedText,
        ending: Option<Ending>,
        when: Moment,
    ) {
        let live = self.ledger.end(number);
        self.lines
            .ended(at, sid.as_slice(), live.as_ref(), ending, when);
    }

    fn failed(&mut self, at: &str, host: SharedText, is_replaced: bool, now: u64) {
        if is_replaced {
            self.lines.failed(at, host.as_slice(), true, 1);
            return;
        }
        self.failures.add(1);
        let times = self.failures.take_due(now);
        if times > 0 {
            self.lines.failed(at, host.as_slice(), false, times);
        }
    }

    // Tells what is due of what comes at most once a second.
    fn tell_due(&mut self, at: &str, meter: &Meter, now: u64) {
        for limit in LIMITS {
            let pace = self.refusals.at(limit);
            pace.add(meter.take_refused(limit));
            let times = pace.take_due(now);
            if times > 0 {
                self.lines.refused(at, limit, times);
            }
        }
        let lost = self.losses.take_due(now);
        if lost > 0 {
            self.lines.lost(at, lost);
        }
    }

    fn tell_counts(&mut self, at: &str, meter: &Meter) {
        let memory = self.almanac.memory();
        self.lines.counts(at, &self.ledger, meter.read(), memory);
    }

    // Writes the lines that were made.
    fn put(&mut self) {
        if self.lines.len() == 0 {
            return;
        }
        let is_written = give_all(&mut self.sink, self.lines.as_slice()).is_ok();
        self.lines.clear(is_written);
    }
}

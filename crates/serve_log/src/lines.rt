// The lines of a log, one function for each kind.
use crate::field::{Field, Value, push_line};
use crate::ledger::{Ledger, Live};
use bosh_types::{Ending, Moment};
use script_text::push_ending;
use server_watch::{Limit, Reading};
use std::alloc::{AllocError, Global};

/// Lines that were made and not written yet, each with the moment first. A line for which there is no memory is counted and left out.
#[derive(Drop)]
pub struct Lines {
    alloc: Global,
    out: Vec<u8>,
    count: u64,
    dropped: u64,
}

fn text<'f>(name: &'f str, value: &'f [u8]) -> Field<'f> {
    Field {
        name,
        value: Value::Text(value),
    }
}

fn word<'f>(name: &'f str, value: &'f str) -> Field<'f> {
    text(name, value.as_bytes())
}

fn count(name: &str, value: u64) -> Field<'_> {
    Field {
        name,
        value: Value::Count(value),
    }
}

/// The name of a limit: that of its option.
fn limit_name(limit: Limit) -> &'static str {
    match limit {
        Limit::Connections => "open",
        Limit::Incoming => "incoming",
        Limit::Sessions => "sessions",
        Limit::Openings => "openings",
    }
}

// How an ending is told: in the words of a report, and `unknown` where it isn't known.
fn ending_text(alloc: Global, ending: Option<Ending>) -> Result<Vec<u8>, AllocError> {
    let mut text = Vec::new(alloc);
    match ending {
        Some(ending) => push_ending(alloc, &mut text, ending)?,
        None => text.extend_from_slice(b"unknown")?,
    }
    Ok(text)
}

impl Lines {
    /// None was made. It takes no memory.
    pub fn new(alloc: Global) -> Lines {
        Lines {
            alloc,
            out: Vec::new(alloc),
            count: 0,
            dropped: 0,
        }
    }

    /// The lines that were made and not taken away.
    pub fn as_slice(&self) -> &[u8] {
        self.out.as_slice()
    }

    /// How many bytes they have.
    pub fn len(&self) -> usize {
        self.out.len()
    }

    /// They were written, or couldn't be, which counts each of them as dropped.
    pub fn clear(&mut self, is_written: bool) {
        if !is_written {
            self.drop_more(self.count);
        }
        self.out.clear();
        self.count = 0;
    }

    /// So many lines were dropped elsewhere.
    pub fn drop_more(&mut self, count: u64) {
        self.dropped = self.dropped.saturating_add(count);
    }

    /// How many lines were dropped since the start.
    pub fn dropped(&self) -> u64 {
        self.dropped
    }

    // One more line, or one more that is dropped.
    fn push(&mut self, at: &str, fields: &[Field<'_>]) {
        let start = self.out.len();
        match push_line(self.alloc, &mut self.out, &word("at", at), fields) {
            Ok(()) => self.count = self.count.saturating_add(1),
            Err(AllocError) => {
                self.out.truncate(start);
                self.drop_more(1);
            }
        }
    }

    /// A session was opened.
    pub fn opened<'e>(&mut self, at: &'e str, sid: &'e [u8], host: &'e [u8]) {
        self.push(
            at,
            &[
                word("event", "opened"),
                text("sid", sid),
                text("host", host),
            ],
        );
    }

    /// A session has ended so, at this moment of the server's clock. Of one that wasn't known only its name and its ending are told.
    pub fn ended<'e>(
        &mut self,
        at: &'e str,
        sid: &'e [u8],
        live: Option<&'e Live>,
        ending: Option<Ending>,
        now: Moment,
    ) {
        let Ok(ending) = ending_text(self.alloc, ending) else {
            self.drop_more(1);
            return;
        };
        let event = word("event", "ended");
        let Some(live) = live else {
            self.push(at, &[event, text("sid", sid), text("ending", &ending)]);
            return;
        };
        let lasted = now.millis().saturating_sub(live.since.millis());
        self.push(
            at,
            &[
                event,
                text("sid", sid),
                text("host", live.host.as_slice()),
                count("millis", lasted),
                count("in", live.carried.inward),
                count("out", live.carried.outward),
                text("ending", &ending),
            ],
        );
    }

    /// The back end of this host failed. Another took its place, or it was the last, which failed so often since that was told.
    pub fn failed<'e>(&mut self, at: &'e str, host: &'e [u8], is_replaced: bool, times: u64) {
        let replaced = if is_replaced { "yes" } else { "no" };
        self.push(
            at,
            &[
                word("event", "backend-failed"),
                text("host", host),
                word("replaced", replaced),
                count("count", times),
            ],
        );
    }

    /// So much was refused at this limit since that was told.
    pub fn refused(&mut self, at: &str, limit: Limit, times: u64) {
        self.push(
            at,
            &[
                word("event", "refused"),
                word("limit", limit_name(limit)),
                count("count", times),
            ],
        );
    }

    /// So many lines were dropped.
    pub fn lost(&mut self, at: &str, lines: u64) {
        self.push(at, &[word("event", "dropped"), count("count", lines)]);
    }

    /// The counts.
    pub fn counts(&mut self, at: &str, ledger: &Ledger, reading: Reading, memory: Option<u64>) {
        let dropped = self.dropped;
        self.push(
            at,
            &[
                word("event", "counts"),
                count("live", ledger.live()),
                count("connections", reading.connections),
                count("parked", reading.parked),
                count("requests", reading.requests),
                count("opened", ledger.opened()),
                count("ended", ledger.ended()),
                count("memory_kib", memory.unwrap_or(0)),
                count("dropped", dropped),
            ],
        );
    }
}

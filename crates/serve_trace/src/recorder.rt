// All sessions as the writer knows them.
use crate::greeting::Greeting;
use crate::noted::Noted;
use crate::paper::Paper;
use crate::queue::Batch;
use crate::record::Record;
use std::alloc::Global;
use std::collections::BTreeMap;

/// How often it is looked what time does, in milliseconds.
const ROUND: u64 = 500;

/// All sessions of which something was seen, and what their traces are written on.
#[derive(Drop)]
pub struct Recorder<P: Paper + Drop> {
    alloc: Global,
    paper: P,
    greetings: Vec<Greeting>,
    records: BTreeMap<u64, Record<P::Sheet>>,
    /// Of these something was seen that may not be on their sheets.
    touched: Vec<u64>,
    aged: u64,
}

impl<P: Paper + Drop> Recorder<P> {
    /// No session was seen yet. It takes no memory.
    pub fn new(alloc: Global, paper: P, greetings: Vec<Greeting>) -> Recorder<P> {
        Recorder {
            alloc,
            paper,
            greetings,
            records: BTreeMap::new(alloc),
            touched: Vec::new(alloc),
            aged: 0,
        }
    }

    /// What the traces are written on.
    pub fn paper(&self) -> &P {
        &self.paper
    }

    /// Writes what was noted by this moment, in milliseconds, and leaves nothing of it. What was lost is told first: nothing that was
    /// seen of the same session may be written behind it.
    pub fn hear(&mut self, batch: &mut Batch, now: u64) {
        self.lose(batch, now);
        for _ in 0..batch.noted.len() {
            if let Some(noted) = batch.noted.pop_front() {
                self.hear_one(noted, now);
            }
        }
        self.put();
        self.age(now);
    }

    /// Ends all traces: nothing more will be seen.
    pub fn finish(&mut self) {
        for (number, record) in self.records.iter_mut() {
            record.finish(&mut self.paper, *number);
        }
        self.records.clear();
    }

    /// Whether no session is known, so that time has nothing to do.
    pub fn is_idle(&self) -> bool {
        self.records.is_empty()
    }

    // Ends the traces of which something was lost. Where it isn't known of which, it is as if it were of all, and of what is noted too.
    fn lose(&mut self, batch: &mut Batch, now: u64) {
        for number in &batch.lost {
            lose_of(self.alloc, &mut self.records, &mut self.paper, *number, now);
        }
        batch.lost.clear();
        if !batch.is_all_lost {
            return;
        }
        batch.is_all_lost = false;
        for (number, record) in self.records.iter_mut() {
            record.lose(&mut self.paper, *number);
        }
        for _ in 0..batch.noted.len() {
            if let Some(noted) = batch.noted.pop_front() {
                lose_of(
                    self.alloc,
                    &mut self.records,
                    &mut self.paper,
                    noted.number,
                    now,
                );
            }
        }
    }

    fn hear_one(&mut self, noted: Noted, now: u64) {
        let number = noted.number;
        let Some(record) = record_of(self.alloc, &mut self.records, number, now) else {
            return;
        };
        record.hear(
            self.alloc,
            &mut self.paper,
            self.greetings.as_slice(),
            number,
            noted.seen,
            now,
        );
        if self.touched.push(number).is_err() {
            record.put(&mut self.paper, number);
        }
    }

    // Writes what isn't on the sheets yet.
    fn put(&mut self) {
        for number in &self.touched {
            if let Some(record) = self.records.get_mut(number) {
                record.put(&mut self.paper, *number);
            }
        }
        self.touched.clear();
    }

    // What time does to sessions: those that ended a while ago are forgotten.
    fn age(&mut self, now: u64) {
        if now.saturating_sub(self.aged) < ROUND {
            return;
        }
        self.aged = now;
        for (number, record) in self.records.iter_mut() {
            if !record.age(&mut self.paper, *number, now) && self.touched.push(*number).is_err() {
                break;
            }
        }
        for number in &self.touched {
            let _ = self.records.remove(number);
        }
        self.touched.clear();
    }
}

// What is known of the session with this number, from now on. None where there is no memory.
fn record_of<S: Drop>(
    alloc: Global,
    records: &mut BTreeMap<u64, Record<S>>,
    number: u64,
    now: u64,
) -> Option<&mut Record<S>> {
    if !records.contains_key(&number) && records.insert(number, Record::new(alloc, now)).is_err() {
        return None;
    }
    records.get_mut(&number)
}

// Something of the session with this number is lost.
fn lose_of<P: Paper + Drop>(
    alloc: Global,
    records: &mut BTreeMap<u64, Record<P::Sheet>>,
    paper: &mut P,
    number: u64,
    now: u64,
) {
    if let Some(record) = record_of(alloc, records, number, now) {
        record.lose(paper, number);
    }
}

// A back end that is listened in on.
use crate::noted::{Noted, Seen};
use crate::queue::TraceQueue;
use crate::remark::Remark;
use bosh_types::{Inward, SharedText, Wire};
use server_watch::{Tally, is_plain, session_of};
use std::sync::{Arc, Wait};
use xmpp_backend::{Backend, Passed, Polled};

/// A back end that hands on all that it is asked. Where there is a queue, what it gave and what it was passed is noted there; and its tally
/// counts what it carried.
#[derive(Drop)]
pub struct TracedBackend<R: Wait + Copy + Drop, E: Backend> {
    rt: R,
    end: E,
    queue: Option<Arc<TraceQueue>>,
    tally: Tally,
}

impl<R: Wait + Copy + Drop, E: Backend> TracedBackend<R, E> {
    pub fn new(rt: R, end: E, queue: Option<Arc<TraceQueue>>, tally: Tally) -> TracedBackend<R, E> {
        TracedBackend {
            rt,
            end,
            queue,
            tally,
        }
    }
}

// What was seen on this wire is noted, or lost, where there was no memory for it.
fn note<R: Wait>(rt: &R, queue: &TraceQueue, wire: Wire, seen: Option<Seen>) {
    let number = session_of(wire);
    match seen {
        Some(_) if !is_plain(wire) => {
            let seen = Seen::Untold(Remark::OtherStream);
            queue.note(rt, Noted { number, seen });
        }
        Some(seen) => queue.note(rt, Noted { number, seen }),
        None => queue.lose(rt, number),
    }
}

// One more holder of a stanza.
fn again(stanza: &SharedText) -> Option<SharedText> {
    stanza.again().ok()
}

// What it means that an item was passed.
fn passed(item: &Inward) -> Option<Seen> {
    match item {
        Inward::Item(_, stanza) => match again(stanza) {
            Some(stanza) => Some(Seen::Passed(stanza)),
            None => None,
        },
        Inward::Restart(_) => Some(Seen::Restarted),
        Inward::Open(_, _) => Some(Seen::Untold(Remark::OtherStream)),
        Inward::Close(_) => Some(Seen::Untold(Remark::OtherStream)),
    }
}

fn note_passed<R: Wait>(
    rt: &R,
    queue: &Option<Arc<TraceQueue>>,
    wire: Wire,
    item: &Inward,
    answer: Passed,
) {
    if let Some(queue) = queue {
        if answer == Passed::Done {
            note(rt, queue, wire, passed(item));
        }
    }
}

fn note_given<R: Wait>(rt: &R, queue: &Option<Arc<TraceQueue>>, polled: &Polled) {
    if let Some(queue) = queue {
        if let Polled::Out(wire, stanza) = polled {
            let seen = match again(stanza) {
                Some(stanza) => Some(Seen::Gave(stanza)),
                None => None,
            };
            note(rt, queue, *wire, seen);
        }
    }
}

fn note_closed<R: Wait>(rt: &R, queue: &Option<Arc<TraceQueue>>, wire: Wire, answer: Passed) {
    if let Some(queue) = queue {
        if answer == Passed::Done && is_plain(wire) {
            note(rt, queue, wire, Some(Seen::Closed));
        }
    }
}

impl<R: Wait + Copy + Drop, E: Backend> Backend for TracedBackend<R, E> {
    ghost told = { λ b. E.told b.end };

    ghost counts = { λ b. E.counts b.end };

    fn open(&mut self, wire: Wire, to: &[u8]) -> Passed {
        let answer = self.end.open(wire, to);
        self.tally.opened(&self.rt, wire, answer);
        answer
    }

    fn pass(&mut self, wire: Wire, item: &Inward) -> Passed {
        let answer = self.end.pass(wire, item);
        note_passed(&self.rt, &self.queue, wire, item, answer);
        self.tally.passed(&self.rt, wire, item, answer);
        answer
    }

    fn poll(&mut self) -> Polled {
        let polled = self.end.poll();
        note_given(&self.rt, &self.queue, &polled);
        self.tally.polled(&self.rt, &polled);
        polled
    }

    fn close(&mut self, wire: Wire) -> Passed {
        let answer = self.end.close(wire);
        note_closed(&self.rt, &self.queue, wire, answer);
        self.tally.closed(&self.rt, wire, answer);
        answer
    }

    fn hold(&mut self, wire: Wire) {
        self.end.hold(wire);
    }

    fn resume(&mut self, wire: Wire) {
        self.end.resume(wire);
    }
}

// Whom the pump serves next, and when.
ghost use Rattle.std.specs.Prelude.{◌≡◌, ◌≤◌, ◌<◌, ◌+◌, ◌-◌, ◌^◌, IfSome, false, min, true};

use crate::rings::Rings;
use bosh_ports::{Bell, BellKey};
use bosh_types::Moment;
use server_ports::Clock;
use std::alloc::{AllocError, Global};
use std::sync::Wait;

/// How long the pump serves only those that were rung for or are due, in milliseconds: then it looks at every session.
const ROUND: u64 = 10_000;

/// Whom the pump serves next, and when it looks at every session.
#[derive(Drop)]
pub(crate) struct Agenda {
    /// The opening numbers of those who were rung for or are due.
    pub(crate) numbers: Vec<u64>,
    /// Those that the pump gave something in its last turn.
    pub(crate) given: Vec<u64>,
    /// Those of them that are over by that.
    pub(crate) over: Vec<u64>,
    // When every session is served next.
    whole_at: Moment,
}

impl Agenda {
    /// Every session is served at once.
    pub(crate) fn new(alloc: Global) -> Agenda
        ensures { result.whole_at ≡ 0 }
    {
        Agenda {
            numbers: Vec::new(alloc),
            given: Vec::new(alloc),
            over: Vec::new(alloc),
            whole_at: Moment::from_millis(0),
        }
    }

    /// Takes up who was rung for. Where there was no memory for one of them, every session is served at once.
    pub(crate) fn take_up<R: Wait>(&mut self, rt: &R, rings: &Rings) {
        self.numbers.clear();
        if !rings.take(rt, &mut self.numbers) {
            self.hurry();
        }
    }

    /// Each number stands once, in the order of opening.
    pub(crate) fn put_in_order(&mut self) {
        self.numbers.sort_unstable();
        self.numbers.dedup();
    }

    /// Takes up to whom the pump gave something in its last turn, each once. Where there was no memory for one of them, every session is
    /// served at once.
    pub(crate) fn take_given<R: Wait>(&mut self, rt: &R, given: &Rings) {
        self.over.clear();
        self.given.clear();
        if !given.take(rt, &mut self.given) {
            self.hurry();
        }
        self.given.sort_unstable();
        self.given.dedup();
    }

    /// Those who are over by what the pump gave them are to be served, as if they were rung for. Where not all were found, every session
    /// is served at once.
    pub(crate) fn serve_over<R: Wait>(
        &mut self,
        rt: &R,
        found: Result<(), AllocError>,
        rings: &Rings,
    ) {
        for number in &self.over {
            rings.note(rt, BellKey(*number));
        }
        if found.is_err() {
            self.hurry();
        }
    }

    /// Whether every session is to be served by now.
    pub(crate) fn is_whole_by(&self, now: Moment) -> bool
        ensures whole { result ≡ true → self.now.whole_at ≤ now }
        ensures short { result ≡ false → now < self.now.whole_at }
    {
        self.whole_at <= now
    }

    /// Every session was served, at this moment: a round begins.
    pub(crate) fn end_round(&mut self, now: Moment)
        ensures { self.new.whole_at ≡ min (now + 10000) (2 ^ 64 - 1) }
    {
        self.whole_at = Moment::from_millis(now.millis().saturating_add(ROUND));
    }

    /// Every session is to be served at once.
    pub(crate) fn hurry(&mut self)
        ensures { self.new.whole_at ≡ 0 }
    {
        self.whole_at = Moment::from_millis(0);
    }

    /// The moment until which nobody is to be served but who is rung for, where time next has something to do then.
    fn until(&self, due: Option<Moment>) -> Moment
        ensures whole { result ≤ self.now.whole_at }
        ensures due { IfSome due (λ due. result ≤ due) }
    {
        match due {
            Some(due) => self.whole_at.min(due),
            None => self.whole_at,
        }
    }

    /// Waits until somebody is to be served, where time next has something to do at this moment, or the bell is rung for the pump.
    pub(crate) fn rest<R: Wait, C: Clock, B: Bell>(
        &self,
        rt: &R,
        rings: &Rings,
        clock: &C,
        bell: &mut B,
        due: Option<Moment>,
    ) {
        if !rings.is_empty(rt) {
            return;
        }
        let _ = bell.wait_until(clock.now(), Some(self.until(due)));
    }
}

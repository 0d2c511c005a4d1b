ghost use Rattle.std.specs.Prelude.{◌≡◌, ◌+◌, ◌<◌, ◌↔◌, IsTrue};
ghost use Rattle.std.specs.Option.{SomeIff};
ghost use Rattle.pause_rules.specs.Due.{IsFirstMoment, gap_due_at, is_gap_due, is_silent_due, is_wait_due, silent_due_at, wait_due_at, within_moments};
ghost use Rattle.pause_rules.specs.Overactive.{apart, is_overactive, serves_nothing};

use crate::mark::Mark;
use bosh_types::{Moment, Terms};
use std::marker::Model;

const SECOND: u64 = 1000;

/// What was made of a request for a pause.
#[derive(Clone, Copy, Debug, PartialEq, Eq)]
pub enum PauseSet {
    /// The client may be silent for so long.
    Set,
    /// It asked for more than the session allows, and nothing changed.
    TooLong,
}

/// The deadlines of one session: its terms, and how long its client may be silent until its next request.
#[derive(Clone, Copy, Debug)]
pub struct Deadlines {
    terms: Terms,
    period: u32,
}

// Clauses see the terms, and the seconds of silence that are allowed now.
impl Model for Deadlines {
    ghost use Rattle.pause_rules.specs.Pace.{Pace};

    ghost Value = { Pace };

    ghost view = { λ d. record { terms = d.terms; period = d.period } };

    ghost inverse = { λ p. record { terms = p.terms; period = p.period } };
}

impl Deadlines {
    /// The deadlines of a new session, with its usual period of silence.
    pub fn new(terms: Terms) -> Self
        ensures terms { result.terms ≡ terms }
        ensures period { result.period ≡ terms.inactivity }
    {
        Deadlines {
            terms,
            period: terms.inactivity,
        }
    }

    /// The terms of the session.
    pub fn terms(&self) -> Terms
        ensures { result ≡ self.now.terms }
    {
        self.terms
    }

    /// Whether a request that arrived then has been held for the session's `wait` (XEP-0124, section 7.1).
    pub fn wait_due(&self, arrived: Moment, now: Moment) -> bool
        ensures { result ≡ is_wait_due self.now.terms arrived now }
    {
        let wait = u64::from(self.terms.wait) * SECOND;
        match now.millis().checked_sub(arrived.millis()) {
            Some(waited) => waited >= wait,
            None => false,
        }
    }

    /// Whether a client that was last heard or answered then has been silent for too long (XEP-0124, section 10).
    pub fn silent_due(&self, quiet: Moment, now: Moment) -> bool
        ensures { result ≡ is_silent_due self.now.period quiet now }
    {
        let period = u64::from(self.period) * SECOND;
        match now.millis().checked_sub(quiet.millis()) {
            Some(silent) => silent > period,
            None => false,
        }
    }

    /// The first moment at which a request that arrived then is due: `None` exactly where no moment of 64 bits is so late.
    pub fn wait_due_at(&self, arrived: Moment) -> Option<Moment>
        ensures value { result ≡ wait_due_at self.now.terms arrived }
        ensures first { IsFirstMoment (is_wait_due self.now.terms arrived) result }
    {
        let wait = u64::from(self.terms.wait) * SECOND;
        moment_after(arrived, wait)
    }

    /// Whether a copy that arrived then has been beyond a gap for so many times the session's `wait` (XEP-0124, section 17.3).
    pub fn gap_due(&self, waits: u32, arrived: Moment, now: Moment) -> bool
        ensures { result ≡ is_gap_due self.now.terms waits arrived now }
    {
        let wait = u64::from(self.terms.wait) * SECOND;
        let Some(span) = u64::from(waits).checked_mul(wait) else {
            return false;
        };
        match now.millis().checked_sub(arrived.millis()) {
            Some(waited) => waited >= span,
            None => false,
        }
    }

    /// The first moment at which a copy that arrived then has been beyond a gap for so many times the session's `wait`: `None`
    /// exactly where no moment of 64 bits is so late.
    pub fn gap_due_at(&self, waits: u32, arrived: Moment) -> Option<Moment>
        ensures value { result ≡ gap_due_at self.now.terms waits arrived }
        ensures first { IsFirstMoment (is_gap_due self.now.terms waits arrived) result }
    {
        let wait = u64::from(self.terms.wait) * SECOND;
        let span = u64::from(waits).checked_mul(wait)?;
        moment_after(arrived, span)
    }

    /// The first moment at which a client that was last heard or answered then is silent for too long: `None` exactly
    /// where no moment of 64 bits is so late.
    pub fn silent_due_at(&self, quiet: Moment) -> Option<Moment>
        ensures value { result ≡ silent_due_at self.now.period quiet }
        ensures first { IsFirstMoment (is_silent_due self.now.period quiet) result }
    {
        let period = u64::from(self.period) * SECOND;
        moment_after(quiet, period + 1)
    }

    /// Allows a silence of so many seconds, until `usual` is called (XEP-0124, section 10).
    pub fn pause(&mut self, seconds: u32) -> PauseSet
        ensures too_long { (result ≡ PauseSet.TooLong) ↔ (self.old.terms.maxpause < seconds) }
        ensures set { result ≡ PauseSet.Set → self.new ≡ record self.old { period = seconds } }
        ensures refused { result ≡ PauseSet.TooLong → self.new ≡ self.old }
    {
        if seconds > self.terms.maxpause {
            return PauseSet::TooLong;
        }
        self.period = seconds;
        PauseSet::Set
    }

    /// Allows the session's usual silence again, as after each request that is no pause.
    pub fn usual(&mut self)
        ensures { self.new ≡ record self.old { period = self.old.terms.inactivity } }
    {
        self.period = self.terms.inactivity;
    }

    /// By how many milliseconds a request lies apart from the one with the id before it, where that is too close: `held`
    /// requests are held before it (XEP-0124, sections 11 and 12).
    pub fn overactive(&self, held: u32, this: Mark, prior: Mark) -> Option<u64>
        ensures { SomeIff result (IsTrue (is_overactive self.now.terms held this prior)) (apart this prior) }
    {
        if !this.empty {
            return None;
        }
        let apart = this.apart(&prior);
        if apart >= u64::from(self.terms.polling) * SECOND {
            return None;
        }
        if self.serves_nothing(held, &prior) {
            Some(apart)
        } else {
            None
        }
    }

    // Whether an empty request only makes the manager answer.
    fn serves_nothing(&self, held: u32, prior: &Mark) -> bool
        ensures { result ≡ serves_nothing self.now.terms held prior.now }
    {
        if self.terms.polled {
            return !prior.creation && prior.empty && prior.bare;
        }
        held >= self.terms.hold
    }
}

// The moment so many milliseconds later, if 64 bits hold it.
fn moment_after(start: Moment, millis: u64) -> Option<Moment>
    ensures { result ≡ within_moments (start + millis) }
{
    match start.millis().checked_add(millis) {
        Some(later) => Some(Moment::from_millis(later)),
        None => None,
    }
}

// What time alone does: it comes first in each call that has a moment (XEP-0124, sections 7.1 and 10).
ghost use Rattle.std.specs.Prelude.{◌≡◌, OnOk, max};
ghost use Rattle.session_core.specs.StandsFor.{StandsFor};
ghost use Rattle.session_core.specs.State.{PlainSession};
ghost use Rattle.session_core.specs.Time.{at_moment, is_silent, owes_nothing_beyond, quiet_of, silenced, time_applied};

use crate::session::Session;
use bosh_types::{Ending, Moment};
use std::alloc::{AllocError, Global};

impl Session {
    /// A moment that is earlier than one before it counts as that one.
    #[tactic(auto, unfolding(crate::specs::StandsFor::StandsFor))]
    pub(crate) fn set_moment(&mut self, now: Moment)
        ensures { (plain : PlainSession) → StandsFor self.old plain → StandsFor self.new (at_moment plain now) }
    {
        self.moment = later_of(self.moment, now);
    }

    /// First those are answered that have waited their time, then copies beyond the gap are struck that have, then silence may end
    /// the session.
    pub(crate) fn apply_time(&mut self, alloc: Global, now: Moment) -> Result<(), AllocError>
        ensures { (plain : PlainSession) → StandsFor self.old plain → OnOk result (StandsFor self.new (time_applied plain now)) }
    {
        self.set_moment(now);
        self.settle(alloc)?;
        self.strike_due(alloc)?;
        self.silence(alloc)
    }

    #[tactic(auto, unfolding(crate::specs::StandsFor::StandsFor))]
    fn silence(&mut self, alloc: Global) -> Result<(), AllocError>
        ensures { (plain : PlainSession) → StandsFor self.old plain → OnOk result (StandsFor self.new (silenced plain)) }
    {
        if self.ending.is_some() || !self.is_silent() {
            return Ok(());
        }
        let since = self.quiet();
        self.end(
            alloc,
            Ending::Silent {
                since,
                now: self.moment,
            },
        )
    }

    // No request is held, no copy beyond the gap has its error to come, and it has been quiet for longer than allowed.
    #[tactic(auto, unfolding(crate::specs::StandsFor::StandsFor))]
    fn is_silent(&self) -> bool
        ensures { (plain : PlainSession) → StandsFor self.now plain → result ≡ is_silent plain }
    {
        self.is_silent_at(self.moment)
    }

    /// It is so at this moment, which is no earlier than the greatest so far.
    #[tactic(auto, unfolding(crate::specs::StandsFor::StandsFor))]
    pub(crate) fn is_silent_at(&self, moment: Moment) -> bool
        ensures { (plain : PlainSession) → StandsFor self.now plain → result ≡ is_silent (record plain { now = moment }) }
    {
        self.held.len() == 0
            && self.owes_nothing_beyond()
            && self.deadlines.silent_due(self.quiet(), moment)
    }

    /// In a session that doesn't poll none stands beyond the gap: one that does has its error to come.
    #[tactic(auto, unfolding(crate::specs::StandsFor::StandsFor))]
    pub(crate) fn owes_nothing_beyond(&self) -> bool
        ensures { (plain : PlainSession) → StandsFor self.now plain → result ≡ owes_nothing_beyond plain }
    {
        self.deadlines.terms().polled || self.window.is_clear()
    }

    /// Since when it has been quiet: since the last answer or error, and while copies stand beyond a gap, since the last arrival.
    #[tactic(auto, unfolding(crate::specs::StandsFor::StandsFor))]
    pub(crate) fn quiet(&self) -> Moment
        ensures { (plain : PlainSession) → StandsFor self.now plain → result ≡ quiet_of plain }
    {
        let told = later_of(self.last_given, self.last_error);
        if self.window.is_clear() {
            return told;
        }
        later_of(told, self.last_arrival)
    }
}

// The later of two moments.
pub(crate) fn later_of(one: Moment, other: Moment) -> Moment
    ensures { result ≡ max one other }
{
    if one < other { other } else { one }
}

// Time passes (XEP-0124, sections 7.1 and 10).
ghost use Rattle.std.specs.Prelude.{◌≡◌, IfOk, OnErr, OnOk, false, true, if◌then◌else◌};
ghost use Rattle.pause_rules.specs.Due.{IsFirstMoment};
ghost use Rattle.session_core.specs.Machine.{full_with, is_full, plain_cost, tick, with_cost};
ghost use Rattle.session_core.specs.StandsFor.{StandsFor};
ghost use Rattle.session_core.specs.State.{PlainSession, is_over};
ghost use Rattle.session_core.specs.Steps.{Does};
ghost use Rattle.session_core.specs.Time.{is_due, owes_nothing_beyond, time_applied};

use crate::counting::PLAIN_COST;
use crate::held::earlier_of;
use crate::replies::Ticked;
use crate::session::Session;
use crate::timing::later_of;
use bosh_types::Moment;
use std::alloc::{AllocError, Global};

impl Session {
    /// Time passes: held requests that waited their time are answered, copies beyond a gap that did are struck, and silence for longer than allowed ends the session.
    /// `Quiet` exactly where nothing of this is due, and then nothing changes, the session's moment included. The only error
    /// is want of memory, and then all is as it was.
    #[tactic(auto, unfolding(crate::specs::StandsFor::StandsFor))]
    pub fn tick(&mut self, alloc: Global, now: Moment) -> Result<Ticked, AllocError>
        ensures step { (plain : PlainSession) → StandsFor self.old plain
            → IfOk result (λ reply. Does self.new reply (tick plain now)) }
        ensures err { OnErr result (self.new ≡ self.old) }
    {
        if !self.is_due(now) {
            return Ok(Ticked::Quiet);
        }
        let mut draft = self.copied(alloc)?;
        draft.pass_time(alloc, now)?;
        *self = draft;
        Ok(Ticked::Changed)
    }

    /// The first moment at which time has something to do: a tick at an earlier one is `Quiet`. `None` exactly where that is so
    /// of every moment of 64 bits, as after the ending. A session for which something is due at its own moment answers 0; none is
    /// so that calls made, since each call does what is due.
    #[tactic(auto, unfolding(crate::specs::StandsFor::StandsFor))]
    pub fn due(&self) -> Option<Moment>
        ensures { (plain : PlainSession) → StandsFor self.now plain → IsFirstMoment (is_due plain) result }
    {
        let start = Moment::from_millis(0);
        if self.is_due(start) {
            return Some(start);
        }
        if self.ending.is_some() {
            return None;
        }
        if self.owes_nothing_beyond() {
            return self.due_within();
        }
        earlier_of(
            self.held.first_wait_due(&self.deadlines),
            self.first_strike_due(),
        )
    }

    // The same, where no copy beyond a gap has its error to come.
    fn due_within(&self) -> Option<Moment>
        ensures { (plain : PlainSession) → StandsFor self.now plain → is_over plain ≡ false → owes_nothing_beyond plain ≡ true
            → is_due plain 0 ≡ false → IsFirstMoment (is_due plain) result }
    {
        match self.held.oldest() {
            Some(_) => self.held.first_wait_due(&self.deadlines),
            None => self.deadlines.silent_due_at(self.quiet()),
        }
    }

    /// Whether time has something to do at this moment: a tick is `Quiet` exactly where it hasn't. After the ending it never has.
    #[tactic(auto, unfolding(crate::specs::StandsFor::StandsFor))]
    pub fn is_due(&self, now: Moment) -> bool
        ensures { (plain : PlainSession) → StandsFor self.now plain → result ≡ is_due plain now }
    {
        if self.ending.is_some() {
            return false;
        }
        let moment = later_of(self.moment, now);
        self.has_reason_at(moment) || self.owes_errors_at(moment) || self.is_silent_at(moment)
    }

    // Time does what is due, or the journal has no room for it.
    fn pass_time(&mut self, alloc: Global, now: Moment) -> Result<(), AllocError>
        ensures { (plain : PlainSession) → StandsFor self.old plain → is_over plain ≡ false
            → OnOk result (StandsFor self.new (if is_full plain plain_cost then full_with plain_cost plain
            else with_cost plain_cost (time_applied plain now))) }
    {
        if self.is_full(PLAIN_COST) {
            return self.fill(alloc, PLAIN_COST);
        }
        self.enter(alloc, PLAIN_COST, now)
    }
}

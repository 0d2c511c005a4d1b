// Copies beyond a gap that have waited their time are struck (XEP-0124, section 17.3).
ghost use Rattle.std.specs.Prelude.{◌≡◌, ℕ, ◌+◌, ◌<◌, ◌^◌, IfSome, OnOk, None, Some, false, nat_le, true, if◌then◌else◌};
ghost use Rattle.bosh_types.specs.Rid.{greatest_rid};
ghost use Rattle.pause_rules.specs.Due.{IsFirstMoment};
ghost use Rattle.session_core.specs.Endings.{error_text};
ghost use Rattle.session_core.specs.Gap.{has_waited, is_to_strike, owes_errors, strike, struck};
ghost use Rattle.session_core.specs.StandsFor.{StandsFor};
ghost use Rattle.session_core.specs.State.{PlainSession, is_over, last_of, standing_at};
ghost use Rattle.session_core.specs.Striking.{IsAhead};

use crate::held::earlier_of;
use crate::session::Session;
use crate::words::error_text;
use bosh_types::{Moment, Rid, SharedText};
use std::alloc::{AllocError, Global};

impl Session {
    /// Each copy beyond the gap that has waited its time is struck, the lowest id first: none after the ending, and none in a
    /// session that polls.
    #[tactic(auto, unfolding(crate::specs::StandsFor::StandsFor))]
    pub(crate) fn strike_due(&mut self, alloc: Global) -> Result<(), AllocError>
        ensures { (plain : PlainSession) → StandsFor self.old plain → OnOk result (StandsFor self.new (struck plain)) }
    {
        if !self.owes_errors_at(self.moment) {
            return Ok(());
        }
        let error = error_text(alloc)?;
        for ahead in 1..self.end_of_window() {
            self.strike_where_due(ahead, &error)?;
        }
        Ok(())
    }

    // The copy of the id so many after the last one is struck, where it has waited its time.
    fn strike_where_due(&mut self, ahead: u64, error: &SharedText) -> Result<(), AllocError>
        ensures { (plain : PlainSession) (rid : ℕ) → StandsFor self.old plain → IsAhead plain ahead rid → error.now ≡ error_text
            → OnOk result (StandsFor self.new (if is_to_strike plain rid then strike plain rid else plain)) }
    {
        let Some(rid) = self.id_ahead(ahead) else {
            return Ok(());
        };
        if !self.is_to_strike(rid, self.moment) {
            return Ok(());
        }
        self.strike(rid, error)
    }

    // The copy of this id is struck: the request that waits for it is told so, and the id counts as not received.
    #[tactic(auto, unfolding(crate::specs::StandsFor::StandsFor))]
    fn strike(&mut self, rid: Rid, error: &SharedText) -> Result<(), AllocError>
        ensures { (plain : PlainSession) → StandsFor self.old plain → is_to_strike plain rid ≡ true → error.now ≡ error_text
            → OnOk result (StandsFor self.new (strike plain rid)) }
    {
        self.tickets.strike(rid, error)?;
        let _struck = self.window.strike(rid);
        self.last_error = self.moment;
        Ok(())
    }

    /// Whether a copy beyond the gap is to be struck at this moment, which is no earlier than the greatest so far.
    pub(crate) fn owes_errors_at(&self, moment: Moment) -> bool
        ensures { (plain : PlainSession) → StandsFor self.now plain → result ≡ owes_errors (record plain { now = moment }) }
    {
        if self.ending.is_some() || self.deadlines.terms().polled {
            return false;
        }
        for ahead in 1..self.end_of_window() {
            if let Some(rid) = self.id_ahead(ahead) {
                if self.is_to_strike(rid, moment) {
                    return true;
                }
            }
        }
        false
    }

    /// The first moment at which a copy beyond the gap is to be struck, in a session that goes on and doesn't poll: `None` exactly
    /// where no moment of 64 bits is so late, as where none stands there.
    pub(crate) fn first_strike_due(&self) -> Option<Moment>
        ensures first { (plain : PlainSession) → StandsFor self.now plain → is_over plain ≡ false → plain.terms.polled ≡ false
            → IsFirstMoment (λ now. owes_errors (record plain { now = now })) result }
        ensures small { IfSome result (λ moment. moment < 2 ^ 64) }
    {
        let mut first = None;
        for ahead in 1..self.end_of_window() {
            first = earlier_of(first, self.strike_due_at(ahead));
        }
        first
    }

    // When the copy of the id so many after the last one is to be struck, if one stands there.
    fn strike_due_at(&self, ahead: u64) -> Option<Moment>
        ensures first { (plain : PlainSession) (rid : ℕ) → StandsFor self.now plain → IsAhead plain ahead rid
            → IsFirstMoment (λ now. is_to_strike (record plain { now = now }) rid) result }
        ensures small { IfSome result (λ moment. moment < 2 ^ 64) }
    {
        let rid = self.id_ahead(ahead)?;
        let copy = self.window.at(rid)?;
        self.deadlines
            .gap_due_at(self.gap_waits, copy.get().arrived)
    }

    // Whether the copy of this id, which is beyond the last one processed, has waited its time at this moment.
    #[tactic(auto, unfolding(crate::specs::StandsFor::StandsFor))]
    fn is_to_strike(&self, rid: Rid, moment: Moment) -> bool
        ensures { (plain : PlainSession) → StandsFor self.now plain → last_of plain < rid
            → result ≡ has_waited (record plain { now = moment }) (standing_at plain rid) }
    {
        match self.window.at(rid) {
            Some(copy) => self
                .deadlines
                .gap_due(self.gap_waits, copy.get().arrived, moment),
            None => false,
        }
    }

    // The id so many after the last one processed, if there is one.
    fn id_ahead(&self, ahead: u64) -> Option<Rid>
        ensures { (plain : PlainSession) (rid : ℕ) → StandsFor self.now plain → IsAhead plain ahead rid
            → result ≡ (if nat_le rid greatest_rid then Some rid else None) }
    {
        Rid::new(self.last.value().checked_add(ahead)?)
    }

    // How many ids ahead the window ends: it reaches as many as the session's requests, and one more for a pause or a terminate.
    fn end_of_window(&self) -> u64
        ensures { result ≡ self.now.deadlines.terms.requests + 2 }
    {
        u64::from(self.deadlines.terms().requests) + 2
    }
}

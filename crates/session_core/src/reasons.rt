// When the oldest held request is answered (XEP-0124, sections 7.1, 9, 10, 11, 12 and 16).
ghost use Rattle.std.specs.Prelude.{◌≡◌, is_some};
ghost use Rattle.session_core.specs.Answers.{has_reason};
ghost use Rattle.session_core.specs.StandsFor.{StandsFor};
ghost use Rattle.session_core.specs.State.{PlainSession};
ghost use Rattle.session_core.specs.Steps.{is_pressed, wants};

use crate::session::Session;
use bosh_types::Moment;

impl Session {
    /// Whether the oldest held request has a reason to be answered.
    pub(crate) fn has_reason(&self) -> bool
        ensures { (plain : PlainSession) → StandsFor self.now plain → result ≡ has_reason plain }
    {
        self.wants_answer(self.moment)
    }

    /// Whether it has one at this moment, which is no earlier than the greatest so far.
    pub(crate) fn has_reason_at(&self, moment: Moment) -> bool
        ensures { (plain : PlainSession) → StandsFor self.now plain → result ≡ has_reason (record plain { now = moment }) }
    {
        self.wants_answer(moment)
    }

    // The same, by what the session keeps.
    fn wants_answer(&self, moment: Moment) -> bool
        ensures { result ≡ wants self.now.deadlines.terms (is_some self.now.ending) self.now.outbox.items self.now.held moment self.now.acks.due }
    {
        if self.ending.is_some() {
            return false;
        }
        let Some(oldest) = self.held.oldest() else {
            return false;
        };
        if !self.outbox.is_empty() && !oldest.prompt {
            return true;
        }
        self.is_pressed(moment)
    }

    // Whether a reason holds that isn't an item that waits.
    fn is_pressed(&self, moment: Moment) -> bool
        ensures { result ≡ is_pressed self.now.deadlines.terms self.now.held moment self.now.acks.due }
    {
        let terms = self.deadlines.terms();
        if self.held.len() > terms.hold as usize {
            return true;
        }
        if self.held.any_wait_due(&self.deadlines, moment) {
            return true;
        }
        if self.held.any_prompt() {
            return true;
        }
        self.acks.report_due().is_some() || terms.polled
    }
}

ghost use Rattle.std.specs.Prelude.{◌≡◌, ◌≢◌, None};
ghost use Rattle.std.specs.Option.{SomeIff};
ghost use Rattle.reply_keep.specs.PlainKeep.{PlainKeep};
ghost use Rattle.reply_keep.specs.StandsFor.{StandsFor};
ghost use Rattle.ack_report.specs.Report.{report_of, after_request, keep_after};

use bosh_types::{Moment, Rid};
use reply_keep::Keep;
use std::marker::Model;

// An answer that a client has not acknowledged for so many milliseconds is reported.
const OVERDUE: u64 = 1000;

/// The acknowledgements of one session, and the report that is due.
#[derive(Clone, Copy, Debug)]
pub struct Acks {
    on: bool,
    due: Option<(Rid, Moment)>,
}

// Clauses see both.
impl Model for Acks {
    ghost use Rattle.ack_report.specs.Reporting.{Reporting};

    ghost Value = { Reporting };

    ghost view = { λ a. record { on = a.on; due = a.due } };

    ghost inverse = { λ r. record { on = r.on; due = r.due } };
}

impl Acks {
    /// `on` where the client acknowledges answers: its creation had `ack='1'` (XEP-0124, section 9.2).
    pub fn new(on: bool) -> Self
        ensures { result ≡ record { on = on; due = None } }
    {
        Acks { on, due: None }
    }

    /// A request was processed that acknowledges the answers up to `ack`, or none. `answered` is the highest id that was
    /// answered. The request's own id plays no part.
    pub fn on_request(
        &mut self,
        _rid: Rid,
        ack: Option<Rid>,
        keep: &mut Keep,
        answered: Rid,
        now: Moment,
    )
        ensures due { (plain : PlainKeep) → StandsFor keep.old plain
            → self.new ≡ after_request self.old plain ack answered now }
        ensures keep { (plain : PlainKeep) → StandsFor keep.old plain
            → StandsFor keep.new (keep_after self.old plain ack) }
    {
        if !self.on {
            return;
        }
        let Some(ack) = ack else {
            return;
        };
        if let Some(report) = overdue(keep, ack, answered, now) {
            self.due = Some(report);
        }
        keep.acknowledged(ack);
    }

    /// The report that the next answer carries: the id whose answer is missing, and when that was given.
    pub fn report_due(&self) -> Option<(Rid, Moment)>
        ensures { result ≡ self.now.due }
    {
        self.due
    }

    /// The report was given.
    pub fn reported(&mut self)
        ensures { self.new ≡ record self.old { due = None } }
    {
        self.due = None;
    }

    /// The `ack` of the answer to `rid`, where `last` is the highest id received in order: `None` exactly where they are
    /// one. The answer to the creation carries its own id all the same, so it isn't asked for here (XEP-0124,
    /// section 9.1).
    pub fn ack_for(&self, rid: Rid, last: Rid) -> Option<Rid>
        ensures { SomeIff result (rid ≢ last) last }
    {
        if rid == last { None } else { Some(last) }
    }
}

// The answer after the acknowledged one, where the client should have it by now.
fn overdue(keep: &Keep, ack: Rid, answered: Rid, now: Moment) -> Option<(Rid, Moment)>
    ensures { (plain : PlainKeep) → StandsFor keep.now plain
        → result ≡ report_of plain ack answered now }
{
    if ack.value() >= answered.value() {
        return None;
    }
    let missed = ack.next()?;
    let answer = keep.find(missed)?;
    let age = now.millis().checked_sub(answer.given.millis())?;
    if age < OVERDUE {
        return None;
    }
    Some((missed, answer.given))
}

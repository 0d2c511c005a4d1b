// A second session: what a call does is done on a copy, which takes the session's place once all is done.
ghost use Rattle.std.specs.Prelude.{IfOk};
ghost use Rattle.session_core.specs.StandsFor.{StandsFor};
ghost use Rattle.session_core.specs.State.{PlainSession};

use crate::session::Session;
use std::alloc::{AllocError, Global};

impl Session {
    /// A second session that stands for all that this one stands for. Texts are shared, not copied.
    #[tactic(auto, unfolding(crate::specs::StandsFor::StandsFor))]
    pub(crate) fn copied(&self, alloc: Global) -> Result<Session, AllocError>
        ensures { (plain : PlainSession) → StandsFor self.now plain → IfOk result (λ copy. StandsFor copy plain) }
    {
        let keys = self.keys.copied(alloc)?;
        let keep = self.keep.copied(alloc)?;
        let window = self.window.copied(alloc)?;
        let held = self.held.copied(alloc)?;
        let inward = self.inward.copied(alloc)?;
        let outbox = self.outbox.copied(alloc)?;
        let tickets = self.tickets.copied(alloc)?;
        let streams = self.streams.copied();
        Ok(Session {
            deadlines: self.deadlines,
            keys,
            acks: self.acks,
            keep,
            window,
            last: self.last,
            answered: self.answered,
            held,
            latest: self.latest,
            last_given: self.last_given,
            last_bare: self.last_bare,
            streams,
            inward,
            outbox,
            tickets,
            moment: self.moment,
            last_arrival: self.last_arrival,
            last_error: self.last_error,
            counted: self.counted,
            limit: self.limit,
            gap_waits: self.gap_waits,
            ending: self.ending,
        })
    }
}

// The server's side of a session: it gives stanzas for the client, and closes streams.
ghost use Rattle.std.specs.Prelude.{◌≡◌, ◌&&◌, IfOk, IsTrue, OnErr, false, not, true};
ghost use Rattle.body_cutter.specs.Cutting.{is_stanza};
ghost use Rattle.session_core.specs.Machine.{back, back_closed, back_in_time, closed_in_time, plain_cost, takes_items};
ghost use Rattle.stream_names.specs.Streams.{is_among};
ghost use Rattle.session_core.specs.StandsFor.{StandsFor};
ghost use Rattle.session_core.specs.State.{PlainSession, is_over};
ghost use Rattle.session_core.specs.Steps.{Does};

use crate::counting::{PLAIN_COST, cost_of_stanza};
use crate::replies::Taken;
use crate::session::Session;
use bosh_types::{Closing, Moment, SharedText, StreamNo};
use std::alloc::{AllocError, Global};

impl Session {
    /// The server gives a stanza for the client. First time is applied. `Done` where the stanza waits from then on, or was
    /// given to a held request at once (XEP-0124, section 8). `Full` where 1024 items or 4,194,304 bytes would be exceeded
    /// by what waits, and `Over` where the session has ended, as by this very call, or where the stream isn't open: then the
    /// stanza is not taken. An `Err` comes from want of memory alone, and the session is as before.
    #[tactic(auto, unfolding(crate::specs::StandsFor::StandsFor))]
    pub fn back(
        &mut self,
        alloc: Global,
        stream: StreamNo,
        stanza: &SharedText,
        now: Moment,
    ) -> Result<Taken, AllocError>
        requires { IsTrue (is_stanza stanza.now) }
        ensures step { (plain : PlainSession) → StandsFor self.old plain
            → IfOk result (λ reply. Does self.new reply (back plain stream stanza.now now)) }
        ensures err { OnErr result (self.new ≡ self.old) }
    {
        if self.ending.is_some() {
            return Ok(Taken::Over);
        }
        let mut draft = self.copied(alloc)?;
        let taken = draft.back_while_live(alloc, stream, stanza, now)?;
        *self = draft;
        Ok(taken)
    }

    /// The server closes the stream: what it gave before goes to the client, then that it closed (XEP-0206, section 8),
    /// and the session ends with the answer that says so of the last open stream. The answers are those of `back`; a closing is never `Full`.
    #[tactic(auto, unfolding(crate::specs::StandsFor::StandsFor))]
    pub fn back_closed(
        &mut self,
        alloc: Global,
        stream: StreamNo,
        closing: Closing,
        now: Moment,
    ) -> Result<Taken, AllocError>
        ensures step { (plain : PlainSession) → StandsFor self.old plain
            → IfOk result (λ reply. Does self.new reply (back_closed plain stream closing now)) }
        ensures err { OnErr result (self.new ≡ self.old) }
    {
        if self.ending.is_some() {
            return Ok(Taken::Over);
        }
        let mut draft = self.copied(alloc)?;
        let taken = draft.closed_while_live(alloc, stream, closing, now)?;
        *self = draft;
        Ok(taken)
    }

    // The same, in a session that has not ended before.
    fn back_while_live(
        &mut self,
        alloc: Global,
        stream: StreamNo,
        stanza: &SharedText,
        now: Moment,
    ) -> Result<Taken, AllocError>
        ensures { (plain : PlainSession) → StandsFor self.old plain → is_over plain ≡ false
            → IfOk result (λ reply. Does self.new reply (back plain stream stanza.now now)) }
    {
        let cost = cost_of_stanza(stanza);
        if self.is_full(cost) {
            self.fill(alloc, cost)?;
            return Ok(Taken::Over);
        }
        self.enter(alloc, cost, now)?;
        self.back_in_time(alloc, stream, stanza)
    }

    fn closed_while_live(
        &mut self,
        alloc: Global,
        stream: StreamNo,
        closing: Closing,
        now: Moment,
    ) -> Result<Taken, AllocError>
        ensures { (plain : PlainSession) → StandsFor self.old plain → is_over plain ≡ false
            → IfOk result (λ reply. Does self.new reply (back_closed plain stream closing now)) }
    {
        if self.is_full(PLAIN_COST) {
            self.fill(alloc, PLAIN_COST)?;
            return Ok(Taken::Over);
        }
        self.enter(alloc, PLAIN_COST, now)?;
        self.closed_in_time(alloc, stream, closing)
    }

    // Once time was applied, a stanza is taken where the stream is open and there is room.
    #[tactic(auto, unfolding(crate::specs::StandsFor::StandsFor))]
    fn back_in_time(
        &mut self,
        alloc: Global,
        stream: StreamNo,
        stanza: &SharedText,
    ) -> Result<Taken, AllocError>
        ensures { (plain : PlainSession) → StandsFor self.old plain
            → IfOk result (λ reply. Does self.new reply (back_in_time plain stream stanza.now)) }
    {
        if !self.takes_items(stream) {
            return Ok(Taken::Over);
        }
        if !self.outbox.has_room(stanza.len()) {
            return Ok(Taken::Full);
        }
        self.outbox.push_stanza(stream, stanza.again()?)?;
        self.settle(alloc)?;
        Ok(Taken::Done)
    }

    #[tactic(auto, unfolding(crate::specs::StandsFor::StandsFor))]
    fn closed_in_time(
        &mut self,
        alloc: Global,
        stream: StreamNo,
        closing: Closing,
    ) -> Result<Taken, AllocError>
        ensures { (plain : PlainSession) → StandsFor self.old plain
            → IfOk result (λ reply. Does self.new reply (closed_in_time plain stream closing)) }
    {
        if !self.takes_items(stream) {
            return Ok(Taken::Over);
        }
        self.outbox.push_closing(stream, closing)?;
        self.settle(alloc)?;
        Ok(Taken::Done)
    }

    // Whether the session goes on, and the stream is open, which the server didn't close.
    #[tactic(auto, unfolding(crate::specs::StandsFor::StandsFor))]
    fn takes_items(&self, stream: StreamNo) -> bool
        ensures unclosed { result ≡ true → is_among self.now.outbox.closed stream ≡ false }
        ensures of_plain { (plain : PlainSession) → StandsFor self.now plain → result ≡ takes_items plain stream }
    {
        // The proof learns here that it is below 8.
        let _number = stream.number();
        let runs = self.streams.running().contains(stream);
        let closed = self.outbox.is_closed(stream);
        takes(self.ending.is_some(), runs, closed)
    }
}

// Whether a session that is over or not takes items on a stream that is open or not, and that the server closed or not.
fn takes(over: bool, runs: bool, closed: bool) -> bool
    ensures { result ≡ ((not over && runs) && not closed) }
{
    !over && runs && !closed
}

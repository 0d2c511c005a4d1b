// A copy of a request arrives.
ghost use Rattle.std.specs.Prelude.{◌≡◌, ◌+◌, ◌<◌, ℕ, IfOk, OnErr, false, length};
ghost use Rattle.session_core.specs.Arriving.{IsModest, IsPlacedIn, with_ticket};
ghost use Rattle.session_core.specs.Journal.{Arrive, IsAllowed};
ghost use Rattle.session_core.specs.Kept.{kept_of, lowest_kept};
ghost use Rattle.session_core.specs.Machine.{advanced, arrive, arrived_in_time, arrived_at, copy_now, placed, refused, repeated, reopened, replied};
ghost use Rattle.bosh_types.specs.declared.ending.Ending.TheVariants.{Above};
ghost use Rattle.session_core.specs.declared.copy.RequestCopy.{RequestCopy as PlainCopy};
ghost use Rattle.session_core.specs.Answers.{settled};
ghost use Rattle.session_core.specs.Copy.{id_of};
ghost use Rattle.session_core.specs.StandsFor.{StandsFor};
ghost use Rattle.session_core.specs.State.{PlainSession, answered_of, is_over, last_of};
ghost use Rattle.session_core.specs.Steps.{Does};
ghost use Rattle.session_core.specs.Window.{place_of};
ghost use Rattle.session_core.specs.Words.{IsAnswerable};

use crate::copy::{RequestCopy, SharedCopy, copied_request};
use crate::counting::cost_of_body;
use crate::replies::Arrived;
use crate::session::Session;
use crate::words::LastWord;
use bosh_types::{Condition, Ending, Moment, Rid, SharedText, Ticket};
use rid_window::Placed;
use session_attrs::Request;
use std::alloc::{AllocError, Global};

impl Session {
    /// A request for this session arrives with this body (XEP-0124, sections 11 and 14). The reply is its answer where its
    /// id is answered in this call or was before and the answer is kept, and otherwise the ticket by which the answer is
    /// collected; after the ending it is `Over`, and nothing changes. The only error is want of memory, and then all is as
    /// it was.
    #[tactic(auto, unfolding(crate::specs::StandsFor::StandsFor))]
    pub fn arrive(
        &mut self,
        alloc: Global,
        request: &Request,
        body: &SharedText,
        now: Moment,
    ) -> Result<Arrived, AllocError>
        requires { IsAllowed (Arrive request.now body.now now) }
        ensures step { (plain : PlainSession) → StandsFor self.old plain
            → IfOk result (λ reply. Does self.new reply (arrive plain request.now body.now now)) }
        ensures err { OnErr result (self.new ≡ self.old) }
    {
        if self.ending.is_some() {
            return Ok(Arrived::Over);
        }
        let mut draft = self.copied(alloc)?;
        let reply = draft.arrive_live(alloc, request, body, now)?;
        *self = draft;
        Ok(reply)
    }

    // The same, of a session that goes on; after an error it may be anything.
    #[tactic(auto, unfolding(crate::specs::StandsFor::StandsFor))]
    fn arrive_live(
        &mut self,
        alloc: Global,
        request: &Request,
        body: &SharedText,
        now: Moment,
    ) -> Result<Arrived, AllocError>
        requires { IsModest request.now body.now }
        ensures { (plain : PlainSession) → StandsFor self.old plain → is_over plain ≡ false
            → IfOk result (λ reply. Does self.new reply (arrive plain request.now body.now now)) }
    {
        let cost = cost_of_body(request, body);
        if self.is_full(cost) {
            return self.refuse(
                alloc,
                Condition::UndefinedCondition,
                Ending::JournalFull {
                    counted: self.counted,
                    cost,
                },
            );
        }
        self.enter(alloc, cost, now)?;
        self.arrive_in_time(alloc, request, body)
    }

    // Once time was applied: where that ended the session, the copy is told so.
    #[tactic(auto, unfolding(crate::specs::StandsFor::StandsFor))]
    fn arrive_in_time(
        &mut self,
        alloc: Global,
        request: &Request,
        body: &SharedText,
    ) -> Result<Arrived, AllocError>
        requires { IsModest request.now body.now }
        ensures { (plain : PlainSession) → StandsFor self.old plain
            → IfOk result (λ reply. Does self.new reply (arrived_in_time plain request.now body.now)) }
    {
        if self.ending.is_some() {
            let text = LastWord::Terminal(Some(Condition::ItemNotFound)).text(alloc)?;
            return Ok(Arrived::Answer(text));
        }
        if request.rid <= self.answered {
            return self.repeat(alloc, request.rid);
        }
        if request.rid <= self.last {
            return self.reopen(request.rid);
        }
        self.place(alloc, request, body)
    }

    // An answered id gets the same bytes again while they are kept; else the session ends.
    #[tactic(auto, unfolding(crate::specs::StandsFor::StandsFor))]
    fn repeat(&mut self, alloc: Global, rid: Rid) -> Result<Arrived, AllocError>
        ensures { (plain : PlainSession) → StandsFor self.old plain → is_over plain ≡ false
            → IfOk result (λ reply. Does self.new reply (repeated plain rid (kept_of plain rid))) }
    {
        if let Some(answer) = self.keep.find(rid) {
            return Ok(Arrived::Answer(answer.bytes.again()?));
        }
        let lowest = self.lowest_kept();
        self.refuse(
            alloc,
            Condition::ItemNotFound,
            Ending::Stale { rid, lowest },
        )
    }

    // The least id whose answer is kept, and the next one to be answered where none is.
    #[tactic(auto, unfolding(crate::specs::StandsFor::StandsFor))]
    fn lowest_kept(&self) -> Rid
        ensures { (plain : PlainSession) → StandsFor self.now plain → result ≡ lowest_kept plain }
    {
        if let Some(lowest) = self.keep.lowest() {
            return lowest;
        }
        match self.answered.next() {
            Some(next) => next,
            None => self.answered,
        }
    }

    // An open id has its copy already, and this one only takes the place of the request that waits.
    #[tactic(auto, unfolding(crate::specs::StandsFor::StandsFor))]
    fn reopen(&mut self, rid: Rid) -> Result<Arrived, AllocError>
        ensures { (plain : PlainSession) → StandsFor self.old plain → is_over plain ≡ false → answered_of plain < rid
            → IfOk result (λ reply. Does self.new reply (reopened plain rid)) }
    {
        self.last_arrival = self.moment;
        self.tickets.replace(rid);
        Ok(Arrived::Parked(self.tickets.give(rid)?))
    }

    // A copy that follows the last one processed is placed in the window.
    #[tactic(auto, unfolding(crate::specs::StandsFor::StandsFor))]
    fn place(
        &mut self,
        alloc: Global,
        request: &Request,
        body: &SharedText,
    ) -> Result<Arrived, AllocError>
        requires { IsModest request.now body.now }
        ensures { (plain : PlainSession) → StandsFor self.old plain → is_over plain ≡ false → last_of plain < request.now.rid
            → IfOk result (λ reply. Does self.new reply (arrived_at plain (copy_now plain request.now body.now) (place_of plain (copy_now plain request.now body.now)))) }
    {
        let rid = request.rid;
        // The proof learns here that an id is at most the greatest.
        let _value = rid.value();
        let copy = RequestCopy {
            request: copied_request(alloc, request)?,
            body: body.again()?,
            arrived: self.moment,
        };
        let extra = copy.is_extra();
        match self.window.place(rid, extra, SharedCopy::new(alloc, copy)?) {
            Placed::Done => self.take_in(alloc, rid),
            Placed::Above(_) => self.refuse_above(alloc, rid),
            Placed::Repeat(_) => self.reopen(rid),
            Placed::Below(_) => self.reopen(rid),
        }
    }

    // A copy beyond the window ends the session.
    #[tactic(auto, unfolding(crate::specs::StandsFor::StandsFor))]
    fn refuse_above(&mut self, alloc: Global, rid: Rid) -> Result<Arrived, AllocError>
        ensures { (plain : PlainSession) → StandsFor self.old plain → is_over plain ≡ false
            → IfOk result (λ reply. Does self.new reply (refused Condition.ItemNotFound (Above rid (last_of plain) plain.terms.requests) plain)) }
    {
        let last = self.last;
        let requests = self.deadlines.terms().requests;
        self.refuse(
            alloc,
            Condition::ItemNotFound,
            Ending::Above {
                rid,
                last,
                requests,
            },
        )
    }

    // The copy that was placed may be the next, and others behind it; then held requests are answered.
    #[tactic(auto, unfolding(crate::specs::StandsFor::StandsFor))]
    fn take_in(&mut self, alloc: Global, rid: Rid) -> Result<Arrived, AllocError>
        ensures { (plain : PlainSession) (copy : PlainCopy) → IsPlacedIn self.old plain copy → rid ≡ id_of copy
            → IfOk result (λ reply. Does self.new reply (replied (settled (advanced (placed plain copy))) rid)) }
    {
        self.last_arrival = self.moment;
        let ticket = self.tickets.give(rid)?;
        self.advance(alloc)?;
        self.settle(alloc)?;
        Ok(self.reply_to(ticket))
    }

    // The ticket that was handed out last is taken back where its request has its answer.
    #[tactic(auto, unfolding(crate::specs::StandsFor::StandsFor))]
    fn reply_to(&mut self, ticket: Ticket) -> Arrived
        ensures { (plain : PlainSession) (rid : ℕ) → StandsFor self.old (with_ticket plain rid) → ticket ≡ length plain.tickets + 1
            → Does self.new result (replied plain rid) }
    {
        match self.tickets.take_back() {
            Some(text) => Arrived::Answer(text),
            None => Arrived::Parked(ticket),
        }
    }

    // The session ends, and the copy is told this condition.
    #[tactic(auto, unfolding(crate::specs::StandsFor::StandsFor))]
    fn refuse(
        &mut self,
        alloc: Global,
        condition: Condition,
        ending: Ending,
    ) -> Result<Arrived, AllocError>
        ensures { (plain : PlainSession) → StandsFor self.old plain → is_over plain ≡ false
            → IsAnswerable (answered_of plain) ending
            → IfOk result (λ reply. Does self.new reply (refused condition ending plain)) }
    {
        let text = LastWord::Terminal(Some(condition)).text(alloc)?;
        self.end(alloc, ending)?;
        Ok(Arrived::Answer(text))
    }
}

// A later request, which its session is called with.
ghost use Rattle.std.specs.Prelude.{◌≡◌, ℕ, List, IfOk, IsSome, None, OnErr, Some};
ghost use Rattle.parked_gate.specs.Passes.{Grows, IsPassOf, known};
ghost use Rattle.serve_loop.specs.Answering.{Adds, Answers, ShowsSession};
ghost use Rattle.serve_loop.specs.Asked.{asked_of};
ghost use Rattle.serve_loop.specs.Effects.{AddsNothing, FindsAtMost};
ghost use Rattle.serve_loop.specs.Trail.{Names as NamesSession, refusal_text, setting};
ghost use Rattle.session_attrs.specs.declared.request.Kind.TheVariants as kinds;
ghost use Rattle.session_core.specs.Journal.{ToArrive};
ghost use Rattle.session_journal.specs.Calls.{reply_in};
ghost use Rattle.session_table.specs.declared.handle.SessionHandle.{SessionHandle};
ghost use Rattle.session_table.specs.declared.purse.Purse.{Purse};
ghost use Rattle.session_table.specs.Purses.{Holds, OthersStay, held};

use crate::answering::{Answering, Named, Waiting, evidence_of, session_of};
use crate::asked::Asked;
use crate::trail::{Evidence, TrailLine};
use crate::worker::{Site, Tools, Worker};
use bosh_ports::{Bell, BellKey};
use bosh_types::{Condition, CopyIn, SharedText};
use server_ports::{Clock, Names};
use session_attrs::{Kind, Request};
use session_core::Arrived;
use session_journal::{Call, Reply};
use std::alloc::{AllocError, Global};
use std::snapshot::Snapshot;
use std::sync::Wait;

impl Worker {
    /// Calls the session that the request names.
    pub(crate) fn serve<R: Wait, C: Clock, B: Bell, M: Names>(
        &mut self,
        rt: &R,
        site: &Site<'_, C>,
        tools: &mut Tools<B, M>,
        request: Request,
        body: SharedText,
    ) -> Result<Answering, AllocError>
        requires pass { IsPassOf site.now.directory.now self.old.purse.directory }
        requires asks { asked_of site.now.hosts.now body ≡ Asked.Later request }
        ensures pass { IsPassOf site.now.directory.now self.new.purse.directory }
        ensures answers { IfOk result (Answers (setting site.now.hosts.now site.now.limits (C.moment site.now.clock.now)) body self.old.trail self.new.trail
            self.old.purse self.new.purse) }
        ensures err { OnErr result (self.new.trail ≡ self.old.trail) }
        ensures lost { OnErr result (AddsNothing self.old.purse self.new.purse) }
        ensures grows { Grows (known self.old.purse.directory) (known self.new.purse.directory) }
        ensures names { tools.new.names ≡ tools.old.names }
        ensures silences { B.silences tools.new.bell ≡ B.silences tools.old.bell }
    {
        let sid = named_by(site.alloc, &request)?;
        let found = self
            .purse
            .find(rt, site.alloc, site.directory, sid.as_slice())?;
        match found {
            Some(number) => {
                self.arrive(
                    rt,
                    site,
                    &mut tools.bell,
                    Named { sid, number },
                    request,
                    body,
                )
            },
            None => {
                let evidence = evidence_of(&self.purse);
                self.trail.unknown(site.alloc, sid, evidence)
            }
        }
    }

    /// The request arrives at this session.
    fn arrive<R: Wait, C: Clock, B: Bell>(
        &mut self,
        rt: &R,
        site: &Site<'_, C>,
        bell: &mut B,
        session: Named,
        request: Request,
        body: SharedText,
    ) -> Result<Answering, AllocError>
        requires held { Holds self.old.purse.sessions session.number session.sid }
        requires names { NamesSession body session.sid request }
        ensures answers { (before : Purse) → FindsAtMost before self.old.purse session.number session.sid
            → IfOk result (Answers (setting site.now.hosts.now site.now.limits (C.moment site.now.clock.now)) body self.old.trail self.new.trail before self.new.purse) }
        ensures directory { self.new.purse.directory ≡ self.old.purse.directory }
        ensures silences { B.silences bell.new ≡ B.silences bell.old }
        ensures err { OnErr result (self.new.trail ≡ self.old.trail) }
        ensures lost { (before : Purse) → FindsAtMost before self.old.purse session.number session.sid → OnErr result (AddsNothing before self.new.purse) }
    {
        let now = site.clock.now();
        let Named { sid, number } = session;
        let reply = self
            .purse
            .call(rt, number, Call::Arrive { request, body, now })?;
        ring(bell, number);
        match arrived_in(reply) {
            Arrived::Answer(text) => {
                self.told_by_last(rt, Named { sid, number });
                Ok(Answering::Now(text))
            }
            Arrived::Parked(ticket) => {
                let session = Named { sid, number };
                Ok(Answering::Waits(Waiting { session, ticket }))
            }
            Arrived::Over => self.over(site.alloc, sid, number),
        }
    }

    /// The session had ended: its handle is let go, unless there is no memory for the answer.
    fn over(&mut self, alloc: Global, sid: SharedText, number: u64) -> Result<Answering, AllocError>
        requires held { IsSome (held self.old.purse.sessions number) }
        ensures text { IfOk result (λ answering. answering ≡ Answering.Now (refusal_text Condition.ItemNotFound)) }
        ensures line { IfOk result (λ _. (session : SessionHandle) → held self.old.purse.sessions number ≡ Some session
            → Adds self.old.trail self.new.trail (TrailLine.Unknown sid) (ShowsSession session)) }
        ensures gone { IfOk result (λ _. (held self.new.purse.sessions number ≡ None) × OthersStay number self.old.purse.sessions self.new.purse.sessions) }
        ensures directory { self.new.purse.directory ≡ self.old.purse.directory }
        ensures err { OnErr result (self.new.trail ≡ self.old.trail) }
        ensures kept { OnErr result (self.new.purse ≡ self.old.purse) }
    {
        let evidence = Evidence::Session(Snapshot::of(session_of(&self.purse, number)));
        let answering = self.trail.unknown(alloc, sid, evidence)?;
        self.purse.let_go(number);
        Ok(answering)
    }
}

/// The session with this number changed: those who wait for it look again, and so does the pump.
pub(crate) fn ring<B: Bell>(bell: &mut B, number: u64)
    ensures { B.silences bell.new ≡ B.silences bell.old }
{
    bell.ring(BellKey(number));
    bell.ring(BellKey::PUMP);
}

// The name of the session that the request names.
fn named_by(alloc: Global, request: &Request) -> Result<SharedText, AllocError>
    requires { (sid : List ℕ) × (request.now.kind ≡ kinds.Later sid) }
    ensures { IfOk result (λ sid. request.now.kind ≡ kinds.Later sid) }
{
    match &request.kind {
        Kind::Later { sid } => SharedText::new(alloc, sid.copy_in(alloc)?),
        Kind::Creation(_) => unreachable!(),
    }
}

// What a session replies to an arrival.
fn arrived_in(reply: Reply) -> Arrived
    requires { (arrived : Arrived) × (reply_in reply ≡ ToArrive arrived) }
    ensures { reply ≡ Reply.Arrive result }
{
    match reply {
        Reply::Arrive(arrived) => arrived,
        Reply::Back(_) => unreachable!(),
        Reply::BackClosed(_) => unreachable!(),
        Reply::Tick(_) => unreachable!(),
        Reply::TakeInward(_) => unreachable!(),
    }
}

// What a request of a connection is answered, and by which call.
ghost use Rattle.std.specs.Prelude.{◌≡◌, ℕ, List, None, Option, IfOk, IsSome, OnErr, Some, if◌then◌else◌, true};
ghost use Rattle.std.specs.BTreeMap.{IsUnchanged};
ghost use Rattle.parked_gate.specs.Passes.{IsPassOf, Looks, known};
ghost use Rattle.serve_loop.specs.Answering.{Answers, Collects, IsLost, IsWaiting, ShowsDirectory, StaysHeld, TellsLast};
ghost use Rattle.serve_loop.specs.Drawing.{OpensAsDrawn};
ghost use Rattle.serve_loop.specs.Trail.{Setting, setting};
ghost use Rattle.session_core.specs.State.{is_over};
ghost use Rattle.session_journal.specs.Stored.{After};
ghost use Rattle.session_table.specs.declared.handle.SessionHandle.{SessionHandle};
ghost use Rattle.session_table.specs.declared.purse.Purse.{Purse};
ghost use Rattle.session_table.specs.Purses.{OthersStay, Turned, held};

use crate::asked::{Asked, what_is_asked};
use crate::telling::last_of;
use crate::trail::Evidence;
use crate::worker::{Site, Tools, Worker};
use bosh_ports::{Bell, BellKey};
use bosh_types::{SharedText, Ticket};
use server_ports::{Clock, Names};
use session_journal::{Answer, Found, Question};
use session_table::{Purse, SessionHandle};
use std::alloc::AllocError;
use std::snapshot::Snapshot;
use std::sync::Wait;

/// A session that the purse holds, by its name and its opening number.
#[derive(Drop)]
pub(crate) struct Named {
    pub(crate) sid: SharedText,
    pub(crate) number: u64,
}

/// A request that waits in its session.
#[derive(Drop)]
pub(crate) struct Waiting {
    pub(crate) session: Named,
    pub(crate) ticket: Ticket,
}

/// What there is for a request.
#[derive(Drop)]
pub(crate) enum Answering {
    /// This body, with its line in the trail.
    Now(SharedText),
    /// Nothing yet.
    Waits(Waiting),
    /// Another copy of it took its place, or its answer: it gets none.
    Superseded,
}

impl Worker {
    /// Makes the call that the body asks for. The only error is want of memory.
    pub(crate) fn answer<R: Wait, C: Clock, B: Bell, M: Names>(
        &mut self,
        rt: &R,
        site: &Site<'_, C>,
        tools: &mut Tools<B, M>,
        body: SharedText,
    ) -> Result<Answering, AllocError>
        requires { IsPassOf site.now.directory.now self.old.purse.directory }
        ensures pass { IsPassOf site.now.directory.now self.new.purse.directory }
        ensures answers { IfOk result (Answers (setting site.now.hosts.now site.now.limits (C.moment site.now.clock.now)) body self.old.trail self.new.trail
            self.old.purse self.new.purse) }
        ensures err { OnErr result (self.new.trail ≡ self.old.trail) }
        ensures lost { OnErr result (IsLost (setting site.now.hosts.now site.now.limits (C.moment site.now.clock.now)) body self.old.purse self.new.purse) }

        // Each session that it opened has a name that was drawn.
        ensures drawn { OpensAsDrawn (M.drawn tools.old.names) (M.drawn tools.new.names) (known self.old.purse.directory) (known self.new.purse.directory) }
        ensures silences { B.silences tools.new.bell ≡ B.silences tools.old.bell }
    {
        let asked = what_is_asked(site.alloc, site.hosts, body.as_slice())?;
        match asked {
            Asked::Nothing(condition) => {
                self.trail.refuse(site.alloc, condition, Evidence::Request)
            }
            Asked::Creation { request, place } => self.create(
                rt, site, tools, request, body, place,
            ),
            Asked::Later { request } => self.serve(rt, site, tools, request, body),
        }
    }

    /// What there is by now for a request that waits. It takes no memory.
    pub(crate) fn collect<R: Wait, B: Bell>(
        &mut self,
        rt: &R,
        bell: &mut B,
        waiting: Waiting,
    ) -> Answering
        requires { IsSome (held self.old.purse.sessions waiting.session.number) }
        ensures directory { self.new.purse.directory ≡ self.old.purse.directory }
        ensures held { StaysHeld self.new.purse.sessions result }
        ensures collects { (site : Setting) → (body : List ℕ) → (before : Purse) → IsWaiting site before self.old.purse body waiting
            → Collects site body self.old.trail self.new.trail before self.new.purse waiting result }
        ensures silences { B.silences bell.new ≡ B.silences bell.old }
    {
        let number = waiting.session.number;
        bell.tune(BellKey(number));
        match self.purse.poll(rt, number, waiting.ticket) {
            None => Answering::Waits(waiting),
            Some(Found::Answer(text)) => {
                self.told_by_last(rt, waiting.session);
                Answering::Now(text)
            }
            Some(Found::Superseded) => Answering::Superseded,
            Some(Found::UnknownTicket) => Answering::Superseded,
        }
    }

    /// The last entry that the session's pass has seen answers the request. A session that has ended is let go.
    pub(crate) fn told_by_last<R: Wait>(&mut self, rt: &R, session: Named)
        requires held { IsSome (held self.old.purse.sessions session.number) }
        ensures told { (x : SessionHandle) → held self.old.purse.sessions session.number ≡ Some x
            → TellsLast self.old.trail self.new.trail self.new.purse.sessions session.number session.sid x }
        ensures others { OthersStay session.number self.old.purse.sessions self.new.purse.sessions }
        ensures directory { self.new.purse.directory ≡ self.old.purse.directory }
    {
        let Named { sid, number } = session;
        let last = last_of(session_of(&self.purse, number));
        let ended = sees_ending(&mut self.purse, rt, number);
        self.trail.enter(sid, last, session_of(&self.purse, number));
        let_go_if(&mut self.purse, number, ended);
    }
}

/// The session that is held under this number.
pub(crate) fn session_of(purse: &Purse, number: u64) -> &SessionHandle
    requires { IsSome (held purse.now.sessions number) }
    ensures { held purse.now.sessions number ≡ Some result.now }
{
    match purse.sessions.get(&number) {
        Some(session) => session,
        None => unreachable!(),
    }
}

/// What this worker knows of the directory.
pub(crate) fn evidence_of(purse: &Purse) -> Evidence
    ensures { ShowsDirectory (known purse.now.directory) result }
{
    Evidence::Directory(Snapshot::of(&purse.directory))
}

/// Whether this worker sees that the session has ended.
fn sees_ending<R: Wait>(purse: &mut Purse, rt: &R, number: u64) -> bool
    requires { IsSome (held purse.old.sessions number) }
    ensures looked { Turned number purse.old.sessions purse.new.sessions (Looks (λ seen. result ≡ true → After seen (λ s. is_over s ≡ true))) }
    ensures others { OthersStay number purse.old.sessions purse.new.sessions }
    ensures directory { purse.new.directory ≡ purse.old.directory }
{
    match purse.look(rt, number, &Question::Load) {
        Ok(
            Answer::Load {
                ending: Some(_),
                ..
            },
        ) => true,
        Ok(Answer::Load { ending: None, .. }) => false,
        Ok(Answer::Home(_)) => false,
        Ok(Answer::State(_)) => false,
        Err(AllocError) => false,
    }
}

/// Lets the session go if it has ended.
fn let_go_if(purse: &mut Purse, number: u64, ended: bool)
    ensures held { held purse.new.sessions number ≡ (if ended then None else held purse.old.sessions number) }
    ensures others { OthersStay number purse.old.sessions purse.new.sessions }
    ensures directory { purse.new.directory ≡ purse.old.directory }
{
    if ended {
        purse.let_go(number);
    }
}

// Making an entry again that a stored journal has: what it asks for, and whether a session may enter that.
ghost use Rattle.std.specs.Prelude.{◌≡◌, ◌∷◌, ◌++◌, [], IfOk, IsTrue, OnErr, OnOk, Some, length, true, List, ℕ};
ghost use Rattle.session_attrs.specs.declared.request.Kind.TheVariants as kinds;
ghost use Rattle.session_core.specs.Journal.{IsAllowed, entered_by};
ghost use Rattle.session_core.specs.StandsFor.{StandsFor};
ghost use Rattle.session_core.specs.State.{PlainSession};
ghost use Rattle.session_journal.specs.Calls.{call_in};
ghost use Rattle.session_journal.specs.declared.entry.Entered.TheVariants as stored;
ghost use Rattle.session_journal.specs.Redoing.{AsksFor, fits, is_itself, is_timely, may_limit, ticks};
ghost use Rattle.session_journal.specs.Stored.{After};

use crate::call::Call;
use crate::entry::{Entered, Limited};
use crate::recorded::Recorded;
use crate::storing::{enter, has_room};
use bosh_types::{Moment, SharedText, StreamNo, Ticket};
use session_attrs::{Kind, Request, is_stanza, read_body};
use session_core::{PLAIN_COST, Session, cost_of_body, cost_of_stanza};
use std::alloc::{AllocError, Global};

/// What became of an entry that was to be made again.
#[derive(Clone, Copy, Debug, PartialEq, Eq)]
pub enum Redone {
    /// The entries with this one are a journal, and it is the last of them now.
    Done,
    /// They are none, and nothing changed.
    Foreign,
}

/// What an entry asks for.
#[derive(Debug, Drop)]
pub(crate) enum Again {
    /// A call that a session may be asked.
    Call(Call),
    Poll(Ticket),
    Limit {
        kind: Limited,
        cost: u64,
        now: Moment,
    },
    /// Nothing that any session would enter.
    Nothing,
}

/// What is to be done again for an entry: its body is read again, and its stanza too. The only error is want of memory.
pub(crate) fn asked_again(alloc: Global, entered: &Entered) -> Result<Again, AllocError>
    ensures { IfOk result (λ again. AsksFor entered.now again) }
{
    match entered {
        Entered::Open { .. } => Ok(Again::Nothing),
        Entered::Arrive { body, now } => arrival_again(alloc, body, *now),
        Entered::Collect { ticket } => Ok(Again::Poll(*ticket)),
        Entered::Back {
            stream,
            stanza,
            now,
        } => stanza_again(alloc, *stream, stanza, *now),
        Entered::BackClosed {
            stream,
            closing,
            now,
        } => Ok(Again::Call(Call::BackClosed {
            stream: *stream,
            closing: *closing,
            now: *now,
        })),
        Entered::Tick { now } => Ok(Again::Call(Call::Tick { now: *now })),
        Entered::TakeInward => Ok(Again::Call(Call::TakeInward)),
        Entered::Limit { kind, cost, now } => Ok(Again::Limit {
            kind: *kind,
            cost: *cost,
            now: *now,
        }),
    }
}

// An arrival of this body, where it gives a request for a session that there is.
fn arrival_again(alloc: Global, body: &SharedText, now: Moment) -> Result<Again, AllocError>
    ensures { IfOk result (λ again. AsksFor (stored.Arrive body.now now) again) }
{
    let Some(request) = read_body(alloc, body.as_slice())? else {
        return Ok(Again::Nothing);
    };
    if !is_later(&request) {
        return Ok(Again::Nothing);
    }
    let body = body.again()?;
    Ok(Again::Call(Call::Arrive { request, body, now }))
}

// Whether the request is for a session that there is.
fn is_later(request: &Request) -> bool
    ensures later { result ≡ true → (sid : List ℕ) × (request.now.kind ≡ kinds.Later sid) }
    ensures creation { (sid : List ℕ) → request.now.kind ≡ kinds.Later sid → result ≡ true }
{
    match &request.kind {
        Kind::Creation(_) => false,
        Kind::Later { .. } => true,
    }
}

fn stanza_again(
    alloc: Global,
    stream: StreamNo,
    stanza: &SharedText,
    now: Moment,
) -> Result<Again, AllocError>
    ensures { IfOk result (λ again. AsksFor (stored.Back stream stanza.now now) again) }
{
    if !is_stanza(alloc, stanza.as_slice())? {
        return Ok(Again::Nothing);
    }
    let stanza = stanza.again()?;
    Ok(Again::Call(Call::Back {
        stream,
        stanza,
        now,
    }))
}

impl Recorded {
    /// Whether the call would be entered now, and as itself: not as the limit that it meets.
    pub(crate) fn enters(&self, call: &Call) -> bool
        requires { IsAllowed (call_in call.now) }
        ensures { After self.now.log (λ plain. result ≡ is_itself (entered_by plain (call_in call.now))) }
    {
        enters(&self.session, call)
    }

    /// Whether a call that met the limit by this cost may be entered now.
    pub(crate) fn may_limit(&self, kind: Limited, cost: u64, now: Moment) -> bool
        ensures { After self.now.log (λ plain. result ≡ may_limit plain kind cost now) }
    {
        may_limit(&self.session, kind, cost, now)
    }

    /// Enters that a call met the limit by this cost, and hands the entry out. The only error is want of memory, and then all
    /// is as it was.
    pub(crate) fn meet_limit(
        &mut self,
        caller: u32,
        kind: Limited,
        cost: u64,
        now: Moment,
    ) -> Result<Option<Entered>, AllocError>
        requires { After self.old.log (λ plain. IsTrue (may_limit plain kind cost now)) }
        ensures entry { IfOk result (λ made. made ≡ Some (stored.Limit kind cost now)) }
        ensures log { OnOk result (self.new.log ≡ self.old.log ++ record { caller = caller; call = stored.Limit kind cost now } ∷ []) }
        ensures out { OnOk result (self.new.out ≡ self.old.out) }
        ensures err { OnErr result (self.new ≡ self.old) }
    {
        has_room(self.entries.len(), self.out, 0)?;
        self.session.meet_limit(self.alloc, cost)?;
        let entered = Entered::Limit { kind, cost, now };
        Ok(enter(&mut self.entries, caller, Some(entered)))
    }

    /// How many tickets were handed out so far.
    pub fn tickets_given(&self) -> u32
        ensures { After self.now.log (λ plain. result ≡ length plain.tickets) }
    {
        self.session.tickets_given()
    }
}

// Whether a session would enter the call as itself.
fn enters(session: &Session, call: &Call) -> bool
    requires { IsAllowed (call_in call.now) }
    ensures { (plain : PlainSession) → StandsFor session.now plain → result ≡ is_itself (entered_by plain (call_in call.now)) }
{
    match call {
        Call::Arrive { request, body, .. } => fits(session, cost_of_body(request, body)),
        Call::Back { stanza, .. } => fits(session, cost_of_stanza(stanza)),
        Call::BackClosed { .. } => fits(session, PLAIN_COST),
        Call::Tick { now } => ticks(session, *now),
        Call::TakeInward => session.has_inward(),
    }
}

// Whether the session goes on, and its journal has room for this cost.
fn fits(session: &Session, cost: u64) -> bool
    ensures { (plain : PlainSession) → StandsFor session.now plain → result ≡ fits plain cost }
{
    if session.ending().is_some() {
        return false;
    }
    !session.is_full(cost)
}

// Whether a tick has something to do, and its entry fits.
fn ticks(session: &Session, now: Moment) -> bool
    ensures { (plain : PlainSession) → StandsFor session.now plain → result ≡ ticks plain now }
{
    if !session.is_due(now) {
        return false;
    }
    !session.is_full(PLAIN_COST)
}

// Whether a session may enter that a call met the limit by this cost.
fn may_limit(session: &Session, kind: Limited, cost: u64, now: Moment) -> bool
    ensures { (plain : PlainSession) → StandsFor session.now plain → result ≡ may_limit plain kind cost now }
{
    if session.ending().is_some() {
        return false;
    }
    if !session.is_full(cost) {
        return false;
    }
    is_timely(session, kind, now)
}

// Whether a call of this kind would meet the limit at this moment: time does so only where it has something to do.
fn is_timely(session: &Session, kind: Limited, now: Moment) -> bool
    ensures { (plain : PlainSession) → StandsFor session.now plain → result ≡ is_timely plain kind now }
{
    match kind {
        Limited::Arrival => true,
        Limited::ServerStanza => true,
        Limited::ServerClosing => true,
        Limited::Time => session.is_due(now),
    }
}

// What a trail says of requests that have their answer.
ghost use Rattle.std.specs.Prelude.{◌≡◌, ◌-◌, IfOk, OnErr, length};
ghost use Rattle.parked_gate.specs.Passes.{known};
ghost use Rattle.serve_loop.specs.Answering.{Adds, ShowsSession};
ghost use Rattle.serve_loop.specs.Trail.{refusal_text};

use crate::answering::Answering;
use crate::refusing::refusal;
use crate::trail::{Evidence, Trail, TrailLine};
use bosh_types::{Condition, SharedText};
use session_table::SessionHandle;
use std::alloc::{AllocError, Global};
use std::snapshot::Snapshot;

/// Which entry a session's pass made last.
#[derive(Clone, Copy)]
pub(crate) struct LastEntry {
    caller: u32,
    place: u64,
}

/// The last entry that the session's pass has seen, as one that it made.
pub(crate) fn last_of(session: &SessionHandle) -> LastEntry
    ensures caller { result.caller ≡ (known session.now.pass).number }
    ensures place { result.place ≡ length (known session.now.pass).seen - 1 }
{
    LastEntry {
        caller: session.caller(),
        place: session.seen().saturating_sub(1),
    }
}

impl Trail {
    /// The request is refused with this condition, which this evidence tells. The only error is want of memory.
    pub(crate) fn refuse(
        &mut self,
        alloc: Global,
        condition: Condition,
        evidence: Evidence,
    ) -> Result<Answering, AllocError>
        ensures text { IfOk result (λ answering. answering ≡ Answering.Now (refusal_text condition)) }
        ensures line { IfOk result (λ _. Adds self.old self.new (TrailLine.NoSession condition) (λ by. by ≡ evidence)) }
        ensures err { OnErr result (self.new ≡ self.old) }
    {
        let text = refusal(alloc, condition)?;
        self.push(TrailLine::NoSession(condition), evidence);
        Ok(Answering::Now(text))
    }

    /// No session of this name is live, which this evidence tells. The only error is want of memory.
    pub(crate) fn unknown(
        &mut self,
        alloc: Global,
        sid: SharedText,
        evidence: Evidence,
    ) -> Result<Answering, AllocError>
        ensures text { IfOk result (λ answering. answering ≡ Answering.Now (refusal_text Condition.ItemNotFound)) }
        ensures line { IfOk result (λ _. Adds self.old self.new (TrailLine.Unknown sid) (λ by. by ≡ evidence)) }
        ensures err { OnErr result (self.new ≡ self.old) }
    {
        let text = refusal(alloc, Condition::ItemNotFound)?;
        self.push(TrailLine::Unknown { sid }, evidence);
        Ok(Answering::Now(text))
    }

    /// The entry answers the request, as this handle tells. It takes no memory.
    pub(crate) fn enter(&mut self, sid: SharedText, last: LastEntry, session: &SessionHandle)
        ensures { Adds self.old self.new (TrailLine.Entry sid last.caller last.place) (ShowsSession session.now) }
    {
        let LastEntry { caller, place } = last;
        let evidence = Evidence::Session(Snapshot::of(session));
        self.push(TrailLine::Entry { sid, caller, place }, evidence);
    }

    /// The request created the session. The only error is want of memory.
    pub(crate) fn open(&mut self, session: &SessionHandle) -> Result<(), AllocError>
        ensures line { IfOk result (λ _. Adds self.old self.new (TrailLine.Opened session.now.sid) (ShowsSession session.now)) }
        ensures err { OnErr result (self.new ≡ self.old) }
    {
        let sid = session.sid.again()?;
        let evidence = Evidence::Session(Snapshot::of(session));
        self.push(TrailLine::Opened { sid }, evidence);
        Ok(())
    }
}

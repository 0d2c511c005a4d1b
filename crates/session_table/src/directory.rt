// The directory of live sessions.
ghost use Rattle.std.specs.Prelude.{◌≡◌, ◌+◌, ◌<◌, ◌≤◌, [], All, IfOk, OnErr, OnOk, Some, length};
ghost use Rattle.std.specs.Option.{option_map};
ghost use Rattle.session_attrs.specs.declared.request.Creation.{Creation};
ghost use Rattle.session_attrs.specs.declared.request.Kind.TheVariants as kinds;
ghost use Rattle.session_attrs.specs.Terms.{terms_of};
ghost use Rattle.session_table.specs.declared.calls.DirectoryCall.TheVariants as calls;
ghost use Rattle.session_table.specs.Entering.{AreOf, EntersOpening, RemovesOrNot};
ghost use Rattle.session_table.specs.History.{IsLegal, live_at, live_of, openings_of};
ghost use Rattle.session_table.specs.Replies.{FindsOrNot, IsAnswered, MayOpen, Starts, Steps, first_seen, live_sessions, session_opening};
ghost use Rattle.session_table.specs.Sids.{IsSidOf, highest_number, sid_of};

use crate::calls::{DirectoryReply, LiveSession, LiveSessions, Opened};
use crate::entry::{Entry, Event};
use crate::handle::{SessionHandle, keeper_of};
use crate::opening::Opening;
use crate::restoring::{Restored, Resumed};
use crate::sid::{is_sid, number_in, sid_text};
use bosh_types::{SharedText, Stanzas, Terms, Text, copy_items};
use entry_queue::EntryQueue;
use parked_gate::Gate;
use session_attrs::{Kind, Request, negotiate};
use session_core::copied_request;
use session_journal::{Entry as Made, History, Recorded};
use std::alloc::{AllocError, Global};
use std::collections::BTreeMap;
use std::marker::Model;
use std::snapshot::Snapshot;
use std::sync::Arc;

/// Which sessions are live. Clauses see its history, of which it keeps the count alone: of a session that was removed nothing
/// stays in memory.
#[derive(Drop)]
pub struct Directory {
    alloc: Global,
    // The live sessions by their opening numbers.
    sessions: BTreeMap<u64, SessionHandle>,
    entries: History<Entry>,
    // How many sessions were opened.
    openings: u64,
    // Where the entries of its sessions are noted, if they are stored.
    keeper: Option<Arc<EntryQueue>>,
}

impl Model for Directory {
    ghost use Rattle.std.specs.Prelude.{List};
    ghost use Rattle.session_table.specs.declared.entry.Entry.{Entry};

    ghost Value = { List Entry };

    ghost use Rattle.session_table.specs.Keeping.{Keeps};

    ghost view = { λ d. d.entries };

    ghost invariant = { λ d. Keeps d.sessions.entries d.entries d.openings };
}

/// Leave to split a handle of a session. Only this file can make one, so that the directory alone hands out passes of sessions.
#[derive(Clone, Copy)]
pub(crate) struct MaySplit {
    given: (),
}

const MAY_SPLIT: MaySplit = MaySplit { given: () };

/// A session that was just opened, and the body that answers its creation.
type Started = (SessionHandle, SharedText, Made);

impl Directory {
    /// No session is live, and none was opened. It takes no memory.
    pub fn new(alloc: Global) -> Directory
        ensures { result ≡ [] }
    {
        Directory {
            alloc,
            sessions: BTreeMap::new(alloc),
            entries: History::new(),
            openings: 0,
            keeper: None,
        }
    }

    /// The sessions that a store brings back, in the order of their opening numbers, from 1 on; those that are over are live no longer. Entries are
    /// noted in this queue. None where a session has another name than one of its number. The only error is want of memory.
    pub fn resumed(
        alloc: Global,
        keeper: Arc<EntryQueue>,
        sessions: Vec<Resumed>,
    ) -> Result<Option<Restored>, AllocError> {
        let mut directory = Directory::new(alloc);
        directory.keeper = Some(keeper);
        for session in sessions {
            if !directory.resume(session)? {
                return Ok(None);
            }
        }
        Ok(Some(Restored { directory }))
    }

    // One more comes back. Whether it has a name of its number.
    fn resume(&mut self, session: Resumed) -> Result<bool, AllocError>
        requires alone { AreOf 0 self.old }
        ensures alone { IfOk result (λ named. AreOf 0 self.new) }
    {
        let Resumed { sid, recorded } = session;
        if self.openings >= u64::from(u32::MAX) {
            return Ok(false);
        }
        let number = self.openings + 1;
        if !is_sid(self.alloc, sid.as_slice(), number)? {
            return Ok(false);
        }
        let ending = recorded.ending();
        let Ok((gate, pass)) = Gate::new(self.alloc, recorded) else {
            return Err(AllocError);
        };
        let Ok(gate) = Arc::new(self.alloc, gate) else {
            return Err(AllocError);
        };
        let name = sid.again()?;
        let keeper = keeper_of(&self.keeper)?;
        let handle = SessionHandle::new(sid, number, gate, pass, keeper);
        self.enter(0, handle)?;
        self.end(name.as_slice(), ending.is_some())?;
        Ok(true)
    }

    // The session of this name is live no longer where it is over.
    #[tactic(auto, using(crate::proofs::RestoringLemmas::removed_of))]
    fn end(&mut self, sid: &[u8], is_over: bool) -> Result<(), AllocError>
        requires alone { AreOf 0 self.old }
        ensures alone { OnOk result (AreOf 0 self.new) }
    {
        if is_over {
            let _was_live = self.remove(0, sid)?;
        }
        Ok(())
    }

    /// How many entries its history has.
    pub fn count(&self) -> u64
        ensures count { result ≡ length self.now }
        ensures legal { IsLegal self.now }
    {
        self.entries.len()
    }

    /// How many sessions are live.
    fn live_count(&self) -> usize
        ensures { result ≡ length (live_of self.now) }
    {
        self.sessions.len()
    }

    /// Opens a session for the creation, under the drawn part of its name and the next opening number, where its limits allow one
    /// more.
    pub(crate) fn open(
        &mut self,
        caller: u32,
        opening: &Opening,
    ) -> Result<DirectoryReply, AllocError>
        requires { MayOpen opening.now }
        ensures step { IfOk result (λ reply. Steps self.old caller (calls.Open opening.now) reply self.new) }
        ensures err { OnErr result (self.new ≡ self.old) }
    {
        let limits = opening.limits;
        if self.live_count() >= limits.live as usize {
            return Ok(DirectoryReply::TableFull);
        }
        if self.openings >= u64::from(limits.openings) {
            return Ok(DirectoryReply::OpeningsSpent);
        }
        let keeper = keeper_of(&self.keeper)?;
        let (mut session, answer, first) = start(self.alloc, self.openings + 1, opening, keeper)?;
        let handed_out = session.split(MAY_SPLIT, Some(first))?;
        self.enter(caller, session)?;
        Ok(DirectoryReply::Opened(Opened {
            session: handed_out,
            answer,
        }))
    }

    /// The session is one of the live ones.
    fn enter(&mut self, caller: u32, session: SessionHandle) -> Result<(), AllocError>
        requires not_spent { length (openings_of self.old) < highest_number }
        requires number { session.number ≡ length (openings_of self.old) + 1 }
        requires sid { IsSidOf session.sid session.number }
        ensures ok { OnOk result (EntersOpening self.old caller session self.new) }
        ensures err { OnErr result (self.new ≡ self.old) }
    {
        self.entries.room()?;
        let sid = session.sid.again()?;
        let event = Event::Opened(Snapshot::of(session.gate()));
        let number = session.number;
        self.sessions.insert(number, session)?;
        self.entries.add(&Entry { caller, sid, event });
        self.openings = number;
        Ok(())
    }

    /// The opening number of the live session of this name.
    fn number_of(&self, sid: &[u8]) -> Option<u64>
        ensures { result ≡ option_map (λ session. session.number) (live_at self.now sid.now) }
    {
        let sessions = &self.sessions;
        let Some(number) = number_in(sid) else {
            return None;
        };
        let Some(session) = sessions.get(&number) else {
            return None;
        };
        if session.sid.as_slice() == sid {
            return Some(number);
        }
        None
    }

    /// A handle of the live session of this name, with a pass of its own.
    pub(crate) fn find(&mut self, sid: &[u8]) -> Result<Option<SessionHandle>, AllocError>
        ensures same { self.new ≡ self.old }
        ensures found { IfOk result (FindsOrNot self.old sid.now) }
    {
        let Some(number) = self.number_of(sid) else {
            return Ok(None);
        };
        let Some(session) = self.sessions.get_mut(&number) else {
            unreachable!();
        };
        let handle = session.split(MAY_SPLIT, None)?;
        Ok(Some(handle))
    }

    /// The live session of this name is live no longer. Whether there was one.
    pub(crate) fn remove(&mut self, caller: u32, sid: &[u8]) -> Result<bool, AllocError>
        ensures removed { IfOk result (λ removed. RemovesOrNot self.old caller sid.now removed self.new) }
        ensures err { OnErr result (self.new ≡ self.old) }
    {
        let Some(number) = self.number_of(sid) else {
            return Ok(false);
        };
        let Some(session) = self.sessions.get(&number) else {
            unreachable!();
        };
        let sid = session.sid.again()?;
        self.entries.room()?;
        self.sessions.remove(&number);
        let event = Event::Removed;
        self.entries.add(&Entry { caller, sid, event });
        Ok(true)
    }

    /// The live sessions, in the order in which they were opened.
    pub(crate) fn live(&self) -> Result<LiveSessions, AllocError>
        ensures { IfOk result (λ live. live ≡ live_sessions self.now) }
    {
        let mut live = Vec::with_capacity(self.alloc, self.sessions.len())?;
        for (number, session) in &self.sessions {
            live.push(LiveSession {
                sid: session.sid.again()?,
                number: *number,
            })?;
        }
        Ok(LiveSessions::from_vec(live))
    }
}

/// A session for the creation, behind a gate of its own.
fn start(
    alloc: Global,
    number: u64,
    opening: &Opening,
    keeper: Option<Arc<EntryQueue>>,
) -> Result<Started, AllocError>
    requires may { MayOpen opening.now }
    requires few { number ≤ highest_number }
    ensures { IfOk result (λ started. Starts number opening.now started.0 started.1) }
{
    let sid = sid_text(alloc, opening.name.as_slice(), number)?;
    let (recorded, answer, first) = begin(alloc, number, &sid, opening)?;
    let Ok((gate, pass)) = Gate::new(alloc, recorded) else {
        return Err(AllocError);
    };
    let Ok(gate) = Arc::new(alloc, gate) else {
        return Err(AllocError);
    };
    Ok((
        SessionHandle::new(sid, number, gate, pass, keeper),
        answer,
        first,
    ))
}

// The session of this name, the body that answers its creation, and its entry.
fn begin(
    alloc: Global,
    number: u64,
    sid: &SharedText,
    opening: &Opening,
) -> Result<(Recorded, SharedText, Made), AllocError>
    requires may { MayOpen opening.now }
    requires few { number ≤ highest_number }
    requires sid { sid.now ≡ sid_of opening.now.name number }
    ensures log { IfOk result (λ begun. begun.0.log ≡ first_seen sid.now opening.now) }
    ensures answer { IfOk result (λ begun. IsAnswered begun.0.log begun.1) }
{
    let begun = Recorded::open(alloc, session_opening(alloc, sid, opening)?, 0)?;
    Ok((begun.recorded, begun.answer, begun.entry))
}

// What the session of this name is opened with.
fn session_opening(
    alloc: Global,
    sid: &SharedText,
    opening: &Opening,
) -> Result<session_core::Opening, AllocError>
    requires { (creation : Creation) × (opening.now.request.kind ≡ kinds.Creation creation) }
    ensures { IfOk result (λ made. (creation : Creation) → opening.now.request.kind ≡ kinds.Creation creation → made ≡ session_opening sid.now (terms_of creation) opening.now) }
{
    let request = copied_request(alloc, &opening.request)?;
    let sid = Vec::from_slice(alloc, sid.as_slice())?;
    let greeting = copy_items(alloc, opening.greeting.as_slice())?;
    Ok(session_core::Opening {
        request,
        body: opening.body.again()?,
        terms: terms_in(&opening.request),
        sid: Text::from_vec(sid),
        host: opening.host.again()?,
        greeting: Stanzas::from_vec(greeting),
        at: opening.at,
        limit: opening.limits.journal,
        gap_waits: opening.limits.gap_waits_within(),
    })
}

// The terms of the session that the request creates.
fn terms_in(request: &Request) -> Terms
    requires { (creation : Creation) × (request.now.kind ≡ kinds.Creation creation) }
    ensures { (creation : Creation) → request.now.kind ≡ kinds.Creation creation → result ≡ terms_of creation }
{
    match &request.kind {
        Kind::Creation(creation) => negotiate(creation),
        Kind::Later { .. } => unreachable!(),
    }
}

// What one worker keeps of the directory.
ghost use Rattle.std.specs.Prelude.{◌≡◌, ◌==◌, ◌≤◌, ℕ, IfNone, IfOk, IfSome, IsSome, None, OnErr, OnOk, Some};
ghost use Rattle.std.specs.List.{list_any};
ghost use Rattle.std.specs.BTreeMap.{IsEmpty, IsUnchanged};
ghost use Rattle.bosh_ports.specs.Faults.{HasRisen};
ghost use Rattle.parked_gate.specs.Passes.{Calls, Grows, IsPassOf, Looks, known};
ghost use Rattle.parked_gate.specs.Waits.{OnSilent};
ghost use Rattle.session_core.specs.Journal.{IsAllowed};
ghost use Rattle.session_journal.specs.Calls.{call_in};
ghost use Rattle.session_journal.specs.Seen.{Answers, IsStateAfter, RepliesTo};
ghost use Rattle.session_table.specs.History.{live_at};
ghost use Rattle.session_table.specs.Purses.{Holds, IsFound, IsNotHeld, IsNumberOf, KeepsLive, OpensInto, OpensOrNot, OthersStay, StaysBeside, StaysOrComes, Turned, WasAsked, found_of, held};
ghost use Rattle.session_table.specs.Replies.{MayOpen};
ghost use Rattle.session_table.specs.Serving.{PollsAs, WaitsAs};

use crate::calls::{
    DirectoryCall, DirectoryReply, LiveSession, NewSession, Opened, Question as Asked,
};
use crate::directory::Directory;
use crate::handle::SessionHandle;
use crate::opening::Opening;
use crate::sid::number_in;
use bosh_ports::Bell;
use bosh_types::{Text, Ticket};
use parked_gate::{Gate, Pass, Waited};
use session_journal::{Answer, Call, Found, Question, Reply, State};
use std::alloc::{AllocError, Global};
use std::collections::BTreeMap;
use std::sync::Wait;

/// A worker's pass of the directory, and handles of the sessions that it serves, by their opening numbers.
#[derive(Drop)]
pub struct Purse {
    pub directory: Pass<Directory>,
    pub sessions: BTreeMap<u64, SessionHandle>,
}

impl Purse {
    /// No session is held. It takes no memory.
    pub fn new(alloc: Global, directory: Pass<Directory>) -> Purse
        ensures directory { result.directory ≡ directory }
        ensures empty { IsEmpty result.sessions }
    {
        Purse {
            directory,
            sessions: BTreeMap::new(alloc),
        }
    }

    /// The opening number under which the session of this name is held.
    fn held_as(&self, sid: &[u8]) -> Option<u64>
        ensures held { IfSome result (λ number. Holds self.now.sessions number sid.now) }
        ensures of_name { IfSome result (λ number. IsNumberOf sid.now number) }
        ensures not_held { IfNone result (IsNotHeld self.now.sessions sid.now) }
    {
        let sessions = &self.sessions;
        let Some(number) = number_in(sid) else {
            return None;
        };
        let Some(session) = sessions.get(&number) else {
            return None;
        };
        if session.sid.as_slice() == sid {
            return Some(number);
        }
        None
    }

    /// Holds this handle under its session's opening number. Where there is no memory it is dropped.
    fn hold(&mut self, session: SessionHandle) -> Result<u64, AllocError>
        ensures number { IfOk result (λ number. number ≡ session.number) }
        ensures held { OnOk result (held self.new.sessions session.number ≡ Some session) }
        ensures others { OthersStay session.number self.old.sessions self.new.sessions }
        ensures err { OnErr result (IsUnchanged self.old.sessions self.new.sessions) }
        ensures directory { self.new.directory ≡ self.old.directory }
    {
        let number = session.number;
        self.sessions.insert(number, session)?;
        Ok(number)
    }

    /// The opening number under which the session of this name is held from now on: the directory is asked for it where it
    /// isn't held yet. None exactly where the directory, asked now, has no live session of that name. The only error is want of
    /// memory.
    pub fn find<R: Wait>(
        &mut self,
        rt: &R,
        alloc: Global,
        directory: &Gate<Directory>,
        sid: &[u8],
    ) -> Result<Option<u64>, AllocError>
        requires { IsPassOf directory.now self.old.directory }
        ensures pass { IsPassOf directory.now self.new.directory }
        ensures grows { Grows (known self.old.directory) (known self.new.directory) }
        ensures found { IfOk result (λ found. IfSome found (λ number. IsFound self.old.sessions self.new.sessions number sid.now)) }
        ensures kept { IfOk result (λ found. IfSome found (λ number. StaysOrComes (known self.new.directory).seen self.old.sessions self.new.sessions number sid.now)) }
        ensures unknown { IfOk result (λ found. IfNone found (IsUnchanged self.old.sessions self.new.sessions
            × Calls (λ e. e.caller) (λ before made. (made ≡ None) × (live_at before sid.now ≡ None)) (known self.old.directory) (known self.new.directory))) }
        ensures err { OnErr result (IsUnchanged self.old.sessions self.new.sessions) }
    {
        if let Some(number) = self.held_as(sid) {
            return Ok(Some(number));
        }
        self.ask(rt, alloc, directory, sid)
    }

    /// Asks the directory for the session of this name, and holds its handle where it is live.
    fn ask<R: Wait>(
        &mut self,
        rt: &R,
        alloc: Global,
        directory: &Gate<Directory>,
        sid: &[u8],
    ) -> Result<Option<u64>, AllocError>
        requires pass { IsPassOf directory.now self.old.directory }
        requires not_held { IsNotHeld self.old.sessions sid.now }
        ensures pass { IsPassOf directory.now self.new.directory }
        ensures grows { Grows (known self.old.directory) (known self.new.directory) }
        ensures found { IfOk result (λ found. IfSome found (λ number. IsFound self.old.sessions self.new.sessions number sid.now)) }
        ensures kept { IfOk result (λ found. IfSome found (λ number. StaysOrComes (known self.new.directory).seen self.old.sessions self.new.sessions number sid.now)) }
        ensures unknown { IfOk result (λ found. IfNone found (IsUnchanged self.old.sessions self.new.sessions
            × Calls (λ e. e.caller) (λ before made. (made ≡ None) × (live_at before sid.now ≡ None)) (known self.old.directory) (known self.new.directory))) }
        ensures err { OnErr result (IsUnchanged self.old.sessions self.new.sessions) }
    {
        let sid = Text::from_vec(Vec::from_slice(alloc, sid)?);
        let reply = directory.call(rt, &mut self.directory, DirectoryCall::Find { sid })?;
        match found_in(reply) {
            Some(session) => {
                let number = self.hold(session)?;
                Ok(Some(number))
            }
            None => Ok(None),
        }
    }

    /// Opens a session for the creation, and holds its handle. The only error is want of memory; the session may be open then,
    /// and held by nobody.
    pub fn open<R: Wait>(
        &mut self,
        rt: &R,
        directory: &Gate<Directory>,
        opening: Opening,
    ) -> Result<NewSession, AllocError>
        requires pass { IsPassOf directory.now self.old.directory }
        requires may { MayOpen opening }
        ensures pass { IsPassOf directory.now self.new.directory }
        ensures number { (known self.new.directory).number ≡ (known self.old.directory).number }
        ensures opened { IfOk result (λ new.
            Calls (λ e. e.caller) (λ before made. OpensInto before opening new self.new.sessions made) (known self.old.directory) (known self.new.directory)) }
        ensures others { IfOk result (λ new. StaysBeside new self.old.sessions self.new.sessions) }
        ensures err { OnErr result (IsUnchanged self.old.sessions self.new.sessions
            × Calls (λ e. e.caller) (λ before made. OpensOrNot before opening made) (known self.old.directory) (known self.new.directory)) }
    {
        let reply = directory.call(rt, &mut self.directory, DirectoryCall::Open(opening))?;
        match reply {
            DirectoryReply::Opened(Opened { session, answer }) => {
                session.note_first(rt);
                let number = self.hold(session)?;
                Ok(NewSession::Opened { number, answer })
            }
            DirectoryReply::TableFull => Ok(NewSession::TableFull),
            DirectoryReply::OpeningsSpent => Ok(NewSession::OpeningsSpent),
            DirectoryReply::Found(_) => unreachable!(),
            DirectoryReply::Removed => unreachable!(),
            DirectoryReply::Unknown => unreachable!(),
        }
    }

    /// Asks the directory which sessions are live, and lets all others go. The only error is want of memory, and then all are
    /// held on.
    pub fn drop_removed<R: Wait>(
        &mut self,
        rt: &R,
        directory: &Gate<Directory>,
    ) -> Result<(), AllocError>
        requires { IsPassOf directory.now self.old.directory }
        ensures pass { IsPassOf directory.now self.new.directory }
        ensures grows { Grows (known self.old.directory) (known self.new.directory) }
        ensures asked { WasAsked (known self.old.directory) (known self.new.directory) }
        ensures live { OnOk result (KeepsLive (known self.new.directory).seen self.old.sessions self.new.sessions) }
        ensures err { OnErr result (IsUnchanged self.old.sessions self.new.sessions) }
    {
        let live = directory.look(rt, &mut self.directory, &Asked::Live)?;
        let live = live.as_slice();
        self.sessions.retain(|number, _| is_among(live, *number));
        Ok(())
    }

    /// Lets the session with this opening number go.
    pub fn let_go(&mut self, number: u64)
        ensures gone { held self.new.sessions number ≡ None }
        ensures others { OthersStay number self.old.sessions self.new.sessions }
        ensures directory { self.new.directory ≡ self.old.directory }
    {
        self.sessions.remove(&number);
    }

    /// Lets every session go, so that whoever is idle keeps none of them in memory. One that is wanted again is found again.
    pub fn let_all_go(&mut self)
        ensures none { (number : ℕ) → held self.new.sessions number ≡ None }
        ensures directory { self.new.directory ≡ self.old.directory }
    {
        self.sessions.clear();
    }

    /// Makes a call of the session with this opening number. The only error is want of memory.
    pub fn call<R: Wait>(&mut self, rt: &R, number: u64, call: Call) -> Result<Reply, AllocError>
        requires held { IsSome (held self.old.sessions number) }
        requires may { IsAllowed (call_in call) }
        ensures called { Turned number self.old.sessions self.new.sessions (Calls (λ e. e.caller) (λ before made. RepliesTo before call result made)) }
        ensures others { OthersStay number self.old.sessions self.new.sessions }
        ensures directory { self.new.directory ≡ self.old.directory }
    {
        match self.sessions.get_mut(&number) {
            Some(session) => session.call(rt, call),
            None => unreachable!(),
        }
    }

    /// Asks the session with this opening number. The only error is want of memory.
    pub fn look<R: Wait>(
        &mut self,
        rt: &R,
        number: u64,
        question: &Question,
    ) -> Result<Answer, AllocError>
        requires { IsSome (held self.old.sessions number) }
        ensures looked { Turned number self.old.sessions self.new.sessions (Looks (λ seen. Answers seen question.now result)) }
        ensures others { OthersStay number self.old.sessions self.new.sessions }
        ensures directory { self.new.directory ≡ self.old.directory }
    {
        match self.sessions.get_mut(&number) {
            Some(session) => session.look(rt, question),
            None => unreachable!(),
        }
    }

    /// What there is to do for the session with this opening number, and whether it has ended. It takes no memory.
    pub fn state<R: Wait>(&mut self, rt: &R, number: u64) -> State
        requires { IsSome (held self.old.sessions number) }
        ensures looked { Turned number self.old.sessions self.new.sessions (Looks (λ seen. IsStateAfter seen result)) }
        ensures others { OthersStay number self.old.sessions self.new.sessions }
        ensures directory { self.new.directory ≡ self.old.directory }
    {
        match self.sessions.get_mut(&number) {
            Some(session) => session.state(rt),
            None => unreachable!(),
        }
    }

    /// What there is for a ticket of the session with this opening number: none where its request waits on. It takes no memory.
    pub fn poll<R: Wait>(&mut self, rt: &R, number: u64, ticket: Ticket) -> Option<Found>
        requires { IsSome (held self.old.sessions number) }
        ensures polled { Turned number self.old.sessions self.new.sessions (PollsAs ticket result) }
        ensures others { OthersStay number self.old.sessions self.new.sessions }
        ensures directory { self.new.directory ≡ self.old.directory }
    {
        match self.sessions.get_mut(&number) {
            Some(session) => session.poll(rt, ticket),
            None => unreachable!(),
        }
    }

    /// Waits at the bell until there is something for the ticket, or the bell is silent. It takes no memory.
    pub fn wait_for<R: Wait, B: Bell>(
        &mut self,
        rt: &R,
        number: u64,
        ticket: Ticket,
        bell: &mut B,
    ) -> Waited<Found>
        requires { IsSome (held self.old.sessions number) }
        ensures waited { Turned number self.old.sessions self.new.sessions (WaitsAs ticket result) }
        ensures others { OthersStay number self.old.sessions self.new.sessions }
        ensures directory { self.new.directory ≡ self.old.directory }
        ensures silent_only_at_bell { OnSilent result (HasRisen (B.silences bell.old) (B.silences bell.new)) }
        ensures bell { B.silences bell.old ≤ B.silences bell.new }
    {
        match self.sessions.get_mut(&number) {
            Some(session) => session.wait_for(rt, ticket, bell),
            None => unreachable!(),
        }
    }
}

/// The session that was found.
fn found_in(reply: DirectoryReply) -> Option<SessionHandle>
    ensures { result ≡ found_of reply }
{
    match reply {
        DirectoryReply::Found(session) => Some(session),
        DirectoryReply::Opened(_) => None,
        DirectoryReply::TableFull => None,
        DirectoryReply::OpeningsSpent => None,
        DirectoryReply::Removed => None,
        DirectoryReply::Unknown => None,
    }
}

/// Whether a session with this opening number is among these.
fn is_among(sessions: &[LiveSession], number: u64) -> bool
    ensures { result ≡ list_any (λ session. session.number == number) sessions.now }
{
    sessions.iter().any(|session| session.number == number)
}

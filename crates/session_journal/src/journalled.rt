ghost use Rattle.std.specs.Prelude.{◌≡◌, ◌≤◌, ◌∷◌, [], IfOk, OnErr, length};
ghost use Rattle.body_writer.specs.Answer.{answer_text};
ghost use Rattle.session_core.specs.Journal.{Collect, IsAllowed, IsOpening, ToCollect};
ghost use Rattle.session_core.specs.Machine.{created_parts};
ghost use Rattle.pause_rules.specs.Due.{IsFirstMoment};
ghost use Rattle.session_core.specs.State.{is_running};
ghost use Rattle.session_core.specs.Time.{is_due};
ghost use Rattle.session_journal.specs.Calls.{IsReplyTo, call_in, reply_in};
ghost use Rattle.session_journal.specs.declared.entry.Entered.TheVariants as stored;
ghost use Rattle.session_journal.specs.declared.entry.Entered.TheVariants.{Open};
ghost use Rattle.session_journal.specs.Redoing.{Redoes, stored_call};
ghost use Rattle.session_journal.specs.Stored.{After, IsJournalOf, IsLegal, Steps, tickets_out};

use crate::call::{Call, Reply};
use crate::entry::{Entry, Limited};
use crate::recorded::Recorded;
use crate::redoing::{Again, Redone, asked_again};
use crate::storing::{make_room, store, uses_up};
use bosh_types::{Ending, Moment, SharedText, StreamNo, Ticket};
use session_core::{Collected, Opening};
use std::alloc::{AllocError, Global};
use std::marker::Model;

/// A session beside its journal, whose entries are kept. Clauses see the entries; the session stands for their replay.
#[derive(Drop)]
pub struct Journalled {
    recorded: Recorded,
    // With room for an entry of each ticket that is out.
    entries: Vec<Entry>,
}

impl Model for Journalled {
    ghost use Rattle.std.specs.Prelude.{List};
    ghost use Rattle.session_journal.specs.declared.entry.Entry.{Entry};

    ghost Value = { List Entry };

    ghost use Rattle.std.specs.Prelude.{◌≡◌, ◌+◌, ◌≤◌, length, vec_capacity};

    ghost view = { λ j. j.entries.items };

    ghost invariant = { λ j. (j.recorded.log ≡ j.entries.items) × (length j.recorded.log + j.recorded.out ≤ vec_capacity j.entries) };
}

impl Journalled {
    /// Opens a session, as `Session::open`, with its journal, whose first entry is the caller's. The text is the body that
    /// answers the creation. The only error is want of memory.
    pub fn open(
        alloc: Global,
        opening: Opening,
        caller: u32,
    ) -> Result<(Journalled, SharedText), AllocError>
        requires { IsOpening opening }
        ensures entries { IfOk result (λ made. made.0 ≡ record { caller = caller; call = Open opening.sid opening.host opening.greeting opening.body opening.at opening.limit opening.gap_waits } ∷ []) }
        ensures journal { IfOk result (λ made. IsJournalOf made.0 (record { opening = opening; entries = [] })) }
        ensures text { IfOk result (λ made. made.1 ≡ answer_text (created_parts opening)) }
    {
        let mut entries = Vec::with_capacity(alloc, 1)?;
        let begun = Recorded::open(alloc, opening, caller)?;
        entries.push_reserved(begun.entry);
        let journalled = Journalled {
            recorded: begun.recorded,
            entries,
        };
        Ok((journalled, begun.answer))
    }

    /// The session without its journal, which clauses alone see from here on.
    pub fn into_recorded(self) -> Recorded
        ensures { result.log ≡ self }
    {
        let Journalled {
            recorded,
            entries: _,
        } = self;
        recorded
    }

    /// Makes a call for the caller with this number, and keeps its entry, or its limit where the journal had no room for it. Only
    /// these are not entered: arrivals, stanzas and closings after the ending, a tick at which nothing is due, and a look for an
    /// inward item where none is left. The only error is want of memory, and then all is as it was.
    pub fn step(&mut self, caller: u32, call: Call) -> Result<Reply, AllocError>
        requires { IsAllowed (call_in call) }
        ensures step { IfOk result (λ reply. Steps self.old caller (call_in call) (reply_in reply) self.new) }
        ensures kind { IfOk result (λ reply. IsReplyTo call reply) }
        ensures err { OnErr result (self.new ≡ self.old) }
    {
        make_room(&mut self.entries, self.recorded.out(), 1)?;
        let (reply, entered) = self.recorded.make(caller, call)?;
        store(&mut self.entries, caller, entered);
        Ok(reply)
    }

    /// What there is for a ticket, for the caller with this number. An answer, and that a ticket was superseded, are entered.
    /// It takes no memory.
    pub fn poll(&mut self, caller: u32, ticket: Ticket) -> Collected
        ensures { Steps self.old caller (Collect ticket) (ToCollect result) self.new }
    {
        let (collected, entered) = self.recorded.collect(caller, ticket);
        store(&mut self.entries, caller, entered);
        collected
    }

    /// Makes an entry again that a stored journal has, with its caller's number. `Done` exactly where the entries with this one are
    /// a journal, and then it is the last of them: its call may be made, the rules enter just it there, or its limit may be
    /// entered. `Foreign` otherwise, and then nothing changed. The only error is want of memory, and then all is as it was.
    pub fn redo(&mut self, alloc: Global, entry: &Entry) -> Result<Redone, AllocError>
        ensures redoes { IfOk result (λ redone. Redoes self.old entry.now redone self.new) }
        ensures err { OnErr result (self.new ≡ self.old) }
    {
        let asked = asked_again(alloc, &entry.call)?;
        match asked {
            Again::Call(call) => self.redo_call(entry.caller, call),
            Again::Poll(ticket) => Ok(self.redo_poll(entry.caller, ticket)),
            Again::Limit { kind, cost, now } => self.redo_limit(entry.caller, kind, cost, now),
            Again::Nothing => {
                // The proof learns here that the entries tell a journal.
                let _count = self.recorded.count();
                Ok(Redone::Foreign)
            }
        }
    }

    // A call is made where it is entered as itself.
    fn redo_call(&mut self, caller: u32, call: Call) -> Result<Redone, AllocError>
        requires { IsAllowed (call_in call) }
        ensures redoes { IfOk result (λ redone. Redoes self.old (record { caller = caller; call = stored_call call }) redone self.new) }
        ensures err { OnErr result (self.new ≡ self.old) }
    {
        if !self.recorded.enters(&call) {
            return Ok(Redone::Foreign);
        }
        let _reply = self.step(caller, call)?;
        Ok(Redone::Done)
    }

    // A poll that finds nothing changes nothing.
    fn redo_poll(&mut self, caller: u32, ticket: Ticket) -> Redone
        ensures { Redoes self.old (record { caller = caller; call = stored.Collect ticket }) result self.new }
    {
        let collected = self.poll(caller, ticket);
        if !uses_up(&collected) {
            return Redone::Foreign;
        }
        Redone::Done
    }

    // The limit is met where it may be entered, whatever its cost.
    fn redo_limit(
        &mut self,
        caller: u32,
        kind: Limited,
        cost: u64,
        now: Moment,
    ) -> Result<Redone, AllocError>
        ensures redoes { IfOk result (λ redone. Redoes self.old (record { caller = caller; call = stored.Limit kind cost now }) redone self.new) }
        ensures err { OnErr result (self.new ≡ self.old) }
    {
        if !self.recorded.may_limit(kind, cost, now) {
            return Ok(Redone::Foreign);
        }
        make_room(&mut self.entries, self.recorded.out(), 0)?;
        let entered = self.recorded.meet_limit(caller, kind, cost, now)?;
        store(&mut self.entries, caller, entered);
        Ok(Redone::Done)
    }

    /// How many tickets were handed out so far: they have the numbers from 1 to that. It takes no memory.
    pub fn tickets_given(&self) -> u32
        ensures { After self.now (λ plain. result ≡ length plain.tickets) }
    {
        self.recorded.tickets_given()
    }

    /// The entries from the opening on.
    pub fn entries(&self) -> &[Entry]
        ensures entries { result.now ≡ self.now }
        ensures journal { IsLegal self.now }
    {
        // The proof learns here that the entries tell a journal.
        let _count = self.recorded.count();
        self.entries.as_slice()
    }

    /// For how many more entries there is room: at least one for each ticket that is out.
    pub fn spare(&self) -> usize
        ensures { After self.now (λ plain. tickets_out plain.tickets ≤ result) }
    {
        // The proof learns here how many tickets are out.
        let _out = self.recorded.out();
        self.entries.capacity() - self.entries.len()
    }

    /// The first moment at which time has something to do, as `Session::due`. It takes no memory.
    pub fn due(&self) -> Option<Moment>
        ensures { After self.now (λ plain. IsFirstMoment (is_due plain) result) }
    {
        self.recorded.due()
    }

    /// Whether this stream is open (XEP-0124, section 16).
    pub fn is_running(&self, stream: StreamNo) -> bool
        ensures { After self.now (λ plain. result ≡ is_running plain stream) }
    {
        self.recorded.is_running(stream)
    }

    /// Why the session ended: `None` while it goes on.
    pub fn ending(&self) -> Option<Ending>
        ensures { After self.now (λ plain. result ≡ plain.ending) }
    {
        self.recorded.ending()
    }
}

ghost use Rattle.std.specs.Prelude.{◌≡◌, ◌+◌, ◌≤◌, ◌∷◌, [], IfOk, OnErr, OnOk, Some, length};
ghost use Rattle.parked_gate.specs.Histories.{Appends};
ghost use Rattle.body_writer.specs.Answer.{answer_text};
ghost use Rattle.session_core.specs.Journal.{Arrive, Back, BackClosed, Collect, IsAllowed, IsOpening, TakeInward, Tick, ToArrive, ToBack, ToCollect, ToTakeInward, ToTick};
ghost use Rattle.session_core.specs.Machine.{created_parts};
ghost use Rattle.session_core.specs.State.{is_running, waiting_counts};
ghost use Rattle.pause_rules.specs.Due.{IsFirstMoment};
ghost use Rattle.session_core.specs.Time.{is_due};
ghost use Rattle.session_journal.specs.Calls.{IsReplyTo, call_in, reply_in};
ghost use Rattle.session_journal.specs.declared.entry.Entered.TheVariants.{Open};
ghost use Rattle.session_journal.specs.Entries.{host_of};
ghost use Rattle.session_journal.specs.Seen.{IsStateAfter};
ghost use Rattle.session_journal.specs.Stored.{After, IsJournalOf, IsLegal, Steps, tickets_out};
ghost use Rattle.session_journal.specs.Storing.{by_caller};

use crate::asking::State;
use crate::call::{Call, Reply, Stepped};
use crate::entry::{Entered, Entry, Limited};
use crate::history::History;
use crate::storing::{enter, handed_out, has_room, is_quiet, stored_as, uses_up};
use bosh_types::{Closing, Ending, Inward, Moment, SharedText, StreamNo, Ticket};
use session_attrs::Request;
use session_core::{Arrived, Collected, Opening, Session, Taken, Ticked, Waiting};
use std::alloc::{AllocError, Global};
use std::marker::Model;

/// A session with its journal, which takes no memory: clauses alone see the entries, for whose replay the session stands. Each
/// call hands out the entry that it made, for whoever stores them.
#[derive(Drop)]
pub struct Recorded {
    pub(crate) alloc: Global,
    pub(crate) session: Session,
    // The host that the opening names.
    pub(crate) host: SharedText,
    pub(crate) entries: History<Entry>,
    // How many tickets are out, each of which makes one entry more.
    pub(crate) out: usize,
}

impl Model for Recorded {
    ghost use Rattle.session_journal.specs.Recording.{Recording};

    ghost Value = { Recording };

    ghost use Rattle.std.specs.Prelude.{◌≡◌, ◌+◌, ◌<◌, ◌^◌, length, Some};
    ghost use Rattle.session_journal.specs.Entries.{host_of};
    ghost use Rattle.session_journal.specs.Storing.{Stands};

    ghost view = { λ r. record { log = r.entries; out = r.out } };

    ghost invariant = { λ r. Stands r.session r.entries r.out × (host_of r.entries ≡ Some r.host) × (length r.entries + r.out < 2 ^ 64) };
}

/// What a call gives, and the entry that it made, if it made one.
pub type Made<T> = Result<(T, Option<Entered>), AllocError>;

/// A session as it begins.
#[derive(Drop)]
pub struct Begun {
    pub recorded: Recorded,
    /// The body that answers its creation.
    pub answer: SharedText,
    /// The entry of the opening.
    pub entry: Entry,
}

impl Recorded {
    /// Opens a session, as `Session::open`. Its first entry is the caller's. The only error is want of memory.
    pub fn open(alloc: Global, opening: Opening, caller: u32) -> Result<Begun, AllocError>
        requires { IsOpening opening }
        ensures entry { IfOk result (λ begun. begun.entry ≡ record { caller = caller; call = Open opening.sid opening.host opening.greeting opening.body opening.at opening.limit opening.gap_waits }) }
        ensures log { IfOk result (λ begun. begun.recorded ≡ record { log = begun.entry ∷ []; out = 0 }) }
        ensures journal { IfOk result (λ begun. IsJournalOf begun.recorded.log (record { opening = opening; entries = [] })) }
        ensures text { IfOk result (λ begun. begun.answer ≡ answer_text (created_parts opening)) }
    {
        let (session, answer) = Session::open(alloc, &opening)?;
        let Opening {
            body,
            sid,
            host,
            greeting,
            at,
            limit,
            gap_waits,
            ..
        } = opening;
        let home = host.again()?;
        let entered = Entered::Open {
            sid,
            host,
            greeting,
            body,
            now: at,
            limit,
            gap_waits,
        };
        let mut entries = History::new();
        let entry = Entry {
            caller,
            call: entered,
        };
        entries.add(&entry);
        let recorded = Recorded {
            alloc,
            session,
            host: home,
            entries,
            out: 0,
        };
        Ok(Begun {
            recorded,
            answer,
            entry,
        })
    }

    /// Makes a call for the caller with this number, and hands out the entry that it made, or its limit where the journal had
    /// no room for it. Only these make none: arrivals, stanzas and closings after the ending, a tick at which nothing is due,
    /// and a look for an inward item where none is left. The only error is want of memory, and then all is as it was.
    pub fn make(&mut self, caller: u32, call: Call) -> Made<Reply>
        requires { IsAllowed (call_in call) }
        ensures step { IfOk result (λ made. Steps self.old.log caller (call_in call) (reply_in made.0) self.new.log) }
        ensures entry { IfOk result (λ made. Appends (λ e. e.caller) caller self.old.log (by_caller caller made.1) self.new.log) }
        ensures room { OnOk result (length self.new.log + self.new.out ≤ length self.old.log + self.old.out + 2) }
        ensures kind { IfOk result (λ made. IsReplyTo call made.0) }
        ensures err { OnErr result (self.new ≡ self.old) }
    {
        match call {
            Call::Arrive { request, body, now } => {
                let (arrived, entered) = self.arrive(caller, &request, body, now)?;
                Ok((Reply::Arrive(arrived), entered))
            }
            Call::Back {
                stream,
                stanza,
                now,
            } => {
                let (taken, entered) = self.back(caller, stream, stanza, now)?;
                Ok((Reply::Back(taken), entered))
            }
            Call::BackClosed {
                stream,
                closing,
                now,
            } => {
                let (taken, entered) = self.back_closed(caller, stream, closing, now)?;
                Ok((Reply::BackClosed(taken), entered))
            }
            Call::Tick { now } => {
                let (ticked, entered) = self.tick(caller, now)?;
                Ok((Reply::Tick(ticked), entered))
            }
            Call::TakeInward => {
                let (item, entered) = self.take_inward(caller)?;
                Ok((Reply::TakeInward(item), entered))
            }
        }
    }

    /// The same, with the reply and the entry by their names.
    pub fn step(&mut self, caller: u32, call: Call) -> Result<Stepped, AllocError>
        requires { IsAllowed (call_in call) }
        ensures step { IfOk result (λ stepped. Steps self.old.log caller (call_in call) (reply_in stepped.reply) self.new.log) }
        ensures entry { IfOk result (λ stepped. Appends (λ e. e.caller) caller self.old.log (by_caller caller stepped.made) self.new.log) }
        ensures kind { IfOk result (λ stepped. IsReplyTo call stepped.reply) }
        ensures err { OnErr result (self.new ≡ self.old) }
    {
        let (reply, made) = self.make(caller, call)?;
        Ok(Stepped { reply, made })
    }

    fn arrive(
        &mut self,
        caller: u32,
        request: &Request,
        body: SharedText,
        now: Moment,
    ) -> Made<Arrived>
        requires { IsAllowed (Arrive request.now body now) }
        ensures step { IfOk result (λ made. Steps self.old.log caller (Arrive request.now body now) (ToArrive made.0) self.new.log) }
        ensures entry { IfOk result (λ made. Appends (λ e. e.caller) caller self.old.log (by_caller caller made.1) self.new.log) }
        ensures room { OnOk result (length self.new.log + self.new.out ≤ length self.old.log + self.old.out + 2) }
        ensures err { OnErr result (self.new ≡ self.old) }
    {
        has_room(self.entries.len(), self.out, 1)?;
        let before = self.session.ending();
        let reply = self.session.arrive(self.alloc, request, &body, now)?;
        let after = self.session.ending();
        let call = Entered::Arrive { body, now };
        let entered = stored_as(before, after, Limited::Arrival, now, call);
        let made = enter(&mut self.entries, caller, entered);
        self.out += handed_out(&reply);
        Ok((reply, made))
    }

    fn back(
        &mut self,
        caller: u32,
        stream: StreamNo,
        stanza: SharedText,
        now: Moment,
    ) -> Made<Taken>
        requires { IsAllowed (Back stream stanza now) }
        ensures step { IfOk result (λ made. Steps self.old.log caller (Back stream stanza now) (ToBack made.0) self.new.log) }
        ensures entry { IfOk result (λ made. Appends (λ e. e.caller) caller self.old.log (by_caller caller made.1) self.new.log) }
        ensures room { OnOk result (length self.new.log + self.new.out ≤ length self.old.log + self.old.out + 2) }
        ensures err { OnErr result (self.new ≡ self.old) }
    {
        has_room(self.entries.len(), self.out, 0)?;
        let before = self.session.ending();
        let reply = self.session.back(self.alloc, stream, &stanza, now)?;
        let after = self.session.ending();
        let call = Entered::Back {
            stream,
            stanza,
            now,
        };
        let entered = stored_as(before, after, Limited::ServerStanza, now, call);
        let made = enter(&mut self.entries, caller, entered);
        Ok((reply, made))
    }

    fn back_closed(
        &mut self,
        caller: u32,
        stream: StreamNo,
        closing: Closing,
        now: Moment,
    ) -> Made<Taken>
        ensures step { IfOk result (λ made. Steps self.old.log caller (BackClosed stream closing now) (ToBack made.0) self.new.log) }
        ensures entry { IfOk result (λ made. Appends (λ e. e.caller) caller self.old.log (by_caller caller made.1) self.new.log) }
        ensures room { OnOk result (length self.new.log + self.new.out ≤ length self.old.log + self.old.out + 2) }
        ensures err { OnErr result (self.new ≡ self.old) }
    {
        has_room(self.entries.len(), self.out, 0)?;
        let before = self.session.ending();
        let reply = self.session.back_closed(self.alloc, stream, closing, now)?;
        let after = self.session.ending();
        let call = Entered::BackClosed {
            stream,
            closing,
            now,
        };
        let entered = stored_as(before, after, Limited::ServerClosing, now, call);
        let made = enter(&mut self.entries, caller, entered);
        Ok((reply, made))
    }

    fn tick(&mut self, caller: u32, now: Moment) -> Made<Ticked>
        ensures step { IfOk result (λ made. Steps self.old.log caller (Tick now) (ToTick made.0) self.new.log) }
        ensures entry { IfOk result (λ made. Appends (λ e. e.caller) caller self.old.log (by_caller caller made.1) self.new.log) }
        ensures room { OnOk result (length self.new.log + self.new.out ≤ length self.old.log + self.old.out + 2) }
        ensures err { OnErr result (self.new ≡ self.old) }
    {
        has_room(self.entries.len(), self.out, 0)?;
        let reply = self.session.tick(self.alloc, now)?;
        if is_quiet(reply) {
            return Ok((reply, None));
        }
        let after = self.session.ending();
        let entered = stored_as(None, after, Limited::Time, now, Entered::Tick { now });
        let made = enter(&mut self.entries, caller, entered);
        Ok((reply, made))
    }

    fn take_inward(&mut self, caller: u32) -> Made<Option<Inward>>
        ensures step { IfOk result (λ made. Steps self.old.log caller TakeInward (ToTakeInward made.0) self.new.log) }
        ensures entry { IfOk result (λ made. Appends (λ e. e.caller) caller self.old.log (by_caller caller made.1) self.new.log) }
        ensures room { OnOk result (length self.new.log + self.new.out ≤ length self.old.log + self.old.out + 2) }
        ensures err { OnErr result (self.new ≡ self.old) }
    {
        has_room(self.entries.len(), self.out, 0)?;
        let item = self.session.take_inward();
        if item.is_none() {
            return Ok((item, None));
        }
        let made = enter(&mut self.entries, caller, Some(Entered::TakeInward));
        Ok((item, made))
    }

    /// What there is for a ticket, for the caller with this number. An answer, and that a ticket was superseded, are entered.
    /// It takes no memory.
    pub fn collect(&mut self, caller: u32, ticket: Ticket) -> (Collected, Option<Entered>)
        ensures step { Steps self.old.log caller (Collect ticket) (ToCollect result.0) self.new.log }
        ensures entry { Appends (λ e. e.caller) caller self.old.log (by_caller caller result.1) self.new.log }
        ensures room { length self.new.log + self.new.out ≤ length self.old.log + self.old.out }
    {
        let collected = self.session.collect(ticket);
        if !uses_up(&collected) {
            return (collected, None);
        }
        let made = enter(&mut self.entries, caller, Some(Entered::Collect { ticket }));
        self.out -= 1;
        (collected, made)
    }

    /// The same, where nobody wants the entry.
    pub fn poll(&mut self, caller: u32, ticket: Ticket) -> Collected
        ensures { Steps self.old.log caller (Collect ticket) (ToCollect result) self.new.log }
    {
        let (collected, _) = self.collect(caller, ticket);
        collected
    }

    /// How many entries there are.
    pub fn count(&self) -> u64
        ensures count { result ≡ length self.now.log }
        ensures journal { IsLegal self.now.log }
    {
        self.entries.len()
    }

    /// How many tickets are out.
    pub(crate) fn out(&self) -> usize
        ensures out { result ≡ self.now.out }
        ensures tickets { After self.now.log (λ plain. tickets_out plain.tickets ≡ result) }
    {
        self.out
    }

    /// What waits for the client.
    pub(crate) fn waiting(&self) -> Waiting
        ensures { After self.now.log (λ plain. result ≡ waiting_counts plain) }
    {
        self.session.waiting()
    }

    /// The host that the session is for, which the opening names. The only error is want of memory.
    pub(crate) fn host(&self) -> Result<SharedText, AllocError>
        ensures { IfOk result (λ host. host_of self.now.log ≡ Some host) }
    {
        self.host.again()
    }

    /// The first moment at which time has something to do, as `Session::due`. It takes no memory.
    pub fn due(&self) -> Option<Moment>
        ensures { After self.now.log (λ plain. IsFirstMoment (is_due plain) result) }
    {
        self.session.due()
    }

    /// What there is to do for the session, and whether it has ended. It takes no memory.
    pub(crate) fn state(&self) -> State
        ensures { IsStateAfter self.now.log result }
    {
        State {
            due: self.session.due(),
            is_inward: self.session.has_inward(),
            ending: self.session.ending(),
        }
    }

    /// Whether this stream is open (XEP-0124, section 16).
    pub fn is_running(&self, stream: StreamNo) -> bool
        ensures { After self.now.log (λ plain. result ≡ is_running plain stream) }
    {
        self.session.is_running(stream)
    }

    /// Why the session ended: `None` while it goes on.
    pub fn ending(&self) -> Option<Ending>
        ensures { After self.now.log (λ plain. result ≡ plain.ending) }
    {
        self.session.ending()
    }
}

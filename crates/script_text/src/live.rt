// One session of a script, and what a line does to it.
ghost use Rattle.std.specs.Prelude.{◌≡◌, ◌++◌, ◌∷◌, [], map, IfOk, OnOk};
ghost use Rattle.std.specs.List.{list_any};
ghost use Rattle.session_core.specs.Journal.{Journal};
ghost use Rattle.pause_rules.specs.Due.{IsFirstMoment};
ghost use Rattle.session_core.specs.State.{is_over};
ghost use Rattle.session_core.specs.Time.{is_due};
ghost use Rattle.session_journal.specs.Stored.{IsJournalOf};
ghost use Rattle.script_text.specs.declared.event.Event.TheVariants.{Arrives, Gives, Shuts, Passes};
ghost use Rattle.script_text.specs.declared.report.ReportLine.TheVariants.{In, Refused};
ghost use Rattle.session_calls.specs.After.{all_taken, untaken};
ghost use Rattle.script_text.specs.Live.{PlainLive, all_collected, answer_line, arrived, collected_lines, fate_lines, lines_in, over_lines, refusal_of_back, refusal_of_shut, refused_first, state, still, still_parked, told, turn_at};
ghost use Rattle.script_text.specs.Manager.{closed_on, waits_on, with_closed};
ghost use Rattle.script_text.specs.Stands.{IsEvent, IsLive, IsTurn};

use crate::event::Event;
use crate::report::{Refusal, ReportLine};
use crate::words::terminal_body;
use bosh_types::{Closing, Condition, Ending, Moment, SharedText, StreamNo, Ticket};
use session_attrs::Request;
use session_calls::{arrive, back, back_closed, collect, take_inward, tick};
use session_core::{Arrived, Collected, Taken, Ticked};
use session_journal::Journalled;
use std::alloc::{AllocError, Global};

// A request that waits, on a connection that is open or was closed.
#[derive(Clone, Copy)]
pub(crate) struct Parked {
    pub(crate) ticket: Ticket,
    pub(crate) conn: u16,
    pub(crate) is_open: bool,
}

impl Parked {
    // Whether it waits on this connection, which is open.
    fn waits_on(self, conn: u16) -> bool
        ensures { result ≡ waits_on conn self }
    {
        self.is_open && self.conn == conn
    }

    // The same, to be lost if it waits on this connection.
    fn closed_on(self, conn: u16) -> Parked
        ensures { result ≡ closed_on conn self }
    {
        Parked {
            ticket: self.ticket,
            conn: self.conn,
            is_open: self.is_open && self.conn != conn,
        }
    }
}

// A session of a script, with its opening number and its requests that wait.
#[derive(Drop)]
pub(crate) struct Live {
    pub(crate) number: u32,
    pub(crate) session: Journalled,
    pub(crate) parked: Vec<Parked>,
}

// What a line does to a session: its lines of the report, and the session after it.
#[derive(Drop)]
pub(crate) struct Turned {
    pub(crate) lines: Vec<ReportLine>,
    pub(crate) live: Live,
}

impl Live {
    // Whether a request waits on this connection, which is open.
    pub(crate) fn is_waiting(&self, conn: u16) -> bool
        ensures { result ≡ list_any (waits_on conn) self.now.parked.items }
    {
        self.parked.iter().any(|parked| parked.waits_on(conn))
    }

    // What waits on this connection is to be lost.
    pub(crate) fn close(mut self, conn: u16) -> Live
        ensures { (s : PlainLive) → IsLive self s → IsLive result (with_closed conn s) }
    {
        close_all(self.parked.as_mut_slice(), conn);
        self
    }

    // Whether it has ended.
    pub(crate) fn is_over(&self) -> bool
        ensures { (s : PlainLive) → IsLive self.now s → result ≡ is_over (state s) }
    {
        self.session.ending().is_some()
    }

    // The first moment at which time has something to do for it: none where it never has.
    pub(crate) fn due(&self) -> Option<Moment>
        ensures { (s : PlainLive) → IsLive self.now s → IsFirstMoment (is_due (state s)) result }
    {
        self.session.due()
    }

    // What comes to the session at a moment.
    pub(crate) fn turn(self, alloc: Global, now: Moment, event: Event) -> Result<Turned, AllocError>
        requires { IsEvent event }
        ensures { IfOk result (λ turned. (s : PlainLive) → IsLive self s → IsTurn turned (turn_at now event s)) }
    {
        match event {
            Event::Arrives {
                conn,
                request,
                body,
            } => self.arrive(alloc, now, conn, request, body),
            Event::Gives { stream, stanza } => self.give(alloc, now, stream, stanza),
            Event::Shuts { stream, closing } => self.shut(alloc, now, stream, closing),
            Event::Passes => self.pass(alloc, now),
        }
    }

    fn arrive(
        mut self,
        alloc: Global,
        now: Moment,
        conn: u16,
        request: Request,
        body: SharedText,
    ) -> Result<Turned, AllocError>
        requires { IsEvent (Arrives conn request body) }
        ensures { IfOk result (λ turned. (s : PlainLive) → IsLive self s → IsTurn turned (turn_at now (Arrives conn request body) s)) }
    {
        let reply = arrive(&mut self.session, request, body, now)?;
        self.arrived(alloc, conn, reply)
    }

    // The copy on this connection was replied this.
    fn arrived(mut self, alloc: Global, conn: u16, reply: Arrived) -> Result<Turned, AllocError>
        ensures { IfOk result (λ turned. (s : PlainLive) → IsLive self s → IsTurn turned (arrived s conn reply)) }
    {
        let lines = Vec::new(alloc);
        match reply {
            Arrived::Answer(body) => self.told(alloc, lines, Some(ReportLine::Out { conn, body })),
            Arrived::Parked(ticket) => {
                self.parked.push(Parked {
                    ticket,
                    conn,
                    is_open: true,
                })?;
                self.told(alloc, lines, None)
            }
            Arrived::Over => {
                let body = terminal_body(alloc, Condition::ItemNotFound)?;
                self.told(alloc, lines, Some(ReportLine::Out { conn, body }))
            }
        }
    }

    fn give(
        mut self,
        alloc: Global,
        now: Moment,
        stream: StreamNo,
        stanza: SharedText,
    ) -> Result<Turned, AllocError>
        requires { IsEvent (Gives stream stanza) }
        ensures { IfOk result (λ turned. (s : PlainLive) → IsLive self s → IsTurn turned (turn_at now (Gives stream stanza) s)) }
    {
        let taken = back(&mut self.session, stream, stanza, now)?;
        let lines = refused_back(alloc, self.number, taken)?;
        self.told(alloc, lines, None)
    }

    fn shut(
        mut self,
        alloc: Global,
        now: Moment,
        stream: StreamNo,
        closing: Closing,
    ) -> Result<Turned, AllocError>
        ensures { IfOk result (λ turned. (s : PlainLive) → IsLive self s → IsTurn turned (turn_at now (Shuts stream closing) s)) }
    {
        let taken = back_closed(&mut self.session, stream, closing, now)?;
        let lines = refused_shut(alloc, self.number, taken)?;
        self.told(alloc, lines, None)
    }

    fn pass(mut self, alloc: Global, now: Moment) -> Result<Turned, AllocError>
        ensures { IfOk result (λ turned. (s : PlainLive) → IsLive self s → IsTurn turned (turn_at now Passes s)) }
    {
        let ticked = tick(&mut self.session, now)?;
        let lines = Vec::new(alloc);
        match ticked {
            Ticked::Quiet => Ok(Turned { lines, live: self }),
            Ticked::Changed => self.told(alloc, lines, None),
        }
    }

    // After a call these are told: the inward items, the answer of the arriving copy, the collected tickets in their order,
    // and the ending.
    pub(crate) fn told(
        mut self,
        alloc: Global,
        mut lines: Vec<ReportLine>,
        answer: Option<ReportLine>,
    ) -> Result<Turned, AllocError>
        ensures { IfOk result (λ turned. (s : PlainLive) → IsLive self s → IsTurn turned (refused_first lines.items (told s (lines_in answer)))) }
    {
        take_all(self.number, &mut self.session, &mut lines)?;
        push_line(&mut lines, answer)?;
        let parked = collect_all(alloc, &mut self.session, self.parked.as_slice(), &mut lines)?;
        self.parked = parked;
        push_line(&mut lines, over_line(self.number, self.session.ending()))?;
        Ok(Turned { lines, live: self })
    }
}

// Puts a line at the end, if there is one.
fn push_line(lines: &mut Vec<ReportLine>, line: Option<ReportLine>) -> Result<(), AllocError>
    ensures { OnOk result (lines.new.items ≡ lines.old.items ++ lines_in line) }
{
    match line {
        Some(line) => {
            lines.push(line)?;
            Ok(())
        }
        None => Ok(()),
    }
}

// The line that tells of an ending.
fn over_line(session: u32, ending: Option<Ending>) -> Option<ReportLine>
    ensures { lines_in result ≡ over_lines session ending }
{
    match ending {
        Some(ending) => Some(ReportLine::Over { session, ending }),
        None => None,
    }
}

// What waits on this connection is to be lost.
fn close_all(parked: &mut [Parked], conn: u16)
    ensures { parked.new ≡ map (closed_on conn) parked.old }
{
    for index in 0..parked.len() {
        parked[index] = parked[index].closed_on(conn);
    }
}

// What is told where a stanza of the server was refused.
fn refused_back(alloc: Global, number: u32, taken: Taken) -> Result<Vec<ReportLine>, AllocError>
    ensures { IfOk result (λ lines. lines.items ≡ refusal_of_back number taken) }
{
    match taken {
        Taken::Done => Ok(Vec::new(alloc)),
        Taken::Full => refused(alloc, number, Refusal::BackFull),
        Taken::Over => refused(alloc, number, Refusal::BackOver),
    }
}

// What is told where its closing was refused.
fn refused_shut(alloc: Global, number: u32, taken: Taken) -> Result<Vec<ReportLine>, AllocError>
    ensures { IfOk result (λ lines. lines.items ≡ refusal_of_shut number taken) }
{
    match taken {
        Taken::Done => Ok(Vec::new(alloc)),
        Taken::Full => Ok(Vec::new(alloc)),
        Taken::Over => refused(alloc, number, Refusal::ShutOver),
    }
}

fn refused(alloc: Global, session: u32, refusal: Refusal) -> Result<Vec<ReportLine>, AllocError>
    ensures { IfOk result (λ lines. lines.items ≡ Refused session refusal ∷ []) }
{
    let mut lines = Vec::new(alloc);
    lines.push(ReportLine::Refused { session, refusal })?;
    Ok(lines)
}

// All that goes inward is taken and told.
fn take_all(
    number: u32,
    session: &mut Journalled,
    lines: &mut Vec<ReportLine>,
) -> Result<(), AllocError>
    ensures { (journal : Journal) → IsJournalOf session.old journal → OnOk result (
        (lines.new.items ≡ lines.old.items ++ map (In number) (untaken journal)) × IsJournalOf session.new (all_taken journal)) }
{
    while let Some(item) = take_inward(session)? {
        lines.push(ReportLine::In {
            session: number,
            item,
        })?;
    }
    Ok(())
}

// The tickets are collected in their order; those whose requests wait on are left.
fn collect_all(
    alloc: Global,
    session: &mut Journalled,
    parked: &[Parked],
    lines: &mut Vec<ReportLine>,
) -> Result<Vec<Parked>, AllocError>
    ensures { (journal : Journal) → IsJournalOf session.old journal → IfOk result (λ left.
        (lines.new.items ≡ lines.old.items ++ collected_lines journal parked.now)
        × (left.items ≡ still_parked journal parked.now) × IsJournalOf session.new (all_collected journal parked.now)) }
{
    let mut left = Vec::new(alloc);
    for parked in parked {
        let collected = collect(session, parked.ticket);
        tell_fate(lines, &mut left, *parked, collected)?;
    }
    Ok(left)
}

// What the report says of a request for which there is this, and whether it waits on.
fn tell_fate(
    lines: &mut Vec<ReportLine>,
    left: &mut Vec<Parked>,
    parked: Parked,
    collected: Collected,
) -> Result<(), AllocError>
    ensures told { OnOk result (lines.new.items ≡ lines.old.items ++ fate_lines parked collected) }
    ensures left { OnOk result (left.new.items ≡ left.old.items ++ still parked collected) }
{
    match collected {
        Collected::Answer(body) => {
            lines.push(answer_line(parked, body))?;
            Ok(())
        }
        Collected::Superseded => {
            if parked.is_open {
                lines.push(ReportLine::Gone { conn: parked.conn })?;
            }
            Ok(())
        }
        Collected::NotYet => {
            left.push(parked)?;
            Ok(())
        }
        Collected::UnknownTicket => Ok(()),
    }
}

// An answer goes to its connection, or is lost where that was closed.
fn answer_line(parked: Parked, body: SharedText) -> ReportLine
    ensures { result ≡ answer_line parked body }
{
    let conn = parked.conn;
    if parked.is_open {
        ReportLine::Out { conn, body }
    } else {
        ReportLine::Lost { conn }
    }
}

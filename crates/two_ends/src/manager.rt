// The manager's end: what comes to its session, and what is then told of it.
ghost use Rattle.std.specs.Prelude.{◌≡◌, ◌++◌, ◌∷◌, [], map, IfOk, OnOk, IsTrue, Some};
ghost use Rattle.body_cutter.specs.Cutting.{is_stanza};
ghost use Rattle.body_writer.specs.Answer.{answer_text};
ghost use Rattle.session_core.specs.Journal.{Arrive, IsAllowed, Journal, state_of};
ghost use Rattle.session_core.specs.Machine.{back, back_closed, created_parts};
ghost use Rattle.session_core.specs.declared.opening.Opening.{Opening};
ghost use Rattle.session_core.specs.State.{is_over};
ghost use Rattle.session_journal.specs.Stored.{IsJournalOf};
ghost use Rattle.world_laws.specs.declared.told.Told.TheVariants.{Passed};
ghost use Rattle.session_calls.specs.After.{all_taken, untaken};
ghost use Rattle.world_laws.specs.Manager.{PlainManager, all_collected, arrived, arrives, collected_told, ending_told, gives, opens, passes, session, shuts, still, still_parked, told_in, told_of, turned};
ghost use Rattle.two_ends.specs.Stands.{IsManager, IsTurn};

use crate::refusing::refusal;
use bosh_types::{Closing, Condition, Ending, Moment, Rid, SharedText, StreamNo};
use session_attrs::Request;
use session_calls::{arrive, back, back_closed, collect, take_inward, tick};
use session_core::{Arrived, Collected, Taken, Ticked};
use session_journal::Journalled;
use std::alloc::{AllocError, Global};
use world_laws::{Parked, Told};

// A session, and its requests that wait, in the order of their tickets.
#[derive(Drop)]
pub struct Manager {
    pub(crate) session: Journalled,
    pub(crate) parked: Vec<Parked>,
}

impl Manager {
    // The creation came, and was answered with this body.
    pub(crate) fn open(
        alloc: Global,
        session: Journalled,
        rid: Rid,
        body: SharedText,
    ) -> Result<(Manager, Vec<Told>), AllocError>
        ensures { IfOk result (λ opened. (o : Opening) → IsJournalOf session (record { opening = o; entries = [] }) → o.request.rid ≡ rid
            → body ≡ answer_text (created_parts o) → IsTurn opened.1.items opened.0 (opens o)) }
    {
        let mut manager = Manager {
            session,
            parked: Vec::new(alloc),
        };
        let told = manager.turned(alloc, false, Some(Told::Answer { rid, body }))?;
        Ok((manager, told))
    }

    // A copy arrives.
    pub(crate) fn arrive(
        &mut self,
        alloc: Global,
        request: Request,
        body: SharedText,
        now: Moment,
    ) -> Result<Vec<Told>, AllocError>
        requires { IsAllowed (Arrive request body now) }
        ensures { IfOk result (λ told. (m : PlainManager) → IsManager self.old m → IsTurn told.items self.new (arrives m request body now)) }
    {
        let was_over = self.is_over();
        let rid = request.rid;
        let reply = arrive(&mut self.session, request, body, now)?;
        self.arrived(alloc, was_over, rid, reply)
    }

    // The copy of this id was replied this.
    fn arrived(
        &mut self,
        alloc: Global,
        was_over: bool,
        rid: Rid,
        reply: Arrived,
    ) -> Result<Vec<Told>, AllocError>
        ensures { IfOk result (λ told. (m : PlainManager) → IsManager self.old m → IsTurn told.items self.new (arrived was_over m rid reply)) }
    {
        match reply {
            Arrived::Answer(body) => self.turned(alloc, was_over, Some(Told::Answer { rid, body })),
            Arrived::Parked(ticket) => {
                self.parked.push(Parked { ticket, rid })?;
                self.turned(alloc, was_over, None)
            }
            Arrived::Over => {
                let body = refusal(alloc, Condition::ItemNotFound)?;
                self.turned(alloc, was_over, Some(Told::Answer { rid, body }))
            }
        }
    }

    // The server gives a stanza on this stream.
    pub(crate) fn give(
        &mut self,
        alloc: Global,
        stream: StreamNo,
        stanza: SharedText,
        now: Moment,
    ) -> Result<(Taken, Vec<Told>), AllocError>
        requires { IsTrue (is_stanza stanza) }
        ensures { IfOk result (λ given. (m : PlainManager) → IsManager self.old m
            → (given.0 ≡ (back (session m) stream stanza now).1) × IsTurn given.1.items self.new (gives m stream stanza now)) }
    {
        let was_over = self.is_over();
        let taken = back(&mut self.session, stream, stanza, now)?;
        let told = self.turned(alloc, was_over, None)?;
        Ok((taken, told))
    }

    // The server closes this stream.
    pub(crate) fn shut(
        &mut self,
        alloc: Global,
        stream: StreamNo,
        closing: Closing,
        now: Moment,
    ) -> Result<(Taken, Vec<Told>), AllocError>
        ensures { IfOk result (λ given. (m : PlainManager) → IsManager self.old m
            → (given.0 ≡ (back_closed (session m) stream closing now).1) × IsTurn given.1.items self.new (shuts m stream closing now)) }
    {
        let was_over = self.is_over();
        let taken = back_closed(&mut self.session, stream, closing, now)?;
        let told = self.turned(alloc, was_over, None)?;
        Ok((taken, told))
    }

    // Time passes; where nothing is due, nothing is told.
    pub(crate) fn pass(&mut self, alloc: Global, now: Moment) -> Result<Vec<Told>, AllocError>
        ensures { IfOk result (λ told. (m : PlainManager) → IsManager self.old m → IsTurn told.items self.new (passes m now)) }
    {
        let was_over = self.is_over();
        match tick(&mut self.session, now)? {
            Ticked::Quiet => Ok(Vec::new(alloc)),
            Ticked::Changed => self.turned(alloc, was_over, None),
        }
    }

    // Whether the session has ended.
    pub(crate) fn is_over(&self) -> bool
        ensures { (m : PlainManager) → IsManager self.now m → result ≡ is_over (session m) }
    {
        self.session.ending().is_some()
    }

    // After a call these are told: what was passed on, the answer of the arriving copy, what was collected, and the ending.
    fn turned(
        &mut self,
        alloc: Global,
        was_over: bool,
        answer: Option<Told>,
    ) -> Result<Vec<Told>, AllocError>
        ensures { IfOk result (λ told. (m : PlainManager) → IsManager self.old m → IsTurn told.items self.new (turned was_over m (told_in answer))) }
    {
        let mut told = Vec::new(alloc);
        pass_all(&mut self.session, &mut told)?;
        push_told(&mut told, answer)?;
        let left = collect_all(alloc, &mut self.session, self.parked.as_slice(), &mut told)?;
        self.parked = left;
        push_told(&mut told, ending_told(was_over, self.session.ending()))?;
        Ok(told)
    }
}

// Puts one more at the end, if there is one.
fn push_told(told: &mut Vec<Told>, more: Option<Told>) -> Result<(), AllocError>
    ensures { OnOk result (told.new.items ≡ told.old.items ++ told_in more) }
{
    match more {
        Some(more) => {
            told.push(more)?;
            Ok(())
        }
        None => Ok(()),
    }
}

// An ending is told once, with the call that brought it.
fn ending_told(was_over: bool, ending: Option<Ending>) -> Option<Told>
    ensures { told_in result ≡ ending_told was_over ending }
{
    if was_over {
        return None;
    }
    match ending {
        Some(ending) => Some(Told::Over(ending)),
        None => None,
    }
}

// All that goes inward is passed on and told.
fn pass_all(session: &mut Journalled, told: &mut Vec<Told>) -> Result<(), AllocError>
    ensures { (journal : Journal) → IsJournalOf session.old journal → OnOk result (
        (told.new.items ≡ told.old.items ++ map Passed (untaken journal)) × IsJournalOf session.new (all_taken journal)) }
{
    while let Some(item) = take_inward(session)? {
        told.push(Told::Passed(item))?;
    }
    Ok(())
}

// The tickets are collected in their order; those whose requests wait on are left.
fn collect_all(
    alloc: Global,
    session: &mut Journalled,
    parked: &[Parked],
    told: &mut Vec<Told>,
) -> Result<Vec<Parked>, AllocError>
    ensures { (journal : Journal) → IsJournalOf session.old journal → IfOk result (λ left.
        (told.new.items ≡ told.old.items ++ collected_told journal parked.now)
        × (left.items ≡ still_parked journal parked.now) × IsJournalOf session.new (all_collected journal parked.now)) }
{
    let mut left = Vec::new(alloc);
    for parked in parked {
        let collected = collect(session, parked.ticket);
        tell_fate(told, &mut left, *parked, collected)?;
    }
    Ok(left)
}

// What is told of a request for which there is this, and whether it waits on.
fn tell_fate(
    told: &mut Vec<Told>,
    left: &mut Vec<Parked>,
    parked: Parked,
    collected: Collected,
) -> Result<(), AllocError>
    ensures told { OnOk result (told.new.items ≡ told.old.items ++ told_of parked collected) }
    ensures left { OnOk result (left.new.items ≡ left.old.items ++ still parked collected) }
{
    match collected {
        Collected::Answer(body) => {
            told.push(Told::Answer {
                rid: parked.rid,
                body,
            })?;
            Ok(())
        }
        Collected::Superseded => {
            told.push(Told::Gone(parked.rid))?;
            Ok(())
        }
        Collected::NotYet => {
            left.push(parked)?;
            Ok(())
        }
        Collected::UnknownTicket => Ok(()),
    }
}

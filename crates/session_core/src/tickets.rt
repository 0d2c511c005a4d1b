ghost use Rattle.std.specs.Prelude.{◌≡◌, ◌+◌, IfOk, OnOk, OnErr, None, [], map};
ghost use Rattle.std.specs.Option.{option_map};
ghost use Rattle.session_core.specs.Tickets.{answer_of, collected, given, replace, give_answer, give_word, strike, taken_back, ticket_at, told_of, without};

use crate::replies::Collected;
use bosh_types::{CopyIn, Rid, SharedText, Ticket, copy_items};
use std::alloc::{AllocError, Global};
use std::marker::Model;

/// A ticket that was handed out and isn't used up.
#[derive(Debug, Drop)]
pub struct OpenTicket {
    number: u32,
    rid: Rid,
    // A later copy of its request took its place.
    replaced: bool,
    // The copy that it waits for was struck, and it has the error.
    struck: bool,
    // The body that answers its request, once there is one.
    answer: Option<SharedText>,
}

impl CopyIn for OpenTicket {
    fn copy_in(&self, alloc: Global) -> Result<Self, AllocError> {
        Ok(OpenTicket {
            number: self.number,
            rid: self.rid,
            replaced: self.replaced,
            struck: self.struck,
            answer: self.answer.copy_in(alloc)?,
        })
    }
}

/// The tickets of a session that are out, in the order in which they were handed out.
#[derive(Debug, Drop)]
pub struct Tickets {
    handed_out: u32,
    out: Vec<OpenTicket>,
}

// Clauses see how many were handed out, and those that are out.
impl Model for Tickets {
    ghost use Rattle.session_core.specs.Tickets.{Book};

    ghost Value = { Book };

    ghost view = { λ t. record { handed_out = t.handed_out; out = t.out.items } };
}

impl Tickets {
    /// None was handed out. It takes no memory.
    pub fn new(alloc: Global) -> Self
        ensures { result ≡ record { handed_out = 0; out = [] } }
    {
        Tickets {
            handed_out: 0,
            out: Vec::new(alloc),
        }
    }

    /// Hands a ticket out for a request: the first is number 1. An `Err` comes from want of memory, or where no number is
    /// left.
    pub fn give(&mut self, rid: Rid) -> Result<Ticket, AllocError>
        ensures number { IfOk result (λ ticket. ticket ≡ self.old.handed_out + 1) }
        ensures after { OnOk result (self.new ≡ given self.old rid) }
        ensures err { OnErr result (self.new ≡ self.old) }
    {
        let Some(number) = self.handed_out.checked_add(1) else {
            return Err(AllocError);
        };
        self.out.push(OpenTicket {
            number,
            rid,
            replaced: false,
            struck: false,
            answer: None,
        })?;
        self.handed_out = number;
        Ok(Ticket::new(number))
    }

    /// How many were handed out so far.
    pub fn given(&self) -> u32
        ensures { result ≡ self.now.handed_out }
    {
        self.handed_out
    }

    /// A later copy of the request took the place of those that wait; what was struck still has its error to tell. It takes no memory.
    pub fn replace(&mut self, rid: Rid)
        ensures { self.new ≡ record self.old { out = map (replace rid) self.old.out } }
    {
        replace_all(&mut self.out, rid);
    }

    /// The request has its answer. After an `Err` some of its tickets may have it, and others not.
    pub fn answer(&mut self, rid: Rid, answer: &SharedText) -> Result<(), AllocError>
        ensures { OnOk result (self.new ≡ record self.old { out = map (give_answer rid answer.now) self.old.out }) }
    {
        answer_all(&mut self.out, rid, answer)
    }

    /// The copy of this id is struck: those that wait for it have the error. After an `Err` some may have it, and others not.
    pub fn strike(&mut self, rid: Rid, error: &SharedText) -> Result<(), AllocError>
        ensures { OnOk result (self.new ≡ record self.old { out = map (strike rid error.now) self.old.out }) }
    {
        strike_all(&mut self.out, rid, error)
    }

    /// Each request that has no answer has its last word: `breaker` the one, any other the other. After an `Err` some may
    /// have it, and others not.
    pub fn last_words(
        &mut self,
        breaker: Rid,
        word: &SharedText,
        other: &SharedText,
    ) -> Result<(), AllocError>
        ensures { OnOk result (self.new ≡ record self.old { out = map (give_word breaker word.now other.now) self.old.out }) }
    {
        last_words_for_all(&mut self.out, breaker, word, other)
    }

    /// Takes the ticket that was handed out last back where its request has its answer, and gives that. It takes no memory.
    pub fn take_back(&mut self) -> Option<SharedText>
        ensures answer { result ≡ answer_of (ticket_at self.old.out self.old.handed_out) }
        ensures after { self.new ≡ taken_back self.old }
    {
        let number = self.handed_out;
        let answer = taken_answer(&mut self.out, number)?;
        forget(&mut self.out, number);
        self.handed_out = number.saturating_sub(1);
        Some(answer)
    }

    /// What there is for a ticket, which is used up where that is an answer, or that it was superseded. It takes no memory.
    pub fn collect(&mut self, ticket: Ticket) -> Collected
        ensures answer { result ≡ told_of (ticket_at self.old.out ticket) }
        ensures after { self.new ≡ collected self.old ticket }
    {
        let number = ticket.number();
        match is_replaced(&self.out, number) {
            None => Collected::UnknownTicket,
            Some(true) => {
                forget(&mut self.out, number);
                Collected::Superseded
            }
            Some(false) => match taken_answer(&mut self.out, number) {
                None => Collected::NotYet,
                Some(answer) => {
                    forget(&mut self.out, number);
                    Collected::Answer(answer)
                }
            },
        }
    }

    /// The same tickets a second time.
    pub fn copied(&self, alloc: Global) -> Result<Self, AllocError>
        ensures { IfOk result (λ copy. copy ≡ self.now) }
    {
        Ok(Tickets {
            handed_out: self.handed_out,
            out: copy_items(alloc, &self.out)?,
        })
    }
}

fn replace_all(out: &mut [OpenTicket], rid: Rid)
    ensures { out.new ≡ map (replace rid) out.old }
{
    for index in 0..out.len() {
        replace_one(&mut out[index], rid);
    }
}

fn replace_one(ticket: &mut OpenTicket, rid: Rid)
    ensures { ticket.new ≡ replace rid ticket.old }
{
    if ticket.rid == rid && !ticket.struck {
        ticket.replaced = true;
    }
}

fn answer_all(out: &mut [OpenTicket], rid: Rid, answer: &SharedText) -> Result<(), AllocError>
    ensures { OnOk result (out.new ≡ map (give_answer rid answer.now) out.old) }
{
    for index in 0..out.len() {
        give_answer(&mut out[index], rid, answer)?;
    }
    Ok(())
}

fn give_answer(ticket: &mut OpenTicket, rid: Rid, answer: &SharedText) -> Result<(), AllocError>
    ensures { OnOk result (ticket.new ≡ give_answer rid answer.now ticket.old) }
{
    if ticket.rid != rid || ticket.struck {
        return Ok(());
    }
    ticket.answer = Some(answer.again()?);
    Ok(())
}

fn strike_all(out: &mut [OpenTicket], rid: Rid, error: &SharedText) -> Result<(), AllocError>
    ensures { OnOk result (out.new ≡ map (strike rid error.now) out.old) }
{
    for index in 0..out.len() {
        strike_one(&mut out[index], rid, error)?;
    }
    Ok(())
}

fn strike_one(ticket: &mut OpenTicket, rid: Rid, error: &SharedText) -> Result<(), AllocError>
    ensures { OnOk result (ticket.new ≡ strike rid error.now ticket.old) }
{
    if ticket.rid != rid || ticket.struck || ticket.replaced {
        return Ok(());
    }
    ticket.struck = true;
    ticket.answer = Some(error.again()?);
    Ok(())
}

fn last_words_for_all(
    out: &mut [OpenTicket],
    breaker: Rid,
    word: &SharedText,
    other: &SharedText,
) -> Result<(), AllocError>
    ensures { OnOk result (out.new ≡ map (give_word breaker word.now other.now) out.old) }
{
    for index in 0..out.len() {
        give_word(&mut out[index], breaker, word, other)?;
    }
    Ok(())
}

fn give_word(
    ticket: &mut OpenTicket,
    breaker: Rid,
    word: &SharedText,
    other: &SharedText,
) -> Result<(), AllocError>
    ensures { OnOk result (ticket.new ≡ give_word breaker word.now other.now ticket.old) }
{
    if ticket.answer.is_some() {
        return Ok(());
    }
    let last = if ticket.rid == breaker { word } else { other };
    ticket.answer = Some(last.again()?);
    Ok(())
}

// Whether a later copy took the place of a ticket, if it is out.
fn is_replaced(out: &[OpenTicket], number: u32) -> Option<bool>
    ensures { result ≡ option_map (λ ticket. ticket.replaced) (ticket_at out.now number) }
{
    for ticket in out {
        if ticket.number == number {
            return Some(ticket.replaced);
        }
    }
    None
}

// Takes the answer of a ticket, if it is out and has one.
fn taken_answer(out: &mut [OpenTicket], number: u32) -> Option<SharedText>
    ensures answer { result ≡ answer_of (ticket_at out.old number) }
    ensures others { without number out.new ≡ without number out.old }
    ensures none { result ≡ None → out.new ≡ out.old }
{
    for index in 0..out.len() {
        if out[index].number == number {
            return out[index].answer.take();
        }
    }
    None
}

// The ticket is used up.
fn forget(out: &mut Vec<OpenTicket>, number: u32)
    ensures { out.new.items ≡ without number out.old.items }
{
    out.retain(|ticket| ticket.number != number);
}

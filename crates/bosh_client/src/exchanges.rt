ghost use Rattle.std.specs.Prelude.{◌≡◌, ◌+◌, ◌-◌, ◌==◌, ◌≤◌, OnOk, OnErr, IfSome, IfNone, [], ◌∷◌, ◌++◌, false, length};
ghost use Rattle.std.specs.Option.{SomeIff, option_copied};
ghost use Rattle.bosh_types.specs.Rid.{greatest_rid};
ghost use Rattle.bosh_client.specs.declared.exchanges.Slot.TheVariants.{Answered, Open};
ghost use Rattle.bosh_client.specs.Places.{answered_front, comes_next, filled, is_open, slot_at};

use crate::payloads::Payloads;
use bosh_types::{Rid, SharedText};
use std::alloc::{AllocError, Global};
use std::collections::VecDeque;
use std::marker::Model;

/// A request as its client remembers it.
#[derive(Debug, Drop)]
pub(crate) enum Slot {
    /// It has no answer yet, and these bytes.
    Open(SharedText),
    /// Its answer was taken, with these payloads, and may be terminal.
    Answered { payloads: Payloads, terminal: bool },
}

/// The requests from the lowest id on that is still of use, one for each id.
#[derive(Debug, Drop)]
pub(crate) struct Exchanges {
    first: u64,
    slots: VecDeque<Slot>,
    // How many of the first have an answer.
    answered: usize,
}

// Clauses see the first id and the requests.
impl Model for Exchanges {
    ghost use Rattle.bosh_client.specs.Places.{Places, IsPlaced};

    ghost Value = { Places };

    ghost view = { λ e. record { first = e.first; slots = e.slots.items } };

    ghost invariant = { λ e. IsPlaced e.first e.slots.items e.answered };
}

impl Exchanges {
    /// No request was made; this is the id of the first. It takes no memory.
    pub(crate) fn new(alloc: Global, first: Rid) -> Self
        ensures { result ≡ record { first = first; slots = [] } }
    {
        Exchanges {
            first: first.value(),
            slots: VecDeque::new(alloc),
            answered: 0,
        }
    }

    /// The id of the next request: `None` exactly where none is left.
    pub(crate) fn next(&self) -> Option<Rid>
        ensures { SomeIff result (self.now.first + length self.now.slots ≤ greatest_rid) (self.now.first + length self.now.slots) }
    {
        Rid::new(self.first + self.slots.len() as u64)
    }

    /// The lowest id without an answer, which may be that of the next request.
    pub(crate) fn lowest(&self) -> u64
        ensures value { result ≡ self.now.first + answered_front self.now.slots }
        ensures some { 1 ≤ result }
    {
        self.first + self.answered as u64
    }

    /// How many ids there are from the lowest without an answer up to the next request's.
    pub(crate) fn open_count(&self) -> usize
        ensures { result ≡ length self.now.slots - answered_front self.now.slots }
    {
        self.slots.len() - self.answered
    }

    pub(crate) fn is_empty(&self) -> bool
        ensures { result ≡ (length self.now.slots == 0) }
    {
        self.slots.is_empty()
    }

    /// The request with this id, if it is still of use.
    pub(crate) fn at(&self, rid: Rid) -> Option<&Slot>
        ensures { option_copied result ≡ slot_at self.now rid }
    {
        let ahead = rid.value().checked_sub(self.first)?;
        self.slots.get(ahead as usize)
    }

    /// One more request, which is the next.
    pub(crate) fn push(&mut self, body: SharedText) -> Result<(), AllocError>
        requires { self.old.first + length self.old.slots ≤ greatest_rid }
        ensures after { OnOk result (self.new ≡ record self.old { slots = self.old.slots ++ Open body ∷ [] }) }
        ensures err { OnErr result (self.new ≡ self.old) }
    {
        self.slots.push_back(Slot::Open(body))?;
        Ok(())
    }

    /// The request with this id has its answer. It takes no memory.
    pub(crate) fn fill(&mut self, rid: Rid, payloads: Payloads, terminal: bool)
        ensures { self.new ≡ filled self.old rid (Answered payloads terminal) }
    {
        let Some(ahead) = rid.value().checked_sub(self.first) else {
            return;
        };
        let ahead = ahead as usize;
        if ahead < self.slots.len() {
            self.slots[ahead] = Slot::Answered { payloads, terminal };
            self.answered = answered_from(&self.slots, self.answered);
        }
    }

    /// Takes the payloads of the first answer, where the first request has one that isn't terminal. It takes no memory.
    pub(crate) fn take_front(&mut self) -> Option<Payloads>
        ensures some { IfSome result (λ payloads. self.old ≡ record { first = self.new.first - 1; slots = Answered payloads false ∷ self.new.slots }) }
        ensures moved { IfSome result (λ payloads. self.new.first ≡ self.old.first + 1) }
        ensures none { IfNone result (self.new ≡ self.old) }
        ensures stops { IfNone result (comes_next self.old.slots ≡ false) }
    {
        if !self.comes_next() {
            return None;
        }
        match self.slots.pop_front() {
            Some(Slot::Answered { payloads, .. }) => {
                self.first += 1;
                self.answered -= 1;
                Some(payloads)
            }
            _ => None,
        }
    }

    // Whether the first request has an answer that isn't terminal.
    fn comes_next(&self) -> bool
        ensures { result ≡ comes_next self.now.slots }
    {
        match self.slots.front() {
            Some(Slot::Answered { terminal, .. }) => !*terminal,
            _ => false,
        }
    }
}

// How many of the first have an answer, of whom so many are known.
fn answered_from(slots: &VecDeque<Slot>, known: usize) -> usize
    ensures { known ≤ answered_front slots.now.items → result ≡ answered_front slots.now.items }
{
    for place in known..slots.len() {
        if is_open(&slots[place]) {
            return place;
        }
    }
    slots.len()
}

/// Whether the request has no answer yet.
pub(crate) fn is_open(slot: &Slot) -> bool
    ensures { result ≡ is_open slot.now }
{
    match slot {
        Slot::Open(_) => true,
        Slot::Answered { .. } => false,
    }
}

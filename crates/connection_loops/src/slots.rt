// The seats of a loop, each in a slot of its own.
ghost use Rattle.std.specs.Prelude.{◌≡◌, IfErr, IfNone, IfOk, IfSome, None, OnErr, Some, option_copied};
ghost use Rattle.connection_loops.specs.Seats.{KeepsOthers, KeepsSeats, seat_at};

use crate::chains::Chain;
use slab::Slab;
use std::alloc::{AllocError, Global};
use std::mem::replace;

/// How many chains there are for those who wait for a ring. A chain has those of each bit with the same rest: where a ring comes for one of
/// them the others look once for nothing.
const CHAINS: usize = 1024;

/// What the seat of a slot waits for.
#[derive(Clone, Copy, Debug, PartialEq, Eq)]
pub(crate) enum Place {
    /// Its link.
    Link,
    /// It is in a chain: that of a bit, or of those that go on at once.
    Chained,
}

#[derive(Drop)]
struct Slot<S: Drop> {
    seat: S,
    place: Place,
    next: Option<usize>,
}

/// Seats in slots with numbers. A number is used again once its seat has left.
#[derive(Drop)]
pub struct Slots<S: Drop> {
    slots: Slab<Slot<S>>,
    // Those who wait for a ring, by the rest of its bit, and those that go on at once.
    parked: Vec<Chain>,
    ready: Chain,
    // How many seats are in a chain.
    chained: usize,
}

impl<S: Drop> Slots<S> {
    /// No seat is here. The only error is want of memory.
    pub fn new(alloc: Global) -> Result<Slots<S>, AllocError> {
        Ok(Slots {
            slots: Slab::new(alloc),
            parked: vec![in alloc; Chain::None; CHAINS]?,
            ready: Chain::None,
            chained: 0,
        })
    }

    pub fn len(&self) -> usize {
        self.slots.len()
    }

    pub fn is_empty(&self) -> bool {
        self.slots.is_empty()
    }

    /// Whether a seat goes on at once.
    pub fn has_ready(&self) -> bool {
        self.ready != Chain::None
    }

    /// Whether a seat waits for its link.
    pub fn has_waiting(&self) -> bool {
        self.chained < self.slots.len()
    }

    /// No seat has this number or a greater one.
    pub fn bound(&self) -> usize {
        self.slots.capacity()
    }

    /// Takes a seat, which waits for its link, and says its number. It is given back where there is no memory for it.
    pub fn enter(&mut self, seat: S) -> Result<usize, S>
        ensures there { IfOk result (λ at. seat_at self.new.slots at ≡ Some seat) }
        ensures anew { IfOk result (λ at. seat_at self.old.slots at ≡ None) }
        ensures others { IfOk result (λ at. KeepsOthers self.old.slots self.new.slots at) }
        ensures back { IfErr result (λ back. back ≡ seat) }
        ensures same { OnErr result (KeepsSeats self.old.slots self.new.slots) }
    {
        if self.slots.reserve(1).is_err() {
            return Err(seat);
        }
        Ok(
            self.slots.insert_reserved(Slot {
                seat,
                place: Place::Link,
                next: None,
            }),
        )
    }

    /// The seat with this number.
    pub fn seat(&self, at: usize) -> Option<&S>
        ensures { option_copied result ≡ seat_at self.now.slots at }
    {
        match self.slots.get(at) {
            Some(slot) => Some(&slot.seat),
            None => None,
        }
    }

    /// Whether there is a seat with this number that waits for its link.
    pub fn is_at_link(&self, at: usize) -> bool {
        match self.slots.get(at) {
            Some(slot) => slot.place == Place::Link,
            None => false,
        }
    }

    /// Does this to the seat with this number.
    pub fn seat_mut(&mut self, at: usize) -> Option<&mut S> {
        match self.slots.get_mut(at) {
            Some(slot) => Some(&mut slot.seat),
            None => None,
        }
    }

    /// The seat with this number goes on at once.
    pub fn make_ready(&mut self, at: usize)
        ensures { KeepsSeats self.old.slots self.new.slots }
    {
        let chain = self.ready;
        self.ready = self.chained(chain, at);
    }

    /// The seat with this number waits for a ring.
    pub fn park(&mut self, at: usize, bit: u16)
        ensures { KeepsSeats self.old.slots self.new.slots }
    {
        let chain = self.chain_of(bit);
        let chain = self.chained(chain, at);
        self.set_chain(bit, chain);
    }

    fn chain_of(&self, bit: u16) -> Chain {
        match self.parked.get(chain_at(bit)) {
            Some(chain) => *chain,
            None => Chain::None,
        }
    }

    fn set_chain(&mut self, bit: u16, chain: Chain)
        ensures { self.new.slots ≡ self.old.slots }
    {
        if let Some(slot) = self.parked.get_mut(chain_at(bit)) {
            *slot = chain;
        }
    }

    // The chain with this slot at its end. One that is in a chain stays there.
    fn chained(&mut self, chain: Chain, at: usize) -> Chain
        ensures { KeepsSeats self.old.slots self.new.slots }
    {
        if !self.is_at_link(at) {
            return chain;
        }
        self.set_slot(at, Place::Chained, None);
        self.chained = self.chained.saturating_add(1);
        match chain {
            Chain::None => Chain::Some {
                first: at,
                last: at,
            },
            Chain::Some { first, last } => {
                self.set_slot(last, Place::Chained, Some(at));
                Chain::Some { first, last: at }
            }
        }
    }

    fn set_slot(&mut self, at: usize, place: Place, next: Option<usize>)
        ensures { KeepsSeats self.old.slots self.new.slots }
    {
        set_place(&mut self.slots, at, place, next);
    }

    /// Takes all who go on at once.
    pub(crate) fn take_ready(&mut self) -> Chain
        ensures { self.new.slots ≡ self.old.slots }
    {
        replace(&mut self.ready, Chain::None)
    }

    /// Takes all who wait for a ring with this bit, and those whose bit has the same rest.
    pub(crate) fn take_parked(&mut self, bit: u16) -> Chain
        ensures { self.new.slots ≡ self.old.slots }
    {
        let chain = self.chain_of(bit);
        self.set_chain(bit, Chain::None);
        chain
    }

    /// Takes the first of a chain that was taken, and says which are left: it waits for its link again.
    pub(crate) fn take_first(&mut self, chain: Chain) -> Option<(usize, Chain)>
        ensures { KeepsSeats self.old.slots self.new.slots }
    {
        let Chain::Some { first, last } = chain else {
            return None;
        };
        let next = self.next_of(first);
        self.set_slot(first, Place::Link, None);
        self.chained = self.chained.saturating_sub(1);
        match next {
            Some(next) if first != last => Some((first, Chain::Some { first: next, last })),
            _ => Some((first, Chain::None)),
        }
    }

    fn next_of(&self, at: usize) -> Option<usize> {
        match self.slots.get(at) {
            Some(slot) => slot.next,
            None => None,
        }
    }

    /// Takes the seat with this number out, unless it is in a chain.
    pub fn remove(&mut self, at: usize) -> Option<S>
        ensures seat { IfSome result (λ seat. seat_at self.old.slots at ≡ Some seat) }
        ensures gone { IfSome result (λ _. seat_at self.new.slots at ≡ None) }
        ensures others { KeepsOthers self.old.slots self.new.slots at }
        ensures same { IfNone result (self.new.slots ≡ self.old.slots) }
    {
        if !self.is_at_link(at) {
            return None;
        }
        match self.slots.try_remove(at) {
            Some(slot) => Some(slot.seat),
            None => None,
        }
    }
}

// Which chain those are in who wait for a ring with this bit.
fn chain_at(bit: u16) -> usize {
    usize::from(bit) % CHAINS
}

// What the seat in a slot waits for, and which slot follows it in its chain.
fn set_place<S: Drop>(slots: &mut Slab<Slot<S>>, at: usize, place: Place, next: Option<usize>)
    ensures { KeepsSeats slots.old slots.new }
{
    if let Some(slot) = slots.get_mut(at) {
        slot.place = place;
        slot.next = next;
    }
}

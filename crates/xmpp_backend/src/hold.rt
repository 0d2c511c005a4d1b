// Open wires that are held, and how much may still be kept for each.
ghost use Rattle.std.specs.Prelude.{◌≡◌, ◌≢◌, ◌-◌, ◌&&◌, ℕ, IsSome, None, Some, false, if◌then◌else◌, nat_le, nat_lt, true};
ghost use Rattle.bosh_types.specs.Limits.{most_waiting, waiting_bytes};
ghost use Rattle.xmpp_backend.specs.Dues.{bytes_left, bytes_on, hold_of, is_on, items_left};
ghost use Rattle.xmpp_backend.specs.declared.hold.Hold.{Hold};

use crate::due::Due;
use bosh_types::Wire;
use bosh_types::limits::{MOST_WAITING, WAITING_BYTES};
use std::collections::{BTreeMap, VecDeque};

// What is noted of an open wire: whether it is held, and then how many items and bytes may still be kept for it.
#[derive(Debug, Drop)]
pub(crate) struct Hold {
    pub(crate) held: bool,
    pub(crate) items: usize,
    pub(crate) bytes: usize,
}

// What becomes of a stanza that is for a wire.
#[derive(Clone, Copy, Debug, PartialEq, Eq)]
pub(crate) enum Place {
    // The wire isn't open: nothing.
    Nowhere,
    // It is owed.
    Owed,
    // The wire is held, and it is kept.
    Kept,
    // The wire is held, and there is no room for it.
    Refused,
}

impl Hold {
    pub(crate) fn unheld() -> Hold
        ensures { result.held ≡ false }
    {
        Hold {
            held: false,
            items: 0,
            bytes: 0,
        }
    }

    // Where a stanza of so many bytes goes.
    pub(crate) fn place(&self, bytes: usize) -> Place
        ensures owed { self.now.held ≡ false → result ≡ Place.Owed }
        ensures kept { self.now.held ≡ true → (nat_lt 0 self.now.items && nat_le bytes self.now.bytes) ≡ true → result ≡ Place.Kept }
        ensures refused { self.now.held ≡ true → (nat_lt 0 self.now.items && nat_le bytes self.now.bytes) ≡ false → result ≡ Place.Refused }
    {
        if !self.held {
            return Place::Owed;
        }
        if self.items > 0 && bytes <= self.bytes {
            return Place::Kept;
        }
        Place::Refused
    }

    // One more item of so many bytes is kept.
    fn take(&mut self, bytes: usize)
        ensures held { self.new.held ≡ self.old.held }
        ensures items { self.new.items ≡ self.old.items - 1 }
        ensures bytes { self.new.bytes ≡ self.old.bytes - bytes }
    {
        self.items = self.items.saturating_sub(1);
        self.bytes = self.bytes.saturating_sub(bytes);
    }

    fn take_where_on(&mut self, wire: Wire, due: &Due)
        ensures held { self.new.held ≡ self.old.held }
        ensures items { self.new.items ≡ self.old.items - (if is_on wire due.now then 1 else 0) }
        ensures bytes { self.new.bytes ≡ self.old.bytes - bytes_on wire due.now }
    {
        if due.wire().number() == wire.number() {
            self.take(due.bytes());
        }
    }
}

// A wire that is held from now on, for which this is kept.
pub(crate) fn held_beside(wire: Wire, kept: &VecDeque<Due>) -> Hold
    ensures held { result.held ≡ true }
    ensures items { result.items ≡ items_left wire kept.now.items }
    ensures bytes { result.bytes ≡ bytes_left wire kept.now.items }
{
    let mut hold = Hold {
        held: true,
        items: MOST_WAITING,
        bytes: WAITING_BYTES,
    };
    for index in 0..kept.len() {
        let Some(due) = kept.get(index) else {
            unreachable!();
        };
        hold.take_where_on(wire, due);
    }
    hold
}

// Notes this of the wire, where it is open.
pub(crate) fn note(holds: &mut BTreeMap<u64, Hold>, wire: Wire, hold: Hold)
    ensures open { IsSome (hold_of holds.old wire) → hold_of holds.new wire ≡ Some hold }
    ensures closed { hold_of holds.old wire ≡ None → hold_of holds.new wire ≡ None }
    ensures others { (other : ℕ) → other ≢ wire → hold_of holds.new other ≡ hold_of holds.old other }
{
    if let Some(noted) = holds.get_mut(&wire.number()) {
        *noted = hold;
    }
}

// One more item of so many bytes is kept for the wire.
pub(crate) fn keep_one(holds: &mut BTreeMap<u64, Hold>, wire: Wire, bytes: usize)
    ensures kept { (hold : Hold) → hold_of holds.old wire ≡ Some hold
        → hold_of holds.new wire ≡ Some (record hold { items = hold.items - 1; bytes = hold.bytes - bytes }) }
    ensures closed { hold_of holds.old wire ≡ None → hold_of holds.new wire ≡ None }
    ensures others { (other : ℕ) → other ≢ wire → hold_of holds.new other ≡ hold_of holds.old other }
{
    if let Some(noted) = holds.get_mut(&wire.number()) {
        noted.take(bytes);
    }
}

// The wire is open no longer.
pub(crate) fn forget(holds: &mut BTreeMap<u64, Hold>, wire: Wire)
    ensures gone { hold_of holds.new wire ≡ None }
    ensures others { (other : ℕ) → other ≢ wire → hold_of holds.new other ≡ hold_of holds.old other }
{
    holds.remove(&wire.number());
}

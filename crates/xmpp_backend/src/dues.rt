// What is owed on the open wires, and what is kept for those that are held.
ghost use Rattle.std.specs.Prelude.{◌≡◌, ◌≢◌, ◌-◌, ◌<◌, ◌++◌, [], ℕ, IfNone, IfSome, IsTrue, List, None, OnErr, OnOk, Some, false, option_to_list};
ghost use Rattle.body_cutter.specs.Cutting.{is_stanza};
ghost use Rattle.xmpp_backend.specs.Dues.{closed_from, held_from, hold_of, opened_from, owes, owes_all, place_on, put_at, resumed_from};
ghost use Rattle.xmpp_backend.specs.Told.{has_wire, with_wire};
ghost use Rattle.xmpp_backend.specs.declared.hold.Hold.{Hold};

use crate::backend::Given;
use crate::due::{Due, move_on};
use crate::hold::{Hold, Place, forget, held_beside, keep_one, note};
use crate::owed::Owed;
use crate::wires::Wires;
use bosh_types::{Closing, SharedText, Wire};
use http_server::Log;
use std::alloc::{AllocError, Global};
use std::collections::{BTreeMap, VecDeque};
use std::marker::Model;

// Both queues have memory for all that is in either, and for as many more as are reserved. So what is on a wire moves from one to
// the other without any.
#[derive(Drop)]
pub(crate) struct Dues {
    wires: Wires,
    holds: BTreeMap<u64, Hold>,
    asked: Log<Wire, bool>,
    owed: VecDeque<Due>,
    kept: VecDeque<Due>,
    reserved: usize,
}

impl Model for Dues {
    ghost use Rattle.std.specs.Prelude.{◌+◌, ◌≤◌, [], length};
    ghost use Rattle.std.specs.VecDeque.{deque_capacity};
    ghost use Rattle.xmpp_backend.specs.Dues.{IsSound, Stocked, held_by};

    ghost Value = { Stocked };

    ghost view = { λ d. record { dues = record { wires = d.wires; held = held_by [] d.asked.items; owed = d.owed.items; kept = d.kept.items }; room = d.reserved } };

    ghost invariant = { λ d. IsSound d.holds (record { wires = d.wires; held = held_by [] d.asked.items; owed = d.owed.items; kept = d.kept.items })
        × (length d.owed.items + length d.kept.items + d.reserved ≤ deque_capacity d.owed)
        × (length d.owed.items + length d.kept.items + d.reserved ≤ deque_capacity d.kept) };
}

impl Dues {
    // No wire is open and nothing is owed. It takes no memory.
    pub(crate) fn new(alloc: Global) -> Self
        ensures { result.dues ≡ record { wires = []; held = []; owed = []; kept = [] } }
    {
        Dues {
            wires: Wires::new(alloc),
            holds: BTreeMap::new(alloc),
            asked: Log::new(),
            owed: VecDeque::new(alloc),
            kept: VecDeque::new(alloc),
            reserved: 0,
        }
    }

    // The wires that are open.
    pub(crate) fn wires(&self) -> &[Wire]
        ensures { result.now ≡ self.now.dues.wires }
    {
        self.wires.as_slice()
    }

    // Whether the wire is open.
    pub(crate) fn is_open(&self, wire: Wire) -> bool
        ensures { result ≡ has_wire wire self.now.dues.wires }
    {
        self.holds.contains_key(&wire.number())
    }

    // The wire is open from now on, and isn't held.
    pub(crate) fn open(&mut self, wire: Wire) -> Result<(), AllocError>
        ensures ok { OnOk result (self.new.dues ≡ opened_from wire self.old.dues) }
        ensures err { OnErr result (self.new.dues ≡ self.old.dues) }
    {
        if self.is_open(wire) {
            self.resume(wire);
            return Ok(());
        }
        self.enter(wire)
    }

    // Opens a wire that wasn't open.
    fn enter(&mut self, wire: Wire) -> Result<(), AllocError>
        requires { has_wire wire self.old.dues.wires ≡ false }
        ensures ok { OnOk result (self.new.dues ≡ opened_from wire self.old.dues) }
        ensures err { OnErr result (self.new.dues ≡ self.old.dues) }
    {
        enter_both(&mut self.holds, &mut self.wires, wire)?;
        self.asked = self.asked.and(&wire, &false);
        move_on(&mut self.kept, &mut self.owed, wire);
        Ok(())
    }

    // The wire is open no longer, and nothing is owed on it.
    pub(crate) fn close(&mut self, wire: Wire)
        ensures { self.new.dues ≡ closed_from wire self.old.dues }
    {
        self.wires.remove(wire);
        forget(&mut self.holds, wire);
        self.asked = self.asked.and(&wire, &false);
        self.owed.retain(|due| due.wire().number() != wire.number());
        self.kept
            .retain(|item| item.wire().number() != wire.number());
    }

    // What is owed on the wire is kept until it is resumed. It takes no memory.
    pub(crate) fn hold(&mut self, wire: Wire)
        ensures { self.new.dues ≡ held_from wire self.old.dues }
    {
        move_on(&mut self.owed, &mut self.kept, wire);
        let hold = held_beside(wire, &self.kept);
        note(&mut self.holds, wire, hold);
        self.asked = self.asked.and(&wire, &true);
    }

    // What is kept for the wire is owed. It takes no memory.
    pub(crate) fn resume(&mut self, wire: Wire)
        ensures { self.new.dues ≡ resumed_from wire self.old.dues }
    {
        move_on(&mut self.kept, &mut self.owed, wire);
        note(&mut self.holds, wire, Hold::unheld());
        self.asked = self.asked.and(&wire, &false);
    }

    // Takes the first of what is owed. It takes no memory.
    pub(crate) fn pop(&mut self) -> Option<Due>
        ensures owed { self.old.dues.owed ≡ option_to_list result ++ self.new.dues.owed }
        ensures same { self.new.dues ≡ record self.old.dues { owed = self.new.dues.owed } }
        ensures unheld { IfSome result (λ due. has_wire due.0 self.old.dues.held ≡ false) }
        ensures none { IfNone result ((self.old.dues.owed ≡ []) × (self.new.dues ≡ self.old.dues)) }
    {
        self.owed.pop_front()
    }

    // Puts a stanza on its wire.
    pub(crate) fn put_one(&mut self, wire: Wire, stanza: SharedText) -> Result<(), AllocError>
        requires { IsTrue (is_stanza stanza) }
        ensures ok { OnOk result (self.new.dues ≡ owes (wire, stanza) self.old.dues) }
        ensures err { OnErr result (self.new.dues ≡ self.old.dues) }
    {
        self.reserve(1)?;
        self.put(wire, stanza);
        Ok(())
    }

    // Puts these stanzas, each on its wire.
    pub(crate) fn put_all(&mut self, mut stanzas: VecDeque<Owed>) -> Result<(), AllocError>
        ensures ok { OnOk result (self.new.dues ≡ owes_all stanzas.items self.old.dues) }
        ensures err { OnErr result (self.new.dues ≡ self.old.dues) }
    {
        self.reserve(stanzas.len())?;
        while let Some(owed) = stanzas.pop_front() {
            let (wire, stanza) = owed.into_parts();
            self.put(wire, stanza);
        }
        Ok(())
    }

    // Takes memory for so many more.
    fn reserve(&mut self, count: usize) -> Result<(), AllocError>
        ensures dues { self.new.dues ≡ self.old.dues }
        ensures room { OnOk result (self.new.room ≡ count) }
    {
        let Some(owed) = self.kept.len().checked_add(count) else {
            return Err(AllocError);
        };
        let Some(kept) = self.owed.len().checked_add(count) else {
            return Err(AllocError);
        };
        self.reserved = 0;
        self.owed.reserve(owed)?;
        self.kept.reserve(kept)?;
        self.reserved = count;
        Ok(())
    }

    // Where a stanza of so many bytes goes that is for this wire.
    fn place(&self, wire: Wire, bytes: usize) -> Place
        ensures { result ≡ place_on wire bytes self.now.dues }
    {
        match self.holds.get(&wire.number()) {
            Some(hold) => hold.place(bytes),
            None => Place::Nowhere,
        }
    }

    // Puts a stanza on its wire. It takes no memory.
    fn put(&mut self, wire: Wire, stanza: SharedText)
        requires room { 0 < self.old.room }
        requires stanza { IsTrue (is_stanza stanza) }
        ensures owes { self.new.dues ≡ owes (wire, stanza) self.old.dues }
        ensures room { self.new.room ≡ self.old.room - 1 }
    {
        match self.place(wire, stanza.len()) {
            Place::Nowhere => self.spend(),
            Place::Owed => self.owe(wire, stanza),
            Place::Kept => self.keep(wire, stanza),
            Place::Refused => self.fail(wire),
        }
    }

    fn spend(&mut self)
        requires { 0 < self.old.room }
        ensures dues { self.new.dues ≡ self.old.dues }
        ensures room { self.new.room ≡ self.old.room - 1 }
    {
        self.reserved -= 1;
    }

    fn owe(&mut self, wire: Wire, stanza: SharedText)
        requires room { 0 < self.old.room }
        requires stanza { IsTrue (is_stanza stanza) }
        requires place { (bytes : ℕ) × (place_on wire bytes self.old.dues ≡ Place.Owed) }
        ensures owes { self.new.dues ≡ put_at Place.Owed wire stanza self.old.dues }
        ensures room { self.new.room ≡ self.old.room - 1 }
    {
        self.owed
            .push_back_reserved(Due::new(wire, Given::Stanza(stanza)));
        self.reserved -= 1;
    }

    fn keep(&mut self, wire: Wire, stanza: SharedText)
        requires room { 0 < self.old.room }
        requires stanza { IsTrue (is_stanza stanza) }
        requires place { (bytes : ℕ) × (place_on wire bytes self.old.dues ≡ Place.Kept) }
        ensures owes { self.new.dues ≡ put_at Place.Kept wire stanza self.old.dues }
        ensures room { self.new.room ≡ self.old.room - 1 }
    {
        keep_one(&mut self.holds, wire, stanza.len());
        self.kept
            .push_back_reserved(Due::new(wire, Given::Stanza(stanza)));
        self.reserved -= 1;
    }

    // There is no room for more: the wire is closed as failed, after what is kept for it.
    fn fail(&mut self, wire: Wire)
        requires room { 0 < self.old.room }
        ensures owes { (text : List ℕ) → self.new.dues ≡ put_at Place.Refused wire text self.old.dues }
        ensures room { self.new.room ≡ self.old.room - 1 }
    {
        let closing = Given::Closed(Closing::RemoteConnectionFailed);
        self.kept.push_back_reserved(Due::new(wire, closing));
        self.wires.remove(wire);
        forget(&mut self.holds, wire);
        self.reserved -= 1;
    }
}

// Enters a wire that wasn't open, unheld.
fn enter_both(
    holds: &mut BTreeMap<u64, Hold>,
    wires: &mut Wires,
    wire: Wire,
) -> Result<(), AllocError>
    requires { hold_of holds.old wire ≡ None }
    ensures ok { OnOk result ((hold : Hold) × (hold_of holds.new wire ≡ Some hold) × (hold.held ≡ false)) }
    ensures wires { OnOk result (wires.new ≡ with_wire wire wires.old) }
    ensures err { OnErr result ((hold_of holds.new wire ≡ None) × (wires.new ≡ wires.old)) }
    ensures others { (other : ℕ) → other ≢ wire → hold_of holds.new other ≡ hold_of holds.old other }
{
    if holds.insert(wire.number(), Hold::unheld()).is_err() {
        return Err(AllocError);
    }
    if wires.insert(wire).is_err() {
        forget(holds, wire);
        return Err(AllocError);
    }
    Ok(())
}

// A back end that gives each stanza to all.
ghost use Rattle.std.specs.Prelude.{◌≡◌, Some, IfOk};

use crate::backend::{Backend, Passed, Polled};
use crate::ledger::Ledger;
use crate::owed::{Owed, owed_on_all};
use crate::stanza::stanza_in;
use bosh_types::{Inward, Wire};
use std::alloc::{AllocError, Global};
use std::collections::VecDeque;
use std::marker::Model;

/// Gives each stanza to all its open wires, that of the sender among them, in the order in which they were opened. The text
/// is shared and not copied. A restart is answered with nothing. It never fails, and forgets what is owed on a wire that is
/// closed.
#[derive(Drop)]
pub struct Room {
    alloc: Global,
    ledger: Ledger,
}

impl Model for Room {
    ghost use Rattle.xmpp_backend.specs.Owing.{Owing};

    ghost Value = { Owing };

    ghost view = { λ r. r.ledger };
}

impl Room {
    ghost use Rattle.xmpp_backend.specs.Owing.{nothing_owed};
    ghost use Rattle.xmpp_backend.specs.Kinds.{shared_on};

    /// No wire is open and nothing is owed. It takes no memory.
    pub fn new(alloc: Global) -> Self
        ensures { result ≡ nothing_owed }
    {
        Room {
            alloc,
            ledger: Ledger::new(alloc),
        }
    }

    // What is owed for an item that is passed on the wire.
    fn shared_on(&self, wire: Wire, item: &Inward) -> Result<VecDeque<Owed>, AllocError>
        ensures shared { IfOk result (λ owed. owed.items ≡ shared_on self.now wire item.now) }
    {
        if !self.ledger.is_open(wire) {
            return Ok(VecDeque::new(self.alloc));
        }
        let Some(stanza) = stanza_in(self.alloc, item)? else {
            return Ok(VecDeque::new(self.alloc));
        };
        owed_on_all(self.alloc, self.ledger.wires(), &stanza)
    }
}

impl Backend for Room {
    ghost use Rattle.xmpp_backend.specs.Told.{GivesStanza, Passes};
    ghost use Rattle.xmpp_backend.specs.Owing.{opened, passed_for, closed, held, resumed, told_of, IsDoneOrSame, PaysFirst, GivesOnOpened};
    ghost use Rattle.xmpp_backend.specs.Kinds.{shared_on};

    ghost told = { λ r. Some (told_of r) };

    ghost counts = { λ r. r.counts };

    fn open(&mut self, wire: Wire, to: &[u8]) -> Passed
        ensures { IsDoneOrSame self.old self.new (opened wire to.now self.old) result }
    {
        match self.ledger.open(self.alloc, wire, to) {
            Ok(()) => Passed::Done,
            Err(AllocError) => Passed::NoMemory,
        }
    }

    // What comes on an open wire is owed on each open wire, after what is owed already.
    fn pass(&mut self, wire: Wire, item: &Inward) -> Passed
        ensures step { IsDoneOrSame self.old self.new (passed_for wire item.now (shared_on self.old wire item.now) self.old) result }
        ensures lists { Passes (Some (told_of self.old)) (Some (told_of self.new)) wire item.now result }
    {
        let Ok(stanzas) = self.shared_on(wire, item) else {
            return Passed::NoMemory;
        };
        match self.ledger.pass_for(wire, item, stanzas) {
            Ok(()) => Passed::Done,
            Err(AllocError) => Passed::NoMemory,
        }
    }

    // What is owed is given in order, and `Nothing` comes where nothing is owed but on wires that are held.
    fn poll(&mut self) -> Polled
        ensures first { PaysFirst self.old self.new result }
        ensures stanza { GivesStanza result }
        ensures opened { GivesOnOpened self.old result }
    {
        self.ledger.poll()
    }

    fn close(&mut self, wire: Wire) -> Passed
        ensures done { result ≡ Passed.Done }
        ensures closed { self.new ≡ closed wire self.old }
    {
        self.ledger.close(wire);
        Passed::Done
    }

    fn hold(&mut self, wire: Wire)
        ensures { self.new ≡ held wire self.old }
    {
        self.ledger.hold(wire);
    }

    fn resume(&mut self, wire: Wire)
        ensures { self.new ≡ resumed wire self.old }
    {
        self.ledger.resume(wire);
    }
}

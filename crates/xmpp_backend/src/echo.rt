// A back end that gives each stanza back.
ghost use Rattle.std.specs.Prelude.{◌≡◌, Some, IfOk, IfSome, IsTrue};
ghost use Rattle.body_cutter.specs.Cutting.{is_stanza};

use crate::backend::{Backend, Passed, Polled};
use crate::ledger::Ledger;
use crate::stanza::echo_of;
use bosh_types::{Inward, SharedText, Wire};
use std::alloc::{AllocError, Global};
use std::marker::Model;

/// Gives each stanza back on its wire, and the features of a stream where it is restarted. It never fails, and forgets what
/// is owed on a wire that is closed.
#[derive(Drop)]
pub struct Echo {
    alloc: Global,
    ledger: Ledger,
}

impl Model for Echo {
    ghost use Rattle.xmpp_backend.specs.Owing.{Owing};

    ghost Value = { Owing };

    ghost view = { λ e. e.ledger };
}

impl Echo {
    ghost use Rattle.xmpp_backend.specs.Owing.{nothing_owed};
    ghost use Rattle.xmpp_backend.specs.Kinds.{echo_on};

    /// No wire is open and nothing is owed. It takes no memory.
    pub fn new(alloc: Global) -> Self
        ensures { result ≡ nothing_owed }
    {
        Echo {
            alloc,
            ledger: Ledger::new(alloc),
        }
    }

    // What is owed on the wire for an item that is passed on it.
    fn echo_on(&self, wire: Wire, item: &Inward) -> Result<Option<SharedText>, AllocError>
        ensures echo { IfOk result (λ stanza. stanza ≡ echo_on self.now wire item.now) }
        ensures text { IfOk result (λ stanza. IfSome stanza (λ text. IsTrue (is_stanza text))) }
    {
        if !self.ledger.is_open(wire) {
            return Ok(None);
        }
        echo_of(self.alloc, item)
    }
}

impl Backend for Echo {
    ghost use Rattle.xmpp_backend.specs.Told.{GivesStanza};
    ghost use Rattle.xmpp_backend.specs.Owing.{opened, passed_for, closed, held, resumed, told_of, IsDoneOrSame, PaysFirst, GivesOnOpened};
    ghost use Rattle.xmpp_backend.specs.Kinds.{echo_on, on_one};

    ghost told = { λ e. Some (told_of e) };

    ghost counts = { λ e. e.counts };

    fn open(&mut self, wire: Wire, to: &[u8]) -> Passed
        ensures { IsDoneOrSame self.old self.new (opened wire to.now self.old) result }
    {
        match self.ledger.open(self.alloc, wire, to) {
            Ok(()) => Passed::Done,
            Err(AllocError) => Passed::NoMemory,
        }
    }

    // On an open wire its echo is owed after what is owed already.
    fn pass(&mut self, wire: Wire, item: &Inward) -> Passed
        ensures { IsDoneOrSame self.old self.new (passed_for wire item.now (on_one wire (echo_on self.old wire item.now)) self.old) result }
    {
        let Ok(echo) = self.echo_on(wire, item) else {
            return Passed::NoMemory;
        };
        match self.ledger.pass_for_one(wire, item, echo) {
            Ok(()) => Passed::Done,
            Err(AllocError) => Passed::NoMemory,
        }
    }

    // What is owed is given in order, and `Nothing` comes where nothing is owed but on wires that are held.
    fn poll(&mut self) -> Polled
        ensures first { PaysFirst self.old self.new result }
        ensures stanza { GivesStanza result }
        ensures opened { GivesOnOpened self.old result }
    {
        self.ledger.poll()
    }

    fn close(&mut self, wire: Wire) -> Passed
        ensures done { result ≡ Passed.Done }
        ensures closed { self.new ≡ closed wire self.old }
    {
        self.ledger.close(wire);
        Passed::Done
    }

    fn hold(&mut self, wire: Wire)
        ensures { self.new ≡ held wire self.old }
    {
        self.ledger.hold(wire);
    }

    fn resume(&mut self, wire: Wire)
        ensures { self.new ≡ resumed wire self.old }
    {
        self.ledger.resume(wire);
    }
}

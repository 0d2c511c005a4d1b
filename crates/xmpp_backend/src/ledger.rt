// What the kinds in memory have in common: the open wires, the stanzas that are owed on them, and what was done.
ghost use Rattle.std.specs.Prelude.{◌≡◌, IsTrue, List, OnOk, OnErr, ℕ};
ghost use Rattle.std.specs.Option.{ForSome};
ghost use Rattle.body_cutter.specs.Cutting.{is_stanza};
ghost use Rattle.bosh_types.specs.declared.ending.Closing.{Closing};
ghost use Rattle.xmpp_backend.specs.Told.{GivesStanza, is_proper};
ghost use Rattle.xmpp_backend.specs.declared.backend.Given.TheVariants as given;

use crate::backend::{Given, Polled};
use crate::dues::Dues;
use crate::lists::Lists;
use crate::owed::Owed;
use crate::tally::Tally;
use bosh_types::{Inward, SharedText, Text, Wire};
use std::alloc::{AllocError, Global};
use std::collections::VecDeque;
use std::marker::Model;

#[derive(Drop)]
pub(crate) struct Ledger {
    lists: Lists,
    tally: Tally,
    dues: Dues,
}

impl Model for Ledger {
    ghost use Rattle.xmpp_backend.specs.Owing.{Owing, AllWereOpened};
    ghost use Rattle.xmpp_backend.specs.Told.{wires_of};

    ghost Value = { Owing };

    ghost view = { λ l. record { done = l.lists; counts = l.tally; dues = l.dues.dues } };

    ghost invariant = { λ l. AllWereOpened (wires_of l.lists.opened) l.dues.dues };
}

impl Ledger {
    ghost use Rattle.xmpp_backend.specs.Kinds.{on_one};
    ghost use Rattle.xmpp_backend.specs.Owing.{nothing_owed, opened, passed_for, closed, held, resumed, failed, is_open, PaysFirst, GivesOnOpened};

    // Nothing was done yet. It takes no memory.
    pub(crate) fn new(alloc: Global) -> Self
        ensures { result ≡ nothing_owed }
    {
        Ledger {
            lists: Lists::new(),
            tally: Tally::new(),
            dues: Dues::new(alloc),
        }
    }

    // The wires that are open.
    pub(crate) fn wires(&self) -> &[Wire]
        ensures { result.now ≡ self.now.dues.wires }
    {
        self.dues.wires()
    }

    // Whether the wire is open.
    pub(crate) fn is_open(&self, wire: Wire) -> bool
        ensures { result ≡ is_open self.now wire }
    {
        self.dues.is_open(wire)
    }

    // The wire is open to the host of this name from now on.
    pub(crate) fn open(&mut self, alloc: Global, wire: Wire, to: &[u8]) -> Result<(), AllocError>
        ensures ok { OnOk result (self.new ≡ opened wire to.now self.old) }
        ensures err { OnErr result (self.new ≡ self.old) }
    {
        let to = Text::from_vec(to.to_vec(alloc)?);
        self.dues.open(wire)?;
        self.lists.open(wire, &to);
        Ok(())
    }

    // The wire is no longer open, and nothing is owed on it.
    pub(crate) fn close(&mut self, wire: Wire)
        ensures { self.new ≡ closed wire self.old }
    {
        self.dues.close(wire);
        self.lists.close(wire);
    }

    // What is owed on the wire is kept until it is resumed.
    pub(crate) fn hold(&mut self, wire: Wire)
        ensures { self.new ≡ held wire self.old }
    {
        self.dues.hold(wire);
    }

    // What was kept for the wire is owed.
    pub(crate) fn resume(&mut self, wire: Wire)
        ensures { self.new ≡ resumed wire self.old }
    {
        self.dues.resume(wire);
    }

    // An item was passed on a wire, and one stanza is owed for it, or none.
    pub(crate) fn pass_for_one(
        &mut self,
        wire: Wire,
        item: &Inward,
        stanza: Option<SharedText>,
    ) -> Result<(), AllocError>
        requires { ForSome stanza (λ text. IsTrue (is_stanza text)) }
        ensures ok { OnOk result (self.new ≡ passed_for wire item.now (on_one wire stanza) self.old) }
        ensures err { OnErr result (self.new ≡ self.old) }
    {
        if let Some(stanza) = stanza {
            self.dues.put_one(wire, stanza)?;
            self.lists.pass(wire, item);
            return Ok(());
        }
        self.lists.pass(wire, item);
        Ok(())
    }

    // An item was passed on a wire, and these stanzas are owed for it.
    pub(crate) fn pass_for(
        &mut self,
        wire: Wire,
        item: &Inward,
        stanzas: VecDeque<Owed>,
    ) -> Result<(), AllocError>
        ensures ok { OnOk result (self.new ≡ passed_for wire item.now stanzas.items self.old) }
        ensures err { OnErr result (self.new ≡ self.old) }
    {
        self.dues.put_all(stanzas)?;
        self.lists.pass(wire, item);
        Ok(())
    }

    // One more call failed.
    pub(crate) fn fail(&mut self)
        ensures { self.new ≡ failed self.old }
    {
        self.tally.fail();
    }

    // Gives the first that is owed. It takes no memory.
    pub(crate) fn poll(&mut self) -> Polled
        ensures first { PaysFirst self.old self.new result }
        ensures stanza { GivesStanza result }
        ensures opened { GivesOnOpened self.old result }
    {
        match self.dues.pop() {
            None => {
                self.tally.idle();
                Polled::Nothing
            }
            Some(due) => {
                let (wire, given) = due.into_parts();
                self.tally.answer();
                self.lists.give(wire, &given);
                polled_on(wire, given)
            }
        }
    }
}

// What is given on a wire, as the answer of a poll.
fn polled_on(wire: Wire, what: Given) -> Polled
    requires { IsTrue (is_proper what) }
    ensures stanza { (text : List ℕ) → what ≡ given.Stanza text → result ≡ Polled.Out wire text }
    ensures closed { (closing : Closing) → what ≡ given.Closed closing → result ≡ Polled.Closed wire closing }
    ensures proper { GivesStanza result }
{
    match what {
        Given::Stanza(stanza) => Polled::Out(wire, stanza),
        Given::Closed(closing) => Polled::Closed(wire, closing),
    }
}

// A back end that gives by a list.
ghost use Rattle.std.specs.Prelude.{◌≡◌, ◌≢◌, ◌↔◌, Some, IfOk, IsTrue, drop};

use crate::backend::{Backend, Passed, Polled};
use crate::calls::{BackendCall, Calls, Failing};
use crate::ledger::Ledger;
use crate::owed::{Owed, owed_in_turn};
use bosh_types::{Inward, Stanzas, Wire};
use std::alloc::{AllocError, Global};
use std::collections::VecDeque;
use std::marker::Model;

/// Gives, for the n-th item that is passed with `Done`, the n-th of its lists of stanzas, on the wire of that item where it is
/// open. It fails exactly at the listed calls, and forgets what is owed on a wire that is closed.
#[derive(Drop)]
pub struct Scripted {
    alloc: Global,
    ledger: Ledger,
    answers: VecDeque<Stanzas>,
    failing: Vec<Failing>,
    calls: Calls,
}

impl Model for Scripted {
    ghost use Rattle.std.specs.Prelude.{IsTrue};
    ghost use Rattle.xmpp_backend.specs.Script.{Script, are_answers};

    ghost Value = { Script };

    ghost view = { λ s. record { owing = s.ledger; answers = s.answers.items; failing = s.failing.items; calls = s.calls } };

    ghost invariant = { λ s. IsTrue (are_answers s.answers.items) };
}

impl Scripted {
    ghost use Rattle.xmpp_backend.specs.Owing.{nothing_owed};
    ghost use Rattle.xmpp_backend.specs.Script.{no_calls, called, answer_on, are_answers, IsNextToFail};

    /// No wire is open, nothing is owed and no call was made. Each text of the lists is a stanza, which `are_answers` tests.
    /// It takes no memory.
    pub fn new(alloc: Global, answers: Vec<Stanzas>, failing: Vec<Failing>) -> Self
        requires { IsTrue (are_answers answers.items) }
        ensures { result ≡ record { owing = nothing_owed; answers = answers.items; failing = failing.items; calls = no_calls } }
    {
        Scripted {
            alloc,
            ledger: Ledger::new(alloc),
            answers: VecDeque::from_vec(answers),
            failing,
            calls: Calls::new(),
        }
    }

    // Counts a call of this kind, and says whether it is to fail.
    fn call(&mut self, call: BackendCall) -> bool
        ensures listed { IsTrue result ↔ IsNextToFail call self.old }
        ensures called { self.new ≡ called call self.old }
    {
        let number = self.calls.count(call);
        self.failing.contains(&Failing { call, number })
    }

    // What is owed for the next item, where it is passed on this wire.
    fn answer_on(&self, wire: Wire) -> Result<VecDeque<Owed>, AllocError>
        ensures { IfOk result (λ owed. owed.items ≡ answer_on self.now wire) }
    {
        if !self.ledger.is_open(wire) {
            return Ok(VecDeque::new(self.alloc));
        }
        let Some(stanzas) = self.answers.front() else {
            return Ok(VecDeque::new(self.alloc));
        };
        owed_in_turn(self.alloc, wire, stanzas.as_slice())
    }

    // The next item has the list after this one.
    fn advance(&mut self)
        ensures { self.new ≡ record self.old { answers = drop 1 self.old.answers } }
    {
        let _ = self.answers.pop_front();
    }
}

impl Backend for Scripted {
    ghost use Rattle.xmpp_backend.specs.Told.{GivesStanza, Passes};
    ghost use Rattle.xmpp_backend.specs.Owing.{opened, passed_for, closed, held, resumed, told_of, GivesOnOpened};
    ghost use Rattle.xmpp_backend.specs.Script.{called, answer_on, IsNextToFail, IsDoneOrFails, PaysOrFails};

    ghost told = { λ s. Some (told_of s.owing) };

    ghost counts = { λ s. s.owing.counts };

    fn open(&mut self, wire: Wire, to: &[u8]) -> Passed
        ensures listed { (result ≡ Passed.Failed) ↔ IsNextToFail BackendCall.Open self.old }
        ensures step { let old = called BackendCall.Open self.old in
            IsDoneOrFails old self.new (record old { owing = opened wire to.now old.owing }) result }
    {
        if self.call(BackendCall::Open) {
            self.ledger.fail();
            return Passed::Failed;
        }
        match self.ledger.open(self.alloc, wire, to) {
            Ok(()) => Passed::Done,
            Err(AllocError) => Passed::NoMemory,
        }
    }

    // On an open wire the stanzas for it are owed after what is owed already, and the next item has the next ones.
    fn pass(&mut self, wire: Wire, item: &Inward) -> Passed
        ensures listed { (result ≡ Passed.Failed) ↔ IsNextToFail BackendCall.Pass self.old }
        ensures step { let old = called BackendCall.Pass self.old in
            IsDoneOrFails old self.new (record old { owing = passed_for wire item.now (answer_on old wire) old.owing; answers = drop 1 old.answers }) result }
        ensures lists { Passes (Some (told_of self.old.owing)) (Some (told_of self.new.owing)) wire item.now result }
    {
        if self.call(BackendCall::Pass) {
            self.ledger.fail();
            return Passed::Failed;
        }
        let Ok(stanzas) = self.answer_on(wire) else {
            return Passed::NoMemory;
        };
        match self.ledger.pass_for(wire, item, stanzas) {
            Ok(()) => {
                self.advance();
                Passed::Done
            }
            Err(AllocError) => Passed::NoMemory,
        }
    }

    // What is owed is given in order, and `Nothing` comes where nothing is owed but on wires that are held; but a listed call fails, whatever is owed.
    fn poll(&mut self) -> Polled
        ensures listed { (result ≡ Polled.Failed) ↔ IsNextToFail BackendCall.Poll self.old }
        ensures first { PaysOrFails (called BackendCall.Poll self.old) self.new result }
        ensures stanza { GivesStanza result }
        ensures opened { GivesOnOpened self.old.owing result }
    {
        if self.call(BackendCall::Poll) {
            self.ledger.fail();
            return Polled::Failed;
        }
        self.ledger.poll()
    }

    fn close(&mut self, wire: Wire) -> Passed
        ensures listed { (result ≡ Passed.Failed) ↔ IsNextToFail BackendCall.Close self.old }
        ensures step { let old = called BackendCall.Close self.old in
            IsDoneOrFails old self.new (record old { owing = closed wire old.owing }) result }
        ensures memory { result ≢ Passed.NoMemory }
    {
        if self.call(BackendCall::Close) {
            self.ledger.fail();
            return Passed::Failed;
        }
        self.ledger.close(wire);
        Passed::Done
    }

    fn hold(&mut self, wire: Wire)
        ensures { self.new ≡ record self.old { owing = held wire self.old.owing } }
    {
        self.ledger.hold(wire);
    }

    fn resume(&mut self, wire: Wire)
        ensures { self.new ≡ record self.old { owing = resumed wire self.old.owing } }
    {
        self.ledger.resume(wire);
    }
}

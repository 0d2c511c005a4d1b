// A back end that is passed nothing before its taking is stored.
ghost use Rattle.std.specs.Prelude.{◌≡◌, ◌⊎◌, None};
ghost use Rattle.xmpp_backend.specs.Counts.{CountsPassed};
ghost use Rattle.xmpp_backend.specs.Told.{Passes};
ghost use Rattle.serve_journal.specs.Holding.{told_unheld};

use crate::receipt::{Leave, Mark, Receipt, ask};
use bosh_types::{CopyIn, Inward, Wire};
use entry_queue::EntryQueue;
use std::alloc::{AllocError, Global};
use std::collections::VecDeque;
use std::sync::Arc;
use xmpp_backend::{Backend, Passed, Polled};

// What waits until it is stored.
#[derive(Drop)]
enum Held {
    Item(Wire, Inward),
    Closing(Wire),
}

#[derive(Drop)]
struct Waiting {
    // What has to be stored before.
    mark: Mark,
    held: Held,
}

/// A back end that takes what it is passed, and hands it on at a later poll, in order, once all is stored that was entered until it came, where
/// entries are stored. It hands on nothing once entries are lost, and tells nothing where entries are stored.
#[derive(Drop)]
pub struct HeldBackend<E: Backend> {
    alloc: Global,
    end: E,
    keeper: Option<Arc<EntryQueue>>,
    waiting: VecDeque<Waiting>,
}

impl<E: Backend> HeldBackend<E> {
    pub fn new(alloc: Global, end: E, keeper: Option<Arc<EntryQueue>>) -> HeldBackend<E>
        ensures end { result.end ≡ end }
    {
        HeldBackend {
            alloc,
            end,
            keeper,
            waiting: VecDeque::new(alloc),
        }
    }
}

// Has it wait.
fn hold_back(waiting: &mut VecDeque<Waiting>, mark: Mark, held: Held) -> Passed
    ensures { result ≡ Passed.Failed → ⊥ }
{
    match waiting.push_back(Waiting { mark, held }) {
        Ok(()) => Passed::Done,
        Err(_) => Passed::NoMemory,
    }
}

// Hands on what may be by now. What the back end said where it didn't take something.
fn hand_on<E: Backend>(keeper: &EntryQueue, to: &mut E, waiting: &mut VecDeque<Waiting>) -> Passed
    ensures { CountsPassed (E.counts to.old) (E.counts to.new) result }
{
    for _ in 0..waiting.len() {
        let Some(first) = waiting.front() else {
            return Passed::Done;
        };
        let Leave::Stored(receipt) = ask(keeper, first.mark) else {
            return Passed::Done;
        };
        match pass_stored(to, first, receipt) {
            Passed::Done => {}
            Passed::Failed => return Passed::Failed,
            Passed::NoMemory => return Passed::NoMemory,
        }
        waiting.pop_front();
    }
    Passed::Done
}

// Hands on what waited, by the receipt of its mark.
fn pass_stored<E: Backend>(to: &mut E, waiting: &Waiting, receipt: Receipt) -> Passed
    requires { receipt.mark ≡ waiting.now.mark }
    ensures { CountsPassed (E.counts to.old) (E.counts to.new) result }
{
    let _receipt = receipt;
    match &waiting.held {
        Held::Item(wire, item) => to.pass(*wire, item),
        Held::Closing(wire) => to.close(*wire),
    }
}

impl<E: Backend> Backend for HeldBackend<E> {
    ghost use Rattle.serve_journal.specs.Holding.{told_unheld};

    ghost told = { λ b. told_unheld b.keeper (E.told b.end) };

    ghost counts = { λ b. E.counts b.end };

    fn open(&mut self, wire: Wire, to: &[u8]) -> Passed {
        self.end.open(wire, to)
    }

    fn pass(&mut self, wire: Wire, item: &Inward) -> Passed
        ensures held { (self.old.keeper ≡ None) ⊎ (self.new.end ≡ self.old.end) }
        ensures lists { Passes (told_unheld self.old.keeper (E.told self.old.end)) (told_unheld self.new.keeper (E.told self.new.end)) wire item.now result }
        ensures counts { CountsPassed (E.counts self.old.end) (E.counts self.new.end) result }
    {
        let Some(keeper) = &self.keeper else {
            return self.end.pass(wire, item);
        };
        let mark = Mark::now(keeper);
        match item.copy_in(self.alloc) {
            Ok(item) => hold_back(&mut self.waiting, mark, Held::Item(wire, item)),
            Err(AllocError) => Passed::NoMemory,
        }
    }

    fn poll(&mut self) -> Polled {
        let Some(keeper) = &self.keeper else {
            return self.end.poll();
        };
        match hand_on(keeper, &mut self.end, &mut self.waiting) {
            Passed::Done => self.end.poll(),
            Passed::Failed => Polled::Failed,
            Passed::NoMemory => Polled::NoMemory,
        }
    }

    // A closing goes behind what waits.
    fn close(&mut self, wire: Wire) -> Passed {
        let Some(keeper) = &self.keeper else {
            return self.end.close(wire);
        };
        if self.waiting.is_empty() {
            return self.end.close(wire);
        }
        hold_back(&mut self.waiting, Mark::now(keeper), Held::Closing(wire))
    }

    fn hold(&mut self, wire: Wire) {
        self.end.hold(wire);
    }

    fn resume(&mut self, wire: Wire) {
        self.end.resume(wire);
    }
}

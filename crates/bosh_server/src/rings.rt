// The sessions that were rung for since the pump looked.
ghost use Rattle.std.specs.Prelude.{◌≡◌, ◌++◌, ◌∷◌, [], false, true};

use bosh_ports::{Bell, BellKey, Woken};
use bosh_types::Moment;
use std::alloc::{AllocError, Global};
use std::mem::swap;
use std::sync::{Mutex, Wait};

/// Sessions that were rung for, by their opening numbers and in the order of the rings.
#[derive(Drop)]
struct Rung {
    numbers: Vec<u64>,
    // There was no memory for some of them.
    is_short: bool,
}

impl Rung {
    fn new(alloc: Global) -> Rung
        ensures numbers { result.numbers.items ≡ [] }
        ensures whole { result.is_short ≡ false }
    {
        Rung {
            numbers: Vec::new(alloc),
            is_short: false,
        }
    }

    // Puts a number behind the others, or remembers that there was no memory for it.
    fn add(&mut self, number: u64)
        ensures added { self.new.is_short ≡ false → self.new.numbers.items ≡ self.old.numbers.items ++ number ∷ [] }
        ensures short { self.old.is_short ≡ true → self.new.is_short ≡ true }
    {
        if self.numbers.push(number).is_err() {
            self.is_short = true;
        }
    }

    // Exchanges the numbers for these, and begins anew. Whether there was memory for all of them.
    fn hand_out(&mut self, numbers: &mut Vec<u64>) -> bool
        ensures given { numbers.new.items ≡ self.old.numbers.items }
        ensures taken { self.new.numbers.items ≡ numbers.old.items }
        ensures whole { result ≡ true → self.old.is_short ≡ false }
        ensures anew { self.new.is_short ≡ false }
    {
        swap(&mut self.numbers, numbers);
        let is_whole = !self.is_short;
        self.is_short = false;
        is_whole
    }
}

/// The rings for sessions that the pump hasn't heard of yet.
#[derive(Drop)]
pub(crate) struct Rings {
    rung: Mutex<Rung>,
}

impl Rings {
    /// No session was rung for. It takes no memory.
    pub(crate) fn new(alloc: Global) -> Rings {
        Rings {
            rung: Mutex::new(Rung::new(alloc)),
        }
    }

    /// Notes a ring, where it is for a session.
    pub(crate) fn note<R: Wait>(&self, rt: &R, key: BellKey) {
        if key == BellKey::PUMP {
            return;
        }
        self.rung.lock(rt).add(key.0);
    }

    /// Takes all numbers that were noted, in the place of these, which are to be none. Whether there was memory for each of them.
    pub(crate) fn take<R: Wait>(&self, rt: &R, numbers: &mut Vec<u64>) -> bool {
        self.rung.lock(rt).hand_out(numbers)
    }

    /// Whether no ring was noted since the last take.
    pub(crate) fn is_empty<R: Wait>(&self, rt: &R) -> bool {
        let rung = self.rung.lock(rt);
        rung.numbers.is_empty() && !rung.is_short
    }
}

/// A bell whose rings for sessions are noted before they are handed on. So who is woken by a ring for the pump finds the session's
/// number noted, where that was rung for before.
#[derive(Drop)]
pub(crate) struct NotingBell<'r, R: Wait, B: Bell + Drop> {
    rt: &'r R,
    bell: B,
    rings: &'r Rings,
}

impl<'r, R: Wait, B: Bell + Drop> NotingBell<'r, R, B> {
    pub(crate) fn new(rt: &'r R, bell: B, rings: &'r Rings) -> NotingBell<'r, R, B> {
        NotingBell { rt, bell, rings }
    }
}

impl<R: Wait, B: Bell + Drop> Bell for NotingBell<'_, R, B> {
    ghost silences = { λ noting. B.silences noting.bell };

    fn tune(&mut self, key: BellKey) {
        self.bell.tune(key);
    }

    fn wait(&mut self) -> Woken {
        self.bell.wait()
    }

    fn wait_until(&mut self, now: Moment, due: Option<Moment>) -> Woken {
        self.bell.wait_until(now, due)
    }

    fn ring(&mut self, key: BellKey) {
        self.rings.note(self.rt, key);
        self.bell.ring(key);
    }

    fn share(&self) -> Result<Self, AllocError> {
        let bell = self.bell.share()?;
        Ok(NotingBell {
            rt: self.rt,
            bell,
            rings: self.rings,
        })
    }
}

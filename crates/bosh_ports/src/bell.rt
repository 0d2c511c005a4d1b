// The bell at which one thread waits for the work of others.
ghost use Rattle.std.specs.Prelude.{◌≡◌, ◌≤◌, ◌↔◌, ℕ, IfOk};
ghost use Rattle.bosh_ports.specs.Faults.{HasRisen};

use bosh_types::Moment;
use std::alloc::{AllocError, Global};
use std::marker::Model;

/// How a wait at a bell ended.
#[derive(Clone, Copy, PartialEq, Eq, Debug)]
pub enum Woken {
    Rung,
    Silent,
}

/// Whom a ring concerns: those who wait for the session with this opening number, which counts from 1. 0 is the pump's, and
/// what a bell is tuned to until it is told otherwise.
#[derive(Clone, Copy, PartialEq, Eq, Debug)]
pub struct BellKey(pub u64);

impl BellKey {
    pub const PUMP: BellKey = BellKey(0);

    /// Of those who wait until entries of sessions are on a disk.
    pub const STORED: BellKey = BellKey(u64::MAX);
}

/// A bell, and how many waits at it ended silent. Nothing is said of how long a wait takes, nor of which rings end it.
pub trait Bell {
    ghost silences: { Self → ℕ };

    /// Waits are for rings with this key from here on. Those that came before aren't waited for: tune first, then look at
    /// what is waited for, then wait.
    fn tune(&mut self, key: BellKey)
        ensures { silences self.new ≡ silences self.old };

    /// `Rung` says no more than that the wait ended: what was waited for has to be looked at again.
    fn wait(&mut self) -> Woken
        ensures silent { result ≡ Woken.Silent → HasRisen (silences self.old) (silences self.new) }
        ensures rung { result ≡ Woken.Rung → silences self.new ≡ silences self.old }
        ensures never_falls { silences self.old ≤ silences self.new };

    /// `wait` for somebody who has something to do at the moment `due`, and otherwise only at a ring. `now` is the moment at
    /// which the wait begins, by the clock that `due` is of. Where nothing says otherwise it is `wait` itself.
    fn wait_until(&mut self, now: Moment, due: Option<Moment>) -> Woken
        ensures silent { result ≡ Woken.Silent → HasRisen (silences self.old) (silences self.new) }
        ensures rung { result ≡ Woken.Rung → silences self.new ≡ silences self.old }
        ensures never_falls { silences self.old ≤ silences self.new }
    {
        self.wait()
    }

    /// Wakes those that wait with this key. It may wake others too.
    fn ring(&mut self, key: BellKey)
        ensures { silences self.new ≡ silences self.old };

    /// One more end of the same bell, for another thread, with a count of its own and the key of this one.
    fn share(&self) -> Result<Self, AllocError>
    where
        Self: Sized,
        ensures { IfOk result (λ bell. silences bell ≡ 0) };
}

/// Never silent, and never waits. It has no keys.
#[derive(Clone, Copy)]
pub struct SteadyBell;

impl Bell for SteadyBell {
    ghost silences = { λ _. 0 };

    fn wait(&mut self) -> Woken {
        Woken::Rung
    }

    fn tune(&mut self, _key: BellKey) {}

    fn ring(&mut self, _key: BellKey) {}

    fn share(&self) -> Result<SteadyBell, AllocError> {
        Ok(SteadyBell)
    }
}

/// Silent at the waits of a list, which are counted from 1, and rung at every other. It never waits, and
/// has no keys.
#[derive(Drop)]
pub struct ListedBell {
    alloc: Global,
    silent: Vec<u64>,
    waits: u64,
    silences: u64,
}

impl Model for ListedBell {
    ghost use Rattle.bosh_ports.specs.Bell.{Listed};

    ghost Value = { Listed };

    ghost view = { λ b. record { silent = b.silent.items; waits = b.waits; silences = b.silences } };
}

impl ListedBell {
    pub fn new(alloc: Global, silent: Vec<u64>) -> ListedBell
        ensures { result ≡ record { silent = silent.items; waits = 0; silences = 0 } }
    {
        ListedBell {
            alloc,
            silent,
            waits: 0,
            silences: 0,
        }
    }

    /// How many waits were silent.
    pub fn silences(&self) -> u64
        ensures { result ≡ self.now.silences }
    {
        self.silences
    }
}

impl Bell for ListedBell {
    ghost use Rattle.bosh_ports.specs.Bell.{IsNextSilent};
    ghost use Rattle.bosh_ports.specs.Memory.{counted_up};

    ghost silences = { λ bell. bell.silences };

    fn wait(&mut self) -> Woken
        ensures silent { result ≡ Woken.Silent → HasRisen self.old.silences self.new.silences }
        ensures rung { result ≡ Woken.Rung → self.new.silences ≡ self.old.silences }
        ensures never_falls { self.old.silences ≤ self.new.silences }

        // It is silent at the listed waits and at no others.
        ensures listed { (result ≡ Woken.Silent) ↔ (IsNextSilent self.old) }
        ensures waits { self.new.waits ≡ counted_up self.old.waits }
        ensures list { self.new.silent ≡ self.old.silent }
    {
        self.waits = self.waits.saturating_add(1);
        if self.silent.contains(&self.waits) {
            self.silences = self.silences.saturating_add(1);
            return Woken::Silent;
        }
        Woken::Rung
    }

    fn tune(&mut self, _key: BellKey)
        ensures { self.new ≡ self.old }
    {}

    fn ring(&mut self, _key: BellKey)
        ensures { self.new ≡ self.old }
    {}

    fn share(&self) -> Result<ListedBell, AllocError>
        ensures { IfOk result (λ bell. bell ≡ record { silent = self.now.silent; waits = 0; silences = 0 }) }
    {
        let silent = self.silent.clone()?;
        Ok(ListedBell::new(self.alloc, silent))
    }
}

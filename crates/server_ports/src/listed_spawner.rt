// Spawners without threads of their own.
ghost use Rattle.std.specs.Prelude.{◌≡◌, ◌≢◌, ℕ, ◌+◌, ◌≤◌, ◌↔◌, ⊤, Contains};
ghost use Rattle.bosh_ports.specs.Faults.{HasRisen};
ghost use Rattle.bosh_ports.specs.Memory.{counted_up};

use crate::spawner::{Leave, Spawner};
use std::thread::JoinHandle;

/// Every job runs at once, in the thread that starts it. The count of refusals is constantly 0.
#[derive(Clone, Copy, Debug)]
pub struct SteadySpawner {
    pub leaves: u64,
}

impl Spawner for SteadySpawner {
    ghost refusals = { λ _. 0 };

    ghost leaves = { λ s. s.leaves };

    ghost kept = { λ _. 0 };

    ghost has_threads = { λ _. ⊥ };

    ghost has_room = { λ _. ⊤ };

    fn ask(&mut self) -> Leave
        ensures here { result ≡ Leave.Here }
        ensures leaves { self.new.leaves ≡ counted_up self.old.leaves }
    {
        self.leaves = self.leaves.saturating_add(1);
        Leave::Here
    }

    fn keep(&mut self, handle: JoinHandle<()>) {
        drop(handle);
    }

    fn refuse(&mut self) {}
}

/// Refuses at the questions of a list, which are counted from 1, and leaves every other to another spawner, whose refusals
/// count too.
pub struct ListedSpawner<S: Spawner> {
    pub inner: S,
    pub refused: Vec<u64>,
    pub asked: u64,
    pub refusals: u64,
}

impl<S: Spawner> ListedSpawner<S> {
    pub fn new(inner: S, refused: Vec<u64>) -> Self
        ensures inner { result.inner ≡ inner }
        ensures refused { result.refused ≡ refused }
        ensures asked { result.asked ≡ 0 }
        ensures refusals { result.refusals ≡ 0 }
    {
        ListedSpawner {
            inner,
            refused,
            asked: 0,
            refusals: 0,
        }
    }

    /// The other spawner again, as to join its threads. The list is let go of.
    pub fn into_inner(self) -> S
        ensures { result ≡ self.inner }
    {
        let ListedSpawner {
            inner,
            refused: _,
            asked: _,
            refusals: _,
        } = self;
        inner
    }
}

impl<S: Spawner> Spawner for ListedSpawner<S> {
    ghost refusals = { λ s. s.refusals + S.refusals s.inner };

    ghost leaves = { λ s. S.leaves s.inner };

    ghost kept = { λ s. S.kept s.inner };

    ghost has_threads = { λ s. S.has_threads s.inner };

    ghost has_room = { λ s. S.has_room s.inner };

    fn ask(&mut self) -> Leave
        ensures refused { result ≡ Leave.Refused → HasRisen (self.old.refusals + S.refusals self.old.inner) (self.new.refusals + S.refusals self.new.inner) }
        ensures given { result ≢ Leave.Refused → self.new.refusals + S.refusals self.new.inner ≡ self.old.refusals + S.refusals self.old.inner }
        ensures never_falls { self.old.refusals + S.refusals self.old.inner ≤ self.new.refusals + S.refusals self.new.inner }
        ensures leave { result ≢ Leave.Refused → HasRisen (S.leaves self.old.inner) (S.leaves self.new.inner) }
        ensures kept { S.kept self.new.inner ≡ S.kept self.old.inner }
        ensures threads { result ≡ Leave.InThread → S.has_threads self.new.inner }
        ensures room { result ≡ Leave.InThread → S.has_room self.new.inner }

        // It refuses at the listed questions, and at others only where the other one does.
        ensures listed { Contains self.old.refused.items (counted_up self.old.asked) → result ≡ Leave.Refused }
        ensures asked { self.new.asked ≡ counted_up self.old.asked }
        ensures list { self.new.refused ≡ self.old.refused }
    {
        self.asked = self.asked.saturating_add(1);
        if self.refused.contains(&self.asked) {
            self.refusals = self.refusals.saturating_add(1);
            return Leave::Refused;
        }
        self.inner.ask()
    }

    fn keep(&mut self, handle: JoinHandle<()>) {
        self.inner.keep(handle);
    }

    fn refuse(&mut self) {
        self.inner.refuse();
    }
}

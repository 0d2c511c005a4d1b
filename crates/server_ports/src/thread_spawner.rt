// The spawner of real threads.
ghost use Rattle.std.specs.Prelude.{◌≡◌, ◌≢◌, ◌<◌, ◌≤◌, [], ◌∷◌, ◌++◌, ⊤, vec_len, vec_capacity};
ghost use Rattle.bosh_ports.specs.Faults.{HasRisen};

use crate::spawner::{Leave, Spawner};
use std::alloc::Global;
use std::thread::{JoinHandle, Threads};

/// Every job gets a thread, and the handles of all are kept. It can't be let go of but by `join_all`, so no thread is left
/// running where a program ends. Want of memory for a handle is a refusal.
pub struct ThreadSpawner {
    handles: Vec<JoinHandle<()>>,
    refusals: u64,
    leaves: u64,
}

impl ThreadSpawner {
    pub fn new(alloc: Global) -> ThreadSpawner
        ensures refusals { result.refusals ≡ 0 }
        ensures leaves { result.leaves ≡ 0 }
        ensures handles { result.handles.items ≡ [] }
    {
        ThreadSpawner {
            handles: Vec::new(alloc),
            refusals: 0,
            leaves: 0,
        }
    }

    /// How often it refused.
    pub fn refusals(&self) -> u64
        ensures { result ≡ self.now.refusals }
    {
        self.refusals
    }

    /// Waits until each thread has ended.
    pub fn join_all(self, rt: &impl Threads) {
        let ThreadSpawner {
            handles,
            refusals: _,
            leaves: _,
        } = self;
        for handle in handles {
            handle.join(rt);
        }
    }
}

impl Spawner for ThreadSpawner {
    ghost refusals = { λ s. s.refusals };

    ghost leaves = { λ s. s.leaves };

    ghost kept = { λ s. vec_len s.handles };

    ghost has_threads = { λ _. ⊤ };

    ghost has_room = { λ s. vec_len s.handles < vec_capacity s.handles };

    fn ask(&mut self) -> Leave
        ensures refused { result ≡ Leave.Refused → HasRisen self.old.refusals self.new.refusals }
        ensures given { result ≢ Leave.Refused → self.new.refusals ≡ self.old.refusals }
        ensures never_falls { self.old.refusals ≤ self.new.refusals }
        ensures leave { result ≢ Leave.Refused → HasRisen self.old.leaves self.new.leaves }
        ensures kept { vec_len self.new.handles ≡ vec_len self.old.handles }
        ensures threads { result ≡ Leave.InThread → ⊤ }
        ensures room { result ≡ Leave.InThread → vec_len self.new.handles < vec_capacity self.new.handles }

        // A job that may be started gets a thread, and the handles stay.
        ensures thread { result ≢ Leave.Here }
        ensures handles { self.new.handles.items ≡ self.old.handles.items }
    {
        if self.handles.try_reserve(1).is_err() {
            self.refusals = self.refusals.saturating_add(1);
            return Leave::Refused;
        }
        self.leaves = self.leaves.saturating_add(1);
        Leave::InThread
    }

    fn keep(&mut self, handle: JoinHandle<()>)
        requires { vec_len self.old.handles < vec_capacity self.old.handles }
        ensures refusals { self.new.refusals ≡ self.old.refusals }
        ensures leaves { self.new.leaves ≡ self.old.leaves }
        ensures kept { HasRisen (vec_len self.old.handles) (vec_len self.new.handles) }
        ensures none_lost { vec_len self.old.handles ≤ vec_len self.new.handles }
        ensures handle { self.new.handles.items ≡ self.old.handles.items ++ handle ∷ [] }
    {
        self.handles.push_reserved(handle);
    }

    fn refuse(&mut self)
        ensures risen { HasRisen self.old.refusals self.new.refusals }
        ensures never_falls { self.old.refusals ≤ self.new.refusals }
        ensures leaves { self.new.leaves ≡ self.old.leaves }
        ensures kept { vec_len self.new.handles ≡ vec_len self.old.handles }
        ensures handles { self.new.handles ≡ self.old.handles }
    {
        self.refusals = self.refusals.saturating_add(1);
    }
}

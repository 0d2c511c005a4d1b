// Who may start threads, and keeps them.
ghost use Rattle.std.specs.Prelude.{◌≡◌, ◌≢◌, ℕ, ◌≤◌};
ghost use Rattle.bosh_ports.specs.Faults.{HasRisen};

use std::thread::JoinHandle;

/// What a spawner answers to the question whether one more job may be started.
#[derive(Clone, Copy, Debug, PartialEq, Eq)]
pub enum Leave {
    /// In a thread of its own.
    InThread,
    /// In the thread that asks, before it goes on.
    Here,
    Refused,
}

/// Gives leave to start jobs, keeps the handles of their threads, and counts what it allowed and what it refused.
pub trait Spawner {
    ghost refusals: { Self → ℕ };

    // How often it gave leave, and how many handles it keeps.
    ghost leaves: { Self → ℕ };

    ghost kept: { Self → ℕ };

    // It may give leave for a thread.
    ghost has_threads: { Self → Type 0 };

    // One more handle can be kept.
    ghost has_room: { Self → Type 0 };

    fn ask(&mut self) -> Leave
        ensures refused { result ≡ Leave.Refused → HasRisen (refusals self.old) (refusals self.new) }
        ensures given { result ≢ Leave.Refused → refusals self.new ≡ refusals self.old }
        ensures never_falls { refusals self.old ≤ refusals self.new }
        ensures leave { result ≢ Leave.Refused → HasRisen (leaves self.old) (leaves self.new) }
        ensures kept { kept self.new ≡ kept self.old }
        ensures threads { result ≡ Leave.InThread → has_threads self.new }
        ensures room { result ≡ Leave.InThread → has_room self.new };

    /// Keeps the handle of a thread that was started, until it is joined.
    fn keep(&mut self, handle: JoinHandle<()>)
        requires { has_room self.old }
        ensures refusals { refusals self.new ≡ refusals self.old }
        ensures leaves { leaves self.new ≡ leaves self.old }
        ensures kept { has_threads self.old → HasRisen (kept self.old) (kept self.new) }
        ensures none_lost { kept self.old ≤ kept self.new };

    /// Counts that the system made no thread although there was leave for one.
    fn refuse(&mut self)
        ensures risen { has_threads self.old → HasRisen (refusals self.old) (refusals self.new) }
        ensures never_falls { refusals self.old ≤ refusals self.new }
        ensures leaves { leaves self.new ≡ leaves self.old }
        ensures kept { kept self.new ≡ kept self.old };
}

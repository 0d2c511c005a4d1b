// Work that a thread does, and how it is started.
ghost use Rattle.std.specs.Prelude.{◌≡◌, ◌≢◌, ◌≤◌};
ghost use Rattle.bosh_ports.specs.Faults.{HasRisen};

use crate::spawner::{Leave, Spawner};
use std::thread;
use std::thread::Threads;

/// A piece of work that is done once.
pub trait Job {
    /// Does the work. It takes the leave that a spawner gave, so that what was refused is not done.
    fn run(self, leave: Leave)
        requires { leave ≢ Leave.Refused };
}

/// What became of a job that was to be started.
#[derive(Clone, Copy, Debug, PartialEq, Eq)]
pub enum Started {
    /// It runs in a thread, or ran to its end.
    Running,
    /// It was dropped.
    Refused,
}

/// Starts a job where the spawner gives leave, and only then: in a thread of its own, whose handle the spawner keeps, or here and at once.
/// It is a function and no method of the spawner, since no trait's method that makes a thread gets a proof.
pub fn start<R, S, J>(rt: &R, spawner: &mut S, job: J) -> Started
where
    R: Threads,
    S: Spawner,
    J: Job + Send + Drop + 'static,
    ensures refused { result ≡ Started.Refused → HasRisen (S.refusals spawner.old) (S.refusals spawner.new) }
    ensures running { result ≡ Started.Running → S.refusals spawner.new ≡ S.refusals spawner.old }
    ensures never_falls { S.refusals spawner.old ≤ S.refusals spawner.new }
    ensures leave { result ≡ Started.Running → HasRisen (S.leaves spawner.old) (S.leaves spawner.new) }
    ensures none_lost { S.kept spawner.old ≤ S.kept spawner.new }
{
    let leave = spawner.ask();
    match leave {
        Leave::InThread => start_thread(rt, spawner, job),
        Leave::Here => {
            job.run(leave);
            Started::Running
        }
        Leave::Refused => Started::Refused,
    }
}

// Starts a job in a thread of its own, for which the spawner has room.
fn start_thread<R, S, J>(rt: &R, spawner: &mut S, job: J) -> Started
where
    R: Threads,
    S: Spawner,
    J: Job + Send + Drop + 'static,
    requires threads { S.has_threads spawner.old }
    requires room { S.has_room spawner.old }
    ensures refused { result ≡ Started.Refused → HasRisen (S.refusals spawner.old) (S.refusals spawner.new) }
    ensures running { result ≡ Started.Running → S.refusals spawner.new ≡ S.refusals spawner.old }
    ensures never_falls { S.refusals spawner.old ≤ S.refusals spawner.new }
    ensures leaves { S.leaves spawner.new ≡ S.leaves spawner.old }
    ensures kept { result ≡ Started.Running → HasRisen (S.kept spawner.old) (S.kept spawner.new) }
    ensures none_lost { S.kept spawner.old ≤ S.kept spawner.new }
{
    match thread::spawn(rt, move || job.run(Leave::InThread)) {
        Ok(handle) => {
            spawner.keep(handle);
            Started::Running
        }
        Err(_) => {
            spawner.refuse();
            Started::Refused
        }
    }
}

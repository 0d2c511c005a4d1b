// The bell at which a worker of a client waits.
ghost use Rattle.std.specs.Prelude.{◌≡◌, []};
ghost use Rattle.parked_gate.specs.Passes.{known};

use crate::ear::Ear;
use crate::ends::Naming;
use bosh_ports::{Bell, BellKey, Woken};
use std::alloc::AllocError;
use std::sync::Wait;

/// A bell whose waits end silent once the alarm of the crew was raised by another worker, so that this one ends too, which may
/// have nothing to send any more.
#[derive(Drop)]
pub(crate) struct Watch<J, R, B>
where
    J: Naming,
    R: Wait + Copy + Drop,
    B: Bell + Drop,
{
    pub(crate) rt: R,
    pub(crate) bell: B,
    pub(crate) ear: Ear<J>,
    pub(crate) silences: u64,
    // It did not raise it.
    pub(crate) ghost unraised: { (known ear.pass).mine ≡ [] },
}

impl<J, R, B> Bell for Watch<J, R, B>
where
    J: Naming,
    R: Wait + Copy + Drop,
    B: Bell + Drop,
{
    ghost use Rattle.std.specs.Prelude.{◌≡◌, ◌≤◌, ◌+◌, length, false};
    ghost use Rattle.bosh_ports.specs.Faults.{HasRisen};
    ghost use Rattle.client_run.specs.Alarms.{is_raised};

    ghost silences = { λ watch. watch.silences };

    fn tune(&mut self, key: BellKey) {
        self.bell.tune(key);
    }

    fn wait(&mut self) -> Woken
        ensures silent { result ≡ Woken.Silent → HasRisen self.old.silences self.new.silences }
        ensures rung { result ≡ Woken.Rung → self.new.silences ≡ self.old.silences }
        ensures never_falls { self.old.silences ≤ self.new.silences }

        // It goes on only where it has looked just now, and nobody raised the alarm.
        ensures unraised { result ≡ Woken.Rung → is_raised (known self.new.ear.pass).seen ≡ false }
        ensures anew { result ≡ Woken.Rung → length (known self.new.ear.pass).learnt ≡ length (known self.old.ear.pass).learnt + 1 }
    {
        if self.bell.wait() == Woken::Rung && !self.ear.hears(&self.rt) {
            return Woken::Rung;
        }
        self.silences = self.silences.saturating_add(1);
        Woken::Silent
    }

    fn ring(&mut self, key: BellKey) {
        self.bell.ring(key);
    }

    // A worker's place at the alarm is its own, so its watch has no second end. None is asked for.
    fn share(&self) -> Result<Self, AllocError> {
        Err(AllocError)
    }
}

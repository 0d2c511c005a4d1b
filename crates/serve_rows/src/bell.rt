// A bell at which a wait is a turn of the pump, so that a server runs on one thread.
ghost use Rattle.parked_gate.specs.Passes.{IsPassOf};
ghost use Rattle.std.specs.Arc.{arc_value};
ghost use Rattle.std.specs.Prelude.{◌≡◌};

use crate::scene::Place;
use bosh_ports::{Bell, BellKey, SteadyBell, Woken};
use bosh_types::Moment;
use server_ports::StillClock;
use session_pump::Pump;
use std::alloc::AllocError;
use std::sync::{Arc, Wait};
use xmpp_backend::InMemory;

/// Makes a turn at each wait, so many times; then it is silent.
#[derive(Drop)]
pub struct TurningBell<R: Wait + Copy + Drop> {
    pub rt: R,
    pub place: Arc<Place>,
    pub pump: Pump<InMemory>,
    pub at: u64,
    pub left: u32,
    pub silences: u64,
    pub ghost fits: { IsPassOf (arc_value place).directory pump.purse.directory },
}

impl<R: Wait + Copy + Drop> TurningBell<R> {
    /// A turn of the pump. How many sessions are live after it, where there was memory for all.
    pub fn turn(&mut self) -> Option<usize>
        ensures { self.new.silences ≡ self.old.silences }
    {
        let clock = StillClock {
            moment: Moment::from_millis(self.at),
        };
        let mut bell = SteadyBell;
        self.pump
            .turn(&self.rt, &self.place.directory, &clock, &mut bell)
            .ok()
    }
}

impl<R: Wait + Copy + Drop> Bell for TurningBell<R> {
    ghost silences = { λ b. b.silences };

    fn tune(&mut self, _key: BellKey) {}

    fn wait(&mut self) -> Woken {
        if self.left == 0 {
            self.silences = self.silences.saturating_add(1);
            return Woken::Silent;
        }
        self.left -= 1;
        let _ = self.turn();
        Woken::Rung
    }

    fn ring(&mut self, _key: BellKey) {}

    // A server on one thread has one end of it.
    fn share(&self) -> Result<Self, AllocError> {
        Err(AllocError)
    }
}

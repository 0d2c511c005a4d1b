// How the pump of a server ends, and where its end comes back to who started it.
ghost use Rattle.std.specs.Prelude.{◌≡◌};
ghost use Rattle.parked_gate.specs.Passes.{home_of};
ghost use Rattle.session_pump.specs.Pumping.{pumping_of};
ghost use Rattle.bosh_server.specs.Behind.{HasRun};

use crate::ends::Naming;
use session_pump::Pump;
use std::marker::PhantomData;
use std::sync::{Condvar, Mutex, Wait};
use xmpp_backend::Backend;

/// The pump of a server as it left its thread: all of its calls are made but the last ones.
#[derive(Drop)]
pub(crate) struct PumpEnd<J: Naming, E: Backend> {
    pub(crate) pump: Pump<E>,
    pub(crate) of: PhantomData<J>,
    pub(crate) ghost home: { home_of pump.purse.directory ≡ J.home },
    pub(crate) ghost runs: { ∥ HasRun J.stands (pumping_of E.told E.counts pump) ∥₁ },
}

/// Where the end of a pump is left.
#[derive(Drop)]
pub(crate) struct PumpHome<J: Naming, E: Backend> {
    end: Mutex<Option<PumpEnd<J, E>>>,
    came: Condvar,
}

impl<J: Naming, E: Backend> PumpHome<J, E> {
    /// The pump hasn't ended. It takes no memory.
    pub(crate) fn new() -> PumpHome<J, E> {
        PumpHome {
            end: Mutex::new(None),
            came: Condvar::new(),
        }
    }

    /// The pump has ended so.
    pub(crate) fn put<R: Wait>(&self, rt: &R, end: PumpEnd<J, E>) {
        *self.end.lock(rt) = Some(end);
        self.came.notify_all();
    }

    /// Takes the end, once there is one.
    pub(crate) fn take<R: Wait>(&self, rt: &R) -> PumpEnd<J, E> {
        let mut place = self.end.lock(rt);
        for _ in rt.forever() {
            if let Some(end) = place.take() {
                return end;
            }
            place = self.came.wait(rt, place);
        }
        unreachable!()
    }
}

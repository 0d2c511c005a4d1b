// How loops end, and the list in which their ends come back to who started them.
ghost use Rattle.std.specs.Prelude.{◌≡◌, ◌-◌, ◌^◌, ◌<◌, All, length, min};
ghost use Rattle.std.specs.List.{sum_by};
ghost use Rattle.parked_gate.specs.Passes.{IsPassOf, gate_of, home_of, known};
ghost use Rattle.bosh_server.specs.Fates.{IsFate, IsOfHistory};

use crate::fates::{Fates, Roll};
use bosh_ports::Polled;
use parked_gate::{Gate, Pass};
use session_table::Directory;
use std::alloc::{AllocError, Global};
use std::marker::{Brand, PhantomData};
use std::sync::{Condvar, Mutex, Wait};

/// Which server it is. What comes back from another thread carries this as its name.
pub(crate) trait Naming {
    ghost use Rattle.std.specs.Prelude.{List};
    ghost use Rattle.parked_gate.specs.Passes.{GateId};
    ghost use Rattle.serve_loop.specs.Trail.{Setting};
    ghost use Rattle.session_pump.specs.Pumping.{HostFacts};

    // What its sessions are opened by.
    ghost site: { Setting };

    // The gate of its directory.
    ghost home: { GateId };

    // What its hosts have behind them at first.
    ghost stands: { List HostFacts };
}

impl Naming for Brand {
    ghost use Rattle.std.specs.Prelude.{[]};
    ghost use Rattle.bosh_server.specs.Fates.{no_site};

    ghost site = { no_site };

    ghost home = { record { words = 0; slots = 0; views_name = 0; atom = 0; block = 0; offset = 0; slot_names = [] } };

    ghost stands = { [] };
}

/// How a loop of a server ended: what became of each link that it took, how many these were, and what was seen of the directory for them.
#[derive(Drop)]
pub(crate) struct End<J: Naming, L: Polled + Drop> {
    pub(crate) fates: Fates<L>,
    pub(crate) settled: u64,
    pub(crate) pass: Pass<Directory>,
    pub(crate) of: PhantomData<J>,
    pub(crate) ghost home: { home_of pass ≡ J.home },
    pub(crate) ghost counted: { settled ≡ min (length fates) (2 ^ 64 - 1) },
    pub(crate) ghost true_of: { ∥ All (IsFate L.left L.given L.closed L.faults J.site) fates ∥₁ },
    pub(crate) ghost of_one: { ∥ All (IsOfHistory (known pass).seen) fates ∥₁ },
}

/// The ends of loops, with room for all of them from the start.
#[derive(Drop)]
pub(crate) struct Ends<J: Naming, L: Polled + Drop> {
    list: Mutex<Vec<End<J, L>>>,
    came: Condvar,
}

impl<J: Naming, L: Polled + Drop> Ends<J, L> {
    /// No loop has ended. The only error is want of memory.
    pub(crate) fn with_room(alloc: Global, room: usize) -> Result<Ends<J, L>, AllocError> {
        let list = Vec::with_capacity(alloc, room)?;
        Ok(Ends {
            list: Mutex::new(list),
            came: Condvar::new(),
        })
    }

    /// Puts an end behind the others. It takes no memory.
    pub(crate) fn put<R: Wait>(&self, rt: &R, end: End<J, L>) {
        let mut list = self.list.lock(rt);
        if list.len() < list.capacity() {
            list.push_reserved(end);
        }
        self.came.notify_all();
    }

    /// Takes an end, once there is one.
    pub(crate) fn take<R: Wait>(&self, rt: &R) -> End<J, L> {
        let mut list = self.list.lock(rt);
        for _ in rt.forever() {
            if let Some(end) = list.pop() {
                return end;
            }
            list = self.came.wait(rt, list);
        }
        unreachable!()
    }

    /// Waits until so many loops have ended, and so many links have come home: what became of each of them. The pass has then seen of the
    /// directory what was seen for each of them.
    pub(crate) fn gather<R: Wait>(
        &self,
        rt: &R,
        directory: &Gate<Directory>,
        pass: &mut Pass<Directory>,
        loops: u64,
        links: u64,
    ) -> Roll<L>
        requires pass { IsPassOf directory.now pass.old }
        requires named { gate_of directory.now ≡ J.home }
        ensures pass { IsPassOf directory.now pass.new }
        ensures of_one { ∥ All (λ fates. All (IsOfHistory (known pass.new).seen) fates) result ∥₁ }
        ensures all { links < 2 ^ 64 - 1 → sum_by length result ≡ links }
        ensures true_of { ∥ All (λ fates. All (IsFate L.left L.given L.closed L.faults J.site) fates) result ∥₁ }
    {
        let mut roll = Roll::new();
        let mut home: u64 = 0;
        let mut ended: u64 = 0;
        for _ in rt.forever() {
            if ended >= loops && home == links {
                return roll;
            }
            let End {
                fates,
                settled,
                pass: other,
                of: _,
            } = self.take(rt);
            directory.join(pass, other);
            roll.push(fates);
            home = home.saturating_add(settled);
            ended = ended.saturating_add(1);
        }
        unreachable!()
    }
}

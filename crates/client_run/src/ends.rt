// How workers end, and the list in which their ends come back.
ghost use Rattle.std.specs.Prelude.{◌≡◌, []};
ghost use Rattle.parked_gate.specs.Passes.{home_of, known};
ghost use Rattle.client_run.specs.Running.{IsEndOf};

use crate::ear::Ear;
use crate::object::ClientObject;
use crate::worked::Worked;
use parked_gate::Pass;
use server_ports::Network;
use std::alloc::{AllocError, Global};
use std::marker::{Brand, PhantomData};
use std::sync::{Condvar, Mutex, Wait};

/// Which gate it is, and which that of the alarm. What comes back from another thread carries these as its name.
pub(crate) trait Naming {
    ghost use Rattle.parked_gate.specs.Passes.{GateId};

    ghost gate: { GateId };

    ghost alarm: { GateId };
}

impl Naming for Brand {
    ghost use Rattle.std.specs.Prelude.{[]};

    ghost gate = { record { words = 0; slots = 0; views_name = 0; atom = 0; block = 0; offset = 0; slot_names = [] } };

    ghost alarm = { record { words = 0; slots = 0; views_name = 0; atom = 0; block = 0; offset = 0; slot_names = [] } };
}

/// How a worker ended, with its pass of the gate, its share of the network and its place at the alarm.
#[derive(Drop)]
pub(crate) struct End<J: Naming, N: Network + Drop> {
    pub(crate) worked: Result<Worked, AllocError>,
    pub(crate) pass: Pass<ClientObject>,
    pub(crate) share: N,
    pub(crate) ear: Ear<J>,
    pub(crate) of: PhantomData<J>,
    pub(crate) ghost home: { home_of pass ≡ J.gate },
    pub(crate) ghost tells: { IsEndOf worked (known pass) (N.counts share) (known ear.pass) },
}

/// The ends of workers, with room for all of them from the start.
#[derive(Drop)]
pub(crate) struct Ends<J: Naming, N: Network + Drop> {
    list: Mutex<Vec<End<J, N>>>,
    came: Condvar,
}

impl<J: Naming, N: Network + Drop> Ends<J, N> {
    pub(crate) fn with_room(alloc: Global, room: usize) -> Result<Ends<J, N>, AllocError> {
        let list = Vec::with_capacity(alloc, room)?;
        Ok(Ends {
            list: Mutex::new(list),
            came: Condvar::new(),
        })
    }

    /// Puts an end behind the others. It takes no memory.
    pub(crate) fn put<R: Wait>(&self, rt: &R, end: End<J, N>) {
        let mut list = self.list.lock(rt);
        if list.len() < list.capacity() {
            list.push_reserved(end);
        }
        self.came.notify_all();
    }

    /// Whether an end stands here.
    pub(crate) fn has_one<R: Wait>(&self, rt: &R) -> bool {
        !self.list.lock(rt).is_empty()
    }

    /// Whether two ends stand here.
    pub(crate) fn has_both<R: Wait>(&self, rt: &R) -> bool {
        self.list.lock(rt).len() >= 2
    }

    /// Takes an end, once there is one.
    pub(crate) fn take<R: Wait>(&self, rt: &R) -> End<J, N> {
        let mut list = self.list.lock(rt);
        for _ in rt.forever() {
            if let Some(end) = list.pop() {
                return end;
            }
            list = self.came.wait(rt, list);
        }
        unreachable!()
    }
}

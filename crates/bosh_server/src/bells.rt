// The bells of a server's loops and of its pump: a ring for a session wakes the loops in which somebody waits for it.
use crate::yard::Yard;
use bosh_ports::{Bell, BellKey, Woken};
use bosh_types::Moment;
use connection_loops::{Door, Rouse};
use std::alloc::AllocError;
use std::sync::{Arc, Wait};

/// The doors of all loops of a server.
#[derive(Drop)]
pub(crate) struct Doors<W: Rouse + Drop> {
    pub(crate) doors: Vec<Arc<Door<W>>>,
}

impl<W: Rouse + Drop> Doors<W> {
    /// What was waited for with this key may have come. Loops in which nobody waits for it are left alone. It takes neither a lock nor memory.
    pub(crate) fn ring(&self, key: BellKey) {
        for door in &self.doors {
            door.ring(key);
        }
    }
}

/// The bell of the connections of a loop. Who is tuned to a key is told by the door of the loop, and the loop is what waits.
#[derive(Drop)]
pub(crate) struct LoopBell<R, B, W>
where
    R: Wait + Copy + Drop,
    B: Bell + Drop,
    W: Rouse + Drop,
{
    pub(crate) rt: R,
    pub(crate) yard: Arc<Yard>,
    pub(crate) doors: Arc<Doors<W>>,
    pub(crate) own: Arc<Door<W>>,
    // At which the pump waits.
    pub(crate) bell: B,
}

impl<R, B, W> Bell for LoopBell<R, B, W>
where
    R: Wait + Copy + Drop,
    B: Bell + Drop,
    W: Rouse + Drop,
{
    ghost silences = { λ _. 0 };

    fn tune(&mut self, key: BellKey) {
        self.own.tune(key);
    }

    // A connection in a loop never waits itself.
    fn wait(&mut self) -> Woken {
        Woken::Rung
    }

    fn ring(&mut self, key: BellKey) {
        if key == BellKey::PUMP {
            self.bell.ring(key);
            return;
        }
        self.yard.rings.note(&self.rt, key);
        self.doors.ring(key);
    }

    fn share(&self) -> Result<LoopBell<R, B, W>, AllocError> {
        Ok(LoopBell {
            rt: self.rt,
            yard: Arc::try_clone(&self.yard)?,
            doors: Arc::try_clone(&self.doors)?,
            own: Arc::try_clone(&self.own)?,
            bell: self.bell.share()?,
        })
    }
}

/// The bell of the pump, whose rings for sessions are for those who wait in loops.
#[derive(Drop)]
pub(crate) struct PumpBell<B, W>
where
    B: Bell + Drop,
    W: Rouse + Drop,
{
    pub(crate) bell: B,
    pub(crate) doors: Arc<Doors<W>>,
}

impl<B, W> Bell for PumpBell<B, W>
where
    B: Bell + Drop,
    W: Rouse + Drop,
{
    ghost silences = { λ pump. B.silences pump.bell };

    fn tune(&mut self, key: BellKey) {
        self.bell.tune(key);
    }

    fn wait(&mut self) -> Woken {
        self.bell.wait()
    }

    fn wait_until(&mut self, now: Moment, due: Option<Moment>) -> Woken {
        self.bell.wait_until(now, due)
    }

    fn ring(&mut self, key: BellKey) {
        if key == BellKey::PUMP {
            self.bell.ring(key);
            return;
        }
        self.doors.ring(key);
    }

    fn share(&self) -> Result<PumpBell<B, W>, AllocError> {
        let bell = self.bell.share()?;
        let doors = Arc::try_clone(&self.doors)?;
        Ok(PumpBell { bell, doors })
    }
}

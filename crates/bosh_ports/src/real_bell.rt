// The bell of running threads: counts of rings under locks, and conditions that they sleep on.
ghost use Rattle.std.specs.Prelude.{◌<◌};

use crate::bell::{Bell, BellKey, Woken};
use bosh_types::Moment;
use std::alloc::{AllocError, Global};
use std::array;
use std::rt::Clock;
use std::sync::{Arc, Condvar, Mutex, Wait};
use std::time::Duration;

/// How many stripes a bell has: one for the pump, and the others for the sessions. Sessions whose opening numbers differ by a
/// multiple of the others' number share one.
const STRIPES: usize = 64;

/// The longest wait, in milliseconds.
const PATIENCE: u64 = 100;

#[derive(Drop)]
struct Stripe {
    rings: Mutex<u64>,
    rung: Condvar,
}

#[derive(Drop)]
struct Tower {
    stripes: [Stripe; STRIPES],
}

/// Never silent: a wait ends at a ring with its key that this end hasn't heard yet, or after 100 milliseconds without one, so
/// that whoever waits looks again. A ring wakes who waits for its session, or the pump, and with few sessions nobody else.
#[derive(Drop)]
pub struct RealBell<R: Wait + Clock + Copy + Drop> {
    rt: R,
    tower: Arc<Tower>,
    stripe: usize,
    heard: u64,
    ghost inside: { stripe < 64 },
}

// The stripe of a key: the first is the pump's alone.
fn stripe_of(key: BellKey) -> usize
    ensures { result < 64 }
{
    match key.0.checked_sub(1) {
        Some(before) => (before % 63) as usize + 1,
        None => 0,
    }
}

impl<R: Wait + Clock + Copy + Drop> RealBell<R> {
    pub fn new(alloc: Global, rt: R) -> Result<RealBell<R>, AllocError> {
        let stripes = array::from_fn(|_| Stripe {
            rings: Mutex::new(0),
            rung: Condvar::new(),
        });
        let tower = Arc::new(alloc, Tower { stripes })?;
        Ok(RealBell {
            rt,
            tower,
            stripe: 0,
            heard: 0,
        })
    }
}

impl<R: Wait + Clock + Copy + Drop> Bell for RealBell<R> {
    ghost silences = { λ _. 0 };

    fn tune(&mut self, key: BellKey) {
        let stripe = stripe_of(key);
        self.heard = *self.tower.stripes[stripe].rings.lock(&self.rt);
        self.stripe = stripe;
    }

    fn wait(&mut self) -> Woken {
        let heard = self.heard;
        let stripe = &self.tower.stripes[self.stripe];
        let (rings, _) = stripe.rung.wait_timeout_while(
            &self.rt,
            stripe.rings.lock(&self.rt),
            Duration::from_millis(PATIENCE),
            |rings| *rings == heard,
        );
        self.heard = *rings;
        Woken::Rung
    }

    // Without a moment it waits until it is rung.
    fn wait_until(&mut self, now: Moment, due: Option<Moment>) -> Woken {
        let heard = self.heard;
        let stripe = &self.tower.stripes[self.stripe];
        let rings = stripe.rings.lock(&self.rt);
        self.heard = match due {
            Some(due) => {
                let millis = due.millis().saturating_sub(now.millis());
                let (rings, _) = stripe.rung.wait_timeout_while(
                    &self.rt,
                    rings,
                    Duration::from_millis(millis),
                    |rings| *rings == heard,
                );
                *rings
            }
            None => *stripe
                .rung
                .wait_while(&self.rt, rings, |rings| *rings == heard),
        };
        Woken::Rung
    }

    fn ring(&mut self, key: BellKey) {
        let stripe = &self.tower.stripes[stripe_of(key)];
        let mut rings = stripe.rings.lock(&self.rt);
        *rings = rings.wrapping_add(1);
        stripe.rung.notify_all();
    }

    fn share(&self) -> Result<RealBell<R>, AllocError> {
        let tower = Arc::try_clone(&self.tower)?;
        Ok(RealBell {
            rt: self.rt,
            tower,
            stripe: self.stripe,
            heard: self.heard,
        })
    }
}

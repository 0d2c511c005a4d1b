// The system's clock.
ghost use Rattle.std.specs.Prelude.{None};

use crate::clock::Clock;
use bosh_types::Moment;
use std::rt;
use std::time::{Duration, Instant, SystemTime, UNIX_EPOCH};

/// A clock in milliseconds since 1970 that never goes back while the program runs: it reads the system's date once, as it is
/// made, and adds the time that has passed since. A part that can't be read counts as 0, and so does a moment.
#[derive(Clone, Copy, Drop)]
pub struct RealClock<R: rt::Clock + Copy + Drop> {
    rt: R,
    start: Option<Instant>,
    date: Duration,
}

impl<R: rt::Clock + Copy + Drop> RealClock<R> {
    pub fn new(rt: R) -> RealClock<R> {
        let date = match SystemTime::now(&rt) {
            Ok(now) => now.duration_since(UNIX_EPOCH).unwrap_or(Duration::ZERO),
            Err(_) => Duration::ZERO,
        };
        RealClock {
            rt,
            start: Instant::now(&rt).ok(),
            date,
        }
    }

    // The time since 1970, or nothing where the clock can't be read.
    fn since_epoch(&self) -> Option<Duration> {
        let now = Instant::now(&self.rt).ok()?;
        self.date.checked_add(now.duration_since(self.start?))
    }
}

impl<R: rt::Clock + Copy + Drop> Clock for RealClock<R> {
    ghost moment = { λ _. None };

    fn now(&self) -> Moment {
        let passed = self.since_epoch().unwrap_or(Duration::ZERO);
        Moment::from_millis(u64::try_from(passed.as_millis()).unwrap_or(u64::MAX))
    }

    fn share(&self) -> RealClock<R> {
        *self
    }
}

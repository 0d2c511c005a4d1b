// What time it is.
ghost use Rattle.std.specs.Prelude.{◌≡◌, ℕ, Option, Some, IfSome};

use bosh_types::Moment;

/// A clock. Nothing is said of how its moments move.
pub trait Clock {
    // The moment that it answers, where the clock tells that.
    ghost moment: { Self → Option ℕ };

    fn now(&self) -> Moment
        ensures { IfSome (moment self.now) (λ told. result ≡ told) };

    /// The same clock, for another thread.
    fn share(&self) -> Self
    where
        Self: Sized,
        ensures { moment result ≡ moment self.now };
}

/// A clock in memory, which stands at its moment until that is written anew.
#[derive(Clone, Copy, Debug)]
pub struct StillClock {
    pub moment: Moment,
}

impl Clock for StillClock {
    ghost moment = { λ clock. Some clock.moment };

    fn now(&self) -> Moment {
        self.moment
    }

    fn share(&self) -> StillClock {
        *self
    }
}

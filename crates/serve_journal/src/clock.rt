// A clock that goes on where another stood.
ghost use Rattle.std.specs.Prelude.{◌≡◌, IfSome};
ghost use Rattle.serve_journal.specs.Later.{later_by};

use bosh_types::Moment;
use server_ports::Clock;

/// A clock that stood at one moment when another clock began at its own, and goes on as that does: the time between them doesn't count.
#[derive(Drop)]
pub struct LaterClock<C: Clock + Drop> {
    clock: C,
    // The moment of the other clock at which it began, and its own then, in milliseconds.
    begin: u64,
    stood: u64,
}

impl<C: Clock + Drop> LaterClock<C> {
    /// The clock itself.
    pub fn same(clock: C) -> LaterClock<C>
        ensures clock { result.clock ≡ clock }
        ensures same { (result.begin ≡ 0) × (result.stood ≡ 0) }
    {
        LaterClock {
            clock,
            begin: 0,
            stood: 0,
        }
    }

    /// The clock as if it were this moment now.
    pub fn from(clock: C, stood: Moment) -> LaterClock<C>
        ensures clock { result.clock ≡ clock }
        ensures stood { result.stood ≡ stood }
        ensures begins { IfSome (C.moment clock) (λ told. result.begin ≡ told) }
    {
        let begin = clock.now().millis();
        LaterClock {
            clock,
            begin,
            stood: stood.millis(),
        }
    }
}

// The moment of a clock that stood there when the other began.
fn moved(begin: u64, stood: u64, now: Moment) -> Moment
    ensures { result ≡ later_by begin stood now }
{
    let passed = now.millis().saturating_sub(begin);
    Moment::from_millis(stood.saturating_add(passed))
}

impl<C: Clock + Drop> Clock for LaterClock<C> {
    ghost use Rattle.serve_journal.specs.Later.{later};

    ghost moment = { λ c. later c.begin c.stood (C.moment c.clock) };

    fn now(&self) -> Moment {
        moved(self.begin, self.stood, self.clock.now())
    }

    fn share(&self) -> LaterClock<C> {
        LaterClock {
            clock: self.clock.share(),
            begin: self.begin,
            stood: self.stood,
        }
    }
}

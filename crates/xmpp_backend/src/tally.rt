ghost use Rattle.std.specs.Prelude.{◌≡◌};
ghost use Rattle.xmpp_backend.specs.Counts.{counted_on};

use std::marker::Model;

// The three counts of a kind in memory. Each stands still at the end of its type.
#[derive(Drop)]
pub(crate) struct Tally {
    faults: u64,
    idle: u64,
    answers: u64,
}

impl Model for Tally {
    ghost use Rattle.xmpp_backend.specs.Counts.{Counts};

    ghost Value = { Counts };

    ghost view = { λ t. record { faults = t.faults; idle = t.idle; answers = t.answers } };
}

// One more, where the type has it.
pub(crate) fn counted_on(count: u64) -> u64
    ensures { result ≡ counted_on count }
{
    if count < u64::MAX { count + 1 } else { count }
}

impl Tally {
    pub(crate) fn new() -> Self
        ensures { result ≡ record { faults = 0; idle = 0; answers = 0 } }
    {
        Tally {
            faults: 0,
            idle: 0,
            answers: 0,
        }
    }

    pub(crate) fn fail(&mut self)
        ensures { self.new ≡ record self.old { faults = counted_on self.old.faults } }
    {
        self.faults = counted_on(self.faults);
    }

    pub(crate) fn idle(&mut self)
        ensures { self.new ≡ record self.old { idle = counted_on self.old.idle } }
    {
        self.idle = counted_on(self.idle);
    }

    pub(crate) fn answer(&mut self)
        ensures { self.new ≡ record self.old { answers = counted_on self.old.answers } }
    {
        self.answers = counted_on(self.answers);
    }
}

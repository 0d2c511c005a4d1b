// The alarm of a crew, as the object of a gate: a worker raises it where it has failed.
ghost use Rattle.std.specs.Prelude.{◌≡◌, []};

use parked_gate::Object;
use std::convert::Infallible;
use std::marker::Model;

/// Its history is who raised it: nobody, or the first who did.
#[derive(Drop)]
pub(crate) struct Alarm {
    by: Option<u32>,
}

impl Model for Alarm {
    ghost use Rattle.std.specs.Prelude.{List, ℕ};
    ghost use Rattle.std.specs.Option.{option_to_list};

    ghost Value = { List ℕ };

    ghost view = { λ alarm. option_to_list alarm.by };
}

/// It is to be raised.
#[derive(Clone, Copy)]
pub(crate) struct Raise;

impl Alarm {
    /// Nobody raised it yet.
    pub(crate) fn new() -> Alarm
        ensures { result ≡ [] }
    {
        Alarm { by: None }
    }
}

/// The question is whether somebody raised it. Nothing is waited for, and nothing takes memory.
impl Object for Alarm {
    ghost use Rattle.std.specs.Prelude.{◌≡◌};
    ghost use Rattle.client_run.specs.Alarms.{Raises, is_raised};

    type Call = Raise;

    type Reply = ();

    type Ask = ();

    type Found = Infallible;

    type Question = ();

    type Answer = bool;

    type Entry = u32;

    ghost history = { λ alarm. alarm };

    ghost caller_of = { λ caller. caller };

    ghost is_legal = { λ _. Unit {0} };

    ghost may = { λ _. Unit {0} };

    ghost replies = { λ before _ _ made. Raises before made };

    ghost lacks = { λ _ _. Unit {0} };

    ghost finds = { λ _ _ _ _. ⊥ };

    ghost answers = { λ seen _ answer. answer ≡ is_raised seen };

    fn step(&mut self, caller: u32, _call: Raise) {
        match self.by {
            Some(_) => {}
            None => self.by = Some(caller),
        }
    }

    fn poll(&mut self, _caller: u32, _ask: ()) -> Option<Infallible> {
        None
    }

    fn look(&self, _question: &()) -> bool {
        self.by.is_some()
    }

    fn count(&self) -> u64 {
        match self.by {
            Some(_) => 1,
            None => 0,
        }
    }
}

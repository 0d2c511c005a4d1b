ghost use Rattle.std.specs.Prelude.{◌≡◌};

use bosh_types::StreamNo;
use std::marker::Model;

/// The stream that a request opened, if it opened one.
#[derive(Clone, Copy, Debug, PartialEq, Eq)]
pub struct AddedStream {
    // One more than its number, and 0 for none.
    place: u16,
}

// Clauses see its number, if there is one.
impl Model for AddedStream {
    ghost use Rattle.std.specs.Prelude.{ℕ, Option};
    ghost use Rattle.session_core.specs.Added.{IsPlace, number_at, place_of};

    ghost Value = { Option ℕ };

    ghost view = { λ a. number_at a.place };

    ghost invariant = { λ a. IsPlace a.place };

    ghost inverse = { λ o. record { place = place_of o } };
}

impl AddedStream {
    pub fn new(stream: &Option<StreamNo>) -> Self
        ensures { result ≡ stream.now }
    {
        match stream {
            None => AddedStream { place: 0 },
            Some(stream) => AddedStream {
                place: stream.number() + 1,
            },
        }
    }

    pub fn stream(self) -> Option<StreamNo>
        ensures { result ≡ self }
    {
        if self.place == 0 {
            return None;
        }
        StreamNo::new(self.place - 1)
    }
}

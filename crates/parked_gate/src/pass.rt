// The pass with which a thread calls through a gate.
ghost use Rattle.std.specs.Prelude.{◌≡◌, [], Some};
ghost use Rattle.std.specs.Prelude.{length as length_of};
ghost use Rattle.parked_gate.specs.Histories.{calls_of};
ghost use Rattle.parked_gate.specs.Steps.{IsAtRest};

use crate::object::Object;
use crate::steps::SeatOf;

/// A caller's place at one gate. It has seen a beginning of the gate's history, and knows which entries there are its own.
///
/// A pass has no lock and no memory of its own. Whoever holds it may call; hand it to another thread, or split one off.
#[derive(Drop)]
pub struct Pass<O: Object> {
    pub(crate) seat: SeatOf<O>,
    pub(crate) number: u32,
    pub(crate) length: u64,
    ghost rests: { IsAtRest seat.me.0 },
    ghost empty: { seat.me.1 ≡ [] },
    ghost numbered: { seat.me.0.number ≡ Some number },
    ghost counted: { length ≡ length_of seat.me.0.seen },
    // Its own entries are those of its number in what it has seen.
    pub ghost own: { calls_of O.caller_of number seat.me.0.seen ≡ seat.me.0.mine },
    // What it has seen was the object's whole history once, and so it is a legal one.
    pub ghost legal: { ∥ O.is_legal seat.me.0.seen ∥₁ },
}

impl<O: Object> Pass<O> {
    ghost use Rattle.std.specs.Prelude.{length};
    ghost use Rattle.parked_gate.specs.Passes.{known};

    pub fn number(&self) -> u32
        ensures { result ≡ (known self.now).number }
    {
        self.number
    }

    /// How long the history is that it has seen.
    pub fn length(&self) -> u64
        ensures { result ≡ length (known self.now).seen }
    {
        self.length
    }
}

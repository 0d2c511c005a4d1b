// The rule of the table, as its users name it, and a name for each kind of step.
use crate::object::Object;
use crate::view::View;
use atomic_table::{Join, Play, Split, TableRule};
use std::marker::PhantomData;
use std::snapshot::Snapshot;

/// There is one history, and the words, the slot and all views fit it.
pub struct Law<O> {
    object: PhantomData<O>,
}

impl<O: Object> TableRule<Option<O>, View<O::Entry>, Snapshot<O>> for Law<O> {
    ghost use Rattle.parked_gate.specs.Rule.{Kept, first_view};

    ghost holds = { λ _. Kept O.history O.caller_of };

    ghost first = { λ key. first_view (O.history key.value) };
}

/// Draws a turn.
pub struct Draw;

impl<O, E> Play<Option<O>, View<E>> for Draw {
    ghost use Rattle.parked_gate.specs.Steps.{Draws};

    ghost then = { Draws };
}

/// Looks whether the turn has come, and takes the object if it has.
pub struct Watch;

impl<O: Object> Play<Option<O>, View<O::Entry>> for Watch {
    ghost use Rattle.parked_gate.specs.Steps.{Watches};

    ghost then = { Watches O.history };
}

/// Learns the history from the object.
pub struct Learn;

impl<O: Object> Play<Option<O>, View<O::Entry>> for Learn {
    ghost use Rattle.parked_gate.specs.Steps.{Learns};

    ghost then = { Learns O.caller_of };
}

/// Makes the object's new entry one of the history.
pub struct Enter;

impl<O: Object> Play<Option<O>, View<O::Entry>> for Enter {
    ghost use Rattle.parked_gate.specs.Steps.{Enters};

    ghost then = { Enters O.history O.caller_of };
}

/// Gives the object back, and the turn to the next.
pub struct PassOn;

impl<O, E> Play<Option<O>, View<E>> for PassOn {
    ghost use Rattle.parked_gate.specs.Steps.{PassesOn};

    ghost then = { PassesOn };
}

/// Draws a number for a new pass.
pub struct Number;

impl<O: Object> Play<Option<O>, View<O::Entry>> for Number {
    ghost use Rattle.parked_gate.specs.Steps.{Numbers};

    ghost then = { Numbers O.caller_of };
}

/// Splits off a seat with the number that was drawn.
pub struct Part;

impl<E> Split<View<E>> for Part {
    ghost use Rattle.parked_gate.specs.Steps.{parted, newcomer};

    ghost left = { parted };

    ghost right = { newcomer };
}

/// Takes in another seat.
pub struct Meet;

impl<E> Join<View<E>> for Meet {
    ghost use Rattle.parked_gate.specs.Steps.{meeting, nobody};

    ghost both = { meeting };

    ghost spent = { nobody };
}

/// Compares what it and the seat that it took in had seen.
pub struct Compare;

impl<O: Object> Play<Option<O>, View<O::Entry>> for Compare {
    ghost use Rattle.parked_gate.specs.Steps.{Compares};

    ghost then = { Compares O.caller_of };
}

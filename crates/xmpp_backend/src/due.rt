// What is owed on wires, in queues.
ghost use Rattle.std.specs.Prelude.{◌≡◌, ◌+◌, ◌<◌, ◌≤◌, ◌++◌, ◌∷◌, [], IsTrue, List, false, filter, length, not, true};
ghost use Rattle.std.specs.VecDeque.{deque_capacity};
ghost use Rattle.xmpp_backend.specs.Dues.{Due, bytes_of, is_on};
ghost use Rattle.xmpp_backend.specs.Told.{is_proper};

use crate::backend::Given;
use bosh_types::Wire;
use std::collections::VecDeque;
use std::marker::Model;

// Something that is owed on a wire.
#[derive(Debug, Drop)]
pub(crate) struct Due {
    wire: Wire,
    given: Given,
}

impl Model for Due {
    ghost use Rattle.std.specs.Prelude.{IsTrue};
    ghost use Rattle.xmpp_backend.specs.Dues.{Due};
    ghost use Rattle.xmpp_backend.specs.Told.{is_proper};

    ghost Value = { Due };

    ghost view = { λ d. (d.wire, d.given) };

    ghost invariant = { λ d. IsTrue (is_proper d.given) };
}

impl Due {
    pub(crate) fn new(wire: Wire, given: Given) -> Self
        requires { IsTrue (is_proper given) }
        ensures { result ≡ (wire, given) }
    {
        Due { wire, given }
    }

    pub(crate) fn wire(&self) -> Wire
        ensures { result ≡ self.now.0 }
    {
        self.wire
    }

    // How many bytes it has, where it is a stanza.
    pub(crate) fn bytes(&self) -> usize
        ensures { result ≡ bytes_of self.now.1 }
    {
        match &self.given {
            Given::Stanza(stanza) => stanza.len(),
            Given::Closed(_) => 0,
        }
    }

    // Its parts.
    pub(crate) fn into_parts(self) -> (Wire, Given)
        ensures wire { result.0 ≡ self.0 }
        ensures given { result.1 ≡ self.1 }
        ensures proper { IsTrue (is_proper result.1) }
    {
        let Due { wire, given } = self;
        (wire, given)
    }
}

// Moves what is on this wire behind what the other queue has, in its order. It takes no memory.
pub(crate) fn move_on(from: &mut VecDeque<Due>, to: &mut VecDeque<Due>, wire: Wire)
    requires { length to.old.items + length from.old.items ≤ deque_capacity to.old }
    ensures from { from.new.items ≡ filter (λ due. not (is_on wire due)) from.old.items }
    ensures to { to.new.items ≡ to.old.items ++ filter (is_on wire) from.old.items }
    ensures capacity { deque_capacity from.new ≡ deque_capacity from.old }
    ensures room { deque_capacity to.new ≡ deque_capacity to.old }
{
    for _ in 0..from.len() {
        move_first(from, to, wire);
    }
}

// Moves the first of a queue behind the other where it is on this wire, and behind its own else.
fn move_first(from: &mut VecDeque<Due>, to: &mut VecDeque<Due>, wire: Wire)
    requires some { 0 < length from.old.items }
    requires room { length to.old.items < deque_capacity to.old }
    ensures on { (due : Due) (rest : List Due) → from.old.items ≡ due ∷ rest → is_on wire due ≡ true
        → (from.new.items ≡ rest) × (to.new.items ≡ to.old.items ++ due ∷ []) }
    ensures off { (due : Due) (rest : List Due) → from.old.items ≡ due ∷ rest → is_on wire due ≡ false
        → (from.new.items ≡ rest ++ due ∷ []) × (to.new.items ≡ to.old.items) }
    ensures capacity { deque_capacity from.new ≡ deque_capacity from.old }
    ensures room { deque_capacity to.new ≡ deque_capacity to.old }
{
    let Some(due) = from.pop_front() else {
        unreachable!();
    };
    if due.wire().number() == wire.number() {
        to.push_back_reserved(due);
        return;
    }
    from.push_back_reserved(due);
}

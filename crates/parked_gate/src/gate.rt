// The gate, and how one is made.
ghost use Rattle.std.specs.Prelude.{◌≡◌, Some, IsSome, IsErrAnd};

use crate::law::Law;
use crate::object::Object;
use crate::pass::Pass;
use crate::view::View;
use atomic_table::{Refused as TableRefused, Table};
use std::alloc::{AllocFailed, Global};
use std::snapshot::Snapshot;

/// How long the history is.
pub(crate) const COUNT: usize = 0;

/// The next turn to draw.
pub(crate) const DRAWN: usize = 1;

/// The turn that is served.
pub(crate) const SERVING: usize = 2;

/// The next number for a pass.
pub(crate) const NUMBERS: usize = 3;

/// One object that many threads call. It may lie in an `Arc`.
#[derive(Drop)]
pub struct Gate<O: Object> {
    pub(crate) table: Table<Option<O>, View<O::Entry>, Snapshot<O>, Law<O>, Global>,
    pub ghost sized: { (table.shared.table_id.words ≡ 4) × (table.shared.table_id.slots ≡ 1) },
}

/// There was no memory for a gate, and the object comes back.
#[derive(Drop)]
pub struct Refused<O> {
    pub object: O,
}

impl<O: Object> Gate<O> {
    ghost use Rattle.std.specs.Prelude.{All, IfOk, IfErr, []};
    ghost use Rattle.parked_gate.specs.Passes.{known, IsPassOf};

    pub fn new(alloc: Global, object: O) -> Result<(Gate<O>, Pass<O>), Refused<O>>
        requires { All (λ e. O.caller_of e ≡ 0) (O.history object) }
        ensures pass { IfOk result (λ made. IsPassOf made.0 made.1) }
        ensures legal { IfOk result (λ made. O.is_legal (O.history object)) }
        ensures known { IfOk result (λ made. known made.1
            ≡ record { number = 0; seen = O.history object; mine = O.history object; learnt = [] }) }
        ensures refused { IfErr result (λ refused. refused.object ≡ object) }
    {
        let count = object.count();
        let key = Snapshot::of(&object);
        let mut slots = Vec::new(alloc);
        if let Err(AllocFailed { value }) = slots.push(Some(object)) {
            slots.destroy_empty();
            return refuse(value);
        }
        match Table::new(alloc, &[count, 0, 0, 1], slots, &key) {
            Ok((table, seat)) => {
                let pass = Pass {
                    seat,
                    number: 0,
                    length: count,
                };
                Ok((Gate { table }, pass))
            }
            Err(TableRefused { mut slots }) => {
                let object = slots.pop().unwrap();
                slots.destroy_empty();
                refuse(object)
            }
        }
    }
}

fn refuse<T, O>(object: Option<O>) -> Result<T, Refused<O>>
    requires { IsSome object }
    ensures { IsErrAnd result (λ refused. object ≡ Some refused.object) }
{
    Err(Refused {
        object: object.unwrap(),
    })
}

// The single steps of a seat, each as a function that says what it tells.
ghost use Rattle.std.specs.Prelude.{◌≡◌, ◌≢◌, ◌==◌, ◌<◌, ◌^◌, ℕ, [], ◌∷◌, ◌++◌, List, length, Option, Some, None, IfNone, IfSome, MatchBool};
ghost use Rattle.parked_gate.specs.Histories.{StartsWith, calls_of};
ghost use Rattle.parked_gate.specs.Steps.{IsAtRest, queued, holding, learned, entered, rested, endowed, met_of, compared, HasRun};

use crate::gate::{COUNT, DRAWN, Gate, NUMBERS, SERVING};
use crate::law::{Compare, Draw, Enter, Learn, Meet, Number, PassOn, Watch};
use crate::object::Object;
use crate::view::View;
use atomic_table::Seat;
use std::sync::Wait;

/// How often a number is tried for where nobody waits.
const TRIES: u32 = 64;

/// A seat at the gate's table.
pub(crate) type SeatOf<O> = Seat<Option<O>, View<<O as Object>::Entry>>;

impl<O: Object> Gate<O> {
    /// Draws the next turn. At the last one it waits without end.
    pub(crate) fn draw<R: Wait>(&self, rt: &R, seat: &mut SeatOf<O>) -> u64
        requires table { seat.old.table_id ≡ self.now.table.shared.table_id }
        requires none { seat.old.me.0.turn ≡ None }
        requires empty { seat.old.me.0.held ≡ None }
        ensures table { seat.new.table_id ≡ seat.old.table_id }
        ensures turn { seat.new.me ≡ (queued seat.old.me.0 result, seat.old.me.1) }
    {
        for _ in rt.forever() {
            let next = self.table.shared.peek(DRAWN);
            if next < u64::MAX {
                let found = self
                    .table
                    .shared
                    .compare_exchange::<Draw>(seat, DRAWN, next, next + 1);
                if found == next {
                    return next;
                }
            }
        }
        unreachable!()
    }

    /// Looks which turn is served. Where it is the seat's own, the seat has the object.
    pub(crate) fn watch(&self, seat: &mut SeatOf<O>, turn: u64) -> u64
        requires table { seat.old.table_id ≡ self.now.table.shared.table_id }
        requires turn { seat.old.me.0.turn ≡ Some turn }
        requires empty { seat.old.me.0.held ≡ None }
        ensures table { seat.new.table_id ≡ seat.old.table_id }
        ensures served { MatchBool (result == turn)
            ((x : O) × (seat.new.me ≡ (holding seat.old.me.0 (O.history x), (0, Some x) ∷ seat.old.me.1)))
            (seat.new.me ≡ seat.old.me) }
    {
        self.table.shared.load::<Watch>(seat, SERVING)
    }

    /// Learns the history, and how long it is.
    pub(crate) fn learn(&self, seat: &mut SeatOf<O>) -> u64
        requires table { seat.old.table_id ≡ self.now.table.shared.table_id }
        requires held { (log : List O.Entry) × (seat.old.me.0.held ≡ Some log) }
        ensures table { seat.new.table_id ≡ seat.old.table_id }
        ensures learnt { (log : List O.Entry) → seat.old.me.0.held ≡ Some log
            → (seat.new.me ≡ (learned seat.old.me.0 log, seat.old.me.1)) × (result ≡ length log) × StartsWith log seat.old.me.0.seen
            × ((n : ℕ) → seat.old.me.0.number ≡ Some n → calls_of O.caller_of n log ≡ seat.old.me.0.mine) }
    {
        self.table.shared.load::<Learn>(seat, COUNT)
    }

    /// Makes the object's new entry one of the history, where it has one more than before.
    pub(crate) fn enter(&self, seat: &mut SeatOf<O>, before: u64, after: u64)
        requires table { seat.old.table_id ≡ self.now.table.shared.table_id }
        requires ran { (log : List O.Entry) × (made : Option O.Entry) × (x : O) × (n : ℕ)
            × HasRun O.history O.caller_of seat.old.me log made x n × (before ≡ length log) × (after ≡ length (O.history x)) }
        ensures table { seat.new.table_id ≡ seat.old.table_id }
        ensures entered { (log : List O.Entry) (made : Option O.Entry) (x : O) (n : ℕ) → HasRun O.history O.caller_of seat.old.me log made x n
            → seat.new.me ≡ (entered seat.old.me.0 (O.history x) (calls_of O.caller_of n (O.history x)), seat.old.me.1) }
    {
        if before == after {
            return;
        }
        self.table.shared.fetch_add::<Enter>(seat, COUNT, 1);
    }

    /// Gives the object back and passes the turn on, and wakes those that sleep on the turn that is served.
    pub(crate) fn pass_on(&self, seat: &mut SeatOf<O>)
        requires table { seat.old.table_id ≡ self.now.table.shared.table_id }
        requires object { (x : O) × (seat.old.me.1 ≡ (0, Some x) ∷ []) × (seat.old.me.0.held ≡ Some (O.history x)) }
        ensures table { seat.new.table_id ≡ seat.old.table_id }
        ensures rested { seat.new.me ≡ (rested seat.old.me.0, []) }
    {
        let served = self.table.shared.fetch_add::<PassOn>(seat, SERVING, 1);
        if self.table.shared.peek(DRAWN) != served.wrapping_add(1) {
            self.table.shared.wake_all(SERVING);
        }
    }

    /// Draws the next number for a pass. At the last one it waits without end.
    pub(crate) fn draw_number<R: Wait>(&self, rt: &R, seat: &mut SeatOf<O>) -> u32
        requires table { seat.old.table_id ≡ self.now.table.shared.table_id }
        requires number { (n : ℕ) × (seat.old.me.0.number ≡ Some n) }
        ensures table { seat.new.table_id ≡ seat.old.table_id }
        ensures gift { seat.new.me ≡ (endowed seat.old.me.0 result, seat.old.me.1) }
        ensures apart { seat.old.me.0.number ≢ Some result }
        ensures unused { calls_of O.caller_of result seat.old.me.0.seen ≡ [] }
    {
        for _ in rt.forever() {
            let next = self.table.shared.peek(NUMBERS);
            if next < u64::from(u32::MAX) {
                let found = self
                    .table
                    .shared
                    .compare_exchange::<Number>(seat, NUMBERS, next, next + 1);
                if found == next {
                    return next as u32;
                }
            }
        }
        unreachable!()
    }

    /// Draws the next number for a pass in a few tries, or none.
    pub(crate) fn try_number(&self, seat: &mut SeatOf<O>) -> Option<u32>
        requires table { seat.old.table_id ≡ self.now.table.shared.table_id }
        requires number { (n : ℕ) × (seat.old.me.0.number ≡ Some n) }
        ensures table { seat.new.table_id ≡ seat.old.table_id }
        ensures gift { IfSome result (λ number. seat.new.me ≡ (endowed seat.old.me.0 number, seat.old.me.1)) }
        ensures apart { IfSome result (λ number. seat.old.me.0.number ≢ Some number) }
        ensures unused { IfSome result (λ number. calls_of O.caller_of number seat.old.me.0.seen ≡ []) }
        ensures none { IfNone result (seat.new.me ≡ seat.old.me) }
    {
        for _ in 0..TRIES {
            let next = self.table.shared.peek(NUMBERS);
            if next < u64::from(u32::MAX) {
                let found = self
                    .table
                    .shared
                    .compare_exchange::<Number>(seat, NUMBERS, next, next + 1);
                if found == next {
                    return Some(next as u32);
                }
            }
        }
        None
    }

    /// Takes in another seat, and keeps the longer of what the two had seen.
    pub(crate) fn meet(&self, seat: &mut SeatOf<O>, other: SeatOf<O>)
        requires table { seat.old.table_id ≡ self.now.table.shared.table_id }
        requires other_table { other.table_id ≡ self.now.table.shared.table_id }
        requires other_rests { IsAtRest other.me.0 × (other.me.1 ≡ []) }
        ensures table { seat.new.table_id ≡ seat.old.table_id }
        ensures met { seat.new.me ≡ (compared seat.old.me.0 (met_of other.me.0), seat.old.me.1) }
        ensures begins { StartsWith seat.new.me.0.seen seat.old.me.0.seen }
        ensures begins_with_other { StartsWith seat.new.me.0.seen other.me.0.seen }
        ensures numbers { (n : ℕ) → other.me.0.number ≡ Some n → seat.old.me.0.number ≢ Some n }
        ensures own { (n : ℕ) → seat.old.me.0.number ≡ Some n → calls_of O.caller_of n seat.old.me.0.seen ≡ seat.old.me.0.mine
            → calls_of O.caller_of n seat.new.me.0.seen ≡ seat.old.me.0.mine }
    {
        self.table.shared.join_seat::<Meet>(seat, other);
        self.table.shared.load::<Compare>(seat, COUNT);
    }
}

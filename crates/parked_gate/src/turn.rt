// One turn at the gate: wait for it and learn the history, do something with the object, and pass the turn on.
ghost use Rattle.std.specs.Prelude.{◌≡◌, ℕ, [], ◌∷◌, List, length, Option, Some, None, MatchOption};
ghost use Rattle.parked_gate.specs.Histories.{StartsWith, calls_of, Appends};
ghost use Rattle.parked_gate.specs.Steps.{IsAtRest, queued, holding, learned, entered, rested, HasRun};

use crate::gate::{Gate, SERVING};
use crate::object::Object;
use crate::steps::SeatOf;
use std::hint::spin_loop;
use std::sync::Wait;

/// How often a waiter looks again before it sleeps.
const SPINS: u32 = 64;

/// The part of a word on which a thread can sleep.
const LOW_HALF: u64 = 0xffff_ffff;

impl<O: Object> Gate<O> {
    /// Waits for a turn of the seat's own, and takes the object.
    fn take<R: Wait>(&self, rt: &R, seat: &mut SeatOf<O>)
        requires table { seat.old.table_id ≡ self.now.table.shared.table_id }
        requires rests { IsAtRest seat.old.me.0 }
        requires empty { seat.old.me.1 ≡ [] }
        ensures table { seat.new.table_id ≡ seat.old.table_id }
        ensures taken { (x : O) × (turn : ℕ)
            × (seat.new.me ≡ (holding (queued seat.old.me.0 turn) (O.history x), (0, Some x) ∷ [])) }
    {
        let turn = self.draw(rt, seat);
        let mut spins = SPINS;
        for _ in rt.forever() {
            let serving = self.watch(seat, turn);
            if serving == turn {
                return;
            }
            if spins > 0 {
                spins -= 1;
                spin_loop();
            } else {
                self.table
                    .shared
                    .park(rt, SERVING, (serving & LOW_HALF) as u32);
            }
        }
        unreachable!()
    }

    /// Waits for a turn and learns the history, and how long it is.
    pub(crate) fn begin<R: Wait>(&self, rt: &R, seat: &mut SeatOf<O>) -> u64
        requires table { seat.old.table_id ≡ self.now.table.shared.table_id }
        requires rests { IsAtRest seat.old.me.0 }
        requires empty { seat.old.me.1 ≡ [] }
        ensures table { seat.new.table_id ≡ seat.old.table_id }
        ensures begun { (x : O) × (turn : ℕ)
            × (seat.new.me ≡ (learned (holding (queued seat.old.me.0 turn) (O.history x)) (O.history x), (0, Some x) ∷ []))
            × (result ≡ length (O.history x))
            × StartsWith (O.history x) seat.old.me.0.seen
            × ((n : ℕ) → seat.old.me.0.number ≡ Some n → calls_of O.caller_of n (O.history x) ≡ seat.old.me.0.mine) }
    {
        self.take(rt, seat);
        self.learn(seat)
    }

    /// Makes a call of the object, and counts its history after that.
    pub(crate) fn run(&self, seat: &mut SeatOf<O>, caller: u32, call: O::Call) -> (O::Reply, u64)
        requires table { seat.old.table_id ≡ self.now.table.shared.table_id }
        requires object { (x : O) × (seat.old.me.1 ≡ (0, Some x) ∷ []) }
        requires may { O.may call }
        ensures table { seat.new.table_id ≡ seat.old.table_id }
        ensures ran { (x : O) → seat.old.me.1 ≡ (0, Some x) ∷ [] → (y : O) × (made : Option O.Entry)
            × (seat.new.me ≡ (seat.old.me.0, (0, Some y) ∷ []))
            × Appends O.caller_of caller (O.history x) made (O.history y)
            × O.replies (O.history x) call result.0 made
            × O.is_legal (O.history y)
            × (result.1 ≡ length (O.history y)) }
    {
        match seat.slot_mut(&self.table.shared, 0) {
            Some(object) => {
                let reply = object.step(caller, call);
                (reply, object.count())
            }
            None => unreachable!(),
        }
    }

    /// Polls the object, and counts its history after that.
    pub(crate) fn seek(
        &self,
        seat: &mut SeatOf<O>,
        caller: u32,
        ask: O::Ask,
    ) -> (Option<O::Found>, u64)
        requires table { seat.old.table_id ≡ self.now.table.shared.table_id }
        requires object { (x : O) × (seat.old.me.1 ≡ (0, Some x) ∷ []) }
        ensures table { seat.new.table_id ≡ seat.old.table_id }
        ensures sought { (x : O) → seat.old.me.1 ≡ (0, Some x) ∷ [] → (y : O) × (made : Option O.Entry)
            × (seat.new.me ≡ (seat.old.me.0, (0, Some y) ∷ []))
            × Appends O.caller_of caller (O.history x) made (O.history y)
            × MatchOption result.0 ((made ≡ None) × O.lacks (O.history x) ask) (λ found. O.finds (O.history x) ask found made)
            × O.is_legal (O.history y)
            × (result.1 ≡ length (O.history y)) }
    {
        match seat.slot_mut(&self.table.shared, 0) {
            Some(object) => {
                let found = object.poll(caller, ask);
                (found, object.count())
            }
            None => unreachable!(),
        }
    }

    /// Asks the object a question, and counts its history.
    pub(crate) fn view(&self, seat: &mut SeatOf<O>, question: &O::Question) -> (O::Answer, u64)
        requires table { seat.old.table_id ≡ self.now.table.shared.table_id }
        requires object { (x : O) × (seat.old.me.1 ≡ (0, Some x) ∷ []) }
        ensures table { seat.new.table_id ≡ seat.old.table_id }
        ensures viewed { (x : O) → seat.old.me.1 ≡ (0, Some x) ∷ []
            → (seat.new.me ≡ (seat.old.me.0, (0, Some x) ∷ []))
            × O.answers (O.history x) question.now result.0
            × O.is_legal (O.history x)
            × (result.1 ≡ length (O.history x)) }
    {
        match seat.slot_mut(&self.table.shared, 0) {
            Some(object) => (object.look(question), object.count()),
            None => unreachable!(),
        }
    }

    /// Makes the object's new entry one of the history, if it has one, and passes the turn on.
    pub(crate) fn finish(&self, seat: &mut SeatOf<O>, before: u64, after: u64)
        requires table { seat.old.table_id ≡ self.now.table.shared.table_id }
        requires ran { (log : List O.Entry) × (made : Option O.Entry) × (x : O) × (n : ℕ)
            × HasRun O.history O.caller_of seat.old.me log made x n × (before ≡ length log) × (after ≡ length (O.history x)) }
        ensures table { seat.new.table_id ≡ seat.old.table_id }
        ensures finished { (log : List O.Entry) (made : Option O.Entry) (x : O) (n : ℕ) → HasRun O.history O.caller_of seat.old.me log made x n
            → seat.new.me ≡ (rested (entered seat.old.me.0 (O.history x) (calls_of O.caller_of n (O.history x))), []) }
    {
        self.enter(seat, before, after);
        self.pass_on(seat);
    }
}

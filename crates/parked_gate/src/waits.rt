// A pass waits until the object has what it asks for.
ghost use Rattle.std.specs.Prelude.{◌≡◌, ◌+◌, ◌≤◌, length, MatchOption};
ghost use Rattle.bosh_ports.specs.Faults.{HasRisen};

use crate::gate::Gate;
use crate::object::Object;
use crate::pass::Pass;
use bosh_ports::{Bell, Woken};
use std::sync::Wait;

/// How a wait at the gate ended.
#[derive(Drop)]
pub enum Waited<F> {
    Found(F),
    /// The bell was silent, and there is nothing yet.
    Silent,
}

impl<O: Object> Gate<O> {
    ghost use Rattle.parked_gate.specs.Passes.{known, IsPassOf, Calls, Looks};
    ghost use Rattle.parked_gate.specs.Waits.{IfFound, OnSilent};

    /// Polls the object once, when the pass's turn has come.
    pub fn poll<R: Wait>(&self, rt: &R, pass: &mut Pass<O>, ask: O::Ask) -> Option<O::Found>
        requires { IsPassOf self.now pass.old }
        ensures pass { IsPassOf self.now pass.new }
        ensures number { (known pass.new).number ≡ (known pass.old).number }
        ensures legal { O.is_legal (known pass.new).seen }
        ensures polled { MatchOption result
            (Looks (λ seen. O.lacks seen ask) (known pass.old) (known pass.new))
            (λ found. Calls O.caller_of (λ before made. O.finds before ask found made) (known pass.old) (known pass.new)) }
        ensures learns_once { length (known pass.new).learnt ≡ length (known pass.old).learnt + 1 }
    {
        let before = self.begin(rt, &mut pass.seat);
        let (found, after) = self.seek(&mut pass.seat, pass.number, ask);
        self.finish(&mut pass.seat, before, after);
        pass.length = after;
        found
    }

    /// Polls the object, and waits at the bell where it has nothing yet, until it has or the bell is silent.
    ///
    /// It takes no memory. Between two polls the pass has no turn, so that others go on.
    pub fn wait_for<R: Wait, B: Bell>(
        &self,
        rt: &R,
        pass: &mut Pass<O>,
        ask: O::Ask,
        bell: &mut B,
    ) -> Waited<O::Found>
        requires { IsPassOf self.now pass.old }
        ensures pass { IsPassOf self.now pass.new }
        ensures number { (known pass.new).number ≡ (known pass.old).number }
        ensures legal { O.is_legal (known pass.new).seen }
        ensures found { IfFound result (λ found.
            Calls O.caller_of (λ before made. O.finds before ask found made) (known pass.old) (known pass.new)) }
        ensures silent { OnSilent result (Looks (λ seen. O.lacks seen ask) (known pass.old) (known pass.new)) }
        ensures silent_only_at_bell { OnSilent result (HasRisen (B.silences bell.old) (B.silences bell.new)) }
        ensures bell { B.silences bell.old ≤ B.silences bell.new }
    {
        for _ in rt.forever() {
            if let Some(found) = self.poll(rt, pass, ask) {
                return Waited::Found(found);
            }
            match bell.wait() {
                Woken::Rung => {}
                Woken::Silent => return Waited::Silent,
            }
        }
        unreachable!()
    }
}

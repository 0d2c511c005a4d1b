// Calls and questions of a pass at its gate.
ghost use Rattle.std.specs.Prelude.{◌≡◌, ◌+◌, length};
ghost use Rattle.parked_gate.specs.Passes.{known, IsPassOf, Calls, Looks};

use crate::gate::Gate;
use crate::object::Object;
use crate::pass::Pass;
use std::sync::Wait;

impl<O: Object> Gate<O> {
    /// Makes a call of the object, when the pass's turn has come.
    pub fn call<R: Wait>(&self, rt: &R, pass: &mut Pass<O>, call: O::Call) -> O::Reply
        requires pass { IsPassOf self.now pass.old }
        requires may { O.may call }
        ensures pass { IsPassOf self.now pass.new }
        ensures number { (known pass.new).number ≡ (known pass.old).number }
        ensures legal { O.is_legal (known pass.new).seen }
        ensures called { Calls O.caller_of (λ before made. O.replies before call result made) (known pass.old) (known pass.new) }
        ensures learns_once { length (known pass.new).learnt ≡ length (known pass.old).learnt + 1 }
    {
        let before = self.begin(rt, &mut pass.seat);
        let (reply, after) = self.run(&mut pass.seat, pass.number, call);
        self.finish(&mut pass.seat, before, after);
        pass.length = after;
        reply
    }

    /// Asks the object a question, when the pass's turn has come.
    pub fn look<R: Wait>(&self, rt: &R, pass: &mut Pass<O>, question: &O::Question) -> O::Answer
        requires { IsPassOf self.now pass.old }
        ensures pass { IsPassOf self.now pass.new }
        ensures number { (known pass.new).number ≡ (known pass.old).number }
        ensures legal { O.is_legal (known pass.new).seen }
        ensures looked { Looks (λ seen. O.answers seen question.now result) (known pass.old) (known pass.new) }
        ensures learns_once { length (known pass.new).learnt ≡ length (known pass.old).learnt + 1 }
    {
        let before = self.begin(rt, &mut pass.seat);
        let (answer, after) = self.view(&mut pass.seat, question);
        self.finish(&mut pass.seat, before, after);
        pass.length = after;
        answer
    }
}

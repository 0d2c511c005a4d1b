// Passes are split off and joined.
ghost use Rattle.std.specs.Prelude.{◌≡◌, ◌≢◌, [], IfSome};
ghost use Rattle.parked_gate.specs.Histories.{StartsWith, longer};
ghost use Rattle.parked_gate.specs.Passes.{known, IsLegalPass, IsPassOf};

use crate::gate::Gate;
use crate::law::Part;
use crate::object::Object;
use crate::pass::Pass;
use std::sync::Wait;

impl<O: Object> Gate<O> {
    /// A pass with a number that no other pass of the gate has had, which has seen as much. Once 4,294,967,295 passes
    /// were made it waits without end.
    pub fn split<R: Wait>(&self, rt: &R, pass: &mut Pass<O>) -> Pass<O>
        requires { IsPassOf self.now pass.old }
        ensures old_pass { IsPassOf self.now pass.new }
        ensures old_same { known pass.new ≡ known pass.old }
        ensures pass { IsPassOf self.now result }
        ensures number { (known result).number ≢ (known pass.old).number }
        ensures seen { (known result).seen ≡ (known pass.old).seen }
        ensures mine { (known result).mine ≡ [] }
        ensures learnt { (known result).learnt ≡ [] }
        ensures legal { IsLegalPass result }
    {
        let number = self.draw_number(rt, &mut pass.seat);
        let seat = self.table.shared.split_seat::<Part>(&mut pass.seat);
        Pass {
            seat,
            number,
            length: pass.length,
        }
    }

    /// The same without waiting for anybody. It answers none where other passes were split off at each of its tries, or once
    /// 4,294,967,295 passes were made.
    pub fn try_split(&self, pass: &mut Pass<O>) -> Option<Pass<O>>
        requires { IsPassOf self.now pass.old }
        ensures old_pass { IsPassOf self.now pass.new }
        ensures old_same { known pass.new ≡ known pass.old }
        ensures pass { IfSome result (λ new. IsPassOf self.now new) }
        ensures number { IfSome result (λ new. (known new).number ≢ (known pass.old).number) }
        ensures seen { IfSome result (λ new. (known new).seen ≡ (known pass.old).seen) }
        ensures mine { IfSome result (λ new. (known new).mine ≡ []) }
        ensures learnt { IfSome result (λ new. (known new).learnt ≡ []) }
        ensures legal { IfSome result (λ new. IsLegalPass new) }
    {
        let number = self.try_number(&mut pass.seat)?;
        let newcomer = self.table.shared.split_seat::<Part>(&mut pass.seat);
        Some(Pass {
            seat: newcomer,
            number,
            length: pass.length,
        })
    }

    /// A pass has then seen what another one has too. That one stays as it is.
    pub fn share(&self, with: &mut Pass<O>, from: &mut Pass<O>)
        requires with { IsPassOf self.now with.old }
        requires from { IsPassOf self.now from.old }
        ensures pass { IsPassOf self.now with.new }
        ensures from_pass { IsPassOf self.now from.new }
        ensures from_same { known from.new ≡ known from.old }
        ensures longer { known with.new ≡ record (known with.old) { seen = longer (known with.old).seen (known from.old).seen } }
        ensures begins_with_this { StartsWith (known with.new).seen (known with.old).seen }
        ensures begins_with_other { StartsWith (known with.new).seen (known from.old).seen }
        ensures legal { IsLegalPass with.new }
    {
        let part = self.table.shared.split_seat::<Part>(&mut from.seat);
        self.meet(&mut with.seat, part);
        with.length = with.length.max(from.length);
    }

    /// Joins a pass to another one, which has then seen what either had. The joined number is never used again.
    pub fn join(&self, into: &mut Pass<O>, other: Pass<O>)
        requires into { IsPassOf self.now into.old }
        requires other { IsPassOf self.now other }
        ensures pass { IsPassOf self.now into.new }
        ensures longer { known into.new ≡ record (known into.old) { seen = longer (known into.old).seen (known other).seen } }
        ensures begins_with_this { StartsWith (known into.new).seen (known into.old).seen }
        ensures begins_with_other { StartsWith (known into.new).seen (known other).seen }
        ensures numbers { (known other).number ≢ (known into.old).number }
        ensures legal { IsLegalPass into.new }
    {
        let Pass {
            seat,
            number: _,
            length,
        } = other;
        self.meet(&mut into.seat, seat);
        into.length = into.length.max(length);
    }
}

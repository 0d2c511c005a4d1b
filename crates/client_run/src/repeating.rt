// A request is carried, and where its answer asks for others again, so is a copy of each of them.
ghost use Rattle.std.specs.Prelude.{◌≡◌, ◌≤◌, ℕ, List, [], ◌∷◌, IfOk, IfSome, None, Some};
ghost use Rattle.std.specs.Option.{SomeIff, option_map};
ghost use Rattle.parked_gate.specs.Passes.{IsPassOf, known};
ghost use Rattle.client_run.specs.Worked.{CarriesBy, CarriesUpTo, ServesBy};
ghost use Rattle.client_run.specs.Working.{Moves, Row, Side, holding, ids_between, no_hand, no_row, owing, setting_of, side_of, wire_of};

use crate::asking::copy_of;
use crate::carrying::{Carried, Halt, carry};
use crate::line::Line;
use crate::object::ClientObject;
use crate::site::Site;
use bosh_ports::Bell;
use bosh_types::{Rid, SharedText};
use parked_gate::Pass;
use server_ports::{Clock, Network};
use std::alloc::AllocError;
use std::sync::Wait;

/// Carries a request, and where its answer is an error, a copy of each request that is asked for again, as long as one is. It gives up
/// where one of them is given up. The only error is want of memory.
pub(crate) fn carry_all<R: Wait, N: Network, C: Clock, B: Bell>(
    rt: &R,
    site: &Site<'_, C>,
    pass: &mut Pass<ClientObject>,
    network: &mut N,
    bell: &mut B,
    line: &mut Option<Line<N::Link>>,
    rid: Rid,
    body: &SharedText,
) -> Result<Option<Halt>, AllocError>
where
    N::Link: Drop,
    requires pass { IsPassOf site.now.gate.now pass.old }
    requires faultless { IfSome line.old (λ line. N.Link.faults line.link ≡ 0) }
    ensures pass { IsPassOf site.now.gate.now pass.new }
    ensures serves { (start : Side)
        → Moves (setting_of (C.moment site.now.clock.now) site.now.port) start (side_of (known pass.old) (N.events network.old) (N.counts network.old)
        (option_map (λ line. wire_of (N.Link.left line.link) (N.Link.given line.link) line.reader) line.old) (holding rid body.now []) no_row)
        → ServesBy (setting_of (C.moment site.now.clock.now) site.now.port) start
        (side_of (known pass.new) (N.events network.new) (N.counts network.new)
        (option_map (λ line. wire_of (N.Link.left line.link) (N.Link.given line.link) line.reader) line.new) no_hand no_row) result }
    ensures faultless { IfSome line.new (λ line. N.Link.faults line.link ≡ 0) }
    ensures silences { B.silences bell.old ≤ B.silences bell.new }
{
    let carried = match carry(rt, site, pass, network, bell, line, rid, body) {
        Ok(carried) => carried,
        Err(AllocError) => return Err(AllocError),
    };
    match carried {
        Carried::Taken => Ok(None),
        Carried::Again { first, .. } => {
            carry_copies(rt, site, pass, network, bell, line, first, rid)
        }
        Carried::Halted(halt) => Ok(Some(halt)),
    }
}

// Carries a copy of each request from the first id to the last that has one, in order. Where the answer to one of them is an error,
// it goes on from the first id that this asks for.
fn carry_copies<R: Wait, N: Network, C: Clock, B: Bell>(
    rt: &R,
    site: &Site<'_, C>,
    pass: &mut Pass<ClientObject>,
    network: &mut N,
    bell: &mut B,
    line: &mut Option<Line<N::Link>>,
    first: Rid,
    last: Rid,
) -> Result<Option<Halt>, AllocError>
where
    N::Link: Drop,
    requires pass { IsPassOf site.now.gate.now pass.old }
    requires faultless { IfSome line.old (λ line. N.Link.faults line.link ≡ 0) }
    ensures pass { IsPassOf site.now.gate.now pass.new }
    ensures serves { (start : Side) (row : Row)
        → Moves (setting_of (C.moment site.now.clock.now) site.now.port) start (side_of (known pass.old) (N.events network.old) (N.counts network.old)
        (option_map (λ line. wire_of (N.Link.left line.link) (N.Link.given line.link) line.reader) line.old) (owing (ids_between first last)) row)
        → ServesBy (setting_of (C.moment site.now.clock.now) site.now.port) start
        (side_of (known pass.new) (N.events network.new) (N.counts network.new)
        (option_map (λ line. wire_of (N.Link.left line.link) (N.Link.given line.link) line.reader) line.new) no_hand no_row) result }
    ensures faultless { IfSome line.new (λ line. N.Link.faults line.link ≡ 0) }
    ensures silences { B.silences bell.old ≤ B.silences bell.new }
{
    let mut next = first.value();
    for _ in rt.forever() {
        let rid = match id_up_to(next, last) {
            Some(rid) => rid,
            None => return Ok(None),
        };
        let carried = match carry_copy(rt, site, pass, network, bell, line, rid) {
            Ok(carried) => carried,
            Err(AllocError) => return Err(AllocError),
        };
        match carried {
            Carried::Taken => next = rid.value() + 1,
            Carried::Again { first, .. } => next = first.value(),
            Carried::Halted(halt) => return Ok(Some(halt)),
        }
    }
    unreachable!()
}

// This number as an id, where it isn't above the last.
fn id_up_to(next: u64, last: Rid) -> Option<Rid>
    ensures { 1 ≤ next → SomeIff result (next ≤ last) next }
{
    if next > last.value() {
        return None;
    }
    Rid::new(next)
}

// Carries a copy of the request with this id. Where it has none, its answer was taken.
fn carry_copy<R: Wait, N: Network, C: Clock, B: Bell>(
    rt: &R,
    site: &Site<'_, C>,
    pass: &mut Pass<ClientObject>,
    network: &mut N,
    bell: &mut B,
    line: &mut Option<Line<N::Link>>,
    rid: Rid,
) -> Result<Carried, AllocError>
where
    N::Link: Drop,
    requires pass { IsPassOf site.now.gate.now pass.old }
    requires faultless { IfSome line.old (λ line. N.Link.faults line.link ≡ 0) }
    ensures pass { IsPassOf site.now.gate.now pass.new }
    ensures carries { (start : Side) (again : List ℕ) (row : Row)
        → Moves (setting_of (C.moment site.now.clock.now) site.now.port) start (side_of (known pass.old) (N.events network.old) (N.counts network.old)
        (option_map (λ line. wire_of (N.Link.left line.link) (N.Link.given line.link) line.reader) line.old) (owing (rid ∷ again)) row)
        → CarriesBy (setting_of (C.moment site.now.clock.now) site.now.port) start
        (side_of (known pass.new) (N.events network.new) (N.counts network.new)
        (option_map (λ line. wire_of (N.Link.left line.link) (N.Link.given line.link) line.reader) line.new) (owing again) no_row) result }
    ensures names { IfOk result (CarriesUpTo rid) }
    ensures faultless { IfSome line.new (λ line. N.Link.faults line.link ≡ 0) }
    ensures silences { B.silences bell.old ≤ B.silences bell.new }
{
    let copy = match copy_of(rt, site.gate, pass, rid) {
        Ok(copy) => copy,
        Err(AllocError) => return Err(AllocError),
    };
    let body = match copy {
        Some(body) => body,
        None => return Ok(Carried::Taken),
    };
    let body = match SharedText::new(site.alloc, body) {
        Ok(body) => body,
        Err(AllocError) => return Err(AllocError),
    };
    carry(rt, site, pass, network, bell, line, rid, &body)
}

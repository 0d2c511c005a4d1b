// What is handed out after talking has ended is written as it comes, until the workers have ended too.
ghost use Rattle.std.specs.Prelude.{◌≡◌, ◌≢◌, ◌≤◌, ℕ, List, Ok, Option, true};
ghost use Rattle.bosh_ports.specs.Faults.{HasRisen};
ghost use Rattle.parked_gate.specs.Passes.{IsPassOf, Known, known};
ghost use Rattle.client_run.specs.declared.entry.Entry.{Entry};
ghost use Rattle.client_run.specs.Adding.{AddsOnly, is_hand_out};
ghost use Rattle.client_run.specs.Attending.{is_attend_whole};
ghost use Rattle.client_run.specs.Handed.{Handed, is_write_whole};
ghost use Rattle.client_run.specs.Handing.{Out, out_of};
ghost use Rattle.client_run.specs.Lingering.{LingersBy, is_linger_whole};
ghost use Rattle.client_run.specs.Queueing.{GoesFurther};
ghost use Rattle.client_run.specs.Ran.{ConversesBy};
ghost use Rattle.client_run.specs.Running.{is_done};

use crate::attending::Attended;
use crate::draining::{Written, drain};
use crate::ends::{Ends, Naming};
use crate::object::ClientObject;
use crate::queueing::terminate;
use bosh_ports::{Bell, BellKey, Sink};
use parked_gate::{Gate, Pass};
use server_ports::Network;
use std::alloc::AllocError;
use std::sync::Wait;

/// Writes what the client hands out, as soon as it comes, until both workers have ended. How talking ended stays, but where it ended
/// well and the sink fails now.
pub(crate) fn linger<J, R, K, N, B>(
    rt: &R,
    gate: &Gate<ClientObject>,
    pass: &mut Pass<ClientObject>,
    sink: &mut K,
    bell: &mut B,
    ends: &Ends<J, N>,
    talked: Result<Attended, AllocError>,
) -> Result<Attended, AllocError>
where
    J: Naming,
    R: Wait,
    K: Sink,
    N: Network + Drop,
    B: Bell,
    requires { IsPassOf gate.now pass.old }
    ensures pass { IsPassOf gate.now pass.new }
    ensures lingers { (input : Option (List ℕ)) (start : Known Entry) (reads later writes : ℕ) → writes ≤ K.faults sink.old
        → GoesFurther start (known pass.old) → ConversesBy input start (known pass.old) reads later writes (K.faults sink.old) talked → LingersBy input start (known pass.new) reads later writes (K.faults sink.new) result }
    ensures written { (start : Out) (faults : ℕ) → faults ≤ K.faults sink.old
        → Handed (is_attend_whole talked) start (out_of (known pass.old) (K.given sink.old)) faults (K.faults sink.old)
        → Handed (is_linger_whole result) start (out_of (known pass.new) (K.given sink.new)) faults (K.faults sink.new) }
    ensures sink_faults { K.faults sink.old ≤ K.faults sink.new }
{
    let talked = match talked {
        Ok(talked) => talked,
        Err(AllocError) => return Err(AllocError),
    };
    match talked {
        Attended::Done => outlast(rt, gate, pass, sink, bell, ends, Attended::Done),
        Attended::Stuck => outlast(rt, gate, pass, sink, bell, ends, Attended::Stuck),
        Attended::Bad { line } => {
            let _ = await_ends(rt, gate, pass, sink, bell, ends);
            Ok(Attended::Bad { line })
        }
        Attended::ReadFault => {
            let _ = await_ends(rt, gate, pass, sink, bell, ends);
            Ok(Attended::ReadFault)
        }
        Attended::WriteFault => Ok(Attended::WriteFault),
    }
}

// The same where talking ended well. Where the sink fails a terminate is queued.
fn outlast<J, R, K, N, B>(
    rt: &R,
    gate: &Gate<ClientObject>,
    pass: &mut Pass<ClientObject>,
    sink: &mut K,
    bell: &mut B,
    ends: &Ends<J, N>,
    talked: Attended,
) -> Result<Attended, AllocError>
where
    J: Naming,
    R: Wait,
    K: Sink,
    N: Network + Drop,
    B: Bell,
    requires pass { IsPassOf gate.now pass.old }
    requires well { is_done talked ≡ true }
    ensures pass { IsPassOf gate.now pass.new }
    ensures lingers { (input : Option (List ℕ)) (start : Known Entry) (reads later writes : ℕ) → writes ≤ K.faults sink.old
        → GoesFurther start (known pass.old) → ConversesBy input start (known pass.old) reads later writes (K.faults sink.old) (Ok talked) → LingersBy input start (known pass.new) reads later writes (K.faults sink.new) result }
    ensures written { (start : Out) (faults : ℕ) → faults ≤ K.faults sink.old
        → Handed (is_attend_whole (Ok talked)) start (out_of (known pass.old) (K.given sink.old)) faults (K.faults sink.old)
        → Handed (is_linger_whole result) start (out_of (known pass.new) (K.given sink.new)) faults (K.faults sink.new) }
    ensures sink_faults { K.faults sink.old ≤ K.faults sink.new }
{
    match await_ends(rt, gate, pass, sink, bell, ends) {
        Ok(Written::Done) => Ok(talked),
        Ok(Written::WriteFault) => {
            let _ = terminate(rt, gate, pass, bell);
            Ok(Attended::WriteFault)
        }
        Err(AllocError) => Err(AllocError),
    }
}

// Writes all that is handed out until both workers have ended.
fn await_ends<J, R, K, N, B>(
    rt: &R,
    gate: &Gate<ClientObject>,
    pass: &mut Pass<ClientObject>,
    sink: &mut K,
    bell: &mut B,
    ends: &Ends<J, N>,
) -> Result<Written, AllocError>
where
    J: Naming,
    R: Wait,
    K: Sink,
    N: Network + Drop,
    B: Bell,
    requires { IsPassOf gate.now pass.old }
    ensures pass { IsPassOf gate.now pass.new }
    ensures adds { AddsOnly is_hand_out (known pass.old) (known pass.new) }
    ensures handed { Handed (is_write_whole result) (out_of (known pass.old) (K.given sink.old)) (out_of (known pass.new) (K.given sink.new)) (K.faults sink.old) (K.faults sink.new) }
    ensures fault { result ≡ Ok Written.WriteFault → HasRisen (K.faults sink.old) (K.faults sink.new) }
    ensures counts { result ≢ Ok Written.WriteFault → K.faults sink.new ≡ K.faults sink.old }
    ensures faults { K.faults sink.old ≤ K.faults sink.new }
{
    for _ in rt.forever() {
        bell.tune(BellKey::PUMP);
        let have_ended = ends.has_both(rt);
        match drain(rt, gate, pass, sink) {
            Ok(Written::Done) => {}
            Ok(Written::WriteFault) => return Ok(Written::WriteFault),
            Err(AllocError) => return Err(AllocError),
        }
        if have_ended {
            return Ok(Written::Done);
        }
        bell.wait();
    }
    unreachable!()
}

// What a client hands out is written.
ghost use Rattle.std.specs.Prelude.{◌≡◌, ◌≤◌, ◌≢◌, ℕ, List, OnErr, OnOk, Ok, Option};
ghost use Rattle.bosh_ports.specs.Faults.{HasRisen};
ghost use Rattle.bosh_ports.specs.Sink.{GivesAll};
ghost use Rattle.parked_gate.specs.Passes.{IsPassOf, known};
ghost use Rattle.client_run.specs.Adding.{AddsOnly, is_hand_out};
ghost use Rattle.client_run.specs.Handing.{Drains, HandsOut, HasStanza, IsStanzaOf, line_of, out_of};

use crate::call::{Call, Reply};
use crate::object::ClientObject;
use bosh_ports::{Sink, WriteFault, give_all};
use bosh_types::{StreamNo, Text};
use parked_gate::{Gate, Pass};
use std::alloc::AllocError;
use std::sync::Wait;

/// How writing ended.
#[derive(Clone, Copy, Debug, PartialEq, Eq)]
pub enum Written {
    /// Nothing was left to be handed out.
    Done,
    /// The sink failed.
    WriteFault,
}

/// Writes all that the client hands out, each stanza as a line, one before the next is asked for. The only error is want of
/// memory.
pub fn drain<R: Wait, K: Sink>(
    rt: &R,
    gate: &Gate<ClientObject>,
    pass: &mut Pass<ClientObject>,
    sink: &mut K,
) -> Result<Written, AllocError>
    requires { IsPassOf gate.now pass.old }
    ensures pass { IsPassOf gate.now pass.new }
    ensures drains { Drains (out_of (known pass.old) (K.given sink.old)) (out_of (known pass.new) (K.given sink.new)) result }
    ensures fault { result ≡ Ok Written.WriteFault → HasRisen (K.faults sink.old) (K.faults sink.new) }
    ensures counts { result ≢ Ok Written.WriteFault → K.faults sink.new ≡ K.faults sink.old }
    ensures faults { K.faults sink.old ≤ K.faults sink.new }

    // What it added to its own entries is what it handed out.
    ensures adds { AddsOnly is_hand_out (known pass.old) (known pass.new) }
{
    write_out(rt, gate, pass, sink)
}

// The same, said by what was handed out alone.
fn write_out<R: Wait, K: Sink>(
    rt: &R,
    gate: &Gate<ClientObject>,
    pass: &mut Pass<ClientObject>,
    sink: &mut K,
) -> Result<Written, AllocError>
    requires { IsPassOf gate.now pass.old }
    ensures pass { IsPassOf gate.now pass.new }
    ensures drains { Drains (out_of (known pass.old) (K.given sink.old)) (out_of (known pass.new) (K.given sink.new)) result }
    ensures fault { result ≡ Ok Written.WriteFault → HasRisen (K.faults sink.old) (K.faults sink.new) }
    ensures counts { result ≢ Ok Written.WriteFault → K.faults sink.new ≡ K.faults sink.old }
    ensures faults { K.faults sink.old ≤ K.faults sink.new }
{
    for _ in rt.forever() {
        let payload = match hand_out(rt, gate, pass) {
            Ok(payload) => payload,
            Err(AllocError) => return Err(AllocError),
        };
        let stanza = match payload {
            Some(stanza) => stanza,
            None => return Ok(Written::Done),
        };
        match give_line(sink, stanza.as_slice()) {
            Ok(()) => {}
            Err(WriteFault) => return Ok(Written::WriteFault),
        }
    }
    unreachable!()
}

// Asks for the next stanza. The only error is want of memory.
fn hand_out<R: Wait>(
    rt: &R,
    gate: &Gate<ClientObject>,
    pass: &mut Pass<ClientObject>,
) -> Result<Option<Text>, AllocError>
    requires { IsPassOf gate.now pass.old }
    ensures pass { IsPassOf gate.now pass.new }
    ensures hands { HandsOut (known pass.old) (known pass.new) result }
{
    let reply = gate.call(rt, pass, Call::HandOut)?;
    Ok(stanza_in(reply))
}

// The stanza of a payload, on whatever stream it lies.
fn stanza_in(reply: Reply) -> Option<Text>
    requires { (payload : Option (ℕ × List ℕ)) × (reply ≡ Reply.HandOut payload) }
    ensures { HasStanza reply result }
{
    match reply {
        Reply::HandOut(payload) => stanza_of(payload),
        Reply::Queued(_) => unreachable!(),
        Reply::Next(_) => unreachable!(),
        Reply::Answered(_) => unreachable!(),
    }
}

fn stanza_of(payload: Option<(StreamNo, Text)>) -> Option<Text>
    ensures { IsStanzaOf payload result }
{
    match payload {
        Some((_, stanza)) => Some(stanza),
        None => None,
    }
}

// Gives a stanza, and LF after it.
fn give_line<K: Sink>(sink: &mut K, stanza: &[u8]) -> Result<(), WriteFault>
    ensures given { GivesAll result (K.given sink.old) (K.given sink.new) (line_of stanza.now) }
    ensures fault { OnErr result (HasRisen (K.faults sink.old) (K.faults sink.new)) }
    ensures counts { OnOk result (K.faults sink.new ≡ K.faults sink.old) }
    ensures faults { K.faults sink.old ≤ K.faults sink.new }
{
    match give_all(sink, stanza) {
        Ok(()) => give_all(sink, b"\n"),
        Err(WriteFault) => Err(WriteFault),
    }
}

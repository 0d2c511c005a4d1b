// How a server ends that ends with its input.
ghost use Rattle.std.specs.Prelude.{◌≡◌, ◌≢◌, [], ◌∷◌, Contains, false, true};
ghost use Rattle.std.specs.Io.KnownBytes.{Appends};
ghost use Rattle.bosh_ports.specs.Faults.{HasRisen};
ghost use Rattle.bosh_commands.specs.ServeCommand.{served_line};

use crate::run::{DONE, READ_FAULT};
use crate::serve_command::tell_served;
use bosh_ports::{Got, Sink};
use client_run::Ready;
use std::alloc::Global;
use std::sync::Wait;

// Tells how many links were served, and answers with a fault of the input where the server was to end with that.
pub(crate) fn tell_end<R: Wait, I: Ready, K: Sink>(
    rt: &R,
    alloc: Global,
    until_eof: bool,
    input: &mut I,
    sink: &mut K,
    links: u32,
) -> u8
    ensures statuses { Contains (0 ∷ 4 ∷ 5 ∷ 6 ∷ []) result }
    ensures given { result ≡ 0 → Appends (K.given sink.old) (K.given sink.new) (served_line links) }
    ensures given_too { result ≡ 4 → Appends (K.given sink.old) (K.given sink.new) (served_line links) }
    ensures fault { result ≡ 5 → HasRisen (K.faults sink.old) (K.faults sink.new) }
    ensures counts { result ≢ 5 → K.faults sink.new ≡ K.faults sink.old }
    ensures read_fault { result ≡ 4 → HasRisen (I.faults input.old) (I.faults input.new) }
    ensures read_counts { result ≢ 4 → I.faults input.new ≡ I.faults input.old }
    ensures unread { until_eof ≡ false → input.new ≡ input.old }
{
    let told = tell_served(alloc, sink, links);
    if told != DONE {
        return told;
    }
    if !until_eof {
        return DONE;
    }
    if has_failed(rt, input) {
        return READ_FAULT;
    }
    DONE
}

// Whether the input has failed. One that has not come to its end, since the server ended before, is not waited for.
fn has_failed<R: Wait, I: Ready>(rt: &R, input: &mut I) -> bool
    ensures failed { result ≡ true → HasRisen (I.faults input.old) (I.faults input.new) }
    ensures counts { result ≡ false → I.faults input.new ≡ I.faults input.old }
{
    let mut room = [0u8; 512];
    for _ in rt.forever() {
        if !input.is_ready() {
            return false;
        }
        match input.take(&mut room) {
            Got::Bytes(_) => {}
            Got::End => return false,
            Got::Failed => return true,
        }
    }
    unreachable!()
}

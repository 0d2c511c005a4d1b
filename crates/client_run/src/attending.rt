// Lines are put to a client, and what it hands out is written as it comes, whether a line came or not.
ghost use Rattle.std.specs.Prelude.{◌≡◌, ◌≢◌, ◌≤◌, ◌<◌, true, [], IfOk, IsTrue, Ok, Some};
ghost use Rattle.std.specs.Io.KnownBytes.{prepend_known};
ghost use Rattle.bosh_ports.specs.Faults.{HasRisen};
ghost use Rattle.bosh_types.specs.Limits.{most_lines};
ghost use Rattle.body_cutter.specs.Cutting.{is_stanza};
ghost use Rattle.parked_gate.specs.Passes.{IsPassOf, known};
ghost use Rattle.client_run.specs.Attending.{AttendsBy, HoldsBy, Speaking, TurnedBy, ended_by, is_attend_whole, is_held_whole, is_turn_whole};
ghost use Rattle.client_run.specs.Handed.{Handed, is_write_whole};
ghost use Rattle.client_run.specs.Handing.{out_of};

use crate::draining::{Written, drain};
use crate::ends::{Ends, Naming};
use crate::object::ClientObject;
use crate::queueing::{offer, terminate};
use crate::ready::Ready;
use crate::talking::{Input, next_input};
use bosh_client::Queued;
use bosh_ports::{Bell, BellKey, Sink, Source};
use bosh_types::limits::MOST_LINES;
use line_reader::{LineReader, ReadError};
use parked_gate::{Gate, Pass};
use server_ports::Network;
use std::alloc::{AllocError, Global};
use std::sync::Wait;

/// How attending to an input and an output ended.
#[derive(Clone, Copy, Debug, PartialEq, Eq)]
pub(crate) enum Attended {
    /// The input came to its end, or the client takes no more.
    Done,
    /// This line of the input is the first that is no stanza, or it is the 1,000,001st.
    Bad { line: u64 },
    /// The source failed.
    ReadFault,
    /// The sink failed.
    WriteFault,
    /// The queue was full, and a worker has ended, so that nobody empties it.
    Stuck,
}

/// Puts each line of the input as `talk` does, and writes what the client hands out as soon as it comes: it waits at the bell for a
/// line or for a stanza, whichever is first. Where the queue is full it waits there too, unless a worker has ended. The only error is
/// want of memory.
pub(crate) fn attend<J, R, S, K, N, B>(
    rt: &R,
    alloc: Global,
    gate: &Gate<ClientObject>,
    pass: &mut Pass<ClientObject>,
    source: &mut S,
    sink: &mut K,
    bell: &mut B,
    ends: &Ends<J, N>,
) -> Result<Attended, AllocError>
where
    J: Naming,
    R: Wait,
    S: Source + Ready,
    K: Sink,
    N: Network + Drop,
    B: Bell,
    requires { IsPassOf gate.now pass.old }
    ensures pass { IsPassOf gate.now pass.new }
    ensures attends { AttendsBy (S.left source.old) (known pass.old) (known pass.new) result }
    ensures handed { Handed (is_attend_whole result) (out_of (known pass.old) (K.given sink.old)) (out_of (known pass.new) (K.given sink.new)) (K.faults sink.old) (K.faults sink.new) }
    ensures read_fault { result ≡ Ok Attended.ReadFault → HasRisen (S.faults source.old) (S.faults source.new) }
    ensures no_read_fault { result ≢ Ok Attended.ReadFault → S.faults source.new ≡ S.faults source.old }
    ensures write_fault { result ≡ Ok Attended.WriteFault → HasRisen (K.faults sink.old) (K.faults sink.new) }
    ensures no_write_fault { result ≢ Ok Attended.WriteFault → K.faults sink.new ≡ K.faults sink.old }
    ensures sink_faults { K.faults sink.old ≤ K.faults sink.new }
{
    let mut reader = match LineReader::new(alloc) {
        Ok(reader) => reader,
        Err(AllocError) => return Err(AllocError),
    };
    let mut lines: u64 = 0;
    for _ in rt.forever() {
        let line = lines + 1;
        match turn(
            rt,
            alloc,
            gate,
            pass,
            &mut reader,
            source,
            sink,
            bell,
            ends,
            line,
        ) {
            Ok(None) => lines = line,
            Ok(Some(attended)) => return Ok(attended),
            Err(AllocError) => return Err(AllocError),
        }
    }
    unreachable!()
}

// The next line, which has this number: none where the line after it is next.
fn turn<J, R, S, K, N, B>(
    rt: &R,
    alloc: Global,
    gate: &Gate<ClientObject>,
    pass: &mut Pass<ClientObject>,
    reader: &mut LineReader,
    source: &mut S,
    sink: &mut K,
    bell: &mut B,
    ends: &Ends<J, N>,
    line: u64,
) -> Result<Option<Attended>, AllocError>
where
    J: Naming,
    R: Wait,
    S: Source + Ready,
    K: Sink,
    N: Network + Drop,
    B: Bell,
    requires { IsPassOf gate.now pass.old }
    ensures pass { IsPassOf gate.now pass.new }
    ensures turns { TurnedBy line (known pass.old) (known pass.new) (prepend_known reader.old (S.left source.old)) (prepend_known reader.new (S.left source.new)) result }
    ensures handed { Handed (is_turn_whole result) (out_of (known pass.old) (K.given sink.old)) (out_of (known pass.new) (K.given sink.new)) (K.faults sink.old) (K.faults sink.new) }
    ensures read_fault { result ≡ Ok (Some Attended.ReadFault) → HasRisen (S.faults source.old) (S.faults source.new) }
    ensures no_read_fault { result ≢ Ok (Some Attended.ReadFault) → S.faults source.new ≡ S.faults source.old }
    ensures write_fault { result ≡ Ok (Some Attended.WriteFault) → HasRisen (K.faults sink.old) (K.faults sink.new) }
    ensures no_write_fault { result ≢ Ok (Some Attended.WriteFault) → K.faults sink.new ≡ K.faults sink.old }
    ensures sink_faults { K.faults sink.old ≤ K.faults sink.new }
{
    match await_input(rt, gate, pass, source, sink, bell) {
        Ok(Written::Done) => {}
        Ok(Written::WriteFault) => return Ok(Some(Attended::WriteFault)),
        Err(AllocError) => return Err(AllocError),
    }
    let input = match next_input(alloc, reader, source) {
        Ok(input) => input,
        Err(ReadError::ReadFault) => return Ok(Some(Attended::ReadFault)),
        Err(ReadError::NoMemory) => return Err(AllocError),
    };
    let stanza = match input {
        Input::Stanza(stanza) => stanza,
        Input::Other => return Ok(Some(Attended::Bad { line })),
        Input::End => return match terminate(rt, gate, pass, bell) {
            Ok(_) => Ok(Some(Attended::Done)),
            Err(AllocError) => Err(AllocError),
        },
    };
    if line > MOST_LINES {
        return Ok(Some(Attended::Bad { line }));
    }
    match hold(rt, alloc, gate, pass, sink, bell, ends, stanza.as_slice()) {
        Ok(held) => Ok(ended_by(held)),
        Err(AllocError) => Err(AllocError),
    }
}

// Writes all that is handed out until the source would not wait.
fn await_input<R: Wait, S: Source + Ready, K: Sink, B: Bell>(
    rt: &R,
    gate: &Gate<ClientObject>,
    pass: &mut Pass<ClientObject>,
    source: &S,
    sink: &mut K,
    bell: &mut B,
) -> Result<Written, AllocError>
    requires { IsPassOf gate.now pass.old }
    ensures pass { IsPassOf gate.now pass.new }
    ensures said { Speaking (known pass.old) (known pass.new) [] }
    ensures handed { Handed (is_write_whole result) (out_of (known pass.old) (K.given sink.old)) (out_of (known pass.new) (K.given sink.new)) (K.faults sink.old) (K.faults sink.new) }
    ensures fault { result ≡ Ok Written.WriteFault → HasRisen (K.faults sink.old) (K.faults sink.new) }
    ensures counts { result ≢ Ok Written.WriteFault → K.faults sink.new ≡ K.faults sink.old }
    ensures faults { K.faults sink.old ≤ K.faults sink.new }
{
    for _ in rt.forever() {
        bell.tune(BellKey::PUMP);
        match drain(rt, gate, pass, sink) {
            Ok(Written::Done) => {}
            Ok(Written::WriteFault) => return Ok(Written::WriteFault),
            Err(AllocError) => return Err(AllocError),
        }
        if source.is_ready() {
            return Ok(Written::Done);
        }
        bell.wait();
    }
    unreachable!()
}

// What came of a line.
#[derive(Clone, Copy)]
pub(crate) enum Held {
    // It was put.
    Done,
    // The client takes no more.
    Over,
    WriteFault,
    // The queue was full, and a worker has ended.
    Stuck,
}

// How what came of a line ends it.
fn ended_by(held: Held) -> Option<Attended>
    ensures { result ≡ ended_by held }
{
    match held {
        Held::Done => None,
        Held::Over => Some(Attended::Done),
        Held::WriteFault => Some(Attended::WriteFault),
        Held::Stuck => Some(Attended::Stuck),
    }
}

// Puts a stanza once there is room for it, and writes meanwhile what is handed out.
fn hold<J, R, K, N, B>(
    rt: &R,
    alloc: Global,
    gate: &Gate<ClientObject>,
    pass: &mut Pass<ClientObject>,
    sink: &mut K,
    bell: &mut B,
    ends: &Ends<J, N>,
    stanza: &[u8],
) -> Result<Held, AllocError>
where
    J: Naming,
    R: Wait,
    K: Sink,
    N: Network + Drop,
    B: Bell,
    requires pass { IsPassOf gate.now pass.old }
    requires stanza { IsTrue (is_stanza stanza.now) }
    ensures pass { IsPassOf gate.now pass.new }
    ensures holds { HoldsBy stanza.now (known pass.old) (known pass.new) result }
    ensures handed { Handed (is_held_whole result) (out_of (known pass.old) (K.given sink.old)) (out_of (known pass.new) (K.given sink.new)) (K.faults sink.old) (K.faults sink.new) }
    ensures fault { result ≡ Ok Held.WriteFault → HasRisen (K.faults sink.old) (K.faults sink.new) }
    ensures counts { result ≢ Ok Held.WriteFault → K.faults sink.new ≡ K.faults sink.old }
    ensures faults { K.faults sink.old ≤ K.faults sink.new }
{
    for _ in rt.forever() {
        bell.tune(BellKey::PUMP);
        let has_ended = ends.has_one(rt);
        let queued = match offer(rt, alloc, gate, pass, stanza) {
            Ok(queued) => queued,
            Err(AllocError) => return Err(AllocError),
        };
        match queued {
            Queued::Done => {
                bell.ring(BellKey::PUMP);
                return Ok(Held::Done);
            }
            Queued::Over => return Ok(Held::Over),
            Queued::Full => {}
            Queued::NoStream => unreachable!(),
            Queued::TooLong => unreachable!(),
        }
        if has_ended {
            return Ok(Held::Stuck);
        }
        match drain(rt, gate, pass, sink) {
            Ok(Written::Done) => {}
            Ok(Written::WriteFault) => return Ok(Held::WriteFault),
            Err(AllocError) => return Err(AllocError),
        }
        bell.wait();
    }
    unreachable!()
}

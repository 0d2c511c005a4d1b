// Lines are put to a client, and what it hands out is written.
ghost use Rattle.std.specs.Prelude.{◌≡◌, ◌≢◌, ◌≤◌, ◌⊎◌, ℕ, List, [], length, IfOk, IfSome, IsErrOf, OnOk, Ok, Option, Some, IsTrue, ◌+◌};
ghost use Rattle.std.specs.Io.KnownBytes.{prepend_known};
ghost use Rattle.bosh_ports.specs.Faults.{HasRisen};
ghost use Rattle.bosh_types.specs.Limits.{most_lines};
ghost use Rattle.body_cutter.specs.Cutting.{is_stanza};
ghost use Rattle.parked_gate.specs.Passes.{IsPassOf, known};
ghost use Rattle.line_reader.specs.Lines.{lines_of};
ghost use Rattle.client_run.specs.Adding.{Adds, IsTalk};
ghost use Rattle.client_run.specs.Handing.{out_of};
ghost use Rattle.client_run.specs.Input.{IsFirstBad, PutsAll, TakesNoMore};
ghost use Rattle.client_run.specs.Talking.{EndsTalk, SaysBy, Takes, Talks, TurnsBy, ended_by, talk_of};
ghost use Rattle.client_run.specs.declared.talking.Input.TheVariants.{End};
ghost use Rattle.client_run.specs.declared.talking.Talked.TheVariants.{Bad};

use crate::draining::{Written, drain};
use crate::object::ClientObject;
use crate::queueing::{put, terminate};
use bosh_ports::{Bell, Sink, Source};
use bosh_types::Text;
use bosh_types::limits::MOST_LINES;
use line_reader::{LineReader, NextLine, ReadError};
use parked_gate::{Gate, Pass};
use session_attrs::is_stanza;
use std::alloc::{AllocError, Global};
use std::sync::Wait;

/// How talking to a client ended.
#[derive(Clone, Copy, Debug, PartialEq, Eq)]
pub enum Talked {
    /// The input came to its end, or the client takes no more.
    Done,
    /// This line of the input is the first that is no stanza, or it is the 1,000,001st.
    Bad { line: u64 },
    /// The source failed.
    ReadFault,
    /// The sink failed.
    WriteFault,
}

/// Puts each line of the input, and writes after each all that the client hands out. At the end of the input it queues a
/// terminate. Where the client's queue is full it waits at the bell. The only error is want of memory.
pub fn talk<R: Wait, S: Source, K: Sink, B: Bell>(
    rt: &R,
    alloc: Global,
    gate: &Gate<ClientObject>,
    pass: &mut Pass<ClientObject>,
    source: &mut S,
    sink: &mut K,
    bell: &mut B,
) -> Result<Talked, AllocError>
    requires { IsPassOf gate.now pass.old }
    ensures pass { IsPassOf gate.now pass.new }

    // Lines were put and followed by what was handed out, and it ended so.
    ensures talks { Talks (talk_of (out_of (known pass.old) (K.given sink.old)) (S.left source.old) [])
        (out_of (known pass.new) (K.given sink.new)) (S.left source.new) result }

    // What it added to its own entries is lines of the input, in order, what it handed out, and at the end a terminate.
    ensures adds { Adds (known pass.old) (known pass.new) (IsTalk (S.left source.old)) }

    // A bad line is the first one, where the input is told. It is done where all lines were put, or the client takes no more.
    ensures bad { (line : ℕ) → result ≡ Ok (Bad line) → IfSome (S.left source.old) (λ bytes. IsFirstBad (lines_of bytes) line) }
    ensures done { result ≡ Ok Talked.Done → PutsAll (S.left source.old) (known pass.old) (known pass.new) ⊎ TakesNoMore (known pass.new) }

    // A fault rises with the answer that names it, and with nothing else.
    ensures read_fault { result ≡ Ok Talked.ReadFault → HasRisen (S.faults source.old) (S.faults source.new) }
    ensures no_read_fault { result ≢ Ok Talked.ReadFault → S.faults source.new ≡ S.faults source.old }
    ensures source_faults { S.faults source.old ≤ S.faults source.new }
    ensures write_fault { result ≡ Ok Talked.WriteFault → HasRisen (K.faults sink.old) (K.faults sink.new) }
    ensures no_write_fault { result ≢ Ok Talked.WriteFault → K.faults sink.new ≡ K.faults sink.old }
    ensures sink_faults { K.faults sink.old ≤ K.faults sink.new }
    ensures silences { B.silences bell.old ≤ B.silences bell.new }
{
    speak(rt, alloc, gate, pass, source, sink, bell)
}

// The same, said by the lines that were put alone.
fn speak<R: Wait, S: Source, K: Sink, B: Bell>(
    rt: &R,
    alloc: Global,
    gate: &Gate<ClientObject>,
    pass: &mut Pass<ClientObject>,
    source: &mut S,
    sink: &mut K,
    bell: &mut B,
) -> Result<Talked, AllocError>
    requires { IsPassOf gate.now pass.old }
    ensures pass { IsPassOf gate.now pass.new }
    ensures talks { Talks (talk_of (out_of (known pass.old) (K.given sink.old)) (S.left source.old) [])
        (out_of (known pass.new) (K.given sink.new)) (S.left source.new) result }
    ensures read_fault { result ≡ Ok Talked.ReadFault → HasRisen (S.faults source.old) (S.faults source.new) }
    ensures no_read_fault { result ≢ Ok Talked.ReadFault → S.faults source.new ≡ S.faults source.old }
    ensures source_faults { S.faults source.old ≤ S.faults source.new }
    ensures write_fault { result ≡ Ok Talked.WriteFault → HasRisen (K.faults sink.old) (K.faults sink.new) }
    ensures no_write_fault { result ≢ Ok Talked.WriteFault → K.faults sink.new ≡ K.faults sink.old }
    ensures sink_faults { K.faults sink.old ≤ K.faults sink.new }
    ensures silences { B.silences bell.old ≤ B.silences bell.new }
{
    let mut reader = LineReader::new(alloc)?;
    let mut lines: u64 = 0;
    while lines < MOST_LINES {
        let line = lines + 1;
        match turn(rt, alloc, gate, pass, &mut reader, source, sink, bell, line) {
            Ok(None) => lines += 1,
            Ok(Some(talked)) => return Ok(talked),
            Err(AllocError) => return Err(AllocError),
        }
    }
    last(rt, alloc, gate, pass, &mut reader, source, bell)
}

// The next line, which has this number: none where the line after it is next.
#[tactic(auto, using(crate::proofs::TurnLemmas::turn_failed, crate::proofs::TurnLemmas::turn_wanting, crate::proofs::TurnLemmas::turn_bad, crate::proofs::TurnLemmas::turn_said, crate::proofs::TurnLemmas::turn_unsaid, crate::proofs::TurnLemmas::turn_closed, crate::proofs::TurnLemmas::turn_unclosed))]
fn turn<R: Wait, S: Source, K: Sink, B: Bell>(
    rt: &R,
    alloc: Global,
    gate: &Gate<ClientObject>,
    pass: &mut Pass<ClientObject>,
    reader: &mut LineReader,
    source: &mut S,
    sink: &mut K,
    bell: &mut B,
    line: u64,
) -> Result<Option<Talked>, AllocError>
    requires { IsPassOf gate.now pass.old }
    ensures pass { IsPassOf gate.now pass.new }
    ensures turns { (put : List (List ℕ)) → line ≡ length put + 1
        → TurnsBy (talk_of (out_of (known pass.old) (K.given sink.old)) (prepend_known reader.old (S.left source.old)) put)
        (talk_of (out_of (known pass.new) (K.given sink.new)) (prepend_known reader.new (S.left source.new)) put) result }
    ensures read_fault { result ≡ Ok (Some Talked.ReadFault) → HasRisen (S.faults source.old) (S.faults source.new) }
    ensures no_read_fault { result ≢ Ok (Some Talked.ReadFault) → S.faults source.new ≡ S.faults source.old }
    ensures source_faults { S.faults source.old ≤ S.faults source.new }
    ensures write_fault { result ≡ Ok (Some Talked.WriteFault) → HasRisen (K.faults sink.old) (K.faults sink.new) }
    ensures no_write_fault { result ≢ Ok (Some Talked.WriteFault) → K.faults sink.new ≡ K.faults sink.old }
    ensures sink_faults { K.faults sink.old ≤ K.faults sink.new }
    ensures silences { B.silences bell.old ≤ B.silences bell.new }
{
    let input = match next_input(alloc, reader, source) {
        Ok(input) => input,
        Err(ReadError::ReadFault) => return Ok(Some(Talked::ReadFault)),
        Err(ReadError::NoMemory) => return Err(AllocError),
    };
    let stanza = match input {
        Input::Stanza(stanza) => stanza,
        Input::Other => return Ok(Some(Talked::Bad { line })),
        Input::End => return match close(rt, gate, pass, bell) {
            Ok(talked) => Ok(Some(talked)),
            Err(AllocError) => Err(AllocError),
        },
    };
    match say(rt, alloc, gate, pass, sink, bell, stanza.as_slice()) {
        Ok(said) => Ok(ended_by(said)),
        Err(AllocError) => Err(AllocError),
    }
}

// How what came of a line ends it.
fn ended_by(said: Said) -> Option<Talked>
    ensures { result ≡ ended_by said }
{
    match said {
        Said::Done => None,
        Said::Over => Some(Talked::Done),
        Said::WriteFault => Some(Talked::WriteFault),
    }
}

// What comes after as many lines as there may be.
#[tactic(auto, unfolding(crate::specs::Talking::Takes, crate::specs::Talking::EndsTalk))]
fn last<R: Wait, S: Source, B: Bell>(
    rt: &R,
    alloc: Global,
    gate: &Gate<ClientObject>,
    pass: &mut Pass<ClientObject>,
    reader: &mut LineReader,
    source: &mut S,
    bell: &mut B,
) -> Result<Talked, AllocError>
    requires { IsPassOf gate.now pass.old }
    ensures pass { IsPassOf gate.now pass.new }
    ensures ends { (given : Option (List ℕ)) (put : List (List ℕ)) → length put ≡ most_lines
        → EndsTalk (talk_of (out_of (known pass.old) given) (prepend_known reader.old (S.left source.old)) put)
        (talk_of (out_of (known pass.new) given) (prepend_known reader.new (S.left source.new)) put) result }
    ensures read_fault { result ≡ Ok Talked.ReadFault → HasRisen (S.faults source.old) (S.faults source.new) }
    ensures no_read_fault { result ≢ Ok Talked.ReadFault → S.faults source.new ≡ S.faults source.old }
    ensures no_write_fault { result ≢ Ok Talked.WriteFault }
    ensures source_faults { S.faults source.old ≤ S.faults source.new }
    ensures silences { B.silences bell.new ≡ B.silences bell.old }
{
    match reader.next_line(alloc, source) {
        Ok(NextLine::NoLine) => close(rt, gate, pass, bell),
        Ok(NextLine::Line(_)) => Ok(Talked::Bad {
            line: MOST_LINES + 1,
        }),
        Ok(NextLine::TooLong) => Ok(Talked::Bad {
            line: MOST_LINES + 1,
        }),
        Err(ReadError::ReadFault) => Ok(Talked::ReadFault),
        Err(ReadError::NoMemory) => Err(AllocError),
    }
}

// The input came to its end.
#[tactic(auto, unfolding(crate::specs::Talking::EndsTalk))]
fn close<R: Wait, B: Bell>(
    rt: &R,
    gate: &Gate<ClientObject>,
    pass: &mut Pass<ClientObject>,
    bell: &mut B,
) -> Result<Talked, AllocError>
    requires { IsPassOf gate.now pass.old }
    ensures pass { IsPassOf gate.now pass.new }
    ensures ends { (given old_left left : Option (List ℕ)) (put : List (List ℕ)) → Takes old_left left End
        → EndsTalk (talk_of (out_of (known pass.old) given) old_left put) (talk_of (out_of (known pass.new) given) left put) result }
    ensures no_read_fault { result ≢ Ok Talked.ReadFault }
    ensures no_write_fault { result ≢ Ok Talked.WriteFault }
    ensures silences { B.silences bell.new ≡ B.silences bell.old }
{
    match terminate(rt, gate, pass, bell) {
        Ok(_) => Ok(Talked::Done),
        Err(AllocError) => Err(AllocError),
    }
}

// What comes next of the input.
#[derive(Drop)]
pub(crate) enum Input {
    // A line that is a stanza.
    Stanza(Text),
    // A line that is none.
    Other,
    End,
}

/// Takes the next line. An error is a fault of the source, or want of memory.
#[tactic(auto, unfolding(crate::specs::Talking::Takes))]
pub(crate) fn next_input<S: Source>(
    alloc: Global,
    reader: &mut LineReader,
    source: &mut S,
) -> Result<Input, ReadError>
    ensures takes { IfOk result (Takes (prepend_known reader.old (S.left source.old)) (prepend_known reader.new (S.left source.new))) }
    ensures read_fault { IsErrOf result ReadError.ReadFault → HasRisen (S.faults source.old) (S.faults source.new) }
    ensures counts { OnOk result (S.faults source.new ≡ S.faults source.old) }
    ensures no_memory { IsErrOf result ReadError.NoMemory → S.faults source.new ≡ S.faults source.old }
    ensures faults { S.faults source.old ≤ S.faults source.new }
{
    match reader.next_line(alloc, source)? {
        NextLine::Line(line) => {
            if is_stanza(alloc, line.as_slice())? {
                return Ok(Input::Stanza(line));
            }
            Ok(Input::Other)
        }
        NextLine::TooLong => Ok(Input::Other),
        NextLine::NoLine => Ok(Input::End),
    }
}

// What came of a line.
#[derive(Clone, Copy)]
pub(crate) enum Said {
    // It was put, and all that was handed out is written.
    Done,
    // The client takes no more.
    Over,
    WriteFault,
}

// Puts a stanza, and then writes all that the client hands out. The only error is want of memory.
#[tactic(auto, unfolding(crate::specs::Talking::SaysBy))]
fn say<R: Wait, K: Sink, B: Bell>(
    rt: &R,
    alloc: Global,
    gate: &Gate<ClientObject>,
    pass: &mut Pass<ClientObject>,
    sink: &mut K,
    bell: &mut B,
    stanza: &[u8],
) -> Result<Said, AllocError>
    requires pass { IsPassOf gate.now pass.old }
    requires stanza { IsTrue (is_stanza stanza.now) }
    ensures pass { IsPassOf gate.now pass.new }
    ensures says { SaysBy stanza.now (out_of (known pass.old) (K.given sink.old)) (out_of (known pass.new) (K.given sink.new)) result }
    ensures write_fault { result ≡ Ok Said.WriteFault → HasRisen (K.faults sink.old) (K.faults sink.new) }
    ensures no_write_fault { result ≢ Ok Said.WriteFault → K.faults sink.new ≡ K.faults sink.old }
    ensures sink_faults { K.faults sink.old ≤ K.faults sink.new }
    ensures silences { B.silences bell.old ≤ B.silences bell.new }
{
    match put(rt, alloc, gate, pass, bell, stanza) {
        Ok(true) => {}
        Ok(false) => return Ok(Said::Over),
        Err(AllocError) => return Err(AllocError),
    }
    match drain(rt, gate, pass, sink) {
        Ok(Written::Done) => Ok(Said::Done),
        Ok(Written::WriteFault) => Ok(Said::WriteFault),
        Err(AllocError) => Err(AllocError),
    }
}

// Reading a trace and judging it.
ghost use Rattle.std.specs.Prelude.{◌≡◌, ◌≤◌, IfOk, IfSome, OnOk, OnErr, IsErrOf};
ghost use Rattle.bosh_ports.specs.Faults.{HasRisen};
ghost use Rattle.bosh_ports.specs.Sink.{GivesAll};
ghost use Rattle.std.specs.Io.KnownBytes.{Appends};
ghost use Rattle.trace_audit.specs.Outcome.{Audits, GivesPart, is_end, line_read_of};
ghost use Rattle.trace_audit.specs.Report.{outcome_text};

use crate::heard::Heard;
use crate::laws::a_trace_that_holds_keeps_both_prefixes;
use crate::line::{BadKind, LineRead, TraceLine, read_line};
use crate::outcome::{AuditError, Audited};
use crate::report::print_outcome;
use crate::tally::Tally;
use bosh_ports::{Sink, Source, give_all};
use bosh_types::limits::MOST_LINES;
use line_reader::{LineReader, NextLine};
use std::alloc::{AllocError, Global};

/// Judges a trace and gives the one line of its report. After an error what was given stays given.
pub fn run_audit<S: Source, K: Sink>(
    alloc: Global,
    source: &mut S,
    sink: &mut K,
) -> Result<Audited, AuditError>
    // Where the source tells its bytes, the outcome is the trace's. A yes says that it holds and keeps both prefixes.
    ensures outcome { IfOk result (λ outcome. IfSome (S.left source.old) (λ text. Audits text outcome)) }

    // The sink was given the outcome's report and nothing else; after an error a front of the report of an outcome of the trace.
    ensures given { IfOk result (λ outcome. Appends (K.given sink.old) (K.given sink.new) (outcome_text outcome)) }
    ensures part { OnErr result (GivesPart (S.left source.old) (K.given sink.old) (K.given sink.new)) }

    // A fault rises with the error that names it, and with nothing else.
    ensures no_fault { OnOk result ((S.faults source.new ≡ S.faults source.old) × (K.faults sink.new ≡ K.faults sink.old)) }
    ensures no_memory { IsErrOf result AuditError.NoMemory → (S.faults source.new ≡ S.faults source.old) × (K.faults sink.new ≡ K.faults sink.old) }
    ensures read_fault { IsErrOf result AuditError.ReadFault → HasRisen (S.faults source.old) (S.faults source.new) }
    ensures read_fault_alone { IsErrOf result AuditError.ReadFault → K.faults sink.new ≡ K.faults sink.old }
    ensures write_fault { IsErrOf result AuditError.WriteFault → HasRisen (K.faults sink.old) (K.faults sink.new) }
    ensures write_fault_alone { IsErrOf result AuditError.WriteFault → S.faults source.new ≡ S.faults source.old }
    ensures source_faults { S.faults source.old ≤ S.faults source.new }
    ensures sink_faults { K.faults sink.old ≤ K.faults sink.new }
{
    let outcome = outcome_of(alloc, source)?;
    give_outcome(alloc, sink, outcome)?;
    Ok(outcome)
}

// Reads and judges line by line, up to the line that decides.
fn outcome_of<S: Source>(alloc: Global, source: &mut S) -> Result<Audited, AuditError>
    ensures outcome { IfOk result (λ outcome. IfSome (S.left source.old) (λ text. Audits text outcome)) }
    ensures no_fault { OnOk result (S.faults source.new ≡ S.faults source.old) }
    ensures no_memory { IsErrOf result AuditError.NoMemory → S.faults source.new ≡ S.faults source.old }
    ensures read_fault { IsErrOf result AuditError.ReadFault → HasRisen (S.faults source.old) (S.faults source.new) }
    ensures no_write_fault { IsErrOf result AuditError.WriteFault → ⊥ }
    ensures faults { S.faults source.old ≤ S.faults source.new }
{
    a_trace_that_holds_keeps_both_prefixes();
    let mut reader = LineReader::new(alloc)?;
    let mut heard = Heard::new(alloc);
    let mut tally = Tally::new();
    for n in 1..MOST_LINES + 1 {
        let line = match read(alloc, reader.next_line(alloc, source)?)? {
            LineRead::Line(line) => line,
            LineRead::BadLine(kind) => return Ok(Audited::Bad { line: n, kind }),
        };
        if is_end(&line) {
            return Ok(tally.yes());
        }
        let next = tally.with(&line);
        if let Some(rule) = heard.judge(alloc, line)? {
            return Ok(Audited::No { line: n, rule });
        }
        tally = next;
    }
    Ok(Audited::Bad {
        line: MOST_LINES + 1,
        kind: BadKind::Count,
    })
}

// What a line says.
fn read(alloc: Global, line: NextLine) -> Result<LineRead, AllocError>
    ensures { IfOk result (λ read. read ≡ line_read_of line) }
{
    match line {
        NextLine::Line(line) => read_line(alloc, line.as_slice()),
        NextLine::TooLong => Ok(LineRead::BadLine(BadKind::Length)),
        NextLine::NoLine => Ok(LineRead::BadLine(BadKind::End)),
    }
}

fn is_end(line: &TraceLine) -> bool
    ensures { result ≡ is_end line.now }
{
    match line {
        TraceLine::End => true,
        _ => false,
    }
}

// Gives the report.
fn give_outcome<K: Sink>(alloc: Global, sink: &mut K, outcome: Audited) -> Result<(), AuditError>
    ensures given { GivesAll result (K.given sink.old) (K.given sink.new) (outcome_text outcome) }
    ensures no_read_fault { IsErrOf result AuditError.ReadFault → ⊥ }
    ensures write_fault { IsErrOf result AuditError.WriteFault → HasRisen (K.faults sink.old) (K.faults sink.new) }
    ensures counts { OnOk result (K.faults sink.new ≡ K.faults sink.old) }
    ensures no_memory { IsErrOf result AuditError.NoMemory → K.faults sink.new ≡ K.faults sink.old }
    ensures faults { K.faults sink.old ≤ K.faults sink.new }
{
    let text = print_outcome(alloc, outcome)?;
    give_all(sink, text.as_slice())?;
    Ok(())
}

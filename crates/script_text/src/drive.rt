// Running a script of the word `drive`.
ghost use Rattle.std.specs.Prelude.{◌≡◌, ◌≤◌, [], ◌∷◌, IfOk, IfSome, OnOk, OnErr, IsErrOf};
ghost use Rattle.bosh_ports.specs.Faults.{HasRisen};
ghost use Rattle.bosh_ports.specs.Sink.{AppendsFront, GivesAll};
ghost use Rattle.script_text.specs.Given.{GivesItsReport};
ghost use Rattle.script_text.specs.Report.{report_text};
ghost use Rattle.script_text.specs.Said.{IsSaid, IsWellRead};
ghost use Rattle.script_text.specs.Script.{PlainRun, drive_of, first_step, said_step, step_by, Reports};
ghost use Rattle.script_text.specs.Stands.{Does, IsRun};
ghost use Rattle.script_text.specs.Step.{read_of};

use crate::arrivals::{arrival_effect, open};
use crate::bodies::body_effect;
use crate::driven::{DriveError, Driven};
use crate::hosts::Hosts;
use crate::laws::reports_tell_of_sessions;
use crate::line::{BadKind, LineRead, ScriptLine, read_line};
use crate::manager::Manager;
use crate::report::{ReportLine, print_line};
use crate::run::{Effect, Next, Run};
use bosh_ports::{Sink, Source, give_all};
use bosh_types::limits::MOST_LINES;
use line_reader::{LineReader, NextLine};
use std::alloc::{AllocError, Global};

/// Runs a script line by line and gives its report, each line as soon as it is known. After an error what was given
/// stays given.
pub fn run_drive<S: Source, K: Sink>(
    alloc: Global,
    source: &mut S,
    sink: &mut K,
) -> Result<Driven, DriveError>
    // Where the source tells its bytes, the outcome is the script's, and what was given is its report and nothing else;
    // after an error it is a front of it.
    ensures report { IfOk result (λ outcome. IfSome (S.left source.old) (λ script. Reports (drive_of script) outcome (K.given sink.old) (K.given sink.new))) }
    ensures part { OnErr result (IfSome (S.left source.old) (λ script. AppendsFront (K.given sink.old) (K.given sink.new) (report_text (drive_of script).report))) }

    // The sink was given a report that keeps its word.
    ensures headline { IfOk result (λ outcome. IfSome (S.left source.old) (λ script. GivesItsReport script (K.given sink.old) (K.given sink.new))) }

    // A fault rises with the error that names it, and with nothing else.
    ensures no_fault { OnOk result ((S.faults source.new ≡ S.faults source.old) × (K.faults sink.new ≡ K.faults sink.old)) }
    ensures no_memory { IsErrOf result DriveError.NoMemory → (S.faults source.new ≡ S.faults source.old) × (K.faults sink.new ≡ K.faults sink.old) }
    ensures read_fault { IsErrOf result DriveError.ReadFault → HasRisen (S.faults source.old) (S.faults source.new) }
    ensures read_fault_alone { IsErrOf result DriveError.ReadFault → K.faults sink.new ≡ K.faults sink.old }
    ensures write_fault { IsErrOf result DriveError.WriteFault → HasRisen (K.faults sink.old) (K.faults sink.new) }
    ensures write_fault_alone { IsErrOf result DriveError.WriteFault → S.faults source.new ≡ S.faults source.old }
    ensures source_faults { S.faults source.old ≤ S.faults source.new }
    ensures sink_faults { K.faults sink.old ≤ K.faults sink.new }
{
    reports_tell_of_sessions();
    let mut reader = LineReader::new(alloc)?;
    let mut run = Run::Beginning;
    for n in 1..MOST_LINES + 1 {
        let line = reader.next_line(alloc, source)?;
        let Effect {
            lines,
            next,
            over: _over,
        } = effect_of(alloc, run, n, line)?;
        give_lines(alloc, sink, &lines)?;
        match next {
            Next::Goes(after) => run = after,
            Next::Ends(outcome) => return Ok(outcome),
        }
    }
    let line = MOST_LINES + 1;
    let kind = BadKind::Count;
    give_line(alloc, sink, &ReportLine::Bad { line, kind })?;
    Ok(Driven::Bad { line, kind })
}

// What a line does.
pub(crate) fn effect_of(
    alloc: Global,
    run: Run,
    n: u64,
    line: NextLine,
) -> Result<Effect, AllocError>
    ensures { IfOk result (λ effect. (plain : PlainRun) → IsRun run plain → Does effect (step_by plain n (read_of line))) }
{
    match read(alloc, line)? {
        LineRead::Line(said) => effect_by(alloc, run, n, said),
        LineRead::BadLine(kind) => Effect::bad(alloc, n, kind),
    }
}

// What a line says.
fn read(alloc: Global, line: NextLine) -> Result<LineRead, AllocError>
    ensures read { IfOk result (λ read. read ≡ read_of line) }
    ensures well { IfOk result (λ read. IsWellRead read) }
{
    match line {
        NextLine::Line(line) => read_line(alloc, line.as_slice()),
        NextLine::TooLong => Ok(LineRead::BadLine(BadKind::Length)),
        NextLine::NoLine => Ok(LineRead::BadLine(BadKind::End)),
    }
}

// What a line does that says this.
fn effect_by(alloc: Global, run: Run, n: u64, said: ScriptLine) -> Result<Effect, AllocError>
    requires { IsSaid said }
    ensures { IfOk result (λ effect. (plain : PlainRun) → IsRun run plain → Does effect (said_step plain n said)) }
{
    match run {
        Run::Beginning => first_effect(alloc, n, said),
        Run::Arrivals(manager) => arrival_effect(alloc, manager, n, said),
        Run::Bodies(manager) => body_effect(alloc, manager, n, said),
    }
}

// The first line tells what the script is about.
fn first_effect(alloc: Global, n: u64, said: ScriptLine) -> Result<Effect, AllocError>
    requires { IsSaid said }
    ensures { IfOk result (λ effect. Does effect (first_step n said)) }
{
    match said {
        ScriptLine::Open { rid } => open(alloc, rid),
        ScriptLine::Short { .. } => Effect::bad(alloc, n, BadKind::Grammar),
        said => body_effect(alloc, Manager::new(alloc, Hosts::new(alloc)), n, said),
    }
}

// Gives the lines of the report.
pub(crate) fn give_lines<K: Sink>(
    alloc: Global,
    sink: &mut K,
    lines: &[ReportLine],
) -> Result<(), DriveError>
    ensures given { GivesAll result (K.given sink.old) (K.given sink.new) (report_text lines.now) }
    ensures no_read_fault { IsErrOf result DriveError.ReadFault → ⊥ }
    ensures write_fault { IsErrOf result DriveError.WriteFault → HasRisen (K.faults sink.old) (K.faults sink.new) }
    ensures counts { OnOk result (K.faults sink.new ≡ K.faults sink.old) }
    ensures no_memory { IsErrOf result DriveError.NoMemory → K.faults sink.new ≡ K.faults sink.old }
    ensures faults { K.faults sink.old ≤ K.faults sink.new }
{
    for line in lines {
        give_line(alloc, sink, line)?;
    }
    Ok(())
}

// Gives one line of the report.
pub(crate) fn give_line<K: Sink>(
    alloc: Global,
    sink: &mut K,
    line: &ReportLine,
) -> Result<(), DriveError>
    ensures given { GivesAll result (K.given sink.old) (K.given sink.new) (report_text (line.now ∷ [])) }
    ensures no_read_fault { IsErrOf result DriveError.ReadFault → ⊥ }
    ensures write_fault { IsErrOf result DriveError.WriteFault → HasRisen (K.faults sink.old) (K.faults sink.new) }
    ensures counts { OnOk result (K.faults sink.new ≡ K.faults sink.old) }
    ensures no_memory { IsErrOf result DriveError.NoMemory → K.faults sink.new ≡ K.faults sink.old }
    ensures faults { K.faults sink.old ≤ K.faults sink.new }
{
    let text = print_line(alloc, line)?;
    give_all(sink, text.as_slice())?;
    Ok(())
}

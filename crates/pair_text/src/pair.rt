// Running a script of the word `pair`.
ghost use Rattle.std.specs.Prelude.{◌≡◌, ◌≤◌, ◌∷◌, [], IfOk, IfSome, OnOk, OnErr, IsErrOf};
ghost use Rattle.bosh_ports.specs.Faults.{HasRisen};
ghost use Rattle.bosh_ports.specs.Sink.{AppendsFront, GivesAll};
ghost use Rattle.pair_text.specs.Line.{pair_line_of};
ghost use Rattle.pair_text.specs.Report.{pair_report_text};
ghost use Rattle.pair_text.specs.Script.{PlainPairRun, ReportsPair, pair_of, read_step, step_by};
ghost use Rattle.pair_text.specs.Stands.{Does, IsRun};
ghost use Rattle.pair_text.specs.Told.{GivesItsPair};

use crate::laws::reports_tell_of_one_world;
use crate::line::read_pair_line;
use crate::report::{PairReport, print_pair_report};
use crate::run::{Effect, Next, Run, effect_by};
use bosh_ports::{Sink, Source, give_all};
use bosh_types::Text;
use bosh_types::limits::MOST_LINES;
use line_reader::{LineReader, NextLine};
use script_text::{BadKind, DriveError, Driven};
use std::alloc::{AllocError, Global};

/// Runs a script of two ends line by line and gives its report, each line's part as soon as it is known. After an error what
/// was given stays given.
pub fn run_pair<S: Source, K: Sink>(
    alloc: Global,
    source: &mut S,
    sink: &mut K,
) -> Result<Driven, DriveError>
    // Where the source tells its bytes, the outcome is the script's, and what was given is its report and nothing else;
    // after an error it is a front of it.
    ensures report { IfOk result (λ outcome. IfSome (S.left source.old) (λ script. ReportsPair (pair_of script) outcome (K.given sink.old) (K.given sink.new))) }
    ensures part { OnErr result (IfSome (S.left source.old) (λ script. AppendsFront (K.given sink.old) (K.given sink.new) (pair_report_text (pair_of script).report))) }

    // The sink was given a report that tells of one world, in which each end has a beginning of what was sent at the other.
    ensures headline { IfOk result (λ outcome. IfSome (S.left source.old) (λ script. GivesItsPair script (K.given sink.old) (K.given sink.new))) }

    // A fault rises with the error that names it, and with nothing else.
    ensures no_fault { OnOk result ((S.faults source.new ≡ S.faults source.old) × (K.faults sink.new ≡ K.faults sink.old)) }
    ensures no_memory { IsErrOf result DriveError.NoMemory → (S.faults source.new ≡ S.faults source.old) × (K.faults sink.new ≡ K.faults sink.old) }
    ensures read_fault { IsErrOf result DriveError.ReadFault → HasRisen (S.faults source.old) (S.faults source.new) }
    ensures read_fault_alone { IsErrOf result DriveError.ReadFault → K.faults sink.new ≡ K.faults sink.old }
    ensures write_fault { IsErrOf result DriveError.WriteFault → HasRisen (K.faults sink.old) (K.faults sink.new) }
    ensures write_fault_alone { IsErrOf result DriveError.WriteFault → S.faults source.new ≡ S.faults source.old }
    ensures source_faults { S.faults source.old ≤ S.faults source.new }
    ensures sink_faults { K.faults sink.old ≤ K.faults sink.new }
{
    reports_tell_of_one_world();
    let mut reader = LineReader::new(alloc)?;
    let mut run = Run::Beginning;
    for n in 1..MOST_LINES + 1 {
        let line = reader.next_line(alloc, source)?;
        let Effect { lines, next } = effect_of(alloc, run, n, line)?;
        give_report(alloc, sink, &lines)?;
        match next {
            Next::Goes(after) => run = after,
            Next::Ends(outcome) => return Ok(outcome),
        }
    }
    let line = MOST_LINES + 1;
    let kind = BadKind::Count;
    give_report(alloc, sink, &[PairReport::Bad { line, kind }])?;
    Ok(Driven::Bad { line, kind })
}

// What a line does.
fn effect_of(alloc: Global, run: Run, n: u64, line: NextLine) -> Result<Effect, AllocError>
    ensures { IfOk result (λ effect. (plain : PlainPairRun) → IsRun run plain → Does effect (read_step plain n line)) }
{
    match line {
        NextLine::Line(line) => effect_in(alloc, run, n, line),
        NextLine::TooLong => Effect::bad(alloc, n, BadKind::Length),
        NextLine::NoLine => Effect::bad(alloc, n, BadKind::End),
    }
}

// What a line does that has these bytes.
fn effect_in(alloc: Global, run: Run, n: u64, line: Text) -> Result<Effect, AllocError>
    ensures { IfOk result (λ effect. (plain : PlainPairRun) → IsRun run plain → Does effect (step_by plain n (pair_line_of line))) }
{
    match read_pair_line(alloc, line.as_slice())? {
        Some(said) => effect_by(alloc, run, n, said),
        None => Effect::bad(alloc, n, BadKind::Grammar),
    }
}

// Gives some lines of the report.
fn give_report<K: Sink>(alloc: Global, sink: &mut K, lines: &[PairReport]) -> Result<(), DriveError>
    ensures given { GivesAll result (K.given sink.old) (K.given sink.new) (pair_report_text lines.now) }
    ensures no_read_fault { IsErrOf result DriveError.ReadFault → ⊥ }
    ensures write_fault { IsErrOf result DriveError.WriteFault → HasRisen (K.faults sink.old) (K.faults sink.new) }
    ensures counts { OnOk result (K.faults sink.new ≡ K.faults sink.old) }
    ensures no_memory { IsErrOf result DriveError.NoMemory → K.faults sink.new ≡ K.faults sink.old }
    ensures faults { K.faults sink.old ≤ K.faults sink.new }
{
    let text = print_pair_report(alloc, lines)?;
    give_all(sink, text.as_slice())?;
    Ok(())
}

// How a command over a source and a sink ends, and the command `audit`.
ghost use Rattle.std.specs.Prelude.{◌≡◌, IfOk, IsErrOf, OnErr, OnOk, Some};
ghost use Rattle.bosh_ports.specs.Faults.{HasRisen};
ghost use Rattle.bosh_commands.specs.declared.command.LocalCommand.TheVariants.{Audit};
ghost use Rattle.bosh_commands.specs.Ends.{audit_status, end_status, status_of};
ghost use Rattle.bosh_commands.specs.Run.{GivesFront, GivesItsWord, GivesWhole};

use bosh_ports::{Sink, Source};
use script_text::{DriveError, Driven};
use std::alloc::Global;
use trace_audit::{AuditError, Audited, run_audit};

// How a command ends that is run to its end.
#[derive(Clone, Copy, Debug, PartialEq, Eq)]
pub(crate) enum End {
    // The script was read to its end; the trace holds.
    Done,
    // A line is bad.
    Bad,
    // A line of the trace breaks a rule.
    No,
}

// How a script ends.
pub(crate) fn script_end(driven: Driven) -> End
    ensures { end_status result ≡ status_of driven }
{
    match driven {
        Driven::Done => End::Done,
        Driven::Bad { .. } => End::Bad,
    }
}

// How the audit of a trace ends.
fn trace_end(audited: Audited) -> End
    ensures { end_status result ≡ audit_status audited }
{
    match audited {
        Audited::Yes { .. } => End::Done,
        Audited::No { .. } => End::No,
        Audited::Bad { .. } => End::Bad,
    }
}

// Judges the trace that the source gives, and gives the report.
pub(crate) fn audit<S: Source, K: Sink>(
    alloc: Global,
    source: &mut S,
    sink: &mut K,
) -> Result<End, DriveError>
    ensures whole { IfOk result (λ end. GivesWhole (Some Audit) (S.left source.old) (end_status end) (K.given sink.old) (K.given sink.new)) }
    ensures part { OnErr result (GivesFront (Some Audit) (S.left source.old) (K.given sink.old) (K.given sink.new)) }
    ensures headline { OnOk result (GivesItsWord (Some Audit) (S.left source.old) (K.given sink.old) (K.given sink.new)) }
    ensures no_fault { OnOk result ((S.faults source.new ≡ S.faults source.old) × (K.faults sink.new ≡ K.faults sink.old)) }
    ensures no_memory { IsErrOf result DriveError.NoMemory → (S.faults source.new ≡ S.faults source.old) × (K.faults sink.new ≡ K.faults sink.old) }
    ensures read_fault { IsErrOf result DriveError.ReadFault → HasRisen (S.faults source.old) (S.faults source.new) }
    ensures read_fault_alone { IsErrOf result DriveError.ReadFault → K.faults sink.new ≡ K.faults sink.old }
    ensures write_fault { IsErrOf result DriveError.WriteFault → HasRisen (K.faults sink.old) (K.faults sink.new) }
    ensures write_fault_alone { IsErrOf result DriveError.WriteFault → S.faults source.new ≡ S.faults source.old }
{
    match run_audit(alloc, source, sink) {
        Ok(audited) => Ok(trace_end(audited)),
        Err(AuditError::ReadFault) => Err(DriveError::ReadFault),
        Err(AuditError::WriteFault) => Err(DriveError::WriteFault),
        Err(AuditError::NoMemory) => Err(DriveError::NoMemory),
    }
}

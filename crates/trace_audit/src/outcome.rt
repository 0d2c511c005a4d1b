// How an audit ends.
use crate::line::BadKind;
use bosh_ports::WriteFault;
use line_reader::ReadError;
use std::alloc::AllocError;

/// The rules of a trace.
#[derive(Clone, Copy, Debug, PartialEq, Eq)]
pub enum Rule {
    /// A body that was sent makes a request for the session's one stream, and the first alone is a creation. An answer can be cut
    /// and is in the namespace.
    Body,
    /// The ids of requests go on by one.
    Number,
    /// What came is what was sent with its id.
    Altered,
    /// What goes inward is the next item of what came without a gap.
    Inward,
    /// An answer is for an id that came, and a first one for the lowest id without one.
    Order,
    /// A repeated answer has the bytes of the first.
    Changed,
    /// The payloads of an answer are the next of what was given.
    Payload,
    /// What was taken had been answered.
    Took,
    /// What is got is the next of what was taken without a gap.
    Got,
}

/// What is said of a trace.
#[derive(Clone, Copy, Debug, PartialEq, Eq)]
pub enum Audited {
    /// It holds, and tells of so many requests, items that went inward, and stanzas that were got.
    Yes {
        requests: u64,
        passed: u64,
        got: u64,
    },
    /// This line is the first that breaks a rule, and this is the first that it breaks.
    No {
        line: u64,
        rule: Rule,
    },
    /// It is bad at this line.
    Bad {
        line: u64,
        kind: BadKind,
    },
}

/// Why a trace wasn't judged.
#[derive(Clone, Copy, Debug, PartialEq, Eq)]
pub enum AuditError {
    ReadFault,
    WriteFault,
    NoMemory,
}

impl From<AllocError> for AuditError {
    ghost use Rattle.std.specs.Prelude.{◌≡◌};
    ghost use Rattle.trace_audit.specs.declared.outcome.AuditError.TheVariants.{NoMemory};

    ghost from_gives = { λ _ e. e ≡ NoMemory };

    fn from(_error: AllocError) -> AuditError {
        AuditError::NoMemory
    }
}

impl From<WriteFault> for AuditError {
    ghost use Rattle.std.specs.Prelude.{◌≡◌};
    ghost use Rattle.trace_audit.specs.declared.outcome.AuditError.TheVariants.{WriteFault as WriteFailed};

    ghost from_gives = { λ _ e. e ≡ WriteFailed };

    fn from(_error: WriteFault) -> AuditError {
        AuditError::WriteFault
    }
}

impl From<ReadError> for AuditError {
    ghost use Rattle.std.specs.Prelude.{◌≡◌};
    ghost use Rattle.trace_audit.specs.Outcome.{audit_error_of};

    ghost from_gives = { λ error e. e ≡ audit_error_of error };

    fn from(error: ReadError) -> AuditError {
        match error {
            ReadError::ReadFault => AuditError::ReadFault,
            ReadError::NoMemory => AuditError::NoMemory,
        }
    }
}

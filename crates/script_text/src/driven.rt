// How the run of a script ends.
use crate::line::BadKind;
use bosh_ports::WriteFault;
use line_reader::ReadError;
use std::alloc::AllocError;

/// How a script ended.
#[derive(Clone, Copy, Debug, PartialEq, Eq)]
pub enum Driven {
    /// It was read to its line `end`.
    Done,
    /// It is bad at this line.
    Bad { line: u64, kind: BadKind },
}

/// Why a script wasn't run to its end.
#[derive(Clone, Copy, Debug, PartialEq, Eq)]
pub enum DriveError {
    ReadFault,
    WriteFault,
    NoMemory,
}

impl From<AllocError> for DriveError {
    ghost use Rattle.std.specs.Prelude.{◌≡◌};
    ghost use Rattle.script_text.specs.declared.driven.DriveError.TheVariants.{NoMemory};

    ghost from_gives = { λ _ e. e ≡ NoMemory };

    fn from(_error: AllocError) -> DriveError {
        DriveError::NoMemory
    }
}

impl From<WriteFault> for DriveError {
    ghost use Rattle.std.specs.Prelude.{◌≡◌};
    ghost use Rattle.script_text.specs.declared.driven.DriveError.TheVariants.{WriteFault as WriteFailed};

    ghost from_gives = { λ _ e. e ≡ WriteFailed };

    fn from(_error: WriteFault) -> DriveError {
        DriveError::WriteFault
    }
}

impl From<ReadError> for DriveError {
    ghost use Rattle.std.specs.Prelude.{◌≡◌};
    ghost use Rattle.script_text.specs.Fault.{drive_error_of};

    ghost from_gives = { λ error e. e ≡ drive_error_of error };

    fn from(error: ReadError) -> DriveError {
        match error {
            ReadError::ReadFault => DriveError::ReadFault,
            ReadError::NoMemory => DriveError::NoMemory,
        }
    }
}

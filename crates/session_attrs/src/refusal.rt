use std::alloc::AllocError;
use std::fmt;

/// An attribute that holds a number.
#[derive(Clone, Copy, Debug, PartialEq, Eq)]
pub enum Numbered {
    Wait,
    Hold,
    Ver,
    Pause,
}

/// Why attributes make no request: the first of these that holds.
#[derive(Clone, Copy, Debug, PartialEq, Eq)]
pub enum AttrRefusal {
    /// The body isn't in the namespace of the protocol.
    WrongNamespace,
    /// There is no request id.
    NoRid,
    /// The request id isn't one.
    BadRid,
    /// A number isn't one, or a pause is 0.
    BadNumber(Numbered),
    /// The acknowledgement isn't `1` in a creation, or isn't a lower request id in a later request.
    BadAck,
    /// The type isn't `terminate`, or is there in a creation.
    BadType,
    /// The wish for a restart is neither true nor false.
    BadFlag,
}

impl fmt::Display for Numbered {
    ghost use Rattle.std.specs.Prelude.{Some};
    ghost use Rattle.session_attrs.specs.Said.{said_number};

    ghost output = { λ field. Some (said_number field) };

    fn fmt<W: fmt::Write>(&self, f: &mut fmt::Formatter<W>) -> fmt::Result {
        match self {
            Numbered::Wait => f.write_str("wait"),
            Numbered::Hold => f.write_str("hold"),
            Numbered::Ver => f.write_str("ver"),
            Numbered::Pause => f.write_str("pause"),
        }
    }
}

impl fmt::Display for AttrRefusal {
    ghost use Rattle.std.specs.Prelude.{Some};
    ghost use Rattle.session_attrs.specs.Said.{said_refusal};

    ghost output = { λ refusal. Some (said_refusal refusal) };

    fn fmt<W: fmt::Write>(&self, f: &mut fmt::Formatter<W>) -> fmt::Result {
        match self {
            AttrRefusal::WrongNamespace => f.write_str("the body is not in the namespace"),
            AttrRefusal::NoRid => f.write_str("there is no request id"),
            AttrRefusal::BadRid => f.write_str("the request id is not one"),
            AttrRefusal::BadNumber(field) => write!(f, "the number in {field} is not one"),
            AttrRefusal::BadAck => f.write_str("the acknowledgement is not one"),
            AttrRefusal::BadType => f.write_str("the type is not one of such a request"),
            AttrRefusal::BadFlag => f.write_str("the restart is neither true nor false"),
        }
    }
}

/// Why attributes gave no request.
#[derive(Clone, Copy, Debug, PartialEq, Eq)]
pub enum RequestError {
    /// Memory ran out.
    Memory,
    /// The attributes are refused.
    Refused(AttrRefusal),
}

impl fmt::Display for RequestError {
    ghost use Rattle.std.specs.Prelude.{Some};
    ghost use Rattle.session_attrs.specs.Said.{said_error};

    ghost output = { λ error. Some (said_error error) };

    fn fmt<W: fmt::Write>(&self, f: &mut fmt::Formatter<W>) -> fmt::Result {
        match self {
            RequestError::Memory => f.write_str("memory ran out"),
            RequestError::Refused(refusal) => write!(f, "{refusal}"),
        }
    }
}

impl std::error::Error for RequestError {}

impl From<AllocError> for RequestError {
    ghost use Rattle.std.specs.Prelude.{◌≡◌};
    ghost use Rattle.session_attrs.specs.declared.refusal.RequestError.TheVariants.{Memory};

    ghost from_gives = { λ _ e. e ≡ Memory };

    fn from(_: AllocError) -> Self {
        RequestError::Memory
    }
}

impl From<AttrRefusal> for RequestError {
    ghost use Rattle.std.specs.Prelude.{◌≡◌};
    ghost use Rattle.session_attrs.specs.declared.refusal.RequestError.TheVariants.{Refused};

    ghost from_gives = { λ refusal e. e ≡ Refused refusal };

    fn from(refusal: AttrRefusal) -> Self {
        RequestError::Refused(refusal)
    }
}

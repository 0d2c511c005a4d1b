use bosh_types::{Row, Text};
use std::alloc::AllocError;
use std::fmt;

/// Bytes of a text, from `start` on and before `end`.
#[derive(Clone, Copy, Debug, PartialEq, Eq)]
pub struct Span {
    pub start: usize,
    pub end: usize,
}

/// An attribute of a body: where its name stands, and its value with references replaced and white space normalised.
#[derive(Debug, Drop)]
pub struct Attr {
    pub name: Span,
    pub value: Text,
}

/// Attributes in order.
pub type Attrs = Row<Attr>;

/// Spans in order.
pub type Spans = Row<Span>;

/// A body in its parts: its attributes, and its children as their exact bytes.
#[derive(Debug, Drop)]
pub struct Cut {
    pub attrs: Attrs,
    pub children: Spans,
}

/// Why a text is refused: the first of these that holds. A place is the length of the longest prefix that some bytes
/// would complete.
#[derive(Clone, Copy, Debug, PartialEq, Eq)]
pub enum CutRefusal {
    /// It has more bytes than a body may have.
    TooLong,
    /// It isn't UTF-8.
    NotUtf8,
    /// It goes wrong before the name of the body ends.
    NotBody,
    /// It goes wrong here in a reference, or at something that begins like a comment, a declaration or an instruction.
    Forbidden(usize),
    /// It goes wrong here otherwise, or ends here too early.
    Malformed(usize),
    /// A tag has more than 32 attributes.
    TooManyAttributes,
    /// There are more than 1024 children.
    TooManyChildren,
    /// An element lies more than 64 deep.
    TooDeep,
}

impl fmt::Display for CutRefusal {
    ghost use Rattle.std.specs.Prelude.{Some};
    ghost use Rattle.body_cutter.specs.Said.{said_refusal};

    ghost output = { λ refusal. Some (said_refusal refusal) };

    fn fmt<W: fmt::Write>(&self, f: &mut fmt::Formatter<W>) -> fmt::Result {
        match self {
            CutRefusal::TooLong => f.write_str("the text is too long"),
            CutRefusal::NotUtf8 => f.write_str("the text is not UTF-8"),
            CutRefusal::NotBody => f.write_str("the text is no body"),
            CutRefusal::Forbidden(place) => write!(f, "forbidden at byte {place}"),
            CutRefusal::Malformed(place) => write!(f, "malformed at byte {place}"),
            CutRefusal::TooManyAttributes => f.write_str("a tag has too many attributes"),
            CutRefusal::TooManyChildren => f.write_str("there are too many children"),
            CutRefusal::TooDeep => f.write_str("an element lies too deep"),
        }
    }
}

/// Why a text gave no parts.
#[derive(Clone, Copy, Debug, PartialEq, Eq)]
pub enum CutError {
    /// Memory ran out.
    Memory,
    /// The text is refused.
    Refused(CutRefusal),
}

impl fmt::Display for CutError {
    ghost use Rattle.std.specs.Prelude.{Some};
    ghost use Rattle.body_cutter.specs.Said.{said_error};

    ghost output = { λ error. Some (said_error error) };

    fn fmt<W: fmt::Write>(&self, f: &mut fmt::Formatter<W>) -> fmt::Result {
        match self {
            CutError::Memory => f.write_str("memory ran out"),
            CutError::Refused(refusal) => write!(f, "{refusal}"),
        }
    }
}

impl std::error::Error for CutError {}

impl From<AllocError> for CutError {
    ghost use Rattle.std.specs.Prelude.{◌≡◌};
    ghost use Rattle.body_cutter.specs.declared.parts.CutError.TheVariants.{Memory};

    ghost from_gives = { λ _ e. e ≡ Memory };

    fn from(_: AllocError) -> Self {
        CutError::Memory
    }
}

ghost use Rattle.std.specs.Prelude.{◌≡◌};
ghost use Rattle.session_core.specs.Outward.{stream_in};

use bosh_types::{Closing, CopyIn, Row, SharedText, StreamNo};
use std::alloc::{AllocError, Global};

/// What the server gives on a stream.
#[derive(Debug, Drop)]
pub enum Outward {
    /// A stanza, as its bytes.
    Stanza(StreamNo, SharedText),
    /// It closed the stream.
    Close(StreamNo, Closing),
}

impl Outward {
    /// The stream that it lies on.
    pub fn stream(&self) -> StreamNo
        ensures { result ≡ stream_in self.now }
    {
        match self {
            Outward::Stanza(stream, _) => *stream,
            Outward::Close(stream, _) => *stream,
        }
    }
}

impl CopyIn for Outward {
    fn copy_in(&self, alloc: Global) -> Result<Self, AllocError> {
        match self {
            Outward::Stanza(stream, bytes) => Ok(Outward::Stanza(*stream, bytes.copy_in(alloc)?)),
            Outward::Close(stream, closing) => Ok(Outward::Close(*stream, *closing)),
        }
    }
}

/// What one answer takes of the server's items.
#[derive(Debug, Drop)]
pub enum Front {
    /// Some stanzas in order, or none.
    OfStanzas(Row<Outward>),
    /// One closing, which stands in an answer of its own.
    OfClosing(StreamNo, Closing),
}

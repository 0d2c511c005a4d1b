use crate::copies::CopyIn;
use crate::numbers::StreamNo;
use crate::shared::SharedText;
use std::alloc::{AllocError, Global};

/// What a client's request passes on towards the server.
#[derive(Debug, Drop)]
pub enum Inward {
    /// A stanza on this stream, as its exact bytes.
    Item(StreamNo, SharedText),
    /// The stream is to be restarted (XEP-0206).
    Restart(StreamNo),
    /// This stream is to be opened to the host of this name (XEP-0124, section 16). No session makes it yet.
    Open(StreamNo, SharedText),
    /// The client closed this stream alone (XEP-0124, section 16). No session makes it yet.
    Close(StreamNo),
}

impl CopyIn for Inward {
    fn copy_in(&self, alloc: Global) -> Result<Self, AllocError> {
        match self {
            Inward::Item(stream, bytes) => Ok(Inward::Item(*stream, bytes.copy_in(alloc)?)),
            Inward::Restart(stream) => Ok(Inward::Restart(*stream)),
            Inward::Open(stream, to) => Ok(Inward::Open(*stream, to.copy_in(alloc)?)),
            Inward::Close(stream) => Ok(Inward::Close(*stream)),
        }
    }
}

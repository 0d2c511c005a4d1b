// The room into which a piece is taken off a link.
ghost use Rattle.std.specs.Prelude.{◌≡◌, ◌<◌, vec_len, OnOk};

use std::alloc::{AllocError, Global};

// How many bytes are taken at once at most.
const PIECE: usize = 16384;

/// The room into which the next piece is taken. It is made when it is first wanted, and serves one connection after the other: nothing
/// stays in it.
#[derive(Debug, Drop)]
pub struct TakeRoom {
    pub(crate) bytes: Vec<u8>,
}

impl TakeRoom {
    /// Takes no memory.
    pub fn new(alloc: Global) -> TakeRoom {
        TakeRoom {
            bytes: Vec::new(alloc),
        }
    }

    // There is room for a byte at least. The only error is want of memory.
    pub(crate) fn make(&mut self) -> Result<(), AllocError>
        ensures { OnOk result (0 < vec_len self.new.bytes) }
    {
        if !self.bytes.is_empty() {
            return Ok(());
        }
        self.bytes.resize(PIECE, 0)
    }
}

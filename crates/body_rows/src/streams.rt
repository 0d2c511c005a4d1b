// Rows of streams that begin with a stanza.

use body_cutter::{CutRefusal, Fed, StanzaCutter};
use std::alloc::{AllocError, Global};

/// How many bytes the first stanza has, none where it doesn't end, or why there is none.
type Told = Result<Option<usize>, CutRefusal>;

/// How a stream begins in pieces of the first size, and the same in pieces of the others.
pub fn begins_however(
    alloc: Global,
    stream: &[u8],
    first: usize,
    others: &[usize],
) -> Result<String, AllocError> {
    let told = begins(alloc, stream, first)?;
    for size in others {
        if begins(alloc, stream, *size)? != told {
            return format!(in alloc; "otherwise in pieces of {size}");
        }
    }
    format!(in alloc; "{told:?}")
}

fn begins(alloc: Global, stream: &[u8], size: usize) -> Result<Told, AllocError> {
    let mut cutter = StanzaCutter::new(alloc);
    let mut len = 0usize;
    for piece in stream.chunks(size.max(1)) {
        match cutter.feed(piece)? {
            Fed::More(next) => cutter = next,
            Fed::Whole(count) => return Ok(Ok(Some(len.saturating_add(count)))),
            Fed::Refused(refusal) => return Ok(Err(refusal)),
        }
        len = len.saturating_add(piece.len());
    }
    Ok(Ok(None))
}

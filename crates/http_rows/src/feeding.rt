// What a reader answers that is given bytes without a link.

use crate::readers::{Reader, Reading};
use std::alloc::{AllocError, Global};

/// After how many bytes, in pieces of this size, what stands at the front, at most two a piece; and the answer at the end.
pub fn given(
    alloc: Global,
    reading: Reading,
    bytes: &[u8],
    size: usize,
) -> Result<String, AllocError> {
    let mut reader = Reader::new(alloc, reading);
    let mut told = String::new(alloc);
    let mut count = 0usize;
    for piece in bytes.chunks(size.max(1)) {
        reader.give(piece)?;
        count = count.saturating_add(piece.len());
        for _ in 0..2u32 {
            if let Some(answer) = reader.front(alloc)? {
                write!(told, "{count} {answer}, ")?;
            }
        }
    }
    let end = reader.end(alloc)?;
    told.push_str(end.as_str())?;
    Ok(told)
}

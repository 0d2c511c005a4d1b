// What a reader answers over links that give the same bytes otherwise.

use crate::readers::{Reader, Reading};
use bosh_ports::{MemoryLink, MemorySink, MemorySource};
use std::alloc::{AllocError, Global};

/// A link over these bytes in pieces of these sizes, which fails at this take, or at none where it is 0.
fn link_over(
    alloc: Global,
    bytes: &[u8],
    sizes: Vec<usize>,
    failing: u64,
) -> Result<MemoryLink, AllocError> {
    let source = MemorySource::new(Vec::from_slice(alloc, bytes)?, vec![in alloc; failing]?);
    let sink = MemorySink::new(alloc, Vec::new(alloc));
    Ok(MemoryLink::new(source, sink, sizes))
}

/// The answers of a new reader over a link, up to the fourth or the end of the stream.
fn answers(alloc: Global, reading: Reading, link: &mut MemoryLink) -> Result<String, AllocError> {
    let mut reader = Reader::new(alloc, reading);
    let mut told = reader.next(alloc, link)?;
    for _ in 0..3u32 {
        if told.as_str().ends_with("End") {
            return Ok(told);
        }
        let next = reader.next(alloc, link)?;
        told.push_str(", ")?;
        told.push_str(next.as_str())?;
    }
    Ok(told)
}

/// The answers where the bytes come one by one and the take after the last one fails; in pieces of 2, 4 and 4096 bytes they
/// are the same.
pub fn in_pieces(alloc: Global, reading: Reading, bytes: &[u8]) -> Result<String, AllocError> {
    let told = in_pieces_of(alloc, reading, bytes, 1)?;
    for size in [2, 4, 4096] {
        if in_pieces_of(alloc, reading, bytes, size)? != told {
            return format!(in alloc; "otherwise in pieces of {size}");
        }
    }
    Ok(told)
}

fn in_pieces_of(
    alloc: Global,
    reading: Reading,
    bytes: &[u8],
    size: usize,
) -> Result<String, AllocError> {
    let count = bytes.len().div_ceil(size.max(1));
    let sizes = vec![in alloc; size; count]?;
    let mut link = link_over(alloc, bytes, sizes, (count as u64).saturating_add(1))?;
    answers(alloc, reading, &mut link)
}

/// The answers where the bytes come in two pieces, the same wherever these are parted.
pub fn parted(alloc: Global, reading: Reading, bytes: &[u8]) -> Result<String, AllocError> {
    let mut link = link_over(alloc, bytes, Vec::new(alloc), 0)?;
    let told = answers(alloc, reading, &mut link)?;
    for place in 1..bytes.len() {
        let mut link = link_over(alloc, bytes, vec![in alloc; place]?, 0)?;
        if answers(alloc, reading, &mut link)? != told {
            return format!(in alloc; "otherwise parted at {place}");
        }
    }
    Ok(told)
}

/// The answers where the first take fails, the same whichever take fails of those of single bytes.
pub fn with_faults(alloc: Global, reading: Reading, bytes: &[u8]) -> Result<String, AllocError> {
    let told = with_fault(alloc, reading, bytes, 1)?;
    for take in 2..=bytes.len() as u64 {
        if with_fault(alloc, reading, bytes, take)? != told {
            return format!(in alloc; "otherwise with a fault at {take}");
        }
    }
    Ok(told)
}

fn with_fault(
    alloc: Global,
    reading: Reading,
    bytes: &[u8],
    take: u64,
) -> Result<String, AllocError> {
    let mut link = link_over(alloc, bytes, vec![in alloc; 1; bytes.len()]?, take)?;
    answers(alloc, reading, &mut link)
}

/// Whether each shorter front of these bytes, whole and byte by byte, gives the end of the stream, or is cut by its length.
pub fn fronts(alloc: Global, reading: Reading, bytes: &[u8]) -> Result<String, AllocError> {
    for count in 1..bytes.len() {
        let cut = format!(in alloc; "Cut({count})")?;
        for size in [1, 4096] {
            let sizes = vec![in alloc; size; count]?;
            let mut link = link_over(alloc, &bytes[..count], sizes, 0)?;
            let mut reader = Reader::new(alloc, reading);
            let told = reader.next(alloc, &mut link)?;
            let is_end = matches!(reading, Reading::Responses) && told.as_str() == "End";
            if !is_end && told != cut {
                return format!(in alloc; "{count} bytes in pieces of {size}: {told}");
            }
        }
    }
    String::from_str(alloc, "cut")
}

/// The answers to a byte 0 alone, the same behind each front of these bytes.
pub fn wrong_bytes(alloc: Global, reading: Reading, bytes: &[u8]) -> Result<String, AllocError> {
    let told = in_pieces_of(alloc, reading, &[0], 1)?;
    for place in 1..bytes.len() {
        let mut text = Vec::from_slice(alloc, &bytes[..place])?;
        text.push(0)?;
        if in_pieces_of(alloc, reading, text.as_slice(), 1)? != told {
            return format!(in alloc; "otherwise at {place}");
        }
    }
    Ok(told)
}

// The bytes that a row writes: `\n`, `\r`, `\t`, `\xHH` for a byte, and `\{3*ab\}` for what is between three times.

use std::alloc::{AllocError, Global};

/// The bytes of a row, unless an escape is wrong.
pub fn bytes_of(alloc: Global, row: &str) -> Result<Option<Vec<u8>>, AllocError> {
    let mut bytes = Vec::new(alloc);
    let mut repeats = Repeats { start: 0, count: 0 };
    let mut is_first = true;
    for part in row.split('\\') {
        if is_first {
            bytes.extend_from_slice(part.as_bytes())?;
        } else if !push_escaped(alloc, &mut bytes, &mut repeats, part.as_bytes())? {
            return Ok(None);
        }
        is_first = false;
    }
    Ok(Some(bytes))
}

/// What is repeated begins here, and stands so many times.
#[derive(Clone, Copy)]
struct Repeats {
    start: usize,
    count: u32,
}

/// Pushes what stands behind a backslash, and says whether it is an escape.
fn push_escaped(
    alloc: Global,
    bytes: &mut Vec<u8>,
    repeats: &mut Repeats,
    part: &[u8],
) -> Result<bool, AllocError> {
    match part {
        [b'n', rest @ ..] => push_front(bytes, b'\n', rest),
        [b'r', rest @ ..] => push_front(bytes, b'\r', rest),
        [b't', rest @ ..] => push_front(bytes, b'\t', rest),
        [b'x', high, low, rest @ ..] => push_front(bytes, byte_of(*high, *low), rest),
        [b'{', rest @ ..] => begin(bytes, repeats, rest),
        [b'}', rest @ ..] => repeat(alloc, bytes, repeats, rest),
        _ => Ok(false),
    }
}

fn push_front(bytes: &mut Vec<u8>, byte: u8, rest: &[u8]) -> Result<bool, AllocError> {
    bytes.push(byte)?;
    bytes.extend_from_slice(rest)?;
    Ok(true)
}

fn byte_of(high: u8, low: u8) -> u8 {
    digit(high).wrapping_mul(16) | digit(low)
}

/// The value of a hexadecimal digit in lower case.
fn digit(byte: u8) -> u8 {
    match byte {
        b'0'..=b'9' => byte - b'0',
        b'a'..=b'f' => byte - b'a' + 10,
        _ => 0,
    }
}

/// Notes the count before a `*`, and pushes what is behind it.
fn begin(bytes: &mut Vec<u8>, repeats: &mut Repeats, part: &[u8]) -> Result<bool, AllocError> {
    repeats.start = bytes.len();
    repeats.count = 0;
    for (place, byte) in part.iter().enumerate() {
        if *byte == b'*' {
            bytes.extend_from_slice(&part[place..][1..])?;
            return Ok(true);
        }
        let digit = u32::from(digit(*byte));
        repeats.count = repeats.count.wrapping_mul(10).wrapping_add(digit);
    }
    Ok(false)
}

/// Pushes what is repeated as often as it still has to stand, and what is behind it.
fn repeat(
    alloc: Global,
    bytes: &mut Vec<u8>,
    repeats: &Repeats,
    rest: &[u8],
) -> Result<bool, AllocError> {
    let Some(once) = bytes.get(repeats.start..) else {
        return Ok(false);
    };
    let once = Vec::from_slice(alloc, once)?;
    for _ in 1..repeats.count {
        bytes.extend_from_slice(once.as_slice())?;
    }
    bytes.extend_from_slice(rest)?;
    Ok(true)
}

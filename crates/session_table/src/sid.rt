// The names of sessions, and the opening numbers at their ends.
ghost use Rattle.std.specs.Prelude.{◌≡◌, ℕ, ◌≤◌, ◌<◌, ◌++◌, ◌-◌, List, IfOk, Some, drop, false, length, not, true};
ghost use Rattle.std.specs.List.{list_all};
ghost use Rattle.std.specs.Char.{is_ascii_digit};
ghost use Rattle.server_ports.specs.Names.{IsNamePart, is_name_byte, last_is_digit};
ghost use Rattle.session_table.specs.Sids.{EndsInDigits, IsSidOf, highest_number, sid_of};

use bosh_types::{SharedText, Text};
use std::alloc::{AllocError, Global};
use std::fmt::Write;

// How many bytes may be drawn for a name.
const LONGEST_PART: usize = 32;

/// The name of the session with this opening number, after the part that was drawn for it.
pub(crate) fn sid_text(alloc: Global, part: &[u8], number: u64) -> Result<SharedText, AllocError>
    ensures { IfOk result (λ sid. sid ≡ sid_of part.now number) }
{
    let digits = format!(in alloc; "{number}")?;
    let mut sid = Vec::from_slice(alloc, part)?;
    sid.extend_from_slice(digits.as_bytes())?;
    SharedText::new(alloc, Text::from_vec(sid))
}

// The digits at the end of a text.
fn digits_at_end(text: &[u8]) -> &[u8]
    ensures { EndsInDigits text.now result.now }
{
    let mut start = text.len();
    while start > 0 {
        if !text[start - 1].is_ascii_digit() {
            return &text[start..];
        }
        start -= 1;
    }
    text
}

/// The opening number at the end of a name. A text that is no name of a session may have another number or none.
pub(crate) fn number_in(sid: &[u8]) -> Option<u64>
    ensures { (number : ℕ) → number ≤ highest_number → IsSidOf sid.now number → result ≡ Some number }
{
    let Ok(digits) = str::from_utf8(digits_at_end(sid)) else {
        return None;
    };
    digits.parse().ok()
}

/// Whether this is a name of the session with this number. The only error is want of memory.
pub(crate) fn is_sid(alloc: Global, sid: &[u8], number: u64) -> Result<bool, AllocError>
    ensures { IfOk result (λ answer. answer ≡ true → IsSidOf sid.now number) }
{
    let digits = format!(in alloc; "{number}")?;
    match sid.strip_suffix(digits.as_bytes()) {
        Some(part) => Ok(is_name_part(part)),
        None => Ok(false),
    }
}

// Whether this may be drawn for a name.
fn is_name_part(part: &[u8]) -> bool
    ensures { result ≡ true → IsNamePart part.now }
{
    if part.is_empty() || part.len() > LONGEST_PART {
        return false;
    }
    if ends_in_digit(part) {
        return false;
    }
    are_name_bytes(part)
}

// Whether each of these is a letter, a digit or `-`.
fn are_name_bytes(text: &[u8]) -> bool
    ensures { result ≡ list_all is_name_byte text.now }
{
    let mut left = text;
    while let [byte, others @ ..] = left {
        if !is_name_byte(*byte) {
            return false;
        }
        left = others;
    }
    true
}

fn is_name_byte(byte: u8) -> bool
    ensures { result ≡ is_name_byte byte }
{
    if byte == b'-' {
        return true;
    }
    byte.is_ascii_alphanumeric()
}

// Whether the last byte is a digit.
fn ends_in_digit(part: &[u8]) -> bool
    ensures { result ≡ last_is_digit false part.now }
{
    let mut is_digit = false;
    for byte in part {
        is_digit = byte.is_ascii_digit();
    }
    is_digit
}

// The opening number at the end of a session's name.
ghost use Rattle.serve_trace.specs.Names.{EndsInDigits};

// All the digits at the end of a text.
fn digits_at_end(text: &[u8]) -> &[u8]
    ensures { EndsInDigits text.now result.now }
{
    let mut start = text.len();
    while start > 0 {
        if !text[start - 1].is_ascii_digit() {
            return &text[start..];
        }
        start -= 1;
    }
    text
}

/// The opening number at the end of a session's name. A text that is no name of a session may have another number or none.
pub fn number_of_name(sid: &[u8]) -> Option<u64> {
    let Ok(digits) = str::from_utf8(digits_at_end(sid)) else {
        return None;
    };
    digits.parse().ok()
}

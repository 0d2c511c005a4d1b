// What the fields of a head say of its message.
ghost use Rattle.std.specs.Prelude.{◌≡◌, ◌<◌, [], ◌∷◌, true, false, length, map, All, Some, None, IfSome, IfNone, if◌then◌else◌};
ghost use Rattle.std.specs.Char.{is_ascii_digit};
ghost use Rattle.std.specs.List.{list_all};
ghost use Rattle.std.specs.Str.Parse.{digits_value};
ghost use Rattle.httparse.specs.Spans.{IsHeaderWithin, header_bytes};
ghost use Rattle.bosh_http.specs.Fields.{values_at, has_bad_host, has_transfer, has_encoding, has_no_length, is_length, has_other_length, has_bad_length, is_closing, lengths_of, first_length};

use crate::words::{has_word, is_same_word};
use httparse::spans::HeaderSpan;

// The first value of a name, and the fields after it.
pub(crate) fn next_value<'b, 'h>(
    bytes: &'b [u8],
    name: &[u8],
    headers: &'h [HeaderSpan],
) -> Option<(&'b [u8], &'h [HeaderSpan])>
    requires { All (IsHeaderWithin (length bytes.now)) headers.now }
    ensures some { IfSome result (λ found. values_at bytes.now name.now headers.now ≡ found.0.now ∷ values_at bytes.now name.now found.1.now) }
    ensures none { IfNone result (values_at bytes.now name.now headers.now ≡ []) }
    ensures within { IfSome result (λ found. All (IsHeaderWithin (length bytes.now)) found.1.now) }
    ensures fewer { IfSome result (λ found. length found.1.now < length headers.now) }
{
    let mut left = headers;
    while let [header, others @ ..] = left {
        if is_same_word(name, header.name.of(bytes)) {
            return Some((header.value.of(bytes), others));
        }
        left = others;
    }
    None
}

// Whether Host is missing in HTTP/1.1, or is there twice.
pub(crate) fn has_bad_host(minor: u8, bytes: &[u8], headers: &[HeaderSpan]) -> bool
    requires { All (IsHeaderWithin (length bytes.now)) headers.now }
    ensures { result ≡ has_bad_host minor (map (header_bytes bytes.now) headers.now) }
{
    match next_value(bytes, b"host", headers) {
        Some((_, others)) => next_value(bytes, b"host", others).is_some(),
        None => minor == 1,
    }
}

// Whether the content comes in another framing.
pub(crate) fn has_transfer(bytes: &[u8], headers: &[HeaderSpan]) -> bool
    requires { All (IsHeaderWithin (length bytes.now)) headers.now }
    ensures { result ≡ has_transfer (map (header_bytes bytes.now) headers.now) }
{
    next_value(bytes, b"transfer-encoding", headers).is_some()
}

// Whether the content is encoded.
pub(crate) fn has_encoding(bytes: &[u8], headers: &[HeaderSpan]) -> bool
    requires { All (IsHeaderWithin (length bytes.now)) headers.now }
    ensures { result ≡ has_encoding (map (header_bytes bytes.now) headers.now) }
{
    let mut left = headers;
    while let Some((value, others)) = next_value(bytes, b"content-encoding", left) {
        if !is_same_word(b"identity", value) {
            return true;
        }
        left = others;
    }
    false
}

// Whether the connection ends after the response.
pub(crate) fn is_closing(minor: u8, bytes: &[u8], headers: &[HeaderSpan]) -> bool
    requires { All (IsHeaderWithin (length bytes.now)) headers.now }
    ensures { result ≡ is_closing minor (map (header_bytes bytes.now) headers.now) }
{
    if minor == 0 {
        return true;
    }
    let mut left = headers;
    while let Some((value, others)) = next_value(bytes, b"connection", left) {
        if has_word(b"close", value) {
            return true;
        }
        left = others;
    }
    false
}

// Whether each byte is a digit.
fn are_digits(bytes: &[u8]) -> bool
    ensures { result ≡ list_all is_ascii_digit bytes.now }
{
    bytes.iter().all(|byte| byte.is_ascii_digit())
}

// Whether this is 1 to 18 digits and nothing else.
fn is_length(value: &[u8]) -> bool
    ensures { result ≡ is_length value.now }
{
    if value.is_empty() {
        return false;
    }
    if value.len() > 18 {
        return false;
    }
    are_digits(value)
}

// The number that 1 to 18 digits state.
fn number_of(digits: &[u8]) -> u64
    requires { is_length digits.now ≡ true }
    ensures { result ≡ digits_value 10 digits.now }
{
    let mut number = 0u64;
    for digit in digits {
        number = number * 10 + u64::from(*digit - b'0');
    }
    number
}

// The number that a value states, if it is a length.
pub(crate) fn length_of(value: &[u8]) -> Option<u64>
    ensures { result ≡ (if is_length value.now then Some (digits_value 10 value.now) else None) }
{
    if is_length(value) {
        return Some(number_of(value));
    }
    None
}

// Whether one isn't a number, or states another number than this.
pub(crate) fn has_other_length(number: u64, bytes: &[u8], headers: &[HeaderSpan]) -> bool
    requires { All (IsHeaderWithin (length bytes.now)) headers.now }
    ensures { result ≡ has_other_length number (lengths_of (map (header_bytes bytes.now) headers.now)) }
{
    let mut left = headers;
    while let Some((value, others)) = next_value(bytes, b"content-length", left) {
        if length_of(value) != Some(number) {
            return true;
        }
        left = others;
    }
    false
}

// Whether no length is stated.
pub(crate) fn has_no_length(bytes: &[u8], headers: &[HeaderSpan]) -> bool
    requires { All (IsHeaderWithin (length bytes.now)) headers.now }
    ensures { result ≡ has_no_length (map (header_bytes bytes.now) headers.now) }
{
    next_value(bytes, b"content-length", headers).is_none()
}

// Whether a stated length isn't a number, or two are not the same number.
pub(crate) fn has_bad_length(bytes: &[u8], headers: &[HeaderSpan]) -> bool
    requires { All (IsHeaderWithin (length bytes.now)) headers.now }
    ensures { result ≡ has_bad_length (map (header_bytes bytes.now) headers.now) }
{
    match next_value(bytes, b"content-length", headers) {
        Some((value, _)) => match length_of(value) {
            Some(number) => has_other_length(number, bytes, headers),
            None => true,
        },
        None => false,
    }
}

// The number that the first length states.
pub(crate) fn first_length(bytes: &[u8], headers: &[HeaderSpan]) -> u64
    requires { All (IsHeaderWithin (length bytes.now)) headers.now }
    ensures { has_bad_length (map (header_bytes bytes.now) headers.now) ≡ false → result ≡ first_length (lengths_of (map (header_bytes bytes.now) headers.now)) }
{
    match next_value(bytes, b"content-length", headers) {
        Some((value, _)) => length_of(value).unwrap_or(0),
        None => 0,
    }
}

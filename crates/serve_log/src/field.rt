// A line of a log: fields as `name=value`.
ghost use Rattle.std.specs.Prelude.{◌≡◌, ◌<◌, ◌/◌, ◌%◌, ◌++◌, ◌∷◌, [], OnOk};
ghost use Rattle.std.specs.Fmt.{decimal};
ghost use Rattle.std.specs.List.{list_all};
ghost use Rattle.serve_log.specs.Fields.{all_escaped, escaped, field_text, fields_text, hex_of, is_plain, is_plain_word, line_text, shown_text, value_text};

use std::alloc::{AllocError, Global};

/// What a field says.
#[derive(Clone, Copy, Debug)]
pub enum Value<'v> {
    Text(&'v [u8]),
    Count(u64),
}

/// A field of a line.
#[derive(Clone, Copy, Debug)]
pub struct Field<'f> {
    pub name: &'f str,
    pub value: Value<'f>,
}

// One more byte.
fn push_byte(out: &mut Vec<u8>, byte: u8) -> Result<(), AllocError>
    ensures { OnOk result (out.new.items ≡ out.old.items ++ byte ∷ []) }
{
    out.push(byte)?;
    Ok(())
}

// Whether a byte stands for itself in a value without quotes: what is seen of ASCII, but `"` and `\`.
fn is_plain(byte: u8) -> bool
    ensures { result ≡ is_plain byte }
{
    if byte == b'"' {
        return false;
    }
    if byte == b'\\' {
        return false;
    }
    byte.is_ascii_graphic()
}

// Whether a text stands for itself.
fn is_plain_word(text: &[u8]) -> bool
    ensures { result ≡ is_plain_word text.now }
{
    if text.is_empty() {
        return false;
    }
    are_plain(text)
}

fn are_plain(text: &[u8]) -> bool
    ensures { result ≡ list_all is_plain text.now }
{
    let mut left = text;
    while let [byte, others @ ..] = left {
        if !is_plain(*byte) {
            return false;
        }
        left = others;
    }
    true
}

// A byte within quotes: `"` and `\` have `\` before them, what isn't seen of ASCII is `\x` and two hexadecimal digits, and all else is itself.
#[tactic(auto, unfolding(crate::specs::Fields::escaped))]
fn push_escaped(out: &mut Vec<u8>, byte: u8) -> Result<(), AllocError>
    ensures { OnOk result (out.new.items ≡ out.old.items ++ escaped byte) }
{
    if byte == b'"' {
        return out.extend_from_slice(b"\\\"");
    }
    if byte == b'\\' {
        return out.extend_from_slice(b"\\\\");
    }
    if byte < 32 {
        return push_hex(out, byte);
    }
    if byte == 127 {
        return out.extend_from_slice(b"\\x7f");
    }
    push_byte(out, byte)
}

// `\x` and two hexadecimal digits.
fn push_hex(out: &mut Vec<u8>, byte: u8) -> Result<(), AllocError>
    requires { byte < 32 }
    ensures { OnOk result (out.new.items ≡ out.old.items ++ 92 ∷ 120 ∷ hex_of (byte / 16) ∷ hex_of (byte % 16) ∷ []) }
{
    out.extend_from_slice(&[b'\\', b'x', hex_digit(byte / 16), hex_digit(byte % 16)])
}

fn hex_digit(digit: u8) -> u8
    requires { digit < 16 }
    ensures { result ≡ hex_of digit }
{
    if digit < 10 {
        return b'0' + digit;
    }
    b'a' + (digit - 10)
}

// All bytes of a text, within quotes.
fn push_all_escaped(out: &mut Vec<u8>, text: &[u8]) -> Result<(), AllocError>
    ensures { OnOk result (out.new.items ≡ out.old.items ++ all_escaped text.now) }
{
    let mut left = text;
    while let [byte, others @ ..] = left {
        push_escaped(out, *byte)?;
        left = others;
    }
    Ok(())
}

// A text as a value: by itself, or within quotes where some of it could be taken for something else, or none is there.
#[tactic(auto, unfolding(crate::specs::Fields::shown_text))]
fn push_text(out: &mut Vec<u8>, text: &[u8]) -> Result<(), AllocError>
    ensures { OnOk result (out.new.items ≡ out.old.items ++ shown_text text.now) }
{
    if is_plain_word(text) {
        return out.extend_from_slice(text);
    }
    out.push(b'"')?;
    push_all_escaped(out, text)?;
    push_byte(out, b'"')
}

fn push_count(alloc: Global, out: &mut Vec<u8>, count: u64) -> Result<(), AllocError>
    ensures { OnOk result (out.new.items ≡ out.old.items ++ decimal count) }
{
    let digits = count.to_string(alloc)?;
    out.extend_from_slice(digits.as_bytes())
}

#[tactic(auto, unfolding(crate::specs::Fields::value_text))]
fn push_value(alloc: Global, out: &mut Vec<u8>, value: &Value<'_>) -> Result<(), AllocError>
    ensures { OnOk result (out.new.items ≡ out.old.items ++ value_text value.now) }
{
    match value {
        Value::Text(text) => push_text(out, text),
        Value::Count(count) => push_count(alloc, out, *count),
    }
}

#[tactic(auto, unfolding(crate::specs::Fields::field_text))]
fn push_field(alloc: Global, out: &mut Vec<u8>, field: &Field<'_>) -> Result<(), AllocError>
    ensures { OnOk result (out.new.items ≡ out.old.items ++ field_text field.now) }
{
    out.extend_from_slice(field.name.as_bytes())?;
    out.push(b'=')?;
    push_value(alloc, out, &field.value)
}

// Fields, each after a space.
fn push_fields(alloc: Global, out: &mut Vec<u8>, fields: &[Field<'_>]) -> Result<(), AllocError>
    ensures { OnOk result (out.new.items ≡ out.old.items ++ fields_text fields.now) }
{
    let mut left = fields;
    while let [field, others @ ..] = left {
        out.push(b' ')?;
        push_field(alloc, out, field)?;
        left = others;
    }
    Ok(())
}

/// Puts the line with this first field and these others behind what is there. The only error is want of memory, and then a part of it may be
/// there.
pub fn push_line(
    alloc: Global,
    out: &mut Vec<u8>,
    first: &Field<'_>,
    others: &[Field<'_>],
) -> Result<(), AllocError>
    ensures { OnOk result (out.new.items ≡ out.old.items ++ line_text first.now others.now) }
{
    push_field(alloc, out, first)?;
    push_fields(alloc, out, others)?;
    push_byte(out, b'\n')
}

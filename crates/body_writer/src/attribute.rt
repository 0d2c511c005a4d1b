// Building a body's text piece by piece.
ghost use Rattle.std.specs.Prelude.{◌≡◌, ◌++◌, [], ◌∷◌, IfOk, OnOk};
ghost use Rattle.std.specs.Fmt.{decimal};
ghost use Rattle.body_writer.specs.Attribute.{attribute, escaped, escaped_byte, joined, closed_with};
ghost use Rattle.body_writer.specs.Rows.{rows_text, httpbind_row, xbosh_row, xmpp_version_row, named_rows};

use bosh_types::{Stanzas, StreamNo, Text};
use std::alloc::{AllocError, Global};
use stream_names::name_of;

// How many bytes all attributes take at most, but for the values that are texts.
const ROOM: usize = 1024;

// Room for a body of these payloads, so that its text needn't move as it grows.
pub(crate) fn room_for(alloc: Global, payloads: &Stanzas) -> Result<Vec<u8>, AllocError>
    ensures { IfOk result (λ text. text.items ≡ []) }
{
    let mut room = ROOM;
    for payload in payloads.as_slice() {
        room = room.saturating_add(payload.len());
    }
    Vec::with_capacity(alloc, room)
}

// Puts an attribute at the end, whose value needs no reference.
#[tactic(auto, unfolding(crate::specs::Attribute::attribute))]
pub(crate) fn push_attribute(text: &mut Vec<u8>, name: &str, value: &[u8]) -> Result<(), AllocError>
    ensures { OnOk result (text.new.items ≡ text.old.items ++ attribute name.now value.now) }
{
    text.push(b' ')?;
    text.extend_from_slice(name.as_bytes())?;
    text.extend_from_slice(b"='")?;
    text.extend_from_slice(value)?;
    text.push(b'\'')?;
    Ok(())
}

pub(crate) fn push_number(
    alloc: Global,
    text: &mut Vec<u8>,
    name: &str,
    number: u64,
) -> Result<(), AllocError>
    ensures { OnOk result (text.new.items ≡ text.old.items ++ attribute name.now (decimal number)) }
{
    let digits = number.to_string(alloc)?;
    push_attribute(text, name, digits.as_bytes())
}

// Puts an attribute at the end whose value is any text.
#[tactic(auto, unfolding(crate::specs::Attribute::attribute))]
pub(crate) fn push_text(text: &mut Vec<u8>, name: &str, value: &Text) -> Result<(), AllocError>
    ensures { OnOk result (text.new.items ≡ text.old.items ++ attribute name.now (escaped value.now)) }
{
    text.push(b' ')?;
    text.extend_from_slice(name.as_bytes())?;
    text.extend_from_slice(b"='")?;
    push_escaped(text, value.as_slice())?;
    text.push(b'\'')?;
    Ok(())
}

fn push_escaped(text: &mut Vec<u8>, value: &[u8]) -> Result<(), AllocError>
    ensures { OnOk result (text.new.items ≡ text.old.items ++ escaped value.now) }
{
    for byte in value {
        push_escaped_byte(text, *byte)?;
    }
    Ok(())
}

#[tactic(auto, unfolding(crate::specs::Attribute::escaped_byte))]
fn push_escaped_byte(text: &mut Vec<u8>, byte: u8) -> Result<(), AllocError>
    ensures { OnOk result (text.new.items ≡ text.old.items ++ escaped_byte byte) }
{
    match byte {
        b'&' => text.extend_from_slice(b"&amp;"),
        b'<' => text.extend_from_slice(b"&lt;"),
        b'\'' => text.extend_from_slice(b"&apos;"),
        b'\t' => text.extend_from_slice(b"&#9;"),
        b'\n' => text.extend_from_slice(b"&#10;"),
        b'\r' => text.extend_from_slice(b"&#13;"),
        _ => text.extend_from_slice(&[byte]),
    }
}

pub(crate) fn push_httpbind(text: &mut Vec<u8>) -> Result<(), AllocError>
    ensures { OnOk result (text.new.items ≡ text.old.items ++ rows_text (httpbind_row ∷ [])) }
{
    push_attribute(text, "xmlns", b"http://jabber.org/protocol/httpbind")
}

pub(crate) fn push_xbosh(text: &mut Vec<u8>) -> Result<(), AllocError>
    ensures { OnOk result (text.new.items ≡ text.old.items ++ rows_text (xbosh_row ∷ [])) }
{
    push_attribute(text, "xmlns:xmpp", b"urn:xmpp:xbosh")
}

pub(crate) fn push_xmpp_version(text: &mut Vec<u8>) -> Result<(), AllocError>
    ensures { OnOk result (text.new.items ≡ text.old.items ++ rows_text (xmpp_version_row ∷ [])) }
{
    push_attribute(text, "xmpp:version", b"1.0")
}

// Puts the name of a stream at the end, where there is one.
#[tactic(auto, unfolding(crate::specs::Rows::named_rows))]
pub(crate) fn push_named(text: &mut Vec<u8>, stream: Option<StreamNo>) -> Result<(), AllocError>
    ensures { OnOk result (text.new.items ≡ text.old.items ++ rows_text (named_rows stream)) }
{
    match stream {
        None => Ok(()),
        Some(stream) => push_attribute(text, "stream", &name_of(stream)),
    }
}

// Puts the payloads and the end of the body at the end.
#[tactic(auto, unfolding(crate::specs::Attribute::closed_with))]
pub(crate) fn push_payloads(text: &mut Vec<u8>, payloads: &Stanzas) -> Result<(), AllocError>
    ensures { OnOk result (text.new.items ≡ text.old.items ++ closed_with payloads.now) }
{
    let payloads = payloads.as_slice();
    if payloads.is_empty() {
        return text.extend_from_slice(b"/>");
    }
    text.push(b'>')?;
    push_joined(text, payloads)?;
    text.extend_from_slice(b"</body>")
}

fn push_joined(text: &mut Vec<u8>, payloads: &[Text]) -> Result<(), AllocError>
    ensures { OnOk result (text.new.items ≡ text.old.items ++ joined payloads.now) }
{
    for payload in payloads {
        text.extend_from_slice(payload.as_slice())?;
    }
    Ok(())
}

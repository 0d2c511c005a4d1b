// The text that is written on a stream.
ghost use Rattle.std.specs.Prelude.{◌≡◌, ◌++◌, IfOk, OnErr, OnOk};
ghost use Rattle.body_writer.specs.Attribute.{escaped, escaped_byte};
ghost use Rattle.xmpp_stream.specs.Text.{end_tag, header, header_back, header_front, item_text};

use bosh_types::Inward;
use std::alloc::{AllocError, Global};

// How many bytes a header takes to most hosts.
const HEADER_ROOM: usize = 256;

#[tactic(auto, unfolding(body_writer::specs::Attribute::escaped_byte))]
fn push_escaped_byte(text: &mut Vec<u8>, byte: u8) -> Result<(), AllocError>
    ensures { OnOk result (text.new.items ≡ text.old.items ++ escaped_byte byte) }
{
    match byte {
        b'&' => text.extend_from_slice(b"&amp;"),
        b'<' => text.extend_from_slice(b"&lt;"),
        b'\'' => text.extend_from_slice(b"&apos;"),
        b'\t' => text.extend_from_slice(b"&#9;"),
        b'\n' => text.extend_from_slice(b"&#10;"),
        b'\r' => text.extend_from_slice(b"&#13;"),
        _ => text.extend_from_slice(&[byte]),
    }
}

fn push_escaped(text: &mut Vec<u8>, value: &[u8]) -> Result<(), AllocError>
    ensures { OnOk result (text.new.items ≡ text.old.items ++ escaped value.now) }
{
    for byte in value {
        push_escaped_byte(text, *byte)?;
    }
    Ok(())
}

#[tactic(auto, unfolding(crate::specs::Text::header_front))]
fn push_front(text: &mut Vec<u8>) -> Result<(), AllocError>
    ensures { OnOk result (text.new.items ≡ text.old.items ++ header_front) }
{
    text.extend_from_slice(b"<?xml version='1.0'?><stream:stream to='")
}

#[tactic(auto, unfolding(crate::specs::Text::header_back))]
fn push_back(text: &mut Vec<u8>) -> Result<(), AllocError>
    ensures { OnOk result (text.new.items ≡ text.old.items ++ header_back) }
{
    text.extend_from_slice(
        b"' version='1.0' xmlns='jabber:client' xmlns:stream='http://etherx.jabber.org/streams'>",
    )
}

// The header of a stream to this host.
fn header_of(alloc: Global, to: &[u8]) -> Result<Vec<u8>, AllocError>
    ensures { IfOk result (λ text. text.items ≡ header to.now) }
{
    let mut text = Vec::with_capacity(alloc, HEADER_ROOM)?;
    push_front(&mut text)?;
    push_escaped(&mut text, to)?;
    push_back(&mut text)?;
    Ok(text)
}

/// Puts the header of a stream to this host at the end (RFC 6120 section 4.7). The only error is want of memory, after which the
/// text is as before.
pub fn push_header(alloc: Global, text: &mut Vec<u8>, to: &[u8]) -> Result<(), AllocError>
    ensures ok { OnOk result (text.new.items ≡ text.old.items ++ header to.now) }
    ensures err { OnErr result (text.new.items ≡ text.old.items) }
{
    let header = header_of(alloc, to)?;
    text.extend_from_slice(header.as_slice())
}

/// Puts the text of an item at the end, on a stream to this host: a stanza as its bytes, and a header for a restart. The only
/// error is want of memory, after which the text is as before.
pub fn push_item(
    alloc: Global,
    text: &mut Vec<u8>,
    to: &[u8],
    item: &Inward,
) -> Result<(), AllocError>
    ensures ok { OnOk result (text.new.items ≡ text.old.items ++ item_text to.now item.now) }
    ensures err { OnErr result (text.new.items ≡ text.old.items) }
{
    match item {
        Inward::Item(_, stanza) => text.extend_from_slice(stanza.as_slice()),
        Inward::Restart(_) => push_header(alloc, text, to),
        Inward::Open(_, _) | Inward::Close(_) => Ok(()),
    }
}

/// Puts the end tag at the end (RFC 6120 section 4.4). The only error is want of memory, after which the text is as before.
#[tactic(auto, unfolding(crate::specs::Text::end_tag))]
pub fn push_end(text: &mut Vec<u8>) -> Result<(), AllocError>
    ensures ok { OnOk result (text.new.items ≡ text.old.items ++ end_tag) }
    ensures err { OnErr result (text.new.items ≡ text.old.items) }
{
    text.extend_from_slice(b"</stream:stream>")
}

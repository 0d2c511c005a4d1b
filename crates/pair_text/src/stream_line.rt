// What a line of a script of two ends says that adds a stream or names one (XEP-0124, section 16).
ghost use Rattle.std.specs.Prelude.{◌≡◌, IfOk};
ghost use Rattle.pair_text.specs.StreamLine.{add_line, give_on_line, put_on_line, shut_on_line, stanza_on, stop_on_line, stream_line, stream_of};

use crate::numbers::read_number;
use bosh_types::{StreamNo, Text};
use script_text::{read_closing, split_word};
use session_attrs::{is_host_name, is_stanza};
use std::alloc::{AllocError, Global};
use world_laws::WorldEvent;

// A line whose first word is this, where more follows.
#[tactic(auto, unfolding(crate::specs::StreamLine::stream_line))]
pub(crate) fn read_stream_line(
    alloc: Global,
    word: &[u8],
    rest: &[u8],
) -> Result<Option<Option<WorldEvent>>, AllocError>
    ensures { IfOk result (λ said. said ≡ stream_line word.now rest.now) }
{
    if word == b"add".as_slice() {
        return Ok(Some(read_add(alloc, rest)?));
    }
    if word == b"puton".as_slice() {
        return Ok(Some(read_put_on(alloc, rest)?));
    }
    if word == b"stopon".as_slice() {
        return Ok(Some(read_stop_on(rest)));
    }
    if word == b"giveon".as_slice() {
        return Ok(Some(read_give_on(alloc, rest)?));
    }
    if word == b"shuton".as_slice() {
        return Ok(Some(read_shut_on(rest)));
    }
    Ok(None)
}

fn read_add(alloc: Global, text: &[u8]) -> Result<Option<WorldEvent>, AllocError>
    ensures { IfOk result (λ said. said ≡ add_line text.now) }
{
    if !is_host_name(text) {
        return Ok(None);
    }
    let to = Text::from_vec(Vec::from_slice(alloc, text)?);
    Ok(Some(WorldEvent::Add(to)))
}

fn read_put_on(alloc: Global, text: &[u8]) -> Result<Option<WorldEvent>, AllocError>
    ensures { IfOk result (λ said. said ≡ put_on_line text.now) }
{
    match read_stanza_on(alloc, text)? {
        Some((stream, stanza)) => Ok(Some(WorldEvent::PutOn(stream, stanza))),
        None => Ok(None),
    }
}

fn read_give_on(alloc: Global, text: &[u8]) -> Result<Option<WorldEvent>, AllocError>
    ensures { IfOk result (λ said. said ≡ give_on_line text.now) }
{
    match read_stanza_on(alloc, text)? {
        Some((stream, stanza)) => Ok(Some(WorldEvent::GiveOn(stream, stanza))),
        None => Ok(None),
    }
}

fn read_stop_on(text: &[u8]) -> Option<WorldEvent>
    ensures { result ≡ stop_on_line text.now }
{
    let stream = read_stream(text)?;
    Some(WorldEvent::StopOn(stream))
}

fn read_shut_on(text: &[u8]) -> Option<WorldEvent>
    ensures { result ≡ shut_on_line text.now }
{
    let (word, rest) = split_word(text);
    let rest = rest?;
    let stream = read_stream(word)?;
    let closing = read_closing(rest)?;
    Some(WorldEvent::ShutOn(stream, closing))
}

// A stream and a stanza.
fn read_stanza_on(alloc: Global, text: &[u8]) -> Result<Option<(StreamNo, Text)>, AllocError>
    ensures { IfOk result (λ on. on ≡ stanza_on text.now) }
{
    let (word, Some(rest)) = split_word(text) else {
        return Ok(None);
    };
    let Some(stream) = read_stream(word) else {
        return Ok(None);
    };
    if !is_stanza(alloc, rest)? {
        return Ok(None);
    }
    let stanza = Text::from_vec(Vec::from_slice(alloc, rest)?);
    Ok(Some((stream, stanza)))
}

// The number of a stream.
fn read_stream(text: &[u8]) -> Option<StreamNo>
    ensures { result ≡ stream_of text.now }
{
    let number = read_number(text)?;
    StreamNo::new(u16::try_from(number).ok()?)
}

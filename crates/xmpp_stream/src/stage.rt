// Where a stream stands, and where its tags lead.
ghost use Rattle.std.specs.Prelude.{◌≡◌, ◌++◌, ◌&&◌, ◌||◌, ◌==◌, drop, length, IfOk};
ghost use Rattle.std.specs.List.{list_all};
ghost use Rattle.body_cutter.specs.Chars.{is_plain, is_space};
ghost use Rattle.body_cutter.specs.Cutting.{is_stanza};
ghost use Rattle.body_cutter.specs.Viable.{ends_name};
ghost use Rattle.xmpp_stream.specs.Stream.{after_space, after_tag, error_mark, is_declaration, is_end_tag, is_ended, is_inside, is_named, is_start_tag, mark_in, mark_of, stream_mark, takes_declaration, takes_header, unnamed_mark};
ghost use Rattle.xmpp_stream.specs.Tag.{first_is};
ghost use Rattle.xmpp_stream.specs.Text.{end_tag};

use crate::stream_text::push_end;
use crate::tag::{ends_name, is_space};
use body_cutter::{CutError, read_stanza};
use std::alloc::{AllocError, Global};

// Where a stream stands.
#[derive(Clone, Copy, Debug, PartialEq, Eq)]
pub(crate) enum Stage {
    // Nothing came yet.
    Begun,
    // A header has to come.
    Waits,
    // Elements may come.
    Inside,
    // The end tag came.
    Ended,
}

// What a text may be that begins with `<`.
#[derive(Clone, Copy, Debug, PartialEq, Eq)]
pub(crate) enum Mark {
    // A tag of the stream itself, or a declaration.
    Tag,
    Element,
    // That isn't seen yet.
    Undecided,
}

const STREAM: &[u8] = b"<stream:stream";

#[tactic(auto, unfolding(body_cutter::specs::Cutting::is_stanza))]
pub(crate) fn is_stanza(alloc: Global, text: &[u8]) -> Result<bool, AllocError>
    ensures { IfOk result (λ yes. yes ≡ is_stanza text.now) }
{
    match read_stanza(alloc, text) {
        Ok(()) => Ok(true),
        Err(CutError::Refused(_)) => Ok(false),
        Err(CutError::Memory) => Err(AllocError),
    }
}

fn names_end_at(text: &[u8], at: usize) -> bool
    ensures { result ≡ first_is ends_name (drop at text.now) }
{
    match text.get(at) {
        None => false,
        Some(b) => ends_name(*b),
    }
}

fn is_named(mark: &[u8], text: &[u8]) -> bool
    ensures { result ≡ is_named mark.now text.now }
{
    text.starts_with(mark) && names_end_at(text, mark.len())
}

#[tactic(auto, unfolding(crate::specs::Stream::stream_mark))]
fn is_stream(text: &[u8]) -> bool
    ensures { result ≡ is_named stream_mark text.now }
{
    is_named(b"<stream:stream", text)
}

// Whether an element tells of an error of the stream (RFC 6120 section 4.9).
#[tactic(auto, unfolding(crate::specs::Stream::error_mark))]
pub(crate) fn is_error(text: &[u8]) -> bool
    ensures { result ≡ is_named error_mark text.now }
{
    is_named(b"<stream:error", text)
}

// An allowed character below U+0080.
#[tactic(auto, unfolding(body_cutter::specs::Chars::is_plain))]
fn is_plain(b: u8) -> bool
    ensures { result ≡ is_plain b }
{
    b == 9 || b == 10 || b == 13 || (b >= 32 && b < 128)
}

fn are_plain(text: &[u8]) -> bool
    ensures { result ≡ list_all is_plain text.now }
{
    text.iter().all(|b| is_plain(*b))
}

fn spaces_at(text: &[u8], at: usize) -> bool
    ensures { result ≡ first_is is_space (drop at text.now) }
{
    match text.get(at) {
        None => false,
        Some(b) => is_space(*b),
    }
}

#[tactic(auto, unfolding(crate::specs::Stream::is_declaration))]
fn is_declaration(tag: &[u8]) -> bool
    ensures { result ≡ is_declaration tag.now }
{
    if !tag.starts_with(b"<?xml") {
        return false;
    }
    if !spaces_at(tag, 5) {
        return false;
    }
    if !tag.ends_with(b"?>") {
        return false;
    }
    are_plain(tag)
}

fn is_gap(b: u8) -> bool
    ensures { result ≡ (is_space b || b == 62) }
{
    is_space(b) || b == b'>'
}

fn are_gaps(text: &[u8]) -> bool
    ensures { result ≡ list_all (λ b. is_space b || b == 62) text.now }
{
    text.iter().all(|b| is_gap(*b))
}

#[tactic(auto, unfolding(crate::specs::Stream::is_end_tag))]
fn is_end_tag(tag: &[u8]) -> bool
    ensures { result ≡ is_end_tag tag.now }
{
    if !tag.starts_with(b"</stream:stream") {
        return false;
    }
    are_gaps(&tag[15..])
}

// The tag with the end tag after it.
fn ended(alloc: Global, tag: &[u8]) -> Result<Vec<u8>, AllocError>
    ensures { IfOk result (λ text. text.items ≡ tag.now ++ end_tag) }
{
    let mut text = Vec::from_slice(alloc, tag)?;
    push_end(&mut text)?;
    Ok(text)
}

#[tactic(auto, unfolding(crate::specs::Stream::is_start_tag))]
fn is_start_tag(alloc: Global, tag: &[u8]) -> Result<bool, AllocError>
    ensures { IfOk result (λ yes. yes ≡ is_start_tag tag.now) }
{
    if !is_stream(tag) {
        return Ok(false);
    }
    let text = ended(alloc, tag)?;
    is_stanza(alloc, text.as_slice())
}

fn takes_header(stage: Stage) -> bool
    ensures { result ≡ takes_header stage }
{
    match stage {
        Stage::Begun | Stage::Waits | Stage::Inside => true,
        Stage::Ended => false,
    }
}

fn takes_declaration(stage: Stage) -> bool
    ensures { result ≡ takes_declaration stage }
{
    match stage {
        Stage::Begun | Stage::Inside => true,
        Stage::Waits | Stage::Ended => false,
    }
}

fn is_inside(stage: Stage) -> bool
    ensures { result ≡ is_inside stage }
{
    match stage {
        Stage::Inside => true,
        Stage::Begun | Stage::Waits | Stage::Ended => false,
    }
}

pub(crate) fn is_ended(stage: Stage) -> bool
    ensures { result ≡ is_ended stage }
{
    match stage {
        Stage::Ended => true,
        Stage::Begun | Stage::Waits | Stage::Inside => false,
    }
}

pub(crate) fn after_space(stage: Stage) -> Stage
    ensures { result ≡ after_space stage }
{
    match stage {
        Stage::Begun | Stage::Waits => Stage::Waits,
        Stage::Inside => Stage::Inside,
        Stage::Ended => Stage::Ended,
    }
}

// Where a tag leads that is none of an element.
#[tactic(auto, unfolding(crate::specs::Stream::after_tag))]
pub(crate) fn after_tag(
    alloc: Global,
    stage: Stage,
    tag: &[u8],
) -> Result<Option<Stage>, AllocError>
    ensures { IfOk result (λ next. next ≡ after_tag stage tag.now) }
{
    if takes_header(stage) {
        if is_start_tag(alloc, tag)? {
            return Ok(Some(Stage::Inside));
        }
    }
    if takes_declaration(stage) && is_declaration(tag) {
        return Ok(Some(Stage::Waits));
    }
    if is_inside(stage) && is_end_tag(tag) {
        return Ok(Some(Stage::Ended));
    }
    Ok(None)
}

fn unnamed_mark(text: &[u8]) -> Mark
    ensures { result ≡ unnamed_mark text.now }
{
    match text.get(1) {
        Some(b'/' | b'?') => Mark::Tag,
        _ => Mark::Element,
    }
}

#[tactic(auto, unfolding(crate::specs::Stream::mark_of, crate::specs::Stream::stream_mark))]
fn mark_of(text: &[u8]) -> Mark
    ensures { result ≡ mark_of text.now }
{
    if STREAM.starts_with(text) {
        return Mark::Undecided;
    }
    if is_stream(text) {
        return Mark::Tag;
    }
    unnamed_mark(text)
}

pub(crate) fn mark_in(stage: Stage, text: &[u8]) -> Mark
    ensures { result ≡ mark_in stage text.now }
{
    match stage {
        Stage::Inside => mark_of(text),
        Stage::Begun | Stage::Waits | Stage::Ended => Mark::Tag,
    }
}

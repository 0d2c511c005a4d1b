// What the bodies of a trace say: requests that were sent, and answers.
ghost use Rattle.std.specs.Prelude.{◌≡◌, IfOk, map, slice_range};
ghost use Rattle.body_cutter.specs.Cutting.{body_cut_of};
ghost use Rattle.body_cutter.specs.Pieces.{bytes_at};
ghost use Rattle.session_attrs.specs.Body.{unrefused};
ghost use Rattle.trace_audit.specs.declared.line.Item.TheVariants.{Stanza};
ghost use Rattle.trace_audit.specs.Bodies.{creates, is_add, is_empty, is_plain, items_in, posted_of, reply_of};

use crate::line::Item;
use body_cutter::{Cut, CutError, Span, cut};
use bosh_types::{Rid, Row, Stanzas, Text};
use session_attrs::{Kind, Request, is_httpbind, read_body, value_of};
use std::alloc::{AllocError, Global};

/// A request that was sent, for the session's one stream.
#[derive(Drop)]
pub struct Posted {
    pub rid: Rid,
    pub creates: bool,
    pub terminate: bool,
    /// What it passes inward: its stanzas in order, and then a restart where it asks for one.
    pub items: Row<Item>,
    pub body: Text,
}

/// An answer that was written.
#[derive(Drop)]
pub struct Reply {
    pub rid: Rid,
    /// It has a `type`, whatever that is.
    pub typed: bool,
    pub payloads: Stanzas,
    pub body: Text,
}

/// Reads the request that a body makes, where it is for the session's one stream.
#[tactic(auto, unfolding(crate::specs::Bodies::posted_of))]
pub fn read_posted(alloc: Global, body: Text) -> Result<Option<Posted>, AllocError>
    ensures { IfOk result (λ posted. posted ≡ posted_of body) }
{
    let Some(request) = read_body(alloc, body.as_slice())? else {
        return Ok(None);
    };
    if !is_plain(&request) {
        return Ok(None);
    }
    let items = items_in(alloc, body.as_slice(), &request)?;
    Ok(Some(Posted {
        rid: request.rid,
        creates: creates(&request.kind),
        terminate: request.terminate,
        items,
        body,
    }))
}

fn creates(kind: &Kind) -> bool
    ensures { result ≡ creates kind.now }
{
    match kind {
        Kind::Creation(_) => true,
        Kind::Later { .. } => false,
    }
}

// It is for the stream that has no name, and asks for no other.
fn is_plain(request: &Request) -> bool
    ensures { result ≡ is_plain request.now }
{
    if request.stream.is_some() {
        return false;
    }
    !is_add(request)
}

fn is_add(request: &Request) -> bool
    ensures { result ≡ is_add request.now }
{
    if creates(&request.kind) {
        return false;
    }
    request.to.is_some() && is_empty(request)
}

fn is_empty(request: &Request) -> bool
    ensures { result ≡ is_empty request.now }
{
    if !request.stanzas.is_empty() {
        return false;
    }
    if request.pause.is_some() {
        return false;
    }
    !request.terminate && !request.restart
}

// What it passes inward.
fn items_in(alloc: Global, body: &[u8], request: &Request) -> Result<Row<Item>, AllocError>
    ensures { IfOk result (λ items. items ≡ items_in body.now request.now) }
{
    let mut items = stanza_items(alloc, body, request.stanzas.as_slice())?;
    if request.restart {
        items.push(Item::Restart)?;
    }
    Ok(Row::from_vec(items))
}

fn stanza_items(alloc: Global, body: &[u8], spans: &[Span]) -> Result<Vec<Item>, AllocError>
    ensures { IfOk result (λ items. items.items ≡ map (λ span. Stanza (bytes_at body.now span)) spans.now) }
{
    let mut items = Vec::new(alloc);
    for span in spans {
        items.push(Item::Stanza(slice_at(alloc, body, *span)?))?;
    }
    Ok(items)
}

/// Reads an answer, where it can be cut and is in the namespace.
#[tactic(auto, unfolding(crate::specs::Bodies::reply_of))]
pub fn read_reply(alloc: Global, rid: Rid, body: Text) -> Result<Option<Reply>, AllocError>
    ensures { IfOk result (λ reply. reply ≡ reply_of rid body) }
{
    let Some(parts) = cut_in(alloc, body.as_slice())? else {
        return Ok(None);
    };
    let Some(namespace) = value_of(&parts, body.as_slice(), b"xmlns") else {
        return Ok(None);
    };
    if !is_httpbind(namespace) {
        return Ok(None);
    }
    let typed = value_of(&parts, body.as_slice(), b"type").is_some();
    let payloads = slices_of(alloc, body.as_slice(), parts.children.as_slice())?;
    Ok(Some(Reply {
        rid,
        typed,
        payloads,
        body,
    }))
}

// What a text is cut into, unless it is refused.
fn cut_in(alloc: Global, text: &[u8]) -> Result<Option<Cut>, AllocError>
    ensures { IfOk result (λ found. found ≡ unrefused (body_cut_of text.now)) }
{
    match cut(alloc, text) {
        Ok(cut) => Ok(Some(cut)),
        Err(CutError::Refused(_)) => Ok(None),
        Err(CutError::Memory) => Err(AllocError),
    }
}

// The bytes of the text at each of these places.
fn slices_of(alloc: Global, text: &[u8], spans: &[Span]) -> Result<Stanzas, AllocError>
    ensures { IfOk result (λ slices. slices ≡ map (bytes_at text.now) spans.now) }
{
    let mut slices = Vec::new(alloc);
    for span in spans {
        slices.push(slice_at(alloc, text, *span)?)?;
    }
    Ok(Stanzas::from_vec(slices))
}

fn slice_at(alloc: Global, text: &[u8], span: Span) -> Result<Text, AllocError>
    ensures { IfOk result (λ slice. slice ≡ slice_range text.now span.start span.end) }
{
    let end = span.end.min(text.len());
    if span.start >= end {
        return Ok(Text::from_vec(Vec::new(alloc)));
    }
    let bytes = Vec::from_slice(alloc, &text[span.start..end])?;
    Ok(Text::from_vec(bytes))
}

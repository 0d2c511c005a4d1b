// Stanzas and rows of stanzas, as scripts have them.
ghost use Rattle.std.specs.Prelude.{◌≡◌, slice_range, IfOk, length};
ghost use Rattle.script_text.specs.Stanza.{parts_of, is_row, row_of, slices_of, within_body};

use body_cutter::{Cut, CutError, Span, cut};
use bosh_types::{Stanzas, Text};
use session_attrs::may_greet;
use std::alloc::{AllocError, Global};

// The parts of a body, where the text is one.
pub(crate) fn parts_of(alloc: Global, text: &[u8]) -> Result<Option<Cut>, AllocError>
    ensures { IfOk result (λ parts. parts ≡ parts_of text.now) }
{
    match cut(alloc, text) {
        Ok(parts) => Ok(Some(parts)),
        Err(CutError::Refused(_)) => Ok(None),
        Err(CutError::Memory) => Err(AllocError),
    }
}

// The stanzas of a row with nothing between them, of at most 1,000,000 bytes.
#[tactic(auto, unfolding(crate::specs::Stanza::row_of))]
pub(crate) fn row_of(alloc: Global, text: &[u8]) -> Result<Option<Stanzas>, AllocError>
    ensures { IfOk result (λ row. row ≡ row_of text.now) }
{
    let body = within_body(alloc, text)?;
    let Some(parts) = parts_of(alloc, &body)? else {
        return Ok(None);
    };
    if !is_row(6, parts.children.as_slice(), 6 + text.len()) {
        return Ok(None);
    }
    let stanzas = slices_of(alloc, &body, parts.children.as_slice())?;
    if !may_greet(alloc, stanzas.as_slice())? {
        return Ok(None);
    }
    Ok(Some(stanzas))
}

// The text as the content of a body.
fn within_body(alloc: Global, text: &[u8]) -> Result<Vec<u8>, AllocError>
    ensures { IfOk result (λ body. body.items ≡ within_body text.now) }
{
    let mut body = Vec::from_slice(alloc, b"<body>")?;
    body.extend_from_slice(text)?;
    body.extend_from_slice(b"</body>")?;
    Ok(body)
}

// Whether the spans stand side by side from `start` to `end`.
fn is_row(start: usize, spans: &[Span], end: usize) -> bool
    ensures { result ≡ is_row start spans.now end }
{
    let mut place = start;
    for span in spans {
        if span.start != place {
            return false;
        }
        place = span.end;
    }
    place == end
}

// The bytes of the text at each of these places, as far as these lie within it.
pub(crate) fn slices_of(alloc: Global, text: &[u8], spans: &[Span]) -> Result<Stanzas, AllocError>
    ensures { IfOk result (λ slices. slices ≡ slices_of text.now spans.now) }
{
    let mut slices = Vec::new(alloc);
    for span in spans {
        slices.push(slice_at(alloc, text, *span)?)?;
    }
    Ok(Stanzas::from_vec(slices))
}

fn slice_at(alloc: Global, text: &[u8], span: Span) -> Result<Text, AllocError>
    ensures { IfOk result (λ slice. slice ≡ slice_range text.now span.start span.end) }
{
    let end = span.end.min(text.len());
    if span.start >= end {
        return Ok(Text::from_vec(Vec::new(alloc)));
    }
    let bytes = Vec::from_slice(alloc, &text[span.start..end])?;
    Ok(Text::from_vec(bytes))
}

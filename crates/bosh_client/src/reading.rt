ghost use Rattle.std.specs.Prelude.{◌≡◌, IfOk, Ok, map};
ghost use Rattle.std.specs.Option.{option_copied};
ghost use Rattle.body_cutter.specs.Pieces.{bytes_at};
ghost use Rattle.bosh_client.specs.AnswerReading.{IsRead, answer_of, answer_with, payloads_at, told_from};
ghost use Rattle.bosh_client.specs.AnswerValues.{values_of};

use crate::inbox::Inbox;
use crate::replies::Why;
use crate::said::{Said, end_by, is_error, naming_of, said_in, says_httpbind};
use crate::told::Told;
use body_cutter::{Cut, CutError, Span, cut};
use bosh_types::Text;
use session_attrs::value_of;
use std::alloc::{AllocError, Global};

// Why a body gave no answer.
#[derive(Clone, Copy)]
pub(crate) enum AnswerError {
    Memory,
    Broken(Why),
}

impl From<AllocError> for AnswerError {
    ghost use Rattle.std.specs.Prelude.{◌≡◌};
    ghost use Rattle.bosh_client.specs.declared.reading.AnswerError.TheVariants.{Memory};

    ghost from_gives = { λ _ e. e ≡ Memory };

    fn from(_: AllocError) -> Self {
        AnswerError::Memory
    }
}

/// What this body tells, or the first reason for which it is no answer.
#[tactic(auto, unfolding(crate::specs::AnswerReading::answer_of))]
pub(crate) fn read_answer(alloc: Global, text: &[u8]) -> Result<Told, AnswerError>
    ensures { IsRead result (answer_of text.now) }
{
    match cut(alloc, text) {
        Ok(cut) => read_cut(alloc, &cut, text),
        Err(CutError::Memory) => Err(AnswerError::Memory),
        Err(CutError::Refused(refusal)) => Err(AnswerError::Broken(Why::Cut(refusal))),
    }
}

#[tactic(auto, unfolding(crate::specs::AnswerReading::answer_with))]
fn read_cut(alloc: Global, cut: &Cut, text: &[u8]) -> Result<Told, AnswerError>
    ensures { IsRead result (answer_with (values_of text.now cut.now.attrs) (payloads_at text.now cut.now.children)) }
{
    if !says_httpbind(value_of(cut, text, b"xmlns")) {
        return Err(AnswerError::Broken(Why::Namespace));
    }
    match said_in(cut, text) {
        Some(said) => Ok(told_from(alloc, cut, text, said)?),
        None => Err(AnswerError::Broken(Why::Attribute)),
    }
}

// What an answer tells that says this.
fn told_from(alloc: Global, cut: &Cut, text: &[u8], said: Said) -> Result<Told, AllocError>
    ensures { IfOk result (λ told. told ≡ told_from (values_of text.now cut.now.attrs) (payloads_at text.now cut.now.children) said) }
{
    let sid = copy_of(alloc, value_of(cut, text, b"sid"))?;
    let payloads = payloads_at(alloc, text, cut.children.as_slice())?;
    Ok(Told {
        end: end_by(
            value_of(cut, text, b"condition"),
            value_of(cut, text, b"stream"),
            said.kind,
        ),
        error: is_error(said.kind),
        sid,
        requests: said.requests,
        polling: said.polling,
        maxpause: said.maxpause,
        acknowledges: said.ack.is_some(),
        stream: naming_of(value_of(cut, text, b"stream")),
        payloads,
    })
}

fn copy_of(alloc: Global, value: Option<&[u8]>) -> Result<Option<Text>, AllocError>
    ensures { IfOk result (λ copy. copy ≡ option_copied value.entry) }
{
    match value {
        Some(text) => Ok(Some(Text::from_vec(Vec::from_slice(alloc, text)?))),
        None => Ok(None),
    }
}

// The pieces that lie at these places, in order.
fn payloads_at(alloc: Global, text: &[u8], spans: &[Span]) -> Result<Inbox, AllocError>
    ensures { IfOk result (λ payloads. payloads ≡ payloads_at text.now spans.now) }
{
    let mut payloads = Inbox::new(alloc);
    for span in spans {
        let bytes = Vec::from_slice(alloc, piece(text, *span))?;
        payloads.push(Text::from_vec(bytes))?;
    }
    Ok(payloads)
}

// The bytes of a text that lie here: those that there are.
fn piece(text: &[u8], span: Span) -> &[u8]
    ensures { result.now ≡ bytes_at text.now span }
{
    let end = span.end.min(text.len());
    let start = span.start.min(end);
    &text[start..end]
}

ghost use Rattle.std.specs.Prelude.{◌≡◌, IfOk, Some, None};
ghost use Rattle.std.specs.Option.{option_copied};
ghost use Rattle.session_attrs.specs.Meaning.{Means};
ghost use Rattle.session_attrs.specs.Reading.{request_of, request_with};
ghost use Rattle.session_attrs.specs.Refusal.{request_refusal};
ghost use Rattle.session_attrs.specs.Rows.{Answers, IfRefused};
ghost use Rattle.session_attrs.specs.Values.{values_of};

use crate::attributes::value_of;
use crate::refusal::RequestError;
use crate::request::{Kind, Request};
use crate::rows::{asked_in, creation_in, rid_in};
use body_cutter::{Cut, Spans};
use bosh_types::{Rid, Text};
use std::alloc::{AllocError, Global};

/// Reads a request from the body that was cut from this text.
pub fn read_request(alloc: Global, cut: &Cut, text: &[u8]) -> Result<Request, RequestError>
    // The answer is the request that the attributes and the children make, or its refusal, unless memory runs out.
    ensures answer { Answers result (request_of (values_of text.now cut.now.attrs) cut.now.children) }
    // What is read is what the attributes and the children mean.
    ensures means { IfOk result (λ request. Means (values_of text.now cut.now.attrs) cut.now.children request) }
    // A refusal is the first whose fact holds.
    ensures refused { IfRefused result (λ refusal. request_refusal (values_of text.now cut.now.attrs) ≡ Some refusal) }
{
    read(alloc, cut, text)
}

#[tactic(auto, unfolding(crate::specs::Reading::request_of))]
fn read(alloc: Global, cut: &Cut, text: &[u8]) -> Result<Request, RequestError>
    ensures { Answers result (request_of (values_of text.now cut.now.attrs) cut.now.children) }
{
    let rid = rid_in(cut, text)?;
    match value_of(cut, text, b"sid") {
        Some(sid) => continuing(alloc, cut, text, rid, sid),
        None => creating(alloc, cut, text, rid),
    }
}

// A request that creates a session.
#[tactic(auto, unfolding(crate::specs::Reading::request_with))]
fn creating(alloc: Global, cut: &Cut, text: &[u8], rid: Rid) -> Result<Request, RequestError>
    ensures { Answers result (request_with (values_of text.now cut.now.attrs) cut.now.children rid None) }
{
    let creation = creation_in(cut, text)?;
    let newkey = copy_of(alloc, value_of(cut, text, b"newkey"))?;
    let to = copy_of(alloc, value_of(cut, text, b"to"))?;
    let stanzas = copy_of_spans(alloc, &cut.children)?;
    Ok(Request {
        rid,
        kind: Kind::Creation(creation),
        ack: None,
        key: None,
        newkey,
        pause: None,
        stream: None,
        to,
        restart: false,
        terminate: false,
        stanzas,
    })
}

// A request for the session with this name.
#[tactic(auto, unfolding(crate::specs::Reading::request_with))]
fn continuing(
    alloc: Global,
    cut: &Cut,
    text: &[u8],
    rid: Rid,
    sid: &[u8],
) -> Result<Request, RequestError>
    ensures { Answers result (request_with (values_of text.now cut.now.attrs) cut.now.children rid (Some sid.now)) }
{
    let asked = asked_in(cut, text, rid)?;
    let sid = Text::from_vec(Vec::from_slice(alloc, sid)?);
    let key = copy_of(alloc, value_of(cut, text, b"key"))?;
    let newkey = copy_of(alloc, value_of(cut, text, b"newkey"))?;
    let stream = copy_of(alloc, value_of(cut, text, b"stream"))?;
    let to = copy_of(alloc, value_of(cut, text, b"to"))?;
    let stanzas = copy_of_spans(alloc, &cut.children)?;
    Ok(Request {
        rid,
        kind: Kind::Later { sid },
        ack: asked.ack,
        key,
        newkey,
        pause: asked.pause,
        stream,
        to,
        restart: asked.restart,
        terminate: asked.terminate,
        stanzas,
    })
}

fn copy_of(alloc: Global, value: Option<&[u8]>) -> Result<Option<Text>, AllocError>
    ensures { IfOk result (λ copy. copy ≡ option_copied value.entry) }
{
    match value {
        Some(text) => Ok(Some(Text::from_vec(Vec::from_slice(alloc, text)?))),
        None => Ok(None),
    }
}

fn copy_of_spans(alloc: Global, spans: &Spans) -> Result<Spans, AllocError>
    ensures { IfOk result (λ copy. copy ≡ spans.now) }
{
    Ok(Spans::from_vec(Vec::from_slice(alloc, spans.as_slice())?))
}

// What the tests open a session with, and the requests that bodies are.
ghost use Rattle.std.specs.Prelude.{◌≡◌, ◌≤◌, ℕ, IfOk, IfSome, List, [], true};
ghost use Rattle.session_attrs.specs.declared.request.Kind.TheVariants as kinds;
ghost use Rattle.session_core.specs.Journal.{IsOpening, IsReadFrom};

use body_cutter::cut;
use bosh_types::{Moment, SharedText, Stanzas, Text};
use session_attrs::{Creation, Kind, Request, negotiate, read_request};
use session_core::Opening;
use std::alloc::{AllocError, Global};
use std::test::Fail;

/// The request that this body is, if it is one.
pub(crate) fn request_in(alloc: Global, body: &[u8]) -> Option<Request>
    ensures { IfSome result (λ request. IsReadFrom body.now request) }
{
    let Ok(parts) = cut(alloc, body) else {
        return None;
    };
    match read_request(alloc, &parts, body) {
        Ok(request) => Some(request),
        Err(_) => None,
    }
}

// What the request asks for, if it creates a session.
fn creation_in(request: &Request) -> Option<Creation>
    ensures { IfSome result (λ creation. request.now.kind ≡ kinds.Creation creation) }
{
    match &request.kind {
        Kind::Creation(creation) => Some(*creation),
        Kind::Later { .. } => None,
    }
}

/// Whether the request is for a session that there is.
pub(crate) fn is_later(request: &Request) -> bool
    ensures { result ≡ true → (sid : List ℕ) × (request.now.kind ≡ kinds.Later sid) }
{
    match &request.kind {
        Kind::Creation(_) => false,
        Kind::Later { .. } => true,
    }
}

/// A text that may be held in several places.
pub(crate) fn text(alloc: Global, bytes: &[u8]) -> Result<SharedText, AllocError>
    ensures { IfOk result (λ text. text ≡ bytes.now) }
{
    SharedText::new(alloc, Text::from_vec(Vec::from_slice(alloc, bytes)?))
}

fn no_stanzas(alloc: Global) -> Stanzas
    ensures { result ≡ [] }
{
    Stanzas::from_vec(Vec::new(alloc))
}

/// The session `s1` of this creation for `example.org`, with no greeting, at the moment 0; its journal may have so many
/// counted bytes, and a copy beyond a gap is struck after `wait`.
pub(crate) fn opening_with(alloc: Global, body: &[u8], limit: u64) -> Result<Opening, Fail>
    ensures { IfOk result IsOpening }
{
    opening_that_waits(alloc, body, limit, 1)
}

/// The same, where a copy beyond a gap is struck after so many times `wait`.
pub(crate) fn opening_that_waits(
    alloc: Global,
    body: &[u8],
    limit: u64,
    gap_waits: u32,
) -> Result<Opening, Fail>
    requires { (1 ≤ gap_waits) × (gap_waits ≤ 10) }
    ensures { IfOk result IsOpening }
{
    let Some(request) = request_in(alloc, body) else {
        return Err("a request")?;
    };
    let Some(creation) = creation_in(&request) else {
        return Err("a creation")?;
    };
    Ok(Opening {
        request,
        body: text(alloc, body)?,
        terms: negotiate(&creation),
        sid: Text::from_vec(Vec::from_slice(alloc, b"s1")?),
        host: text(alloc, b"example.org")?,
        greeting: no_stanzas(alloc),
        at: Moment::from_millis(0),
        limit,
        gap_waits,
    })
}

// The request that the text of a body makes.
ghost use Rattle.std.specs.Prelude.{◌≡◌, ◌↔◌, IfOk, Some};
ghost use Rattle.body_cutter.specs.Cutting.{body_cut_of};
ghost use Rattle.session_attrs.specs.declared.request.Request.{Request};
ghost use Rattle.session_attrs.specs.Body.{Makes, request_in, unrefused};

use crate::reading::read_request;
use crate::refusal::RequestError;
use crate::request::Request;
use body_cutter::{Cut, CutError, cut};
use std::alloc::{AllocError, Global};

/// Cuts a body's text and reads its request, with the limits of both: `None` where one of them refuses. The only error is
/// want of memory.
pub fn read_body(alloc: Global, text: &[u8]) -> Result<Option<Request>, AllocError>
    // It is the request that the text makes, or none.
    ensures answer { IfOk result (λ read. read ≡ request_in text.now) }
    // A request is read exactly where the text is a body's that means it.
    ensures makes { IfOk result (λ read. (request : Request) → (read ≡ Some request) ↔ Makes text.now request) }
{
    request_in(alloc, text)
}

fn request_in(alloc: Global, text: &[u8]) -> Result<Option<Request>, AllocError>
    ensures { IfOk result (λ read. read ≡ request_in text.now) }
{
    let Some(cut) = cut_in(alloc, text)? else {
        return Ok(None);
    };
    match read_request(alloc, &cut, text) {
        Ok(request) => Ok(Some(request)),
        Err(RequestError::Refused(_)) => Ok(None),
        Err(RequestError::Memory) => Err(AllocError),
    }
}

// What a text is cut into, unless it is refused.
fn cut_in(alloc: Global, text: &[u8]) -> Result<Option<Cut>, AllocError>
    ensures { IfOk result (λ found. found ≡ unrefused (body_cut_of text.now)) }
{
    match cut(alloc, text) {
        Ok(cut) => Ok(Some(cut)),
        Err(CutError::Refused(_)) => Ok(None),
        Err(CutError::Memory) => Err(AllocError),
    }
}

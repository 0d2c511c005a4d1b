// The request that a body is.
ghost use Rattle.std.specs.Prelude.{◌≡◌, IfOk};
ghost use Rattle.body_cutter.specs.Cutting.{body_cut_of};
ghost use Rattle.session_journal.specs.Entries.{request_in, unrefused};

use body_cutter::{Cut, CutError, cut};
use session_attrs::{Request, RequestError, read_request};
use std::alloc::{AllocError, Global};

// Where it can be cut and read.
pub(crate) fn request_in(alloc: Global, body: &[u8]) -> Result<Option<Request>, AllocError>
    ensures { IfOk result (λ request. request ≡ request_in body.now) }
{
    let Some(parts) = parts_in(alloc, body)? else {
        return Ok(None);
    };
    match read_request(alloc, &parts, body) {
        Ok(request) => Ok(Some(request)),
        Err(RequestError::Refused(_)) => Ok(None),
        Err(RequestError::Memory) => Err(AllocError),
    }
}

fn parts_in(alloc: Global, text: &[u8]) -> Result<Option<Cut>, AllocError>
    ensures { IfOk result (λ parts. parts ≡ unrefused (body_cut_of text.now)) }
{
    match cut(alloc, text) {
        Ok(parts) => Ok(Some(parts)),
        Err(CutError::Refused(_)) => Ok(None),
        Err(CutError::Memory) => Err(AllocError),
    }
}

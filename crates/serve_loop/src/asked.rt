// What a body asks of a manager.
ghost use Rattle.std.specs.Prelude.{◌≡◌, IfOk};
ghost use Rattle.serve_loop.specs.Asked.{asked_by, asked_of, request_in};

use body_cutter::{CutError, cut};
use bosh_types::{Condition, HostNames};
use session_attrs::{Admitted, Kind, Request, RequestError, admit, read_request};
use std::alloc::{AllocError, Global};

/// What a body asks.
#[derive(Drop)]
pub(crate) enum Asked {
    /// Nothing that a session or a host could be asked: it is answered with this condition.
    Nothing(Condition),
    /// A session at the host at this place.
    Creation { request: Request, place: usize },
    /// Something of the session that the request names.
    Later { request: Request },
}

/// Reads a body and finds its host. The only error is want of memory.
pub(crate) fn what_is_asked(
    alloc: Global,
    hosts: &HostNames,
    body: &[u8],
) -> Result<Asked, AllocError>
    ensures { IfOk result (λ asked. asked ≡ asked_of hosts.now body.now) }
{
    match read(alloc, body)? {
        Some(request) => Ok(asked_by(hosts, request)),
        None => Ok(Asked::Nothing(Condition::BadRequest)),
    }
}

fn asked_by(hosts: &HostNames, request: Request) -> Asked
    ensures { result ≡ asked_by hosts.now request request.kind }
{
    if let Kind::Later { .. } = &request.kind {
        return Asked::Later { request };
    }
    match admit(&request, hosts) {
        Admitted::Host(place) => Asked::Creation { request, place },
        Admitted::Improper => Asked::Nothing(Condition::ImproperAddressing),
        Admitted::Unknown => Asked::Nothing(Condition::HostUnknown),
    }
}

// The request that the body is, if it is one.
fn read(alloc: Global, body: &[u8]) -> Result<Option<Request>, AllocError>
    ensures { IfOk result (λ request. request ≡ request_in body.now) }
{
    let cut = match cut(alloc, body) {
        Ok(cut) => cut,
        Err(CutError::Memory) => return Err(AllocError),
        Err(CutError::Refused(_)) => return Ok(None),
    };
    match read_request(alloc, &cut, body) {
        Ok(request) => Ok(Some(request)),
        Err(RequestError::Memory) => Err(AllocError),
        Err(RequestError::Refused(_)) => Ok(None),
    }
}

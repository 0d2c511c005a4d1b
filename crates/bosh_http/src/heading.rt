// The heads of responses.
ghost use Rattle.std.specs.Prelude.{◌≡◌, ◌≤◌, length, map, All, IfSome};
ghost use Rattle.httparse.specs.Grammar.{HasNoResponse};
ghost use Rattle.httparse.specs.Spans.{IsHeaderWithin, IsResponseWithin, IsResponseOf, header_bytes};
ghost use Rattle.bosh_http.specs.Message.{longest_head};
ghost use Rattle.bosh_http.specs.Response.{is_bad, IsBadStream, IsResponseBegun};
ghost use Rattle.bosh_http.specs.Heading.{IsHeaded, TellsResponse};

use crate::fields;
use crate::heads::{Head, Heads, Judged};
use crate::judging::{LONGEST_CONTENT, ROOM, make_room};
use crate::scan::Scan;
use bosh_types::limits::MOST_FIELDS;
use http::StatusCode;
use httparse::spans::{EMPTY_HEADER_SPAN, HeaderSpan, ResponseSpans, parse_response};
use httparse::{Error, Status};
use std::alloc::AllocError;

// Responses as a kind of messages: a head says a status.
pub(crate) struct Responses;

// Whether a whole head is none of a response that is read.
#[tactic(auto, unfolding(crate::specs::Response::is_bad))]
fn is_bad(code: u16, bytes: &[u8], headers: &[HeaderSpan]) -> bool
    requires { All (IsHeaderWithin (length bytes.now)) headers.now }
    ensures { result ≡ is_bad code (map (header_bytes bytes.now) headers.now) }
{
    if headers.len() > MOST_FIELDS {
        return true;
    }
    if code < 100 {
        return true;
    }
    if fields::has_transfer(bytes, headers) {
        return true;
    }
    if fields::has_no_length(bytes, headers) {
        return true;
    }
    if fields::has_bad_length(bytes, headers) {
        return true;
    }
    fields::first_length(bytes, headers) > LONGEST_CONTENT
}

// What a whole head tells.
fn head_whole(front: &[u8], spans: &ResponseSpans, headers: &[HeaderSpan]) -> Judged<StatusCode, ()>
    requires short { length front.now ≤ longest_head }
    requires within { IsResponseWithin front.now headers.now spans.now }
    requires whole { IsResponseOf front.now headers.now spans.now }
    ensures { TellsResponse front.now result }
{
    let headers = headers.split_at(spans.headers).0;
    if is_bad(spans.code, front, headers) {
        return Judged::Wrong(());
    }
    match StatusCode::from_u16(spans.code) {
        Ok(status) => Judged::Whole(Head {
            start: spans.len,
            content: fields::first_length(front, headers) as usize,
            said: status,
        }),
        Err(_) => Judged::Wrong(()),
    }
}

// What bytes tell that may have a head, and nothing where it may have more fields than there is room for.
fn head_of_few(spans: &mut [HeaderSpan], front: &[u8]) -> Option<Judged<StatusCode, ()>>
    requires { length front.now ≤ longest_head }
    ensures { IfSome result (TellsResponse front.now) }
{
    match parse_response(front, spans) {
        Ok(Status::Complete(parts)) => Some(head_whole(front, &parts, spans)),
        Ok(Status::Partial) => Some(Judged::Begun),
        Err(Error::TooManyHeaders) => None,
        Err(_) => Some(Judged::Wrong(())),
    }
}

// What bytes tell that may have a head, where there is room for all its fields.
fn head_of_all(spans: &mut [HeaderSpan], front: &[u8]) -> Judged<StatusCode, ()>
    requires front { length front.now ≤ longest_head }
    requires room { length spans.old ≡ 2731 }
    ensures { TellsResponse front.now result }
{
    match parse_response(front, spans) {
        Ok(Status::Complete(parts)) => head_whole(front, &parts, spans),
        Ok(Status::Partial) => Judged::Begun,
        Err(_) => Judged::Wrong(()),
    }
}

impl Heads for Responses {
    type Said = StatusCode;

    type Fault = ();

    ghost reads = { IsHeaded };

    ghost denies = { λ bytes fault. IsBadStream bytes };

    ghost begins = { IsResponseBegun };

    ghost lacks = { HasNoResponse };

    fn scan() -> Scan {
        Scan::response()
    }

    fn too_long() {}

    fn judge(
        spans: &mut Vec<HeaderSpan>,
        front: &[u8],
    ) -> Result<Judged<StatusCode, ()>, AllocError> {
        make_room(spans)?;
        if let Some(judged) = head_of_few(spans, front) {
            return Ok(judged);
        }
        spans.resize(ROOM, EMPTY_HEADER_SPAN)?;
        Ok(head_of_all(spans, front))
    }

    fn laws() {}
}

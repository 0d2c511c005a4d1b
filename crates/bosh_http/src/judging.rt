// The heads of requests.
ghost use Rattle.std.specs.Prelude.{◌≡◌, ◌≤◌, length, map, All, IfOk, IfSome};
ghost use Rattle.httparse.specs.Grammar.{HasNoRequest, NeverHasRequest};
ghost use Rattle.httparse.specs.Spans.{IsHeaderWithin, IsRequestWithin, IsRequestOf, header_bytes};
ghost use Rattle.bosh_http.specs.Message.{refusal_of, longest_head};
ghost use Rattle.bosh_http.specs.Judging.{IsRefusedBy, IsServed, TellsRequest};
ghost use Rattle.bosh_http.specs.Message.{IsHeadBegun};

use crate::fields;
use crate::heads::{Head, Heads, Judged};
use crate::refusal::HttpRefusal;
use crate::scan::Scan;
use crate::target::ends_in_target;
use bosh_types::limits::MOST_FIELDS;
use httparse::spans::{EMPTY_HEADER_SPAN, HeaderSpan, RequestSpans, parse_request};
use httparse::{Error, Status};
use std::alloc::AllocError;

pub(crate) const LONGEST_CONTENT: u64 = 1048576;

// More fields than 8192 bytes can hold.
pub(crate) const ROOM: usize = 2731;

// Requests as a kind of messages: a head says whether the connection ends after the response.
pub(crate) struct Requests;

// Room for the fields of most heads.
pub(crate) fn make_room(spans: &mut Vec<HeaderSpan>) -> Result<(), AllocError> {
    if spans.is_empty() {
        spans.resize(MOST_FIELDS, EMPTY_HEADER_SPAN)?;
    }
    Ok(())
}

// What refuses a head.
#[tactic(auto, unfolding(crate::specs::Message::refusal_of))]
fn refusal_of(
    minor: u8,
    method: &[u8],
    target: &[u8],
    bytes: &[u8],
    headers: &[HeaderSpan],
) -> Option<HttpRefusal>
    requires { All (IsHeaderWithin (length bytes.now)) headers.now }
    ensures { result ≡ refusal_of minor method.now target.now (map (header_bytes bytes.now) headers.now) }
{
    if headers.len() > MOST_FIELDS {
        return Some(HttpRefusal::HeadTooLarge);
    }
    if fields::has_bad_host(minor, bytes, headers) {
        return Some(HttpRefusal::BadHost);
    }
    if method == b"GET".as_slice() {
        return Some(HttpRefusal::Get);
    }
    if method != b"POST".as_slice() {
        return Some(HttpRefusal::Method);
    }
    if target != b"/http-bind".as_slice() {
        return Some(HttpRefusal::Path);
    }
    if fields::has_transfer(bytes, headers) {
        return Some(HttpRefusal::Transfer);
    }
    if fields::has_encoding(bytes, headers) {
        return Some(HttpRefusal::Encoding);
    }
    if fields::has_no_length(bytes, headers) {
        return Some(HttpRefusal::NoLength);
    }
    if fields::has_bad_length(bytes, headers) {
        return Some(HttpRefusal::BadLength);
    }
    if fields::first_length(bytes, headers) > LONGEST_CONTENT {
        return Some(HttpRefusal::TooLong);
    }
    None
}

// What a whole head tells.
fn judge_whole(
    front: &[u8],
    spans: &RequestSpans,
    headers: &[HeaderSpan],
) -> Judged<bool, HttpRefusal>
    requires short { length front.now ≤ longest_head }
    requires within { IsRequestWithin front.now headers.now spans.now }
    requires whole { IsRequestOf front.now headers.now spans.now }
    ensures { TellsRequest front.now result }
{
    let headers = headers.split_at(spans.headers).0;
    let method = spans.method.of(front);
    let target = spans.path.of(front);
    match refusal_of(spans.version, method, target, front, headers) {
        Some(refusal) => Judged::Wrong(refusal),
        None => Judged::Whole(Head {
            start: spans.len,
            content: fields::first_length(front, headers) as usize,
            said: fields::is_closing(spans.version, front, headers),
        }),
    }
}

// What bytes tell that no bytes can follow to make a head: they may end inside the target all the same, which is
// judged only once it has ended.
fn judge_hopeless(front: &[u8]) -> Judged<bool, HttpRefusal>
    requires short { length front.now ≤ longest_head }
    requires never { NeverHasRequest front.now }
    ensures { TellsRequest front.now result }
{
    if ends_in_target(front) {
        return Judged::Begun;
    }
    Judged::Wrong(HttpRefusal::Malformed)
}

// What bytes tell that may have a head, and nothing where it may have more fields than there is room for.
fn judge_few(spans: &mut [HeaderSpan], front: &[u8]) -> Option<Judged<bool, HttpRefusal>>
    requires { length front.now ≤ longest_head }
    ensures { IfSome result (TellsRequest front.now) }
{
    match parse_request(front, spans) {
        Ok(Status::Complete(parts)) => Some(judge_whole(front, &parts, spans)),
        Ok(Status::Partial) => Some(Judged::Begun),
        Err(Error::TooManyHeaders) => None,
        Err(_) => Some(judge_hopeless(front)),
    }
}

// What bytes tell that may have a head, where there is room for all its fields.
fn judge_all(spans: &mut [HeaderSpan], front: &[u8]) -> Judged<bool, HttpRefusal>
    requires front { length front.now ≤ longest_head }
    requires room { length spans.old ≡ 2731 }
    ensures { TellsRequest front.now result }
{
    match parse_request(front, spans) {
        Ok(Status::Complete(parts)) => judge_whole(front, &parts, spans),
        Ok(Status::Partial) => Judged::Begun,
        Err(_) => judge_hopeless(front),
    }
}

impl Heads for Requests {
    type Said = bool;

    type Fault = HttpRefusal;

    ghost reads = { IsServed };

    ghost denies = { IsRefusedBy };

    ghost begins = { IsHeadBegun };

    ghost lacks = { HasNoRequest };

    fn scan() -> Scan {
        Scan::request()
    }

    fn too_long() -> HttpRefusal {
        HttpRefusal::HeadTooLarge
    }

    fn judge(
        spans: &mut Vec<HeaderSpan>,
        front: &[u8],
    ) -> Result<Judged<bool, HttpRefusal>, AllocError> {
        make_room(spans)?;
        if let Some(judged) = judge_few(spans, front) {
            return Ok(judged);
        }
        spans.resize(ROOM, EMPTY_HEADER_SPAN)?;
        Ok(judge_all(spans, front))
    }

    fn laws() {}
}

// What one connection carries, as its requests and answers.
ghost use Rattle.std.specs.Prelude.{◌≡◌};

use crate::name::number_of_name;
use crate::noted::{Answer, Copy, Noted, Opening, Seen};
use crate::queue::TraceQueue;
use body_cutter::{Cut, CutError, cut};
use bosh_http::{HttpIn, RequestReader, ResponseIn, ResponseReader};
use bosh_types::Text;
use session_attrs::{Kind, Request, read_body, value_of};
use std::alloc::{AllocError, Global};
use std::collections::VecDeque;
use std::sync::{Arc, Wait};

/// What a request asked for that wasn't answered yet.
#[derive(Drop)]
enum Asked {
    /// Nothing of a session.
    Nothing,
    /// A session at this host.
    Creation {
        to: Text,
        rid: u64,
        is_plain: bool,
        body: Text,
    },
    /// Something of the session with this number and name.
    Later {
        number: u64,
        sid: Text,
        rid: u64,
    },
}

/// What the `type` of an answer says.
#[derive(Clone, Copy, PartialEq, Eq)]
enum Typed {
    /// There is none.
    Plain,
    /// The session has ended.
    Terminal,
    Other,
}

/// Reads what a connection carries: its requests as they come, and its responses as they are given, which answer them in their order. What
/// belongs to a session is noted.
#[derive(Drop)]
pub struct Tap {
    alloc: Global,
    queue: Arc<TraceQueue>,
    requests: RequestReader,
    responses: ResponseReader,
    asked: VecDeque<Asked>,
    /// Nothing more is read.
    is_deaf: bool,
}

impl Tap {
    /// Nothing was carried yet. It takes no memory.
    pub fn new(alloc: Global, queue: Arc<TraceQueue>) -> Tap {
        Tap {
            alloc,
            queue,
            requests: RequestReader::new(alloc),
            responses: ResponseReader::new(alloc),
            asked: VecDeque::new(alloc),
            is_deaf: false,
        }
    }

    /// These bytes were taken off the connection.
    pub fn took<R: Wait>(&mut self, rt: &R, bytes: &[u8]) {
        if self.is_deaf {
            return;
        }
        if self.hear_requests(rt, bytes).is_err() {
            self.deafen(rt);
        }
    }

    /// These bytes were given to the connection.
    pub fn gave<R: Wait>(&mut self, rt: &R, bytes: &[u8]) {
        if self.is_deaf {
            return;
        }
        if self.hear_responses(rt, bytes).is_err() {
            self.deafen(rt);
        }
    }

    // Memory was wanted: nothing more is read, and whose it would have been isn't known.
    fn deafen<R: Wait>(&mut self, rt: &R) {
        self.is_deaf = true;
        self.queue.lose_all(rt);
    }

    fn hear_requests<R: Wait>(&mut self, rt: &R, bytes: &[u8]) -> Result<(), AllocError> {
        self.requests.give(bytes)?;
        for _ in 0..bytes.len() {
            match self.requests.front(self.alloc)? {
                Some(HttpIn::Request { body, .. }) => self.hear_request(rt, body)?,
                _ => return Ok(()),
            }
        }
        Ok(())
    }

    fn hear_request<R: Wait>(&mut self, rt: &R, body: Text) -> Result<(), AllocError> {
        let asked = match read_body(self.alloc, body.as_slice())? {
            Some(request) => asked_by(rt, &self.queue, self.alloc, request, body)?,
            None => Asked::Nothing,
        };
        match self.asked.push_back(asked) {
            Ok(()) => Ok(()),
            Err(_) => Err(AllocError),
        }
    }

    fn hear_responses<R: Wait>(&mut self, rt: &R, bytes: &[u8]) -> Result<(), AllocError> {
        self.responses.give(bytes)?;
        for _ in 0..bytes.len() {
            match self.responses.front(self.alloc)? {
                Some(ResponseIn::Body(body)) => self.hear_answer(rt, body)?,
                Some(ResponseIn::Status(_)) => {
                    let _ = self.asked.pop_front();
                }
                _ => return Ok(()),
            }
        }
        Ok(())
    }

    fn hear_answer<R: Wait>(&mut self, rt: &R, body: Text) -> Result<(), AllocError> {
        match self.asked.pop_front() {
            Some(Asked::Later { number, sid, rid }) => {
                let typed = typed_as(self.alloc, body.as_slice())?;
                let answer = Answer {
                    sid,
                    rid,
                    is_typed: typed != Typed::Plain,
                    is_terminal: typed == Typed::Terminal,
                    body,
                };
                note(rt, &self.queue, number, Seen::Answered(answer));
                Ok(())
            }
            Some(
                Asked::Creation {
                    to,
                    rid,
                    is_plain,
                    body: creation,
                },
            ) => {
                let Some(sid) = name_in(self.alloc, body.as_slice())? else {
                    return Ok(());
                };
                let Some(number) = number_of_name(sid.as_slice()) else {
                    return Ok(());
                };
                let opening = Opening {
                    sid,
                    rid,
                    to,
                    is_plain,
                    body: creation,
                    answer: body,
                };
                note(rt, &self.queue, number, Seen::Opened(opening));
                Ok(())
            }
            Some(Asked::Nothing) => Ok(()),
            None => Ok(()),
        }
    }
}

fn note<R: Wait>(rt: &R, queue: &TraceQueue, number: u64, seen: Seen) {
    queue.note(rt, Noted { number, seen });
}

// What a request asks for. One for a session is noted.
fn asked_by<R: Wait>(
    rt: &R,
    queue: &TraceQueue,
    alloc: Global,
    request: Request,
    body: Text,
) -> Result<Asked, AllocError> {
    let is_plain = is_plain(&request);
    let Request { rid, kind, to, .. } = request;
    let rid = rid.value();
    match kind {
        Kind::Creation(_) => Ok(Asked::Creation {
            to: to.unwrap_or(Text::from_vec(Vec::new(alloc))),
            rid,
            is_plain,
            body,
        }),
        Kind::Later { sid } => {
            let Some(number) = number_of_name(sid.as_slice()) else {
                return Ok(Asked::Nothing);
            };
            let own = Text::from_vec(Vec::from_slice(alloc, sid.as_slice())?);
            let copy = Copy {
                sid: own,
                rid,
                is_plain,
                body,
            };
            note(rt, queue, number, Seen::Came(copy));
            Ok(Asked::Later { number, sid, rid })
        }
    }
}

// Whether a request is for the session's one stream, and asks for no other: a later one that names a host and carries nothing does.
fn is_plain(request: &Request) -> bool {
    if request.stream.is_some() {
        return false;
    }
    match &request.kind {
        Kind::Creation(_) => true,
        Kind::Later { .. } => request.to.is_none() || !is_empty(request),
    }
}

// Whether a request carries nothing.
fn is_empty(request: &Request) -> bool {
    if !request.stanzas.is_empty() {
        return false;
    }
    if request.pause.is_some() {
        return false;
    }
    !request.terminate && !request.restart
}

// What a text is cut into, unless it is refused.
fn cut_in(alloc: Global, text: &[u8]) -> Result<Option<Cut>, AllocError> {
    match cut(alloc, text) {
        Ok(cut) => Ok(Some(cut)),
        Err(CutError::Refused(_)) => Ok(None),
        Err(CutError::Memory) => Err(AllocError),
    }
}

// What the `type` of an answer says.
fn typed_as(alloc: Global, body: &[u8]) -> Result<Typed, AllocError> {
    let Some(parts) = cut_in(alloc, body)? else {
        return Ok(Typed::Plain);
    };
    match value_of(&parts, body, b"type") {
        Some(value) => Ok(type_of(value)),
        None => Ok(Typed::Plain),
    }
}

fn type_of(value: &[u8]) -> Typed {
    if value == b"terminate".as_slice() {
        return Typed::Terminal;
    }
    Typed::Other
}

// The name of the session that an answer tells, where it tells one.
fn name_in(alloc: Global, body: &[u8]) -> Result<Option<Text>, AllocError> {
    let Some(parts) = cut_in(alloc, body)? else {
        return Ok(None);
    };
    match value_of(&parts, body, b"sid") {
        Some(sid) => Ok(Some(Text::from_vec(Vec::from_slice(alloc, sid)?))),
        None => Ok(None),
    }
}

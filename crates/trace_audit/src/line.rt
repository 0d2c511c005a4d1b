// What one line of a trace says.
ghost use Rattle.std.specs.Prelude.{◌≡◌, IfOk};
ghost use Rattle.std.specs.Option.{option_copied};
ghost use Rattle.trace_audit.specs.declared.line.TraceLine.TheVariants.{Gave, Sent, Came, In, Got};
ghost use Rattle.trace_audit.specs.Line.{line_of, later_line, stanza_in, stanza_line, body_line, in_of, answer_of, took_of};

use crate::words::split_word;
use bosh_types::{Rid, Text};
use session_attrs::is_stanza;
use std::alloc::{AllocError, Global};

/// Why a line of a trace is bad. They are tested in this order.
#[derive(Clone, Copy, Debug, PartialEq, Eq)]
pub enum BadKind {
    /// It is line 1,000,001.
    Count,
    /// The input ends before a line `end`.
    End,
    /// It has more than 2,097,152 bytes.
    Length,
    /// It is no line of a trace.
    Grammar,
}

/// What goes inward.
#[derive(Drop)]
pub enum Item {
    Stanza(Text),
    Restart,
}

/// A line of a trace.
#[derive(Drop)]
pub enum TraceLine {
    /// `gave STANZA`: the server gave it to the session.
    Gave(Text),
    /// `sent BODY`: the client made this request.
    Sent(Text),
    /// `came BODY`: a request arrived.
    Came(Text),
    /// `in STANZA` or `in restart`: it went inward.
    In(Item),
    /// `answer RID BODY`: an answer was written for this request.
    Answer { rid: Rid, body: Text },
    /// `took RID`: the client took the answer of this request.
    Took { rid: Rid },
    /// `got STANZA`: the client handed it on.
    Got(Text),
    /// `end`
    End,
}

/// What reading a line gives.
#[derive(Drop)]
pub enum LineRead {
    Line(TraceLine),
    BadLine(BadKind),
}

/// Reads one line, without its LF. A line is bad by its own bytes as `Grammar` alone.
#[tactic(auto, unfolding(crate::specs::Line::line_of))]
pub fn read_line(alloc: Global, line: &[u8]) -> Result<LineRead, AllocError>
    ensures { IfOk result (λ read. read ≡ line_of line.now) }
{
    let (word, rest) = split_word(line);
    if word == b"gave".as_slice() {
        return read_gave(alloc, rest);
    }
    if word == b"sent".as_slice() {
        return read_sent(alloc, rest);
    }
    if word == b"came".as_slice() {
        return read_came(alloc, rest);
    }
    if word == b"in".as_slice() {
        return read_in(alloc, rest);
    }
    read_later(alloc, line)
}

// A line about answers, or the last one.
#[tactic(auto, unfolding(crate::specs::Line::later_line))]
fn read_later(alloc: Global, line: &[u8]) -> Result<LineRead, AllocError>
    ensures { IfOk result (λ read. read ≡ later_line line.now) }
{
    let (word, rest) = split_word(line);
    if word == b"answer".as_slice() {
        return read_answer(alloc, rest);
    }
    if word == b"took".as_slice() {
        return Ok(read_took(rest));
    }
    if word == b"got".as_slice() {
        return read_got(alloc, rest);
    }
    if line == b"end".as_slice() {
        return Ok(LineRead::Line(TraceLine::End));
    }
    Ok(LineRead::BadLine(BadKind::Grammar))
}

// A stanza, where it is one.
fn stanza_in(alloc: Global, rest: Option<&[u8]>) -> Result<Option<Text>, AllocError>
    ensures { IfOk result (λ stanza. stanza ≡ stanza_in (option_copied rest.entry)) }
{
    let Some(stanza) = rest else {
        return Ok(None);
    };
    if !is_stanza(alloc, stanza)? {
        return Ok(None);
    }
    Ok(Some(Text::from_vec(Vec::from_slice(alloc, stanza)?)))
}

fn read_gave(alloc: Global, rest: Option<&[u8]>) -> Result<LineRead, AllocError>
    ensures { IfOk result (λ read. read ≡ stanza_line Gave (stanza_in (option_copied rest.entry))) }
{
    match stanza_in(alloc, rest)? {
        Some(stanza) => Ok(LineRead::Line(TraceLine::Gave(stanza))),
        None => Ok(LineRead::BadLine(BadKind::Grammar)),
    }
}

fn read_got(alloc: Global, rest: Option<&[u8]>) -> Result<LineRead, AllocError>
    ensures { IfOk result (λ read. read ≡ stanza_line Got (stanza_in (option_copied rest.entry))) }
{
    match stanza_in(alloc, rest)? {
        Some(stanza) => Ok(LineRead::Line(TraceLine::Got(stanza))),
        None => Ok(LineRead::BadLine(BadKind::Grammar)),
    }
}

fn read_sent(alloc: Global, rest: Option<&[u8]>) -> Result<LineRead, AllocError>
    ensures { IfOk result (λ read. read ≡ body_line Sent (option_copied rest.entry)) }
{
    let Some(body) = rest else {
        return Ok(LineRead::BadLine(BadKind::Grammar));
    };
    let body = Text::from_vec(Vec::from_slice(alloc, body)?);
    Ok(LineRead::Line(TraceLine::Sent(body)))
}

fn read_came(alloc: Global, rest: Option<&[u8]>) -> Result<LineRead, AllocError>
    ensures { IfOk result (λ read. read ≡ body_line Came (option_copied rest.entry)) }
{
    let Some(body) = rest else {
        return Ok(LineRead::BadLine(BadKind::Grammar));
    };
    let body = Text::from_vec(Vec::from_slice(alloc, body)?);
    Ok(LineRead::Line(TraceLine::Came(body)))
}

// The rest of a line `in STANZA` or `in restart`.
#[tactic(auto, unfolding(crate::specs::Line::in_of))]
fn read_in(alloc: Global, rest: Option<&[u8]>) -> Result<LineRead, AllocError>
    ensures { IfOk result (λ read. read ≡ in_of (option_copied rest.entry)) }
{
    let Some(text) = rest else {
        return Ok(LineRead::BadLine(BadKind::Grammar));
    };
    if text == b"restart".as_slice() {
        return Ok(LineRead::Line(TraceLine::In(Item::Restart)));
    }
    if !is_stanza(alloc, text)? {
        return Ok(LineRead::BadLine(BadKind::Grammar));
    }
    let stanza = Text::from_vec(Vec::from_slice(alloc, text)?);
    Ok(LineRead::Line(TraceLine::In(Item::Stanza(stanza))))
}

// The rest of a line `answer RID BODY`.
fn read_answer(alloc: Global, rest: Option<&[u8]>) -> Result<LineRead, AllocError>
    ensures { IfOk result (λ read. read ≡ answer_of (option_copied rest.entry)) }
{
    let Some(rest) = rest else {
        return Ok(LineRead::BadLine(BadKind::Grammar));
    };
    let (word, body) = split_word(rest);
    let Some(rid) = Rid::read(word) else {
        return Ok(LineRead::BadLine(BadKind::Grammar));
    };
    let Some(body) = body else {
        return Ok(LineRead::BadLine(BadKind::Grammar));
    };
    let body = Text::from_vec(Vec::from_slice(alloc, body)?);
    Ok(LineRead::Line(TraceLine::Answer { rid, body }))
}

// The rest of a line `took RID`.
fn read_took(rest: Option<&[u8]>) -> LineRead
    ensures { result ≡ took_of (option_copied rest.entry) }
{
    match rest.and_then(Rid::read) {
        Some(rid) => LineRead::Line(TraceLine::Took { rid }),
        None => LineRead::BadLine(BadKind::Grammar),
    }
}

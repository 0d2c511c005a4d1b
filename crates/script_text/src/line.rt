// What one line of a script says.
ghost use Rattle.std.specs.Prelude.{◌≡◌, ◌==◌, IfOk, position};
ghost use Rattle.std.specs.Option.{option_copied};
ghost use Rattle.bosh_types.specs.Rid.{rid_of};
ghost use Rattle.script_text.specs.Names.{is_sid};
ghost use Rattle.script_text.specs.Line.{line_of, open_of, short_of, host_of, greeting_of, post_of, connection_of, word_of, rest_of, later_line, moment_of, at_of, close_of, back_of, back_on_of, closed_of, closing_of, given_of, shut_of, shut_on_of, stream_of};

use crate::stanza::row_of;
use bosh_types::{Closing, Condition, Moment, Rid, Stanzas, StreamNo, Text};
use session_attrs::{is_host_name, is_stanza};
use std::alloc::{AllocError, Global};

const LONGEST_SID: usize = 64;

/// Why a line of a script is bad. They are tested in this order.
#[derive(Clone, Copy, Debug, PartialEq, Eq)]
pub enum BadKind {
    /// It is line 1,000,001.
    Count,
    /// The input ends before a line `end`.
    End,
    /// It has more than 2,097,152 bytes.
    Length,
    /// It is no line of a script, or stands where such a line may not.
    Grammar,
    /// It sets a moment that is over.
    Time,
    /// It posts on a connection that waits for an answer, or closes one that doesn't.
    Connection,
    /// It names a session that no creation was given.
    Session,
    /// It brings a copy that was never made, or an answer that was never written: in scripts of two ends alone.
    Copy,
}

/// A line of a script.
#[derive(Debug, Drop)]
pub enum ScriptLine {
    /// `open RID`: a session is created with this request id.
    Open {
        rid: Rid,
    },
    /// `short RID STANZA`: a request with one stanza arrives.
    Short {
        rid: Rid,
        stanza: Text,
    },
    /// `host NAME GREETING`: the manager serves this host, and greets each new session with these stanzas.
    Host {
        name: Text,
        greeting: Stanzas,
    },
    /// `at MILLISECONDS`: it is this moment, counted from the beginning of the script.
    At {
        moment: Moment,
    },
    /// `post CONNECTION BODY`: a body arrives on this connection.
    Post {
        conn: u16,
        body: Text,
    },
    /// `close CONNECTION`: the connection breaks.
    Close {
        conn: u16,
    },
    /// `back SID STANZA`, `backon SID STREAM STANZA`: the server gives the session a stanza, on its first stream or on this one.
    Back {
        sid: Text,
        stream: StreamNo,
        stanza: Text,
    },
    /// `shut SID CLOSING`, `shuton SID STREAM CLOSING`: the server closes the first stream of the session, or this one.
    Shut {
        sid: Text,
        stream: StreamNo,
        closing: Closing,
    },
    /// `end`
    End,
}

/// What reading a line gives.
#[derive(Debug, Drop)]
pub enum LineRead {
    Line(ScriptLine),
    BadLine(BadKind),
}

/// Reads one line, without its LF. A line is bad by its own bytes as `Grammar` alone.
#[tactic(auto, unfolding(crate::specs::Line::line_of))]
pub fn read_line(alloc: Global, line: &[u8]) -> Result<LineRead, AllocError>
    ensures { IfOk result (λ read. read ≡ line_of line.now) }
{
    let (word, rest) = split_word(line);
    if word == b"open".as_slice() {
        return Ok(read_open(rest));
    }
    if word == b"short".as_slice() {
        return read_short(alloc, rest);
    }
    if word == b"host".as_slice() {
        return read_host(alloc, rest);
    }
    if word == b"post".as_slice() {
        return read_post(alloc, rest);
    }
    read_later(alloc, line)
}

// A line about a session that there is, or the last one.
#[tactic(auto, unfolding(crate::specs::Line::later_line))]
fn read_later(alloc: Global, line: &[u8]) -> Result<LineRead, AllocError>
    ensures { IfOk result (λ read. read ≡ later_line line.now) }
{
    let (word, rest) = split_word(line);
    if word == b"at".as_slice() {
        return Ok(read_at(rest));
    }
    if word == b"close".as_slice() {
        return Ok(read_close(rest));
    }
    if word == b"back".as_slice() {
        return read_back(alloc, rest);
    }
    if word == b"shut".as_slice() {
        return read_shut(alloc, rest);
    }
    if word == b"backon".as_slice() {
        return read_back_on(alloc, rest);
    }
    if word == b"shuton".as_slice() {
        return read_shut_on(alloc, rest);
    }
    if line == b"end".as_slice() {
        return Ok(LineRead::Line(ScriptLine::End));
    }
    Ok(LineRead::BadLine(BadKind::Grammar))
}

// The rest of a line `open RID`.
fn read_open(rest: Option<&[u8]>) -> LineRead
    ensures { result ≡ open_of (option_copied rest.entry) }
{
    match rest.and_then(Rid::read) {
        Some(rid) => LineRead::Line(ScriptLine::Open { rid }),
        None => LineRead::BadLine(BadKind::Grammar),
    }
}

// The rest of a line `short RID STANZA`.
fn read_short(alloc: Global, rest: Option<&[u8]>) -> Result<LineRead, AllocError>
    ensures { IfOk result (λ read. read ≡ short_of (option_copied rest.entry)) }
{
    let Some(rest) = rest else {
        return Ok(LineRead::BadLine(BadKind::Grammar));
    };
    let (word, stanza) = split_word(rest);
    let Some(rid) = Rid::read(word) else {
        return Ok(LineRead::BadLine(BadKind::Grammar));
    };
    let Some(stanza) = stanza else {
        return Ok(LineRead::BadLine(BadKind::Grammar));
    };
    if !is_stanza(alloc, stanza)? {
        return Ok(LineRead::BadLine(BadKind::Grammar));
    }
    let stanza = Text::from_vec(Vec::from_slice(alloc, stanza)?);
    Ok(LineRead::Line(ScriptLine::Short { rid, stanza }))
}

// The rest of a line `host NAME GREETING`.
fn read_host(alloc: Global, rest: Option<&[u8]>) -> Result<LineRead, AllocError>
    ensures { IfOk result (λ read. read ≡ host_of (option_copied rest.entry)) }
{
    let Some(rest) = rest else {
        return Ok(LineRead::BadLine(BadKind::Grammar));
    };
    let (name, greeting) = split_word(rest);
    let Some(greeting) = read_greeting(alloc, greeting)? else {
        return Ok(LineRead::BadLine(BadKind::Grammar));
    };
    if !is_host_name(name) {
        return Ok(LineRead::BadLine(BadKind::Grammar));
    }
    let name = Text::from_vec(Vec::from_slice(alloc, name)?);
    Ok(LineRead::Line(ScriptLine::Host { name, greeting }))
}

// The stanzas of a greeting, none where it is left out.
fn read_greeting(alloc: Global, text: Option<&[u8]>) -> Result<Option<Stanzas>, AllocError>
    ensures { IfOk result (λ greeting. greeting ≡ greeting_of (option_copied text.entry)) }
{
    match text {
        Some(text) => row_of(alloc, text),
        None => Ok(Some(Stanzas::from_vec(Vec::new(alloc)))),
    }
}

// The rest of a line `post CONNECTION BODY`.
fn read_post(alloc: Global, rest: Option<&[u8]>) -> Result<LineRead, AllocError>
    ensures { IfOk result (λ read. read ≡ post_of (option_copied rest.entry)) }
{
    let Some(rest) = rest else {
        return Ok(LineRead::BadLine(BadKind::Grammar));
    };
    let (word, body) = split_word(rest);
    let Some(conn) = read_connection(word) else {
        return Ok(LineRead::BadLine(BadKind::Grammar));
    };
    let Some(body) = body else {
        return Ok(LineRead::BadLine(BadKind::Grammar));
    };
    let body = Text::from_vec(Vec::from_slice(alloc, body)?);
    Ok(LineRead::Line(ScriptLine::Post { conn, body }))
}

// The number of a connection, from 1 to 65535.
fn read_connection(word: &[u8]) -> Option<u16>
    ensures { result ≡ connection_of (rid_of word.now) }
{
    let number = Rid::read(word)?.value();
    u16::try_from(number).ok()
}

// The rest of a line `at MILLISECONDS`.
fn read_at(rest: Option<&[u8]>) -> LineRead
    ensures { result ≡ at_of (option_copied rest.entry) }
{
    match rest.and_then(read_moment) {
        Some(moment) => LineRead::Line(ScriptLine::At { moment }),
        None => LineRead::BadLine(BadKind::Grammar),
    }
}

// A number of milliseconds, from 0.
#[tactic(auto, unfolding(crate::specs::Line::moment_of))]
fn read_moment(text: &[u8]) -> Option<Moment>
    ensures { result ≡ moment_of text.now }
{
    if text == b"0".as_slice() {
        return Some(Moment::from_millis(0));
    }
    let millis = Rid::read(text)?.value();
    Some(Moment::from_millis(millis))
}

// The rest of a line `close CONNECTION`.
fn read_close(rest: Option<&[u8]>) -> LineRead
    ensures { result ≡ close_of (option_copied rest.entry) }
{
    match rest.and_then(read_connection) {
        Some(conn) => LineRead::Line(ScriptLine::Close { conn }),
        None => LineRead::BadLine(BadKind::Grammar),
    }
}

// Whether the word may name a session.
fn is_sid(word: &[u8]) -> bool
    ensures { result ≡ is_sid word.now }
{
    !word.is_empty() && word.len() <= LONGEST_SID
}

// The rest of a line `back SID STANZA`.
fn read_back(alloc: Global, rest: Option<&[u8]>) -> Result<LineRead, AllocError>
    ensures { IfOk result (λ read. read ≡ back_of (option_copied rest.entry)) }
{
    let Some(rest) = rest else {
        return Ok(LineRead::BadLine(BadKind::Grammar));
    };
    let (sid, stanza) = split_word(rest);
    if !is_sid(sid) {
        return Ok(LineRead::BadLine(BadKind::Grammar));
    }
    given(alloc, sid, StreamNo::unnamed(), stanza)
}

// The rest of a line `backon SID STREAM STANZA`.
fn read_back_on(alloc: Global, rest: Option<&[u8]>) -> Result<LineRead, AllocError>
    ensures { IfOk result (λ read. read ≡ back_on_of (option_copied rest.entry)) }
{
    let Some(rest) = rest else {
        return Ok(LineRead::BadLine(BadKind::Grammar));
    };
    let (sid, named) = split_word(rest);
    if !is_sid(sid) {
        return Ok(LineRead::BadLine(BadKind::Grammar));
    }
    let Some(named) = named else {
        return Ok(LineRead::BadLine(BadKind::Grammar));
    };
    let (word, stanza) = split_word(named);
    let Some(stream) = read_stream(word) else {
        return Ok(LineRead::BadLine(BadKind::Grammar));
    };
    given(alloc, sid, stream, stanza)
}

// What the session is given on this stream, if it is a stanza.
fn given(
    alloc: Global,
    sid: &[u8],
    stream: StreamNo,
    stanza: Option<&[u8]>,
) -> Result<LineRead, AllocError>
    ensures { IfOk result (λ read. read ≡ given_of sid.now stream (option_copied stanza.entry)) }
{
    let Some(stanza) = stanza else {
        return Ok(LineRead::BadLine(BadKind::Grammar));
    };
    if !is_stanza(alloc, stanza)? {
        return Ok(LineRead::BadLine(BadKind::Grammar));
    }
    let sid = Text::from_vec(Vec::from_slice(alloc, sid)?);
    let stanza = Text::from_vec(Vec::from_slice(alloc, stanza)?);
    Ok(LineRead::Line(ScriptLine::Back {
        sid,
        stream,
        stanza,
    }))
}

// The rest of a line `shut SID CLOSING`.
fn read_shut(alloc: Global, rest: Option<&[u8]>) -> Result<LineRead, AllocError>
    ensures { IfOk result (λ read. read ≡ shut_of (option_copied rest.entry)) }
{
    let Some(rest) = rest else {
        return Ok(LineRead::BadLine(BadKind::Grammar));
    };
    let (sid, word) = split_word(rest);
    if !is_sid(sid) {
        return Ok(LineRead::BadLine(BadKind::Grammar));
    }
    closed(alloc, sid, StreamNo::unnamed(), word)
}

// The rest of a line `shuton SID STREAM CLOSING`.
fn read_shut_on(alloc: Global, rest: Option<&[u8]>) -> Result<LineRead, AllocError>
    ensures { IfOk result (λ read. read ≡ shut_on_of (option_copied rest.entry)) }
{
    let Some(rest) = rest else {
        return Ok(LineRead::BadLine(BadKind::Grammar));
    };
    let (sid, named) = split_word(rest);
    if !is_sid(sid) {
        return Ok(LineRead::BadLine(BadKind::Grammar));
    }
    let Some(named) = named else {
        return Ok(LineRead::BadLine(BadKind::Grammar));
    };
    let (word, closing) = split_word(named);
    let Some(stream) = read_stream(word) else {
        return Ok(LineRead::BadLine(BadKind::Grammar));
    };
    closed(alloc, sid, stream, closing)
}

// The closing of this stream, if the word is one.
fn closed(
    alloc: Global,
    sid: &[u8],
    stream: StreamNo,
    word: Option<&[u8]>,
) -> Result<LineRead, AllocError>
    ensures { IfOk result (λ read. read ≡ closed_of sid.now stream (option_copied word.entry)) }
{
    let Some(word) = word else {
        return Ok(LineRead::BadLine(BadKind::Grammar));
    };
    let Some(closing) = read_closing(word) else {
        return Ok(LineRead::BadLine(BadKind::Grammar));
    };
    let sid = Text::from_vec(Vec::from_slice(alloc, sid)?);
    Ok(LineRead::Line(ScriptLine::Shut {
        sid,
        stream,
        closing,
    }))
}

/// The number of a stream, from 0 to 7.
#[tactic(auto, unfolding(crate::specs::Line::stream_of))]
pub fn read_stream(word: &[u8]) -> Option<StreamNo>
    ensures { result ≡ stream_of word.now }
{
    if word == b"0".as_slice() {
        return Some(StreamNo::unnamed());
    }
    let number = Rid::read(word)?.value();
    StreamNo::new(u16::try_from(number).ok()?)
}

/// The closing that the word names: `plain`, or a condition of RFC 6120, section 4.9.3.
#[tactic(auto, unfolding(crate::specs::Line::closing_of))]
pub fn read_closing(word: &[u8]) -> Option<Closing>
    ensures { result ≡ closing_of word.now }
{
    if word == b"plain".as_slice() {
        return Some(Closing::Plain);
    }
    if word == Condition::RemoteConnectionFailed.name().as_bytes() {
        return Some(Closing::RemoteConnectionFailed);
    }
    if word == Condition::RemoteStreamError.name().as_bytes() {
        return Some(Closing::RemoteStreamError);
    }
    if word == Condition::SystemShutdown.name().as_bytes() {
        return Some(Closing::SystemShutdown);
    }
    None
}

/// The first word, and what follows the space after it, if there is one.
pub fn split_word(text: &[u8]) -> (&[u8], Option<&[u8]>)
    ensures word { result.0.now ≡ word_of text.now }
    ensures rest { option_copied result.1 ≡ rest_of text.now }
{
    match first_space(text) {
        Some(i) => (&text[..i], Some(&text[i + 1..])),
        None => (text, None),
    }
}

// Where the first space is.
fn first_space(text: &[u8]) -> Option<usize>
    ensures { result ≡ position (λ byte. byte == 32) text.now }
{
    text.iter().position(|byte| *byte == b' ')
}

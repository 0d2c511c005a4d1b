// What one line of a script of two ends says.
ghost use Rattle.std.specs.Prelude.{◌≡◌, IfOk, None};
ghost use Rattle.bosh_types.specs.Rid.{rid_of};
ghost use Rattle.world_laws.specs.declared.event.WorldEvent.TheVariants.{Put, Give};
ghost use Rattle.pair_text.specs.StreamLine.{stream_line};
ghost use Rattle.pair_text.specs.Line.{at_line, carry_line, client_line, count_of, event_line, flag_of, named_line, pair_line_of, pause_line, return_line, seconds_of, shared_said, shut_line, stanza_line, terms_of, word_line, words_line};

use crate::numbers::read_number;
use crate::stream_line::read_stream_line;
use bosh_types::{Moment, Rid, Stanzas, Text};
use script_text::{LineRead, ScriptLine, read_closing, read_line, split_word};
use session_attrs::is_stanza;
use std::alloc::{AllocError, Global};
use world_laws::WorldEvent;

/// A line of a script of two ends.
#[derive(Debug, Drop)]
pub enum PairLine {
    /// `host NAME GREETING`: the manager serves this host, and greets its session with these stanzas.
    Host { name: Text, greeting: Stanzas },
    /// `client RID WAIT HOLD ACK KEYS`: the client begins with these.
    Client(ClientTerms),
    /// What happens in the world: `at`, `put`, `restart`, `pause`, `stop`, `send`, `carry`, `give`, `shut`, `return`; and on one of several
    /// streams `add`, `puton`, `stopon`, `giveon`, `shuton`.
    Event(WorldEvent),
    /// `end`
    End,
}

/// What a client begins with.
#[derive(Clone, Copy, Debug, PartialEq, Eq)]
pub struct ClientTerms {
    /// The id of its first request.
    pub first: Rid,
    /// For how many seconds a request may be held, and how many may be held.
    pub wait: u32,
    pub hold: u32,
    /// Whether it asks for acknowledgements.
    pub ack: bool,
    /// How many keys a sequence has; 0 where no keys are sent.
    pub keys: u32,
}

/// Reads one line, without its LF: `None` exactly where it says nothing that such a script may say.
pub fn read_pair_line(alloc: Global, line: &[u8]) -> Result<Option<PairLine>, AllocError>
    ensures { IfOk result (λ said. said ≡ pair_line_of line.now) }
{
    let (word, Some(rest)) = split_word(line) else {
        return read_word_line(alloc, line);
    };
    match read_words_line(alloc, word, rest)? {
        Some(said) => Ok(said),
        None => read_word_line(alloc, line),
    }
}

// A line whose first word is this, where more follows.
#[tactic(auto, unfolding(crate::specs::Line::words_line))]
fn read_words_line(
    alloc: Global,
    word: &[u8],
    rest: &[u8],
) -> Result<Option<Option<PairLine>>, AllocError>
    ensures { IfOk result (λ said. said ≡ words_line word.now rest.now) }
{
    if word == b"client".as_slice() {
        return Ok(Some(read_client(rest)));
    }
    if word == b"at".as_slice() {
        return Ok(Some(read_at(rest)));
    }
    if word == b"put".as_slice() {
        return Ok(Some(read_put(alloc, rest)?));
    }
    if word == b"pause".as_slice() {
        return Ok(Some(read_pause(rest)));
    }
    if word == b"carry".as_slice() {
        return Ok(Some(read_carry(rest)));
    }
    if word == b"give".as_slice() {
        return Ok(Some(read_give(alloc, rest)?));
    }
    if word == b"shut".as_slice() {
        return Ok(Some(read_shut(rest)));
    }
    if word == b"return".as_slice() {
        return Ok(Some(read_return(rest)));
    }
    read_named_line(alloc, word, rest)
}

// A line that adds a stream or names one.
fn read_named_line(
    alloc: Global,
    word: &[u8],
    rest: &[u8],
) -> Result<Option<Option<PairLine>>, AllocError>
    ensures { IfOk result (λ said. said ≡ named_line (stream_line word.now rest.now)) }
{
    match read_stream_line(alloc, word, rest)? {
        Some(event) => Ok(Some(event_line(event))),
        None => Ok(None),
    }
}

fn event_line(event: Option<WorldEvent>) -> Option<PairLine>
    ensures { result ≡ event_line event }
{
    Some(PairLine::Event(event?))
}

// A line of one word, or one that scripts of one manager have too.
#[tactic(auto, unfolding(crate::specs::Line::word_line))]
fn read_word_line(alloc: Global, line: &[u8]) -> Result<Option<PairLine>, AllocError>
    ensures { IfOk result (λ said. said ≡ word_line line.now) }
{
    if line == b"restart".as_slice() {
        return Ok(Some(PairLine::Event(WorldEvent::Restart)));
    }
    if line == b"stop".as_slice() {
        return Ok(Some(PairLine::Event(WorldEvent::Stop)));
    }
    if line == b"send".as_slice() {
        return Ok(Some(PairLine::Event(WorldEvent::Send)));
    }
    match read_line(alloc, line)? {
        LineRead::Line(said) => Ok(shared(said)),
        LineRead::BadLine(_) => Ok(None),
    }
}

// A line that scripts of one manager have too.
fn shared(said: ScriptLine) -> Option<PairLine>
    ensures { result ≡ shared_said said }
{
    match said {
        ScriptLine::Host { name, greeting } => Some(PairLine::Host { name, greeting }),
        ScriptLine::End => Some(PairLine::End),
        _ => None,
    }
}

fn read_client(text: &[u8]) -> Option<PairLine>
    ensures { result ≡ client_line text.now }
{
    Some(PairLine::Client(read_terms(text)?))
}

// The five words after `client`.
fn read_terms(text: &[u8]) -> Option<ClientTerms>
    ensures { result ≡ terms_of text.now }
{
    let (first, rest) = split_word(text);
    let (wait, rest) = split_word(rest?);
    let (hold, rest) = split_word(rest?);
    let (ack, rest) = split_word(rest?);
    let keys = rest?;
    Some(ClientTerms {
        first: Rid::read(first)?,
        wait: read_count(wait)?,
        hold: read_count(hold)?,
        ack: read_flag(ack)?,
        keys: read_count(keys)?,
    })
}

// A number that 32 bits hold.
fn read_count(text: &[u8]) -> Option<u32>
    ensures { result ≡ count_of text.now }
{
    let number = read_number(text)?;
    u32::try_from(number).ok()
}

// `0` for no and `1` for yes.
#[tactic(auto, unfolding(crate::specs::Line::flag_of))]
fn read_flag(text: &[u8]) -> Option<bool>
    ensures { result ≡ flag_of text.now }
{
    if text == b"0".as_slice() {
        return Some(false);
    }
    if text == b"1".as_slice() {
        return Some(true);
    }
    None
}

fn read_put(alloc: Global, text: &[u8]) -> Result<Option<PairLine>, AllocError>
    ensures { IfOk result (λ said. said ≡ stanza_line Put text.now) }
{
    if !is_stanza(alloc, text)? {
        return Ok(None);
    }
    let stanza = Text::from_vec(Vec::from_slice(alloc, text)?);
    Ok(Some(PairLine::Event(WorldEvent::Put(stanza))))
}

fn read_give(alloc: Global, text: &[u8]) -> Result<Option<PairLine>, AllocError>
    ensures { IfOk result (λ said. said ≡ stanza_line Give text.now) }
{
    if !is_stanza(alloc, text)? {
        return Ok(None);
    }
    let stanza = Text::from_vec(Vec::from_slice(alloc, text)?);
    Ok(Some(PairLine::Event(WorldEvent::Give(stanza))))
}

// A pause of more seconds than 32 bits hold counts as the longest.
fn read_pause(text: &[u8]) -> Option<PairLine>
    ensures { result ≡ pause_line text.now }
{
    let seconds = seconds_of(read_number(text)?);
    Some(PairLine::Event(WorldEvent::Pause(seconds)))
}

fn seconds_of(number: u64) -> u32
    ensures { result ≡ seconds_of number }
{
    u32::try_from(number).unwrap_or(u32::MAX)
}

fn read_at(text: &[u8]) -> Option<PairLine>
    ensures { result ≡ at_line text.now }
{
    let moment = Moment::from_millis(read_number(text)?);
    Some(PairLine::Event(WorldEvent::At(moment)))
}

fn read_carry(text: &[u8]) -> Option<PairLine>
    ensures { result ≡ carry_line text.now }
{
    let rid = Rid::read(text)?;
    Some(PairLine::Event(WorldEvent::Carry(rid)))
}

fn read_return(text: &[u8]) -> Option<PairLine>
    ensures { result ≡ return_line text.now }
{
    let number = read_number(text)?;
    Some(PairLine::Event(WorldEvent::Return(number)))
}

fn read_shut(text: &[u8]) -> Option<PairLine>
    ensures { result ≡ shut_line text.now }
{
    let closing = read_closing(text)?;
    Some(PairLine::Event(WorldEvent::Shut(closing)))
}

// A record of a file, entered once more into the session that it is of.
ghost use Rattle.std.specs.Prelude.{◌≡◌, ◌+◌, ◌<◌, IfOk, chars, length};
ghost use Rattle.std.specs.List.{list_all};
ghost use Rattle.body_cutter.specs.Utf8.{is_tabled};
ghost use Rattle.session_journal.specs.Entries.{terms_in};
ghost use Rattle.session_store.specs.Replay.{Enters, IsOpeningOf, OpensAs, Replays, is_text, is_text_within, may_stand, may_wait};

use body_cutter::is_allowed;
use bosh_types::{Terms, Text};
use journal_store::{ReadError, SessionEntry, read_content};
use session_attrs::{Kind, may_greet, negotiate, read_body};
use session_core::Opening;
use session_journal::{Entered, Entry, Journalled, Redone};
use std::alloc::{AllocError, Global};

// How long the name of a session is at most.
const LONGEST_SID: usize = 64;
// And how long that of a host is.
const LONGEST_HOST: usize = 1023;
// How many times `wait` a copy beyond a gap waits at most.
const MOST_GAP_WAITS: u32 = 10;

// What became of the content of a record.
#[derive(Clone, Copy, Debug, PartialEq, Eq)]
pub(crate) enum Replayed {
    // It is an entry that may come there, and its session has it.
    Entered,
    // It is none, and nothing changed.
    Damaged,
}

// Enters what a content says: it opens the next session, or is one more entry of a session that there is. The only error is
// want of memory.
pub(crate) fn replay(
    alloc: Global,
    sessions: &mut Vec<Journalled>,
    content: &[u8],
) -> Result<Replayed, AllocError>
    ensures { IfOk result (λ replayed. Replays sessions.old.items content.now replayed sessions.new.items) }
{
    let SessionEntry { session, entry } = match read_content(alloc, content) {
        Ok(read) => read,
        Err(ReadError::NoEntry) => return Ok(Replayed::Damaged),
        Err(ReadError::NoMemory) => return Err(AllocError),
    };
    enter(alloc, sessions, session, entry)
}

fn enter(
    alloc: Global,
    sessions: &mut Vec<Journalled>,
    session: u32,
    entry: Entry,
) -> Result<Replayed, AllocError>
    ensures { IfOk result (λ replayed. Enters sessions.old.items session entry replayed sessions.new.items) }
{
    let Some(place) = session.checked_sub(1) else {
        return Ok(Replayed::Damaged);
    };
    let place = place as usize;
    if place < sessions.len() {
        return redo_at(alloc, sessions, place, &entry);
    }
    if place > sessions.len() {
        return Ok(Replayed::Damaged);
    }
    match open_again(alloc, entry)? {
        Some(journalled) => {
            sessions.push(journalled)?;
            Ok(Replayed::Entered)
        }
        None => Ok(Replayed::Damaged),
    }
}

fn redo_at(
    alloc: Global,
    sessions: &mut Vec<Journalled>,
    place: usize,
    entry: &Entry,
) -> Result<Replayed, AllocError>
    requires { place < length sessions.old.items }
    ensures { IfOk result (λ replayed. Enters sessions.old.items (place + 1) entry.now replayed sessions.new.items) }
{
    match sessions[place].redo(alloc, entry)? {
        Redone::Done => Ok(Replayed::Entered),
        Redone::Foreign => Ok(Replayed::Damaged),
    }
}

// The session that an entry opens, where it may open one.
fn open_again(alloc: Global, entry: Entry) -> Result<Option<Journalled>, AllocError>
    ensures { IfOk result (λ made. OpensAs entry made) }
{
    let Entry { caller, call } = entry;
    let Some(opening) = opening_of(alloc, call)? else {
        return Ok(None);
    };
    let (journalled, _answer) = Journalled::open(alloc, opening, caller)?;
    Ok(Some(journalled))
}

// What opens a session by an entry, where that may: the request and the terms are those that the body gives.
fn opening_of(alloc: Global, call: Entered) -> Result<Option<Opening>, AllocError>
    ensures { IfOk result (λ opening. IsOpeningOf call opening) }
{
    match call {
        Entered::Open {
            sid,
            host,
            greeting,
            body,
            now,
            limit,
            gap_waits,
        } => {
            let Some(request) = read_body(alloc, body.as_slice())? else {
                return Ok(None);
            };
            let Some(terms) = terms_of(&request.kind) else {
                return Ok(None);
            };
            if !may_wait(gap_waits) {
                return Ok(None);
            }
            if !may_stand(alloc, sid.as_slice(), host.as_slice(), greeting.as_slice())? {
                return Ok(None);
            }
            Ok(Some(Opening {
                request,
                body,
                terms,
                sid,
                host,
                greeting,
                at: now,
                limit,
                gap_waits,
            }))
        }
        _ => Ok(None),
    }
}

// The terms to which a creation leads.
fn terms_of(kind: &Kind) -> Option<Terms>
    ensures { result ≡ terms_in kind.now }
{
    match kind {
        Kind::Creation(creation) => Some(negotiate(creation)),
        Kind::Later { .. } => None,
    }
}

// Whether a copy beyond a gap may wait so many times `wait`.
fn may_wait(gap_waits: u32) -> bool
    ensures { result ≡ may_wait gap_waits }
{
    gap_waits >= 1 && gap_waits <= MOST_GAP_WAITS
}

// Whether a session may have this name, be for this host, and greet so.
fn may_stand(alloc: Global, sid: &[u8], host: &[u8], greeting: &[Text]) -> Result<bool, AllocError>
    ensures { IfOk result (λ may. may ≡ may_stand sid.now host.now greeting.now) }
{
    if !is_text_within(1, LONGEST_SID, sid) {
        return Ok(false);
    }
    if !is_text_within(1, LONGEST_HOST, host) {
        return Ok(false);
    }
    may_greet(alloc, greeting)
}

#[tactic(auto, unfolding(crate::specs::Replay::is_text_within))]
fn is_text_within(least: usize, most: usize, bytes: &[u8]) -> bool
    ensures { result ≡ is_text_within least most bytes.now }
{
    if bytes.len() < least || bytes.len() > most {
        return false;
    }
    is_text(bytes)
}

// Whether the bytes are UTF-8 of characters that may stand in an answer.
fn is_text(bytes: &[u8]) -> bool
    ensures { result ≡ is_text bytes.now }
{
    match std::str::from_utf8(bytes) {
        Ok(text) => is_all_tabled(text),
        Err(_) => false,
    }
}

fn is_all_tabled(text: &str) -> bool
    ensures { result ≡ list_all is_tabled (chars text.now) }
{
    text.chars().all(is_tabled)
}

fn is_tabled(character: char) -> bool
    ensures { result ≡ is_tabled character }
{
    let number = u32::from(character);
    number < 128 || is_allowed(number)
}

// Entries for the tests.
use bosh_types::{Moment, SharedText, Stanzas, StreamNo, Text};
use entry_queue::{EntryQueue, Noted};
use session_journal::{Entered, Entry};
use std::alloc::{AllocError, Global};
use std::sync::Wait;

const CREATION: &[u8] =
    b"<body rid='1000' to='echo.localhost' wait='60' hold='1' ver='1.6' xmlns='http://jabber.org/protocol/httpbind'/>";

fn text(alloc: Global, bytes: &[u8]) -> Result<Text, AllocError> {
    Ok(Text::from_vec(Vec::from_slice(alloc, bytes)?))
}

pub(crate) fn shared(alloc: Global, bytes: &[u8]) -> Result<SharedText, AllocError> {
    SharedText::new(alloc, text(alloc, bytes)?)
}

const ADD: &[u8] =
    b"<body rid='1001' sid='s-1' to='echo.localhost' xmlns='http://jabber.org/protocol/httpbind'/>";

/// The opening of a session of this name.
pub(crate) fn opening(alloc: Global, sid: &[u8]) -> Result<Entered, AllocError> {
    Ok(Entered::Open {
        sid: text(alloc, sid)?,
        host: shared(alloc, b"echo.localhost")?,
        greeting: Stanzas::from_vec(Vec::new(alloc)),
        body: shared(alloc, CREATION)?,
        now: Moment::from_millis(5),
        limit: 16777216,
        gap_waits: 1,
    })
}

/// A request that adds a stream to it.
pub(crate) fn add(alloc: Global) -> Result<Entered, AllocError> {
    Ok(Entered::Arrive {
        body: shared(alloc, ADD)?,
        now: Moment::from_millis(6),
    })
}

/// A stanza of the server behind.
pub(crate) fn stanza(alloc: Global) -> Result<Entered, AllocError> {
    Ok(Entered::Back {
        stream: StreamNo::unnamed(),
        stanza: shared(alloc, b"<x/>")?,
        now: Moment::from_millis(7),
    })
}

/// An entry of session 1 is noted, with so many before it.
pub(crate) fn note<R: Wait>(rt: &R, queue: &EntryQueue, index: u64, call: Entered) {
    let entry = Entry { caller: 0, call };
    queue.note(
        rt,
        Noted {
            session: 1,
            index,
            entry,
        },
    );
}

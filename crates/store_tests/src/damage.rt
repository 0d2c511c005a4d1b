// Files that are damaged, and where.
use bosh_types::{Moment, SharedText, Stanzas, StreamNo, Text, Ticket};
use journal_store::{MemoryDisk, write_content};
use session_journal::{Entered, Entry, Limited};
use session_store::{Opened, open};
use std::alloc::{AllocError, Global};
use std::test::Fail;

const CREATION: &[u8] =
    b"<body rid='1000' to='example.org' wait='60' hold='1' ver='1.6' xmlns='http://jabber.org/protocol/httpbind'/>";

const REQUEST: &[u8] =
    b"<body rid='1001' sid='s1' xmlns='http://jabber.org/protocol/httpbind'><a/></body>";

// What a record has, in short: the number of a session and an entry of it.
#[derive(Clone, Copy)]
enum Kept {
    Open(&'static [u8], &'static [u8]),
    Waiting(u32),
    Arrive(&'static [u8]),
    Collect(u32),
    Back(&'static [u8]),
    Tick(u64),
    Take,
    Limit(u64),
}

fn text(alloc: Global, bytes: &[u8]) -> Result<Text, AllocError> {
    Ok(Text::from_vec(Vec::from_slice(alloc, bytes)?))
}

fn shared(alloc: Global, bytes: &[u8]) -> Result<SharedText, AllocError> {
    SharedText::new(alloc, text(alloc, bytes)?)
}

fn opening(alloc: Global, sid: &[u8], body: &[u8], gap_waits: u32) -> Result<Entered, AllocError> {
    Ok(Entered::Open {
        sid: text(alloc, sid)?,
        host: shared(alloc, b"example.org")?,
        greeting: Stanzas::from_vec(Vec::new(alloc)),
        body: shared(alloc, body)?,
        now: Moment::from_millis(5),
        limit: 16777216,
        gap_waits,
    })
}

fn call(alloc: Global, kept: Kept) -> Result<Entered, AllocError> {
    let now = Moment::from_millis(5);
    Ok(match kept {
        Kept::Open(sid, body) => opening(alloc, sid, body, 1)?,
        Kept::Waiting(gap_waits) => opening(alloc, b"s2", CREATION, gap_waits)?,
        Kept::Arrive(body) => Entered::Arrive {
            body: shared(alloc, body)?,
            now,
        },
        Kept::Collect(ticket) => Entered::Collect {
            ticket: Ticket::new(ticket),
        },
        Kept::Back(stanza) => Entered::Back {
            stream: StreamNo::unnamed(),
            stanza: shared(alloc, stanza)?,
            now,
        },
        Kept::Tick(millis) => Entered::Tick {
            now: Moment::from_millis(millis),
        },
        Kept::Take => Entered::TakeInward,
        Kept::Limit(cost) => Entered::Limit {
            kind: Limited::Arrival,
            cost,
            now,
        },
    })
}

// The record of an entry, put behind others.
fn put(alloc: Global, image: &mut Vec<u8>, session: u32, kept: Kept) -> Result<(), Fail> {
    let mut content = Vec::new(alloc);
    let entry = Entry {
        caller: 0,
        call: call(alloc, kept)?,
    };
    write_content(&mut content, session, &entry)?;
    put_content(image, content.as_slice())
}

fn put_content(image: &mut Vec<u8>, content: &[u8]) -> Result<(), Fail> {
    let Ok(length) = u32::try_from(content.len()) else {
        return Err("a content of less than 4 GiB")?;
    };
    image.push(1)?;
    image.extend_from_slice(&length.to_be_bytes())?;
    image.extend_from_slice(content)?;
    Ok(())
}

// Where an image is damaged: none where it opens.
fn damaged_at(alloc: Global, image: Vec<u8>) -> Option<u64> {
    match open(alloc, MemoryDisk::new(image, Vec::new(alloc), 0)) {
        Opened::Damaged { at, .. } => Some(at),
        _ => None,
    }
}

const OPEN: Kept = Kept::Open(b"s1", CREATION);

// Each record that may not come there, behind a session that passed nothing on yet; and some that may.
#[test]
fn each_kind_of_damage_is_found_at_its_place(rt: HostRuntime) -> Result<(), Fail> {
    let alloc = rt.alloc();
    let rows = [
        // of a session that isn't there, of none, and an opening that isn't the next
        (2, Kept::Take, true),
        (0, Kept::Take, true),
        (0, OPEN, true),
        (1, OPEN, true),
        (3, OPEN, true),
        (2, OPEN, false),
        // an opening under no name, by a later request, and by what is no body
        (2, Kept::Open(b"", CREATION), true),
        (2, Kept::Open(b"s2", REQUEST), true),
        (2, Kept::Open(b"s2", b"<a/>"), true),
        // a copy beyond a gap that waits no time, too long, and as long as it may
        (2, Kept::Waiting(0), true),
        (2, Kept::Waiting(11), true),
        (2, Kept::Waiting(10), false),
        // an arrival of a creation, and one that may be
        (1, Kept::Arrive(CREATION), true),
        (1, Kept::Arrive(REQUEST), false),
        // a ticket that wasn't given, an item that isn't there, a tick with nothing to do
        (1, Kept::Collect(1), true),
        (1, Kept::Take, true),
        (1, Kept::Tick(6), true),
        (1, Kept::Tick(40_000), false),
        // what is no stanza, and what is one
        (1, Kept::Back(b"text"), true),
        (1, Kept::Back(b"<x/>"), false),
        // a limit that there is room for, and one that there isn't
        (1, Kept::Limit(5), true),
        (1, Kept::Limit(16_777_217), false),
    ];
    let mut right = 0u32;
    let mut first = Vec::new(alloc);
    put(alloc, &mut first, 1, OPEN)?;
    let place = first.len() as u64;
    for (session, kept, is_damage) in rows {
        let mut image = first.as_slice().to_vec(alloc)?;
        put(alloc, &mut image, session, kept)?;
        let wanted = if is_damage { Some(place) } else { None };
        if damaged_at(alloc, image) == wanted {
            right = right.saturating_add(1);
        }
    }
    assert_eq!(rt; right, 22);
    Ok(())
}

// A content that is no entry, at the first place.
#[test]
fn what_is_no_entry_is_damage(rt: HostRuntime) -> Result<(), Fail> {
    let alloc = rt.alloc();
    let mut image = Vec::new(alloc);
    put_content(&mut image, b"")?;
    assert_eq!(rt; damaged_at(alloc, image), Some(0));
    Ok(())
}

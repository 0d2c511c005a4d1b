// Entries of a stored journal that are made again.
use crate::openings::{opening_with, text};
use bosh_types::limits::JOURNAL_BYTES;
use bosh_types::{Closing, Moment, Stanzas, StreamNo, Text, Ticket};
use session_journal::{Entered, Entry, Journalled, Limited, Redone};
use std::alloc::{AllocError, Global};
use std::process::Abort;
use std::test::Fail;

// A creation that asks to hold one request for a minute.
const CREATION: &str =
    "<body rid='1000' to='example.org' wait='60' hold='1' ver='1.6' xmlns='http://jabber.org/protocol/httpbind'/>";

const FIRST: &str =
    "<body rid='1001' sid='s1' xmlns='http://jabber.org/protocol/httpbind'><a/></body>";

const SECOND: &str =
    "<body rid='1002' sid='s1' xmlns='http://jabber.org/protocol/httpbind'><b/></body>";

// What an entry keeps, in short.
#[derive(Clone, Copy)]
enum Kept {
    Open,
    Arrive(&'static str, u64),
    Collect(u32),
    Back(&'static str, u64),
    Close(u64),
    Tick(u64),
    Take,
    // With its kind and its cost.
    Limit(Limited, u64),
}

fn opened_again(alloc: Global) -> Result<Entered, AllocError> {
    Ok(Entered::Open {
        sid: Text::from_vec(Vec::from_slice(alloc, b"s1")?),
        host: text(alloc, b"example.org")?,
        greeting: Stanzas::from_vec(Vec::new(alloc)),
        body: text(alloc, CREATION.as_bytes())?,
        now: Moment::from_millis(0),
        limit: JOURNAL_BYTES,
        gap_waits: 1,
    })
}

fn entered(alloc: Global, kept: Kept) -> Result<Entered, AllocError> {
    match kept {
        Kept::Open => opened_again(alloc),
        Kept::Arrive(body, millis) => Ok(Entered::Arrive {
            body: text(alloc, body.as_bytes())?,
            now: Moment::from_millis(millis),
        }),
        Kept::Collect(number) => Ok(Entered::Collect {
            ticket: Ticket::new(number),
        }),
        Kept::Back(stanza, millis) => Ok(Entered::Back {
            stream: StreamNo::unnamed(),
            stanza: text(alloc, stanza.as_bytes())?,
            now: Moment::from_millis(millis),
        }),
        Kept::Close(millis) => Ok(Entered::BackClosed {
            stream: StreamNo::unnamed(),
            closing: Closing::Plain,
            now: Moment::from_millis(millis),
        }),
        Kept::Tick(millis) => Ok(Entered::Tick {
            now: Moment::from_millis(millis),
        }),
        Kept::Take => Ok(Entered::TakeInward),
        Kept::Limit(kind, cost) => Ok(Entered::Limit {
            kind,
            cost,
            now: Moment::from_millis(10),
        }),
    }
}

// A session whose journal may have so many counted bytes.
fn opened(alloc: Global, limit: u64) -> Result<Journalled, Fail> {
    let opening = opening_with(alloc, CREATION.as_bytes(), limit)?;
    let (journalled, _text) = Journalled::open(alloc, opening, 0)?;
    Ok(journalled)
}

fn entry_count(journalled: &Journalled) -> usize {
    journalled.entries().len()
}

// How many entries there are more once this one was made again.
fn more_by(redone: Redone) -> usize {
    match redone {
        Redone::Done => 1,
        Redone::Foreign => 0,
    }
}

// This becomes of the entry, and the journal has it then, or is as long as it was.
fn again(
    rt: &impl Abort,
    alloc: Global,
    journalled: &mut Journalled,
    kept: Kept,
    want: Redone,
) -> Result<(), Fail> {
    let entry = Entry {
        caller: 2,
        call: entered(alloc, kept)?,
    };
    let before = entry_count(journalled);
    let told = journalled.redo(alloc, &entry)?;
    assert_eq!(rt; told, want);
    assert_eq!(rt;
        entry_count(journalled),
        before.saturating_add(more_by(want))
    );
    Ok(())
}

#[test]
fn each_kind_of_entry_is_made_again(rt: HostRuntime) -> Result<(), Fail> {
    let alloc = rt.alloc();
    let mut j = opened(alloc, JOURNAL_BYTES)?;
    again(&rt, alloc, &mut j, Kept::Arrive(FIRST, 10), Redone::Done)?;
    // The request waits.
    again(&rt, alloc, &mut j, Kept::Collect(1), Redone::Foreign)?;
    again(&rt, alloc, &mut j, Kept::Back("<b/>", 20), Redone::Done)?;
    again(&rt, alloc, &mut j, Kept::Collect(1), Redone::Done)?;
    again(&rt, alloc, &mut j, Kept::Collect(1), Redone::Foreign)?;
    again(&rt, alloc, &mut j, Kept::Take, Redone::Done)?;
    again(&rt, alloc, &mut j, Kept::Take, Redone::Foreign)?;
    assert_eq!(rt; j.tickets_given(), 1);
    Ok(())
}

#[test]
fn an_earlier_moment_counts_as_the_one_before(rt: HostRuntime) -> Result<(), Fail> {
    let alloc = rt.alloc();
    let mut j = opened(alloc, JOURNAL_BYTES)?;
    again(&rt, alloc, &mut j, Kept::Back("<b/>", 20), Redone::Done)?;
    again(&rt, alloc, &mut j, Kept::Arrive(FIRST, 5), Redone::Done)?;
    again(&rt, alloc, &mut j, Kept::Arrive(SECOND, 5), Redone::Done)?;
    again(&rt, alloc, &mut j, Kept::Tick(60_019), Redone::Foreign)?;
    again(&rt, alloc, &mut j, Kept::Tick(60_020), Redone::Done)?;
    assert_eq!(rt; j.tickets_given(), 1);
    Ok(())
}

#[test]
fn after_the_ending_only_what_is_left_is_made_again(rt: HostRuntime) -> Result<(), Fail> {
    let alloc = rt.alloc();
    let mut j = opened(alloc, JOURNAL_BYTES)?;
    again(&rt, alloc, &mut j, Kept::Arrive(FIRST, 10), Redone::Done)?;
    again(&rt, alloc, &mut j, Kept::Close(20), Redone::Done)?;
    again(
        &rt,
        alloc,
        &mut j,
        Kept::Arrive(SECOND, 30),
        Redone::Foreign,
    )?;
    again(&rt, alloc, &mut j, Kept::Close(30), Redone::Foreign)?;
    again(&rt, alloc, &mut j, Kept::Tick(90_000), Redone::Foreign)?;
    let limit = Kept::Limit(Limited::Arrival, JOURNAL_BYTES);
    again(&rt, alloc, &mut j, limit, Redone::Foreign)?;
    again(&rt, alloc, &mut j, Kept::Collect(1), Redone::Done)?;
    again(&rt, alloc, &mut j, Kept::Take, Redone::Done)?;
    Ok(())
}

#[test]
fn what_no_session_would_enter_is_foreign(rt: HostRuntime) -> Result<(), Fail> {
    let alloc = rt.alloc();
    let mut j = opened(alloc, JOURNAL_BYTES)?;
    again(&rt, alloc, &mut j, Kept::Open, Redone::Foreign)?;
    again(
        &rt,
        alloc,
        &mut j,
        Kept::Arrive(CREATION, 10),
        Redone::Foreign,
    )?;
    again(
        &rt,
        alloc,
        &mut j,
        Kept::Arrive("<body", 10),
        Redone::Foreign,
    )?;
    again(&rt, alloc, &mut j, Kept::Back("<b>", 10), Redone::Foreign)?;
    again(&rt, alloc, &mut j, Kept::Tick(10), Redone::Foreign)?;
    again(&rt, alloc, &mut j, Kept::Collect(1), Redone::Foreign)?;
    again(&rt, alloc, &mut j, Kept::Arrive(FIRST, 10), Redone::Done)?;
    Ok(())
}

#[test]
fn a_limit_is_taken_where_its_cost_does_not_fit(rt: HostRuntime) -> Result<(), Fail> {
    let alloc = rt.alloc();
    let mut j = opened(alloc, 400)?;
    let small = Kept::Limit(Limited::Arrival, 5);
    again(&rt, alloc, &mut j, small, Redone::Foreign)?;
    // Time has nothing to do yet.
    let early = Kept::Limit(Limited::Time, 1_000);
    again(&rt, alloc, &mut j, early, Redone::Foreign)?;
    // It would meet the limit, and be entered as that.
    again(&rt, alloc, &mut j, Kept::Arrive(FIRST, 10), Redone::Foreign)?;
    // No closing costs so much, and it is taken nevertheless.
    let wide = Kept::Limit(Limited::ServerClosing, 1_000);
    again(&rt, alloc, &mut j, wide, Redone::Done)?;
    again(&rt, alloc, &mut j, wide, Redone::Foreign)?;
    Ok(())
}

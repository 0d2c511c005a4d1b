// Copies beyond a gap that have waited their time are struck, and the client is told so by an error.
use crate::calls::{Call, EMPTY, LAST, NOT_FOUND, told_of_call};
use crate::openings::opening_that_waits;
use bosh_types::limits::JOURNAL_BYTES;
use session_core::Session;
use std::alloc::Global;
use std::process::Abort;
use std::test::Fail;

const ERROR: &str = "Answer <body xmlns='http://jabber.org/protocol/httpbind' type='error'/>";

const ACK: &str = "Answer <body xmlns='http://jabber.org/protocol/httpbind' ack='1002'/>";

const OTHER: &str =
    "Answer <body xmlns='http://jabber.org/protocol/httpbind' type='terminate' condition='other-request'/>";

// A session that this creation begins. Its journal may have so many counted bytes, and a copy beyond a gap waits so often its `wait`.
fn begun(alloc: Global, creation: &str, limit: u64, gap_waits: u32) -> Result<Session, Fail> {
    if gap_waits < 1 || gap_waits > 10 {
        return Err("from 1 to 10 times")?;
    }
    let body = format!(in alloc;
        "<body rid='1000' {creation} ver='1.6' xmlns='http://jabber.org/protocol/httpbind'/>"
    )?;
    let opening = opening_that_waits(alloc, body.as_bytes(), limit, gap_waits)?;
    let (session, _answer) = Session::open(alloc, &opening)?;
    Ok(session)
}

// The calls, one after the other, are told this.
fn are_told(
    rt: &impl Abort,
    alloc: Global,
    session: &mut Session,
    calls: &[(Call, &str)],
) -> Result<(), Fail> {
    for (at, (call, want)) in calls.iter().enumerate() {
        let told = told_of_call(alloc, session, *call)?;
        assert_eq!(rt; told.as_str(), *want, "call {at}");
    }
    Ok(())
}

#[test]
fn a_copy_beyond_a_gap_is_struck_and_comes_again(rt: HostRuntime) -> Result<(), Fail> {
    // it is struck exactly at `wait`, and is received once it is repeated after the missing one
    let calls = [
        (Call::Arrive(1002, "", "<b/>", 0), "Parked 1"),
        (Call::Due, "10000"),
        (Call::Tick(9999), "Quiet"),
        (Call::Collect(1), "NotYet"),
        (Call::Tick(10000), "Changed"),
        (Call::Collect(1), ERROR),
        (Call::Collect(1), "UnknownTicket"),
        (Call::Due, "40001"),
        (Call::Arrive(1001, "", "<a/>", 10000), "Parked 2"),
        (Call::Take, "Item <a/>"),
        (Call::Take, "None"),
        (Call::Arrive(1002, "", "<b/>", 10000), "Parked 3"),
        (Call::Collect(2), ACK),
        (Call::Take, "Item <b/>"),
    ];
    let mut session = begun(rt.alloc(), "wait='10' hold='1'", JOURNAL_BYTES, 1)?;
    are_told(&rt, rt.alloc(), &mut session, &calls)
}

#[test]
fn time_comes_before_what_arrives(rt: HostRuntime) -> Result<(), Fail> {
    // the missing one arrives at that very moment: time comes first
    let calls = [
        (Call::Arrive(1002, "", "<b/>", 0), "Parked 1"),
        (Call::Arrive(1001, "", "<a/>", 10000), "Parked 2"),
        (Call::Collect(1), ERROR),
        (Call::Take, "Item <a/>"),
        (Call::Take, "None"),
    ];
    let mut session = begun(rt.alloc(), "wait='10' hold='1'", JOURNAL_BYTES, 1)?;
    are_told(&rt, rt.alloc(), &mut session, &calls)
}

#[test]
fn a_gap_is_filled_in_time(rt: HostRuntime) -> Result<(), Fail> {
    // and one millisecond before it fills the gap
    let calls = [
        (Call::Arrive(1002, "", "<b/>", 0), "Parked 1"),
        (Call::Arrive(1001, "", "<a/>", 9999), ACK),
        (Call::Tick(10000), "Changed"),
        (Call::Collect(1), EMPTY),
        (Call::Take, "Item <a/>"),
        (Call::Take, "Item <b/>"),
    ];
    let mut session = begun(rt.alloc(), "wait='10' hold='1'", JOURNAL_BYTES, 1)?;
    are_told(&rt, rt.alloc(), &mut session, &calls)
}

#[test]
fn a_struck_id_waits_anew(rt: HostRuntime) -> Result<(), Fail> {
    // a struck id comes again and then waits; the first one still has its error to tell
    let calls = [
        (Call::Arrive(1002, "", "<b/>", 0), "Parked 1"),
        (Call::Tick(10000), "Changed"),
        (Call::Arrive(1002, "", "<b/>", 10001), "Parked 2"),
        (Call::Collect(2), "NotYet"),
        (Call::Collect(1), ERROR),
        (Call::Collect(1), "UnknownTicket"),
        (Call::Tick(20000), "Quiet"),
        (Call::Arrive(1001, "", "<a/>", 20000), ACK),
        (Call::Collect(2), "NotYet"),
        (Call::Tick(20001), "Changed"),
        (Call::Collect(2), EMPTY),
        (Call::Take, "Item <a/>"),
        (Call::Take, "Item <b/>"),
    ];
    let mut session = begun(rt.alloc(), "wait='10' hold='1'", JOURNAL_BYTES, 1)?;
    are_told(&rt, rt.alloc(), &mut session, &calls)
}

#[test]
fn a_repeat_keeps_the_time_of_what_waits(rt: HostRuntime) -> Result<(), Fail> {
    // a repeat takes the place of what waits and not its time: the place that was taken stays superseded
    let calls = [
        (Call::Arrive(1002, "", "<b/>", 0), "Parked 1"),
        (Call::Arrive(1002, "", "<b/>", 5000), "Parked 2"),
        (Call::Tick(9999), "Quiet"),
        (Call::Tick(10000), "Changed"),
        (Call::Collect(1), "Superseded"),
        (Call::Collect(2), ERROR),
    ];
    let mut session = begun(rt.alloc(), "wait='10' hold='1'", JOURNAL_BYTES, 1)?;
    are_told(&rt, rt.alloc(), &mut session, &calls)
}

#[test]
fn what_is_held_is_answered_and_not_struck(rt: HostRuntime) -> Result<(), Fail> {
    // what is held is answered and never struck; silence doesn't come while a copy stands beyond the gap
    let calls = [
        (Call::Arrive(1001, "", "<a/>", 0), "Parked 1"),
        (Call::Arrive(1003, "", "<c/>", 5000), "Parked 2"),
        (Call::Due, "10000"),
        (Call::Tick(10000), "Changed"),
        (Call::Collect(1), EMPTY),
        (Call::Collect(2), "NotYet"),
        (Call::Due, "15000"),
        (Call::Tick(15000), "Changed"),
        (Call::Collect(2), ERROR),
        (Call::Due, "45001"),
    ];
    let mut session = begun(rt.alloc(), "wait='10' hold='1'", JOURNAL_BYTES, 1)?;
    are_told(&rt, rt.alloc(), &mut session, &calls)
}

#[test]
fn a_pause_keeps_no_copy_from_being_struck(rt: HostRuntime) -> Result<(), Fail> {
    // a pause keeps no copy from being struck
    let calls = [
        (Call::Arrive(1001, "pause='120'", "", 0), EMPTY),
        (Call::Arrive(1003, "", "<c/>", 1000), "Parked 1"),
        (Call::Tick(10999), "Quiet"),
        (Call::Tick(11000), "Changed"),
        (Call::Collect(1), ERROR),
        (Call::Due, "131001"),
    ];
    let mut session = begun(rt.alloc(), "wait='10' hold='1'", JOURNAL_BYTES, 1)?;
    are_told(&rt, rt.alloc(), &mut session, &calls)
}

#[test]
fn an_error_is_told_after_the_ending_too(rt: HostRuntime) -> Result<(), Fail> {
    // the error is told after the ending too, and what stood beyond the gap then has its last word
    let calls = [
        (Call::Arrive(1002, "", "<b/>", 0), "Parked 1"),
        (Call::Tick(10000), "Changed"),
        (Call::Arrive(1002, "", "<b/>", 10000), "Parked 2"),
        (Call::Arrive(1001, "type='terminate'", "", 10000), LAST),
        (Call::Collect(1), ERROR),
        (Call::Collect(2), EMPTY),
        (Call::Ending, "Terminated { rid: Rid { value: 1001 } }"),
        (Call::Due, "never"),
    ];
    let mut session = begun(rt.alloc(), "wait='10' hold='1'", JOURNAL_BYTES, 1)?;
    are_told(&rt, rt.alloc(), &mut session, &calls)
}

#[test]
fn several_are_struck_at_once(rt: HostRuntime) -> Result<(), Fail> {
    let calls = [
        (Call::Arrive(1005, "", "<e/>", 0), "Parked 1"),
        (Call::Arrive(1003, "", "<c/>", 0), "Parked 2"),
        (Call::Arrive(1002, "", "<b/>", 1), "Parked 3"),
        (Call::Tick(10000), "Changed"),
        (Call::Collect(1), ERROR),
        (Call::Collect(2), ERROR),
        (Call::Collect(3), "NotYet"),
        (Call::Tick(10000), "Quiet"),
        (Call::Tick(10001), "Changed"),
        (Call::Collect(3), ERROR),
        (Call::Take, "None"),
    ];
    let mut session = begun(rt.alloc(), "wait='10' hold='4'", JOURNAL_BYTES, 1)?;
    are_told(&rt, rt.alloc(), &mut session, &calls)
}

#[test]
fn a_polling_session_strikes_none(rt: HostRuntime) -> Result<(), Fail> {
    let calls = [
        // only a pause or a terminate reaches beyond a gap there
        (Call::Arrive(1002, "pause='60'", "", 0), "Parked 1"),
        (Call::Due, "75001"),
        (Call::Tick(75000), "Quiet"),
        (Call::Tick(75001), "Changed"),
        (Call::Collect(1), NOT_FOUND),
        (
            Call::Ending,
            "Silent { since: Moment { millis: 0 }, now: Moment { millis: 75001 } }",
        ),
    ];
    let mut session = begun(rt.alloc(), "wait='10' hold='0'", JOURNAL_BYTES, 1)?;
    are_told(&rt, rt.alloc(), &mut session, &calls)
}

#[test]
fn silence_counts_from_the_last_error(rt: HostRuntime) -> Result<(), Fail> {
    let calls = [
        (Call::Arrive(1002, "", "<b/>", 20000), "Parked 1"),
        (Call::Due, "80000"),
        (Call::Tick(50001), "Quiet"),
        (Call::Tick(80000), "Changed"),
        (Call::Collect(1), ERROR),
        (Call::Due, "110001"),
        (Call::Tick(110000), "Quiet"),
        (Call::Tick(110001), "Changed"),
        (
            Call::Ending,
            "Silent { since: Moment { millis: 80000 }, now: Moment { millis: 110001 } }",
        ),
    ];
    let mut session = begun(rt.alloc(), "wait='60' hold='1'", JOURNAL_BYTES, 1)?;
    are_told(&rt, rt.alloc(), &mut session, &calls)
}

#[test]
fn an_operator_may_let_it_wait_longer(rt: HostRuntime) -> Result<(), Fail> {
    let calls = [
        (Call::Arrive(1002, "", "<b/>", 0), "Parked 1"),
        (Call::Due, "20000"),
        (Call::Tick(10000), "Quiet"),
        (Call::Tick(19999), "Quiet"),
        (Call::Tick(20000), "Changed"),
        (Call::Collect(1), ERROR),
    ];
    let mut session = begun(rt.alloc(), "wait='10' hold='1'", JOURNAL_BYTES, 2)?;
    are_told(&rt, rt.alloc(), &mut session, &calls)
}

#[test]
fn an_error_may_meet_the_limit_of_the_journal(rt: HostRuntime) -> Result<(), Fail> {
    // the creation costs 219 counted bytes, and the copy 274
    let calls = [
        (Call::Arrive(1002, "", "<b/>", 0), "Parked 1"),
        (Call::Tick(10000), "Changed"),
        (Call::Collect(1), OTHER),
        (Call::Ending, "JournalFull { counted: 493, cost: 64 }"),
    ];
    let mut session = begun(rt.alloc(), "wait='10' hold='1'", 556, 1)?;
    are_told(&rt, rt.alloc(), &mut session, &calls)
}

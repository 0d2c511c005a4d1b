// A session's calls in a row, with what each is told.
ghost use Rattle.std.specs.Prelude.{◌≡◌, ℕ, IfSome, IsTrue, List, [], true};
ghost use Rattle.body_cutter.specs.Cutting.{is_stanza};

use crate::openings::{is_later, opening_with, request_in, text};
use body_cutter::read_stanza;
use bosh_types::limits::JOURNAL_BYTES;
use bosh_types::{Closing, Ending, Inward, Moment, SharedText, StreamNo, Ticket};
use session_core::{Arrived, Collected, Session, Taken};
use std::alloc::Global;
use std::process::Abort;
use std::test::Fail;

#[tactic(auto, unfolding(body_cutter::specs::Cutting::is_stanza))]
fn is_one_stanza(alloc: Global, text: &[u8]) -> bool
    ensures { result ≡ true → IsTrue (is_stanza text.now) }
{
    match read_stanza(alloc, text) {
        Ok(()) => true,
        Err(_) => false,
    }
}

// A session for this creation, with no greeting, and its answer.
fn opened(alloc: Global, body: &[u8]) -> Result<(Session, SharedText), Fail> {
    let opening = opening_with(alloc, body, JOURNAL_BYTES)?;
    Ok(Session::open(alloc, &opening)?)
}

// A request for the session arrives with this body.
fn arrived(
    alloc: Global,
    session: &mut Session,
    body: &[u8],
    now: Moment,
) -> Result<Arrived, Fail> {
    let Some(request) = request_in(alloc, body) else {
        return Err("a request")?;
    };
    if !is_later(&request) {
        return Err("a later request")?;
    }
    let body = text(alloc, body)?;
    Ok(session.arrive(alloc, &request, &body, now)?)
}

// The server gives a stanza on the first stream.
fn given(alloc: Global, session: &mut Session, stanza: &[u8], now: Moment) -> Result<Taken, Fail> {
    given_on(alloc, session, StreamNo::unnamed(), stanza, now)
}

fn given_on(
    alloc: Global,
    session: &mut Session,
    stream: StreamNo,
    stanza: &[u8],
    now: Moment,
) -> Result<Taken, Fail> {
    if !is_one_stanza(alloc, stanza) {
        return Err("a stanza")?;
    }
    let stanza = text(alloc, stanza)?;
    Ok(session.back(alloc, stream, &stanza, now)?)
}

// One call. A request has its id, more attributes, its stanzas and its moment.
#[derive(Clone, Copy)]
pub(crate) enum Call {
    Arrive(u64, &'static str, &'static str, u64),
    Collect(u32),
    Back(&'static str, u64),
    BackOn(u16, &'static str, u64),
    CloseOn(u16, Closing, u64),
    TakeOn,
    Fill(u32),
    Close(u64),
    Tick(u64),
    Take,
    Waiting,
    Ending,
    Due,
}

fn words(alloc: Global, word: &str, text: &SharedText) -> Result<String, Fail> {
    let text = std::str::from_utf8(text.as_slice())?;
    Ok(format!(in alloc; "{word} {text}")?)
}

fn told_of_arrival(alloc: Global, reply: Arrived) -> Result<String, Fail> {
    match reply {
        Arrived::Answer(text) => words(alloc, "Answer", &text),
        Arrived::Parked(ticket) => Ok(format!(in alloc; "Parked {}", ticket.number())?),
        Arrived::Over => Ok(format!(in alloc; "Over")?),
    }
}

fn told_of_ticket(alloc: Global, reply: Collected) -> Result<String, Fail> {
    match reply {
        Collected::Answer(text) => words(alloc, "Answer", &text),
        Collected::NotYet => Ok(format!(in alloc; "NotYet")?),
        Collected::Superseded => Ok(format!(in alloc; "Superseded")?),
        Collected::UnknownTicket => Ok(format!(in alloc; "UnknownTicket")?),
    }
}

fn told_of_inward(alloc: Global, reply: Option<Inward>) -> Result<String, Fail> {
    match reply {
        Some(Inward::Item(_, text)) => words(alloc, "Item", &text),
        Some(Inward::Restart(_)) => Ok(format!(in alloc; "Restart")?),
        Some(Inward::Open(_, to)) => words(alloc, "Open", &to),
        Some(Inward::Close(_)) => Ok(format!(in alloc; "Close")?),
        None => Ok(format!(in alloc; "None")?),
    }
}

// The same with the number of its stream.
fn told_with_stream(alloc: Global, reply: Option<Inward>) -> Result<String, Fail> {
    let number = match &reply {
        Some(Inward::Item(stream, _)) => stream.number(),
        Some(Inward::Restart(stream)) => stream.number(),
        Some(Inward::Open(stream, _)) => stream.number(),
        Some(Inward::Close(stream)) => stream.number(),
        None => 0,
    };
    let told = told_of_inward(alloc, reply)?;
    Ok(format!(in alloc; "{number} {told}")?)
}

fn stream_of(number: u16) -> Result<StreamNo, Fail> {
    match StreamNo::new(number) {
        Some(stream) => Ok(stream),
        None => Err("a stream")?,
    }
}

fn told_of_ending(alloc: Global, ending: Option<Ending>) -> Result<String, Fail> {
    let Some(ending) = ending else {
        return Ok(format!(in alloc; "goes on")?);
    };
    Ok(format!(in alloc; "{ending:?}")?)
}

fn told_of_moment(alloc: Global, due: Option<Moment>) -> Result<String, Fail> {
    match due {
        Some(moment) => Ok(format!(in alloc; "{}", moment.millis())?),
        None => Ok(format!(in alloc; "never")?),
    }
}

pub(crate) fn told_of_call(
    alloc: Global,
    session: &mut Session,
    call: Call,
) -> Result<String, Fail> {
    match call {
        Call::Arrive(rid, attrs, stanzas, millis) => {
            let body = format!(in alloc;
                "<body rid='{rid}' sid='s1' {attrs} xmlns='http://jabber.org/protocol/httpbind'>{stanzas}</body>"
            )?;
            let reply = arrived(alloc, session, body.as_bytes(), Moment::from_millis(millis))?;
            told_of_arrival(alloc, reply)
        }
        Call::Collect(number) => told_of_ticket(alloc, session.collect(Ticket::new(number))),
        Call::Back(stanza, millis) => {
            let taken = given(
                alloc,
                session,
                stanza.as_bytes(),
                Moment::from_millis(millis),
            )?;
            Ok(format!(in alloc; "{taken:?}")?)
        }
        Call::BackOn(number, stanza, millis) => {
            let taken = given_on(
                alloc,
                session,
                stream_of(number)?,
                stanza.as_bytes(),
                Moment::from_millis(millis),
            )?;
            Ok(format!(in alloc; "{taken:?}")?)
        }
        Call::CloseOn(number, closing, millis) => {
            let now = Moment::from_millis(millis);
            let taken = session.back_closed(alloc, stream_of(number)?, closing, now)?;
            Ok(format!(in alloc; "{taken:?}")?)
        }
        Call::TakeOn => told_with_stream(alloc, session.take_inward()),
        Call::Fill(count) => {
            for _stanza in 0..count {
                let _taken = given(alloc, session, b"<a/>", Moment::from_millis(0))?;
            }
            Ok(format!(in alloc; "filled")?)
        }
        Call::Close(millis) => {
            let now = Moment::from_millis(millis);
            let taken = session.back_closed(alloc, StreamNo::unnamed(), Closing::Plain, now)?;
            Ok(format!(in alloc; "{taken:?}")?)
        }
        Call::Tick(millis) => {
            let ticked = session.tick(alloc, Moment::from_millis(millis))?;
            Ok(format!(in alloc; "{ticked:?}")?)
        }
        Call::Take => told_of_inward(alloc, session.take_inward()),
        Call::Waiting => {
            let counts = session.waiting();
            Ok(format!(in alloc; "{} of {}", counts.items, counts.bytes)?)
        }
        Call::Ending => told_of_ending(alloc, session.ending()),
        Call::Due => told_of_moment(alloc, session.due()),
    }
}

pub(crate) const EMPTY: &str = "Answer <body xmlns='http://jabber.org/protocol/httpbind'/>";

const IQ: &str =
    "Answer <body xmlns='http://jabber.org/protocol/httpbind' xmlns:stream='http://etherx.jabber.org/streams'><iq/></body>";

pub(crate) const LAST: &str =
    "Answer <body xmlns='http://jabber.org/protocol/httpbind' type='terminate'/>";

pub(crate) const NOT_FOUND: &str =
    "Answer <body xmlns='http://jabber.org/protocol/httpbind' type='terminate' condition='item-not-found'/>";

const TOP: u64 = 9007199254740991;

// A session that the creation of this id opens, whose answer is this manager's.
fn begun(rt: &impl Abort, alloc: Global, rid: u64) -> Result<Session, Fail> {
    let body = format!(in alloc;
        "<body rid='{rid}' wait='60' hold='1' ver='1.6' xmlns='http://jabber.org/protocol/httpbind'/>"
    )?;
    let want = format!(in alloc;
        "<body xmlns='http://jabber.org/protocol/httpbind' xmlns:xmpp='urn:xmpp:xbosh' xmlns:stream='http://etherx.jabber.org/streams' sid='s1' wait='60' requests='2' inactivity='30' polling='5' maxpause='120' hold='1' ver='1.6' from='example.org' stream='t0' ack='{rid}' xmpp:version='1.0' xmpp:restartlogic='true'/>"
    )?;
    let (session, text) = opened(alloc, body.as_bytes())?;
    assert_eq!(rt; text.as_slice(), want.as_bytes());
    Ok(session)
}

// What the call is told is this.
fn told(
    rt: &impl Abort,
    alloc: Global,
    session: &mut Session,
    call: Call,
    want: &str,
) -> Result<(), Fail> {
    let told = told_of_call(alloc, session, call)?;
    assert_eq!(rt; told.as_str(), want);
    Ok(())
}

#[test]
fn a_request_is_parked_answered_and_repeated(rt: HostRuntime) -> Result<(), Fail> {
    let alloc = rt.alloc();
    let mut session = begun(&rt, alloc, 1000)?;
    told(&rt, alloc, &mut session, Call::Collect(1), "UnknownTicket")?;
    told(&rt, alloc, &mut session, Call::Take, "None")?;
    told(
        &rt,
        alloc,
        &mut session,
        Call::Arrive(1001, "xmpp:restart='true'", "<a/>", 0),
        "Parked 1",
    )?;
    told(
        &rt,
        alloc,
        &mut session,
        Call::Arrive(1001, "", "<b/>", 0),
        "Parked 2",
    )?;
    told(&rt, alloc, &mut session, Call::Collect(1), "Superseded")?;
    told(&rt, alloc, &mut session, Call::Collect(2), "NotYet")?;
    told(&rt, alloc, &mut session, Call::Back("<iq/>", 0), "Done")?;
    told(&rt, alloc, &mut session, Call::Collect(2), IQ)?;
    told(&rt, alloc, &mut session, Call::Collect(2), "UnknownTicket")?;
    told(
        &rt,
        alloc,
        &mut session,
        Call::Back("<presence/>", 0),
        "Done",
    )?;
    told(&rt, alloc, &mut session, Call::Waiting, "1 of 11")?;
    told(
        &rt,
        alloc,
        &mut session,
        Call::Arrive(1001, "", "<a/>", 0),
        IQ,
    )?;
    told(&rt, alloc, &mut session, Call::Take, "Item <a/>")?;
    told(&rt, alloc, &mut session, Call::Take, "Restart")?;
    told(&rt, alloc, &mut session, Call::Take, "None")?;
    told(&rt, alloc, &mut session, Call::Ending, "goes on")?;
    Ok(())
}

#[test]
fn time_answers_and_ends(rt: HostRuntime) -> Result<(), Fail> {
    let alloc = rt.alloc();
    let mut session = begun(&rt, alloc, 1000)?;
    told(&rt, alloc, &mut session, Call::Tick(1000), "Quiet")?;
    told(
        &rt,
        alloc,
        &mut session,
        Call::Arrive(1001, "", "<a/>", 1000),
        "Parked 1",
    )?;
    told(&rt, alloc, &mut session, Call::Tick(60999), "Quiet")?;
    told(&rt, alloc, &mut session, Call::Tick(61000), "Changed")?;
    told(&rt, alloc, &mut session, Call::Collect(1), EMPTY)?;
    told(&rt, alloc, &mut session, Call::Tick(91000), "Quiet")?;
    told(&rt, alloc, &mut session, Call::Tick(91001), "Changed")?;
    told(
        &rt,
        alloc,
        &mut session,
        Call::Ending,
        "Silent { since: Moment { millis: 61000 }, now: Moment { millis: 91001 } }",
    )?;
    told(
        &rt,
        alloc,
        &mut session,
        Call::Arrive(1002, "", "<b/>", 91001),
        "Over",
    )?;
    told(&rt, alloc, &mut session, Call::Back("<iq/>", 91001), "Over")?;
    told(&rt, alloc, &mut session, Call::Tick(200000), "Quiet")?;
    Ok(())
}

#[test]
fn a_server_closes(rt: HostRuntime) -> Result<(), Fail> {
    let alloc = rt.alloc();
    let mut session = begun(&rt, alloc, 1000)?;
    told(&rt, alloc, &mut session, Call::Close(0), "Done")?;
    told(&rt, alloc, &mut session, Call::Waiting, "1 of 0")?;
    told(&rt, alloc, &mut session, Call::Close(0), "Over")?;
    told(
        &rt,
        alloc,
        &mut session,
        Call::Arrive(1001, "", "<a/>", 0),
        LAST,
    )?;
    told(
        &rt,
        alloc,
        &mut session,
        Call::Ending,
        "Closed { closing: Plain, rid: Rid { value: 1001 } }",
    )?;
    told(&rt, alloc, &mut session, Call::Take, "Item <a/>")?;
    Ok(())
}

#[test]
fn waiting_has_an_end(rt: HostRuntime) -> Result<(), Fail> {
    let alloc = rt.alloc();
    let mut session = begun(&rt, alloc, 1000)?;
    told(&rt, alloc, &mut session, Call::Fill(1023), "filled")?;
    told(&rt, alloc, &mut session, Call::Back("<b/>", 0), "Done")?;
    told(&rt, alloc, &mut session, Call::Waiting, "1024 of 4096")?;
    told(&rt, alloc, &mut session, Call::Back("<b/>", 0), "Full")?;
    told(&rt, alloc, &mut session, Call::Waiting, "1024 of 4096")?;
    told(&rt, alloc, &mut session, Call::Close(0), "Done")?;
    told(&rt, alloc, &mut session, Call::Back("<b/>", 0), "Over")?;
    Ok(())
}

#[test]
fn a_client_terminates(rt: HostRuntime) -> Result<(), Fail> {
    let alloc = rt.alloc();
    let mut session = begun(&rt, alloc, 1000)?;
    told(
        &rt,
        alloc,
        &mut session,
        Call::Arrive(1001, "type='terminate' xmpp:restart='true'", "<a/>", 0),
        LAST,
    )?;
    told(
        &rt,
        alloc,
        &mut session,
        Call::Ending,
        "Terminated { rid: Rid { value: 1001 } }",
    )?;
    told(&rt, alloc, &mut session, Call::Close(0), "Over")?;
    told(&rt, alloc, &mut session, Call::Take, "Item <a/>")?;
    told(&rt, alloc, &mut session, Call::Take, "Restart")?;
    told(&rt, alloc, &mut session, Call::Take, "None")?;
    Ok(())
}

#[test]
fn an_id_above_ends(rt: HostRuntime) -> Result<(), Fail> {
    let alloc = rt.alloc();
    let mut session = begun(&rt, alloc, 1000)?;
    told(
        &rt,
        alloc,
        &mut session,
        Call::Arrive(1002, "", "<b/>", 0),
        "Parked 1",
    )?;
    told(&rt, alloc, &mut session, Call::Take, "None")?;
    told(
        &rt,
        alloc,
        &mut session,
        Call::Arrive(1004, "", "<d/>", 0),
        NOT_FOUND,
    )?;
    told(
        &rt,
        alloc,
        &mut session,
        Call::Collect(1),
        "Answer <body xmlns='http://jabber.org/protocol/httpbind' type='terminate' condition='other-request'/>",
    )?;
    told(
        &rt,
        alloc,
        &mut session,
        Call::Ending,
        "Above { rid: Rid { value: 1004 }, last: Rid { value: 1000 }, requests: 2 }",
    )?;
    told(&rt, alloc, &mut session, Call::Take, "None")?;
    Ok(())
}

#[test]
fn a_pause_is_answered_at_once(rt: HostRuntime) -> Result<(), Fail> {
    let alloc = rt.alloc();
    let mut session = begun(&rt, alloc, 1000)?;
    told(
        &rt,
        alloc,
        &mut session,
        Call::Arrive(1001, "", "<a/>", 0),
        "Parked 1",
    )?;
    told(
        &rt,
        alloc,
        &mut session,
        Call::Arrive(1002, "pause='120'", "", 0),
        EMPTY,
    )?;
    told(
        &rt,
        alloc,
        &mut session,
        Call::Collect(1),
        "Answer <body xmlns='http://jabber.org/protocol/httpbind' ack='1002'/>",
    )?;
    told(&rt, alloc, &mut session, Call::Back("<iq/>", 0), "Done")?;
    told(&rt, alloc, &mut session, Call::Tick(120000), "Quiet")?;
    told(
        &rt,
        alloc,
        &mut session,
        Call::Arrive(1003, "", "", 119000),
        IQ,
    )?;
    Ok(())
}

#[test]
fn the_greatest_id_is_answered(rt: HostRuntime) -> Result<(), Fail> {
    let alloc = rt.alloc();
    let mut session = begun(&rt, alloc, TOP - 1)?;
    told(
        &rt,
        alloc,
        &mut session,
        Call::Arrive(TOP, "", "<a/>", 0),
        "Parked 1",
    )?;
    told(&rt, alloc, &mut session, Call::Back("<iq/>", 0), "Done")?;
    told(
        &rt,
        alloc,
        &mut session,
        Call::Arrive(TOP, "", "<a/>", 0),
        IQ,
    )?;
    told(&rt, alloc, &mut session, Call::Ending, "goes on")?;
    Ok(())
}

#[test]
fn an_id_below_ends(rt: HostRuntime) -> Result<(), Fail> {
    let alloc = rt.alloc();
    let mut session = begun(&rt, alloc, TOP)?;
    told(
        &rt,
        alloc,
        &mut session,
        Call::Arrive(TOP - 1, "", "<a/>", 0),
        NOT_FOUND,
    )?;
    told(
        &rt,
        alloc,
        &mut session,
        Call::Ending,
        "Stale { rid: Rid { value: 9007199254740990 }, lowest: Rid { value: 9007199254740991 } }",
    )?;
    told(&rt, alloc, &mut session, Call::Take, "None")?;
    Ok(())
}

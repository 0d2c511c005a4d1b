// A session beside its journal, and behind a gate that two threads call.
ghost use Rattle.std.specs.Prelude.{◌≡◌, ℕ, All, IfOk, IfSome, IsTrue, List, [], true};
ghost use Rattle.std.specs.Thread.{IsSync};
ghost use Rattle.body_cutter.specs.Cutting.{is_stanza};
ghost use Rattle.parked_gate.specs.Passes.{IsPassOf};
ghost use Rattle.session_core.specs.Journal.{IsAllowed};
ghost use Rattle.session_journal.specs.Calls.{call_in};

use crate::openings::{is_later, opening_with, request_in, text};
use body_cutter::read_stanza;
use bosh_ports::SteadyBell;
use bosh_types::limits::JOURNAL_BYTES;
use bosh_types::{Ending, Inward, Moment, SharedText, StreamNo, Ticket};
use parked_gate::{Gate, Pass, Waited};
use session_core::{Arrived, Collected, Taken, Waiting};
use session_journal::{
    Answer, Call, Entered, Entry, Found, Journalled, Limited, Question, Recorded, Reply, Stepped,
};
use std::alloc::{AllocError, Global};
use std::sync::Wait;
use std::test::Fail;
use std::thread::{Threads, join};

/// Whether the text is a stanza by itself.
#[tactic(auto, unfolding(body_cutter::specs::Cutting::is_stanza))]
fn is_stanza(alloc: Global, text: &[u8]) -> bool
    ensures { result ≡ true → IsTrue (is_stanza text.now) }
{
    match read_stanza(alloc, text) {
        Ok(()) => true,
        Err(_) => false,
    }
}

// A creation that asks to hold one request.
const CREATION: &[u8] =
    b"<body rid='1000' to='example.org' wait='60' hold='1' ver='1.6' xmlns='http://jabber.org/protocol/httpbind'/>";

/// A session that hands out its entries.
fn opened(alloc: Global) -> Result<Recorded, Fail>
    ensures { IfOk result (λ recorded. All (λ e. e.caller ≡ 0) recorded.log) }
{
    let begun = Recorded::open(alloc, opening_with(alloc, CREATION, JOURNAL_BYTES)?, 0)?;
    Ok(begun.recorded)
}

/// The arrival of a body at a moment.
fn arrival(alloc: Global, body: &[u8], millis: u64) -> Result<Call, &'static str>
    ensures { IfOk result (λ call. IsAllowed (call_in call)) }
{
    let Some(request) = request_in(alloc, body) else {
        return Err("no request");
    };
    if !is_later(&request) {
        return Err("no later request");
    }
    let Ok(body) = text(alloc, body) else {
        return Err("no memory");
    };
    Ok(Call::Arrive {
        request,
        body,
        now: Moment::from_millis(millis),
    })
}

/// A stanza of the server at a moment.
fn given(alloc: Global, stanza: &[u8], millis: u64) -> Result<Call, &'static str>
    ensures { IfOk result (λ call. IsAllowed (call_in call)) }
{
    if !is_stanza(alloc, stanza) {
        return Err("no stanza");
    }
    let Ok(stanza) = text(alloc, stanza) else {
        return Err("no memory");
    };
    Ok(Call::Back {
        stream: StreamNo::unnamed(),
        stanza,
        now: Moment::from_millis(millis),
    })
}

const FIRST: &[u8] =
    b"<body rid='1001' sid='s1' xmlns='http://jabber.org/protocol/httpbind'><a/></body>";

#[test]
fn a_call_is_entered_and_a_poll_that_finds_nothing_is_not(rt: HostRuntime) -> Result<(), Fail> {
    let opening = opening_with(rt.alloc(), CREATION, JOURNAL_BYTES)?;
    let (mut journalled, _text) = Journalled::open(rt.alloc(), opening, 0)?;
    let reply = journalled.step(1, arrival(rt.alloc(), FIRST, 10)?)?;
    assert!(rt; matches!(&reply, Reply::Arrive(Arrived::Parked(_))));
    let collected = journalled.poll(2, Ticket::new(1));
    assert!(rt; matches!(&collected, Collected::NotYet));
    assert_eq!(rt; journalled.entries().len(), 2);
    assert!(rt; journalled.spare() >= 1);
    assert!(rt; journalled.ending().is_none());
    Ok(())
}

/// A session behind a gate.
fn gate(alloc: Global) -> Result<(Gate<Recorded>, Pass<Recorded>), Fail>
    ensures { IfOk result (λ made. IsPassOf made.0 made.1) }
{
    match Gate::new(alloc, opened(alloc)?) {
        Ok(made) => Ok(made),
        Err(_) => Err("memory")?,
    }
}

/// The ticket of a request that waits.
fn ticket_of(reply: &Reply) -> Option<Ticket> {
    let Reply::Arrive(arrived) = reply else {
        return None;
    };
    match arrived {
        Arrived::Parked(ticket) => Some(*ticket),
        _ => None,
    }
}

/// The bytes of the answer that was found.
fn size_of(waited: &Waited<Found>) -> usize {
    match waited {
        Waited::Found(Found::Answer(text)) => text.len(),
        _ => 0,
    }
}

fn is_done(stepped: &Result<Stepped, AllocError>) -> bool {
    match stepped {
        Ok(stepped) => is_taken(&stepped.reply),
        Err(_) => false,
    }
}

/// The reply of a step, without its entry.
fn reply_of(stepped: Stepped) -> Reply {
    let Stepped { reply, made: _made } = stepped;
    reply
}

#[test]
fn a_parked_request_is_collected_while_another_thread_answers_it(
    rt: HostRuntime,
) -> Result<(), Fail> {
    let (gate, mut pass) = gate(rt.alloc())?;
    let mut other = gate.split(&rt, &mut pass);
    let call = arrival(rt.alloc(), FIRST, 10)?;
    let reply = reply_of(gate.call(&rt, &mut pass, call)?);
    let ticket = ticket_of(&reply).ok_or("not parked")?;
    let stanza = given(rt.alloc(), b"<b/>", 11)?;
    let (found, taken) = join(
        &rt,
        || size_of(&gate.wait_for(&rt, &mut pass, ticket, &mut SteadyBell)),
        || is_done(&gate.call(&rt, &mut other, stanza)),
    );
    assert!(rt; found > 0 && taken);
    Ok(())
}

type Made = Result<Stepped, AllocError>;

/// Two calls, each in a thread of its own. A pass goes into its thread by value, and comes back.
fn call_in_two_threads<R: Threads + Wait + Sync>(
    rt: &R,
    gate: &Gate<Recorded>,
    passes: (Pass<Recorded>, Pass<Recorded>),
    calls: (Call, Call),
) -> (Pass<Recorded>, Made, Made)
    requires first { IsPassOf gate.now passes.0 × IsAllowed (call_in calls.0) }
    requires second { IsPassOf gate.now passes.1 × IsAllowed (call_in calls.1) }
    ensures { IsPassOf gate.now result.0 }
{
    let (mut first, mut second) = passes;
    let (early, late) = calls;
    let ((mut first, answered), (second, parked)) = join(
        rt,
        move || -> (Pass<Recorded>, Made)
            requires { IsSync R.row × IsPassOf gate.now first × IsAllowed (call_in early) }
            ensures { IsPassOf gate.entry.now result.0 }
        {
            let reply = gate.call(rt, &mut first, early);
            (first, reply)
        },
        move || -> (Pass<Recorded>, Made)
            requires { IsSync R.row × IsPassOf gate.now second × IsAllowed (call_in late) }
            ensures { IsPassOf gate.entry.now result.0 }
        {
            let reply = gate.call(rt, &mut second, late);
            (second, reply)
        },
    );
    gate.join(&mut first, second);
    (first, answered, parked)
}

/// The text that an arrival was answered at once.
fn text_at_once(reply: Reply) -> Option<SharedText> {
    let Reply::Arrive(arrived) = reply else {
        return None;
    };
    match arrived {
        Arrived::Answer(text) => Some(text),
        _ => None,
    }
}

fn text_found(found: Option<Found>) -> Option<SharedText> {
    match found? {
        Found::Answer(text) => Some(text),
        _ => None,
    }
}

/// What an arrival was answered, at once or through its ticket.
fn answer_to<R: Wait>(
    rt: &R,
    gate: &Gate<Recorded>,
    pass: &mut Pass<Recorded>,
    reply: Reply,
) -> Option<SharedText>
    requires { IsPassOf gate.now pass.old }
    ensures { IsPassOf gate.now pass.new }
{
    if let Some(ticket) = ticket_of(&reply) {
        return text_found(gate.poll(rt, pass, ticket));
    }
    text_at_once(reply)
}

fn stanza_in(reply: Reply) -> Option<SharedText> {
    let Reply::TakeInward(item) = reply else {
        return None;
    };
    match item? {
        Inward::Item(_, stanza) => Some(stanza),
        Inward::Restart(_) | Inward::Open(_, _) | Inward::Close(_) => None,
    }
}

/// The next stanza of the client.
fn stanza_taken<R: Wait>(
    rt: &R,
    gate: &Gate<Recorded>,
    pass: &mut Pass<Recorded>,
) -> Option<SharedText>
    requires { IsPassOf gate.now pass.old }
    ensures { IsPassOf gate.now pass.new }
{
    let Ok(stepped) = gate.call(rt, pass, Call::TakeInward) else {
        return None;
    };
    stanza_in(reply_of(stepped))
}

const SECOND: &[u8] =
    b"<body rid='1002' sid='s1' xmlns='http://jabber.org/protocol/httpbind'><b/></body>";

const EMPTY_WITH_ACK: &[u8] = b"<body xmlns='http://jabber.org/protocol/httpbind' ack='1002'/>";

#[test]
fn whichever_of_two_threads_comes_first_the_session_is_one(rt: HostRuntime) -> Result<(), Fail> {
    let (gate, mut pass) = gate(rt.alloc())?;
    let other = gate.split(&rt, &mut pass);
    let first = arrival(rt.alloc(), FIRST, 10)?;
    let second = arrival(rt.alloc(), SECOND, 10)?;
    let (mut pass, answered, parked) = call_in_two_threads(
        &rt,
        &gate,
        (pass, other),
        (first, second),
    );
    assert_eq!(rt; pass.length(), 3);
    let answer = answer_to(&rt, &gate, &mut pass, reply_of(answered?)).ok_or("no answer")?;
    assert_eq!(rt; answer.as_slice(), EMPTY_WITH_ACK);
    assert!(rt; answer_to(&rt, &gate, &mut pass, reply_of(parked?)).is_none());
    let first = stanza_taken(&rt, &gate, &mut pass).ok_or("no stanza")?;
    let second = stanza_taken(&rt, &gate, &mut pass).ok_or("no stanza")?;
    assert_eq!(rt;
        (first.as_slice(), second.as_slice()),
        (b"<a/>".as_slice(), b"<b/>".as_slice())
    );
    assert!(rt; stanza_taken(&rt, &gate, &mut pass).is_none());
    Ok(())
}

/// What waits, and whether the session has ended.
fn load_in(answer: &Answer) -> Option<(Waiting, bool)> {
    match answer {
        Answer::Load { waiting, ending } => Some((*waiting, ending.is_some())),
        Answer::Home(_) => None,
        Answer::State(_) => None,
    }
}

fn host_in(answer: &Answer) -> Option<&SharedText> {
    match answer {
        Answer::Load { .. } => None,
        Answer::Home(host) => Some(host),
        Answer::State(_) => None,
    }
}

#[test]
fn questions_are_told_what_waits_and_the_host(rt: HostRuntime) -> Result<(), Fail> {
    let (gate, mut pass) = gate(rt.alloc())?;
    let stanza = given(rt.alloc(), b"<b/>", 11)?;
    assert!(rt; is_done(&gate.call(&rt, &mut pass, stanza)));
    let answer = gate.look(&rt, &mut pass, &Question::Load)?;
    let load = load_in(&answer).ok_or("no load")?;
    assert_eq!(rt; load, (Waiting { items: 1, bytes: 4 }, false));
    let answer = gate.look(&rt, &mut pass, &Question::Home)?;
    let host = host_in(&answer).ok_or("no host")?;
    assert_eq!(rt; host.as_slice(), b"example.org".as_slice());
    assert_eq!(rt; pass.length(), 2);
    Ok(())
}

/// A stanza of so many bytes, if that is enough for its tags.
fn message(alloc: Global, size: usize) -> Result<String, AllocError> {
    let mut text = String::with_capacity(alloc, size)?;
    text.push_str("<a>")?;
    for _ in 7..size {
        text.push('x')?;
    }
    text.push_str("</a>")?;
    Ok(text)
}

fn is_taken(reply: &Reply) -> bool {
    matches!(reply, Reply::Back(Taken::Done))
}

/// How many of so many stanzas are taken.
fn give(journalled: &mut Journalled, stanza: &SharedText, times: u32) -> Result<u32, AllocError>
    requires { IsTrue (is_stanza stanza.now) }
{
    let mut taken = 0u32;
    for _ in 0..times {
        let call = Call::Back {
            stream: StreamNo::unnamed(),
            stanza: stanza.again()?,
            now: Moment::from_millis(10),
        };
        let reply = journalled.step(3, call)?;
        if is_taken(&reply) {
            taken = taken.saturating_add(1);
        }
    }
    Ok(taken)
}

/// The caller of a stanza that met the limit, and the stanza's cost.
fn limit_in(entry: &Entry) -> Option<(u32, u64)> {
    match &entry.call {
        Entered::Limit { kind, cost, .. } if *kind == Limited::ServerStanza => {
            Some((entry.caller, *cost))
        }
        _ => None,
    }
}

fn cost_of(ending: Option<Ending>) -> Option<u64> {
    match ending? {
        Ending::JournalFull { cost, .. } => Some(cost),
        _ => None,
    }
}

/// A stanza of a thousand bytes.
fn long_stanza(alloc: Global) -> Result<SharedText, &'static str>
    ensures { IfOk result (λ stanza. IsTrue (is_stanza stanza)) }
{
    let Ok(stanza) = message(alloc, 1_000) else {
        return Err("no memory");
    };
    if !is_stanza(alloc, stanza.as_bytes()) {
        return Err("no stanza");
    }
    match text(alloc, stanza.as_bytes()) {
        Ok(stanza) => Ok(stanza),
        Err(AllocError) => Err("no memory"),
    }
}

fn entry_count(journalled: &Journalled) -> usize {
    journalled.entries().len()
}

fn last_limit(journalled: &Journalled) -> Option<(u32, u64)> {
    limit_in(journalled.entries().last()?)
}

#[test]
fn the_call_that_meets_the_limit_is_entered_by_its_cost(rt: HostRuntime) -> Result<(), Fail> {
    let opening = opening_with(rt.alloc(), CREATION, 4_000)?;
    let (mut journalled, _text) = Journalled::open(rt.alloc(), opening, 0)?;
    let stanza = long_stanza(rt.alloc())?;
    assert_eq!(rt; give(&mut journalled, &stanza, 20)?, 3);
    assert_eq!(rt; entry_count(&journalled), 5);
    assert_eq!(rt; last_limit(&journalled), Some((3, 1_064)));
    assert_eq!(rt; cost_of(journalled.ending()), Some(1_064));
    Ok(())
}

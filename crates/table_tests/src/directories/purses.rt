// Sessions that a worker opens, finds, calls and lets go.
ghost use Rattle.std.specs.Prelude.{◌≡◌, IfOk, IsSome, true};
ghost use Rattle.parked_gate.specs.Passes.{IsPassOf};
ghost use Rattle.session_core.specs.Journal.{IsAllowed};
ghost use Rattle.session_journal.specs.Calls.{call_in};
ghost use Rattle.session_table.specs.Purses.{held};

use super::{an_opening, gate, is_later, request_in, shared, text};
use bosh_ports::SteadyBell;
use bosh_types::{Moment, Ticket};
use parked_gate::{Gate, Waited};
use session_core::Arrived;
use session_journal::{Call, Found, Reply, State};
use session_table::{Directory, DirectoryCall, DirectoryReply, NewSession, Purse};
use std::alloc::{AllocError, Global};
use std::sync::Wait;
use std::test::Fail;

const FIRST: &[u8] =
    b"<body rid='1001' sid='s1' xmlns='http://jabber.org/protocol/httpbind'><a/></body>";

const SECOND: &[u8] =
    b"<body rid='1002' sid='s1' xmlns='http://jabber.org/protocol/httpbind'><b/></body>";

/// The arrival of a body.
fn arrival(alloc: Global, body: &[u8]) -> Result<Call, &'static str>
    ensures { IfOk result (λ call. IsAllowed (call_in call)) }
{
    let Some(request) = request_in(alloc, body) else {
        return Err("no request");
    };
    if !is_later(&request) {
        return Err("no later request");
    }
    let Ok(body) = shared(alloc, body) else {
        return Err("no memory");
    };
    Ok(Call::Arrive {
        request,
        body,
        now: Moment::from_millis(10),
    })
}

/// The ticket of a request that waits.
fn ticket_of(reply: &Reply) -> Option<Ticket> {
    let Reply::Arrive(arrived) = reply else {
        return None;
    };
    match arrived {
        Arrived::Parked(ticket) => Some(*ticket),
        _ => None,
    }
}

/// Whether the purse holds a session under this number.
fn holds(purse: &Purse, number: u64) -> bool
    ensures { result ≡ true → IsSome (held purse.now.sessions number) }
{
    purse.sessions.contains_key(&number)
}

/// The opening number of the session that is opened.
pub(super) fn open<R: Wait>(
    rt: &R,
    alloc: Global,
    directory: &Gate<Directory>,
    purse: &mut Purse,
) -> Result<u64, &'static str>
    requires { IsPassOf directory.now purse.old.directory }
    ensures { IsPassOf directory.now purse.new.directory }
{
    let opening = an_opening(alloc)?;
    match purse.open(rt, directory, opening) {
        Ok(NewSession::Opened { number, .. }) => Ok(number),
        _ => Err("not opened"),
    }
}

/// Whether the directory removes the session of this name.
fn is_removed<R: Wait>(
    rt: &R,
    alloc: Global,
    directory: &Gate<Directory>,
    purse: &mut Purse,
    sid: &[u8],
) -> Result<bool, AllocError>
    requires { IsPassOf directory.now purse.old.directory }
    ensures { IsPassOf directory.now purse.new.directory }
{
    let sid = text(alloc, sid)?;
    let removed = directory.call(rt, &mut purse.directory, DirectoryCall::Remove { sid })?;
    Ok(matches!(&removed, DirectoryReply::Removed))
}

#[test]
fn a_purse_holds_what_it_opens(rt: HostRuntime) -> Result<(), Fail> {
    let (directory, pass) = gate(rt.alloc())?;
    let mut purse = Purse::new(rt.alloc(), pass);
    assert_eq!(rt; purse.find(&rt, rt.alloc(), &directory, b"s1")?, None);
    assert_eq!(rt; open(&rt, rt.alloc(), &directory, &mut purse)?, 1);
    assert_eq!(rt; purse.find(&rt, rt.alloc(), &directory, b"s1")?, Some(1));
    assert_eq!(rt; purse.find(&rt, rt.alloc(), &directory, b"t1")?, None);
    purse.let_go(1);
    assert!(rt; purse.sessions.is_empty());
    Ok(())
}

#[test]
fn a_purse_finds_what_another_opened_until_it_is_removed(rt: HostRuntime) -> Result<(), Fail> {
    let (directory, mut pass) = gate(rt.alloc())?;
    let mut other = Purse::new(rt.alloc(), directory.split(&rt, &mut pass));
    let mut purse = Purse::new(rt.alloc(), pass);
    assert_eq!(rt; open(&rt, rt.alloc(), &directory, &mut other)?, 1);
    assert_eq!(rt; purse.find(&rt, rt.alloc(), &directory, b"s1")?, Some(1));
    assert!(rt; is_removed(&rt, rt.alloc(), &directory, &mut other, b"s1")?);
    assert!(rt; holds(&purse, 1));
    purse.drop_removed(&rt, &directory)?;
    assert!(rt; !holds(&purse, 1));
    assert_eq!(rt; purse.find(&rt, rt.alloc(), &directory, b"s1")?, None);
    Ok(())
}

/// The ticket that the body's arrival is given, if it waits.
fn arrive<R: Wait>(
    rt: &R,
    alloc: Global,
    purse: &mut Purse,
    body: &[u8],
) -> Result<Option<Ticket>, &'static str> {
    let call = arrival(alloc, body)?;
    if !holds(purse, 1) {
        return Err("not held");
    }
    match purse.call(rt, 1, call) {
        Ok(reply) => Ok(ticket_of(&reply)),
        Err(AllocError) => Err("no memory"),
    }
}

/// Whether there is an answer for the ticket.
fn is_answered<R: Wait>(rt: &R, purse: &mut Purse, ticket: Ticket) -> bool {
    if !holds(purse, 1) {
        return false;
    }
    let waited = purse.wait_for(rt, 1, ticket, &mut SteadyBell);
    matches!(&waited, Waited::Found(Found::Answer(_)))
}

/// Whether the ticket waits on.
fn waits<R: Wait>(rt: &R, purse: &mut Purse, ticket: Ticket) -> bool {
    if !holds(purse, 1) {
        return false;
    }
    let found = purse.poll(rt, 1, ticket);
    found.is_none()
}

/// What there is to do for the session.
fn state<R: Wait>(rt: &R, purse: &mut Purse) -> Option<State> {
    if !holds(purse, 1) {
        return None;
    }
    Some(purse.state(rt, 1))
}

/// What there is to do for one that goes on and is due at this moment.
fn due_at(millis: u64, is_inward: bool) -> Option<State> {
    Some(State {
        due: Some(Moment::from_millis(millis)),
        is_inward,
        ending: None,
    })
}

#[test]
fn a_session_is_called_through_the_purse(rt: HostRuntime) -> Result<(), Fail> {
    let (directory, pass) = gate(rt.alloc())?;
    let mut purse = Purse::new(rt.alloc(), pass);
    open(&rt, rt.alloc(), &directory, &mut purse)?;
    assert_eq!(rt; state(&rt, &mut purse), due_at(30_001, false));
    let ticket = arrive(&rt, rt.alloc(), &mut purse, FIRST)?.ok_or("not parked")?;
    assert_eq!(rt; state(&rt, &mut purse), due_at(60_010, true));
    assert!(rt; waits(&rt, &mut purse, ticket));
    arrive(&rt, rt.alloc(), &mut purse, SECOND)?;
    assert!(rt; is_answered(&rt, &mut purse, ticket));
    Ok(())
}

// Back ends that fail, or whose place another takes, while sessions run.
ghost use Rattle.std.specs.Prelude.{◌≡◌};

use super::{
    Scene, arrive_for, collected_for, ends_with, host, host_named, open, open_at, set_up,
    set_up_over, text, ticket_of, turn, turn_with,
};
use bosh_ports::{Bell, BellKey, Woken};
use bosh_types::{Stanzas, StreamNo, Ticket, Wire};
use session_pump::{Hosts, Replaced};
use std::alloc::{AllocError, Global};
use std::sync::Wait;
use std::test::Fail;
use xmpp_backend::{Backend, BackendCall, Echo, Failing, InMemory, Passed, Scripted, are_answers};

/// The last bytes of what a session is told whose back end failed.
const FAILED: &[u8] = b" type='terminate' condition='remote-connection-failed'/>";

/// Counts the rings for each of the first sessions.
#[derive(Clone, Copy)]
struct CountingBell {
    rings: [u32; 6],
}

impl CountingBell {
    fn new() -> CountingBell {
        CountingBell { rings: [0; 6] }
    }

    /// How often it was rung for the session under this number.
    fn count(&self, number: u64) -> u32 {
        self.rings.get(number as usize).copied().unwrap_or(0)
    }
}

impl Bell for CountingBell {
    ghost silences = { λ _. 0 };

    fn tune(&mut self, _key: BellKey) {}

    fn wait(&mut self) -> Woken {
        Woken::Rung
    }

    fn ring(&mut self, key: BellKey) {
        if let Some(count) = self.rings.get_mut(key.0 as usize) {
            *count = count.saturating_add(1);
        }
    }

    fn share(&self) -> Result<CountingBell, AllocError> {
        Ok(*self)
    }
}

/// The request of this session with this id and these stanzas.
fn request(alloc: Global, number: u64, rid: u64, stanzas: &str) -> Result<String, AllocError> {
    format!(in alloc;
        "<body rid='{rid}' sid='s{number}' xmlns='http://jabber.org/protocol/httpbind'>{stanzas}</body>"
    )
}

/// The ticket of such a request, which waits.
fn parked<R: Wait>(
    rt: &R,
    scene: &mut Scene,
    number: u64,
    rid: u64,
    stanzas: &str,
) -> Result<Ticket, &'static str> {
    let Ok(body) = request(scene.alloc, number, rid, stanzas) else {
        return Err("no memory");
    };
    let reply = arrive_for(rt, scene, number, body.as_bytes(), 0)?;
    ticket_of(&reply).ok_or("it doesn't wait")
}

/// What a session was told.
#[derive(Clone, Copy, Debug, PartialEq, Eq)]
struct Told {
    /// How often it was rung for in the turn after the one in which the wires were opened, and in the next.
    rings: [u32; 2],
    /// Whether its request was answered that its back end failed.
    failed: bool,
}

/// Three sessions with open wires at example.org, and a fourth at example.com; and the tickets of their requests, of which the
/// second has a stanza.
fn four<R: Wait>(rt: &R, scene: &mut Scene) -> Result<Vec<Ticket>, &'static str> {
    for is_elsewhere in [false, false, false, true] {
        open_at(rt, scene, is_elsewhere)?;
    }
    if turn(rt, scene, 0).is_err() {
        return Err("no memory");
    }
    let mut tickets = Vec::new(scene.alloc);
    for (number, stanzas) in [(1, ""), (2, "<a/>"), (3, ""), (4, "")] {
        let ticket = parked(rt, scene, number, 1001, stanzas)?;
        if tickets.push(ticket).is_err() {
            return Err("no memory");
        }
    }
    Ok(tickets)
}

/// What these sessions, numbered from 1, are told in two turns.
fn told_in_two_turns<R: Wait>(
    rt: &R,
    scene: &mut Scene,
    tickets: &[Ticket],
) -> Result<Vec<Told>, AllocError> {
    let mut first = CountingBell::new();
    let mut second = CountingBell::new();
    turn_with(rt, scene, 0, &mut first)?;
    turn_with(rt, scene, 0, &mut second)?;
    let mut told = Vec::new(scene.alloc);
    let mut number = 0u64;
    for ticket in tickets {
        number = number.saturating_add(1);
        told.push(Told {
            rings: [first.count(number), second.count(number)],
            failed: ends_with(collected_for(rt, scene, number, *ticket), FAILED),
        })?;
    }
    Ok(told)
}

/// Whether a session that is opened now is the one under this number, and its request with a stanza is answered in a turn with these
/// last bytes.
fn is_served<R: Wait>(
    rt: &R,
    scene: &mut Scene,
    number: u64,
    end: &[u8],
) -> Result<bool, &'static str> {
    open(rt, scene)?;
    let ticket = parked(rt, scene, number, 1001, "<c/>")?;
    if turn(rt, scene, 0).is_err() {
        return Err("no memory");
    }
    Ok(ends_with(collected_for(rt, scene, number, ticket), end))
}

/// A back end that fails at this call and owes nothing.
fn silent(alloc: Global, call: BackendCall, number: u64) -> Result<Scripted, AllocError> {
    let failing = vec![in alloc; Failing { call, number }]?;
    Ok(Scripted::new(alloc, Vec::new(alloc), failing))
}

// Of the back end of three sessions the first pass fails, or a later poll, or another takes its place; and an echo stands there then.
#[test]
fn each_session_of_a_back_end_that_failed_is_told_once(rt: HostRuntime) -> Result<(), Fail> {
    let alloc = rt.alloc();
    let rows = [
        (BackendCall::Pass, 1, false),
        (BackendCall::Poll, 2, false),
        (BackendCall::Close, 9, true),
    ];
    for (call, number, is_replaced) in rows {
        let mut spares: Vec<InMemory> = Vec::new(alloc);
        spares.push(InMemory::Echo(Echo::new(alloc)))?;
        let end = InMemory::Scripted(silent(alloc, call, number)?);
        let here = host(alloc, end, spares)?;
        let echo = InMemory::Echo(Echo::new(alloc));
        let there = host_named(alloc, b"example.com", echo, Vec::new(alloc))?;
        let hosts = Hosts::new(alloc, vec![in alloc; here, there]?)?;
        let mut scene = set_up_over(&rt, alloc, hosts)?;
        let tickets = four(&rt, &mut scene)?;
        if is_replaced {
            let echo = InMemory::Echo(Echo::new(alloc));
            drop(scene.pump.hosts.replace(b"example.org", echo));
        }
        let told = told_in_two_turns(&rt, &mut scene, &tickets)?;
        let is_served = is_served(&rt, &mut scene, 5, b"><c/></body>")?;
        let cut = Told {
            rings: [1, 0],
            failed: true,
        };
        let goes_on = Told {
            rings: [0, 0],
            failed: false,
        };
        let wanted = [cut, cut, cut, goes_on];
        assert_eq!(rt;
            (told.as_slice(), is_served),
            (wanted.as_slice(), true),
            "of {call:?}"
        );
    }
    Ok(())
}

/// A back end whose second pass fails. It gives nothing for the first item that it takes, and `<d/>` for the second.
fn failing_at_second(alloc: Global) -> Result<Scripted, AllocError> {
    let answer = Stanzas::from_vec(vec![in alloc; text(alloc, b"<d/>")?]?);
    let answers = vec![in alloc; Stanzas::from_vec(Vec::new(alloc)), answer]?;
    let Ok(true) = are_answers(alloc, answers.as_slice()) else {
        return Err(AllocError);
    };
    let call = BackendCall::Pass;
    Ok(Scripted::new(alloc, answers, vec![in alloc; Failing { call, number: 2 }]?))
}

// Of two stanzas the second is lost with the wire, and its request is told so. Who comes then is served by the spare, or by the same
// back end where there is none.
#[test]
fn who_comes_after_a_failure_is_served_by_what_stands_there(rt: HostRuntime) -> Result<(), Fail> {
    let alloc = rt.alloc();
    let rows: [(bool, &[u8]); 2] = [(true, b"><c/></body>"), (false, b"><d/></body>")];
    for (has_spare, end) in rows {
        let mut spares: Vec<InMemory> = Vec::new(alloc);
        if has_spare {
            spares.push(InMemory::Echo(Echo::new(alloc)))?;
        }
        let failing = InMemory::Scripted(failing_at_second(alloc)?);
        let mut scene = set_up(&rt, alloc, host(alloc, failing, spares)?)?;
        open(&rt, &mut scene)?;
        parked(&rt, &mut scene, 1, 1001, "<a/>")?;
        let ticket = parked(&rt, &mut scene, 1, 1002, "<b/>")?;
        turn(&rt, &mut scene, 0)?;
        let is_told = ends_with(collected_for(&rt, &mut scene, 1, ticket), FAILED);
        let is_served = is_served(&rt, &mut scene, 2, end)?;
        assert_eq!(rt; (is_told, is_served), (true, true), "{has_spare}");
    }
    Ok(())
}

// The back end fails, and then its first spare; the second goes on.
#[test]
fn spares_take_the_place_one_after_the_other(rt: HostRuntime) -> Result<(), Fail> {
    let alloc = rt.alloc();
    let end = InMemory::Scripted(silent(alloc, BackendCall::Pass, 1)?);
    let mut spares: Vec<InMemory> = Vec::new(alloc);
    spares.push(InMemory::Scripted(silent(alloc, BackendCall::Pass, 1)?))?;
    spares.push(InMemory::Echo(Echo::new(alloc)))?;
    let mut scene = set_up(&rt, alloc, host(alloc, end, spares)?)?;
    let rows: [(u64, &[u8]); 3] = [(1, FAILED), (2, FAILED), (3, b"><c/></body>")];
    for (number, end) in rows {
        assert!(rt; is_served(&rt, &mut scene, number, end)?, "{number}");
    }
    Ok(())
}

// What comes back is the old back end, whose second wire fails, or the new one where no host has that name.
#[test]
fn a_back_end_whose_place_is_taken_is_handed_back(rt: HostRuntime) -> Result<(), Fail> {
    let alloc = rt.alloc();
    let old = InMemory::Scripted(silent(alloc, BackendCall::Open, 2)?);
    let mut scene = set_up(&rt, alloc, host(alloc, old, Vec::new(alloc))?)?;
    open(&rt, &mut scene)?;
    turn(&rt, &mut scene, 0)?;
    let rows: [(&[u8], bool, Passed); 2] = [
        (b"example.com", false, Passed::Done),
        (b"example.org", true, Passed::Failed),
    ];
    for (name, was_there, passed) in rows {
        let echo = InMemory::Echo(Echo::new(alloc));
        let (is_old, end) = match scene.pump.hosts.replace(name, echo) {
            Replaced::Old(end) => (true, end),
            Replaced::Unknown(end) => (false, end),
        };
        let mut end = end;
        let wire = Wire::new(2, StreamNo::unnamed());
        assert_eq!(rt; (is_old, end.open(wire, name)), (was_there, passed));
    }
    Ok(())
}

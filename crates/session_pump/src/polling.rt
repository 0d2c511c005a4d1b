// What the back ends give is polled and given to the sessions.
ghost use Rattle.std.specs.Prelude.{◌≡◌, ◌+◌, ◌/◌, ◌%◌, ◌<◌, ℕ, IfNone, IfSome, IsTrue, None, Ok, OnOk, Option, Some, false, length, slice_get, true};
ghost use Rattle.std.specs.List.{list_any};
ghost use Rattle.bosh_types.specs.Limits.{most_streams};
ghost use Rattle.session_table.specs.Purses.{Sessions};
ghost use Rattle.session_pump.specs.Ends.{ends_of};
ghost use Rattle.session_pump.specs.Hosts.{facts_of};
ghost use Rattle.session_pump.specs.Pumping.{Lines, line_of};
ghost use Rattle.session_pump.specs.declared.line.Line.{Line};
ghost use Rattle.session_pump.specs.declared.line.Owing.{Owing};
ghost use Rattle.session_pump.specs.declared.line.Side.{Side};
ghost use Rattle.session_pump.specs.Giving.{ComesFirst, GiveMoves, GivesOnce, PollGave, PollsHost, RunsDry, at_host, is_open_here, most_polls, owes_on};
ghost use Rattle.xmpp_backend.specs.Told.{is_proper};

use crate::giving::{Giving, give, may_take};
use crate::hosts::Stand;
use crate::line::{Line, Owing, Side};
use bosh_ports::Bell;
use bosh_types::limits::MOST_STREAMS;
use bosh_types::{StreamNo, Wire};
use server_ports::Clock;
use session_table::Purse;
use std::alloc::AllocError;
use std::collections::BTreeMap;
use std::sync::Wait;
use xmpp_backend::{Backend, Given, Polled};

/// How often a host is polled in one turn at most.
const MOST_POLLS: u32 = 4096;

/// Gives the sessions of the host at this place what its back end gave for them, until that has nothing or fails, or it gave
/// something 4096 times. What a session has no room for is kept with the side of its stream, and the wire is held. The only error is want of
/// memory, and then the next turn goes on from there.
pub fn poll_host<R: Wait, C: Clock, B: Bell, E: Backend>(
    rt: &R,
    purse: &mut Purse,
    lines: &mut BTreeMap<u64, Line>,
    place: usize,
    stand: &mut Stand<E>,
    clock: &C,
    bell: &mut B,
) -> Result<(), AllocError>
    ensures gives { GiveMoves (C.moment clock.now)
        (at_host place (facts_of E.told E.counts stand.old) purse.old.sessions lines.old)
        (at_host place (facts_of E.told E.counts stand.new) purse.new.sessions lines.new) }
    ensures polls { PollsHost (C.moment clock.now)
        (at_host place (facts_of E.told E.counts stand.old) purse.old.sessions lines.old)
        (at_host place (facts_of E.told E.counts stand.new) purse.new.sessions lines.new)
        result }

    // Where it isn't behind then, the back end gave all that it had.
    ensures dry { stand.new.is_behind ≡ false → OnOk result (RunsDry (C.moment clock.now)
        (at_host place (facts_of E.told E.counts stand.old) purse.old.sessions lines.old)
        (at_host place (facts_of E.told E.counts stand.new) purse.new.sessions lines.new)) }
    ensures name { stand.new.host.name ≡ stand.old.host.name }
    ensures directory { purse.new.directory ≡ purse.old.directory }
    ensures silences { B.silences bell.new ≡ B.silences bell.old }
{
    for _ in 0..MOST_POLLS {
        if !give_and_poll(rt, purse, lines, place, stand, clock, bell)? {
            stand.is_behind = false;
            return Ok(());
        }
    }
    let giving = give_kept(rt, purse, lines, place, stand, clock, bell)?;
    match giving {
        Giving::Done => {
            stand.is_behind = true;
            Ok(())
        }
        Giving::Full => {
            stand.is_behind = false;
            Ok(())
        }
    }
}

// Gives what is kept, and polls the back end once where nothing is kept then. Whether it gave something.
fn give_and_poll<R: Wait, C: Clock, B: Bell, E: Backend>(
    rt: &R,
    purse: &mut Purse,
    lines: &mut BTreeMap<u64, Line>,
    place: usize,
    stand: &mut Stand<E>,
    clock: &C,
    bell: &mut B,
) -> Result<bool, AllocError>
    ensures gives { GiveMoves (C.moment clock.now)
        (at_host place (facts_of E.told E.counts stand.old) purse.old.sessions lines.old)
        (at_host place (facts_of E.told E.counts stand.new) purse.new.sessions lines.new) }
    ensures over { result ≡ Ok false → RunsDry (C.moment clock.now)
        (at_host place (facts_of E.told E.counts stand.old) purse.old.sessions lines.old)
        (at_host place (facts_of E.told E.counts stand.new) purse.new.sessions lines.new) }
    ensures on { result ≡ Ok true → GivesOnce (C.moment clock.now)
        (at_host place (facts_of E.told E.counts stand.old) purse.old.sessions lines.old)
        (at_host place (facts_of E.told E.counts stand.new) purse.new.sessions lines.new) }
    ensures name { stand.new.host.name ≡ stand.old.host.name }
    ensures directory { purse.new.directory ≡ purse.old.directory }
    ensures silences { B.silences bell.new ≡ B.silences bell.old }
{
    let giving = give_kept(rt, purse, lines, place, stand, clock, bell)?;
    if is_full(giving) {
        return Ok(false);
    }
    poll(stand)
}

fn is_full(giving: Giving) -> bool
    ensures done { result ≡ false → giving ≡ Giving.Done }
    ensures full { result ≡ true → giving ≡ Giving.Full }
{
    match giving {
        Giving::Done => false,
        Giving::Full => true,
    }
}

// Gives what is kept, and keeps it where there is no memory. Where its session has no room it is kept with the side of its stream.
fn give_kept<R: Wait, C: Clock, B: Bell, E: Backend>(
    rt: &R,
    purse: &mut Purse,
    lines: &mut BTreeMap<u64, Line>,
    place: usize,
    stand: &mut Stand<E>,
    clock: &C,
    bell: &mut B,
) -> Result<Giving, AllocError>
    ensures gives { GiveMoves (C.moment clock.now)
        (at_host place (facts_of E.told E.counts stand.old) purse.old.sessions lines.old)
        (at_host place (facts_of E.told E.counts stand.new) purse.new.sessions lines.new) }
    ensures done { result ≡ Ok Giving.Done → stand.new.kept ≡ None }
    ensures full { result ≡ Ok Giving.Full → RunsDry (C.moment clock.now)
        (at_host place (facts_of E.told E.counts stand.old) purse.old.sessions lines.old)
        (at_host place (facts_of E.told E.counts stand.new) purse.new.sessions lines.new) }
    ensures name { stand.new.host.name ≡ stand.old.host.name }
    ensures directory { purse.new.directory ≡ purse.old.directory }
    ensures silences { B.silences bell.new ≡ B.silences bell.old }
{
    let Some(owing) = &mut stand.kept else {
        return Ok(Giving::Done);
    };
    let number = owing.number;
    let stream = owing.stream;
    if purse.sessions.get(&number).is_none() {
        stand.kept = None;
        return Ok(Giving::Done);
    }
    if !comes_first(lines, number, stream) {
        return Ok(Giving::Full);
    }
    if !may_take(rt, purse, number, owing)? {
        return Ok(keep_back(lines, place, stand, number, stream));
    }
    match give(rt, purse, number, owing, clock, bell) {
        Ok(Giving::Done) => {
            stand.kept = None;
            Ok(Giving::Done)
        }
        Ok(Giving::Full) => {
            owing.was_refused = true;
            Ok(keep_back(lines, place, stand, number, stream))
        }
        Err(AllocError) => Err(AllocError),
    }
}

// Whether nothing that was given to this session on this stream before waits for it.
fn comes_first(lines: &BTreeMap<u64, Line>, number: u64, stream: StreamNo) -> bool
    ensures first { result ≡ true → ComesFirst number stream lines.now }
    ensures behind { result ≡ false → (line : Line) × (line_of lines.now number ≡ Some line) × (list_any (owes_on stream) line.sides.items ≡ true) }
{
    match lines.get(&number) {
        Some(line) => !line.owes_on(stream),
        None => true,
    }
}

// The place of the side of this stream of a session, where its wire is open at the back end of the host at this place before which so many
// failed.
fn side_here(
    lines: &BTreeMap<u64, Line>,
    number: u64,
    stream: StreamNo,
    place: usize,
    failures: u64,
) -> Option<usize>
    ensures here { IfSome result (λ at. (line : Line) × (side : Side) × (line_of lines.now number ≡ Some line) × (at < length line.sides.items)
        × (slice_get line.sides.items at ≡ Some side) × (is_open_here stream place failures side ≡ true)) }
    ensures elsewhere { IfNone result (IfSome (line_of lines.now number) (λ line. list_any (is_open_here stream place failures) line.sides.items ≡ false)) }
{
    match lines.get(&number) {
        Some(line) => line.place_here(stream, place, failures),
        None => None,
    }
}

// Keeps what the session refused with the side of its stream, and holds the wire, where that is open here.
fn keep_back<E: Backend>(
    lines: &mut BTreeMap<u64, Line>,
    place: usize,
    stand: &mut Stand<E>,
    number: u64,
    stream: StreamNo,
) -> Giving
    requires kept { (owing : Owing) × (stand.old.kept ≡ Some owing) × (owing.number ≡ number) × (owing.stream ≡ stream) × (owing.was_refused ≡ true) }
    requires first { ComesFirst number stream lines.old }
    ensures moves { (moment : Option ℕ) → (sessions : Sessions) → GiveMoves moment
        (at_host place (facts_of E.told E.counts stand.old) sessions lines.old)
        (at_host place (facts_of E.told E.counts stand.new) sessions lines.new) }
    ensures done { result ≡ Giving.Done → stand.new.kept ≡ None }
    ensures still { result ≡ Giving.Full → stand.new.kept ≡ stand.old.kept }
    ensures ends { result ≡ Giving.Full → ends_of E.told E.counts stand.new
        ≡ ends_of E.told E.counts stand.old }
    ensures lines { result ≡ Giving.Full → lines.new ≡ lines.old }
    ensures elsewhere { result ≡ Giving.Full → IfSome (line_of lines.old number) (λ line. list_any (is_open_here stream place stand.old.failures) line.sides.items ≡ false) }
    ensures name { stand.new.host.name ≡ stand.old.host.name }
{
    let Some(at) = side_here(lines, number, stream, place, stand.failures) else {
        return Giving::Full;
    };
    let Some(line) = lines.get_mut(&number) else {
        unreachable!();
    };
    let Some(side) = line.sides.get_mut(at) else {
        unreachable!();
    };
    let Some(owing) = stand.kept.take() else {
        unreachable!();
    };
    stand.hold(owing.wire);
    keep_on(side, owing);
    Giving::Done
}

fn keep_on(side: &mut Side, owing: Owing)
    ensures { side.new ≡ record side.old { owed = Some owing } }
{
    side.owed = Some(owing);
}

// Polls the back end once, and keeps what it gives. Whether it gave something.
fn poll<E: Backend>(stand: &mut Stand<E>) -> Result<bool, AllocError>
    requires { stand.old.kept ≡ None }
    ensures polls { (moment : Option ℕ) → (place : ℕ) → (sessions : Sessions) → (lines : Lines) → GiveMoves moment
        (at_host place (facts_of E.told E.counts stand.old) sessions lines)
        (at_host place (facts_of E.told E.counts stand.new) sessions lines) }
    ensures over { result ≡ Ok false → (moment : Option ℕ) → (place : ℕ) → (sessions : Sessions) → (lines : Lines) → RunsDry moment
        (at_host place (facts_of E.told E.counts stand.old) sessions lines)
        (at_host place (facts_of E.told E.counts stand.new) sessions lines) }
    ensures gave { result ≡ Ok true → (place : ℕ) → (sessions : Sessions) → (lines : Lines) → PollGave
        (at_host place (facts_of E.told E.counts stand.old) sessions lines)
        (at_host place (facts_of E.told E.counts stand.new) sessions lines) }
    ensures name { stand.new.host.name ≡ stand.old.host.name }
{
    match stand.poll() {
        Polled::Out(wire, stanza) => {
            stand.kept = Some(owing(wire, Given::Stanza(stanza)));
            Ok(true)
        }
        Polled::Closed(wire, closing) => {
            stand.kept = Some(owing(wire, Given::Closed(closing)));
            Ok(true)
        }
        Polled::Nothing => Ok(false),
        Polled::Failed => Ok(false),
        Polled::NoMemory => Err(AllocError),
    }
}

// What a back end gave on a wire.
fn owing(wire: Wire, given: Given) -> Owing
    requires { IsTrue (is_proper given) }
    ensures number { result.number ≡ wire / most_streams }
    ensures stream { result.stream ≡ wire % most_streams }
    ensures on { result.wire ≡ wire }
    ensures given { result.given ≡ given }
    ensures fresh { result.was_refused ≡ false }
{
    Owing {
        number: wire.number() / u64::from(MOST_STREAMS),
        stream: stream_of(wire),
        wire,
        given,
        was_refused: false,
    }
}

// The number of the stream of a wire within its session.
fn stream_of(wire: Wire) -> StreamNo
    ensures { result ≡ wire % most_streams }
{
    let number = wire.number() % u64::from(MOST_STREAMS);
    match StreamNo::new(number as u16) {
        Some(stream) => stream,
        None => unreachable!(),
    }
}

// One session in a turn: its wires, its time, and what is inward of it.
ghost use Rattle.std.specs.Prelude.{◌≡◌, ◌≢◌, ◌⊎◌, ℕ, IsSome, OnErr, OnOk, Option, Some, slice_get};
ghost use Rattle.bosh_types.specs.declared.ending.Closing.TheVariants.{RemoteConnectionFailed};
ghost use Rattle.bosh_types.specs.declared.inward.Inward.{Inward};
ghost use Rattle.parked_gate.specs.Passes.{Known};
ghost use Rattle.session_journal.specs.declared.entry.Entry.{Entry};
ghost use Rattle.session_table.specs.Purses.{OthersStay, Turned, held};
ghost use Rattle.xmpp_backend.specs.Told.{resumed_too};
ghost use Rattle.session_pump.specs.Ends.{Changes, ends_of};
ghost use Rattle.session_pump.specs.Hosts.{hosts_of};
ghost use Rattle.session_pump.specs.Calling.{ClosesStream, Ticks};
ghost use Rattle.session_pump.specs.Sides.{AreOpened, IsCutAmong, LineFacts, Moves, Serves, StrandMoves, TellsCut, Tries, TriesOrMoves, TriesStrand, served, serving, strand, with_side};

use crate::giving::{Giving, give, may_take};
use crate::hosts::{Hosts, Stand};
use crate::line::{Line, Side, Stage};
use crate::passing::pass_all;
use bosh_ports::{Bell, BellKey};
use bosh_types::{Closing, StreamNo, Wire};
use server_ports::Clock;
use session_core::Ticked;
use session_journal::{Call, Reply};
use session_table::Purse;
use std::alloc::AllocError;
use std::sync::Wait;
use xmpp_backend::{Backend, Passed};

/// Serves one session: opens the wires of its streams where that wasn't done, tells it of those whose back ends failed, lets time pass,
/// gives it what it had no room for, and passes on what is inward. The only error is want of memory.
pub fn serve_line<R: Wait, C: Clock, B: Bell, E: Backend>(
    rt: &R,
    purse: &mut Purse,
    number: u64,
    line: &mut Line,
    hosts: &mut Hosts<E>,
    clock: &C,
    bell: &mut B,
) -> Result<(), AllocError>
    requires { IsSome (held purse.old.sessions number) }
    ensures serves { Turned number purse.old.sessions purse.new.sessions (λ old new. Serves (C.moment clock.now)
        (served old line.old (hosts_of E.told E.counts hosts.old))
        (served new line.new (hosts_of E.told E.counts hosts.new))
        result) }
    ensures opened { OnOk result (AreOpened line.new.sides.items) }
    ensures others { OthersStay number purse.old.sessions purse.new.sessions }
    ensures directory { purse.new.directory ≡ purse.old.directory }
    ensures silences { B.silences bell.new ≡ B.silences bell.old }
{
    open_streams(rt, purse, number, line, hosts, clock, bell)?;
    tell_streams(rt, purse, number, line, hosts, clock, bell)?;
    tick(rt, purse, number, clock, bell)?;
    give_streams(rt, purse, number, line, hosts, clock, bell)?;
    pass_all(rt, purse, number, line, hosts, clock, bell)
}

// Opens the wire of each stream, where that wasn't done yet.
fn open_streams<R: Wait, C: Clock, B: Bell, E: Backend>(
    rt: &R,
    purse: &mut Purse,
    number: u64,
    line: &mut Line,
    hosts: &mut Hosts<E>,
    clock: &C,
    bell: &mut B,
) -> Result<(), AllocError>
    requires { IsSome (held purse.old.sessions number) }
    ensures moves { Turned number purse.old.sessions purse.new.sessions (λ old new. Moves (C.moment clock.now)
        (served old line.old (hosts_of E.told E.counts hosts.old))
        (served new line.new (hosts_of E.told E.counts hosts.new))) }
    ensures opened { OnOk result (AreOpened line.new.sides.items) }
    ensures others { OthersStay number purse.old.sessions purse.new.sessions }
    ensures directory { purse.new.directory ≡ purse.old.directory }
    ensures silences { B.silences bell.new ≡ B.silences bell.old }
{
    for place in 0..line.sides.len() {
        let Some(side) = line.sides.get_mut(place) else {
            unreachable!();
        };
        open_side(rt, purse, number, side, hosts, clock, bell)?;
    }
    Ok(())
}

/// Tells a session of each stream whose back end failed since its wire was opened. The only error is want of memory.
pub(crate) fn tell_streams<R: Wait, C: Clock, B: Bell, E: Backend>(
    rt: &R,
    purse: &mut Purse,
    number: u64,
    line: &mut Line,
    hosts: &Hosts<E>,
    clock: &C,
    bell: &mut B,
) -> Result<(), AllocError>
    requires { IsSome (held purse.old.sessions number) }
    ensures tells { Turned number purse.old.sessions purse.new.sessions (λ old new. TellsCut (C.moment clock.now)
        (served old line.old (hosts_of E.told E.counts hosts.now))
        (served new line.new (hosts_of E.told E.counts hosts.now))
        result) }
    ensures opened { AreOpened line.old.sides.items → AreOpened line.new.sides.items }
    ensures others { OthersStay number purse.old.sessions purse.new.sessions }
    ensures directory { purse.new.directory ≡ purse.old.directory }
    ensures silences { B.silences bell.new ≡ B.silences bell.old }
{
    for place in 0..line.sides.len() {
        let Some(side) = line.sides.get_mut(place) else {
            unreachable!();
        };
        tell_side(rt, purse, number, side, hosts, clock, bell)?;
    }
    Ok(())
}

// Gives a session what it had no room for, where it has room now or has ended.
fn give_streams<R: Wait, C: Clock, B: Bell, E: Backend>(
    rt: &R,
    purse: &mut Purse,
    number: u64,
    line: &mut Line,
    hosts: &mut Hosts<E>,
    clock: &C,
    bell: &mut B,
) -> Result<(), AllocError>
    requires { IsSome (held purse.old.sessions number) }
    ensures tries { Turned number purse.old.sessions purse.new.sessions (λ old new. Tries (C.moment clock.now)
        (served old line.old (hosts_of E.told E.counts hosts.old))
        (served new line.new (hosts_of E.told E.counts hosts.new))
        result) }
    ensures opened { AreOpened line.old.sides.items → AreOpened line.new.sides.items }
    ensures others { OthersStay number purse.old.sessions purse.new.sessions }
    ensures directory { purse.new.directory ≡ purse.old.directory }
    ensures silences { B.silences bell.new ≡ B.silences bell.old }
{
    for place in 0..line.sides.len() {
        let Some(side) = line.sides.get_mut(place) else {
            unreachable!();
        };
        give_side(rt, purse, number, side, hosts, clock, bell)?;
    }
    Ok(())
}

/// Opens the wire of a stream at the back end of its host, where that wasn't done yet. Where it has none its session is told so. The only
/// error is want of memory.
pub(crate) fn open_side<R: Wait, C: Clock, B: Bell, E: Backend>(
    rt: &R,
    purse: &mut Purse,
    number: u64,
    side: &mut Side,
    hosts: &mut Hosts<E>,
    clock: &C,
    bell: &mut B,
) -> Result<(), AllocError>
    requires { IsSome (held purse.old.sessions number) }
    ensures moves { (line : LineFacts) → (place : ℕ) → slice_get line.sides place ≡ Some side.old
        → Turned number purse.old.sessions purse.new.sessions (λ old new. Moves (C.moment clock.now)
        (serving old line (hosts_of E.told E.counts hosts.old))
        (serving new (with_side place side.new line) (hosts_of E.told E.counts hosts.new))) }
    ensures opened { OnOk result (side.new.stage ≢ Stage.Unopened) }
    ensures others { OthersStay number purse.old.sessions purse.new.sessions }
    ensures directory { purse.new.directory ≡ purse.old.directory }
    ensures silences { B.silences bell.new ≡ B.silences bell.old }
{
    if !side.is_unopened() {
        return Ok(());
    }
    let Some(at) = side.host else {
        return tell_nowhere(rt, purse, number, side, clock, bell);
    };
    let Some(stand) = hosts.stands.get_mut(at) else {
        return tell_nowhere(rt, purse, number, side, clock, bell);
    };
    open_wire(side, stand)
}

// Tells a session that a stream has no host.
fn tell_nowhere<R: Wait, C: Clock, B: Bell>(
    rt: &R,
    purse: &mut Purse,
    number: u64,
    side: &mut Side,
    clock: &C,
    bell: &mut B,
) -> Result<(), AllocError>
    requires held { IsSome (held purse.old.sessions number) }
    requires unopened { side.old.stage ≡ Stage.Unopened }
    ensures told { Turned number purse.old.sessions purse.new.sessions (ClosesStream (C.moment clock.now) side.old.stream RemoteConnectionFailed result) }
    ensures lost { OnOk result (side.new ≡ record side.old { stage = Stage.Lost }) }
    ensures err { OnErr result (side.new ≡ side.old) }
    ensures others { OthersStay number purse.old.sessions purse.new.sessions }
    ensures directory { purse.new.directory ≡ purse.old.directory }
    ensures silences { B.silences bell.new ≡ B.silences bell.old }
{
    let closing = Closing::RemoteConnectionFailed;
    match close_stream(rt, purse, number, side.stream, clock, bell, closing) {
        Ok(()) => {
            side.stage = Stage::Lost;
            Ok(())
        }
        Err(AllocError) => Err(AllocError),
    }
}

// Tells a session that the back end of a stream failed, where it did since the wire was opened.
fn tell_side<R: Wait, C: Clock, B: Bell, E: Backend>(
    rt: &R,
    purse: &mut Purse,
    number: u64,
    side: &mut Side,
    hosts: &Hosts<E>,
    clock: &C,
    bell: &mut B,
) -> Result<(), AllocError>
    requires { IsSome (held purse.old.sessions number) }
    ensures moves { (line : LineFacts) → (place : ℕ) → slice_get line.sides place ≡ Some side.old
        → Turned number purse.old.sessions purse.new.sessions (λ old new. Moves (C.moment clock.now)
        (serving old line (hosts_of E.told E.counts hosts.now))
        (serving new (with_side place side.new line) (hosts_of E.told E.counts hosts.now))) }
    ensures uncut { OnOk result (IsCutAmong (hosts_of E.told E.counts hosts.now) side.new → ⊥) }
    ensures opened { side.old.stage ≢ Stage.Unopened → side.new.stage ≢ Stage.Unopened }
    ensures others { OthersStay number purse.old.sessions purse.new.sessions }
    ensures directory { purse.new.directory ≡ purse.old.directory }
    ensures silences { B.silences bell.new ≡ B.silences bell.old }
{
    let Some(at) = side.host else {
        return Ok(());
    };
    let Some(stand) = hosts.stands.get(at) else {
        return Ok(());
    };
    tell_cut(rt, purse, number, side, stand, clock, bell)
}

// Gives a session what it had no room for on a stream, where it has room now or has ended.
fn give_side<R: Wait, C: Clock, B: Bell, E: Backend>(
    rt: &R,
    purse: &mut Purse,
    number: u64,
    side: &mut Side,
    hosts: &mut Hosts<E>,
    clock: &C,
    bell: &mut B,
) -> Result<(), AllocError>
    requires { IsSome (held purse.old.sessions number) }
    ensures tries { (line : LineFacts) → (place : ℕ) → slice_get line.sides place ≡ Some side.old
        → Turned number purse.old.sessions purse.new.sessions (λ old new. TriesOrMoves (C.moment clock.now) place
        (serving old line (hosts_of E.told E.counts hosts.old))
        (serving new (with_side place side.new line) (hosts_of E.told E.counts hosts.new))
        result) }
    ensures stage { side.new.stage ≡ side.old.stage }
    ensures others { OthersStay number purse.old.sessions purse.new.sessions }
    ensures directory { purse.new.directory ≡ purse.old.directory }
    ensures silences { B.silences bell.new ≡ B.silences bell.old }
{
    if side.owed.is_none() {
        return Ok(());
    }
    let Some(at) = side.host else {
        return Ok(());
    };
    let Some(stand) = hosts.stands.get_mut(at) else {
        return Ok(());
    };
    give_owed(rt, purse, number, side, stand, clock, bell)
}

// Gives a session what it had no room for, where it has room now or has ended, and resumes the wire then.
fn give_owed<R: Wait, C: Clock, B: Bell, E: Backend>(
    rt: &R,
    purse: &mut Purse,
    number: u64,
    side: &mut Side,
    stand: &mut Stand<E>,
    clock: &C,
    bell: &mut B,
) -> Result<(), AllocError>
    requires held { IsSome (held purse.old.sessions number) }
    requires owes { IsSome side.old.owed }
    ensures tries { (kept : Option Inward) → Turned number purse.old.sessions purse.new.sessions (λ old new. TriesStrand (C.moment clock.now)
        (strand old kept side.old (ends_of E.told E.counts stand.old))
        (strand new kept side.new (ends_of E.told E.counts stand.new))
        result) }
    ensures stage { side.new.stage ≡ side.old.stage }
    ensures kept { stand.new.kept ≡ stand.old.kept }
    ensures others { OthersStay number purse.old.sessions purse.new.sessions }
    ensures directory { purse.new.directory ≡ purse.old.directory }
    ensures silences { B.silences bell.new ≡ B.silences bell.old }
{
    let Some(owing) = &side.owed else {
        unreachable!();
    };
    if !may_take(rt, purse, number, owing)? {
        return Ok(());
    }
    match give(rt, purse, number, owing, clock, bell) {
        Ok(Giving::Done) => {
            let wire = owing.wire;
            side.owed = None;
            resume_where_open(side, stand, wire);
            Ok(())
        }
        Ok(Giving::Full) => Ok(()),
        Err(AllocError) => Err(AllocError),
    }
}

// Resumes a wire, where that of this stream is open.
fn resume_where_open<E: Backend>(side: &Side, stand: &mut Stand<E>, wire: Wire)
    ensures ends { ((side.now.stage ≡ Stage.Opened stand.old.failures) × Changes (resumed_too wire)
        (ends_of E.told E.counts stand.old) (ends_of E.told E.counts stand.new))
        ⊎ ((side.now.stage ≢ Stage.Opened stand.old.failures)
        × (ends_of E.told E.counts stand.new
        ≡ ends_of E.told E.counts stand.old)) }
    ensures kept { stand.new.kept ≡ stand.old.kept }
{
    if !side.is_open_on(stand.failures) {
        return;
    }
    stand.resume(wire);
}

// Opens the wire of a stream, where that wasn't done yet.
fn open_wire<E: Backend>(side: &mut Side, stand: &mut Stand<E>) -> Result<(), AllocError>
    ensures moves { (moment : Option ℕ) → (known : Known Entry) → (kept : Option Inward) → StrandMoves moment
        (strand known kept side.old (ends_of E.told E.counts stand.old))
        (strand known kept side.new (ends_of E.told E.counts stand.new)) }
    ensures opened { OnOk result (side.new.stage ≢ Stage.Unopened) }
    ensures kept { stand.new.kept ≡ stand.old.kept }
{
    if !side.is_unopened() {
        return Ok(());
    }
    let failures = stand.failures;
    match stand.open(side.wire) {
        Passed::Done => {
            side.stage = Stage::Opened(failures);
            Ok(())
        }
        Passed::Failed => {
            side.stage = Stage::Opened(failures);
            Ok(())
        }
        Passed::NoMemory => Err(AllocError),
    }
}

// Tells a session that the back end of a stream failed, where it did since the wire was opened.
fn tell_cut<R: Wait, C: Clock, B: Bell, E: Backend>(
    rt: &R,
    purse: &mut Purse,
    number: u64,
    side: &mut Side,
    stand: &Stand<E>,
    clock: &C,
    bell: &mut B,
) -> Result<(), AllocError>
    requires { IsSome (held purse.old.sessions number) }
    ensures moves { (kept : Option Inward) → Turned number purse.old.sessions purse.new.sessions (λ old new. StrandMoves (C.moment clock.now)
        (strand old kept side.old (ends_of E.told E.counts stand.now))
        (strand new kept side.new (ends_of E.told E.counts stand.now))) }
    ensures opened { side.old.stage ≢ Stage.Unopened → side.new.stage ≢ Stage.Unopened }
    ensures host { side.new.host ≡ side.old.host }
    ensures uncut { OnOk result ((on : ℕ) → side.new.stage ≡ Stage.Opened on → on ≡ stand.now.failures) }
    ensures others { OthersStay number purse.old.sessions purse.new.sessions }
    ensures directory { purse.new.directory ≡ purse.old.directory }
    ensures silences { B.silences bell.new ≡ B.silences bell.old }
{
    if !side.is_cut_from(stand.failures) {
        return Ok(());
    }
    let closing = Closing::RemoteConnectionFailed;
    match close_stream(rt, purse, number, side.stream, clock, bell, closing) {
        Ok(()) => {
            side.stage = Stage::Lost;
            Ok(())
        }
        Err(AllocError) => Err(AllocError),
    }
}

/// Lets time pass for a session, and rings for those who wait for it where that changed something.
pub(crate) fn tick<R: Wait, C: Clock, B: Bell>(
    rt: &R,
    purse: &mut Purse,
    number: u64,
    clock: &C,
    bell: &mut B,
) -> Result<(), AllocError>
    requires { IsSome (held purse.old.sessions number) }
    ensures ticks { Turned number purse.old.sessions purse.new.sessions (Ticks (C.moment clock.now) result) }
    ensures others { OthersStay number purse.old.sessions purse.new.sessions }
    ensures directory { purse.new.directory ≡ purse.old.directory }
    ensures silences { B.silences bell.new ≡ B.silences bell.old }
{
    let now = clock.now();
    match purse.call(rt, number, Call::Tick { now }) {
        Ok(reply) => {
            ring_where_changed(bell, number, &reply);
            Ok(())
        }
        Err(AllocError) => Err(AllocError),
    }
}

// Rings for a session in which time changed something.
fn ring_where_changed<B: Bell>(bell: &mut B, number: u64, reply: &Reply)
    ensures { B.silences bell.new ≡ B.silences bell.old }
{
    if let Reply::Tick(Ticked::Changed) = reply {
        bell.ring(BellKey(number));
    }
}

/// Tells a session that one of its streams is closed. The only error is want of memory.
pub(crate) fn close_stream<R: Wait, C: Clock, B: Bell>(
    rt: &R,
    purse: &mut Purse,
    number: u64,
    stream: StreamNo,
    clock: &C,
    bell: &mut B,
    closing: Closing,
) -> Result<(), AllocError>
    requires { IsSome (held purse.old.sessions number) }
    ensures closes { Turned number purse.old.sessions purse.new.sessions (ClosesStream (C.moment clock.now) stream closing result) }
    ensures others { OthersStay number purse.old.sessions purse.new.sessions }
    ensures directory { purse.new.directory ≡ purse.old.directory }
    ensures silences { B.silences bell.new ≡ B.silences bell.old }
{
    let now = clock.now();
    let call = Call::BackClosed {
        stream,
        closing,
        now,
    };
    match purse.call(rt, number, call) {
        Ok(reply) => {
            bell.ring(BellKey(number));
            drop(reply);
            Ok(())
        }
        Err(AllocError) => Err(AllocError),
    }
}

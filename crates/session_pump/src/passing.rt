// What is inward of a session goes to the back ends of its streams.
ghost use Rattle.std.specs.Prelude.{◌≡◌, ◌≢◌, ◌<◌, ◌++◌, ◌∷◌, ℕ, [], IfNone, IfSome, IsSome, None, OnOk, Option, Some, false, length, slice_get, true};
ghost use Rattle.bosh_types.specs.declared.inward.Inward.TheVariants as inward;
ghost use Rattle.parked_gate.specs.Passes.{Known};
ghost use Rattle.session_journal.specs.declared.call.Call.TheVariants as calls;
ghost use Rattle.session_journal.specs.declared.call.Reply.TheVariants as replies;
ghost use Rattle.session_journal.specs.declared.entry.Entry.{Entry};
ghost use Rattle.session_table.specs.Purses.{OthersStay, Turned, held};
ghost use Rattle.session_pump.specs.Ends.{ends_of};
ghost use Rattle.session_pump.specs.Hosts.{hosts_of};
ghost use Rattle.session_pump.specs.Calling.{Called, taken_as};
ghost use Rattle.session_pump.specs.Sides.{AreOpened, Moves, PassesAll, StrandMoves, is_for, is_met, is_opening, kept_after, line_facts, served, strand, stream_of};
ghost use Rattle.session_pump.specs.Turns.{TakesAll};

use crate::hosts::{Hosts, Stand};
use crate::line::{Line, Side, Stage};
use crate::serving::open_side;
use bosh_ports::Bell;
use bosh_types::{Inward, StreamNo};
use server_ports::Clock;
use session_journal::{Call, Reply};
use session_table::Purse;
use std::alloc::AllocError;
use std::sync::Wait;
use xmpp_backend::{Backend, Passed};

/// Passes the items of a session on, in their order, until none is left: stanzas and restarts go to the back ends of their streams, other
/// items open streams and close them. Where a stream's wire is no more its items are let go. The only error is want of memory, and what
/// was taken then and not passed is kept.
pub(crate) fn pass_all<R: Wait, C: Clock, B: Bell, E: Backend>(
    rt: &R,
    purse: &mut Purse,
    number: u64,
    line: &mut Line,
    hosts: &mut Hosts<E>,
    clock: &C,
    bell: &mut B,
) -> Result<(), AllocError>
    requires held { IsSome (held purse.old.sessions number) }
    requires opened { AreOpened line.old.sides.items }
    ensures passes { Turned number purse.old.sessions purse.new.sessions (λ old new. PassesAll (C.moment clock.now)
        (served old line.old (hosts_of E.told E.counts hosts.old))
        (served new line.new (hosts_of E.told E.counts hosts.new))
        result) }
    ensures opened { OnOk result (AreOpened line.new.sides.items) }
    ensures others { OthersStay number purse.old.sessions purse.new.sessions }
    ensures directory { purse.new.directory ≡ purse.old.directory }
    ensures silences { B.silences bell.new ≡ B.silences bell.old }
{
    for _ in rt.forever() {
        hand_on(rt, purse, number, line, hosts, clock, bell)?;
        let Some(item) = next_item(rt, purse, number)? else {
            return Ok(());
        };
        line.kept = Some(item);
    }
    unreachable!()
}

/// Takes the items of a session that has no line, and lets them go. The only error is want of memory.
pub(crate) fn drop_all<R: Wait>(rt: &R, purse: &mut Purse, number: u64) -> Result<(), AllocError>
    requires { IsSome (held purse.old.sessions number) }
    ensures takes { Turned number purse.old.sessions purse.new.sessions (λ old new. TakesAll old new result) }
    ensures others { OthersStay number purse.old.sessions purse.new.sessions }
    ensures directory { purse.new.directory ≡ purse.old.directory }
{
    for _ in rt.forever() {
        let Some(item) = next_item(rt, purse, number)? else {
            return Ok(());
        };
        drop(item);
    }
    unreachable!()
}

// Takes the next item of the session, where there is one.
fn next_item<R: Wait>(rt: &R, purse: &mut Purse, number: u64) -> Result<Option<Inward>, AllocError>
    requires { IsSome (held purse.old.sessions number) }
    ensures took { Turned number purse.old.sessions purse.new.sessions (Called calls.TakeInward (taken_as result)) }
    ensures others { OthersStay number purse.old.sessions purse.new.sessions }
    ensures directory { purse.new.directory ≡ purse.old.directory }
{
    match purse.call(rt, number, Call::TakeInward) {
        Ok(reply) => Ok(item_in(reply)),
        Err(AllocError) => Err(AllocError),
    }
}

// Hands what is kept on: to its stream, or it opens one that wasn't met.
fn hand_on<R: Wait, C: Clock, B: Bell, E: Backend>(
    rt: &R,
    purse: &mut Purse,
    number: u64,
    line: &mut Line,
    hosts: &mut Hosts<E>,
    clock: &C,
    bell: &mut B,
) -> Result<(), AllocError>
    requires held { IsSome (held purse.old.sessions number) }
    requires opened { AreOpened line.old.sides.items }
    ensures moves { Turned number purse.old.sessions purse.new.sessions (λ old new. Moves (C.moment clock.now)
        (served old line.old (hosts_of E.told E.counts hosts.old))
        (served new line.new (hosts_of E.told E.counts hosts.new))) }
    ensures none { OnOk result (line.new.kept ≡ None) }
    ensures opened { OnOk result (AreOpened line.new.sides.items) }
    ensures others { OthersStay number purse.old.sessions purse.new.sessions }
    ensures directory { purse.new.directory ≡ purse.old.directory }
    ensures silences { B.silences bell.new ≡ B.silences bell.old }
{
    let Some(item) = &line.kept else {
        return Ok(());
    };
    let place = line.place_of(stream_of(item));
    if !is_opening(item) {
        return pass_kept(line, hosts, place);
    }
    match place {
        Some(_) => {
            line.kept = None;
            Ok(())
        }
        None => open_kept(rt, purse, number, line, hosts, clock, bell),
    }
}

// Opens the stream of the open item that is kept.
fn open_kept<R: Wait, C: Clock, B: Bell, E: Backend>(
    rt: &R,
    purse: &mut Purse,
    number: u64,
    line: &mut Line,
    hosts: &mut Hosts<E>,
    clock: &C,
    bell: &mut B,
) -> Result<(), AllocError>
    requires held { IsSome (held purse.old.sessions number) }
    requires opened { AreOpened line.old.sides.items }
    requires opens { (item : Inward) × (line.old.kept ≡ Some item) × (is_opening item ≡ true) × (is_met (stream_of item) line.old.sides.items ≡ false) }
    ensures moves { Turned number purse.old.sessions purse.new.sessions (λ old new. Moves (C.moment clock.now)
        (served old line.old (hosts_of E.told E.counts hosts.old))
        (served new line.new (hosts_of E.told E.counts hosts.new))) }
    ensures none { OnOk result (line.new.kept ≡ None) }
    ensures opened { OnOk result (AreOpened line.new.sides.items) }
    ensures others { OthersStay number purse.old.sessions purse.new.sessions }
    ensures directory { purse.new.directory ≡ purse.old.directory }
    ensures silences { B.silences bell.new ≡ B.silences bell.old }
{
    let place = line.sides.len();
    meet_kept(line, hosts)?;
    let Some(side) = line.sides.get_mut(place) else {
        unreachable!();
    };
    open_side(rt, purse, number, side, hosts, clock, bell)
}

// Adds a side for the stream of the open item that is kept, to the host that it names.
fn meet_kept<E: Backend>(line: &mut Line, hosts: &Hosts<E>) -> Result<(), AllocError>
    requires { (item : Inward) × (line.old.kept ≡ Some item) × (is_opening item ≡ true) × (is_met (stream_of item) line.old.sides.items ≡ false) }
    ensures moves { (moment : Option ℕ) → (known : Known Entry) → Moves moment
        (served known line.old (hosts_of E.told E.counts hosts.now))
        (served known line.new (hosts_of E.told E.counts hosts.now)) }
    ensures met { OnOk result ((side : Side) × (line_facts line.new ≡ record (line_facts line.old) { kept = None; sides = line.old.sides.items ++ side ∷ [] })) }
{
    let Some(item) = &line.kept else {
        unreachable!();
    };
    let stream = stream_of(item);
    let host = hosts.place_of(name_in(item));
    line.add(stream, host)?;
    line.kept = None;
    Ok(())
}

// Passes what is kept on to the stream whose side stands at this place, or lets it go where there is none.
fn pass_kept<E: Backend>(
    line: &mut Line,
    hosts: &mut Hosts<E>,
    place: Option<usize>,
) -> Result<(), AllocError>
    requires opened { AreOpened line.old.sides.items }
    requires within { IfSome place (λ at. at < length line.old.sides.items) }
    requires passes { (item : Inward) × (line.old.kept ≡ Some item) × (is_opening item ≡ false)
        × IfSome place (λ at. (side : Side) × (slice_get line.old.sides.items at ≡ Some side) × (side.stream ≡ stream_of item))
        × IfNone place (is_met (stream_of item) line.old.sides.items ≡ false) }
    ensures moves { (moment : Option ℕ) → (known : Known Entry) → Moves moment
        (served known line.old (hosts_of E.told E.counts hosts.old))
        (served known line.new (hosts_of E.told E.counts hosts.new)) }
    ensures none { OnOk result (line.new.kept ≡ None) }
    ensures opened { AreOpened line.new.sides.items }
{
    let Some(place) = place else {
        line.kept = None;
        return Ok(());
    };
    let Some(side) = line.sides.get_mut(place) else {
        unreachable!();
    };
    let Some(item) = &line.kept else {
        unreachable!();
    };
    let Some(at) = side.host else {
        line.kept = None;
        return Ok(());
    };
    let Some(stand) = hosts.stands.get_mut(at) else {
        line.kept = None;
        return Ok(());
    };
    pass_on(side, stand, item)?;
    line.kept = None;
    Ok(())
}

// Passes an item on, or closes the wire where it is a close item; where the wire isn't open it is let go. The only error is want of memory.
fn pass_on<E: Backend>(
    side: &mut Side,
    stand: &mut Stand<E>,
    item: &Inward,
) -> Result<(), AllocError>
    requires opened { side.old.stage ≢ Stage.Unopened }
    requires passes { is_opening item.now ≡ false }
    requires stream { stream_of item.now ≡ side.old.stream }
    ensures moves { (moment : Option ℕ) → (known : Known Entry) → StrandMoves moment
        (strand known (Some item.now) side.old (ends_of E.told E.counts stand.old))
        (strand known (kept_after result item.now) side.new (ends_of E.told E.counts stand.new)) }
    ensures opened { side.new.stage ≢ Stage.Unopened }
    ensures kept { stand.new.kept ≡ stand.old.kept }
{
    if !side.is_open_on(stand.failures) {
        return Ok(());
    }
    if is_closing(item) {
        return close_wire(side, stand);
    }
    match stand.pass(side.wire, item) {
        Passed::Done => Ok(()),
        Passed::Failed => Ok(()),
        Passed::NoMemory => Err(AllocError),
    }
}

// Closes a wire that its session closed.
fn close_wire<E: Backend>(side: &mut Side, stand: &mut Stand<E>) -> Result<(), AllocError>
    requires { side.old.stage ≡ Stage.Opened stand.old.failures }
    ensures moves { (moment : Option ℕ) → (known : Known Entry) → StrandMoves moment
        (strand known (Some (inward.Close side.old.stream)) side.old (ends_of E.told E.counts stand.old))
        (strand known (kept_after result (inward.Close side.old.stream)) side.new (ends_of E.told E.counts stand.new)) }
    ensures opened { side.new.stage ≢ Stage.Unopened }
    ensures kept { stand.new.kept ≡ stand.old.kept }
{
    match stand.close(side.wire) {
        Passed::Done => {
            side.stage = Stage::Lost;
            Ok(())
        }
        Passed::Failed => {
            side.stage = Stage::Lost;
            Ok(())
        }
        Passed::NoMemory => Err(AllocError),
    }
}

// The stream of an item.
fn stream_of(item: &Inward) -> StreamNo
    ensures { result ≡ stream_of item.now }
{
    match item {
        Inward::Item(stream, _) => *stream,
        Inward::Restart(stream) => *stream,
        Inward::Open(stream, _) => *stream,
        Inward::Close(stream) => *stream,
    }
}

// The host that an open item names.
fn name_in(item: &Inward) -> &[u8]
    requires { is_opening item.now ≡ true }
    ensures { item.now ≡ inward.Open (stream_of item.now) result.now }
{
    match item {
        Inward::Open(_, to) => to.as_slice(),
        Inward::Item(_, _) => unreachable!(),
        Inward::Restart(_) => unreachable!(),
        Inward::Close(_) => unreachable!(),
    }
}

fn is_opening(item: &Inward) -> bool
    ensures { result ≡ is_opening item.now }
{
    match item {
        Inward::Open(_, _) => true,
        Inward::Item(_, _) => false,
        Inward::Restart(_) => false,
        Inward::Close(_) => false,
    }
}

fn is_closing(item: &Inward) -> bool
    ensures closing { result ≡ true → item.now ≡ inward.Close (stream_of item.now) }
    ensures passing { result ≡ false → is_opening item.now ≡ false → is_for (stream_of item.now) item.now ≡ true }
{
    match item {
        Inward::Close(_) => true,
        Inward::Item(_, _) => false,
        Inward::Restart(_) => false,
        Inward::Open(_, _) => false,
    }
}

// The item that a session gave.
fn item_in(reply: Reply) -> Option<Inward>
    requires { (item : Option Inward) × (reply ≡ replies.TakeInward item) }
    ensures { reply ≡ replies.TakeInward result }
{
    match reply {
        Reply::TakeInward(item) => item,
        Reply::Arrive(_) => unreachable!(),
        Reply::Back(_) => unreachable!(),
        Reply::BackClosed(_) => unreachable!(),
        Reply::Tick(_) => unreachable!(),
    }
}

// The whole of a running client.
ghost use Rattle.std.specs.Prelude.{◌≡◌, ◌≤◌, ℕ, Ok, true, false};
ghost use Rattle.std.specs.Arc.{arc_value};
ghost use Rattle.parked_gate.specs.Passes.{IsPassOf, gate_of, known};
ghost use Rattle.client_run.specs.Attending.{is_attend_whole};
ghost use Rattle.client_run.specs.Handed.{GoesOn, Handed, is_whole};
ghost use Rattle.client_run.specs.Handing.{Out, out_of};
ghost use Rattle.client_run.specs.Lingering.{is_linger_whole};
ghost use Rattle.client_run.specs.Queueing.{AsksToEnd};
ghost use Rattle.client_run.specs.Ran.{Concludes, ConversesBy, FinishesBy, InOrder, RanBy, ran_by, ran_spent, scene_of, well};
ghost use Rattle.client_run.specs.Running.{is_done};

use crate::asking::look;
use crate::attending::{Attended, attend};
use crate::crew::{Both, Crew, hire_both, start_both};
use crate::draining::{Written, drain};
use crate::ear::{Ear, Siren};
use crate::ends::{Ends, Naming};
use crate::gathering::{Gathered, gather_one, gather_two};
use crate::lingering::linger;
use crate::object::ClientObject;
use crate::queueing::terminate;
use crate::ready::Ready;
use bosh_ports::{Bell, Link, Sink, Source};
use bosh_types::Condition;
use parked_gate::{Gate, Pass};
use server_ports::{Clock, Network, Spawner};
use std::alloc::{AllocError, Global};
use std::marker::Brand;
use std::sync::{Arc, Wait};
use std::thread::Threads;

/// How a client ran: the first of these that holds.
#[derive(Clone, Copy, Debug, PartialEq, Eq)]
pub enum ClientRan {
    /// A worker could not be started.
    SpawnFault,
    /// The network gave no share at the start; or talking ended well, and then a worker by a fault.
    NetFault,
    /// Talking ended well, and then a worker at the third response in a row to one request with another status than 200, the last
    /// with this one.
    Refused { status: u16 },
    /// This line of the input is the first that is no stanza, or it is the 1,000,001st.
    Bad { line: u64 },
    /// The source failed.
    ReadFault,
    /// The sink failed while talking, or before both workers had ended; or at what was handed out last, where no worker ended by a fault.
    WriteFault,
    /// A line found the queue full, and no request id is left, so that nobody empties it.
    Stuck,
    /// The first terminal answer that the client took has this condition.
    Ended(Condition),
    /// It has none, or no request id is left.
    Done,
}

/// A client behind its gate, and the port at which its manager listens.
#[derive(Drop)]
pub struct Place<'p> {
    pub alloc: Global,
    pub gate: &'p Arc<Gate<ClientObject>>,
    pub port: u16,
}

/// What a client runs over besides its input and its output.
#[derive(Drop)]
pub struct Outside<N, C, B, P> {
    pub net: N,
    pub clock: C,
    pub bell: B,
    pub spawner: P,
}

/// Runs a client over an input: two workers send what it has to send, and take its answers, while this thread puts the lines of
/// the input and writes what is handed out, as soon as either comes. Whatever wakes the source rings the bell for the pump too.
/// Before the answer both workers ended, and what was handed out meanwhile and last is written. A worker that ends rings the bell with the key
/// `OVER`. Where anything fails, a terminate is queued. The only error is want of memory. The jobs wait for this thread, so the
/// spawner has to give threads.
pub fn run_client<R, S, K, N, C, B, P>(
    rt: &R,
    place: &Place<'_>,
    pass: &mut Pass<ClientObject>,
    source: &mut S,
    sink: &mut K,
    outside: &mut Outside<N, C, B, P>,
) -> Result<ClientRan, AllocError>
where
    R: Wait + Threads + Copy + Send + Drop + 'static,
    S: Source + Ready,
    K: Sink,
    N: Network + Send + Drop + 'static,
    N::Link: Send + Drop + 'static,
    C: Clock + Send + Drop + 'static,
    B: Bell + Send + Drop + 'static,
    P: Spawner,
    requires { IsPassOf (arc_value place.now.gate.now) pass.old }
    ensures pass { IsPassOf (arc_value place.now.gate.now) pass.new }

    // Each answer has its cause. Where it is the client's end, nothing was left to be handed out.
    ensures ran { RanBy (S.left source.old) (scene_of (known pass.old) (N.counts outside.old.net) (P.refusals outside.old.spawner) (S.faults source.old) (K.faults sink.old))
        (scene_of (known pass.new) (N.counts outside.new.net) (P.refusals outside.new.spawner) (S.faults source.new) (K.faults sink.new)) result }

    // Where one cause is answered, none of those before it came; and a terminate was queued where a worker was refused, and where
    // talking did not end well.
    ensures ordered { InOrder (S.left source.old) (scene_of (known pass.old) (N.counts outside.old.net) (P.refusals outside.old.spawner) (S.faults source.old) (K.faults sink.old))
        (scene_of (known pass.new) (N.counts outside.new.net) (P.refusals outside.new.spawner) (S.faults source.new) (K.faults sink.new)) result }

    // What was handed out to the pass was written, each stanza as a line, and nothing else: all of it, unless the sink failed.
    ensures written { Handed (is_whole result) (out_of (known pass.old) (K.given sink.old)) (out_of (known pass.new) (K.given sink.new)) (K.faults sink.old) (K.faults sink.new) }
    ensures sink_faults { K.faults sink.old ≤ K.faults sink.new }
{
    let siren = match Siren::new(place.alloc) {
        Ok(siren) => siren,
        Err(AllocError) => return Err(AllocError),
    };
    run_named::<Brand, R, S, K, N, C, B, P>(rt, place, pass, source, sink, outside, siren)
}

// The same at gates with a name.
fn run_named<J, R, S, K, N, C, B, P>(
    rt: &R,
    place: &Place<'_>,
    pass: &mut Pass<ClientObject>,
    source: &mut S,
    sink: &mut K,
    outside: &mut Outside<N, C, B, P>,
    siren: Siren,
) -> Result<ClientRan, AllocError>
where
    J: Naming + Send + Sync + 'static,
    R: Wait + Threads + Copy + Send + Drop + 'static,
    S: Source + Ready,
    K: Sink,
    N: Network + Send + Drop + 'static,
    N::Link: Send + Drop + 'static,
    C: Clock + Send + Drop + 'static,
    B: Bell + Send + Drop + 'static,
    P: Spawner,
    requires pass { IsPassOf (arc_value place.now.gate.now) pass.old }
    requires named { gate_of (arc_value place.now.gate.now) ≡ J.gate }
    requires alarm { gate_of (arc_value siren.gate) ≡ J.alarm }
    ensures pass { IsPassOf (arc_value place.now.gate.now) pass.new }
    ensures ran { RanBy (S.left source.old) (scene_of (known pass.old) (N.counts outside.old.net) (P.refusals outside.old.spawner) (S.faults source.old) (K.faults sink.old))
        (scene_of (known pass.new) (N.counts outside.new.net) (P.refusals outside.new.spawner) (S.faults source.new) (K.faults sink.new)) result }
    ensures ordered { InOrder (S.left source.old) (scene_of (known pass.old) (N.counts outside.old.net) (P.refusals outside.old.spawner) (S.faults source.old) (K.faults sink.old))
        (scene_of (known pass.new) (N.counts outside.new.net) (P.refusals outside.new.spawner) (S.faults source.new) (K.faults sink.new)) result }
    ensures written { Handed (is_whole result) (out_of (known pass.old) (K.given sink.old)) (out_of (known pass.new) (K.given sink.new)) (K.faults sink.old) (K.faults sink.new) }
    ensures sink_faults { K.faults sink.old ≤ K.faults sink.new }
{
    let Place { alloc, gate, port } = *place;
    let mut ear = Ear::new(siren);
    let ends = match new_ends::<J, N>(alloc) {
        Ok(ends) => ends,
        Err(AllocError) => return Err(AllocError),
    };
    let crew = Crew {
        rt,
        alloc,
        gate,
        clock: &outside.clock,
        port,
        ends: &ends,
    };
    let hired = match hire_both(&crew, &mut ear, pass, &mut outside.net, &mut outside.bell) {
        Ok(hired) => hired,
        Err(AllocError) => return Err(AllocError),
    };
    let Both { first, second } = match hired {
        Some(both) => both,
        None => {
            let _ = terminate(rt, gate, pass, &mut outside.bell);
            return Ok(ClientRan::NetFault);
        }
    };
    let started = start_both(rt, &mut outside.spawner, first, second);
    if started != 2 {
        give_up(
            rt,
            gate,
            pass,
            &mut outside.net,
            &mut outside.bell,
            &ends,
            started,
        );
        return Ok(ClientRan::SpawnFault);
    }
    let talked = converse(
        rt,
        alloc,
        gate,
        pass,
        source,
        sink,
        &mut outside.bell,
        &ends,
    );
    let talked = linger(rt, gate, pass, sink, &mut outside.bell, &ends, talked);
    let gathered = gather_two(rt, gate, pass, &mut outside.net, &ends);
    finish(rt, gate, pass, sink, talked, gathered)
}

// The session is to end since a worker was refused, and the end of the other is waited for.
fn give_up<J: Naming, R: Wait, N: Network + Drop, B: Bell>(
    rt: &R,
    gate: &Gate<ClientObject>,
    pass: &mut Pass<ClientObject>,
    net: &mut N,
    bell: &mut B,
    ends: &Ends<J, N>,
    started: u32,
)
    requires pass { IsPassOf gate.now pass.old }
    requires named { gate_of gate.now ≡ J.gate }
    ensures pass { IsPassOf gate.now pass.new }
    ensures goes_on { GoesOn (known pass.old) (known pass.new) }
    ensures asks { AsksToEnd (known pass.old) (known pass.new) }
{
    let _ = terminate(rt, gate, pass, bell);
    if started == 1 {
        gather_one(rt, gate, pass, net, ends);
        return;
    }
}

fn new_ends<J: Naming, N: Network + Drop>(alloc: Global) -> Result<Arc<Ends<J, N>>, AllocError> {
    match Arc::new(alloc, Ends::with_room(alloc, 2)?) {
        Ok(ends) => Ok(ends),
        Err(_) => Err(AllocError),
    }
}

// Attends to the input and the output, and queues a terminate where that doesn't end well. The only error is want of memory.
fn converse<J, R, S, K, N, B>(
    rt: &R,
    alloc: Global,
    gate: &Gate<ClientObject>,
    pass: &mut Pass<ClientObject>,
    source: &mut S,
    sink: &mut K,
    bell: &mut B,
    ends: &Ends<J, N>,
) -> Result<Attended, AllocError>
where
    J: Naming,
    R: Wait,
    S: Source + Ready,
    K: Sink,
    N: Network + Drop,
    B: Bell,
    requires { IsPassOf gate.now pass.old }
    ensures pass { IsPassOf gate.now pass.new }
    ensures converses { ConversesBy (S.left source.old) (known pass.old) (known pass.new) (S.faults source.old) (S.faults source.new) (K.faults sink.old) (K.faults sink.new) result }
    ensures written { Handed (is_attend_whole result) (out_of (known pass.old) (K.given sink.old)) (out_of (known pass.new) (K.given sink.new)) (K.faults sink.old) (K.faults sink.new) }
    ensures sink_faults { K.faults sink.old ≤ K.faults sink.new }
{
    let talked = match attend(rt, alloc, gate, pass, source, sink, bell, ends) {
        Ok(talked) => talked,
        Err(AllocError) => {
            let _ = terminate(rt, gate, pass, bell);
            return Err(AllocError);
        }
    };
    if is_done(talked) {
        return Ok(talked);
    }
    let _ = terminate(rt, gate, pass, bell);
    Ok(talked)
}

// Whether it ended well. Where no request id is left a terminate would be of no use.
fn is_done(talked: Attended) -> bool
    ensures { result ≡ is_done talked }
{
    match talked {
        Attended::Done => true,
        Attended::Bad { .. } => false,
        Attended::ReadFault => false,
        Attended::WriteFault => false,
        Attended::Stuck => true,
    }
}

// Writes what was handed out last, and says how the client ran.
fn finish<R: Wait, K: Sink>(
    rt: &R,
    gate: &Gate<ClientObject>,
    pass: &mut Pass<ClientObject>,
    sink: &mut K,
    talked: Result<Attended, AllocError>,
    gathered: Gathered,
) -> Result<ClientRan, AllocError>
    requires { IsPassOf gate.now pass.old }
    ensures pass { IsPassOf gate.now pass.new }
    ensures finishes { FinishesBy talked gathered (known pass.old) (known pass.new) (K.faults sink.old) (K.faults sink.new) result }
    ensures written { (start : Out) (faults : ℕ) → faults ≤ K.faults sink.old
        → Handed (is_linger_whole talked) start (out_of (known pass.old) (K.given sink.old)) faults (K.faults sink.old)
        → Handed (is_whole result) start (out_of (known pass.new) (K.given sink.new)) faults (K.faults sink.new) }
    ensures sink_faults { K.faults sink.old ≤ K.faults sink.new }
{
    let talked = match talked {
        Ok(talked) => talked,
        Err(AllocError) => return Err(AllocError),
    };
    match talked {
        Attended::Done => end(rt, gate, pass, sink, gathered, false),
        Attended::Stuck => end(rt, gate, pass, sink, gathered, true),
        Attended::Bad { line } => Ok(ClientRan::Bad { line }),
        Attended::ReadFault => Ok(ClientRan::ReadFault),
        Attended::WriteFault => Ok(ClientRan::WriteFault),
    }
}

// The same where the talk ended well, or was stuck.
fn end<R: Wait, K: Sink>(
    rt: &R,
    gate: &Gate<ClientObject>,
    pass: &mut Pass<ClientObject>,
    sink: &mut K,
    gathered: Gathered,
    stuck: bool,
) -> Result<ClientRan, AllocError>
    requires { IsPassOf gate.now pass.old }
    ensures pass { IsPassOf gate.now pass.new }
    ensures finishes { FinishesBy (Ok (well stuck)) gathered (known pass.old) (known pass.new) (K.faults sink.old) (K.faults sink.new) result }
    ensures written { (start : Out) (faults : ℕ) → faults ≤ K.faults sink.old
        → Handed true start (out_of (known pass.old) (K.given sink.old)) faults (K.faults sink.old)
        → Handed (is_whole result) start (out_of (known pass.new) (K.given sink.new)) faults (K.faults sink.new) }
    ensures sink_faults { K.faults sink.old ≤ K.faults sink.new }
{
    let written = match drain(rt, gate, pass, sink) {
        Ok(written) => written,
        Err(AllocError) => return Err(AllocError),
    };
    match gathered {
        Gathered::NetFault => return Ok(ClientRan::NetFault),
        Gathered::Refused { status } => return Ok(ClientRan::Refused { status }),
        Gathered::NoMemory => return Err(AllocError),
        Gathered::Over => {}
    }
    match written {
        Written::WriteFault => Ok(ClientRan::WriteFault),
        Written::Done => Ok(conclude(rt, gate, pass, stuck)),
    }
}

// How the client ended.
fn conclude<R: Wait>(
    rt: &R,
    gate: &Gate<ClientObject>,
    pass: &mut Pass<ClientObject>,
    stuck: bool,
) -> ClientRan
    requires { IsPassOf gate.now pass.old }
    ensures pass { IsPassOf gate.now pass.new }
    ensures mine { (known pass.new).mine ≡ (known pass.old).mine }
    ensures goes_on { GoesOn (known pass.old) (known pass.new) }
    ensures concludes { Concludes stuck (known pass.old) (known pass.new) result }
{
    match look(rt, gate, pass) {
        Some(end) => ran_by(end.condition),
        None => spent(stuck),
    }
}

// How a client ran that has no request id left.
fn spent(stuck: bool) -> ClientRan
    ensures { result ≡ ran_spent stuck }
{
    match stuck {
        true => ClientRan::Stuck,
        false => ClientRan::Done,
    }
}

fn ran_by(condition: Option<Condition>) -> ClientRan
    ensures { result ≡ ran_by condition }
{
    match condition {
        Some(condition) => ClientRan::Ended(condition),
        None => ClientRan::Done,
    }
}

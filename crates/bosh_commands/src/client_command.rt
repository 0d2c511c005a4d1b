// What the command `client` does over what it is handed.
ghost use Rattle.std.specs.Prelude.{◌≡◌, ◌≢◌, ◌≤◌, ℕ, [], ◌∷◌, Contains, IfOk, IfSome, IsSome, IsSomeAnd, None, false, true};
ghost use Rattle.std.specs.Arc.{arc_value};
ghost use Rattle.std.specs.Io.KnownBytes.{Appends};
ghost use Rattle.bosh_client.specs.Setup.{is_setup};
ghost use Rattle.bosh_ports.specs.Faults.{HasRisen};
ghost use Rattle.parked_gate.specs.Passes.{IsPassOf, known};
ghost use Rattle.client_run.specs.Worked.{IsDone};
ghost use Rattle.bosh_commands.specs.ClientOptions.{AskedFit, Fits, client_findings, client_options, options_asked, shows_text};
ghost use Rattle.bosh_commands.specs.Options.{Asks, MayAsk, ShowsWhatIsAsked};
ghost use Rattle.bosh_commands.specs.ClientCommand.{Ended, EndedBadly, EndedStuck, HasBad, IsFirst, IsRefused, Tells, bad_kind, bad_line, begun, ended_line, is_told, status_of, sunk_of};

use crate::client_options::{Asked, ClientOptions, First, read_client_options};
use crate::run::{BAD_SCRIPT, DONE, NO_MEMORY, READ_FAULT, WRITE_FAULT, WRONG_WORDS};
use crate::serve_command::{NET_FAULT, SPAWN_FAULT, status_given};
use crate::why::{tell_no_memory, tell_why};
use bosh_client::ClientSetup;
use bosh_ports::{Bell, Link, Sink, Source, give_all};
use bosh_types::limits::MOST_LINES;
use bosh_types::{Condition, Rid, Text};
use client_run::{ClientObject, ClientRan, Outside, Place, Ready, run_client};
use parked_gate::{Gate, Pass};
use server_ports::{Clock, Names, Network, Spawner};
use std::alloc::{AllocError, Global};
use std::sync::{Arc, Wait};
use std::thread::Threads;

/// The first terminal answer that the client took has a condition.
pub const ENDED: u8 = 9;

/// Three responses in a row to one request had another status than 200.
pub const REFUSED: u8 = 13;
/// A line found the queue full, and no request id is left.
pub const STUCK: u8 = 14;

/// Runs the command `client`, where the words name it, and answers the program's status. Each line of the source is put as a
/// stanza, and each stanza that comes is given to the sink as a line. A bad line of the source is told by a line `bad`, and the
/// condition with which the session ended by a line `ended`. Where the status isn't 0, a line of `errors` says why, if that takes it.
pub fn run_client_command<R, I, K, E, N, C, B, P, M>(
    rt: &R,
    alloc: Global,
    words: &[String],
    source: &mut I,
    sink: &mut K,
    errors: &mut E,
    outside: &mut Outside<N, C, B, P>,
    names: &mut M,
) -> u8
where
    R: Wait + Threads + Copy + Send + Drop + 'static,
    I: Source + Ready,
    K: Sink,
    E: Sink,
    N: Network + Send + Drop + 'static,
    N::Link: Send + Drop + 'static,
    C: Clock + Send + Drop + 'static,
    B: Bell + Send + Drop + 'static,
    P: Spawner,
    M: Names,
    ensures statuses { Contains (0 ∷ 2 ∷ 3 ∷ 4 ∷ 5 ∷ 6 ∷ 7 ∷ 8 ∷ 9 ∷ 13 ∷ 14 ∷ []) result }

    // A fault has its status only where its count rose.
    ensures read_fault { result ≡ 4 → HasRisen (I.faults source.old) (I.faults source.new) }
    ensures write_fault { result ≡ 5 → HasRisen (K.faults sink.old) (K.faults sink.new) }
    ensures net_fault { result ≡ 7 → HasRisen (N.counts outside.old.net).faults (N.counts outside.new.net).faults }
    ensures spawn_fault { result ≡ 8 → HasRisen (P.refusals outside.old.spawner) (P.refusals outside.new.spawner) }

    // With 3 a line of the source is bad. With 0 and 9 the client ran to its end, unless help was asked for. It had the setup of the words, and
    // what was handed out is written, each stanza as a line, then the line that tells of the bad line or the condition, and nothing else.
    ensures bad { result ≡ 3 → IsSomeAnd (client_options words.now) (λ options. HasBad options (I.left source.old) (sunk_of (K.given sink.old) (K.faults sink.old)) (sunk_of (K.given sink.new) (K.faults sink.new))) }
    ensures done { result ≡ 0 → IfSome (client_options words.now) (λ options. Ended options (I.left source.old) (N.counts outside.old.net) (N.counts outside.new.net)
        (sunk_of (K.given sink.old) (K.faults sink.old)) (sunk_of (K.given sink.new) (K.faults sink.new)) [] IsDone) }
    ensures ended { result ≡ 9 → IsSomeAnd (client_options words.now) (λ options. EndedBadly options (I.left source.old) (N.counts outside.old.net) (N.counts outside.new.net)
        (sunk_of (K.given sink.old) (K.faults sink.old)) (sunk_of (K.given sink.new) (K.faults sink.new))) }
    ensures failed { Contains (4 ∷ 7 ∷ 8 ∷ 13 ∷ []) result → IsSomeAnd (client_options words.now) (λ options. Tells options false (sunk_of (K.given sink.old) (K.faults sink.old)) (sunk_of (K.given sink.new) (K.faults sink.new)) []) }
    ensures refusals { result ≡ 13 → IsRefused (N.counts outside.old.net) (N.counts outside.new.net) (E.given errors.old) (E.given errors.new) }
    ensures stuck { result ≡ 14 → IsSomeAnd (client_options words.now) (λ options. EndedStuck options (I.left source.old) (N.counts outside.old.net) (N.counts outside.new.net) (sunk_of (K.given sink.old) (K.faults sink.old)) (sunk_of (K.given sink.new) (K.faults sink.new)) (E.given errors.old) (E.given errors.new)) }

    // Words that say how to run have another status than 2. Other words have it, but for want of memory, where they don't ask for
    // help or the version; where they ask for just that, they have another. They run no client, and with 2 nothing is written.
    ensures accepted { IsSome (client_options words.now) → result ≢ 2 }
    ensures refused { client_options words.now ≡ None → (MayAsk (client_findings words.now) → ⊥) → Contains (2 ∷ 6 ∷ []) result }
    ensures asked { Asks (client_findings words.now) → result ≢ 2 }
    ensures unread { client_options words.now ≡ None → source.new ≡ source.old }
    ensures unrun { client_options words.now ≡ None → outside.new ≡ outside.old }
    ensures unwritten { result ≡ 2 → sink.new ≡ sink.old }
{
    match asked(alloc, words) {
        Err(AllocError) => tell_no_memory(errors),
        Ok(Asked::Nothing) => WRONG_WORDS,
        Ok(Asked::Shown(text)) => status_given(sink, text.as_bytes()),
        Ok(Asked::Run(options)) => ask(rt, alloc, options, source, sink, errors, outside, names),
    }
}

fn asked(alloc: Global, words: &[String]) -> Result<Asked, AllocError>
    ensures options { IfOk result (λ asked. options_asked asked ≡ client_options words.now) }
    ensures fit { IfOk result AskedFit }
    ensures shows { IfOk result (λ asked. ShowsWhatIsAsked (client_findings words.now) (shows_text asked)) }
{
    let Some(first) = words.first() else {
        return Ok(Asked::Nothing);
    };
    if first.as_str() == "client" {
        return read_client_options(alloc, words);
    }
    Ok(Asked::Nothing)
}

// Runs a client as the options have it.
fn ask<R, I, K, E, N, C, B, P, M>(
    rt: &R,
    alloc: Global,
    options: ClientOptions,
    source: &mut I,
    sink: &mut K,
    errors: &mut E,
    outside: &mut Outside<N, C, B, P>,
    names: &mut M,
) -> u8
where
    R: Wait + Threads + Copy + Send + Drop + 'static,
    I: Source + Ready,
    K: Sink,
    E: Sink,
    N: Network + Send + Drop + 'static,
    N::Link: Send + Drop + 'static,
    C: Clock + Send + Drop + 'static,
    B: Bell + Send + Drop + 'static,
    P: Spawner,
    M: Names,
    requires { Fits options }
    ensures statuses { Contains (0 ∷ 3 ∷ 4 ∷ 5 ∷ 6 ∷ 7 ∷ 8 ∷ 9 ∷ 13 ∷ 14 ∷ []) result }
    ensures read_fault { result ≡ 4 → HasRisen (I.faults source.old) (I.faults source.new) }
    ensures write_fault { result ≡ 5 → HasRisen (K.faults sink.old) (K.faults sink.new) }
    ensures net_fault { result ≡ 7 → HasRisen (N.counts outside.old.net).faults (N.counts outside.new.net).faults }
    ensures spawn_fault { result ≡ 8 → HasRisen (P.refusals outside.old.spawner) (P.refusals outside.new.spawner) }
    ensures bad { result ≡ 3 → HasBad options (I.left source.old) (sunk_of (K.given sink.old) (K.faults sink.old)) (sunk_of (K.given sink.new) (K.faults sink.new)) }
    ensures done { result ≡ 0 → Ended options (I.left source.old) (N.counts outside.old.net) (N.counts outside.new.net)
        (sunk_of (K.given sink.old) (K.faults sink.old)) (sunk_of (K.given sink.new) (K.faults sink.new)) [] IsDone }
    ensures ended { result ≡ 9 → EndedBadly options (I.left source.old) (N.counts outside.old.net) (N.counts outside.new.net)
        (sunk_of (K.given sink.old) (K.faults sink.old)) (sunk_of (K.given sink.new) (K.faults sink.new)) }
    ensures failed { Contains (4 ∷ 7 ∷ 8 ∷ 13 ∷ []) result → Tells options false (sunk_of (K.given sink.old) (K.faults sink.old)) (sunk_of (K.given sink.new) (K.faults sink.new)) [] }
    ensures refusals { result ≡ 13 → IsRefused (N.counts outside.old.net) (N.counts outside.new.net) (E.given errors.old) (E.given errors.new) }
    ensures stuck { result ≡ 14 → EndedStuck options (I.left source.old) (N.counts outside.old.net) (N.counts outside.new.net) (sunk_of (K.given sink.old) (K.faults sink.old)) (sunk_of (K.given sink.new) (K.faults sink.new)) (E.given errors.old) (E.given errors.new) }
{
    let ClientOptions {
        port,
        to,
        first,
        wait,
        hold,
    } = options;
    let first = first_rid(first, names);
    let setup = ClientSetup {
        first,
        to,
        wait,
        hold,
        ack: true,
        seed: Text::from_vec(Vec::new(alloc)),
        keys: 0,
    };
    let (gate, pass) = match new_gate(alloc, setup) {
        Ok(made) => made,
        Err(AllocError) => return tell_no_memory(errors),
    };
    let mut pass = pass;
    let place = Place {
        alloc,
        gate: &gate,
        port,
    };
    match run_client(rt, &place, &mut pass, source, sink, outside) {
        Ok(ran) => {
            tell_why(alloc, errors, ran);
            tell_ran(alloc, sink, ran)
        }
        Err(AllocError) => tell_no_memory(errors),
    }
}

fn first_rid<M: Names>(first: First, names: &mut M) -> Rid
    ensures { IsFirst first result }
{
    match first {
        First::Drawn => names.first_rid(),
        First::Given(rid) => rid,
    }
}

// A new client behind a gate. The only error is want of memory.
fn new_gate(
    alloc: Global,
    setup: ClientSetup,
) -> Result<(Arc<Gate<ClientObject>>, Pass<ClientObject>), AllocError>
    requires { is_setup setup ≡ true }
    ensures pass { IfOk result (λ made. IsPassOf (arc_value made.0) made.1) }
    ensures known { IfOk result (λ made. known made.1 ≡ begun setup) }
{
    let object = ClientObject::new(alloc, setup)?;
    let (gate, pass) = match Gate::new(alloc, object) {
        Ok(made) => made,
        Err(_) => return Err(AllocError),
    };
    let gate = match Arc::new(alloc, gate) {
        Ok(gate) => gate,
        Err(_) => return Err(AllocError),
    };
    Ok((gate, pass))
}

// The status of how a client ran. A bad line and a condition are told.
fn tell_ran<K: Sink>(alloc: Global, sink: &mut K, ran: ClientRan) -> u8
    ensures statuses { Contains (status_of ran ∷ 5 ∷ 6 ∷ []) result }
    ensures fault { result ≡ 5 → status_of ran ≢ 5 → HasRisen (K.faults sink.old) (K.faults sink.new) }
    ensures never_falls { K.faults sink.old ≤ K.faults sink.new }
    ensures bad { (line : ℕ) → ran ≡ ClientRan.Bad line → result ≡ 3 → Appends (K.given sink.old) (K.given sink.new) (bad_line line) }
    ensures ended { (condition : _) → ran ≡ ClientRan.Ended condition → result ≡ 9 → Appends (K.given sink.old) (K.given sink.new) (ended_line condition) }
    ensures quiet { is_told ran ≡ false → sink.new ≡ sink.old }
{
    match ran {
        ClientRan::Done => DONE,
        ClientRan::SpawnFault => SPAWN_FAULT,
        ClientRan::NetFault => NET_FAULT,
        ClientRan::Refused { .. } => REFUSED,
        ClientRan::Stuck => STUCK,
        ClientRan::ReadFault => READ_FAULT,
        ClientRan::WriteFault => WRITE_FAULT,
        ClientRan::Bad { line } => tell_bad(alloc, sink, line),
        ClientRan::Ended(condition) => tell_ended(alloc, sink, condition),
    }
}

fn tell_bad<K: Sink>(alloc: Global, sink: &mut K, line: u64) -> u8
    ensures statuses { Contains (3 ∷ 5 ∷ 6 ∷ []) result }
    ensures given { result ≡ 3 → Appends (K.given sink.old) (K.given sink.new) (bad_line line) }
    ensures fault { result ≡ 5 → HasRisen (K.faults sink.old) (K.faults sink.new) }
    ensures never_falls { K.faults sink.old ≤ K.faults sink.new }
{
    let text = match bad_line(alloc, line) {
        Ok(text) => text,
        Err(AllocError) => return NO_MEMORY,
    };
    match give_all(sink, &text) {
        Ok(()) => BAD_SCRIPT,
        Err(_) => WRITE_FAULT,
    }
}

fn tell_ended<K: Sink>(alloc: Global, sink: &mut K, condition: Condition) -> u8
    ensures statuses { Contains (9 ∷ 5 ∷ 6 ∷ []) result }
    ensures given { result ≡ 9 → Appends (K.given sink.old) (K.given sink.new) (ended_line condition) }
    ensures fault { result ≡ 5 → HasRisen (K.faults sink.old) (K.faults sink.new) }
    ensures never_falls { K.faults sink.old ≤ K.faults sink.new }
{
    let text = match ended_line(alloc, condition) {
        Ok(text) => text,
        Err(AllocError) => return NO_MEMORY,
    };
    match give_all(sink, &text) {
        Ok(()) => ENDED,
        Err(_) => WRITE_FAULT,
    }
}

fn bad_line(alloc: Global, line: u64) -> Result<Vec<u8>, AllocError>
    ensures { IfOk result (λ text. text.items ≡ bad_line line) }
{
    let mut text = Vec::from_slice(alloc, b"bad ")?;
    let digits = line.to_string(alloc)?;
    text.extend_from_slice(digits.as_bytes())?;
    text.extend_from_slice(bad_kind(line))?;
    Ok(text)
}

fn bad_kind(line: u64) -> &'static [u8]
    ensures { result.now ≡ bad_kind line }
{
    if line > MOST_LINES {
        return b" count\n";
    }
    b" grammar\n"
}

fn ended_line(alloc: Global, condition: Condition) -> Result<Vec<u8>, AllocError>
    ensures { IfOk result (λ text. text.items ≡ ended_line condition) }
{
    let mut text = Vec::from_slice(alloc, b"ended ")?;
    text.extend_from_slice(condition.name().as_bytes())?;
    text.push(b'\n')?;
    Ok(text)
}

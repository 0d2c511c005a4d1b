// What the command `serve` does over what it is handed.
ghost use Rattle.std.specs.Prelude.{◌≡◌, ◌≢◌, ◌≤◌, [], ◌∷◌, Contains, IfOk, IfSome, IsSome, None, codes, false, option_map};
ghost use Rattle.std.specs.Io.KnownBytes.{Appends};
ghost use Rattle.bosh_ports.specs.Faults.{HasRisen};
ghost use Rattle.bosh_commands.specs.Options.{Asks, MayAsk, ShowsWhatIsAsked, ends_with_input, is_shown, options_wanted, serve_findings, serve_options};
ghost use Rattle.bosh_commands.specs.ServeCommand.{Served, served_line};
ghost use Rattle.bosh_server.specs.Behind.{IsService, stands_of};
ghost use Rattle.bosh_server.specs.Fates.{site_of};
ghost use Rattle.session_pump.specs.Pumping.{pumping_of};

use crate::input_end::tell_end;
use crate::options::{ServeOptions, Wanted, read_options};
use crate::run::{DONE, NO_MEMORY, WRITE_FAULT, WRONG_WORDS};
use bosh_ports::{Bell, Polled, Sink, give_all};
use bosh_server::{Outside, Ran, Roll, put_pump, run_workers};
use client_run::Ready;
use connection_loops::Pollers;
use server_ports::{Clock, Names, Network, Opened, Spawner};
use session_pump::Host;
use std::alloc::{AllocError, Global};
use std::sync::Wait;
use std::thread::Threads;
use xmpp_backend::Backend;

/// The network failed.
pub const NET_FAULT: u8 = 7;
/// A thread could not be started.
pub const SPAWN_FAULT: u8 = 8;

/// Runs the command that the words name and answers the program's status. `serve` serves these hosts at its port, writes
/// `serving` to the sink once that takes connections, and how many it served at the end. Where the port can't be had a line of
/// `errors` says so. Where the words say that it ends with its input, the network is to stop at the end of that, or where it
/// fails; a fault of it is then answered once all else is done.
pub fn run_serve_command<R, I, K, E, N, L, C, B, S, M, Q, H>(
    rt: &R,
    alloc: Global,
    words: &[String],
    input: &mut I,
    sink: &mut K,
    errors: &mut E,
    outside: &mut Outside<N, C, B, S, M, Q, L, H>,
    hosts: Vec<Host<H>>,
) -> u8
where
    R: Wait + Threads + Copy + Send + Drop + 'static,
    I: Ready,
    K: Sink,
    E: Sink,
    N: Network<Link = L>,
    L: Polled + Send + Drop + 'static,
    C: Clock + Send + Drop + 'static,
    B: Bell + Send + Drop + 'static,
    S: Spawner,
    M: Names + Send + Drop + 'static,
    Q: Pollers<L>,
    Q::Poller: Send + Drop + 'static,
    Q::Rouse: Send + Sync + Drop + 'static,
    H: Backend + Send + 'static,
    ensures statuses { Contains (0 ∷ 2 ∷ 4 ∷ 5 ∷ 6 ∷ 7 ∷ 8 ∷ []) result }

    // A count of faults rises with the status that names it, and with no other.
    ensures net_fault { result ≡ 7 → HasRisen (N.counts outside.old.net).faults (N.counts outside.new.net).faults }
    ensures net_counts { result ≢ 7 → (N.counts outside.new.net).faults ≡ (N.counts outside.old.net).faults }
    ensures spawn_fault { result ≡ 8 → HasRisen (S.refusals outside.old.spawner) (S.refusals outside.new.spawner) }
    ensures spawn_counts { result ≢ 8 → S.refusals outside.new.spawner ≡ S.refusals outside.old.spawner }
    ensures write_fault { result ≡ 5 → HasRisen (K.faults sink.old) (K.faults sink.new) }
    ensures write_counts { result ≢ 5 → K.faults sink.new ≡ K.faults sink.old }

    // Words that say how to serve have another status than 2, and with 0 they were served so.
    ensures read_fault { result ≡ 4 → HasRisen (I.faults input.old) (I.faults input.new) }
    ensures read_counts { result ≢ 4 → I.faults input.new ≡ I.faults input.old }

    // The input is looked at only where the words say that the server ends with it, and what it says is not kept.
    ensures unread { ends_with_input (serve_options words.now) ≡ false → input.new ≡ input.old }

    ensures accepted { IsSome (serve_options words.now) → result ≢ 2 }
    ensures done { result ≡ 0 → IfSome (serve_options words.now) (λ options. Served options.plan.connections (N.counts outside.old.net) (N.counts outside.new.net) (K.given sink.old) (K.given sink.new)) }
    ensures failed { result ≡ 4 → IfSome (serve_options words.now) (λ options. Served options.plan.connections (N.counts outside.old.net) (N.counts outside.new.net) (K.given sink.old) (K.given sink.new)) }

    // What became of each link that was accepted: each stands in the roll, and what is said of it there is true. What its hosts had to do
    // with sessions: the pump began with them, and stands so at the end; it is there where links were served.
    ensures service { IfSome (serve_options words.now) (λ options. ∥ IsService L.Polled.left L.Polled.given L.Polled.closed L.Polled.faults
        (site_of hosts.items options.plan.limits (C.moment outside.old.clock)) (stands_of H.told H.counts hosts.items)
        (N.counts outside.old.net) (N.counts outside.new.net) outside.new.roll (option_map (pumping_of H.told H.counts) outside.new.pump) ∥₁) }
    ensures pump { result ≡ 0 → IfSome (serve_options words.now) (λ options. IsSome outside.new.pump) }
    ensures pump_too { result ≡ 4 → IfSome (serve_options words.now) (λ options. IsSome outside.new.pump) }

    // Other words have the status 2, but for want of memory, where they don't ask for help or the version; where they ask for
    // just that, they have another.
    ensures refused { serve_options words.now ≡ None → (MayAsk (serve_findings words.now) → ⊥) → Contains (2 ∷ 6 ∷ []) result }
    ensures asked { Asks (serve_findings words.now) → result ≢ 2 }

    // Other words serve nobody, and with 2 nothing is written.
    ensures unserved { serve_options words.now ≡ None → (outside.new.net ≡ outside.old.net) × (outside.new.spawner ≡ outside.old.spawner) }
    ensures unwritten { result ≡ 2 → sink.new ≡ sink.old }
{
    outside.roll = Roll::new();
    put_pump(&mut outside.pump, None);
    match wanted(alloc, words) {
        Err(AllocError) => NO_MEMORY,
        Ok(Wanted::Nothing) => WRONG_WORDS,
        Ok(Wanted::Shown(text)) => status_given(sink, text.as_bytes()),
        Ok(Wanted::Serve(options)) => {
            serve(rt, alloc, &options, input, sink, errors, outside, hosts)
        }
    }
}

/// How the words say to serve, where they do. The only error is want of memory.
pub fn options_to_serve(alloc: Global, words: &[String]) -> Result<Option<ServeOptions>, AllocError>
    ensures { IfOk result (λ options. options ≡ serve_options words.now) }
{
    match wanted(alloc, words)? {
        Wanted::Serve(options) => Ok(Some(options)),
        Wanted::Shown(_) | Wanted::Nothing => Ok(None),
    }
}

fn wanted(alloc: Global, words: &[String]) -> Result<Wanted, AllocError>
    ensures options { IfOk result (λ wanted. options_wanted wanted ≡ serve_options words.now) }
    ensures shows { IfOk result (λ wanted. ShowsWhatIsAsked (serve_findings words.now) (is_shown wanted)) }
{
    let Some(first) = words.first() else {
        return Ok(Wanted::Nothing);
    };
    if first.as_str() == "serve" {
        return read_options(alloc, words);
    }
    Ok(Wanted::Nothing)
}

// Gives this text, and answers the status of that.
pub(crate) fn status_given<K: Sink>(sink: &mut K, text: &[u8]) -> u8
    ensures statuses { Contains (0 ∷ 5 ∷ []) result }
    ensures given { result ≡ 0 → Appends (K.given sink.old) (K.given sink.new) text.now }
    ensures fault { result ≡ 5 → HasRisen (K.faults sink.old) (K.faults sink.new) }
    ensures counts { result ≢ 5 → K.faults sink.new ≡ K.faults sink.old }
    ensures never_falls { K.faults sink.old ≤ K.faults sink.new }
{
    match give_all(sink, text) {
        Ok(()) => DONE,
        Err(_) => WRITE_FAULT,
    }
}

// Serves these hosts as the options have it.
fn serve<R, I, K, E, N, L, C, B, S, M, Q, H>(
    rt: &R,
    alloc: Global,
    options: &ServeOptions,
    input: &mut I,
    sink: &mut K,
    errors: &mut E,
    outside: &mut Outside<N, C, B, S, M, Q, L, H>,
    hosts: Vec<Host<H>>,
) -> u8
where
    R: Wait + Threads + Copy + Send + Drop + 'static,
    I: Ready,
    K: Sink,
    E: Sink,
    N: Network<Link = L>,
    L: Polled + Send + Drop + 'static,
    C: Clock + Send + Drop + 'static,
    B: Bell + Send + Drop + 'static,
    S: Spawner,
    M: Names + Send + Drop + 'static,
    Q: Pollers<L>,
    Q::Poller: Send + Drop + 'static,
    Q::Rouse: Send + Sync + Drop + 'static,
    H: Backend + Send + 'static,
    requires roll { outside.old.roll ≡ [] }
    requires no_pump { outside.old.pump ≡ None }
    ensures statuses { Contains (0 ∷ 4 ∷ 5 ∷ 6 ∷ 7 ∷ 8 ∷ []) result }
    ensures net_fault { result ≡ 7 → HasRisen (N.counts outside.old.net).faults (N.counts outside.new.net).faults }
    ensures net_counts { result ≢ 7 → (N.counts outside.new.net).faults ≡ (N.counts outside.old.net).faults }
    ensures spawn_fault { result ≡ 8 → HasRisen (S.refusals outside.old.spawner) (S.refusals outside.new.spawner) }
    ensures spawn_counts { result ≢ 8 → S.refusals outside.new.spawner ≡ S.refusals outside.old.spawner }
    ensures write_fault { result ≡ 5 → HasRisen (K.faults sink.old) (K.faults sink.new) }
    ensures write_counts { result ≢ 5 → K.faults sink.new ≡ K.faults sink.old }
    ensures read_fault { result ≡ 4 → HasRisen (I.faults input.old) (I.faults input.new) }
    ensures read_counts { result ≢ 4 → I.faults input.new ≡ I.faults input.old }
    ensures unread { options.now.until_eof ≡ false → input.new ≡ input.old }
    ensures done { result ≡ 0 → Served options.now.plan.connections (N.counts outside.old.net) (N.counts outside.new.net) (K.given sink.old) (K.given sink.new) }
    ensures failed { result ≡ 4 → Served options.now.plan.connections (N.counts outside.old.net) (N.counts outside.new.net) (K.given sink.old) (K.given sink.new) }
    ensures service { ∥ IsService L.Polled.left L.Polled.given L.Polled.closed L.Polled.faults
        (site_of hosts.items options.now.plan.limits (C.moment outside.old.clock)) (stands_of H.told H.counts hosts.items)
        (N.counts outside.old.net) (N.counts outside.new.net) outside.new.roll (option_map (pumping_of H.told H.counts) outside.new.pump) ∥₁ }
    ensures pump { result ≡ 0 → IsSome outside.new.pump }
    ensures pump_too { result ≡ 4 → IsSome outside.new.pump }
{
    match outside.net.listen(options.port) {
        Opened::Ready => {}
        Opened::Failed => {
            complain(alloc, errors, options.port);
            return NET_FAULT;
        }
    }
    match give_all(sink, b"serving\n") {
        Ok(()) => {}
        Err(_) => return WRITE_FAULT,
    }
    match run_workers(rt, alloc, outside, &options.plan, hosts) {
        Err(AllocError) => NO_MEMORY,
        Ok(Ran::NetFault) => NET_FAULT,
        Ok(Ran::SpawnFault) => SPAWN_FAULT,
        Ok(Ran::Done { connections }) => {
            tell_end(rt, alloc, options.until_eof, input, sink, connections)
        }
    }
}

// Tells how many links were served.
pub(crate) fn tell_served<K: Sink>(alloc: Global, sink: &mut K, links: u32) -> u8
    ensures statuses { Contains (0 ∷ 5 ∷ 6 ∷ []) result }
    ensures given { result ≡ 0 → Appends (K.given sink.old) (K.given sink.new) (served_line links) }
    ensures fault { result ≡ 5 → HasRisen (K.faults sink.old) (K.faults sink.new) }
    ensures counts { result ≢ 5 → K.faults sink.new ≡ K.faults sink.old }
    ensures never_falls { K.faults sink.old ≤ K.faults sink.new }
{
    match served_line(alloc, links) {
        Ok(line) => status_given(sink, &line),
        Err(AllocError) => NO_MEMORY,
    }
}

fn served_line(alloc: Global, links: u32) -> Result<Vec<u8>, AllocError>
    ensures { IfOk result (λ line. line.items ≡ served_line links) }
{
    let mut line = Vec::from_slice(alloc, b"served ")?;
    let digits = links.to_string(alloc)?;
    line.extend_from_slice(digits.as_bytes())?;
    line.push(b'\n')?;
    Ok(line)
}

// Says that the port can't be had. What can't be said is not.
fn complain<E: Sink>(alloc: Global, errors: &mut E, port: u16) {
    if let Ok(text) = format!(in alloc;
        "serve: cannot listen at 127.0.0.1:{port}, which may be taken\n"
    ) {
        let _ = give_all(errors, text.as_bytes());
    }
}

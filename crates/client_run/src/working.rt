// A worker of a client, from its first dial to its end.
ghost use Rattle.std.specs.Prelude.{◌≡◌, ◌≢◌, ◌≤◌, ℕ, List, true, None, Option, Some, IfOk, IfSome, Ok};
ghost use Rattle.std.specs.Option.{option_map};
ghost use Rattle.bosh_ports.specs.Faults.{HasRisen};
ghost use Rattle.parked_gate.specs.Passes.{IsPassOf, Known, known};
ghost use Rattle.client_run.specs.declared.entry.Entry.{Entry};
ghost use Rattle.client_run.specs.Adding.{AddsOnly, is_of_worker};
ghost use Rattle.client_run.specs.Carried.{CarriesTold};
ghost use Rattle.client_run.specs.Worked.{FirstBy, Works, ended_by, failed_by, halted_by, has_read, is_fault};
ghost use Rattle.client_run.specs.Working.{Hand, Moves, Row, Setting, Side, no_hand, no_row, setting_of, side_of, wire_of};

use crate::asking::{ask, look};
use crate::carrying::{Halt, TRIES, dial};
use crate::fault::Fault;
use crate::line::Line;
use crate::object::ClientObject;
use crate::repeating::carry_all;
use crate::site::Site;
use crate::worked::Worked;
use bosh_client::{ClientEnd, Next};
use bosh_ports::{Bell, BellKey, Woken};
use parked_gate::Pass;
use server_ports::{Clock, Network};
use std::alloc::{AllocError, Global};
use std::sync::Wait;

/// Sends what the client has to send, and gives it the answers, until it ended. It dials until it has a link, at most three
/// times, and a new one for the next body after a link ended or failed; each of its links is retired. A link that failed or
/// gave no answer is followed by a copy of the same bytes on a new one. An answer that is an error is followed by a copy of each request
/// without an answer, from the lowest to that which it answers, in order and each once the one before it has its answer; only then
/// the next request is asked for. A fault is answered once three came in a row for one request, and `Refused` once three responses to one
/// had another status than 200. Where nothing is due it waits at the bell. The only error is want of memory.
pub fn work<R: Wait, N: Network, C: Clock, B: Bell>(
    rt: &R,
    site: &Site<'_, C>,
    pass: &mut Pass<ClientObject>,
    network: &mut N,
    bell: &mut B,
) -> Result<Worked, AllocError>
where
    N::Link: Drop,
    requires { IsPassOf site.now.gate.now pass.old }
    ensures pass { IsPassOf site.now.gate.now pass.new }

    // It made moves one after the other, with no link out in the end, and ended so.
    ensures works { Works (setting_of (C.moment site.now.clock.now) site.now.port) (side_of (known pass.old) (N.events network.old) (N.counts network.old) None no_hand no_row)
        (known pass.new) (N.events network.new) (N.counts network.new) None result }
    ensures fault { IfOk result (λ worked. is_fault worked ≡ true → HasRisen (N.counts network.old).faults (N.counts network.new).faults) }
    ensures dialled { IfOk result (λ worked. has_read worked ≡ true → HasRisen (N.counts network.old).dialled (N.counts network.new).dialled) }
    ensures refused { (status : ℕ) → result ≡ Ok (Worked.Refused status) → status ≢ 200 }
    ensures silent { IfOk result (λ worked. worked ≡ Worked.Silent → HasRisen (B.silences bell.old) (B.silences bell.new)) }
    ensures silences { B.silences bell.old ≤ B.silences bell.new }

    // What it added to its own entries is requests and answers.
    ensures adds { AddsOnly is_of_worker (known pass.old) (known pass.new) }

    // Where the network tells its events, its links carried requests of the client and the responses to them, and the answers that
    // were added are those that were read so.
    ensures carries { CarriesTold site.now.port (known pass.old) (known pass.new) (N.events network.old) (N.events network.new) }
{
    let first = match first_line(site.alloc, network, site.port) {
        Some(first) => first,
        None => return Ok(Worked::DialFault),
    };
    let mut line = Some(first);
    let worked = serve(rt, site, pass, network, bell, &mut line);
    close(network, line);
    worked
}

// A first link, at the third dial at last.
fn first_line<N: Network>(alloc: Global, network: &mut N, port: u16) -> Option<Line<N::Link>>
where
    N::Link: Drop,
    ensures dials { (moment : Option ℕ) (start : Side) (known : Known Entry) (hand : Hand)
        → Moves (setting_of moment port) start (side_of known (N.events network.old) (N.counts network.old) None hand no_row)
        → FirstBy (λ line. wire_of (N.Link.left line.link) (N.Link.given line.link) line.reader) (setting_of moment port) start
        (side_of known (N.events network.new) (N.counts network.new) None hand no_row) result }
    ensures faultless { IfSome result (λ line. N.Link.faults line.link ≡ 0) }
{
    let mut row: u32 = 0;
    while row < TRIES {
        match dial(alloc, network, port) {
            Some(line) => return Some(line),
            None => row += 1,
        }
    }
    None
}

// Retires the link that is out, if one is.
fn close<N: Network>(network: &mut N, line: Option<Line<N::Link>>)
where
    N::Link: Drop,
    requires { IfSome line (λ line. N.Link.faults line.link ≡ 0) }
    ensures closes { (setting : Setting) (start : Side) (known : Known Entry) (hand : Hand) (row : Row)
        → Moves setting start (side_of known (N.events network.old) (N.counts network.old) (option_map (λ line. wire_of (N.Link.left line.link) (N.Link.given line.link) line.reader) line) hand row)
        → Moves setting start (side_of known (N.events network.new) (N.counts network.new) None hand row) }
{
    match line {
        Some(line) => network.retire(line.into_link()),
        None => {}
    }
}

// Serves the client over this link and those that follow it, until the worker ends.
fn serve<R: Wait, N: Network, C: Clock, B: Bell>(
    rt: &R,
    site: &Site<'_, C>,
    pass: &mut Pass<ClientObject>,
    network: &mut N,
    bell: &mut B,
    line: &mut Option<Line<N::Link>>,
) -> Result<Worked, AllocError>
where
    N::Link: Drop,
    requires pass { IsPassOf site.now.gate.now pass.old }
    requires faultless { IfSome line.old (λ line. N.Link.faults line.link ≡ 0) }
    ensures pass { IsPassOf site.now.gate.now pass.new }
    ensures works { (start : Side) (row : Row)
        → Moves (setting_of (C.moment site.now.clock.now) site.now.port) start (side_of (known pass.old) (N.events network.old) (N.counts network.old) (option_map (λ line. wire_of (N.Link.left line.link) (N.Link.given line.link) line.reader) line.old) no_hand row)
        → Works (setting_of (C.moment site.now.clock.now) site.now.port) start (known pass.new) (N.events network.new) (N.counts network.new) (option_map (λ line. wire_of (N.Link.left line.link) (N.Link.given line.link) line.reader) line.new) result }
    ensures faultless { IfSome line.new (λ line. N.Link.faults line.link ≡ 0) }
    ensures silent { IfOk result (λ worked. worked ≡ Worked.Silent → HasRisen (B.silences bell.old) (B.silences bell.new)) }
    ensures silences { B.silences bell.old ≤ B.silences bell.new }
{
    for _ in rt.forever() {
        bell.tune(BellKey::PUMP);
        let next = match ask(rt, site, pass) {
            Ok(next) => next,
            Err(AllocError) => return Err(AllocError),
        };
        match next {
            Next::Request { rid, body } => {
                match carry_all(rt, site, pass, network, bell, line, rid, &body) {
                    Ok(None) => {}
                    Ok(Some(halt)) => return Ok(halted_by(halt)),
                    Err(AllocError) => return Err(AllocError),
                }
            }
            Next::RidsSpent => return Ok(Worked::Done),
            Next::Nothing => {
                if let Some(end) = look(rt, site.gate, pass) {
                    return Ok(ended_by(end));
                }
                if bell.wait() == Woken::Silent {
                    return Ok(Worked::Silent);
                }
            }
        }
    }
    unreachable!()
}

fn halted_by(halt: Halt) -> Worked
    ensures { result ≡ halted_by halt }
{
    match halt {
        Halt::Fault(fault) => failed_by(fault),
        Halt::Refused(status) => Worked::Refused { status },
    }
}

fn failed_by(fault: Fault) -> Worked
    ensures { result ≡ failed_by fault }
{
    match fault {
        Fault::Dial => Worked::DialFault,
        Fault::Read => Worked::ReadFault,
        Fault::Write => Worked::WriteFault,
    }
}

fn ended_by(end: ClientEnd) -> Worked
    ensures { result ≡ ended_by end.condition }
{
    match end.condition {
        Some(condition) => Worked::Ended(condition),
        None => Worked::Done,
    }
}

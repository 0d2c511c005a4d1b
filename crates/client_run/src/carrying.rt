// One request is carried to the manager, and its answer back.
ghost use Rattle.std.specs.Prelude.{◌≡◌, ◌≤◌, ◌∷◌, ◌<◌, ℕ, List, None, Option, Some, IfOk, IfSome};
ghost use Rattle.std.specs.Option.{option_map};
ghost use Rattle.parked_gate.specs.Passes.{IsPassOf, Known, known};
ghost use Rattle.client_run.specs.declared.entry.Entry.{Entry};
ghost use Rattle.client_run.specs.Worked.{CarriesBy, CarriesUpTo, IfSettled, TriesBy, TriesUpTo, row_after};
ghost use Rattle.client_run.specs.Working.{Exchanges, Hand, Moves, Row, Side, Wire, holding, no_row, owing, setting_of, side_of, wire_of};

use crate::asking::give;
use crate::fault::Fault;
use crate::line::{Heard, Line};
use crate::object::ClientObject;
use crate::site::Site;
use bosh_client::Answered;
use bosh_ports::{Bell, BellKey};
use bosh_types::{Rid, SharedText, Text};
use parked_gate::Pass;
use server_ports::{Clock, Dialled, Network};
use std::alloc::{AllocError, Global};
use std::sync::Wait;

/// How many faults in a row are one too many, and how many responses with another status than 200.
pub(crate) const TRIES: u32 = 3;

/// What came of one try.
#[derive(Drop)]
pub(crate) enum Tried<L> {
    /// The answer was taken, and the link can go on.
    Settled(Line<L>),
    /// The answer was an error, which asks for these ids again, and the link can go on.
    Again {
        line: Line<L>,
        first: Rid,
        last: Rid,
    },
    /// A response with status 200 came whose body is no answer.
    Broken,
    /// No response came, and nothing failed.
    Nothing,
    /// A response with this other status came.
    Refused(u16),
    Fault(Fault),
}

/// What came of all tries for one request.
#[derive(Clone, Copy, Debug, PartialEq, Eq)]
pub(crate) enum Carried {
    /// Its answer was taken.
    Taken,
    /// Its answer was an error: a copy of each request without an answer from the first of these ids to the last is to be sent.
    Again { first: Rid, last: Rid },
    /// It is given up.
    Halted(Halt),
}

/// Why a request is given up.
#[derive(Clone, Copy, Debug, PartialEq, Eq)]
pub(crate) enum Halt {
    /// The third fault in a row.
    Fault(Fault),
    /// The third response in a row with another status than 200.
    Refused(u16),
}

/// Dials a link.
pub(crate) fn dial<N: Network>(alloc: Global, network: &mut N, port: u16) -> Option<Line<N::Link>>
    ensures dials { (moment : Option ℕ) (start : Side) (known : Known Entry) (hand : Hand) (row : Row)
        → Moves (setting_of moment port) start (side_of known (N.events network.old) (N.counts network.old) None hand row)
        → Moves (setting_of moment port) start (side_of known (N.events network.new) (N.counts network.new)
        (option_map (λ line. wire_of (N.Link.left line.link) (N.Link.given line.link) line.reader) result) hand (row_after result row)) }
    ensures faultless { IfSome result (λ line. N.Link.faults line.link ≡ 0) }
{
    match network.dial(port) {
        Dialled::Link(link) => Some(Line::new(alloc, link)),
        Dialled::Failed => None,
    }
}

// A link to send a request on: the one that is out, or a new one.
fn open<N: Network>(
    alloc: Global,
    network: &mut N,
    port: u16,
    line: Option<Line<N::Link>>,
) -> Option<Line<N::Link>>
where
    N::Link: Drop,
    requires { IfSome line (λ line. N.Link.faults line.link ≡ 0) }
    ensures opens { (moment : Option ℕ) (start : Side) (known : Known Entry) (hand : Hand) (row : Row)
        → Moves (setting_of moment port) start (side_of known (N.events network.old) (N.counts network.old)
        (option_map (λ line. wire_of (N.Link.left line.link) (N.Link.given line.link) line.reader) line) hand row)
        → Moves (setting_of moment port) start (side_of known (N.events network.new) (N.counts network.new)
        (option_map (λ line. wire_of (N.Link.left line.link) (N.Link.given line.link) line.reader) result) hand (row_after result row)) }
    ensures faultless { IfSome result (λ line. N.Link.faults line.link ≡ 0) }
{
    match line {
        Some(line) => Some(line),
        None => dial(alloc, network, port),
    }
}

/// Tries once to get an answer to the request at hand, and gives it to the client. A link on which no answer came is retired.
/// The only error is want of memory.
fn try_once<R: Wait, N: Network, C: Clock>(
    rt: &R,
    site: &Site<'_, C>,
    pass: &mut Pass<ClientObject>,
    network: &mut N,
    line: Option<Line<N::Link>>,
    rid: Rid,
    body: &SharedText,
) -> Result<Tried<N::Link>, AllocError>
where
    N::Link: Drop,
    requires pass { IsPassOf site.now.gate.now pass.old }
    requires faultless { IfSome line (λ line. N.Link.faults line.link ≡ 0) }
    ensures pass { IsPassOf site.now.gate.now pass.new }
    ensures tries { (start : Side) (again : List ℕ) (row : Row)
        → Moves (setting_of (C.moment site.now.clock.now) site.now.port) start (side_of (known pass.old) (N.events network.old) (N.counts network.old)
        (option_map (λ line. wire_of (N.Link.left line.link) (N.Link.given line.link) line.reader) line) (holding rid body.now again) row)
        → TriesBy (λ line. wire_of (N.Link.left line.link) (N.Link.given line.link) line.reader) (setting_of (C.moment site.now.clock.now) site.now.port) start
        (side_of (known pass.new) (N.events network.new) (N.counts network.new) None (holding rid body.now again) row) result }
    ensures names { IfOk result (TriesUpTo rid) }
    ensures faultless { IfOk result (λ tried. IfSettled tried (λ line. N.Link.faults line.link ≡ 0)) }
{
    let Some(line) = open(site.alloc, network, site.port, line) else {
        return Ok(Tried::Fault(Fault::Dial));
    };
    let mut line = line;
    match line.exchange(site.alloc, body.as_slice()) {
        Heard::Body(answer) => take(rt, site, pass, network, line, rid, answer),
        Heard::Refused(status) => {
            network.retire(line.into_link());
            Ok(Tried::Refused(status))
        }
        Heard::Nothing => {
            network.retire(line.into_link());
            Ok(Tried::Nothing)
        }
        Heard::Fault(fault) => {
            network.retire(line.into_link());
            Ok(Tried::Fault(fault))
        }
        Heard::NoMemory => {
            network.retire(line.into_link());
            Err(AllocError)
        }
    }
}

// Gives the client the answer that was read on this link.
fn take<R: Wait, N: Network, C: Clock>(
    rt: &R,
    site: &Site<'_, C>,
    pass: &mut Pass<ClientObject>,
    network: &mut N,
    line: Line<N::Link>,
    rid: Rid,
    answer: Text,
) -> Result<Tried<N::Link>, AllocError>
where
    N::Link: Drop,
    requires pass { IsPassOf site.now.gate.now pass.old }
    requires faultless { N.Link.faults line.link ≡ 0 }
    ensures pass { IsPassOf site.now.gate.now pass.new }
    ensures tries { (start : Side) (old : Wire) (body again : List ℕ) (row : Row)
        → Exchanges old (wire_of (N.Link.left line.link) (N.Link.given line.link) line.reader) body answer
        → Moves (setting_of (C.moment site.now.clock.now) site.now.port) start (side_of (known pass.old) (N.events network.old) (N.counts network.old) (Some old) (holding rid body again) row)
        → TriesBy (λ line. wire_of (N.Link.left line.link) (N.Link.given line.link) line.reader) (setting_of (C.moment site.now.clock.now) site.now.port) start
        (side_of (known pass.new) (N.events network.new) (N.counts network.new) None (holding rid body again) row) result }
    ensures names { IfOk result (TriesUpTo rid) }
    ensures faultless { IfOk result (λ tried. IfSettled tried (λ line. N.Link.faults line.link ≡ 0)) }
{
    match give(rt, site, pass, rid, answer) {
        Ok(answered) => match answered {
            Answered::Broken(_) => {
                network.retire(line.into_link());
                Ok(Tried::Broken)
            }
            Answered::Again { first, last } => Ok(Tried::Again { line, first, last }),
            Answered::Done => Ok(Tried::Settled(line)),
            Answered::Unmade => Ok(Tried::Settled(line)),
            Answered::Stale => Ok(Tried::Settled(line)),
        },
        Err(AllocError) => {
            network.retire(line.into_link());
            Err(AllocError)
        }
    }
}

/// Sends the request at hand until its answer was given to the client, and was no broken one. Each copy is the same bytes, on a new
/// link. It is given up at the third fault in a row, and at the third response in a row with another status than 200; a response with
/// status 200 begins that row anew. Where no answer came and nothing failed, the next copy waits for the bell. An answer that was taken
/// rings it. The only error is want of memory.
pub(crate) fn carry<R: Wait, N: Network, C: Clock, B: Bell>(
    rt: &R,
    site: &Site<'_, C>,
    pass: &mut Pass<ClientObject>,
    network: &mut N,
    bell: &mut B,
    line: &mut Option<Line<N::Link>>,
    rid: Rid,
    body: &SharedText,
) -> Result<Carried, AllocError>
where
    N::Link: Drop,
    requires pass { IsPassOf site.now.gate.now pass.old }
    requires faultless { IfSome line.old (λ line. N.Link.faults line.link ≡ 0) }
    ensures pass { IsPassOf site.now.gate.now pass.new }
    ensures carries { (start : Side) (again : List ℕ)
        → Moves (setting_of (C.moment site.now.clock.now) site.now.port) start (side_of (known pass.old) (N.events network.old) (N.counts network.old)
        (option_map (λ line. wire_of (N.Link.left line.link) (N.Link.given line.link) line.reader) line.old) (holding rid body.now again) no_row)
        → CarriesBy (setting_of (C.moment site.now.clock.now) site.now.port) start
        (side_of (known pass.new) (N.events network.new) (N.counts network.new)
        (option_map (λ line. wire_of (N.Link.left line.link) (N.Link.given line.link) line.reader) line.new) (owing again) no_row) result }
    ensures names { IfOk result (CarriesUpTo rid) }
    ensures faultless { IfSome line.new (λ line. N.Link.faults line.link ≡ 0) }
    ensures silences { B.silences bell.old ≤ B.silences bell.new }
{
    let mut row: u32 = 0;
    let mut refusals: u32 = 0;
    let mut last: u16 = 0;
    for _ in rt.forever() {
        let tried = match try_once(rt, site, pass, network, line.take(), rid, body) {
            Ok(tried) => tried,
            Err(AllocError) => return Err(AllocError),
        };
        match tried {
            Tried::Settled(open) => {
                *line = Some(open);
                bell.ring(BellKey::PUMP);
                return Ok(Carried::Taken);
            }
            Tried::Again {
                line: open,
                first,
                last,
            } => {
                *line = Some(open);
                return Ok(Carried::Again { first, last });
            }
            Tried::Broken => {
                row = 0;
                refusals = 0;
                last = 0;
                pause(bell);
            }
            Tried::Nothing => {
                row = 0;
                pause(bell);
            }
            Tried::Refused(status) => {
                row = 0;
                refusals += 1;
                last = status;
                if refusals == TRIES {
                    return Ok(Carried::Halted(Halt::Refused(status)));
                }
                pause(bell);
            }
            Tried::Fault(fault) => {
                row += 1;
                if row == TRIES {
                    return Ok(Carried::Halted(Halt::Fault(fault)));
                }
            }
        }
    }
    unreachable!()
}

// Waits before the next copy.
fn pause<B: Bell>(bell: &mut B)
    ensures { B.silences bell.old ≤ B.silences bell.new }
{
    bell.tune(BellKey::PUMP);
    bell.wait();
}

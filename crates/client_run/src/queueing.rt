// The calls with which a stanza or a terminate is queued.
ghost use Rattle.std.specs.Prelude.{◌≡◌, ◌≤◌, IsTrue};
ghost use Rattle.body_cutter.specs.Cutting.{is_stanza};
ghost use Rattle.parked_gate.specs.Passes.{IsPassOf, known};
ghost use Rattle.client_run.specs.Queueing.{OffersBy, PutsBy, QueuesBy};

use crate::call::{Call, Reply};
use crate::object::ClientObject;
use bosh_client::Queued;
use bosh_ports::{Bell, BellKey};
use bosh_types::Text;
use parked_gate::{Gate, Pass};
use std::alloc::{AllocError, Global};
use std::sync::Wait;

/// Puts a stanza, and tells the workers. Where the queue is full it waits at the bell and tries again, silent or not: false where
/// the client takes no more. The only error is want of memory.
pub(crate) fn put<R: Wait, B: Bell>(
    rt: &R,
    alloc: Global,
    gate: &Gate<ClientObject>,
    pass: &mut Pass<ClientObject>,
    bell: &mut B,
    stanza: &[u8],
) -> Result<bool, AllocError>
    requires pass { IsPassOf gate.now pass.old }
    requires stanza { IsTrue (is_stanza stanza.now) }
    ensures pass { IsPassOf gate.now pass.new }
    ensures puts { PutsBy stanza.now (known pass.old) (known pass.new) result }
    ensures silences { B.silences bell.old ≤ B.silences bell.new }
{
    for _ in rt.forever() {
        bell.tune(BellKey::PUMP);
        let queued = match offer(rt, alloc, gate, pass, stanza) {
            Ok(queued) => queued,
            Err(AllocError) => return Err(AllocError),
        };
        match queued {
            Queued::Done => {
                bell.ring(BellKey::PUMP);
                return Ok(true);
            }
            Queued::Over => return Ok(false),
            Queued::Full => {
                bell.wait();
            }
            Queued::NoStream => unreachable!(),
            Queued::TooLong => unreachable!(),
        }
    }
    unreachable!()
}

/// Offers a copy of the stanza once. The only error is want of memory.
pub(crate) fn offer<R: Wait>(
    rt: &R,
    alloc: Global,
    gate: &Gate<ClientObject>,
    pass: &mut Pass<ClientObject>,
    stanza: &[u8],
) -> Result<Queued, AllocError>
    requires pass { IsPassOf gate.now pass.old }
    requires stanza { IsTrue (is_stanza stanza.now) }
    ensures pass { IsPassOf gate.now pass.new }
    ensures offers { OffersBy stanza.now (known pass.old) (known pass.new) result }
{
    let copy = Vec::from_slice(alloc, stanza)?;
    let stanza = Text::from_vec(copy);
    let reply = gate.call(rt, pass, Call::Put { stanza })?;
    Ok(queued_in(reply))
}

/// Queues a terminate, and tells the workers. It is `Over` where the client takes no more. The only error is want of memory.
pub(crate) fn terminate<R: Wait, B: Bell>(
    rt: &R,
    gate: &Gate<ClientObject>,
    pass: &mut Pass<ClientObject>,
    bell: &mut B,
) -> Result<Queued, AllocError>
    requires { IsPassOf gate.now pass.old }
    ensures pass { IsPassOf gate.now pass.new }
    ensures queues { QueuesBy Call.Terminate (known pass.old) (known pass.new) result }
    ensures silences { B.silences bell.new ≡ B.silences bell.old }
{
    let reply = gate.call(rt, pass, Call::Terminate)?;
    bell.ring(BellKey::PUMP);
    Ok(queued_in(reply))
}

fn queued_in(reply: Reply) -> Queued
    requires { (queued : Queued) × (reply ≡ Reply.Queued queued) }
    ensures { reply ≡ Reply.Queued result }
{
    match reply {
        Reply::Queued(queued) => queued,
        Reply::Next(_) => unreachable!(),
        Reply::Answered(_) => unreachable!(),
        Reply::HandOut(_) => unreachable!(),
    }
}

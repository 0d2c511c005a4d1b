// The calls with which a worker asks for requests, gives answers, and looks how the client ended.
ghost use Rattle.client_run.specs.Working.{NamesUpTo, setting_of};
ghost use Rattle.std.specs.Prelude.{◌≡◌, IfOk, MatchResult, Ok, Option, List, ℕ};
ghost use Rattle.parked_gate.specs.Passes.{IsPassOf, known};
ghost use Rattle.client_run.specs.Asking.{AnswersBy, AsksBy, CopiesBy, LooksBy};
ghost use Rattle.client_run.specs.Calls.{IsReplyTo};

use crate::call::{Answer, Call, Question, Reply};
use crate::object::ClientObject;
use crate::site::Site;
use bosh_client::{Answered, ClientEnd, Next};
use bosh_types::{Rid, Text};
use parked_gate::{Gate, Pass};
use server_ports::Clock;
use std::alloc::AllocError;
use std::sync::Wait;

/// Asks for the next request, at the clock's moment. The only error is want of memory.
pub(crate) fn ask<R: Wait, C: Clock>(
    rt: &R,
    site: &Site<'_, C>,
    pass: &mut Pass<ClientObject>,
) -> Result<Next, AllocError>
    requires { IsPassOf site.now.gate.now pass.old }
    ensures pass { IsPassOf site.now.gate.now pass.new }
    ensures asks { AsksBy (setting_of (C.moment site.now.clock.now) site.now.port) (known pass.old) (known pass.new) result }
{
    let now = site.clock.now();
    let reply = site.gate.call(rt, pass, Call::Next { now })?;
    Ok(next_in(reply))
}

/// Gives the answer to a request, at the clock's moment. The only error is want of memory.
pub(crate) fn give<R: Wait, C: Clock>(
    rt: &R,
    site: &Site<'_, C>,
    pass: &mut Pass<ClientObject>,
    rid: Rid,
    body: Text,
) -> Result<Answered, AllocError>
    requires { IsPassOf site.now.gate.now pass.old }
    ensures pass { IsPassOf site.now.gate.now pass.new }
    ensures answers { AnswersBy (setting_of (C.moment site.now.clock.now) site.now.port) rid body (known pass.old) (known pass.new) result }
    ensures names { IfOk result (NamesUpTo rid) }
{
    let now = site.clock.now();
    let reply = site.gate.call(rt, pass, Call::Answer { rid, body, now })?;
    Ok(answered_in(reply))
}

/// Asks for the bytes of a request that has no answer yet. The only error is want of memory.
pub(crate) fn copy_of<R: Wait>(
    rt: &R,
    gate: &Gate<ClientObject>,
    pass: &mut Pass<ClientObject>,
    rid: Rid,
) -> Result<Option<Text>, AllocError>
    requires { IsPassOf gate.now pass.old }
    ensures pass { IsPassOf gate.now pass.new }
    ensures copies { CopiesBy rid (known pass.old) (known pass.new) result }
{
    match gate.look(rt, pass, &Question::Copy { rid }) {
        Ok(Answer::Copy(body)) => Ok(body),
        Ok(Answer::Ended(_)) => unreachable!(),
        Err(AllocError) => Err(AllocError),
    }
}

/// Looks how the client ended, if it did.
pub(crate) fn look<R: Wait>(
    rt: &R,
    gate: &Gate<ClientObject>,
    pass: &mut Pass<ClientObject>,
) -> Option<ClientEnd>
    requires { IsPassOf gate.now pass.old }
    ensures pass { IsPassOf gate.now pass.new }
    ensures looks { LooksBy (known pass.old) (known pass.new) result }
{
    match gate.look(rt, pass, &Question::Ended) {
        Ok(Answer::Ended(end)) => end,
        Ok(Answer::Copy(_)) => unreachable!(),
        Err(AllocError) => unreachable!(),
    }
}

fn next_in(reply: Reply) -> Next
    requires { (next : Next) × (reply ≡ Reply.Next next) }
    ensures { reply ≡ Reply.Next result }
{
    match reply {
        Reply::Next(next) => next,
        Reply::Queued(_) => unreachable!(),
        Reply::Answered(_) => unreachable!(),
        Reply::HandOut(_) => unreachable!(),
    }
}

fn answered_in(reply: Reply) -> Answered
    requires { (answered : Answered) × (reply ≡ Reply.Answered answered) }
    ensures { reply ≡ Reply.Answered result }
{
    match reply {
        Reply::Answered(answered) => answered,
        Reply::Queued(_) => unreachable!(),
        Reply::Next(_) => unreachable!(),
        Reply::HandOut(_) => unreachable!(),
    }
}

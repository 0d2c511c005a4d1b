// The lines of a script that tells of bodies, and of all else that comes to a manager.
ghost use Rattle.std.specs.Prelude.{IfOk, IsTrue};
ghost use Rattle.session_attrs.specs.Serving.{can_serve};
ghost use Rattle.script_text.specs.Manager.{Change, PlainManager};
ghost use Rattle.script_text.specs.Said.{IsSaid};
ghost use Rattle.script_text.specs.Script.{at_step, body_step, change_step, close_step, host_step, post_step, server_step};
ghost use Rattle.script_text.specs.Stands.{Does, IsChange, IsEvent, IsManager};

use crate::event::Event;
use crate::line::{BadKind, ScriptLine};
use crate::manager::{Changed, Manager, number_of};
use crate::report::{Refusal, ReportLine};
use crate::run::{Effect, Next, Run};
use bosh_types::{Moment, SharedText, Stanzas, Text};
use std::alloc::{AllocError, Global};

// What a line does to the manager.
pub(crate) fn body_effect(
    alloc: Global,
    manager: Manager,
    n: u64,
    said: ScriptLine,
) -> Result<Effect, AllocError>
    requires { IsSaid said }
    ensures { IfOk result (λ effect. (m : PlainManager) → IsManager manager m → Does effect (body_step m n said)) }
{
    match said {
        ScriptLine::Host { name, greeting } => add_host(alloc, manager, n, name, greeting),
        ScriptLine::At { moment } => pass(alloc, manager, n, moment),
        ScriptLine::Post { conn, body } => post(alloc, manager, n, conn, body),
        ScriptLine::Close { conn } => close(alloc, manager, n, conn),
        ScriptLine::Back {
            sid,
            stream,
            stanza,
        } => {
            let stanza = SharedText::new(alloc, stanza)?;
            let event = Event::Gives { stream, stanza };
            let session = manager.given(number_of(sid.as_slice()));
            serve(alloc, manager, n, session, event, Refusal::BackOver)
        }
        ScriptLine::Shut {
            sid,
            stream,
            closing,
        } => {
            let event = Event::Shuts { stream, closing };
            let session = manager.given(number_of(sid.as_slice()));
            serve(alloc, manager, n, session, event, Refusal::ShutOver)
        }
        ScriptLine::End => Effect::done(alloc, n),
        ScriptLine::Open { .. } => Effect::bad(alloc, n, BadKind::Grammar),
        ScriptLine::Short { .. } => Effect::bad(alloc, n, BadKind::Grammar),
    }
}

// The manager serves one more host: before any line but those of hosts and of time.
fn add_host(
    alloc: Global,
    manager: Manager,
    n: u64,
    name: Text,
    greeting: Stanzas,
) -> Result<Effect, AllocError>
    requires { IsTrue (can_serve (record { name = name; greeting = greeting })) }
    ensures { IfOk result (λ effect. (m : PlainManager) → IsManager manager m → Does effect (host_step m n name greeting)) }
{
    if manager.begun || !manager.hosts.takes(name.as_slice()) {
        return Effect::bad(alloc, n, BadKind::Grammar);
    }
    let manager = manager.with_host(name, greeting)?;
    Ok(Effect {
        lines: Vec::new(alloc),
        next: Next::Goes(Run::Bodies(manager)),
        over: Vec::new(alloc),
    })
}

// Time passes. Moments don't go back.
fn pass(alloc: Global, manager: Manager, n: u64, moment: Moment) -> Result<Effect, AllocError>
    ensures { IfOk result (λ effect. (m : PlainManager) → IsManager manager m → Does effect (at_step m n moment)) }
{
    let is_over = moment.millis() < manager.moment.millis();
    if is_over {
        return Effect::bad(alloc, n, BadKind::Time);
    }
    let changed = manager.pass(alloc, moment)?;
    Ok(effect_of(changed))
}

// A body arrives. A connection carries one request at a time.
fn post(
    alloc: Global,
    manager: Manager,
    n: u64,
    conn: u16,
    body: Text,
) -> Result<Effect, AllocError>
    ensures { IfOk result (λ effect. (m : PlainManager) → IsManager manager m → Does effect (post_step m n conn body)) }
{
    if manager.is_waiting(conn) {
        return Effect::bad(alloc, n, BadKind::Connection);
    }
    let changed = manager.begin().post(alloc, conn, body)?;
    Ok(effect_of(changed))
}

// The connection breaks on which a request waits.
fn close(alloc: Global, manager: Manager, n: u64, conn: u16) -> Result<Effect, AllocError>
    ensures { IfOk result (λ effect. (m : PlainManager) → IsManager manager m → Does effect (close_step m n conn)) }
{
    if !manager.is_waiting(conn) {
        return Effect::bad(alloc, n, BadKind::Connection);
    }
    let changed = manager.begin().close(alloc, conn)?;
    Ok(effect_of(changed))
}

// Something of the server comes to a session; it is bad where no creation was given such a one.
fn serve(
    alloc: Global,
    manager: Manager,
    n: u64,
    session: Option<u32>,
    event: Event,
    refusal: Refusal,
) -> Result<Effect, AllocError>
    requires { IsEvent event }
    ensures { IfOk result (λ effect. (m : PlainManager) → IsManager manager m → Does effect (server_step m n event refusal session)) }
{
    let Some(session) = session else {
        return Effect::bad(alloc, n, BadKind::Session);
    };
    let otherwise = ReportLine::Refused { session, refusal };
    let changed = manager
        .begin()
        .come(alloc, event, otherwise, u64::from(session))?;
    Ok(effect_of(changed))
}

// The script goes on with the manager as it is then.
fn effect_of(changed: Changed) -> Effect
    ensures { (change : Change) → IsChange changed change → Does result (change_step change) }
{
    Effect {
        lines: changed.lines,
        next: Next::Goes(Run::Bodies(changed.manager)),
        over: changed.over,
    }
}

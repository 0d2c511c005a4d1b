// The lines of a script that tells of the requests of one session.
ghost use Rattle.std.specs.Prelude.{◌≡◌, IfOk};
ghost use Rattle.script_text.specs.Manager.{Change, PlainManager};
ghost use Rattle.script_text.specs.Script.{arrival_change, arrival_step, host_alone, is_told, open_step};
ghost use Rattle.script_text.specs.Stands.{Does, IsChange, IsManager};

use crate::hosts::Hosts;
use crate::line::{BadKind, ScriptLine};
use crate::manager::{Changed, Manager};
use crate::report::ReportLine;
use crate::run::{Effect, Next, Run};
use crate::words::{creation_text, request_text};
use bosh_types::{Rid, Stanzas, Text};
use std::alloc::{AllocError, Global};

// The session is created with this id.
pub(crate) fn open(alloc: Global, rid: Rid) -> Result<Effect, AllocError>
    ensures { IfOk result (λ effect. Does effect (open_step rid)) }
{
    let manager = Manager::new(alloc, host_alone(alloc)?);
    let body = creation_text(alloc, rid)?;
    let changed = manager.post(alloc, 0, body)?;
    Ok(effect_of(changed))
}

// One host, which greets nobody.
fn host_alone(alloc: Global) -> Result<Hosts, AllocError>
    ensures { IfOk result (λ hosts. hosts ≡ host_alone.hosts) }
{
    let name = Text::from_vec(Vec::from_slice(alloc, b"example.org")?);
    let greeting = Stanzas::from_vec(Vec::new(alloc));
    Hosts::new(alloc).with(name, greeting)
}

// What a line does to the session.
pub(crate) fn arrival_effect(
    alloc: Global,
    manager: Manager,
    n: u64,
    said: ScriptLine,
) -> Result<Effect, AllocError>
    ensures { IfOk result (λ effect. (m : PlainManager) → IsManager manager m → Does effect (arrival_step m n said)) }
{
    match said {
        ScriptLine::Short { rid, stanza } => {
            let body = request_text(alloc, rid, stanza.as_slice())?;
            let changed = manager.post(alloc, 0, body)?;
            Ok(effect_of(changed))
        }
        ScriptLine::End => Effect::done(alloc, n),
        ScriptLine::Open { .. } => Effect::bad(alloc, n, BadKind::Grammar),
        ScriptLine::Host { .. } => Effect::bad(alloc, n, BadKind::Grammar),
        ScriptLine::At { .. } => Effect::bad(alloc, n, BadKind::Grammar),
        ScriptLine::Post { .. } => Effect::bad(alloc, n, BadKind::Grammar),
        ScriptLine::Close { .. } => Effect::bad(alloc, n, BadKind::Grammar),
        ScriptLine::Back { .. } => Effect::bad(alloc, n, BadKind::Grammar),
        ScriptLine::Shut { .. } => Effect::bad(alloc, n, BadKind::Grammar),
    }
}

// Of a change only what goes inward and the ending is told.
fn effect_of(changed: Changed) -> Effect
    ensures { (change : Change) → IsChange changed change → Does result (arrival_change change) }
{
    let Changed {
        mut lines,
        manager,
        over,
    } = changed;
    lines.retain(is_told);
    Effect {
        lines,
        next: Next::Goes(Run::Arrivals(manager)),
        over,
    }
}

fn is_told(line: &ReportLine) -> bool
    ensures { result ≡ is_told line.now }
{
    match line {
        ReportLine::In { .. } => true,
        ReportLine::Out { .. } => false,
        ReportLine::Lost { .. } => false,
        ReportLine::Gone { .. } => false,
        ReportLine::Refused { .. } => false,
        ReportLine::Over { .. } => true,
        ReportLine::Done { .. } => true,
        ReportLine::Bad { .. } => true,
    }
}

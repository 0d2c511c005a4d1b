// What a script is run over, and what a line of it does.
ghost use Rattle.std.specs.Prelude.{IfOk};
ghost use Rattle.script_text.specs.Headline.{manager_of};
ghost use Rattle.script_text.specs.Script.{PlainRun, bad_step, done_step};
ghost use Rattle.script_text.specs.Stands.{AreLive, Does, IsRun};

use crate::driven::Driven;
use crate::line::BadKind;
use crate::live::Live;
use crate::manager::Manager;
use crate::report::ReportLine;
use std::alloc::{AllocError, Global};

// What the lines so far make of a script.
#[derive(Drop)]
pub(crate) enum Run {
    // No line was read.
    Beginning,
    // It tells of the requests of one session.
    Arrivals(Manager),
    // It tells of bodies, and of all else that comes to a manager.
    Bodies(Manager),
}

impl Run {
    // The sessions that are live.
    pub(crate) fn live(&self) -> &[Live]
        ensures { (plain : PlainRun) → IsRun self.now plain → AreLive result.now (manager_of plain).live }
    {
        match self {
            Run::Beginning => &[],
            Run::Arrivals(manager) => manager.live.as_slice(),
            Run::Bodies(manager) => manager.live.as_slice(),
        }
    }
}

// What follows a line.
#[derive(Drop)]
pub(crate) enum Next {
    Goes(Run),
    Ends(Driven),
}

// What a line does: its lines of the report, what follows it, and the sessions that ended with it.
#[derive(Drop)]
pub(crate) struct Effect {
    pub(crate) lines: Vec<ReportLine>,
    pub(crate) next: Next,
    pub(crate) over: Vec<Live>,
}

impl Effect {
    // The script is bad at this line.
    pub(crate) fn bad(alloc: Global, line: u64, kind: BadKind) -> Result<Effect, AllocError>
        ensures { IfOk result (λ effect. Does effect (bad_step line kind)) }
    {
        let mut lines = Vec::new(alloc);
        lines.push(ReportLine::Bad { line, kind })?;
        Ok(Effect {
            lines,
            next: Next::Ends(Driven::Bad { line, kind }),
            over: Vec::new(alloc),
        })
    }

    // The script ends with this line.
    pub(crate) fn done(alloc: Global, line: u64) -> Result<Effect, AllocError>
        ensures { IfOk result (λ effect. Does effect (done_step line)) }
    {
        let mut lines = Vec::new(alloc);
        lines.push(ReportLine::Done { line })?;
        Ok(Effect {
            lines,
            next: Next::Ends(Driven::Done),
            over: Vec::new(alloc),
        })
    }
}

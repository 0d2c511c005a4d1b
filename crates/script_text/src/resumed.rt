// The sessions of a file, with which a script goes on.
ghost use Rattle.std.specs.Prelude.{◌≡◌, IfOk, List, max};
ghost use Rattle.script_text.specs.Live.{PlainLive};
ghost use Rattle.script_text.specs.Resumed.{AreSessions, IsResumed, IsSession, latest, lost_tickets, moment_in};
ghost use Rattle.script_text.specs.Stands.{IsLive};

use crate::hosts::Hosts;
use crate::live::{Live, Parked};
use crate::manager::{Manager, keep_live, sooner};
use bosh_types::{Moment, Ticket};
use session_journal::{Entered, Entry, Journalled};
use std::alloc::{AllocError, Global};

/// The sessions with which a script goes on: those of a file that have not ended.
#[derive(Drop)]
pub struct Sessions {
    pub(crate) manager: Manager,
}

impl Sessions {
    /// Those with these journals, whose numbers go from 1 on. Each ticket that was handed out stands for a request whose connection
    /// was closed, and the present moment is the latest of all their calls. The only error is want of memory.
    pub fn resume(alloc: Global, journals: Vec<Journalled>) -> Result<Sessions, AllocError>
        ensures { IfOk result (λ sessions. (all : List PlainLive) × AreSessions 0 journals.items all × IsResumed sessions journals.items all) }
    {
        let mut opened = 0u32;
        let mut moment = Moment::from_millis(0);
        let mut live = Vec::new(alloc);
        let mut over = Vec::new(alloc);
        let mut soonest = None;
        for session in journals {
            let Some(number) = opened.checked_add(1) else {
                return Err(AllocError);
            };
            opened = number;
            moment = later(moment, latest(session.entries()));
            let one = resumed(alloc, number, session)?;
            soonest = sooner(soonest, one.due());
            keep_live(&mut live, &mut over, one)?;
        }
        Ok(Sessions {
            manager: Manager {
                hosts: Hosts::new(alloc),
                moment,
                begun: false,
                opened,
                live,
                soonest,
            },
        })
    }
}

// A session as a script has it.
fn resumed(alloc: Global, number: u32, session: Journalled) -> Result<Live, AllocError>
    ensures { IfOk result (λ live. (s : PlainLive) × IsSession number session s × IsLive live s) }
{
    let parked = lost_tickets(alloc, session.tickets_given())?;
    Ok(Live {
        number,
        session,
        parked,
    })
}

// The requests of so many tickets, whose connections were closed.
fn lost_tickets(alloc: Global, given: u32) -> Result<Vec<Parked>, AllocError>
    ensures { IfOk result (λ parked. parked.items ≡ lost_tickets given) }
{
    let mut parked = Vec::new(alloc);
    for before in 0..given {
        parked.push(Parked {
            ticket: Ticket::new(before + 1),
            conn: 0,
            is_open: false,
        })?;
    }
    Ok(parked)
}

fn later(one: Moment, other: Moment) -> Moment
    ensures { result ≡ max one other }
{
    if one < other { other } else { one }
}

// The latest moment of calls.
fn latest(entries: &[Entry]) -> Moment
    ensures { result ≡ latest entries.now }
{
    let mut moment = Moment::from_millis(0);
    for entry in entries {
        moment = later(moment, moment_in(&entry.call));
    }
    moment
}

// The moment of a call, and 0 where it has none; one that met the limit of the journal doesn't move it.
fn moment_in(call: &Entered) -> Moment
    ensures { result ≡ moment_in call.now }
{
    match call {
        Entered::Open { now, .. } => *now,
        Entered::Arrive { now, .. } => *now,
        Entered::Collect { .. } => Moment::from_millis(0),
        Entered::Back { now, .. } => *now,
        Entered::BackClosed { now, .. } => *now,
        Entered::Tick { now } => *now,
        Entered::TakeInward => Moment::from_millis(0),
        Entered::Limit { .. } => Moment::from_millis(0),
    }
}

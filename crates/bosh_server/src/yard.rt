// What all jobs of a server share.
ghost use Rattle.std.specs.Prelude.{◌≡◌, IfOk, IsTrue};
ghost use Rattle.std.specs.Arc.{arc_value};
ghost use Rattle.std.specs.List.{list_all};
ghost use Rattle.parked_gate.specs.Passes.{IsPassOf};
ghost use Rattle.session_attrs.specs.Serving.{can_serve};

use crate::plan::ServePlan;
use crate::quota::Quota;
use crate::rings::Rings;
use bosh_types::HostNames;
use parked_gate::Gate;
use server_watch::{Limit, Watch};
use session_table::{Directory, Limits, Purse};
use std::alloc::{AllocError, Global};
use std::sync::{Arc, Mutex, Wait};

/// What the pump is to do.
#[derive(Clone, Copy, Debug, PartialEq, Eq)]
pub(crate) enum Phase {
    /// To make turns.
    Serving,
    /// To end every live session at each turn, since no more links come.
    Closing,
    /// To do so once more and then to end, since nobody is served any longer.
    Over,
}

/// The directory at its gate, the hosts, and how far the server is.
#[derive(Drop)]
pub(crate) struct Yard {
    pub(crate) directory: Gate<Directory>,
    pub(crate) hosts: HostNames,
    pub(crate) rings: Rings,
    // The limits that sessions are opened within.
    pub(crate) limits: Limits,
    // The connections that are open, and the bytes of contents that are coming in.
    pub(crate) open: Quota,
    pub(crate) incoming: Quota,
    // Whom the server tells of what it does.
    pub(crate) watch: Watch,
    phase: Mutex<Phase>,
    // A session can be opened at each of the hosts.
    pub(crate) ghost serves: { IsTrue (list_all can_serve hosts) },
}

/// A place in a yard: what one job keeps of the directory.
#[derive(Drop)]
pub(crate) struct Post {
    pub(crate) yard: Arc<Yard>,
    pub(crate) purse: Purse,
    pub(crate) ghost fits: { IsPassOf (arc_value yard).directory purse.directory },
}

impl Yard {
    // The only error is want of memory.
    pub(crate) fn new(
        alloc: Global,
        directory: Gate<Directory>,
        hosts: HostNames,
        plan: &ServePlan,
        room: u32,
        watch: &Watch,
    ) -> Result<Yard, AllocError>
        requires { IsTrue (list_all can_serve hosts) }
        ensures directory { IfOk result (λ yard. yard.directory ≡ directory) }
        ensures hosts { IfOk result (λ yard. yard.hosts ≡ hosts) }
        ensures limits { IfOk result (λ yard. yard.limits ≡ plan.now.limits) }
    {
        let most = u64::from(plan.open.unwrap_or(room));
        let open = Quota::new(most, Limit::Connections, watch.again()?);
        let incoming = Quota::new(plan.incoming, Limit::Incoming, watch.again()?);
        Ok(Yard {
            directory,
            hosts,
            rings: Rings::new(alloc),
            limits: plan.limits,
            open,
            incoming,
            watch: watch.again()?,
            phase: Mutex::new(Phase::Serving),
        })
    }

    pub(crate) fn phase<R: Wait>(&self, rt: &R) -> Phase {
        *self.phase.lock(rt)
    }

    pub(crate) fn enter_phase<R: Wait>(&self, rt: &R, phase: Phase) {
        *self.phase.lock(rt) = phase;
    }
}

// A worker, what its thread serves it with, and what all workers of a server share.
ghost use Rattle.std.specs.Prelude.{◌≡◌, false, IfNone, IfOk, IfSome, IsTrue};
ghost use Rattle.std.specs.List.{list_all};
ghost use Rattle.session_attrs.specs.Serving.{can_serve};

use crate::hosts::can_serve_all;
use crate::trail::Trail;
use bosh_ports::Bell;
use bosh_types::HostNames;
use parked_gate::Gate;
use polled_http::Rooms;
use server_ports::{Clock, Names};
use session_table::{Directory, Limits, Purse};
use std::alloc::{AllocError, Global};

/// What all workers share: the directory at its gate, the hosts, the time, and the limits that sessions are opened within.
#[derive(Drop)]
pub struct Site<'s, C: Clock> {
    pub alloc: Global,
    pub directory: &'s Gate<Directory>,
    pub hosts: &'s HostNames,
    pub clock: &'s C,
    pub limits: Limits,
    // A session can be opened at each of the hosts.
    pub ghost serves: { IsTrue (list_all can_serve hosts.now) },
}

impl<'s, C: Clock> Site<'s, C> {
    /// None exactly where there is a host at which no session can be opened. The only error is want of memory.
    pub fn new(
        alloc: Global,
        directory: &'s Gate<Directory>,
        hosts: &'s HostNames,
        clock: &'s C,
        limits: Limits,
    ) -> Result<Option<Site<'s, C>>, AllocError>
        ensures some { IfOk result (λ site. IfSome site (λ site. (site.directory.now ≡ directory.now) × (site.hosts.now ≡ hosts.now) × (site.clock.now ≡ clock.now) × (site.limits ≡ limits))) }
        ensures none { IfOk result (λ site. IfNone site (list_all can_serve hosts.now ≡ false)) }
    {
        if !can_serve_all(alloc, hosts)? {
            return Ok(None);
        }
        Ok(Some(Site {
            alloc,
            directory,
            hosts,
            clock,
            limits,
        }))
    }
}

/// One worker: what it keeps of the directory, and the trail of what it served. In a loop each connection has its own.
#[derive(Drop)]
pub struct Worker {
    pub purse: Purse,
    pub trail: Trail,
}

/// How many creations were refused at the limits that sessions are opened within, for who tells of it.
#[derive(Clone, Copy, Debug, PartialEq, Eq)]
pub struct Refused {
    /// As many sessions were live as may be.
    pub table_full: u64,
    /// As many sessions were opened as may be.
    pub openings_spent: u64,
}

impl Refused {
    pub const NONE: Refused = Refused {
        table_full: 0,
        openings_spent: 0,
    };
}

/// What a thread serves its workers with: its end of the bell, its maker of names, and its rooms for what is read and given; and what it
/// counts of them.
#[derive(Drop)]
pub struct Tools<B: Bell, M: Names> {
    pub bell: B,
    pub names: M,
    pub rooms: Rooms,
    pub refused: Refused,
}

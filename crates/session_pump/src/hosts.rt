// The hosts of a server, with what stands behind each.
ghost use Rattle.std.specs.Prelude.{◌≡◌, ◌≢◌, ◌<◌, IfNone, IfOk, IfSome, false, length, map};
ghost use Rattle.std.specs.List.{list_any};
ghost use Rattle.std.specs.Str.{bytes_eq};
ghost use Rattle.xmpp_backend.specs.Counts.{counted_on};
ghost use Rattle.xmpp_backend.specs.Told.{GivesStanza, closed_too, held_too, opened_too, passed_too, resumed_too};
ghost use Rattle.session_pump.specs.Ends.{CallsEnd, Changes, PollsEnd, ends_of, exchanged, fresh};
ghost use Rattle.session_pump.specs.Places.{ChangesFirst, IsFirstPlace};

use crate::line::Owing;
use bosh_types::{CopyIn, HostName, HostNames, Inward, Stanzas, Text, Wire, copy_items};
use std::alloc::{AllocError, Global};
use std::mem::{replace, swap};
use xmpp_backend::{Backend, Passed, Polled};

/// A host: its name, the stanzas that greet each new session, its back end, and those that take its place one after the other
/// when one fails.
#[derive(Drop)]
pub struct Host<E: Backend> {
    pub name: Text,
    pub greeting: Stanzas,
    pub end: E,
    pub spares: Vec<E>,
}

/// What became of a back end that was to take another's place.
#[derive(Drop)]
pub enum Replaced<E: Backend> {
    /// It stands behind the host now, and this one did before.
    Old(E),
    /// No host has that name. It is handed back.
    Unknown(E),
}

/// A host, and what the pump remembers of it.
#[derive(Drop)]
pub struct Stand<E: Backend> {
    pub host: Host<E>,
    /// How many back ends failed before the one that stands behind it now.
    pub failures: u64,
    // How many of its spares were used. A back end that failed stands in the place of the spare that took its own.
    used: usize,
    /// What its back end gave, and no session took yet.
    pub kept: Option<Owing>,
    /// Whether its back end was polled in the last turn as often as may be, so that it may have more.
    pub is_behind: bool,
}

impl<E: Backend> Stand<E> {
    /// Opens a wire to the host at its back end.
    pub(crate) fn open(&mut self, wire: Wire) -> Passed
        ensures ends { CallsEnd (opened_too wire self.old.host.name) result (ends_of E.told E.counts self.old) (ends_of E.told E.counts self.new) }
        ensures kept { self.new.kept ≡ self.old.kept }
        ensures name { self.new.host.name ≡ self.old.host.name }
    {
        let passed = self.host.end.open(wire, self.host.name.as_slice());
        self.exchange_where_failed(passed);
        passed
    }

    /// Passes an item on a wire.
    pub(crate) fn pass(&mut self, wire: Wire, item: &Inward) -> Passed
        ensures ends { CallsEnd (passed_too wire item.now) result (ends_of E.told E.counts self.old) (ends_of E.told E.counts self.new) }
        ensures kept { self.new.kept ≡ self.old.kept }
        ensures name { self.new.host.name ≡ self.old.host.name }
    {
        let passed = self.host.end.pass(wire, item);
        self.exchange_where_failed(passed);
        passed
    }

    /// Closes a wire.
    pub(crate) fn close(&mut self, wire: Wire) -> Passed
        ensures ends { CallsEnd (closed_too wire) result (ends_of E.told E.counts self.old) (ends_of E.told E.counts self.new) }
        ensures kept { self.new.kept ≡ self.old.kept }
        ensures name { self.new.host.name ≡ self.old.host.name }
    {
        let passed = self.host.end.close(wire);
        self.exchange_where_failed(passed);
        passed
    }

    /// The next thing that the back end gave.
    pub(crate) fn poll(&mut self) -> Polled
        ensures ends { PollsEnd result (ends_of E.told E.counts self.old) (ends_of E.told E.counts self.new) }
        ensures stanza { GivesStanza result }
        ensures kept { self.new.kept ≡ self.old.kept }
        ensures name { self.new.host.name ≡ self.old.host.name }
    {
        let polled = self.host.end.poll();
        if let Polled::Failed = &polled {
            self.exchange();
        }
        polled
    }

    /// Holds a wire: nothing is to be given on it until it is resumed.
    pub(crate) fn hold(&mut self, wire: Wire)
        ensures ends { Changes (held_too wire) (ends_of E.told E.counts self.old) (ends_of E.told E.counts self.new) }
        ensures kept { self.new.kept ≡ self.old.kept }
        ensures name { self.new.host.name ≡ self.old.host.name }
    {
        self.host.end.hold(wire);
    }

    /// Resumes a wire that was held.
    pub(crate) fn resume(&mut self, wire: Wire)
        ensures ends { Changes (resumed_too wire) (ends_of E.told E.counts self.old) (ends_of E.told E.counts self.new) }
        ensures kept { self.new.kept ≡ self.old.kept }
        ensures name { self.new.host.name ≡ self.old.host.name }
    {
        self.host.end.resume(wire);
    }

    /// Whether its back end may have more than it was polled for.
    pub(crate) fn has_more(&self) -> bool
        ensures { result ≡ self.now.is_behind }
    {
        self.is_behind
    }

    fn is_named(&self, name: &[u8]) -> bool
        ensures { result ≡ bytes_eq self.now.host.name name.now }
    {
        self.host.name.as_slice() == name
    }

    fn exchange_where_failed(&mut self, passed: Passed)
        ensures same { passed ≢ Passed.Failed → self.new ≡ self.old }
        ensures failed { passed ≡ Passed.Failed → ends_of E.told E.counts self.new ≡ exchanged (ends_of E.told E.counts self.old) }
        ensures kept { self.new.kept ≡ self.old.kept }
        ensures name { self.new.host.name ≡ self.old.host.name }
    {
        if passed == Passed::Failed {
            self.exchange();
        }
    }

    fn count_failure(&mut self)
        ensures { self.new ≡ record self.old { failures = counted_on self.old.failures } }
    {
        self.failures = self.failures.saturating_add(1);
    }

    // Another back end takes the place of this one, which is handed back.
    fn replace_end(&mut self, end: E) -> E
        ensures old { result ≡ self.old.host.end }
        ensures new { self.new ≡ record self.old { host = record self.old.host { end = end }; failures = counted_on self.old.failures } }
    {
        self.count_failure();
        replace(&mut self.host.end, end)
    }

    // The back end failed: the next spare that wasn't used takes its place, where there is one.
    fn exchange(&mut self)
        ensures exchanged { ends_of E.told E.counts self.new ≡ exchanged (ends_of E.told E.counts self.old) }
        ensures kept { self.new.kept ≡ self.old.kept }
        ensures name { self.new.host.name ≡ self.old.host.name }
    {
        self.count_failure();
        if let Some(spare) = self.host.spares.get_mut(self.used) {
            swap(&mut self.host.end, spare);
            self.used += 1;
        }
    }
}

/// The hosts of a server.
#[derive(Drop)]
pub struct Hosts<E: Backend> {
    pub stands: Vec<Stand<E>>,
}

impl<E: Backend> Hosts<E> {
    /// Nothing of them was used yet, and nothing is kept. The only error is want of memory.
    pub fn new(alloc: Global, hosts: Vec<Host<E>>) -> Result<Hosts<E>, AllocError>
        ensures { IfOk result (λ made. made.stands.items ≡ map fresh hosts.items) }
    {
        let mut stands = Vec::with_capacity(alloc, hosts.len())?;
        for host in hosts {
            stands.push(Stand {
                host,
                failures: 0,
                used: 0,
                kept: None,
                is_behind: false,
            })?;
        }
        Ok(Hosts { stands })
    }

    /// Their names and greetings. The only error is want of memory.
    pub fn names(&self, alloc: Global) -> Result<HostNames, AllocError>
        ensures { IfOk result (λ names. names ≡ map (λ stand. record { name = stand.host.name; greeting = stand.host.greeting }) self.now.stands.items) }
    {
        let mut names = Vec::with_capacity(alloc, self.stands.len())?;
        for stand in &self.stands {
            names.push(HostName {
                name: stand.host.name.copy_in(alloc)?,
                greeting: Stanzas::from_vec(copy_items(alloc, stand.host.greeting.as_slice())?),
            })?;
        }
        Ok(HostNames::from_vec(names))
    }

    /// How many back ends of each host have failed. The only error is want of memory.
    pub(crate) fn failures(&self, alloc: Global) -> Result<Vec<u64>, AllocError>
        ensures { IfOk result (λ counts. counts.items ≡ map (λ stand. stand.failures) self.now.stands.items) }
    {
        let mut counts = Vec::with_capacity(alloc, self.stands.len())?;
        for stand in &self.stands {
            counts.push(stand.failures)?;
        }
        Ok(counts)
    }

    /// Puts a back end in the place of the one of this host. The wires that are open on the old one are so no longer, as after a
    /// failure. It takes no memory.
    pub fn replace(&mut self, name: &[u8], end: E) -> Replaced<E>
        ensures unknown { (given : _) → result ≡ Replaced.Unknown given
            → (given ≡ end) × (self.new.stands ≡ self.old.stands) × (list_any (λ stand. bytes_eq stand.host.name name.now) self.old.stands.items ≡ false) }
        ensures old { (given : _) → result ≡ Replaced.Old given
            → (was : _) × (given ≡ was.host.end) × ChangesFirst (λ stand. bytes_eq stand.host.name name.now)
            was (record was { host = record was.host { end = end }; failures = counted_on was.failures }) self.old.stands.items self.new.stands.items }
    {
        let Some(place) = self.place_of(name) else {
            return Replaced::Unknown(end);
        };
        let Some(stand) = self.stands.get_mut(place) else {
            unreachable!();
        };
        Replaced::Old(stand.replace_end(end))
    }

    /// The place of the host of this name.
    pub(crate) fn place_of(&self, name: &[u8]) -> Option<usize>
        ensures within { IfSome result (λ place. place < length self.now.stands.items) }
        ensures first { IfSome result (λ place. IsFirstPlace (λ stand. bytes_eq stand.host.name name.now) self.now.stands.items place) }
        ensures none { IfNone result (list_any (λ stand. bytes_eq stand.host.name name.now) self.now.stands.items ≡ false) }
    {
        let mut place = 0;
        for stand in &self.stands {
            if stand.is_named(name) {
                return Some(place);
            }
            place += 1;
        }
        None
    }
}

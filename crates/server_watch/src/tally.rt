// What a back end carried, and that it failed.
ghost use Rattle.std.specs.Prelude.{◌≡◌, ◌↔◌, ◌*◌, ◌+◌, ◌<◌, ℕ, true};

use crate::note::{Carried, Note};
use crate::watch::Watch;
use bosh_types::{Inward, SharedText, Wire};
use std::alloc::Global;
use std::collections::BTreeMap;
use std::sync::Wait;
use xmpp_backend::{Passed, Polled};

/// How many wires a session may have: the number of a wire is that of its session times this, and that of its stream.
const STREAMS: u64 = 8;

/// How many stanzas a back end of a host carried on each wire, as its answers tell. Where somebody watches, that is noted of the wire's
/// session when the wire is closed, and of all that are open when the back end fails: so what is noted of a session is, in all, what was
/// carried for its streams.
#[derive(Drop)]
pub struct Tally {
    watch: Watch,
    host: SharedText,
    // Whether another takes its place where it fails.
    is_replaced: bool,
    // By the numbers of wires.
    carried: BTreeMap<u64, Carried>,
}

/// The opening number of the session that has this wire.
pub fn session_of(wire: Wire) -> u64
    ensures { (opening stream : ℕ) → stream < 8 → wire ≡ opening * 8 + stream → result ≡ opening }
{
    wire.number() / STREAMS
}

/// Whether a wire is that of its session's one stream.
pub fn is_plain(wire: Wire) -> bool
    ensures { (opening stream : ℕ) → stream < 8 → wire ≡ opening * 8 + stream → (result ≡ true) ↔ (stream ≡ 0) }
{
    wire.number() % STREAMS == 0
}

impl Tally {
    /// Of a back end of this host that has carried nothing, and whether another takes its place where it fails. It takes no memory.
    pub fn new(alloc: Global, watch: Watch, host: SharedText, is_replaced: bool) -> Tally {
        Tally {
            watch,
            host,
            is_replaced,
            carried: BTreeMap::new(alloc),
        }
    }

    /// It was asked to open this wire. Where there is no memory what is carried on it isn't counted.
    pub fn opened<R: Wait>(&mut self, rt: &R, wire: Wire, answer: Passed) {
        if answer == Passed::Done && self.watch.is_on() {
            begin(&mut self.carried, wire);
        }
        self.failed(rt, answer == Passed::Failed);
    }

    /// It was passed this item.
    pub fn passed<R: Wait>(&mut self, rt: &R, wire: Wire, item: &Inward, answer: Passed) {
        if answer == Passed::Done && self.watch.is_on() {
            count(&mut self.carried, wire, stanzas_of(item), 0);
        }
        self.failed(rt, answer == Passed::Failed);
    }

    /// It was polled, and gave this.
    pub fn polled<R: Wait>(&mut self, rt: &R, polled: &Polled) {
        match polled {
            Polled::Out(wire, _) => self.given(*wire),
            Polled::Failed => self.failed(rt, true),
            Polled::Closed(_, _) | Polled::Nothing | Polled::NoMemory => {}
        }
    }

    /// It was asked to close this wire.
    pub fn closed<R: Wait>(&mut self, rt: &R, wire: Wire, answer: Passed) {
        if answer == Passed::Done && self.watch.is_on() {
            end(rt, &self.watch, &mut self.carried, wire);
        }
        self.failed(rt, answer == Passed::Failed);
    }

    fn given(&mut self, wire: Wire) {
        if self.watch.is_on() {
            count(&mut self.carried, wire, 0, 1);
        }
    }

    // Where it failed, what was carried on each wire is noted, since these are open no longer, and then the failure.
    fn failed<R: Wait>(&mut self, rt: &R, has_failed: bool) {
        if !has_failed || !self.watch.is_on() {
            return;
        }
        for (wire, carried) in self.carried.iter() {
            note_carried(rt, &self.watch, *wire, *carried);
        }
        self.carried.clear();
        match self.host.again() {
            Ok(host) => self.watch.note(
                rt,
                Some(Note::Failed {
                    host,
                    is_replaced: self.is_replaced,
                }),
            ),
            Err(_) => self.watch.note(rt, None),
        }
    }
}

// A wire was opened: nothing was carried on it.
fn begin(carried: &mut BTreeMap<u64, Carried>, wire: Wire) {
    let none = Carried {
        inward: 0,
        outward: 0,
    };
    let _ = carried.insert(wire.number(), none);
}

// So many more stanzas were passed on the wire, or given on it.
fn count(carried: &mut BTreeMap<u64, Carried>, wire: Wire, inward: u64, outward: u64) {
    if let Some(found) = carried.get_mut(&wire.number()) {
        *found = Carried {
            inward: found.inward.saturating_add(inward),
            outward: found.outward.saturating_add(outward),
        };
    }
}

// How many stanzas an item has.
fn stanzas_of(item: &Inward) -> u64 {
    match item {
        Inward::Item(_, _) => 1,
        Inward::Restart(_) | Inward::Open(_, _) | Inward::Close(_) => 0,
    }
}

// A wire was closed: what was carried on it is noted.
fn end<R: Wait>(rt: &R, watch: &Watch, carried: &mut BTreeMap<u64, Carried>, wire: Wire) {
    if let Some(carried) = carried.remove(&wire.number()) {
        note_carried(rt, watch, wire.number(), carried);
    }
}

// So much was carried for the session of the wire with this number.
fn note_carried<R: Wait>(rt: &R, watch: &Watch, wire: u64, carried: Carried) {
    let number = wire / STREAMS;
    watch.note(rt, Some(Note::Carried { number, carried }));
}

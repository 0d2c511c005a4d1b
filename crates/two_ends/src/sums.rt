// How many stanzas went where.
ghost use Rattle.std.specs.Prelude.{◌≡◌, ◌+◌};
ghost use Rattle.std.specs.List.{count_by};
ghost use Rattle.two_ends.specs.Summed.{IsCounted, IsSums, counted, given_by, grown, is_got, is_passed_stanza, is_refusal, is_refused, put_by, unless_refused};
ghost use Rattle.two_ends.specs.Worlds.{IsWorld};
ghost use Rattle.world_laws.specs.Sums.{PlainSums, is_inward_stanza, sums_of};
ghost use Rattle.world_laws.specs.World.{PlainWorld};

use crate::world::World;
use bosh_types::Inward;
use world_laws::{SeenItem, WorldEvent};

/// How many stanzas went where.
#[derive(Clone, Copy, Debug, Default, PartialEq, Eq)]
pub struct Sums {
    /// The client accepted them to be sent.
    pub put: u64,
    /// They are queued at the client.
    pub queued: u64,
    /// The manager passed them on to the server.
    pub inward: u64,
    /// The server gave them, the greeting first, which counts once the creation came.
    pub given: u64,
    /// The client handed them out.
    pub got: u64,
}

impl World {
    /// How many stanzas went where. It takes no memory.
    pub fn sums(&self) -> Sums
        ensures { (w : PlainWorld) → IsWorld self.now w → IsSums result (sums_of w) }
    {
        let mut sums = self.sums;
        sums.queued = self.client.queued() as u64;
        sums
    }
}

impl Sums {
    // After an event that brought so many stanzas, of which this was seen.
    pub(crate) fn after(self, put: u64, given: u64, seen: &[SeenItem]) -> Sums
        ensures { (plain : PlainSums) → IsCounted self plain → IsCounted result (grown plain put given seen.now) }
    {
        Sums {
            put: more(self.put, unless_refused(seen, put)),
            queued: self.queued,
            inward: more(self.inward, passed_in(seen) as u64),
            given: more(self.given, unless_refused(seen, given)),
            got: more(self.got, got_in(seen) as u64),
        }
    }
}

// A count stands still at its type's end.
fn more(count: u64, by: u64) -> u64
    ensures { result ≡ counted (count + by) }
{
    count.saturating_add(by)
}

// How many stanzas an event brings to the client.
pub(crate) fn put_by(event: &WorldEvent) -> u64
    ensures { result ≡ put_by event.now }
{
    match event {
        WorldEvent::Put(_) => 1,
        WorldEvent::PutOn(_, _) => 1,
        _ => 0,
    }
}

// How many the server gives with it.
pub(crate) fn given_by(event: &WorldEvent) -> u64
    ensures { result ≡ given_by event.now }
{
    match event {
        WorldEvent::Give(_) => 1,
        WorldEvent::GiveOn(_, _) => 1,
        _ => 0,
    }
}

fn unless_refused(seen: &[SeenItem], count: u64) -> u64
    ensures { result ≡ unless_refused seen.now count }
{
    if is_refused(seen) {
        return 0;
    }
    count
}

fn is_refused(seen: &[SeenItem]) -> bool
    ensures { result ≡ is_refused seen.now }
{
    match seen.first() {
        Some(item) => is_refusal(item),
        None => false,
    }
}

fn is_refusal(item: &SeenItem) -> bool
    ensures { result ≡ is_refusal item.now }
{
    match item {
        SeenItem::RefusedFull { .. } => true,
        SeenItem::RefusedOver { .. } => true,
        SeenItem::RefusedNone { .. } => true,
        SeenItem::RefusedLong => true,
        _ => false,
    }
}

// How many stanzas were passed on to the server.
fn passed_in(seen: &[SeenItem]) -> usize
    ensures { result ≡ count_by is_passed_stanza seen.now }
{
    seen.iter()
        .filter(
            |item|
                ensures { result ≡ is_passed_stanza item.now.now }
            { is_passed_stanza(item) },
        )
        .count()
}

fn is_passed_stanza(item: &SeenItem) -> bool
    ensures { result ≡ is_passed_stanza item.now }
{
    match item {
        SeenItem::In { item } => is_inward_stanza(item),
        _ => false,
    }
}

fn is_inward_stanza(item: &Inward) -> bool
    ensures { result ≡ is_inward_stanza item.now }
{
    match item {
        Inward::Item(..) => true,
        Inward::Restart(_) | Inward::Open(_, _) | Inward::Close(_) => false,
    }
}

// How many were handed out.
fn got_in(seen: &[SeenItem]) -> usize
    ensures { result ≡ count_by is_got seen.now }
{
    seen.iter()
        .filter(
            |item|
                ensures { result ≡ is_got item.now.now }
            { is_got(item) },
        )
        .count()
}

fn is_got(item: &SeenItem) -> bool
    ensures { result ≡ is_got item.now }
{
    match item {
        SeenItem::Got { .. } => true,
        SeenItem::GotOn { .. } => true,
        _ => false,
    }
}

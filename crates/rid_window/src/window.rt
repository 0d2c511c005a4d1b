ghost use Rattle.std.specs.Prelude.{◌≡◌, ◌↔◌, ◌-◌, ◌<◌, ◌≤◌, IfOk, IsTrue, is_none, is_some, length, slice_index_or, slice_set, Some, None};
ghost use Rattle.std.specs.List.{list_all};
ghost use Rattle.std.specs.Option.{option_copied};
ghost use Rattle.circular_buffer.specs.Buffer.{buffer};

use bosh_types::{CopyIn, Rid};
use circular_buffer::HeapCircularBuffer;
use std::alloc::{AllocError, Global};

/// What became of an item. One that wasn't placed is handed back, and nothing changed.
#[derive(Debug, Drop)]
pub enum Placed<T> {
    /// It stands in its place.
    Done,
    /// Its id was taken before, or is lower than the window's first.
    Below(T),
    /// Its id has an item that wasn't taken yet.
    Repeat(T),
    /// Its id is beyond the window (XEP-0124, section 14.2).
    Above(T),
}

/// A window over request ids: it begins at the lowest id not taken, and each of its ids has a place.
#[derive(Drop)]
pub struct Window<T> {
    next: Option<Rid>,
    // The places of `next` and of the ids after it: as many as the width, and one for an id that is extra.
    places: HeapCircularBuffer<Option<T>>,
    ghost roomy: { 0 < length places.items },
    ghost full: { length places.items ≡ places.capacity },
}

impl<T: Drop> Window<T> {
    ghost use Rattle.rid_window.specs.PlainWindow.{PlainWindow, new_window, PlaceSays, IsClear, after_place, first_item, reach, ready, after_ready, after_strike, open_item};
    ghost use Rattle.rid_window.specs.StandsFor.{StandsFor};

    /// An empty window of `width` ids from `first` on.
    pub fn new(alloc: Global, first: Rid, width: u32) -> Result<Self, AllocError>
        requires some { 1 ≤ width }
        requires few { width ≤ 16 }
        ensures { IfOk result (λ window. StandsFor window (new_window first width)) }
    {
        let size = width as usize + 1;
        let mut places = HeapCircularBuffer::with_capacity(alloc, size)?;
        'fill: for _ in 0..size {
            places.push_back(None);
        }
        Ok(Window {
            next: Some(first),
            places,
        })
    }

    /// Puts an item into the place of its id. With `extra` the window is one id wider.
    pub fn place(&mut self, rid: Rid, extra: bool, item: T) -> Placed<T>
        ensures answer { (plain : PlainWindow T) → StandsFor self.old plain
            → PlaceSays plain rid extra item result }
        ensures after { (plain : PlainWindow T) → StandsFor self.old plain
            → StandsFor self.new (after_place plain rid item result) }
    {
        let Some(next) = self.next else {
            return Placed::Below(item);
        };
        if rid.value() < next.value() {
            return Placed::Below(item);
        }
        let ahead = (rid.value() - next.value()) as usize;
        if self.is_filled(ahead) {
            return Placed::Repeat(item);
        }
        if ahead >= self.reach(extra) {
            return Placed::Above(item);
        }
        put_at(&mut self.places, ahead, item);
        Placed::Done
    }

    /// Takes the item of the lowest id not taken: `None` exactly where its place is empty, or no id is left.
    pub fn take_ready(&mut self) -> Option<(Rid, T)>
        ensures answer { (plain : PlainWindow T) → StandsFor self.old plain → result ≡ ready plain }
        ensures after { (plain : PlainWindow T) → StandsFor self.old plain
            → StandsFor self.new (after_ready plain) }
    {
        let next = self.next?;
        let item = take_at(&mut self.places, 0)?;
        self.places.push_back(None);
        let later = next.next();
        self.next = later;
        Some((next, item))
    }

    /// Takes the item of an id out of its place, which is empty then: `None` exactly where the place is empty already or
    /// the id was taken, and then nothing changes. It may be placed again (XEP-0124, section 17.3).
    pub fn strike(&mut self, rid: Rid) -> Option<T>
        ensures answer { (plain : PlainWindow T) → StandsFor self.old plain → result ≡ open_item plain rid }
        ensures after { (plain : PlainWindow T) → StandsFor self.old plain
            → StandsFor self.new (after_strike plain rid) }
    {
        let next = self.next?;
        let ahead = rid.value().checked_sub(next.value())?;
        take_at(&mut self.places, ahead as usize)
    }

    /// The lowest id not taken: `None` exactly after the greatest was taken.
    pub fn next(&self) -> Option<Rid>
        ensures { (plain : PlainWindow T) → StandsFor self.now plain → result ≡ plain.next }
    {
        self.next
    }

    /// The item of the lowest id not taken, which stays where it is: `None` exactly where its place is empty, or no id
    /// is left.
    pub fn first(&self) -> Option<&T>
        ensures { (plain : PlainWindow T) → StandsFor self.now plain
            → option_copied result ≡ first_item plain }
    {
        if self.next.is_none() {
            return None;
        }
        item_at(&self.places, 0)
    }

    /// The item of an id, which stays where it is: `None` exactly where its place is empty or the id was taken.
    pub fn at(&self, rid: Rid) -> Option<&T>
        ensures { (plain : PlainWindow T) → StandsFor self.now plain → option_copied result ≡ open_item plain rid }
    {
        let next = self.next?;
        let ahead = rid.value().checked_sub(next.value())?;
        item_at(&self.places, ahead as usize)
    }

    /// Whether no item stands in it: each that was placed was taken.
    pub fn is_clear(&self) -> bool
        ensures { (plain : PlainWindow T) → StandsFor self.now plain → IsTrue result ↔ IsClear plain }
    {
        self.next.is_none() || are_empty(&self.places)
    }

    // How many ids have a place.
    fn reach(&self, extra: bool) -> usize
        ensures { result ≡ reach (length self.now.places.items - 1) extra }
    {
        let width = self.places.len() - 1;
        if extra { width + 1 } else { width }
    }

    // Whether the place so many ids after `next` has an item.
    fn is_filled(&self, ahead: usize) -> bool
        ensures { result ≡ is_some (slice_index_or self.now.places.items ahead None) }
    {
        item_at(&self.places, ahead).is_some()
    }
}

impl<T: CopyIn> Window<T> {
    ghost use Rattle.rid_window.specs.PlainWindow.{PlainWindow};
    ghost use Rattle.rid_window.specs.StandsFor.{StandsFor};

    /// A second window with copies of the items, which stands for all that this one stands for.
    pub fn copied(&self, alloc: Global) -> Result<Self, AllocError>
        ensures { (plain : PlainWindow T) → StandsFor self.now plain
            → IfOk result (λ window. StandsFor window plain) }
    {
        Ok(Window {
            next: self.next,
            places: copy_places(alloc, &self.places)?,
        })
    }
}

// The item of a place, if it has one.
fn item_at<T>(places: &HeapCircularBuffer<Option<T>>, place: usize) -> Option<&T>
    ensures { option_copied result ≡ slice_index_or places.now.items place None }
{
    match places.get(place) {
        Some(item) => item.as_ref(),
        None => None,
    }
}

// Puts an item into a place.
fn put_at<T: Drop>(places: &mut HeapCircularBuffer<Option<T>>, place: usize, item: T)
    requires { place < length places.old.items }
    ensures { places.new ≡ buffer (slice_set places.old.items place (Some item)) places.old.capacity }
{
    if let Some(at) = places.get_mut(place) {
        *at = Some(item);
    }
}

// Takes the item of a place, if it has one, and leaves the place empty.
fn take_at<T>(places: &mut HeapCircularBuffer<Option<T>>, place: usize) -> Option<T>
    ensures item { result ≡ slice_index_or places.old.items place None }
    ensures emptied { places.new ≡ buffer (slice_set places.old.items place None) places.old.capacity }
{
    if place >= places.len() {
        return None;
    }
    match places.get_mut(place) {
        Some(at) => at.take(),
        None => unreachable!(),
    }
}

// Whether no place has an item.
fn are_empty<T>(places: &HeapCircularBuffer<Option<T>>) -> bool
    ensures { result ≡ list_all is_none places.now.items }
{
    places.iter().all(|place| place.is_none())
}

// The places with copies of the items.
fn copy_places<T: CopyIn>(
    alloc: Global,
    places: &HeapCircularBuffer<Option<T>>,
) -> Result<HeapCircularBuffer<Option<T>>, AllocError>
    requires { length places.now.items ≤ places.now.capacity }
    ensures { IfOk result (λ copies. copies ≡ places.now) }
{
    let mut copies = HeapCircularBuffer::with_capacity(alloc, places.capacity())?;
    'each: for index in 0..places.len() {
        match places.get(index) {
            Some(place) => copies.push_back(place.copy_in(alloc)?),
            None => unreachable!(),
        };
    }
    Ok(copies)
}

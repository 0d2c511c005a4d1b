ghost use Rattle.std.specs.Prelude.{◌≡◌, ℕ, ◌<◌, ◌≤◌, IfOk, length, slice_index_or, slice_set};
ghost use Rattle.std.specs.Option.{option_copied};
ghost use Rattle.circular_buffer.specs.Buffer.{buffer};
ghost use Rattle.reply_keep.specs.Filled.{IsLastFilled};

use bosh_types::{CopyIn, KeptAnswer, Rid};
use circular_buffer::HeapCircularBuffer;
use std::alloc::{AllocError, Global};

/// The answers of the last `size` request ids, less those that were acknowledged.
#[derive(Drop)]
pub struct Keep {
    // The id whose answer was put last.
    last: Option<Rid>,
    // The places of that id and of the ids below it, one for each.
    answers: HeapCircularBuffer<Option<KeptAnswer>>,
    ghost roomy: { 0 < length answers.items },
    ghost full: { length answers.items ≡ answers.capacity },
}

impl Keep {
    ghost use Rattle.reply_keep.specs.PlainKeep.{PlainKeep, new_keep, IsNextId, IsLowestKept, kept_at, falls_out, after_put, after_ack};
    ghost use Rattle.reply_keep.specs.StandsFor.{StandsFor};

    /// Keeps nothing yet, and has room for `size` answers.
    pub fn new(alloc: Global, size: u32) -> Result<Self, AllocError>
        requires some { 1 ≤ size }
        requires few { size ≤ 16 }
        ensures { IfOk result (λ keep. StandsFor keep (new_keep size)) }
    {
        let size = size as usize;
        let mut answers = HeapCircularBuffer::with_capacity(alloc, size)?;
        'fill: for _ in 0..size {
            answers.push_back(None);
        }
        Ok(Keep {
            last: None,
            answers,
        })
    }

    /// Keeps the answer of an id, which is the one after the last. The answer that has no room any more is handed back.
    pub fn put(&mut self, rid: Rid, answer: KeptAnswer) -> Option<KeptAnswer>
        ensures handed_back { (plain : PlainKeep) → StandsFor self.old plain → IsNextId plain.put rid
            → result ≡ falls_out plain rid }
        ensures after { (plain : PlainKeep) → StandsFor self.old plain → IsNextId plain.put rid
            → StandsFor self.new (after_put plain rid answer) }
    {
        // The proof learns here that an id is at least 1.
        let _value = rid.value();
        let oldest = self.answers.push_front(Some(answer));
        self.last = Some(rid);
        match oldest {
            Some(answer) => answer,
            None => None,
        }
    }

    /// The answer of an id: `None` exactly where it isn't kept.
    pub fn find(&self, rid: Rid) -> Option<&KeptAnswer>
        ensures { (plain : PlainKeep) → StandsFor self.now plain
            → option_copied result ≡ kept_at plain rid }
    {
        let last = self.last?;
        let below = last.value().checked_sub(rid.value())?;
        answer_at(&self.answers, below as usize)
    }

    /// The least id whose answer is kept: `None` exactly where none is.
    pub fn lowest(&self) -> Option<Rid>
        ensures { (plain : PlainKeep) → StandsFor self.now plain → IsLowestKept plain result }
    {
        let last = self.last?;
        let below = last_filled(&self.answers)?;
        Rid::new(last.value().checked_sub(below as u64)?)
    }

    /// A second keep of the same answers, which stands for all that this one stands for.
    pub fn copied(&self, alloc: Global) -> Result<Self, AllocError>
        ensures { (plain : PlainKeep) → StandsFor self.now plain → IfOk result (λ keep. StandsFor keep plain) }
    {
        Ok(Keep {
            last: self.last,
            answers: copy_places(alloc, &self.answers)?,
        })
    }

    /// Keeps the answers up to this id no longer: the client has them (XEP-0124, section 9.2).
    pub fn acknowledged(&mut self, rid: Rid)
        ensures { (plain : PlainKeep) → StandsFor self.old plain
            → StandsFor self.new (after_ack plain rid) }
    {
        let Some(last) = self.last else {
            return;
        };
        let above = last.value().saturating_sub(rid.value());
        clear_from(&mut self.answers, above as usize);
    }
}

// The answer of a place, if it has one.
fn answer_at(places: &HeapCircularBuffer<Option<KeptAnswer>>, place: usize) -> Option<&KeptAnswer>
    ensures { option_copied result ≡ slice_index_or places.now.items place None }
{
    match places.get(place) {
        Some(answer) => answer.as_ref(),
        None => None,
    }
}

// The last place that has an answer.
fn last_filled(places: &HeapCircularBuffer<Option<KeptAnswer>>) -> Option<usize>
    ensures { IsLastFilled places.now.items result }
{
    for place in (0..places.len()).rev() {
        if answer_at(places, place).is_some() {
            return Some(place);
        }
    }
    None
}

// Empties a place.
fn empty_at(places: &mut HeapCircularBuffer<Option<KeptAnswer>>, place: usize)
    requires { place < length places.old.items }
    ensures { places.new ≡ buffer (slice_set places.old.items place None) places.old.capacity }
{
    if let Some(at) = places.get_mut(place) {
        *at = None;
    }
}

// Empties the places from this one on.
fn clear_from(places: &mut HeapCircularBuffer<Option<KeptAnswer>>, from: usize)
    ensures emptied { (k : ℕ) → from ≤ k → slice_index_or places.new.items k None ≡ None }
    ensures rest { (k : ℕ) → k < from → slice_index_or places.new.items k None ≡ slice_index_or places.old.items k None }
    ensures length { length places.new.items ≡ length places.old.items }
    ensures capacity { places.new.capacity ≡ places.old.capacity }
{
    for place in from..places.len() {
        empty_at(places, place);
    }
}

// The places with copies of the answers.
fn copy_places(
    alloc: Global,
    places: &HeapCircularBuffer<Option<KeptAnswer>>,
) -> Result<HeapCircularBuffer<Option<KeptAnswer>>, AllocError>
    requires { length places.now.items ≤ places.now.capacity }
    ensures { IfOk result (λ copies. copies ≡ places.now) }
{
    let mut copies = HeapCircularBuffer::with_capacity(alloc, places.capacity())?;
    'each: for index in 0..places.len() {
        match places.get(index) {
            Some(place) => copies.push_back(place.copy_in(alloc)?),
            None => unreachable!(),
        };
    }
    Ok(copies)
}

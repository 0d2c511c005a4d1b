ghost use Rattle.std.specs.Prelude.{◌≡◌, ◌==◌, ◌+◌, ◌≤◌, IfOk, OnOk, OnErr, IsTrue, false, min, [], ◌∷◌, ◌++◌, Some, drop, take, length};
ghost use Rattle.std.specs.Option.{SomeIff};
ghost use Rattle.stream_names.specs.Streams.{is_among, with_stream};
ghost use Rattle.bosh_types.specs.Limits.{longest_stanza, most_waiting};
ghost use Rattle.session_core.specs.declared.outward.Outward.TheVariants.{Stanza, Close};
ghost use Rattle.session_core.specs.Outward.{first_stream, is_close, items_in, size_of, size_of_all, stream_in};
ghost use Rattle.session_core.specs.Answers.{front_of, longest_front};
ghost use Rattle.session_core.specs.Queue.{first_closing, has_room_for};

use crate::outward::{Front, Outward};
use crate::replies::Waiting;
use bosh_types::limits::{LONGEST_STANZA, MOST_WAITING, WAITING_BYTES};
use bosh_types::{Closing, CopyIn, Row, SharedText, StreamNo, copy_items};
use std::alloc::{AllocError, Global};
use std::marker::Model;
use stream_names::StreamSet;

/// The server's items that no answer took yet, in order, with the sum of their bytes.
#[derive(Debug, Drop)]
pub struct Outbox {
    items: Vec<Outward>,
    bytes: usize,
    // The streams that the server closed: each closing waits, or was taken.
    closed: StreamSet,
}

// Clauses see the items, and the streams that were closed.
impl Model for Outbox {
    ghost use Rattle.session_core.specs.Queue.{Queue, IsCounted};

    ghost Value = { Queue };

    ghost view = { λ o. record { items = o.items.items; closed = o.closed } };

    ghost invariant = { λ o. IsCounted o.items.items o.bytes o.closed };
}

impl Outbox {
    /// Nothing waits. It takes no memory.
    pub fn new(alloc: Global) -> Self
        ensures { result ≡ record { items = []; closed = [] } }
    {
        Outbox {
            items: Vec::new(alloc),
            bytes: 0,
            closed: StreamSet::none(),
        }
    }

    /// Whether a stanza of so many bytes may wait too.
    pub fn has_room(&self, size: usize) -> bool
        ensures { result ≡ has_room_for self.now.items size }
    {
        self.items.len() < MOST_WAITING && size <= WAITING_BYTES - self.bytes
    }

    /// Whether the server closed the stream.
    pub fn is_closed(&self, stream: StreamNo) -> bool
        ensures { result ≡ is_among self.now.closed stream }
    {
        self.closed.contains(stream)
    }

    pub fn is_empty(&self) -> bool
        ensures { result ≡ (length self.now.items == 0) }
    {
        self.items.is_empty()
    }

    /// How many items wait, and the bytes of the stanzas among them.
    pub fn counts(&self) -> Waiting
        ensures { result ≡ record { items = length self.now.items; bytes = size_of_all self.now.items } }
    {
        // The proof learns here that eight streams were closed at most.
        let _closed = self.closed.len();
        Waiting {
            items: self.items.len() as u32,
            bytes: self.bytes as u32,
        }
    }

    /// A stanza waits last from now on.
    pub fn push_stanza(&mut self, stream: StreamNo, bytes: SharedText) -> Result<(), AllocError>
        requires { IsTrue (has_room_for self.old.items (length bytes)) }
        ensures after { OnOk result (self.new ≡ record self.old { items = self.old.items ++ Stanza stream bytes ∷ [] }) }
        ensures err { OnErr result (self.new ≡ self.old) }
    {
        let size = bytes.len();
        self.items.push(Outward::Stanza(stream, bytes))?;
        self.bytes += size;
        Ok(())
    }

    /// The stream's closing waits last from now on.
    pub fn push_closing(&mut self, stream: StreamNo, closing: Closing) -> Result<(), AllocError>
        requires { is_among self.old.closed stream ≡ false }
        ensures after { OnOk result (self.new ≡ record { items = self.old.items ++ Close stream closing ∷ []; closed = with_stream self.old.closed stream }) }
        ensures err { OnErr result (self.new ≡ self.old) }
    {
        // The proof learns here that it is below 8.
        let _number = stream.number();
        self.items.push(Outward::Close(stream, closing))?;
        self.closed.insert(stream);
        Ok(())
    }

    /// Takes what one answer takes: one closing where that comes first, else the longest front of stanzas of one stream that fits.
    pub fn take_front(&mut self) -> Result<Front, AllocError>
        ensures front { IfOk result (λ front. front ≡ front_of self.old.items) }
        ensures after { IfOk result (λ front. self.new ≡ record self.old { items = drop (length (items_in front)) self.old.items }) }
        ensures err { OnErr result (self.new ≡ self.old) }
    {
        if let Some((stream, closing)) = first_closing(&self.items) {
            self.items.remove(0);
            return Ok(Front::OfClosing(stream, closing));
        }
        let fitting = longest_fitting(&self.items);
        let rest = self.items.split_off(fitting.count)?;
        let taken = std::mem::replace(&mut self.items, rest);
        self.bytes -= fitting.bytes;
        Ok(Front::OfStanzas(Row::from_vec(taken)))
    }

    /// A second outbox with the same items.
    pub fn copied(&self, alloc: Global) -> Result<Self, AllocError>
        ensures { IfOk result (λ copy. copy ≡ self.now) }
    {
        Ok(Outbox {
            items: copy_items(alloc, &self.items)?,
            bytes: self.bytes,
            closed: self.closed.copied(),
        })
    }
}

// The closing that comes first, where one does.
fn first_closing(items: &[Outward]) -> Option<(StreamNo, Closing)>
    ensures { result ≡ first_closing items.now }
{
    match items {
        [Outward::Close(stream, closing), ..] => Some((*stream, *closing)),
        _ => None,
    }
}

// How many of the first items one answer may take, and their bytes.
#[derive(Clone, Copy)]
struct Fitting {
    count: usize,
    bytes: usize,
}

// The longest front of stanzas that one answer may take.
fn longest_fitting(items: &[Outward]) -> Fitting
    ensures longest { take result.count items.now ≡ longest_front (min most_waiting (length items.now)) items.now }
    ensures bytes { result.bytes ≡ size_of_all (take result.count items.now) }
    ensures within { result.count ≤ length items.now }
{
    let Some(first) = items.first() else {
        return Fitting { count: 0, bytes: 0 };
    };
    longest_of(items, first.stream())
}

// The same, where the first item is of this stream.
fn longest_of(items: &[Outward], stream: StreamNo) -> Fitting
    ensures longest { first_stream items.now ≡ Some stream → take result.count items.now ≡ longest_front (min most_waiting (length items.now)) items.now }
    ensures bytes { result.bytes ≡ size_of_all (take result.count items.now) }
    ensures within { result.count ≤ length items.now }
{
    let most = items.len().min(MOST_WAITING);
    let mut bytes = 0;
    for count in 0..most {
        let Some(sum) = sum_with(bytes, stream, &items[count]) else {
            return Fitting { count, bytes };
        };
        bytes = sum;
    }
    Fitting { count: most, bytes }
}

// The sum with this item, where it is a stanza of the stream that still fits.
fn sum_with(bytes: usize, stream: StreamNo, item: &Outward) -> Option<usize>
    requires { bytes ≤ longest_stanza }
    ensures { SomeIff result (((is_close item.now ≡ false) × (stream_in item.now ≡ stream)) × (bytes + size_of item.now ≤ longest_stanza)) (bytes + size_of item.now) }
{
    match item {
        Outward::Stanza(other, text) => {
            if *other != stream || text.len() > LONGEST_STANZA - bytes {
                return None;
            }
            Some(bytes + text.len())
        }
        Outward::Close(_, _) => None,
    }
}

ghost use Rattle.std.specs.Prelude.{◌≡◌, ◌<◌, ℕ, List, Option, ◌≤◌, ◌==◌, ◌+◌, IfOk, OnOk, OnErr, [], ◌∷◌, ◌++◌, None, Some, drop, false, if◌then◌else◌, length, min, slice_get, take, true};
ghost use Rattle.std.specs.List.{count_by, list_any};
ghost use Rattle.std.specs.Option.{SomeIff, option_copied};
ghost use Rattle.bosh_types.specs.Limits.{longest_stanza, most_children, most_waiting};
ghost use Rattle.bosh_client.specs.declared.outgoing.Outgoing.{Outgoing};
ghost use Rattle.bosh_client.specs.declared.outgoing.Outgoing.TheVariants.{Stanza};
ghost use Rattle.bosh_client.specs.Outgoing.{front_of, host_in, is_stanza, longest_front, same_stream, size_of, stanzas_in, stream_of};
ghost use Rattle.bosh_client.specs.Loads.{Loads};

use crate::outgoing::Outgoing;
use bosh_types::limits::{LONGEST_STANZA, MOST_CHILDREN};
use bosh_types::{CopyIn, Stanzas, StreamNo, Text};
use std::alloc::{AllocError, Global};
use std::collections::VecDeque;
use std::marker::Model;

/// What a client has to send and is in no request yet, in order.
#[derive(Debug, Drop)]
pub(crate) struct Queue {
    items: VecDeque<Outgoing>,
    // How many stanzas there are among them.
    stanzas: usize,
}

// Clauses see the items.
impl Model for Queue {
    ghost use Rattle.std.specs.Prelude.{◌≡◌, ◌≤◌, List};
    ghost use Rattle.std.specs.List.{count_by};
    ghost use Rattle.bosh_types.specs.Limits.{most_waiting};
    ghost use Rattle.bosh_client.specs.declared.outgoing.Outgoing.{Outgoing};
    ghost use Rattle.bosh_client.specs.Outgoing.{is_stanza};

    ghost Value = { List Outgoing };

    ghost view = { λ q. q.items.items };

    ghost invariant = { λ q. (q.stanzas ≡ count_by is_stanza q.items.items) × (q.stanzas ≤ most_waiting) };
}

/// What one body takes of a queue: how many of the first items, and what they are, texts apart.
#[derive(Clone, Copy)]
pub(crate) struct Load {
    pub(crate) count: usize,
    pub(crate) stream: Option<StreamNo>,
    pub(crate) pause: Option<u32>,
    pub(crate) terminate: bool,
    pub(crate) restart: bool,
}

impl Queue {
    /// Nothing is queued. It takes no memory.
    pub(crate) fn new(alloc: Global) -> Self
        ensures { result ≡ [] }
    {
        Queue {
            items: VecDeque::new(alloc),
            stanzas: 0,
        }
    }

    /// How many stanzas are queued.
    pub(crate) fn stanzas(&self) -> usize
        ensures { result ≡ count_by is_stanza self.now }
    {
        self.stanzas
    }

    pub(crate) fn first(&self) -> Option<&Outgoing>
        ensures { option_copied result ≡ slice_get self.now 0 }
    {
        self.items.front()
    }

    /// A stanza comes last from now on.
    pub(crate) fn push_stanza(
        &mut self,
        on: Option<StreamNo>,
        bytes: Text,
    ) -> Result<(), AllocError>
        requires { count_by is_stanza self.old < most_waiting }
        ensures after { OnOk result (self.new ≡ self.old ++ Stanza on bytes ∷ []) }
        ensures err { OnErr result (self.new ≡ self.old) }
    {
        self.items.push_back(Outgoing::Stanza { on, bytes })?;
        self.stanzas += 1;
        Ok(())
    }

    /// Something else comes last from now on.
    pub(crate) fn push_other(&mut self, item: Outgoing) -> Result<(), AllocError>
        requires { is_stanza item ≡ false }
        ensures after { OnOk result (self.new ≡ self.old ++ item ∷ []) }
        ensures err { OnErr result (self.new ≡ self.old) }
    {
        self.items.push_back(item)?;
        Ok(())
    }

    /// What one body takes.
    pub(crate) fn load(&self) -> Load
        ensures { Loads self.now result }
    {
        match self.first() {
            None => Load::of(0),
            Some(Outgoing::Stanza { on, .. }) => self.stanza_load(*on),
            Some(Outgoing::Restart) => Load {
                restart: true,
                ..Load::of(1)
            },
            Some(Outgoing::Pause(seconds)) => Load {
                pause: Some(*seconds),
                ..Load::of(1)
            },
            Some(Outgoing::Add(_)) => Load::of(1),
            Some(Outgoing::Close(stream)) => Load {
                stream: Some(*stream),
                terminate: true,
                ..Load::of(1)
            },
            Some(Outgoing::Terminate) => Load {
                terminate: true,
                ..Load::of(1)
            },
        }
    }

    // What one body takes, where the first item is a stanza that is for this stream.
    fn stanza_load(&self, on: Option<StreamNo>) -> Load
        ensures { (bytes : List ℕ) → slice_get self.now 0 ≡ Some (Stanza on bytes) → Loads self.now result }
    {
        let count = self.fitting();
        Load {
            stream: stream_for(on, count),
            ..Load::of(count)
        }
    }

    // How long the longest front of stanzas for the same stream is that one body may take.
    fn fitting(&self) -> usize
        ensures longest { take result self.now ≡ longest_front (min most_children (length self.now)) self.now }
        ensures within { result ≤ length self.now }
    {
        let most = self.items.len().min(MOST_CHILDREN);
        let mut bytes = 0;
        for count in 0..most {
            let Some(sum) = sum_with(&self.items[0], bytes, &self.items[count]) else {
                return count;
            };
            bytes = sum;
        }
        most
    }

    /// The stanzas among the first items.
    pub(crate) fn stanzas_in(&self, alloc: Global, count: usize) -> Result<Stanzas, AllocError>
        requires { count ≤ length self.now }
        ensures { IfOk result (λ stanzas. stanzas ≡ stanzas_in (take count self.now)) }
    {
        let mut stanzas = Vec::with_capacity(alloc, count)?;
        for index in 0..count {
            push_stanza(alloc, &mut stanzas, &self.items[index])?;
        }
        Ok(Stanzas::from_vec(stanzas))
    }

    /// The host to which what one body takes adds a stream, if it does.
    pub(crate) fn host_in(&self, alloc: Global) -> Result<Option<Text>, AllocError>
        ensures { IfOk result (λ host. host ≡ host_in (front_of self.now)) }
    {
        match self.first() {
            Some(item) => host_of(alloc, item),
            None => Ok(None),
        }
    }

    /// The first items are in a request from now on. It takes no memory.
    pub(crate) fn drop_front(&mut self, count: usize)
        ensures { self.new ≡ drop count self.old }
    {
        for _item in 0..count {
            self.drop_first();
        }
    }

    fn drop_first(&mut self)
        ensures { self.new ≡ drop 1 self.old }
    {
        if let Some(Outgoing::Stanza { .. }) = self.items.pop_front() {
            self.stanzas -= 1;
        }
    }
}

impl Load {
    // So many items that are nothing but stanzas, for all streams.
    fn of(count: usize) -> Self
        ensures { result ≡ record { count = count; stream = None; pause = None; terminate = false; restart = false } }
    {
        Load {
            count,
            stream: None,
            pause: None,
            terminate: false,
            restart: false,
        }
    }
}

// Puts the item at the end, where it is a stanza.
fn push_stanza(alloc: Global, stanzas: &mut Vec<Text>, item: &Outgoing) -> Result<(), AllocError>
    ensures { OnOk result (stanzas.new.items ≡ stanzas.old.items ++ stanzas_in (item.now ∷ [])) }
{
    match item {
        Outgoing::Stanza { bytes, .. } => {
            stanzas.push(bytes.copy_in(alloc)?)?;
            Ok(())
        }
        _ => Ok(()),
    }
}

// The host to which this adds a stream, if it does.
fn host_of(alloc: Global, item: &Outgoing) -> Result<Option<Text>, AllocError>
    ensures { IfOk result (λ host. host ≡ host_in (item.now ∷ [])) }
{
    match item {
        Outgoing::Add(to) => Ok(Some(to.copy_in(alloc)?)),
        _ => Ok(None),
    }
}

// The stream of so many stanzas, the first of which is for this one.
fn stream_for(on: Option<StreamNo>, count: usize) -> Option<StreamNo>
    ensures { result ≡ (if count == 0 then None else on) }
{
    if count == 0 {
        return None;
    }
    on
}

// The sum with this item, where it is a stanza for the same stream as the first one that still fits.
fn sum_with(first: &Outgoing, bytes: usize, item: &Outgoing) -> Option<usize>
    requires { bytes ≤ longest_stanza }
    ensures { SomeIff result
        ((is_stanza item.now ≡ true) × (same_stream (stream_of first.now) (stream_of item.now) ≡ true) × (bytes + size_of item.now ≤ longest_stanza))
        (bytes + size_of item.now) }
{
    match item {
        Outgoing::Stanza { on, bytes: text } => {
            if !same_stream(stream_of(first), *on) {
                return None;
            }
            if text.len() > LONGEST_STANZA - bytes {
                return None;
            }
            Some(bytes + text.len())
        }
        _ => None,
    }
}

// The stream that it is for, where it is for one alone.
fn stream_of(item: &Outgoing) -> Option<StreamNo>
    ensures { result ≡ stream_of item.now }
{
    match item {
        Outgoing::Stanza { on, .. } => *on,
        Outgoing::Close(stream) => Some(*stream),
        _ => None,
    }
}

// Whether both are for the same stream, or both for all of them.
fn same_stream(on: Option<StreamNo>, other: Option<StreamNo>) -> bool
    ensures { result ≡ same_stream on other }
{
    match (on, other) {
        (None, None) => true,
        (Some(stream), Some(other)) => stream == other,
        _ => false,
    }
}

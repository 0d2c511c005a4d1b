ghost use Rattle.std.specs.Prelude.{◌≡◌, ◌<◌, ◌^◌, IfOk, IfSome, OnOk, OnErr, [], ◌∷◌, ◌++◌, drop, length, slice_get};
ghost use Rattle.std.specs.List.{list_any};
ghost use Rattle.pause_rules.specs.Due.{IsFirstMoment, is_wait_due};
ghost use Rattle.session_core.specs.Due.{earlier};

use crate::added::AddedStream;
use bosh_types::{CopyIn, Moment, Rid, copy_queue};
use pause_rules::Deadlines;
use std::alloc::{AllocError, Global};
use std::collections::VecDeque;
use std::marker::Model;

/// A request that waits for its answer, as far as that depends on it.
#[derive(Clone, Copy, Debug, PartialEq, Eq)]
pub struct HeldRequest {
    pub rid: Rid,
    /// When it arrived.
    pub arrived: Moment,
    /// Whether it is answered at once, and its answer takes nothing: it asks for a pause or adds a stream (XEP-0124, sections 10
    /// and 16).
    pub prompt: bool,
    /// The stream that it opened.
    pub opened: AddedStream,
}

impl CopyIn for HeldRequest {
    fn copy_in(&self, _alloc: Global) -> Result<Self, AllocError> {
        Ok(*self)
    }
}

/// The requests that are held, the oldest first.
#[derive(Debug, Drop)]
pub struct HeldRequests {
    requests: VecDeque<HeldRequest>,
}

impl Model for HeldRequests {
    ghost use Rattle.std.specs.Prelude.{List};
    ghost use Rattle.session_core.specs.declared.held.HeldRequest.{HeldRequest};

    ghost Value = { List HeldRequest };

    ghost view = { λ h. h.requests.items };
}

impl HeldRequests {
    /// None is held. It takes no memory.
    pub fn new(alloc: Global) -> Self
        ensures { result ≡ [] }
    {
        HeldRequests {
            requests: VecDeque::new(alloc),
        }
    }

    pub fn len(&self) -> usize
        ensures { result ≡ length self.now }
    {
        self.requests.len()
    }

    /// The oldest one, if any is held.
    pub fn oldest(&self) -> Option<HeldRequest>
        ensures { result ≡ slice_get self.now 0 }
    {
        match self.requests.front() {
            Some(request) => Some(*request),
            None => None,
        }
    }

    /// Whether one of them has waited its time.
    pub fn any_wait_due(&self, deadlines: &Deadlines, now: Moment) -> bool
        ensures { result ≡ list_any (λ held. is_wait_due deadlines.now.terms held.arrived now) self.now }
    {
        self.requests
            .iter()
            .any(|request| deadlines.wait_due(request.arrived, now))
    }

    /// The first moment at which one of them has waited its time: `None` exactly where no moment of 64 bits is so late.
    pub fn first_wait_due(&self, deadlines: &Deadlines) -> Option<Moment>
        ensures first { IsFirstMoment (λ now. list_any (λ held. is_wait_due deadlines.now.terms held.arrived now) self.now) result }
        ensures small { IfSome result (λ moment. moment < 2 ^ 64) }
    {
        let mut first = None;
        for index in 0..self.requests.len() {
            let due = deadlines.wait_due_at(self.requests[index].arrived);
            first = earlier_of(first, due);
        }
        first
    }

    /// Whether one of them is answered at once.
    pub fn any_prompt(&self) -> bool
        ensures { result ≡ list_any (λ held. held.prompt) self.now }
    {
        self.requests.iter().any(|request| request.prompt)
    }

    /// It is held, as the youngest.
    pub fn push(&mut self, request: HeldRequest) -> Result<(), AllocError>
        ensures after { OnOk result (self.new ≡ self.old ++ request ∷ []) }
        ensures err { OnErr result (self.new ≡ self.old) }
    {
        self.requests.push_back(request)?;
        Ok(())
    }

    /// The oldest one is held no longer. It takes no memory.
    pub fn take_oldest(&mut self) -> Option<HeldRequest>
        ensures oldest { result ≡ slice_get self.old 0 }
        ensures after { self.new ≡ drop 1 self.old }
    {
        self.requests.pop_front()
    }

    /// The same requests a second time.
    pub fn copied(&self, alloc: Global) -> Result<Self, AllocError>
        ensures { IfOk result (λ copy. copy ≡ self.now) }
    {
        Ok(HeldRequests {
            requests: copy_queue(alloc, &self.requests)?,
        })
    }
}

/// The earlier of two moments, where there are any.
pub(crate) fn earlier_of(one: Option<Moment>, other: Option<Moment>) -> Option<Moment>
    ensures { result ≡ earlier one other }
{
    let (Some(first), Some(second)) = (one, other) else {
        return one.or(other);
    };
    Some(first.min(second))
}

ghost use Rattle.std.specs.Prelude.{◌≡◌, IfOk};
ghost use Rattle.session_core.specs.Copy.{is_add, is_empty, is_extra, is_pause, is_poll, is_prompt, names_host};
ghost use Rattle.session_core.specs.Rules.{mark_of};

use body_cutter::Spans;
use bosh_types::{CopyIn, Moment, SharedText};
use pause_rules::Mark;
use session_attrs::{Kind, Request};
use std::alloc::{AllocError, Global};
use std::marker::Model;
use std::sync::Arc;

/// A request as it arrives at its session: the same request may arrive in several copies.
#[derive(Debug, Drop)]
pub struct RequestCopy {
    /// What its body says.
    pub request: Request,
    /// The body's bytes, which may be held in several places.
    pub body: SharedText,
    /// When it arrived.
    pub arrived: Moment,
}

impl RequestCopy {
    /// Whether it asks for a pause (XEP-0124, section 10): a terminate pauses nothing.
    pub(crate) fn is_pause(&self) -> bool
        ensures { result ≡ is_pause self.now }
    {
        self.request.pause.is_some() && !self.request.terminate
    }

    /// Whether it may come one id further than others: a pause or a terminate (XEP-0124, section 11).
    pub(crate) fn is_extra(&self) -> bool
        ensures { result ≡ is_extra self.now }
    {
        self.request.pause.is_some() || self.request.terminate
    }

    /// Whether it carries nothing (XEP-0124, section 11).
    pub(crate) fn is_empty(&self) -> bool
        ensures { result ≡ is_empty self.now }
    {
        self.request.stanzas.is_empty()
            && !self.is_pause()
            && !(self.request.terminate || self.request.restart)
    }

    // Whether it names a host and no stream.
    fn names_host(&self) -> bool
        ensures { result ≡ names_host self.now }
    {
        self.request.to.is_some() && self.request.stream.is_none()
    }

    /// Whether it adds a stream to its session (XEP-0124, section 16).
    pub(crate) fn is_add(&self) -> bool
        ensures { result ≡ is_add self.now }
    {
        self.is_empty() && self.names_host()
    }

    /// Whether it carries nothing and asks for nothing but an answer (XEP-0124, sections 11 and 12).
    pub(crate) fn is_poll(&self) -> bool
        ensures { result ≡ is_poll self.now }
    {
        self.is_empty() && !self.names_host()
    }

    /// Whether it is answered at once, and its answer takes nothing.
    pub(crate) fn is_prompt(&self) -> bool
        ensures { result ≡ is_prompt self.now }
    {
        self.is_pause() || self.is_add()
    }

    /// What the rule on activity asks of it.
    pub(crate) fn mark(&self) -> Mark
        ensures { result ≡ mark_of self.now }
    {
        Mark {
            arrived: self.arrived,
            empty: self.is_poll(),
            creation: false,
            bare: false,
        }
    }
}

/// A copy that is held in several places at once.
#[derive(Debug, Drop)]
pub struct SharedCopy {
    copy: Arc<RequestCopy, Global>,
}

// Clauses see the copy.
impl Model for SharedCopy {
    ghost use Rattle.session_core.specs.declared.copy.RequestCopy.{RequestCopy};
    ghost use Rattle.std.specs.Arc.{arc_value};

    ghost Value = { RequestCopy };

    ghost view = { λ s. arc_value s.copy };
}

impl SharedCopy {
    pub(crate) fn new(alloc: Global, copy: RequestCopy) -> Result<Self, AllocError>
        ensures { IfOk result (λ shared. shared ≡ copy) }
    {
        match Arc::new(alloc, copy) {
            Ok(copy) => Ok(SharedCopy { copy }),
            Err(_) => Err(AllocError),
        }
    }

    pub(crate) fn get(&self) -> &RequestCopy
        ensures { result.now ≡ self.now }
    {
        &self.copy
    }
}

impl CopyIn for SharedCopy {
    fn copy_in(&self, _alloc: Global) -> Result<Self, AllocError> {
        Ok(SharedCopy {
            copy: Arc::try_clone(&self.copy)?,
        })
    }
}

/// A second request, equal to the first. The only error is want of memory.
pub fn copied_request(alloc: Global, request: &Request) -> Result<Request, AllocError>
    ensures { IfOk result (λ copy. copy ≡ request.now) }
{
    Ok(Request {
        rid: request.rid,
        kind: copied_kind(alloc, &request.kind)?,
        ack: request.ack,
        key: request.key.copy_in(alloc)?,
        newkey: request.newkey.copy_in(alloc)?,
        pause: request.pause,
        stream: request.stream.copy_in(alloc)?,
        to: request.to.copy_in(alloc)?,
        restart: request.restart,
        terminate: request.terminate,
        stanzas: Spans::from_vec(Vec::from_slice(alloc, request.stanzas.as_slice())?),
    })
}

fn copied_kind(alloc: Global, kind: &Kind) -> Result<Kind, AllocError>
    ensures { IfOk result (λ copy. copy ≡ kind.now) }
{
    match kind {
        Kind::Creation(creation) => Ok(Kind::Creation(*creation)),
        Kind::Later { sid } => Ok(Kind::Later {
            sid: sid.copy_in(alloc)?,
        }),
    }
}

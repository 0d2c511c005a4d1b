// What comes on a stream over its link.
ghost use Rattle.std.specs.Prelude.{◌≡◌, ◌≢◌, ◌≤◌, ◌++◌, [], ℕ, List, Option, Some, IfNone, IfOk, IfSome, OnErr, OnOk};
ghost use Rattle.std.specs.Io.KnownBytes.{Consumes, Keeps};
ghost use Rattle.bosh_ports.specs.Faults.{HasRisen};
ghost use Rattle.xmpp_stream.specs.Cut.{IsCut, Tells};
ghost use Rattle.xmpp_stream.specs.Wire.{Comes, IsRead, Stays, Steps, TakesAtLeast};

use crate::poll_link::PollLink;
use crate::stream_cutter::{StreamCutter, StreamItem};
use bosh_ports::Got;
use bosh_types::SharedText;
use std::alloc::{AllocError, Global};
use std::marker::Model;

// How many bytes are taken at once at most, and how many times in one poll.
const ROOM: usize = 8192;

const MOST_PIECES: u32 = 128;

/// What comes next on a stream over its link.
#[derive(Debug, Drop)]
pub enum Came {
    /// The next element, as it stands alone.
    Item(SharedText),
    /// The stream ended with its end tag; `error` says whether it told of an error before.
    Closed { error: bool },
    /// No stream goes on so, at what begins after this many bytes.
    Broken(u64),
    /// The link has nothing now.
    NotYet,
    /// 128 pieces were taken, and no element is whole.
    Busy,
    /// The link came to its end before the stream's.
    End,
    /// The link failed.
    Failed,
}

/// Takes what comes on a stream over a link that doesn't wait, and cuts it into its elements.
#[derive(Drop)]
pub struct Incoming {
    cutter: StreamCutter,
    room: Vec<u8>,
    waiting: usize,
}

impl Model for Incoming {
    ghost use Rattle.std.specs.Prelude.{◌<◌, ◌≤◌, take, vec_len};
    ghost use Rattle.xmpp_stream.specs.Wire.{Incoming};

    ghost Value = { Incoming };

    ghost view = { λ i. record { cutter = i.cutter; waiting = take i.waiting i.room.items } };

    ghost invariant = { λ i. (i.waiting ≤ vec_len i.room) × (0 < vec_len i.room) };
}

impl Incoming {
    /// Nothing was taken yet. The only error is want of memory.
    pub fn new(alloc: Global) -> Result<Incoming, AllocError>
        ensures { (start : Option (List ℕ)) → IfOk result (λ incoming. IsRead start start incoming []) }
    {
        let room = vec![in alloc; 0u8; ROOM]?;
        let cutter = StreamCutter::new(alloc);
        Ok(Incoming {
            cutter,
            room,
            waiting: 0,
        })
    }

    /// What comes next: of the bytes that were taken, or of those that the link has now. The only error is want of memory, after which
    /// the same comes next.
    pub fn poll<L: PollLink>(&mut self, link: &mut L) -> Result<Came, AllocError>
        ensures ok { (start : Option (List ℕ)) (elements : List (List ℕ)) → IsRead start (L.left link.old) self.old elements → IfOk result (λ came. Comes came start (L.left link.new) self.new elements) }
        ensures err { (start : Option (List ℕ)) (elements : List (List ℕ)) → IsRead start (L.left link.old) self.old elements → OnErr result (IsRead start (L.left link.new) self.new elements) }
        ensures given { Keeps (L.given link.old) (L.given link.new) }
        ensures failed { IfOk result (λ came. came ≡ Came.Failed → HasRisen (L.faults link.old) (L.faults link.new)) }
        ensures faults { L.faults link.old ≤ L.faults link.new }
        ensures never_falls { L.idle link.old ≤ L.idle link.new }
        ensures waits { IfOk result (λ came. came ≡ Came.NotYet → HasRisen (L.idle link.old) (L.idle link.new)) }
        ensures busy { IfOk result (λ came. came ≡ Came.Busy → TakesAtLeast 128 (L.left link.old) (L.left link.new)) }
    {
        for _ in 0..MOST_PIECES {
            match self.step(link)? {
                Some(came) => return Ok(came),
                None => {}
            }
        }
        Ok(Came::Busy)
    }

    // The next thing of what was taken; where there is none, one more piece is taken.
    fn step<L: PollLink>(&mut self, link: &mut L) -> Result<Option<Came>, AllocError>
        ensures ok { (start : Option (List ℕ)) (elements : List (List ℕ)) → IsRead start (L.left link.old) self.old elements → IfOk result (λ came. Steps came start (L.left link.new) self.new elements) }
        ensures err { (start : Option (List ℕ)) (elements : List (List ℕ)) → IsRead start (L.left link.old) self.old elements → OnErr result (IsRead start (L.left link.new) self.new elements) }
        ensures given { Keeps (L.given link.old) (L.given link.new) }
        ensures failed { IfOk result (λ came. came ≡ Some Came.Failed → HasRisen (L.faults link.old) (L.faults link.new)) }
        ensures faults { L.faults link.old ≤ L.faults link.new }
        ensures never_falls { L.idle link.old ≤ L.idle link.new }
        ensures waits { IfOk result (λ came. came ≡ Some Came.NotYet → HasRisen (L.idle link.old) (L.idle link.new)) }
        ensures still { IfOk result (λ came. IfNone came (L.idle link.new ≡ L.idle link.old)) }
        ensures more { IfOk result (λ came. IfNone came (TakesAtLeast 1 (L.left link.old) (L.left link.new))) }
        ensures unbusy { IfOk result (λ came. came ≢ Some Came.Busy) }
    {
        self.feed()?;
        match self.next()? {
            StreamItem::More => Ok(self.take(link)),
            StreamItem::Item(text) => Ok(Some(Came::Item(text))),
            StreamItem::Closed { error } => Ok(Some(Came::Closed { error })),
            StreamItem::Broken(place) => Ok(Some(Came::Broken(place))),
        }
    }

    fn next(&mut self) -> Result<StreamItem, AllocError>
        ensures ok { (fed : List ℕ) (elements : List (List ℕ)) → IsCut self.old.cutter fed elements → IfOk result (λ item. Tells item self.new.cutter fed elements) }
        ensures err { (fed : List ℕ) (elements : List (List ℕ)) → IsCut self.old.cutter fed elements → OnErr result (IsCut self.new.cutter fed elements) }
        ensures waiting { self.new.waiting ≡ self.old.waiting }
    {
        self.cutter.next()
    }

    // Feeds what was taken.
    fn feed(&mut self) -> Result<(), AllocError>
        ensures ok { (start left : Option (List ℕ)) (elements : List (List ℕ)) → IsRead start left self.old elements → OnOk result (IsRead start left self.new elements) }
        ensures waiting { OnOk result (self.new.waiting ≡ []) }
        ensures err { (start left : Option (List ℕ)) (elements : List (List ℕ)) → IsRead start left self.old elements → OnErr result (IsRead start left self.new elements) }
    {
        self.cutter.feed(&self.room[..self.waiting])?;
        self.waiting = 0;
        Ok(())
    }

    // Takes one more piece, or says why there is none.
    fn take<L: PollLink>(&mut self, link: &mut L) -> Option<Came>
        requires { self.old.waiting ≡ [] }
        ensures cutter { self.new.cutter ≡ self.old.cutter }
        ensures none { IfNone result (Consumes (L.left link.old) (L.left link.new) self.new.waiting) }
        ensures some { IfSome result (λ came. Stays came (L.left link.old) (L.left link.new) × (self.new.waiting ≡ [])) }
        ensures given { Keeps (L.given link.old) (L.given link.new) }
        ensures failed { result ≡ Some Came.Failed → HasRisen (L.faults link.old) (L.faults link.new) }
        ensures faults { L.faults link.old ≤ L.faults link.new }
        ensures never_falls { L.idle link.old ≤ L.idle link.new }
        ensures waits { result ≡ Some Came.NotYet → HasRisen (L.idle link.old) (L.idle link.new) }
        ensures still { IfNone result (L.idle link.new ≡ L.idle link.old) }
        ensures more { IfNone result (TakesAtLeast 1 (L.left link.old) (L.left link.new)) }
        ensures unbusy { result ≢ Some Came.Busy }
    {
        match link.try_take(&mut self.room) {
            None => Some(Came::NotYet),
            Some(Got::Bytes(count)) => {
                self.waiting = count;
                None
            }
            Some(Got::End) => Some(Came::End),
            Some(Got::Failed) => Some(Came::Failed),
        }
    }
}

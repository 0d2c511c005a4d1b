// Looking for the end of an element in bytes that grow.
ghost use Rattle.std.specs.Prelude.{◌≡◌, ◌≤◌, [], ℕ, List, None, OnErr, IfOk, length, take};
ghost use Rattle.body_cutter.specs.Begun.{HasBegun};
ghost use Rattle.xmpp_stream.specs.Cut.{Finds, IsWithin, Scans};

use body_cutter::{Fed, StanzaCutter};
use std::alloc::{AllocError, Global};

// How much of an element was looked at, each byte once.
#[derive(Drop)]
pub(crate) struct Scan {
    pub(crate) cutter: Option<StanzaCutter>,
    pub(crate) count: usize,
}

// What was found.
#[derive(Clone, Copy, Debug, PartialEq, Eq)]
pub(crate) enum Scanned {
    More,
    // An element of so many bytes.
    Whole(usize),
    // No stanza begins so.
    Refused,
}

impl Scan {
    pub(crate) fn new() -> Scan
        ensures { Scans result [] }
    {
        Scan {
            cutter: None,
            count: 0,
        }
    }

    // What goes on with the next byte.
    fn begun(&mut self, alloc: Global) -> StanzaCutter
        ensures begun { (front : List ℕ) → Scans self.old front → HasBegun result front }
        ensures cutter { self.new.cutter ≡ None }
        ensures count { self.new.count ≡ self.old.count }
    {
        match self.cutter.take() {
            Some(cutter) => cutter,
            None => StanzaCutter::new(alloc),
        }
    }

    // Looks at the bytes that were not looked at before. After want of memory it begins anew.
    pub(crate) fn feed(&mut self, alloc: Global, rest: &[u8]) -> Result<Scanned, AllocError>
        ensures ok { self.old.count ≤ length rest.now → Scans self.old (take self.old.count rest.now) → IfOk result (λ found. Finds found self.new rest.now) }
        ensures within { IfOk result (λ found. IsWithin found rest.now) }
        ensures err { OnErr result (Scans self.new []) }
    {
        let cutter = self.begun(alloc);
        let len = rest.len();
        let at = self.count.min(len);
        self.count = 0;
        let left = &rest[at..];
        match cutter.feed(left)? {
            Fed::More(cutter) => {
                self.cutter = Some(cutter);
                self.count = len;
                Ok(Scanned::More)
            }
            Fed::Whole(more) => Ok(Scanned::Whole(len - left.len().saturating_sub(more))),
            Fed::Refused(_) => Ok(Scanned::Refused),
        }
    }
}

// A connection that gives nothing before it is stored.
ghost use Rattle.std.specs.Prelude.{◌≡◌, ◌≤◌, ◌<◌, ◌+◌, ℕ, None, Some, length, true};
ghost use Rattle.std.specs.Io.KnownBytes.{Keeps};
ghost use Rattle.bosh_ports.specs.Faults.{HasRisen};
ghost use Rattle.bosh_ports.specs.Memory.{counted_up};
ghost use Rattle.bosh_ports.specs.Polled.{CountsWait, PollCountsGive, PollGives};
ghost use Rattle.bosh_ports.specs.Sink.{CountsGive, Gives};
ghost use Rattle.serve_journal.specs.Receipts.{GivesBy, IfStored};
ghost use Rattle.serve_journal.specs.declared.receipt.Mark.{Mark};
ghost use Rattle.serve_journal.specs.declared.receipt.Receipt.{Receipt};

use crate::receipt::{Leave, Mark, ask};
use bosh_ports::{Gave, Got, Link, Polled};
use entry_queue::EntryQueue;
use std::os::fd::{AsRawFd, RawFd};
use std::sync::Arc;
use std::sync::atomic::{AtomicU64, Ordering};

/// A link that takes bytes to give only once all is stored that was entered until they came, where entries are stored. It gives none once entries
/// are lost: it fails then.
#[derive(Drop)]
pub struct HeldLink<L: Drop> {
    pub(crate) link: L,
    keeper: Option<Arc<EntryQueue>>,
    // What has to be stored before the bytes at hand are given, where some are at hand.
    mark: Option<Mark>,
    // How often it failed by itself.
    pub(crate) faults: u64,
    // How often it had no room since something wasn't stored yet.
    pub(crate) waits: u64,
    // By what leave it last gave bytes, or gave none.
    leave: Leave,
    // How often it was asked whether it is held since then.
    asked: AtomicU64,
}

impl<L: Drop> HeldLink<L> {
    pub fn new(link: L, keeper: Option<Arc<EntryQueue>>) -> HeldLink<L>
        ensures link { result.link ≡ link }
        ensures faults { result.faults ≡ 0 }
    {
        HeldLink {
            link,
            keeper,
            mark: None,
            faults: 0,
            waits: 0,
            leave: Leave::NotYet,
            asked: AtomicU64::new(0),
        }
    }
}

// Whether the bytes at hand may be given. They have the mark of the moment at which they came, and keep it.
fn may_give(keeper: &Option<Arc<EntryQueue>>, mark: &mut Option<Mark>) -> Leave
    ensures free { result ≡ Leave.Free → keeper.now ≡ None }
    ensures stored { IfStored result (λ receipt. (first : Mark) → mark.old ≡ Some first → receipt.mark ≡ first) }
    ensures keeps { (first : Mark) → mark.old ≡ Some first → mark.new ≡ Some first }
{
    let Some(keeper) = keeper else {
        return Leave::Free;
    };
    let first = match *mark {
        Some(first) => first,
        None => Mark::now(keeper),
    };
    *mark = Some(first);
    ask(keeper, first)
}

// Whether all bytes were given.
fn is_whole(gave: Option<Gave>, bytes: &[u8]) -> bool
    ensures { (count : ℕ) → gave ≡ Some (Gave.Wrote count) → length bytes.now ≤ count → result ≡ true }
{
    match gave {
        Some(Gave::Wrote(count)) => count >= bytes.len(),
        _ => false,
    }
}

// It fails by itself.
fn fail(faults: &mut u64) -> Gave
    ensures failed { result ≡ Gave.Failed }
    ensures counted { faults.new ≡ counted_up faults.old }
    ensures rises { faults.old ≤ faults.new }
{
    *faults = faults.saturating_add(1);
    Gave::Failed
}

impl<L: AsRawFd + Drop> AsRawFd for HeldLink<L> {
    ghost raw_fd = { λ l. L.raw_fd l.link };

    fn as_raw_fd(&self) -> RawFd {
        self.link.as_raw_fd()
    }
}

impl<L: Link + Drop> Link for HeldLink<L> {
    ghost left = { λ l. L.left l.link };

    ghost given = { λ l. L.given l.link };

    ghost closed = { λ l. L.closed l.link };

    ghost faults = { λ l. L.faults l.link + l.faults };

    fn take(&mut self, into: &mut [u8]) -> Got {
        self.link.take(into)
    }

    // One that waits for its peer doesn't wait for the disk: it fails.
    fn give(&mut self, bytes: &[u8]) -> Gave
        requires { 0 < length bytes.now }
        ensures held { GivesBy self.old self.new }
        ensures once { (receipt : Receipt) → self.new.leave ≡ Leave.Stored receipt → self.new.mark ≡ None }
        ensures gives { Gives (L.given self.old.link) (L.given self.new.link) bytes.now result }
        ensures left { Keeps (L.left self.old.link) (L.left self.new.link) }
        ensures closed { L.closed self.new.link ≡ L.closed self.old.link }
        ensures failed { result ≡ Gave.Failed → HasRisen (L.faults self.old.link + self.old.faults) (L.faults self.new.link + self.new.faults) }
        ensures counts { CountsGive (L.faults self.old.link + self.old.faults) (L.faults self.new.link + self.new.faults) result }
        ensures faults { L.faults self.old.link + self.old.faults ≤ L.faults self.new.link + self.new.faults }
    {
        self.leave = may_give(&self.keeper, &mut self.mark);
        match self.leave {
            Leave::Free => self.link.give(bytes),
            Leave::Stored(_) => {
                self.mark = None;
                self.link.give(bytes)
            }
            Leave::NotYet => fail(&mut self.faults),
            Leave::Lost => fail(&mut self.faults),
        }
    }

    fn close(&mut self) {
        self.link.close();
    }
}

impl<L: Polled + Drop> Polled for HeldLink<L> {
    ghost left = { λ l. L.left l.link };

    ghost given = { λ l. L.given l.link };

    ghost closed = { λ l. L.closed l.link };

    ghost faults = { λ l. L.faults l.link + l.faults };

    ghost waits = { λ l. L.waits l.link + l.waits };

    ghost leaves = { λ l. L.leaves l.link };

    fn poll_take(&mut self, into: &mut [u8]) -> Option<Got> {
        self.link.poll_take(into)
    }

    fn poll_give(&mut self, bytes: &[u8]) -> Option<Gave>
        requires { 0 < length bytes.now }
        ensures held { GivesBy self.old self.new }
        // Bytes that come after all of these were given have a mark of their own.
        ensures once { (receipt : Receipt) (count : ℕ) → self.new.leave ≡ Leave.Stored receipt → result ≡ Some (Gave.Wrote count) → length bytes.now ≤ count →
            self.new.mark ≡ None }
        ensures gives { PollGives (L.given self.old.link) (L.given self.new.link) bytes.now result }
        ensures left { Keeps (L.left self.old.link) (L.left self.new.link) }
        ensures closed { L.closed self.new.link ≡ L.closed self.old.link }
        ensures failed { result ≡ Some Gave.Failed → HasRisen (L.faults self.old.link + self.old.faults) (L.faults self.new.link + self.new.faults) }
        ensures counts { PollCountsGive (L.faults self.old.link + self.old.faults) (L.faults self.new.link + self.new.faults) result }
        ensures faults { L.faults self.old.link + self.old.faults ≤ L.faults self.new.link + self.new.faults }
        ensures waits { CountsWait (L.waits self.old.link + self.old.waits) (L.waits self.new.link + self.new.waits) result }
        ensures leaves { L.leaves self.new.link ≡ L.leaves self.old.link }
    {
        self.leave = may_give(&self.keeper, &mut self.mark);
        match self.leave {
            Leave::Free => self.link.poll_give(bytes),
            Leave::Stored(_) => {
                let gave = self.link.poll_give(bytes);
                if is_whole(gave, bytes) {
                    self.mark = None;
                }
                gave
            }
            Leave::NotYet => {
                self.waits = self.waits.saturating_add(1);
                self.asked.store(0, Ordering::SeqCst);
                None
            }
            Leave::Lost => Some(fail(&mut self.faults)),
        }
    }

    fn has_left(&mut self) -> bool {
        self.link.has_left()
    }

    // Who asks for the first time is told why nothing was given, though all may be stored by now: the link within has room, and nobody would tell of
    // that. Who asks again, once a ring would reach it, is told what is so now.
    fn is_held(&self) -> bool {
        let (Some(keeper), Some(mark)) = (&self.keeper, self.mark) else {
            return self.link.is_held();
        };
        if matches!(self.leave, Leave::NotYet) && self.asked.fetch_add(1, Ordering::SeqCst) == 0 {
            return true;
        }
        matches!(ask(keeper, mark), Leave::NotYet)
    }

    fn close(&mut self) {
        self.link.close();
    }
}

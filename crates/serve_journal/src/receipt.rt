// Leave to let something out of the process, which only who stores entries gives.
ghost use Rattle.std.specs.Prelude.{◌≡◌};
ghost use Rattle.serve_journal.specs.Receipts.{IfStored};

use entry_queue::EntryQueue;
use std::sync::Arc;

/// How many entries were noted at some moment: what was made until then may leave once so many are stored. Only this file makes one, of a queue.
#[derive(Clone, Copy, Debug, PartialEq, Eq)]
pub(crate) struct Mark {
    count: u64,
}

impl Mark {
    /// What was noted up to now.
    pub(crate) fn now(keeper: &EntryQueue) -> Mark {
        Mark {
            count: keeper.noted(),
        }
    }
}

/// What has this mark may leave: all is stored that the mark counts. Only this file makes one, once the queue says so.
#[derive(Clone, Copy, Debug, PartialEq, Eq)]
pub(crate) struct Receipt {
    pub(crate) mark: Mark,
    given: (),
}

/// Whether something may leave.
#[derive(Clone, Copy, Debug, PartialEq, Eq)]
pub(crate) enum Leave {
    /// Nothing is stored, so that nothing waits for that.
    Free,
    Stored(Receipt),
    /// Not so many entries are stored yet.
    NotYet,
    /// Entries are lost: what isn't stored by now will never be.
    Lost,
}

/// Asks whether all is stored that the mark counts.
pub(crate) fn ask(keeper: &EntryQueue, mark: Mark) -> Leave
    ensures stored { IfStored result (λ receipt. receipt.mark ≡ mark) }
    ensures kept { result ≡ Leave.Free → ⊥ }
{
    if keeper.is_lost() {
        return Leave::Lost;
    }
    if !keeper.has_stored(mark.count) {
        return Leave::NotYet;
    }
    Leave::Stored(Receipt { mark, given: () })
}

/// One more holder of the queue, if there is one. None where there is none to be had.
pub(crate) fn shared(keeper: &Option<Arc<EntryQueue>>) -> Option<Option<Arc<EntryQueue>>> {
    match keeper {
        Some(keeper) => match Arc::try_clone(keeper) {
            Ok(keeper) => Some(Some(keeper)),
            Err(_) => None,
        },
        None => Some(None),
    }
}

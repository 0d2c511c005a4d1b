// A file of records that groups are added to.
ghost use Rattle.std.specs.Prelude.{◌≡◌, ◌≢◌, ◌⊎◌, ℕ, ◌+◌, ◌≤◌, ◌<◌, ◌^◌, ◌↔◌, List, [], ◌∷◌, ◌++◌, IsTrue, length};
ghost use Rattle.std.specs.List.{AllByRecursion};
ghost use Rattle.journal_store.specs.Crash.{EachCrash};
ghost use Rattle.journal_store.specs.Disk.{Only, CountsDone};
ghost use Rattle.journal_store.specs.RecordFile.{IsAtRest, IsReady, CountsStored};
ghost use Rattle.journal_store.specs.Records.{HasLength, records_of, file_of, IsBeforeOrAfter, IsBeforeOrNone};

use crate::disk::{Disk, DiskDone};
use crate::group::Group;
use crate::steps::{put, trim};

/// What storing a group did.
#[derive(Clone, Copy, Debug, PartialEq, Eq)]
pub enum Stored {
    /// Its records are on the disk.
    Done,
    /// The file would have 2^64 bytes or more: nothing was asked of the disk.
    Full,
    /// The disk failed: the records are there or not, and the file is spent.
    Failed,
    /// An earlier call failed: nothing was asked of the disk.
    Spent,
}

/// A file of records, each on the disk once it is stored. After a fault it takes nothing more, since nobody knows what the
/// disk has: it is to be opened again.
#[derive(Drop)]
pub struct RecordFile<D: Disk> {
    pub(crate) disk: D,
    // Where the closed gate behind the last record stands.
    pub(crate) end: u64,
    pub(crate) is_spent: bool,
}

impl<D: Disk> RecordFile<D> {
    /// Stores the records of a group, all of them or none.
    pub fn store(&mut self, group: &Group) -> Stored
        requires { D.told → IsReady D.seen D.time D.left self.old }
        ensures ready { D.told → IsReady D.seen D.time D.left self.new }
        // Once it is done each crash image has them.
        ensures stored { D.told → result ≡ Stored.Done → (contents added : List (List ℕ)) → AllByRecursion HasLength added → group.now ≡ records_of added →
            IsAtRest D.seen D.time D.left self.old contents → IsAtRest D.seen D.time D.left self.new (contents ++ added) }
        // A crash at any moment of the call leaves the row from before it, or this with all of them.
        ensures any_moment { D.told → (contents added : List (List ℕ)) → AllByRecursion HasLength added → group.now ≡ records_of added →
            IsAtRest D.seen D.time D.left self.old contents → EachCrash D.time D.left self.old.disk self.new.disk (IsBeforeOrAfter contents added) }
        ensures spent { (result ≡ Stored.Spent) ↔ IsTrue self.old.is_spent }
        ensures spends { (IsTrue self.new.is_spent) ↔ (IsTrue self.old.is_spent ⊎ (result ≡ Stored.Failed)) }
        ensures full { result ≡ Stored.Full → 2 ^ 64 ≤ self.old.end + length group.now }
        ensures untouched { (result ≡ Stored.Full) ⊎ (result ≡ Stored.Spent) → self.new ≡ self.old }
        ensures faults { CountsStored (D.faults self.old.disk) (D.faults self.new.disk) result }
    {
        if self.is_spent {
            return Stored::Spent;
        }
        if group.is_empty() {
            return Stored::Done;
        }
        let Some(end) = self.end.checked_add(group.len() as u64) else {
            return Stored::Full;
        };
        match put_behind(&mut self.disk, self.end, group.behind_gate()) {
            DiskDone::Done => {
                self.end = end;
                Stored::Done
            }
            DiskDone::Failed => {
                self.is_spent = true;
                Stored::Failed
            }
        }
    }
}

impl<D: Disk> RecordFile<D> {
    /// Lets all records go, and with them the bytes of the file but the closed gate. It is never `Full`.
    pub fn clear(&mut self) -> Stored
        requires { D.told → IsReady D.seen D.time D.left self.old }
        ensures ready { D.told → IsReady D.seen D.time D.left self.new }
        // Once it is done each crash image has none.
        ensures cleared { D.told → result ≡ Stored.Done → IsAtRest D.seen D.time D.left self.new [] }
        // A crash at any moment of the call leaves the row from before it, or none.
        ensures any_moment { D.told → (contents : List (List ℕ)) → IsAtRest D.seen D.time D.left self.old contents →
            EachCrash D.time D.left self.old.disk self.new.disk (IsBeforeOrNone contents) }
        ensures never_full { result ≢ Stored.Full }
        ensures spent { (result ≡ Stored.Spent) ↔ IsTrue self.old.is_spent }
        ensures spends { (IsTrue self.new.is_spent) ↔ (IsTrue self.old.is_spent ⊎ (result ≡ Stored.Failed)) }
        ensures untouched { result ≡ Stored.Spent → self.new ≡ self.old }
        ensures faults { CountsStored (D.faults self.old.disk) (D.faults self.new.disk) result }
    {
        if self.is_spent {
            return Stored::Spent;
        }
        let done = empty(&mut self.disk);
        self.is_spent = done == DiskDone::Failed;
        match done {
            DiskDone::Done => {
                self.end = 0;
                Stored::Done
            }
            DiskDone::Failed => Stored::Failed,
        }
    }

    pub fn disk(&self) -> &D
        ensures { result.now ≡ self.now.disk }
    {
        &self.disk
    }
}

// Writes behind the closed gate, syncs, opens the gate, and syncs.
fn put_behind<D: Disk>(disk: &mut D, gate: u64, behind: &[u8]) -> DiskDone
    requires in_file { D.told → gate < length (D.seen disk.old) }
    requires in_range { gate + 1 < 2 ^ 64 }
    ensures stored { D.told → result ≡ DiskDone.Done → (contents added : List (List ℕ)) → D.seen disk.old ≡ file_of contents →
        gate ≡ length (records_of contents) → 1 ∷ behind.now ≡ file_of added → D.seen disk.new ≡ file_of (contents ++ added) }
    ensures durable { D.told → result ≡ DiskDone.Done → Only (D.seen disk.new) (D.left disk.new (D.time disk.new)) }
    ensures any_moment { D.told → (contents added : List (List ℕ)) → AllByRecursion HasLength contents → AllByRecursion HasLength added →
        D.seen disk.old ≡ file_of contents → gate ≡ length (records_of contents) → 1 ∷ behind.now ≡ file_of added →
        Only (D.seen disk.old) (D.left disk.old (D.time disk.old)) → EachCrash D.time D.left disk.old disk.new (IsBeforeOrAfter contents added) }
    ensures faults { CountsDone (D.faults disk.old) (D.faults disk.new) result }
{
    match put(disk, gate + 1, behind) {
        DiskDone::Done => put(disk, gate, &[1]),
        DiskDone::Failed => DiskDone::Failed,
    }
}

// Cuts all away, syncs, closes the gate at the start, and syncs.
fn empty<D: Disk>(disk: &mut D) -> DiskDone
    ensures empty { D.told → result ≡ DiskDone.Done → D.seen disk.new ≡ file_of [] }
    ensures durable { D.told → result ≡ DiskDone.Done → Only (D.seen disk.new) (D.left disk.new (D.time disk.new)) }
    ensures any_moment { D.told → (contents : List (List ℕ)) → AllByRecursion HasLength contents → D.seen disk.old ≡ file_of contents →
        Only (D.seen disk.old) (D.left disk.old (D.time disk.old)) → EachCrash D.time D.left disk.old disk.new (IsBeforeOrNone contents) }
    ensures faults { CountsDone (D.faults disk.old) (D.faults disk.new) result }
{
    match trim(disk, 0) {
        DiskDone::Done => put(disk, 0, &[0]),
        DiskDone::Failed => DiskDone::Failed,
    }
}

// Reading the records of a file that a crash may have left, and mending its end.
ghost use Rattle.std.specs.Prelude.{◌≡◌, ℕ, ◌+◌, ◌≤◌, ◌<◌, ◌^◌, List, [], ◌∷◌, ◌++◌, IsTrue, true, false, IfOk, OnOk, length, drop};
ghost use Rattle.std.specs.List.{AllByRecursion};
ghost use Rattle.journal_store.specs.Crash.{EachCrash};
ghost use Rattle.journal_store.specs.Disk.{Only, Untouched, CountsDone};
ghost use Rattle.journal_store.specs.Opening.{HasRead, ReadsNext, IsHead, SaysHead, IsRecordWithin, IsNearer, HasReadRow, CountsRow, CountsHead, CountsNext, CountsBegun, IfOpened, CountsFinished, IfFinished, disk_begun, disk_of};
ghost use Rattle.journal_store.specs.RecordFile.{IsAtRest};
ghost use Rattle.journal_store.specs.Records.{HasLength, IsRowOf, BeginsNoRecord};

use crate::disk::{Disk, DiskDone, Length};
use crate::record_file::RecordFile;
use crate::steps::{put, trim};
use bosh_types::Text;
use std::alloc::{AllocFailed, Global};

const HEAD: u64 = 5;

/// What the beginning of an opening did.
#[derive(Drop)]
pub enum Begun<D: Disk> {
    Opened(Opening<D>),
    /// The disk failed, and comes back.
    Failed(D),
}

/// What reading the next record gives.
#[derive(Debug, Drop)]
pub enum Next {
    /// Its content.
    Content(Text),
    /// No further record stands there.
    End,
    Failed,
    NoMemory,
}

/// Why the records aren't all read.
#[derive(Clone, Copy, Debug, PartialEq, Eq)]
pub enum RowError {
    Failed,
    NoMemory,
}

impl<T: Drop> From<AllocFailed<T>> for RowError {
    ghost use Rattle.std.specs.Prelude.{◌≡◌};
    ghost use Rattle.journal_store.specs.declared.opening.RowError.TheVariants.{NoMemory};

    ghost from_gives = { λ _ e. e ≡ NoMemory };

    fn from(_error: AllocFailed<T>) -> RowError {
        RowError::NoMemory
    }
}

/// What the end of an opening did.
#[derive(Drop)]
pub enum Finished<D: Disk> {
    Opened(RecordFile<D>),
    /// The disk failed, and comes back.
    Failed(D),
}

// What the first five bytes of a record say.
#[derive(Clone, Copy, Debug, PartialEq, Eq)]
pub(crate) enum Head {
    Record(u64),
    NoRecord,
    Failed,
}

/// A file whose records are being read.
#[derive(Drop)]
pub struct Opening<D: Disk> {
    pub(crate) disk: D,
    pub(crate) at: u64,
    pub(crate) length: u64,
    pub(crate) has_ended: bool,
}

impl<D: Disk> Opening<D> {
    /// Syncs, so that what is read is on the disk.
    pub fn begin(disk: D) -> Begun<D>
        ensures nothing_read { D.told → IfOpened result (λ opening. HasRead D.seen D.time D.left opening [] × (D.seen opening.disk ≡ D.seen disk)) }
        ensures begins { IfOpened result (λ opening. opening.has_ended ≡ false) }
        ensures any_moment { D.told → Only (D.seen disk) (D.left disk (D.time disk)) →
            EachCrash D.time D.left disk (disk_begun result) (Untouched (D.seen disk)) }
        ensures faults { CountsBegun D.faults (D.faults disk) result }
    {
        let mut disk = disk;
        match disk.sync() {
            DiskDone::Done => {}
            DiskDone::Failed => return Begun::Failed(disk),
        }
        match disk.length() {
            Length::Bytes(length) => Begun::Opened(Opening {
                disk,
                at: 0,
                length,
                has_ended: false,
            }),
            Length::Failed => Begun::Failed(disk),
        }
    }

    /// Reads the next record. After a fault, or for want of memory, it may be tried again.
    pub fn next(&mut self, alloc: Global) -> Next
        requires { D.told → (contents : List (List ℕ)) × HasRead D.seen D.time D.left self.old contents }
        ensures reads { D.told → (contents : List (List ℕ)) → HasRead D.seen D.time D.left self.old contents →
            ReadsNext D.seen D.time D.left self.new contents result }
        ensures seen { D.told → D.seen self.new.disk ≡ D.seen self.old.disk }
        ensures ended { result ≡ Next.End → self.new.has_ended ≡ true }
        ensures nearer { IsNearer self.old self.new result }
        ensures any_moment { D.told → (contents : List (List ℕ)) → HasRead D.seen D.time D.left self.old contents →
            EachCrash D.time D.left self.old.disk self.new.disk (Untouched (D.seen self.old.disk)) }
        ensures faults { CountsNext (D.faults self.old.disk) (D.faults self.new.disk) result }
    {
        if self.has_ended {
            return Next::End;
        }
        match read_head(&mut self.disk, self.at, self.length) {
            Head::Record(count) => self.read_content(alloc, count),
            Head::NoRecord => {
                self.has_ended = true;
                Next::End
            }
            Head::Failed => Next::Failed,
        }
    }

    /// Reads all records, for a file that is known to be small.
    pub fn read_row(&mut self, alloc: Global) -> Result<Vec<Text>, RowError>
        requires { D.told → HasRead D.seen D.time D.left self.old [] }
        ensures read { D.told → IfOk result (λ contents. HasReadRow D.seen D.time D.left self.new contents.items) }
        ensures ended { OnOk result (self.new.has_ended ≡ true) }
        ensures any_moment { D.told → EachCrash D.time D.left self.old.disk self.new.disk (Untouched (D.seen self.old.disk)) }
        ensures faults { CountsRow (D.faults self.old.disk) (D.faults self.new.disk) result }
    {
        let mut contents = Vec::new(alloc);
        loop {
            match self.next(alloc) {
                Next::Content(content) => contents.push(content)?,
                Next::End => return Ok(contents),
                Next::Failed => return Err(RowError::Failed),
                Next::NoMemory => return Err(RowError::NoMemory),
            }
        }
    }

    // Reads the content of the record that is next, of so many bytes.
    fn read_content(&mut self, alloc: Global, count: u64) -> Next
        requires head { D.told → (self.old.length ≡ length (D.seen self.old.disk)) × IsHead (D.seen self.old.disk) self.old.at (Head.Record count) }
        requires within { self.old.at + 5 + count ≤ self.old.length }
        ensures reads { D.told → (contents : List (List ℕ)) → HasRead D.seen D.time D.left self.old contents → IsHead (D.seen self.old.disk) self.old.at (Head.Record count) →
            self.old.has_ended ≡ false → ReadsNext D.seen D.time D.left self.new contents result }
        ensures seen { D.told → D.seen self.new.disk ≡ D.seen self.old.disk }
        ensures not_end { result ≡ Next.End → ⊥ }
        ensures nearer { IsNearer self.old self.new result }
        ensures any_moment { D.told → Only (D.seen self.old.disk) (D.left self.old.disk (D.time self.old.disk)) →
            EachCrash D.time D.left self.old.disk self.new.disk (Untouched (D.seen self.old.disk)) }
        ensures faults { CountsNext (D.faults self.old.disk) (D.faults self.new.disk) result }
    {
        let Ok(mut content) = vec![in alloc; 0u8; count as usize] else {
            return Next::NoMemory;
        };
        match self.disk.read(self.at + HEAD, &mut content) {
            DiskDone::Done => {
                self.at += HEAD + count;
                Next::Content(Text::from_vec(content))
            }
            DiskDone::Failed => Next::Failed,
        }
    }

    /// Cuts the file behind the last record, syncs, closes the gate there, and syncs. The cut has to be on the disk before the gate:
    /// else a crash could leave an open gate before what stood there.
    pub fn finish(self) -> Finished<D>
        requires read { D.told → (contents : List (List ℕ)) × HasRead D.seen D.time D.left self contents }
        requires ended { IsTrue self.has_ended }
        ensures opened { D.told → (contents : List (List ℕ)) → HasRead D.seen D.time D.left self contents →
            IfFinished result (λ file. IsAtRest D.seen D.time D.left file contents) }
        ensures unspent { IfFinished result (λ file. file.is_spent ≡ false) }
        // A crash at any moment of the call leaves the row that was read.
        ensures any_moment { D.told → (contents : List (List ℕ)) → HasRead D.seen D.time D.left self contents →
            EachCrash D.time D.left self.disk (disk_of result) (λ image. IsRowOf image contents) }
        ensures faults { CountsFinished D.faults (D.faults self.disk) result }
    {
        let mut disk = self.disk;
        match trim(&mut disk, self.at) {
            DiskDone::Done => {}
            DiskDone::Failed => return Finished::Failed(disk),
        }
        match put(&mut disk, self.at, &[0]) {
            DiskDone::Done => Finished::Opened(RecordFile {
                disk,
                end: self.at,
                is_spent: false,
            }),
            DiskDone::Failed => Finished::Failed(disk),
        }
    }

    /// Gives the disk back.
    pub fn into_disk(self) -> D
        ensures { result ≡ self.disk }
    {
        self.disk
    }

    /// Whether `next` said that no further record stands there.
    pub fn has_ended(&self) -> bool
        ensures { result ≡ self.now.has_ended }
    {
        self.has_ended
    }
}

// Reads the gate and the length of the record at a place of a file of this length.
fn read_head<D: Disk>(disk: &mut D, at: u64, length_: u64) -> Head
    requires { D.told → (at ≤ length_) × (length_ ≡ length (D.seen disk.old)) }
    ensures head { D.told → IsHead (D.seen disk.old) at result }
    ensures seen { D.told → D.seen disk.new ≡ D.seen disk.old }
    ensures any_moment { D.told → Only (D.seen disk.old) (D.left disk.old (D.time disk.old)) →
        EachCrash D.time D.left disk.old disk.new (Untouched (D.seen disk.old)) }
    ensures durable { D.told → Only (D.seen disk.old) (D.left disk.old (D.time disk.old)) → Only (D.seen disk.new) (D.left disk.new (D.time disk.new)) }
    ensures room { IsRecordWithin at length_ result }
    ensures faults { CountsHead (D.faults disk.old) (D.faults disk.new) result }
{
    let room = length_.saturating_sub(at);
    if room < HEAD {
        return Head::NoRecord;
    }
    let mut bytes = [0u8; 5];
    match disk.read(at, &mut bytes) {
        DiskDone::Done => {
            let [gate, a, b, c, d] = bytes;
            head_of(gate, a, b, c, d, room - HEAD)
        }
        DiskDone::Failed => Head::Failed,
    }
}

// What the first five bytes of a record say, a gate and a number, where so many bytes follow them.
fn head_of(gate: u8, a: u8, b: u8, c: u8, d: u8, behind: u64) -> Head
    ensures { SaysHead (gate ∷ a ∷ b ∷ c ∷ d ∷ []) behind result }
{
    let is_open = gate == 1;
    if !is_open {
        return Head::NoRecord;
    }
    let count = u64::from(u32::from_be_bytes([a, b, c, d]));
    if count > behind {
        return Head::NoRecord;
    }
    Head::Record(count)
}

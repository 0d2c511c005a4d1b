// A disk in memory, which fails at listed calls and tells all that a crash may leave.
ghost use Rattle.std.specs.Prelude.{◌≡◌, ◌↔◌, ℕ, ◌+◌, ◌≤◌, ⊤, List, [], ◌∷◌, length, take, Contains, OnOk, OnErr};
ghost use Rattle.bosh_ports.specs.Memory.{counted_up};
ghost use Rattle.journal_store.specs.Disk.{part, written, CountsDone};
ghost use Rattle.journal_store.specs.MemoryDisk.{LeftSince};

use crate::disk::{Disk, DiskDone, Length};
use http_server::Log;
use std::alloc::AllocError;
use std::marker::Model;

/// What a call may have changed.
#[derive(Clone, Copy, Debug, PartialEq, Eq)]
pub enum Change {
    /// So many bytes from a place on are being written.
    Written { at: usize, count: usize },
    /// The file is being cut to so many bytes.
    Cut { to: usize },
    /// All is on the disk.
    Synced,
}

/// A disk in memory. Its calls are counted from 1, and those whose numbers are listed fail; want of memory is a fault too. A
/// write that fails has put down so many of its bytes as were named at the start.
#[derive(Drop)]
pub struct MemoryDisk {
    bytes: Vec<u8>,
    failing: Vec<u64>,
    torn: usize,
    calls: u64,
    faults: u64,
    changes: Log<Vec<u8>, Change>,
}

impl Model for MemoryDisk {
    ghost use Rattle.journal_store.specs.MemoryDisk.{Memory, left_by};

    ghost Value = { Memory };

    ghost view = { λ d. record { bytes = d.bytes.items; failing = d.failing.items; calls = d.calls; faults = d.faults; changes = d.changes.items } };

    // What is there is among what a crash may leave.
    ghost invariant = { λ d. left_by d.changes.items d.bytes.items };
}

impl MemoryDisk {
    /// A disk with these bytes, all of them on it.
    pub fn new(bytes: Vec<u8>, failing: Vec<u64>, torn: usize) -> MemoryDisk
        ensures bytes { result.bytes ≡ bytes.items }
        ensures failing { result.failing ≡ failing.items }
        ensures calls { result.calls ≡ 0 }
        ensures faults { result.faults ≡ 0 }
        ensures changes { result.changes ≡ (bytes, Change.Synced) ∷ [] }
    {
        let changes = Log::new().and(&bytes, &Change::Synced);
        MemoryDisk {
            bytes,
            failing,
            torn,
            calls: 0,
            faults: 0,
            changes,
        }
    }

    /// What a read gives.
    pub fn as_slice(&self) -> &[u8]
        ensures { result.now ≡ self.now.bytes }
    {
        self.bytes.as_slice()
    }

    /// How many calls were made.
    pub fn calls(&self) -> u64
        ensures { result ≡ self.now.calls }
    {
        self.calls
    }
}

impl Disk for MemoryDisk {
    ghost told = { ⊤ };

    ghost seen = { λ d. d.bytes };

    ghost time = { λ d. length d.changes };

    ghost left = { λ d. LeftSince d.changes };

    ghost faults = { λ d. d.faults };

    fn length(&mut self) -> Length {
        match ask(&self.failing, &mut self.calls, &mut self.faults) {
            DiskDone::Done => Length::Bytes(self.bytes.len() as u64),
            DiskDone::Failed => Length::Failed,
        }
    }

    fn read(&mut self, at: u64, into: &mut [u8]) -> DiskDone {
        match ask(&self.failing, &mut self.calls, &mut self.faults) {
            DiskDone::Done => {
                copy_part(&self.bytes, at as usize, into);
                DiskDone::Done
            }
            DiskDone::Failed => DiskDone::Failed,
        }
    }

    fn write(&mut self, at: u64, bytes: &[u8]) -> DiskDone {
        let change = Change::Written {
            at: at as usize,
            count: bytes.len(),
        };
        self.changes = self.changes.and(&self.bytes, &change);
        match ask(&self.failing, &mut self.calls, &mut self.faults) {
            DiskDone::Done => write_all(&mut self.bytes, at as usize, bytes, &mut self.faults),
            DiskDone::Failed => write_torn(&mut self.bytes, at as usize, bytes, self.torn),
        }
    }

    fn cut(&mut self, to: u64) -> DiskDone {
        let change = Change::Cut { to: to as usize };
        self.changes = self.changes.and(&self.bytes, &change);
        match ask(&self.failing, &mut self.calls, &mut self.faults) {
            DiskDone::Done => {
                self.bytes.truncate(to as usize);
                DiskDone::Done
            }
            DiskDone::Failed => DiskDone::Failed,
        }
    }

    fn sync(&mut self) -> DiskDone {
        match ask(&self.failing, &mut self.calls, &mut self.faults) {
            DiskDone::Done => {
                self.changes = self.changes.and(&self.bytes, &Change::Synced);
                DiskDone::Done
            }
            DiskDone::Failed => DiskDone::Failed,
        }
    }
}

// Counts a call, and a fault where it is one of those that are to fail.
fn ask(failing: &[u64], calls: &mut u64, faults: &mut u64) -> DiskDone
    ensures listed { (result ≡ DiskDone.Failed) ↔ Contains failing.now (counted_up calls.old) }
    ensures calls { calls.new ≡ counted_up calls.old }
    ensures faults { CountsDone faults.old faults.new result }
{
    *calls = calls.saturating_add(1);
    if failing.contains(calls) {
        *faults = faults.saturating_add(1);
        return DiskDone::Failed;
    }
    DiskDone::Done
}

// Fills the room with the bytes from a place on.
fn copy_part(bytes: &[u8], at: usize, into: &mut [u8])
    requires { at + length into.old ≤ length bytes.now }
    ensures { into.new ≡ part at (length into.old) bytes.now }
{
    let end = at + into.len();
    into.copy_from_slice(&bytes[at..end]);
}

// Writes over what is there and past the end, or for want of memory nothing.
fn write_over(bytes: &mut Vec<u8>, at: usize, with: &[u8]) -> Result<(), AllocError>
    requires { at ≤ length bytes.old.items }
    ensures ok { OnOk result (bytes.new.items ≡ written at with.now bytes.old.items) }
    ensures err { OnErr result (bytes.new.items ≡ bytes.old.items) }
{
    let over = with.len().min(bytes.len() - at);
    let (front, back) = with.split_at(over);
    bytes.extend_from_slice(back)?;
    set_part(bytes, at, front);
    Ok(())
}

// Writes over what is there.
fn set_part(bytes: &mut [u8], at: usize, with: &[u8])
    requires { at + length with.now ≤ length bytes.old }
    ensures { bytes.new ≡ written at with.now bytes.old }
{
    let end = at + with.len();
    bytes[at..end].copy_from_slice(with);
}

// Writes all of the bytes; want of memory is a fault.
fn write_all(bytes: &mut Vec<u8>, at: usize, with: &[u8], faults: &mut u64) -> DiskDone
    requires { at ≤ length bytes.old.items }
    ensures done { result ≡ DiskDone.Done → bytes.new.items ≡ written at with.now bytes.old.items }
    ensures failed { result ≡ DiskDone.Failed → bytes.new.items ≡ bytes.old.items }
    ensures faults { CountsDone faults.old faults.new result }
{
    match write_over(bytes, at, with) {
        Ok(()) => DiskDone::Done,
        Err(AllocError) => {
            *faults = faults.saturating_add(1);
            DiskDone::Failed
        }
    }
}

// Writes so many of the bytes at most, and fails.
fn write_torn(bytes: &mut Vec<u8>, at: usize, with: &[u8], torn: usize) -> DiskDone
    requires { at ≤ length bytes.old.items }
    ensures failed { result ≡ DiskDone.Failed }
    ensures torn { (count : ℕ) × (count ≤ length with.now) × (bytes.new.items ≡ written at (take count with.now) bytes.old.items) }
{
    let count = torn.min(with.len());
    match write_over(bytes, at, &with[..count]) {
        Ok(()) => DiskDone::Failed,
        Err(AllocError) => DiskDone::Failed,
    }
}

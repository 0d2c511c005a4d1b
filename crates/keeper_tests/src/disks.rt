// A disk in memory that tells nothing of its content, as a real file doesn't.
ghost use Rattle.journal_store.specs.Disk.{CountsDone, CountsLength};

use journal_store::{Disk, DiskDone, Length, MemoryDisk};
use std::alloc::Global;

/// It fails at these of its calls, counted from 0.
#[derive(Drop)]
pub(crate) struct SilentDisk {
    disk: MemoryDisk,
    faults: u64,
}

impl SilentDisk {
    pub(crate) fn new(alloc: Global, failing: Vec<u64>) -> SilentDisk {
        SilentDisk {
            disk: MemoryDisk::new(Vec::new(alloc), failing, 0),
            faults: 0,
        }
    }
}

fn counted(done: DiskDone, faults: &mut u64) -> DiskDone
    ensures { CountsDone faults.old faults.new result }
{
    match done {
        DiskDone::Done => DiskDone::Done,
        DiskDone::Failed => {
            *faults = faults.saturating_add(1);
            DiskDone::Failed
        }
    }
}

fn counted_length(length: Length, faults: &mut u64) -> Length
    ensures { CountsLength faults.old faults.new result }
{
    match length {
        Length::Bytes(bytes) => Length::Bytes(bytes),
        Length::Failed => {
            *faults = faults.saturating_add(1);
            Length::Failed
        }
    }
}

impl Disk for SilentDisk {
    ghost use Rattle.std.specs.Prelude.{[]};

    ghost told = { ⊥ };

    ghost seen = { λ _. [] };

    ghost time = { λ _. 0 };

    ghost left = { λ _ _ _. ⊥ };

    ghost faults = { λ d. d.faults };

    fn length(&mut self) -> Length {
        counted_length(self.disk.length(), &mut self.faults)
    }

    fn read(&mut self, at: u64, into: &mut [u8]) -> DiskDone {
        let held = self.disk.as_slice().len() as u64;
        let Some(end) = at.checked_add(into.len() as u64) else {
            return counted(DiskDone::Failed, &mut self.faults);
        };
        if end > held {
            return counted(DiskDone::Failed, &mut self.faults);
        }
        counted(self.disk.read(at, into), &mut self.faults)
    }

    fn write(&mut self, at: u64, bytes: &[u8]) -> DiskDone {
        let held = self.disk.as_slice().len() as u64;
        if at > held {
            return counted(DiskDone::Failed, &mut self.faults);
        }
        counted(self.disk.write(at, bytes), &mut self.faults)
    }

    fn cut(&mut self, to: u64) -> DiskDone {
        let held = self.disk.as_slice().len() as u64;
        if to > held {
            return counted(DiskDone::Failed, &mut self.faults);
        }
        counted(self.disk.cut(to), &mut self.faults)
    }

    fn sync(&mut self) -> DiskDone {
        counted(self.disk.sync(), &mut self.faults)
    }
}

// A file of the operating system as a disk.
ghost use Rattle.std.specs.Prelude.{◌≡◌, []};
ghost use Rattle.journal_store.specs.Disk.{CountsDone};

use crate::disk::{Disk, DiskDone, Length};
use std::fs::File;
use std::io;
use std::os::unix::fs::FileExt;

/// A disk over an open file, which is read and written at places and synced by its data. It tells nothing of its content.
#[derive(Drop)]
pub struct FileDisk {
    file: File,
    faults: u64,
}

impl FileDisk {
    /// Takes a file that was opened for reading and writing.
    pub fn new(file: File) -> FileDisk
        ensures { result.faults ≡ 0 }
    {
        FileDisk { file, faults: 0 }
    }
}

impl Disk for FileDisk {
    ghost told = { ⊥ };

    ghost seen = { λ _. [] };

    ghost time = { λ _. 0 };

    ghost left = { λ _ _ _. ⊥ };

    ghost faults = { λ d. d.faults };

    fn length(&mut self) -> Length {
        match self.file.metadata() {
            Ok(metadata) => Length::Bytes(metadata.len()),
            Err(_) => {
                self.faults = self.faults.saturating_add(1);
                Length::Failed
            }
        }
    }

    fn read(&mut self, at: u64, into: &mut [u8]) -> DiskDone {
        done(self.file.read_exact_at(into, at), &mut self.faults)
    }

    fn write(&mut self, at: u64, bytes: &[u8]) -> DiskDone {
        done(self.file.write_all_at(bytes, at), &mut self.faults)
    }

    fn cut(&mut self, to: u64) -> DiskDone {
        done(self.file.set_len(to), &mut self.faults)
    }

    fn sync(&mut self) -> DiskDone {
        done(self.file.sync_data(), &mut self.faults)
    }
}

// Counts a call that failed.
fn done(call: io::Result<()>, faults: &mut u64) -> DiskDone
    ensures { CountsDone faults.old faults.new result }
{
    match call {
        Ok(()) => DiskDone::Done,
        Err(_) => {
            *faults = faults.saturating_add(1);
            DiskDone::Failed
        }
    }
}

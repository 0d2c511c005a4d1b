// A file of journals by its name, which is opened when it is first needed.
ghost use Rattle.journal_store.specs.Disk.{CountsDone, CountsLength};

use journal_store::{Disk, DiskDone, FileDisk, Length};
use std::fs::{File, OpenOptions, TryLockError};
use std::rt::Files;

/// A disk over the file of a name. The first call opens it, and makes it where it isn't there; where that fails, or another process has it, the
/// call fails, and the next one tries again. It tells nothing of its content.
#[derive(Drop)]
pub struct NamedDisk<R: Files<File = File> + Copy + Drop> {
    rt: R,
    name: String,
    file: Option<FileDisk>,
    faults: u64,
}

impl<R: Files<File = File> + Copy + Drop> NamedDisk<R> {
    pub fn new(rt: R, name: String) -> NamedDisk<R> {
        NamedDisk {
            rt,
            name,
            file: None,
            faults: 0,
        }
    }
}

/// A disk over the file of a name, which is made where it isn't there. None where that fails, or another process has it.
pub fn open_named<R: Files<File = File>>(rt: &R, name: &str) -> Option<FileDisk> {
    let mut file = None;
    open(rt, name, &mut file);
    file
}

// Opens the file, if it isn't open.
fn open<R: Files<File = File>>(rt: &R, name: &str, file: &mut Option<FileDisk>) {
    if file.is_some() {
        return;
    }
    let opened = OpenOptions::new()
        .read(true)
        .write(true)
        .create(true)
        .truncate(false)
        .open(rt, name);
    if let Ok(opened) = opened {
        if is_free(&opened) && is_in_folder(rt, name) {
            *file = Some(FileDisk::new(opened));
        }
    }
}

// Whether no other process has the file. From now on this one has it, where files can be locked.
fn is_free(file: &File) -> bool {
    match file.try_lock() {
        Err(TryLockError::WouldBlock) => false,
        Err(TryLockError::Error(_)) | Ok(()) => true,
    }
}

// Whether the folder of a file is synced, so that a crash leaves a file that was made in it.
fn is_in_folder<R: Files<File = File>>(rt: &R, name: &str) -> bool {
    let folder = match name.rsplit_once('/') {
        Some((folder, _)) => folder,
        None => ".",
    };
    let folder = if folder.is_empty() { "/" } else { folder };
    match OpenOptions::new().read(true).open(rt, folder) {
        Ok(folder) => folder.sync_all().is_ok(),
        Err(_) => false,
    }
}

// Counts a call that failed.
fn counted(done: DiskDone, faults: &mut u64) -> DiskDone
    ensures { CountsDone faults.old faults.new result }
{
    match done {
        DiskDone::Done => DiskDone::Done,
        DiskDone::Failed => {
            *faults = faults.saturating_add(1);
            DiskDone::Failed
        }
    }
}

fn counted_length(length: Length, faults: &mut u64) -> Length
    ensures { CountsLength faults.old faults.new result }
{
    match length {
        Length::Bytes(bytes) => Length::Bytes(bytes),
        Length::Failed => {
            *faults = faults.saturating_add(1);
            Length::Failed
        }
    }
}

impl<R: Files<File = File> + Copy + Drop> Disk for NamedDisk<R> {
    ghost use Rattle.std.specs.Prelude.{[]};

    ghost told = { ⊥ };

    ghost seen = { λ _. [] };

    ghost time = { λ _. 0 };

    ghost left = { λ _ _ _. ⊥ };

    ghost faults = { λ d. d.faults };

    fn length(&mut self) -> Length {
        open(&self.rt, self.name.as_str(), &mut self.file);
        let length = match &mut self.file {
            Some(file) => file.length(),
            None => Length::Failed,
        };
        counted_length(length, &mut self.faults)
    }

    fn read(&mut self, at: u64, into: &mut [u8]) -> DiskDone {
        open(&self.rt, self.name.as_str(), &mut self.file);
        let done = match &mut self.file {
            Some(file) => file.read(at, into),
            None => DiskDone::Failed,
        };
        counted(done, &mut self.faults)
    }

    fn write(&mut self, at: u64, bytes: &[u8]) -> DiskDone {
        open(&self.rt, self.name.as_str(), &mut self.file);
        let done = match &mut self.file {
            Some(file) => file.write(at, bytes),
            None => DiskDone::Failed,
        };
        counted(done, &mut self.faults)
    }

    fn cut(&mut self, to: u64) -> DiskDone {
        open(&self.rt, self.name.as_str(), &mut self.file);
        let done = match &mut self.file {
            Some(file) => file.cut(to),
            None => DiskDone::Failed,
        };
        counted(done, &mut self.faults)
    }

    fn sync(&mut self) -> DiskDone {
        open(&self.rt, self.name.as_str(), &mut self.file);
        let done = match &mut self.file {
            Some(file) => file.sync(),
            None => DiskDone::Failed,
        };
        counted(done, &mut self.faults)
    }
}

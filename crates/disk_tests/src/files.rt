use bosh_types::Moment;
use journal_store::{Begun, FileDisk, Finished, Group, JournalFile, Opening, RowError, Stored};
use session_journal::{Entered, Entry};
use std::alloc::{AllocError, Global};
use std::fs::{File, OpenOptions};
use std::test::Fail;

// Opens a file and stores one entry more: how many records it had, where it could be stored.
fn store_one(alloc: Global, file: File, millis: u64) -> Result<Option<usize>, AllocError> {
    let mut opening = match Opening::begin(FileDisk::new(file)) {
        Begun::Opened(opening) => opening,
        Begun::Failed(_) => return Ok(None),
    };
    let contents = match opening.read_row(alloc) {
        Ok(contents) => contents,
        Err(RowError::NoMemory) => return Err(AllocError),
        Err(RowError::Failed) => return Ok(None),
    };
    let file = match opening.finish() {
        Finished::Opened(file) => file,
        Finished::Failed(_) => return Ok(None),
    };
    let mut journals = JournalFile::new(file, Group::new(alloc)?, Vec::new(alloc));
    let entry = Entry {
        caller: 1,
        call: Entered::Tick {
            now: Moment::from_millis(millis),
        },
    };
    match journals.add(1, &entry) {
        Ok(()) => {}
        Err(_) => return Err(AllocError),
    }
    match journals.store() {
        Stored::Done => Ok(Some(contents.len())),
        _ => Ok(None),
    }
}

#[test]
fn a_real_file_has_what_was_stored(rt: HostRuntime) -> Result<(), Fail> {
    let mut counts = Vec::new(rt.alloc());
    for run in 0..3u64 {
        let file = OpenOptions::new()
            .read(true)
            .write(true)
            .create(true)
            .truncate(run == 0)
            .open(&rt, "journals.bin")?;
        counts.push(store_one(rt.alloc(), file, run)?)?;
    }
    assert_eq!(rt; counts.as_slice(), [Some(0), Some(1), Some(2)].as_slice());
    Ok(())
}

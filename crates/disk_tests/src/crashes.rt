use bosh_types::{Moment, Text, Ticket};
use journal_store::{Begun, Finished, Group, JournalFile, MemoryDisk, Opening, Stored};
use session_journal::{Entered, Entry};
use std::alloc::Global;
use std::test::Fail;

fn tick(caller: u32, millis: u64) -> Entry {
    Entry {
        caller,
        call: Entered::Tick {
            now: Moment::from_millis(millis),
        },
    }
}

fn collect(caller: u32, ticket: u32) -> Entry {
    Entry {
        caller,
        call: Entered::Collect {
            ticket: Ticket::new(ticket),
        },
    }
}

// What a run came to: how many entries were said to be stored, and what a crash then leaves.
#[derive(Drop)]
struct Ran {
    stored: usize,
    image: Vec<u8>,
}

fn come_to(alloc: Global, stored: usize, disk: &MemoryDisk) -> Result<Ran, Fail> {
    Ok(Ran {
        stored,
        image: disk.as_slice().to_vec(alloc)?,
    })
}

// One entry is stored, and then two together.
fn run(alloc: Global, disk: MemoryDisk) -> Result<Ran, Fail> {
    let mut opening = match Opening::begin(disk) {
        Begun::Opened(opening) => opening,
        Begun::Failed(disk) => return come_to(alloc, 0, &disk),
    };
    match opening.read_row(alloc) {
        Ok(_) => {}
        Err(_) => return come_to(alloc, 0, &opening.into_disk()),
    }
    let file = match opening.finish() {
        Finished::Opened(file) => file,
        Finished::Failed(disk) => return come_to(alloc, 0, &disk),
    };
    let mut journals = JournalFile::new(file, Group::new(alloc)?, Vec::new(alloc));
    journals.add(1, &tick(7, 1000))?;
    let first = journals.store();
    journals.add(1, &collect(8, 1))?;
    journals.add(2, &tick(9, 2000))?;
    let second = journals.store();
    let stored = match (first, second) {
        (Stored::Done, Stored::Done) => 3,
        (Stored::Done, _) => 1,
        _ => 0,
    };
    come_to(alloc, stored, journals.file().disk())
}

// The contents of the records that an image has.
fn contents(alloc: Global, image: Vec<u8>) -> Result<Vec<Text>, Fail> {
    match Opening::begin(MemoryDisk::new(image, Vec::new(alloc), 0)) {
        Begun::Opened(mut opening) => Ok(opening.read_row(alloc)?),
        Begun::Failed(_) => Ok(Vec::new(alloc)),
    }
}

// The first of these, so many.
fn begins(contents: &[Text], all: &[Text]) -> bool {
    contents.len() <= all.len()
        && contents
            .iter()
            .zip(all)
            .all(|(one, other)| one.as_slice() == other.as_slice())
}

#[test]
fn stopped_at_each_call_it_has_what_was_stored(rt: HostRuntime) -> Result<(), Fail> {
    let alloc = rt.alloc();
    let whole = run(alloc, MemoryDisk::new(Vec::new(alloc), Vec::new(alloc), 0))?;
    let all = contents(alloc, whole.image)?;
    let mut kept = 0u32;
    let mut runs = 0u32;
    for call in 1..=15 {
        for torn in [0, 1, 4, 20, 1000] {
            let ran = run(
                alloc,
                MemoryDisk::new(Vec::new(alloc), vec![in alloc; call; 1]?, torn),
            )?;
            let found = contents(alloc, ran.image)?;
            runs = runs.saturating_add(1);
            if ran.stored <= found.len() && begins(&found, &all) {
                kept = kept.saturating_add(1);
            }
        }
    }
    assert_eq!(rt; (whole.stored, all.len(), kept), (3, 3, runs));
    Ok(())
}

// Entries that are stored, in whatever order they were noted.
use crate::disks::SilentDisk;
use crate::entries::{note, opening, stanza};
use entry_queue::{EntryQueue, Noted};
use serve_journal::Writer;
use session_store::{Opened, Store, open};
use std::alloc::Global;
use std::collections::VecDeque;
use std::rt::Clock;
use std::sync::{Arc, Wait};
use std::test::Fail;
use std::time::Duration;

fn store(alloc: Global, failing: Vec<u64>) -> Option<Store<SilentDisk>> {
    match open(alloc, SilentDisk::new(alloc, failing)) {
        Opened::Store { store, .. } => Some(store),
        _ => None,
    }
}

// Writes what was noted.
fn written<R: Wait + Clock>(
    rt: &R,
    alloc: Global,
    writer: &mut Writer<SilentDisk>,
    queue: &Arc<EntryQueue>,
) -> Option<u64> {
    let mut entries: VecDeque<Noted> = VecDeque::new(alloc);
    let _ = queue.take(rt, Duration::from_millis(0), &mut entries);
    writer.write(rt, queue, &mut entries)
}

#[test]
fn an_entry_that_comes_early_waits_for_those_before_it(rt: HostRuntime) -> Result<(), Fail> {
    let alloc = rt.alloc();
    let queue = EntryQueue::new(alloc)?;
    let mut writer = Writer::new(alloc, store(alloc, Vec::new(alloc)).ok_or("no store")?);
    note(&rt, &queue, 1, stanza(alloc)?);
    assert_eq!(rt; written(&rt, alloc, &mut writer, &queue), Some(0));
    assert!(rt; !queue.has_stored(1));
    note(&rt, &queue, 0, opening(alloc, b"s1")?);
    assert_eq!(rt; written(&rt, alloc, &mut writer, &queue), Some(2));
    assert!(rt; queue.has_stored(2));
    Ok(())
}

#[test]
fn where_the_disk_fails_entries_are_lost(rt: HostRuntime) -> Result<(), Fail> {
    let alloc = rt.alloc();
    let queue = EntryQueue::new(alloc)?;
    let failing = Vec::from_slice(alloc, &[9, 10, 11, 12, 13, 14])?;
    let mut writer = Writer::new(alloc, store(alloc, failing).ok_or("no store")?);
    note(&rt, &queue, 0, opening(alloc, b"s1")?);
    assert!(rt; written(&rt, alloc, &mut writer, &queue).is_none());
    assert!(rt; queue.is_lost());
    assert!(rt; !queue.has_stored(1));
    Ok(())
}

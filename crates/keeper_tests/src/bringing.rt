// What a file of journals brings back to a server.
use crate::entries::{add, opening, stanza};
use bosh_types::Moment;
use entry_queue::EntryQueue;
use journal_store::{MemoryDisk, write_content};
use serve_journal::{Brought, bring};
use session_journal::{Entered, Entry};
use std::alloc::Global;
use std::sync::Wait;
use std::test::Fail;

// The record of an entry of session 1, put behind others.
fn put(alloc: Global, image: &mut Vec<u8>, caller: u32, call: Entered) -> Result<(), Fail> {
    let mut content = Vec::new(alloc);
    let entry = Entry { caller, call };
    write_content(&mut content, 1, &entry)?;
    let Ok(length) = u32::try_from(content.len()) else {
        return Err("a content of less than 4 GiB")?;
    };
    image.push(1)?;
    image.extend_from_slice(&length.to_be_bytes())?;
    image.extend_from_slice(content.as_slice())?;
    Ok(())
}

// A file of one session of this name, which was silent for too long, as this caller found.
fn ended_file(alloc: Global, sid: &[u8], caller: u32) -> Result<MemoryDisk, Fail> {
    let mut image = Vec::new(alloc);
    put(alloc, &mut image, 0, opening(alloc, sid)?)?;
    let now = Moment::from_millis(1_000_000);
    put(alloc, &mut image, caller, Entered::Tick { now })?;
    Ok(MemoryDisk::new(image, Vec::new(alloc), 0))
}

// A file of one session of this name, which was given a stanza by this caller.
fn file(alloc: Global, sid: &[u8], caller: u32) -> Result<MemoryDisk, Fail> {
    let mut image = Vec::new(alloc);
    put(alloc, &mut image, 0, opening(alloc, sid)?)?;
    put(alloc, &mut image, caller, stanza(alloc)?)?;
    Ok(MemoryDisk::new(image, Vec::new(alloc), 0))
}

// A file of one session with two streams.
fn file_of_two(alloc: Global) -> Result<MemoryDisk, Fail> {
    let mut image = Vec::new(alloc);
    put(alloc, &mut image, 0, opening(alloc, b"s-1")?)?;
    put(alloc, &mut image, 0, add(alloc)?)?;
    Ok(MemoryDisk::new(image, Vec::new(alloc), 0))
}

// The moment at which the sessions of this file stand, and how many entries were made by bringing them back.
fn brought<R: Wait>(
    rt: &R,
    alloc: Global,
    disk: MemoryDisk,
    lasting: &[&[u8]],
) -> Result<Option<(Moment, u64)>, Fail> {
    let queue = EntryQueue::new(alloc)?;
    match bring(rt, alloc, disk, &queue, lasting) {
        Brought::Sessions { latest, .. } => Ok(Some((latest, queue.noted()))),
        _ => Ok(None),
    }
}

#[test]
fn sessions_go_on_where_they_stood(rt: HostRuntime) -> Result<(), Fail> {
    let alloc = rt.alloc();
    let lasting: [&[u8]; 1] = [b"echo.localhost"];
    let found = brought(&rt, alloc, file(alloc, b"s-1", 0)?, &lasting)?;
    assert_eq!(rt; found, Some((Moment::from_millis(7), 0)));
    // One whose stream is lost is told so, which is an entry.
    let found = brought(&rt, alloc, file(alloc, b"s-1", 0)?, &[])?;
    assert_eq!(rt; found, Some((Moment::from_millis(7), 1)));
    // So it is with each of its streams, but for the first at a host that lasts.
    let found = brought(&rt, alloc, file_of_two(alloc)?, &lasting)?;
    assert_eq!(rt; found, Some((Moment::from_millis(6), 1)));
    let found = brought(&rt, alloc, file_of_two(alloc)?, &[])?;
    assert_eq!(rt; found, Some((Moment::from_millis(6), 2)));
    Ok(())
}

#[test]
fn what_no_server_wrote_is_not_brought_back(rt: HostRuntime) -> Result<(), Fail> {
    let alloc = rt.alloc();
    // another number's name, a digit before it, and an entry of another caller
    assert!(rt; brought(&rt, alloc, file(alloc, b"s-2", 0)?, &[])?.is_none());
    assert!(rt; brought(&rt, alloc, file(alloc, b"s11", 0)?, &[])?.is_none());
    assert!(rt; brought(&rt, alloc, file(alloc, b"s-1", 3)?, &[])?.is_none());
    Ok(())
}

// The bytes of a file once it was brought back, and how many sessions it has then.
fn left<R: Wait>(
    rt: &R,
    alloc: Global,
    disk: MemoryDisk,
) -> Result<Option<(Vec<u8>, usize)>, Fail> {
    let queue = EntryQueue::new(alloc)?;
    match bring(rt, alloc, disk, &queue, &[]) {
        Brought::Sessions { store, .. } => {
            let bytes = Vec::from_slice(alloc, store.disk().as_slice())?;
            Ok(Some((bytes, store.sessions())))
        }
        _ => Ok(None),
    }
}

#[test]
fn a_file_whose_sessions_have_ended_begins_anew(rt: HostRuntime) -> Result<(), Fail> {
    let alloc = rt.alloc();
    let Some((bytes, sessions)) = left(&rt, alloc, ended_file(alloc, b"s-1", 0)?)? else {
        return Err("a file of a server")?;
    };
    assert!(rt; bytes.as_slice() == b"\0".as_slice());
    assert_eq!(rt; sessions, 0);
    // One that goes on keeps all, and so does one that no server wrote.
    let Some((_, sessions)) = left(&rt, alloc, file(alloc, b"s-1", 0)?)? else {
        return Err("a file of a server")?;
    };
    assert_eq!(rt; sessions, 1);
    assert!(rt; left(&rt, alloc, ended_file(alloc, b"s-1", 3)?)?.is_none());
    Ok(())
}

// The command `keep`, over a disk in memory.
use crate::scripts::{CREATION, spelled};
use bosh_commands::{BAD_SCRIPT, DAMAGED, DONE, Kept, STORE_FAULT, WRONG_WORDS, run_kept};
use bosh_ports::{MemorySink, MemorySource};
use journal_store::MemoryDisk;
use std::alloc::Global;
use std::test::Fail;

// What a run came to: its status, what it gave, and what a crash then leaves.
#[derive(Drop)]
struct Ran {
    status: u8,
    given: Vec<u8>,
    image: Vec<u8>,
}

fn words_of(alloc: Global, words: &[&str]) -> Result<Vec<String>, Fail> {
    let mut owned = Vec::new(alloc);
    for word in words {
        owned.push(String::from_str(alloc, word)?)?;
    }
    Ok(owned)
}

fn run(alloc: Global, words: &[&str], disk: MemoryDisk, script: &[u8]) -> Result<Ran, Fail> {
    let words = words_of(alloc, words)?;
    let mut source = MemorySource::new(script.to_vec(alloc)?, Vec::new(alloc));
    let mut sink = MemorySink::new(alloc, Vec::new(alloc));
    let kept = run_kept(alloc, &words, &mut source, &mut sink, disk);
    let status = kept.status();
    let image = match &kept {
        Kept::Ran { store, .. } => store.disk().as_slice().to_vec(alloc)?,
        Kept::Stopped { disk, .. } => disk.as_slice().to_vec(alloc)?,
    };
    Ok(Ran {
        status,
        given: sink.as_slice().to_vec(alloc)?,
        image,
    })
}

fn disk_of(alloc: Global, image: &[u8]) -> Result<MemoryDisk, Fail> {
    Ok(MemoryDisk::new(image.to_vec(alloc)?, Vec::new(alloc), 0))
}

// A second run repeats a request and gets the bytes of the first.
#[test]
fn a_second_run_goes_on_with_the_sessions_of_the_first(rt: HostRuntime) -> Result<(), Fail> {
    let alloc = rt.alloc();
    let first = spelled(
        alloc,
        [
            CREATION,
            b"post 2 <body rid='1001' sid='s1' @><a/></body>\nback s1 <x/>\nend\n",
        ],
    )?;
    let second = spelled(
        alloc,
        [
            b"host example.org <stream:features/>\n",
            b"post 1 <body rid='1001' sid='s1' @><a/></body>\nend\n",
        ],
    )?;
    let wanted = spelled(alloc, [b"out 1 <body @ %><x/></body>\n", b"done 3\n"])?;
    let ran = run(alloc, &["keep", "f"], disk_of(alloc, b"")?, &first)?;
    let again = run(
        alloc,
        &["keep", "f"],
        disk_of(alloc, ran.image.as_slice())?,
        &second,
    )?;
    assert_eq!(rt; (ran.status, again.status), (DONE, DONE));
    assert_eq!(rt; again.given.as_slice(), wanted.as_slice());
    Ok(())
}

#[test]
fn each_status_has_its_cause(rt: HostRuntime) -> Result<(), Fail> {
    let alloc = rt.alloc();
    let one = run(alloc, &["keep"], disk_of(alloc, b"")?, b"end\n")?;
    let three = run(alloc, &["keep", "f", "g"], disk_of(alloc, b"")?, b"end\n")?;
    let bare = run(
        alloc,
        &["keep", "f"],
        disk_of(alloc, b"")?,
        b"open 5\nend\n",
    )?;
    let damaged = run(
        alloc,
        &["keep", "f"],
        disk_of(alloc, b"\x01\0\0\0\0\0")?,
        b"end\n",
    )?;
    let failing = MemoryDisk::new(Vec::new(alloc), vec![in alloc; 1u64; 1]?, 0);
    let failed = run(alloc, &["keep", "f"], failing, b"end\n")?;
    assert_eq!(rt;
        (
            one.status,
            three.status,
            bare.status,
            damaged.status,
            failed.status
        ),
        (WRONG_WORDS, WRONG_WORDS, BAD_SCRIPT, DAMAGED, STORE_FAULT)
    );
    assert_eq!(rt; bare.given.as_slice(), b"bad 1 grammar\n".as_slice());
    assert_eq!(rt; damaged.given.as_slice(), b"damaged 0\n".as_slice());
    Ok(())
}

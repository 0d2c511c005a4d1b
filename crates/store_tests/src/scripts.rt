// Scripts over the sessions of a file.
use crate::files::{contents_of, opened};
use bosh_ports::{MemorySink, MemorySource};
use journal_store::MemoryDisk;
use script_text::{Driven, KeptError, Sessions, drive_over};
use session_store::{Opened, open};
use std::alloc::Global;
use std::test::Fail;

const FIRST: &[u8] =
    b"host example.org <stream:features/>\npost 1 <body rid='1000' to='example.org' wait='60' hold='1' ver='1.6' xmlns='http://jabber.org/protocol/httpbind'/>\npost 2 <body rid='1001' sid='s1' xmlns='http://jabber.org/protocol/httpbind'><a/></body>\nback s1 <x/>\nend\n";

const SECOND: &[u8] =
    b"host example.org <stream:features/>\npost 1 <body rid='1001' sid='s1' xmlns='http://jabber.org/protocol/httpbind'><a/></body>\nend\n";

const ANSWER: &[u8] =
    b"out 1 <body xmlns='http://jabber.org/protocol/httpbind' xmlns:stream='http://etherx.jabber.org/streams'><x/></body>\ndone 3\n";

// How many entries the session has once so many lines of the report were given.
const LEAST: [usize; 5] = [0, 1, 3, 5, 5];

// What a run over an image came to: its report, how it ended, and what a crash then leaves.
#[derive(Drop)]
struct Ran {
    report: Vec<u8>,
    ended: Result<Driven, KeptError>,
    image: Vec<u8>,
}

fn stopped(alloc: Global, disk: &MemoryDisk, error: KeptError) -> Result<Ran, Fail> {
    Ok(Ran {
        report: Vec::new(alloc),
        ended: Err(error),
        image: disk.as_slice().to_vec(alloc)?,
    })
}

fn run(
    alloc: Global,
    disk: MemoryDisk,
    script: &[u8],
    sink_failing: Vec<u64>,
) -> Result<Ran, Fail> {
    let (mut store, journals) = match open(alloc, disk) {
        Opened::Store { store, sessions } => (store, sessions),
        Opened::Damaged { disk, .. } => return stopped(alloc, &disk, KeptError::ReadFault),
        Opened::Failed(disk) => return stopped(alloc, &disk, KeptError::StoreFault),
        Opened::NoMemory(disk) => return stopped(alloc, &disk, KeptError::NoMemory),
    };
    let sessions = Sessions::resume(alloc, journals)?;
    let mut source = MemorySource::new(script.to_vec(alloc)?, Vec::new(alloc));
    let mut sink = MemorySink::new(alloc, sink_failing);
    let ended = drive_over(alloc, &mut store, sessions, &mut source, &mut sink);
    Ok(Ran {
        report: sink.as_slice().to_vec(alloc)?,
        ended,
        image: store.disk().as_slice().to_vec(alloc)?,
    })
}

fn whole(alloc: Global, image: Vec<u8>) -> MemoryDisk {
    MemoryDisk::new(image, Vec::new(alloc), 0)
}

// A request that is repeated to the session of a file gets the bytes that it was given.
#[test]
fn a_session_comes_back_and_repeats_its_answer(rt: HostRuntime) -> Result<(), Fail> {
    let alloc = rt.alloc();
    let first = run(alloc, whole(alloc, Vec::new(alloc)), FIRST, Vec::new(alloc))?;
    let second = run(alloc, whole(alloc, first.image), SECOND, Vec::new(alloc))?;
    assert_eq!(rt;
        (first.ended, second.ended),
        (Ok(Driven::Done), Ok(Driven::Done))
    );
    assert_eq!(rt; second.report.as_slice(), ANSWER);
    Ok(())
}

fn lines_in(report: &[u8]) -> usize {
    report.iter().filter(|byte| **byte == b'\n').count()
}

// Whether an image has a beginning of the whole journal, with every entry of which the report tells.
fn is_kept(alloc: Global, ran: Ran, all: &[Vec<u8>]) -> Result<bool, Fail> {
    let told = lines_in(ran.report.as_slice());
    let found = contents_of(alloc, opened(alloc, ran.image)?.as_slice())?;
    let least = LEAST.get(told).copied().unwrap_or(usize::MAX);
    Ok(
        least <= found.len()
            && LEAST.contains(&found.len())
            && found
                .iter()
                .zip(all)
                .all(|(one, other)| one.as_slice() == other.as_slice()),
    )
}

// The disk is stopped at each of its calls, and so is the sink.
#[test]
fn stopped_at_each_call_a_session_has_what_was_told(rt: HostRuntime) -> Result<(), Fail> {
    let alloc = rt.alloc();
    let first = run(alloc, whole(alloc, Vec::new(alloc)), FIRST, Vec::new(alloc))?;
    let all = contents_of(alloc, opened(alloc, first.image)?.as_slice())?;
    let mut runs = 0u32;
    let mut kept = 0u32;
    for call in 1..=20 {
        for torn in [0, 1, 7, 200] {
            let disk = MemoryDisk::new(Vec::new(alloc), vec![in alloc; call; 1]?, torn);
            let ran = run(alloc, disk, FIRST, Vec::new(alloc))?;
            runs = runs.saturating_add(1);
            if is_kept(alloc, ran, &all)? {
                kept = kept.saturating_add(1);
            }
        }
        let ran = run(
            alloc,
            whole(alloc, Vec::new(alloc)),
            FIRST,
            vec![in alloc; call; 1]?,
        )?;
        runs = runs.saturating_add(1);
        if is_kept(alloc, ran, &all)? {
            kept = kept.saturating_add(1);
        }
    }
    assert_eq!(rt; (all.len(), kept), (5, runs));
    Ok(())
}

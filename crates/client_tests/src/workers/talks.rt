// Talking to a client whose creation is answered with a greeting.
ghost use Rattle.parked_gate.specs.Passes.{IsPassOf};

use crate::workers::object;
use bosh_client::{Answered, Next, Queued};
use bosh_ports::{ListedBell, MemorySink, MemorySource};
use bosh_types::{Moment, Rid, Text};
use client_run::{Call, ClientObject, Reply, Talked, talk};
use parked_gate::{Gate, Pass};
use std::alloc::{AllocError, Global};
use std::sync::Wait;
use std::test::Fail;

const GREETING: &[u8] =
    b"<body xmlns='http://jabber.org/protocol/httpbind' sid='s1'><a/><b/></body>";

/// How it ends over this input, and what is written. The listed takes and gives fail, and where it is to be closed, a terminate is
/// queued before.
fn talks<R: Wait>(
    rt: &R,
    alloc: Global,
    input: &[u8],
    takes: &[u64],
    gives: &[u64],
    closing: bool,
) -> Result<(Talked, Vec<u8>), &'static str> {
    let Ok((gate, pass)) = Gate::new(alloc, object(alloc, 60)?) else {
        return Err("no memory");
    };
    let mut pass = pass;
    create(rt, alloc, &gate, &mut pass)?;
    if closing && !is_closed(rt, &gate, &mut pass) {
        return Err("not closed");
    }
    match talks_at(rt, alloc, &gate, &mut pass, input, takes, gives) {
        Ok(ended) => Ok(ended),
        Err(AllocError) => Err("no memory"),
    }
}

fn talks_at<R: Wait>(
    rt: &R,
    alloc: Global,
    gate: &Gate<ClientObject>,
    pass: &mut Pass<ClientObject>,
    input: &[u8],
    takes: &[u64],
    gives: &[u64],
) -> Result<(Talked, Vec<u8>), AllocError>
    requires { IsPassOf gate.now pass.old }
{
    let bytes = Vec::from_slice(alloc, input)?;
    let mut source = MemorySource::new(bytes, Vec::from_slice(alloc, takes)?);
    let mut sink = MemorySink::new(alloc, Vec::from_slice(alloc, gives)?);
    let mut bell = ListedBell::new(alloc, Vec::new(alloc));
    let talked = talk(rt, alloc, gate, pass, &mut source, &mut sink, &mut bell)?;
    let written = Vec::from_slice(alloc, sink.as_slice())?;
    Ok((talked, written))
}

// Queues a terminate: false where none can be.
fn is_closed<R: Wait>(rt: &R, gate: &Gate<ClientObject>, pass: &mut Pass<ClientObject>) -> bool
    requires { IsPassOf gate.now pass.old }
    ensures { IsPassOf gate.now pass.new }
{
    let queued = gate.call(rt, pass, Call::Terminate);
    matches!(&queued, Ok(Reply::Queued(Queued::Done)))
}

// The session is created, and greets.
fn create<R: Wait>(
    rt: &R,
    alloc: Global,
    gate: &Gate<ClientObject>,
    pass: &mut Pass<ClientObject>,
) -> Result<(), &'static str>
    requires { IsPassOf gate.now pass.old }
    ensures { IsPassOf gate.now pass.new }
{
    let now = Moment::from_millis(0);
    let next = gate.call(rt, pass, Call::Next { now });
    if !matches!(&next, Ok(Reply::Next(Next::Request { .. }))) {
        return Err("no request");
    }
    let (Some(rid), Ok(body)) = (Rid::new(1000), Vec::from_slice(alloc, GREETING)) else {
        return Err("no answer");
    };
    let body = Text::from_vec(body);
    let answered = gate.call(rt, pass, Call::Answer { rid, body, now });
    if !matches!(&answered, Ok(Reply::Answered(Answered::Done))) {
        return Err("not answered");
    }
    Ok(())
}

#[test]
fn lines_are_put_and_stanzas_written(rt: HostRuntime) -> Result<(), Fail> {
    // The input, the takes and gives that fail, how it ends, and what is written.
    let rows: [(&[u8], &[u64], &[u64], Talked, &[u8]); 8] = [
        (b"", &[], &[], Talked::Done, b""),
        (b"<m/>\n<n/>\n", &[], &[], Talked::Done, b"<a/>\n<b/>\n"),
        (b"<m/>\n<n/>", &[], &[], Talked::Done, b"<a/>\n<b/>\n"),
        (b"<m>\n", &[], &[], Talked::Bad { line: 1 }, b""),
        (
            b"<m/>\n\n<n/>\n",
            &[],
            &[],
            Talked::Bad { line: 2 },
            b"<a/>\n<b/>\n",
        ),
        (b"<m/>\n", &[1], &[], Talked::ReadFault, b""),
        (b"<m/>\n", &[2], &[], Talked::ReadFault, b"<a/>\n<b/>\n"),
        (b"<m/>\n", &[], &[3], Talked::WriteFault, b"<a/>\n"),
    ];
    for (input, takes, gives, talked, written) in rows {
        let (ended, given) = talks(&rt, rt.alloc(), input, takes, gives, false)?;
        assert_eq!(rt; ended, talked, "of {input:?}");
        assert_eq!(rt; given.as_slice(), written, "of {input:?}");
    }
    Ok(())
}

#[test]
fn a_client_that_takes_no_more_ends_it(rt: HostRuntime) -> Result<(), Fail> {
    let (ended, written) = talks(&rt, rt.alloc(), b"<m/>\n<n>\n", &[], &[], true)?;
    assert_eq!(rt; ended, Talked::Done);
    assert_eq!(rt; written.as_slice(), b"".as_slice());
    let (ended, _) = talks(&rt, rt.alloc(), b"", &[], &[], true)?;
    assert_eq!(rt; ended, Talked::Done);
    Ok(())
}

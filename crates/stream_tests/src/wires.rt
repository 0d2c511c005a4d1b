use bosh_ports::{MemoryLink, MemorySink, MemorySource};
use std::alloc::{AllocError, Global};
use std::test::Fail;
use xmpp_stream::{Came, Incoming, Outgoing, PacedLink, Stream};

// A link that gives these bytes in pieces of one byte, fails at these calls and has nothing at those.
fn link(
    alloc: Global,
    bytes: &str,
    failing: &[u64],
    pauses: &[u64],
) -> Result<PacedLink<MemoryLink>, AllocError> {
    let mut pieces = Vec::new(alloc);
    for _ in 0..bytes.len() {
        pieces.push(1)?;
    }
    let bytes = Vec::from_slice(alloc, bytes.as_bytes())?;
    let source = MemorySource::new(bytes, Vec::from_slice(alloc, failing)?);
    let sink = MemorySink::new(alloc, Vec::from_slice(alloc, failing)?);
    let link = MemoryLink::new(source, sink, pieces);
    Ok(PacedLink::new(link, Vec::from_slice(alloc, pauses)?))
}

// What comes, a letter for each answer that is no element, and the elements.
fn write_came(came: Came, told: &mut Vec<u8>) -> Result<bool, AllocError> {
    match came {
        Came::Item(text) => {
            told.extend_from_slice(text.as_slice())?;
            Ok(true)
        }
        Came::NotYet | Came::Busy => {
            told.push(b'n')?;
            Ok(true)
        }
        Came::Closed { error } => {
            told.push(if error { b'e' } else { b'c' })?;
            Ok(false)
        }
        Came::Broken(_) => {
            told.push(b'b')?;
            Ok(false)
        }
        Came::End => {
            told.push(b'E')?;
            Ok(false)
        }
        Came::Failed => {
            told.push(b'F')?;
            Ok(false)
        }
    }
}

#[test]
fn what_comes_is_told(rt: HostRuntime) -> Result<(), Fail> {
    let rows: [(&str, &[u64], &[u64], &str); 5] = [
        (
            "<stream:stream><a/></stream:stream>",
            &[],
            &[1, 3],
            "nn<a xmlns='jabber:client'/>c",
        ),
        (
            "<stream:stream><stream:error/></stream:stream>",
            &[],
            &[],
            "<stream:error/>e",
        ),
        ("<stream:stream><a>", &[], &[], "E"),
        ("<stream:stream><a/>", &[4], &[4], "nF"),
        ("<a/>", &[], &[], "b"),
    ];
    for (bytes, failing, pauses, want) in rows {
        let mut link = link(rt.alloc(), bytes, failing, pauses)?;
        let mut incoming = Incoming::new(rt.alloc())?;
        let mut told = Vec::new(rt.alloc());
        for _ in 0..10 {
            if !write_came(incoming.poll(&mut link)?, &mut told)? {
                break;
            }
        }
        assert_eq!(rt; told.as_slice(), want.as_bytes(), "{bytes}");
    }
    Ok(())
}

#[test]
fn a_stream_gives_while_it_owes(rt: HostRuntime) -> Result<(), Fail> {
    let link = link(rt.alloc(), "<stream:stream><a/>", &[], &[1, 3])?;
    let outgoing = Outgoing::new(rt.alloc(), b"a.example")?;
    let mut stream = Stream::new(link, outgoing, Incoming::new(rt.alloc())?);
    let mut told = Vec::new(rt.alloc());
    write_came(stream.poll()?, &mut told)?;
    let owed = stream.outgoing.owed();
    for _ in 0..3 {
        write_came(stream.poll()?, &mut told)?;
    }
    assert_eq!(rt;
        told.as_slice(),
        b"n<a xmlns='jabber:client'/>EE".as_slice()
    );
    assert!(rt; owed > 0 && stream.outgoing.owed() == 0);
    Ok(())
}

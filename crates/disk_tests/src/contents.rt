use bosh_types::{Closing, Moment, SharedText, Stanzas, StreamNo, Text, Ticket};
use journal_store::{ReadError, read_content, write_content};
use session_journal::{Entered, Entry, Limited};
use std::alloc::{AllocError, Global};
use std::test::Fail;

fn text(alloc: Global, bytes: &[u8]) -> Result<Text, AllocError> {
    Ok(Text::from_vec(Vec::from_slice(alloc, bytes)?))
}

fn shared(alloc: Global, bytes: &[u8]) -> Result<SharedText, AllocError> {
    SharedText::new(alloc, text(alloc, bytes)?)
}

fn at(millis: u64) -> Moment {
    Moment::from_millis(millis)
}

fn open(alloc: Global) -> Result<Entered, AllocError> {
    let mut stanzas = Vec::new(alloc);
    stanzas.push(text(alloc, b"<f/>")?)?;
    Ok(Entered::Open {
        sid: text(alloc, b"s1")?,
        host: shared(alloc, b"h")?,
        greeting: Stanzas::from_vec(stanzas),
        body: shared(alloc, b"<body/>")?,
        now: at(258),
        limit: 16777216,
        gap_waits: 1,
    })
}

// Whether an entry of session 3 by caller 4 is written as these bytes, and read back as what is written as these.
fn is_written(alloc: Global, call: Entered, fields: &[u8]) -> Result<bool, Fail> {
    let mut expected = Vec::from_slice(alloc, b"\0\0\0\x03\0\0\0\x04")?;
    expected.extend_from_slice(fields)?;
    let mut written = Vec::new(alloc);
    write_content(&mut written, 3, &Entry { caller: 4, call })?;
    let read = read_content(alloc, &written)?;
    let mut again = Vec::new(alloc);
    write_content(&mut again, read.session, &read.entry)?;
    Ok(written.as_slice() == expected.as_slice() && again.as_slice() == expected.as_slice())
}

#[test]
fn writes_each_kind(rt: HostRuntime) -> Result<(), Fail> {
    let alloc = rt.alloc();
    let stream = StreamNo::unnamed();
    let rows = [
        (
            open(alloc)?,
            b"\x08\0\0\0\0\0\0\x01\x02\0\x03\0\0\0\0\x01\0\0\0\0\0\0\x01\0\0\0\x02s1\0\0\0\x01h\0\0\0\x01\0\0\0\x04<f/>\0\0\0\x07<body/>".as_slice(),
        ),
        (
            Entered::Arrive {
                body: shared(alloc, b"<b/>")?,
                now: at(1),
            },
            b"\x01\0\0\0\0\0\0\0\x01\0\0\0\x04<b/>",
        ),
        (
            Entered::Collect {
                ticket: Ticket::new(5),
            },
            b"\x02\0\0\0\0\0\0\0\0\0\0\0\x05",
        ),
        (
            Entered::Back {
                stream,
                stanza: shared(alloc, b"<x/>")?,
                now: at(2),
            },
            b"\x03\0\0\0\0\0\0\0\x02\0\0\0\0\0\x04<x/>",
        ),
        (
            Entered::BackClosed {
                stream,
                closing: Closing::SystemShutdown,
                now: at(3),
            },
            b"\x04\0\0\0\0\0\0\0\x03\0\0\x03",
        ),
        (Entered::Tick { now: at(4) }, b"\x05\0\0\0\0\0\0\0\x04"),
        (Entered::TakeInward, b"\x06\0\0\0\0\0\0\0\0"),
        (
            Entered::Limit {
                kind: Limited::Time,
                cost: 256,
                now: at(5),
            },
            b"\x07\0\0\0\0\0\0\0\x05\x05\0\0\0\0\0\0\x01\0",
        ),
    ];
    let mut right = 0u32;
    for (call, fields) in rows {
        if is_written(alloc, call, fields)? {
            right = right.saturating_add(1);
        }
    }
    assert_eq!(rt; right, 8);
    Ok(())
}

#[test]
fn refuses_what_is_no_entry(rt: HostRuntime) -> Result<(), Fail> {
    let alloc = rt.alloc();
    let rows = [
        b"".as_slice(),
        b"\0\0\0\x03\0\0\0\x04",
        // a creation of older rules, and of versions before and after this one
        b"\0\0\0\x03\0\0\0\x04\0\0\0\0\0\0\0\0\0\0\0\0\0\0\0\0\0\0\0\0\0\0\0\0\0",
        b"\0\0\0\x03\0\0\0\x04\x08\0\0\0\0\0\0\0\0\0\x02\0\0\0\0\0\0\0\0\0\0\0\0\0\0\0\0\0\0\0\0\0\0\0\0",
        b"\0\0\0\x03\0\0\0\x04\x08\0\0\0\0\0\0\0\0\0\x04\0\0\0\0\0\0\0\0\0\0\0\0\0\0\0\0\0\0\0\0\0\0\0\0\0\0\0\0",
        // no kind
        b"\0\0\0\x03\0\0\0\x04\x09\0\0\0\0\0\0\0\0",
        // a byte too many, and one too few
        b"\0\0\0\x03\0\0\0\x04\x05\0\0\0\0\0\0\0\x04\0",
        b"\0\0\0\x03\0\0\0\x04\x05\0\0\0\0\0\0\0",
        // a moment where the call has none
        b"\0\0\0\x03\0\0\0\x04\x06\0\0\0\0\0\0\0\x01",
        // a stream of 8, a closing of 4, a limit of kind 2
        b"\0\0\0\x03\0\0\0\x04\x03\0\0\0\0\0\0\0\x02\0\x08\0\0\0\0",
        b"\0\0\0\x03\0\0\0\x04\x04\0\0\0\0\0\0\0\x03\0\0\x04",
        b"\0\0\0\x03\0\0\0\x04\x07\0\0\0\0\0\0\0\x05\x02\0\0\0\0\0\0\x01\0",
        // a text that ends past the content
        b"\0\0\0\x03\0\0\0\x04\x01\0\0\0\0\0\0\0\x01\0\0\0\x05<b/>",
    ];
    let mut refused = 0u32;
    for bytes in rows {
        if let Err(ReadError::NoEntry) = read_content(alloc, bytes) {
            refused = refused.saturating_add(1);
        }
    }
    assert_eq!(rt; refused, 13);
    Ok(())
}

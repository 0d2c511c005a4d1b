// What is read and given piece by piece is what is read and given at once, wherever the link has nothing for a while.

use bosh_http::{HttpIn, HttpRefusal, write_response};
use bosh_ports::{MemoryLink, MemorySink, MemorySource};
use http::StatusCode;
use polled_http::{GiveRoom, Given, HttpPolled, Paced, PolledReader, TakeRoom};
use std::alloc::{AllocError, Global};
use std::test::Fail;

const TEXT: &[u8] =
    b"POST /http-bind HTTP/1.1\r\nHost: a\r\nContent-Length: 7\r\n\r\n<body/>POST /http-bind HTTP/1.1\r\nHost: a\r\nContent-Length: 3\r\n\r\nabcGE";

// A link over the text in pieces of this size, which has nothing at this call.
fn link_over(alloc: Global, size: usize, pause: u64) -> Result<Paced<MemoryLink>, AllocError> {
    let source = MemorySource::new(Vec::from_slice(alloc, TEXT)?, Vec::new(alloc));
    let sink = MemorySink::new(alloc, Vec::new(alloc));
    let link = MemoryLink::new(source, sink, vec![in alloc; size; 200]?);
    Ok(Paced::new(link, vec![in alloc; pause]?))
}

// What was read, in the order of reading.
#[derive(Debug, PartialEq, Eq, Drop)]
struct Seen {
    bodies: Vec<u8>,
    requests: u32,
    pauses: u32,
    end: Option<HttpRefusal>,
}

// Reads to the end of the text.
fn read_all(alloc: Global, size: usize, pause: u64) -> Result<Seen, AllocError> {
    let mut link = link_over(alloc, size, pause)?;
    let mut room = TakeRoom::new(alloc);
    let mut reader = PolledReader::new(alloc);
    let mut seen = Seen {
        bodies: Vec::new(alloc),
        requests: 0,
        pauses: 0,
        end: None,
    };
    for _ in 0..1000 {
        match reader.poll(alloc, &mut room, &mut link)? {
            HttpPolled::Came(HttpIn::Request { body, .. }) => {
                seen.bodies.extend_from_slice(body.as_slice())?;
                seen.requests = seen.requests.saturating_add(1);
            }
            HttpPolled::Came(HttpIn::Refused(refusal)) => {
                seen.end = Some(refusal);
                return Ok(seen);
            }
            HttpPolled::Came(_) => return Ok(seen),
            HttpPolled::More => {}
            HttpPolled::NotYet => seen.pauses = seen.pauses.saturating_add(1),
        }
    }
    Ok(seen)
}

#[test]
fn requests_come_in_whatever_pieces(rt: HostRuntime) -> Result<(), Fail> {
    let alloc = rt.alloc();
    for (size, pause) in [
        (1, 0),
        (1, 1),
        (1, 60),
        (7, 3),
        (7, 12),
        (60, 2),
        (500, 1),
        (500, 2),
    ] {
        let seen = read_all(alloc, size, pause)?;
        let want = Seen {
            bodies: Vec::from_slice(alloc, b"<body/>abc")?,
            requests: 2,
            pauses: u32::from(pause > 0),
            end: Some(HttpRefusal::Cut(2)),
        };
        assert!(rt; seen == want, "{size} {pause} {seen:?}");
    }
    Ok(())
}

// Gives a response to the end, and says how often there was no room.
fn give_all(
    alloc: Global,
    room: &mut GiveRoom,
    link: &mut Paced<MemoryLink>,
    body: &[u8],
) -> Option<u32> {
    let mut place = 0;
    let mut pauses = 0u32;
    for _ in 0..1000 {
        match room.give(link, StatusCode::OK, body, true, place) {
            Given::Upto(next) => place = next,
            Given::All => return Some(pauses),
            Given::NotYet => pauses = pauses.saturating_add(1),
            Given::Failed => return None,
        }
    }
    None
}

#[test]
fn a_response_goes_out_in_pieces(rt: HostRuntime) -> Result<(), Fail> {
    let alloc = rt.alloc();
    let mut room = GiveRoom::new();
    for (length, pause) in [
        (0, 0),
        (0, 1),
        (16284, 1),
        (16285, 1),
        (16285, 2),
        (50000, 3),
    ] {
        let body = vec![in alloc; b'x'; length]?;
        let mut link = link_over(alloc, 1, pause)?;
        let pauses = give_all(alloc, &mut room, &mut link, &body);
        let mut whole = link_over(alloc, 1, 0)?;
        let result = write_response(&mut whole.link, StatusCode::OK, &body, true);
        assert!(rt;
            result.is_ok() && pauses == Some(u32::from(pause > 0)),
            "{length} {pause} {pauses:?}"
        );
        assert!(rt;
            link.link.as_slice() == whole.link.as_slice(),
            "{length} {pause}"
        );
    }
    Ok(())
}

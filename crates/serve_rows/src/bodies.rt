// The widest and the deepest bodies.
use crate::link::{Manner, RowLink};
use crate::scene::{Scene, TURNS, begin, host};
use session_pump::Hosts;
use std::alloc::{AllocError, Global};
use std::sync::Wait;
use xmpp_backend::{InMemory, Scripted};

const CREATION: &[u8] =
    b"POST /http-bind HTTP/1.1\r\nHost: localhost\r\nContent-Length: 108\r\n\r\n<body rid='1000' to='example.org' wait='60' hold='1' ver='1.6' xmlns='http://jabber.org/protocol/httpbind'/>";

const OPENING: &[u8] = b"<body rid='1001' sid='s1' xmlns='http://jabber.org/protocol/httpbind'";

/// What a request of a new session is given whose body has so much of this, where nothing that it says is answered.
pub fn tried<R: Wait + Copy + Drop>(
    rt: &R,
    alloc: Global,
    what: &str,
    count: usize,
) -> Result<String, AllocError> {
    let silent = Scripted::new(alloc, Vec::new(alloc), Vec::new(alloc));
    let host = host(alloc, InMemory::Scripted(silent), Vec::new(alloc))?;
    let hosts = Hosts::new(alloc, vec![in alloc; host]?)?;
    let Scene { place, worker } = begin(rt, alloc, hosts)?;
    let mut worker = worker;
    let mut link = RowLink::new(alloc, CREATION, Manner::PLAIN)?;
    let _ = place.serve(rt, &mut worker, &mut link, TURNS);
    let body = body_with(alloc, what, count)?;
    let message = message_of(alloc, body.as_slice())?;
    place.told(rt, &mut worker, message.as_slice(), Manner::PLAIN, TURNS)
}

/// A request with this content.
fn message_of(alloc: Global, body: &[u8]) -> Result<Vec<u8>, AllocError> {
    let length = body.len();
    let head = format!(in alloc;
        "POST /http-bind HTTP/1.1\r\nHost: localhost\r\nContent-Length: {length}\r\n\r\n"
    )?;
    let mut message = Vec::from_slice(alloc, head.as_bytes())?;
    message.extend_from_slice(body)?;
    Ok(message)
}

/// A body with so many children, so many elements in one another, so many attributes in a child's tag or in its own, or of so many bytes.
fn body_with(alloc: Global, what: &str, count: usize) -> Result<Vec<u8>, AllocError> {
    let mut body = Vec::from_slice(alloc, OPENING)?;
    match what {
        "children" => {
            body.push(b'>')?;
            push_often(&mut body, b"<a/>", count)?;
        }
        "depth" => {
            body.push(b'>')?;
            push_often(&mut body, b"<a>", count)?;
            push_often(&mut body, b"</a>", count)?;
        }
        "attributes" => {
            body.extend_from_slice(b"><a")?;
            push_attributes(alloc, &mut body, count)?;
            body.extend_from_slice(b"/>")?;
        }
        "own" => {
            push_attributes(alloc, &mut body, count.saturating_sub(3))?;
            body.push(b'>')?;
        }
        _ => {
            body.extend_from_slice(b"><a>")?;
            let rest = count.saturating_sub(body.len()).saturating_sub(11);
            push_often(&mut body, b"x", rest)?;
            body.extend_from_slice(b"</a>")?;
        }
    }
    body.extend_from_slice(b"</body>")?;
    Ok(body)
}

fn push_often(body: &mut Vec<u8>, text: &[u8], count: usize) -> Result<(), AllocError> {
    for _ in 0..count {
        body.extend_from_slice(text)?;
    }
    Ok(())
}

/// So many attributes of different names.
fn push_attributes(alloc: Global, body: &mut Vec<u8>, count: usize) -> Result<(), AllocError> {
    for number in 0..count {
        let attribute = format!(in alloc; " b{number}='v'")?;
        body.extend_from_slice(attribute.as_bytes())?;
    }
    Ok(())
}

// What a stranger sends to a server.
use crate::link::Manner;
use crate::scene::{Scene, TURNS, begin, host};
use session_pump::Hosts;
use std::alloc::{AllocError, Global};
use std::sync::Wait;
use xmpp_backend::{Echo, InMemory};

/// What a link with these bytes is given by a server to which nothing came yet, and how it ends: the same in one piece and byte by byte.
pub fn served<R: Wait + Copy + Drop>(
    rt: &R,
    alloc: Global,
    text: &str,
) -> Result<String, AllocError> {
    let Some(bytes) = row_text::bytes_of(alloc, text)? else {
        return String::from_str(alloc, "a wrong escape");
    };
    let told = served_in(rt, alloc, bytes.as_slice(), Manner::PLAIN)?;
    let bytewise = Manner {
        size: 1,
        ..Manner::PLAIN
    };
    if served_in(rt, alloc, bytes.as_slice(), bytewise)?.as_str() != told.as_str() {
        return String::from_str(alloc, "otherwise byte by byte");
    }
    Ok(told)
}

fn served_in<R: Wait + Copy + Drop>(
    rt: &R,
    alloc: Global,
    bytes: &[u8],
    manner: Manner,
) -> Result<String, AllocError> {
    let host = host(alloc, InMemory::Echo(Echo::new(alloc)), Vec::new(alloc))?;
    let hosts = Hosts::new(alloc, vec![in alloc; host]?)?;
    let Scene { place, worker } = begin(rt, alloc, hosts)?;
    let mut worker = worker;
    place.told(rt, &mut worker, bytes, manner, TURNS)
}

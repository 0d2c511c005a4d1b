// The bytes that are written.

use bosh_http::{WriteFault, write_post, write_response};
use bosh_ports::{MemoryLink, MemorySink, MemorySource};
use http::StatusCode;
use std::alloc::{AllocError, Global};

/// The bytes of a request with this content.
pub fn post(alloc: Global, content: &str) -> Result<String, AllocError> {
    let mut link = empty_link(alloc);
    let written = write_post(&mut link, content.as_bytes());
    shown(alloc, &link, written)
}

/// The bytes of a response with this status and content, which is the last one where the row's next word is `closing`.
pub fn response(alloc: Global, status: &str, row: &str) -> Result<String, AllocError> {
    let (after, content) = row_text::first_word(row);
    let Ok(code) = status.parse::<u16>() else {
        return String::from_str(alloc, "no status");
    };
    let Ok(status) = StatusCode::from_u16(code) else {
        return String::from_str(alloc, "no status");
    };
    let mut link = empty_link(alloc);
    let written = write_response(&mut link, status, content.as_bytes(), after == "closing");
    shown(alloc, &link, written)
}

fn empty_link(alloc: Global) -> MemoryLink {
    let source = MemorySource::new(Vec::new(alloc), Vec::new(alloc));
    MemoryLink::new(
        source,
        MemorySink::new(alloc, Vec::new(alloc)),
        Vec::new(alloc),
    )
}

fn shown(
    alloc: Global,
    link: &MemoryLink,
    written: Result<(), WriteFault>,
) -> Result<String, AllocError> {
    let text = str::from_utf8(link.as_slice()).unwrap_or("not UTF-8");
    let fault = if written.is_ok() { "" } else { " and a fault" };
    format!(in alloc; "{text:?}{fault}")
}

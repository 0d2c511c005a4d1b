// Loops give what a worker gives that waits for its links.
use super::rows::{given_by_loop, later, post};
use crate::connections::given_by_worker;
use std::alloc::{AllocError, Global};
use std::test::Fail;

/// A creation of a session that polls: each of its requests is answered at once.
const POLLING: &str =
    "<body rid='1000' to='example.org' wait='0' hold='0' ver='1.6' xmlns='http://jabber.org/protocol/httpbind'/>";

/// One of a session whose host isn't here.
const ELSEWHERE: &str =
    "<body rid='1000' to='example.com' wait='0' hold='0' ver='1.6' xmlns='http://jabber.org/protocol/httpbind'/>";

// These requests, one behind the other.
fn requests(alloc: Global, ids: &[u64]) -> Result<String, AllocError> {
    let mut text = post(alloc, POLLING)?;
    for rid in ids {
        text.push_str(later(alloc, *rid, "<a/>")?.as_str())?;
    }
    Ok(text)
}

#[test]
fn loops_give_what_a_worker_that_waits_gives(rt: HostRuntime) -> Result<(), Fail> {
    let alloc = rt.alloc();
    let rows = [
        requests(alloc, &[])?,
        requests(alloc, &[1001, 1001, 1001])?,
        requests(alloc, &[1001, 1009])?,
        requests(alloc, &[1003, 1001])?,
        post(alloc, ELSEWHERE)?,
        post(alloc, "<body")?,
        later(alloc, 1001, "")?,
        String::from_str(alloc, "GET / HTTP/1.1\r\nHost: localhost\r\n\r\n")?,
        String::from_str(alloc, "PUT /http-bind HTTP/1.1\r\nHost: localhost\r\n\r\n")?,
        String::from_str(alloc, "POST /http-bind HTTP/1.1\r\nHo")?,
    ];
    for text in rows {
        let wanted = given_by_worker(&rt, alloc, text.as_bytes())?;
        let seen = given_by_loop(&rt, alloc, &text)?;
        assert!(rt; !wanted.is_empty() && seen == wanted, "of {text:?}");
    }
    Ok(())
}

// What is no request that is served, and a link that fails.
use super::{is_served, link_over};
use serve_loop::ConnectionEnd;
use std::alloc::Global;
use std::sync::Wait;
use std::test::Fail;

/// Whether these bytes are refused so, and the connection ends.
fn is_refused<R: Wait>(
    rt: &R,
    alloc: Global,
    bytes: &[u8],
    wanted: &[u8],
) -> Result<bool, &'static str> {
    let Ok(mut link) = link_over(alloc, bytes, &[], &[]) else {
        return Err("no memory");
    };
    is_served(rt, alloc, &mut link, wanted, ConnectionEnd::Ended)
}

const BAD_REQUEST: &[u8] =
    b"HTTP/1.1 400 Bad Request\r\nContent-Type: text/xml; charset=utf-8\r\nContent-Length: 0\r\nConnection: close\r\n\r\n";

const NOT_IMPLEMENTED: &[u8] =
    b"HTTP/1.1 501 Not Implemented\r\nContent-Type: text/xml; charset=utf-8\r\nContent-Length: 0\r\nConnection: close\r\n\r\n";

const LENGTH_REQUIRED: &[u8] =
    b"HTTP/1.1 411 Length Required\r\nContent-Type: text/xml; charset=utf-8\r\nContent-Length: 0\r\nConnection: close\r\n\r\n";

const NOT_ALLOWED: &[u8] =
    b"HTTP/1.1 405 Method Not Allowed\r\nContent-Type: text/xml; charset=utf-8\r\nContent-Length: 0\r\nAllow: POST\r\nConnection: close\r\n\r\n";

#[test]
fn a_head_that_ends_early_or_lacks_a_field_is_refused(rt: HostRuntime) -> Result<(), Fail> {
    assert!(rt; is_refused(&rt, rt.alloc(), b"POST /http-b", BAD_REQUEST)?);
    assert!(rt;
        is_refused(
            &rt,
            rt.alloc(),
            b"POST /http-bind HTTP/1.1\r\nContent-Length: 68\r\n\r\n",
            BAD_REQUEST,
        )?
    );
    assert!(rt;
        is_refused(
            &rt,
            rt.alloc(),
            b"POST /http-bind HTTP/1.1\r\nHost: localhost\r\n\r\n",
            LENGTH_REQUIRED,
        )?
    );
    Ok(())
}

#[test]
fn another_method_or_coding_is_refused(rt: HostRuntime) -> Result<(), Fail> {
    assert!(rt;
        is_refused(
            &rt,
            rt.alloc(),
            b"POST /http-bind HTTP/1.1\r\nHost: localhost\r\nTransfer-Encoding: chunked\r\n\r\n",
            NOT_IMPLEMENTED,
        )?
    );
    assert!(rt;
        is_refused(
            &rt,
            rt.alloc(),
            b"PUT /http-bind HTTP/1.1\r\nHost: localhost\r\nContent-Length: 68\r\n\r\n",
            NOT_ALLOWED,
        )?
    );
    Ok(())
}

const UNKNOWN: &[u8] =
    b"POST /http-bind HTTP/1.1\r\nHost: localhost\r\nContent-Length: 68\r\n\r\n<body rid='7' sid='zz' xmlns='http://jabber.org/protocol/httpbind'/>";

#[test]
fn a_link_may_fail(rt: HostRuntime) -> Result<(), Fail> {
    let mut link = link_over(rt.alloc(), UNKNOWN, &[], &[1])?;
    assert!(rt; is_served(&rt, rt.alloc(), &mut link, b"", ConnectionEnd::WriteFault)?);
    Ok(())
}

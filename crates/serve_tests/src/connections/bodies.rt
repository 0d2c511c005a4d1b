// Bodies as browsers and clients send them, and what is answered to the byte.
use super::{is_served, link_over, serve_alone};
use serve_loop::ConnectionEnd;
use std::alloc::{AllocError, Global};
use std::sync::Wait;
use std::test::Fail;

const REQUEST: &[u8] = b"POST /http-bind HTTP/1.1\r\nHost: localhost\r\nContent-Length: ";

const RESPONSE: &[u8] =
    b"HTTP/1.1 200 OK\r\nContent-Type: text/xml; charset=utf-8\r\nContent-Length: ";

fn add_message(
    alloc: Global,
    text: &mut Vec<u8>,
    head: &[u8],
    body: &[u8],
) -> Result<(), AllocError> {
    let length = body.len();
    text.extend_from_slice(head)?;
    text.extend_from_slice(format!(in alloc; "{length}\r\n\r\n")?.as_bytes())?;
    text.extend_from_slice(body)
}

/// The messages with these bodies, each of which ends with a line break.
fn messages(alloc: Global, head: &[u8], bodies: &[u8]) -> Result<Vec<u8>, AllocError> {
    let mut text = Vec::new(alloc);
    let mut body = Vec::new(alloc);
    for byte in bodies {
        if *byte == b'\n' {
            add_message(alloc, &mut text, head, body.as_slice())?;
            body.clear();
        } else {
            body.push(*byte)?;
        }
    }
    Ok(text)
}

/// Whether requests with these bodies are answered with those, when they come whole or in pieces of one byte.
fn are_answered<R: Wait>(
    rt: &R,
    alloc: Global,
    requests: &[u8],
    answers: &[u8],
    end: ConnectionEnd,
) -> Result<bool, Fail> {
    let bytes = messages(alloc, REQUEST, requests)?;
    let wanted = messages(alloc, RESPONSE, answers)?;
    let mut whole = link_over(alloc, bytes.as_slice(), &[], &[])?;
    if !is_served(rt, alloc, &mut whole, wanted.as_slice(), end)? {
        return Ok(false);
    }
    let ones = vec![in alloc; 1_usize; bytes.len()]?;
    let mut parted = link_over(alloc, bytes.as_slice(), ones.as_slice(), &[])?;
    Ok(is_served(rt, alloc, &mut parted, wanted.as_slice(), end)?)
}

#[test]
fn a_session_that_is_not_there_is_unknown(rt: HostRuntime) -> Result<(), Fail> {
    assert!(rt;
        are_answered(
            &rt,
            rt.alloc(),
            b"<body rid='7' sid='zz' xmlns='http://jabber.org/protocol/httpbind'/>\n",
            b"<body xmlns='http://jabber.org/protocol/httpbind' type='terminate' condition='item-not-found'/>\n",
            ConnectionEnd::Ended,
        )?
    );
    Ok(())
}

// A repeat of an answered request, and of the creation, gets the same bytes.
#[test]
fn a_repeat_has_the_same_bytes(rt: HostRuntime) -> Result<(), Fail> {
    assert!(rt;
        are_answered(
            &rt,
            rt.alloc(),
            b"<body rid='1000' to='example.org' wait='0' hold='0' ver='1.6' xmlns='http://jabber.org/protocol/httpbind'/>\n<body rid='1001' sid='s1' xmlns='http://jabber.org/protocol/httpbind'><a/></body>\n<body rid='1001' sid='s1' xmlns='http://jabber.org/protocol/httpbind'><a/></body>\n<body rid='1000' sid='s1' xmlns='http://jabber.org/protocol/httpbind'/>\n",
            b"<body xmlns='http://jabber.org/protocol/httpbind' xmlns:xmpp='urn:xmpp:xbosh' xmlns:stream='http://etherx.jabber.org/streams' sid='s1' wait='0' requests='1' inactivity='75' polling='5' maxpause='120' hold='0' ver='1.6' from='example.org' stream='t0' ack='1000' xmpp:version='1.0' xmpp:restartlogic='true'><stream:features/></body>\n<body xmlns='http://jabber.org/protocol/httpbind'/>\n<body xmlns='http://jabber.org/protocol/httpbind'/>\n<body xmlns='http://jabber.org/protocol/httpbind' xmlns:xmpp='urn:xmpp:xbosh' xmlns:stream='http://etherx.jabber.org/streams' sid='s1' wait='0' requests='1' inactivity='75' polling='5' maxpause='120' hold='0' ver='1.6' from='example.org' stream='t0' ack='1000' xmpp:version='1.0' xmpp:restartlogic='true'><stream:features/></body>\n",
            ConnectionEnd::Ended,
        )?
    );
    Ok(())
}

// A creation, a terminate with a presence, and a request after it, as Strophe.js writes them.
#[test]
fn bodies_of_strophe_are_answered(rt: HostRuntime) -> Result<(), Fail> {
    assert!(rt;
        are_answered(
            &rt,
            rt.alloc(),
            b"<body rid='1000' xmlns='http://jabber.org/protocol/httpbind' to='example.org' xml:lang='en' wait='60' hold='1' content='text/xml; charset=utf-8' ver='1.6' xmpp:version='1.0' xmlns:xmpp='urn:xmpp:xbosh'/>\n<body rid='1001' xmlns='http://jabber.org/protocol/httpbind' sid='s1' type='terminate'><presence xmlns='jabber:client' type='unavailable'/></body>\n<body rid='1002' xmlns='http://jabber.org/protocol/httpbind' sid='s1'/>\n",
            b"<body xmlns='http://jabber.org/protocol/httpbind' xmlns:xmpp='urn:xmpp:xbosh' xmlns:stream='http://etherx.jabber.org/streams' sid='s1' wait='60' requests='2' inactivity='30' polling='5' maxpause='120' hold='1' ver='1.6' from='example.org' stream='t0' ack='1000' xmpp:version='1.0' xmpp:restartlogic='true'><stream:features/></body>\n<body xmlns='http://jabber.org/protocol/httpbind' type='terminate'/>\n<body xmlns='http://jabber.org/protocol/httpbind' type='terminate' condition='item-not-found'/>\n",
            ConnectionEnd::Ended,
        )?
    );
    Ok(())
}

// A creation as gloox writes it, and an empty request, which is held open.
#[test]
fn bodies_of_gloox_are_answered(rt: HostRuntime) -> Result<(), Fail> {
    assert!(rt;
        are_answered(
            &rt,
            rt.alloc(),
            b"<body content='text/xml; charset=utf-8' hold='1' rid='1000' ver='1.6' wait='60' ack='1' secure='true' xml:lang='en' xmpp:version='1.0' to='example.org' xmlns='http://jabber.org/protocol/httpbind' xmlns:xmpp='urn:xmpp:xbosh'/>\n<body rid='1001' sid='s1' xmlns='http://jabber.org/protocol/httpbind'/>\n",
            b"<body xmlns='http://jabber.org/protocol/httpbind' xmlns:xmpp='urn:xmpp:xbosh' xmlns:stream='http://etherx.jabber.org/streams' sid='s1' wait='60' requests='2' inactivity='30' polling='5' maxpause='120' hold='1' ver='1.6' from='example.org' stream='t0' ack='1000' xmpp:version='1.0' xmpp:restartlogic='true'><stream:features/></body>\n",
            ConnectionEnd::Silent,
        )?
    );
    Ok(())
}

#[test]
fn a_restart_and_an_empty_poll_are_answered(rt: HostRuntime) -> Result<(), Fail> {
    assert!(rt;
        are_answered(
            &rt,
            rt.alloc(),
            b"<body rid='1000' to='example.org' wait='0' hold='0' ver='1.6' xmlns='http://jabber.org/protocol/httpbind'/>\n<body rid='1001' xmlns='http://jabber.org/protocol/httpbind' sid='s1' to='example.org' xml:lang='en' xmpp:restart='true' xmlns:xmpp='urn:xmpp:xbosh'/>\n",
            b"<body xmlns='http://jabber.org/protocol/httpbind' xmlns:xmpp='urn:xmpp:xbosh' xmlns:stream='http://etherx.jabber.org/streams' sid='s1' wait='0' requests='1' inactivity='75' polling='5' maxpause='120' hold='0' ver='1.6' from='example.org' stream='t0' ack='1000' xmpp:version='1.0' xmpp:restartlogic='true'><stream:features/></body>\n<body xmlns='http://jabber.org/protocol/httpbind'/>\n",
            ConnectionEnd::Ended,
        )?
    );
    Ok(())
}

#[test]
fn bodies_that_concern_no_session_are_refused(rt: HostRuntime) -> Result<(), Fail> {
    assert!(rt;
        are_answered(
            &rt,
            rt.alloc(),
            b"<body/>\n<body rid='5' to='other.org' xmlns='http://jabber.org/protocol/httpbind'/>\n<body rid='5' xmlns='http://jabber.org/protocol/httpbind'/>\n",
            b"<body xmlns='http://jabber.org/protocol/httpbind' type='terminate' condition='bad-request'/>\n<body xmlns='http://jabber.org/protocol/httpbind' type='terminate' condition='host-unknown'/>\n<body xmlns='http://jabber.org/protocol/httpbind' type='terminate' condition='improper-addressing'/>\n",
            ConnectionEnd::Ended,
        )?
    );
    Ok(())
}

/// What is written where so many sessions are created.
fn creates_many<R: Wait>(rt: &R, alloc: Global, count: usize, last: &[u8]) -> Result<bool, Fail> {
    let body =
        b"<body rid='1000' to='example.org' wait='0' hold='0' ver='1.6' xmlns='http://jabber.org/protocol/httpbind'/>";
    let mut bytes = Vec::new(alloc);
    for _ in 0..count {
        add_message(alloc, &mut bytes, REQUEST, body)?;
    }
    let mut link = link_over(alloc, bytes.as_slice(), &[], &[])?;
    serve_alone(rt, alloc, &mut link)?;
    Ok(link.as_slice().ends_with(last))
}

#[test]
fn one_session_more_than_may_live_is_refused(rt: HostRuntime) -> Result<(), Fail> {
    let refusal =
        b"<body xmlns='http://jabber.org/protocol/httpbind' type='terminate' condition='undefined-condition'/>";
    assert!(rt; !creates_many(&rt, rt.alloc(), 256, refusal)?);
    assert!(rt; creates_many(&rt, rt.alloc(), 257, refusal)?);
    Ok(())
}

// A worker that is asked to send again what has no answer.
ghost use Rattle.parked_gate.specs.Passes.{IsPassOf};

use crate::workers::{ENDED, NO_BODY, ends_at, object, plan};
use bosh_client::{Answered, Next, Queued};
use bosh_types::{Moment, Rid, Text};
use client_run::{Call, ClientObject, Reply, Worked};
use parked_gate::{Gate, Pass};
use server_ports::{MemoryNetwork, Past};
use std::alloc::{AllocError, Global};
use std::sync::Wait;
use std::test::Fail;

const CREATED: &[u8] = b"<body xmlns='http://jabber.org/protocol/httpbind' sid='s1'/>";

const ERROR: &[u8] =
    b"HTTP/1.1 200 OK\r\nContent-Length: 64\r\n\r\n<body xmlns='http://jabber.org/protocol/httpbind' type='error'/>";

const EMPTY: &[u8] =
    b"HTTP/1.1 200 OK\r\nContent-Length: 51\r\n\r\n<body xmlns='http://jabber.org/protocol/httpbind'/>";

/// Asks for the next request, and loses it.
fn loses<R: Wait>(rt: &R, gate: &Gate<ClientObject>, pass: &mut Pass<ClientObject>) -> bool
    requires { IsPassOf gate.now pass.old }
    ensures { IsPassOf gate.now pass.new }
{
    let now = Moment::from_millis(0);
    let reply = gate.call(rt, pass, Call::Next { now });
    matches!(&reply, Ok(Reply::Next(Next::Request { .. })))
}

/// Takes the creation's answer.
fn creates<R: Wait>(
    rt: &R,
    alloc: Global,
    gate: &Gate<ClientObject>,
    pass: &mut Pass<ClientObject>,
) -> bool
    requires { IsPassOf gate.now pass.old }
    ensures { IsPassOf gate.now pass.new }
{
    let Some(rid) = Rid::new(1000) else {
        return false;
    };
    let Ok(body) = Vec::from_slice(alloc, CREATED) else {
        return false;
    };
    let body = Text::from_vec(body);
    let now = Moment::from_millis(0);
    let reply = gate.call(rt, pass, Call::Answer { rid, body, now });
    matches!(&reply, Ok(Reply::Answered(Answered::Done)))
}

/// How a worker ends over a link with these responses, where the request 1001 was lost and 1002 is to be a terminate.
fn ends<R: Wait>(
    rt: &R,
    alloc: Global,
    network: &mut MemoryNetwork,
) -> Result<Worked, &'static str> {
    let object = object(alloc, 60)?;
    let Ok((gate, pass)) = Gate::new(alloc, object) else {
        return Err("no memory");
    };
    let mut pass = pass;
    if !loses(rt, &gate, &mut pass) || !creates(rt, alloc, &gate, &mut pass) {
        return Err("not created");
    }
    let restart = gate.call(rt, &mut pass, Call::Restart);
    if !matches!(&restart, Ok(Reply::Queued(Queued::Done))) {
        return Err("not queued");
    }
    if !loses(rt, &gate, &mut pass) {
        return Err("not made");
    }
    let stop = gate.call(rt, &mut pass, Call::Terminate);
    if !matches!(&stop, Ok(Reply::Queued(Queued::Done))) {
        return Err("not queued");
    }
    ends_at(rt, alloc, &gate, &mut pass, network)
}

/// The last digit of each request id that was sent, in order.
fn sent(alloc: Global, network: &MemoryNetwork) -> Result<Vec<u8>, AllocError> {
    let mut digits = Vec::new(alloc);
    if let Some(past) = network.past() {
        for event in past {
            if let Past::Retired(link) = event {
                let bytes = link.link.as_slice();
                for place in 0..bytes.len() {
                    let rest = &bytes[place..];
                    if rest.starts_with(b"rid='100") {
                        if let Some(digit) = rest.get(8) {
                            digits.push(*digit)?;
                        }
                    }
                }
            }
        }
    }
    Ok(digits)
}

#[test]
fn an_error_is_followed_by_copies_of_all_that_have_no_answer(rt: HostRuntime) -> Result<(), Fail> {
    let alloc = rt.alloc();
    // What the links give, one after the other, and the requests that they are sent.
    let rows: [(&[&[&[u8]]], &[u8]); 5] = [
        (&[&[ENDED]], b"2"),
        (&[&[ERROR, EMPTY, ENDED]], b"212"),
        (&[&[ERROR, ERROR, EMPTY, ENDED]], b"2112"),
        (&[&[ERROR, EMPTY, ERROR, ENDED]], b"2122"),
        (&[&[ERROR, NO_BODY], &[EMPTY], &[ENDED]], b"21122"),
    ];
    for (links, digits) in rows {
        let mut plans = Vec::new(alloc);
        for responses in links {
            plans.push(plan(alloc, responses, &[], &[])?)?;
        }
        let mut network = MemoryNetwork::new(alloc, plans, Vec::new(alloc));
        assert_eq!(rt; ends(&rt, alloc, &mut network)?, Worked::Done);
        let sent = sent(alloc, &network)?;
        assert!(rt; sent.as_slice() == digits);
    }
    Ok(())
}

// A worker over links in memory, from the answers that it reads to what it writes.
ghost use Rattle.std.specs.Prelude.{◌≡◌, [], ◌∷◌, IfOk};
ghost use Rattle.parked_gate.specs.Passes.{IsPassOf};
ghost use Rattle.bosh_client.specs.declared.setup.ClientSetup.{ClientSetup};
ghost use Rattle.client_run.specs.History.{first_entry};

use bosh_client::{ClientSetup, Queued};
use bosh_ports::ListedBell;
use bosh_types::{Condition, Moment, Rid, Text};
use client_run::{Call, ClientObject, Reply, Site, Worked, work};
use parked_gate::{Gate, Pass};
use server_ports::{LinkPlan, MemoryNetwork, Past, StillClock};
use std::alloc::{AllocError, Global};
use std::sync::Wait;
use std::test::Fail;

mod lingering;
mod repeats;
mod runs;
mod talks;

/// A client that begins with the id 1000, and lets requests be held so long.
fn object(alloc: Global, wait: u32) -> Result<ClientObject, &'static str>
    ensures { IfOk result (λ object. (setup : ClientSetup) × (object ≡ first_entry setup ∷ [])) }
{
    object_from(alloc, 1000, wait)
}

/// A client that begins with this id.
fn object_from(alloc: Global, first: u64, wait: u32) -> Result<ClientObject, &'static str>
    ensures { IfOk result (λ object. (setup : ClientSetup) × (object ≡ first_entry setup ∷ [])) }
{
    let Some(first) = Rid::new(first) else {
        return Err("no id");
    };
    let Ok(to) = Vec::from_slice(alloc, b"h") else {
        return Err("no memory");
    };
    let setup = ClientSetup {
        first,
        to: Text::from_vec(to),
        wait,
        hold: 1,
        ack: false,
        seed: Text::from_vec(Vec::new(alloc)),
        keys: 0,
    };
    if !setup.is_valid() {
        return Err("no setup");
    }
    match ClientObject::new(alloc, setup) {
        Ok(object) => Ok(object),
        Err(AllocError) => Err("no memory"),
    }
}

const CREATED: &[u8] =
    b"HTTP/1.1 200 OK\r\nContent-Length: 60\r\n\r\n<body xmlns='http://jabber.org/protocol/httpbind' sid='s1'/>";

/// The same with a stanza.
const GREETED: &[u8] =
    b"HTTP/1.1 200 OK\r\nContent-Length: 70\r\n\r\n<body xmlns='http://jabber.org/protocol/httpbind' sid='s1'><a/></body>";

const ENDED: &[u8] =
    b"HTTP/1.1 200 OK\r\nContent-Length: 68\r\n\r\n<body xmlns='http://jabber.org/protocol/httpbind' type='terminate'/>";

const GONE: &[u8] =
    b"HTTP/1.1 200 OK\r\nContent-Length: 95\r\n\r\n<body xmlns='http://jabber.org/protocol/httpbind' type='terminate' condition='item-not-found'/>";

const MISSING: &[u8] = b"HTTP/1.1 404 Not Found\r\nContent-Length: 0\r\n\r\n";

const BUSY: &[u8] = b"HTTP/1.1 503 Service Unavailable\r\nContent-Length: 0\r\n\r\n";

/// A response with status 200 whose content is no answer.
const NO_BODY: &[u8] = b"HTTP/1.1 200 OK\r\nContent-Length: 0\r\n\r\n";

/// A link that gives these responses and fails at these takes and gives.
fn plan(
    alloc: Global,
    responses: &[&[u8]],
    takes: &[u64],
    gives: &[u64],
) -> Result<LinkPlan, AllocError> {
    let mut bytes = Vec::new(alloc);
    for response in responses {
        bytes.extend_from_slice(response)?;
    }
    Ok(LinkPlan {
        bytes,
        pieces: Vec::new(alloc),
        failing_takes: Vec::from_slice(alloc, takes)?,
        failing_gives: Vec::from_slice(alloc, gives)?,
    })
}

/// How a worker ends over this network, whose client has a terminate queued, or polls and has nothing to send.
fn ends<R: Wait>(
    rt: &R,
    alloc: Global,
    network: &mut MemoryNetwork,
    closing: bool,
) -> Result<Worked, &'static str> {
    let object = object(alloc, if closing { 60 } else { 0 })?;
    let Ok((gate, pass)) = Gate::new(alloc, object) else {
        return Err("no memory");
    };
    let mut pass = pass;
    if closing {
        let queued = gate.call(rt, &mut pass, Call::Terminate);
        if !matches!(&queued, Ok(Reply::Queued(Queued::Done))) {
            return Err("not queued");
        }
    }
    ends_at(rt, alloc, &gate, &mut pass, network)
}

fn ends_at<R: Wait>(
    rt: &R,
    alloc: Global,
    gate: &Gate<ClientObject>,
    pass: &mut Pass<ClientObject>,
    network: &mut MemoryNetwork,
) -> Result<Worked, &'static str>
    requires { IsPassOf gate.now pass.old }
{
    let clock = StillClock {
        moment: Moment::from_millis(0),
    };
    let Ok(silent) = vec![in alloc; 1] else {
        return Err("no memory");
    };
    let mut bell = ListedBell::new(alloc, silent);
    let site = Site {
        alloc,
        gate,
        clock: &clock,
        port: 5280,
    };
    match work(rt, &site, pass, network, &mut bell) {
        Ok(worked) => Ok(worked),
        Err(AllocError) => Err("no memory"),
    }
}

/// How many bytes each link was given that was retired.
fn given(alloc: Global, network: &MemoryNetwork) -> Result<Vec<usize>, AllocError> {
    let mut lengths = Vec::new(alloc);
    if let Some(past) = network.past() {
        for event in past {
            if let Past::Retired(link) = event {
                lengths.push(link.link.as_slice().len())?;
            }
        }
    }
    Ok(lengths)
}

#[test]
fn a_session_is_created_and_ended(rt: HostRuntime) -> Result<(), Fail> {
    let alloc = rt.alloc();
    let plans = vec![in alloc; plan(alloc, &[CREATED, ENDED], &[], &[])?]?;
    let mut network = MemoryNetwork::new(alloc, plans, Vec::new(alloc));
    assert_eq!(rt; ends(&rt, alloc, &mut network, true)?, Worked::Done);
    assert_eq!(rt; given(alloc, &network)?.len(), 1);
    Ok(())
}

#[test]
fn the_condition_is_that_of_the_answer(rt: HostRuntime) -> Result<(), Fail> {
    let alloc = rt.alloc();
    let plans = vec![in alloc; plan(alloc, &[CREATED, GONE], &[], &[])?]?;
    let mut network = MemoryNetwork::new(alloc, plans, Vec::new(alloc));
    assert_eq!(rt;
        ends(&rt, alloc, &mut network, true)?,
        Worked::Ended(Condition::ItemNotFound)
    );
    Ok(())
}

#[test]
fn a_client_with_nothing_due_waits(rt: HostRuntime) -> Result<(), Fail> {
    let alloc = rt.alloc();
    let plans = vec![in alloc; plan(alloc, &[CREATED], &[], &[])?]?;
    let mut network = MemoryNetwork::new(alloc, plans, Vec::new(alloc));
    assert_eq!(rt; ends(&rt, alloc, &mut network, false)?, Worked::Silent);
    Ok(())
}

#[test]
fn what_failed_is_sent_again(rt: HostRuntime) -> Result<(), Fail> {
    let alloc = rt.alloc();
    let cut = plan(alloc, &[CREATED], &[1], &[])?;
    let other = plan(alloc, &[MISSING], &[], &[])?;
    let last = plan(alloc, &[CREATED, ENDED], &[], &[])?;
    let mut network = MemoryNetwork::new(alloc, vec![in alloc; cut, other, last]?, Vec::new(alloc));
    assert_eq!(rt; ends(&rt, alloc, &mut network, true)?, Worked::Done);
    let lengths = given(alloc, &network)?;
    assert_eq!(rt; lengths.len(), 3);
    assert!(rt; lengths.as_slice().first() == lengths.as_slice().get(1));
    Ok(())
}

#[test]
fn the_third_refusal_in_a_row_is_one_too_many(rt: HostRuntime) -> Result<(), Fail> {
    let alloc = rt.alloc();
    // What the links give, and how the worker ends.
    let rows: [(&[&[u8]], Worked); 3] = [
        (&[MISSING, BUSY, MISSING], Worked::Refused { status: 404 }),
        (&[MISSING, MISSING, BUSY], Worked::Refused { status: 503 }),
        (
            &[MISSING, MISSING, NO_BODY, MISSING, BUSY, CREATED],
            Worked::Done,
        ),
    ];
    for (responses, worked) in rows {
        let mut plans = Vec::new(alloc);
        for response in responses {
            plans.push(plan(alloc, &[*response, ENDED], &[], &[])?)?;
        }
        let mut network = MemoryNetwork::new(alloc, plans, Vec::new(alloc));
        assert_eq!(rt; ends(&rt, alloc, &mut network, true)?, worked);
    }
    Ok(())
}

#[test]
fn three_faults_are_one_too_many(rt: HostRuntime) -> Result<(), Fail> {
    let alloc = rt.alloc();
    let mut none = MemoryNetwork::new(alloc, Vec::new(alloc), Vec::new(alloc));
    assert_eq!(rt; ends(&rt, alloc, &mut none, true)?, Worked::DialFault);
    let first = plan(alloc, &[CREATED], &[1], &[])?;
    let second = plan(alloc, &[CREATED], &[1], &[])?;
    let third = plan(alloc, &[CREATED], &[1], &[])?;
    let mut reads = MemoryNetwork::new(
        alloc,
        vec![in alloc; first, second, third]?,
        Vec::new(alloc),
    );
    assert_eq!(rt; ends(&rt, alloc, &mut reads, true)?, Worked::ReadFault);
    let first = plan(alloc, &[CREATED], &[1], &[])?;
    let second = plan(alloc, &[CREATED], &[1], &[])?;
    let third = plan(alloc, &[CREATED], &[], &[1])?;
    let mut writes = MemoryNetwork::new(
        alloc,
        vec![in alloc; first, second, third]?,
        Vec::new(alloc),
    );
    assert_eq!(rt; ends(&rt, alloc, &mut writes, true)?, Worked::WriteFault);
    Ok(())
}

// Wrappers hand on what they are asked, and note what they saw.
use crate::pages::{Pages, audit};
use crate::scene::{post, response};
use bosh_ports::Link;
use bosh_types::{Inward, SharedText, StreamNo, Text, Wire};
use serve_trace::{Batch, Recorder, TraceQueue, TracedBackend, TracedNetwork};
use server_ports::{Accepted, Network, QuietNetwork};
use server_watch::{Tally, Watch};
use std::alloc::{AllocError, Global};
use std::sync::{Arc, Wait};
use std::test::Fail;
use xmpp_backend::{Backend, Echo, Polled};

const CREATION: &str = "<body rid='7' to='a' xmlns='http://jabber.org/protocol/httpbind'/>";

const LATER: &str =
    "<body rid='8' sid='k-5' xmlns='http://jabber.org/protocol/httpbind'><message/></body>";

const CREATED: &str = "<body sid='k-5' xmlns='http://jabber.org/protocol/httpbind'/>";

const ANSWER: &str = "<body xmlns='http://jabber.org/protocol/httpbind'><message/></body>";

fn give_all<L: Link>(link: &mut L, message: &str) {
    let mut rest = message.as_bytes();
    for _ in 0..message.len() {
        if rest.is_empty() {
            return;
        }
        if let bosh_ports::Gave::Wrote(count) = link.give(rest) {
            rest = &rest[count.min(rest.len())..];
        }
    }
}

fn take_all<L: Link>(link: &mut L) {
    let mut room = [0u8; 64];
    for _ in 0..100 {
        let _ = link.take(&mut room);
    }
}

// A connection on which two requests came, which are answered.
fn carry<R: Wait + Copy + Drop>(
    rt: R,
    alloc: Global,
    queue: &Arc<TraceQueue>,
    end: &mut TracedBackend<R, Echo>,
) -> Result<(), AllocError> {
    let mut stream = String::new(alloc);
    stream.push_str(post(alloc, CREATION)?.as_str())?;
    stream.push_str(post(alloc, LATER)?.as_str())?;
    let mut streams = Vec::new(alloc);
    streams.push(Vec::from_slice(alloc, stream.as_bytes())?)?;
    let own = Arc::try_clone(queue)?;
    let mut net = TracedNetwork::new(rt, alloc, QuietNetwork::new(alloc, streams), Some(own));
    if let Accepted::Link(link) = net.accept() {
        let mut link = link;
        take_all(&mut link);
        give_all(&mut link, response(alloc, CREATED)?.as_str());
        pass_one(alloc, end)?;
        give_all(&mut link, response(alloc, ANSWER)?.as_str());
        net.retire(link);
    }
    Ok(())
}

// A stanza is passed, and what the back end has for it is taken.
fn pass_one<E: Backend>(alloc: Global, end: &mut E) -> Result<(), AllocError> {
    let wire = Wire::new(5, StreamNo::unnamed());
    let stanza = Text::from_vec(Vec::from_slice(alloc, b"<message/>")?);
    let item = Inward::Item(StreamNo::unnamed(), SharedText::new(alloc, stanza)?);
    let _ = end.open(wire, b"a");
    let _ = end.pass(wire, &item);
    for _ in 0..10 {
        if let Polled::Nothing = end.poll() {
            break;
        }
    }
    let _ = end.close(wire);
    Ok(())
}

#[test]
fn what_is_carried_is_noted(rt: HostRuntime) -> Result<(), Fail> {
    let alloc = rt.alloc();
    let queue = TraceQueue::new(alloc)?;
    let own = Arc::try_clone(&queue)?;
    let host = SharedText::new(alloc, Text::from_vec(b"a".to_vec(alloc)?))?;
    let tally = Tally::new(alloc, Watch::off(), host, false);
    let mut end = TracedBackend::new(rt, Echo::new(alloc), Some(own), tally);
    carry(rt, alloc, &queue, &mut end)?;
    let mut recorder = Recorder::new(alloc, Pages::new(alloc), Vec::new(alloc));
    let mut batch = Batch::new(alloc);
    queue.take_now(&rt, &mut batch);
    recorder.hear(&mut batch, 0);
    recorder.finish();
    let report = audit(alloc, recorder.paper().page(5))?;
    assert!(rt; report.as_slice() == b"yes 2 1 0\n".as_slice());
    Ok(())
}

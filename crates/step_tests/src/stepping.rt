// A connection that is stepped over a link that has nothing at one call is served as one over a link that waits.
ghost use Rattle.parked_gate.specs.Passes.{IsPassOf};

use bosh_ports::{ListedBell, MemoryLink, MemorySink, MemorySource};
use bosh_types::{HostName, HostNames, Moment, Rid, Stanzas, Text};
use parked_gate::{Gate, Pass};
use polled_http::{Paced, Rooms};
use serve_loop::{
    ConnectionEnd, Refused, Site, Tools, Trail, Worker, serve_connection, serve_polled,
};
use server_ports::{GivenNames, StillClock};
use session_table::{Directory, Limits, Purse};
use std::alloc::{AllocError, Global};
use std::sync::Wait;
use std::test::Fail;

const TEXT: &[u8] =
    b"POST /http-bind HTTP/1.1\r\nHost: localhost\r\nContent-Length: 68\r\n\r\n<body rid='7' sid='zz' xmlns='http://jabber.org/protocol/httpbind'/>POST /http-bind HTTP/1.1\r\nHost: localhost\r\nContent-Length: 108\r\n\r\n<body rid='1000' to='example.org' wait='60' hold='1' ver='1.6' xmlns='http://jabber.org/protocol/httpbind'/>POST /http-bind HTTP/1.1\r\nHost: localhost\r\nContent-Length: 71\r\n\r\n<body rid='1001' sid='s1' xmlns='http://jabber.org/protocol/httpbind'/>";

fn hosts(alloc: Global) -> Result<HostNames, AllocError> {
    let mut hosts = Vec::new(alloc);
    hosts.push(HostName {
        name: Text::from_vec(Vec::from_slice(alloc, b"example.org")?),
        greeting: Stanzas::from_vec(Vec::new(alloc)),
    })?;
    Ok(HostNames::from_vec(hosts))
}

// A link over the text in pieces of this size, of which this take fails, and this give.
fn link_over(alloc: Global, size: usize, fails: u64) -> Result<MemoryLink, AllocError> {
    let source = MemorySource::new(Vec::from_slice(alloc, TEXT)?, vec![in alloc; fails]?);
    let sink = MemorySink::new(alloc, vec![in alloc; fails]?);
    Ok(MemoryLink::new(source, sink, vec![in alloc; size; 200]?))
}

// Where the link has nothing: at no call of one that waits, or at these of one that is asked.
#[derive(Drop)]
enum Manner {
    Waits,
    Asked(Vec<u64>),
}

#[derive(Debug, PartialEq, Eq, Drop)]
struct Outcome {
    end: ConnectionEnd,
    given: Vec<u8>,
}

fn served<R: Wait>(
    rt: &R,
    site: &Site<'_, StillClock>,
    purse: Purse,
    link: MemoryLink,
    manner: Manner,
) -> Result<Outcome, AllocError>
    requires { IsPassOf site.now.directory.now purse.directory }
{
    let alloc = site.alloc;
    let Some(first) = Rid::new(1) else {
        return Err(AllocError);
    };
    let mut worker = Worker {
        purse,
        trail: Trail::new(),
    };
    let mut tools = Tools {
        bell: ListedBell::new(alloc, vec![in alloc; 1]?),
        names: GivenNames::new(alloc, b"s", first),
        rooms: Rooms::new(alloc),
        refused: Refused::NONE,
    };
    match manner {
        Manner::Waits => {
            let mut link = link;
            let end = serve_connection(rt, site, &mut worker, &mut tools, &mut link);
            let given = Vec::from_slice(alloc, link.as_slice())?;
            Ok(Outcome { end, given })
        }
        Manner::Asked(pauses) => {
            let mut link = Paced::new(link, pauses);
            let end = serve_polled(rt, site, &mut worker, &mut tools, &mut link);
            let given = Vec::from_slice(alloc, link.link.as_slice())?;
            Ok(Outcome { end, given })
        }
    }
}

fn served_at<R: Wait>(
    rt: &R,
    alloc: Global,
    directory: &Gate<Directory>,
    pass: Pass<Directory>,
    link: MemoryLink,
    manner: Manner,
) -> Result<Outcome, AllocError>
    requires { IsPassOf directory.now pass }
{
    let clock = StillClock {
        moment: Moment::from_millis(0),
    };
    let hosts = hosts(alloc)?;
    let Ok(Some(site)) = Site::new(alloc, directory, &hosts, &clock, Limits::USUAL) else {
        return Err(AllocError);
    };
    served(rt, &site, Purse::new(alloc, pass), link, manner)
}

// What the link is given by a server to which nothing came yet, and how it ends.
fn outcome_of<R: Wait>(
    rt: &R,
    alloc: Global,
    size: usize,
    fails: u64,
    manner: Manner,
) -> Result<Outcome, AllocError> {
    let link = link_over(alloc, size, fails)?;
    match Gate::new(alloc, Directory::new(alloc)) {
        Ok((directory, pass)) => served_at(rt, alloc, &directory, pass, link, manner),
        Err(_) => Err(AllocError),
    }
}

// The third request waits for an answer when the connection ends.
#[test]
fn a_link_that_has_nothing_at_one_call_is_served_the_same(rt: HostRuntime) -> Result<(), Fail> {
    let alloc = rt.alloc();
    let wanted = outcome_of(&rt, alloc, 100, 0, Manner::Waits)?;
    assert!(rt;
        wanted.end == ConnectionEnd::Silent && wanted.given.len() > 500,
        "{wanted:?}"
    );
    for call in 0..10u64 {
        let seen = outcome_of(&rt, alloc, 100, 0, Manner::Asked(vec![in alloc; call]?))?;
        assert!(rt; seen == wanted, "{call}: {seen:?}");
    }
    Ok(())
}

// A fault comes where it came, whether the link had nothing before it or not.
#[test]
fn a_fault_ends_it_the_same(rt: HostRuntime) -> Result<(), Fail> {
    let alloc = rt.alloc();
    for fails in 1..4u64 {
        let wanted = outcome_of(&rt, alloc, 100, fails, Manner::Waits)?;
        let seen = outcome_of(&rt, alloc, 100, fails, Manner::Asked(vec![in alloc; 1, 3]?))?;
        assert!(rt; seen == wanted, "{fails}: {wanted:?} {seen:?}");
    }
    Ok(())
}

// Two connections of one session, each served by a worker in a thread of its own.
ghost use Rattle.std.specs.Thread.{IsSync};
ghost use Rattle.parked_gate.specs.Passes.{IsPassOf};

use super::{link_over, one_host, serve_by};
use bosh_ports::{ListedBell, MemoryLink, RealBell};
use bosh_types::{HostNames, Moment};
use parked_gate::{Gate, Pass};
use serve_loop::Site;
use server_ports::StillClock;
use session_table::{Directory, Limits, Purse};
use std::alloc::{AllocError, Global};
use std::rt::Clock;
use std::sync::Wait;
use std::test::Fail;
use std::thread::{Threads, join, sleep};
use std::time::Duration;

const FIRST: &[u8] =
    b"POST /http-bind HTTP/1.1\r\nHost: localhost\r\nContent-Length: 108\r\n\r\n<body rid='1000' to='example.org' wait='60' hold='1' ver='1.6' xmlns='http://jabber.org/protocol/httpbind'/>POST /http-bind HTTP/1.1\r\nHost: localhost\r\nContent-Length: 81\r\n\r\n<body rid='1001' sid='s1' xmlns='http://jabber.org/protocol/httpbind'><a/></body>";

const SECOND: &[u8] =
    b"POST /http-bind HTTP/1.1\r\nHost: localhost\r\nContent-Length: 81\r\n\r\n<body rid='1002' sid='s1' xmlns='http://jabber.org/protocol/httpbind'><b/></body>";

const FREED: &[u8] =
    b"Content-Length: 62\r\n\r\n<body xmlns='http://jabber.org/protocol/httpbind' ack='1002'/>";

/// Serves a link, and gives it back.
fn serve_one<R: Wait + Clock + Copy + Drop>(
    rt: &R,
    alloc: Global,
    directory: &Gate<Directory>,
    hosts: &HostNames,
    pass: Pass<Directory>,
    mut link: MemoryLink,
) -> MemoryLink
    requires { IsPassOf directory.now pass }
{
    let clock = still();
    let Ok(Some(site)) = Site::new(alloc, directory, hosts, &clock, Limits::USUAL) else {
        return link;
    };
    let Ok(bell) = RealBell::new(alloc, *rt) else {
        return link;
    };
    let _ = serve_by(rt, &site, Purse::new(alloc, pass), bell, &mut link);
    link
}

fn still() -> StillClock {
    StillClock {
        moment: Moment::from_millis(0),
    }
}

/// Waits until the session is there, for ten seconds at most.
fn wait_for_session<R: Wait + Clock>(
    rt: &R,
    alloc: Global,
    directory: &Gate<Directory>,
    purse: &mut Purse,
)
    requires { IsPassOf directory.now purse.old.directory }
    ensures { IsPassOf directory.now purse.new.directory }
{
    for _ in 0..10_000 {
        match purse.find(rt, alloc, directory, b"s1") {
            Ok(Some(_)) => return,
            Ok(None) | Err(AllocError) => sleep(rt, Duration::from_millis(1)),
        }
    }
}

/// Serves a link when the session is there. Its bell is silent at once.
fn serve_late<R: Wait + Clock>(
    rt: &R,
    alloc: Global,
    directory: &Gate<Directory>,
    hosts: &HostNames,
    pass: Pass<Directory>,
    mut link: MemoryLink,
) -> MemoryLink
    requires { IsPassOf directory.now pass }
{
    let clock = still();
    let Ok(Some(site)) = Site::new(alloc, directory, hosts, &clock, Limits::USUAL) else {
        return link;
    };
    let Ok(silent) = vec![in alloc; 1] else {
        return link;
    };
    let mut purse = Purse::new(alloc, pass);
    wait_for_session(rt, alloc, directory, &mut purse);
    let bell = ListedBell::new(alloc, silent);
    let _ = serve_by(rt, &site, purse, bell, &mut link);
    link
}

/// Serves both links at once, each in a thread.
fn serve_both<R: Threads + Wait + Clock + Copy + Drop + Send + Sync>(
    rt: &R,
    alloc: Global,
    directory: &Gate<Directory>,
    hosts: &HostNames,
    passes: (Pass<Directory>, Pass<Directory>),
    links: (MemoryLink, MemoryLink),
) -> (MemoryLink, MemoryLink)
    requires first { IsPassOf directory.now passes.0 }
    requires second { IsPassOf directory.now passes.1 }
{
    let (first, second) = passes;
    let (one, two) = links;
    join(
        rt,
        move || -> MemoryLink
            requires { IsSync R.row × IsPassOf directory.now first }
        { serve_one(rt, alloc, directory, hosts, first, one) },
        move || -> MemoryLink
            requires { IsSync R.row × IsPassOf directory.now second }
        { serve_late(rt, alloc, directory, hosts, second, two) },
    )
}

// A request that is held open is answered when the next one comes on another connection.
#[test]
fn second_frees_first(rt: HostRuntime) -> Result<(), Fail> {
    let links = (
        link_over(rt.alloc(), FIRST, &[], &[])?,
        link_over(rt.alloc(), SECOND, &[], &[])?,
    );
    let hosts = one_host(rt.alloc())?;
    let Ok((directory, mut first)) = Gate::new(rt.alloc(), Directory::new(rt.alloc())) else {
        return Err("no memory".into());
    };
    let second = directory.split(&rt, &mut first);
    let (one, two) = serve_both(&rt, rt.alloc(), &directory, &hosts, (first, second), links);
    assert!(rt; one.as_slice().ends_with(FREED));
    assert!(rt; two.as_slice().is_empty());
    Ok(())
}

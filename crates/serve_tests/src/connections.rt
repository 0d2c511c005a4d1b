// Connections in memory, from the bytes of their requests to the bytes of their answers.
ghost use Rattle.parked_gate.specs.Passes.{IsPassOf};

use bosh_ports::{Bell, ListedBell, MemoryLink, MemorySink, MemorySource};
use bosh_types::{HostName, HostNames, Moment, Rid, Stanzas, Text};
use parked_gate::{Gate, Pass};
use polled_http::Rooms;
use serve_loop::{ConnectionEnd, Refused, Site, Tools, Trail, Worker, serve_connection};
use server_ports::{GivenNames, StillClock};
use session_table::{Directory, Limits, Purse};
use std::alloc::{AllocError, Global};
use std::sync::Wait;
use std::test::Fail;

mod bodies;
mod refusals;
mod threads;

fn text(alloc: Global, bytes: &[u8]) -> Result<Text, AllocError> {
    Ok(Text::from_vec(Vec::from_slice(alloc, bytes)?))
}

/// One host, which greets with its features.
fn one_host(alloc: Global) -> Result<HostNames, AllocError> {
    let mut greeting = Vec::new(alloc);
    greeting.push(text(alloc, b"<stream:features/>")?)?;
    let mut hosts = Vec::new(alloc);
    hosts.push(HostName {
        name: text(alloc, b"example.org")?,
        greeting: Stanzas::from_vec(greeting),
    })?;
    Ok(HostNames::from_vec(hosts))
}

/// A link over these bytes, which come in pieces of these sizes, and of whose gives these fail.
fn link_over(
    alloc: Global,
    bytes: &[u8],
    sizes: &[usize],
    failing: &[u64],
) -> Result<MemoryLink, AllocError> {
    let source = MemorySource::new(Vec::from_slice(alloc, bytes)?, Vec::new(alloc));
    let sink = MemorySink::new(alloc, Vec::from_slice(alloc, failing)?);
    Ok(MemoryLink::new(source, sink, Vec::from_slice(alloc, sizes)?))
}

/// Serves a link by a worker with this purse and this bell.
fn serve_by<R: Wait, B: Bell + Drop>(
    rt: &R,
    site: &Site<'_, StillClock>,
    purse: Purse,
    bell: B,
    link: &mut MemoryLink,
) -> Result<ConnectionEnd, &'static str>
    requires { IsPassOf site.now.directory.now purse.directory }
{
    let Some(first) = Rid::new(1) else {
        return Err("no id");
    };
    let mut worker = Worker {
        purse,
        trail: Trail::new(),
    };
    let mut tools = Tools {
        bell,
        names: GivenNames::new(site.alloc, b"s", first),
        rooms: Rooms::new(site.alloc),
        refused: Refused::NONE,
    };
    Ok(serve_connection(rt, site, &mut worker, &mut tools, link))
}

/// Serves a link at a directory of its own.
fn serve_at<R: Wait>(
    rt: &R,
    alloc: Global,
    directory: &Gate<Directory>,
    pass: Pass<Directory>,
    link: &mut MemoryLink,
) -> Result<ConnectionEnd, &'static str>
    requires { IsPassOf directory.now pass }
{
    let clock = StillClock {
        moment: Moment::from_millis(0),
    };
    let Ok(hosts) = one_host(alloc) else {
        return Err("no memory");
    };
    let Ok(Some(site)) = Site::new(alloc, directory, &hosts, &clock, Limits::USUAL) else {
        return Err("a host that can't be served");
    };
    let Ok(silent) = vec![in alloc; 1] else {
        return Err("no memory");
    };
    let purse = Purse::new(alloc, pass);
    serve_by(rt, &site, purse, ListedBell::new(alloc, silent), link)
}

/// What is served on this link, to the end of its bytes or to its first wait.
fn serve_alone<R: Wait>(
    rt: &R,
    alloc: Global,
    link: &mut MemoryLink,
) -> Result<ConnectionEnd, &'static str> {
    match Gate::new(alloc, Directory::new(alloc)) {
        Ok((directory, pass)) => serve_at(rt, alloc, &directory, pass, link),
        Err(_) => Err("no memory"),
    }
}

/// Whether a link is served so: what is written, and how it ends.
fn is_served<R: Wait>(
    rt: &R,
    alloc: Global,
    link: &mut MemoryLink,
    wanted: &[u8],
    end: ConnectionEnd,
) -> Result<bool, &'static str> {
    let seen = serve_alone(rt, alloc, link)?;
    Ok(seen == end && link.as_slice() == wanted)
}

/// What a worker gives to a link over these bytes, which it waits for.
pub(crate) fn given_by_worker<R: Wait>(
    rt: &R,
    alloc: Global,
    bytes: &[u8],
) -> Result<Vec<u8>, Fail> {
    let mut link = link_over(alloc, bytes, &[], &[])?;
    serve_alone(rt, alloc, &mut link)?;
    Ok(link.as_slice().to_vec(alloc)?)
}

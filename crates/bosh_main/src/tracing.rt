// The traces that `serve` writes, where a directory for them is named, and what its back ends carry.
use bosh_types::{CopyIn, SharedText, Stanzas, Text, copy_items};
use serve_trace::{Greeting, TraceQueue, TracedBackend, Tracing, start_tracing};
use server_watch::{Tally, Watch};
use session_pump::Host;
use std::alloc::{AllocError, Global};
use std::io::Eprint;
use std::rt::{Clock, Files};
use std::sync::{Arc, Wait};
use std::thread::Threads;
use xmpp_backend::Backend;

/// Starts the thread that writes the traces of sessions with these hosts, where a directory is named.
pub fn start_tracing_to<R, E: Backend>(
    rt: &R,
    alloc: Global,
    directory: &Option<Text>,
    hosts: &[Host<E>],
) -> Result<Option<Tracing>, AllocError>
where
    R: Wait + Threads + Clock + Files + Eprint + Copy + Send + Drop + 'static,
    R::File: Send,
    R::Dir: Send,
{
    let Some(directory) = directory else {
        return Ok(None);
    };
    let Ok(path) = str::from_utf8(directory.as_slice()) else {
        return Ok(None);
    };
    let path = String::from_str(alloc, path)?;
    let greetings = greetings_of(alloc, hosts)?;
    Ok(Some(start_tracing(rt, alloc, path, greetings)?))
}

/// Where is noted what is seen, if it is.
pub fn queue_of(tracing: &Option<Tracing>) -> Result<Option<Arc<TraceQueue>>, AllocError> {
    match tracing {
        Some(tracing) => Ok(Some(Arc::try_clone(&tracing.queue)?)),
        None => Ok(None),
    }
}

/// These hosts, of whose back ends is noted what they give and are passed, where that is wanted, and how much, where somebody watches.
pub fn traced_hosts<R: Wait + Copy + Drop, E: Backend>(
    rt: R,
    alloc: Global,
    tracing: &Option<Tracing>,
    watch: &Watch,
    hosts: Vec<Host<E>>,
) -> Result<Vec<Host<TracedBackend<R, E>>>, AllocError> {
    let mut traced = Vec::new(alloc);
    for host in hosts {
        traced.push(traced_host(rt, alloc, tracing, watch, host)?)?;
    }
    Ok(traced)
}

fn traced_host<R: Wait + Copy + Drop, E: Backend>(
    rt: R,
    alloc: Global,
    tracing: &Option<Tracing>,
    watch: &Watch,
    host: Host<E>,
) -> Result<Host<TracedBackend<R, E>>, AllocError> {
    let Host {
        name,
        greeting,
        end,
        spares,
    } = host;
    let known_as = SharedText::new(alloc, name.copy_in(alloc)?)?;
    let tally = Tally::new(alloc, watch.again()?, known_as.again()?, !spares.is_empty());
    let end = TracedBackend::new(rt, end, queue_of(tracing)?, tally);
    let mut left = spares.len();
    let mut traced = Vec::new(alloc);
    for spare in spares {
        left = left.saturating_sub(1);
        let tally = Tally::new(alloc, watch.again()?, known_as.again()?, left > 0);
        traced.push(TracedBackend::new(rt, spare, queue_of(tracing)?, tally))?;
    }
    Ok(Host {
        name,
        greeting,
        end,
        spares: traced,
    })
}

// What the hosts greet with.
fn greetings_of<E: Backend>(alloc: Global, hosts: &[Host<E>]) -> Result<Vec<Greeting>, AllocError> {
    let mut greetings = Vec::new(alloc);
    for host in hosts {
        greetings.push(Greeting {
            name: copy_of(alloc, &host.name)?,
            stanzas: Stanzas::from_vec(copy_items(alloc, host.greeting.as_slice())?),
        })?;
    }
    Ok(greetings)
}

fn copy_of(alloc: Global, text: &Text) -> Result<Text, AllocError> {
    text.copy_in(alloc)
}

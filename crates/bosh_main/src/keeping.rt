// The journals that `serve` keeps its sessions in, where a file for them is named.
use crate::named::open_named;
use bosh_commands::{DAMAGED, NO_MEMORY, STORE_FAULT, ServeOptions, WRITE_FAULT};
use bosh_ports::{Sink, give_all};
use bosh_types::Moment;
use entry_queue::EntryQueue;
use serve_journal::{Brought, HeldBackend, Keeping, Writer, bring, start_keeping};
use session_pump::Host;
use session_table::Restored;
use std::alloc::{AllocError, Global};
use std::fs::File;
use std::io;
use std::io::Read;
use std::rt::{Clock, Files};
use std::sync::{Arc, Wait};
use std::thread::Threads;
use xmpp_backend::Backend;

/// What a server begins with: the sessions of its file, the thread that stores what they enter, and the moment at which they stand.
#[derive(Drop)]
pub struct Keeps {
    pub restored: Option<Restored>,
    pub keeping: Option<Keeping>,
    pub stood: Option<Moment>,
}

/// What came of opening the file.
pub enum Kept {
    Ready(Keeps),
    /// The server ends with this status.
    Status(u8),
}

// Of these hosts the back ends are in memory, and go on.
const LASTING: [&[u8]; 2] = [b"echo.localhost", b"room.localhost"];

/// Opens the file that the options name, where they name one, and starts the thread that stores what its sessions enter. Where it is damaged the sink is
/// given from which place on.
pub fn bring_back<R, K>(
    rt: &R,
    alloc: Global,
    options: &Option<ServeOptions>,
    sink: &mut K,
) -> Result<Kept, AllocError>
where
    R: Wait + Threads + Clock + Files<File = File> + Copy + Send + Drop + 'static,
    R::File: Send,
    R::Dir: Send,
    K: Sink,
{
    let Some(
        ServeOptions {
            journal: Some(name),
            ..
        },
    ) = options
    else {
        return Ok(Kept::Ready(Keeps {
            restored: None,
            keeping: None,
            stood: None,
        }));
    };
    let Ok(path) = str::from_utf8(name.as_slice()) else {
        return Ok(Kept::Status(STORE_FAULT));
    };
    let Some(disk) = open_named(rt, path) else {
        return Ok(Kept::Status(STORE_FAULT));
    };
    let queue = EntryQueue::new(alloc)?;
    match bring(rt, alloc, disk, &queue, &LASTING) {
        Brought::Sessions {
            restored,
            store,
            latest,
        } => {
            let keeping = start_keeping(rt, alloc, queue, Writer::new(alloc, store))?;
            Ok(Kept::Ready(Keeps {
                restored: Some(restored),
                keeping: Some(keeping),
                stood: some_moment(latest),
            }))
        }
        Brought::Damaged { at } => Ok(Kept::Status(tell_damaged(alloc, sink, at)?)),
        Brought::Failed => Ok(Kept::Status(STORE_FAULT)),
        Brought::NoMemory => Ok(Kept::Status(NO_MEMORY)),
    }
}

// The status where the file isn't one of journals from this place on.
fn tell_damaged<K: Sink>(alloc: Global, sink: &mut K, at: u64) -> Result<u8, AllocError> {
    let text = format!(in alloc; "damaged {at}\n")?;
    match give_all(sink, text.as_bytes()) {
        Ok(()) => Ok(DAMAGED),
        Err(_) => Ok(WRITE_FAULT),
    }
}

/// An input that has its end where entries are lost, or where nothing more will be noted.
#[derive(Drop)]
pub struct UntilLost<R: Wait + Copy + Drop> {
    rt: R,
    queue: Arc<EntryQueue>,
}

impl<R: Wait + Copy + Drop> UntilLost<R> {
    pub fn new(rt: R, queue: Arc<EntryQueue>) -> UntilLost<R> {
        UntilLost { rt, queue }
    }
}

impl<R: Wait + Copy + Drop> Read for UntilLost<R> {
    fn read(&mut self, _into: &mut [u8]) -> io::Result<usize> {
        let mut seen = 0;
        for _ in self.rt.forever() {
            let Some(stored) = self.queue.await_more(&self.rt, seen) else {
                return Ok(0);
            };
            if self.queue.is_lost() {
                return Ok(0);
            }
            seen = stored;
        }
        unreachable!()
    }
}

// The moment, if any session has seen one.
fn some_moment(latest: Moment) -> Option<Moment> {
    if latest == Moment::from_millis(0) {
        return None;
    }
    Some(latest)
}

/// Where entries are noted, if they are stored.
pub fn queue_in(keeping: &Option<Keeping>) -> Result<Option<Arc<EntryQueue>>, AllocError> {
    match keeping {
        Some(keeping) => Ok(Some(Arc::try_clone(&keeping.queue)?)),
        None => Ok(None),
    }
}

/// These hosts, of which each back end is passed nothing before it is stored, where entries are stored.
pub fn held_hosts<E: Backend>(
    alloc: Global,
    keeping: &Option<Keeping>,
    hosts: Vec<Host<E>>,
) -> Result<Vec<Host<HeldBackend<E>>>, AllocError> {
    let mut held = Vec::new(alloc);
    for host in hosts {
        held.push(held_host(alloc, keeping, host)?)?;
    }
    Ok(held)
}

fn held_host<E: Backend>(
    alloc: Global,
    keeping: &Option<Keeping>,
    host: Host<E>,
) -> Result<Host<HeldBackend<E>>, AllocError> {
    let Host {
        name,
        greeting,
        end,
        spares,
    } = host;
    let mut held = Vec::new(alloc);
    for spare in spares {
        held.push(HeldBackend::new(alloc, spare, queue_in(keeping)?))?;
    }
    Ok(Host {
        name,
        greeting,
        end: HeldBackend::new(alloc, end, queue_in(keeping)?),
        spares: held,
    })
}

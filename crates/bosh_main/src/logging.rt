// The log that `serve` writes, where the words ask for one.
use bosh_ports::Sink;
use serve_log::{Logging, start_log};
use server_watch::Watch;
use std::alloc::{AllocError, Global};
use std::rt::{Clock, Files};
use std::sync::Wait;
use std::thread::Threads;

/// Starts the thread that writes a log to this sink, where one is wanted.
pub fn start_log_to<R, K>(
    rt: &R,
    alloc: Global,
    is_wanted: bool,
    sink: K,
) -> Result<Option<Logging>, AllocError>
where
    R: Wait + Threads + Clock + Files + Copy + Send + Drop + 'static,
    R::File: Send,
    R::Dir: Send,
    K: Sink + Send + Drop + 'static,
{
    if !is_wanted {
        return Ok(None);
    }
    Ok(Some(start_log(rt, alloc, sink)?))
}

/// Who watches the server, if anybody does.
pub fn watch_of(logging: &Option<Logging>) -> Result<Watch, AllocError> {
    match logging {
        Some(logging) => logging.watch.again(),
        None => Ok(Watch::off()),
    }
}

// Traces as files of a directory.
use crate::paper::Paper;
use std::alloc::{AllocError, Global};
use std::fs::OpenOptions;
use std::io;
use std::io::{Eprint, Write};
use std::os::unix::fs::OpenOptionsExt;
use std::rt::Files;

/// The owner alone reads a trace, since a session's name is its secret.
const MODE: u32 = 0o600;

/// A directory in which each trace is a file by the number of its session. A file that is there already is not touched: the session has
/// no trace then. What can't be written is told on standard error, in one line a trace.
#[derive(Drop)]
pub struct TraceFiles<R: Files + Eprint + Copy + Drop> {
    rt: R,
    alloc: Global,
    directory: String,
}

impl<R: Files + Eprint + Copy + Drop> TraceFiles<R> {
    pub fn new(rt: R, alloc: Global, directory: String) -> TraceFiles<R> {
        TraceFiles {
            rt,
            alloc,
            directory,
        }
    }

    // Where the trace of this session is.
    fn path(&self, number: u64) -> Result<String, AllocError> {
        let directory = self.directory.as_str();
        format!(in self.alloc; "{directory}/{number}.trace")
    }

    // A new file for this session.
    fn create(&self, number: u64) -> io::Result<R::File> {
        let path = self.path(number)?;
        OpenOptions::new()
            .write(true)
            .create_new(true)
            .mode(MODE)
            .open(&self.rt, path.as_str())
    }

    // Says that the trace of this session ends here.
    fn tell(&self, number: u64, error: &io::Error) {
        let directory = self.directory.as_str();
        let _ = eprintln!(self.rt;
            "serve: {directory}/{number}.trace can't be written, so the trace of that session ends: {error}"
        );
    }
}

impl<R: Files + Eprint + Copy + Drop> Paper for TraceFiles<R> {
    type Sheet = R::File;

    fn begin(&mut self, number: u64) -> Option<R::File> {
        match self.create(number) {
            Ok(file) => Some(file),
            Err(error) => {
                self.tell(number, &error);
                None
            }
        }
    }

    fn write(&mut self, number: u64, sheet: &mut R::File, bytes: &[u8]) -> bool {
        match sheet.write_all(bytes) {
            Ok(()) => true,
            Err(error) => {
                self.tell(number, &error);
                false
            }
        }
    }
}

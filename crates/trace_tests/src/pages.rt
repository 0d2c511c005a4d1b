// Traces in memory, and what the audit says of them.
use bosh_ports::{MemorySink, MemorySource};
use serve_trace::Paper;
use std::alloc::{AllocError, Global};
use trace_audit::run_audit;

/// Traces by the numbers of their sessions. Those of the listed sessions can't be had.
#[derive(Drop)]
pub struct Pages {
    pub alloc: Global,
    pub refused: Vec<u64>,
    pub pages: Vec<(u64, Vec<u8>)>,
}

impl Pages {
    pub fn new(alloc: Global) -> Pages {
        Pages {
            alloc,
            refused: Vec::new(alloc),
            pages: Vec::new(alloc),
        }
    }

    /// What was written of a session.
    pub fn page(&self, number: u64) -> &[u8] {
        for page in &self.pages {
            if page.0 == number {
                return page.1.as_slice();
            }
        }
        &[]
    }
}

impl Paper for Pages {
    type Sheet = u64;

    fn begin(&mut self, number: u64) -> Option<u64> {
        if self.refused.contains(&number) {
            return None;
        }
        match self.pages.push((number, Vec::new(self.alloc))) {
            Ok(()) => Some(number),
            Err(_) => None,
        }
    }

    fn write(&mut self, number: u64, _sheet: &mut u64, bytes: &[u8]) -> bool {
        for page in self.pages.iter_mut() {
            if page.0 == number {
                return page.1.extend_from_slice(bytes).is_ok();
            }
        }
        false
    }
}

/// What the audit says of a trace: its report, or nothing where memory was wanted.
pub fn audit(alloc: Global, trace: &[u8]) -> Result<Vec<u8>, AllocError> {
    let mut source = MemorySource::new(Vec::from_slice(alloc, trace)?, Vec::new(alloc));
    let mut sink = MemorySink::new(alloc, Vec::new(alloc));
    match run_audit(alloc, &mut source, &mut sink) {
        Ok(_) => Vec::from_slice(alloc, sink.as_slice()),
        Err(_) => Err(AllocError),
    }
}

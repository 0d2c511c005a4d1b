// What a directory keeps of what happened to it.
use bosh_types::SharedText;
use parked_gate::Gate;
use session_journal::Recorded;
use std::snapshot::Snapshot;

/// What happened to a session.
#[derive(Drop)]
pub enum Event {
    /// It was opened behind this gate. Only proofs read which one it is: it takes no memory.
    Opened(Snapshot<Gate<Recorded>>),
    Removed,
}

/// An entry of a directory's history, with the number of who made the call.
#[derive(Drop)]
pub struct Entry {
    pub caller: u32,
    pub sid: SharedText,
    pub event: Event,
}

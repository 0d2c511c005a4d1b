// Entries of sessions on their way to a disk: those who make calls note them, one thread takes them, and tells how far they are stored.
#![tactic(auto)]

mod queue;

pub use queue::{EntryQueue, Noted, Taken};

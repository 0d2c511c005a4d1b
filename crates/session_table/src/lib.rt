// The directory of live sessions: many threads open, find and remove sessions through a gate of its own, and each is handed
// the gate of the very session that it asked for, with a pass to call it with.
#![tactic(auto)]

mod calls;
mod directory;
mod entry;
mod handle;
mod laws;
mod object;
mod opening;
mod purse;
mod restoring;
mod sid;

pub use calls::{
    DirectoryCall, DirectoryReply, LiveSession, LiveSessions, NewSession, Opened, Question,
};
pub use directory::Directory;
pub use entry::{Entry, Event};
pub use handle::SessionHandle;
pub use laws::{live_sessions_are_told_by_number, names_differ};
pub use opening::{Limits, Opening};
pub use purse::Purse;
pub use restoring::{Restored, Resumed};

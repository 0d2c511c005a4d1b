// When time alone moves a session: how long a request is held, how long a client may be silent, what a pause sets, and
// when empty requests come too often (XEP-0124, sections 10 to 12); and which of many sessions is due first. It counts in
// milliseconds of 64 bits and is total. Only an index of due moments takes memory.
#![tactic(auto)]

mod deadlines;
mod due_index;
mod mark;

pub use deadlines::{Deadlines, PauseSet};
pub use due_index::DueIndex;
pub use mark::Mark;

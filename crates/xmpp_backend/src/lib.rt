// The back ends that stand behind a manager: where the stanzas of its sessions go, and where the server's come from. A trait
// with its written meaning, and three kinds in memory: an echo, a room, and one that gives by a list and fails at listed
// calls.
#![tactic(auto)]

mod backend;
mod calls;
mod due;
mod dues;
mod echo;
mod either;
mod hold;
mod in_memory;
mod ledger;
mod lists;
mod owed;
mod room;
mod scripted;
mod stanza;
mod tally;
mod wires;

pub use backend::{Backend, Given, Passed, Polled};
pub use calls::{BackendCall, Calls, Failing};
pub use echo::Echo;
pub use either::Either;
pub use in_memory::InMemory;
pub use room::Room;
pub use scripted::Scripted;
pub use stanza::are_answers;

// What who runs a server may know of it while it serves: counts that stand without a lock, and notes of sessions and of back ends, which one
// thread takes. Where nobody watches nothing is counted and nothing is kept.
#![tactic(auto)]

mod limit;
mod meter;
mod note;
mod queue;
mod tally;
mod watch;

pub use limit::{LIMITS, Limit};
pub use meter::{Meter, Reading};
pub use note::{Carried, Note};
pub use queue::{Batch, NoteQueue};
pub use tally::{Tally, is_plain, session_of};
pub use watch::Watch;

// The journal of a session as it is stored: each call that changed the session or might have, with the number of who made it.
// `Recorded` is a session that hands out the entries that it makes and stands at each moment for their replay; behind a gate it
// is one session for many threads. `Journalled` keeps the entries beside it.
#![tactic(auto)]

mod asking;
mod call;
mod entry;
mod history;
mod journalled;
mod laws;
mod object;
mod recorded;
mod redoing;
mod storing;

pub use asking::{Answer, Found, Question, State};
pub use call::{Call, Reply, Stepped};
pub use entry::{Entered, Entry, Limited};
pub use history::History;
pub use journalled::Journalled;
pub use laws::what_was_seen_keeps_the_laws;
pub use recorded::{Begun, Made, Recorded};
pub use redoing::Redone;

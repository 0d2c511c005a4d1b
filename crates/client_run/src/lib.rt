// A client that runs: it stands behind a gate, where its workers send what it has to send and take its answers, and where one
// thread gives it lines and writes what it hands out.
#![tactic(auto)]

mod alarm;
mod asking;
mod attending;
mod call;
mod carrying;
mod crew;
mod draining;
mod ear;
mod ends;
mod entry;
mod fault;
mod gathering;
mod job;
mod line;
mod lingering;
mod object;
mod queueing;
mod ready;
mod repeating;
mod running;
mod site;
mod talking;
mod watch;
mod worked;
mod working;

pub use call::{Answer, Call, Question, Reply};
pub use draining::{Written, drain};
pub use entry::{Entered, Entry};
pub use job::OVER;
pub use object::ClientObject;
pub use ready::Ready;
pub use running::{ClientRan, Outside, Place, run_client};
pub use site::Site;
pub use talking::{Talked, talk};
pub use worked::Worked;
pub use working::work;

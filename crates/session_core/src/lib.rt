// One session, apart from every connection, clock and thread: which request stands for an id, what goes inward, what each
// request is answered, and when the session ends. `Session` is a session as a manager holds it.
#![tactic(auto)]

mod added;
mod answering;
mod arriving;
mod collecting;
mod copy;
mod copying;
mod counting;
mod held;
mod inbox;
mod laws;
mod opening;
mod outbox;
mod outward;
mod place;
mod processing;
mod reasons;
mod replies;
mod rules;
mod serving;
mod session;
mod striking;
mod tickets;
mod ticking;
mod timing;
mod words;
mod written;

pub use added::AddedStream;
pub use copy::{RequestCopy, copied_request};
pub use counting::{PLAIN_COST, cost_of_body, cost_of_stanza};
pub use held::{HeldRequest, HeldRequests};
pub use inbox::Inbox;
pub use laws::written_requests_read_back;
pub use opening::Opening;
pub use outbox::Outbox;
pub use outward::{Front, Outward};
pub use place::Place;
pub use replies::{Arrived, Collected, Taken, Ticked, Waiting};
pub use session::Session;
pub use tickets::{OpenTicket, Tickets};

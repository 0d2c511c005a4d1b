// Streams of XMPP over a connection (RFC 6120): the text that is written on one, and the elements that come on one, in
// whatever pieces; and both over a link that never waits.
#![tactic(auto)]

mod incoming;
mod kept;
mod open_link;
mod outgoing;
mod paced_link;
mod poll_link;
mod qualify;
mod scan;
mod stage;
mod stream;
mod stream_cutter;
mod stream_text;
mod tag;

pub use incoming::{Came, Incoming};
pub use open_link::{Finish, OpenLink, TcpOpenLink, open_tcp_link};
pub use outgoing::{Outgoing, Paid};
pub use paced_link::PacedLink;
pub use poll_link::PollLink;
pub use stream::Stream;
pub use stream_cutter::{StreamCutter, StreamItem};
pub use stream_text::{push_end, push_header, push_item};

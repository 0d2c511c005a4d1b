// The outside as traits, each with a written meaning and a count of faults: one implementation in memory that fails at
// listed calls, one that never fails, and the real thing. Callers are generic over the trait, so that a proof holds of
// all three.
#![tactic(auto)]

mod bell;
mod feed;
mod giving;
mod link;
mod memory;
mod memory_link;
mod polled;
mod quiet;
mod quiet_link;
mod real_bell;
mod sending;
mod sink;
mod source;
mod stream_link;
mod streams;
mod tcp;

pub use bell::{Bell, BellKey, ListedBell, SteadyBell, Woken};
pub use feed::{Fed, Feed, KeptContent};
pub use giving::{WriteFault, give_all};
pub use link::Link;
pub use memory::{MemorySink, MemorySource};
pub use memory_link::MemoryLink;
pub use polled::{Polled, Waited};
pub use quiet::{Discard, QuietSource};
pub use quiet_link::QuietLink;
pub use real_bell::RealBell;
pub use sending::{send_all, send_parts};
pub use sink::{Gave, Sink};
pub use source::{Got, Source};
pub use stream_link::{HangUp, StreamLink};
pub use streams::{ReadSource, WriteSink};
pub use tcp::{TcpLink, tcp_link};

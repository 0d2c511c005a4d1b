// HTTP/1.1 messages over a link (RFC 9112), as a BOSH connection manager and its client speak them: a POST with a body
// text, and a response with one.
#![tactic(auto)]

mod awaited;
mod feeding;
mod fields;
mod gathering;
mod heading;
mod heads;
mod judging;
mod laws;
mod reader;
mod reading;
mod refusal;
mod responding;
mod room;
mod scan;
mod taken;
mod target;
mod words;
mod writing;

pub use awaited::Awaited;
pub use bosh_ports::WriteFault;
pub use feeding::HttpFed;
pub use laws::{responses_are_cut_in_one_way, streams_are_cut_in_one_way};
pub use reading::{HttpIn, RequestReader};
pub use refusal::HttpRefusal;
pub use responding::{ResponseIn, ResponseReader};
pub use writing::{MessageWriter, write_post, write_response};

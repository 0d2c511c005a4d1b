// A back end over TCP: a stream of XMPP (RFC 6120) to one server for each wire, over links that never wait.
#![tactic(auto)]

mod backend;
mod dialling;
mod flow;
mod line;
mod lines;
mod lists;
mod looking;
mod paced_network;
mod stage;
mod watch;

pub use backend::StreamBackend;
pub use paced_network::PacedNetwork;
pub use watch::{EveryWire, Watch};

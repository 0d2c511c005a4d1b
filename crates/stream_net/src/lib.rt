// The real network of a back end over TCP: connections that never wait, and a watch that knows by the system's readiness on
// which of them something may have happened.
#![tactic(auto)]

mod desk;
mod open_network;
mod watch;

pub use open_network::OpenNetwork;
pub use watch::{Desks, ReadyWatch};

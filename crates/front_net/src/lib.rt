// The real network of a server whose loops never wait: connections with one descriptor each, and a listener that outlives bursts and the
// want of descriptors.
#![tactic(auto)]

mod front_link;
mod front_listener;
mod front_network;
mod room;

pub use front_link::FrontLink;
pub use front_listener::{Attempt, FrontListener};
pub use front_network::FrontNetwork;
pub use room::room_for_links;

// The laws of a world, in which a client and a manager meet over a network that loses, repeats and reorders: its events, what
// each does, and what holds after any of them (XEP-0124, XEP-0206).
#![tactic(auto)]

mod event;
mod laws;
mod seen;
mod told;

pub use event::WorldEvent;
pub use laws::{every_world_keeps_both_prefixes, timely_worlds_are_complete};
pub use seen::{Report, Seen, SeenItem, Word};
pub use told::{Parked, Told};

// A client and a manager in one world, with a network between them that loses, repeats and reorders whatever was ever sent:
// it is the list of all copies and of all answers, of which any may come at any time (XEP-0124, XEP-0206).
#![tactic(auto)]

mod answering;
mod arriving;
mod asking;
mod client_side;
mod laws;
mod manager;
mod manager_side;
mod reading;
mod refusing;
mod running;
mod site;
mod sums;
mod telling;
mod timing;
mod world;

pub use sums::Sums;
pub use world::World;
pub use world_laws::{
    Report, Seen, SeenItem, Word, WorldEvent, every_world_keeps_both_prefixes,
    timely_worlds_are_complete,
};

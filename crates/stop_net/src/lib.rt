// The end of a server that ends with its input: the real network, which stops there, and the thread that reads the input.
#![tactic(auto)]

mod heard;
mod stoppable;
mod stoppable_link;
mod stopper;

pub use stoppable::StoppableNetwork;
pub use stoppable_link::StoppableLink;
pub use stopper::{EndOfInput, Stopper, stop_apart};

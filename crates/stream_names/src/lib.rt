// The streams of a session (XEP-0124, section 16): at most eight, named `t0` to `t7` in the order in which they were opened. It
// takes no memory.
#![tactic(auto)]

mod names;
mod set;
mod streams;

pub use names::{name_of, number_of};
pub use set::StreamSet;
pub use streams::{Shut, Streams};

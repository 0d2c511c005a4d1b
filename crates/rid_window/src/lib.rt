// Requests that come out of order, put back into the order of their ids (XEP-0124, section 14.2): a window of a
// few ids, each with a place for one item. Its whole room is taken when it is made.
#![tactic(auto)]

mod window;

pub use window::{Placed, Window};

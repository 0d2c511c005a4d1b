// The calls that one holder makes of a stored session: each is told by the journal before it and the one after it.
#![tactic(auto)]

mod calls;

pub use calls::{arrive, back, back_closed, collect, take_inward, tick};

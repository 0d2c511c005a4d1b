// The key sequence that protects an insecure session (XEP-0124, section 15): a check of the keys that come, and a maker of
// the keys to send, over SHA-1.
#![tactic(auto)]

mod check;
mod digest;
mod maker;

pub use bosh_types::Key;
pub use check::{KeyCheck, Verdict};
pub use maker::KeyMaker;

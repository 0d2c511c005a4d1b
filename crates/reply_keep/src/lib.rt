// The answers of the last requests, kept so that a request that comes again gets the very answer that it got before
// (XEP-0124, section 14.3), until it is acknowledged (section 9.2). Its whole room is taken when it is made.
#![tactic(auto)]

mod keep;

pub use bosh_types::KeptAnswer;
pub use keep::Keep;

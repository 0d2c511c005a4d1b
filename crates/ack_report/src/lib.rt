// Acknowledgements in both directions (XEP-0124, section 9): what a client's `ack` drops from the kept answers, when it
// shows that an answer was lost and is to be reported, and when an answer carries an `ack`. It takes no memory.
#![tactic(auto)]

mod acks;

pub use acks::Acks;

// The gate: many threads call one object, and each is told what the object tells one thread, at that call's place in one
// history that has every call once. Threads take turns by a ticket; a waiter spins a little, and then sleeps on the word
// that it watches.
#![tactic(auto)]

mod calls;
mod gate;
mod law;
mod object;
mod pass;
mod passes;
mod steps;
mod turn;
mod view;
mod waits;

pub use gate::{Gate, Refused};
pub use object::Object;
pub use pass::Pass;
pub use waits::Waited;

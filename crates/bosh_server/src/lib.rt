// A server over a network that listens: one thread accepts, loops serve connections, and a pump hands on what sessions and
// back ends have for each other.
#![tactic(auto)]

mod accepting;
mod agenda;
mod bells;
mod crew;
mod ends;
mod fates;
mod looping;
mod outside;
mod patience;
mod plan;
mod pump_end;
mod pumping;
mod quota;
mod rings;
mod run;
mod seat;
mod served;
mod starting;
mod stored;
mod telling;
mod yard;

pub use fates::{Away, Fate, Fates, Past, Roll};
pub use outside::{Outside, put_pump};
pub use plan::{Ran, ServePlan};
pub use run::run_workers;

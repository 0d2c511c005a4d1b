// Scripts of a client and a manager in one world, and their reports: what a line says, where a script is bad, and how it is
// run, from bytes in to bytes out.
#![tactic(auto)]

mod host;
mod laws;
mod line;
mod load;
mod load_line;
mod numbers;
mod pair;
mod report;
mod run;
mod stream_line;

pub use laws::reports_tell_of_one_world;
pub use line::{ClientTerms, PairLine, read_pair_line};
pub use load::run_load;
pub use load_line::{LoadLine, print_load_line};
pub use pair::run_pair;
pub use report::{PairReport, print_pair_report};

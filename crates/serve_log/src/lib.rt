// A log of a server: one line for each session that was opened and ended, for each back end that failed, for refusals at a limit, and each
// minute the counts. One thread writes it, from notes that others leave it and from counts that stand without a lock.
#![tactic(auto)]

mod almanac;
mod field;
mod laws;
mod ledger;
mod lines;
mod pace;
mod resident;
mod starting;
mod writer;

pub use almanac::{Almanac, RealAlmanac};
pub use field::{Field, Value, push_line};
pub use laws::values_are_seen;
pub use ledger::{Ledger, Live};
pub use lines::Lines;
pub use pace::Pace;
pub use resident::resident_kib;
pub use starting::{Logging, start_log};
pub use writer::LogWriter;

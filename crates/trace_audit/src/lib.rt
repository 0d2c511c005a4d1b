// Judges what two peers exchanged in one session, line by line of a recorded trace: whether each line keeps its rule over
// the lines before it. Who made the trace isn't trusted. Of a trace that holds it is proved that what went inward is a
// beginning of what was sent, and what was got of what was given.
#![tactic(auto)]

mod audit;
mod bodies;
mod heard;
mod ids;
mod laws;
mod line;
mod outcome;
mod report;
mod searches;
mod tally;
mod words;

pub use audit::run_audit;
pub use bodies::{Posted, Reply, read_posted, read_reply};
pub use laws::{a_trace_has_one_outcome, a_trace_that_holds_keeps_both_prefixes};
pub use line::{BadKind, Item, LineRead, TraceLine, read_line};
pub use outcome::{AuditError, Audited, Rule};
pub use report::print_outcome;

// Scripts and their reports: what a line of a script says, where a script is bad, and how it is run over sessions line by
// line, from bytes in to bytes out.
#![tactic(auto)]

mod arrivals;
mod bodies;
mod drive;
mod driven;
mod ending;
mod event;
mod hosts;
mod kept;
mod laws;
mod line;
mod live;
mod manager;
mod report;
mod resumed;
mod run;
mod stanza;
mod text;
mod words;

pub use drive::run_drive;
pub use driven::{DriveError, Driven};
pub use ending::push_ending;
pub use kept::{KeptError, drive_over};
pub use laws::{crashes_leave_no_damage, reports_tell_of_sessions};
pub use line::{BadKind, LineRead, ScriptLine, read_closing, read_line, read_stream, split_word};
pub use report::{ReportLine, kind_name, print_line, push_inward};
pub use resumed::Sessions;
pub use text::push_number;

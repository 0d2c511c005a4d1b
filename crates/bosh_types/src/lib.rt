// The plain data that every crate of the manager speaks of: request ids, moments and other numbers, texts, the conditions
// of XEP-0124 and the ways in which a session ends. It has no logic but the ranges of these numbers and how a request id
// is read.
#![tactic(auto)]

mod condition;
mod copies;
mod ending;
mod hosts;
mod inward;
mod kept;
mod key;
pub mod limits;
mod numbers;
mod rid;
mod row;
mod shared;
mod terms;
mod text;

pub use condition::Condition;
pub use copies::{CopyIn, copy_items, copy_queue};
pub use ending::{Closing, Ending};
pub use hosts::{HostName, HostNames};
pub use inward::Inward;
pub use kept::KeptAnswer;
pub use key::Key;
pub use numbers::{Moment, StreamNo, Ticket, Wire};
pub use rid::Rid;
pub use row::Row;
pub use shared::SharedText;
pub use terms::Terms;
pub use text::{Stanzas, Text};

// The pump of a server: it gives each session's items to the back end of its host and each session what the back ends gave for it,
// lets time pass for sessions, and removes those that have ended.
#![tactic(auto)]

mod dues;
mod giving;
mod hosts;
mod line;
mod news;
mod numbered;
mod passing;
mod polling;
mod pump;
mod serving;
mod session;
mod sides;
mod turn;

pub use hosts::{Host, Hosts, Replaced, Stand};
pub use line::{Line, Owing, Side, Stage};
pub use news::{Met, News, Removed};
pub use polling::poll_host;
pub use pump::Pump;
pub use serving::serve_line;

// A connection of a client, served from its bytes to the bytes of its answers.
#![tactic(auto)]

mod answering;
mod arriving;
mod asked;
mod connection;
mod creating;
mod hosts;
mod owed;
mod polled_connection;
mod polled_serve;
mod refusing;
mod serve;
mod telling;
mod trail;
mod turned_away;
mod worker;

pub use bosh_http::Awaited;
pub use connection::{Connection, ConnectionEnd, Wants};
pub use hosts::can_serve_all;
pub use polled_connection::{Moved, PolledConnection};
pub use polled_serve::serve_polled;
pub use serve::serve_connection;
pub use trail::{Evidence, Traced, Trail, TrailLine};
pub use turned_away::turn_away;
pub use worker::{Refused, Site, Tools, Worker};

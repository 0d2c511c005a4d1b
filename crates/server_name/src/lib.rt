// The name of a server, with which the names of its sessions begin, so that who sees a session's name sees whose it is.
#![tactic(auto)]

mod name;
mod named;

pub use name::ServerName;
pub use named::NamedNames;

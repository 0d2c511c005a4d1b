// The journals of a server on a disk: a thread stores what its sessions enter, links give no byte and back ends are passed no item before what
// was entered until then is stored, and the sessions of a file go on where it is opened again.
#![tactic(auto)]

mod bringing;
mod clock;
mod held_backend;
mod held_link;
mod held_network;
mod keeping;
mod laws;
mod receipt;
mod writer;

pub use bringing::{Brought, bring};
pub use clock::LaterClock;
pub use held_backend::HeldBackend;
pub use held_link::HeldLink;
pub use held_network::HeldNetwork;
pub use keeping::{Keeping, start_keeping};
pub use laws::entries_in_order_are_journals;
pub use writer::Writer;

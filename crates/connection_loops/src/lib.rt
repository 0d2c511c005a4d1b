// Loops over connections: one thread steps as many as there are, each where its link or a ring says that it may go on, and none is
// stepped meanwhile.
#![tactic(auto)]

mod bits;
mod chains;
mod door;
mod inbox;
mod listed_poller;
mod poller;
mod ready_poller;
mod rung;
mod seat;
mod slots;
mod still_poller;
mod turning;

pub use bits::{Bits, bit_of};
pub use door::{Door, Rouse};
pub use inbox::Inbox;
pub use listed_poller::{CountedRouse, ListedPoller};
pub use poller::{Poller, Pollers};
pub use ready_poller::{ReadyPoller, ReadyPollers, ReadyRouse};
pub use seat::{Seat, Wanted};
pub use slots::Slots;
pub use still_poller::{StillPoller, StillPollers, StillRouse};
pub use turning::{Loop, Turned};

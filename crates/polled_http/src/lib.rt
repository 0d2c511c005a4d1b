// Requests and responses of HTTP/1.1 over a link that is asked and never waits: at each call one piece is taken or given at
// most, and where the link has nothing now, nothing changes.
#![tactic(auto)]

mod giving;
mod heads;
mod paced;
mod polling;
mod rooms;
mod taking;
mod window;

pub use giving::{GiveRoom, Given};
pub use paced::Paced;
pub use polling::{HttpPolled, PolledReader};
pub use rooms::Rooms;
pub use taking::TakeRoom;

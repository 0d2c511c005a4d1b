ghost use Rattle.std.specs.Prelude.{◌≡◌};

use crate::fates::Roll;
use entry_queue::EntryQueue;
use server_watch::Watch;
use session_pump::Pump;
use session_table::Restored;
use std::sync::Arc;
use xmpp_backend::Backend;

/// What a server runs over: a network that listens, what its jobs have shares of, what tells its loops of their links, and who watches it.
pub struct Outside<N, C, B, S, M, Q, L, E: Backend> {
    pub net: N,
    /// How many links of the network may be open at once.
    pub room: u32,
    pub clock: C,
    pub bell: B,
    pub spawner: S,
    pub names: M,
    pub pollers: Q,
    /// Whom it tells of what it does.
    pub watch: Watch,
    /// The sessions that it begins with, where it has some from before.
    pub restored: Option<Restored>,
    /// Where the entries of its sessions are noted, if they are stored.
    pub keeper: Option<Arc<EntryQueue>>,
    /// What became of the links that it accepted. It takes no memory.
    pub roll: Roll<L>,
    /// Its pump as it ended, with its hosts and their back ends.
    pub pump: Option<Pump<E>>,
}

/// This pump stands there now, or none. The one that stood there is dropped.
pub fn put_pump<E: Backend>(place: &mut Option<Pump<E>>, pump: Option<Pump<E>>)
    ensures { place.new ≡ pump }
{
    *place = pump;
}

// What is noted of sessions and of back ends.
use bosh_types::{Ending, Moment, SharedText};

/// How many stanzas were carried for a session.
#[derive(Clone, Copy, Debug, PartialEq, Eq)]
pub struct Carried {
    /// Those that its back end was passed.
    pub inward: u64,
    /// Those that its back end gave.
    pub outward: u64,
}

/// What is noted. Moments are by the clock of the server.
#[derive(Drop)]
pub enum Note {
    /// A session was opened at a host.
    Opened {
        number: u64,
        sid: SharedText,
        host: SharedText,
        at: Moment,
    },
    /// A session was removed, since it had ended so.
    Ended {
        number: u64,
        sid: SharedText,
        ending: Option<Ending>,
        at: Moment,
    },
    /// A back end has carried so much for one of a session's streams, and carries no more for it.
    Carried {
        number: u64,
        carried: Carried,
    },
    /// The back end of this host failed. Whether another took its place.
    Failed {
        host: SharedText,
        is_replaced: bool,
    },
}

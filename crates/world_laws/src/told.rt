use bosh_types::{Ending, Inward, Rid, SharedText, Ticket};

/// What a manager makes visible of its session.
#[derive(Debug, Drop)]
pub enum Told {
    /// It passed this on to the server.
    Passed(Inward),
    /// It answered a request with this id.
    Answer { rid: Rid, body: SharedText },
    /// A later copy took the place of one that waited.
    Gone(Rid),
    /// The session ended.
    Over(Ending),
}

/// A request that waits for its answer, which is collected by this ticket.
#[derive(Clone, Copy, Debug)]
pub struct Parked {
    pub ticket: Ticket,
    pub rid: Rid,
}

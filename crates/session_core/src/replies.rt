use bosh_types::{SharedText, Ticket};

/// What a session makes of an arriving request.
#[derive(Debug, Drop)]
pub enum Arrived {
    /// The body that answers it.
    Answer(SharedText),
    /// It waits for its answer, which is collected by this ticket.
    Parked(Ticket),
    /// The session has ended before.
    Over,
}

/// What there is for a ticket.
#[derive(Debug, Drop)]
pub enum Collected {
    /// The body that answers its request, or the error where the copy that it waited for was struck. The ticket is used up.
    Answer(SharedText),
    /// Its request waits on.
    NotYet,
    /// A later copy of its request took its place. The ticket is used up.
    Superseded,
    /// No such ticket is out.
    UnknownTicket,
}

/// What a session makes of what the server gives.
#[derive(Clone, Copy, Debug, PartialEq, Eq)]
pub enum Taken {
    /// It waits to be given to the client.
    Done,
    /// Too much waits already.
    Full,
    /// The session has ended, or the stream is closed.
    Over,
}

/// What time did to a session.
#[derive(Clone, Copy, Debug, PartialEq, Eq)]
pub enum Ticked {
    /// It answered requests, struck copies beyond a gap, or ended the session.
    Changed,
    /// Nothing was due, and nothing changed.
    Quiet,
}

/// What waits for the client.
#[derive(Clone, Copy, Debug, PartialEq, Eq)]
pub struct Waiting {
    /// How many of the server's items no answer took yet, closings among them.
    pub items: u32,
    /// The bytes of the stanzas among them.
    pub bytes: u32,
}

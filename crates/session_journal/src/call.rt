use crate::entry::Entered;
use bosh_types::{Closing, Inward, Moment, SharedText, StreamNo};
use session_attrs::Request;
use session_core::{Arrived, Taken, Ticked};

/// A call of a session.
#[derive(Debug, Drop)]
pub enum Call {
    /// A request arrives, which is the one that its body gives.
    Arrive {
        request: Request,
        body: SharedText,
        now: Moment,
    },
    /// The server gives a stanza.
    Back {
        stream: StreamNo,
        stanza: SharedText,
        now: Moment,
    },
    /// The server closes the stream.
    BackClosed {
        stream: StreamNo,
        closing: Closing,
        now: Moment,
    },
    /// Time passes.
    Tick {
        now: Moment,
    },
    /// The next inward item is taken.
    TakeInward,
}

/// What a call of that name is replied.
#[derive(Debug, Drop)]
pub enum Reply {
    Arrive(Arrived),
    Back(Taken),
    BackClosed(Taken),
    Tick(Ticked),
    TakeInward(Option<Inward>),
}

/// What a call is replied, and the entry that it made, if it made one, for whoever stores it.
#[derive(Debug, Drop)]
pub struct Stepped {
    pub reply: Reply,
    pub made: Option<Entered>,
}

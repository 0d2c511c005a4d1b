use bosh_types::{Closing, Moment, SharedText, Stanzas, StreamNo, Text, Ticket};

/// Which call met the limit of the journal.
#[derive(Clone, Copy, Debug, PartialEq, Eq)]
pub enum Limited {
    Arrival,
    ServerStanza,
    ServerClosing,
    Time,
}

/// What an entry keeps of a call. The request of a body, and the terms of a creation, are those that the body gives.
#[derive(Debug, Drop)]
pub enum Entered {
    /// The creation of the session, under the name `sid`, for a host with a greeting, with as many counted bytes as its journal
    /// may have, and after how many times `wait` a copy beyond a gap is struck. It comes first, and nowhere else.
    Open {
        sid: Text,
        host: SharedText,
        greeting: Stanzas,
        body: SharedText,
        now: Moment,
        limit: u64,
        gap_waits: u32,
    },
    Arrive {
        body: SharedText,
        now: Moment,
    },
    Collect {
        ticket: Ticket,
    },
    Back {
        stream: StreamNo,
        stanza: SharedText,
        now: Moment,
    },
    BackClosed {
        stream: StreamNo,
        closing: Closing,
        now: Moment,
    },
    Tick {
        now: Moment,
    },
    TakeInward,
    /// A call for which the journal had no room, by its cost in counted bytes.
    Limit {
        kind: Limited,
        cost: u64,
        now: Moment,
    },
}

/// An entry of a journal, with the number of who made the call.
#[derive(Debug, Drop)]
pub struct Entry {
    pub caller: u32,
    pub call: Entered,
}

use bosh_types::{Condition, Ending, Inward, Rid, Row, SharedText, StreamNo, Text};

/// What was asked for and refused.
#[derive(Clone, Copy, Debug, PartialEq, Eq)]
pub enum Word {
    Put,
    PutOn,
    Add,
    StopOn,
    Restart,
    Pause,
    Stop,
    Give,
    Shut,
}

/// One thing that is seen of an event.
#[derive(Debug, Drop)]
pub enum SeenItem {
    /// There is no room for it.
    RefusedFull {
        line: Word,
    },
    /// The client or the session has ended, or is to end; or no session was created yet.
    RefusedOver {
        line: Word,
    },
    /// The client has no such stream.
    RefusedNone {
        line: Word,
    },
    /// The pause is of no seconds or of too many.
    RefusedLong,
    /// The client made this request.
    Req {
        rid: Rid,
        body: SharedText,
    },
    /// No request was due.
    Nothing,
    /// A request was due, and no id is left for it.
    Spent,
    /// A copy of the creation came again.
    Dup {
        rid: Rid,
    },
    /// The manager passed this on to the server.
    In {
        item: Inward,
    },
    /// The manager wrote the answer with this number, from 1, to a request with this id.
    Ans {
        number: u64,
        rid: Rid,
        body: SharedText,
    },
    /// A later copy took the place of one that waited.
    Gone {
        rid: Rid,
    },
    /// The session ended.
    Over {
        ending: Ending,
    },
    /// The client handed this out, which lies on the first stream.
    Got {
        stanza: Text,
    },
    /// The client handed this out, which lies on this other stream.
    GotOn {
        stream: StreamNo,
        stanza: Text,
    },
    /// The client had taken an answer of this id.
    Stale {
        rid: Rid,
    },
    /// The client took it for no answer.
    Broken {
        rid: Rid,
    },
    /// The client was told that the last of these ids counts as not received: what has no answer from the first on is to be sent
    /// again.
    Again {
        first: Rid,
        last: Rid,
    },
    /// The client took its first terminal answer.
    Ended {
        condition: Option<Condition>,
    },
    /// There is no such copy or no such answer.
    NoCopy,
}

/// All that is seen of one event, in order.
pub type Seen = Row<SeenItem>;

/// All that is seen of events, event by event.
pub type Report = Row<Seen>;

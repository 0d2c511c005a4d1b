use bosh_client::{Answered, ClientEnd, Next, Queued};
use bosh_types::{Moment, Rid, StreamNo, Text};

/// A call of a client.
#[derive(Debug, Drop)]
pub enum Call {
    /// A stanza is to be sent.
    Put { stanza: Text },
    /// The stream is to begin anew.
    Restart,
    /// The client will be silent for so many seconds.
    Pause { seconds: u32 },
    /// The session is to end.
    Terminate,
    /// The next request is asked for.
    Next { now: Moment },
    /// An answer to a request came.
    Answer { rid: Rid, body: Text, now: Moment },
    /// The next payload is asked for.
    HandOut,
}

/// What a call is replied: the first by the four that queue, each other one by the call of that name. A payload has the stream on which it
/// lies.
#[derive(Debug, Drop)]
pub enum Reply {
    Queued(Queued),
    Next(Next),
    Answered(Answered),
    HandOut(Option<(StreamNo, Text)>),
}

/// What a client is asked.
#[derive(Clone, Copy, Debug, PartialEq, Eq)]
pub enum Question {
    /// The bytes of a request that has no answer yet.
    Copy { rid: Rid },
    /// How it ended.
    Ended,
}

/// What a question of that name is answered.
#[derive(Debug, Drop)]
pub enum Answer {
    Copy(Option<Text>),
    Ended(Option<ClientEnd>),
}

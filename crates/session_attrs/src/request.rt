use body_cutter::Spans;
use bosh_types::{Rid, Text};

/// What a body asks for.
#[derive(Debug, Drop)]
pub struct Request {
    /// The request id (XEP-0124, section 14).
    pub rid: Rid,
    pub kind: Kind,
    /// In a later request: the highest id up to which the client has all answers (XEP-0124, section 9).
    pub ack: Option<Rid>,
    /// The key of this request (XEP-0124, section 15).
    pub key: Option<Text>,
    /// The first key of a new sequence (XEP-0124, section 15).
    pub newkey: Option<Text>,
    /// For how many seconds the client will be silent (XEP-0124, section 10).
    pub pause: Option<u32>,
    /// The stream that the request is for (XEP-0124, section 16).
    pub stream: Option<Text>,
    /// The host that the client wants to reach (XEP-0124, section 7.1).
    pub to: Option<Text>,
    /// The stream is to be restarted (XEP-0206).
    pub restart: bool,
    /// The session is to end (XEP-0124, section 13).
    pub terminate: bool,
    /// All children of the body.
    pub stanzas: Spans,
}

/// A request creates a session, or is for one.
#[derive(Debug, Drop)]
pub enum Kind {
    /// It creates a session, since it names none.
    Creation(Creation),
    /// It is for the session with this name.
    Later { sid: Text },
}

/// What a creation asks for (XEP-0124, section 7.1).
#[derive(Clone, Copy, Debug, PartialEq, Eq)]
pub struct Creation {
    /// How long a request may be held, in seconds.
    pub wait: Option<u32>,
    /// How many requests may be held.
    pub hold: Option<u32>,
    /// The highest version of the protocol that the client speaks, major and minor.
    pub version: (u32, u32),
    /// The client wants acknowledgements (XEP-0124, section 9).
    pub asks_ack: bool,
}

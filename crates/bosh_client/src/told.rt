use crate::inbox::Inbox;
use crate::replies::ClientEnd;
use bosh_types::{StreamNo, Text};

/// The stream that an answer names (XEP-0124, section 16).
#[derive(Clone, Copy, Debug, PartialEq, Eq)]
pub enum Naming {
    /// It names none.
    Unnamed,
    /// It names this one.
    Stream(StreamNo),
    /// No stream has that name.
    Unknown,
}

/// What an answer tells a client.
#[derive(Debug, Drop)]
pub struct Told {
    /// In a terminal answer: how it ends the client.
    pub end: Option<ClientEnd>,
    /// Whether its request counts as not received, so that it is no answer of its id (XEP-0124, section 17.3).
    pub error: bool,
    /// The session's id (XEP-0124, section 7).
    pub sid: Option<Text>,
    /// How many requests may be open (XEP-0124, section 11), how far apart empty requests have to lie, and how long a pause
    /// may be, both in seconds (XEP-0124, sections 7 and 10).
    pub requests: Option<u32>,
    pub polling: Option<u32>,
    pub maxpause: Option<u32>,
    /// Whether it acknowledges (XEP-0124, section 9).
    pub acknowledges: bool,
    /// The stream that it names.
    pub stream: Naming,
    /// Its payloads in order, each as its exact bytes.
    pub payloads: Inbox,
}

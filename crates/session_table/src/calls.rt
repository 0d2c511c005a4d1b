// What a directory is called and asked, and what it replies.
use crate::handle::SessionHandle;
use crate::opening::Opening;
use bosh_types::{Row, SharedText, Text};

/// A call of a directory.
#[derive(Drop)]
pub enum DirectoryCall {
    /// A session is opened, under the drawn part of a name and its opening number.
    Open(Opening),
    /// The live session of this name is asked for.
    Find { sid: Text },
    /// The live session of this name is live no longer.
    Remove { sid: Text },
}

/// A session that was opened, and the body that answers its creation.
#[derive(Drop)]
pub struct Opened {
    pub session: SessionHandle,
    pub answer: SharedText,
}

/// What a call is replied.
#[derive(Drop)]
pub enum DirectoryReply {
    Opened(Opened),
    /// As many sessions are live as may be.
    TableFull,
    /// As many sessions were opened as may be.
    OpeningsSpent,
    Found(SessionHandle),
    Removed,
    /// No live session has that name.
    Unknown,
}

/// What came of a creation, for a worker that keeps the handle of what it opened.
#[derive(Drop)]
pub enum NewSession {
    /// The session has this opening number, and this body answers its creation.
    Opened { number: u64, answer: SharedText },
    TableFull,
    OpeningsSpent,
}

/// What a directory is asked.
#[derive(Clone, Copy, Debug, PartialEq, Eq)]
pub enum Question {
    /// Which sessions are live.
    Live,
}

/// A live session, by its name and by how many sessions were opened up to it.
#[derive(Drop)]
pub struct LiveSession {
    pub sid: SharedText,
    pub number: u64,
}

/// Live sessions in the order in which they were opened.
pub type LiveSessions = Row<LiveSession>;

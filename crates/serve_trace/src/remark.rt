// Why a trace ends before its session does.
use std::alloc::AllocError;

/// Why no more of a session is written.
#[derive(Clone, Copy, PartialEq, Eq)]
pub enum Remark {
    /// A text has a line feed, and no line can hold it.
    LineFeed,
    /// A trace has at most a million lines.
    Lines,
    /// The queue had no room for something that was seen of the session.
    NoRoom,
    /// There was no memory for it.
    NoMemory,
    /// Too much waits for a request or an answer that isn't there.
    Gap,
    /// A request came with a lower id than the first.
    LowId,
    /// A request is for another stream, or asks for one.
    OtherStream,
}

impl Remark {
    /// What a trace says behind its line `end`.
    pub fn text(self) -> &'static str {
        match self {
            Remark::LineFeed => "no line can hold what came next, since it has a line feed",
            Remark::Lines => "a trace has at most 1,000,000 lines",
            Remark::NoRoom => "there was no room in the queue for something that was seen next",
            Remark::NoMemory => "there was no memory for something that was seen next",
            Remark::Gap => "too much waited for a request or an answer that was missing",
            Remark::LowId => "a request came next with a lower id than the first",
            Remark::OtherStream => "what came next is for another stream",
        }
    }
}

impl From<AllocError> for Remark {
    fn from(_: AllocError) -> Remark {
        Remark::NoMemory
    }
}

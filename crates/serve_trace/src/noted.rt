// What was seen of one session.
use crate::remark::Remark;
use bosh_types::{SharedText, Text};

/// A copy of a later request that came.
#[derive(Drop)]
pub struct Copy {
    /// The name of the session that it is for.
    pub sid: Text,
    pub rid: u64,
    /// It is for the session's one stream, and asks for no other.
    pub is_plain: bool,
    pub body: Text,
}

/// An answer that was given whole.
#[derive(Drop)]
pub struct Answer {
    /// The name of the session that the request was for.
    pub sid: Text,
    /// The id of the request that it answers.
    pub rid: u64,
    /// It has a `type`.
    pub is_typed: bool,
    /// It ends the session.
    pub is_terminal: bool,
    pub body: Text,
}

/// A creation, with the answer that tells the name of its session.
#[derive(Drop)]
pub struct Opening {
    pub sid: Text,
    pub rid: u64,
    /// The name of the host.
    pub to: Text,
    /// It is for the session's one stream.
    pub is_plain: bool,
    pub body: Text,
    pub answer: Text,
}

/// What was seen.
#[derive(Drop)]
pub enum Seen {
    Opened(Opening),
    Came(Copy),
    Answered(Answer),
    /// The back end gave this.
    Gave(SharedText),
    /// The back end was passed this.
    Passed(SharedText),
    /// The back end was passed a restart of the stream.
    Restarted,
    /// Something that no trace can tell.
    Untold(Remark),
    /// The session's wire was closed.
    Closed,
}

/// What was seen, of the session with this opening number.
#[derive(Drop)]
pub struct Noted {
    pub number: u64,
    pub seen: Seen,
}

impl Noted {
    /// How many bytes of texts it has.
    pub fn len(&self) -> usize {
        match &self.seen {
            Seen::Opened(opening) => opening.body.len().saturating_add(opening.answer.len()),
            Seen::Came(copy) => copy.body.len(),
            Seen::Answered(answer) => answer.body.len(),
            Seen::Gave(text) => text.len(),
            Seen::Passed(text) => text.len(),
            Seen::Restarted => 0,
            Seen::Untold(_) => 0,
            Seen::Closed => 0,
        }
    }
}

// What the pump remembers of a session.
ghost use Rattle.std.specs.Prelude.{IsTrue};
ghost use Rattle.xmpp_backend.specs.Told.{is_proper};

use bosh_types::{Inward, StreamNo, Wire};
use xmpp_backend::Given;

/// Where the wire of a stream stands.
#[derive(Clone, Copy, Debug, PartialEq, Eq)]
pub enum Stage {
    /// It wasn't opened yet.
    Unopened,
    /// It was opened on the back end before which so many of the host failed.
    Opened(u64),
    /// It is no more, and the session knows.
    Lost,
}

/// A stream of a session, at the back end of a host.
#[derive(Drop)]
pub struct Side {
    pub stream: StreamNo,
    /// The place of its host, where it is one of the server's.
    pub host: Option<usize>,
    pub wire: Wire,
    pub stage: Stage,
    /// What its back end gave and the session had no room for. The wire is held until it is taken.
    pub owed: Option<Owing>,
}

/// A session's line to the back ends of its streams' hosts.
#[derive(Drop)]
pub struct Line {
    /// The opening number of the session.
    pub opening: u32,
    /// What was taken of the session and not passed on yet.
    pub kept: Option<Inward>,
    /// Its streams, in the order in which they were met.
    pub sides: Vec<Side>,
}

/// What a back end gave for the session with this opening number.
#[derive(Debug, Drop)]
pub struct Owing {
    pub number: u64,
    pub stream: StreamNo,
    /// The wire on which it was given.
    pub wire: Wire,
    pub given: Given,
    /// Whether the session had no room for it.
    pub was_refused: bool,
    pub ghost proper: { IsTrue (is_proper given) },
}

// What became of the requests of a connection, for who runs the server.
ghost use Rattle.std.specs.Prelude.{◌≡◌, ◌++◌, ◌∷◌, []};

use bosh_http::HttpRefusal;
use bosh_types::{Condition, SharedText};
use http_server::Log;
use parked_gate::Pass;
use session_table::{Directory, SessionHandle};
use std::marker::Model;
use std::snapshot::Snapshot;

/// What became of one request.
#[derive(Debug, Drop)]
pub enum TrailLine {
    /// It was no request that is served, and the connection ends.
    Http(HttpRefusal),
    /// The entry at this place of its session's history answers it; its caller made it. Places count from 0.
    Entry {
        sid: SharedText,
        caller: u32,
        place: u64,
    },
    /// It created this session.
    Opened {
        sid: SharedText,
    },
    /// No live session has the name that it gives, or that session has ended.
    Unknown {
        sid: SharedText,
    },
    /// It is answered with this condition, and concerns no session.
    NoSession(Condition),
}

/// What a line is told by. Only proofs read it, and it takes no memory.
#[derive(Drop)]
pub enum Evidence {
    /// The request alone.
    Request,
    /// The session, as this worker knew it right after the call.
    Session(Snapshot<SessionHandle>),
    /// The directory, as this worker knew it right after the call.
    Directory(Snapshot<Pass<Directory>>),
}

/// A line of a trail, and what it is told by.
#[derive(Drop)]
pub struct Traced {
    pub line: TrailLine,
    pub evidence: Evidence,
}

/// The lines of a worker, one for each request that was read, in order. Only proofs read them, and they take no memory.
#[derive(Drop)]
pub struct Trail {
    made: Log<Traced, ()>,
}

impl Model for Trail {
    ghost use Rattle.std.specs.Prelude.{List};
    ghost use Rattle.serve_loop.specs.declared.trail.Traced.{Traced};
    ghost use Rattle.session_journal.specs.Recording.{entries_of};

    ghost Value = { List Traced };

    ghost view = { λ t. entries_of t.made.items };
}

impl Trail {
    /// No request was read.
    pub fn new() -> Trail
        ensures { result ≡ [] }
    {
        Trail { made: Log::new() }
    }

    /// One more line.
    pub(crate) fn push(&mut self, line: TrailLine, evidence: Evidence)
        ensures { self.new ≡ self.old ++ record { line = line; evidence = evidence } ∷ [] }
    {
        let traced = Traced { line, evidence };
        self.made = self.made.and(&traced, &());
    }
}

// What became of the links that a server accepted, for who reads proofs.
ghost use Rattle.std.specs.Prelude.{◌≡◌, ◌++◌, ◌∷◌, []};

use http_server::Log;
use serve_loop::{PolledConnection, Trail};
use session_table::Purse;
use std::marker::Model;
use std::snapshot::Snapshot;

/// A connection that was let go. Nothing of it takes memory.
#[derive(Drop)]
pub struct Past<L> {
    /// Its link when it came, before it was closed, and after that.
    pub came: Snapshot<L>,
    pub went: Snapshot<L>,
    pub end: Snapshot<L>,
    /// What was kept of the directory for it, at first and at last.
    pub first: Snapshot<Purse>,
    pub last: Snapshot<Purse>,
    /// A line for each of its requests.
    pub trail: Trail,
    /// Where it stood when it was let go.
    pub connection: Snapshot<PolledConnection>,
}

/// A link on which no connection was served, when it came and when it was closed.
#[derive(Drop)]
pub struct Away<L> {
    pub came: Snapshot<L>,
    pub end: Snapshot<L>,
}

/// What became of a link.
#[derive(Drop)]
pub enum Fate<L> {
    /// A connection was served on it, and was let go.
    Served(Past<L>),
    /// As many connections were open as may be: it was told so, and closed.
    TurnedAway(Away<L>),
    /// There was no memory for a connection: it was closed.
    NoMemory(Away<L>),
}

/// What became of the links of one loop, in the order in which they were let go. Only proofs read it, and it takes no memory.
#[derive(Drop)]
pub struct Fates<L> {
    made: Log<Fate<L>, ()>,
}

impl<L> Model for Fates<L> {
    ghost use Rattle.std.specs.Prelude.{List};
    ghost use Rattle.bosh_server.specs.declared.fates.Fate.{Fate};
    ghost use Rattle.bosh_server.specs.Fates.{firsts};
    ghost use Rattle.session_table.specs.contracts.purse.Purse as purse;
    ghost use Rattle.std.specs.Coded.{codes};

    ghost Value = { List (Fate L) };

    ghost coded = { Prim.hlevel (codes, purse.the_row.coded) };

    ghost view = { λ t. firsts t.made.items };
}

impl<L> Fates<L> {
    /// No link was let go.
    pub(crate) fn new() -> Fates<L>
        ensures { result ≡ [] }
    {
        Fates { made: Log::new() }
    }

    /// One more.
    pub(crate) fn push(&mut self, fate: Fate<L>)
        ensures { self.new ≡ self.old ++ fate ∷ [] }
    {
        self.made = self.made.and(&fate, &());
    }
}

/// What became of all links that a server accepted, by one list for each of its loops. Only proofs read it, and it takes no memory.
#[derive(Drop)]
pub struct Roll<L> {
    made: Log<Fates<L>, ()>,
}

impl<L> Model for Roll<L> {
    ghost use Rattle.std.specs.Prelude.{List};
    ghost use Rattle.bosh_server.specs.declared.fates.Fate.{Fate};
    ghost use Rattle.bosh_server.specs.Fates.{firsts};
    ghost use Rattle.session_table.specs.contracts.purse.Purse as purse;
    ghost use Rattle.std.specs.Coded.{codes};

    ghost Value = { List (List (Fate L)) };

    ghost coded = { Prim.hlevel (codes, purse.the_row.coded) };

    ghost view = { λ t. firsts t.made.items };
}

impl<L> Roll<L> {
    /// No loop has ended.
    pub fn new() -> Roll<L>
        ensures { result ≡ [] }
    {
        Roll { made: Log::new() }
    }

    /// The links of one more loop.
    pub(crate) fn push(&mut self, fates: Fates<L>)
        ensures { self.new ≡ self.old ++ fates ∷ [] }
    {
        self.made = self.made.and(&fates, &());
    }
}

// What stands behind a manager.
use bosh_types::{Closing, Inward, SharedText, Wire};

/// What became of a call that opens a wire, passes an item or closes a wire.
#[derive(Clone, Copy, Debug, PartialEq, Eq)]
pub enum Passed {
    Done,
    /// The back end failed. Nothing was done.
    Failed,
    /// There was no memory for it. Nothing was done.
    NoMemory,
}

/// What the server gave.
#[derive(Debug, Drop)]
pub enum Given {
    Stanza(SharedText),
    Closed(Closing),
}

/// What a poll found.
#[derive(Debug, Drop)]
pub enum Polled {
    /// A stanza of the server for this wire.
    Out(Wire, SharedText),
    /// The server closed this wire.
    Closed(Wire, Closing),
    /// There is nothing to be had now.
    Nothing,
    /// The back end failed. Nothing was given.
    Failed,
    /// There was no memory for it. Nothing was given.
    NoMemory,
}

/// Where the items of sessions go, each on its wire, and where the stanzas for them come from. What it was passed and what
/// its polls gave are lists that only grow, in the order of the calls, where it tells them: a real back end may tell nothing.
/// `Failed` comes only where its count of faults rose, and no other answer moves that count.
pub trait Backend: Drop {
    ghost use Rattle.std.specs.Prelude.{◌≡◌, Option};
    ghost use Rattle.xmpp_backend.specs.Counts.{Counts, CountsPassed, CountsPolled};
    ghost use Rattle.xmpp_backend.specs.Told.{Told, Opens, Passes, Polls, Closes, Holds, Resumes, GivesStanza};

    // The wires that were opened, with the names of their hosts, and closed, what it was passed and what its polls gave, and the wires that are held, where it
    // tells them.
    ghost told: { Self → Option Told };

    // How often it failed, and how often a poll found nothing and gave something.
    ghost counts: { Self → Counts };

    /// Opens a wire to the host of this name. What is passed on a wire that isn't open is told like the rest, and nothing need
    /// be given for it.
    fn open(&mut self, wire: Wire, to: &[u8]) -> Passed
        ensures lists { Opens (told self.old) (told self.new) wire to.now result }
        ensures counts { CountsPassed (counts self.old) (counts self.new) result };

    /// Passes an item on a wire. The number of the stream within the item is not looked at.
    fn pass(&mut self, wire: Wire, item: &Inward) -> Passed
        ensures lists { Passes (told self.old) (told self.new) wire item.now result }
        ensures counts { CountsPassed (counts self.old) (counts self.new) result };

    /// The next thing that the server gave, on whichever wire, if there is one.
    fn poll(&mut self) -> Polled
        ensures lists { Polls (told self.old) (told self.new) result }
        ensures stanza { GivesStanza result }
        ensures counts { CountsPolled (counts self.old) (counts self.new) result };

    /// Closes a wire. What was to be given on it may be let go.
    fn close(&mut self, wire: Wire) -> Passed
        ensures lists { Closes (told self.old) (told self.new) wire result }
        ensures counts { CountsPassed (counts self.old) (counts self.new) result };

    /// Nothing is given on this wire until it is resumed: its session has no room for more. One that tells nothing may go on
    /// giving. It takes no memory.
    fn hold(&mut self, wire: Wire)
        ensures lists { Holds (told self.old) (told self.new) wire }
        ensures counts { counts self.new ≡ counts self.old };

    /// What is kept for this wire may be given again, in its order. It takes no memory.
    fn resume(&mut self, wire: Wire)
        ensures lists { Resumes (told self.old) (told self.new) wire }
        ensures counts { counts self.new ≡ counts self.old };
}

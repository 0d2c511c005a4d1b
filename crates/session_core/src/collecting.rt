// What a session hands out, and what it tells of itself. Nothing here takes memory.
ghost use Rattle.std.specs.Prelude.{◌≡◌, is_some, length};
ghost use Rattle.session_core.specs.Machine.{collect, take_inward};
ghost use Rattle.session_core.specs.StandsFor.{StandsFor};
ghost use Rattle.session_core.specs.State.{PlainSession, is_running, waiting_counts};

use crate::replies::{Collected, Waiting};
use crate::session::Session;
use bosh_types::{Ending, Inward, StreamNo, Ticket};

impl Session {
    /// What there is for a ticket (XEP-0124). `Answer` comes once, with the answer that its request was given, or its last word where
    /// the session ended before it had one, or the error where the copy that it waited for was struck (section 17.3);
    /// `Superseded` comes once where a later copy of the request took its place (section 14.3). Both use the ticket up, and `UnknownTicket` comes for one that isn't out. Where the request
    /// waits on, it is `NotYet`, and nothing changed.
    #[tactic(auto, unfolding(crate::specs::StandsFor::StandsFor))]
    pub fn collect(&mut self, ticket: Ticket) -> Collected
        ensures reply { (plain : PlainSession) → StandsFor self.old plain → result ≡ (collect plain ticket).1 }
        ensures after { (plain : PlainSession) → StandsFor self.old plain → StandsFor self.new (collect plain ticket).0 }
    {
        self.tickets.collect(ticket)
    }

    /// The next of the items that go inward, in the order of request ids (XEP-0124, section 14.1): `None` where none is left
    /// of those that were processed. It hands on after the ending too.
    #[tactic(auto, unfolding(crate::specs::StandsFor::StandsFor))]
    pub fn take_inward(&mut self) -> Option<Inward>
        ensures reply { (plain : PlainSession) → StandsFor self.old plain → result ≡ (take_inward plain).1 }
        ensures after { (plain : PlainSession) → StandsFor self.old plain → StandsFor self.new (take_inward plain).0 }
    {
        self.inward.take_first()
    }

    /// Whether something goes inward that was not taken yet: `take_inward` gives an item then, and none otherwise.
    #[tactic(auto, unfolding(crate::specs::StandsFor::StandsFor))]
    pub fn has_inward(&self) -> bool
        ensures { (plain : PlainSession) → StandsFor self.now plain → result ≡ is_some (take_inward plain).1 }
    {
        !self.inward.is_empty()
    }

    /// How many tickets were handed out so far: they have the numbers from 1 to that.
    #[tactic(auto, unfolding(crate::specs::StandsFor::StandsFor))]
    pub fn tickets_given(&self) -> u32
        ensures { (plain : PlainSession) → StandsFor self.now plain → result ≡ length plain.tickets }
    {
        self.tickets.given()
    }

    /// Why the session ended: `None` while it goes on.
    #[tactic(auto, unfolding(crate::specs::StandsFor::StandsFor))]
    pub fn ending(&self) -> Option<Ending>
        ensures { (plain : PlainSession) → StandsFor self.now plain → result ≡ plain.ending }
    {
        self.ending
    }

    /// Whether this stream is open (XEP-0124, section 16).
    #[tactic(auto, unfolding(crate::specs::StandsFor::StandsFor))]
    pub fn is_running(&self, stream: StreamNo) -> bool
        ensures { (plain : PlainSession) → StandsFor self.now plain → result ≡ is_running plain stream }
    {
        self.streams.running().contains(stream)
    }

    /// What waits for the client: what the server gave and no answer took yet.
    #[tactic(auto, unfolding(crate::specs::StandsFor::StandsFor))]
    pub fn waiting(&self) -> Waiting
        ensures { (plain : PlainSession) → StandsFor self.now plain → result ≡ waiting_counts plain }
    {
        self.outbox.counts()
    }
}

// Where connections come from, and where they are made to.
ghost use Rattle.std.specs.Prelude.{◌≡◌, ℕ, List, Option, Some, None, ⊤};

use bosh_ports::Link;

/// How listening began.
#[derive(Clone, Copy, Debug, PartialEq, Eq)]
pub enum Opened {
    Ready,
    Failed,
}

/// One more end of a network, for another thread.
#[derive(Drop)]
pub enum Shared<N> {
    Net(N),
    Failed,
}

/// What came.
#[derive(Drop)]
pub enum Accepted<L> {
    Link(L),
    /// No more links will come.
    Stopped,
    Failed,
}

/// What a dial gave.
#[derive(Drop)]
pub enum Dialled<L> {
    Link(L),
    Failed,
}

/// A network of links over 127.0.0.1, and its counts, which never fall. A link that it gave comes back by `retire`, and a share
/// by `back`. `Failed` is answered only where the count of faults rose in that call.
pub trait Network {
    ghost use Rattle.server_ports.specs.Counts.{Counts, HasFailed, RisesWith, added, no_counts};
    ghost use Rattle.server_ports.specs.Events.{Event, Begins, Retires, Joins, IsWithout, IsUngiven};
    ghost use Rattle.server_ports.specs.Network.{ListenCounts, MatchShared, MatchAccepted, AcceptCounts, MatchDialled, DialCounts};

    type Link: Link;

    ghost counts: { Self → Counts };

    // What became of its links, in order, where the network tells that.
    ghost events: { Self → Option (List Event) };

    /// Listens at a port for the links that `accept` gives.
    fn listen(&mut self, port: u16) -> Opened
        ensures counts { ListenCounts (counts self.old) (counts self.new) result }
        ensures events { events self.new ≡ events self.old };

    /// One more end, which dials for another thread, with counts of its own.
    fn share(&mut self) -> Shared<Self>
    where
        Self: Sized,
        ensures counts { MatchShared result (λ _. counts self.new ≡ counts self.old) (HasFailed (counts self.old) (counts self.new)) }
        ensures events { events self.new ≡ events self.old }
        ensures fresh { MatchShared result (λ net. counts net ≡ no_counts) ⊤ }
        ensures idle { MatchShared result (λ net. IsWithout (events net)) ⊤ };

    /// The next link that someone made to this end. It may wait for it.
    fn accept(&mut self) -> Accepted<Self::Link>
        ensures counts { AcceptCounts (counts self.old) (counts self.new) result }
        ensures events { MatchAccepted result (λ link. Begins (events self.old) (events self.new) None (Self.Link.left link)) (events self.new ≡ events self.old) (events self.new ≡ events self.old) }
        ensures faultless { MatchAccepted result (λ link. Self.Link.faults link ≡ 0) ⊤ ⊤ }
        ensures ungiven { MatchAccepted result (λ link. IsUngiven (events self.new) (Self.Link.given link)) ⊤ ⊤ };

    /// A new link to who listens at the port.
    fn dial(&mut self, port: u16) -> Dialled<Self::Link>
        ensures counts { DialCounts (counts self.old) (counts self.new) result }
        ensures events { MatchDialled result (λ link. Begins (events self.old) (events self.new) (Some port) (Self.Link.left link)) (events self.new ≡ events self.old) }
        ensures faultless { MatchDialled result (λ link. Self.Link.faults link ≡ 0) ⊤ }
        ensures ungiven { MatchDialled result (λ link. IsUngiven (events self.new) (Self.Link.given link)) ⊤ };

    /// Closes a link and notes what it carried. The count of faults rises exactly where the link's isn't 0.
    fn retire(&mut self, link: Self::Link)
        ensures faults { RisesWith (counts self.old).faults (counts self.new).faults (Self.Link.faults link) }
        ensures others { counts self.new ≡ record (counts self.old) { faults = (counts self.new).faults } }
        ensures events { Retires (events self.old) (events self.new) (Self.Link.left link) (Self.Link.given link) };

    /// Ends a share, and adds what it dialled and carried. The count of faults rises exactly where the share's isn't 0.
    fn back(&mut self, share: Self)
    where
        Self: Sized,
        ensures faults { RisesWith (counts self.old).faults (counts self.new).faults (counts share).faults }
        ensures others { counts self.new ≡ record (counts self.old) {
          faults = (counts self.new).faults;
          dialled = added (counts self.old).dialled (counts share).dialled;
        } }
        ensures events { Joins (events self.old) (events self.new) (events share) };
}

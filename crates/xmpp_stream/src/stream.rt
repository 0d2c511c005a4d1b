// One stream over its link.
ghost use Rattle.std.specs.Prelude.{◌≡◌, ◌≤◌, ◌++◌, ◌∷◌, [], ℕ, List, Option, IfOk, OnErr, OnOk, false, true};
ghost use Rattle.bosh_ports.specs.Faults.{HasRisen};
ghost use Rattle.bosh_types.specs.declared.inward.Inward.{Inward};
ghost use Rattle.xmpp_stream.specs.Wire.{Comes, IsRead, IsWritten};

use crate::incoming::{Came, Incoming};
use crate::outgoing::{Outgoing, Paid};
use crate::poll_link::PollLink;
use bosh_types::Inward;
use std::alloc::AllocError;

/// A stream over a link that never waits: what its link was given, and after it what is owed, is the text of what was passed, and
/// what its polls gave are the elements of what was taken. Both ends are made before the link, so that this takes no memory.
#[derive(Drop)]
pub struct Stream<L: PollLink + Drop> {
    pub link: L,
    pub outgoing: Outgoing,
    pub incoming: Incoming,
}

impl<L: PollLink + Drop> Stream<L> {
    pub fn new(link: L, outgoing: Outgoing, incoming: Incoming) -> Stream<L>
        ensures link { result.link ≡ link }
        ensures outgoing { result.outgoing ≡ outgoing }
        ensures incoming { result.incoming ≡ incoming }
    {
        Stream {
            link,
            outgoing,
            incoming,
        }
    }

    /// Owes the text of an item, on a stream that wasn't closed; on one that was, nothing. The only error is want of memory, after
    /// which all is as before.
    pub fn pass(&mut self, item: &Inward) -> Result<(), AllocError>
        ensures ok { (start : Option (List ℕ)) (passed : List Inward) → IsWritten start (L.given self.old.link) self.old.outgoing passed → self.old.outgoing.closed ≡ false
            → OnOk result (IsWritten start (L.given self.new.link) self.new.outgoing (passed ++ item.now ∷ [])) }
        ensures past { self.old.outgoing.closed ≡ true → self.new ≡ self.old }
        ensures err { OnErr result (self.new ≡ self.old) }
        ensures others { self.new ≡ record self.old { outgoing = self.new.outgoing } }
    {
        self.outgoing.pass(item)
    }

    /// Owes the end tag, unless it was owed before. What comes may still be polled. The only error is want of memory, after which all
    /// is as before.
    pub fn close(&mut self) -> Result<(), AllocError>
        ensures ok { (start : Option (List ℕ)) (passed : List Inward) → IsWritten start (L.given self.old.link) self.old.outgoing passed
            → OnOk result (IsWritten start (L.given self.new.link) self.new.outgoing passed) }
        ensures closed { OnOk result (self.new.outgoing.closed ≡ true) }
        ensures err { OnErr result (self.new ≡ self.old) }
        ensures others { self.new ≡ record self.old { outgoing = self.new.outgoing } }
    {
        self.outgoing.close()
    }

    /// What comes next. What is owed is given first, as far as the link has room for it. The only error is want of memory, after
    /// which the same comes next.
    pub fn poll(&mut self) -> Result<Came, AllocError>
        ensures written { (start : Option (List ℕ)) (passed : List Inward) → IsWritten start (L.given self.old.link) self.old.outgoing passed
            → IsWritten start (L.given self.new.link) self.new.outgoing passed }
        ensures ok { (start : Option (List ℕ)) (elements : List (List ℕ)) → IsRead start (L.left self.old.link) self.old.incoming elements
            → IfOk result (λ came. Comes came start (L.left self.new.link) self.new.incoming elements) }
        ensures err { (start : Option (List ℕ)) (elements : List (List ℕ)) → IsRead start (L.left self.old.link) self.old.incoming elements
            → OnErr result (IsRead start (L.left self.new.link) self.new.incoming elements) }
        ensures failed { IfOk result (λ came. came ≡ Came.Failed → HasRisen (L.faults self.old.link) (L.faults self.new.link)) }
        ensures waits { IfOk result (λ came. came ≡ Came.NotYet → HasRisen (L.idle self.old.link) (L.idle self.new.link)) }
        ensures faults { L.faults self.old.link ≤ L.faults self.new.link }
    {
        if self.outgoing.give(&mut self.link) == Paid::Failed {
            return Ok(Came::Failed);
        }
        self.incoming.poll(&mut self.link)
    }
}

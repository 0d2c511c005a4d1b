// What a kind in memory tells and counts. The lists are read by proofs alone and take no memory.
ghost use Rattle.std.specs.Prelude.{◌≡◌, []};

use crate::backend::Given;
use bosh_types::{Inward, Text, Wire};
use http_server::Log;
use std::marker::Model;

// The wires that were opened and closed, what was passed and what polls gave.
#[derive(Drop)]
pub(crate) struct Lists {
    opened: Log<Wire, Text>,
    passed: Log<Wire, Inward>,
    given: Log<Wire, Given>,
    closed: Log<Wire, Wire>,
}

impl Model for Lists {
    ghost use Rattle.std.specs.Prelude.{map};
    ghost use Rattle.xmpp_backend.specs.Told.{Done};

    ghost Value = { Done };

    ghost view = { λ l. record { opened = l.opened.items; passed = l.passed.items; given = l.given.items; closed = map (λ entry. entry.0) l.closed.items } };
}

impl Lists {
    ghost use Rattle.std.specs.Prelude.{◌++◌, ◌∷◌};

    pub(crate) fn new() -> Self
        ensures { result ≡ record { opened = []; passed = []; given = []; closed = [] } }
    {
        Lists {
            opened: Log::new(),
            passed: Log::new(),
            given: Log::new(),
            closed: Log::new(),
        }
    }

    pub(crate) fn open(&mut self, wire: Wire, to: &Text)
        ensures { self.new ≡ record self.old { opened = self.old.opened ++ (wire, to.now) ∷ [] } }
    {
        self.opened = self.opened.and(&wire, to);
    }

    pub(crate) fn pass(&mut self, wire: Wire, item: &Inward)
        ensures { self.new ≡ record self.old { passed = self.old.passed ++ (wire, item.now) ∷ [] } }
    {
        self.passed = self.passed.and(&wire, item);
    }

    pub(crate) fn give(&mut self, wire: Wire, given: &Given)
        ensures { self.new ≡ record self.old { given = self.old.given ++ (wire, given.now) ∷ [] } }
    {
        self.given = self.given.and(&wire, given);
    }

    pub(crate) fn close(&mut self, wire: Wire)
        ensures { self.new ≡ record self.old { closed = self.old.closed ++ wire ∷ [] } }
    {
        self.closed = self.closed.and(&wire, &wire);
    }
}

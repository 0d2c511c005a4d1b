// What a back end tells. The lists are read by proofs alone and take no memory.
ghost use Rattle.std.specs.Prelude.{◌≡◌, []};
ghost use Rattle.xmpp_backend.specs.Told.{opened_too, passed_too, given_too, closed_too, held_too, resumed_too};

use bosh_types::{Inward, Text, Wire};
use http_server::Log;
use std::marker::Model;
use xmpp_backend::Given;

// The wires that were opened and closed, what was passed and what polls gave, and the wires that were held (`true`) and no longer
// (`false`), each in the order of the calls.
#[derive(Drop)]
pub(crate) struct Lists {
    opened: Log<Wire, Text>,
    passed: Log<Wire, Inward>,
    given: Log<Wire, Given>,
    closed: Log<Wire, Wire>,
    held: Log<Wire, bool>,
}

impl Model for Lists {
    ghost use Rattle.std.specs.Prelude.{[], map};
    ghost use Rattle.xmpp_backend.specs.Dues.{held_by};
    ghost use Rattle.xmpp_backend.specs.Told.{Told};

    ghost Value = { Told };

    ghost view = { λ l. record {
      opened = l.opened.items;
      passed = l.passed.items;
      given = l.given.items;
      closed = map (λ entry. entry.0) l.closed.items;
      held = held_by [] l.held.items;
    } };
}

impl Lists {
    pub(crate) fn new() -> Lists
        ensures { result ≡ record { opened = []; passed = []; given = []; closed = []; held = [] } }
    {
        Lists {
            opened: Log::new(),
            passed: Log::new(),
            given: Log::new(),
            closed: Log::new(),
            held: Log::new(),
        }
    }

    pub(crate) fn open(&mut self, wire: Wire, to: &Text)
        ensures { self.new ≡ opened_too wire to.now self.old }
    {
        self.opened = self.opened.and(&wire, to);
        self.held = self.held.and(&wire, &false);
    }

    pub(crate) fn pass(&mut self, wire: Wire, item: &Inward)
        ensures { self.new ≡ passed_too wire item.now self.old }
    {
        self.passed = self.passed.and(&wire, item);
    }

    pub(crate) fn give(&mut self, wire: Wire, given: &Given)
        ensures { self.new ≡ given_too wire given.now self.old }
    {
        self.given = self.given.and(&wire, given);
    }

    pub(crate) fn close(&mut self, wire: Wire)
        ensures { self.new ≡ closed_too wire self.old }
    {
        self.closed = self.closed.and(&wire, &wire);
        self.held = self.held.and(&wire, &false);
    }

    pub(crate) fn hold(&mut self, wire: Wire)
        ensures { self.new ≡ held_too wire self.old }
    {
        self.held = self.held.and(&wire, &true);
    }

    pub(crate) fn resume(&mut self, wire: Wire)
        ensures { self.new ≡ resumed_too wire self.old }
    {
        self.held = self.held.and(&wire, &false);
    }
}

ghost use Rattle.std.specs.Prelude.{◌≡◌, ◌==◌, [], not, filter, OnOk, OnErr};
ghost use Rattle.std.specs.List.{list_any};
ghost use Rattle.xmpp_backend.specs.Told.{has_wire, with_wire, without_wire};

use bosh_types::Wire;
use std::alloc::{AllocError, Global};
use std::marker::Model;

// The wires that are open, each once, in the order in which they were opened.
#[derive(Drop)]
pub(crate) struct Wires {
    items: Vec<Wire>,
}

impl Model for Wires {
    ghost use Rattle.std.specs.Prelude.{ℕ, List};

    ghost Value = { List ℕ };

    ghost view = { λ w. w.items.items };
}

impl Wires {
    pub(crate) fn new(alloc: Global) -> Self
        ensures { result ≡ [] }
    {
        Wires {
            items: Vec::new(alloc),
        }
    }

    pub(crate) fn as_slice(&self) -> &[Wire]
        ensures { result.now ≡ self.now }
    {
        self.items.as_slice()
    }

    pub(crate) fn contains(&self, wire: Wire) -> bool
        ensures { result ≡ has_wire wire self.now }
    {
        self.items
            .iter()
            .any(|other| other.number() == wire.number())
    }

    // The wire is among them from now on.
    pub(crate) fn insert(&mut self, wire: Wire) -> Result<(), AllocError>
        ensures ok { OnOk result (self.new ≡ with_wire wire self.old) }
        ensures err { OnErr result (self.new ≡ self.old) }
    {
        if self.contains(wire) {
            return Ok(());
        }
        self.items.push(wire)?;
        Ok(())
    }

    pub(crate) fn remove(&mut self, wire: Wire)
        ensures { self.new ≡ without_wire wire self.old }
    {
        self.items.retain(|other| other.number() != wire.number());
    }
}

ghost use Rattle.std.specs.Prelude.{◌≡◌, IfOk, IsTrue, map};
ghost use Rattle.body_cutter.specs.Cutting.{is_stanza};
ghost use Rattle.xmpp_backend.specs.Script.{are_stanzas};

use bosh_types::{CopyIn, SharedText, Text, Wire};
use std::alloc::{AllocError, Global};
use std::collections::VecDeque;
use std::marker::Model;

// A stanza that is owed on a wire.
#[derive(Debug, Drop)]
pub(crate) struct Owed {
    wire: Wire,
    stanza: SharedText,
}

impl Model for Owed {
    ghost use Rattle.std.specs.Prelude.{IsTrue};
    ghost use Rattle.body_cutter.specs.Cutting.{is_stanza};
    ghost use Rattle.xmpp_backend.specs.Dues.{OwedText};

    ghost Value = { OwedText };

    ghost view = { λ o. (o.wire, o.stanza) };

    ghost invariant = { λ o. IsTrue (is_stanza o.stanza) };
}

impl Owed {
    pub(crate) fn new(wire: Wire, stanza: SharedText) -> Self
        requires { IsTrue (is_stanza stanza) }
        ensures { result ≡ (wire, stanza) }
    {
        Owed { wire, stanza }
    }

    pub(crate) fn wire(&self) -> Wire
        ensures { result ≡ self.now.0 }
    {
        self.wire
    }

    // Its parts.
    pub(crate) fn into_parts(self) -> (Wire, SharedText)
        ensures wire { result.0 ≡ self.0 }
        ensures text { result.1 ≡ self.1 }
        ensures stanza { IsTrue (is_stanza result.1) }
    {
        let Owed { wire, stanza } = self;
        (wire, stanza)
    }
}

// This stanza on each of these wires, in order. No byte is copied.
pub(crate) fn owed_on_all(
    alloc: Global,
    wires: &[Wire],
    stanza: &SharedText,
) -> Result<VecDeque<Owed>, AllocError>
    requires { IsTrue (is_stanza stanza.now) }
    ensures { IfOk result (λ owed. owed.items ≡ map (λ wire. (wire, stanza.now)) wires.now) }
{
    let mut owed = VecDeque::with_capacity(alloc, wires.len())?;
    for wire in wires {
        owed.push_back(Owed::new(*wire, stanza.again()?))?;
    }
    Ok(owed)
}

// Each of these stanzas on this wire, in order. Each is copied once.
pub(crate) fn owed_in_turn(
    alloc: Global,
    wire: Wire,
    stanzas: &[Text],
) -> Result<VecDeque<Owed>, AllocError>
    requires { IsTrue (are_stanzas stanzas.now) }
    ensures { IfOk result (λ owed. owed.items ≡ map (λ stanza. (wire, stanza)) stanzas.now) }
{
    let mut owed = VecDeque::with_capacity(alloc, stanzas.len())?;
    for stanza in stanzas {
        let stanza = SharedText::new(alloc, stanza.copy_in(alloc)?)?;
        owed.push_back(Owed::new(wire, stanza))?;
    }
    Ok(owed)
}

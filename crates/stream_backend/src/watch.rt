// What tells where something may have happened.
use bosh_types::Wire;
use std::alloc::Global;

/// Tells on which links something may have happened, so that nobody has to look at those where nothing did. Nothing is claimed of
/// it: who doesn't hear of a link looks at it late.
pub trait Watch<L> {
    /// From now on what happens on this link is told under this wire. What was there before is told too. Whether it can be
    /// watched.
    fn begin(&mut self, wire: Wire, link: &L) -> bool;

    /// Exchanges these numbers of wires, which are to be none, for those on whose links something may have happened since the
    /// last call. Whether there was memory to note each of them.
    fn take(&mut self, wires: &mut Vec<u64>) -> bool;

    /// This wire is to be told of again, and whoever looks at the back end is to be woken for it.
    fn again(&mut self, wire: Wire);
}

/// Tells every wire that it was given, at every call: nothing is known of what happens on a link.
#[derive(Drop)]
pub struct EveryWire {
    wires: Vec<u64>,
}

impl EveryWire {
    /// No link is watched. It takes no memory.
    pub fn new(alloc: Global) -> EveryWire {
        EveryWire {
            wires: Vec::new(alloc),
        }
    }
}

impl<L> Watch<L> for EveryWire {
    fn begin(&mut self, wire: Wire, _link: &L) -> bool {
        self.wires.push(wire.number()).is_ok()
    }

    fn take(&mut self, wires: &mut Vec<u64>) -> bool {
        wires.extend_from_slice(&self.wires).is_ok()
    }

    fn again(&mut self, _wire: Wire) {}
}

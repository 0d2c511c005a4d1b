// Giving the whole of some bytes.
ghost use Rattle.std.specs.Prelude.{◌≡◌, ◌≤◌, OnErr, OnOk};
ghost use Rattle.bosh_ports.specs.Faults.{HasRisen};
ghost use Rattle.bosh_ports.specs.Sink.{GivesAll};

use crate::sink::{Gave, Sink};

/// A sink failed; what it was given before stays given.
#[derive(Clone, Copy, Debug, PartialEq, Eq)]
pub struct WriteFault;

/// Gives all of the bytes, in as many pieces as the sink wants.
pub fn give_all<K: Sink>(sink: &mut K, bytes: &[u8]) -> Result<(), WriteFault>
    ensures given { GivesAll result (K.given sink.old) (K.given sink.new) bytes.now }
    ensures fault { OnErr result (HasRisen (K.faults sink.old) (K.faults sink.new)) }
    ensures counts { OnOk result (K.faults sink.new ≡ K.faults sink.old) }
    ensures faults { K.faults sink.old ≤ K.faults sink.new }
{
    let mut rest = bytes;
    while !rest.is_empty() {
        match sink.give(rest) {
            Gave::Wrote(n) => rest = &rest[n..],
            Gave::Failed => return Err(WriteFault),
        }
    }
    Ok(())
}

// Giving the whole of some bytes to a link.
ghost use Rattle.std.specs.Prelude.{◌≡◌, ◌≤◌, OnErr, OnOk, map};
ghost use Rattle.std.specs.List.{concat};
ghost use Rattle.std.specs.Io.KnownBytes.{Keeps};
ghost use Rattle.bosh_ports.specs.Faults.{HasRisen};
ghost use Rattle.bosh_ports.specs.Sink.{GivesAll};

use crate::giving::WriteFault;
use crate::link::Link;
use crate::sink::Gave;

/// Gives all of the bytes to a link, in as many pieces as it wants.
pub fn send_all<L: Link>(link: &mut L, bytes: &[u8]) -> Result<(), WriteFault>
    ensures given { GivesAll result (L.given link.old) (L.given link.new) bytes.now }
    ensures left { Keeps (L.left link.old) (L.left link.new) }
    ensures fault { OnErr result (HasRisen (L.faults link.old) (L.faults link.new)) }
    ensures counts { OnOk result (L.faults link.new ≡ L.faults link.old) }
    ensures faults { L.faults link.old ≤ L.faults link.new }
{
    let mut rest = bytes;
    while !rest.is_empty() {
        match link.give(rest) {
            Gave::Wrote(n) => rest = &rest[n..],
            Gave::Failed => return Err(WriteFault),
        }
    }
    Ok(())
}

/// Gives all of some parts to a link, one after the other. It takes no memory.
pub fn send_parts<L: Link>(link: &mut L, parts: &[&[u8]]) -> Result<(), WriteFault>
    ensures given { GivesAll result (L.given link.old) (L.given link.new) (concat (map (λ part. part.now) parts.now)) }
    ensures left { Keeps (L.left link.old) (L.left link.new) }
    ensures fault { OnErr result (HasRisen (L.faults link.old) (L.faults link.new)) }
    ensures counts { OnOk result (L.faults link.new ≡ L.faults link.old) }
    ensures faults { L.faults link.old ≤ L.faults link.new }
{
    for part in parts {
        send_all(link, part)?;
    }
    Ok(())
}
